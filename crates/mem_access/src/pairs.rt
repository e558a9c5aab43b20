//! Pairs of registers in memory, the first in the lower bytes.
ghost use Rattle.std.specs.Prelude.{◌≡◌, ◌≢◌, ◌*◌, ◌/◌, ◌%◌, ◌^◌, ◌<◌, ◌++◌, length, take, drop, None, IfOk};
ghost use Rattle.std.specs.Prelude.{IfErr, OnOk, OnErr, Err};
ghost use Rattle.std.specs.Int.{bytes_low_first};
ghost use Rattle.sm_types.specs.Bytes.{little_number};
ghost use Rattle.paged_memory.specs.PageTable.{AreOwned, Owns};
ghost use Rattle.paged_memory.specs.Memory.{run_of};
ghost use Rattle.mem_access.specs.Access.{register_size};
ghost use Rattle.mem_access.specs.Transfer.{raised_by, pair_bytes};
ghost use Rattle.mem_access.specs.Runs.{denied_read, denied_write, number_in, with_bytes};

use crate::access::register_size;
use crate::numbers::{number_of, write_bytes};
use crate::stop::AccessStop;
use paged_memory::Pages;
use sm_types::{Access, AccessSize, Exception};

/// The two numbers of some bytes.
#[inline(always)]
pub fn numbers_of(bytes: &[u8], wide: bool) -> (u64, u64)
    requires { length bytes.now ≡ 2 * register_size wide }
    ensures first { result.0 ≡ little_number (take (register_size wide) bytes.now) }
    ensures second { result.1 ≡ little_number (drop (register_size wide) bytes.now) }
    ensures small { result.0 < 2 ^ (8 * register_size wide) }
{
    if wide {
        (
            number_of(&bytes[..8], AccessSize::Doubleword),
            number_of(&bytes[8..], AccessSize::Doubleword),
        )
    } else {
        (
            number_of(&bytes[..4], AccessSize::Word),
            number_of(&bytes[4..], AccessSize::Word),
        )
    }
}

/// The numbers at an address, or the exception of the first byte that cannot be read.
#[inline(always)]
pub fn read_pair(pages: &Pages, address: u64, wide: bool) -> Result<(u64, u64), Exception>
    ensures first { let whole = number_in pages.now.memory address (2 * register_size wide)
        in IfOk result (λ p. p.0 ≡ whole % 2 ^ (8 * register_size wide)) }
    ensures second { let whole = number_in pages.now.memory address (2 * register_size wide)
        in IfOk result (λ p. p.1 ≡ whole / 2 ^ (8 * register_size wide)) }
    ensures allowed { OnOk result (denied_read pages.now.memory address (2 * register_size wide) ≡ None) }
    ensures denied { IfErr result (λ e. denied_read pages.now.memory address (2 * register_size wide)
        ≡ Some e) }
{
    let count = 2 * register_size(wide);
    if address % 4096 + count <= 4096 {
        match pages.bytes_within(address, count as usize) {
            Some(bytes) => Ok(numbers_of(bytes, wide)),
            None => Err(Exception::Data {
                address,
                access: Access::Read,
            }),
        }
    } else {
        read_pair_across(pages, address, wide)
    }
}

/// The same, where the bytes may lie in two pages.
fn read_pair_across(pages: &Pages, address: u64, wide: bool) -> Result<(u64, u64), Exception>
    ensures first { let whole = number_in pages.now.memory address (2 * register_size wide)
        in IfOk result (λ p. p.0 ≡ whole % 2 ^ (8 * register_size wide)) }
    ensures second { let whole = number_in pages.now.memory address (2 * register_size wide)
        in IfOk result (λ p. p.1 ≡ whole / 2 ^ (8 * register_size wide)) }
    ensures allowed { OnOk result (denied_read pages.now.memory address (2 * register_size wide) ≡ None) }
    ensures denied { IfErr result (λ e. denied_read pages.now.memory address (2 * register_size wide)
        ≡ Some e) }
{
    let mut room = [0; 16];
    let bytes = &mut room[..2 * register_size(wide) as usize];
    match pages.read(address, bytes) {
        Ok(()) => Ok(numbers_of(bytes, wide)),
        Err(abort) => Err(Exception::Data {
            address: abort.address,
            access: Access::Read,
        }),
    }
}

/// Eight bytes after eight.
#[inline(always)]
pub fn joined_wide(first: u64, second: u64) -> [u8; 16]
    ensures { result ≡ bytes_low_first 0 8 first ++ bytes_low_first 0 8 second }
{
    let mut bytes = [0; 16];
    bytes[..8].copy_from_slice(&first.to_le_bytes());
    bytes[8..].copy_from_slice(&second.to_le_bytes());
    bytes
}

/// Four bytes after four.
#[inline(always)]
pub fn joined_narrow(first: u64, second: u64) -> [u8; 8]
    ensures { result ≡ bytes_low_first 0 4 first ++ bytes_low_first 0 4 second }
{
    let mut bytes = first.to_le_bytes();
    bytes[4..].copy_from_slice(&second.to_le_bytes()[..4]);
    bytes
}

/// Writes the low bytes of two values, or says why it does not.
#[inline(always)]
pub fn write_pair(
    pages: &mut Pages,
    address: u64,
    wide: bool,
    first: u64,
    second: u64,
) -> Result<(), AccessStop>
    ensures ok { OnOk result
        (pages.new.memory ≡ with_bytes pages.old.memory address (pair_bytes wide first second)) }
    ensures allowed { OnOk result (denied_write pages.old.memory address (2 * register_size wide) ≡ None) }
    ensures stops { IfErr result (λ e. denied_write pages.old.memory address (2 * register_size wide)
        ≡ raised_by e) }
    ensures err { OnErr result (pages.new.memory ≡ pages.old.memory) }
    ensures room { AreOwned pages.old address (2 * register_size wide) → result ≢ Err AccessStop.Memory }
    ensures owned { Owns raised_by (run_of address (2 * register_size wide)) pages.old pages.new result }
{
    if wide {
        write_bytes(pages, address, &joined_wide(first, second))
    } else {
        write_bytes(pages, address, &joined_narrow(first, second))
    }
}
