//! Numbers in memory, the low byte first.
ghost use Rattle.std.specs.Prelude.{◌≡◌, ◌≢◌, ◌+◌, ◌*◌, ◌%◌, ◌^◌, ◌<◌, ◌≤◌, length, take, drop, None, Some};
ghost use Rattle.std.specs.Prelude.{IfOk, IfErr, OnOk, OnErr, Err};
ghost use Rattle.sm_types.specs.Bytes.{little_number};
ghost use Rattle.paged_memory.specs.Memory.{run_of, set_bytes};
ghost use Rattle.paged_memory.specs.PageTable.{AreOwned, Owns};
ghost use Rattle.mem_access.specs.Access.{bytes_in, register_size};
ghost use Rattle.mem_access.specs.Transfer.{raised_by};
ghost use Rattle.mem_access.specs.Runs.{denied_read, denied_write, number_in, with_number};

use crate::access::bytes_in;
use crate::stop::AccessStop;
use paged_memory::{Pages, WriteStop};
use sm_types::{Access, AccessSize, Exception};

/// The number of some bytes.
#[inline(always)]
pub fn number_of(bytes: &[u8], size: AccessSize) -> u64
    requires { length bytes.now ≡ bytes_in size }
    ensures value { result ≡ little_number bytes.now }
    ensures small { result < 2 ^ (8 * bytes_in size) }
{
    match size {
        AccessSize::Byte => u64::from(bytes[0]),
        AccessSize::Halfword => u64::from(u16::from_le_bytes([bytes[0], bytes[1]])),
        AccessSize::Word => {
            u64::from(u32::from_le_bytes([bytes[0], bytes[1], bytes[2], bytes[3]]))
        }
        AccessSize::Doubleword => u64::from_le_bytes([
            bytes[0], bytes[1], bytes[2], bytes[3], bytes[4], bytes[5], bytes[6], bytes[7],
        ]),
    }
}

/// The number at an address, or the exception of its first byte that cannot be read.
#[inline(always)]
pub fn read_number(pages: &Pages, address: u64, size: AccessSize) -> Result<u64, Exception>
    ensures value { IfOk result (λ n. n ≡ number_in pages.now.memory address (bytes_in size)) }
    ensures small { IfOk result (λ n. n < 2 ^ (8 * bytes_in size)) }
    ensures allowed { OnOk result (denied_read pages.now.memory address (bytes_in size) ≡ None) }
    ensures denied { IfErr result (λ e. denied_read pages.now.memory address (bytes_in size) ≡ Some e) }
{
    let count = bytes_in(size);
    if address % 4096 + count <= 4096 {
        match pages.bytes_within(address, count as usize) {
            Some(bytes) => Ok(number_of(bytes, size)),
            None => Err(Exception::Data {
                address,
                access: Access::Read,
            }),
        }
    } else {
        read_across(pages, address, size)
    }
}

/// The same, where the bytes may lie in two pages.
#[inline(never)]
fn read_across(pages: &Pages, address: u64, size: AccessSize) -> Result<u64, Exception>
    ensures value { IfOk result (λ n. n ≡ number_in pages.now.memory address (bytes_in size)) }
    ensures small { IfOk result (λ n. n < 2 ^ (8 * bytes_in size)) }
    ensures allowed { OnOk result (denied_read pages.now.memory address (bytes_in size) ≡ None) }
    ensures denied { IfErr result (λ e. denied_read pages.now.memory address (bytes_in size) ≡ Some e) }
{
    let mut room = [0; 8];
    let bytes = &mut room[..bytes_in(size) as usize];
    match pages.read(address, bytes) {
        Ok(()) => Ok(number_of(bytes, size)),
        Err(abort) => Err(Exception::Data {
            address: abort.address,
            access: Access::Read,
        }),
    }
}

/// Writes bytes, or says why it does not.
#[inline(always)]
pub fn write_bytes(pages: &mut Pages, address: u64, bytes: &[u8]) -> Result<(), AccessStop>
    ensures ok { OnOk result (pages.new.memory ≡ record pages.old.memory {
      mem = set_bytes pages.old.memory.mem
          address bytes.now;
    }) }
    ensures allowed { OnOk result (denied_write pages.old.memory address (length bytes.now) ≡ None) }
    ensures stops { IfErr result (λ e. denied_write pages.old.memory address (length bytes.now)
        ≡ raised_by e) }
    ensures err { OnErr result (pages.new.memory ≡ pages.old.memory) }
    ensures room { AreOwned pages.old address (length bytes.now) → result ≢ Err AccessStop.Memory }
    ensures owned { Owns raised_by (run_of address (length bytes.now)) pages.old pages.new result }
{
    match pages.write(address, bytes) {
        Ok(()) => Ok(()),
        Err(WriteStop::Abort(abort)) => Err(AccessStop::Raise(Exception::Data {
            address: abort.address,
            access: Access::Write,
        })),
        Err(WriteStop::Memory) => Err(AccessStop::Memory),
    }
}

/// Writes the low bytes of a value, or says why it does not.
#[inline(always)]
pub fn write_number(
    pages: &mut Pages,
    address: u64,
    size: AccessSize,
    value: u64,
) -> Result<(), AccessStop>
    ensures ok { OnOk result (pages.new.memory ≡ with_number pages.old.memory address (bytes_in size) value) }
    ensures allowed { OnOk result (denied_write pages.old.memory address (bytes_in size) ≡ None) }
    ensures stops { IfErr result (λ e. denied_write pages.old.memory address (bytes_in size) ≡ raised_by e) }
    ensures err { OnErr result (pages.new.memory ≡ pages.old.memory) }
    ensures room { AreOwned pages.old address (bytes_in size) → result ≢ Err AccessStop.Memory }
    ensures owned { Owns raised_by (run_of address (bytes_in size)) pages.old pages.new result }
{
    let bytes = value.to_le_bytes();
    write_bytes(pages, address, &bytes[..bytes_in(size) as usize])
}
