//! The TPIDR2 block and the buffer that it names (AAPCS64, the ZA lazy saving scheme).
ghost use Rattle.std.specs.Prelude.{◌≡◌, ◌+◌, ◌≤◌, ◌↔◌, ◌^◌, ℕ, List, Some, None, length, take, drop, replicate};
ghost use Rattle.std.specs.Prelude.{IfSome, IfNone, IsTrue};
ghost use Rattle.sm_types.specs.Bytes.{little_number};
ghost use Rattle.paged_memory.specs.Memory.{bytes_with};
ghost use Rattle.lazy_saving.specs.Block.{IsBlock, IsBuffer, buffer_of, slices_of};
ghost use Rattle.lazy_saving.specs.Dormant.{buffer_size};
ghost use Rattle.lazy_saving.specs.Outcome.{instructions_of};

use crate::checks::{can_access, is_private};
use byteorder::{ByteOrder, LittleEndian};
use paged_memory::Pages;
use sm_types::Access;

/// The number of two bytes at an offset.
fn u16_at(bytes: &[u8], offset: usize) -> u16
    requires { offset + 2 ≤ length bytes.now }
    ensures { result ≡ little_number (take 2 (drop offset bytes.now)) }
{
    LittleEndian::read_u16(&bytes[offset..])
}

/// The number of eight bytes at an offset.
fn u64_at(bytes: &[u8], offset: usize) -> u64
    requires { offset + 8 ≤ length bytes.now }
    ensures { result ≡ little_number (take 8 (drop offset bytes.now)) }
{
    LittleEndian::read_u64(&bytes[offset..])
}

/// The bytes of the block at an address; `None` exactly where one of them cannot be read.
pub fn read_block(pages: &Pages, address: u64) -> Option<[u8; 16]>
    ensures some { IfSome result (λ block. bytes_with 4 pages.now.memory address 16 ≡ Some block) }
    ensures long { IfSome result (λ block. length block ≡ 16) }
    ensures none { IfNone result (bytes_with 4 pages.now.memory address 16 ≡ None) }
{
    let mut block = [0; 16];
    match pages.read(address, &mut block) {
        Ok(()) => Some(block),
        Err(_) => None,
    }
}

/// The address of the buffer.
pub fn buffer_address(block: &[u8]) -> u64
    requires { length block.now ≡ 16 }
    ensures { result ≡ buffer_of block.now }
{
    u64_at(block, 0)
}

/// The number of slices.
fn slices(block: &[u8]) -> u32
    requires { length block.now ≡ 16 }
    ensures value { result ≡ slices_of block.now }
    ensures small { result ≤ 65535 }
{
    u32::from(u16_at(block, 8))
}

/// How many bytes the slices that are saved have, where one has `size`.
pub fn saved_bytes(block: &[u8], size: usize) -> u64
    requires long { length block.now ≡ 16 }
    requires small { size ≤ 256 }
    ensures { result ≡ buffer_size size block.now }
{
    if buffer_address(block) == 0 {
        return 0;
    }
    u64::from(slices(block)) * size as u64
}

/// How many instructions a routine takes with a block: so many with a null buffer, so many without slices, or
/// so many and five for each slice.
pub fn instructions(block: &[u8], null: u32, none: u32, some: u32) -> u32
    requires long { length block.now ≡ 16 }
    requires small { some ≤ 1000 }
    ensures { result ≡ instructions_of null none some block.now }
{
    if buffer_address(block) == 0 {
        return null;
    }
    let slices = slices(block);
    if slices == 0 {
        return none;
    }
    some + 5 * slices
}

/// Whether these bytes are all zero.
fn are_zeros(bytes: &[u8]) -> bool
    ensures { IsTrue result ↔ (bytes.now ≡ replicate (length bytes.now) 0) }
{
    let mut index = 0;
    'bytes: while index < bytes.len() {
        if bytes[index] != 0 {
            return false;
        }
        index += 1;
    }
    true
}

/// Whether the 16 bytes at an address, which can be read, are a valid block for a ZA of `size` slices.
pub fn is_block(pages: &Pages, size: usize, address: u64, block: &[u8]) -> bool
    requires read { bytes_with 4 pages.now.memory address 16 ≡ Some block.now }
    requires long { length block.now ≡ 16 }
    ensures { IsTrue result ↔ IsBlock pages.now.memory size address block.now }
{
    address % 16 == 0
        && address != 0
        && is_private(address, 16)
        && are_zeros(&block[10..])
        && slices(block) as usize <= size
}

/// Whether so many bytes from an address on are private, can be read and written, and do not pass 2^64.
pub fn is_buffer(pages: &Pages, address: u64, count: u64) -> bool
    ensures { IsTrue result ↔ IsBuffer pages.now.memory address count }
{
    (count == 0 || address <= u64::MAX - (count - 1))
        && is_private(address, count)
        && can_access(pages, address, count, Access::Read)
        && can_access(pages, address, count, Access::Write)
}
