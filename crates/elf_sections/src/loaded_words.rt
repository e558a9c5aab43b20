//! The words that the loads have in memory.
ghost use Rattle.std.specs.Prelude.{◌≡◌, ◌+◌, ◌≤◌, ◌<◌, ◌^◌, ℕ, length, get_or, slice_get, take, drop, true};
ghost use Rattle.paged_memory.specs.Image.{or_zero};
ghost use Rattle.elf_headers.specs.declared.program_header.ProgramHeader.{ProgramHeader};
ghost use Rattle.elf_headers.specs.Loads.{has_address};
ghost use Rattle.elf_sections.specs.LoadMap.{AreInOrder, AreLoadsOf, has_load};
ghost use Rattle.elf_sections.specs.Code.{loaded_byte, loaded_word};

use crate::load_map::find_load;
use elf_headers::{ProgramHeader, u32_at};

/// Byte number `k` of a load: one of the file, or a zero past them.
fn byte_of(file: &[u8], s: &ProgramHeader, k: u64) -> u8
    requires { 0 < s.now.file_size → s.now.offset + s.now.file_size ≤ length file.now }
    ensures { result ≡ or_zero (slice_get (take s.now.file_size (drop s.now.offset file.now)) k) }
{
    if k < s.file_size {
        file[(s.offset + k) as usize]
    } else {
        0
    }
}

/// The byte that the loads have at an address, or a zero where they have none.
fn byte_at(file: &[u8], loads: &[ProgramHeader], a: u64) -> u8
    requires { AreLoadsOf file.now loads.now }
    ensures { result ≡ loaded_byte file.now a }
{
    match find_load(loads, a) {
        Some(i) => byte_of(file, &loads[i], a - loads[i].address),
        None => 0,
    }
}

/// The word of the four bytes from an address on, byte by byte.
#[tactic(auto, unfolding(crate::specs::Code::loaded_word))]
fn word_of_bytes(file: &[u8], loads: &[ProgramHeader], a: u64) -> u32
    requires loads { AreLoadsOf file.now loads.now }
    requires low { a < 2 ^ 47 }
    ensures { result ≡ loaded_word file.now a }
{
    u32::from_le_bytes([
        byte_at(file, loads, a),
        byte_at(file, loads, a + 1),
        byte_at(file, loads, a + 2),
        byte_at(file, loads, a + 3),
    ])
}

/// Tells whether the four bytes from an address on are bytes of the load that stand in the file.
fn has_file_word(s: &ProgramHeader, a: u64) -> bool
    requires low { s.now.address + s.now.file_size ≤ 2 ^ 47 }
    requires below { a < 2 ^ 47 }
    ensures from { result ≡ true → s.now.address ≤ a }
    ensures to { result ≡ true → a + 4 ≤ s.now.address + s.now.file_size }
{
    s.address <= a && a + 4 <= s.address + s.file_size
}

/// The word of the four bytes from an address on; where load number `near` has them in the file, they are
/// read at once.
pub fn word_at(file: &[u8], loads: &[ProgramHeader], near: usize, a: u64) -> u32
    requires loads { AreLoadsOf file.now loads.now }
    requires low { a < 2 ^ 47 }
    ensures { result ≡ loaded_word file.now a }
{
    if near < loads.len() && has_file_word(&loads[near], a) {
        u32_at(
            file,
            (loads[near].offset + (a - loads[near].address)) as usize,
        )
    } else {
        word_of_bytes(file, loads, a)
    }
}

/// The number of the load that has the address, if one has; load number `near` is tried first.
pub fn near_load(loads: &[ProgramHeader], near: usize, a: u64) -> usize
    requires { AreInOrder loads.now }
    ensures { has_load loads.now a ≡ true → (d : ProgramHeader)
        → has_address (get_or loads.now result d) a ≡ true }
{
    if near < loads.len()
        && loads[near].address <= a
        && a < loads[near].address + loads[near].memory_size
    {
        near
    } else {
        find_load(loads, a).unwrap_or(near)
    }
}
