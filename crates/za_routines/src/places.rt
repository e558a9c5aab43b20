//! Where the words of the routines and of a tail stand, and whether they stand there.
ghost use Rattle.std.specs.Prelude.{◌≡◌, ◌≤◌, ◌↔◌, Some, true, ℕ, ℤ, length, IsTrue};
ghost use Rattle.sm_types.specs.declared.insn.Insn.TheVariants as insn;
ghost use Rattle.sm_types.specs.declared.insn.Branch.TheVariants as branch;
ghost use Rattle.sm_types.specs.Routines.{tail_words};
ghost use Rattle.a64_encode.specs.Either.{instruction_of};
ghost use Rattle.scalar_exec.specs.Branches as spec;
ghost use Rattle.paged_memory.specs.Memory.{bytes_with};
ghost use Rattle.lazy_saving.specs.Code.{HasWords, HasTail};
ghost use Rattle.lazy_saving.specs.Dormant.{IsReady};
ghost use Rattle.za_routines.specs.Places.{places_of};

use crate::block::{buffer_address, is_block, is_buffer, saved_bytes};
use crate::checks::{are_apart, can_access};
use insn_decode::decode;
use paged_memory::Pages;
use scalar_exec::branch_target;
use sm_types::routines::{DISABLE, RESTORE, call_tail, routines_are_listed};
use sm_types::{Access, Branch, Insn};

/// Where the words of the routines that a call uses stand, and those of its tail.
#[derive(Clone, Copy, Debug, PartialEq, Eq)]
pub struct RoutinePlaces {
    /// The first word of `__arm_za_disable`.
    pub disable: u64,
    /// The first word of `__arm_tpidr2_restore`.
    pub restore: u64,
    /// The first word of the tail.
    pub tail: u64,
}

/// Whether the words stand from an address on, where they can be read and executed.
fn has_words(pages: &Pages, address: u64, words: &[u32]) -> bool
    requires { length words.now ≤ 20 }
    ensures { IsTrue result ↔ HasWords pages.now.memory address words.now }
{
    if address % 4 != 0 || !can_access(pages, address, 4 * words.len() as u64, Access::Read) {
        return false;
    }
    let mut index = 0;
    'words: while index < words.len() {
        if pages.fetch(address.wrapping_add(4 * index as u64)) != Some(words[index]) {
            return false;
        }
        index += 1;
    }
    true
}

/// Whether the word at an address is a BL that goes to the other.
fn calls(word: u32, address: u64, routine: u64) -> bool
    ensures { IsTrue result ↔ ((distance : ℤ)
        × (instruction_of word ≡ Some (insn.Branch (branch.Unconditional true distance)))
        × (spec.branch_target address distance ≡ routine)) }
{
    match decode(word) {
        Some(Insn::Branch(Branch::Unconditional { link: true, words })) => {
            branch_target(address, words) == routine
        }
        _ => false,
    }
}

/// The words of the tail with that of its BL.
fn tail_words(call: u32) -> [u32; 6]
    ensures { result ≡ tail_words call }
{
    let mut words = call_tail(0);
    words[4] = call;
    words
}

/// Whether the tail stands at an address, and calls the routine at the other.
fn has_tail(pages: &Pages, address: u64, routine: u64) -> bool
    ensures { IsTrue result ↔ HasTail pages.now.memory address routine }
{
    let place = address.wrapping_add(16);
    match pages.fetch(place) {
        Some(call) => calls(call, place, routine) && has_words(pages, address, &tail_words(call)),
        None => false,
    }
}

/// Whether memory has the block at an address, with these bytes, its buffer and the words, as ZA of `size`
/// slices needs them.
pub fn is_ready(
    pages: &Pages,
    places: &RoutinePlaces,
    size: usize,
    address: u64,
    block: &[u8],
) -> bool
    requires small { size ≤ 256 }
    requires read { bytes_with 4 pages.now.memory address 16 ≡ Some block.now }
    requires long { length block.now ≡ 16 }
    ensures { IsTrue result ↔ IsReady (places_of places.now) pages.now.memory size address block.now }
{
    routines_are_listed();
    let buffer = buffer_address(block);
    let count = saved_bytes(block, size);
    is_block(pages, size, address, block)
        && is_buffer(pages, buffer, count)
        && has_words(pages, places.disable, &DISABLE)
        && has_words(pages, places.restore, &RESTORE)
        && has_tail(pages, places.tail, places.restore)
        && are_apart(buffer, count, address, 16)
        && are_apart(buffer, count, places.disable, 80)
        && are_apart(buffer, count, places.restore, 72)
        && are_apart(buffer, count, places.tail, 24)
}
