//! Marked calls.
ghost use Rattle.std.specs.Prelude.{◌≡◌, ◌+◌, ◌%◌, ◌^◌, ℤ, true, false, Some, IfSome, IfNone, IsTrue};
ghost use Rattle.sm_types.specs.declared.insn.Insn.TheVariants as insn;
ghost use Rattle.sm_types.specs.declared.insn.Branch.TheVariants as branch;
ghost use Rattle.sm_types.specs.Routines.{tail_words};
ghost use Rattle.a64_encode.specs.Either.{instruction_of};
ghost use Rattle.scalar_exec.specs.Branches as spec;
ghost use Rattle.kernel_contexts.specs.Context.{state_of};
ghost use Rattle.lazy_saving.specs.Dormant.{Places};
ghost use Rattle.za_routines.specs.Places.{places_of};
ghost use Rattle.abi_checker.specs.Marks as marks;
ghost use Rattle.abi_checker.specs.Marks.{HasMark};
ghost use Rattle.abi_checker.specs.Watching.{IsNextCall, IsNextWord, IsNoCall, IsNoMarkPast};

use crate::bytes::{are_words, word_in};
use insn_decode::decode;
use kernel_contexts::Context;
use paged_memory::Pages;
use scalar_exec::branch_target;
use sm_types::routines::{DISABLE, RESTORE, call_tail, routines_are_listed};
use sm_types::{Branch, Insn};
use za_routines::RoutinePlaces;

/// Whether a word is that of a BL or a BLR.
#[inline]
pub fn is_call_word(word: u32) -> bool
    ensures { result ≡ marks.is_call_word word }
{
    word / 0x400_0000 == 0x25 || (word / 0x400 == 0x35_8FC0 && word % 32 == 0)
}

/// Where the call at PC comes back to, if a BL or a BLR stands there.
#[inline]
pub fn next_call(context: &Context) -> Option<u64>
    ensures some { IfSome result (λ past. IsNextCall (state_of context.now) past) }
    ensures none { IfNone result (IsNoCall (state_of context.now)) }
{
    let machine = context.machine();
    let pc = machine.scalars.pc;
    match machine.pages.fetch(pc) {
        Some(word) if is_call_word(word) => Some(pc.wrapping_add(4)),
        _ => None,
    }
}

/// The same, of the word that stands there.
#[inline]
pub fn call_at(context: &Context, word: u32) -> Option<u64>
    requires { IsNextWord (state_of context.now) word }
    ensures some { IfSome result (λ past. IsNextCall (state_of context.now) past) }
    ensures none { IfNone result (IsNoCall (state_of context.now)) }
{
    if is_call_word(word) {
        Some(context.machine().scalars.pc.wrapping_add(4))
    } else {
        None
    }
}

/// The address to which the word at an address calls, if it is that of a BL.
fn target_of(word: u32, address: u64) -> Option<u64>
    ensures some { IfSome result (λ target. (distance : ℤ)
        × (instruction_of word ≡ Some (insn.Branch (branch.Unconditional true distance)))
        × (target ≡ spec.branch_target address distance)) }
    ensures none { IfNone result ((distance : ℤ)
        → ¬ (instruction_of word ≡ Some (insn.Branch (branch.Unconditional true distance)))) }
{
    match decode(word) {
        Some(Insn::Branch(Branch::Unconditional { link: true, words })) => {
            Some(branch_target(address, words))
        }
        _ => None,
    }
}

/// The words of the tail with that of its BL.
fn tail_words(call: u32) -> [u32; 6]
    ensures { result ≡ tail_words call }
{
    let mut words = call_tail(0);
    words[4] = call;
    words
}

/// The first word of the tail: SMSTART ZA.
pub const TAIL_START: u32 = 0xD503_457F;

/// Whether the first word of a tail is at an address, by its bytes.
#[inline(never)]
fn has_first_bytes(pages: &Pages, tail: u64) -> bool
    ensures { (p : Places) → p.tail ≡ tail → HasMark pages.now.memory p → IsTrue result }
{
    match word_in(pages, tail) {
        Some(word) => word == TAIL_START,
        None => false,
    }
}

/// Whether the first word of a tail is at an address; where it is not, there is no tail.
#[inline(always)]
fn has_first_word(pages: &Pages, tail: u64) -> bool
    ensures { (p : Places) → p.tail ≡ tail → HasMark pages.now.memory p → IsTrue result }
{
    match pages.fetch(tail) {
        Some(word) => word == TAIL_START,
        None => has_first_bytes(pages, tail),
    }
}

/// Whether the first word of a tail stands behind a call.
#[inline(always)]
pub fn may_be_marked(context: &Context, past: Option<u64>) -> bool
    ensures { result ≡ false → IsNoMarkPast (state_of context.now) past }
{
    match past {
        Some(past) => has_first_word(&context.machine().pages, past),
        None => false,
    }
}

/// The places of the tail at an address and of the routines that go with it, if they are there.
pub fn mark_at(pages: &Pages, tail: u64) -> Option<RoutinePlaces>
    ensures tail { IfSome result (λ places. places.tail ≡ tail) }
    ensures some { IfSome result (λ places. HasMark pages.now.memory (places_of places)) }
    ensures none { IfNone result ((p : Places) → p.tail ≡ tail → ¬ HasMark pages.now.memory p) }
{
    if !has_first_word(pages, tail) {
        return None;
    }
    routines_are_listed();
    let place = tail.wrapping_add(16);
    let call = word_in(pages, place)?;
    let restore = target_of(call, place)?;
    let disable = restore.wrapping_sub(80);
    if are_words(pages, tail, &tail_words(call))
        && are_words(pages, restore, &RESTORE)
        && are_words(pages, disable, &DISABLE)
    {
        Some(RoutinePlaces {
            disable,
            restore,
            tail,
        })
    } else {
        None
    }
}
