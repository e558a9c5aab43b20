//! The distance from an instruction to its target.
ghost use Rattle.std.specs.Prelude.{◌≡◌, ◌-◌, ◌<◌, ◌^◌, true};
ghost use Rattle.asm_operands.specs.Sound.{is_sound};
ghost use Rattle.asm_core.specs.Targets as targets;

use asm_operands::{unit_of, with_distance};
use insn_text::Item;

/// The start of the page that has the address, where the operand counts pages of 4096 bytes; else the
/// address.
#[tactic(auto, unfolding(crate::specs::Targets::counted_from))]
fn counted_from(operand: &Item, address: u64) -> u64
    requires { address < 2 ^ 32 }
    ensures value { result ≡ targets.counted_from operand.now address }
    ensures small { result < 2 ^ 32 }
{
    if unit_of(operand.kind) == 4096 {
        address / 4096 * 4096
    } else {
        address
    }
}

/// The distance in bytes from an instruction to its target.
#[tactic(auto, unfolding(crate::specs::Targets::distance))]
pub fn distance(operand: &Item, from: u64, target: u64) -> i64
    requires from { from < 2 ^ 32 }
    requires target { target < 2 ^ 32 }
    ensures { result ≡ targets.distance operand.now from target }
{
    counted_from(operand, target) as i64 - counted_from(operand, from) as i64
}

/// The word of an instruction at an address with the distance to a target, where the operand holds it.
#[tactic(auto, unfolding(crate::specs::Targets::word_to))]
pub fn word_to(operand: &Item, word: u32, from: u64, target: u64) -> Option<u32>
    requires sound { is_sound operand.now ≡ true }
    requires from { from < 2 ^ 32 }
    requires target { target < 2 ^ 32 }
    ensures { result ≡ targets.word_to operand.now word from target }
{
    let start = counted_from(operand, from);
    let end = counted_from(operand, target);
    if start <= end {
        with_distance(operand, word, false, end - start)
    } else {
        with_distance(operand, word, true, start - end)
    }
}
