//! Names on a line: the addresses that they stand for, and the distances to them.
ghost use Rattle.std.specs.Prelude.{◌≡◌, ◌≤◌, ◌<◌, ◌^◌, List, Option, Some, None, true, false, IfOk, IfErr};
ghost use Rattle.std.specs.Prelude.{MatchOption, option_map, is_some};
ghost use Rattle.a64_encode.specs.Either.{instruction_of};
ghost use Rattle.asm_parser.specs.Statements.{target_said, value_of};
ghost use Rattle.asm_core.specs.Layout as layout;
ghost use Rattle.asm_core.specs.Targets as targets;
ghost use Rattle.asm_core.specs.Faults.{is_undefined, instruction_fault, distance_fault};
ghost use Rattle.asm_core.specs.Assembly as assembly;
ghost use Rattle.asm_core.specs.Emitted.{AreNear, CanHave, IsMeant, names_by};

use crate::fault::AsmFault;
use crate::labels::{LabelPosition, Labels};
use crate::target_distance::{distance, word_to};
use asm_parser::{Target, Value};
use insn_text::Item;
use sm_types::{Section, TEXT_ADDRESS};

/// What the names of a source stand for: its labels, and how many bytes its text has.
#[derive(Clone, Copy)]
pub struct Addresses<'l, 'a> {
    pub labels: &'l Labels<'a>,
    pub text_size: u64,
}

/// Where a part begins, for a text of so many bytes.
fn base_of(part: Section, text_size: u64) -> u64
    requires { text_size ≤ 4194304 }
    ensures value { result ≡ layout.base_of text_size part }
    ensures small { result < 2 ^ 30 }
{
    match part {
        Section::Text => TEXT_ADDRESS,
        Section::Data => (TEXT_ADDRESS + text_size + 4095) / 4096 * 4096,
    }
}

/// The address of an offset in a part.
pub fn address_in(part: Section, offset: u64, text_size: u64) -> u64
    requires text { text_size ≤ 4194304 }
    requires offset { offset ≤ 4194304 }
    ensures value { result ≡ layout.address_in text_size part offset }
    ensures small { result < 2 ^ 32 }
    ensures low { result < 2 ^ 31 }
{
    base_of(part, text_size) + offset
}

/// The address of the label of that name.
fn find_address(addresses: &Addresses<'_, '_>, name: &[u8]) -> Option<u64>
    requires { AreNear addresses.now }
    ensures value { result ≡ option_map (layout.label_address addresses.now.text_size)
        (names_by addresses.now name.now) }
    ensures small { MatchOption result (Unit {0}) (λ address. address < 2 ^ 32) }
{
    match addresses.labels.find(name) {
        Some(LabelPosition { part, offset }) => Some(address_in(part, offset, addresses.text_size)),
        None => None,
    }
}

/// The number of a value of `.quad`; an undefined name has none.
#[tactic(auto, unfolding(crate::specs::Faults::is_undefined, crate::specs::Assembly::quad_number))]
pub fn quad_number(value: &Value<'_>, addresses: &Addresses<'_, '_>) -> Option<u64>
    requires { AreNear addresses.now }
    ensures { MatchOption result (is_undefined (names_by addresses.now) (value_of value.now) ≡ true)
        (λ n. (is_undefined (names_by addresses.now) (value_of value.now) ≡ false)
        × (n ≡ assembly.quad_number addresses.now.text_size (names_by addresses.now) (value_of value.now))) }
{
    match value {
        Value::Number(number) => Some(*number),
        Value::Name(name) => find_address(addresses, name),
    }
}

/// The word of an instruction at an address with the distance to a target, or that the target is too far.
fn with_target(
    number: u32,
    word: u32,
    operand: &Item,
    from: u64,
    target: u64,
) -> Result<u32, AsmFault>
    requires from { from < 2 ^ 32 }
    requires target { target < 2 ^ 32 }
    requires can { CanHave operand.now word }
    ensures ok { IfOk result (λ resolved. targets.word_to operand.now word from target ≡ Some resolved) }
    ensures means { IfOk result (λ resolved. is_some (instruction_of resolved) ≡ true) }
    ensures err { IfErr result (λ fault. distance_fault number operand.now word from target ≡ Some fault) }
{
    match word_to(operand, word, from, target) {
        Some(resolved) => Ok(resolved),
        None => Err(AsmFault::TooFar {
            line: number,
            distance: distance(operand, from, target),
        }),
    }
}

/// The word of an instruction at an address with the distance to its target, where a name says the target;
/// or that there is no such label, or that it is too far.
#[tactic(auto, unfolding(crate::specs::Assembly::resolved))]
pub fn resolve_target(
    number: u32,
    word: u32,
    from: u64,
    target: &Option<Target<'_>>,
    addresses: &Addresses<'_, '_>,
) -> Result<u32, AsmFault>
    requires from { from < 2 ^ 32 }
    requires near { AreNear addresses.now }
    requires meant { IsMeant word (option_map target_said target.now) }
    ensures ok { IfOk result (λ resolved. instruction_fault number addresses.now.text_size
        (names_by addresses.now) from word
        (option_map target_said target.now) ≡ None) }
    ensures value { IfOk result (λ resolved. resolved
        ≡ assembly.resolved addresses.now.text_size (names_by addresses.now) from word
        (option_map target_said target.now)) }
    ensures small { IfOk result (λ resolved. resolved < 2 ^ 32) }
    ensures means { IfOk result (λ resolved. is_some (instruction_of resolved) ≡ true) }
    ensures err { IfErr result (λ fault. instruction_fault number addresses.now.text_size
        (names_by addresses.now) from word
        (option_map target_said target.now) ≡ Some fault) }
{
    let Some(target) = target else {
        return Ok(word);
    };
    match find_address(addresses, target.name) {
        Some(address) => with_target(number, word, &target.operand, from, address),
        None => Err(AsmFault::Undefined(number)),
    }
}
