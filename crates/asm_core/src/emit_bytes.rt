//! The bytes that lines put.
ghost use Rattle.std.specs.Prelude.{◌≡◌, ◌≢◌, ◌≤◌, ◌<◌, ◌^◌, ◌+◌, ◌++◌, List, Some, None, true, false};
ghost use Rattle.std.specs.Prelude.{length, map, replicate, OnOk, IfOk, IfErr, option_map};
ghost use Rattle.std.specs.List.{list_any};
ghost use Rattle.byteorder.specs.Endian.{little_bytes};
ghost use Rattle.asm_parser.specs.Statements.{says_of, target_said, value_of};
ghost use Rattle.asm_core.specs.Layout as layout;
ghost use Rattle.asm_core.specs.Code as code;
ghost use Rattle.asm_core.specs.Faults.{is_undefined, instruction_fault, words_fault, target_fault};
ghost use Rattle.asm_core.specs.Assembly as assembly;
ghost use Rattle.asm_core.specs.Assembly.{MeansOne};
ghost use Rattle.asm_core.specs.Limits.{HasSmallAlign};
ghost use Rattle.asm_core.specs.Emitted.{Adds, AreNear, AreWordsAfter, HasWord, IsMeant, names_by};

use crate::fault::AsmFault;
use crate::location_counter::{LocationCounter, here, size_of};
use crate::routines::{Routine, name_of};
use crate::target_addresses::{Addresses, address_in, quad_number, resolve_target};
use a64_table::fields::IMM26;
use asm_parser::{Statement, Target, Value};
use insn_text::{Item, Kind, Rule};
use sm_types::Bytes;
use sm_types::routines::{DISABLE, RESTORE, SAVE, call_tail};

/// The operand of BL: the distance to its target.
const CALL_OPERAND: Item = Item {
    kind: Kind::Distance { scale: 4 },
    field: IMM26,
    rule: Rule::Free,
};

/// Appends so many zeros.
fn put_zeros(bytes: &mut Bytes, count: u64) -> Result<(), AsmFault>
    requires { length bytes.old.items + count < 2 ^ 64 }
    ensures ok { OnOk result (bytes.new.items ≡ bytes.old.items ++ replicate count 0) }
    ensures err { IfErr result (λ fault. fault ≡ AsmFault.Memory) }
{
    let size = bytes.len() + count as usize;
    bytes.resize(size, 0)?;
    Ok(())
}

/// Appends bytes.
fn put_all(bytes: &mut Bytes, more: &[u8]) -> Result<(), AsmFault>
    ensures ok { OnOk result (bytes.new.items ≡ bytes.old.items ++ more.now) }
    ensures err { IfErr result (λ fault. fault ≡ AsmFault.Memory) }
{
    bytes.extend_from_slice(more)?;
    Ok(())
}

/// Appends a number of 4 bytes, little-endian.
fn put_word(bytes: &mut Bytes, number: u32) -> Result<(), AsmFault>
    ensures ok { OnOk result (bytes.new.items ≡ bytes.old.items ++ little_bytes 4 number) }
    ensures err { IfErr result (λ fault. fault ≡ AsmFault.Memory) }
{
    put_all(bytes, &number.to_le_bytes())
}

/// Appends a number of 8 bytes, little-endian.
fn put_quad(bytes: &mut Bytes, number: u64) -> Result<(), AsmFault>
    ensures ok { OnOk result (bytes.new.items ≡ bytes.old.items ++ little_bytes 8 number) }
    ensures err { IfErr result (λ fault. fault ≡ AsmFault.Memory) }
{
    put_all(bytes, &number.to_le_bytes())
}

/// Appends numbers of 4 bytes each.
fn put_words(bytes: &mut Bytes, numbers: &[u32]) -> Result<(), AsmFault>
    ensures ok { OnOk result (bytes.new.items ≡ bytes.old.items ++ assembly.numbers_bytes 4 numbers.now) }
    ensures err { IfErr result (λ fault. fault ≡ AsmFault.Memory) }
{
    for number in numbers {
        put_word(bytes, *number)?;
    }
    Ok(())
}

/// Appends the numbers of the values of line number `number`.
fn put_quads(
    bytes: &mut Bytes,
    number: u32,
    values: &[Value<'_>],
    addresses: &Addresses<'_, '_>,
) -> Result<(), AsmFault>
    requires near { AreNear addresses.now }
    ensures ok { OnOk result (list_any (is_undefined (names_by addresses.now)) (map value_of values.now)
        ≡ false) }
    ensures bytes { OnOk result (bytes.new.items
        ≡ bytes.old.items ++ assembly.numbers_bytes 8 (map
        (assembly.quad_number addresses.now.text_size (names_by addresses.now)) (map value_of values.now))) }
    ensures err { IfErr result (λ fault. fault ≢ AsmFault.Memory
        → (list_any (is_undefined (names_by addresses.now)) (map value_of values.now) ≡ true)
        × (fault ≡ AsmFault.Undefined number)) }
{
    for value in values {
        let Some(address) = quad_number(value, addresses) else {
            return Err(AsmFault::Undefined(number));
        };
        put_quad(bytes, address)?;
    }
    Ok(())
}

/// Appends the word of the instruction on line number `number` at an address, with the distance to its
/// target.
fn put_instruction(
    bytes: &mut Bytes,
    number: u32,
    word: u32,
    from: u64,
    target: &Option<Target<'_>>,
    addresses: &Addresses<'_, '_>,
) -> Result<(), AsmFault>
    requires from { from < 2 ^ 32 }
    requires near { AreNear addresses.now }
    requires meant { IsMeant word (option_map target_said target.now) }
    ensures ok { OnOk result (instruction_fault number addresses.now.text_size
        (names_by addresses.now) from word
        (option_map target_said target.now) ≡ None) }
    ensures bytes { OnOk result (bytes.new.items ≡ bytes.old.items
        ++ little_bytes 4 (assembly.resolved addresses.now.text_size (names_by addresses.now) from word
        (option_map target_said target.now))) }
    ensures means { OnOk result (MeansOne (assembly.resolved addresses.now.text_size
        (names_by addresses.now) from word (option_map target_said target.now))) }
    ensures err { IfErr result (λ fault. fault ≢ AsmFault.Memory
        → instruction_fault number addresses.now.text_size (names_by addresses.now) from word
        (option_map target_said target.now)
        ≡ Some fault) }
{
    let resolved = resolve_target(number, word, from, target, addresses)?;
    put_word(bytes, resolved)
}

/// Appends the words of the support routines.
fn put_routines(bytes: &mut Bytes) -> Result<(), AsmFault>
    ensures ok { OnOk result (bytes.new.items
        ≡ bytes.old.items ++ assembly.numbers_bytes 4 code.routine_words) }
    ensures err { IfErr result (λ fault. fault ≡ AsmFault.Memory) }
{
    put_words(bytes, &SAVE)?;
    put_words(bytes, &DISABLE)?;
    put_words(bytes, &RESTORE)
}

/// The words of the tail of a call on line number `number` at an address, with the distance to
/// `__arm_tpidr2_restore` in its BL.
fn tail_to_restore(
    number: u32,
    from: u64,
    addresses: &Addresses<'_, '_>,
) -> Result<[u32; 6], AsmFault>
    requires from { from < 2 ^ 31 }
    requires near { AreNear addresses.now }
    ensures ok { IfOk result (λ words. words_fault number addresses.now.text_size
        (names_by addresses.now) from code.tail_code ≡ None) }
    ensures words { IfOk result (λ words. words ≡ assembly.resolved_words addresses.now.text_size
        (names_by addresses.now) from code.tail_code) }
    ensures mean { IfOk result (λ words. assembly.MeanEach (assembly.resolved_words addresses.now.text_size
        (names_by addresses.now) from code.tail_code)) }
    ensures err { IfErr result (λ fault. words_fault number addresses.now.text_size (names_by addresses.now)
        from code.tail_code ≡ Some fault) }
{
    let mut words = call_tail(0);
    let target = Some(Target {
        name: name_of(Routine::Restore),
        operand: CALL_OPERAND,
    });
    words[4] = resolve_target(number, words[4], from + 16, &target, addresses)?;
    Ok(words)
}

/// Appends the words of the tail of a call on line number `number` at an address.
fn put_tail(
    bytes: &mut Bytes,
    number: u32,
    from: u64,
    addresses: &Addresses<'_, '_>,
) -> Result<(), AsmFault>
    requires from { from < 2 ^ 31 }
    requires near { AreNear addresses.now }
    ensures ok { OnOk result (words_fault number addresses.now.text_size (names_by addresses.now) from
        code.tail_code ≡ None) }
    ensures bytes { OnOk result (AreWordsAfter (assembly.resolved_words addresses.now.text_size
        (names_by addresses.now) from code.tail_code) bytes.old.items bytes.new.items) }
    ensures err { IfErr result (λ fault. fault ≢ AsmFault.Memory
        → words_fault number addresses.now.text_size (names_by addresses.now) from code.tail_code
        ≡ Some fault) }
{
    let words = tail_to_restore(number, from, addresses)?;
    put_words(bytes, &words)
}

/// Appends the bytes of line number `number` at a location counter, or tells the fault of its names and
/// distances.
#[tactic(auto, unfolding(crate::specs::Faults::target_fault))]
pub fn put_statement(
    bytes: &mut Bytes,
    number: u32,
    counter: &LocationCounter,
    statement: &Statement<'_>,
    addresses: &Addresses<'_, '_>,
) -> Result<(), AsmFault>
    requires align { HasSmallAlign (says_of statement.now) }
    requires has_word { HasWord (says_of statement.now) }
    requires size { length bytes.old.items ≡ layout.here counter.now }
    requires fits { layout.here counter.now + layout.size_of (says_of statement.now) (layout.here counter.now)
        ≤ 4194304 }
    requires near { AreNear addresses.now }
    ensures ok { OnOk result (target_fault number addresses.now.text_size (names_by addresses.now) counter.now
        (says_of statement.now) ≡ None) }
    ensures bytes { OnOk result (Adds addresses.now.text_size (names_by addresses.now) counter.now
        (says_of statement.now)
        bytes.old.items bytes.new.items) }
    ensures err { IfErr result (λ fault. fault ≢ AsmFault.Memory
        → target_fault number addresses.now.text_size (names_by addresses.now) counter.now
        (says_of statement.now) ≡ Some fault) }
{
    match statement {
        Statement::Instruction { word, target, .. } => {
            let from = address_in(counter.part, here(counter), addresses.text_size);
            put_instruction(bytes, number, *word, from, target, addresses)
        }
        Statement::SupportRoutines { .. } => put_routines(bytes),
        Statement::CallTail { .. } => {
            let from = address_in(counter.part, here(counter), addresses.text_size);
            put_tail(bytes, number, from, addresses)
        }
        Statement::Quad(values) => put_quads(bytes, number, values, addresses),
        Statement::Word(numbers) => put_words(bytes, numbers),
        Statement::Byte(numbers) => put_all(bytes, numbers),
        Statement::Zero(count) => put_zeros(bytes, *count),
        Statement::Align(_) => put_zeros(bytes, size_of(statement, here(counter)) as u64),
        Statement::Empty => Ok(()),
        Statement::Text => Ok(()),
        Statement::Data => Ok(()),
        Statement::Global(_) => Ok(()),
    }
}
