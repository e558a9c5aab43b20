//! The field that a word says.
ghost use Rattle.std.specs.Prelude.{◌≡◌, ◌==◌, option_map};
ghost use Rattle.std.specs.List.{position};
ghost use Rattle.line_reader.specs.Numbers.{hex_number};
ghost use Rattle.vector_runner.specs.Told.{field_told, SaysAs};
ghost use Rattle.vector_runner.specs.Words as spec;

use crate::vector::Field;
use hex::FromHexError;
use line_reader::{found_in, hex_number, is_hex, is_word, number_below};
use sm_types::Bytes;
use std::alloc::Global;

/// Why nothing is read.
#[derive(Clone, Copy, Debug, PartialEq, Eq)]
pub enum Unread {
    /// It is not in the grammar.
    Outside,
    /// Want of memory.
    Memory,
}

/// The fields by their names.
#[derive(Clone, Copy)]
pub enum Key {
    X(u8),
    Sp,
    Nzcv,
    Tpidr,
    Tpidr2,
    Svcr,
    Z(u8),
    P(u8),
    Ffr,
    Za(u8),
    M,
}

/// The names without a number.
const SINGLES: [(&[u8], Key); 7] = [
    (b"sp", Key::Sp),
    (b"nzcv", Key::Nzcv),
    (b"tpidr", Key::Tpidr),
    (b"tpidr2", Key::Tpidr2),
    (b"svcr", Key::Svcr),
    (b"ffr", Key::Ffr),
    (b"m", Key::M),
];

/// The field of a name without a number.
#[tactic(auto, unfolding(crate::specs::Words::single_key, line_reader::specs::Tables::found))]
fn single_key(name: &[u8]) -> Option<Key>
    ensures { result ≡ spec.single_key name.now }
{
    found_in(&SINGLES, name)
}

/// What follows some first bytes.
#[tactic(auto, unfolding(crate::specs::Words::after))]
fn after<'a>(first: &[u8], name: &'a [u8]) -> Option<&'a [u8]>
    ensures { option_map (λ rest. rest.now) result ≡ spec.after first.now name.now }
{
    name.strip_prefix(first)
}

/// The number after such bytes.
#[tactic(auto, unfolding(crate::specs::Words::number_after))]
fn number_after(first: &[u8], name: &[u8]) -> Option<u8>
    ensures { result ≡ spec.number_after first.now name.now }
{
    match after(first, name) {
        Some(digits) => match number_below(256, digits) {
            Some(number) => Some(number as u8),
            None => None,
        },
        None => None,
    }
}

/// The field of a name with a number.
#[tactic(auto, unfolding(crate::specs::Words::numbered_key))]
fn numbered_key(name: &[u8]) -> Option<Key>
    ensures { result ≡ spec.numbered_key name.now }
{
    if let Some(n) = number_after(b"x", name) {
        return Some(Key::X(n));
    }
    if let Some(n) = number_after(b"z", name) {
        return Some(Key::Z(n));
    }
    if let Some(n) = number_after(b"p", name) {
        return Some(Key::P(n));
    }
    match number_after(b"za", name) {
        Some(n) => Some(Key::Za(n)),
        None => None,
    }
}

/// The field of a name.
#[tactic(auto, unfolding(crate::specs::Words::key_in))]
fn key_in(name: &[u8]) -> Option<Key>
    ensures { result ≡ spec.key_in name.now }
{
    match single_key(name) {
        Some(key) => Some(key),
        None => numbered_key(name),
    }
}

/// A digit 0 or 1.
#[tactic(auto, unfolding(crate::specs::Words::flag_in))]
fn flag_in(c: u8) -> Option<bool>
    ensures { result ≡ spec.flag_in c }
{
    match c {
        b'0' => Some(false),
        b'1' => Some(true),
        _ => None,
    }
}

/// The flags of four digits.
#[tactic(auto, unfolding(crate::specs::Words::flags_in))]
fn flags_in(value: &[u8]) -> Result<Field, Unread>
    ensures { SaysAs field_told (spec.flags_in value.now) result }
{
    let [n, z, c, v] = value else {
        return Err(Unread::Outside);
    };
    match (flag_in(*n), flag_in(*z), flag_in(*c), flag_in(*v)) {
        (Some(n), Some(z), Some(c), Some(v)) => Ok(Field::Nzcv(n, z, c, v)),
        _ => Err(Unread::Outside),
    }
}

/// PSTATE.SM and PSTATE.ZA of a digit.
#[tactic(auto, unfolding(crate::specs::Words::svcr_in))]
fn svcr_in(value: &[u8]) -> Result<Field, Unread>
    ensures { SaysAs field_told (spec.svcr_in value.now) result }
{
    if is_word(value, b"0") {
        Ok(Field::Svcr(false, false))
    } else if is_word(value, b"1") {
        Ok(Field::Svcr(true, false))
    } else if is_word(value, b"2") {
        Ok(Field::Svcr(false, true))
    } else if is_word(value, b"3") {
        Ok(Field::Svcr(true, true))
    } else {
        Err(Unread::Outside)
    }
}

/// A number of 16 digits.
fn number_in(value: &[u8]) -> Result<u64, Unread>
    ensures { SaysAs (λ number. number) (hex_number 16 value.now) result }
{
    match hex_number(16, value) {
        Some(number) => Ok(number),
        None => Err(Unread::Outside),
    }
}

/// The bytes of pairs of digits in lower case.
#[tactic(auto, unfolding(crate::specs::Words::bytes_in))]
fn bytes_in(alloc: Global, value: &[u8]) -> Result<Bytes, Unread>
    ensures { SaysAs (λ bytes. bytes.items) (spec.bytes_in value.now) result }
{
    if !is_hex(value) {
        return Err(Unread::Outside);
    }
    match hex::decode(alloc, value) {
        Ok(bytes) => Ok(bytes),
        Err(FromHexError::OutOfMemory) => Err(Unread::Memory),
        Err(_) => Err(Unread::Outside),
    }
}

/// The field of a name with this value.
#[tactic(auto, unfolding(crate::specs::Words::field_of))]
fn field_of(alloc: Global, key: Key, value: &[u8]) -> Result<Field, Unread>
    ensures { SaysAs field_told (spec.field_of key value.now) result }
{
    match key {
        Key::X(n) => Ok(Field::X(n, number_in(value)?)),
        Key::Sp => Ok(Field::Sp(number_in(value)?)),
        Key::Nzcv => flags_in(value),
        Key::Tpidr => Ok(Field::Tpidr(number_in(value)?)),
        Key::Tpidr2 => Ok(Field::Tpidr2(number_in(value)?)),
        Key::Svcr => svcr_in(value),
        Key::Z(n) => Ok(Field::Z(n, bytes_in(alloc, value)?)),
        Key::P(n) => Ok(Field::P(n, bytes_in(alloc, value)?)),
        Key::Ffr => Ok(Field::Ffr(bytes_in(alloc, value)?)),
        Key::Za(n) => Ok(Field::Za(n, bytes_in(alloc, value)?)),
        Key::M => Ok(Field::M(bytes_in(alloc, value)?)),
    }
}

/// The place of the first `=`.
fn equals(word: &[u8]) -> Option<usize>
    ensures { result ≡ position (λ b. b == 61) word.now }
{
    word.iter().position(|b| *b == b'=')
}

/// The field that a word says.
#[tactic(auto, unfolding(crate::specs::Words::field_in))]
pub fn field_in(alloc: Global, word: &[u8]) -> Result<Field, Unread>
    ensures { SaysAs field_told (spec.field_in word.now) result }
{
    let Some(at) = equals(word) else {
        return Err(Unread::Outside);
    };
    match key_in(&word[..at]) {
        Some(key) => field_of(alloc, key, &word[at + 1..]),
        None => Err(Unread::Outside),
    }
}
