//! Numbers in words.
ghost use Rattle.std.specs.Prelude.{◌≡◌, ◌+◌, ◌*◌, ◌^◌, ◌<◌, SomeIff, Some, None, if◌then◌else◌, IfSome};
ghost use Rattle.std.specs.Char.{digit_value};
ghost use Rattle.std.specs.List.{list_all};
ghost use Rattle.line_reader.specs.Numbers as spec;

/// The base of a number's digits, and the case of its letters.
#[derive(Clone, Copy)]
pub enum Base {
    /// 0 to 9.
    Ten,
    /// 0 to 9 and a to f, in lower case alone.
    Sixteen,
    /// 0 to 9, a to f and A to F.
    SixteenAnyCase,
}

fn radix(base: Base) -> u64
    ensures { result ≡ spec.radix base }
{
    match base {
        Base::Ten => 10,
        Base::Sixteen | Base::SixteenAnyCase => 16,
    }
}

/// The number of a digit.
fn digit_in(base: Base, c: u8) -> Option<u64>
    ensures { result ≡ (if spec.is_digit_of base c then Some (digit_value c) else None) }
{
    match (base, c) {
        (_, b'0'..=b'9') => Some(u64::from(c - b'0')),
        (Base::Sixteen | Base::SixteenAnyCase, b'a'..=b'f') => Some(u64::from(c - b'a') + 10),
        (Base::SixteenAnyCase, b'A'..=b'F') => Some(u64::from(c - b'A') + 10),
        _ => None,
    }
}

/// One more digit of a number, if it fits 64 bits.
fn with_digit(number: u64, base: u64, digit: u64) -> Option<u64>
    ensures { SomeIff result (number * base + digit < 2 ^ 64) (number * base + digit) }
{
    match number.checked_mul(base) {
        Some(higher) => higher.checked_add(digit),
        None => None,
    }
}

/// The number that digits of a base write; `None` where one is no digit of it, or the number does not fit 64
/// bits. No digits write 0.
pub fn digits_in(base: Base, digits: &[u8]) -> Option<u64>
    ensures { result ≡ spec.digits_in base digits.now }
{
    let mut number = 0;
    for at in 0..digits.len() {
        let Some(digit) = digit_in(base, digits[at]) else {
            return None;
        };
        match with_digit(number, radix(base), digit) {
            Some(next) => number = next,
            None => return None,
        }
    }
    Some(number)
}

/// Tells whether all are digits of a base.
fn are_digits(base: Base, digits: &[u8]) -> bool
    ensures { result ≡ list_all (spec.is_digit_of base) digits.now }
{
    digits.iter().all(|c| digit_in(base, *c).is_some())
}

/// There are digits, of which the first is no 0 unless it stands alone.
fn has_no_leading_zero(digits: &[u8]) -> bool
    ensures { result ≡ spec.has_no_leading_zero digits.now }
{
    0 < digits.len() && (digits[0] != b'0' || digits.len() == 1)
}

/// Tells whether a word is a decimal number, however large: digits, at least one, without a sign and with no
/// leading zero.
#[tactic(auto, unfolding(crate::specs::Numbers::is_decimal))]
pub fn is_decimal(digits: &[u8]) -> bool
    ensures { result ≡ spec.is_decimal digits.now }
{
    has_no_leading_zero(digits) && are_digits(Base::Ten, digits)
}

/// The number that decimal digits write, with no leading zero; `None` where they are none, or where it does
/// not fit 64 bits.
#[tactic(auto, unfolding(
// What the words say,
crate::specs::Numbers::decimal_number, crate::specs::Numbers::is_decimal,
// what they come to,
crate::specs::Numbers::decimal_value,
// and what the digits do.
crate::specs::Numbers::digits_in))]
pub fn decimal_number(digits: &[u8]) -> Option<u64>
    ensures { result ≡ spec.decimal_number digits.now }
{
    if has_no_leading_zero(digits) {
        digits_in(Base::Ten, digits)
    } else {
        None
    }
}

/// A decimal number below a bound.
#[tactic(auto, unfolding(crate::specs::Numbers::number_below))]
pub fn number_below(bound: u64, digits: &[u8]) -> Option<u64>
    ensures value { result ≡ spec.number_below bound digits.now }
    ensures small { IfSome result (λ n. n < bound) }
{
    match decimal_number(digits) {
        Some(number) => { if number < bound { Some(number) } else { None } }
        None => None,
    }
}

/// A number of exactly so many hexadecimal digits in lower case.
#[tactic(auto, unfolding(crate::specs::Numbers::hex_number))]
pub fn hex_number(count: usize, digits: &[u8]) -> Option<u64>
    ensures value { result ≡ spec.hex_number count digits.now }
    ensures small { IfSome result (λ n. n < 16 ^ count) }
{
    if digits.len() == count {
        digits_in(Base::Sixteen, digits)
    } else {
        None
    }
}

/// Tells whether all are hexadecimal digits in lower case.
#[tactic(auto, unfolding(crate::specs::Numbers::is_hex))]
pub fn is_hex(digits: &[u8]) -> bool
    ensures { result ≡ spec.is_hex digits.now }
{
    are_digits(Base::Sixteen, digits)
}
