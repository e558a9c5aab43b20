//! Masks of the logical instructions.
ghost use Rattle.std.specs.Prelude.{◌≡◌, ◌≢◌, ◌+◌, ◌-◌, ◌*◌, ◌%◌, ◌^◌, ◌<◌, ◌≤◌, ◌↔◌, ℕ, Bool, not, ◌&&◌};
ghost use Rattle.std.specs.Prelude.{◌||◌, ◌==◌, nat_le, true, false, IsTrue, IfSome, IsNone, Some};
ghost use Rattle.bit_ops.specs.Sums.{bool_number, word_size};
ghost use Rattle.bit_ops.specs.Bits.{digit_at};
ghost use Rattle.bit_ops.specs.Masks.{are_mask_fields, bit_mask_of, is_reserved, length_of, ones_of, size_of};
ghost use Rattle.bit_ops.specs.Masks.{starts_at, IsMask, IsFieldsOf};

use crate::words::{low_word, width};

/// The mask that the fields N, imms and immr of a logical instruction give a word of 64 bits where `wide`,
/// else of 32. None exactly where the fields are reserved. `imms` and `immr` have six bits, and what stands
/// above them is not read; nor are bits of `immr` above the size of an element.
pub fn bit_mask(n: bool, imms: u8, immr: u8, wide: bool) -> Option<u64>
    ensures value { result ≡ bit_mask_of n imms immr wide }
    ensures none { IsNone result ↔ IsTrue (is_reserved n imms wide) }
    ensures bits { IfSome result (λ mask. IsMask n imms immr wide mask) }
{
    let length = element_length(n, imms);
    let ones = low_bits(imms, length);
    if has_no_mask(n, wide, length, ones) {
        return None;
    }
    let mask = repeated(length, ones).rotate_right(low_bits(immr, length));
    Some(low_word(mask, wide))
}

/// Whether the fields N, imms and immr write a mask of 64 bits where `wide`, else of 32: they are not
/// reserved, and `immr` is below the size of an element.
#[inline(always)]
#[tactic(auto, unfolding(crate::specs::Masks::are_mask_fields, crate::specs::Masks::is_reserved))]
pub fn are_mask_fields(n: bool, imms: u8, immr: u8, wide: bool) -> bool
    ensures { result ≡ are_mask_fields n imms immr wide }
{
    let length = element_length(n, imms);
    !has_no_mask(n, wide, length, low_bits(imms, length)) && u32::from(immr) < element_size(length)
}

/// The seven bits N, NOT(imms).
fn length_bits(n: bool, imms: u8) -> u32
    ensures { result ≡ bool_number n * 64 + (63 - imms % 64) }
{
    u32::from(n) * 64 + (63 - u32::from(imms % 64))
}

/// The place of the highest one in the bits of the length, and 0 where there is none.
fn element_length(n: bool, imms: u8) -> u32
    ensures value { result ≡ length_of n imms }
    ensures small { result < 7 }
{
    let bits = length_bits(n, imms);
    if bits == 0 {
        0
    } else {
        31 - bits.leading_zeros()
    }
}

/// How many bits an element of a length has.
fn element_size(length: u32) -> u32
    requires { length < 7 }
    ensures value { result ≡ 2 ^ length }
    ensures some { 0 < result }
    ensures small { result ≤ 64 }
{
    1 << length
}

/// The lowest `length` bits of a field.
fn low_bits(field: u8, length: u32) -> u32
    requires { length < 7 }
    ensures value { result ≡ field % 2 ^ length }
    ensures small { result < 2 ^ length }
{
    u32::from(field) & (element_size(length) - 1)
}

/// Whether elements of 2 ^ length bits with one more than `ones` ones make no mask.
fn has_no_mask(n: bool, wide: bool, length: u32, ones: u32) -> bool
    requires { length < 7 }
    ensures { result ≡ ((n && not wide) || (length == 0) || (ones == 2 ^ length - 1)) }
{
    n && !wide || length == 0 || ones == element_size(length) - 1
}

/// One more than `ones` ones in each element of 2 ^ length bits, over 64 bits.
fn repeated(length: u32, ones: u32) -> u64
    requires length { length < 7 }
    requires ones { ones + 1 < 2 ^ length }
    ensures { (i : ℕ) → i < 64 → digit_at 2 result i ≡ bool_number (nat_le (i % 2 ^ length) ones) }
{
    let mut mask = first_ones(ones + 1);
    for log in length..6 {
        mask = doubled(mask, log);
    }
    mask
}

/// So many ones.
fn first_ones(count: u32) -> u64
    requires { count < 64 }
    ensures { result ≡ 2 ^ count - 1 }
{
    (1 << count) - 1
}

/// A word of 2 ^ log bits, twice.
fn doubled(word: u64, log: u32) -> u64
    requires log { log < 6 }
    requires word { word < 2 ^ (2 ^ log) }
    ensures { result ≡ word * 2 ^ (2 ^ log) + word }
{
    word << element_size(log) | word
}

/// The fields N, imms and immr that give the word: of 64 bits where `wide`, else of the low 32. They are its
/// only ones with `immr` below the size of an element. None where no fields give it.
pub fn mask_fields(value: u64, wide: bool) -> Option<(bool, u8, u8)>
    ensures some { IfSome result (λ f. IsFieldsOf f.0 f.1 f.2 wide (value % word_size wide)) }
    ensures only { (n : Bool) (imms immr : ℕ) → IsFieldsOf n imms immr wide (value % word_size wide)
        → result ≡ Some (n, imms, immr) }
    ensures none { IsNone result ↔ ((n : Bool) (imms immr : ℕ) → imms < 64 → immr < 64
        → bit_mask_of n imms immr wide ≢ Some (value % word_size wide)) }
{
    fields_of_word(low_word(value, wide), wide)
}

/// The fields that give a word.
fn fields_of_word(word: u64, wide: bool) -> Option<(bool, u8, u8)>
    ensures some { IfSome result (λ f. IsFieldsOf f.0 f.1 f.2 wide word) }
    ensures only { (n : Bool) (imms immr : ℕ) → IsFieldsOf n imms immr wide word
        → result ≡ Some (n, imms, immr) }
{
    match likely_fields(word, wide) {
        Some((n, imms, immr)) if gives(n, imms, immr, wide, word) => Some((n, imms, immr)),
        _ => None,
    }
}

/// Whether the mask of the fields is the word, and `immr` below the size of an element.
fn gives(n: bool, imms: u8, immr: u8, wide: bool, word: u64) -> bool
    requires imms { imms < 64 }
    requires immr { immr < 64 }
    ensures { IsTrue result ↔ IsFieldsOf n imms immr wide word }
{
    match bit_mask(n, imms, immr, wide) {
        Some(mask) => mask == word && u32::from(immr) < element_size(element_length(n, imms)),
        None => false,
    }
}

/// The fields of the word if it has any, read off its first run of ones and the distance to the next.
fn likely_fields(word: u64, wide: bool) -> Option<(bool, u8, u8)>
    ensures small { IfSome result (λ f. (f.1 < 64) × (f.2 < 64)) }
    ensures only { (n : Bool) (imms immr : ℕ) → IsFieldsOf n imms immr wide word
        → result ≡ Some (n, imms, immr) }
{
    let width = width(wide);
    let first = next_start(word, 0, width)?;
    let size = match next_start(word, first + 1, width) {
        Some(next) => next - first,
        None => width,
    };
    written(size, run_of_ones(word, first, width), first)
}

/// The least place from `from` on, in a word of `width` bits, at which a run of ones starts.
fn next_start(word: u64, from: u32, width: u32) -> Option<u32>
    requires { width ≤ 64 }
    ensures some { IfSome result (λ p. (from ≤ p) × (p < width) × (starts_at word width p ≡ true)
        × ((i : ℕ) → from ≤ i → i < p → starts_at word width i ≡ false)) }
    ensures none { IsNone result → (i : ℕ) → from ≤ i → i < width → starts_at word width i ≡ false }
{
    for place in from..width {
        if is_start(word, place, width) {
            return Some(place);
        }
    }
    None
}

/// Whether a run of ones starts at a place of a word of `width` bits.
fn is_start(word: u64, place: u32, width: u32) -> bool
    requires place { place < width }
    requires width { width ≤ 64 }
    ensures { result ≡ starts_at word width place }
{
    is_one(word, place) && !is_one(word, (place + (width - 1)) % width)
}

/// How many ones follow from a place on, round the end of a word of `width` bits.
fn run_of_ones(word: u64, first: u32, width: u32) -> u32
    requires first { first < width }
    requires width { width ≤ 64 }
    ensures ones { (i : ℕ) → i < result → digit_at 2 word ((first + i) % width) ≡ 1 }
    ensures end { result < width → digit_at 2 word ((first + result) % width) ≡ 0 }
    ensures small { result ≤ width }
{
    for count in 0..width {
        if !is_one(word, (first + count) % width) {
            return count;
        }
    }
    width
}

/// Whether the bit at a place is a one.
fn is_one(word: u64, place: u32) -> bool
    requires { place < 64 }
    ensures { result ≡ (digit_at 2 word place == 1) }
{
    word >> place & 1 == 1
}

/// The fields of elements of `size` bits with so many ones, the first of which starts at a place.
fn written(size: u32, ones: u32, first: u32) -> Option<(bool, u8, u8)>
    ensures small { IfSome result (λ f. (f.1 < 64) × (f.2 < 64)) }
    ensures only { (n : Bool) (imms immr : ℕ) → imms < 64 → immr < size → size ≡ size_of n imms
        → ones ≡ ones_of n imms + 1 → ones < size → first < size → immr ≡ (size - first) % size
        → result ≡ Some (n, imms, immr) }
{
    if ones == 0 || ones >= size || first >= size || size > 64 {
        return None;
    }
    let turn = ((size - first) % size) as u8;
    if size == 64 {
        Some((true, (ones - 1) as u8, turn))
    } else if size <= 32 {
        Some((false, (64 - 2 * size + (ones - 1)) as u8, turn))
    } else {
        None
    }
}
