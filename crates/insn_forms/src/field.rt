//! The fields of a word.
ghost use Rattle.std.specs.Prelude.{◌≡◌, ◌<◌, ◌^◌, ◌-◌, true};
ghost use Rattle.insn_forms.specs.Fields.{bits_of, field_of, field_in, is_field, list_of, placed};
ghost use Rattle.insn_forms.specs.Fields.{signed_value};

/// The place of a field: as many bits as `width` from `low` on, and above these as many as `upper_width`
/// from `upper_low` on.
#[derive(Clone, Copy)]
pub struct Field {
    pub low: u8,
    pub width: u8,
    pub upper_low: u8,
    pub upper_width: u8,
}

/// The places of a line's fields in its order, and fields of no bits after the last one.
#[derive(Clone, Copy)]
pub struct Fields {
    pub a: Field,
    pub b: Field,
    pub c: Field,
    pub d: Field,
    pub e: Field,
    pub f: Field,
    pub g: Field,
    pub h: Field,
}

/// The same as an array.
#[inline(always)]
#[tactic(auto, unfolding(crate::specs::Fields::list_of))]
pub fn fields_of(it: &Fields) -> [Field; 8]
    ensures { result ≡ list_of it.now }
{
    [it.a, it.b, it.c, it.d, it.e, it.f, it.g, it.h]
}

/// The bits of the word from `low` on, as many as `width`.
#[inline(always)]
pub fn run_of_bits(word: u32, low: u32, width: u32) -> u32
    requires low { low < 32 }
    requires width { width < 32 }
    ensures value { result ≡ field_of word low width }
    ensures small { result < 2 ^ width }
{
    word >> low & (1 << width) - 1
}

/// The number of a field in a word.
#[inline(always)]
pub fn field_in(it: &Field, word: u32) -> u32
    requires { is_field it.now ≡ true }
    ensures value { result ≡ field_in it.now word }
    ensures small { result < 2 ^ bits_of it.now }
{
    let upper = run_of_bits(word, it.upper_low as u32, it.upper_width as u32);
    let lower = run_of_bits(word, it.low as u32, it.width as u32);
    (upper << it.width as u32) + lower
}

/// The number that so many bits are in two's complement.
#[inline(always)]
pub fn signed(bits: u32, width: u32) -> i32
    requires some { 0 < width }
    requires width { width < 31 }
    requires bits { bits < 2 ^ width }
    ensures { result ≡ signed_value width bits }
{
    if bits < 1 << (width - 1) {
        bits as i32
    } else {
        bits as i32 - (1 << width)
    }
}

/// The number of a field in a word, in two's complement.
#[inline(always)]
pub fn signed_in(it: &Field, word: u32) -> i32
    requires { is_field it.now ≡ true }
    ensures { result ≡ signed_value (bits_of it.now) (field_in it.now word) }
{
    let width = it.width as u32 + it.upper_width as u32;
    let bits = field_in(it, word);
    if width == 0 { 0 } else { signed(bits, width) }
}

/// So many ones.
#[inline(always)]
fn ones(width: u8) -> u32
    requires { width < 32 }
    ensures { result ≡ 2 ^ width - 1 }
{
    (1 << u32::from(width)) - 1
}

/// The number at the field's place in a word.
#[inline(always)]
#[tactic(auto, unfolding(crate::specs::Fields::placed, crate::specs::Fields::is_field))]
pub fn placed(it: &Field, number: u32) -> u32
    requires { is_field it.now ≡ true }
    ensures { result ≡ placed it.now number }
{
    let upper = number >> u32::from(it.width) & ones(it.upper_width);
    let lower = number & ones(it.width);
    (upper << u32::from(it.upper_low)) + (lower << u32::from(it.low))
}
