//! Copies of a value to the elements of a vector, and of elements under a predicate.
ghost use Rattle.std.specs.Prelude.{◌≡◌, ◌+◌, ◌*◌, ◌%◌, ◌≤◌, length};
ghost use Rattle.vector_elements.specs.Elements.{element_of};
ghost use Rattle.vector_elements.specs.Numbers.{bytes_in, range_of};
ghost use Rattle.sve_exec.specs.Copies.{signed_immediate, duplicated, copied_merging, copied_zeroing};
ghost use Rattle.sve_exec.specs.Copies.{index_from, selected};

use vector_elements::{
    Change, Size, change_active, change_each, change_or_zero, element, low_bits, wrapped,
};

/// The signed immediate of DUP and CPY as an element, shifted left by 8 where `shifted`.
/// Source: DDI 0487, C8.2, DUP and CPY (immediate).
#[inline]
#[tactic(auto, unfolding(crate::specs::Copies::signed_immediate))]
pub fn signed_immediate(size: Size, imm: i32, shifted: bool) -> u64
    ensures { result ≡ signed_immediate size imm shifted }
{
    if shifted {
        wrapped(size, i64::from(imm) * 0x100)
    } else {
        wrapped(size, i64::from(imm))
    }
}

/// A value for an element, without regard to what it was.
#[derive(Clone, Copy)]
struct Value {
    value: u64,
}

impl Change for Value {
    ghost can = { λ s size i. Unit };

    ghost gives = { λ s size i old. s.value % range_of size };

    #[inline(always)]
    fn apply(&self, size: Size, _place: usize, _old: u64) -> u64 {
        low_bits(size, self.value)
    }
}

/// Each element of `d` becomes the low bits of a value, of a register or of an immediate.
/// Source: DDI 0487, C8.2, DUP (immediate, scalar).
#[tactic(auto, unfolding(crate::specs::Copies::duplicated))]
pub fn duplicate(size: Size, value: u64, d: &mut [u8])
    requires { length d.old % bytes_in size ≡ 0 }
    ensures { d.new ≡ duplicated size value d.old }
{
    change_each(&Value { value }, size, d);
}

/// Each active element of `d` becomes the low bits of a value; the others keep their value.
/// Source: DDI 0487, C8.2, CPY (immediate, merging; scalar).
#[tactic(auto, unfolding(crate::specs::Copies::copied_merging))]
pub fn copy_merging(size: Size, value: u64, d: &mut [u8], p: &[u8])
    requires whole { length d.old % bytes_in size ≡ 0 }
    requires bits { length d.old ≡ 8 * length p.now }
    requires small { length d.old ≤ 256 }
    ensures { d.new ≡ copied_merging size value p.now d.old }
{
    change_active(&Value { value }, size, d, p);
}

/// Each active element of `d` becomes the low bits of a value; the others become zero.
/// Source: DDI 0487, C8.2, CPY (immediate, zeroing).
#[tactic(auto, unfolding(crate::specs::Copies::copied_zeroing))]
pub fn copy_zeroing(size: Size, value: u64, d: &mut [u8], p: &[u8])
    requires whole { length d.old % bytes_in size ≡ 0 }
    requires bits { length d.old ≡ 8 * length p.now }
    requires small { length d.old ≤ 256 }
    ensures { d.new ≡ copied_zeroing size value p.now d.old }
{
    change_or_zero(&Value { value }, size, d, p);
}

/// A start, and what each element has more than the one before it.
#[derive(Clone, Copy)]
struct Steps {
    start: u64,
    step: u64,
}

impl Change for Steps {
    ghost can = { λ s size i. Unit };

    ghost gives = { λ s size i old. (s.start + i * s.step) % range_of size };

    #[inline(always)]
    fn apply(&self, size: Size, place: usize, _old: u64) -> u64 {
        low_bits(
            size,
            self.start
                .wrapping_add((place as u64).wrapping_mul(self.step)),
        )
    }
}

/// Element `i` of `d` becomes the low bits of the start and `i` times the step, each the 64 bits of a
/// register or of an immediate in two's complement. Source: DDI 0487, C8.2, INDEX.
#[tactic(auto, unfolding(crate::specs::Copies::index_from))]
pub fn index(size: Size, start: u64, step: u64, d: &mut [u8])
    requires { length d.old % bytes_in size ≡ 0 }
    ensures { d.new ≡ index_from size start step d.old }
{
    change_each(&Steps { start, step }, size, d);
}

/// The elements of another vector.
#[derive(Clone, Copy)]
struct Elements<'a> {
    n: &'a [u8],
}

impl<'a> Change for Elements<'a> {
    ghost can = { λ s size i. bytes_in size * i + bytes_in size ≤ length s.n.now };

    ghost gives = { λ s size i old. element_of (bytes_in size) s.n.now i };

    #[inline(always)]
    fn apply(&self, size: Size, place: usize, _old: u64) -> u64 {
        element(self.n, size, place)
    }
}

/// The active elements of `d`, which holds the second source, become those of `n`; the others keep their
/// value.
/// Source: DDI 0487, C8.2, SEL (vectors).
#[tactic(auto, unfolding(crate::specs::Copies::selected))]
pub fn select(size: Size, d: &mut [u8], p: &[u8], n: &[u8])
    requires same { length d.old ≡ length n.now }
    requires whole { length d.old % bytes_in size ≡ 0 }
    requires bits { length d.old ≡ 8 * length p.now }
    requires small { length d.old ≤ 256 }
    ensures { d.new ≡ selected size p.now n.now d.old }
{
    change_active(&Elements { n }, size, d, p);
}
