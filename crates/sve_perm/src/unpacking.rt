//! Elements of half the size as elements of the whole.
ghost use Rattle.std.specs.Prelude.{◌≡◌, ◌≢◌, ℕ, ◌+◌, ◌*◌, ◌%◌, ◌≤◌, ◌<◌, if◌then◌else◌, length};
ghost use Rattle.vector_elements.specs.declared.size.Size.TheVariants.{B};
ghost use Rattle.vector_elements.specs.Elements.{element_of};
ghost use Rattle.vector_elements.specs.Numbers.{bytes_in, range_of};
ghost use Rattle.sve_exec.specs.Widening.{half_size};
ghost use Rattle.sve_perm.specs.Permute.{count_of, widened, unpacked};

use crate::by_place::{Places, count, put_values};
use sve_exec::half_size;
use vector_elements::{Size, element, signed, wrapped};

/// An element of half the size as one of the whole, with its sign or without.
#[inline(always)]
fn widened(is_signed: bool, size: Size, x: u64) -> u64
    requires { x < range_of (half_size size) }
    ensures { result ≡ widened is_signed size x }
{
    if is_signed {
        wrapped(size, signed(half_size(size), x))
    } else {
        x
    }
}

/// The elements of half the size in the lower or the upper half of a vector.
#[derive(Clone, Copy)]
struct Unpacked<'a> {
    signed: bool,
    high: bool,
    n: &'a [u8],
}

impl<'a> Places for Unpacked<'a> {
    ghost can = { λ s size i. (size ≢ B) × (bytes_in size * i + bytes_in size ≤ length s.n.now) };

    ghost gives = { λ s size i. widened s.signed size
        (element_of (bytes_in (half_size size)) s.n.now (if s.high then count_of size s.n.now + i else i)) };

    #[inline(always)]
    fn value_at(&self, size: Size, place: usize) -> u64 {
        let first = if self.high { count(size, self.n) } else { 0 };
        widened(
            self.signed,
            size,
            element(self.n, half_size(size), first + place),
        )
    }
}

/// The same as `unpack`, for a sign and a half that the caller knows.
#[inline(always)]
#[tactic(auto, unfolding(crate::specs::Permute::unpacked))]
fn known_unpack(signed: bool, high: bool, size: Size, d: &mut [u8], n: &[u8])
    requires size { size ≢ B }
    requires same { length d.old ≡ length n.now }
    requires whole { length d.old % bytes_in size ≡ 0 }
    ensures { d.new ≡ unpacked signed high size n.now }
{
    put_values(&Unpacked { signed, high, n }, size, d);
}

/// `d` becomes the elements of half the size in the lower half of `n`, which is as long, or in the upper one
/// where `high`, each with its sign or without. Source: DDI 0487, C8.2, SUNPKLO, SUNPKHI, UUNPKLO, UUNPKHI.
pub fn unpack(signed: bool, high: bool, size: Size, d: &mut [u8], n: &[u8])
    requires size { size ≢ B }
    requires same { length d.old ≡ length n.now }
    requires whole { length d.old % bytes_in size ≡ 0 }
    ensures { d.new ≡ unpacked signed high size n.now }
{
    match (signed, high) {
        (true, true) => known_unpack(true, true, size, d, n),
        (true, false) => known_unpack(true, false, size, d, n),
        (false, true) => known_unpack(false, true, size, d, n),
        (false, false) => known_unpack(false, false, size, d, n),
    }
}
