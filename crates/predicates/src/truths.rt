//! Predicates that are written element by element.
ghost use Rattle.std.specs.Prelude.{◌≡◌, ◌≢◌, ℕ, ◌+◌, ◌*◌, ◌<◌, ◌≤◌, Bool, false, length};
ghost use Rattle.std.specs.Prelude.{if◌then◌else◌};
ghost use Rattle.vector_elements.specs.declared.size.Size.{Size as ElementSize};
ghost use Rattle.vector_elements.specs.Elements.{bit_of};
ghost use Rattle.vector_elements.specs.Numbers.{bytes_in};
ghost use Rattle.predicates.specs.Predicates.{predicate_of};

use sve_vectors::truths_tell_bytes;
use vector_elements::Size;

/// Which elements hold, by their places.
pub trait Truth {
    /// Whether it may be asked about the element at a place.
    ghost can: { Self → ElementSize → ℕ → Type 0 };

    /// Whether that element holds.
    ghost gives: { Self → ElementSize → ℕ → Bool };

    /// Whether the element at the place holds.
    fn holds(&self, size: Size, place: usize) -> bool
        requires { can self.now size place }
        ensures { result ≡ gives self.now size place };
}

/// Clears all bits of a predicate.
#[inline(always)]
#[tactic(auto, unfolding(vector_elements::specs::Elements::bit_of))]
fn clear(p: &mut [u8])
    ensures { (j : ℕ) → bit_of p.new j ≡ false }
{
    for byte in p.iter_mut() {
        *byte = 0;
    }
}

/// 1 for a truth value that holds, and 0 for one that does not.
#[inline(always)]
fn lowest_bit(holds: bool) -> u8
    ensures { result ≡ (if holds then 1 else 0) }
{
    u8::from(holds)
}

/// Makes bit `i` of a predicate, which is clear, a truth value; without a branch.
#[inline(always)]
fn put_bit(p: &mut [u8], i: usize, value: bool)
    requires room { i < 8 * length p.old }
    requires clear { bit_of p.old i ≡ false }
    ensures value { bit_of p.new i ≡ value }
    ensures kept { (j : ℕ) → j ≢ i → bit_of p.new j ≡ bit_of p.old j }
{
    p[i / 8] = p[i / 8] | (lowest_bit(value) << (i % 8));
}

/// Makes a predicate of the truth values of its elements.
#[inline(always)]
fn put_of_size<T: Truth>(truth: &T, size: Size, pd: &mut [u8])
    requires can { (i : ℕ) → bytes_in size * i + bytes_in size ≤ 8 * length pd.old
        → T.can truth.now size i }
    requires small { length pd.old ≤ 32 }
    ensures { pd.new ≡ predicate_of (bytes_in size) (length pd.old) (T.gives truth.now size) }
{
    clear(pd);
    for i in 0..8 * pd.len() / size.bytes() {
        let holds = truth.holds(size, i);
        put_bit(pd, size.bytes() * i, holds);
    }
    truths_tell_bytes(pd);
}

/// Makes a predicate of the truth values of its elements, with a loop for each size.
#[inline(always)]
pub fn put_truths<T: Truth>(truth: &T, size: Size, pd: &mut [u8])
    requires can { (i : ℕ) → bytes_in size * i + bytes_in size ≤ 8 * length pd.old
        → T.can truth.now size i }
    requires small { length pd.old ≤ 32 }
    ensures { pd.new ≡ predicate_of (bytes_in size) (length pd.old) (T.gives truth.now size) }
{
    match size {
        Size::B => put_of_size(truth, Size::B, pd),
        Size::H => put_of_size(truth, Size::H, pd),
        Size::S => put_of_size(truth, Size::S, pd),
        Size::D => put_of_size(truth, Size::D, pd),
    }
}
