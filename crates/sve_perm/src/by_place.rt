//! Vectors of which each element is told by its place.
ghost use Rattle.std.specs.Prelude.{◌≡◌, ℕ, ◌+◌, ◌*◌, ◌%◌, ◌≤◌, List, length};
ghost use Rattle.vector_elements.specs.declared.size.Size.{Size as ElementSize};
ghost use Rattle.vector_elements.specs.Numbers.{bytes_in};
ghost use Rattle.sve_perm.specs.Permute.{count_of, vector_like};

use vector_elements::{Change, Size, change_each, set_element};

/// Which value the element at each place has.
pub trait Places {
    /// Whether it may be asked about a place.
    ghost can: { Self → ElementSize → ℕ → Type 0 };

    /// The value there; of a greater number the low bits.
    ghost gives: { Self → ElementSize → ℕ → ℕ };

    /// The value of the element at a place.
    fn value_at(&self, size: Size, place: usize) -> u64
        requires { can self.now size place }
        ensures { result ≡ gives self.now size place };
}

/// The same, without regard to what the element was.
#[derive(Clone, Copy)]
struct Overwriting<'a, P> {
    places: &'a P,
}

impl<'a, P: Places> Change for Overwriting<'a, P> {
    ghost can = { λ s size i. P.can s.places.now size i };

    ghost gives = { λ s size i old. P.gives s.places.now size i };

    #[inline(always)]
    fn apply(&self, size: Size, place: usize, _old: u64) -> u64 {
        self.places.value_at(size, place)
    }
}

/// Makes a vector of the values at its places, with a loop for each size.
#[inline(always)]
#[tactic(auto, unfolding(vector_elements::specs::Elements::each_element, crate::specs::Permute::vector_like))]
pub fn put_values<P: Places>(places: &P, size: Size, d: &mut [u8])
    requires can { (i : ℕ) → bytes_in size * i + bytes_in size ≤ length d.old → P.can places.now size i }
    requires whole { length d.old % bytes_in size ≡ 0 }
    ensures { (n : List ℕ) → length n ≡ length d.old → d.new ≡ vector_like size n (P.gives places.now size) }
{
    change_each(&Overwriting { places }, size, d);
}

/// Changes each two neighbouring elements of a vector to the values at their places.
#[inline(always)]
fn put_pairs_of<P: Places>(places: &P, size: Size, d: &mut [u8])
    requires can { (i : ℕ) → bytes_in size * i + bytes_in size ≤ length d.old → P.can places.now size i }
    requires pairs { length d.old % (2 * bytes_in size) ≡ 0 }
    ensures { (n : List ℕ) → length n ≡ length d.old → d.new ≡ vector_like size n (P.gives places.now size) }
{
    for i in 0..d.len() / (2 * size.bytes()) {
        let even = places.value_at(size, 2 * i);
        let odd = places.value_at(size, 2 * i + 1);
        set_element(d, size, 2 * i, even);
        set_element(d, size, 2 * i + 1, odd);
    }
}

/// Makes a vector of an even number of elements of the values at its places, two at a time, with a loop for
/// each size: so a place that goes by turns is known to be even or odd.
#[inline(always)]
pub fn put_pairs<P: Places>(places: &P, size: Size, d: &mut [u8])
    requires can { (i : ℕ) → bytes_in size * i + bytes_in size ≤ length d.old → P.can places.now size i }
    requires pairs { length d.old % (2 * bytes_in size) ≡ 0 }
    ensures { (n : List ℕ) → length n ≡ length d.old → d.new ≡ vector_like size n (P.gives places.now size) }
{
    match size {
        Size::B => put_pairs_of(places, Size::B, d),
        Size::H => put_pairs_of(places, Size::H, d),
        Size::S => put_pairs_of(places, Size::S, d),
        Size::D => put_pairs_of(places, Size::D, d),
    }
}

/// How many elements a vector has.
#[inline(always)]
pub fn count(size: Size, n: &[u8]) -> usize
    ensures { result ≡ count_of size n.now }
{
    n.len() / size.bytes()
}
