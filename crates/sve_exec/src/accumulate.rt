//! Products that are added to a vector or subtracted from it.
ghost use Rattle.std.specs.Prelude.{◌≡◌, ◌*◌, ◌%◌, ◌≤◌, length};
ghost use Rattle.sm_types.specs.declared.vector.MultiplyAddOp.TheVariants.{Mla, Mls};
ghost use Rattle.vector_elements.specs.Numbers.{bytes_in};
ghost use Rattle.sve_exec.specs.MultiplyAdd.{accumulated, multiply_add};

use crate::number::{difference, sum};
use crate::operation::{Ternary, active_with_both};
use crate::product::product;
use sm_types::MultiplyAddOp;
use vector_elements::Size;

/// A product, added to the first element.
#[derive(Clone, Copy)]
struct Added;

impl Ternary for Added {
    ghost gives = { λ s size a n m. accumulated Mla size a n m };

    #[inline(always)]
    #[tactic(auto, unfolding(crate::specs::MultiplyAdd::accumulated))]
    fn of_three(self, size: Size, a: u64, n: u64, m: u64) -> u64 {
        sum(size, a, product(size, n, m))
    }
}

/// A product, subtracted from the first element.
#[derive(Clone, Copy)]
struct Subtracted;

impl Ternary for Subtracted {
    ghost gives = { λ s size a n m. accumulated Mls size a n m };

    #[inline(always)]
    #[tactic(auto, unfolding(crate::specs::MultiplyAdd::accumulated))]
    fn of_three(self, size: Size, a: u64, n: u64, m: u64) -> u64 {
        difference(size, a, product(size, n, m))
    }
}

/// Adds the products of the elements of `n` and `m` to the active elements of `d`, or subtracts them; the
/// others keep their value. With a loop for each operation and size.
/// Source: DDI 0487, C8.2, MLA, MLS (vectors).
#[tactic(auto, unfolding(crate::specs::MultiplyAdd::multiply_add))]
pub fn multiply_add(op: MultiplyAddOp, size: Size, d: &mut [u8], p: &[u8], n: &[u8], m: &[u8])
    requires n { length d.old ≡ length n.now }
    requires m { length d.old ≡ length m.now }
    requires whole { length d.old % bytes_in size ≡ 0 }
    requires bits { length d.old ≡ 8 * length p.now }
    requires small { length d.old ≤ 256 }
    ensures { d.new ≡ multiply_add op size p.now d.old n.now m.now }
{
    match op {
        MultiplyAddOp::Mla => active_with_both(Added, size, d, p, n, m),
        MultiplyAddOp::Mls => active_with_both(Subtracted, size, d, p, n, m),
    }
}
