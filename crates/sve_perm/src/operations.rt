//! The operations of reductions, each a type of its own: so each has a loop of its own too.
ghost use Rattle.std.specs.Prelude.{◌≡◌, ◌-◌, ◌<◌};
ghost use Rattle.sm_types.specs.declared.vector.ReductionOp.TheVariants.{Saddv, Uaddv, Smaxv, Umaxv, Sminv};
ghost use Rattle.sm_types.specs.declared.vector.ReductionOp.TheVariants.{Uminv};
ghost use Rattle.sm_types.specs.declared.vector.ReductionOp.TheVariants.{Orv, Eorv, Andv};
ghost use Rattle.vector_elements.specs.declared.size.Size.TheVariants.{D};
ghost use Rattle.vector_elements.specs.Numbers.{range_of, half_of, signed_of, wrapped};
ghost use Rattle.sve_perm.specs.Reduce.{result_size, reduction_of};

use crate::reductions::Reduction;
use vector_elements::{Size, signed, wrapped};

/// An element of 64 bits with the sign of one of a size.
#[inline(always)]
fn sign_extended(size: Size, x: u64) -> u64
    requires { x < range_of size }
    ensures { result ≡ wrapped D (signed_of size x) }
{
    wrapped(Size::D, signed(size, x))
}

/// The sum with signs, of 64 bits.
#[derive(Clone, Copy)]
pub struct SignedSum;

impl Reduction for SignedSum {
    ghost wide = { λ s size. result_size Saddv size };

    ghost gives = { λ s size xs. reduction_of Saddv size xs };

    #[inline(always)]
    #[tactic(auto, unfolding(crate::specs::Reduce::reduction_of, vector_elements::specs::Numbers::wrapped))]
    fn neutral(self, _size: Size) -> u64 {
        0
    }

    #[inline(always)]
    #[tactic(auto, unfolding(crate::specs::Reduce::reduction_of), using(crate::proofs::Sums::saddv_more))]
    fn join(self, size: Size, total: u64, x: u64) -> u64 {
        total.wrapping_add(sign_extended(size, x))
    }
}

/// The sum without signs, of 64 bits.
#[derive(Clone, Copy)]
pub struct Sum;

impl Reduction for Sum {
    ghost wide = { λ s size. result_size Uaddv size };

    ghost gives = { λ s size xs. reduction_of Uaddv size xs };

    #[inline(always)]
    #[tactic(auto, unfolding(crate::specs::Reduce::reduction_of))]
    fn neutral(self, _size: Size) -> u64 {
        0
    }

    #[inline(always)]
    #[tactic(auto, unfolding(crate::specs::Reduce::reduction_of))]
    fn join(self, _size: Size, total: u64, x: u64) -> u64 {
        total.wrapping_add(x)
    }
}

/// The least signed number of an element, as an element.
#[inline(always)]
fn lowest(size: Size) -> u64
    ensures { result ≡ half_of size }
{
    match size {
        Size::B => 0x80,
        Size::H => 0x8000,
        Size::S => 0x8000_0000,
        Size::D => 0x8000_0000_0000_0000,
    }
}

/// The greatest signed number of an element, as an element.
#[inline(always)]
fn highest(size: Size) -> u64
    ensures { result ≡ half_of size - 1 }
{
    lowest(size) - 1
}

/// The greatest number of an element without a sign.
#[inline(always)]
fn all_ones(size: Size) -> u64
    ensures { result ≡ range_of size - 1 }
{
    match size {
        Size::B => 0xff,
        Size::H => 0xffff,
        Size::S => 0xffff_ffff,
        Size::D => u64::MAX,
    }
}

/// The greatest as signed numbers.
#[derive(Clone, Copy)]
pub struct SignedGreatest;

impl Reduction for SignedGreatest {
    ghost wide = { λ s size. result_size Smaxv size };

    ghost gives = { λ s size xs. reduction_of Smaxv size xs };

    #[inline(always)]
    #[tactic(auto, unfolding(crate::specs::Reduce::reduction_of))]
    fn neutral(self, size: Size) -> u64 {
        lowest(size)
    }

    #[inline(always)]
    #[tactic(auto, unfolding(crate::specs::Reduce::reduction_of, sve_exec::specs::Binary::binary_of))]
    fn join(self, size: Size, total: u64, x: u64) -> u64 {
        if signed(size, total) < signed(size, x) {
            x
        } else {
            total
        }
    }
}

/// The greatest without signs.
#[derive(Clone, Copy)]
pub struct Greatest;

impl Reduction for Greatest {
    ghost wide = { λ s size. result_size Umaxv size };

    ghost gives = { λ s size xs. reduction_of Umaxv size xs };

    #[inline(always)]
    #[tactic(auto, unfolding(crate::specs::Reduce::reduction_of))]
    fn neutral(self, _size: Size) -> u64 {
        0
    }

    #[inline(always)]
    #[tactic(auto, unfolding(crate::specs::Reduce::reduction_of))]
    fn join(self, _size: Size, total: u64, x: u64) -> u64 {
        total.max(x)
    }
}

/// The least as signed numbers.
#[derive(Clone, Copy)]
pub struct SignedLeast;

impl Reduction for SignedLeast {
    ghost wide = { λ s size. result_size Sminv size };

    ghost gives = { λ s size xs. reduction_of Sminv size xs };

    #[inline(always)]
    #[tactic(auto, unfolding(crate::specs::Reduce::reduction_of))]
    fn neutral(self, size: Size) -> u64 {
        highest(size)
    }

    #[inline(always)]
    #[tactic(auto, unfolding(crate::specs::Reduce::reduction_of, sve_exec::specs::Binary::binary_of))]
    fn join(self, size: Size, total: u64, x: u64) -> u64 {
        if signed(size, x) < signed(size, total) {
            x
        } else {
            total
        }
    }
}

/// The least without signs.
#[derive(Clone, Copy)]
pub struct Least;

impl Reduction for Least {
    ghost wide = { λ s size. result_size Uminv size };

    ghost gives = { λ s size xs. reduction_of Uminv size xs };

    #[inline(always)]
    #[tactic(auto, unfolding(crate::specs::Reduce::reduction_of))]
    fn neutral(self, size: Size) -> u64 {
        all_ones(size)
    }

    #[inline(always)]
    #[tactic(auto, unfolding(crate::specs::Reduce::reduction_of))]
    fn join(self, _size: Size, total: u64, x: u64) -> u64 {
        total.min(x)
    }
}

/// The bits that are set in some element.
#[derive(Clone, Copy)]
pub struct AnyOnes;

impl Reduction for AnyOnes {
    ghost wide = { λ s size. result_size Orv size };

    ghost gives = { λ s size xs. reduction_of Orv size xs };

    #[inline(always)]
    #[tactic(auto, unfolding(crate::specs::Reduce::reduction_of))]
    fn neutral(self, _size: Size) -> u64 {
        0
    }

    #[inline(always)]
    #[tactic(auto, unfolding(crate::specs::Reduce::reduction_of), using(crate::proofs::Sums::or_fits))]
    fn join(self, _size: Size, total: u64, x: u64) -> u64 {
        total | x
    }
}

/// The bits that are set in an odd number of elements.
#[derive(Clone, Copy)]
pub struct OddOnes;

impl Reduction for OddOnes {
    ghost wide = { λ s size. result_size Eorv size };

    ghost gives = { λ s size xs. reduction_of Eorv size xs };

    #[inline(always)]
    #[tactic(auto, unfolding(crate::specs::Reduce::reduction_of))]
    fn neutral(self, _size: Size) -> u64 {
        0
    }

    #[inline(always)]
    #[tactic(auto, unfolding(crate::specs::Reduce::reduction_of), using(crate::proofs::Sums::xor_fits))]
    fn join(self, _size: Size, total: u64, x: u64) -> u64 {
        total ^ x
    }
}

/// The bits that are set in all elements.
#[derive(Clone, Copy)]
pub struct AllOnes;

impl Reduction for AllOnes {
    ghost wide = { λ s size. result_size Andv size };

    ghost gives = { λ s size xs. reduction_of Andv size xs };

    #[inline(always)]
    #[tactic(auto, unfolding(crate::specs::Reduce::reduction_of))]
    fn neutral(self, size: Size) -> u64 {
        all_ones(size)
    }

    #[inline(always)]
    #[tactic(auto, unfolding(crate::specs::Reduce::reduction_of))]
    fn join(self, _size: Size, total: u64, x: u64) -> u64 {
        total & x
    }
}
