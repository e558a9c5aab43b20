//! Operations on two elements, each a type of its own: so each has a loop of its own too.
ghost use Rattle.sm_types.specs.declared.vector.VectorArithmeticOp.TheVariants.{Sqadd, Uqadd, Sqsub, Uqsub};
ghost use Rattle.sm_types.specs.declared.vector.PredicatedBinaryOp.TheVariants.{Smax, Umax, Smin, Umin, Sabd};
ghost use Rattle.sm_types.specs.declared.vector.PredicatedBinaryOp.TheVariants.{Uabd, Udiv, Orr, Eor, Bic};
ghost use Rattle.sm_types.specs.declared.vector.PredicatedBinaryOp.TheVariants.{And as Both};
ghost use Rattle.sve_exec.specs.Arithmetic.{sum_of, difference_of, arithmetic_of};
ghost use Rattle.sve_exec.specs.Binary.{product_of, signed_high_product, high_product, signed_quotient};
ghost use Rattle.sve_exec.specs.Binary.{shifted_left, shifted_right, signed_shifted_right, binary_of};

use crate::number::{
    difference, invert, saturating_signed_difference, saturating_signed_sum, saturating_sum, sum,
};
use crate::operation::Binary;
use crate::product::{high_product, product, signed_high_product};
use crate::quotient::{quotient, signed_quotient};
use crate::shift::{shift_left, shift_right, signed_shift_right};
use vector_elements::{Size, signed};

/// The sum modulo 2 ^ w.
#[derive(Clone, Copy)]
pub struct Sum;

impl Binary for Sum {
    ghost gives = { λ s size a b. sum_of size a b };

    #[inline(always)]
    fn of_two(self, size: Size, a: u64, b: u64) -> u64 {
        sum(size, a, b)
    }
}

/// The difference modulo 2 ^ w.
#[derive(Clone, Copy)]
pub struct Difference;

impl Binary for Difference {
    ghost gives = { λ s size a b. difference_of size a b };

    #[inline(always)]
    fn of_two(self, size: Size, a: u64, b: u64) -> u64 {
        difference(size, a, b)
    }
}

/// The second less the first, modulo 2 ^ w.
#[derive(Clone, Copy)]
pub struct ReverseDifference;

impl Binary for ReverseDifference {
    ghost gives = { λ s size a b. difference_of size b a };

    #[inline(always)]
    fn of_two(self, size: Size, a: u64, b: u64) -> u64 {
        difference(size, b, a)
    }
}

/// The signed sum, saturated.
#[derive(Clone, Copy)]
pub struct SignedSaturatingSum;

impl Binary for SignedSaturatingSum {
    ghost gives = { λ s size a b. arithmetic_of Sqadd size a b };

    #[inline(always)]
    #[tactic(auto, unfolding(crate::specs::Arithmetic::arithmetic_of))]
    fn of_two(self, size: Size, a: u64, b: u64) -> u64 {
        saturating_signed_sum(size, a, b)
    }
}

/// The sum without a sign, saturated.
#[derive(Clone, Copy)]
pub struct SaturatingSum;

impl Binary for SaturatingSum {
    ghost gives = { λ s size a b. arithmetic_of Uqadd size a b };

    #[inline(always)]
    #[tactic(auto, unfolding(crate::specs::Arithmetic::arithmetic_of))]
    fn of_two(self, size: Size, a: u64, b: u64) -> u64 {
        saturating_sum(size, a, b)
    }
}

/// The signed difference, saturated.
#[derive(Clone, Copy)]
pub struct SignedSaturatingDifference;

impl Binary for SignedSaturatingDifference {
    ghost gives = { λ s size a b. arithmetic_of Sqsub size a b };

    #[inline(always)]
    #[tactic(auto, unfolding(crate::specs::Arithmetic::arithmetic_of))]
    fn of_two(self, size: Size, a: u64, b: u64) -> u64 {
        saturating_signed_difference(size, a, b)
    }
}

/// The difference without a sign, saturated.
#[derive(Clone, Copy)]
pub struct SaturatingDifference;

impl Binary for SaturatingDifference {
    ghost gives = { λ s size a b. arithmetic_of Uqsub size a b };

    #[inline(always)]
    #[tactic(auto, unfolding(crate::specs::Arithmetic::arithmetic_of))]
    fn of_two(self, _size: Size, a: u64, b: u64) -> u64 {
        a.saturating_sub(b)
    }
}

/// The greater signed element.
#[derive(Clone, Copy)]
pub struct SignedMaximum;

impl Binary for SignedMaximum {
    ghost gives = { λ s size a b. binary_of Smax size a b };

    #[inline(always)]
    #[tactic(auto, unfolding(crate::specs::Binary::binary_of))]
    fn of_two(self, size: Size, a: u64, b: u64) -> u64 {
        if signed(size, a) < signed(size, b) {
            b
        } else {
            a
        }
    }
}

/// The greater element.
#[derive(Clone, Copy)]
pub struct Maximum;

impl Binary for Maximum {
    ghost gives = { λ s size a b. binary_of Umax size a b };

    #[inline(always)]
    #[tactic(auto, unfolding(crate::specs::Binary::binary_of))]
    fn of_two(self, _size: Size, a: u64, b: u64) -> u64 {
        a.max(b)
    }
}

/// The lesser signed element.
#[derive(Clone, Copy)]
pub struct SignedMinimum;

impl Binary for SignedMinimum {
    ghost gives = { λ s size a b. binary_of Smin size a b };

    #[inline(always)]
    #[tactic(auto, unfolding(crate::specs::Binary::binary_of))]
    fn of_two(self, size: Size, a: u64, b: u64) -> u64 {
        if signed(size, b) < signed(size, a) {
            b
        } else {
            a
        }
    }
}

/// The lesser element.
#[derive(Clone, Copy)]
pub struct Minimum;

impl Binary for Minimum {
    ghost gives = { λ s size a b. binary_of Umin size a b };

    #[inline(always)]
    #[tactic(auto, unfolding(crate::specs::Binary::binary_of))]
    fn of_two(self, _size: Size, a: u64, b: u64) -> u64 {
        a.min(b)
    }
}

/// How far apart the signed elements are.
#[derive(Clone, Copy)]
pub struct SignedAbsoluteDifference;

impl Binary for SignedAbsoluteDifference {
    ghost gives = { λ s size a b. binary_of Sabd size a b };

    #[inline(always)]
    #[tactic(auto, unfolding(crate::specs::Binary::binary_of))]
    fn of_two(self, size: Size, a: u64, b: u64) -> u64 {
        signed(size, a).abs_diff(signed(size, b))
    }
}

/// How far apart the elements are.
#[derive(Clone, Copy)]
pub struct AbsoluteDifference;

impl Binary for AbsoluteDifference {
    ghost gives = { λ s size a b. binary_of Uabd size a b };

    #[inline(always)]
    #[tactic(auto, unfolding(crate::specs::Binary::binary_of))]
    fn of_two(self, _size: Size, a: u64, b: u64) -> u64 {
        a.abs_diff(b)
    }
}

/// The low half of the product.
#[derive(Clone, Copy)]
pub struct Product;

impl Binary for Product {
    ghost gives = { λ s size a b. product_of size a b };

    #[inline(always)]
    fn of_two(self, size: Size, a: u64, b: u64) -> u64 {
        product(size, a, b)
    }
}

/// The upper half of the signed product.
#[derive(Clone, Copy)]
pub struct SignedHighProduct;

impl Binary for SignedHighProduct {
    ghost gives = { λ s size a b. signed_high_product size a b };

    #[inline(always)]
    fn of_two(self, size: Size, a: u64, b: u64) -> u64 {
        signed_high_product(size, a, b)
    }
}

/// The upper half of the product without a sign.
#[derive(Clone, Copy)]
pub struct HighProduct;

impl Binary for HighProduct {
    ghost gives = { λ s size a b. high_product size a b };

    #[inline(always)]
    fn of_two(self, size: Size, a: u64, b: u64) -> u64 {
        high_product(size, a, b)
    }
}

/// The signed quotient.
#[derive(Clone, Copy)]
pub struct SignedQuotient;

impl Binary for SignedQuotient {
    ghost gives = { λ s size a b. signed_quotient size a b };

    #[inline(always)]
    fn of_two(self, size: Size, a: u64, b: u64) -> u64 {
        signed_quotient(size, a, b)
    }
}

/// The quotient without a sign.
#[derive(Clone, Copy)]
pub struct Quotient;

impl Binary for Quotient {
    ghost gives = { λ s size a b. binary_of Udiv size a b };

    #[inline(always)]
    #[tactic(auto, unfolding(crate::specs::Binary::binary_of))]
    fn of_two(self, _size: Size, a: u64, b: u64) -> u64 {
        quotient(a, b)
    }
}

/// Inclusive or.
#[derive(Clone, Copy)]
pub struct Or;

impl Binary for Or {
    ghost gives = { λ s size a b. binary_of Orr size a b };

    #[inline(always)]
    #[tactic(auto, unfolding(crate::specs::Binary::binary_of))]
    fn of_two(self, _size: Size, a: u64, b: u64) -> u64 {
        a | b
    }
}

/// Exclusive or.
#[derive(Clone, Copy)]
pub struct ExclusiveOr;

impl Binary for ExclusiveOr {
    ghost gives = { λ s size a b. binary_of Eor size a b };

    #[inline(always)]
    #[tactic(auto, unfolding(crate::specs::Binary::binary_of))]
    fn of_two(self, _size: Size, a: u64, b: u64) -> u64 {
        a ^ b
    }
}

/// And.
#[derive(Clone, Copy)]
pub struct And;

impl Binary for And {
    ghost gives = { λ s size a b. binary_of Both size a b };

    #[inline(always)]
    #[tactic(auto, unfolding(crate::specs::Binary::binary_of))]
    fn of_two(self, _size: Size, a: u64, b: u64) -> u64 {
        a & b
    }
}

/// And with the second inverted.
#[derive(Clone, Copy)]
pub struct AndNot;

impl Binary for AndNot {
    ghost gives = { λ s size a b. binary_of Bic size a b };

    #[inline(always)]
    #[tactic(auto, unfolding(crate::specs::Binary::binary_of))]
    fn of_two(self, size: Size, a: u64, b: u64) -> u64 {
        a & invert(size, b)
    }
}

/// A shift to the right by the sign.
#[derive(Clone, Copy)]
pub struct SignedShiftRight;

impl Binary for SignedShiftRight {
    ghost gives = { λ s size a b. signed_shifted_right size a b };

    #[inline(always)]
    fn of_two(self, size: Size, a: u64, b: u64) -> u64 {
        signed_shift_right(size, a, b)
    }
}

/// A shift to the right by zeros.
#[derive(Clone, Copy)]
pub struct ShiftRight;

impl Binary for ShiftRight {
    ghost gives = { λ s size a b. shifted_right size a b };

    #[inline(always)]
    fn of_two(self, size: Size, a: u64, b: u64) -> u64 {
        shift_right(size, a, b)
    }
}

/// A shift to the left.
#[derive(Clone, Copy)]
pub struct ShiftLeft;

impl Binary for ShiftLeft {
    ghost gives = { λ s size a b. shifted_left size a b };

    #[inline(always)]
    fn of_two(self, size: Size, a: u64, b: u64) -> u64 {
        shift_left(size, a, b)
    }
}
