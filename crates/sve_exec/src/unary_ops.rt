//! Operations on an element, each a type of its own: so each has a loop of its own too.
ghost use Rattle.sm_types.specs.declared.vector.PredicatedUnaryOp.TheVariants.{Abs, Neg, Cls, Clz, Cnt, Cnot};
ghost use Rattle.sm_types.specs.declared.vector.PredicatedUnaryOp.TheVariants.{Not, Sxtb, Uxtb, Sxth, Uxth};
ghost use Rattle.sm_types.specs.declared.vector.PredicatedUnaryOp.TheVariants.{Sxtw, Uxtw};
ghost use Rattle.sve_exec.specs.Unary.{unary_of};

use crate::count::{leading_signs, leading_zeros};
use crate::number::{difference, invert, sign_extend};
use crate::operation::Unary;
use vector_elements::{Size, low_bits, signed};

/// How far a signed element is from 0.
#[derive(Clone, Copy)]
pub struct AbsoluteValue;

impl Unary for AbsoluteValue {
    ghost gives = { λ s size a. unary_of Abs size a };

    #[inline(always)]
    #[tactic(auto, unfolding(crate::specs::Unary::unary_of))]
    fn of_one(self, size: Size, a: u64) -> u64 {
        signed(size, a).unsigned_abs()
    }
}

/// 0 less an element, modulo 2 ^ w.
#[derive(Clone, Copy)]
pub struct Negation;

impl Unary for Negation {
    ghost gives = { λ s size a. unary_of Neg size a };

    #[inline(always)]
    #[tactic(auto, unfolding(crate::specs::Unary::unary_of))]
    fn of_one(self, size: Size, a: u64) -> u64 {
        difference(size, 0, a)
    }
}

/// The bits below the top one that equal it without a break.
#[derive(Clone, Copy)]
pub struct LeadingSigns;

impl Unary for LeadingSigns {
    ghost gives = { λ s size a. unary_of Cls size a };

    #[inline(always)]
    #[tactic(auto, unfolding(crate::specs::Unary::unary_of))]
    fn of_one(self, size: Size, a: u64) -> u64 {
        leading_signs(size, a)
    }
}

/// The zeros above the highest one.
#[derive(Clone, Copy)]
pub struct LeadingZeros;

impl Unary for LeadingZeros {
    ghost gives = { λ s size a. unary_of Clz size a };

    #[inline(always)]
    #[tactic(auto, unfolding(crate::specs::Unary::unary_of))]
    fn of_one(self, size: Size, a: u64) -> u64 {
        leading_zeros(size, a)
    }
}

/// The ones.
#[derive(Clone, Copy)]
pub struct Ones;

impl Unary for Ones {
    ghost gives = { λ s size a. unary_of Cnt size a };

    #[inline(always)]
    #[tactic(auto, unfolding(crate::specs::Unary::unary_of))]
    fn of_one(self, _size: Size, a: u64) -> u64 {
        u64::from(a.count_ones())
    }
}

/// 1 for zero, else 0.
#[derive(Clone, Copy)]
pub struct IsZero;

impl Unary for IsZero {
    ghost gives = { λ s size a. unary_of Cnot size a };

    #[inline(always)]
    #[tactic(auto, unfolding(crate::specs::Unary::unary_of))]
    fn of_one(self, _size: Size, a: u64) -> u64 {
        u64::from(a == 0)
    }
}

/// Every bit inverted.
#[derive(Clone, Copy)]
pub struct Inversion;

impl Unary for Inversion {
    ghost gives = { λ s size a. unary_of Not size a };

    #[inline(always)]
    #[tactic(auto, unfolding(crate::specs::Unary::unary_of))]
    fn of_one(self, size: Size, a: u64) -> u64 {
        invert(size, a)
    }
}

/// The low 8 bits with their sign.
#[derive(Clone, Copy)]
pub struct SignExtendedByte;

impl Unary for SignExtendedByte {
    ghost gives = { λ s size a. unary_of Sxtb size a };

    #[inline(always)]
    #[tactic(auto, unfolding(crate::specs::Unary::unary_of))]
    fn of_one(self, size: Size, a: u64) -> u64 {
        sign_extend(Size::B, size, a)
    }
}

/// The low 8 bits.
#[derive(Clone, Copy)]
pub struct Byte;

impl Unary for Byte {
    ghost gives = { λ s size a. unary_of Uxtb size a };

    #[inline(always)]
    #[tactic(auto, unfolding(crate::specs::Unary::unary_of))]
    fn of_one(self, _size: Size, a: u64) -> u64 {
        low_bits(Size::B, a)
    }
}

/// The low 16 bits with their sign.
#[derive(Clone, Copy)]
pub struct SignExtendedHalfword;

impl Unary for SignExtendedHalfword {
    ghost gives = { λ s size a. unary_of Sxth size a };

    #[inline(always)]
    #[tactic(auto, unfolding(crate::specs::Unary::unary_of))]
    fn of_one(self, size: Size, a: u64) -> u64 {
        sign_extend(Size::H, size, a)
    }
}

/// The low 16 bits.
#[derive(Clone, Copy)]
pub struct Halfword;

impl Unary for Halfword {
    ghost gives = { λ s size a. unary_of Uxth size a };

    #[inline(always)]
    #[tactic(auto, unfolding(crate::specs::Unary::unary_of))]
    fn of_one(self, _size: Size, a: u64) -> u64 {
        low_bits(Size::H, a)
    }
}

/// The low 32 bits with their sign.
#[derive(Clone, Copy)]
pub struct SignExtendedWord;

impl Unary for SignExtendedWord {
    ghost gives = { λ s size a. unary_of Sxtw size a };

    #[inline(always)]
    #[tactic(auto, unfolding(crate::specs::Unary::unary_of))]
    fn of_one(self, size: Size, a: u64) -> u64 {
        sign_extend(Size::S, size, a)
    }
}

/// The low 32 bits.
#[derive(Clone, Copy)]
pub struct Word;

impl Unary for Word {
    ghost gives = { λ s size a. unary_of Uxtw size a };

    #[inline(always)]
    #[tactic(auto, unfolding(crate::specs::Unary::unary_of))]
    fn of_one(self, _size: Size, a: u64) -> u64 {
        low_bits(Size::S, a)
    }
}
