//! The operations that are made on lanes.
#![tactic(auto, unfolding(
// The values at two elements.
crate::specs::Arithmetic::arithmetic_of, crate::specs::Binary::binary_of))]

use crate::binary_ops::{
    And, AndNot, Difference, ExclusiveOr, Or, SaturatingDifference, SaturatingSum,
    SignedSaturatingDifference, SignedSaturatingSum, Sum,
};
use crate::lanes::Lanewise;
use std::simd::prelude::*;

impl Lanewise for Sum {
    #[inline(always)]
    fn of_bytes(self, a: u8x16, b: u8x16) -> u8x16 {
        a + b
    }

    #[inline(always)]
    fn of_halfwords(self, a: u16x8, b: u16x8) -> u16x8 {
        a + b
    }

    #[inline(always)]
    fn of_words(self, a: u32x4, b: u32x4) -> u32x4 {
        a + b
    }

    #[inline(always)]
    fn of_doublewords(self, a: u64x2, b: u64x2) -> u64x2 {
        a + b
    }
}

impl Lanewise for Difference {
    #[inline(always)]
    fn of_bytes(self, a: u8x16, b: u8x16) -> u8x16 {
        a - b
    }

    #[inline(always)]
    fn of_halfwords(self, a: u16x8, b: u16x8) -> u16x8 {
        a - b
    }

    #[inline(always)]
    fn of_words(self, a: u32x4, b: u32x4) -> u32x4 {
        a - b
    }

    #[inline(always)]
    fn of_doublewords(self, a: u64x2, b: u64x2) -> u64x2 {
        a - b
    }
}

impl Lanewise for SaturatingSum {
    #[inline(always)]
    fn of_bytes(self, a: u8x16, b: u8x16) -> u8x16 {
        a.saturating_add(b)
    }

    #[inline(always)]
    fn of_halfwords(self, a: u16x8, b: u16x8) -> u16x8 {
        a.saturating_add(b)
    }

    #[inline(always)]
    fn of_words(self, a: u32x4, b: u32x4) -> u32x4 {
        a.saturating_add(b)
    }

    #[inline(always)]
    fn of_doublewords(self, a: u64x2, b: u64x2) -> u64x2 {
        a.saturating_add(b)
    }
}

impl Lanewise for SaturatingDifference {
    #[inline(always)]
    fn of_bytes(self, a: u8x16, b: u8x16) -> u8x16 {
        a.saturating_sub(b)
    }

    #[inline(always)]
    fn of_halfwords(self, a: u16x8, b: u16x8) -> u16x8 {
        a.saturating_sub(b)
    }

    #[inline(always)]
    fn of_words(self, a: u32x4, b: u32x4) -> u32x4 {
        a.saturating_sub(b)
    }

    #[inline(always)]
    fn of_doublewords(self, a: u64x2, b: u64x2) -> u64x2 {
        a.saturating_sub(b)
    }
}

// Lanes have no sign here: a number below zero is one from half of the range on. Two numbers from zero on
// have a sum of w bits, and the lesser of it and the greatest signed number is the saturated sum; so is the
// greater of the sum and that half for two numbers below zero. No sum of two signs saturates, and no
// difference of two numbers of one sign.
impl Lanewise for SignedSaturatingSum {
    #[inline(always)]
    fn of_bytes(self, a: u8x16, b: u8x16) -> u8x16 {
        let half = u8x16::splat(0x80);
        let sum = a + b;
        let most = sum.simd_min(u8x16::splat(0x7f));
        let least = sum.simd_max(half);
        let is_negative = b.simd_ge(half);
        a.simd_ge(half).select(
            is_negative.select(least, sum),
            is_negative.select(sum, most),
        )
    }

    #[inline(always)]
    fn of_halfwords(self, a: u16x8, b: u16x8) -> u16x8 {
        let half = u16x8::splat(0x8000);
        let sum = a + b;
        let most = sum.simd_min(u16x8::splat(0x7fff));
        let least = sum.simd_max(half);
        let is_negative = b.simd_ge(half);
        a.simd_ge(half).select(
            is_negative.select(least, sum),
            is_negative.select(sum, most),
        )
    }

    #[inline(always)]
    fn of_words(self, a: u32x4, b: u32x4) -> u32x4 {
        let half = u32x4::splat(0x8000_0000);
        let sum = a + b;
        let most = sum.simd_min(u32x4::splat(0x7fff_ffff));
        let least = sum.simd_max(half);
        let is_negative = b.simd_ge(half);
        a.simd_ge(half).select(
            is_negative.select(least, sum),
            is_negative.select(sum, most),
        )
    }

    #[inline(always)]
    fn of_doublewords(self, a: u64x2, b: u64x2) -> u64x2 {
        let half = u64x2::splat(0x8000_0000_0000_0000);
        let sum = a + b;
        let most = sum.simd_min(u64x2::splat(0x7fff_ffff_ffff_ffff));
        let least = sum.simd_max(half);
        let is_negative = b.simd_ge(half);
        a.simd_ge(half).select(
            is_negative.select(least, sum),
            is_negative.select(sum, most),
        )
    }
}

impl Lanewise for SignedSaturatingDifference {
    #[inline(always)]
    fn of_bytes(self, a: u8x16, b: u8x16) -> u8x16 {
        let half = u8x16::splat(0x80);
        let difference = a - b;
        let most = difference.simd_min(u8x16::splat(0x7f));
        let least = difference.simd_max(half);
        let is_negative = b.simd_ge(half);
        a.simd_ge(half).select(
            is_negative.select(difference, least),
            is_negative.select(most, difference),
        )
    }

    #[inline(always)]
    fn of_halfwords(self, a: u16x8, b: u16x8) -> u16x8 {
        let half = u16x8::splat(0x8000);
        let difference = a - b;
        let most = difference.simd_min(u16x8::splat(0x7fff));
        let least = difference.simd_max(half);
        let is_negative = b.simd_ge(half);
        a.simd_ge(half).select(
            is_negative.select(difference, least),
            is_negative.select(most, difference),
        )
    }

    #[inline(always)]
    fn of_words(self, a: u32x4, b: u32x4) -> u32x4 {
        let half = u32x4::splat(0x8000_0000);
        let difference = a - b;
        let most = difference.simd_min(u32x4::splat(0x7fff_ffff));
        let least = difference.simd_max(half);
        let is_negative = b.simd_ge(half);
        a.simd_ge(half).select(
            is_negative.select(difference, least),
            is_negative.select(most, difference),
        )
    }

    #[inline(always)]
    fn of_doublewords(self, a: u64x2, b: u64x2) -> u64x2 {
        let half = u64x2::splat(0x8000_0000_0000_0000);
        let difference = a - b;
        let most = difference.simd_min(u64x2::splat(0x7fff_ffff_ffff_ffff));
        let least = difference.simd_max(half);
        let is_negative = b.simd_ge(half);
        a.simd_ge(half).select(
            is_negative.select(difference, least),
            is_negative.select(most, difference),
        )
    }
}

impl Lanewise for And {
    #[inline(always)]
    fn of_bytes(self, a: u8x16, b: u8x16) -> u8x16 {
        a & b
    }

    #[inline(always)]
    fn of_halfwords(self, a: u16x8, b: u16x8) -> u16x8 {
        a & b
    }

    #[inline(always)]
    fn of_words(self, a: u32x4, b: u32x4) -> u32x4 {
        a & b
    }

    #[inline(always)]
    fn of_doublewords(self, a: u64x2, b: u64x2) -> u64x2 {
        a & b
    }
}

impl Lanewise for Or {
    #[inline(always)]
    fn of_bytes(self, a: u8x16, b: u8x16) -> u8x16 {
        a | b
    }

    #[inline(always)]
    fn of_halfwords(self, a: u16x8, b: u16x8) -> u16x8 {
        a | b
    }

    #[inline(always)]
    fn of_words(self, a: u32x4, b: u32x4) -> u32x4 {
        a | b
    }

    #[inline(always)]
    fn of_doublewords(self, a: u64x2, b: u64x2) -> u64x2 {
        a | b
    }
}

impl Lanewise for ExclusiveOr {
    #[inline(always)]
    fn of_bytes(self, a: u8x16, b: u8x16) -> u8x16 {
        a ^ b
    }

    #[inline(always)]
    fn of_halfwords(self, a: u16x8, b: u16x8) -> u16x8 {
        a ^ b
    }

    #[inline(always)]
    fn of_words(self, a: u32x4, b: u32x4) -> u32x4 {
        a ^ b
    }

    #[inline(always)]
    fn of_doublewords(self, a: u64x2, b: u64x2) -> u64x2 {
        a ^ b
    }
}

impl Lanewise for AndNot {
    #[inline(always)]
    fn of_bytes(self, a: u8x16, b: u8x16) -> u8x16 {
        a & !b
    }

    #[inline(always)]
    fn of_halfwords(self, a: u16x8, b: u16x8) -> u16x8 {
        a & !b
    }

    #[inline(always)]
    fn of_words(self, a: u32x4, b: u32x4) -> u32x4 {
        a & !b
    }

    #[inline(always)]
    fn of_doublewords(self, a: u64x2, b: u64x2) -> u64x2 {
        a & !b
    }
}
