//! Shifts of a vector by an immediate.
ghost use Rattle.std.specs.Prelude.{◌≡◌, ◌%◌, length};
ghost use Rattle.vector_elements.specs.Numbers.{bytes_in};
ghost use Rattle.sve_exec.specs.Shift.{shift_of, vector_shift};

use crate::operation::{Binary, WithValue};
use crate::shift::{shift_left, shift_right, signed_shift_right};
use sm_types::VectorShiftOp;
use vector_elements::{Size, change_each};

impl Binary for VectorShiftOp {
    ghost gives = { shift_of };

    #[inline(always)]
    #[tactic(auto, unfolding(crate::specs::Shift::shift_of))]
    fn of_two(self, size: Size, a: u64, b: u64) -> u64 {
        match self {
            VectorShiftOp::Asr => signed_shift_right(size, a, b),
            VectorShiftOp::Lsr => shift_right(size, a, b),
            VectorShiftOp::Lsl => shift_left(size, a, b),
        }
    }
}

/// The same as `vector_shift`, for an operation that the caller knows.
#[inline(always)]
#[tactic(auto, unfolding(crate::specs::Shift::vector_shift))]
fn known_shift(op: VectorShiftOp, size: Size, amount: u8, d: &mut [u8])
    requires { length d.old % bytes_in size ≡ 0 }
    ensures { d.new ≡ vector_shift op size amount d.old }
{
    let value = u64::from(amount);
    change_each(&WithValue { op, value }, size, d);
}

/// Shifts each element of `d`; with a loop for each operation and size.
/// Source: DDI 0487, C8.2, ASR, LSR, LSL (immediate, unpredicated).
pub fn vector_shift(op: VectorShiftOp, size: Size, amount: u8, d: &mut [u8])
    requires { length d.old % bytes_in size ≡ 0 }
    ensures { d.new ≡ vector_shift op size amount d.old }
{
    match op {
        VectorShiftOp::Asr => known_shift(VectorShiftOp::Asr, size, amount, d),
        VectorShiftOp::Lsr => known_shift(VectorShiftOp::Lsr, size, amount, d),
        VectorShiftOp::Lsl => known_shift(VectorShiftOp::Lsl, size, amount, d),
    }
}
