//! Sums, differences and products of a vector and an immediate.
#![tactic(auto, unfolding(
// The vector, and each of its elements.
crate::specs::Copies::vector_multiply_immediate, crate::specs::Multiply::multiply_of))]

ghost use Rattle.std.specs.Prelude.{◌≡◌, ◌%◌, ◌<◌, length};
ghost use Rattle.vector_elements.specs.Numbers.{bytes_in, range_of};
ghost use Rattle.sve_exec.specs.Copies.{unsigned_immediate, add_immediate_of, vector_add_immediate};
ghost use Rattle.sve_exec.specs.Copies.{vector_multiply_immediate};

use crate::number::{difference, sum};
use crate::operation::{Binary, WithValue};
use sm_types::{AddImmediateOp, VectorMultiplyOp};
use vector_elements::{Size, change_each, low_bits, wrapped};

/// An immediate without a sign as an element, shifted left by 8 where `shifted`.
#[inline(always)]
#[tactic(auto, unfolding(crate::specs::Copies::unsigned_immediate))]
fn unsigned_immediate(size: Size, imm: u8, shifted: bool) -> u64
    ensures value { result ≡ unsigned_immediate size imm shifted }
    ensures fits { result < range_of size }
{
    let imm = u64::from(imm);
    if shifted {
        low_bits(size, imm * 0x100)
    } else {
        low_bits(size, imm)
    }
}

impl Binary for AddImmediateOp {
    ghost gives = { add_immediate_of };

    #[inline(always)]
    #[tactic(auto, unfolding(crate::specs::Copies::add_immediate_of))]
    fn of_two(self, size: Size, a: u64, b: u64) -> u64 {
        match self {
            AddImmediateOp::Add => sum(size, a, b),
            AddImmediateOp::Sub => difference(size, a, b),
            AddImmediateOp::Subr => difference(size, b, a),
        }
    }
}

/// The same as `vector_add_immediate`, for an operation that the caller knows.
#[inline(always)]
#[tactic(auto, unfolding(crate::specs::Copies::vector_add_immediate))]
fn known_add_immediate(op: AddImmediateOp, size: Size, imm: u8, shifted: bool, d: &mut [u8])
    requires { length d.old % bytes_in size ≡ 0 }
    ensures { d.new ≡ vector_add_immediate op size imm shifted d.old }
{
    let value = unsigned_immediate(size, imm, shifted);
    change_each(&WithValue { op, value }, size, d);
}

/// Adds an immediate to each element of `d`, subtracts it, or subtracts the element from it; with a loop for
/// each operation and size. Source: DDI 0487, C8.2, ADD, SUB, SUBR (immediate).
pub fn vector_add_immediate(op: AddImmediateOp, size: Size, imm: u8, shifted: bool, d: &mut [u8])
    requires { length d.old % bytes_in size ≡ 0 }
    ensures { d.new ≡ vector_add_immediate op size imm shifted d.old }
{
    match op {
        AddImmediateOp::Add => known_add_immediate(AddImmediateOp::Add, size, imm, shifted, d),
        AddImmediateOp::Sub => known_add_immediate(AddImmediateOp::Sub, size, imm, shifted, d),
        AddImmediateOp::Subr => known_add_immediate(AddImmediateOp::Subr, size, imm, shifted, d),
    }
}

/// Multiplies each element of `d` by a signed immediate. Source: DDI 0487, C8.2, MUL (immediate).
pub fn vector_multiply_immediate(size: Size, imm: i32, d: &mut [u8])
    requires { length d.old % bytes_in size ≡ 0 }
    ensures { d.new ≡ vector_multiply_immediate size imm d.old }
{
    let value = wrapped(size, i64::from(imm));
    let op = VectorMultiplyOp::Mul;
    change_each(&WithValue { op, value }, size, d);
}
