//! Instructions that are made of constants and a flat one's fields, and executed with PC apart.
ghost use Rattle.std.specs.Prelude.{◌≡◌, ℕ, true, false};
ghost use Rattle.sm_types.specs.declared.insn.Insn.TheVariants as insn;
ghost use Rattle.a64_table.specs.Ranges.{IsInRow};
ghost use Rattle.scalar_exec.specs.Apart.{Steps};
ghost use Rattle.scalar_exec.specs.Forms.{unshifted, sum_immediate, sum_register, sum_shifted, sum_extended};
ghost use Rattle.scalar_exec.specs.Forms.{logical, logical_shifted, masked, halfword_move, field_move};
ghost use Rattle.scalar_exec.specs.Forms.{selected, two_sources, product, long_product, high_product};

use crate::apart::{
    step_add_sub_extended, step_add_sub_immediate, step_add_sub_register, step_bitfield_move,
    step_branch, step_branch_register, step_conditional_select, step_logical_immediate,
    step_logical_register, step_move_wide, step_multiply, step_pc_relative, step_two_source,
};
use crate::payloads::{
    BitFields, Extended, Factors, Halfword, Immediate, LeftShifted, Registers, Selection, Shifted,
};
use sm_types::{
    AddSub, AddSubExtended, AddSubImmediate, AddSubRegister, BitfieldMove, BitfieldOp, Branch,
    BranchRegister, BranchRegisterOp, Condition, ConditionalSelect, ExtendedRegister, Logical,
    LogicalImmediate, LogicalRegister, MoveOp, MoveWide, Multiply, PcRelative, PcRelativeOp,
    Scalars, SelectOp, ShiftKind, ShiftedRegister, TwoSource, TwoSourceOp,
};

/// A register that is not shifted.
#[inline(always)]
fn unshifted(rm: u8) -> ShiftedRegister
    ensures { result ≡ unshifted rm }
{
    ShiftedRegister {
        rm,
        shift: ShiftKind::Lsl,
        amount: 0,
    }
}

/// Adds or subtracts an immediate.
#[inline]
pub fn sum_immediate(s: &mut Scalars, at: u64, op: AddSub, wide: bool, x: Immediate) -> u64
    requires { IsInRow (sum_immediate op wide x) }
    ensures { (base : ℕ) → Steps (sum_immediate op wide x) base at result s.old s.new }
{
    let insn = AddSubImmediate {
        op,
        wide,
        shifted: false,
        imm: x.imm,
        rn: x.rn,
        rd: x.rd,
    };
    step_add_sub_immediate(s, &insn, at)
}

/// Adds or subtracts a register.
#[inline]
pub fn sum_register(s: &mut Scalars, at: u64, op: AddSub, wide: bool, x: Registers) -> u64
    requires { IsInRow (sum_register op wide x) }
    ensures { (base : ℕ) → Steps (sum_register op wide x) base at result s.old s.new }
{
    let insn = AddSubRegister {
        op,
        wide,
        operand: unshifted(x.rm),
        rn: x.rn,
        rd: x.rd,
    };
    step_add_sub_register(s, &insn, at)
}

/// Adds or subtracts a register that is shifted left.
#[inline]
pub fn sum_shifted(s: &mut Scalars, at: u64, op: AddSub, x: LeftShifted) -> u64
    requires { IsInRow (sum_shifted op x) }
    ensures { (base : ℕ) → Steps (sum_shifted op x) base at result s.old s.new }
{
    let insn = AddSubRegister {
        op,
        wide: true,
        operand: ShiftedRegister {
            rm: x.rm,
            shift: ShiftKind::Lsl,
            amount: x.amount,
        },
        rn: x.rn,
        rd: x.rd,
    };
    step_add_sub_register(s, &insn, at)
}

/// Adds an extended register.
#[inline]
pub fn sum_extended(s: &mut Scalars, at: u64, x: Extended) -> u64
    requires { IsInRow (sum_extended x) }
    ensures { (base : ℕ) → Steps (sum_extended x) base at result s.old s.new }
{
    let insn = AddSubExtended {
        op: AddSub::Add,
        wide: true,
        operand: ExtendedRegister {
            rm: x.rm,
            extend: x.extend,
            amount: x.amount,
        },
        rn: x.rn,
        rd: x.rd,
    };
    step_add_sub_extended(s, &insn, at)
}

/// Combines two registers.
#[inline]
pub fn logical(
    s: &mut Scalars,
    at: u64,
    op: Logical,
    wide: bool,
    inverted: bool,
    x: Registers,
) -> u64
    requires { IsInRow (logical op wide inverted x) }
    ensures { (base : ℕ) → Steps (logical op wide inverted x) base at result s.old s.new }
{
    let insn = LogicalRegister {
        op,
        wide,
        inverted,
        operand: unshifted(x.rm),
        rn: x.rn,
        rd: x.rd,
    };
    step_logical_register(s, &insn, at)
}

/// Combines a register with another that is shifted.
#[inline]
pub fn logical_shifted(s: &mut Scalars, at: u64, op: Logical, x: Shifted) -> u64
    requires { IsInRow (logical_shifted op x) }
    ensures { (base : ℕ) → Steps (logical_shifted op x) base at result s.old s.new }
{
    let insn = LogicalRegister {
        op,
        wide: true,
        inverted: false,
        operand: ShiftedRegister {
            rm: x.rm,
            shift: x.shift,
            amount: x.amount,
        },
        rn: x.rn,
        rd: x.rd,
    };
    step_logical_register(s, &insn, at)
}

/// Combines a register with a mask.
#[inline]
pub fn masked(s: &mut Scalars, at: u64, op: Logical, wide: bool, x: BitFields) -> u64
    requires { IsInRow (masked op wide x) }
    ensures { (base : ℕ) → Steps (masked op wide x) base at result s.old s.new }
{
    let insn = LogicalImmediate {
        op,
        wide,
        n: wide,
        immr: x.immr,
        imms: x.imms,
        rn: x.rn,
        rd: x.rd,
    };
    step_logical_immediate(s, &insn, at)
}

/// Moves a halfword.
#[inline]
pub fn halfword_move(s: &mut Scalars, at: u64, op: MoveOp, wide: bool, x: Halfword) -> u64
    requires { IsInRow (halfword_move op wide x) }
    ensures { (base : ℕ) → Steps (halfword_move op wide x) base at result s.old s.new }
{
    let insn = MoveWide {
        op,
        wide,
        hw: x.hw,
        imm: x.imm,
        rd: x.rd,
    };
    step_move_wide(s, &insn, at)
}

/// Moves a bit field.
#[inline]
pub fn field_move(s: &mut Scalars, at: u64, op: BitfieldOp, wide: bool, x: BitFields) -> u64
    requires { IsInRow (field_move op wide x) }
    ensures { (base : ℕ) → Steps (field_move op wide x) base at result s.old s.new }
{
    let insn = BitfieldMove {
        op,
        wide,
        immr: x.immr,
        imms: x.imms,
        rn: x.rn,
        rd: x.rd,
    };
    step_bitfield_move(s, &insn, at)
}

/// Takes one of two registers by a condition.
#[inline]
pub fn selected(s: &mut Scalars, at: u64, op: SelectOp, wide: bool, x: Selection) -> u64
    requires { IsInRow (selected op wide x) }
    ensures { (base : ℕ) → Steps (selected op wide x) base at result s.old s.new }
{
    let insn = ConditionalSelect {
        op,
        wide,
        condition: x.condition,
        rm: x.rm,
        rn: x.rn,
        rd: x.rd,
    };
    step_conditional_select(s, &insn, at)
}

/// Divides, or shifts by a register.
#[inline]
pub fn two_sources(s: &mut Scalars, at: u64, op: TwoSourceOp, wide: bool, x: Registers) -> u64
    requires { IsInRow (two_sources op wide x) }
    ensures { (base : ℕ) → Steps (two_sources op wide x) base at result s.old s.new }
{
    let insn = TwoSource {
        op,
        wide,
        rm: x.rm,
        rn: x.rn,
        rd: x.rd,
    };
    step_two_source(s, &insn, at)
}

/// Adds a product to a register, or subtracts it.
#[inline]
pub fn product(s: &mut Scalars, at: u64, subtract: bool, wide: bool, x: Factors) -> u64
    requires { IsInRow (product subtract wide x) }
    ensures { (base : ℕ) → Steps (product subtract wide x) base at result s.old s.new }
{
    let insn = Multiply::Same {
        subtract,
        wide,
        rm: x.rm,
        ra: x.ra,
        rn: x.rn,
        rd: x.rd,
    };
    step_multiply(s, &insn, at)
}

/// Adds a product of words of 32 bits to a register.
#[inline]
pub fn long_product(s: &mut Scalars, at: u64, signed: bool, x: Factors) -> u64
    requires { IsInRow (long_product signed x) }
    ensures { (base : ℕ) → Steps (long_product signed x) base at result s.old s.new }
{
    let insn = Multiply::Long {
        subtract: false,
        signed,
        rm: x.rm,
        ra: x.ra,
        rn: x.rn,
        rd: x.rd,
    };
    step_multiply(s, &insn, at)
}

/// The upper half of a product.
#[inline]
pub fn high_product(s: &mut Scalars, at: u64, signed: bool, x: Registers) -> u64
    requires { IsInRow (high_product signed x) }
    ensures { (base : ℕ) → Steps (high_product signed x) base at result s.old s.new }
{
    let insn = Multiply::High {
        signed,
        rm: x.rm,
        rn: x.rn,
        rd: x.rd,
    };
    step_multiply(s, &insn, at)
}

/// Branches always.
#[inline]
pub fn branch_always(s: &mut Scalars, base: u64, at: u64, link: bool, words: i32) -> u64
    requires { IsInRow (insn.Branch (Branch.Unconditional link words)) }
    ensures { Steps (insn.Branch (Branch.Unconditional link words)) base at result s.old s.new }
{
    step_branch(s, &Branch::Unconditional { link, words }, base, at)
}

/// Branches where a condition holds.
#[inline]
pub fn branch_if(s: &mut Scalars, base: u64, at: u64, condition: Condition, words: i32) -> u64
    requires { IsInRow (insn.Branch (Branch.Conditional condition words)) }
    ensures { Steps (insn.Branch (Branch.Conditional condition words)) base at result s.old s.new }
{
    step_branch(s, &Branch::Conditional { condition, words }, base, at)
}

/// Branches where a register is zero, or is not.
#[inline]
pub fn branch_by(
    s: &mut Scalars,
    base: u64,
    at: u64,
    nonzero: bool,
    wide: bool,
    rt: u8,
    words: i32,
) -> u64
    requires { IsInRow (insn.Branch (Branch.Compare nonzero wide words rt)) }
    ensures { Steps (insn.Branch (Branch.Compare nonzero wide words rt)) base at result s.old s.new }
{
    step_branch(
        s,
        &Branch::Compare {
            nonzero,
            wide,
            words,
            rt,
        },
        base,
        at,
    )
}

/// Branches where a bit is 0, or is 1.
#[inline]
pub fn branch_by_bit(
    s: &mut Scalars,
    base: u64,
    at: u64,
    nonzero: bool,
    bit: u8,
    rt: u8,
    words: i32,
) -> u64
    requires { IsInRow (insn.Branch (Branch.TestBit nonzero bit words rt)) }
    ensures { Steps (insn.Branch (Branch.TestBit nonzero bit words rt)) base at result s.old s.new }
{
    step_branch(
        s,
        &Branch::TestBit {
            nonzero,
            bit,
            words,
            rt,
        },
        base,
        at,
    )
}

/// Branches to the address in a register.
#[inline]
pub fn branch_to(s: &mut Scalars, base: u64, at: u64, op: BranchRegisterOp, rn: u8) -> u64
    requires { IsInRow (insn.BranchRegister (record { op = op; rn = rn })) }
    ensures { Steps (insn.BranchRegister (record { op = op; rn = rn })) base at result s.old s.new }
{
    step_branch_register(s, &BranchRegister { op, rn }, base, at)
}

/// Writes an address relative to PC.
#[inline]
pub fn write_address(s: &mut Scalars, base: u64, at: u64, op: PcRelativeOp, imm: i32, rd: u8) -> u64
    requires { IsInRow (insn.PcRelative (record { op = op; imm = imm; rd = rd })) }
    ensures { Steps (insn.PcRelative (record { op = op; imm = imm; rd = rd })) base at result s.old s.new }
{
    step_pc_relative(s, &PcRelative { op, imm, rd }, base, at)
}
