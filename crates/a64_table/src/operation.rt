//! The operations of the rows: for each group what tells its rows apart.
ghost use Rattle.std.specs.Prelude.{◌≡◌, ◌<◌};
ghost use Rattle.a64_table.specs.Numbers.{form_number, number_of};

use sm_types::{
    AddSub, AtomicOp, BitfieldOp, BranchRegisterOp, CompareOp, LoadLiteralOp, Logical, MoveOp,
    OneSourceOp, PairIndex, PairOp, PcRelativeOp, SelectOp, SystemMoveOp, SystemRegister,
    TwoSourceOp,
};

/// The branches to a distance.
#[derive(Clone, Copy)]
pub enum BranchOp {
    B,
    Bl,
    BCond,
    Cbz,
    Cbnz,
    Tbz,
    Tbnz,
}

/// The multiplications.
#[derive(Clone, Copy)]
pub enum MultiplyOp {
    Madd,
    Msub,
    Smaddl,
    Smsubl,
    Umaddl,
    Umsubl,
    Smulh,
    Umulh,
}

/// The forms of an address beside its base register.
#[derive(Clone, Copy)]
pub enum AddressForm {
    Offset,
    Unscaled,
    PostIndex,
    PreIndex,
    Register,
}

/// The ordered and atomic accesses; `Update` is a load with an operation on what is in memory.
#[derive(Clone, Copy)]
pub enum AtomicForm {
    Ldar,
    Stlr,
    Cas,
    Swap,
    Update(AtomicOp),
}

/// The exceptions, hints and barriers.
#[derive(Clone, Copy)]
pub enum SystemOp {
    Svc,
    Brk,
    Udf,
    Hint,
    Dmb,
    Dsb,
    Isb,
}

/// A group with what tells its rows apart.
#[derive(Clone, Copy)]
pub enum Operation {
    G1(AddSub),
    G2(AddSub),
    /// The operation, and whether the second operand is inverted.
    G3(Logical, bool),
    G4(AddSub),
    G5(Logical),
    G6(MoveOp),
    /// The operation, and whether it is of 64 bits.
    G7(BitfieldOp, bool),
    /// Whether it is of 64 bits.
    G8(bool),
    G9(PcRelativeOp),
    G10(BranchOp),
    G11(BranchRegisterOp),
    G12(AddSub),
    G13(SelectOp),
    /// The operation, and whether the second operand is an immediate.
    G14(CompareOp, bool),
    G15(OneSourceOp),
    G16(TwoSourceOp),
    G17(MultiplyOp),
    G18(AddressForm),
    G19(LoadLiteralOp),
    /// The operation, whether it is of 64 bits, and where the offset goes.
    G20(PairOp, bool, PairIndex),
    G21(AtomicForm),
    G22(SystemOp),
    G23(SystemMoveOp, SystemRegister),
}

/// The number of an operation, by which it is found: no two operations have one number.
#[tactic(auto, unfolding(crate::specs::Numbers::number_of))]
pub fn number_of(operation: Operation) -> u32
    ensures { result ≡ number_of operation }
{
    match operation {
        Operation::G1(op) => 100 + u32::from(op as u8),
        Operation::G2(op) => 200 + u32::from(op as u8),
        Operation::G3(op, inverted) => 300 + 50 * u32::from(inverted) + u32::from(op as u8),
        Operation::G4(op) => 400 + u32::from(op as u8),
        Operation::G5(op) => 500 + u32::from(op as u8),
        Operation::G6(op) => 600 + u32::from(op as u8),
        Operation::G7(op, wide) => 700 + 50 * u32::from(wide) + u32::from(op as u8),
        Operation::G8(wide) => 800 + 50 * u32::from(wide),
        Operation::G9(op) => 900 + u32::from(op as u8),
        Operation::G10(op) => 1000 + u32::from(op as u8),
        Operation::G11(op) => 1100 + u32::from(op as u8),
        Operation::G12(op) => 1200 + u32::from(op as u8),
        Operation::G13(op) => 1300 + u32::from(op as u8),
        Operation::G14(op, immediate) => 1400 + 50 * u32::from(immediate) + u32::from(op as u8),
        Operation::G15(op) => 1500 + u32::from(op as u8),
        Operation::G16(op) => 1600 + u32::from(op as u8),
        Operation::G17(op) => 1700 + u32::from(op as u8),
        Operation::G18(form) => 1800 + u32::from(form as u8),
        Operation::G19(op) => 1900 + u32::from(op as u8),
        Operation::G20(op, wide, index) => {
            2000 + 50 * u32::from(wide) + 10 * u32::from(op as u8) + u32::from(index as u8)
        }
        Operation::G21(form) => 2100 + form_number(form),
        Operation::G22(op) => 2200 + u32::from(op as u8),
        Operation::G23(op, register) => {
            2300 + 10 * u32::from(op as u8) + u32::from(register as u8)
        }
    }
}

/// The same of an ordered or atomic access, within its group.
#[tactic(auto, unfolding(crate::specs::Numbers::form_number))]
fn form_number(form: AtomicForm) -> u32
    ensures value { result ≡ form_number form }
    ensures small { result < 50 }
{
    match form {
        AtomicForm::Ldar => 0,
        AtomicForm::Stlr => 1,
        AtomicForm::Cas => 2,
        AtomicForm::Swap => 3,
        AtomicForm::Update(op) => 10 + u32::from(op as u8),
    }
}
