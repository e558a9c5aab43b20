//! The operations of the rows: for each group what tells its rows apart.
ghost use Rattle.std.specs.Prelude.{◌≡◌, ◌<◌};
ghost use Rattle.sve_table.specs.Numbers.{access_number, array_number, compare_number, copy_number};
ghost use Rattle.sve_table.specs.Numbers.{count_number, element_number, number_of, permute_number};
ghost use Rattle.sve_table.specs.Numbers.{predicate_number, reduction_number, streaming_number, sve2_number};

use sm_types::{
    AddImmediateOp, CompareImmediateOp, CompareVectorsOp, Elem, InterleaveOp, ModePart,
    MultiplyAddOp, OuterProductOp, PredicateLogicalOp, PredicatedBinaryOp, PredicatedUnaryOp,
    ReductionOp, TernaryLogicalOp, VectorArithmeticOp, VectorLogicalOp, VectorMultiplyOp,
    VectorShiftOp, WideningOp,
};

/// The sizes of elements that are shifted.
#[derive(Clone, Copy)]
pub enum ShiftSize {
    B,
    H,
    S,
    D,
}

/// The copies to vectors, and the operations with an immediate.
#[derive(Clone, Copy)]
pub enum CopyForm {
    Register,
    PredicatedRegister,
    Immediate,
    PredicatedImmediate,
    /// Whether the start is a register, and whether the step is.
    Index(bool, bool),
    AddImmediate(AddImmediateOp),
    MultiplyImmediate,
    Select,
    Prefix,
}

/// The permutations.
#[derive(Clone, Copy)]
pub enum PermuteForm {
    Interleave(InterleaveOp),
    Reverse,
    Table,
    Extract,
    /// Whether it is by the sign, and whether it is of the upper half.
    Unpack(bool, bool),
}

/// The reductions.
#[derive(Clone, Copy)]
pub enum ReductionForm {
    /// Whether it is of the last active element, and not of the one after it.
    Last(bool),
    Reduce(ReductionOp),
}

/// The comparisons.
#[derive(Clone, Copy)]
pub enum CompareForm {
    Vectors(CompareVectorsOp),
    Immediate(CompareImmediateOp),
}

/// The operations on predicates.
#[derive(Clone, Copy)]
pub enum PredicateForm {
    True,
    False,
    Test,
    Logical(PredicateLogicalOp),
}

/// The predicates of a loop, the number of active elements, and the first-fault register.
#[derive(Clone, Copy)]
pub enum CountForm {
    /// Whether it is by the sign.
    While(bool),
    Active,
    SetFfr,
    ReadFfr,
    WriteFfr,
}

/// The numbers of elements.
#[derive(Clone, Copy)]
pub enum ElementForm {
    Count,
    /// Whether it is a decrement.
    Change(bool),
    Length,
    /// Whether it is by lengths of a predicate.
    AddLength(bool),
}

/// The loads and stores; a store by a register has a form for each size of memory.
#[derive(Clone, Copy)]
pub enum AccessForm {
    LoadVectors,
    LoadRegister,
    StoreVectors,
    StoreBytes,
    StoreHalfwords,
    StoreWords,
    StoreDoublewords,
    /// Whether it is a store.
    Vector(bool),
    /// Whether it is a store.
    Predicate(bool),
}

/// The operations of SVE2 without a predicate.
#[derive(Clone, Copy)]
pub enum Sve2Form {
    Multiply(VectorMultiplyOp),
    Ternary(TernaryLogicalOp),
    /// The operation, and whether it uses the odd elements.
    Widening(WideningOp, bool),
}

/// The operations on whole vectors of ZA.
#[derive(Clone, Copy)]
pub enum ArrayForm {
    Zero,
    /// Whether it is a store.
    Transfer(bool),
}

/// The streaming vector length.
#[derive(Clone, Copy)]
pub enum StreamingForm {
    Length,
    /// Whether it is by lengths of a predicate.
    AddLength(bool),
}

/// A group with what tells its rows apart.
#[derive(Clone, Copy)]
pub enum VectorOperation {
    G24(VectorArithmeticOp),
    G25(VectorLogicalOp),
    G26(PredicatedBinaryOp),
    G27(MultiplyAddOp),
    G28(PredicatedUnaryOp),
    /// The operation, and the size of the elements.
    G29(VectorShiftOp, ShiftSize),
    G30(CopyForm),
    G31(PermuteForm),
    G32(ReductionForm),
    G33(CompareForm),
    G34(PredicateForm),
    G35(CountForm),
    G36(ElementForm),
    G37(AccessForm),
    G38(Sve2Form),
    /// Whether it starts, and what.
    G39(bool, ModePart),
    G40(ArrayForm),
    /// Whether it is a store, and the size of the elements.
    G41(bool, Elem),
    /// Whether it is to a tile, and the size of the elements.
    G42(bool, Elem),
    /// Whether each element gets that of the vector at its row, and whether the elements are of 64 bits.
    G43(bool, bool),
    /// The operation, and whether the sums are of 64 bits.
    G44(OuterProductOp, bool),
    G45(StreamingForm),
}

/// The number of an operation, by which it is found: no two operations have one number.
#[tactic(auto, unfolding(crate::specs::Numbers::number_of))]
pub fn number_of(operation: VectorOperation) -> u32
    ensures { result ≡ number_of operation }
{
    use VectorOperation as Op;
    match operation {
        Op::G24(op) => 2400 + u32::from(op as u8),
        Op::G25(op) => 2500 + u32::from(op as u8),
        Op::G26(op) => 2600 + u32::from(op as u8),
        Op::G27(op) => 2700 + u32::from(op as u8),
        Op::G28(op) => 2800 + u32::from(op as u8),
        Op::G29(op, size) => 2900 + 10 * u32::from(op as u8) + u32::from(size as u8),
        Op::G30(form) => 3000 + copy_number(form),
        Op::G31(form) => 3100 + permute_number(form),
        Op::G32(form) => 3200 + reduction_number(form),
        Op::G33(form) => 3300 + compare_number(form),
        Op::G34(form) => 3400 + predicate_number(form),
        Op::G35(form) => 3500 + count_number(form),
        Op::G36(form) => 3600 + element_number(form),
        Op::G37(form) => 3700 + access_number(form),
        Op::G38(form) => 3800 + sve2_number(form),
        Op::G39(start, part) => 3900 + 50 * u32::from(start) + u32::from(part as u8),
        Op::G40(form) => 4000 + array_number(form),
        Op::G41(store, size) => 4100 + 50 * u32::from(store) + u32::from(size as u8),
        Op::G42(to_tile, size) => 4200 + 50 * u32::from(to_tile) + u32::from(size as u8),
        Op::G43(vertical, wide) => 4300 + 50 * u32::from(vertical) + u32::from(wide),
        Op::G44(op, wide) => 4400 + 50 * u32::from(wide) + u32::from(op as u8),
        Op::G45(form) => 4500 + streaming_number(form),
    }
}

/// The same of a copy, or an operation with an immediate, within its group.
#[tactic(auto, unfolding(crate::specs::Numbers::copy_number))]
fn copy_number(form: CopyForm) -> u32
    ensures value { result ≡ copy_number form }
    ensures small { result < 100 }
{
    match form {
        CopyForm::Register => 0,
        CopyForm::PredicatedRegister => 1,
        CopyForm::Immediate => 2,
        CopyForm::PredicatedImmediate => 3,
        CopyForm::Index(start, step) => 10 + 2 * u32::from(start) + u32::from(step),
        CopyForm::AddImmediate(op) => 20 + u32::from(op as u8),
        CopyForm::MultiplyImmediate => 4,
        CopyForm::Select => 5,
        CopyForm::Prefix => 6,
    }
}

/// The same of a permutation, within its group.
#[tactic(auto, unfolding(crate::specs::Numbers::permute_number))]
fn permute_number(form: PermuteForm) -> u32
    ensures value { result ≡ permute_number form }
    ensures small { result < 100 }
{
    match form {
        PermuteForm::Interleave(op) => 10 + u32::from(op as u8),
        PermuteForm::Reverse => 0,
        PermuteForm::Table => 1,
        PermuteForm::Extract => 2,
        PermuteForm::Unpack(signed, high) => 20 + 2 * u32::from(signed) + u32::from(high),
    }
}

/// The same of a reduction, within its group.
#[tactic(auto, unfolding(crate::specs::Numbers::reduction_number))]
fn reduction_number(form: ReductionForm) -> u32
    ensures value { result ≡ reduction_number form }
    ensures small { result < 100 }
{
    match form {
        ReductionForm::Last(active) => u32::from(active),
        ReductionForm::Reduce(op) => 10 + u32::from(op as u8),
    }
}

/// The same of a comparison, within its group.
#[tactic(auto, unfolding(crate::specs::Numbers::compare_number))]
fn compare_number(form: CompareForm) -> u32
    ensures value { result ≡ compare_number form }
    ensures small { result < 100 }
{
    match form {
        CompareForm::Vectors(op) => u32::from(op as u8),
        CompareForm::Immediate(op) => 10 + u32::from(op as u8),
    }
}

/// The same of an operation on predicates, within its group.
#[tactic(auto, unfolding(crate::specs::Numbers::predicate_number))]
fn predicate_number(form: PredicateForm) -> u32
    ensures value { result ≡ predicate_number form }
    ensures small { result < 100 }
{
    match form {
        PredicateForm::True => 0,
        PredicateForm::False => 1,
        PredicateForm::Test => 2,
        PredicateForm::Logical(op) => 10 + u32::from(op as u8),
    }
}

/// The same of a predicate of a loop or a number of active elements, within its group.
#[tactic(auto, unfolding(crate::specs::Numbers::count_number))]
fn count_number(form: CountForm) -> u32
    ensures value { result ≡ count_number form }
    ensures small { result < 100 }
{
    match form {
        CountForm::While(signed) => 10 + u32::from(signed),
        CountForm::Active => 0,
        CountForm::SetFfr => 1,
        CountForm::ReadFfr => 2,
        CountForm::WriteFfr => 3,
    }
}

/// The same of a number of elements, within its group.
#[tactic(auto, unfolding(crate::specs::Numbers::element_number))]
fn element_number(form: ElementForm) -> u32
    ensures value { result ≡ element_number form }
    ensures small { result < 100 }
{
    match form {
        ElementForm::Count => 0,
        ElementForm::Change(decrement) => 10 + u32::from(decrement),
        ElementForm::Length => 1,
        ElementForm::AddLength(predicate) => 20 + u32::from(predicate),
    }
}

/// The same of a load or store, within its group.
#[tactic(auto, unfolding(crate::specs::Numbers::access_number))]
fn access_number(form: AccessForm) -> u32
    ensures value { result ≡ access_number form }
    ensures small { result < 100 }
{
    match form {
        AccessForm::LoadVectors => 0,
        AccessForm::LoadRegister => 1,
        AccessForm::StoreVectors => 2,
        AccessForm::StoreBytes => 3,
        AccessForm::StoreHalfwords => 4,
        AccessForm::StoreWords => 5,
        AccessForm::StoreDoublewords => 6,
        AccessForm::Vector(store) => 10 + u32::from(store),
        AccessForm::Predicate(store) => 20 + u32::from(store),
    }
}

/// The same of an operation of SVE2, within its group.
#[tactic(auto, unfolding(crate::specs::Numbers::sve2_number))]
fn sve2_number(form: Sve2Form) -> u32
    ensures value { result ≡ sve2_number form }
    ensures small { result < 100 }
{
    match form {
        Sve2Form::Multiply(op) => u32::from(op as u8),
        Sve2Form::Ternary(op) => 10 + u32::from(op as u8),
        Sve2Form::Widening(op, top) => 20 + u32::from(op as u8) + 50 * u32::from(top),
    }
}

/// The same of an operation on whole vectors of ZA, within its group.
#[tactic(auto, unfolding(crate::specs::Numbers::array_number))]
fn array_number(form: ArrayForm) -> u32
    ensures value { result ≡ array_number form }
    ensures small { result < 100 }
{
    match form {
        ArrayForm::Zero => 0,
        ArrayForm::Transfer(store) => 10 + u32::from(store),
    }
}

/// The same of the streaming vector length, within its group.
#[tactic(auto, unfolding(crate::specs::Numbers::streaming_number))]
fn streaming_number(form: StreamingForm) -> u32
    ensures value { result ≡ streaming_number form }
    ensures small { result < 100 }
{
    match form {
        StreamingForm::Length => 0,
        StreamingForm::AddLength(predicate) => 10 + u32::from(predicate),
    }
}
