//! The instruction of an operation with a word's fields.
#![tactic(auto, unfolding(
// The table and its conditions.
crate::specs::Table::vector, crate::specs::Conditions::fits_of,
// The fields of a word.
insn_forms::specs::Fields::is_field, insn_forms::specs::Fields::mask_of,
// The fields that go by the size of elements.
crate::specs::Values::shift_elem, crate::specs::Values::shift_width, crate::specs::Values::amount_field,
// Those of tiles and slices.
crate::specs::Values::tile_field, crate::specs::Values::offset_field, crate::specs::Values::sum_field,
// Those of slices that are moved to vectors.
crate::specs::Values::source_tile_field, crate::specs::Values::source_offset_field,
// The instruction of each group, and of copies and permutations.
crate::specs::Named::named, crate::specs::Named::named_copy, crate::specs::Named::named_permute,
// Of reductions and comparisons.
crate::specs::Named::named_reduction, crate::specs::Named::named_compare,
// Of predicates and counts.
crate::specs::Named::named_predicate, crate::specs::Named::named_count, crate::specs::Named::named_element,
// Of accesses, of SVE2 and of ZA.
crate::specs::Named::named_access, crate::specs::Named::named_sve2, crate::specs::Named::named_array,
// Of slices and their moves.
crate::specs::Named::named_slice, crate::specs::Named::moved_slice, crate::specs::Named::moved_vector,
// Of the streaming length.
crate::specs::Named::named_streaming))]

ghost use Rattle.std.specs.Prelude.{◌≡◌, true, Option, Some, None, if◌then◌else◌};
ghost use Rattle.sm_types.specs.declared.vector.IndexPart.TheVariants as part;
ghost use Rattle.sm_types.specs.declared.vector.VectorOffset.TheVariants as vector_offset;
ghost use Rattle.insn_forms.specs.Fields.{is_field};
ghost use Rattle.insn_forms.specs.Tables.{given, numbers_in, signed_numbers_in};
ghost use Rattle.insn_forms.specs.Values.{byte as field_byte};
ghost use Rattle.sve_table.specs.declared.operation.CopyForm.TheVariants.{Index};
ghost use Rattle.sve_table.specs.Named.{named_access, named_array, named_compare, named_copy, named_count};
ghost use Rattle.sve_table.specs.Named.{named_element, named_permute, named_predicate, named_reduction};
ghost use Rattle.sve_table.specs.Named.{named_streaming, named_sve2, moved_slice, moved_vector, named_slice};
ghost use Rattle.sve_table.specs.Values.{amount_field, offset_field, shift_amount, shift_elem, shift_width};
ghost use Rattle.sve_table.specs.Values.{source_offset_field, source_tile_field, sum_field, tile_field};
ghost use Rattle.sve_table.specs.Table.{vector};

use crate::conditions::condition;
use crate::fields;
use crate::operation::{
    AccessForm, ArrayForm, CompareForm, CopyForm, CountForm, ElementForm, PermuteForm,
    PredicateForm, ReductionForm, ShiftSize, StreamingForm, Sve2Form, VectorOperation,
};
use crate::values::{elem_of, load_type_of, multiplier, shift_amount, slice_register};
use insn_forms::{Field, byte, field_in, one, signed_number};
use sm_types::{
    ArrayAccess, Elem, ElementCount, IndexPart, Insn, Mode, MultiplyAdd, OuterProduct, Predicate,
    PredicateCount, PredicateLogicalOp, PredicatedBinary, PredicatedUnary, StreamingLength, Sve2,
    TileAccess, TileAdd, TileMove, TileSlice, VectorAccess, VectorArithmetic, VectorCompare,
    VectorCopy, VectorLogical, VectorOffset, VectorPermute, VectorReduction, VectorShift,
    VectorShiftOp,
};

// What is given, and then what is read of the word: how it is kept, and its field or by what it is found.
macro_rules! read {
    ($word:ident $($kind:ident)::+ {
        $($given:ident $(: $value:expr)?),*;
        $($name:ident: $way:ident $($field:ident)? $(($($by:ident),*))?),*
    }) => {
        $($kind)::+ {
            $($given $(: $value)?,)*
            $($name: $way($(fields::$field,)? $($($by,)*)? $word)),*
        }
    };
}

// The instruction of a group: a struct of given and of read fields, or what a function makes.
macro_rules! insn {
    ($word:ident $kind:ident { $($fields:tt)* }) => { Insn::$kind(read!($word $kind { $($fields)* })) };
    ($word:ident $kind:ident ($made:ident $op:ident)) => { Insn::$kind($made($op, $word)) };
}

// One line for each group: its operation, and its instruction where the word meets the operation's condition.
macro_rules! by_group {
    ($operation:ident $word:ident { $($group:ident($($op:ident),*) $kind:ident $fields:tt;)* }) => {
        match $operation {
            $(VectorOperation::$group($($op),*) => when(
                condition(VectorOperation::$group($($op),*), $word), insn!($word $kind $fields)
            ),)*
        }
    };
}

/// The instruction that the operation gives the word; `None` where the word does not meet its condition.
#[inline(always)]
pub fn insn_given(operation: VectorOperation, word: u32) -> Option<Insn>
    ensures { result ≡ given vector operation word }
{
    by_group!(operation word {
        G24(op) VectorArithmetic { op; size: elem_of SIZE, zm: byte ZM, zn: byte ZN, zd: byte ZD };
        G25(op) VectorLogical { op; zm: byte ZM, zn: byte ZN, zd: byte ZD };
        G26(op) PredicatedBinary { op; size: elem_of SIZE, pg: byte PG, zm: byte ZM_LOW, zdn: byte ZDN };
        G27(op) MultiplyAdd { op; size: elem_of SIZE, pg: byte PG, zm: byte ZM, zn: byte ZN, zda: byte ZDA };
        G28(op) PredicatedUnary { op; size: elem_of SIZE, pg: byte PG, zn: byte ZN, zd: byte ZD };
        G29(op, size) VectorShift {
            op; size: shift_elem(size), amount: amount(op, size), zn: byte ZN, zd: byte ZD };
        G30(form) VectorCopy (copy form);
        G31(form) VectorPermute (permute form);
        G32(form) VectorReduction (reduction form);
        G33(form) VectorCompare (compare form);
        G34(form) Predicate (predicate form);
        G35(form) PredicateCount (count form);
        G36(form) ElementCount (element form);
        G37(form) VectorAccess (access form);
        G38(form) Sve2 (sve2 form);
        G39(start, part) Mode { start, part; };
        G40(form) ArrayAccess (array form);
        G41(store, size) TileAccess {
            store; slice: slice(size), pg: byte PG, rm: byte RM, rn: byte RN };
        G42(to_tile, size) TileMove {
            to_tile; slice: moved_slice(to_tile, size), pg: byte PG, z: moved_vector(to_tile) };
        G43(vertical, wide) TileAdd {
            vertical, wide; tile: sum_tile(wide), pn: byte ROW_PN, pm: byte COLUMN_PM, zn: byte ZN };
        G44(op, wide) OuterProduct {
            op, wide; subtract: one SUBTRACT, tile: sum_tile(wide), pn: byte ROW_PN, pm: byte COLUMN_PM,
            zn: byte ZN, zm: byte ZM };
        G45(form) StreamingLength (streaming form);
    })
}

/// The instruction where the condition holds.
#[inline(always)]
fn when(holds: bool, insn: Insn) -> Option<Insn>
    ensures { result ≡ (if holds then Some insn else None) }
{
    if holds { Some(insn) } else { None }
}

/// The copy of the form, or the operation with an immediate.
#[inline(always)]
fn copy(form: CopyForm, word: u32) -> VectorCopy
    ensures { result ≡ named_copy form (numbers_in word) (signed_numbers_in word) }
{
    match form {
        CopyForm::Register =>
            read!(word VectorCopy::Register {; size: elem_of SIZE, rn: byte RN, zd: byte ZD }),
        CopyForm::PredicatedRegister => read!(word VectorCopy::PredicatedRegister {
            ; size: elem_of SIZE, pg: byte PG, rn: byte RN, zd: byte ZD
        }),
        CopyForm::Immediate => read!(word VectorCopy::Immediate {
            ; size: elem_of SIZE, shifted: one SH, imm: signed_number IMM8, zd: byte ZD
        }),
        CopyForm::PredicatedImmediate => read!(word VectorCopy::PredicatedImmediate {
            ; size: elem_of SIZE, pg: byte CPY_PG, merging: one MERGING, shifted: one SH,
            imm: signed_number IMM8, zd: byte ZD
        }),
        CopyForm::Index(start, step) => index(start, step, word),
        CopyForm::AddImmediate(op) => read!(word VectorCopy::AddImmediate {
            op; size: elem_of SIZE, shifted: one SH, imm: byte IMM8, zdn: byte ZDN
        }),
        CopyForm::MultiplyImmediate => read!(word VectorCopy::MultiplyImmediate {
            ; size: elem_of SIZE, imm: signed_number IMM8, zdn: byte ZDN
        }),
        CopyForm::Select => read!(word VectorCopy::Select {
            ; size: elem_of SIZE, zm: byte ZM, pg: byte PG4, zn: byte ZN, zd: byte ZD
        }),
        CopyForm::Prefix => read!(word VectorCopy::Prefix {; zn: byte ZN, zd: byte ZD }),
    }
}

/// An index, by whether its start and its step are registers.
#[inline(always)]
fn index(start: bool, step: bool, word: u32) -> VectorCopy
    ensures { result ≡ named_copy (Index start step) (numbers_in word) (signed_numbers_in word) }
{
    match (start, step) {
        (false, false) => read!(word VectorCopy::Index {
            ; size: elem_of SIZE, start: index_immediate IMM5, step: index_immediate IMM5B, zd: byte ZD
        }),
        (true, false) => read!(word VectorCopy::Index {
            ; size: elem_of SIZE, start: index_register RN, step: index_immediate IMM5B, zd: byte ZD
        }),
        (false, true) => read!(word VectorCopy::Index {
            ; size: elem_of SIZE, start: index_immediate IMM5, step: index_register RM, zd: byte ZD
        }),
        (true, true) => read!(word VectorCopy::Index {
            ; size: elem_of SIZE, start: index_register RN, step: index_register RM, zd: byte ZD
        }),
    }
}

/// The permutation of the form.
#[inline(always)]
fn permute(form: PermuteForm, word: u32) -> VectorPermute
    ensures { result ≡ named_permute form (numbers_in word) (signed_numbers_in word) }
{
    match form {
        PermuteForm::Interleave(op) => read!(word VectorPermute::Interleave {
            op; size: elem_of SIZE, zm: byte ZM, zn: byte ZN, zd: byte ZD
        }),
        PermuteForm::Reverse =>
            read!(word VectorPermute::Reverse {; size: elem_of SIZE, zn: byte ZN, zd: byte ZD }),
        PermuteForm::Table =>
            read!(word VectorPermute::Table {; size: elem_of SIZE, zm: byte ZM, zn: byte ZN, zd: byte ZD }),
        PermuteForm::Extract =>
            read!(word VectorPermute::Extract {; amount: byte EXT_IMM8, zm: byte ZM_LOW, zdn: byte ZDN }),
        PermuteForm::Unpack(signed, high) =>
            read!(word VectorPermute::Unpack { signed, high; size: elem_of SIZE, zn: byte ZN, zd: byte ZD }),
    }
}

/// The reduction of the form.
#[inline(always)]
fn reduction(form: ReductionForm, word: u32) -> VectorReduction
    ensures { result ≡ named_reduction form (numbers_in word) (signed_numbers_in word) }
{
    match form {
        ReductionForm::Last(active) => read!(word VectorReduction::Last {
            active; size: elem_of SIZE, pg: byte PG, zn: byte ZN, rd: byte RD
        }),
        ReductionForm::Reduce(op) => read!(word VectorReduction::Reduce {
            op; size: elem_of SIZE, pg: byte PG, zn: byte ZN, vd: byte VD
        }),
    }
}

/// The comparison of the form.
#[inline(always)]
fn compare(form: CompareForm, word: u32) -> VectorCompare
    ensures { result ≡ named_compare form (numbers_in word) (signed_numbers_in word) }
{
    match form {
        CompareForm::Vectors(op) => read!(word VectorCompare::Vectors {
            op; size: elem_of SIZE, zm: byte ZM, pg: byte PG, zn: byte ZN, pd: byte PD
        }),
        CompareForm::Immediate(op) => read!(word VectorCompare::Immediate {
            op; size: elem_of SIZE, imm: signed_number IMM5B, pg: byte PG, zn: byte ZN, pd: byte PD
        }),
    }
}

/// The operation on predicates of the form.
#[inline(always)]
fn predicate(form: PredicateForm, word: u32) -> Predicate
    ensures { result ≡ named_predicate form (numbers_in word) (signed_numbers_in word) }
{
    match form {
        PredicateForm::True =>
            read!(word Predicate::True {; size: elem_of SIZE, pattern: byte PATTERN, pd: byte PD }),
        PredicateForm::False => read!(word Predicate::False {; pd: byte PD }),
        PredicateForm::Test => read!(word Predicate::Test {; pg: byte PG4, pn: byte PN }),
        PredicateForm::Logical(PredicateLogicalOp::Sel) => read!(word Predicate::Logical {
            op: PredicateLogicalOp::Sel, flags: false; pm: byte PM, pg: byte PG4, pn: byte PN, pd: byte PD
        }),
        PredicateForm::Logical(op) => read!(word Predicate::Logical {
            op; flags: one FLAGS, pm: byte PM, pg: byte PG4, pn: byte PN, pd: byte PD
        }),
    }
}

/// The predicate of a loop, the number of active elements, or the move of the first-fault register.
#[inline(always)]
fn count(form: CountForm, word: u32) -> PredicateCount
    ensures { result ≡ named_count form (numbers_in word) (signed_numbers_in word) }
{
    match form {
        CountForm::While(signed) => read!(word PredicateCount::While {
            signed; wide: one SF, size: elem_of SIZE, rm: byte RM, rn: byte RN, pd: byte PD
        }),
        CountForm::Active => read!(word PredicateCount::Active {
            ; size: elem_of SIZE, pg: byte PG4, pn: byte PN, rd: byte RD
        }),
        CountForm::SetFfr => PredicateCount::SetFfr,
        CountForm::ReadFfr => read!(word PredicateCount::ReadFfr {; pd: byte PD }),
        CountForm::WriteFfr => read!(word PredicateCount::WriteFfr {; pn: byte PN }),
    }
}

/// The number of elements of the form.
#[inline(always)]
fn element(form: ElementForm, word: u32) -> ElementCount
    ensures { result ≡ named_element form (numbers_in word) (signed_numbers_in word) }
{
    match form {
        ElementForm::Count => read!(word ElementCount::Count {
            ; size: elem_of SIZE, pattern: byte PATTERN, multiplier: multiplier, rd: byte RD
        }),
        ElementForm::Change(decrement) => read!(word ElementCount::Change {
            decrement; size: elem_of SIZE, pattern: byte PATTERN, multiplier: multiplier, rd: byte RD
        }),
        ElementForm::Length =>
            read!(word ElementCount::Length {; imm: signed_number IMM6, rd: byte RD }),
        ElementForm::AddLength(predicate) => read!(word ElementCount::AddLength {
            predicate; imm: signed_number IMM6, rn: byte RN_HIGH, rd: byte RD
        }),
    }
}

/// The load or store of the form.
#[inline(always)]
fn access(form: AccessForm, word: u32) -> VectorAccess
    ensures { result ≡ named_access form (numbers_in word) (signed_numbers_in word) }
{
    match form {
        AccessForm::LoadVectors => read!(word VectorAccess::Load {
            ; kind: load_type_of DTYPE, offset: offset_vectors IMM4, pg: byte PG, rn: byte RN, zt: byte ZT
        }),
        AccessForm::LoadRegister => read!(word VectorAccess::Load {
            ; kind: load_type_of DTYPE, offset: offset_register RM, pg: byte PG, rn: byte RN, zt: byte ZT
        }),
        AccessForm::StoreVectors => read!(word VectorAccess::Store {
            ; memory: elem_of MEMORY_SIZE, element: elem_of ELEMENT_SIZE, offset: offset_vectors IMM4,
            pg: byte PG, rn: byte RN, zt: byte ZT
        }),
        AccessForm::StoreBytes => read!(word VectorAccess::Store {
            memory: Elem::B; element: elem_of ELEMENT_SIZE, offset: offset_register RM, pg: byte PG,
            rn: byte RN, zt: byte ZT
        }),
        AccessForm::StoreHalfwords => read!(word VectorAccess::Store {
            memory: Elem::H; element: elem_of ELEMENT_SIZE, offset: offset_register RM, pg: byte PG,
            rn: byte RN, zt: byte ZT
        }),
        AccessForm::StoreWords => read!(word VectorAccess::Store {
            memory: Elem::S; element: elem_of ELEMENT_SIZE, offset: offset_register RM, pg: byte PG,
            rn: byte RN, zt: byte ZT
        }),
        AccessForm::StoreDoublewords => read!(word VectorAccess::Store {
            memory: Elem::D, element: Elem::D; offset: offset_register RM, pg: byte PG, rn: byte RN,
            zt: byte ZT
        }),
        AccessForm::Vector(store) => read!(word VectorAccess::Vector {
            store; vectors: signed_number IMM9, rn: byte RN, zt: byte ZT
        }),
        AccessForm::Predicate(store) => read!(word VectorAccess::Predicate {
            store; vectors: signed_number IMM9, rn: byte RN, pt: byte PT
        }),
    }
}

/// The operation of SVE2 of the form.
#[inline(always)]
fn sve2(form: Sve2Form, word: u32) -> Sve2
    ensures { result ≡ named_sve2 form (numbers_in word) (signed_numbers_in word) }
{
    match form {
        Sve2Form::Multiply(op) =>
            read!(word Sve2::Multiply { op; size: elem_of SIZE, zm: byte ZM, zn: byte ZN, zd: byte ZD }),
        Sve2Form::Ternary(op) =>
            read!(word Sve2::Ternary { op; zm: byte ZM, zk: byte ZK, zdn: byte ZDN }),
        Sve2Form::Widening(op, top) => read!(word Sve2::Widening {
            op, top; size: elem_of SIZE, zm: byte ZM, zn: byte ZN, zd: byte ZD
        }),
    }
}

/// The operation on whole vectors of ZA of the form.
#[inline(always)]
fn array(form: ArrayForm, word: u32) -> ArrayAccess
    ensures { result ≡ named_array form (numbers_in word) (signed_numbers_in word) }
{
    match form {
        ArrayForm::Zero => read!(word ArrayAccess::Zero {; mask: byte ZERO_MASK }),
        ArrayForm::Transfer(store) => read!(word ArrayAccess::Transfer {
            store; rv: slice_register, offset: byte ARRAY_OFFSET, rn: byte RN
        }),
    }
}

/// The operation of the form by the streaming vector length.
#[inline(always)]
fn streaming(form: StreamingForm, word: u32) -> StreamingLength
    ensures { result ≡ named_streaming form (numbers_in word) (signed_numbers_in word) }
{
    match form {
        StreamingForm::Length =>
            read!(word StreamingLength::Length {; imm: signed_number IMM6, rd: byte RD }),
        StreamingForm::AddLength(predicate) => read!(word StreamingLength::AddLength {
            predicate; imm: signed_number IMM6, rn: byte RN_HIGH, rd: byte RD
        }),
    }
}

/// An immediate as the start or step of an index.
#[inline(always)]
fn index_immediate(it: Field, word: u32) -> IndexPart
    requires { is_field it ≡ true }
    ensures { result ≡ part.Immediate (signed_numbers_in word it) }
{
    IndexPart::Immediate(signed_number(it, word))
}

/// A register as the start or step of an index.
#[inline(always)]
fn index_register(it: Field, word: u32) -> IndexPart
    requires { is_field it ≡ true }
    ensures { result ≡ part.Register (field_byte (numbers_in word it)) }
{
    IndexPart::Register(byte(it, word))
}

/// An offset by vectors.
#[inline(always)]
fn offset_vectors(it: Field, word: u32) -> VectorOffset
    requires { is_field it ≡ true }
    ensures { result ≡ vector_offset.Vectors (signed_numbers_in word it) }
{
    VectorOffset::Vectors(signed_number(it, word))
}

/// An offset by a register.
#[inline(always)]
fn offset_register(it: Field, word: u32) -> VectorOffset
    requires { is_field it ≡ true }
    ensures { result ≡ vector_offset.Register (field_byte (numbers_in word it)) }
{
    VectorOffset::Register(byte(it, word))
}

/// The elements of a shift.
#[inline(always)]
fn shift_elem(size: ShiftSize, _word: u32) -> Elem
    ensures { result ≡ shift_elem size }
{
    match size {
        ShiftSize::B => Elem::B,
        ShiftSize::H => Elem::H,
        ShiftSize::S => Elem::S,
        ShiftSize::D => Elem::D,
    }
}

/// The amount of a shift.
#[inline(always)]
fn amount(op: VectorShiftOp, size: ShiftSize, word: u32) -> u8
    ensures { result ≡ shift_amount op (shift_width size) (numbers_in word (amount_field size)) }
{
    match size {
        ShiftSize::B => shift_amount(op, 8, field_in(&fields::AMOUNT_B, word)),
        ShiftSize::H => shift_amount(op, 16, field_in(&fields::AMOUNT_H, word)),
        ShiftSize::S => shift_amount(op, 32, field_in(&fields::AMOUNT_S, word)),
        ShiftSize::D => shift_amount(op, 64, field_in(&fields::AMOUNT_D, word)),
    }
}

/// A slice by its elements, its tile and its place above a register's.
#[inline(always)]
fn slice_at(size: Elem, tile: Field, offset: Field, word: u32) -> TileSlice
    requires tile { is_field tile ≡ true }
    requires offset { is_field offset ≡ true }
    ensures { result ≡ named_slice size tile offset (numbers_in word) }
{
    TileSlice {
        size,
        vertical: one(fields::VERTICAL, word),
        rv: slice_register(word),
        tile: byte(tile, word),
        offset: byte(offset, word),
    }
}

/// A slice that is loaded, stored or moved from a vector.
#[inline(always)]
fn slice(size: Elem, word: u32) -> TileSlice
    ensures { result ≡ named_slice size (tile_field size) (offset_field size) (numbers_in word) }
{
    match size {
        Elem::B => slice_at(size, fields::TILE_B, fields::OFFSET_B, word),
        Elem::H => slice_at(size, fields::TILE_H, fields::OFFSET_H, word),
        Elem::S => slice_at(size, fields::TILE_S, fields::OFFSET_S, word),
        Elem::D => slice_at(size, fields::TILE_D, fields::OFFSET_D, word),
        Elem::Q => slice_at(size, fields::TILE_Q, fields::OFFSET_Q, word),
    }
}

/// A slice that is moved from a vector, or to one.
#[inline(always)]
fn moved_slice(to_tile: bool, size: Elem, word: u32) -> TileSlice
    ensures { result ≡ moved_slice to_tile size (numbers_in word) }
{
    if to_tile {
        slice(size, word)
    } else {
        source_slice(size, word)
    }
}

/// A slice that is moved to a vector.
#[inline(always)]
fn source_slice(size: Elem, word: u32) -> TileSlice
    ensures { let n = numbers_in word in
        result ≡ named_slice size (source_tile_field size) (source_offset_field size) n }
{
    match size {
        Elem::B => slice_at(size, fields::SOURCE_TILE_B, fields::SOURCE_OFFSET_B, word),
        Elem::H => slice_at(size, fields::SOURCE_TILE_H, fields::SOURCE_OFFSET_H, word),
        Elem::S => slice_at(size, fields::SOURCE_TILE_S, fields::SOURCE_OFFSET_S, word),
        Elem::D => slice_at(size, fields::SOURCE_TILE_D, fields::SOURCE_OFFSET_D, word),
        Elem::Q => slice_at(size, fields::SOURCE_TILE_Q, fields::SOURCE_OFFSET_Q, word),
    }
}

/// The vector of a move.
#[inline(always)]
fn moved_vector(to_tile: bool, word: u32) -> u8
    ensures { result ≡ field_byte (numbers_in word (moved_vector to_tile)) }
{
    if to_tile {
        byte(fields::ZN, word)
    } else {
        byte(fields::ZD, word)
    }
}

/// The tile of sums.
#[inline(always)]
fn sum_tile(wide: bool, word: u32) -> u8
    ensures { result ≡ field_byte (numbers_in word (sum_field wide)) }
{
    if wide {
        byte(fields::ZADA_D, word)
    } else {
        byte(fields::ZADA_S, word)
    }
}
