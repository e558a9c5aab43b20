//! The conditions on a word that has a row's fixed bits.
#![tactic(auto, unfolding(
// The table and its conditions.
crate::specs::Table::scalar, crate::specs::Conditions::fits_of, insn_forms::specs::Tables::fits_with,
// The fields of a word.
insn_forms::specs::Fields::is_field, insn_forms::specs::Fields::mask_of,
// The conditions on widths and loads.
crate::specs::Conditions::is_below_width, crate::specs::Conditions::has_load,
// Those on addresses.
crate::specs::Conditions::is_address_option, crate::specs::Conditions::is_apart,
// Those on pairs.
crate::specs::Conditions::are_two, crate::specs::Conditions::is_pair_apart))]

ghost use Rattle.std.specs.Prelude.{◌≡◌, ◌<◌, ◌^◌, ◌&&◌, ◌==◌};
ghost use Rattle.bit_ops.specs.Masks.{are_mask_fields};
ghost use Rattle.insn_forms.specs.Fields.{field_in};
ghost use Rattle.insn_forms.specs.Tables.{numbers_in};
ghost use Rattle.a64_table.specs.declared.rows.TheConstants.{SCALAR_LINES};
ghost use Rattle.a64_table.specs.Conditions.{are_two, fits_of, has_load, is_below_width, is_pair_apart};
ghost use Rattle.a64_table.specs.Rows.{row_fits};

use crate::fields::{HW, IMM3, IMM6, IMMR, IMMS, N, OPC, OPTION, RN, RT, RT2, SF, SHIFT, SIZE};
use crate::operation::{AddressForm, Operation};
use crate::rows::SCALAR_LINES;
use bit_ops::are_mask_fields;
use insn_forms::{field_in, line_with, one};
use sm_types::{PairIndex, PairOp, Row};

/// Whether a word that has the row's fixed bits meets the condition of the row; no word does where the table
/// has no such row.
pub fn fits(row: &Row, word: u32) -> bool
    ensures { result ≡ row_fits row.now word }
{
    match line_with(&SCALAR_LINES, row.mask, row.value) {
        Some(line) => condition(line.operation, word),
        None => false,
    }
}

/// Whether the word meets the condition of the operation.
#[inline(always)]
pub fn condition(operation: Operation, word: u32) -> bool
    ensures { result ≡ fits_of operation (numbers_in word) }
{
    match operation {
        Operation::G2(_) => {
            field_in(&SHIFT, word) != 3 && below_width(one(SF, word), field_in(&IMM6, word))
        }
        Operation::G3(_, _) => below_width(one(SF, word), field_in(&IMM6, word)),
        Operation::G4(_) => field_in(&IMM3, word) < 5,
        Operation::G5(_) => mask_fits(word),
        Operation::G6(_) => one(SF, word) || field_in(&HW, word) < 2,
        Operation::G7(_, wide) => {
            below_width(wide, field_in(&IMMR, word)) && below_width(wide, field_in(&IMMS, word))
        }
        Operation::G8(wide) => below_width(wide, field_in(&IMMS, word)),
        Operation::G18(form) => {
            let loads = load(field_in(&SIZE, word), field_in(&OPC, word));
            match form {
                AddressForm::Offset | AddressForm::Unscaled => loads,
                AddressForm::PostIndex | AddressForm::PreIndex => {
                    let rn = field_in(&RN, word);
                    loads && (rn != field_in(&RT, word) || rn == 31)
                }
                AddressForm::Register => {
                    let option = field_in(&OPTION, word);
                    loads && (option == 2 || option == 3 || option == 6 || option == 7)
                }
            }
        }
        Operation::G20(op, _, index) => pair_fits(op, index, word),
        _ => true,
    }
}

/// Whether the fields of the word write a mask.
#[inline(always)]
fn mask_fits(word: u32) -> bool
    ensures { let n = numbers_in word in
        result ≡ are_mask_fields (n N == 1) (n IMMS) (n IMMR) (n SF == 1) }
{
    are_mask_fields(
        one(N, word),
        field_in(&IMMS, word) as u8,
        field_in(&IMMR, word) as u8,
        one(SF, word),
    )
}

/// Whether the registers of a pair are apart as the operation asks.
#[inline(always)]
fn pair_fits(op: PairOp, index: PairIndex, word: u32) -> bool
    ensures { let n = numbers_in word in
        result ≡ (are_two op (n RT) (n RT2) && is_pair_apart index (n RN) (n RT) (n RT2)) }
{
    let rt = field_in(&RT, word);
    let rt2 = field_in(&RT2, word);
    let two = matches!(op, PairOp::Stp) || rt != rt2;
    two && pair_apart(index, field_in(&RN, word), rt, rt2)
}

#[inline(always)]
fn below_width(wide: bool, number: u32) -> bool
    ensures { result ≡ is_below_width wide number }
{
    if wide { number < 64 } else { number < 32 }
}

#[inline(always)]
fn load(size: u32, opc: u32) -> bool
    ensures { result ≡ has_load size opc }
{
    !(size == 3 && opc >= 2) && !(size == 2 && opc == 3)
}

#[inline(always)]
fn pair_apart(index: PairIndex, rn: u32, rt: u32, rt2: u32) -> bool
    ensures { result ≡ is_pair_apart index rn rt rt2 }
{
    match index {
        PairIndex::Offset => true,
        _ => rn == 31 || rn != rt && rn != rt2,
    }
}
