//! Moves of halfwords and of bit fields.
ghost use Rattle.std.specs.Prelude.{◌≡◌, ◌+◌, ◌*◌, ◌/◌, ◌%◌, ◌<◌, ◌≤◌, ◌^◌};
ghost use Rattle.bit_ops.specs.Sums.{word_size};
ghost use Rattle.bit_ops.specs.Bits.{width_of};
ghost use Rattle.a64_table.specs.Ranges.{IsMoveWide, IsBitfieldMove, IsExtract};
ghost use Rattle.scalar_exec.specs.Moves.{halfword_of, moved, move_wide, placed, bitfield_of, bitfield_move};
ghost use Rattle.scalar_exec.specs.Moves.{extract};

use crate::fields::{field_at, insert, ones_above, shifted_field, width};
use crate::operands::invert;
use crate::registers::{low_word, register, write_x};
use sm_types::{BitfieldMove, BitfieldOp, Extract, MoveOp, MoveWide, Scalars};

/// The immediate at its halfword.
#[inline(always)]
fn halfword(x: &MoveWide) -> u64
    requires { IsMoveWide x.now }
    ensures value { result ≡ halfword_of x.now }
    ensures small { result < word_size x.now.wide }
{
    let imm = u64::from(x.imm);
    match x.hw {
        0 => imm,
        1 => imm << 16,
        2 => imm << 32,
        _ => imm << 48,
    }
}

/// Moves a halfword.
#[inline(always)]
#[tactic(auto, unfolding(crate::specs::Moves::moved, crate::specs::Moves::move_wide))]
pub fn exec_move_wide(s: &mut Scalars, x: &MoveWide)
    requires { IsMoveWide x.now }
    ensures value { s.new ≡ move_wide x.now s.old }
    ensures place { s.new.pc ≡ s.old.pc }
{
    let value = match x.op {
        MoveOp::Movn => invert(halfword(x), x.wide),
        MoveOp::Movz => halfword(x),
        MoveOp::Movk => insert(
            u64::from(x.imm),
            16,
            16 * u32::from(x.hw),
            register(s, x.rd, x.wide),
        ),
    };
    write_x(s, x.rd, value);
}

/// A field of so many bits at a place.
#[inline(always)]
#[tactic(auto, unfolding(crate::specs::Moves::placed))]
fn place_field(op: BitfieldOp, wide: bool, field: u64, count: u32, place: u32, old: u64) -> u64
    requires field { field < 2 ^ count }
    requires some { 0 < count }
    requires room { place + count ≤ width_of wide }
    requires old { old < word_size wide }
    ensures { result ≡ placed op wide field count place old }
{
    match op {
        BitfieldOp::Ubfm => shifted_field(field, count, place),
        BitfieldOp::Sbfm => {
            if field >= 1 << (count - 1) {
                ones_above(wide, place + count) + shifted_field(field, count, place)
            } else {
                shifted_field(field, count, place)
            }
        }
        BitfieldOp::Bfm => insert(field, count, place, old),
    }
}

/// The word after a bit field move.
#[inline(always)]
#[tactic(auto, unfolding(crate::specs::Moves::bitfield_of))]
fn bitfield(x: &BitfieldMove, from: u64, old: u64) -> u64
    requires immr { x.now.immr < width_of x.now.wide }
    requires imms { x.now.imms < width_of x.now.wide }
    requires from { from < word_size x.now.wide }
    requires old { old < word_size x.now.wide }
    ensures { result ≡ bitfield_of x.now from old }
{
    let immr = u32::from(x.immr);
    let imms = u32::from(x.imms);
    if immr <= imms {
        let count = imms - immr + 1;
        let field = field_at(from, immr, count);
        place_field(x.op, x.wide, field, count, 0, old)
    } else {
        let count = imms + 1;
        let field = field_at(from, 0, count);
        place_field(x.op, x.wide, field, count, width(x.wide) - immr, old)
    }
}

/// Moves a bit field.
#[inline(always)]
#[tactic(auto, unfolding(crate::specs::Moves::bitfield_move))]
pub fn exec_bitfield_move(s: &mut Scalars, x: &BitfieldMove)
    requires { IsBitfieldMove x.now }
    ensures value { s.new ≡ bitfield_move x.now s.old }
    ensures place { s.new.pc ≡ s.old.pc }
{
    let from = register(s, x.rn, x.wide);
    let old = register(s, x.rd, x.wide);
    let value = bitfield(x, from, old);
    write_x(s, x.rd, value);
}

/// The word from a bit on of the first word above the second.
#[inline(always)]
fn joined(high: u64, low: u64, lsb: u32, wide: bool) -> u64
    requires high { high < word_size wide }
    requires low { low < word_size wide }
    requires lsb { lsb < width_of wide }
    ensures { result ≡ (high * word_size wide + low) / 2 ^ lsb % word_size wide }
{
    if wide {
        let both = (u128::from(high) << 64) + u128::from(low);
        (both >> lsb & u128::from(u64::MAX)) as u64
    } else {
        low_word(((high << 32) + low) >> lsb, false)
    }
}

/// Extracts a word from two registers.
#[tactic(auto, unfolding(crate::specs::Moves::extract))]
pub fn exec_extract(s: &mut Scalars, x: &Extract)
    requires { IsExtract x.now }
    ensures value { s.new ≡ extract x.now s.old }
    ensures place { s.new.pc ≡ s.old.pc }
{
    let high = register(s, x.rn, x.wide);
    let low = register(s, x.rm, x.wide);
    write_x(s, x.rd, joined(high, low, u32::from(x.lsb), x.wide));
}
