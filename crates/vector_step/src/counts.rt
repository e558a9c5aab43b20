//! Numbers of elements and lengths of vectors in general registers.
ghost use Rattle.std.specs.Prelude.{◌≡◌, ◌<◌, ◌≤◌};
ghost use Rattle.sm_types.specs.declared.vector.ElementCount.TheVariants as form;
ghost use Rattle.sve_table.specs.Ranges.{IsElementCount};
ghost use Rattle.vector_step.specs.Counts.{after_element_count};

use crate::size::element_size;
use predicates::{add_lengths, count_down, count_up, element_number, vector_lengths};
use scalar_exec::{read_x, read_x_or_sp, write_x, write_x_or_sp};
use sm_types::{Elem, ElementCount, Scalars};

/// Adds a number of elements to a register, or takes it away where `decrement`.
#[tactic(auto, unfolding(crate::specs::Counts::after_element_count))]
fn change_by_count(
    scalars: &mut Scalars,
    bytes: u64,
    decrement: bool,
    size: Elem,
    pattern: u8,
    multiplier: u8,
    rd: u8,
)
    requires small { bytes ≤ 256 }
    requires rd { rd < 32 }
    ensures value { scalars.new ≡
        after_element_count bytes (form.Change decrement size pattern multiplier rd) scalars.old }
    ensures place { scalars.new.pc ≡ scalars.old.pc }
{
    let size = element_size(size);
    let old = read_x(scalars, rd);
    let new = if decrement {
        count_down(size, pattern, multiplier, bytes, old)
    } else {
        count_up(size, pattern, multiplier, bytes, old)
    };
    write_x(scalars, rd, new);
}

/// Writes a number of elements, changes a register by it, or writes or adds lengths of a vector of `bytes`
/// bytes.
#[tactic(auto, unfolding(crate::specs::Counts::after_element_count))]
#[inline(never)]
pub fn exec_element_count(scalars: &mut Scalars, bytes: u64, x: &ElementCount)
    requires range { IsElementCount x.now }
    requires small { bytes ≤ 256 }
    ensures value { scalars.new ≡ after_element_count bytes x.now scalars.old }
    ensures place { scalars.new.pc ≡ scalars.old.pc }
{
    match *x {
        ElementCount::Count {
            size,
            pattern,
            multiplier,
            rd,
        } => {
            let number = element_number(element_size(size), pattern, multiplier, bytes);
            write_x(scalars, rd, number);
        }
        ElementCount::Change {
            decrement,
            size,
            pattern,
            multiplier,
            rd,
        } => change_by_count(scalars, bytes, decrement, size, pattern, multiplier, rd),
        ElementCount::Length { imm, rd } => write_x(scalars, rd, vector_lengths(imm, bytes)),
        ElementCount::AddLength {
            predicate,
            imm,
            rn,
            rd,
        } => {
            let old = read_x_or_sp(scalars, rn);
            write_x_or_sp(scalars, rd, add_lengths(predicate, imm, bytes, old));
        }
    }
}
