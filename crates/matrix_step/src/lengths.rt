//! RDSVL, ADDSVL and ADDSPL.
ghost use Rattle.std.specs.Prelude.{◌≡◌, ◌≤◌};
ghost use Rattle.sve_table.specs.Ranges.{IsStreamingLength};
ghost use Rattle.matrix_step.specs.Lengths.{after_streaming_length};

use predicates::{add_lengths, vector_lengths};
use scalar_exec::{read_x_or_sp, write_x, write_x_or_sp};
use sm_types::{Scalars, StreamingLength};

/// Writes or adds streaming vector lengths, of `size` bytes.
#[tactic(auto, unfolding(crate::specs::Lengths::after_streaming_length))]
pub(crate) fn exec_length(scalars: &mut Scalars, size: u64, x: &StreamingLength)
    requires range { IsStreamingLength x.now }
    requires small { size ≤ 256 }
    ensures value { scalars.new ≡ after_streaming_length size x.now scalars.old }
    ensures place { scalars.new.pc ≡ scalars.old.pc }
{
    match *x {
        StreamingLength::Length { imm, rd } => write_x(scalars, rd, vector_lengths(imm, size)),
        StreamingLength::AddLength {
            predicate,
            imm,
            rn,
            rd,
        } => {
            let old = read_x_or_sp(scalars, rn);
            write_x_or_sp(scalars, rd, add_lengths(predicate, imm, size, old));
        }
    }
}
