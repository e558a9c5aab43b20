//! The states of which frames bring back what they save: those of every machine with a bank in its mode.
ghost use Rattle.std.specs.Prelude.{◌≡◌, ◌<◌, ◌^◌, ℕ, length, slice_index};
ghost use Rattle.sve_vectors.specs.Lengths.{vector_bytes};
ghost use Rattle.mem_access.specs.Bank.{bank_state};
ghost use Rattle.machine_step.specs.Machine.{core_of, IsInMode};
ghost use Rattle.signal_frames.specs.Law.{IsInRange};

use machine_step::Machine;
use mem_access::Bank;
use sm_types::Scalars;

/// Numbers of 64 bits.
fn numbers_fit(numbers: &[u64])
    ensures { (k : ℕ) → slice_index numbers.now k < 2 ^ 64 }
{}

/// The registers of 64 bits.
fn scalars_fit(scalars: &Scalars)
    ensures count { length scalars.now.x ≡ 31 }
    ensures x { (k : ℕ) → slice_index scalars.now.x k < 2 ^ 64 }
    ensures sp { scalars.now.sp < 2 ^ 64 }
    ensures pc { scalars.now.pc < 2 ^ 64 }
{
    numbers_fit(&scalars.x);
    let _sp = scalars.sp;
    let _pc = scalars.pc;
}

/// What a machine stands for with a bank in its mode is a state as the laws of frames ask for, with the VL of
/// the bank: its numbers fit their fields, its vectors, predicates, FFR and ZA have the lengths of the mode,
/// and ZA is zero where it is off. So `frame_brings_back` and `delivery_leaves_its_frame` hold of it.
pub fn machines_are_in_range(machine: &Machine, bank: &Bank)
    requires { IsInMode bank.now machine.now }
    ensures { IsInRange (vector_bytes bank.now.vectors.vl) (core_of machine.now (bank_state bank.now)) }
{
    scalars_fit(&machine.scalars);
    let _tpidr = machine.tpidr;
    let _tpidr2 = machine.tpidr2;
    let _length = bank.vectors.length();
    let _size = bank.za.size();
}
