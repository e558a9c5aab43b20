//! The laws of what is told of a run.
ghost use Rattle.std.specs.Prelude.{◌≡◌, ◌<◌, ◌^◌, ℕ, Bool, List, Some, length};
ghost use Rattle.sm_types.specs.declared.config.Config.{Config};
ghost use Rattle.sm_types.specs.declared.insn.Insn.{Insn};
ghost use Rattle.sm_types.specs.declared.shared_op.Event.{Event};
ghost use Rattle.a64_encode.specs.Either.{instruction_of};
ghost use Rattle.paged_memory.specs.Image.{Program};
ghost use Rattle.machine_step.specs.ProcessorState.{ProcessorState, vector_bytes};
ghost use Rattle.machine_step.specs.Effect.{Becomes, effect_of};
ghost use Rattle.kernel_contexts.specs.State.{State};
ghost use Rattle.lazy_saving.specs.Dormant.{Places};
ghost use Rattle.lazy_saving.specs.Instructions.{after_instructions};
ghost use Rattle.lazy_saving.specs.Interleaved.{Covers, IsPastOver};
ghost use Rattle.lazy_saving.specs.Outcome.{IsPast, IsCallersArray, instructions_past};
ghost use Rattle.za_routines.specs.Ways.{Place, Step, AreSteps, own_instructions};
ghost use Rattle.lone_runner.specs.Parting.{EndsAt};
ghost use Rattle.abi_checker.specs.Marks.{is_call_word, is_call_insn};
ghost use Rattle.abi_checker.specs.Faults.{block_of};
ghost use Rattle.abi_checker.specs.Checked.{IsChecked};
ghost use Rattle.abi_checker.specs.Brought.{IsReturned, IsReturnedAt};
ghost use Rattle.abi_checker.specs.declared.abi.Abi.{Abi};

use lazy_saving::arrays_come_back;
use za_routines::routines_run_with_handlers;

/// Of a thread's run over a journal and to a count at most one thing is told, and only where the run ends at
/// that count.
pub fn one_answer()
    ensures one { (program : Program) (config : Config) (thread : ℕ) (journal : List Event) (count : ℕ)
        (a b : Abi) → IsChecked program config thread journal count a
        → IsChecked program config thread journal count b → a ≡ b }
    ensures ends { (program : Program) (config : Config) (thread : ℕ) (journal : List Event) (count : ℕ)
        (abi : Abi) → IsChecked program config thread journal count abi
        → EndsAt program config thread journal count }
{}

/// Where it is told of a run that no marked call is at fault, the tail of each that returned gives the caller
/// its ZA back, as it was in the state after the call: all of it, where the callee left it on; else the slices
/// that the block says, the others being zero. So it is where the instructions of the tail are executed one
/// after another (`alone`), and in the run itself, where any number of polls are made and handlers run
/// between them, over an area that has the block, the buffer and the words, once as many instructions of the
/// thread's own are executed (`over`); before that the next one is executed (`under_way`).
pub fn yes_brings_back()
    ensures alone { (program : Program) (config : Config) (thread : ℕ) (journal : List Event) (count : ℕ)
        (p : Places) (s r : State) (bytes : List ℕ)
        → IsReturned program config thread journal count p s r bytes
        → (t : ProcessorState) × (after_instructions (vector_bytes config.vl)
        (instructions_past r.core.za_on bytes) r.core ≡ Some t) × IsPast p r.core t
        × IsCallersArray r.core.za_on s.core t bytes }
    ensures over { (program : Program) (config : Config) (thread : ℕ) (journal : List Event) (count : ℕ)
        (p : Places) (s : State) (bytes : List ℕ) (area : ℕ → Bool) (steps : List Step) (from to : Place)
        → IsReturnedAt program config thread journal count p s from bytes
        → Covers area p (length s.core.bank.za) (block_of s) bytes → AreSteps config thread area steps from to
        → own_instructions steps ≡ instructions_past from.state.core.za_on bytes
        → IsPastOver area p from.state.core to.state.core
        × IsCallersArray from.state.core.za_on s.core to.state.core bytes }
    ensures under_way { (program : Program) (config : Config) (thread : ℕ) (journal : List Event) (count : ℕ)
        (p : Places) (s : State) (bytes : List ℕ) (area : ℕ → Bool) (steps : List Step) (from to : Place)
        → IsReturnedAt program config thread journal count p s from bytes
        → Covers area p (length s.core.bank.za) (block_of s) bytes → AreSteps config thread area steps from to
        → own_instructions steps < instructions_past from.state.core.za_on bytes
        → (u : ProcessorState) × (effect_of (vector_bytes config.vl) to.state.core ≡ Becomes u) }
{
    arrays_come_back();
    routines_run_with_handlers();
}

/// A word of 32 bits that means an instruction is told as that of a call exactly where it is a BL or BLR.
pub fn call_words_are_calls()
    ensures { (word : ℕ) (it : Insn) → word < 2 ^ 32 → instruction_of word ≡ Some it
        → is_call_word word ≡ is_call_insn it }
{}
