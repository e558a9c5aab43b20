//! The laws of the routines in a thread whose handlers run between their instructions.
ghost use Rattle.std.specs.Prelude.{◌≡◌, ◌<◌, ℕ, Bool, List, length};
ghost use Rattle.sm_types.specs.declared.config.Config.{Config};
ghost use Rattle.paged_memory.specs.Memory.{IsWhole as IsWholeMemory};
ghost use Rattle.machine_step.specs.ProcessorState.{ProcessorState, vector_bytes};
ghost use Rattle.machine_step.specs.Effect.{Becomes, effect_of};
ghost use Rattle.lazy_saving.specs.Dormant.{Places, IsDormantAt, IsLawful};
ghost use Rattle.lazy_saving.specs.Interleaved.{Covers, IsDisabledOver, IsPastOver};
ghost use Rattle.lazy_saving.specs.Outcome.{IsWhole, IsCallersArray, disable_length, instructions_past};
ghost use Rattle.za_routines.specs.Ways.{Place, Step, AreSteps, ArePlainBetween, own_instructions};

use kernel_contexts::handlers_bring_back;
use lazy_saving::{arrays_come_back, disable_saves_over_changes};

/// `__arm_za_disable` saves a dormant ZA, and after every lawful callee the tail gives the caller its ZA
/// back, in a thread in which any number of polls are made and handlers run between their instructions,
/// others in these too, over an area that has the block, the buffer and the words, where each delivery that is
/// due on the way finds registers and a mask of their types (`ArePlainBetween`). `disable` and `returns` say so
/// of as many instructions of the thread's own as the words take; with fewer, the next one is executed
/// (`disabling`, `returning`).
pub fn routines_run_with_handlers()
    ensures disable { (config : Config) (thread : ℕ) (area : ℕ → Bool) (p : Places) (steps : List Step)
        (from to : Place) (b : ℕ) (d : IsDormantAt p from.state.core b) → IsWhole from.state.core
        → from.state.core.scalars.pc ≡ p.disable → Covers area p (length from.state.core.bank.za) b d.bytes
        → AreSteps config thread area steps from to → ArePlainBetween config thread from to
        → own_instructions steps ≡ disable_length d.bytes
        → IsDisabledOver area from.state.core to.state.core d.bytes }
    ensures disabling { (config : Config) (thread : ℕ) (area : ℕ → Bool) (p : Places) (steps : List Step)
        (from to : Place) (b : ℕ) (d : IsDormantAt p from.state.core b) → IsWhole from.state.core
        → from.state.core.scalars.pc ≡ p.disable → Covers area p (length from.state.core.bank.za) b d.bytes
        → AreSteps config thread area steps from to → ArePlainBetween config thread from to
        → own_instructions steps < disable_length d.bytes
        → (u : ProcessorState) × (effect_of (vector_bytes config.vl) to.state.core ≡ Becomes u) }
    ensures returns { (config : Config) (thread : ℕ) (area : ℕ → Bool) (p : Places) (steps : List Step)
        (s : ProcessorState) (from to : Place) (b : ℕ) (h : IsLawful p s from.state.core b)
        → IsWholeMemory s.memory → IsWholeMemory from.state.core.memory → IsWhole from.state.core
        → length from.state.core.bank.za ≡ length s.bank.za → from.state.core.scalars.pc ≡ p.tail
        → Covers area p (length s.bank.za) b h.dormant.bytes → AreSteps config thread area steps from to
        → ArePlainBetween config thread from to
        → own_instructions steps ≡ instructions_past from.state.core.za_on h.dormant.bytes
        → IsPastOver area p from.state.core to.state.core
        × IsCallersArray from.state.core.za_on s to.state.core h.dormant.bytes }
    ensures returning { (config : Config) (thread : ℕ) (area : ℕ → Bool) (p : Places) (steps : List Step)
        (s : ProcessorState) (from to : Place) (b : ℕ) (h : IsLawful p s from.state.core b)
        → IsWholeMemory s.memory → IsWholeMemory from.state.core.memory → IsWhole from.state.core
        → length from.state.core.bank.za ≡ length s.bank.za → from.state.core.scalars.pc ≡ p.tail
        → Covers area p (length s.bank.za) b h.dormant.bytes → AreSteps config thread area steps from to
        → ArePlainBetween config thread from to
        → own_instructions steps < instructions_past from.state.core.za_on h.dormant.bytes
        → (u : ProcessorState) × (effect_of (vector_bytes config.vl) to.state.core ≡ Becomes u) }
{
    handlers_bring_back();
    disable_saves_over_changes();
    arrays_come_back();
}
