//! What is so of every state that a thread's lone run reaches from its start.
ghost use Rattle.std.specs.Prelude.{◌≡◌, ℕ, List};
ghost use Rattle.sm_types.specs.declared.config.Config.{Config};
ghost use Rattle.sm_types.specs.declared.shared_op.Event.{Event};
ghost use Rattle.paged_memory.specs.Image.{Program};
ghost use Rattle.kernel_contexts.specs.HandlerRun.{IsPlain};
ghost use Rattle.kernel_contexts.specs.State.{State};
ghost use Rattle.kernel_contexts.specs.Run.{At, reach, reach_from};
ghost use Rattle.za_routines.specs.Ways.{Place, ArePlainBetween};
ghost use Rattle.reach_laws.specs.Run.{IsTypedRun};

use a64_encode::{has_word, means_either};

/// In every state in which a thread goes on, after any number of turns from its start, registers, vectors, ZA
/// and the mask are of their types (`IsPlain`), where the memory, the entry and the numbers that the run
/// starts from and the answers of its journal are of theirs (`IsTypedRun`). `later` says so of a state some
/// turns after one that is reached.
pub fn reach_is_plain()
    ensures start { (program : Program) (config : Config) (thread : ℕ) (journal : List Event) (turns : ℕ)
        (s : State) (used : ℕ) (left : List Event) → IsTypedRun program config thread journal
        → reach program config thread journal turns ≡ At s used left → IsPlain config s }
    ensures later { (program : Program) (config : Config) (thread : ℕ) (journal : List Event)
        (turns more : ℕ) (s t : State) (used now : ℕ) (left rest : List Event)
        → IsTypedRun program config thread journal
        → reach program config thread journal turns ≡ At s used left
        → reach_from config thread s used left more ≡ At t now rest → IsPlain config t }
{
    means_either();
    has_word();
}

/// From a place of a thread's run from its start on, each delivery is due in a plain state: of such a run
/// za_routines' `routines_run_with_handlers` holds with no premise on what deliveries find.
pub fn reached_deliveries_are_plain()
    ensures { (program : Program) (config : Config) (thread : ℕ) (journal : List Event) (turns : ℕ)
        (from to : Place) → IsTypedRun program config thread journal
        → reach program config thread journal turns ≡ At from.state from.used from.left
        → ArePlainBetween config thread from to }
{
    reach_is_plain();
}
