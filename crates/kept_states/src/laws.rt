//! The law of kept states.
ghost use Rattle.std.specs.Prelude.{◌≡◌};
ghost use Rattle.kernel_contexts.specs.State.{State};
ghost use Rattle.kept_states.specs.Kept.{Keeps};
ghost use Rattle.kept_states.specs.declared.kept.KeptState.{KeptState};

/// What is kept is one state.
pub fn one_kept()
    ensures { (k : KeptState) (s t : State) → Keeps k s → Keeps k t → s ≡ t }
{}
