//! That there are runs of handlers: a handler that returns at once is one, where it may be delivered to.
ghost use Rattle.std.specs.Prelude.{◌≡◌, ℕ, Bool, List};
ghost use Rattle.sm_types.specs.declared.config.Config.{Config};
ghost use Rattle.sm_types.specs.declared.shared_op.Event.{Event};
ghost use Rattle.kernel_contexts.specs.State.{State};
ghost use Rattle.kernel_contexts.specs.Call.{Goes};
ghost use Rattle.kernel_contexts.specs.Turn.{turn_of};
ghost use Rattle.kernel_contexts.specs.HandlerRun.{HandlerRun};
ghost use Rattle.za_routines.specs.Returning.{MayDeliver, IsReturnNext, IsApart};

use signal_frames::{delivery_leaves_its_frame, frame_brings_back, return_sees_no_mode};

/// A delivery and the return behind it are the run of a handler, over each set of addresses of which none is
/// one of the frame: the return is made, and no event is used.
pub fn a_return_at_once_is_a_run()
    ensures { (config : Config) (thread used : ℕ) (over : ℕ → Bool) (from begun : State) (left : List Event)
        → MayDeliver config from → turn_of config thread used from ≡ Goes begun → IsReturnNext config begun
        → IsApart config over from
        → (to : State) × (HandlerRun config thread over from used left to used left) }
{
    delivery_leaves_its_frame();
    frame_brings_back();
    return_sees_no_mode();
}
