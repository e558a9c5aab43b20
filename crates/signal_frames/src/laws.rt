//! The laws of frames.
ghost use Rattle.std.specs.Prelude.{◌≡◌, ℕ, ◌≤◌, Bool, None, length};
ghost use Rattle.paged_memory.specs.Memory.{first_without};
ghost use Rattle.machine_step.specs.ProcessorState.{ProcessorState};
ghost use Rattle.machine_step.specs.Mode.{with_sm};
ghost use Rattle.signal_frames.specs.Frame.{size_of, frame_address, delivered};
ghost use Rattle.signal_frames.specs.Return.{return_fault, returned, unmasked};
ghost use Rattle.signal_frames.specs.Law.{IsInRange, IsSaveable, MayReturnTo, HasFrameAtSp, BringsBack};

use crate::masking::Masking;
use sm_types::Version;

/// A return that is made and reads the frame of a state brings back that state, but for its memory, and how
/// its signals were masked; and it is made where the signal is one, and the thread may return so.
pub fn frame_brings_back()
    ensures back { (version : Version) (masking : Masking) (depth vl signal : ℕ) (s t : ProcessorState)
        → IsInRange vl s → IsSaveable version masking → HasFrameAtSp version masking vl signal s t
        → return_fault version depth vl t ≡ None → BringsBack version masking depth vl s t }
    ensures made { (version : Version) (masking : Masking) (depth vl signal : ℕ) (s t : ProcessorState)
        → IsInRange vl s → 1 ≤ signal → signal ≤ 62 → MayReturnTo version masking depth
        → length t.bank.za ≡ length s.bank.za → IsSaveable version masking
        → HasFrameAtSp version masking vl signal s t → return_fault version depth vl t ≡ None }
{}

/// A delivery to bytes that can be read leaves the frame of the state before it at SP.
pub fn delivery_leaves_its_frame()
    ensures { (version : Version) (masking : Masking) (vl signal handler : ℕ) (s : ProcessorState)
        → IsInRange vl s → first_without 4 s.memory (frame_address version vl s) (size_of version vl s) ≡ None
        → HasFrameAtSp version masking vl signal s (delivered version masking vl signal handler s) }
{}

/// What a return does does not go by PSTATE.SM, nor by the vectors that a change of it sets to zero.
pub fn return_sees_no_mode()
    ensures fault { (version : Version) (depth : ℕ) (on : Bool) (vl : ℕ) (s : ProcessorState)
        → return_fault version depth vl (with_sm vl on s) ≡ return_fault version depth vl s }
    ensures state { (version : Version) (depth : ℕ) (on : Bool) (vl : ℕ) (s : ProcessorState)
        → returned version depth vl (with_sm vl on s) ≡ returned version depth vl s }
    ensures masking { (version : Version) (depth : ℕ) (on : Bool) (vl : ℕ) (s : ProcessorState)
        → unmasked version depth vl (with_sm vl on s) ≡ unmasked version depth vl s }
{}
