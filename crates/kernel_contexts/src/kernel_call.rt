//! The calls of the kernel, and their numbers.
ghost use Rattle.std.specs.Prelude.{◌≡◌};
ghost use Rattle.kernel_contexts.specs.KernelCall.{call_numbered, mask_call};

use sm_types::Version;

/// A call of the kernel.
#[derive(Clone, Copy)]
pub enum KernelCall {
    /// Writes bytes to the thread's output.
    Write,
    /// Ends the thread.
    Exit,
    /// Gives way to other threads.
    Yield,
    /// Makes a signal pending for a thread.
    Post,
    /// Sets the handler of a signal, or removes it.
    SetHandler,
    /// Sets the mask of signals.
    SetMask,
    /// Returns from a handler.
    Return,
    /// Tells the thread's number.
    Number,
    /// Fails, as each number does that is no call's.
    Other,
}

/// The number of the call that returns from a handler.
pub(crate) const RETURN: u64 = 139;

/// The call that sets the mask, which version 1 does not have.
fn mask_call(version: Version) -> KernelCall
    ensures { result ≡ mask_call version }
{
    match version {
        Version::One => KernelCall::Other,
        Version::Two => KernelCall::SetMask,
    }
}

/// The call of a number.
#[tactic(auto, unfolding(crate::specs::KernelCall::call_numbered))]
pub(crate) fn call_numbered(version: Version, number: u64) -> KernelCall
    ensures { result ≡ call_numbered version number }
{
    match number {
        64 => KernelCall::Write,
        93 => KernelCall::Exit,
        124 => KernelCall::Yield,
        131 => KernelCall::Post,
        134 => KernelCall::SetHandler,
        135 => mask_call(version),
        RETURN => KernelCall::Return,
        178 => KernelCall::Number,
        _ => KernelCall::Other,
    }
}
