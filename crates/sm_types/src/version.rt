//! The versions of the modelled kernel.

/// A version of the modelled kernel: the first has no masks and one handler at a time, in the second handlers
/// mask their signal and nest.
#[derive(Clone, Copy, Debug, PartialEq, Eq)]
pub enum Version {
    /// No signal is masked, and a handler is delivered no signal until it returns.
    One,
    /// A handler's signal is masked while it runs, handlers nest to a depth of 64, and a call sets the mask.
    Two,
}
