//! A gate that each turn of a worker passes.

/// A place to hold or to watch workers at, as a test of schedules does.
pub trait Gate {
    /// The worker `core` calls it once for each run that it lets a guest thread make: as its body stands,
    /// before that run, which no clause says. `turn` is how many runs it let be made before, and `work` the
    /// number of the guest thread of the run.
    fn pass(&self, core: u32, turn: u64, work: u32);
}

/// A gate that holds nobody.
#[derive(Clone, Copy, Debug, Default, PartialEq, Eq)]
pub struct OpenGate;

impl Gate for OpenGate {
    fn pass(&self, _core: u32, _turn: u64, _work: u32) {}
}
