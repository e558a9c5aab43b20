//! Where a run of instructions is told to end: before an instruction, by its address and its word.
ghost use Rattle.std.specs.Prelude.{ℕ, ◌≡◌, Bool, false};

/// Instructions before which `Machine::step_several` ends.
pub trait Halts {
    /// Whether it ends before the instruction of a word at an address.
    ghost halts: { Self → ℕ → ℕ → Bool };

    /// The same.
    fn halts(&self, pc: u64, word: u32) -> bool
        ensures { result ≡ halts self.now pc word };
}

/// Before none.
#[derive(Clone, Copy)]
pub struct Never;

impl Halts for Never {
    ghost halts = { λ s pc word. false };

    #[inline(always)]
    fn halts(&self, _pc: u64, _word: u32) -> bool {
        false
    }
}
