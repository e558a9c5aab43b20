//! What the kernel keeps of the signals of a thread while handlers run.

/// Which signals are not delivered, a bit for each, and how many handlers have begun and not returned.
#[derive(Clone, Copy, Debug, PartialEq, Eq)]
pub struct Masking {
    pub mask: u64,
    pub depth: u32,
}
