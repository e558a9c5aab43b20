//! Why a text is refused.

/// The first line that does not say what it should, and what is wrong with it.
#[derive(Clone, Copy, Debug, PartialEq, Eq)]
pub struct LineFault<K> {
    /// The line, counted from 1; it is one past the last where a line is missing.
    pub line: u64,
    /// What is wrong with it, in a reader's own kinds.
    pub kind: K,
}
