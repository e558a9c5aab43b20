//! Operations on the words that the threads share.

/// The operations on a shared word, and those on a thread's pending signals: `Post` and `Poll`.
#[derive(Clone, Copy, Debug, PartialEq, Eq)]
pub enum OpKind {
    Load,
    Store,
    Swap,
    Add,
    Clear,
    Eor,
    Set,
    Umax,
    Umin,
    Cas,
    Post,
    Poll,
}

/// An operation: its place is a word, 0 to 511, or for `Post` and `Poll` a thread, 0 to 31.
///
/// Of `Cas`, `a` is the expected value and `b` the new one; of `Post`, `a` is the signal's bit. Unused
/// fields are 0.
#[derive(Clone, Copy, Debug, PartialEq, Eq)]
pub struct SharedOp {
    pub kind: OpKind,
    pub place: u32,
    pub a: u64,
    pub b: u64,
}

/// An operation with its answer: the word's old value, or 0 for `Store`.
#[derive(Clone, Copy, Debug, PartialEq, Eq)]
pub struct Event {
    pub op: SharedOp,
    pub answer: u64,
}
