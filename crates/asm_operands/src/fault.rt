//! Why a line is refused.

/// Why a line of the grammar does not go on at a token.
#[derive(Clone, Copy, Debug, PartialEq, Eq)]
pub enum FaultKind {
    /// No instruction or directive has the name.
    UnknownName,
    /// A number is to stand there, of another form or in another range.
    BadNumber,
    /// A whole line stands before it.
    Extra,
    /// All else, and where the line ends too early.
    BadOperand,
}
