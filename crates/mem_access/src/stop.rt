//! Why an access is not made.
use sm_types::Exception;

/// Why an access is not made; nothing has changed.
#[derive(Clone, Copy, Debug, PartialEq, Eq)]
pub enum AccessStop {
    /// The first check that fails.
    Raise(Exception),
    /// There was no memory for a page that is written.
    Memory,
}
