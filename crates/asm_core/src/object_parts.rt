//! The parts of an object, which grow line by line.

use sm_types::{Bytes, Symbols};

/// The bytes of the text and of the data, and the symbols.
#[derive(Drop)]
pub struct Parts {
    pub text_bytes: Bytes,
    pub data_bytes: Bytes,
    pub symbols: Symbols,
}
