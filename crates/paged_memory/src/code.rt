//! A page of code that is held, and its words.
ghost use Rattle.std.specs.Prelude.{◌≡◌, ◌+◌, ◌^◌, ◌≤◌, ℕ, length, Some};
ghost use Rattle.paged_memory.specs.Memory.{AddressSpace, bytes_with, word_at};
ghost use Rattle.paged_memory.specs.Code.{code_bytes};

use std::sync::Arc;

/// The 4096 bytes of a page of code, which stay while the pages of a thread change.
#[derive(Drop)]
pub struct Code {
    pub(crate) bytes: Arc<Vec<u8>>,
}

impl Code {
    /// The bytes.
    #[inline(always)]
    pub fn bytes(&self) -> &[u8]
        ensures { result.now ≡ code_bytes self.now }
    {
        self.bytes.as_slice()
    }
}

/// The word at that place of a page, of all of whose bytes this is the slice.
#[inline(always)]
pub fn word_of(code: &[u8], at: usize) -> u32
    requires full { length code.now ≡ 4096 }
    requires inside { at + 4 ≤ 4096 }
    ensures { (m : AddressSpace) (base : ℕ) → bytes_with 1 m base 4096 ≡ Some code.now
        → base + 4096 ≤ 2 ^ 64 → word_at m (base + at) ≡ Some result }
{
    let bytes = &code[at..at + 4];
    u32::from_le_bytes([bytes[0], bytes[1], bytes[2], bytes[3]])
}
