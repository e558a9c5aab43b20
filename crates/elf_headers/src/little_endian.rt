//! Little-endian numbers in the file.
ghost use Rattle.std.specs.Prelude.{◌≡◌, ◌+◌, ◌≤◌, ◌<◌, length};
ghost use Rattle.elf_headers.specs.Header.{number_at};

use byteorder::{ByteOrder, LittleEndian};

/// The number of one byte at an offset in the file.
#[tactic(auto, unfolding(crate::specs::Header::number_at))]
pub fn u8_at(file: &[u8], offset: usize) -> u8
    requires { offset < length file.now }
    ensures { result ≡ number_at file.now offset 1 }
{
    file[offset]
}

/// The number of two bytes at an offset in the file.
#[tactic(auto, unfolding(crate::specs::Header::number_at))]
pub fn u16_at(file: &[u8], offset: usize) -> u16
    requires { offset + 2 ≤ length file.now }
    ensures { result ≡ number_at file.now offset 2 }
{
    LittleEndian::read_u16(&file[offset..])
}

/// The number of four bytes at an offset in the file.
#[tactic(auto, unfolding(crate::specs::Header::number_at))]
pub fn u32_at(file: &[u8], offset: usize) -> u32
    requires { offset + 4 ≤ length file.now }
    ensures { result ≡ number_at file.now offset 4 }
{
    LittleEndian::read_u32(&file[offset..])
}

/// The number of eight bytes at an offset in the file.
#[tactic(auto, unfolding(crate::specs::Header::number_at))]
pub fn u64_at(file: &[u8], offset: usize) -> u64
    requires { offset + 8 ≤ length file.now }
    ensures { result ≡ number_at file.now offset 8 }
{
    LittleEndian::read_u64(&file[offset..])
}
