//! What an assembler makes of a source, before it is written as a file.
ghost use Rattle.std.specs.Prelude.{◌≡◌};
ghost use Rattle.sm_types.specs.Objects.{is_code, name_says};

/// The address of an object's text. Its data begins at the first page after the text.
pub const TEXT_ADDRESS: u64 = 0x400000;

/// The parts of an object.
#[derive(Clone, Copy, Debug, PartialEq, Eq)]
pub enum Section {
    Text,
    Data,
}

/// What bytes of a section are, as a mapping symbol tells it (ELF for the Arm 64-bit Architecture).
#[derive(Clone, Copy, Debug, PartialEq, Eq)]
pub enum Content {
    /// Instructions, from the mapping symbol `$x` on.
    Code,
    /// Data, from the mapping symbol `$d` on.
    Data,
}

impl Content {
    /// Tells whether they are instructions.
    pub fn is_code(self) -> bool
        ensures { result ≡ is_code self }
    {
        matches!(self, Content::Code)
    }
}

/// A list of bytes.
pub type Bytes = Vec<u8>;

/// A name for an address, of the ELF symbol table.
#[derive(Drop)]
pub struct Symbol {
    /// Its bytes, without a zero at the end.
    pub name: Bytes,
    pub address: u64,
    pub section: Section,
}

/// A list of symbols.
pub type Symbols = Vec<Symbol>;

/// A program: the bytes of its text and of its data, its symbols, mapping symbols among them, and the
/// address of its first instruction.
#[derive(Drop)]
pub struct Object {
    pub text_bytes: Bytes,
    pub data_bytes: Bytes,
    pub symbols: Symbols,
    pub entry: u64,
}

/// What a symbol's name says of the bytes from its address on, where it is a mapping symbol's: `$x` that
/// they are code, `$d` that they are data; both may have `.` and a suffix (ELF for the Arm 64-bit
/// Architecture).
pub fn name_says(name: &[u8]) -> Option<Content>
    ensures { result ≡ name_says name.now }
{
    match name {
        [b'$', b'x'] | [b'$', b'x', b'.', ..] => Some(Content::Code),
        [b'$', b'd'] | [b'$', b'd', b'.', ..] => Some(Content::Data),
        _ => None,
    }
}
