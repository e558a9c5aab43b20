//! A place in a file, from which its fields are read one after the other.
ghost use Rattle.std.specs.Prelude.{◌≡◌, ℕ, ◌+◌, ◌*◌, ◌<◌, ◌≤◌, ◌^◌, Bool, List, [], ◌∷◌, length, take, drop};
ghost use Rattle.std.specs.Prelude.{MatchResult, IfOk, true};
ghost use Rattle.byteorder.specs.Endian.{little_number, little_bytes};
ghost use Rattle.field_table.specs.Table.{Table, End};
ghost use Rattle.field_table.specs.Rows.{number, said, fields, rows};
ghost use Rattle.field_table.specs.Rows as row;

use byteorder::{ByteOrder, LittleEndian};

/// The offset of the first field of a file that is not whole or not as it must be, or of the first byte past
/// the last one.
#[derive(Clone, Copy, Debug, PartialEq, Eq)]
pub struct BadField {
    pub offset: u64,
}

/// Bytes are those of their number.
fn number_tells_bytes(bytes: &[u8])
    ensures { little_bytes (length bytes.now) (little_number (length bytes.now) bytes.now) ≡ bytes.now }
{}

/// A place in a file: the next field, and all that follows.
#[derive(Drop)]
pub struct Place<'a> {
    rest: &'a [u8],
    at: u64,
    ghost countable: { at + length rest.now < 2 ^ 62 },
}

impl<'a> Place<'a> {
    ghost use Rattle.field_table.specs.Reading.{Left, left_of, Reads, Fails};

    /// The beginning of a file.
    pub fn of(bytes: &'a [u8]) -> Place<'a>
        requires { length bytes.now < 2 ^ 62 }
        ensures { left_of result ≡ record { at = 0; bytes = bytes.now } }
    {
        Place { rest: bytes, at: 0 }
    }

    /// The number in the next field of 4 bytes; 0 where it is not whole.
    pub fn word(&self) -> u32
        ensures { 4 ≤ length self.now.rest.now → result ≡ little_number 4 self.now.rest.now }
    {
        if self.rest.len() < 4 {
            return 0;
        }
        LittleEndian::read_u32(self.rest)
    }

    /// The number in the next field of 8 bytes; 0 where it is not whole.
    pub fn doubleword(&self) -> u64
        ensures { 8 ≤ length self.now.rest.now → result ≡ little_number 8 self.now.rest.now }
    {
        if self.rest.len() < 8 {
            return 0;
        }
        LittleEndian::read_u64(self.rest)
    }

    /// The number in the next field of one byte; 0 where there is none.
    pub fn byte(&self) -> u8
        ensures { 1 ≤ length self.now.rest.now → result ≡ little_number 1 self.now.rest.now }
    {
        if self.rest.is_empty() {
            return 0;
        }
        self.rest[0]
    }

    /// Passes so many bytes, and gives them.
    fn advance(&mut self, size: usize) -> &'a [u8]
        requires { size ≤ length self.old.rest.now }
        ensures bytes { result.now ≡ take size self.old.rest.now }
        ensures left { left_of self.new
            ≡ record { at = self.old.at + size; bytes = drop size self.old.rest.now } }
    {
        let (passed, rest) = self.rest.split_at(size);
        self.rest = rest;
        self.at += size as u64;
        passed
    }

    /// Passes the next field of 4 bytes with that number, where it is whole and as it must be.
    pub fn pass_word(&mut self, word: u32, is_right: bool) -> Result<(), BadField>
        requires { 4 ≤ length self.old.rest.now → word ≡ little_number 4 self.old.rest.now }
        ensures read { (holds : ℕ → Bool) (next : ℕ → Table) → holds word ≡ is_right → MatchResult result
            (λ _. Reads (number 4 holds next) (little_bytes 4 word ∷ []) (next word) (left_of self.old)
            (left_of self.new))
            (λ fault. Fails (number 4 holds next) (left_of self.old) fault) }
        ensures right { IfOk result (λ _. is_right ≡ true) }
    {
        if self.rest.len() < 4 || !is_right {
            return Err(BadField { offset: self.at });
        }
        number_tells_bytes(self.advance(4));
        Ok(())
    }

    /// Passes the next field of 8 bytes with that number, where it is whole and as it must be.
    pub fn pass_doubleword(&mut self, number: u64, is_right: bool) -> Result<(), BadField>
        requires { 8 ≤ length self.old.rest.now → number ≡ little_number 8 self.old.rest.now }
        ensures read { (holds : ℕ → Bool) (next : ℕ → Table) → holds number ≡ is_right → MatchResult result
            (λ _. Reads (row.number 8 holds next) (little_bytes 8 number ∷ []) (next number) (left_of self.old)
            (left_of self.new))
            (λ fault. Fails (row.number 8 holds next) (left_of self.old) fault) }
        ensures right { IfOk result (λ _. is_right ≡ true) }
    {
        if self.rest.len() < 8 || !is_right {
            return Err(BadField { offset: self.at });
        }
        number_tells_bytes(self.advance(8));
        Ok(())
    }

    /// Passes the next field of one byte with that number, where there is one and it is as it must be.
    pub fn pass_byte(&mut self, byte: u8, is_right: bool) -> Result<(), BadField>
        requires { 1 ≤ length self.old.rest.now → byte ≡ little_number 1 self.old.rest.now }
        ensures read { (holds : ℕ → Bool) (next : ℕ → Table) → holds byte ≡ is_right → MatchResult result
            (λ _. Reads (number 1 holds next) (little_bytes 1 byte ∷ []) (next byte) (left_of self.old)
            (left_of self.new))
            (λ fault. Fails (number 1 holds next) (left_of self.old) fault) }
        ensures right { IfOk result (λ _. is_right ≡ true) }
    {
        if self.rest.len() < 1 || !is_right {
            return Err(BadField { offset: self.at });
        }
        number_tells_bytes(self.advance(1));
        Ok(())
    }

    /// Passes the next field, where its bytes are those.
    pub fn expect(&mut self, bytes: &[u8]) -> Result<(), BadField>
        ensures { (next : Table) → MatchResult result
            (λ _. Reads (said bytes.now next) (bytes.now ∷ []) next (left_of self.old) (left_of self.new))
            (λ fault. Fails (said bytes.now next) (left_of self.old) fault) }
    {
        let size = bytes.len();
        if self.rest.len() < size || &self.rest[..size] != bytes {
            return Err(BadField { offset: self.at });
        }
        self.advance(size);
        Ok(())
    }

    /// Passes so many fields of that size, whatever they are, and gives the bytes of all of them.
    pub fn pass_fields(&mut self, count: usize, size: usize) -> Result<&'a [u8], BadField>
        requires { count * size < 2 ^ 62 }
        ensures read { (next : Table) → MatchResult result
            (λ bytes. Reads (fields count size next) (rows count size bytes.now) next (left_of self.old)
            (left_of self.new))
            (λ fault. Fails (fields count size next) (left_of self.old) fault) }
        ensures size { IfOk result (λ bytes. length bytes.now ≡ count * size) }
    {
        let left = self.rest.len();
        if left < count * size {
            let whole = left / size * size;
            return Err(BadField {
                offset: self.at + whole as u64,
            });
        }
        Ok(self.advance(count * size))
    }

    /// Tells that the file ends here.
    pub fn end(&self) -> Result<(), BadField>
        ensures { MatchResult result (λ _. self.now.rest.now ≡ []) (λ fault. Fails End (left_of self.now) fault) }
    {
        if self.rest.is_empty() {
            Ok(())
        } else {
            Err(BadField { offset: self.at })
        }
    }
}
