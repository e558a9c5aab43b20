//! The constants of ELF-64: where the fields of the file's header are, in bytes, and the values of fields.

/// The offset of the type of the file.
pub const E_TYPE: usize = 16;
/// The offset of the machine.
pub const E_MACHINE: usize = 18;
/// The offset of the address of the first instruction.
pub const E_ENTRY: usize = 24;
/// The offset of the field that has the offset of the program headers.
pub const E_PHOFF: usize = 32;
/// The offset of the size of a program header.
pub const E_PHENTSIZE: usize = 54;
/// The offset of the number of program headers.
pub const E_PHNUM: usize = 56;

/// The size of the file's header in bytes.
pub const E_HEADER_SIZE: usize = 64;
/// The size of a program header in bytes.
pub const PROGRAM_HEADER_SIZE: u16 = 56;
/// The number of program headers that says that the file has it elsewhere.
pub const PN_XNUM: u16 = 65_535;
/// The magic number, of four bytes, little-endian.
pub const ELF_MAGIC: u32 = 0x464C_457F;
/// The class and the order of bytes: 64 bits, little-endian.
pub const ELF_CLASS_AND_DATA: u16 = 0x0102;
/// The version of ELF.
pub const EV_CURRENT: u8 = 1;
/// The type of an executable.
pub const ET_EXEC: u16 = 2;
/// The machine of AArch64.
pub const EM_AARCH64: u16 = 183;

/// The kind of a program header that is not in use.
pub const PT_NULL: u32 = 0;
/// The kind of a segment that is loaded.
pub const PT_LOAD: u32 = 1;
/// The kind of the segment for dynamic linking.
pub const PT_DYNAMIC: u32 = 2;
/// The kind of the segment that names an interpreter.
pub const PT_INTERP: u32 = 3;
/// The kind of the segment for thread-local storage.
pub const PT_TLS: u32 = 7;
/// The flag of a segment that can be executed.
pub const PF_X: u32 = 1;
/// The flag of a segment that can be written.
pub const PF_W: u32 = 2;
/// The flag of a segment that can be read.
pub const PF_R: u32 = 4;
