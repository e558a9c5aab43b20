//! The table of program headers, and the checks on each by itself.
ghost use Rattle.std.specs.Prelude.{◌≡◌, ◌+◌, ◌*◌, ◌≤◌, ◌<◌, length};
ghost use Rattle.elf_headers.specs.Fault.{Tells};
ghost use Rattle.elf_headers.specs.Header.{program_header_count, HasTable};
ghost use Rattle.elf_headers.specs.Segments.{program_header_offset, segment_of, program_header};
ghost use Rattle.elf_headers.specs.Segments.{load_fault_of};
ghost use Rattle.elf_headers.specs.Segments.{segment_fault, segments_fault};

use crate::elf::{E_PHNUM, E_PHOFF};
use crate::fault::LoadFault;
use crate::little_endian::{u16_at, u32_at, u64_at};
use crate::program_header::ProgramHeader;

/// The end of the address space.
const SPACE_END: u64 = 1 << 47;
/// The first byte of the stack.
const STACK_START: u64 = 0x7DFF_FFFC_0000;
/// The first byte past the shared region.
const SHARED_END: u64 = 0x7F00_0000_1000;

/// How many program headers the file has.
pub fn count_program_headers(file: &[u8]) -> u16
    requires { HasTable file.now }
    ensures { result ≡ program_header_count file.now }
{
    u16_at(file, E_PHNUM)
}

/// The offset of a program header in the file.
fn program_header_offset(file: &[u8], index: u16) -> usize
    requires table { HasTable file.now }
    requires below { index < program_header_count file.now }
    ensures offset { result ≡ program_header_offset file.now index }
    ensures inside { result + 56 ≤ length file.now }
{
    u64_at(file, E_PHOFF) as usize + 56 * usize::from(index)
}

/// The program header at an offset in the file.
#[tactic(auto, unfolding(crate::specs::Segments::program_header))]
fn program_header_at(file: &[u8], offset: usize) -> ProgramHeader
    requires { offset + 56 ≤ length file.now }
    ensures { result ≡ program_header file.now offset }
{
    ProgramHeader {
        kind: u32_at(file, offset),
        flags: u32_at(file, offset + 4),
        offset: u64_at(file, offset + 8),
        address: u64_at(file, offset + 16),
        file_size: u64_at(file, offset + 32),
        memory_size: u64_at(file, offset + 40),
    }
}

/// A program header of the file.
pub fn read_program_header(file: &[u8], index: u16) -> ProgramHeader
    requires table { HasTable file.now }
    requires below { index < program_header_count file.now }
    ensures { result ≡ segment_of file.now index }
{
    program_header_at(file, program_header_offset(file, index))
}

/// Checks a load of a file of that size, whose program header is number `index` and stands at an offset in
/// the file.
#[tactic(auto, unfolding(crate::specs::Segments::load_fault_of))]
fn check_load(size: u64, offset: u64, index: u16, header: &ProgramHeader) -> Result<(), LoadFault>
    ensures { Tells result (load_fault_of size offset index header.now) }
{
    if header.file_size > header.memory_size {
        return Err(LoadFault::BadTable(offset));
    }
    let Some(end) = header.address.checked_add(header.memory_size) else {
        return Err(LoadFault::BadTable(offset));
    };
    let Some(file_end) = header.offset.checked_add(header.file_size) else {
        return Err(LoadFault::BadTable(offset));
    };
    if end > SPACE_END {
        return Err(LoadFault::BadTable(offset));
    }
    if header.file_size > 0 && file_end > size {
        return Err(LoadFault::Truncated(size));
    }
    if header.address < SHARED_END && end > STACK_START {
        return Err(LoadFault::InShared(index));
    }
    Ok(())
}

/// Checks a program header.
#[tactic(auto, unfolding(crate::specs::Segments::segment_fault))]
fn check_segment(file: &[u8], index: u16) -> Result<(), LoadFault>
    requires table { HasTable file.now }
    requires below { index < program_header_count file.now }
    ensures { Tells result (segment_fault file.now index) }
{
    let header = read_program_header(file, index);
    if header.is_dynamic() {
        return Err(LoadFault::NotStatic(header.kind));
    }
    if header.is_load() {
        return check_load(
            file.len() as u64,
            program_header_offset(file, index) as u64,
            index,
            &header,
        );
    }
    Ok(())
}

/// Checks each program header by itself.
#[tactic(auto, unfolding(crate::specs::Segments::segments_fault))]
pub fn check_segments(file: &[u8]) -> Result<(), LoadFault>
    requires { HasTable file.now }
    ensures { Tells result (segments_fault file.now) }
{
    for i in 0..count_program_headers(file) {
        check_segment(file, i)?;
    }
    Ok(())
}
