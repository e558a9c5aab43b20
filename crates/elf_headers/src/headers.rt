//! The loads of a file, with all checks on its headers.
ghost use Rattle.std.specs.Prelude.{◌≡◌, ◌≢◌, ◌%◌, ◌<◌, ◌≤◌, length, ◌==◌, ◌&&◌, not, None, Some, IfOk};
ghost use Rattle.std.specs.Prelude.{IfErr};
ghost use Rattle.std.specs.List.{list_any};
ghost use Rattle.sm_types.specs.Checks.{fault_when};
ghost use Rattle.elf_headers.specs.Fault.{Tells};
ghost use Rattle.elf_headers.specs.Header.{program_header_count, HasTable};
ghost use Rattle.elf_headers.specs.Loads.{load_of, loads_of, has_executable, headers_fault, AreSound};

use crate::elf::E_ENTRY;
use crate::fault::LoadFault;
use crate::file_header::{check_kind, check_length, check_table};
use crate::little_endian::u64_at;
use crate::overlap::check_overlap;
use crate::pages::check_pages;
use crate::program_header::ProgramHeader;
use crate::segments::{check_segments, count_program_headers, read_program_header};
use crate::spans::sorted_spans;
use std::alloc::{AllocError, Global};

/// A program header, where it is a load.
fn read_load(file: &[u8], index: u16) -> Option<ProgramHeader>
    requires table { HasTable file.now }
    requires below { index < program_header_count file.now }
    ensures { result ≡ load_of file.now index }
{
    let header = read_program_header(file, index);
    if header.is_load() { Some(header) } else { None }
}

/// The loads, in the order of their program headers.
fn read_loads(alloc: Global, file: &[u8]) -> Result<Vec<ProgramHeader>, AllocError>
    requires { HasTable file.now }
    ensures { IfOk result (λ loads. loads.items ≡ loads_of file.now) }
{
    let mut loads = Vec::new(alloc);
    for i in 0..count_program_headers(file) {
        match read_load(file, i) {
            Some(load) => loads.push(load)?,
            None => {}
        }
    }
    Ok(loads)
}

/// Tells whether a load has the address, where it can be executed.
fn is_executable(loads: &[ProgramHeader], address: u64) -> bool
    ensures { result ≡ list_any (λ s. has_executable s address) loads.now }
{
    loads.iter().any(|s| s.has_executable(address))
}

/// Checks that the entry is the address of a word of an executable load.
fn check_entry(entry: u64, loads: &[ProgramHeader]) -> Result<(), LoadFault>
    ensures { Tells result (fault_when (not ((entry % 4 == 0) && list_any (λ s. has_executable s entry)
        loads.now)) (LoadFault.EntryOutside entry)) }
{
    if entry % 4 == 0 && is_executable(loads, entry) {
        Ok(())
    } else {
        Err(LoadFault::EntryOutside(entry))
    }
}

/// The loads of a program file, or the fault of the first check on its headers that fails; `Memory` where it
/// is out of memory.
#[tactic(auto, unfolding(crate::specs::Loads::headers_fault))]
pub fn read_headers(alloc: Global, file: &[u8]) -> Result<Vec<ProgramHeader>, LoadFault>
    ensures accepted { IfOk result (λ loads. headers_fault file.now ≡ None) }
    ensures loads { IfOk result (λ loads. loads.items ≡ loads_of file.now) }
    ensures sound { IfOk result (λ loads. AreSound file.now loads.items) }
    ensures header { IfOk result (λ loads. 64 ≤ length file.now) }
    ensures refused { IfErr result (λ fault. fault ≢ LoadFault.Memory → headers_fault file.now ≡ Some fault) }
{
    check_length(file)?;
    check_kind(file)?;
    check_table(file)?;
    check_segments(file)?;
    let loads = read_loads(alloc, file)?;
    let spans = sorted_spans(alloc, file)?;
    check_overlap(file, spans.as_slice())?;
    check_pages(spans.as_slice())?;
    check_entry(u64_at(file, E_ENTRY), loads.as_slice())?;
    Ok(loads)
}
