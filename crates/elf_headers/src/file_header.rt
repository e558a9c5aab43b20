//! The file's header, and the checks on it.
ghost use Rattle.std.specs.Prelude.{◌≡◌, ◌+◌, ◌*◌, ◌≤◌, length, OnOk};
ghost use Rattle.elf_headers.specs.Fault.{Tells};
ghost use Rattle.elf_headers.specs.Header.{is_elf, length_fault, kind_fault, table_fault, HasTable};

use crate::elf::{
    E_HEADER_SIZE, E_MACHINE, E_PHENTSIZE, E_PHNUM, E_PHOFF, E_TYPE, ELF_CLASS_AND_DATA, ELF_MAGIC,
    EM_AARCH64, ET_EXEC, EV_CURRENT, PN_XNUM, PROGRAM_HEADER_SIZE,
};
use crate::fault::LoadFault;
use crate::little_endian::{u8_at, u16_at, u32_at, u64_at};
use sm_types::FILE_LIMIT;

/// Checks the length of the file.
#[tactic(auto, unfolding(crate::specs::Header::length_fault))]
pub fn check_length(file: &[u8]) -> Result<(), LoadFault>
    ensures tells { Tells result (length_fault file.now) }
    ensures long { OnOk result (64 ≤ length file.now) }
{
    if file.len() > FILE_LIMIT as usize {
        return Err(LoadFault::TooLong);
    }
    if file.len() < E_HEADER_SIZE {
        return Err(LoadFault::Truncated(file.len() as u64));
    }
    Ok(())
}

/// Tells whether the file begins as a little-endian ELF64 file.
fn is_elf_file(file: &[u8]) -> bool
    requires { 64 ≤ length file.now }
    ensures { result ≡ is_elf file.now }
{
    u32_at(file, 0) == ELF_MAGIC
        && u16_at(file, 4) == ELF_CLASS_AND_DATA
        && u8_at(file, 6) == EV_CURRENT
}

/// Checks that the file is an executable of this machine.
#[tactic(auto, unfolding(crate::specs::Header::kind_fault))]
pub fn check_kind(file: &[u8]) -> Result<(), LoadFault>
    requires { 64 ≤ length file.now }
    ensures { Tells result (kind_fault file.now) }
{
    if !is_elf_file(file) {
        return Err(LoadFault::NotElf);
    }
    let machine = u16_at(file, E_MACHINE);
    if machine != EM_AARCH64 {
        return Err(LoadFault::NotThisMachine(machine));
    }
    let kind = u16_at(file, E_TYPE);
    if kind != ET_EXEC {
        return Err(LoadFault::NotStatic(u32::from(kind)));
    }
    Ok(())
}

/// Checks that the program headers have their size, and that their table is in the file.
#[tactic(auto, unfolding(crate::specs::Header::table_fault))]
pub fn check_table(file: &[u8]) -> Result<(), LoadFault>
    requires { 64 ≤ length file.now }
    ensures tells { Tells result (table_fault file.now) }
    ensures inside { OnOk result (HasTable file.now) }
{
    let offset = u64_at(file, E_PHOFF);
    let size = u16_at(file, E_PHENTSIZE);
    let count = u16_at(file, E_PHNUM);
    if size != PROGRAM_HEADER_SIZE || count == 0 || count == PN_XNUM {
        return Err(LoadFault::BadTable(offset));
    }
    match offset.checked_add(u64::from(PROGRAM_HEADER_SIZE) * u64::from(count)) {
        None => Err(LoadFault::BadTable(offset)),
        Some(end) => {
            if end > file.len() as u64 {
                return Err(LoadFault::Truncated(file.len() as u64));
            }
            Ok(())
        }
    }
}
