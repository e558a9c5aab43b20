//! The checks on each section.
ghost use Rattle.std.specs.Prelude.{◌≡◌, ◌≤◌, ◌<◌, length, None};
ghost use Rattle.std.specs.List.Sorted.{IsPermutation};
ghost use Rattle.elf_headers.specs.Below.{first_below};
ghost use Rattle.elf_headers.specs.Fault.{Tells};
ghost use Rattle.elf_headers.specs.Loads.{loads_of};
ghost use Rattle.elf_sections.specs.Sections.{section_count, section_fault, is_all_loaded, HasSectionTable};
ghost use Rattle.elf_sections.specs.LoadMap.{IsLoadMap};

use crate::load_map::LoadMap;
use crate::section::{
    SectionHeader, count_sections, read_section, repeats_before, section_header_offset,
};
use crate::symbols::is_good_symbol_table;
use elf_headers::LoadFault;

/// Tells whether each address of the section is in a load.
fn is_loaded(file: &[u8], load_map: &LoadMap, s: &SectionHeader) -> bool
    requires load_map { IsLoadMap load_map.now }
    requires same { IsPermutation (loads_of file.now) load_map.now.loads.items }
    ensures { result ≡ is_all_loaded file.now s.now }
{
    load_map.has_all(s.address, s.size)
}

/// Checks section number `i`.
#[tactic(auto, unfolding(crate::specs::Sections::section_fault))]
fn check_section(file: &[u8], load_map: &LoadMap, i: u32) -> Result<(), LoadFault>
    requires table { HasSectionTable file.now }
    requires number { i < section_count file.now }
    requires before { first_below (section_fault file.now) i ≡ None }
    requires load_map { IsLoadMap load_map.now }
    requires same { IsPermutation (loads_of file.now) load_map.now.loads.items }
    ensures { Tells result (section_fault file.now i) }
{
    if repeats_before(file, i) {
        return Ok(());
    }
    let s = read_section(file, i);
    if s.is_symbol_table() && !is_good_symbol_table(file, &s) {
        return Err(LoadFault::BadTable(section_header_offset(file, i)));
    }
    if s.is_code() && !is_loaded(file, load_map, &s) {
        return Err(LoadFault::BadTable(section_header_offset(file, i)));
    }
    Ok(())
}

/// Checks each section in order.
pub fn check_sections(file: &[u8], load_map: &LoadMap) -> Result<(), LoadFault>
    requires table { HasSectionTable file.now }
    requires load_map { IsLoadMap load_map.now }
    requires same { IsPermutation (loads_of file.now) load_map.now.loads.items }
    ensures { Tells result (first_below (section_fault file.now) (section_count file.now)) }
{
    for i in 0..count_sections(file) {
        check_section(file, load_map, i)?;
    }
    Ok(())
}
