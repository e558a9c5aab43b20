//! Symbol tables, and the checks on them.
ghost use Rattle.std.specs.Prelude.{◌≡◌, ◌+◌, ◌*◌, ◌/◌, ◌≤◌, ◌<◌, ◌-◌, ℕ, length, true, nat_lt, ◌&&◌};
ghost use Rattle.elf_sections.specs.Sections.{is_in_file, ends_inside, has_names, is_good_table, strings_of};
ghost use Rattle.elf_sections.specs.Sections.{section_count, HasSectionTable};

use crate::elf::SYMBOL_SIZE;
use crate::section::{SectionHeader, count_sections, read_section};
use elf_headers::{u8_at, u32_at};

/// Tells whether the section's bytes are in the file.
pub fn lies_in_file(file: &[u8], s: &SectionHeader) -> bool
    ensures value { result ≡ is_in_file file.now s.now }
    ensures inside { result ≡ true → 0 < s.now.size → s.now.offset + s.now.size ≤ length file.now }
{
    s.size == 0
        || match s.offset.checked_add(s.size) {
            Some(end) => end <= file.len() as u64,
            None => false,
        }
}

/// One past the last zero byte of a string table, or 0 where it has none: a name that begins below it ends
/// inside the table.
fn names_end(file: &[u8], strings: &SectionHeader) -> u64
    requires { is_in_file file.now strings.now ≡ true }
    ensures { (name : ℕ) → ends_inside file.now strings.now name ≡ nat_lt name result }
{
    let mut end = strings.size;
    while end > 0 && u8_at(file, (strings.offset + (end - 1)) as usize) != 0 {
        end -= 1;
    }
    end
}

/// Tells whether the names of all symbols end inside the string table.
fn names_end_inside(file: &[u8], s: &SectionHeader, strings: &SectionHeader) -> bool
    requires symbols { is_in_file file.now s.now ≡ true }
    requires strings { is_in_file file.now strings.now ≡ true }
    requires linked { strings.now ≡ strings_of file.now s.now }
    ensures { result ≡ has_names file.now s.now }
{
    let end = names_end(file, strings);
    for k in 0..s.size / SYMBOL_SIZE {
        let name = u32_at(file, (s.offset + SYMBOL_SIZE * k) as usize);
        if u64::from(name) >= end {
            return false;
        }
    }
    true
}

/// Tells whether the bytes of the string table are in the file, and all names end inside it.
fn has_good_strings(file: &[u8], s: &SectionHeader) -> bool
    requires table { HasSectionTable file.now }
    requires symbols { is_in_file file.now s.now ≡ true }
    requires linked { s.now.link < section_count file.now }
    ensures { result ≡ (is_in_file file.now (strings_of file.now s.now) && has_names file.now s.now) }
{
    let strings = read_section(file, s.link);
    lies_in_file(file, &strings) && names_end_inside(file, s, &strings)
}

/// Tells whether the symbol table passes its checks.
#[tactic(auto, unfolding(crate::specs::Sections::is_good_table))]
pub fn is_good_symbol_table(file: &[u8], s: &SectionHeader) -> bool
    requires table { HasSectionTable file.now }
    ensures { result ≡ is_good_table file.now s.now }
{
    s.entry_size == SYMBOL_SIZE
        && s.link < count_sections(file)
        && lies_in_file(file, s)
        && has_good_strings(file, s)
}
