//! The file of an object.
ghost use Rattle.std.specs.Prelude.{◌≡◌, ◌≤◌, ◌++◌, suc, length, replicate, IfOk, OnOk};
ghost use Rattle.elf_writer.specs.Layout.{fields_bytes, IsSmall};
ghost use Rattle.elf_writer.specs.File.{symbol_fields, mapping_bytes, symbols_bytes, front_bytes, text_part};
ghost use Rattle.elf_writer.specs.File.{data_part, file_bytes, file_of};

use crate::layout::{Layout, TEXT_INDEX, TEXT_OFFSET, put_fields, put_headers};
use crate::mapping_symbols::{TextMapping, text_mappings};
use sm_types::{Content, Object};
use std::alloc::{AllocError, Global};

/// The names of symbols.
const STRINGS: &[u8] = b"\0$x\0$d\0";
/// The names of sections.
const SECTION_NAMES: &[u8] = b"\0.text\0.data\0.symtab\0.strtab\0.shstrtab\0";
/// How many zeros stand between the names of sections and the text.
const FRONT_ZEROS: usize = 3489;
/// The offset of `$x` in the names of symbols.
const CODE_NAME: u64 = 1;
/// The offset of `$d` in the names of symbols.
const DATA_NAME: u64 = 4;

/// Appends zeros.
fn put_zeros(out: &mut Vec<u8>, count: usize) -> Result<(), AllocError>
    requires { count ≤ 4096 }
    ensures { OnOk result (out.new.items ≡ out.old.items ++ replicate count 0) }
{
    let end = out.len() + count;
    out.resize(end, 0)?;
    Ok(())
}

/// Appends the symbol of a mapping symbol.
#[tactic(auto, unfolding(crate::specs::File::symbol_fields))]
fn put_mapping(out: &mut Vec<u8>, mapping: &TextMapping) -> Result<(), AllocError>
    ensures { OnOk result (out.new.items ≡ out.old.items ++ fields_bytes (symbol_fields mapping.now)) }
{
    let name = match mapping.content {
        Content::Code => CODE_NAME,
        Content::Data => DATA_NAME,
    };
    let fields = [
        (4, name), // st_name
        (1, 0), // st_info: STB_LOCAL, STT_NOTYPE
        (1, 0), // st_other
        (2, TEXT_INDEX), // st_shndx
        (8, mapping.address), // st_value
        (8, 0), // st_size
    ];
    put_fields(out, &fields)
}

/// Appends the symbols of mapping symbols.
fn put_mappings(out: &mut Vec<u8>, mappings: &[TextMapping]) -> Result<(), AllocError>
    ensures { OnOk result (out.new.items ≡ out.old.items ++ mapping_bytes mappings.now) }
{
    for mapping in mappings {
        put_mapping(out, mapping)?;
    }
    Ok(())
}

/// Appends the symbol table.
fn put_symbols(out: &mut Vec<u8>, mappings: &[TextMapping]) -> Result<(), AllocError>
    ensures { OnOk result (out.new.items ≡ out.old.items ++ symbols_bytes mappings.now) }
{
    put_zeros(out, 24)?;
    put_mappings(out, mappings)
}

/// Appends what stands before the text.
fn put_front(out: &mut Vec<u8>, layout: &Layout) -> Result<(), AllocError>
    requires { IsSmall layout.now }
    ensures { OnOk result (out.new.items ≡ out.old.items ++ front_bytes layout.now) }
{
    put_headers(out, layout)?;
    out.extend_from_slice(STRINGS)?;
    put_zeros(out, 1)?;
    out.extend_from_slice(SECTION_NAMES)?;
    put_zeros(out, FRONT_ZEROS)
}

/// Appends the text, and zeros up to the data.
fn put_text(out: &mut Vec<u8>, layout: &Layout, text: &[u8]) -> Result<(), AllocError>
    requires { IsSmall layout.now }
    ensures { OnOk result (out.new.items ≡ out.old.items ++ text_part layout.now text.now) }
{
    out.extend_from_slice(text)?;
    let zeros = layout.data_offset() - (TEXT_OFFSET + layout.text_size);
    put_zeros(out, zeros as usize)
}

/// Appends the data, and zeros up to the symbols.
fn put_data(out: &mut Vec<u8>, layout: &Layout, bytes: &[u8]) -> Result<(), AllocError>
    requires { IsSmall layout.now }
    ensures { OnOk result (out.new.items ≡ out.old.items ++ data_part layout.now bytes.now) }
{
    out.extend_from_slice(bytes)?;
    let zeros = layout.symbols_offset() - (layout.data_offset() + layout.data_size);
    put_zeros(out, zeros as usize)
}

/// Appends the whole file.
fn put_file(
    out: &mut Vec<u8>,
    layout: &Layout,
    object: &Object,
    mappings: &[TextMapping],
) -> Result<(), AllocError>
    requires { IsSmall layout.now }
    ensures { OnOk result (out.new.items ≡ out.old.items
        ++ file_bytes layout.now object.now.text_bytes.items object.now.data_bytes.items mappings.now) }
{
    put_front(out, layout)?;
    put_text(out, layout, object.text_bytes.as_slice())?;
    put_data(out, layout, object.data_bytes.as_slice())?;
    put_symbols(out, mappings)
}

/// The bytes of an ELF64 executable with the object's parts, each a load of its own, and its mapping symbols.
pub fn write_file(alloc: Global, object: &Object) -> Result<Vec<u8>, AllocError>
    requires text_size { length object.now.text_bytes.items ≤ 4194304 }
    requires data_size { length object.now.data_bytes.items ≤ 4194304 }
    ensures { IfOk result (λ file. file.items ≡ file_of object.now) }
{
    let mappings = text_mappings(alloc, object)?;
    let layout = Layout {
        entry: object.entry,
        text_size: object.text_bytes.len() as u64,
        data_size: object.data_bytes.len() as u64,
        symbol_count: mappings.len() as u64 + 1,
    };
    let size = layout.symbols_offset() + 24 * layout.symbol_count;
    let mut out = Vec::with_capacity(alloc, size as usize)?;
    put_file(&mut out, &layout, object, mappings.as_slice())?;
    Ok(out)
}
