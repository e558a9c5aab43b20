//! The loads of a file as the parts of an image.
ghost use Rattle.std.specs.Prelude.{◌≡◌, ◌%◌, ◌+◌, ◌≤◌, ◌<◌, take, drop, length, map, IfOk, IfErr, All};
ghost use Rattle.paged_memory.specs.Image.{extent_of, IsMemoryOf};
ghost use Rattle.elf_headers.specs.Loads.{extent_of_load, IsSound, AreSound};

use elf_headers::{LoadFault, ProgramHeader};
use paged_memory::{Image, Part};
use std::alloc::Global;

/// The bytes of a load in the file; one of no bytes may have any offset.
fn bytes_of<'a>(file: &'a [u8], load: &ProgramHeader) -> &'a [u8]
    requires { IsSound (length file.now) load.now }
    ensures { result.now ≡ take load.now.file_size (drop load.now.offset file.now) }
{
    if load.file_size == 0 {
        return b"";
    }
    let start = load.offset as usize;
    &file[start..start + load.file_size as usize]
}

/// The part of a load.
#[tactic(auto, unfolding(elf_headers::specs::Loads::extent_of_load))]
fn part_of<'a>(file: &'a [u8], load: &ProgramHeader) -> Part<'a>
    requires { IsSound (length file.now) load.now }
    ensures { extent_of result ≡ extent_of_load file.now load.now }
{
    Part {
        address: load.address,
        size: load.memory_size,
        flags: (load.flags % 8) as u8,
        bytes: bytes_of(file, load),
    }
}

/// The parts of loads.
fn parts_of<'a>(
    alloc: Global,
    file: &'a [u8],
    loads: &[ProgramHeader],
) -> Result<Vec<Part<'a>>, LoadFault>
    requires { All (IsSound (length file.now)) loads.now }
    ensures ok { IfOk result (λ parts. map extent_of parts.items ≡ map (extent_of_load file.now) loads.now) }
    ensures err { IfErr result (λ fault. fault ≡ LoadFault.Memory) }
{
    let mut parts = Vec::with_capacity(alloc, loads.len())?;
    for load in loads {
        parts.push(part_of(file, load))?;
    }
    Ok(parts)
}

/// The image of loads.
pub fn image_of(
    alloc: Global,
    file: &[u8],
    loads: &[ProgramHeader],
    entry: u64,
    code: &[(u64, u32)],
) -> Result<Image, LoadFault>
    requires { AreSound file.now loads.now }
    ensures memory { IfOk result (λ image. IsMemoryOf (map (extent_of_load file.now) loads.now)
        image.memory) }
    ensures entry { IfOk result (λ image. image.entry ≡ entry) }
    ensures code { IfOk result (λ image. image.code ≡ code.now) }
    ensures err { IfErr result (λ fault. fault ≡ LoadFault.Memory) }
{
    let parts = parts_of(alloc, file, loads)?;
    let image = Image::new(alloc, parts.as_slice(), entry, code)?;
    Ok(image)
}
