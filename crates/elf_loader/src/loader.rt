//! From a file to its image.
ghost use Rattle.std.specs.Prelude.{◌≡◌, ◌≢◌, IfOk, IfErr};
ghost use Rattle.elf_loader.specs.Loading.{Loads, Refuses};

use crate::parts::image_of;
use crate::words::check_words;
use elf_headers::{E_ENTRY, LoadFault, read_headers, u64_at};
use elf_sections::read_code;
use paged_memory::Image;
use std::alloc::Global;

/// The image of a program file, or the fault of the first check that it fails; `Memory` where it is out
/// of memory.
pub fn load(alloc: Global, file: &[u8]) -> Result<Image, LoadFault>
    ensures loads { IfOk result (λ image. Loads file.now image) }
    ensures refuses { IfErr result (λ fault. fault ≢ LoadFault.Memory → Refuses file.now fault) }
{
    let loads = read_headers(alloc, file)?;
    let code = read_code(alloc, file, loads.as_slice())?;
    check_words(code.as_slice())?;
    image_of(
        alloc,
        file,
        loads.as_slice(),
        u64_at(file, E_ENTRY),
        code.as_slice(),
    )
}
