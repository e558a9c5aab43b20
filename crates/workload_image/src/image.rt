//! From the number of a source to its image.
ghost use Rattle.std.specs.Prelude.{◌≤◌, IfOk};
ghost use Rattle.a64_encode.specs.Writable.{IsWritable};
ghost use Rattle.asm_core.specs.Assembly.{Assembles};
ghost use Rattle.elf_loader.specs.Objects.{IsObjectImage};
ghost use Rattle.workload.specs.Source.{source_of};
ghost use Rattle.workload_image.specs.Image.{IsImageOf};

use asm_core::{AsmFault, assemble};
use elf_loader::{LoadFault, load, one_image, write_elf};
use paged_memory::Image;
use sm_types::{Memory, Object};
use std::alloc::Global;
use workload::source_text;
use workload_laws::sources_are_assembled;

/// The object of the source of a number. `Memory` where it is out of memory.
fn object_of(alloc: Global, number: u32) -> Result<Object, Memory>
    requires { number ≤ 20000 }
    ensures assembles { IfOk result (λ object. Assembles (source_of number) object) }
    ensures sound { IfOk result IsWritable }
{
    let text = source_text(alloc, number)?;
    sources_are_assembled();
    match assemble(alloc, text.as_slice()) {
        Ok(object) => Ok(object),
        Err(fault) => {
            prove!(fault == AsmFault::Memory);
            Err(Memory)
        }
    }
}

/// The image of an object, by its file. `Memory` where it is out of memory.
fn image_of(alloc: Global, object: &Object) -> Result<Image, Memory>
    requires { IsWritable object.now }
    ensures { IfOk result (λ image. IsObjectImage object.now image) }
{
    let file = write_elf(alloc, object)?;
    one_image();
    match load(alloc, file.as_slice()) {
        Ok(image) => Ok(image),
        Err(fault) => {
            prove!(fault == LoadFault::Memory);
            Err(Memory)
        }
    }
}

/// The image of the source of a number up to 20,000: that of its object, by the object's file. `Memory` where
/// it is out of memory; there is no other refusal.
pub fn load_source(alloc: Global, number: u32) -> Result<Image, Memory>
    requires { number ≤ 20000 }
    ensures { IfOk result (λ image. IsImageOf (source_of number) image) }
{
    let object = object_of(alloc, number)?;
    image_of(alloc, &object)
}
