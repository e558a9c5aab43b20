//! From an object to its file.
ghost use Rattle.std.specs.Prelude.{IfOk};
ghost use Rattle.a64_encode.specs.Writable.{IsWritable};
ghost use Rattle.elf_loader.specs.Objects.{IsFileOf};

use elf_writer::write_file;
use sm_types::{Memory, Object};
use std::alloc::Global;

/// The bytes of an ELF64 executable with the object's parts, each a load of its own, and its mapping
/// symbols: a file that is loaded as the object's image. Out of memory is the only refusal.
pub fn write_elf(alloc: Global, object: &Object) -> Result<Vec<u8>, Memory>
    requires { IsWritable object.now }
    ensures { IfOk result (λ file. IsFileOf object.now file.items) }
{
    match write_file(alloc, object) {
        Ok(file) => Ok(file),
        Err(_) => Err(Memory),
    }
}
