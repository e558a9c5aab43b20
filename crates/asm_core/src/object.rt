//! From a source to its object.
ghost use Rattle.std.specs.Prelude.{◌≡◌, ◌≢◌, Some, IfOk, IfErr};
ghost use Rattle.asm_core.specs.Faults.{asm_fault};
ghost use Rattle.asm_core.specs.Assembly.{Assembles};
ghost use Rattle.asm_core.specs.Mapped.{MapsCode};
ghost use Rattle.a64_encode.specs.Writable.{IsWritable};

use crate::fault::AsmFault;
use crate::first_pass::scan_source;
use crate::second_pass::emit;
use crate::start::start_of;
use crate::utf8::not_text;
use sm_types::Object;
use std::alloc::Global;

/// How many bytes a source may have.
const SOURCE_LIMIT: usize = 67_108_864;

/// The object of a source, or its first fault, or `Memory` where it is out of memory.
pub fn assemble(alloc: Global, source: &[u8]) -> Result<Object, AsmFault>
    ensures assembles { IfOk result (λ object. Assembles source.now object) }
    ensures sound { IfOk result IsWritable }
    ensures code { IfOk result (λ object. MapsCode source.now object) }
    ensures fault { IfErr result (λ fault. fault ≢ AsmFault.Memory → asm_fault source.now ≡ Some fault) }
{
    if source.len() > SOURCE_LIMIT {
        return Err(AsmFault::TooLong);
    }
    if let Some(offset) = not_text(source) {
        return Err(AsmFault::NotText(offset));
    }
    let first_pass = scan_source(alloc, source)?;
    let parts = emit(
        alloc,
        source,
        first_pass.kept.as_slice(),
        &first_pass.labels,
        first_pass.end.text_size,
    )?;
    match start_of(first_pass.end.text_size, &first_pass.labels) {
        Some(entry) => Ok(Object {
            text_bytes: parts.text_bytes,
            data_bytes: parts.data_bytes,
            symbols: parts.symbols,
            entry,
        }),
        None => Err(AsmFault::NoStart),
    }
}
