//! The file of a thread's state, read from its first field to its last.
ghost use Rattle.std.specs.Prelude.{◌≡◌, IfOk, IfErr, None};
ghost use Rattle.std.specs.List.{concat};
ghost use Rattle.sm_types.specs.Options.{numbers_of};
ghost use Rattle.field_table.specs.Table.{IsFilled};
ghost use Rattle.report_reader.specs.Told.{report_said};
ghost use Rattle.ckpt_fields.specs.Rows.{checkpoint_table, checkpoint_fault};
ghost use Rattle.ckpt_fields.specs.Values.{fields_said, HasSizes};
ghost use Rattle.ckpt_fields.specs.Told.{IsFaultOf};

use crate::fault::CkptFault;
use crate::lists::{read_handlers, read_output, read_pages};
use crate::parts::{expect_first, read_progress, read_registers, read_system, read_vectors};
use crate::state::StateFields;
use field_table::Place;
use report_reader::Report;
use sm_types::FILE_LIMIT;
use std::alloc::Global;

/// Reads the file of a thread's state, for a report of its run. `TooLong` and `Field` come exactly where the
/// table says so; `Memory` is want of memory for the handlers or the pages.
pub fn read_fields<'a>(
    alloc: Global,
    bytes: &'a [u8],
    report: &Report,
) -> Result<StateFields<'a>, CkptFault>
    ensures fault { IfErr result (λ fault. IsFaultOf (report_said report.now) bytes.now fault) }
    ensures whole { IfOk result (λ fields. bytes.now
        ≡ concat (fields_said report.now.image (numbers_of report.now.config) fields)) }
    ensures filled { IfOk result (λ fields. IsFilled (checkpoint_table (report_said report.now))
        (fields_said report.now.image (numbers_of report.now.config) fields)) }
    ensures sizes { IfOk result (HasSizes (numbers_of report.now.config)) }
    ensures good { IfOk result (λ _. checkpoint_fault (report_said report.now) bytes.now ≡ None) }
{
    if bytes.len() > FILE_LIMIT as usize {
        return Err(CkptFault::TooLong);
    }
    let mut place = Place::of(bytes);
    expect_first(&mut place, report)?;
    let progress = read_progress(&mut place, report)?;
    let registers = read_registers(&mut place)?;
    let system = read_system(&mut place, report.config.kernel)?;
    let vectors = read_vectors(&mut place, &report.config, system.svcr)?;
    let handlers = read_handlers(alloc, &mut place)?;
    let output = read_output(&mut place)?;
    let pages = read_pages(alloc, &mut place)?;
    place.end()?;
    Ok(StateFields {
        progress,
        registers,
        system,
        vectors,
        handlers,
        output,
        pages,
    })
}
