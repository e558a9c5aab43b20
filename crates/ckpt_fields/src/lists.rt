//! The fields of a file from the handlers on: lists, for which room is taken as they are read.
ghost use Rattle.std.specs.Prelude.{◌≡◌, ℕ, ◌+◌, ◌%◌, ◌≤◌, All, length, map, IfOk};
ghost use Rattle.field_table.specs.Table.{Table, End};
ghost use Rattle.field_table.specs.Reading.{left_of};
ghost use Rattle.ckpt_fields.specs.Rows as row;
ghost use Rattle.ckpt_fields.specs.Rows.{handlers_of, output_rows, pages_of};
ghost use Rattle.ckpt_fields.specs.Values.{handler_value, handler_values, handler_said, output_values};
ghost use Rattle.ckpt_fields.specs.Values.{page_value, page_values, page_said, IsNarrowHandler, IsNarrowPage};
ghost use Rattle.ckpt_fields.specs.Told.{Answers, AnswersOrLacks};

use crate::fault::CkptFault;
use crate::state::SignalHandler;
use field_table::{BadField, Place};
use paged_memory::{PageImage, PageList};
use sm_types::{OUTPUT_LIMIT, PAGE_LIMIT, PAGE_SIZE, SHARED_PAGE};
use std::alloc::Global;

/// The most signals that have handlers, and the highest of them.
const SIGNALS: u32 = 62;

/// Whether a signal is one of 1 to 62, above the last one.
fn is_signal_past(last: u32, signal: u32) -> bool
    ensures { result ≡ row.is_signal_past last signal }
{
    last < signal && signal <= SIGNALS
}

/// Reads a signal above the last one, and the address of its handler.
fn read_handler(place: &mut Place, last: u32) -> Result<SignalHandler, BadField>
    ensures read { (next : ℕ → Table) → Answers (row.handler_row last next)
        (λ h. handler_value (handler_said h)) (λ h. next h.signal) (left_of place.old) (left_of place.new)
        result }
    ensures narrow { IfOk result IsNarrowHandler }
{
    let signal = place.word();
    place.pass_word(signal, is_signal_past(last, signal))?;
    let address = place.doubleword();
    place.pass_doubleword(address, 0 < address)?;
    Ok(SignalHandler { signal, address })
}

/// Reads how many handlers there are, and each of them.
pub(crate) fn read_handlers(
    alloc: Global,
    place: &mut Place,
) -> Result<Vec<SignalHandler>, CkptFault>
    ensures read { (next : Table) → AnswersOrLacks (handlers_of next)
        (λ handlers. handler_values (map handler_said handlers.items)) (λ _. next) (left_of place.old)
        (left_of place.new) result }
    ensures narrow { IfOk result (λ handlers. All IsNarrowHandler handlers.items) }
    ensures few { IfOk result (λ handlers. length handlers.items ≤ 62) }
{
    let count = place.word();
    place.pass_word(count, count <= SIGNALS)?;
    let mut handlers = Vec::new(alloc);
    let mut last = 0;
    'handlers: for _k in 0..count {
        let handler = read_handler(place, last)?;
        last = handler.signal;
        handlers.push(handler)?;
    }
    Ok(handlers)
}

/// Reads how many bytes of output there are, and these bytes.
pub(crate) fn read_output<'a>(place: &mut Place<'a>) -> Result<&'a [u8], BadField>
    ensures read { (next : Table) → Answers (output_rows next) (λ output. output_values output.now)
        (λ _. next) (left_of place.old) (left_of place.new) result }
    ensures few { IfOk result (λ output. length output.now ≤ OUTPUT_LIMIT) }
{
    let size = place.word();
    place.pass_word(size, size <= OUTPUT_LIMIT)?;
    let output = place.pass_fields(1, size as usize)?;
    Ok(output)
}

/// Whether a page may stand at an address, which is the least or above it.
fn is_page_address(least: u64, address: u64) -> bool
    ensures { result ≡ row.is_page_address least address }
{
    least <= address && address % u64::from(PAGE_SIZE) == 0 && address != SHARED_PAGE
}

/// Reads a page, whose address is the least or above it.
fn read_page(alloc: Global, place: &mut Place, least: u64) -> Result<PageImage, CkptFault>
    ensures read { (next : ℕ → Table) → AnswersOrLacks (row.page_row least next)
        (λ p. page_value (page_said p)) (λ p. next (p.address + 1)) (left_of place.old) (left_of place.new)
        result }
    ensures aligned { IfOk result (λ p. p.address % PAGE_SIZE ≡ 0) }
    ensures narrow { IfOk result IsNarrowPage }
{
    let address = place.doubleword();
    place.pass_doubleword(address, is_page_address(least, address))?;
    let flags = place.byte();
    place.pass_byte(flags, flags < 8)?;
    let bytes = place.pass_fields(1, PAGE_SIZE as usize)?;
    let bytes = Vec::from_slice(alloc, bytes)?;
    Ok(PageImage {
        address,
        flags,
        bytes,
    })
}

/// Reads how many pages there are, and each of them.
pub(crate) fn read_pages(alloc: Global, place: &mut Place) -> Result<PageList, CkptFault>
    ensures read { AnswersOrLacks pages_of (λ pages. page_values (map page_said pages.items)) (λ _. End)
        (left_of place.old) (left_of place.new) result }
    ensures narrow { IfOk result (λ pages. All IsNarrowPage pages.items) }
    ensures few { IfOk result (λ pages. length pages.items ≤ PAGE_LIMIT) }
{
    let count = place.word();
    place.pass_word(count, count <= PAGE_LIMIT)?;
    let mut pages = Vec::new(alloc);
    let mut least = 0;
    'pages: for _k in 0..count {
        let page = read_page(alloc, place, least)?;
        least = page.address + 1;
        pages.push(page)?;
    }
    Ok(pages)
}
