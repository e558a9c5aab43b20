//! The fields of a file up to the vectors, read part by part. None takes memory.
ghost use Rattle.std.specs.Prelude.{◌≡◌, ℕ, ◌*◌, ◌<◌, ◌≤◌, [], ◌∷◌, length, slice_index, IfOk};
ghost use Rattle.byteorder.specs.Endian.{little_bytes};
ghost use Rattle.sm_types.specs.Options.{numbers_of};
ghost use Rattle.field_table.specs.Table.{Table};
ghost use Rattle.field_table.specs.Rows.{told, fields, rows};
ghost use Rattle.field_table.specs.Reading.{left_of};
ghost use Rattle.report_reader.specs.Told.{report_said};
ghost use Rattle.ckpt_fields.specs.Rows as row;
ghost use Rattle.ckpt_fields.specs.Rows.{counts, journals, first_rows, options_rows, thread_rows};
ghost use Rattle.ckpt_fields.specs.Rows.{anything, system_rows, vector_rows};
ghost use Rattle.ckpt_fields.specs.Values.{first_values, option_values, progress_said, system_said, vectors_said};
ghost use Rattle.ckpt_fields.specs.Values.{HasVectorSizes};
ghost use Rattle.ckpt_fields.specs.Told.{Answers};

use crate::state::{Progress, System, VectorBytes};
use field_table::{BadField, Place};
use report_reader::Report;
use sm_types::{Config, JOURNAL_LIMIT};

/// The bytes with which the file begins.
const TAG: [u8; 8] = *b"SMECKPT1";

/// Passes a number of 4 bytes, which is to be that one.
fn expect_word(place: &mut Place, number: u32) -> Result<(), BadField>
    ensures { (next : Table) → Answers (told number next) (λ _. little_bytes 4 number ∷ []) (λ _. next)
        (left_of place.old) (left_of place.new) result }
{
    let word = place.word();
    place.pass_word(word, word == number)
}

/// Passes VL and SVL in bits, the slice, the budget, the threads and the kernel's version, which are to be
/// those of the report.
fn expect_options(place: &mut Place, config: &Config) -> Result<(), BadField>
    ensures { (next : Table) → Answers (options_rows (numbers_of config.now) next)
        (λ _. option_values (numbers_of config.now)) (λ _. next) (left_of place.old) (left_of place.new)
        result }
{
    expect_word(place, config.vl.bits())?;
    expect_word(place, config.svl.bits())?;
    expect_word(place, config.slice)?;
    expect_word(place, config.budget)?;
    expect_word(place, config.threads)?;
    expect_word(place, config.kernel)
}

/// Passes the tag, the program's digest and the options, which are to be those of the report.
pub(crate) fn expect_first(place: &mut Place, report: &Report) -> Result<(), BadField>
    ensures { (next : Table) → Answers (first_rows report.now.image (numbers_of report.now.config) next)
        (λ _. first_values report.now.image (numbers_of report.now.config)) (λ _. next) (left_of place.old)
        (left_of place.new) result }
{
    place.expect(&TAG)?;
    place.expect(&report.image)?;
    expect_options(place, &report.config)
}

/// The count of a thread's block.
fn count_told(report: &Report, thread: u32) -> u32
    requires { thread < report.now.config.threads }
    ensures { result ≡ slice_index (counts (report_said report.now)) thread }
{
    report.blocks[thread as usize].count
}

/// How many events a thread's journal has.
fn events_told(report: &Report, thread: u32) -> usize
    requires { thread < report.now.config.threads }
    ensures { result ≡ slice_index (journals (report_said report.now)) thread }
{
    report.blocks[thread as usize].journal.len()
}

/// Whether a count is below that of the thread's block and below the budget.
fn is_count(there: u32, budget: u32, count: u32) -> bool
    ensures { result ≡ row.is_count there budget count }
{
    count < there && count < budget
}

/// Whether a thread may have used so many events of a journal.
fn are_events(there: usize, events: u32) -> bool
    ensures { result ≡ row.are_events there events }
{
    events as usize <= there && events <= JOURNAL_LIMIT
}

/// The most handlers in which a thread may be.
fn most_depth(kernel: u32) -> u32
    ensures { result ≡ row.most_depth kernel }
{
    if 1 < kernel { 64 } else { 1 }
}

/// Reads how far the thread has come.
pub(crate) fn read_progress(place: &mut Place, report: &Report) -> Result<Progress, BadField>
    ensures { (next : Table) → Answers (thread_rows (report_said report.now) next) progress_said (λ _. next)
        (left_of place.old) (left_of place.new) result }
{
    let thread = place.word();
    place.pass_word(thread, thread < report.config.threads)?;
    let count = place.word();
    let is_right = is_count(count_told(report, thread), report.config.budget, count);
    place.pass_word(count, is_right)?;
    let events = place.word();
    let is_right = are_events(events_told(report, thread), events);
    place.pass_word(events, is_right)?;
    let depth = place.word();
    place.pass_word(depth, depth <= most_depth(report.config.kernel))?;
    let turns = place.doubleword();
    place.pass_doubleword(turns, turns <= 64 * u64::from(report.config.budget))?;
    Ok(Progress {
        thread,
        count,
        events,
        depth,
        turns,
    })
}

/// Reads PC, SP and X0 to X30, of 8 bytes each.
pub(crate) fn read_registers<'a>(place: &mut Place<'a>) -> Result<&'a [u8], BadField>
    ensures read { (next : Table) → Answers (fields 33 8 next) (λ bytes. rows 33 8 bytes.now) (λ _. next)
        (left_of place.old) (left_of place.new) result }
    ensures size { IfOk result (λ bytes. length bytes.now ≡ 33 * 8) }
{
    place.pass_fields(33, 8)
}

/// Whether a value has no bits but those of the flags.
fn are_flags(nzcv: u64) -> bool
    ensures { result ≡ row.are_flags nzcv }
{
    nzcv % 0x1000_0000 == 0 && nzcv < 0x1_0000_0000
}

/// Whether a mask is one of signals alone, and in version 1 of the kernel of none.
fn is_mask(kernel: u32, mask: u64) -> bool
    ensures { result ≡ row.is_mask kernel mask }
{
    mask % 2 == 0 && mask < 0x8000_0000_0000_0000 && (1 < kernel || mask == 0)
}

/// Reads a number of 8 bytes, whatever it is.
fn read_any(place: &mut Place) -> Result<u64, BadField>
    ensures { (next : ℕ → Table) → Answers (anything next) (λ n. little_bytes 8 n ∷ []) next
        (left_of place.old) (left_of place.new) result }
{
    let number = place.doubleword();
    place.pass_doubleword(number, true)?;
    Ok(number)
}

/// Reads the system registers, and what the kernel keeps of the thread's signals.
pub(crate) fn read_system(place: &mut Place, kernel: u32) -> Result<System, BadField>
    ensures { (next : ℕ → Table) → Answers (system_rows kernel next) system_said (λ s. next s.svcr)
        (left_of place.old) (left_of place.new) result }
{
    let nzcv = place.doubleword();
    place.pass_doubleword(nzcv, are_flags(nzcv))?;
    let svcr = place.doubleword();
    place.pass_doubleword(svcr, svcr < 4)?;
    let tpidr = read_any(place)?;
    let tpidr2 = read_any(place)?;
    let held = read_any(place)?;
    let mask = place.doubleword();
    place.pass_doubleword(mask, is_mask(kernel, mask))?;
    let polled = place.doubleword();
    place.pass_doubleword(polled, polled < 2)?;
    Ok(System {
        nzcv,
        svcr,
        tpidr,
        tpidr2,
        held,
        mask,
        polled: polled == 1,
    })
}

/// L: the vector length in bytes, with that value of SVCR.
fn length_for(config: &Config, svcr: u64) -> usize
    ensures value { result ≡ row.length_for (numbers_of config.now) svcr }
    ensures small { result ≤ 256 }
{
    if svcr % 2 == 1 {
        config.svl.bytes()
    } else {
        config.vl.bytes()
    }
}

/// How many vectors ZA has, with that value of SVCR.
fn array_size(config: &Config, svcr: u64) -> usize
    ensures value { result ≡ row.array_size (numbers_of config.now) svcr }
    ensures small { result ≤ 256 }
{
    if 2 <= svcr { config.svl.bytes() } else { 0 }
}

/// Reads the vectors, the predicates, FFR and ZA.
pub(crate) fn read_vectors<'a>(
    place: &mut Place<'a>,
    config: &Config,
    svcr: u64,
) -> Result<VectorBytes<'a>, BadField>
    ensures read { (next : Table) → Answers (vector_rows (numbers_of config.now) svcr next)
        (vectors_said (numbers_of config.now) svcr) (λ _. next) (left_of place.old) (left_of place.new)
        result }
    ensures sizes { IfOk result (HasVectorSizes (numbers_of config.now) svcr) }
{
    let length = length_for(config, svcr);
    let z = place.pass_fields(32, length)?;
    let predicates = place.pass_fields(17, length / 8)?;
    let za = place.pass_fields(array_size(config, svcr), config.svl.bytes())?;
    Ok(VectorBytes { z, predicates, za })
}
