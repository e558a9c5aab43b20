//! The block of a guest thread, read line by line.
ghost use Rattle.std.specs.Prelude.{◌≡◌, ◌+◌, ◌/◌, ◌^◌, ◌<◌, ◌≤◌, Ok, IfOk, vec_len};
ghost use Rattle.report_reader.specs.Block as spec;
ghost use Rattle.report_reader.specs.Reading.{Reads, ReadsAs};
ghost use Rattle.line_reader.specs.Told.{left_of};
ghost use Rattle.report_reader.specs.Told.{block_said};

use crate::events::{event_line, is_thread, number_line, out_line};
use crate::fault::{ReportFault, ReportKind};
use crate::lines::{expect, pass_kind, take};
use crate::parts::ReportBlock;
use crate::stops::stop_line;
use line_reader::{Lines, begins_with, is_word};
use sm_types::{Event, Stop, Version};
use std::alloc::Global;
use text_lines::{LineKind, state_lines};

/// A thread's stop, and how far it came.
#[derive(Clone, Copy)]
pub struct Head {
    pub stop: Stop,
    pub count: u32,
}

/// Reads the thread, its stop and its count.
#[tactic(auto, unfolding(crate::specs::Block::head))]
fn read_head(lines: &mut Lines, thread: u32) -> Result<Head, ReportFault>
    ensures { Reads (spec.head thread (left_of lines.old)) result (left_of lines.new) }
{
    let is_thread = is_thread(thread, lines.line());
    expect(lines, ReportKind::Block, is_thread)?;
    let stop = stop_line(lines.line());
    let stop = take(lines, ReportKind::Block, stop)?;
    let count = number_line(b"count", lines.line());
    let count = take(lines, ReportKind::Block, count)?;
    Ok(Head { stop, count })
}

/// Passes the lines of a state.
fn pass_kinds(lines: &mut Lines, kinds: &[LineKind]) -> Result<(), ReportFault>
    ensures { Reads (spec.lines_of_kinds kinds.now (left_of lines.old)) result (left_of lines.new) }
{
    for kind in kinds {
        pass_kind(lines, *kind)?;
    }
    Ok(())
}

/// Passes the lines of so many bytes of output.
fn pass_out_lines(lines: &mut Lines, size: u32) -> Result<(), ReportFault>
    ensures { Reads (spec.out_lines ((size + 31) / 32) size (left_of lines.old)) result (left_of lines.new) }
{
    let mut left = size;
    while left > 0 {
        let part = left.min(32);
        let said = out_line(part, lines.line());
        take(lines, ReportKind::Block, said)?;
        left -= part;
    }
    Ok(())
}

/// Passes the lines of what the thread has written.
#[tactic(auto, unfolding(crate::specs::Block::output))]
fn pass_output(lines: &mut Lines) -> Result<(), ReportFault>
    ensures { Reads (spec.output (left_of lines.old)) result (left_of lines.new) }
{
    let size = number_line(b"output", lines.line());
    let size = take(lines, ReportKind::Block, size)?;
    pass_out_lines(lines, size)
}

/// Reads so many events; room for one is taken when its line has been read.
fn read_events(alloc: Global, lines: &mut Lines, count: u32) -> Result<Vec<Event>, ReportFault>
    ensures read { ReadsAs (λ events. events.items) (spec.events count (left_of lines.old)) result
        (left_of lines.new) }
    ensures few { IfOk result (λ events. vec_len events ≤ count) }
{
    let mut events = Vec::new(alloc);
    for _k in 0..count {
        let event = event_line(lines.line());
        let event = take(lines, ReportKind::Journal, event)?;
        events.push(event)?;
    }
    Ok(events)
}

/// The part to which a line belongs where the block should end.
#[tactic(auto, unfolding(crate::specs::Block::part_at_end))]
fn part_at_end(line: &[u8]) -> ReportKind
    ensures { result ≡ spec.part_at_end line.now }
{
    if begins_with(b"e", line) {
        ReportKind::Journal
    } else {
        ReportKind::Block
    }
}

/// Reads the journal and the end of the block.
#[tactic(auto, unfolding(crate::specs::Block::journal))]
fn read_journal(alloc: Global, lines: &mut Lines) -> Result<Vec<Event>, ReportFault>
    ensures read { ReadsAs (λ events. events.items) (spec.journal (left_of lines.old)) result
        (left_of lines.new) }
    ensures few { IfOk result (λ events. vec_len events < 2 ^ 32) }
{
    let count = number_line(b"journal", lines.line());
    let count = take(lines, ReportKind::Journal, count)?;
    let events = read_events(alloc, lines, count)?;
    let part = part_at_end(lines.line());
    let is_end = is_word(lines.line(), b"end-thread\n");
    expect(lines, part, is_end)?;
    Ok(events)
}

/// Reads the block of that thread, in a version of the report.
#[tactic(auto, unfolding(crate::specs::Block::block))]
pub fn read_block(
    alloc: Global,
    lines: &mut Lines,
    version: Version,
    thread: u32,
) -> Result<ReportBlock, ReportFault>
    ensures { ReadsAs block_said (spec.block version thread (left_of lines.old)) result
        (left_of lines.new) }
{
    let start = lines.place();
    let first_line = lines.number() + 1;
    let head = read_head(lines, thread)?;
    pass_kinds(lines, state_lines(version))?;
    pass_output(lines)?;
    let journal = read_journal(alloc, lines)?;
    Ok(ReportBlock {
        start,
        end: lines.place(),
        first_line,
        count: head.count,
        stop: head.stop,
        journal,
    })
}
