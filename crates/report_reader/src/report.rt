//! A report, read line by line.
ghost use Rattle.std.specs.Prelude.{◌≡◌, ◌≤◌, ◌<◌, ◌^◌, IfOk, map, length, vec_len, All, Ok};
ghost use Rattle.sm_types.specs.Options.{numbers_of};
ghost use Rattle.report_reader.specs.Header.{options_line};
ghost use Rattle.report_reader.specs.Report as spec;
ghost use Rattle.report_reader.specs.Block.{block};
ghost use Rattle.line_reader.specs.Reading.{each};
ghost use Rattle.report_reader.specs.Reading.{Reads, ReadsAs, line};
ghost use Rattle.line_reader.specs.Told.{left_of};
ghost use Rattle.report_reader.specs.Told.{block_said, words_said, report_said, Answers, StandsIn};
ghost use Rattle.report_reader.specs.declared.fault.ReportKind.TheVariants as part;

use crate::block::read_block;
use crate::events::setting_line;
use crate::fault::{ReportFault, ReportKind};
use crate::header::{image_line, options_line, version_line};
use crate::lines::{end, expect, take};
use crate::parts::{Report, ReportBlock};
use line_reader::{Lines, begins_with, is_word};
use sm_types::{Config, Version, Words};
use std::alloc::Global;

/// The most bytes that a report may have.
const LARGEST_FILE: usize = 1_073_741_824;

/// Reads so many blocks, the first of them of thread 0.
fn read_blocks(
    alloc: Global,
    lines: &mut Lines,
    version: Version,
    threads: u32,
) -> Result<Vec<ReportBlock>, ReportFault>
    ensures read { ReadsAs (λ blocks. map block_said blocks.items)
        (each (block version) threads 0 (left_of lines.old)) result (left_of lines.new) }
    ensures count { IfOk result (λ blocks. vec_len blocks ≡ threads) }
{
    let mut blocks = Vec::new(alloc);
    for thread in 0..threads {
        let block = read_block(alloc, lines, version, thread)?;
        blocks.push(block)?;
    }
    Ok(blocks)
}

/// Reads the lines of words of that name that come next, and puts their values into the words.
fn read_words(lines: &mut Lines, name: &[u8], words: &mut [u64])
    ensures { spec.word_lines name.now words.old (left_of lines.old) ≡ Ok (words.new, left_of lines.new) }
{
    let bound = words.len();
    while let Some(setting) = setting_line(name, bound, lines.line()) {
        words[setting.place] = setting.value;
        lines.pass();
    }
}

/// The part to which a line belongs where the report should end.
#[tactic(auto, unfolding(crate::specs::Report::part_at_end))]
fn part_at_end(line: &[u8]) -> ReportKind
    ensures { result ≡ spec.part_at_end line.now }
{
    if begins_with(b"w", line) || begins_with(b"pending", line) {
        ReportKind::Shared
    } else {
        ReportKind::End
    }
}

/// Reads the shared words and the end of the report.
#[tactic(auto, unfolding(crate::specs::Report::shared_words))]
fn read_shared_words(lines: &mut Lines) -> Result<Words, ReportFault>
    ensures { ReadsAs words_said (spec.shared_words (left_of lines.old)) result (left_of lines.new) }
{
    let is_shared = is_word(lines.line(), b"shared\n");
    expect(lines, ReportKind::Shared, is_shared)?;
    let mut shared = [0u64; 512];
    read_words(lines, b"w", &mut shared);
    let mut pending = [0u64; 32];
    read_words(lines, b"pending", &mut pending);
    let part = part_at_end(lines.line());
    let is_end = is_word(lines.line(), b"end\n");
    expect(lines, part, is_end)?;
    Ok(Words { shared, pending })
}

/// Reads the line of the options.
fn read_options(lines: &mut Lines, version: Version) -> Result<Config, ReportFault>
    ensures options { ReadsAs numbers_of (line part.Options (options_line version) (left_of lines.old)) result
        (left_of lines.new) }
    ensures cores { IfOk result (λ config. config.cores ≡ 1) }
{
    let config = options_line(version, lines.line());
    take(lines, ReportKind::Options, config)
}

/// Reads a report from its first line to its last.
#[tactic(auto, unfolding(crate::specs::Report::report_lines))]
fn read_lines(alloc: Global, lines: &mut Lines) -> Result<Report, ReportFault>
    ensures read { ReadsAs report_said (spec.report_lines (left_of lines.old)) result (left_of lines.new) }
    ensures cores { IfOk result (λ report. report.config.cores ≡ 1) }
{
    let version = version_line(lines.line());
    let version = take(lines, ReportKind::Header, version)?;
    let config = read_options(lines, version)?;
    let image = image_line(lines.line());
    let image = take(lines, ReportKind::Image, image)?;
    let blocks = read_blocks(alloc, lines, version, config.threads)?;
    let words = read_shared_words(lines)?;
    end(lines)?;
    Ok(Report {
        config,
        image,
        blocks,
        words,
    })
}

/// Reads a report back. `Line` is exactly the first line that is not in the format, counted from 1, with the
/// part to which it should belong; a file of more than 1,073,741,824 bytes is `TooLong` at line 0. `Memory`
/// is want of memory. Each block stands in the file.
#[tactic(auto, unfolding(crate::specs::Report::report_in))]
pub fn read_report(alloc: Global, bytes: &[u8]) -> Result<Report, ReportFault>
    ensures read { Answers (spec.report_in bytes.now) result }
    ensures cores { IfOk result (λ report. report.config.cores ≡ 1) }
    ensures places { IfOk result (λ report. All (StandsIn bytes.now) report.blocks.items) }
{
    if bytes.len() > LARGEST_FILE {
        return Err(ReportFault::Line {
            line: 0,
            kind: ReportKind::TooLong,
        });
    }
    let mut lines = Lines::of(bytes);
    read_lines(alloc, &mut lines)
}
