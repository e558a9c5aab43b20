//! What a command answers, and how it is written.
ghost use Rattle.edge_io.specs.Sink.{Writes};
ghost use Rattle.smemu.specs.Views.{answer_text, run_text, simulation_text};

use crate::bench::{Summary, write_summary};
use crate::debug::Debugging;
use crate::excerpt::Excerpt;
use crate::lines::write_lines;
use code_listing::write_listing;
use command_lines::{write_help, write_lawful, write_version};
use edge_io::{PutFault, Sink};
use kernel_contexts::Finished;
use paged_memory::Image;
use report_text::{Head, write_report};
use sim_text::write_sim;
use sm_types::{Bytes, Entry};
use workload::write_source;
use world_core::Applied;

/// A run that has ended.
#[derive(Drop)]
pub struct RunReport {
    /// The threads, as they stopped, and the words that they share.
    pub run: Finished,
    /// What stands before the report's blocks.
    pub head: Head,
}

/// The events of a plan, made.
#[derive(Drop)]
pub struct Simulation {
    /// The lines of the plan that say the events, by their numbers from 1.
    pub lines: Vec<u64>,
    /// What each event answered.
    pub answers: Vec<Applied>,
    /// The threads, as they stand, and the words that they share.
    pub report: RunReport,
    /// All operations on these words, the oldest first.
    pub history: Vec<Entry>,
}

/// A text that a command answers.
#[derive(Drop)]
pub enum Text {
    /// The run of a program.
    Report(RunReport),
    /// The events of a plan.
    Simulation(Simulation),
    /// The image of the program whose code words are listed.
    Listing(Image),
    /// The bytes of the program file that a source is assembled to.
    Program(Vec<u8>),
    /// The block of a thread that was replayed, which stands in its report.
    Block(Excerpt),
    /// The bytes of the checkpoint of a thread.
    Checkpoint(Vec<u8>),
    /// How many marked calls of a thread returned, and how many did not, where none is at fault.
    Lawful { calls: u32, unreturned: u32 },
    /// Lines, without their line feeds.
    Lines(Vec<Bytes>),
    /// The source of the workload of that number.
    Source(u32),
    /// What a workload came to.
    Summary(Summary),
    Help,
    Version,
}

/// What a command answers.
#[derive(Drop)]
pub enum Answer {
    /// A text.
    Text(Text),
    /// What the commands of a script show of a thread, each of which is carried out when it is written.
    Session(Debugging),
}

/// Writes the report of a run.
#[tactic(auto, unfolding(crate::specs::Views::run_text))]
fn write_run<K: Sink>(out: &mut K, report: &RunReport) -> Result<(), PutFault>
    ensures { Writes (K.view out.old) (K.view out.new) result (run_text report.now) }
{
    write_report(&report.run, &report.head, out)
}

/// Writes the text of a plan's events.
#[tactic(auto, unfolding(crate::specs::Views::run_text, crate::specs::Views::simulation_text))]
fn write_simulation<K: Sink>(out: &mut K, it: &Simulation) -> Result<(), PutFault>
    ensures { Writes (K.view out.old) (K.view out.new) result (simulation_text it.now) }
{
    let lines = it.lines.as_slice();
    let answers = it.answers.as_slice();
    write_sim(
        lines,
        answers,
        &it.report.run,
        &it.report.head,
        it.history.as_slice(),
        out,
    )
}

/// Writes a text that is answered.
pub fn write_text<K: Sink>(out: &mut K, text: &Text) -> Result<(), PutFault>
    ensures { Writes (K.view out.old) (K.view out.new) result (answer_text text.now) }
{
    match text {
        Text::Report(report) => write_run(out, report),
        Text::Simulation(simulation) => write_simulation(out, simulation),
        Text::Listing(image) => write_listing(image.code(), out),
        Text::Program(bytes) => out.put(bytes.as_slice()),
        Text::Block(block) => out.put(block.bytes()),
        Text::Checkpoint(bytes) => out.put(bytes.as_slice()),
        Text::Lawful { calls, unreturned } => write_lawful(out, *calls, *unreturned),
        Text::Lines(lines) => write_lines(out, lines.as_slice()),
        Text::Source(number) => write_source(*number, out),
        Text::Summary(summary) => write_summary(out, summary),
        Text::Help => write_help(out),
        Text::Version => write_version(out),
    }
}
