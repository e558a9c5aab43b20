//! What is written of a world after the events of a plan.
ghost use Rattle.edge_io.specs.Sink.{Writes};
ghost use Rattle.report_text.specs.Ends.{ends_of};
ghost use Rattle.report_text.specs.Report.{report_text};
ghost use Rattle.sim_text.specs.Sim.{sim_text};

use crate::history::write_history;
use crate::skips::write_skips;
use edge_io::{PutFault, Sink};
use kernel_contexts::Finished;
use report_text::{Head, write_report};
use sm_types::Entry;
use world_core::Applied;

/// Writes the lines of the events that were not enabled, the report of the threads as they stand, and the
/// history. `Failed` where the sink fails; a part of the text from the front is then written.
pub fn write_sim<K: Sink>(
    lines: &[u64],
    answers: &[Applied],
    run: &Finished,
    head: &Head,
    history: &[Entry],
    out: &mut K,
) -> Result<(), PutFault>
    ensures { Writes (K.view out.old) (K.view out.new) result (sim_text lines.now answers.now
        (report_text head.now.config head.now.image (ends_of run.now.contexts.items) run.now.words)
        history.now) }
{
    write_skips(lines, answers, out)?;
    write_report(run, head, out)?;
    write_history(history, out)
}
