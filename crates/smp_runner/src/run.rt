//! A whole run.
ghost use Rattle.std.specs.Prelude.{◌≡◌, All, map, IfOk};
ghost use Rattle.std.specs.List.{range_with_len};
ghost use Rattle.kernel_contexts.specs.Context.{image_of, config_of, thread_of, journal_of};
ghost use Rattle.lone_runner.specs.LoneRun.{HaveRun};
ghost use Rattle.shared_table.specs.declared.view.SeatView.TheVariants.{Maker};
ghost use Rattle.shared_table.specs.Views.{new_book};
ghost use Rattle.shared_table.specs.Seats.{view_of, seat_name, table_name};
ghost use Rattle.smp_runner.specs.Books.{book_at};
ghost use Rattle.smp_runner.specs.Ended.{IsAtItsStop};

use crate::contexts::{in_order, start_all};
use crate::gather::{drain, gather};
use crate::workers::{make_workers, run_workers};
use edge_io::Gate;
use kernel_contexts::{Context, Finished, contexts_are_runs};
use paged_memory::Image;
use run_queue::ContextQueue;
use shared_table::{Seat, SeatPort, SharedTable};
use sm_types::{Config, Memory, Words};
use std::alloc::Global;
use std::sync::Wait;
use std::thread::Threads;

/// Runs all threads to their stops, over a table, and takes their seats back. `Memory` is want of memory.
fn run_over<R: Threads + Wait + Sync, G: Gate + Sync>(
    rt: &R,
    alloc: Global,
    image: &Image,
    config: &Config,
    table: &SharedTable,
    maker: &mut Seat,
    gate: &G,
) -> Result<Vec<Context>, Memory>
    requires name { seat_name maker.old ≡ table_name table.now }
    requires maker { view_of maker.old ≡ Maker new_book }
    ensures name { IfOk result (λ _. seat_name maker.new ≡ table_name table.now) }
    ensures maker { IfOk result (λ cs. view_of maker.new
        ≡ Maker (book_at (map (λ c. journal_of c) cs.items) 0 config.now.threads)) }
    ensures order { IfOk result (λ cs. map (λ c. thread_of c) cs.items
        ≡ range_with_len 0 config.now.threads) }
    ensures ended { IfOk result (λ cs. All (IsAtItsStop image.now config.now) cs.items) }
{
    contexts_are_runs();
    let mut port = SeatPort::new(table);
    let (queue, mut pass) = ContextQueue::new(alloc, image, config, &port)?;
    start_all(rt, alloc, image, config, table, maker, &queue, &mut pass)?;
    let workers = make_workers(alloc, config, table, &queue, &mut pass)?;
    let workers = run_workers(rt, config, &queue, workers, gate);
    let mut all = Vec::new(alloc);
    gather(&queue, &mut pass, workers, &mut all)?;
    drain(rt, &queue, &mut pass, &mut all, &mut port)?;
    in_order(alloc, image, config, table, maker, all)
}

/// Runs every thread of the options to its stop. The contexts are those of the threads 0, 1 and so on, in
/// order, each at the stop to which it comes alone over its own journal; the journals and the words are one
/// history. Which history it was depends on the order in which the workers came to the words. `Memory`, which
/// is want of memory, is the only other answer. The call may wait.
///
/// It makes a worker for each core of the options and lets each run in a thread of the system, as
/// `run_worker` does; after they have ended, the caller runs what is left in the queue. No clause says how
/// many threads of the system run at once, nor which of them runs a guest thread: tests show it.
pub fn run_cores<R: Threads + Wait + Sync, G: Gate + Sync>(
    rt: &R,
    alloc: Global,
    image: &Image,
    config: &Config,
    gate: &G,
) -> Result<Finished, Memory>
    ensures run { IfOk result (λ run. HaveRun image.now config.now run.contexts.items run.words) }
    ensures started { IfOk result (λ run. All (λ c. (image_of c ≡ image.now) × (config_of c ≡ config.now))
        run.contexts.items) }
{
    let (table, mut maker) = SharedTable::new(alloc)?;
    let contexts = run_over(rt, alloc, image, config, &table, &mut maker, gate)?;
    let mut words = Words {
        shared: [0; 512],
        pending: [0; 32],
    };
    table.close(maker, &mut words);
    Ok(Finished { contexts, words })
}
