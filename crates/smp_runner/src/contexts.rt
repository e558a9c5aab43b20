//! The contexts of all threads, from their start into the queue, and in order at the end.
ghost use Rattle.std.specs.Prelude.{◌≡◌, ℕ, [], All, map, IfOk, OnOk, Some};
ghost use Rattle.std.specs.List.{range_with_len};
ghost use Rattle.crossbeam_queue.specs.Passes.{view};
ghost use Rattle.kernel_contexts.specs.Context.{thread_of, journal_of};
ghost use Rattle.shared_table.specs.declared.view.SeatView.TheVariants.{Maker};
ghost use Rattle.shared_table.specs.Views.{new_book};
ghost use Rattle.shared_table.specs.Seats.{view_of, seat_name, table_name};
ghost use Rattle.run_queue.specs.Ticketed.{origin_from};
ghost use Rattle.thread_lists.specs.Counts.{occurrences, once_below};
ghost use Rattle.run_queue.specs.Passes.{opened};
ghost use Rattle.run_queue.specs.Queues.{IsPassFor, threads_held};
ghost use Rattle.smp_runner.specs.Books.{book_at, IsWithoutSplits};
ghost use Rattle.smp_runner.specs.Ended.{IsAtItsStop};

use kernel_contexts::{Context, Whole};
use paged_memory::Image;
use run_queue::{ContextQueue, QueuePass};
use shared_table::{Seat, SeatPort, SharedTable};
use sm_types::{Config, Memory};
use std::alloc::Global;
use std::sync::Wait;
use thread_lists::sort_by_number;

/// Puts a context with a seat for each thread into the queue, in order. `Memory` is want of memory.
pub fn start_all<'t, R: Wait>(
    rt: &R,
    alloc: Global,
    image: &Image,
    config: &Config,
    table: &'t SharedTable,
    maker: &mut Seat,
    queue: &ContextQueue<SeatPort<'t>>,
    pass: &mut QueuePass<SeatPort<'t>>,
) -> Result<(), Memory>
    requires name { seat_name maker.old ≡ table_name table.now }
    requires maker { view_of maker.old ≡ Maker new_book }
    requires queue { IsPassFor queue.now.queue pass.old.pass }
    requires pass { view pass.old.pass
        ≡ opened (Some (origin_from image.now config.now (table_name table.now))) }
    ensures name { seat_name maker.new ≡ seat_name maker.old }
    ensures maker { OnOk result (view_of maker.new
        ≡ Maker (book_at [] config.now.threads config.now.threads)) }
    ensures queue { OnOk result (IsPassFor queue.now.queue pass.new.pass) }
    ensures pass { OnOk result (IsWithoutSplits
        (origin_from image.now config.now (table_name table.now)) (view pass.new.pass)) }
    ensures held { OnOk result ((t : ℕ) → occurrences t (threads_held pass.new.pass) ≡ 0) }
{
    for thread in 0..config.threads {
        let context = Context::start(alloc, image, config, thread)?;
        let ticket = table.split(maker, thread);
        let whole = Whole { context, ticket };
        queue.tell_start();
        queue.offer(rt, pass, whole);
    }
    Ok(())
}

/// Takes all seats back, and gives the contexts in order of their threads. `Memory` is want of memory.
pub fn in_order<'t>(
    alloc: Global,
    image: &Image,
    config: &Config,
    table: &'t SharedTable,
    maker: &mut Seat,
    mut all: Vec<Whole<SeatPort<'t>>>,
) -> Result<Vec<Context>, Memory>
    requires name { seat_name maker.old ≡ table_name table.now }
    requires maker { view_of maker.old ≡ Maker (book_at [] config.now.threads config.now.threads) }
    requires once { (t : ℕ) → occurrences t (map (λ w. thread_of w.context) all.items)
        ≡ once_below t config.now.threads }
    requires named { All (λ w. seat_name w.ticket ≡ table_name table.now) all.items }
    requires ended { All (λ w. IsAtItsStop image.now config.now w.context) all.items }
    ensures name { seat_name maker.new ≡ seat_name maker.old }
    ensures maker { IfOk result (λ cs. view_of maker.new
        ≡ Maker (book_at (map (λ c. journal_of c) cs.items) 0 config.now.threads)) }
    ensures order { IfOk result (λ cs. map (λ c. thread_of c) cs.items
        ≡ range_with_len 0 config.now.threads) }
    ensures ended { IfOk result (λ cs. All (IsAtItsStop image.now config.now) cs.items) }
{
    sort_by_number(&mut all);
    let mut contexts = Vec::new(alloc);
    if contexts.reserve(all.len()).is_err() {
        return Err(Memory);
    }
    for whole in all {
        let Whole { context, ticket } = whole;
        table.join(maker, ticket);
        contexts.push_reserved(context);
    }
    Ok(contexts)
}
