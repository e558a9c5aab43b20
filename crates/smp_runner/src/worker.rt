//! One worker.
ghost use Rattle.std.specs.Prelude.{◌≡◌, ◌≢◌, ◌≤◌, true, false, [], List, vec_capacity, OnOk};
ghost use Rattle.crossbeam_queue.specs.Passes.{view};
ghost use Rattle.sm_types.specs.declared.shared_op.SharedOp.{SharedOp};
ghost use Rattle.shared_region.specs.Tickets.{IsAllowed};
ghost use Rattle.shared_table.specs.Seats.{table_name, ticket_of};
ghost use Rattle.core_unit.specs.CoreState.{BelongTo};
ghost use Rattle.core_unit.specs.View.{core_state};
ghost use Rattle.run_queue.specs.declared.view.PassView.{PassView};
ghost use Rattle.run_queue.specs.Ticketed.{Ticketed};
ghost use Rattle.run_queue.specs.Passes.{known_threads};
ghost use Rattle.run_queue.specs.Queues.{IsPassFor};
ghost use Rattle.smp_runner.specs.Contexts.{HoldsWith, HasEnded, IsOf, IsSameCore, IsSameHolder, contexts_in};
ghost use Rattle.smp_runner.specs.Workers.{IsUnused};

use core_unit::{Core, RunWhy};
use edge_io::Gate;
use kernel_contexts::Whole;
use run_queue::{ContextQueue, QueuePass};
use shared_region::Port;
use shared_table::SeatPort;
use sm_types::{Config, Memory};
use std::sync::Wait;
use std::thread;

/// Fetches once, if the core has no resident, or one while the queue has more threads than workers. No clause
/// says when it fetches, only that a core without a resident has found the queue empty. What comes is the
/// last resident.
fn fetch_once<P: Port, R: Wait>(
    rt: &R,
    config: &Config,
    queue: &ContextQueue<P>,
    pass: &mut QueuePass<P>,
    core: &mut Core<P>,
    port: &P,
    done: &Vec<Whole<P>>,
)
    requires queue { IsPassFor queue.now.queue pass.old.pass }
    requires of { IsOf (view pass.old.pass).origin config.now (P.name port.now) }
    requires options { (core_state core.old).config ≡ config.now }
    requires holds { HoldsWith P.tells (view pass.old.pass) (core_state core.old)
        (contexts_in P.tells done.now.items) }
    requires collected { (core_state core.old).done ≡ [] }
    ensures queue { IsPassFor queue.now.queue pass.new.pass }
    ensures same { IsSameHolder (view pass.old.pass) (view pass.new.pass) }
    ensures core { IsSameCore (core_state core.old) (core_state core.new) }
    ensures holds { HoldsWith P.tells (view pass.new.pass) (core_state core.new)
        (contexts_in P.tells done.now.items) }
    ensures collected { (core_state core.new).done ≡ [] }
    ensures empty { (core_state core.new).residents ≡ [] → pass.new.empty ≡ true }
{
    if core.residents() >= 2 {
        return;
    }
    if core.residents() == 1 && !queue.has_more_than_workers() {
        return;
    }
    let Some(whole) = queue.fetch(rt, pass) else {
        return;
    };
    match core.admit(whole) {
        Ok(()) => {}
        Err(_back) => unreachable!(),
    }
}

/// Moves the stopped contexts of the core to the others that are done, and tells the queue of each.
fn collect<P: Port>(
    queue: &ContextQueue<P>,
    pass: &QueuePass<P>,
    core: &mut Core<P>,
    done: &mut Vec<Whole<P>>,
)
    requires holds { HoldsWith P.tells (view pass.now.pass) (core_state core.old)
        (contexts_in P.tells done.old.items) }
    requires room { known_threads (view pass.now.pass).origin ≤ vec_capacity done.old }
    ensures holds { HoldsWith P.tells (view pass.now.pass) (core_state core.new)
        (contexts_in P.tells done.new.items) }
    ensures core { IsSameCore (core_state core.old) (core_state core.new) }
    ensures collected { (core_state core.new).done ≡ [] }
    ensures room { vec_capacity done.new ≡ vec_capacity done.old }
{
    while let Some(whole) = core.take_done() {
        done.push_reserved(whole);
        queue.tell_stop();
    }
}

/// Offers the first of two residents, so that each thread gets its turns.
fn give_way<P: Port, R: Wait>(
    rt: &R,
    queue: &ContextQueue<P>,
    pass: &mut QueuePass<P>,
    core: &mut Core<P>,
    done: &Vec<Whole<P>>,
)
    requires queue { IsPassFor queue.now.queue pass.old.pass }
    requires holds { HoldsWith P.tells (view pass.old.pass) (core_state core.old)
        (contexts_in P.tells done.now.items) }
    ensures queue { IsPassFor queue.now.queue pass.new.pass }
    ensures same { IsSameHolder (view pass.old.pass) (view pass.new.pass) }
    ensures core { IsSameCore (core_state core.old) (core_state core.new) }
    ensures done { (core_state core.new).done ≡ (core_state core.old).done }
    ensures holds { HoldsWith P.tells (view pass.new.pass) (core_state core.new)
        (contexts_in P.tells done.now.items) }
{
    if core.residents() < 2 {
        return;
    }
    if let Some(whole) = core.evict() {
        queue.offer(rt, pass, whole);
    }
}

/// Lets the first resident make so many turns at most.
fn run_slice<P: Port>(core: &mut Core<P>, port: &mut P, slice: u32) -> RunWhy
    requires goes { (p : P) (t : P.Ticket) (op : SharedOp) → IsAllowed (P.refuses p t) op }
    requires belong { BelongTo (λ t. (P.tells t).name) (P.name port.old) (core_state core.old) }
    ensures holds { (v : PassView) (done : List Ticketed) → HoldsWith P.tells v (core_state core.old) done
        → HoldsWith P.tells v (core_state core.new) done }
    ensures core { IsSameCore (core_state core.old) (core_state core.new) }
    ensures name { P.name port.new ≡ P.name port.old }
    ensures ends { result ≢ RunWhy.TraceEnds }
    ensures differs { result ≢ RunWhy.TraceDiffers }
{
    core.run(port, slice).why
}

/// Does what `run_worker` says, over any port that refuses an access for want of memory alone: it ends where
/// it has no resident, it found the queue empty, and no thread is expected there any more.
pub(crate) fn work<P: Port, R: Wait, G: Gate>(
    rt: &R,
    config: &Config,
    queue: &ContextQueue<P>,
    pass: &mut QueuePass<P>,
    core: &mut Core<P>,
    port: &mut P,
    done: &mut Vec<Whole<P>>,
    gate: &G,
) -> Result<(), Memory>
    requires goes { (p : P) (t : P.Ticket) (op : SharedOp) → IsAllowed (P.refuses p t) op }
    requires queue { IsPassFor queue.now.queue pass.old.pass }
    requires unused { IsUnused config.now (P.name port.old) (view pass.old.pass) (core_state core.old)
        done.old.items }
    ensures queue { IsPassFor queue.now.queue pass.new.pass }
    ensures same { IsSameHolder (view pass.old.pass) (view pass.new.pass) }
    ensures core { IsSameCore (core_state core.old) (core_state core.new) }
    ensures port { P.name port.new ≡ P.name port.old }
    ensures holds { HoldsWith P.tells (view pass.new.pass) (core_state core.new)
        (contexts_in P.tells done.new.items) }
    ensures residents { OnOk result ((core_state core.new).residents ≡ []) }
    ensures collected { OnOk result ((core_state core.new).done ≡ []) }
    ensures ended { OnOk result (HasEnded (view pass.new.pass) (contexts_in P.tells done.new.items)) }
    ensures empty { OnOk result (pass.new.empty ≡ true) }
{
    if done.reserve(config.threads as usize).is_err() {
        queue.tell_want();
        return Err(Memory);
    }
    queue.tell_worker();
    let mut turn = 0u64;
    for _ in rt.forever() {
        fetch_once(rt, config, queue, pass, core, port, done);
        let Some(thread) = core.first() else {
            if !queue.expects_offers() {
                return Ok(());
            }
            thread::yield_now();
            continue;
        };
        gate.pass(core.number(), turn, thread);
        turn = turn.saturating_add(1);
        match run_slice(core, port, config.slice) {
            RunWhy::Memory => {
                queue.tell_want();
                return Err(Memory);
            }
            RunWhy::TraceEnds | RunWhy::TraceDiffers => unreachable!(),
            RunWhy::Yielded => thread::yield_now(),
            _ => {}
        }
        collect(queue, pass, core, done);
        give_way(rt, queue, pass, core, done);
    }
    unreachable!()
}

/// Runs guest threads on a core, over one table of shared words: fetches their contexts from the queue, lets
/// them make turns, and offers them again, until each context that it has is stopped, it finds nothing in the
/// queue, and no thread of the queue is expected to be offered any more. It takes the room in `done` first.
///
/// The pass is one of this queue, and holds nothing; no fetch or offer was made with it. The core and `done`
/// are empty. All of them are for threads with these options and with seats of the port's table.
///
/// How a worker goes on is its body's choice, and no clause speaks of it. As it stands, a turn of the worker
/// is one fetch, if the core has no resident, or has one while there are more threads than workers that have
/// begun: else what it would fetch is left to a worker that has none. If it then has a resident, the turn
/// goes on with the gate's `pass` with the first one's thread, a run of `slice` turns at most, the moving of
/// stopped contexts to `done`, and, if two residents are left, an offer of the first one. If the run ended
/// because the thread yields, the worker yields its own processor, since that thread waits for others; it
/// does so too if it has no resident. The gate is told the number of turns that had a resident; it stays at
/// the last `u64`.
///
/// After `Ok` the core is empty, and `done` has exactly the threads that the pass holds, each stopped, from
/// the image and the options that the pass knows, and with a seat of the port's table; the last fetch found
/// nothing. After `Memory`, which is want of memory, each context whose thread the pass holds is in the core
/// or in `done`. The call may wait.
pub fn run_worker<'t, R: Wait, G: Gate>(
    rt: &R,
    config: &Config,
    queue: &ContextQueue<SeatPort<'t>>,
    pass: &mut QueuePass<SeatPort<'t>>,
    core: &mut Core<SeatPort<'t>>,
    port: &mut SeatPort<'t>,
    done: &mut Vec<Whole<SeatPort<'t>>>,
    gate: &G,
) -> Result<(), Memory>
    requires queue { IsPassFor queue.now.queue pass.old.pass }
    requires unused { IsUnused config.now (table_name port.old.table.now) (view pass.old.pass)
        (core_state core.old) done.old.items }
    requires empty { pass.old.empty ≡ false }
    ensures queue { IsPassFor queue.now.queue pass.new.pass }
    ensures same { IsSameHolder (view pass.old.pass) (view pass.new.pass) }
    ensures core { IsSameCore (core_state core.old) (core_state core.new) }
    ensures port { table_name port.new.table.now ≡ table_name port.old.table.now }
    ensures holds { HoldsWith ticket_of (view pass.new.pass) (core_state core.new)
        (contexts_in ticket_of done.new.items) }
    ensures residents { OnOk result ((core_state core.new).residents ≡ []) }
    ensures collected { OnOk result ((core_state core.new).done ≡ []) }
    ensures ended { OnOk result (HasEnded (view pass.new.pass) (contexts_in ticket_of done.new.items)) }
    ensures empty { OnOk result (pass.new.empty ≡ true) }
{
    work(rt, config, queue, pass, core, port, done, gate)
}
