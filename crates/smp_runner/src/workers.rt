//! The workers of a run.
ghost use Rattle.std.specs.Prelude.{◌≡◌, ◌<◌, ◌+◌, ℕ, true, [], All, length, slice_index_or, IfOk, Option};
ghost use Rattle.crossbeam_queue.specs.Passes.{view};
ghost use Rattle.sm_types.specs.declared.shared_op.SharedOp.{SharedOp};
ghost use Rattle.shared_region.specs.Tickets.{IsAllowed};
ghost use Rattle.shared_table.specs.Seats.{table_name};
ghost use Rattle.core_unit.specs.View.{core_state};
ghost use Rattle.run_queue.specs.declared.origin.Origin.{Origin};
ghost use Rattle.run_queue.specs.declared.view.Role.TheVariants.{First, Numbered};
ghost use Rattle.run_queue.specs.Passes.{is_first_pass, given_in};
ghost use Rattle.run_queue.specs.Queues.{IsPassFor, role_of, origin_of, threads_held};
ghost use Rattle.smp_runner.specs.Contexts.{HasEnded, IsOf, IsSameHolder, contexts_in};
ghost use Rattle.smp_runner.specs.Workers.{IsUnused, AreNumbered};

use crate::worker::work;
use core_unit::Core;
use edge_io::Gate;
use kernel_contexts::Whole;
use run_queue::{ContextQueue, QueuePass};
use shared_region::Port;
use shared_table::{SeatPort, SharedTable};
use sm_types::{Config, Memory};
use std::alloc::Global;
use std::sync::Wait;
use std::thread;
use std::thread::Threads;

/// A worker with what it has of its own.
#[derive(Drop)]
pub struct Worker<P: Port> {
    pub pass: QueuePass<P>,
    pub core: Core<P>,
    pub port: P,
    pub done: Vec<Whole<P>>,
    /// It has ended without want of memory.
    pub ended: bool,
}

fn run_one<P: Port, R: Wait, G: Gate>(
    rt: &R,
    config: &Config,
    queue: &ContextQueue<P>,
    worker: &mut Worker<P>,
    gate: &G,
)
    requires goes { (p : P) (t : P.Ticket) (op : SharedOp) → IsAllowed (P.refuses p t) op }
    requires queue { IsPassFor queue.now.queue worker.old.pass.pass }
    requires unused { IsUnused config.now (P.name worker.old.port) (view worker.old.pass.pass)
        (core_state worker.old.core) worker.old.done.items }
    ensures queue { IsPassFor queue.now.queue worker.new.pass.pass }
    ensures same { IsSameHolder (view worker.old.pass.pass) (view worker.new.pass.pass) }
    ensures ended { worker.new.ended ≡ true
        → HasEnded (view worker.new.pass.pass) (contexts_in P.tells worker.new.done.items) }
{
    let Worker {
        pass,
        core,
        port,
        done,
        ended,
    } = worker;
    *ended = work(rt, config, queue, pass, core, port, done, gate).is_ok();
}

/// Lets each worker run in a thread of its own.
fn run_all<P: Port + Send, R: Threads + Wait + Sync, G: Gate + Sync>(
    rt: &R,
    config: &Config,
    queue: &ContextQueue<P>,
    workers: &mut [Worker<P>],
    gate: &G,
)
where
    P::Ticket: Send,
    requires goes { (p : P) (t : P.Ticket) (op : SharedOp) → IsAllowed (P.refuses p t) op }
    requires some { 0 < length workers.old }
    requires queue { All (λ w. IsPassFor queue.now.queue w.pass.pass) workers.old }
    requires unused { All (λ w. IsUnused config.now (P.name w.port) (view w.pass.pass) (core_state w.core)
        w.done.items) workers.old }
    ensures queue { (i : ℕ) (d : _) → i < length workers.old
        → IsPassFor queue.now.queue (slice_index_or workers.new i d).pass.pass }
    ensures same { (i : ℕ) (d : _) → i < length workers.old
        → IsSameHolder (view (slice_index_or workers.old i d).pass.pass)
        (view (slice_index_or workers.new i d).pass.pass) }
    ensures ended { (i : ℕ) (d : _) → i < length workers.old → (slice_index_or workers.new i d).ended ≡ true
        → HasEnded (view (slice_index_or workers.new i d).pass.pass)
        (contexts_in P.tells (slice_index_or workers.new i d).done.items) }
{
    let count = workers.len();
    thread::for_each_mut(
        rt,
        workers,
        count,
        &|_index: usize, worker: &mut Worker<P>|
            requires goes { (p : P) (t : P.Ticket) (op : SharedOp) → IsAllowed (P.refuses p t) op }
            requires queue { IsPassFor queue.now.queue worker.old.pass.pass }
            requires unused { IsUnused config.now (P.name worker.old.port) (view worker.old.pass.pass)
                (core_state worker.old.core) worker.old.done.items }
            ensures queue { IsPassFor queue.entry.now.queue worker.new.pass.pass }
            ensures same { IsSameHolder (view worker.old.pass.pass) (view worker.new.pass.pass) }
            ensures ended { worker.new.ended ≡ true
                → HasEnded (view worker.new.pass.pass) (contexts_in P.tells worker.new.done.items) }
        { run_one(rt, config, queue, worker, gate) },
    );
}

/// A worker for the core of that number, with a pass that is split off. `Memory` is want of memory.
fn make_worker<P: Port + Drop>(
    alloc: Global,
    number: u32,
    config: &Config,
    queue: &ContextQueue<P>,
    pass: &mut QueuePass<P>,
    port: P,
) -> Result<Worker<P>, Memory>
    requires queue { IsPassFor queue.now.queue pass.old.pass }
    requires first { is_first_pass (role_of pass.old.pass) ≡ true }
    requires of { IsOf (origin_of pass.old.pass) config.now (P.name port) }
    ensures queue { IsPassFor queue.now.queue pass.new.pass }
    ensures own { IfOk result (λ w. IsPassFor queue.now.queue w.pass.pass) }
    ensures unused { IfOk result (λ w. IsUnused config.now (P.name w.port) (view w.pass.pass)
        (core_state w.core) w.done.items) }
    ensures role { IfOk result (λ w. role_of w.pass.pass
        ≡ Numbered (length (given_in (role_of pass.old.pass)))) }
    ensures knows { IfOk result (λ w. origin_of w.pass.pass ≡ origin_of pass.old.pass) }
    ensures port { IfOk result (λ w. P.name w.port ≡ P.name port) }
    ensures first { is_first_pass (role_of pass.new.pass) ≡ true }
    ensures given { IfOk result (λ w. length (given_in (role_of pass.new.pass))
        ≡ length (given_in (role_of pass.old.pass)) + 1) }
    ensures origin { origin_of pass.new.pass ≡ origin_of pass.old.pass }
    ensures held { threads_held pass.new.pass ≡ threads_held pass.old.pass }
{
    let core = Core::new(alloc, number, config, &port)?;
    let own = queue.split_pass(pass)?;
    Ok(Worker {
        pass: own,
        core,
        port,
        done: Vec::new(alloc),
        ended: false,
    })
}

/// A worker for each core of the options, over a table. `Memory` is want of memory.
pub fn make_workers<'t>(
    alloc: Global,
    config: &Config,
    table: &'t SharedTable,
    queue: &ContextQueue<SeatPort<'t>>,
    pass: &mut QueuePass<SeatPort<'t>>,
) -> Result<Vec<Worker<SeatPort<'t>>>, Memory>
    requires queue { IsPassFor queue.now.queue pass.old.pass }
    requires first { role_of pass.old.pass ≡ First [] }
    requires of { IsOf (origin_of pass.old.pass) config.now (table_name table.now) }
    ensures queue { IfOk result (λ _. IsPassFor queue.now.queue pass.new.pass) }
    ensures first { IfOk result (λ _. is_first_pass (role_of pass.new.pass) ≡ true) }
    ensures given { IfOk result (λ _. length (given_in (role_of pass.new.pass)) ≡ config.now.cores) }
    ensures origin { IfOk result (λ _. origin_of pass.new.pass ≡ origin_of pass.old.pass) }
    ensures held { IfOk result (λ _. threads_held pass.new.pass ≡ threads_held pass.old.pass) }
    ensures count { IfOk result (λ ws. length ws.items ≡ config.now.cores) }
    ensures own { IfOk result (λ ws.
        All (λ w. IsPassFor queue.now.queue w.pass.pass) ws.items) }
    ensures unused { IfOk result (λ ws. All (λ w. IsUnused config.now (table_name w.port.table.now)
        (view w.pass.pass) (core_state w.core) w.done.items) ws.items) }
    ensures knows { IfOk result (λ ws. All (λ w. origin_of w.pass.pass ≡ origin_of pass.old.pass) ws.items) }
    ensures roles { IfOk result (λ ws. AreNumbered (λ w. role_of w.pass.pass) ws.items) }
{
    let mut workers = Vec::new(alloc);
    if workers.reserve(config.cores as usize).is_err() {
        return Err(Memory);
    }
    for number in 0..config.cores {
        let worker = make_worker(alloc, number, config, queue, pass, SeatPort::new(table))?;
        workers.push_reserved(worker);
    }
    Ok(workers)
}

/// Lets the workers run until all have ended.
pub fn run_workers<P: Port + Send, R: Threads + Wait + Sync, G: Gate + Sync>(
    rt: &R,
    config: &Config,
    queue: &ContextQueue<P>,
    mut workers: Vec<Worker<P>>,
    gate: &G,
) -> Vec<Worker<P>>
where
    P::Ticket: Send,
    requires goes { (p : P) (t : P.Ticket) (op : SharedOp) → IsAllowed (P.refuses p t) op }
    requires some { 0 < length workers.items }
    requires own { All (λ w. IsPassFor queue.now.queue w.pass.pass) workers.items }
    requires unused { All (λ w. IsUnused config.now (P.name w.port) (view w.pass.pass) (core_state w.core)
        w.done.items) workers.items }
    requires roles { AreNumbered (λ w. role_of w.pass.pass) workers.items }
    ensures count { length result.items ≡ length workers.items }
    ensures own { All (λ w. IsPassFor queue.now.queue w.pass.pass) result.items }
    ensures ended { All (λ w. w.ended ≡ true
        → HasEnded (view w.pass.pass) (contexts_in P.tells w.done.items)) result.items }
    ensures knows { (o : Option Origin) → All (λ w. origin_of w.pass.pass ≡ o) workers.items
        → All (λ w. origin_of w.pass.pass ≡ o) result.items }
    ensures roles { AreNumbered (λ w. role_of w.pass.pass) result.items }
{
    run_all(rt, config, queue, workers.as_mut_slice(), gate);
    workers
}
