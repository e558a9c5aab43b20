//! What the workers leave.
ghost use Rattle.std.specs.Prelude.{◌≡◌, ◌≢◌, ◌<◌, ◌≤◌, ◌+◌, ◌*◌, ℕ, true, All, length, IfOk, OnOk};
ghost use Rattle.crossbeam_queue.specs.Passes.{view};
ghost use Rattle.sm_types.specs.declared.shared_op.SharedOp.{SharedOp};
ghost use Rattle.shared_region.specs.Tickets.{IsAllowed};
ghost use Rattle.kernel_contexts.specs.Context.{config_of, state_of};
ghost use Rattle.run_queue.specs.Ticketed.{ticketed};
ghost use Rattle.thread_lists.specs.Counts.{occurrences, once_below};
ghost use Rattle.run_queue.specs.Passes.{is_numbered, given_in, known_threads, AreAllBack};
ghost use Rattle.run_queue.specs.Queues.{IsPassFor, role_of, origin_of};
ghost use Rattle.run_queue.specs.Rule.{threads_in};
ghost use Rattle.smp_runner.specs.Contexts.{HasEnded, HasStopped, IsSameTicketed, contexts_in};
ghost use Rattle.smp_runner.specs.Gathered.{Gathered, HasJoined, IsNamed};
ghost use Rattle.smp_runner.specs.Workers.{AreNumbered};

use crate::workers::Worker;
use kernel_contexts::{Turn, Whole};
use run_queue::{ContextQueue, QueuePass};
use shared_region::Port;
use sm_types::Memory;
use std::sync::Wait;

/// Joins the pass of a worker that has ended, and adds the contexts that it has collected. `Memory` is want
/// of memory, of the worker or here.
fn gather_one<P: Port + Drop>(
    queue: &ContextQueue<P>,
    pass: &mut QueuePass<P>,
    worker: Worker<P>,
    all: &mut Vec<Whole<P>>,
) -> Result<(), Memory>
    requires queue { IsPassFor queue.now.queue pass.old.pass }
    requires own { IsPassFor queue.now.queue worker.pass.pass }
    requires split { is_numbered (role_of worker.pass.pass) ≡ true }
    requires gathered { Gathered (view pass.old.pass) (contexts_in P.tells all.old.items) }
    requires knows { origin_of worker.pass.pass ≡ origin_of pass.old.pass }
    requires ended { worker.ended ≡ true
        → HasEnded (view worker.pass.pass) (contexts_in P.tells worker.done.items) }
    ensures queue { IfOk result (λ _. IsPassFor queue.now.queue pass.new.pass) }
    ensures gathered { IfOk result (λ _. Gathered (view pass.new.pass) (contexts_in P.tells all.new.items)) }
    ensures joined { IfOk result (λ _.
        HasJoined (view pass.old.pass) (role_of worker.pass.pass) (view pass.new.pass)) }
{
    let Worker {
        pass: theirs,
        core: _,
        port: _,
        mut done,
        ended,
    } = worker;
    if !ended {
        return Err(Memory);
    }
    if all.append(&mut done).is_err() {
        return Err(Memory);
    }
    queue.join_pass(pass, theirs);
    Ok(())
}

/// Joins the passes of all workers, and adds the contexts that they have collected. `Memory` is want of
/// memory, of a worker or here.
pub fn gather<P: Port + Drop>(
    queue: &ContextQueue<P>,
    pass: &mut QueuePass<P>,
    mut workers: Vec<Worker<P>>,
    all: &mut Vec<Whole<P>>,
) -> Result<(), Memory>
    requires queue { IsPassFor queue.now.queue pass.old.pass }
    requires gathered { Gathered (view pass.old.pass) (contexts_in P.tells all.old.items) }
    requires given { length (given_in (role_of pass.old.pass)) ≡ length workers.items }
    requires own { All (λ w. IsPassFor queue.now.queue w.pass.pass) workers.items }
    requires ended { All (λ w. w.ended ≡ true
        → HasEnded (view w.pass.pass) (contexts_in P.tells w.done.items)) workers.items }
    requires knows { All (λ w. origin_of w.pass.pass ≡ origin_of pass.old.pass) workers.items }
    requires roles { AreNumbered (λ w. role_of w.pass.pass) workers.items }
    ensures queue { IfOk result (λ _. IsPassFor queue.now.queue pass.new.pass) }
    ensures gathered { IfOk result (λ _. Gathered (view pass.new.pass) (contexts_in P.tells all.new.items)) }
    ensures back { IfOk result (λ _. AreAllBack (given_in (role_of pass.new.pass))) }
    ensures origin { IfOk result (λ _. origin_of pass.new.pass ≡ origin_of pass.old.pass) }
{
    while let Some(worker) = workers.pop() {
        gather_one(queue, pass, worker, all)?;
    }
    Ok(())
}

/// Makes one turn.
fn advance<P: Port>(whole: &mut Whole<P>, port: &mut P) -> Turn
    requires goes { (p : P) (t : P.Ticket) (op : SharedOp) → IsAllowed (P.refuses p t) op }
    requires belongs { (P.tells whole.old.ticket).name ≡ P.name port.old }
    ensures name { P.name port.new ≡ P.name port.old }
    ensures same { IsSameTicketed (ticketed whole.old.context (P.tells whole.old.ticket))
        (ticketed whole.new.context (P.tells whole.new.ticket)) }
    ensures stopped { (s : _) → result ≡ Turn.Stopped s
        → HasStopped (ticketed whole.new.context (P.tells whole.new.ticket)) }
    ensures ends { result ≢ Turn.TraceEnds }
    ensures strays { result ≢ Turn.TraceDiffers }
    ensures bank { result ≢ Turn.NeedsBank }
    ensures config { config_of whole.new.context ≡ config_of whole.old.context }
    ensures made { result ≡ Turn.Ran
        → (state_of whole.new.context).turns ≡ (state_of whole.old.context).turns + 1 }
    ensures yielded { result ≡ Turn.Yielded
        → (state_of whole.new.context).turns ≡ (state_of whole.old.context).turns + 1 }
    ensures few { (state_of whole.new.context).turns ≤ 64 * (config_of whole.new.context).budget }
{
    let Whole { context, ticket } = whole;
    context.advance(port, ticket)
}

/// Makes turns up to the stop. It waits for nothing, and ends, since a thread has few turns. `Memory` is want
/// of memory.
fn run_to_stop<P: Port>(whole: &mut Whole<P>, port: &mut P) -> Result<(), Memory>
    requires goes { (p : P) (t : P.Ticket) (op : SharedOp) → IsAllowed (P.refuses p t) op }
    requires belongs { (P.tells whole.old.ticket).name ≡ P.name port.old }
    ensures name { P.name port.new ≡ P.name port.old }
    ensures same { IsSameTicketed (ticketed whole.old.context (P.tells whole.old.ticket))
        (ticketed whole.new.context (P.tells whole.new.ticket)) }
    ensures stopped { OnOk result (HasStopped (ticketed whole.new.context (P.tells whole.new.ticket))) }
{
    'turns: loop {
        match advance(whole, port) {
            Turn::Stopped(_) => return Ok(()),
            Turn::Memory => return Err(Memory),
            Turn::Ran | Turn::Yielded => {}
            Turn::NeedsBank | Turn::TraceEnds | Turn::TraceDiffers => unreachable!(),
        }
    }
}

/// Takes what the queue still has, with all passes back, and runs it to its stop: each thread is then there.
/// `Memory` is want of memory.
pub fn drain<P: Port, R: Wait>(
    rt: &R,
    queue: &ContextQueue<P>,
    pass: &mut QueuePass<P>,
    all: &mut Vec<Whole<P>>,
    port: &mut P,
) -> Result<(), Memory>
    requires goes { (p : P) (t : P.Ticket) (op : SharedOp) → IsAllowed (P.refuses p t) op }
    requires queue { IsPassFor queue.now.queue pass.old.pass }
    requires back { AreAllBack (given_in (role_of pass.old.pass)) }
    requires named { IsNamed (origin_of pass.old.pass) (P.name port.old) }
    requires gathered { Gathered (view pass.old.pass) (contexts_in P.tells all.old.items) }
    ensures gathered { OnOk result (Gathered (view pass.new.pass) (contexts_in P.tells all.new.items)) }
    ensures origin { origin_of pass.new.pass ≡ origin_of pass.old.pass }
    ensures once { OnOk result ((t : ℕ) → occurrences t (threads_in (contexts_in P.tells all.new.items))
        ≡ once_below t (known_threads (origin_of pass.old.pass))) }
{
    for _ in rt.forever() {
        if all.reserve(1).is_err() {
            return Err(Memory);
        }
        let Some(mut whole) = queue.fetch(rt, pass) else {
            return Ok(());
        };
        run_to_stop(&mut whole, port)?;
        all.push_reserved(whole);
    }
    unreachable!()
}
