//! How the queue and its passes are made and joined.
ghost use Rattle.std.specs.Prelude.{◌≡◌, true, false, Some, IfOk, OnOk, OnErr};
ghost use Rattle.crossbeam_queue.specs.Passes.{view, ruled_capacity, IsPassOf, IsSamePass};
ghost use Rattle.run_queue.specs.Ticketed.{origin_from};
ghost use Rattle.run_queue.specs.Passes.{unopened, opened, after_split, split_off, after_join};
ghost use Rattle.run_queue.specs.Passes.{is_first_pass, is_numbered};
ghost use Rattle.run_queue.specs.Queues.{IsPassFor, role_of};

use crate::queue::{ContextQueue, QueuePass};
use crate::view::{EachOnce, JoinStep, OpenStep, Opening, PassView, SplitStep};
use crossbeam_queue::{Pass, RuledArrayQueue};
use kernel_contexts::Whole;
use paged_memory::Image;
use shared_region::Port;
use sm_types::{Config, Memory};
use std::alloc::Global;
use std::marker::Brand;
use std::sync::atomic::AtomicU64;

/// The first pass of an empty queue holds every thread from here on.
fn open<P: Port, N: Opening>(
    queue: &RuledArrayQueue<Whole<P>, PassView, EachOnce>,
    pass: &mut Pass<Whole<P>, PassView>,
    image: &Image,
    config: &Config,
    port: &P,
)
    requires names { N.origin ≡ Some (origin_from image.now config.now (P.name port.now)) }
    requires queue { IsPassOf queue.now pass.old }
    requires unopened { view pass.old ≡ unopened }
    ensures queue { IsSamePass pass.old pass.new }
    ensures view { view pass.new ≡ opened (Some (origin_from image.now config.now (P.name port.now))) }
{
    let _spare = queue.another::<OpenStep<N>>(pass);
}

impl<P: Port> ContextQueue<P> {
    /// An empty queue with a place for each guest thread of the options, and its first pass. The pass knows
    /// the image, the options and the name of the port, and holds every thread, from 0 on; it has found
    /// nothing empty. `Memory` is want of memory.
    pub fn new(
        alloc: Global,
        image: &Image,
        config: &Config,
        port: &P,
    ) -> Result<(ContextQueue<P>, QueuePass<P>), Memory>
        ensures queue { IfOk result (λ r. IsPassFor r.0.queue r.1.pass) }
        ensures places { IfOk result (λ r. ruled_capacity r.0.queue ≡ config.now.threads) }
        ensures view { IfOk result (λ r.
            view r.1.pass ≡ opened (Some (origin_from image.now config.now (P.name port.now)))) }
        ensures empty { IfOk result (λ r. r.1.empty ≡ false) }
    {
        let Ok((queue, mut pass)) = RuledArrayQueue::ruled(alloc, config.threads as usize) else {
            return Err(Memory);
        };
        open::<P, Brand>(&queue, &mut pass, image, config, port);
        let going = AtomicU64::new(0);
        let workers = AtomicU64::new(0);
        Ok((
            ContextQueue {
                queue,
                going,
                workers,
            },
            QueuePass { pass, empty: false },
        ))
    }

    /// Splits off a pass with the next number, which holds nothing and has found nothing empty. The first
    /// pass alone splits, and tells which numbers it gave. `Memory`, which leaves it as it was, is want of
    /// memory.
    pub fn split_pass(&self, pass: &mut QueuePass<P>) -> Result<QueuePass<P>, Memory>
        requires queue { IsPassFor self.now.queue pass.old.pass }
        requires first { is_first_pass (role_of pass.old.pass) ≡ true }
        ensures queue { IsPassFor self.now.queue pass.new.pass }
        ensures of { IfOk result (λ p. IsPassFor self.now.queue p.pass) }
        ensures view { OnOk result (view pass.new.pass ≡ after_split (view pass.old.pass)) }
        ensures split { IfOk result (λ p. view p.pass ≡ split_off (view pass.old.pass)) }
        ensures refused { OnErr result (view pass.new.pass ≡ view pass.old.pass) }
        ensures empty { pass.new.empty ≡ pass.old.empty }
        ensures fresh { IfOk result (λ p. p.empty ≡ false) }
    {
        Ok(QueuePass {
            pass: self.queue.another::<SplitStep>(&mut pass.pass),
            empty: false,
        })
    }

    /// Takes back a pass that the first one split off, with the threads that it holds. The first pass keeps
    /// its number as one that came back.
    pub fn join_pass(&self, pass: &mut QueuePass<P>, other: QueuePass<P>)
        requires queue { IsPassFor self.now.queue pass.old.pass }
        requires other { IsPassFor self.now.queue other.pass }
        requires first { is_first_pass (role_of pass.old.pass) ≡ true }
        requires split { is_numbered (role_of other.pass) ≡ true }
        ensures queue { IsPassFor self.now.queue pass.new.pass }
        ensures view { view pass.new.pass ≡ after_join (view pass.old.pass) (view other.pass) }
        ensures empty { pass.new.empty ≡ pass.old.empty }
    {
        let QueuePass {
            pass: theirs,
            empty: _,
        } = other;
        self.queue.absorb::<JoinStep>(&mut pass.pass, theirs);
    }
}
