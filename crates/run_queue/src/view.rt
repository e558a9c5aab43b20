//! What a pass knows, the rule of the queue, and the kinds of step. All of it is for proofs alone.
ghost use Rattle.std.specs.Prelude.{Option};
ghost use Rattle.run_queue.specs.declared.origin.Origin.{Origin as OriginValue};

use crate::origin::Origin;
use crossbeam_queue::protocol::{Join, Lesson, Outcome, Protocol, Split};
use kernel_contexts::Whole;
use shared_region::Port;
use std::collections::LinkedList;
use std::marker::{Brand, PhantomData};

/// Where a pass is that the first one split off.
pub enum Whereabouts {
    /// With its holder.
    Out,
    /// It was joined.
    Back,
}

/// Which pass it is.
pub enum Role {
    /// The first one, of a queue that has no contexts yet.
    Unopened,
    /// The first one: of each number that it gave, in order, where the pass of that number is.
    First(LinkedList<Whereabouts>),
    /// One that the first split off, with its number.
    Numbered(u32),
    /// One that was joined.
    Spent,
}

/// What a pass knows.
pub struct PassView {
    pub role: Role,
    /// That of all contexts of the queue, which every pass knows but a spent one.
    pub origin: Option<Origin>,
    /// The numbers of the threads that it holds.
    pub held: LinkedList<u32>,
}

/// The rule: each thread is in one place.
pub struct EachOnce;

impl<P: Port> Protocol<Whole<P>, PassView> for EachOnce {
    ghost use Rattle.std.specs.Prelude.{map};
    ghost use Rattle.run_queue.specs.Ticketed.{ticketed};
    ghost use Rattle.run_queue.specs.Passes.{unopened};
    ghost use Rattle.run_queue.specs.Rule.{IsEachOnce};

    ghost holds = { λ items views.
        IsEachOnce (map (λ x. ticketed x.context (P.tells x.ticket)) items) views };

    ghost first = { unopened };
}

/// A push: the pass no longer holds the thread.
pub struct OfferStep;

impl<P: Port> Outcome<Whole<P>, PassView> for OfferStep {
    ghost use Rattle.std.specs.Prelude.{◌≡◌};
    ghost use Rattle.kernel_contexts.specs.Context.{thread_of};
    ghost use Rattle.run_queue.specs.Passes.{after_offer};

    ghost then = { λ v x w. w ≡ after_offer v (thread_of x.context) };
}

// The queue is not full, since the pass holds a thread.
impl<P: Port> Lesson<Whole<P>, PassView> for OfferStep {
    ghost use Rattle.std.specs.Prelude.{length, ◌<◌};
    ghost use Rattle.run_queue.specs.Passes.{known_threads};

    ghost fact = { λ v items. length items < known_threads v.origin };
}

/// A pop: the pass holds a thread that it did not hold.
pub struct FetchStep;

impl<P: Port> Outcome<Whole<P>, PassView> for FetchStep {
    ghost use Rattle.run_queue.specs.Ticketed.{ticketed};
    ghost use Rattle.run_queue.specs.Passes.{HasFetched};

    ghost then = { λ v x w. HasFetched v (ticketed x.context (P.tells x.ticket)) w };
}

// What was in the queue at the moment of the pop, whether it found anything or not.
impl<P: Port> Lesson<Whole<P>, PassView> for FetchStep {
    ghost use Rattle.std.specs.Prelude.{map};
    ghost use Rattle.run_queue.specs.Ticketed.{ticketed};
    ghost use Rattle.run_queue.specs.Rule.{StoodWith};

    ghost fact = { λ v items. StoodWith (map (λ x. ticketed x.context (P.tells x.ticket)) items) v };
}

/// Names the origin of a queue's contexts. The call that makes the queue picks it.
pub trait Opening {
    ghost origin: { Option OriginValue };
}

impl Opening for Brand {
    ghost use Rattle.std.specs.Prelude.{None};

    ghost origin = { None };
}

/// The queue is opened: its first pass holds every thread.
pub struct OpenStep<N> {
    of: PhantomData<N>,
}

impl<N: Opening> Split<PassView> for OpenStep<N> {
    ghost use Rattle.run_queue.specs.Passes.{opened, spent};

    ghost left = { λ v. opened N.origin };

    ghost right = { λ v. spent };
}

/// A split: a pass with the next number, which holds nothing.
pub struct SplitStep;

impl Split<PassView> for SplitStep {
    ghost use Rattle.run_queue.specs.Passes.{after_split, split_off};

    ghost left = { after_split };

    ghost right = { split_off };
}

/// A join: the first pass takes another back, with the threads that it holds.
pub struct JoinStep;

impl Join<PassView> for JoinStep {
    ghost use Rattle.run_queue.specs.Passes.{after_join, spent};

    ghost both = { after_join };

    ghost spent = { spent };
}
