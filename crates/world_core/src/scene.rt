//! The events on a core of the world.
ghost use Rattle.std.specs.Prelude.{◌≡◌, ◌<◌, ℕ, List, Some, vec_len, vec_capacity, length, slice_get};
ghost use Rattle.sm_types.specs.declared.shared_words.Entry.{Entry};
ghost use Rattle.kernel_contexts.specs.Context.{thread_of};
ghost use Rattle.core_unit.specs.CoreState.{IsAbsent};
ghost use Rattle.kernel_contexts.specs.Guest.{Guest};
ghost use Rattle.core_unit.specs.View.{core_state};
ghost use Rattle.world_core.specs.Applies.{AppliesHere};
ghost use Rattle.world_core.specs.Parts.{HaveOptions, guests_of, scene_in};
ghost use Rattle.sm_types.specs.declared.world_event.WorldEvent.TheVariants as event;

use crate::event::{Applied, Why};
use core_unit::{Core, PLACES};
use kernel_contexts::Whole;
use shared_region::{PlainPort, plain_history_grows};

/// Lets the first resident of a core make so many turns, until it gives way or stops; where it has stopped,
/// it leaves the core.
pub fn run(
    core: &mut Core<PlainPort>,
    done: &mut Vec<Whole<PlainPort>>,
    port: &mut PlainPort,
    k: u32,
) -> Applied
    requires none { length (core_state core.old).done ≡ 0 }
    requires room { 0 < length (core_state core.old).residents → vec_len done.old < vec_capacity done.old }
    ensures applies { (n : ℕ) (queue : List Guest) → AppliesHere (event.Run n k)
        (scene_in core.old queue (guests_of done.old.items) port.old.history)
        (scene_in core.new queue (guests_of done.new.items) port.new.history) result }
    ensures none { length (core_state core.new).done ≡ 0 }
    ensures number { (core_state core.new).number ≡ (core_state core.old).number }
    ensures config { (core_state core.new).config ≡ (core_state core.old).config }
    ensures room { vec_capacity done.new ≡ vec_capacity done.old }
{
    if core.residents() == 0 {
        return Applied::NotEnabled(Why::NoResident);
    }
    plain_history_grows();
    let run = core.run(port, k);
    let _history = port.history();
    match core.take_done() {
        Some(stopped) => {
            done.push_reserved(stopped);
            Applied::Ran(run)
        }
        None => Applied::Ran(run),
    }
}

/// Moves the first resident of a core last.
pub fn next(core: &mut Core<PlainPort>) -> Applied
    ensures applies { (n : ℕ) (queue done : List Guest) (history : List Entry) → AppliesHere (event.Next n)
        (scene_in core.old queue done history) (scene_in core.new queue done history) result }
    ensures done { (core_state core.new).done ≡ (core_state core.old).done }
    ensures number { (core_state core.new).number ≡ (core_state core.old).number }
    ensures config { (core_state core.new).config ≡ (core_state core.old).config }
{
    if core.next() {
        return Applied::Done;
    }
    if core.residents() == 0 {
        return Applied::NotEnabled(Why::NoResident);
    }
    Applied::NotEnabled(Why::OneResident)
}

/// Moves the thread at the queue's front to the residents of a core.
pub fn fetch(core: &mut Core<PlainPort>, queue: &mut Vec<Whole<PlainPort>>) -> Applied
    requires none { length (core_state core.old).done ≡ 0 }
    requires options { HaveOptions (core_state core.old).config queue.old.items }
    requires absent { (w : _) → slice_get queue.old.items 0 ≡ Some w
        → IsAbsent (thread_of w.context) (core_state core.old) }
    ensures applies { (n : ℕ) (done : List Guest) (history : List Entry) → AppliesHere (event.Fetch n)
        (scene_in core.old (guests_of queue.old.items) done history)
        (scene_in core.new (guests_of queue.new.items) done history) result }
    ensures done { (core_state core.new).done ≡ (core_state core.old).done }
    ensures number { (core_state core.new).number ≡ (core_state core.old).number }
    ensures config { (core_state core.new).config ≡ (core_state core.old).config }
    ensures room { vec_capacity queue.new ≡ vec_capacity queue.old }
    ensures options { HaveOptions (core_state core.old).config queue.new.items }
{
    let residents = core.residents();
    if residents >= PLACES {
        return Applied::NotEnabled(Why::CoreFull(residents));
    }
    if queue.is_empty() {
        return Applied::NotEnabled(Why::QueueEmpty);
    }
    let front = queue.remove(0);
    match core.admit(front) {
        Ok(()) => Applied::Done,
        Err(_) => unreachable!(),
    }
}

/// Moves the first resident of a core to the queue's back.
pub fn offer(core: &mut Core<PlainPort>, queue: &mut Vec<Whole<PlainPort>>) -> Applied
    requires options { HaveOptions (core_state core.old).config queue.old.items }
    requires room { 0 < length (core_state core.old).residents → vec_len queue.old < vec_capacity queue.old }
    ensures applies { (n : ℕ) (done : List Guest) (history : List Entry) → AppliesHere (event.Offer n)
        (scene_in core.old (guests_of queue.old.items) done history)
        (scene_in core.new (guests_of queue.new.items) done history) result }
    ensures done { (core_state core.new).done ≡ (core_state core.old).done }
    ensures number { (core_state core.new).number ≡ (core_state core.old).number }
    ensures config { (core_state core.new).config ≡ (core_state core.old).config }
    ensures room { vec_capacity queue.new ≡ vec_capacity queue.old }
    ensures options { HaveOptions (core_state core.old).config queue.new.items }
{
    match core.evict() {
        Some(whole) => {
            queue.push_reserved(whole);
            Applied::Done
        }
        None => Applied::NotEnabled(Why::NoResident),
    }
}
