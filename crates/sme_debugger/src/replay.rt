//! A thread on its recorded run, which is brought to any count.
ghost use Rattle.std.specs.Prelude.{◌≡◌, ◌≢◌, ◌≤◌, ◌<◌, ◌^◌, length, None, IfOk, IfErr, OnOk};
ghost use Rattle.std.specs.FinMap.{get};
ghost use Rattle.shared_region.specs.Ports.{ReplayEvents};
ghost use Rattle.kernel_contexts.specs.State.{start_state};
ghost use Rattle.kernel_contexts.specs.Loose.{loose_state};
ghost use Rattle.lone_runner.specs.Parting.{IsParting};
ghost use Rattle.lone_runner.specs.Resumed.{IsToResume};
ghost use Rattle.lone_runner.specs.Ticket.{whole_journal};
ghost use Rattle.lone_runner.specs.declared.fault.AloneFault.{AloneFault};
ghost use Rattle.kept_states.specs.Kept.{IsKept, kept_count};
ghost use Rattle.sme_debugger.specs.Recording.{Recording, recorded};
ghost use Rattle.sme_debugger.specs.Standing.{IsOnRun, AreOnRun, IsOfRun, IsShowing, IsKeeping};
ghost use Rattle.sme_debugger.specs.OneProof.{IsOnRun-prop, AreOnRun-prop, IsShowing-prop};

use crate::at_address::AtAddress;
use kept_states::KeptState;
use kernel_contexts::{Context, Loose};
use lone_runner::{AloneFault, JournalTicket, resume_to, resume_to_end};
use paged_memory::Image;
use sm_types::{Config, Event, Memory, Stop};
use std::alloc::Global;

/// A guest thread on its run over the events that answer what it asks, and states of the run that are kept: a
/// move begins at the last of them that is not past its end.
#[derive(Drop)]
pub struct Replay {
    alloc: Global,
    image: Image,
    config: Config,
    thread: u32,
    /// How many instructions are counted where the run ends.
    pub last: u32,
    /// The state at the start of the run.
    start: KeptState,
    /// Later ones, by ascending count.
    later: Vec<KeptState>,
    /// Somewhere on the run.
    pub loose: Loose,
    /// Why it stopped, where it is known to show a count.
    stop: Option<Stop>,
    /// All events of the run.
    ticket: JournalTicket,
    /// The count that the thread shows, where it is known to show one.
    shown: Option<u32>,
    /// The count of the first kept state past the one from which the thread goes on.
    until: u32,
    ghost number: { thread < config.threads },
    ghost few: { length (whole_journal ticket) < 2 ^ 32 },
    ghost ends: { (fault : AloneFault) → ¬ IsParting image config thread (whole_journal ticket) last fault },
    ghost start_on_run: { IsOnRun (recorded image config thread ticket last) start } by { IsOnRun-prop
        (recorded image config thread ticket last) start },
    ghost begins: { kept_count start ≡ 0 },
    ghost later_on_run: { AreOnRun (recorded image config thread ticket last) later.items } by { AreOnRun-prop
        (recorded image config thread ticket last) later.items },
    ghost of_run: { IsOfRun (recorded image config thread ticket last) loose ticket },
    ghost shows: { IsShowing (recorded image config thread ticket last) shown loose stop ticket } by { IsShowing-prop
        (recorded image config thread ticket last) shown loose stop ticket },
}

/// How many states of a run are kept at most.
const KEPT_STATES: u32 = 32;

/// How many instructions lie between two of them at least: fewer are executed in less time than a state is
/// kept.
const LEAST_DISTANCE: u32 = 65_536;

/// How many instructions lie between two states that are kept of a run of so many.
fn distance_over(count: u32) -> u32
    ensures { 1 ≤ result }
{
    (count / KEPT_STATES + 1).max(LEAST_DISTANCE)
}

/// The state of a thread before its first turn.
fn keep_start(
    alloc: Global,
    image: &Image,
    config: &Config,
    thread: u32,
) -> Result<KeptState, Memory>
    requires thread { thread < config.now.threads }
    requires private { get image.now.memory.perm 0x7F0000000 ≡ None }
    ensures { IfOk result (IsKept config.now thread 0 (start_state image.now config.now thread)) }
{
    let context = Context::start(alloc, image, config, thread)?;
    let found = KeptState::of_context(alloc, &context)?;
    match found {
        Some(kept) => Ok(kept),
        None => unreachable!(),
    }
}

/// The state that was kept last.
fn last_kept<'a>(start: &'a KeptState, later: &'a [KeptState]) -> &'a KeptState {
    if later.len() == 0 {
        start
    } else {
        &later[later.len() - 1]
    }
}

/// Keeps the state in which a thread stands, and tells whether it is kept.
fn keep_state(alloc: Global, start: &KeptState, later: &mut Vec<KeptState>, loose: &Loose) -> bool
    ensures { (r : Recording) (ticket : ReplayEvents) → IsKeeping r later.old.items loose.now ticket
        → IsKeeping r later.new.items loose.now ticket }
{
    let Ok(Some(kept)) = KeptState::of_loose(alloc, loose, last_kept(start, later)) else {
        return false;
    };
    later.push(kept).is_ok()
}

/// Takes a thread from the start of its run over the places at which states of it are kept, as long as they
/// can be; it then stands at the last of them. The run is to end when `count` instructions are counted. A fault
/// but `Memory` is the first by which it parts from that.
fn keep_on_the_way(
    alloc: Global,
    start: &KeptState,
    later: &mut Vec<KeptState>,
    loose: &mut Loose,
    ticket: &mut JournalTicket,
    count: u32,
) -> Result<(), AloneFault>
    requires { IsToResume loose.old ticket.old 0 }
    ensures keeps { (r : Recording) → IsKeeping r later.old.items loose.old ticket.old
        → OnOk result (IsKeeping r later.new.items loose.new ticket.new) }
    ensures goes { OnOk result (IsToResume loose.new ticket.new count) }
    ensures parts { (r : Recording) → IsKeeping r later.old.items loose.old ticket.old → IfErr result (λ fault.
        fault ≢ AloneFault.Memory → IsParting r.program r.config r.thread r.journal count fault) }
{
    let distance = u64::from(distance_over(count));
    let mut next = 0;
    'states: for _ in 1..KEPT_STATES {
        next += distance;
        if next >= u64::from(count) {
            break;
        }
        match resume_to(loose, ticket, next as u32)? {
            Some(stop) => {
                return Err(AloneFault::EndsEarly {
                    count: next as u32,
                    stop,
                });
            }
            None => {}
        }
        if !keep_state(alloc, start, later, loose) {
            break;
        }
    }
    Ok(())
}

impl Replay {
    ghost use Rattle.std.specs.Prelude.{true, false, Some};
    ghost use Rattle.lone_runner.specs.Parting.{EndsAt};
    ghost use Rattle.sme_debugger.specs.Recording.{Shows};
    ghost use Rattle.sme_debugger.specs.Replayed.{recording_in, IsOnTheWay, NoneFrom};

    /// A thread on its run, which is to end at `count` with all events of the journal used. Else the fault is
    /// the first by which the run parts from that; `Memory` is want of memory.
    pub fn new(
        alloc: Global,
        image: Image,
        config: Config,
        thread: u32,
        journal: Vec<Event>,
        count: u32,
    ) -> Result<Replay, AloneFault>
        requires thread { thread < config.threads }
        requires few { length journal.items < 2 ^ 32 }
        ensures recording { IfOk result (λ replay. recording_in replay ≡ record {
          program = image;
          config = config;
          thread = thread;
          journal = journal.items;
          last = count;
        }) }
        ensures ends { OnOk result (EndsAt image config thread journal.items count) }
        ensures parts { IfErr result (λ fault. fault ≢ AloneFault.Memory
            → IsParting image config thread journal.items count fault) }
    {
        let start = keep_start(alloc, &image, &config, thread)?;
        let mut loose = start.resume(alloc)?;
        let mut ticket = JournalTicket::new(thread, journal);
        let mut later = Vec::new(alloc);
        keep_on_the_way(alloc, &start, &mut later, &mut loose, &mut ticket, count)?;
        let stop = resume_to_end(&mut loose, &mut ticket, count)?;
        let mut replay = Replay {
            alloc,
            image,
            config,
            thread,
            last: count,
            start,
            later,
            loose,
            stop: Some(stop),
            ticket,
            shown: None,
            until: 0,
        };
        replay.begin_before(0)?;
        Ok(replay)
    }

    /// Brings the thread to where the run shows a count that it has. After `Memory` it may stand anywhere on
    /// the run.
    pub fn show(&mut self, count: u32) -> Result<(), Memory>
        requires { count ≤ self.old.last }
        ensures shown { OnOk result (Shows (recording_in self.old) count (loose_state self.new.loose)) }
        ensures place { OnOk result (self.new.shown ≡ Some count) }
        ensures same { recording_in self.new ≡ recording_in self.old }
    {
        if !self.is_on_the_way(count) {
            self.begin_before(count)?;
        }
        self.go_on(count)
    }

    /// Whether the thread shows the count, or an earlier one from which it goes on, past no kept state.
    fn is_on_the_way(&self, count: u32) -> bool
        ensures { result ≡ true → IsOnTheWay self.now count }
    {
        match self.shown {
            Some(shown) => {
                shown == count || (shown < count && count < self.until && self.stop.is_none())
            }
            None => false,
        }
    }

    /// Whether the thread is known to show the count.
    fn shows(&self, count: u32) -> bool
        ensures there { result ≡ true → self.now.shown ≡ Some count }
        ensures apart { result ≡ false → self.now.shown ≢ Some count }
    {
        match self.shown {
            Some(shown) => shown == count,
            None => false,
        }
    }

    /// The last kept state that is not past a count.
    fn kept_before(&self, count: u32) -> &KeptState
        ensures on_run { IsOnRun (recording_in self.now) result.now }
        ensures most { kept_count result.now ≤ count }
    {
        let mut number = self.later.len();
        while number > 0 {
            number -= 1;
            if self.later[number].count() <= count {
                return &self.later[number];
            }
        }
        &self.start
    }

    /// The count of the first kept state past one; the greatest number where there is none.
    fn kept_past(&self, count: u32) -> u32 {
        for kept in &self.later {
            if kept.count() > count {
                return kept.count();
            }
        }
        u32::MAX
    }

    /// Brings the thread to the last kept state that is not past a count.
    fn begin_before(&mut self, count: u32) -> Result<(), Memory>
        ensures way { OnOk result (IsOnTheWay self.new count) }
        ensures same { recording_in self.new ≡ recording_in self.old }
    {
        let kept = self.kept_before(count);
        let loose = kept.resume(self.alloc)?;
        let shown = kept.count();
        let events = kept.events() as usize;
        let until = self.kept_past(shown);
        self.ticket.set_answered(events);
        self.loose = loose;
        self.stop = None;
        self.shown = Some(shown);
        self.until = until;
        Ok(())
    }

    /// Brings the thread forwards to where the run shows a count.
    fn go_on(&mut self, count: u32) -> Result<(), Memory>
        requires way { IsOnTheWay self.old count }
        requires last { count ≤ self.old.last }
        ensures shown { OnOk result (Shows (recording_in self.old) count (loose_state self.new.loose)) }
        ensures place { OnOk result (self.new.shown ≡ Some count) }
        ensures same { recording_in self.new ≡ recording_in self.old }
    {
        if self.shows(count) {
            return Ok(());
        }
        self.shown = None;
        match resume_to(&mut self.loose, &mut self.ticket, count) {
            Ok(stop) => {
                self.stop = stop;
                self.shown = Some(count);
                Ok(())
            }
            Err(fault) => match fault {
                AloneFault::Memory => Err(Memory),
                _ => unreachable!(),
            },
        }
    }

    /// Takes the thread, which shows a count, over the instructions that can be executed with nothing else due,
    /// up to the next one at an address, and tells the count that it then shows.
    pub fn run_towards(&mut self, count: u32, address: u64) -> u32
        requires place { self.old.shown ≡ Some count }
        requires last { count ≤ self.old.last }
        ensures above { count ≤ result }
        ensures within { result ≤ self.old.last }
        ensures none { NoneFrom (recording_in self.old) count result address }
        ensures shown { Shows (recording_in self.old) result (loose_state self.new.loose) }
        ensures same { recording_in self.new ≡ recording_in self.old }
    {
        if self.stop.is_some() {
            return count;
        }
        let left = self.last - count;
        let made = self.loose.advance_several(&AtAddress { address }, left);
        let shown = count + made.count;
        self.shown = Some(shown);
        self.until = self.kept_past(shown);
        shown
    }
}
