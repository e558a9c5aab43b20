//! Cores.
ghost use Rattle.std.specs.Prelude.{◌≡◌, ◌+◌, ◌<◌, ◌≤◌, ℕ, [], vec_len, vec_capacity, length};
ghost use Rattle.std.specs.Prelude.{slice_get, Some, None, IfOk, IfErr, IfSome, OnOk, OnErr, true, false};
ghost use Rattle.shared_region.specs.Tickets.{GivesEvents};
ghost use Rattle.kernel_contexts.specs.SaveArea.{HasLengths};
ghost use Rattle.kernel_contexts.specs.Context.{config_of, thread_of};
ghost use Rattle.core_unit.specs.CoreState.{places};
ghost use Rattle.core_unit.specs.Owners.{IsTold, are_apart, freed_by, numbers_of, owns_among};
ghost use Rattle.core_unit.specs.Residents.{AreOn, AreOn-prop, HasRetired, HasSameLengths};
ghost use Rattle.core_unit.specs.Residents.{held_at, held_home};
ghost use Rattle.core_unit.specs.Run.{is_stop};

use crate::moves::{run_first, take_first};
use crate::resident::Resident;
use crate::run::{CoreRun, RunWhy};
use kernel_contexts::Whole;
use mem_access::Bank;
use shared_region::Port;
use sm_types::{Config, Memory};
use std::alloc::Global;

/// How many residents and stopped threads a core has at most.
pub const PLACES: usize = 8;

/// A core: a queue of residents, of which the first one makes turns, threads that have stopped, and a bank.
/// There are at most eight residents and stopped threads together. The bank has the vectors and ZA of its
/// owner, where it has one, which is a resident; those of all others are in their save areas.
#[derive(Drop)]
pub struct Core<P: Port> {
    number: u32,
    config: Config,
    residents: Vec<Resident<P>>,
    done: Vec<Whole<P>>,
    bank: Bank,
    ghost lengths: { HasLengths config bank },
    ghost few: { vec_len residents + vec_len done ≤ places },
    ghost room: { places ≤ vec_capacity residents },
    ghost done_room: { places ≤ vec_capacity done },
    ghost options: { (i : ℕ) (h : _) → slice_get (held_at bank residents.items) i ≡ Some h
        → h.guest.config ≡ config },
    ghost on: { AreOn bank residents.items } by { AreOn-prop bank residents.items },
    ghost apart: { are_apart (numbers_of (held_at bank residents.items)) ≡ true },
    ghost owner: { (n : ℕ) → bank.owner ≡ Some n
        → owns_among (Some n) (numbers_of (held_at bank residents.items)) ≡ true },
}

/// Whether a run ended by a stop.
fn is_stop(why: RunWhy) -> bool
    ensures { result ≡ is_stop why }
{
    match why {
        RunWhy::Stopped => true,
        _ => false,
    }
}

/// Takes the first resident out to those that have stopped.
fn retire<P: Port>(residents: &mut Vec<Resident<P>>, bank: &mut Bank, done: &mut Vec<Whole<P>>)
    requires some { 0 < vec_len residents.old }
    requires on { AreOn bank.old residents.old.items }
    requires told { IsTold bank.old.owner (held_at bank.old residents.old.items) }
    requires room { vec_len done.old < vec_capacity done.old }
    ensures retired { HasRetired (held_at bank.old residents.old.items) (held_home done.old.items)
        (held_at bank.new residents.new.items) (held_home done.new.items) }
    ensures on { AreOn bank.new residents.new.items }
    ensures owner { bank.new.owner
        ≡ freed_by (held_at bank.old residents.old.items) bank.old.owner }
    ensures lengths { HasSameLengths bank.old bank.new }
    ensures len { (vec_len residents.new + 1 ≡ vec_len residents.old)
        × (vec_len done.new ≡ vec_len done.old + 1) }
    ensures room { (vec_capacity residents.new ≡ vec_capacity residents.old)
        × (vec_capacity done.new ≡ vec_capacity done.old) }
{
    let whole = take_first(residents, bank);
    done.push_reserved(whole);
}

impl<P: Port> Core<P> {
    ghost use Rattle.core_unit.specs.CoreState.{empty_core, thread_count, with_first, with_last};
    ghost use Rattle.core_unit.specs.CoreState.{with_done, with_next, first_number, turned_over};
    ghost use Rattle.core_unit.specs.CoreState.{IsAbsent, BelongTo};
    ghost use Rattle.core_unit.specs.Owners.{OwnerWith};
    ghost use Rattle.core_unit.specs.Run.{RunsCore};
    ghost use Rattle.core_unit.specs.View.{core_state, held_by, bank_in, owner_of, contexts_in};

    /// A core without threads, for those of a port. `Memory` is want of memory.
    pub fn new(alloc: Global, number: u32, config: &Config, _port: &P) -> Result<Core<P>, Memory>
        ensures empty { IfOk result (λ c. core_state c ≡ empty_core number config.now) }
        ensures owner { IfOk result (λ c. owner_of c ≡ None) }
    {
        let bank = Bank::new(alloc, config.vl, config.svl)?;
        let mut residents = Vec::new(alloc);
        let mut done = Vec::new(alloc);
        if residents.reserve(PLACES).is_err() || done.reserve(PLACES).is_err() {
            return Err(Memory);
        }
        Ok(Core {
            number,
            config: *config,
            residents,
            done,
            bank,
        })
    }

    /// Puts a context last, of whose thread the core has none; it is handed back exactly where residents and
    /// stopped threads are eight.
    pub fn admit(&mut self, whole: Whole<P>) -> Result<(), Whole<P>>
        requires config { config_of whole.context ≡ (core_state self.old).config }
        requires absent { IsAbsent (thread_of whole.context) (core_state self.old) }
        ensures admitted { OnOk result (core_state self.new
            ≡ with_last (held_by whole) (core_state self.old)) }
        ensures room { OnOk result (thread_count (core_state self.old) < places) }
        ensures back { IfErr result (λ back. back ≡ whole) }
        ensures full { OnErr result (thread_count (core_state self.old) ≡ places) }
        ensures unchanged { OnErr result (core_state self.new ≡ core_state self.old) }
        ensures owner { owner_of self.new ≡ owner_of self.old }
    {
        if self.residents.len() + self.done.len() == PLACES {
            return Err(whole);
        }
        let Whole { context, ticket } = whole;
        self.residents.push_reserved(Resident { context, ticket });
        Ok(())
    }

    /// Lets the first resident make so many turns at most, until it yields or stops; one that has stopped is
    /// done with. `Idle` comes exactly where there is no resident, and leaves the port as it is. `TraceEnds`
    /// and `TraceDiffers` come only if, before that, the next turn asks an operation that the port refuses so,
    /// as port and ticket stand at the end; `Memory` comes only if memory may be wanting for the next turn of
    /// some context with the resident's plain state. If the resident began a turn that reads or writes
    /// vectors, it owns the bank after the run; else the owner is the one before. No clause says at which turn
    /// of the run the bank moves. One that stopped owns the bank no more.
    pub fn run(&mut self, port: &mut P, k: u32) -> CoreRun
        requires belong { BelongTo (λ t. (P.tells t).name) (P.name port.old) (core_state self.old) }
        ensures run { RunsCore (λ t. P.refuses port.new t)
            (λ thread events t u. GivesEvents P.gives P.name P.tells thread events port.old t port.new u) k
            (core_state self.old) (core_state self.new) result }
        ensures idle { result.why ≡ RunWhy.Idle → port.new ≡ port.old }
        ensures name { P.name port.new ≡ P.name port.old }
        ensures belong { BelongTo (λ t. (P.tells t).name) (P.name port.old) (core_state self.new) }
        ensures owner { OwnerWith k (core_state self.old).residents (core_state self.old) (owner_of self.old)
            (core_state self.new) (owner_of self.new) result }
    {
        if self.residents.is_empty() {
            return CoreRun {
                turns: 0,
                why: RunWhy::Idle,
            };
        }
        let run = run_first(&mut self.residents, &mut self.bank, port, k);
        if is_stop(run.why) {
            retire(&mut self.residents, &mut self.bank, &mut self.done);
        }
        run
    }

    /// Moves the first resident last, and leaves the bank and the save areas; `false` exactly where there are
    /// fewer than two.
    pub fn next(&mut self) -> bool
        ensures moved { result ≡ true → core_state self.new ≡ with_next (core_state self.old) }
        ensures contexts { result ≡ true → contexts_in self.new ≡ turned_over (contexts_in self.old) }
        ensures two { result ≡ true → 2 ≤ length (core_state self.old).residents }
        ensures few { result ≡ false → length (core_state self.old).residents < 2 }
        ensures unchanged { result ≡ false → self.new ≡ self.old }
        ensures bank { bank_in self.new ≡ bank_in self.old }
    {
        if self.residents.len() < 2 {
            return false;
        }
        let first = self.residents.remove(0);
        self.residents.push_reserved(first);
        true
    }

    /// Takes the first resident out, with its vectors and ZA at home, and it owns the bank no more; `None`
    /// exactly where there is none.
    pub fn evict(&mut self) -> Option<Whole<P>>
        ensures taken { IfSome result (λ w. core_state self.old
            ≡ with_first (held_by w) (core_state self.new)) }
        ensures config { IfSome result (λ w. config_of w.context ≡ (core_state self.old).config) }
        ensures none { result ≡ None → (core_state self.old).residents ≡ [] }
        ensures unchanged { result ≡ None → core_state self.new ≡ core_state self.old }
        ensures owner { owner_of self.new ≡ freed_by (core_state self.old).residents (owner_of self.old) }
    {
        if self.residents.is_empty() {
            return None;
        }
        Some(take_first(&mut self.residents, &mut self.bank))
    }

    /// Takes a thread out that has stopped; `None` exactly where there is none.
    pub fn take_done(&mut self) -> Option<Whole<P>>
        ensures taken { IfSome result (λ w. core_state self.old
            ≡ with_done (held_by w) (core_state self.new)) }
        ensures none { result ≡ None → (core_state self.old).done ≡ [] }
        ensures unchanged { result ≡ None → core_state self.new ≡ core_state self.old }
        ensures owner { owner_of self.new ≡ owner_of self.old }
    {
        self.done.pop()
    }

    /// How many residents there are.
    pub fn residents(&self) -> usize
        ensures { result ≡ length (core_state self.now).residents }
    {
        self.residents.len()
    }

    /// How many threads there are that have stopped.
    pub fn done(&self) -> usize
        ensures { result ≡ length (core_state self.now).done }
    {
        self.done.len()
    }

    /// The thread that owns the bank, if one does.
    pub fn bank_owner(&self) -> Option<u32>
        ensures { result ≡ owner_of self.now }
    {
        self.bank.owner()
    }

    /// The core's number.
    pub fn number(&self) -> u32
        ensures { result ≡ (core_state self.now).number }
    {
        self.number
    }

    /// The thread of the first resident; `None` exactly where there is none.
    pub fn first(&self) -> Option<u32>
        ensures { result ≡ first_number (core_state self.now).residents }
    {
        match self.residents.first() {
            Some(first) => Some(first.context.thread()),
            None => None,
        }
    }
}
