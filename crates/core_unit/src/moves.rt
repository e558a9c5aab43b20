//! The bank of a core, which residents take from one another: the vectors and ZA of its owner are in it, and
//! those of all others in their save areas.
ghost use Rattle.std.specs.Prelude.{◌≡◌, ◌≢◌, ◌+◌, ◌<◌, ℕ, vec_len, vec_capacity, slice_get, length};
ghost use Rattle.std.specs.Prelude.{Some, None, ◌∷◌, IfSome};
ghost use Rattle.shared_region.specs.Tickets.{GivesEvents};
ghost use Rattle.kernel_contexts.specs.Context.{thread_of};
ghost use Rattle.core_unit.specs.CoreState.{first_number};
ghost use Rattle.core_unit.specs.Owners.{IsTold, freed_by};
ghost use Rattle.core_unit.specs.Residents.{AreOn, HasSameLengths, RunsHere, held_at};
ghost use Rattle.core_unit.specs.View.{held_by};

use crate::resident::Resident;
use crate::run::CoreRun;
use crate::turns::{TurnsEnd, make_turns};
use kernel_contexts::{Whole, is_owned};
use mem_access::Bank;
use shared_region::Port;

/// The place of the resident of that number; `None` where no resident has it.
fn place_of<P: Port>(residents: &Vec<Resident<P>>, thread: u32) -> Option<usize>
    ensures is { IfSome result (λ i. (r : _) → slice_get residents.now.items i ≡ Some r
        → thread_of r.context ≡ thread) }
    ensures within { IfSome result (λ i. i < length residents.now.items) }
    ensures none { result ≡ None → (i : ℕ) (r : _) → slice_get residents.now.items i ≡ Some r
        → thread_of r.context ≢ thread }
{
    let mut place = 0;
    'places: while place < residents.len() {
        if residents[place].context.thread() == thread {
            return Some(place);
        }
        place += 1;
    }
    None
}

/// Takes the bank from the resident whose thread owns it, if one does: its vectors and ZA go home.
fn free_bank<P: Port>(residents: &mut Vec<Resident<P>>, bank: &mut Bank)
    requires on { AreOn bank.old residents.old.items }
    requires told { IsTold bank.old.owner (held_at bank.old residents.old.items) }
    ensures held { held_at bank.new residents.new.items ≡ held_at bank.old residents.old.items }
    ensures on { AreOn bank.new residents.new.items }
    ensures owner { bank.new.owner ≡ None }
    ensures lengths { HasSameLengths bank.old bank.new }
    ensures len { vec_len residents.new ≡ vec_len residents.old }
    ensures room { vec_capacity residents.new ≡ vec_capacity residents.old }
{
    let Some(owner) = bank.owner() else {
        return;
    };
    match place_of(residents, owner) {
        Some(place) => residents[place].context.bank_out(bank),
        None => unreachable!(),
    }
}

/// Gives the bank to the first resident, whose thread does not own it.
fn take_bank<P: Port>(residents: &mut Vec<Resident<P>>, bank: &mut Bank)
    requires some { 0 < vec_len residents.old }
    requires on { AreOn bank.old residents.old.items }
    requires told { IsTold bank.old.owner (held_at bank.old residents.old.items) }
    ensures held { held_at bank.new residents.new.items ≡ held_at bank.old residents.old.items }
    ensures on { AreOn bank.new residents.new.items }
    ensures owner { bank.new.owner ≡ first_number (held_at bank.old residents.old.items) }
    ensures lengths { HasSameLengths bank.old bank.new }
    ensures len { vec_len residents.new ≡ vec_len residents.old }
    ensures room { vec_capacity residents.new ≡ vec_capacity residents.old }
{
    free_bank(residents, bank);
    residents[0].context.bank_in(bank);
}

/// Lets the first resident make so many turns at most; it takes the bank where a turn needs that.
pub fn run_first<P: Port>(
    residents: &mut Vec<Resident<P>>,
    bank: &mut Bank,
    port: &mut P,
    k: u32,
) -> CoreRun
    requires some { 0 < vec_len residents.old }
    requires on { AreOn bank.old residents.old.items }
    requires told { IsTold bank.old.owner (held_at bank.old residents.old.items) }
    requires belongs { (r : _) → slice_get residents.old.items 0 ≡ Some r
        → (P.tells r.ticket).name ≡ P.name port.old }
    ensures run { RunsHere (λ t. P.refuses port.new t)
        (λ thread events t u. GivesEvents P.gives P.name P.tells thread events port.old t port.new u) k
        (held_at bank.old residents.old.items) bank.old (held_at bank.new residents.new.items) bank.new
        result }
    ensures name { P.name port.new ≡ P.name port.old }
    ensures on { AreOn bank.new residents.new.items }
    ensures lengths { HasSameLengths bank.old bank.new }
    ensures len { vec_len residents.new ≡ vec_len residents.old }
    ensures room { vec_capacity residents.new ≡ vec_capacity residents.old }
{
    match make_turns(&mut residents[0], bank, port, k) {
        TurnsEnd::Ended(run) => run,
        TurnsEnd::NeedsBank(made) => {
            take_bank(residents, bank);
            match make_turns(&mut residents[0], bank, port, k - made) {
                TurnsEnd::Ended(run) => CoreRun {
                    turns: made + run.turns,
                    why: run.why,
                },
                TurnsEnd::NeedsBank(_) => unreachable!(),
            }
        }
    }
}

/// Takes the first resident out, with its vectors and ZA at home.
pub fn take_first<P: Port>(residents: &mut Vec<Resident<P>>, bank: &mut Bank) -> Whole<P>
    requires some { 0 < vec_len residents.old }
    requires on { AreOn bank.old residents.old.items }
    requires told { IsTold bank.old.owner (held_at bank.old residents.old.items) }
    ensures taken { held_at bank.old residents.old.items
        ≡ held_by result ∷ held_at bank.new residents.new.items }
    ensures on { AreOn bank.new residents.new.items }
    ensures owner { bank.new.owner
        ≡ freed_by (held_at bank.old residents.old.items) bank.old.owner }
    ensures lengths { HasSameLengths bank.old bank.new }
    ensures len { vec_len residents.new + 1 ≡ vec_len residents.old }
    ensures room { vec_capacity residents.new ≡ vec_capacity residents.old }
{
    let Resident {
        mut context,
        ticket,
    } = residents.remove(0);
    if is_owned(bank, context.thread()) {
        context.bank_out(bank);
        return Whole { context, ticket };
    }
    Whole { context, ticket }
}
