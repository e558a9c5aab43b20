//! Instructions that are executed at once: those of registers alone, once the modes allow them, and loads and
//! stores of general registers, vectors and predicates that no check refuses. They neither raise nor ask, and
//! so a step looks at what they came to no further. Those of the system, such as MRS and SMSTART, and the
//! loads and stores of ZA are executed with the others, by `execute_on`.
ghost use Rattle.std.specs.Prelude.{ℕ, ◌≡◌, ◌≢◌, IsTrue, Some};
ghost use Rattle.a64_encode.specs.Either.{instruction_of};
ghost use Rattle.a64_table.specs.Ranges.{IsInRow};
ghost use Rattle.sve_table.specs.Ranges.{IsInVectorRow, IsVectorAccess};
ghost use Rattle.sve_vectors.specs.State.{length_of};
ghost use Rattle.sve_access.specs.After.{access_of};
ghost use Rattle.mem_access.specs.Transfer.{is_access, writes_of, HasRoom, HasRoomFor};
ghost use Rattle.machine_step.specs.Execution.{effect_of_insn};
ghost use Rattle.machine_step.specs.Machine.{AttemptsBy, AttemptsOn, HasRoomOn, KeepsMode, IsInMode};
ghost use Rattle.machine_step.specs.Machine.{IsSameBank};
ghost use Rattle.machine_step.specs.Owned.{AttemptOwns, writes_on};

use crate::machine::Machine;
use crate::vector::mode_fault;
use mem_access::{AccessStop, Bank, touched_is_shared, transfer};
use sm_types::{Insn, VectorAccess};
use sve_access::transfer_vector;
use sve_table::is_vector;

/// What comes of an attempt to execute an instruction at once.
#[derive(Clone, Copy)]
pub enum Attempt {
    /// It was executed.
    Done,
    /// It is none of those that are executed at once, or it may raise or ask; nothing has changed.
    Waits,
    /// There was no memory for a page that it writes; nothing has changed, but that more pages may be owned.
    Memory,
}

impl Machine {
    /// Executes the instruction of a word at once, where it is one of these.
    #[inline(always)]
    pub(crate) fn execute_at_once(&mut self, word: u32, insn: &Insn, bank: &mut Bank) -> Attempt
        requires means { instruction_of word ≡ Some insn.now }
        requires mode { IsInMode bank.old self.old }
        ensures effect { AttemptsOn (effect_of_insn word insn.now) self.old bank.old self.new bank.new
            result }
        ensures same { IsSameBank bank.old bank.new }
        ensures mode { IsInMode bank.new self.new }
        ensures room { HasRoomOn self.old bank.old insn.now → result ≢ Attempt.Memory }
        ensures owned { AttemptOwns (writes_on self.old bank.old insn.now) self.old.pages self.new.pages
            result }
    {
        if is_vector(insn) {
            self.vectors_at_once(insn, bank)
        } else {
            self.scalars_at_once(insn)
        }
    }

    /// The same as a call of its own, for the step that looks at what else may be due.
    #[inline(never)]
    pub(crate) fn attempt(&mut self, word: u32, insn: &Insn, bank: &mut Bank) -> Attempt
        requires means { instruction_of word ≡ Some insn.now }
        requires mode { IsInMode bank.old self.old }
        ensures effect { AttemptsOn (effect_of_insn word insn.now) self.old bank.old self.new bank.new
            result }
        ensures same { IsSameBank bank.old bank.new }
        ensures mode { IsInMode bank.new self.new }
        ensures room { HasRoomOn self.old bank.old insn.now → result ≢ Attempt.Memory }
        ensures owned { AttemptOwns (writes_on self.old bank.old insn.now) self.old.pages self.new.pages
            result }
    {
        self.execute_at_once(word, insn, bank)
    }

    /// The same of an instruction of the vectors or of ZA.
    #[inline(always)]
    #[tactic(auto, unfolding(sve_table::specs::Groups::is_vector_group))]
    fn vectors_at_once(&mut self, insn: &Insn, bank: &mut Bank) -> Attempt
        requires fields { IsInVectorRow insn.now }
        requires mode { IsInMode bank.old self.old }
        ensures effect { (word : ℕ) → AttemptsOn (effect_of_insn word insn.now) self.old bank.old self.new
            bank.new result }
        ensures same { IsSameBank bank.old bank.new }
        ensures mode { IsInMode bank.new self.new }
        ensures room { HasRoomOn self.old bank.old insn.now → result ≢ Attempt.Memory }
        ensures owned { AttemptOwns (writes_on self.old bank.old insn.now) self.old.pages self.new.pages
            result }
    {
        match mode_fault(insn, self.streaming, self.za_on) {
            Some(_) => Attempt::Waits,
            None => match insn {
                Insn::VectorAccess(x) => self.access_vectors_at_once(x, bank),
                Insn::Mode(_) | Insn::ArrayAccess(_) | Insn::TileAccess(_) => Attempt::Waits,
                Insn::TileMove(_)
                | Insn::TileAdd(_)
                | Insn::OuterProduct(_)
                | Insn::StreamingLength(_) => {
                    self.compute_matrix(insn, bank);
                    Attempt::Done
                }
                _ => {
                    self.compute_vector(insn, bank);
                    Attempt::Done
                }
            },
        }
    }

    /// The same of an instruction of the scalar registers, of the system or of memory.
    #[inline(always)]
    fn scalars_at_once(&mut self, insn: &Insn) -> Attempt
        requires { IsInRow insn.now }
        ensures effect { (word : ℕ) → AttemptsBy (effect_of_insn word insn.now) self.old self.new result }
        ensures room { HasRoomFor insn.now self.old.scalars self.old.pages → result ≢ Attempt.Memory }
        ensures mode { KeepsMode self.old self.new }
        ensures owned { AttemptOwns (writes_of insn.now self.old.scalars self.old.pages.memory)
            self.old.pages self.new.pages result }
    {
        match insn {
            Insn::System(_) | Insn::SystemMove(_) => Attempt::Waits,
            Insn::LoadStore(_) | Insn::LoadLiteral(_) | Insn::LoadStorePair(_) | Insn::Atomic(_) =>
                self.access_at_once(insn),
            _ => {
                self.execute_scalar(insn);
                Attempt::Done
            }
        }
    }

    /// Makes the access of a load, a store or an atomic instruction at once. Where a check of private memory
    /// refuses it, it waits: it may be one to a shared word.
    #[inline(always)]
    pub(crate) fn access_at_once(&mut self, insn: &Insn) -> Attempt
        requires access { IsTrue (is_access insn.now) }
        requires fields { IsInRow insn.now }
        ensures effect { (word : ℕ) → AttemptsBy (effect_of_insn word insn.now) self.old self.new result }
        ensures room { HasRoomFor insn.now self.old.scalars self.old.pages → result ≢ Attempt.Memory }
        ensures mode { KeepsMode self.old self.new }
        ensures owned { AttemptOwns (writes_of insn.now self.old.scalars self.old.pages.memory)
            self.old.pages self.new.pages result }
    {
        touched_is_shared();
        match transfer(insn, &mut self.scalars, &mut self.pages) {
            Ok(()) => {
                self.step_past();
                Attempt::Done
            }
            Err(AccessStop::Raise(_)) => Attempt::Waits,
            Err(AccessStop::Memory) => Attempt::Memory,
        }
    }
    /// Makes the access of a contiguous load or store of a vector or a predicate at once. Where a check
    /// refuses it, it waits.
    #[inline(always)]
    fn access_vectors_at_once(&mut self, x: &VectorAccess, bank: &mut Bank) -> Attempt
        requires fields { IsVectorAccess x.now }
        requires mode { IsInMode bank.old self.old }
        ensures effect { (word : ℕ) → AttemptsOn (effect_of_insn word (Insn.VectorAccess x.now))
            self.old bank.old self.new bank.new result }
        ensures same { IsSameBank bank.old bank.new }
        ensures mode { IsInMode bank.new self.new }
        ensures room { HasRoom (access_of x.now self.old.scalars (length_of bank.old.vectors)
            bank.old.vectors.registers) self.old.pages → result ≢ Attempt.Memory }
        ensures owned { AttemptOwns (writes_on self.old bank.old (Insn.VectorAccess x.now))
            self.old.pages self.new.pages result }
    {
        let _size = bank.za.size();
        match transfer_vector(x, &self.scalars, &mut bank.vectors, &mut self.pages) {
            Ok(()) => {
                self.step_past();
                Attempt::Done
            }
            Err(AccessStop::Raise(_)) => Attempt::Waits,
            Err(AccessStop::Memory) => Attempt::Memory,
        }
    }
}
