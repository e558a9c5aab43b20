//! Several instructions that are executed at once, one after the other, with no look at what else may be due.
ghost use Rattle.std.specs.Prelude.{◌≡◌, ◌&&◌, ◌%◌, ℕ, Bool, IfOk, IfErr, Some, false};
ghost use Rattle.machine_step.specs.Next.{Follows};
ghost use Rattle.paged_memory.specs.Memory.{word_at};
ghost use Rattle.paged_memory.specs.PageTable.{KeepsOwned};
ghost use Rattle.mem_access.specs.Bank.{bank_state};
ghost use Rattle.machine_step.specs.Effect.{effect_of};
ghost use Rattle.machine_step.specs.Needs.{needs_bank};
ghost use Rattle.machine_step.specs.Machine.{core_of, AttemptsOn, IsInMode, IsSameBank};
ghost use Rattle.machine_step.specs.Several.{MakesSteps, HaltsAt, halts_in};

use crate::at_once::Attempt;
use crate::decoder::{Decoded, Decoder};
use crate::halts::Halts;
use crate::machine::Machine;
use crate::page_run::Next;
use mem_access::Bank;

/// How many instructions were executed, and the word of the next one, if the run was told to halt before it.
/// A run that executed as many as it might need not give that word.
#[derive(Clone, Copy)]
pub struct Made {
    pub count: u32,
    pub halt: Option<u32>,
}

impl Machine {
    /// Executes instructions one after the other, `most` at most, and tells how many: none that it is told to
    /// halt before, and, if `apart` says that the machine is kept off the bank, none that needs a bank. If it
    /// gives a word, that is the next instruction's, and it is told to halt before it; if it gives none and
    /// executed fewer than `most`, the next one is none to halt before. No clause says why it makes no more:
    /// it stops too before an instruction that may raise or ask, and for want of memory. Owned pages stay
    /// owned; no clause says which others are owned then. Inlined.
    #[inline(always)]
    pub fn step_several<H: Halts>(
        &mut self,
        decoder: &mut Decoder,
        bank: &mut Bank,
        halts: &H,
        apart: bool,
        most: u32,
    ) -> Made
        requires { IsInMode bank.old self.old }
        ensures { MakesSteps (H.halts halts.now) apart most self.old bank.old self.new bank.new result }
    {
        if apart {
            self.make_steps(decoder, bank, halts, true, most)
        } else {
            self.make_steps(decoder, bank, halts, false, most)
        }
    }

    /// The same, inlined twice: the loop skips the test for a bank if the machine has the bank.
    #[inline(always)]
    fn make_steps<H: Halts>(
        &mut self,
        decoder: &mut Decoder,
        bank: &mut Bank,
        halts: &H,
        apart: bool,
        most: u32,
    ) -> Made
        requires { IsInMode bank.old self.old }
        ensures { MakesSteps (H.halts halts.now) apart most self.old bank.old self.new bank.new result }
    {
        let mut done = 0;
        'steps: while done < most {
            let (made, known) = self.run_known(decoder, bank, halts, apart, most - done);
            done += made;
            if done == most {
                return Made {
                    count: done,
                    halt: None,
                };
            }
            match self.look(decoder, known, halts) {
                Ok(next) => match self.step_next(decoder, next, bank, apart) {
                    Attempt::Done => done += 1,
                    Attempt::Waits => {
                        return Made {
                            count: done,
                            halt: None,
                        };
                    }
                    Attempt::Memory => {
                        return Made {
                            count: done,
                            halt: None,
                        };
                    }
                },
                Err(word) => {
                    return Made {
                        count: done,
                        halt: Some(word),
                    };
                }
            }
        }
        Made {
            count: done,
            halt: None,
        }
    }

    /// What is known of the instruction at PC after a look where nothing was; or its word, where it is one to
    /// halt before.
    #[inline(always)]
    fn look<H: Halts>(&self, decoder: &Decoder, known: Next, halts: &H) -> Result<Next, u32>
        requires next { Follows (H.halts halts.now) self.now.pages.memory decoder.now.places.items
            self.now.scalars known }
        ensures next { IfOk result (λ next. Follows (H.halts halts.now) self.now.pages.memory
            decoder.now.places.items self.now.scalars next) }
        ensures unhalted { IfOk result (λ next. halts_in (H.halts halts.now) self.now.pages.memory
            self.now.scalars.pc ≡ false) }
        ensures halted { IfErr result (λ word. HaltsAt (H.halts halts.now) self.now.pages.memory
            self.now.scalars.pc word) }
    {
        match known {
            Next::Unknown => {
                let pc = self.scalars.pc;
                match self.pages.fetch(pc) {
                    Some(word) => {
                        if halts.halts(pc, word) {
                            return Err(word);
                        }
                        if pc % 4 != 0 {
                            return Ok(Next::Unknown);
                        }
                        Ok(Next::Word(word))
                    }
                    None => Ok(Next::Unknown),
                }
            }
            Next::Halts(word) => Err(word),
            Next::Kept(place) => Ok(Next::Kept(place)),
            Next::Word(word) => Ok(Next::Word(word)),
        }
    }

    /// Executes the instruction at PC at once, where it is one of these and its word or its place is known.
    #[inline(always)]
    fn step_next(
        &mut self,
        decoder: &mut Decoder,
        next: Next,
        bank: &mut Bank,
        apart: bool,
    ) -> Attempt
        requires next { (halts : ℕ → ℕ → Bool) × Follows halts self.old.pages.memory decoder.old.places.items
            self.old.scalars next }
        requires mode { IsInMode bank.old self.old }
        ensures effect { AttemptsOn effect_of self.old bank.old self.new bank.new result }
        ensures kept { result ≡ Attempt.Done
            → (apart && needs_bank (core_of self.old (bank_state bank.old))) ≡ false }
        ensures owned { KeepsOwned self.old.pages self.new.pages }
        ensures same { IsSameBank bank.old bank.new }
        ensures mode { IsInMode bank.new self.new }
    {
        match next {
            Next::Kept(place) => self.step_known(decoder.kept(place), bank, apart),
            Next::Word(word) => self.step_word(decoder, word, bank, apart),
            Next::Unknown => Attempt::Waits,
            Next::Halts(_) => Attempt::Waits,
        }
    }

    /// Executes the instruction at PC at once, where it is one of these; it is the kept one.
    #[inline(always)]
    fn step_known(&mut self, known: &Decoded, bank: &mut Bank, apart: bool) -> Attempt
        requires aligned { self.old.scalars.pc % 4 ≡ 0 }
        requires fetched { word_at self.old.pages.memory self.old.scalars.pc ≡ Some known.now.word }
        requires mode { IsInMode bank.old self.old }
        ensures effect { AttemptsOn effect_of self.old bank.old self.new bank.new result }
        ensures kept { result ≡ Attempt.Done
            → (apart && needs_bank (core_of self.old (bank_state bank.old))) ≡ false }
        ensures owned { KeepsOwned self.old.pages self.new.pages }
        ensures same { IsSameBank bank.old bank.new }
        ensures mode { IsInMode bank.new self.new }
    {
        let insn = known.insn();
        if self.wants(insn, apart) {
            return Attempt::Waits;
        }
        self.attempt(known.word(), insn, bank)
    }

    /// Executes the instruction of the word at PC at once, where it is one of these.
    #[inline(always)]
    fn step_word(
        &mut self,
        decoder: &mut Decoder,
        word: u32,
        bank: &mut Bank,
        apart: bool,
    ) -> Attempt
        requires aligned { self.old.scalars.pc % 4 ≡ 0 }
        requires fetched { word_at self.old.pages.memory self.old.scalars.pc ≡ Some word }
        requires mode { IsInMode bank.old self.old }
        ensures effect { AttemptsOn effect_of self.old bank.old self.new bank.new result }
        ensures kept { result ≡ Attempt.Done
            → (apart && needs_bank (core_of self.old (bank_state bank.old))) ≡ false }
        ensures owned { KeepsOwned self.old.pages self.new.pages }
        ensures same { IsSameBank bank.old bank.new }
        ensures mode { IsInMode bank.new self.new }
    {
        let known = decoder.place(self.scalars.pc);
        let Some(insn) = known.instruction(word) else {
            return Attempt::Waits;
        };
        if self.wants(insn, apart) {
            return Attempt::Waits;
        }
        self.execute_at_once(word, insn, bank)
    }
}
