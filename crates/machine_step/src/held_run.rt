//! Instructions of one page of code that is held while others change: those of `page_run`, and stores.
ghost use Rattle.std.specs.Prelude.{◌≡◌, ◌%◌};
ghost use Rattle.paged_memory.specs.Code.{IsHeld};
ghost use Rattle.machine_step.specs.Machine.{IsInMode};
ghost use Rattle.machine_step.specs.Next.{Follows};
ghost use Rattle.machine_step.specs.Runs.{RunsOn};

use crate::at_once::Attempt;
use crate::decoder::Decoder;
use crate::halts::Halts;
use crate::machine::Machine;
use crate::page_run::{Next, is_word_place};
use mem_access::Bank;
use paged_memory::{Code, word_of};

impl Machine {
    /// Executes instructions as `run_page` does, and stores whose bytes lie near: the bytes of the page are
    /// held apart from the pages, since such a store writes to owned pages alone. Where they cannot be held,
    /// what is known of the next one stays. A call of its own: the loop over a page is laid into it too.
    #[inline(never)]
    fn run_stores<H: Halts>(
        &mut self,
        decoder: &Decoder,
        bank: &mut Bank,
        halts: &H,
        apart: bool,
        most: u32,
        next: Next,
    ) -> (u32, Next)
        requires mode { IsInMode bank.old self.old }
        requires next { Follows (H.halts halts.now) self.old.pages.memory decoder.now.places.items
            self.old.scalars next }
        ensures { RunsOn (H.halts halts.now) apart most decoder.now.places.items self.old bank.old self.new
            bank.new result }
    {
        let base = self.scalars.pc / 4096 * 4096;
        match self.pages.hold_code(base) {
            Some(code) => self.run_held(decoder, bank, &code, base, halts, apart, most),
            None => (0, next),
        }
    }

    /// The loop of `act_known`, with the stores.
    #[inline(always)]
    fn run_held<H: Halts>(
        &mut self,
        decoder: &Decoder,
        bank: &mut Bank,
        code: &Code,
        base: u64,
        halts: &H,
        apart: bool,
        most: u32,
    ) -> (u32, Next)
        requires mode { IsInMode bank.old self.old }
        requires base { base % 4096 ≡ 0 }
        requires held { IsHeld code.now base self.old.pages }
        ensures { RunsOn (H.halts halts.now) apart most decoder.now.places.items self.old bank.old self.new
            bank.new result }
    {
        let bytes = code.bytes();
        let places = decoder.places();
        let mut left = most;
        let mut at = self.scalars.pc.wrapping_sub(base);
        'turns: while left > 0 {
            if !is_word_place(at) {
                self.scalars.pc = base.wrapping_add(at);
                return (most - left, Next::Unknown);
            }
            let place = at as usize;
            let known = &places[place / 4];
            if known.word() != word_of(bytes, place) {
                self.scalars.pc = base.wrapping_add(at);
                return (most - left, Next::Unknown);
            }
            if halts.halts(base.wrapping_add(at), known.word()) {
                self.scalars.pc = base.wrapping_add(at);
                return (most - left, Next::Halts(known.word()));
            }
            match self.act_or_store(known, bank, base, at, apart) {
                Some(next) => at = next,
                None => return (most - left, Next::Kept(place / 4)),
            }
            left -= 1;
        }
        self.scalars.pc = base.wrapping_add(at);
        (most - left, Next::Unknown)
    }

    /// The loop without stores, and, where it ends before one, that with them.
    #[inline(always)]
    fn run_on<H: Halts>(
        &mut self,
        decoder: &Decoder,
        bank: &mut Bank,
        halts: &H,
        apart: bool,
        most: u32,
    ) -> (u32, Next)
        requires { IsInMode bank.old self.old }
        ensures { RunsOn (H.halts halts.now) apart most decoder.now.places.items self.old bank.old self.new
            bank.new result }
    {
        let (made, next) = self.run_page(decoder, bank, halts, apart, most);
        let Next::Kept(place) = next else {
            return (made, next);
        };
        if made == most || !decoder.kept(place).is_store() {
            return (made, next);
        }
        let (more, next) = self.run_stores(decoder, bank, halts, apart, most - made, next);
        (made + more, next)
    }

    /// The same with the other stores of one and two registers: after each the page is looked up again, since
    /// it may write to it.
    #[inline(always)]
    pub(crate) fn run_known<H: Halts>(
        &mut self,
        decoder: &Decoder,
        bank: &mut Bank,
        halts: &H,
        apart: bool,
        most: u32,
    ) -> (u32, Next)
        requires { IsInMode bank.old self.old }
        ensures { RunsOn (H.halts halts.now) apart most decoder.now.places.items self.old bank.old self.new
            bank.new result }
    {
        let mut done = 0;
        'runs: while done < most {
            let (made, next) = self.run_on(decoder, bank, halts, apart, most - done);
            done += made;
            let Next::Kept(place) = next else {
                return (done, next);
            };
            let known = decoder.kept(place);
            if done == most || !known.is_store() {
                return (done, next);
            }
            match self.store_known(known) {
                Attempt::Done => done += 1,
                Attempt::Waits => return (done, next),
                Attempt::Memory => return (done, Next::Unknown),
            }
        }
        (done, Next::Unknown)
    }
}
