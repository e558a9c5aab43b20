//! Instructions of one page of code, of which the bytes are borrowed: those that are known, and that read and
//! write registers alone or load some.
ghost use Rattle.std.specs.Prelude.{◌≡◌, ◌%◌, ◌<◌, ◌≤◌, Some, true, length};
ghost use Rattle.paged_memory.specs.Memory.{bytes_with};
ghost use Rattle.mem_access.specs.Bank.{bank_state};
ghost use Rattle.machine_step.specs.ProcessorState.{vector_bytes};
ghost use Rattle.machine_step.specs.Machine.{core_of, IsInMode, IsSameBank};
ghost use Rattle.machine_step.specs.Computed.{AreComputed};
ghost use Rattle.machine_step.specs.Next.{Follows};
ghost use Rattle.machine_step.specs.Several.{AreExecuted};

use crate::decoder::{Decoded, Decoder};
use crate::halts::Halts;
use crate::machine::Machine;
use mem_access::Bank;
use paged_memory::{Pages, word_of};
use sm_types::Scalars;

/// What is known of the instruction at PC.
#[derive(Clone, Copy)]
pub(crate) enum Next {
    /// Nothing.
    Unknown,
    /// It is the kept one of this place, and none to halt before.
    Kept(usize),
    /// It has this word, and is none to halt before.
    Word(u32),
    /// It is one to halt before, of this word.
    Halts(u32),
}

/// Whether a distance from the base of a page is that of one of its words: it is below 4096, and a multiple
/// of 4, which is one test of these bits.
#[inline(always)]
pub(crate) fn is_word_place(at: u64) -> bool
    ensures within { result ≡ true → at < 4096 }
    ensures aligned { result ≡ true → at % 4 ≡ 0 }
{
    at & 0xFFFF_FFFF_FFFF_F003 == 0
}

/// Executes instructions of the page from a base on, of which the code is all the bytes, one after the other,
/// `most` at most, and tells how many, and what is known of the next one. It ends before one
/// that lies elsewhere, that is not known, to halt before, or that does more than to read and write registers
/// or to load some.
#[inline(always)]
fn act_known<H: Halts>(
    s: &mut Scalars,
    bank: &mut Bank,
    pages: &Pages,
    code: &[u8],
    base: u64,
    places: &[Decoded],
    halts: &H,
    apart: bool,
    most: u32,
) -> (u32, Next)
    requires full { length code.now ≡ 4096 }
    requires places { length places.now ≡ 1024 }
    requires base { base % 4096 ≡ 0 }
    requires held { bytes_with 1 pages.now.memory base 4096 ≡ Some code.now }
    ensures computed { AreComputed (H.halts halts.now) apart pages.now.memory result.0 s.old bank.old s.new
        bank.new }
    ensures few { result.0 ≤ most }
    ensures next { Follows (H.halts halts.now) pages.now.memory places.now s.new result.1 }
{
    let mut left = most;
    let mut at = s.pc.wrapping_sub(base);
    'turns: while left > 0 {
        if !is_word_place(at) {
            s.pc = base.wrapping_add(at);
            return (most - left, Next::Unknown);
        }
        let place = at as usize;
        let known = &places[place / 4];
        if known.word() != word_of(code, place) {
            s.pc = base.wrapping_add(at);
            return (most - left, Next::Unknown);
        }
        if halts.halts(base.wrapping_add(at), known.word()) {
            s.pc = base.wrapping_add(at);
            return (most - left, Next::Halts(known.word()));
        }
        match known.act_at(s, bank, pages, base, at, apart) {
            Some(next) => at = next,
            None => return (most - left, Next::Kept(place / 4)),
        }
        left -= 1;
    }
    s.pc = base.wrapping_add(at);
    (most - left, Next::Unknown)
}

impl Machine {
    /// Executes instructions of the page of PC that are known and read and write registers alone, or load
    /// some, `most` at most, and tells how many, and what is known of the next one.
    #[inline(always)]
    pub(crate) fn run_page<H: Halts>(
        &mut self,
        decoder: &Decoder,
        bank: &mut Bank,
        halts: &H,
        apart: bool,
        most: u32,
    ) -> (u32, Next)
        requires { IsInMode bank.old self.old }
        ensures executed { AreExecuted (H.halts halts.now) apart (vector_bytes bank.old.vectors.vl) result.0
            (core_of self.old (bank_state bank.old)) (core_of self.new (bank_state bank.new)) }
        ensures few { result.0 ≤ most }
        ensures next { Follows (H.halts halts.now) self.new.pages.memory decoder.now.places.items
            self.new.scalars result.1 }
        ensures pages { self.new.pages ≡ self.old.pages }
        ensures same { IsSameBank bank.old bank.new }
        ensures mode { IsInMode bank.new self.new }
    {
        let base = self.scalars.pc / 4096 * 4096;
        match self.pages.code(base) {
            Some(code) => act_known(
                &mut self.scalars,
                bank,
                &self.pages,
                code,
                base,
                decoder.places(),
                halts,
                apart,
                most,
            ),
            None => (0, Next::Unknown),
        }
    }
}
