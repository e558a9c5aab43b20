//! Where turns that are made at once are told to halt: before each BL and BLR, and where a call may come back.
ghost use Rattle.abi_checker.specs.Halting.{halts_for};

use crate::marks::is_call_word;
use crate::near::Near;
use machine_step::Halts;

impl Halts for Near {
    ghost halts = { λ s pc word. halts_for s pc word };

    #[inline(always)]
    fn halts(&self, pc: u64, word: u32) -> bool {
        self.passes(word) && (is_call_word(word) || self.has(pc))
    }
}
