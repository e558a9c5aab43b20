//! The address before whose instruction a run halts.
ghost use Rattle.sme_debugger.specs.AtAddress.{is_at};

use machine_step::Halts;

/// Halts before the instruction at an address, whatever its word.
#[derive(Clone, Copy)]
pub struct AtAddress {
    pub address: u64,
}

impl Halts for AtAddress {
    ghost halts = { λ s pc word. is_at s.address pc word };

    #[inline(always)]
    fn halts(&self, pc: u64, _word: u32) -> bool {
        pc == self.address
    }
}
