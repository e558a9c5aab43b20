//! The places to which calls come back, of which little is kept: the slots to which they fall.
ghost use Rattle.std.specs.Prelude.{◌≡◌, ◌<◌, ℕ, true, false};
ghost use Rattle.abi_checker.specs.Slots.{slot_of, IsTest};

use crate::open_call::OpenCall;

/// How many slots there are.
const SLOTS: usize = 64;

/// The slot to which an address falls.
#[inline(always)]
fn slot_of(address: u64) -> usize
    ensures value { result ≡ slot_of address }
    ensures small { result < 64 }
{
    (address / 4 % SLOTS as u64) as usize
}

/// Addresses, by the slots to which they fall; and the test that tells most instructions from those at which
/// something may be to be done, by their words alone as long as there is no address.
#[derive(Clone, Copy)]
pub struct Near {
    /// Which bits of a word are tested: the six that BL and BLR share, or none where there is an address.
    pub mask: u32,
    /// What they are in the words that pass.
    pub bits: u32,
    /// Whether there is one.
    pub some: bool,
    /// Which slots have one.
    pub slots: [bool; SLOTS],
    ghost test: { IsTest mask bits some },
}

impl Near {
    ghost use Rattle.abi_checker.specs.Marks as marks;
    ghost use Rattle.abi_checker.specs.Near.{is_near};
    ghost use Rattle.abi_checker.specs.Watching.{AreNear};

    /// None.
    pub fn none() -> Near {
        Near {
            mask: 0xBC00_0000,
            bits: 0x9400_0000,
            some: false,
            slots: [false; SLOTS],
        }
    }

    /// Whether one falls to the slot of an address.
    #[inline(always)]
    pub fn has(&self, address: u64) -> bool
        ensures { result ≡ is_near self.now address }
    {
        self.some && self.slots[slot_of(address)]
    }

    /// Whether a word may be that of a BL or BLR, or there is an address: one test, that most words fail as
    /// long as there is none.
    #[inline(always)]
    pub fn passes(&self, word: u32) -> bool
        ensures call { result ≡ false → marks.is_call_word word ≡ false }
        ensures away { result ≡ false → (pc : ℕ) → is_near self.now pc ≡ false }
    {
        word & self.mask == self.bits
    }

    /// Adds one.
    pub fn add(&mut self, address: u64)
        ensures here { is_near self.new address ≡ true }
        ensures others { (other : ℕ) → is_near self.old other ≡ true → is_near self.new other ≡ true }
    {
        self.mask = 0;
        self.bits = 0;
        self.some = true;
        self.slots[slot_of(address)] = true;
    }

    /// Those of the tails to which calls come back.
    pub fn of_calls(calls: &[OpenCall]) -> Near
        ensures { AreNear result calls.now }
    {
        let mut near = Near::none();
        'calls: for index in 0..calls.len() {
            near.add(calls[index].places.tail);
        }
        near
    }
}
