//! Stores of one and two registers that are kept.
ghost use Rattle.std.specs.Prelude.{◌≡◌, ◌&&◌, ◌%◌, ◌+◌, ◌^◌, ◌<◌, Bool, IsTrue, Some, false};
ghost use Rattle.a64_encode.specs.Either.{instruction_of};
ghost use Rattle.scalar_exec.specs.Forms.{access_of, offset_access};
ghost use Rattle.mem_access.specs.Transfer.{is_access};
ghost use Rattle.paged_memory.specs.Memory.{word_at};
ghost use Rattle.paged_memory.specs.PageTable.{KeepsOwned, KeepsShared};
ghost use Rattle.machine_step.specs.ProcessorState.{VectorState};
ghost use Rattle.machine_step.specs.Effect.{effect_of};
ghost use Rattle.machine_step.specs.Needs.{needs_bank};
ghost use Rattle.machine_step.specs.Machine.{core_of, AttemptsOn, IsInMode, IsSameBank, KeepsMode};
ghost use Rattle.machine_step.specs.Runs.{Stores, StoresTo, MovesTo};

use crate::at_once::Attempt;
use crate::decoder::{Decoded, past};
use crate::machine::Machine;
use mem_access::{Bank, store_near, store_pair_near, touched_is_shared};
use scalar_exec::{Base, Flat, OffsetAccess};
use sm_types::{AccessSize, Address, Insn, LoadStore, LoadStoreOp, PairOp};

impl Machine {
    /// Makes the kept instruction, PC being at a distance from an address, where it is a store whose bytes
    /// lie near, and gives the distance of the next one, with PC as it may be.
    #[inline(always)]
    fn store_kept(&mut self, known: &Decoded, base: u64, at: u64) -> Option<u64>
        requires word { known.now.word < 2 ^ 32 }
        requires aligned { (base + at) % 2 ^ 64 % 4 ≡ 0 }
        requires fetched { word_at self.old.pages.memory ((base + at) % 2 ^ 64) ≡ Some known.now.word }
        ensures { StoresTo base at self.old result self.new }
    {
        // each way sets PC for itself, so that one jump by the kind of the instruction does for all
        match known.flat() {
            Flat::StoreDoubleword(_) => {
                self.scalars.pc = base.wrapping_add(at);
                past(self.store_doubleword(known), &self.scalars, base)
            }
            Flat::StoreDoublewordAt(_, _) => {
                self.scalars.pc = base.wrapping_add(at);
                past(self.store_doubleword_at(known), &self.scalars, base)
            }
            Flat::StoreWord(_) => {
                self.scalars.pc = base.wrapping_add(at);
                past(self.store_word(known), &self.scalars, base)
            }
            Flat::StoreWordAt(_, _) => {
                self.scalars.pc = base.wrapping_add(at);
                past(self.store_word_at(known), &self.scalars, base)
            }
            Flat::StoreHalfword(_) => {
                self.scalars.pc = base.wrapping_add(at);
                past(self.store_halfword(known), &self.scalars, base)
            }
            Flat::StoreHalfwordAt(_, _) => {
                self.scalars.pc = base.wrapping_add(at);
                past(self.store_halfword_at(known), &self.scalars, base)
            }
            Flat::StoreByte(_) => {
                self.scalars.pc = base.wrapping_add(at);
                past(self.store_byte(known), &self.scalars, base)
            }
            Flat::StoreByteAt(_, _) => {
                self.scalars.pc = base.wrapping_add(at);
                past(self.store_byte_at(known), &self.scalars, base)
            }
            Flat::Store => {
                self.scalars.pc = base.wrapping_add(at);
                past(self.store_pair(known), &self.scalars, base)
            }
            _ => None,
        }
    }

    /// Executes the kept instruction, PC being at a distance from an address, where it reads and writes
    /// registers alone, is a load that no check refuses, or is a store whose bytes lie near, and gives the
    /// distance of the next one, with PC as it may be; where it does not, PC is that of the instruction.
    #[inline(always)]
    pub(crate) fn act_or_store(
        &mut self,
        known: &Decoded,
        bank: &mut Bank,
        base: u64,
        at: u64,
        apart: bool,
    ) -> Option<u64>
        requires word { known.now.word < 2 ^ 32 }
        requires aligned { (base + at) % 2 ^ 64 % 4 ≡ 0 }
        requires fetched { word_at self.old.pages.memory ((base + at) % 2 ^ 64) ≡ Some known.now.word }
        requires mode { IsInMode bank.old self.old }
        ensures made { MovesTo apart base at self.old bank.old result self.new bank.new }
        ensures shared { KeepsShared self.old.pages self.new.pages }
        ensures same { IsSameBank bank.old bank.new }
        ensures mode { IsInMode bank.new self.new }
    {
        if let Some(next) = known.compute_at(&mut self.scalars, base, at) {
            return Some(next);
        }
        if let Some(next) = self.store_kept(known, base, at) {
            return Some(next);
        }
        known.act_beside(&mut self.scalars, bank, &self.pages, base, at, apart)
    }

    /// Makes the store of one register of these parts, which the word means, where its bytes lie near, and
    /// tells whether it does.
    #[inline(always)]
    fn store_by(
        &mut self,
        known: &Decoded,
        size: AccessSize,
        address: Address,
        rn: u8,
        rt: u8,
    ) -> bool
        requires word { known.now.word < 2 ^ 32 }
        requires means { instruction_of known.now.word ≡ Some (Insn.LoadStore (record {
          op = LoadStoreOp.Store;
          size = size;
          address = address;
          rn = rn;
          rt = rt;
        })) }
        requires aligned { self.old.scalars.pc % 4 ≡ 0 }
        requires fetched { word_at self.old.pages.memory self.old.scalars.pc ≡ Some known.now.word }
        ensures { Stores self.old self.new result }
    {
        touched_is_shared();
        let x = LoadStore {
            op: LoadStoreOp::Store,
            size,
            address,
            rn,
            rt,
        };
        if store_near(&x, &mut self.scalars, &mut self.pages) {
            self.step_past();
            true
        } else {
            false
        }
    }

    /// The same at an offset.
    #[inline(always)]
    fn store_offset(&mut self, known: &Decoded, size: AccessSize, x: OffsetAccess) -> bool
        requires word { known.now.word < 2 ^ 32 }
        requires means { instruction_of known.now.word ≡ Some (offset_access LoadStoreOp.Store size x) }
        requires aligned { self.old.scalars.pc % 4 ≡ 0 }
        requires fetched { word_at self.old.pages.memory self.old.scalars.pc ≡ Some known.now.word }
        ensures { Stores self.old self.new result }
    {
        let address = Address::Offset { imm: x.imm };
        self.store_by(known, size, address, x.rn, x.rt)
    }

    /// The same at an address of any kind.
    #[inline(always)]
    fn store_at(&mut self, known: &Decoded, size: AccessSize, at: Address, x: Base) -> bool
        requires word { known.now.word < 2 ^ 32 }
        requires means { instruction_of known.now.word ≡ Some (access_of LoadStoreOp.Store size x at) }
        requires aligned { self.old.scalars.pc % 4 ≡ 0 }
        requires fetched { word_at self.old.pages.memory self.old.scalars.pc ≡ Some known.now.word }
        ensures { Stores self.old self.new result }
    {
        self.store_by(known, size, at, x.rn, x.rt)
    }

    /// Makes the store of a doubleword at an offset, where its bytes lie near, by a call in which its size is
    /// constant, and tells whether it does.
    #[inline(never)]
    fn store_doubleword(&mut self, known: &Decoded) -> bool
        requires word { known.now.word < 2 ^ 32 }
        requires aligned { self.old.scalars.pc % 4 ≡ 0 }
        requires fetched { word_at self.old.pages.memory self.old.scalars.pc ≡ Some known.now.word }
        ensures { Stores self.old self.new result }
    {
        match known.flat() {
            Flat::StoreDoubleword(x) => self.store_offset(known, AccessSize::Doubleword, x),
            _ => false,
        }
    }

    /// The same at another address, of each kind apart.
    #[inline(never)]
    fn store_doubleword_at(&mut self, known: &Decoded) -> bool
        requires word { known.now.word < 2 ^ 32 }
        requires aligned { self.old.scalars.pc % 4 ≡ 0 }
        requires fetched { word_at self.old.pages.memory self.old.scalars.pc ≡ Some known.now.word }
        ensures { Stores self.old self.new result }
    {
        let size = AccessSize::Doubleword;
        match known.flat() {
            Flat::StoreDoublewordAt(x, address) => match address {
                Address::Offset { imm } => self.store_at(known, size, Address::Offset { imm }, x),
                Address::Unscaled { offset } => {
                    self.store_at(known, size, Address::Unscaled { offset }, x)
                }
                Address::PostIndex { offset } => {
                    self.store_at(known, size, Address::PostIndex { offset }, x)
                }
                Address::PreIndex { offset } => {
                    self.store_at(known, size, Address::PreIndex { offset }, x)
                }
                Address::Register { rm, extend, scaled } => {
                    let at = Address::Register { rm, extend, scaled };
                    self.store_at(known, size, at, x)
                }
            },
            _ => false,
        }
    }

    /// Makes the store of a word at an offset, where its bytes lie near, by a call in which its size is
    /// constant, and tells whether it does.
    #[inline(never)]
    fn store_word(&mut self, known: &Decoded) -> bool
        requires word { known.now.word < 2 ^ 32 }
        requires aligned { self.old.scalars.pc % 4 ≡ 0 }
        requires fetched { word_at self.old.pages.memory self.old.scalars.pc ≡ Some known.now.word }
        ensures { Stores self.old self.new result }
    {
        match known.flat() {
            Flat::StoreWord(x) => self.store_offset(known, AccessSize::Word, x),
            _ => false,
        }
    }

    /// The same at another address, of each kind apart.
    #[inline(never)]
    fn store_word_at(&mut self, known: &Decoded) -> bool
        requires word { known.now.word < 2 ^ 32 }
        requires aligned { self.old.scalars.pc % 4 ≡ 0 }
        requires fetched { word_at self.old.pages.memory self.old.scalars.pc ≡ Some known.now.word }
        ensures { Stores self.old self.new result }
    {
        let size = AccessSize::Word;
        match known.flat() {
            Flat::StoreWordAt(x, address) => match address {
                Address::Offset { imm } => self.store_at(known, size, Address::Offset { imm }, x),
                Address::Unscaled { offset } => {
                    self.store_at(known, size, Address::Unscaled { offset }, x)
                }
                Address::PostIndex { offset } => {
                    self.store_at(known, size, Address::PostIndex { offset }, x)
                }
                Address::PreIndex { offset } => {
                    self.store_at(known, size, Address::PreIndex { offset }, x)
                }
                Address::Register { rm, extend, scaled } => {
                    let at = Address::Register { rm, extend, scaled };
                    self.store_at(known, size, at, x)
                }
            },
            _ => false,
        }
    }

    /// Makes the store of a halfword at an offset, where its bytes lie near, by a call in which its size is
    /// constant, and tells whether it does.
    #[inline(never)]
    fn store_halfword(&mut self, known: &Decoded) -> bool
        requires word { known.now.word < 2 ^ 32 }
        requires aligned { self.old.scalars.pc % 4 ≡ 0 }
        requires fetched { word_at self.old.pages.memory self.old.scalars.pc ≡ Some known.now.word }
        ensures { Stores self.old self.new result }
    {
        match known.flat() {
            Flat::StoreHalfword(x) => self.store_offset(known, AccessSize::Halfword, x),
            _ => false,
        }
    }

    /// The same at another address, of each kind apart.
    #[inline(never)]
    fn store_halfword_at(&mut self, known: &Decoded) -> bool
        requires word { known.now.word < 2 ^ 32 }
        requires aligned { self.old.scalars.pc % 4 ≡ 0 }
        requires fetched { word_at self.old.pages.memory self.old.scalars.pc ≡ Some known.now.word }
        ensures { Stores self.old self.new result }
    {
        let size = AccessSize::Halfword;
        match known.flat() {
            Flat::StoreHalfwordAt(x, address) => match address {
                Address::Offset { imm } => self.store_at(known, size, Address::Offset { imm }, x),
                Address::Unscaled { offset } => {
                    self.store_at(known, size, Address::Unscaled { offset }, x)
                }
                Address::PostIndex { offset } => {
                    self.store_at(known, size, Address::PostIndex { offset }, x)
                }
                Address::PreIndex { offset } => {
                    self.store_at(known, size, Address::PreIndex { offset }, x)
                }
                Address::Register { rm, extend, scaled } => {
                    let at = Address::Register { rm, extend, scaled };
                    self.store_at(known, size, at, x)
                }
            },
            _ => false,
        }
    }

    /// Makes the store of a byte at an offset, where its bytes lie near, by a call in which its size is
    /// constant, and tells whether it does.
    #[inline(never)]
    fn store_byte(&mut self, known: &Decoded) -> bool
        requires word { known.now.word < 2 ^ 32 }
        requires aligned { self.old.scalars.pc % 4 ≡ 0 }
        requires fetched { word_at self.old.pages.memory self.old.scalars.pc ≡ Some known.now.word }
        ensures { Stores self.old self.new result }
    {
        match known.flat() {
            Flat::StoreByte(x) => self.store_offset(known, AccessSize::Byte, x),
            _ => false,
        }
    }

    /// The same at another address, of each kind apart.
    #[inline(never)]
    fn store_byte_at(&mut self, known: &Decoded) -> bool
        requires word { known.now.word < 2 ^ 32 }
        requires aligned { self.old.scalars.pc % 4 ≡ 0 }
        requires fetched { word_at self.old.pages.memory self.old.scalars.pc ≡ Some known.now.word }
        ensures { Stores self.old self.new result }
    {
        let size = AccessSize::Byte;
        match known.flat() {
            Flat::StoreByteAt(x, address) => match address {
                Address::Offset { imm } => self.store_at(known, size, Address::Offset { imm }, x),
                Address::Unscaled { offset } => {
                    self.store_at(known, size, Address::Unscaled { offset }, x)
                }
                Address::PostIndex { offset } => {
                    self.store_at(known, size, Address::PostIndex { offset }, x)
                }
                Address::PreIndex { offset } => {
                    self.store_at(known, size, Address::PreIndex { offset }, x)
                }
                Address::Register { rm, extend, scaled } => {
                    let at = Address::Register { rm, extend, scaled };
                    self.store_at(known, size, at, x)
                }
            },
            _ => false,
        }
    }

    /// Makes the store of two registers, where their bytes lie near, by a call, and tells whether it does.
    #[inline(never)]
    fn store_pair(&mut self, known: &Decoded) -> bool
        requires word { known.now.word < 2 ^ 32 }
        requires aligned { self.old.scalars.pc % 4 ≡ 0 }
        requires fetched { word_at self.old.pages.memory self.old.scalars.pc ≡ Some known.now.word }
        ensures { Stores self.old self.new result }
    {
        touched_is_shared();
        match known.insn() {
            Insn::LoadStorePair(x) => match x.op {
                PairOp::Stp => {
                    if store_pair_near(x, &mut self.scalars, &mut self.pages) {
                        self.step_past();
                        true
                    } else {
                        false
                    }
                }
                PairOp::Ldp => false,
            },
            _ => false,
        }
    }

    /// Makes a store of one or two registers at once, wherever its bytes lie.
    #[inline(never)]
    pub(crate) fn store_known(&mut self, known: &Decoded) -> Attempt
        requires aligned { self.old.scalars.pc % 4 ≡ 0 }
        requires fetched { word_at self.old.pages.memory self.old.scalars.pc ≡ Some known.now.word }
        ensures effect { (bank : Bank) → AttemptsOn effect_of self.old bank self.new bank result }
        ensures kept { result ≡ Attempt.Done → (apart : Bool) (bank : VectorState)
            → (apart && needs_bank (core_of self.old bank)) ≡ false }
        ensures owned { KeepsOwned self.old.pages self.new.pages }
        ensures mode { KeepsMode self.old self.new }
    {
        match known.insn() {
            Insn::LoadStore(_) => self.access_known(known.word(), known.insn()),
            Insn::LoadStorePair(_) => self.access_known(known.word(), known.insn()),
            _ => Attempt::Waits,
        }
    }

    /// Makes the access of a load or a store at once, which the word at PC means.
    #[inline(always)]
    fn access_known(&mut self, word: u32, insn: &Insn) -> Attempt
        requires access { IsTrue (is_access insn.now) }
        requires means { instruction_of word ≡ Some insn.now }
        requires aligned { self.old.scalars.pc % 4 ≡ 0 }
        requires fetched { word_at self.old.pages.memory self.old.scalars.pc ≡ Some word }
        ensures effect { (bank : Bank) → AttemptsOn effect_of self.old bank self.new bank result }
        ensures kept { (apart : Bool) (bank : VectorState)
            → (apart && needs_bank (core_of self.old bank)) ≡ false }
        ensures owned { KeepsOwned self.old.pages self.new.pages }
        ensures mode { KeepsMode self.old self.new }
    {
        self.access_at_once(insn)
    }
}
