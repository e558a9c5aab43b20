//! The laws of the routines on the plain machine.
ghost use Rattle.sm_types.specs.declared.insn.Insn.TheVariants as insn;
ghost use Rattle.sm_types.specs.declared.insn.Branch.TheVariants as branch;
ghost use Rattle.insn_forms.specs.Fields.{signed_value};
ghost use Rattle.a64_encode.specs.Either.{instruction_of};
ghost use Rattle.sm_types.specs.Routines.{call_word};
ghost use Rattle.std.specs.Prelude.{◌≡◌, ◌<◌, ◌^◌, ℕ, Bool, List, [], Some, true, false, length};
ghost use Rattle.std.specs.Prelude.{slice_index_or};
ghost use Rattle.paged_memory.specs.Memory.{IsWhole as IsWholeMemory};
ghost use Rattle.paged_memory.specs.Memory.{AddressSpace};
ghost use Rattle.lazy_saving.specs.Block.{IsBlock, IsLoaded, buffer_of, slices_of, saved_of};
ghost use Rattle.machine_step.specs.Effect.{Becomes, effect_of};
ghost use Rattle.lazy_saving.specs.Interleaved.{Covers, IsOver, IsDisabledOver, IsPastOver};
ghost use Rattle.machine_step.specs.ProcessorState.{ProcessorState};
ghost use Rattle.scalar_exec.specs.Registers.{x_of};
ghost use Rattle.lazy_saving.specs.Dormant.{Places, IsDormantAt, IsLawful, IsSaved};
ghost use Rattle.lazy_saving.specs.Instructions.{after_instructions};
ghost use Rattle.lazy_saving.specs.Outcome.{IsWhole, IsDisabled, IsBack, IsPast, IsRestored, disable_length};
ghost use Rattle.lazy_saving.specs.Outcome.{tail_length, instructions_past, IsCallersArray};

/// What is said of the bytes of a block is what loads of its parts read (AAPCS64, the TPIDR2 block: eight bytes
/// are the buffer's address, the next two the number of slices, and the other six are zero).
pub fn blocks_are_loaded()
    ensures { (m : AddressSpace) (size b : ℕ) (bytes : List ℕ) → IsBlock m size b bytes
        → IsLoaded m b (buffer_of bytes) (slices_of bytes) }
{}

/// From every state whose ZA is dormant and whose PC is at the first word of `__arm_za_disable`, it takes 11
/// instructions with a null buffer, 13 without slices, or 14 and five for each slice, none of which raises,
/// calls or asks; then ZA is saved and off.
pub fn disable_saves()
    ensures { (vl : ℕ) (p : Places) (s : ProcessorState) (b : ℕ) (d : IsDormantAt p s b) → IsWhole s
        → s.scalars.pc ≡ p.disable
        → (t : ProcessorState) × (after_instructions vl (disable_length d.bytes) s ≡ Some t)
        × IsDisabled s t d.bytes }
{}

/// From every state that a lawful callee may leave, and whose PC is at the first word of the tail, the tail
/// takes 4 instructions where ZA is dormant; else 15, 17, or 18 and five for each slice, and ZA is back.
pub fn tail_restores()
    ensures kept { (vl : ℕ) (p : Places) (r : ProcessorState) (bytes : List ℕ) → IsBack p r bytes → IsWhole r
        → r.za_on ≡ true → r.tpidr2 ≡ x_of r.scalars 19
        → (t : ProcessorState) × (after_instructions vl 4 r ≡ Some t) × IsPast p r t
        × (t.bank.za ≡ r.bank.za) }
    ensures saved { (vl : ℕ) (p : Places) (r : ProcessorState) (bytes : List ℕ) → IsBack p r bytes → IsWhole r
        → r.za_on ≡ false → r.tpidr2 ≡ 0
        → (t : ProcessorState) × (after_instructions vl (tail_length bytes) r ≡ Some t) × IsPast p r t
        × IsRestored r t bytes }
{}

/// What a lawful callee leaves is a state from which the tail brings ZA back; where the callee saved it, the
/// slices that come back are those of the state before the call.
pub fn lawful_callees_come_back()
    ensures back { (p : Places) (s r : ProcessorState) (b : ℕ) (h : IsLawful p s r b) → IsWholeMemory s.memory
        → IsWholeMemory r.memory → length r.bank.za ≡ length s.bank.za → r.scalars.pc ≡ p.tail
        → IsBack p r h.dormant.bytes }
    ensures slices { (p : Places) (s r t : ProcessorState) (b : ℕ) (h : IsLawful p s r b)
        → IsWholeMemory s.memory → IsWholeMemory r.memory → length r.bank.za ≡ length s.bank.za
        → IsSaved s r h.dormant.bytes → IsRestored r t h.dormant.bytes → (i : ℕ)
        → i < saved_of h.dormant.bytes
        → i < length s.bank.za → slice_index_or t.bank.za i [] ≡ slice_index_or s.bank.za i [] }
{}

/// What `disable_saves` says holds too where memory outside an area that has the block, the buffer and the
/// words changes between the instructions: each instruction is executed, and after as many of them ZA is saved
/// and off.
pub fn disable_saves_over_changes()
    ensures { (vl : ℕ) (area : ℕ → Bool) (p : Places) (s : ProcessorState) (b : ℕ) (d : IsDormantAt p s b)
        → IsWhole s → s.scalars.pc ≡ p.disable → Covers area p (length s.bank.za) b d.bytes
        → ((n : ℕ) (z : ProcessorState) → n < disable_length d.bytes → IsOver vl area n s z
        → (u : ProcessorState) × (effect_of vl z ≡ Becomes u))
        × ((t : ProcessorState) → IsOver vl area (disable_length d.bytes) s t
        → IsDisabledOver area s t d.bytes) }
{}

/// What `tail_restores` says holds too with such changes of memory between the instructions.
pub fn tail_restores_over_changes()
    ensures kept { (vl : ℕ) (area : ℕ → Bool) (p : Places) (r : ProcessorState) (bytes : List ℕ)
        → IsBack p r bytes → IsWhole r → Covers area p (length r.bank.za) (x_of r.scalars 19) bytes
        → r.za_on ≡ true → r.tpidr2 ≡ x_of r.scalars 19
        → ((n : ℕ) (z : ProcessorState) → n < 4 → IsOver vl area n r z
        → (u : ProcessorState) × (effect_of vl z ≡ Becomes u))
        × ((t : ProcessorState) → IsOver vl area 4 r t
        → IsPastOver area p r t × (t.bank.za ≡ r.bank.za)) }
    ensures saved { (vl : ℕ) (area : ℕ → Bool) (p : Places) (r : ProcessorState) (bytes : List ℕ)
        → IsBack p r bytes → IsWhole r → Covers area p (length r.bank.za) (x_of r.scalars 19) bytes
        → r.za_on ≡ false → r.tpidr2 ≡ 0
        → ((n : ℕ) (z : ProcessorState) → n < tail_length bytes → IsOver vl area n r z
        → (u : ProcessorState) × (effect_of vl z ≡ Becomes u))
        × ((t : ProcessorState) → IsOver vl area (tail_length bytes) r t
        → IsPastOver area p r t × IsRestored r t bytes) }
{}

/// After every lawful callee the caller's ZA is back past the tail, each instruction of which is executed:
/// four, and all of ZA, where the callee left it dormant; else as many as `tail_restores` says, and the slices
/// that the block says, the others being zero. So it is too where memory outside an area that has the block,
/// the buffer and the words changes between the instructions. A block that says all slices brings all back.
pub fn arrays_come_back()
    ensures back { (vl : ℕ) (p : Places) (s r : ProcessorState) (b : ℕ) (h : IsLawful p s r b)
        → IsWholeMemory s.memory → IsWholeMemory r.memory → IsWhole r → length r.bank.za ≡ length s.bank.za
        → r.scalars.pc ≡ p.tail → (t : ProcessorState)
        × (after_instructions vl (instructions_past r.za_on h.dormant.bytes) r ≡ Some t) × IsPast p r t
        × IsCallersArray r.za_on s t h.dormant.bytes }
    ensures over { (vl : ℕ) (area : ℕ → Bool) (p : Places) (s r : ProcessorState) (b : ℕ)
        (h : IsLawful p s r b) → IsWholeMemory s.memory → IsWholeMemory r.memory → IsWhole r
        → length r.bank.za ≡ length s.bank.za → r.scalars.pc ≡ p.tail
        → Covers area p (length s.bank.za) b h.dormant.bytes
        → ((n : ℕ) (z : ProcessorState) → n < instructions_past r.za_on h.dormant.bytes
        → IsOver vl area n r z → (u : ProcessorState) × (effect_of vl z ≡ Becomes u))
        × ((t : ProcessorState) → IsOver vl area (instructions_past r.za_on h.dormant.bytes) r t
        → IsPastOver area p r t × IsCallersArray r.za_on s t h.dormant.bytes) }
    ensures whole { (on : Bool) (s t : ProcessorState) (bytes : List ℕ) → IsCallersArray on s t bytes
        → saved_of bytes ≡ length s.bank.za → t.bank.za ≡ s.bank.za }
{}

/// The word of a BL, by which a tail calls, means it.
pub fn call_words_mean_calls()
    ensures { (distance : ℕ) → distance < 2 ^ 26 → instruction_of (call_word distance)
        ≡ Some (insn.Branch (branch.Unconditional true (signed_value 26 distance))) }
{}
