//! What the faults say, as laws over every name and all tokens.

ghost use Rattle.std.specs.Prelude.{◌≡◌, ◌+◌, ◌-◌, ◌^◌, ◌<◌, ◌≤◌, ℕ, Bool, true, false, List, ◌++◌, Some};
ghost use Rattle.std.specs.Prelude.{None, length, slice_get, take, is_some, codes, option_and_then};
ghost use Rattle.bit_ops.specs.Bits.{width_of};
ghost use Rattle.asm_tokens.specs.declared.token.Token.{Token};
ghost use Rattle.insn_text.specs.declared.keywords.TheConstants.{MNEMONICS};
ghost use Rattle.a64_encode.specs.Either.{instruction_of};
ghost use Rattle.asm_operands.specs.declared.operands.Target.{Target};
ghost use Rattle.asm_tokens.specs.declared.token.Token.TheVariants.{Number};
ghost use Rattle.insn_text.specs.declared.item.Kind.TheVariants.{Halfword, ShiftLeft, SignedMask};
ghost use Rattle.insn_text.specs.declared.item.Item.{Item};
ghost use Rattle.insn_text.specs.declared.item.Shape.{Shape};
ghost use Rattle.insn_text.specs.declared.shapes.TheConstants.{SHAPES};
ghost use Rattle.insn_text.specs.Texts.{bits_of, items_of, mask_in};
ghost use Rattle.asm_operands.specs.Aliases.{halfword_number, IsShiftLeft};
ghost use Rattle.asm_operands.specs.Distances.{with_distance};
ghost use Rattle.asm_operands.specs.Fields.{field_said, immediate_of};
ghost use Rattle.asm_operands.specs.Moves.{move_tokens, moved, index_of};
ghost use Rattle.asm_operands.specs.Operands.{shapes_of, first_word, furthest, operands_said, Says};

use insn_text::texts_are_those_of_rows;

/// The fault stands at the first token with which no instruction of the mnemonic goes on: with other tokens
/// in place of it and of those after it some shape takes them all, and with it none does.
pub fn first_fault_law()
    ensures goes_on { (mnemonic n : ℕ) (ts : List Token) → mnemonic < length MNEMONICS
        → n ≤ furthest (shapes_of mnemonic) ts → (rest : List Token) × (word : ℕ)
        × (first_word (shapes_of mnemonic) (take n ts ++ rest) ≡ Some word) }
    ensures stops { (mnemonic : ℕ) (ts rest : List Token) → furthest (shapes_of mnemonic) ts < length ts
        → first_word (shapes_of mnemonic) (take (furthest (shapes_of mnemonic) ts + 1) ts ++ rest) ≡ None }
{}

/// A word whose target is named means an instruction with each distance that its operand holds.
pub fn any_distance_law()
    ensures { (mnemonic : ℕ) (ts : List Token) (word : ℕ) (target : Target) (back : Bool) (size resolved : ℕ)
        → operands_said mnemonic ts ≡ Says word (Some target)
        → with_distance target.operand word back size ≡ Some resolved
        → is_some (instruction_of resolved) ≡ true }
{}

/// The fields of an alias with a number stand for that number: of `mov` a halfword at its place, or its
/// bits inverted, or a mask; of `lsl` the rotation and the highest bit of `ubfm`. `mov` of a number is MOVZ
/// where that holds the number, else MOVN where that does, else ORR.
pub fn alias_law()
    ensures halfword { (wide negative : Bool) (bits size number field : ℕ)
        → immediate_of wide negative size ≡ Some number
        → field_said (Halfword wide false) bits (Number negative size) ≡ Some field
        → halfword_number field ≡ number }
    ensures inverted { (wide negative : Bool) (bits size number field : ℕ)
        → immediate_of wide negative size ≡ Some number
        → field_said (Halfword wide true) bits (Number negative size) ≡ Some field
        → 2 ^ width_of wide - 1 - halfword_number field ≡ number }
    ensures mask { (wide negative : Bool) (bits size number field : ℕ)
        → immediate_of wide negative size ≡ Some number
        → field_said (SignedMask wide) bits (Number negative size) ≡ Some field
        → mask_in wide field ≡ Some number }
    ensures shift { (wide negative : Bool) (bits size field : ℕ)
        → field_said (ShiftLeft wide) bits (Number negative size) ≡ Some field
        → IsShiftLeft wide size field }
    ensures order { (wide negative : Bool) (register size : ℕ) → register < 31
        → first_word (shapes_of (index_of (codes "mov"))) (move_tokens wide register negative size)
        ≡ option_and_then (moved wide register) (immediate_of wide negative size) }
{}

/// An operand without a field is read from one token alone.
pub fn bare_operand_law()
    ensures { (number index : ℕ) (s : Shape) (i : Item) (t u : Token) (m n : ℕ)
        → slice_get SHAPES number ≡ Some s → slice_get (items_of s) index ≡ Some i
        → bits_of i ≡ 0 → field_said i.kind 0 t ≡ Some m → field_said i.kind 0 u ≡ Some n → t ≡ u }
{
    texts_are_those_of_rows()
}
