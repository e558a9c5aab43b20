//! The bits of a word that operands say.

ghost use Rattle.std.specs.Prelude.{◌≡◌, ◌-◌, ◌*◌, ◌/◌, ◌%◌, ◌^◌, ◌<◌, true, Some, option_map};
ghost use Rattle.insn_text.specs.Rules.{meets, is_base_apart};
ghost use Rattle.insn_forms.specs.Fields.{is_field, mask_of};
ghost use Rattle.asm_operands.specs.Operands.{fixed, partial_with, partial_after};
ghost use Rattle.asm_operands.specs.Sound.{is_bare, is_sound};

use crate::fields::field_said;
use asm_tokens::Token;
use insn_forms::{Field, placed};
use insn_text::{Item, Rule, Shape};

/// The known bits of a word, and their values.
#[derive(Clone, Copy)]
pub(crate) struct PartialWord {
    pub(crate) mask: u32,
    pub(crate) value: u32,
}

/// So many ones.
#[inline(always)]
fn ones(width: u8) -> u32
    requires { width < 32 }
    ensures { result ≡ 2 ^ width - 1 }
{
    (1 << u32::from(width)) - 1
}

/// The bits of a field in a word.
#[inline(always)]
#[tactic(auto, unfolding(insn_forms::specs::Fields::mask_of, insn_forms::specs::Fields::is_field))]
fn mask_of(field: &Field) -> u32
    requires { is_field field.now ≡ true }
    ensures { result ≡ mask_of field.now }
{
    (ones(field.upper_width) << u32::from(field.upper_low))
        + (ones(field.width) << u32::from(field.low))
}

/// The number of the register whose five bits begin there.
#[inline(always)]
fn register_at(word: u32, low: u32) -> u32
    requires { low < 32 }
    ensures { result ≡ word / 2 ^ low % 32 }
{
    (word >> low) % 32
}

/// Whether Rn 9:5 is SP, or not the number.
#[inline(always)]
#[tactic(auto, unfolding(insn_forms::specs::Fields::field_of))]
fn is_base_apart(word: u32, number: u32) -> bool
    ensures { result ≡ is_base_apart word number }
{
    register_at(word, 5) == 31 || register_at(word, 5) != number
}

/// Whether the registers of a word meet the rule.
#[inline(always)]
#[tactic(auto, unfolding(insn_text::specs::Rules::meets, insn_forms::specs::Fields::field_of))]
fn meets(rule: Rule, word: u32) -> bool
    ensures { result ≡ meets rule word }
{
    match rule {
        Rule::Free => true,
        Rule::SecondApart => register_at(word, 0) != register_at(word, 10),
        Rule::BaseApart => is_base_apart(word, register_at(word, 0)),
        Rule::BasePairApart => is_base_apart(word, register_at(word, 0))
            && is_base_apart(word, register_at(word, 10)),
        Rule::OffsetGiven => register_at(word, 16) != 31,
    }
}

/// Whether the operand holds no field, and has no rule.
#[inline(always)]
#[tactic(auto, unfolding(crate::specs::Sound::is_bare))]
fn is_bare(item: &Item) -> bool
    ensures { result ≡ is_bare item.now }
{
    item.field.width == 0 && item.field.upper_width == 0 && matches!(item.rule, Rule::Free)
}

impl PartialWord {
    ghost use Rattle.asm_operands.specs.Views.{partial_of};

    /// The bits that a shape fixes.
    #[tactic(auto, unfolding(crate::specs::Operands::fixed))]
    pub(crate) fn fixed(shape: &Shape) -> PartialWord
        ensures { partial_of result ≡ fixed shape.now }
    {
        PartialWord {
            mask: shape.mask,
            value: shape.value,
        }
    }

    /// What is known with a field, where it agrees with what is known and meets the operand's rule: the
    /// same for an operand that holds none and has no rule, as punctuation.
    #[inline(always)]
    #[tactic(auto, unfolding(
    // The word with a field.
    crate::specs::Operands::partial_with, crate::specs::Operands::with_field,
    // Where it agrees with what is known.
    crate::specs::Operands::agrees))]
    fn with(self, item: &Item, field: u32) -> Option<PartialWord>
        requires { is_field item.now.field ≡ true }
        ensures { option_map partial_of result ≡ partial_with item.now (partial_of self) (Some field) }
    {
        if is_bare(item) {
            return Some(self);
        }
        let own = mask_of(&item.field);
        let bits = placed(&item.field, field);
        let value = self.value | bits;
        if self.value & own == bits & self.mask && meets(item.rule, value) {
            Some(PartialWord {
                mask: self.mask | own,
                value,
            })
        } else {
            None
        }
    }

    /// What is known once the token is read as an operand.
    #[inline(always)]
    #[tactic(auto, unfolding(
    // The word after a token.
    crate::specs::Operands::partial_after, crate::specs::Operands::partial_with,
    // The field of a sound operand.
    crate::specs::Sound::is_sound))]
    pub(crate) fn after(self, item: &Item, token: Token) -> Option<PartialWord>
        requires { is_sound item.now ≡ true }
        ensures { option_map partial_of result ≡ partial_after item.now (partial_of self) token }
    {
        let bits = u32::from(item.field.width) + u32::from(item.field.upper_width);
        match field_said(item.kind, bits, token) {
            Some(field) => self.with(item, field),
            None => None,
        }
    }
}
