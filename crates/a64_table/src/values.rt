//! What the number of a field stands for.
ghost use Rattle.std.specs.Prelude.{◌≡◌, true};
ghost use Rattle.insn_forms.specs.Fields.{field_in, is_field};
ghost use Rattle.a64_table.specs.Values.{access_size_of, condition_of, extend_of, load_store_op_of, shift_of};

use insn_forms::{Field, field_in};
use sm_types::{AccessSize, Condition, Extend, LoadStoreOp, ShiftKind};

// The variant that each number stands for; the last stands for all others.
macro_rules! variant {
    ($number:expr; $kind:ident [$($n:literal $variant:ident),*] $last:ident) => {
        match $number { $($n => $kind::$variant,)* _ => $kind::$last }
    };
}

/// The condition of a field of 4 bits.
#[inline(always)]
#[tactic(auto, unfolding(crate::specs::Values::condition_of))]
pub fn condition_of(it: Field, word: u32) -> Condition
    requires { is_field it ≡ true }
    ensures { result ≡ condition_of (field_in it word) }
{
    variant!(field_in(&it, word); Condition [
        0 Eq, 1 Ne, 2 Cs, 3 Cc, 4 Mi, 5 Pl, 6 Vs, 7 Vc, 8 Hi,
        9 Ls, 10 Ge, 11 Lt, 12 Gt, 13 Le, 14 Al
    ] Nv)
}

/// The shift of a field of 2 bits.
#[inline(always)]
#[tactic(auto, unfolding(crate::specs::Values::shift_of))]
pub fn shift_of(it: Field, word: u32) -> ShiftKind
    requires { is_field it ≡ true }
    ensures { result ≡ shift_of (field_in it word) }
{
    variant!(field_in(&it, word); ShiftKind [0 Lsl, 1 Lsr, 2 Asr] Ror)
}

/// The extension of a field of 3 bits.
#[inline(always)]
#[tactic(auto, unfolding(crate::specs::Values::extend_of))]
pub fn extend_of(it: Field, word: u32) -> Extend
    requires { is_field it ≡ true }
    ensures { result ≡ extend_of (field_in it word) }
{
    variant!(field_in(&it, word); Extend [0 Uxtb, 1 Uxth, 2 Uxtw, 3 Uxtx, 4 Sxtb, 5 Sxth, 6 Sxtw] Sxtx)
}

/// The size of an access from its logarithm, 2 bits.
#[inline(always)]
#[tactic(auto, unfolding(crate::specs::Values::access_size_of))]
pub fn access_size_of(it: Field, word: u32) -> AccessSize
    requires { is_field it ≡ true }
    ensures { result ≡ access_size_of (field_in it word) }
{
    variant!(field_in(&it, word); AccessSize [0 Byte, 1 Halfword, 2 Word] Doubleword)
}

/// The operation of opc, 2 bits, in loads and stores of one register.
#[inline(always)]
#[tactic(auto, unfolding(crate::specs::Values::load_store_op_of))]
pub fn load_store_op_of(it: Field, word: u32) -> LoadStoreOp
    requires { is_field it ≡ true }
    ensures { result ≡ load_store_op_of (field_in it word) }
{
    variant!(field_in(&it, word); LoadStoreOp [0 Store, 1 Load, 2 LoadSignedTo64] LoadSignedTo32)
}
