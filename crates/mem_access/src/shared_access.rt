//! Accesses to the words that the threads share.
ghost use Rattle.std.specs.Prelude.{◌≡◌, ◌<◌, Some, IfSome, IsSome, IsTrue, option_and_then};
ghost use Rattle.sm_types.specs.declared.scalars.Scalars.{Scalars};
ghost use Rattle.sm_types.specs.declared.insn.Insn.{Insn};
ghost use Rattle.sm_types.specs.declared.shared_op.SharedOp.{SharedOp};
ghost use Rattle.paged_memory.specs.Memory.{AddressSpace};
ghost use Rattle.a64_table.specs.Ranges.{IsInRow, IsAtomic, IsLoadStore};
ghost use Rattle.sm_types.specs.declared.stop.Exception.TheVariants.{Shared};
ghost use Rattle.shared_region.specs.WordRule.{HasWord};
ghost use Rattle.mem_access.specs.Checks.{sp_fault, shared_fault};
ghost use Rattle.mem_access.specs.DataAccess.{of_run};
ghost use Rattle.mem_access.specs.Transfer.{is_access, access_of, load_store_after, atomic_after};
ghost use Rattle.mem_access.specs.Transfer.{registers_after};
ghost use Rattle.mem_access.specs.SharedAccess.{address_of_word, reached_word, on_word, load_store_op};
ghost use Rattle.mem_access.specs.SharedAccess.{literal_op, update_op, atomic_op, touched, checked_fault};

use crate::access::{
    MemoryAccess, atomic_access, load_literal_access, load_store_access, write_base,
};
use crate::checks::{SHARED, SHARED_END};
use crate::values::{literal_loaded, loaded};
use scalar_exec::{read_x, write_x};
use sm_types::{
    Atomic, AtomicOp, Exception, Insn, LoadLiteralOp, LoadStore, LoadStoreOp, OpKind, Scalars,
    SharedOp,
};

/// The shared word of an access, where it is an aligned one of 64 bits to such a word.
#[inline]
fn reached_word(access: &MemoryAccess) -> Option<u32>
    ensures value { result ≡ reached_word access.now }
    ensures small { IfSome result (λ word. word < 512) }
{
    let address = access.address;
    if access.size == 8 && SHARED <= address && address < SHARED_END && address % 8 == 0 {
        Some(((address - SHARED) / 8) as u32)
    } else {
        None
    }
}

/// An operation on the word that is reached.
#[inline]
fn on_word(kind: OpKind, a: u64, b: u64, word: Option<u32>) -> Option<SharedOp>
    ensures { result ≡ on_word kind a b word }
{
    match word {
        Some(place) => Some(SharedOp { kind, place, a, b }),
        None => None,
    }
}

/// The operation of a load or a store of one register.
#[inline]
fn load_store_op(op: LoadStoreOp, value: u64, word: Option<u32>) -> Option<SharedOp>
    ensures { result ≡ load_store_op op value word }
{
    match op {
        LoadStoreOp::Store => on_word(OpKind::Store, value, 0, word),
        LoadStoreOp::Load => on_word(OpKind::Load, 0, 0, word),
        LoadStoreOp::LoadSignedTo64 | LoadStoreOp::LoadSignedTo32 => None,
    }
}

/// The operation of a load from beside the program counter.
#[inline]
fn literal_op(op: LoadLiteralOp, word: Option<u32>) -> Option<SharedOp>
    ensures { result ≡ literal_op op word }
{
    match op {
        LoadLiteralOp::Doubleword => on_word(OpKind::Load, 0, 0, word),
        LoadLiteralOp::Word | LoadLiteralOp::SignedWord => None,
    }
}

/// The operation of LDADD and its kin.
#[inline]
fn update_op(op: AtomicOp, value: u64, word: Option<u32>) -> Option<SharedOp>
    ensures { result ≡ update_op op value word }
{
    let kind = match op {
        AtomicOp::Add => OpKind::Add,
        AtomicOp::Clear => OpKind::Clear,
        AtomicOp::Eor => OpKind::Eor,
        AtomicOp::Set => OpKind::Set,
        AtomicOp::Umax => OpKind::Umax,
        AtomicOp::Umin => OpKind::Umin,
        AtomicOp::Smax | AtomicOp::Smin => return None,
    };
    on_word(kind, value, 0, word)
}

/// The operation of an ordered or atomic access.
#[inline]
fn atomic_op(x: &Atomic, s: &Scalars, word: Option<u32>) -> Option<SharedOp>
    requires { IsAtomic x.now }
    ensures { result ≡ atomic_op x.now s.now word }
{
    match x {
        Atomic::Ldar { .. } => on_word(OpKind::Load, 0, 0, word),
        Atomic::Stlr { rt, .. } => on_word(OpKind::Store, read_x(s, *rt), 0, word),
        Atomic::Cas { rs, rt, .. } => on_word(OpKind::Cas, read_x(s, *rs), read_x(s, *rt), word),
        Atomic::Swap { rs, .. } => on_word(OpKind::Swap, read_x(s, *rs), 0, word),
        Atomic::Update { op, rs, .. } => update_op(*op, read_x(s, *rs), word),
    }
}

/// The check of the base of an access.
#[inline]
fn base_fault(access: &MemoryAccess, s: &Scalars) -> Option<Exception>
    ensures { result ≡ sp_fault (of_run access.now) s.now }
{
    if access.on_sp && s.sp % 16 != 0 {
        Some(Exception::SpAlign)
    } else {
        None
    }
}

/// Writes the base and the register of a load or a store of one register.
#[inline]
#[tactic(auto, unfolding(crate::specs::Transfer::load_store_after))]
fn write_register(x: &LoadStore, s: &mut Scalars, number: u64)
    requires { IsLoadStore x.now }
    ensures { s.new ≡ load_store_after x.now.op x.now number s.old }
{
    write_base(s, &x.address, x.rn);
    match x.op {
        LoadStoreOp::Store => {}
        _ => write_x(s, x.rt, loaded(x.op, x.size, number)),
    }
}

/// Writes the register that an ordered or atomic access gives.
#[inline]
#[tactic(auto, unfolding(crate::specs::Transfer::atomic_after))]
fn write_atomic(x: &Atomic, s: &mut Scalars, number: u64)
    requires { IsAtomic x.now }
    ensures { s.new ≡ atomic_after x.now number s.old }
{
    match x {
        Atomic::Ldar { rt, .. } | Atomic::Swap { rt, .. } | Atomic::Update { rt, .. } => {
            write_x(s, *rt, number);
        }
        Atomic::Cas { rs, .. } => write_x(s, *rs, number),
        Atomic::Stlr { .. } => {}
    }
}

/// The operation on a shared word that an instruction makes: an aligned access of 64 bits to the region by
/// LDR or STR of an X register in any addressing form, LDUR, STUR, LDAR, STLR, CAS, SWP, LDADD, LDCLR, LDEOR,
/// LDSET, LDUMAX or LDUMIN. Any other access that touches a byte of the region is one that `transfer` raises.
#[inline]
#[tactic(auto, unfolding(crate::specs::SharedAccess::touched))]
pub fn touches(insn: &Insn, scalars: &Scalars) -> Option<SharedOp>
    requires { IsTrue (is_access insn.now) → IsInRow insn.now }
    ensures op { result ≡ touched insn.now scalars.now }
    ensures place { IfSome result HasWord }
{
    match insn {
        Insn::LoadStore(x) => {
            let word = reached_word(&load_store_access(x, scalars));
            load_store_op(x.op, read_x(scalars, x.rt), word)
        }
        Insn::LoadLiteral(x) => {
            let word = reached_word(&load_literal_access(x, scalars));
            literal_op(x.op, word)
        }
        Insn::Atomic(x) => {
            let word = reached_word(&atomic_access(x, scalars));
            atomic_op(x, scalars, word)
        }
        _ => None,
    }
}

/// The exception of an access to a shared word: SP is its base, and no multiple of 16. No other check of it
/// can fail.
#[inline]
#[tactic(auto, unfolding(crate::specs::SharedAccess::touched))]
pub fn touched_fault(insn: &Insn, scalars: &Scalars) -> Option<Exception>
    requires fields { IsInRow insn.now }
    requires touched { IsSome (touched insn.now scalars.now) }
    ensures { (m : AddressSpace) → result ≡ checked_fault insn.now scalars.now m }
{
    match insn {
        Insn::LoadStore(x) => base_fault(&load_store_access(x, scalars), scalars),
        Insn::LoadLiteral(x) => base_fault(&load_literal_access(x, scalars), scalars),
        Insn::Atomic(x) => base_fault(&atomic_access(x, scalars), scalars),
        _ => unreachable!(),
    }
}

/// Writes the registers of an instruction whose operation on a shared word has this answer. PC stays as it
/// is.
#[inline]
#[tactic(auto, unfolding(crate::specs::SharedAccess::touched))]
pub fn write_answer(insn: &Insn, scalars: &mut Scalars, answer: u64)
    requires fields { IsInRow insn.now }
    requires touched { IsSome (touched insn.now scalars.old) }
    ensures { scalars.new ≡ registers_after insn.now answer scalars.old }
{
    match insn {
        Insn::LoadStore(x) => write_register(x, scalars, answer),
        Insn::LoadLiteral(x) => write_x(scalars, x.rt, literal_loaded(x.op, answer)),
        Insn::Atomic(x) => write_atomic(x, scalars, answer),
        _ => unreachable!(),
    }
}

/// An access to private memory that makes the operation of an instruction raises at the address of its word.
pub fn touched_is_shared()
    ensures { (it : Insn) (s : Scalars) (op : SharedOp) → touched it s ≡ Some op
        → option_and_then shared_fault (access_of it s) ≡ Some (Shared (address_of_word op.place)) }
{}
