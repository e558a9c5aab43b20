//! Which bytes an instruction accesses, and how.
ghost use Rattle.std.specs.Prelude.{◌≡◌, ◌+◌, ◌*◌, ◌%◌, ◌^◌, ◌<◌, ◌≤◌};
ghost use Rattle.a64_table.specs.Ranges.{IsAddress, IsLoadStore, IsLoadLiteral, IsLoadStorePair, IsAtomic};
ghost use Rattle.scalar_exec.specs.Registers.{x_or_sp};
ghost use Rattle.mem_access.specs.Access.{bytes_in, scale_of, literal_size, register_size, address_of};
ghost use Rattle.mem_access.specs.Access.{with_base, offset_base, pair_address, with_pair_base, is_load};
ghost use Rattle.mem_access.specs.Access.{is_store, is_ldp, is_stp, load_store_access, load_literal_access};
ghost use Rattle.mem_access.specs.Access.{pair_access, atomic_access, at_base};

use scalar_exec::{address_at, branch_target, extend, read_x, read_x_or_sp, write_x_or_sp};
use sm_types::{
    AccessSize, Address, Atomic, LoadLiteral, LoadLiteralOp, LoadStore, LoadStoreOp, LoadStorePair,
    PairIndex, PairOp, Scalars,
};

/// An access to consecutive bytes, in the order of their transfer.
#[derive(Clone, Copy)]
pub struct MemoryAccess {
    /// The address of the first byte; addresses go round at 2^64.
    pub address: u64,
    /// In bytes.
    pub size: u64,
    /// SP is the base.
    pub on_sp: bool,
    /// The address must be a multiple of the size.
    pub aligned: bool,
    pub reads: bool,
    pub writes: bool,
}

/// The size in bytes.
#[inline(always)]
pub fn bytes_in(size: AccessSize) -> u64
    ensures value { result ≡ bytes_in size }
    ensures some { 1 ≤ result }
    ensures small { result ≤ 8 }
{
    match size {
        AccessSize::Byte => 1,
        AccessSize::Halfword => 2,
        AccessSize::Word => 4,
        AccessSize::Doubleword => 8,
    }
}

/// The access size where a register is scaled, else 1.
#[inline(always)]
fn scale_of(scaled: bool, size: AccessSize) -> u64
    ensures { result ≡ scale_of scaled size }
{
    if scaled { bytes_in(size) } else { 1 }
}

/// The address of an access, from its base.
#[inline(always)]
#[tactic(auto, unfolding(crate::specs::Access::address_of))]
fn address_of(address: &Address, size: AccessSize, base: u64, s: &Scalars) -> u64
    requires { IsAddress address.now }
    ensures { result ≡ address_of address.now size base s.now }
{
    match address {
        Address::Offset { imm } => base.wrapping_add(u64::from(*imm) * bytes_in(size)),
        Address::Unscaled { offset } => address_at(base, i64::from(*offset)),
        Address::PostIndex { offset: _ } => base,
        Address::PreIndex { offset } => address_at(base, i64::from(*offset)),
        Address::Register {
            rm,
            extend: kind,
            scaled,
        } => base.wrapping_add(extend(read_x(s, *rm), *kind, true).wrapping_mul(scale_of(
            *scaled, size,
        ))),
    }
}

/// Writes the base where the access does.
#[inline(always)]
#[tactic(auto, unfolding(crate::specs::Access::with_base))]
pub fn write_base(s: &mut Scalars, address: &Address, rn: u8)
    requires { rn < 32 }
    ensures value { s.new ≡ with_base address.now rn s.old }
    ensures place { s.new.pc ≡ s.old.pc }
{
    match address {
        Address::PostIndex { offset } | Address::PreIndex { offset } => {
            let base = address_at(read_x_or_sp(s, rn), i64::from(*offset));
            write_x_or_sp(s, rn, base);
        }
        Address::Offset { imm: _ }
        | Address::Unscaled { offset: _ }
        | Address::Register {
            rm: _,
            extend: _,
            scaled: _,
        } => {}
    }
}

/// The access of a load or store of one register.
#[inline(always)]
#[tactic(auto, unfolding(crate::specs::Access::load_store_access))]
pub fn load_store_access(x: &LoadStore, s: &Scalars) -> MemoryAccess
    requires { IsLoadStore x.now }
    ensures value { result ≡ load_store_access x.now s.now }
    ensures some { 1 ≤ result.size }
    ensures small { result.size ≤ 16 }
{
    let writes = x.op == LoadStoreOp::Store;
    MemoryAccess {
        address: address_of(&x.address, x.size, read_x_or_sp(s, x.rn), s),
        size: bytes_in(x.size),
        on_sp: x.rn == 31,
        aligned: false,
        reads: !writes,
        writes,
    }
}

/// The size of a load from beside the program counter.
#[inline(always)]
pub fn literal_size(op: LoadLiteralOp) -> AccessSize
    ensures { bytes_in result ≡ literal_size op }
{
    match op {
        LoadLiteralOp::Word | LoadLiteralOp::SignedWord => AccessSize::Word,
        LoadLiteralOp::Doubleword => AccessSize::Doubleword,
    }
}

/// The access of a load from beside the program counter.
#[inline(always)]
#[tactic(auto, unfolding(crate::specs::Access::load_literal_access))]
pub fn load_literal_access(x: &LoadLiteral, s: &Scalars) -> MemoryAccess
    ensures value { result ≡ load_literal_access x.now s.now }
    ensures some { 1 ≤ result.size }
    ensures small { result.size ≤ 16 }
{
    MemoryAccess {
        address: branch_target(s.pc, x.words),
        size: bytes_in(literal_size(x.op)),
        on_sp: false,
        aligned: false,
        reads: true,
        writes: false,
    }
}

/// The bytes of one of a pair's registers.
#[inline(always)]
pub fn register_size(wide: bool) -> u64
    ensures value { result ≡ register_size wide }
    ensures some { 1 ≤ result }
    ensures small { result ≤ 8 }
{
    if wide { 8 } else { 4 }
}

/// The base and a pair's offset.
#[inline(always)]
fn offset_base(x: &LoadStorePair, s: &Scalars) -> u64
    requires { IsLoadStorePair x.now }
    ensures { result ≡ offset_base x.now s.now }
{
    let unit = if x.wide { 8 } else { 4 };
    address_at(read_x_or_sp(s, x.rn), i64::from(x.offset) * unit)
}

/// The address of a pair's access.
#[inline(always)]
#[tactic(auto, unfolding(crate::specs::Access::pair_address))]
fn pair_address(x: &LoadStorePair, s: &Scalars) -> u64
    requires { IsLoadStorePair x.now }
    ensures { result ≡ pair_address x.now.index x.now s.now }
{
    match x.index {
        PairIndex::Offset | PairIndex::PreIndex => offset_base(x, s),
        PairIndex::PostIndex => read_x_or_sp(s, x.rn),
    }
}

/// Writes the base where a pair's access does.
#[inline(always)]
#[tactic(auto, unfolding(crate::specs::Access::with_pair_base))]
pub fn write_pair_base(s: &mut Scalars, x: &LoadStorePair)
    requires { IsLoadStorePair x.now }
    ensures value { s.new ≡ with_pair_base x.now.index x.now s.old }
    ensures place { s.new.pc ≡ s.old.pc }
{
    match x.index {
        PairIndex::Offset => {}
        PairIndex::PostIndex | PairIndex::PreIndex => {
            let base = offset_base(x, s);
            write_x_or_sp(s, x.rn, base);
        }
    }
}

/// The access of a load or store of two registers.
#[inline(always)]
#[tactic(auto, unfolding(crate::specs::Access::pair_access))]
pub fn pair_access(x: &LoadStorePair, s: &Scalars) -> MemoryAccess
    requires { IsLoadStorePair x.now }
    ensures value { result ≡ pair_access x.now s.now }
    ensures some { 1 ≤ result.size }
    ensures small { result.size ≤ 16 }
{
    let reads = x.op == PairOp::Ldp;
    MemoryAccess {
        address: pair_address(x, s),
        size: 2 * register_size(x.wide),
        on_sp: x.rn == 31,
        aligned: false,
        reads,
        writes: !reads,
    }
}

/// An ordered or atomic access at a base.
#[inline(always)]
fn at_base(size: AccessSize, rn: u8, reads: bool, writes: bool, s: &Scalars) -> MemoryAccess
    requires { rn < 32 }
    ensures value { result ≡ at_base size rn reads writes s.now }
    ensures some { 1 ≤ result.size }
    ensures small { result.size ≤ 16 }
{
    MemoryAccess {
        address: read_x_or_sp(s, rn),
        size: bytes_in(size),
        on_sp: rn == 31,
        aligned: true,
        reads,
        writes,
    }
}

/// The access of an ordered or atomic instruction.
#[inline(always)]
#[tactic(auto, unfolding(crate::specs::Access::atomic_access))]
pub fn atomic_access(x: &Atomic, s: &Scalars) -> MemoryAccess
    requires { IsAtomic x.now }
    ensures value { result ≡ atomic_access x.now s.now }
    ensures some { 1 ≤ result.size }
    ensures small { result.size ≤ 16 }
{
    match x {
        Atomic::Ldar { size, rn, rt: _ } => at_base(*size, *rn, true, false, s),
        Atomic::Stlr { size, rn, rt: _ } => at_base(*size, *rn, false, true, s),
        Atomic::Cas { size, rn, .. } => at_base(*size, *rn, true, true, s),
        Atomic::Swap { size, rn, .. } => at_base(*size, *rn, true, true, s),
        Atomic::Update { size, rn, .. } => at_base(*size, *rn, true, true, s),
    }
}
