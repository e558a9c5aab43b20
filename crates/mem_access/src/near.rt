//! Loads and stores of one register and of two whose bytes lie near: within the page that is hinted at for them.
ghost use Rattle.std.specs.Prelude.{◌≡◌, ◌*◌, ◌/◌, ◌%◌, ◌^◌, IfSome, IsTrue, None, false};
ghost use Rattle.a64_table.specs.Ranges.{IsLoadStore, IsLoadStorePair};
ghost use Rattle.sm_types.specs.declared.insn.Insn.TheVariants as insn;
ghost use Rattle.paged_memory.specs.PageTable.{KeepsShared};
ghost use Rattle.mem_access.specs.Access.{bytes_in, is_load, is_store, register_size};
ghost use Rattle.mem_access.specs.Runs.{after_load_store, after_pair, denied_read, denied_write};
ghost use Rattle.mem_access.specs.Runs.{number_in};
ghost use Rattle.mem_access.specs.Near.{Makes, MakesNear, WritesNumber, WritesPair};
ghost use Rattle.mem_access.specs.Transfer.{contents_of};

use crate::access::{
    bytes_in, load_store_access, pair_access, register_size, write_base, write_pair_base,
};
use crate::checks::place_fault;
use crate::numbers::number_of;
use crate::pairs::{joined_narrow, joined_wide, numbers_of};
use crate::values::loaded;
use paged_memory::Pages;
use scalar_exec::{read_x, write_x};
use sm_types::{AccessSize, LoadStore, LoadStoreOp, LoadStorePair, PairOp, Scalars};

/// The number at an address, where its bytes lie near; `None` tells nothing.
#[inline(always)]
fn number_near(pages: &Pages, address: u64, size: AccessSize) -> Option<u64>
    ensures value { IfSome result (λ n. n ≡ number_in pages.now.memory address (bytes_in size)) }
    ensures allowed { IfSome result (λ _. denied_read pages.now.memory address (bytes_in size) ≡ None) }
{
    match pages.bytes_near(address, bytes_in(size) as usize) {
        Some(bytes) => Some(number_of(bytes, size)),
        None => None,
    }
}

/// Writes the low bytes of a value, where they lie near, and tells whether it does.
#[inline(always)]
fn write_number_near(pages: &mut Pages, address: u64, size: AccessSize, value: u64) -> bool
    ensures near { WritesNumber address (bytes_in size) value pages.old pages.new result }
    ensures shared { KeepsShared pages.old pages.new }
{
    let bytes = value.to_le_bytes();
    pages.write_near(address, &bytes[..bytes_in(size) as usize])
}

/// Loads a register, where its bytes lie near.
#[inline(always)]
#[tactic(auto, unfolding(crate::specs::Runs::after_load_store))]
fn load_at(x: &LoadStore, address: u64, s: &mut Scalars, pages: &Pages) -> bool
    requires fields { IsLoadStore x.now }
    requires load { IsTrue (is_load x.now.op) }
    ensures { Makes (denied_read pages.now.memory address (bytes_in x.now.size))
        (after_load_store x.now.op x.now address s.old pages.now.memory)
        (contents_of s.old pages.now) (contents_of s.new pages.now) result }
{
    match number_near(pages, address, x.size) {
        Some(value) => {
            write_base(s, &x.address, x.rn);
            write_x(s, x.rt, loaded(x.op, x.size, value));
            true
        }
        None => false,
    }
}

/// Stores a register, where its bytes lie near.
#[inline(always)]
#[tactic(auto, unfolding(crate::specs::Runs::after_load_store))]
fn store_at(x: &LoadStore, address: u64, s: &mut Scalars, pages: &mut Pages) -> bool
    requires { IsLoadStore x.now }
    ensures made { Makes (denied_write pages.old.memory address (bytes_in x.now.size))
        (after_load_store LoadStoreOp.Store x.now address s.old pages.old.memory)
        (contents_of s.old pages.old) (contents_of s.new pages.new) result }
    ensures shared { KeepsShared pages.old pages.new }
    ensures stays { result ≡ false → pages.new ≡ pages.old }
{
    if write_number_near(pages, address, x.size, read_x(s, x.rt)) {
        write_base(s, &x.address, x.rn);
        true
    } else {
        false
    }
}

/// Makes a load of one register where its bytes lie near and no check fails, and tells whether it does. `false`
/// tells nothing, and another way is to be taken.
#[inline(always)]
pub fn load_near(x: &LoadStore, s: &mut Scalars, pages: &Pages) -> bool
    requires fields { IsLoadStore x.now }
    requires load { IsTrue (is_load x.now.op) }
    ensures { MakesNear (insn.LoadStore x.now) s.old pages.now s.new pages.now result }
{
    let access = load_store_access(x, s);
    if place_fault(&access, s).is_some() {
        return false;
    }
    load_at(x, access.address, s, pages)
}

/// Makes a store of one register where its bytes lie near and no check fails, and tells whether it does; no page
/// that is not owned changes. `false` tells nothing, and another way is to be taken.
#[inline(always)]
pub fn store_near(x: &LoadStore, s: &mut Scalars, pages: &mut Pages) -> bool
    requires fields { IsLoadStore x.now }
    requires store { IsTrue (is_store x.now.op) }
    ensures made { MakesNear (insn.LoadStore x.now) s.old pages.old s.new pages.new result }
    ensures shared { KeepsShared pages.old pages.new }
{
    let access = load_store_access(x, s);
    if place_fault(&access, s).is_some() {
        return false;
    }
    store_at(x, access.address, s, pages)
}

/// The two numbers at an address, where their bytes lie near; `None` tells nothing.
#[inline(always)]
fn pair_near(pages: &Pages, address: u64, wide: bool) -> Option<(u64, u64)>
    ensures first { let whole = number_in pages.now.memory address (2 * register_size wide)
        in IfSome result (λ p. p.0 ≡ whole % 2 ^ (8 * register_size wide)) }
    ensures second { let whole = number_in pages.now.memory address (2 * register_size wide)
        in IfSome result (λ p. p.1 ≡ whole / 2 ^ (8 * register_size wide)) }
    ensures allowed { IfSome result (λ _. denied_read pages.now.memory address (2 * register_size wide) ≡ None) }
{
    match pages.bytes_near(address, 2 * register_size(wide) as usize) {
        Some(bytes) => Some(numbers_of(bytes, wide)),
        None => None,
    }
}

/// Writes the low bytes of two values, where they lie near, and tells whether it does.
#[inline(always)]
fn write_pair_near(pages: &mut Pages, address: u64, wide: bool, first: u64, second: u64) -> bool
    ensures near { WritesPair address wide first second pages.old pages.new result }
    ensures shared { KeepsShared pages.old pages.new }
{
    if wide {
        pages.write_near(address, &joined_wide(first, second))
    } else {
        pages.write_near(address, &joined_narrow(first, second))
    }
}

/// Loads two registers, where their bytes lie near.
#[inline(always)]
#[tactic(auto, unfolding(crate::specs::Runs::after_pair, crate::specs::Transfer::pair_after))]
fn load_pair_at(x: &LoadStorePair, address: u64, s: &mut Scalars, pages: &Pages) -> bool
    requires { IsLoadStorePair x.now }
    ensures { Makes (denied_read pages.now.memory address (2 * register_size x.now.wide))
        (after_pair PairOp.Ldp x.now address s.old pages.now.memory)
        (contents_of s.old pages.now) (contents_of s.new pages.now) result }
{
    match pair_near(pages, address, x.wide) {
        Some((first, second)) => {
            write_pair_base(s, x);
            write_x(s, x.rt, first);
            write_x(s, x.rt2, second);
            true
        }
        None => false,
    }
}

/// Stores two registers, where their bytes lie near.
#[inline(always)]
#[tactic(auto, unfolding(crate::specs::Runs::after_pair, crate::specs::Transfer::pair_after))]
fn store_pair_at(x: &LoadStorePair, address: u64, s: &mut Scalars, pages: &mut Pages) -> bool
    requires { IsLoadStorePair x.now }
    ensures made { Makes (denied_write pages.old.memory address (2 * register_size x.now.wide))
        (after_pair PairOp.Stp x.now address s.old pages.old.memory)
        (contents_of s.old pages.old) (contents_of s.new pages.new) result }
    ensures shared { KeepsShared pages.old pages.new }
    ensures stays { result ≡ false → pages.new ≡ pages.old }
{
    if write_pair_near(pages, address, x.wide, read_x(s, x.rt), read_x(s, x.rt2)) {
        write_pair_base(s, x);
        true
    } else {
        false
    }
}

/// Makes a load of two registers where their bytes lie near and no check fails, and tells whether it does. `false`
/// tells nothing, and another way is to be taken.
#[inline(always)]
pub fn load_pair_near(x: &LoadStorePair, s: &mut Scalars, pages: &Pages) -> bool
    requires fields { IsLoadStorePair x.now }
    requires load { x.now.op ≡ PairOp.Ldp }
    ensures { MakesNear (insn.LoadStorePair x.now) s.old pages.now s.new pages.now result }
{
    let access = pair_access(x, s);
    if place_fault(&access, s).is_some() {
        return false;
    }
    load_pair_at(x, access.address, s, pages)
}

/// Makes a store of two registers where their bytes lie near and no check fails, and tells whether it does; no page
/// that is not owned changes. `false` tells nothing, and another way is to be taken.
#[inline(always)]
pub fn store_pair_near(x: &LoadStorePair, s: &mut Scalars, pages: &mut Pages) -> bool
    requires fields { IsLoadStorePair x.now }
    requires store { x.now.op ≡ PairOp.Stp }
    ensures made { MakesNear (insn.LoadStorePair x.now) s.old pages.old s.new pages.new result }
    ensures shared { KeepsShared pages.old pages.new }
{
    let access = pair_access(x, s);
    if place_fault(&access, s).is_some() {
        return false;
    }
    store_pair_at(x, access.address, s, pages)
}
