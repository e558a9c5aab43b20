//! The loads, stores and atomic instructions.
ghost use Rattle.std.specs.Prelude.{◌≡◌, ◌≢◌, ◌*◌, IsTrue, Err};
ghost use Rattle.a64_table.specs.Ranges.{IsInRow, IsLoadStore, IsLoadLiteral, IsLoadStorePair};
ghost use Rattle.paged_memory.specs.Memory.{run_of};
ghost use Rattle.paged_memory.specs.PageTable.{AreOwned, KeepsOwned, Owns};
ghost use Rattle.mem_access.specs.Access.{bytes_in, literal_size, register_size, is_load, load_store_access};
ghost use Rattle.mem_access.specs.Access.{load_literal_access, pair_access};
ghost use Rattle.mem_access.specs.Transfer.{is_access, contents_of, HasRoomFor, Transfers, after_access};
ghost use Rattle.mem_access.specs.Transfer.{transfer_fault, pair_after, pair_stored, raised_by, writes_of};
ghost use Rattle.mem_access.specs.Runs.{denied_read, denied_write, run_fault, after_load_store};
ghost use Rattle.mem_access.specs.Runs.{after_load_literal, after_pair, after_run, run_transfer_fault};
ghost use Rattle.mem_access.specs.Runs.{RunHasRoom, RunHasRoomFor};

use crate::access::{
    literal_size, load_literal_access, load_store_access, pair_access, write_base, write_pair_base,
};
use crate::atomic::transfer_atomic;
use crate::checks::place_fault;
use crate::numbers::{read_number, write_number};
use crate::pairs::{read_pair, write_pair};
use crate::stop::AccessStop;
use crate::values::{literal_loaded, loaded};
use paged_memory::Pages;
use scalar_exec::{read_x, write_x};
use sm_types::{Insn, LoadLiteral, LoadStore, LoadStoreOp, LoadStorePair, PairOp, Scalars};

/// Stores a register.
#[inline(always)]
#[tactic(auto, unfolding(crate::specs::Runs::after_load_store))]
fn store(x: &LoadStore, address: u64, s: &mut Scalars, pages: &mut Pages) -> Result<(), AccessStop>
    requires { IsLoadStore x.now }
    ensures made { Transfers (denied_write pages.old.memory address (bytes_in x.now.size))
        (after_load_store LoadStoreOp.Store x.now address s.old pages.old.memory)
        (contents_of s.old pages.old) (contents_of s.new pages.new) result }
    ensures room { AreOwned pages.old address (bytes_in x.now.size) → result ≢ Err AccessStop.Memory }
    ensures owned { Owns raised_by (run_of address (bytes_in x.now.size)) pages.old pages.new result }
{
    match write_number(pages, address, x.size, read_x(s, x.rt)) {
        Ok(()) => {
            write_base(s, &x.address, x.rn);
            Ok(())
        }
        Err(stop) => Err(stop),
    }
}

/// Loads a register.
#[inline(always)]
#[tactic(auto, unfolding(crate::specs::Runs::after_load_store))]
fn load(x: &LoadStore, address: u64, s: &mut Scalars, pages: &Pages) -> Result<(), AccessStop>
    requires fields { IsLoadStore x.now }
    requires load { IsTrue (is_load x.now.op) }
    ensures made { Transfers (denied_read pages.now.memory address (bytes_in x.now.size))
        (after_load_store x.now.op x.now address s.old pages.now.memory)
        (contents_of s.old pages.now) (contents_of s.new pages.now) result }
    ensures room { result ≢ Err AccessStop.Memory }
{
    match read_number(pages, address, x.size) {
        Ok(value) => {
            write_base(s, &x.address, x.rn);
            write_x(s, x.rt, loaded(x.op, x.size, value));
            Ok(())
        }
        Err(exception) => Err(AccessStop::Raise(exception)),
    }
}

/// A load or store of one register.
#[inline(always)]
fn transfer_load_store(x: &LoadStore, s: &mut Scalars, pages: &mut Pages) -> Result<(), AccessStop>
    requires { IsLoadStore x.now }
    ensures made { Transfers (run_fault (load_store_access x.now s.old) s.old pages.old.memory)
        (after_load_store x.now.op x.now (load_store_access x.now s.old).address s.old pages.old.memory)
        (contents_of s.old pages.old) (contents_of s.new pages.new) result }
    ensures room { RunHasRoom (load_store_access x.now s.old) pages.old → result ≢ Err AccessStop.Memory }
    ensures owned { Owns raised_by (writes_of (Insn.LoadStore x.now) s.old pages.old.memory)
        pages.old pages.new result }
{
    let access = load_store_access(x, s);
    match place_fault(&access, s) {
        Some(exception) => Err(AccessStop::Raise(exception)),
        None => match x.op {
            LoadStoreOp::Store => store(x, access.address, s, pages),
            _ => load(x, access.address, s, pages),
        },
    }
}

/// A load of one register, which changes no page and needs no memory.
#[inline(always)]
pub fn load_one(x: &LoadStore, s: &mut Scalars, pages: &Pages) -> Result<(), AccessStop>
    requires fields { IsLoadStore x.now }
    requires load { IsTrue (is_load x.now.op) }
    ensures made { Transfers (transfer_fault (Insn.LoadStore x.now) s.old pages.now.memory)
        (after_access (Insn.LoadStore x.now) s.old pages.now.memory)
        (contents_of s.old pages.now) (contents_of s.new pages.now) result }
    ensures room { result ≢ Err AccessStop.Memory }
{
    let access = load_store_access(x, s);
    match place_fault(&access, s) {
        Some(exception) => Err(AccessStop::Raise(exception)),
        None => load(x, access.address, s, pages),
    }
}

/// Loads a register from beside the program counter.
#[inline]
#[tactic(auto, unfolding(crate::specs::Runs::after_load_literal))]
fn load_literal(
    x: &LoadLiteral,
    address: u64,
    s: &mut Scalars,
    pages: &Pages,
) -> Result<(), AccessStop>
    requires { IsLoadLiteral x.now }
    ensures made { Transfers (denied_read pages.now.memory address (literal_size x.now.op))
        (after_load_literal x.now address s.old pages.now.memory)
        (contents_of s.old pages.now) (contents_of s.new pages.now) result }
    ensures room { result ≢ Err AccessStop.Memory }
{
    match read_number(pages, address, literal_size(x.op)) {
        Ok(value) => {
            write_x(s, x.rt, literal_loaded(x.op, value));
            Ok(())
        }
        Err(exception) => Err(AccessStop::Raise(exception)),
    }
}

/// A load from beside the program counter.
#[inline(never)]
fn transfer_load_literal(x: &LoadLiteral, s: &mut Scalars, pages: &Pages) -> Result<(), AccessStop>
    requires { IsLoadLiteral x.now }
    ensures made { Transfers (run_fault (load_literal_access x.now s.old) s.old pages.now.memory)
        (after_load_literal x.now (load_literal_access x.now s.old).address s.old pages.now.memory)
        (contents_of s.old pages.now) (contents_of s.new pages.now) result }
    ensures room { result ≢ Err AccessStop.Memory }
{
    let access = load_literal_access(x, s);
    match place_fault(&access, s) {
        Some(exception) => Err(AccessStop::Raise(exception)),
        None => load_literal(x, access.address, s, pages),
    }
}

/// Stores two registers.
#[inline(always)]
#[tactic(auto, unfolding(crate::specs::Runs::after_pair, crate::specs::Transfer::pair_after))]
fn store_registers(
    x: &LoadStorePair,
    address: u64,
    s: &mut Scalars,
    pages: &mut Pages,
) -> Result<(), AccessStop>
    requires { IsLoadStorePair x.now }
    ensures made { Transfers (denied_write pages.old.memory address (2 * register_size x.now.wide))
        (after_pair PairOp.Stp x.now address s.old pages.old.memory)
        (contents_of s.old pages.old) (contents_of s.new pages.new) result }
    ensures room { AreOwned pages.old address (2 * register_size x.now.wide)
        → result ≢ Err AccessStop.Memory }
    ensures owned { Owns raised_by (run_of address (2 * register_size x.now.wide))
        pages.old pages.new result }
{
    match write_pair(pages, address, x.wide, read_x(s, x.rt), read_x(s, x.rt2)) {
        Ok(()) => {
            write_pair_base(s, x);
            Ok(())
        }
        Err(stop) => Err(stop),
    }
}

/// Loads two registers.
#[inline(always)]
#[tactic(auto, unfolding(crate::specs::Runs::after_pair, crate::specs::Transfer::pair_after))]
fn load_registers(
    x: &LoadStorePair,
    address: u64,
    s: &mut Scalars,
    pages: &Pages,
) -> Result<(), AccessStop>
    requires { IsLoadStorePair x.now }
    ensures made { Transfers (denied_read pages.now.memory address (2 * register_size x.now.wide))
        (after_pair PairOp.Ldp x.now address s.old pages.now.memory)
        (contents_of s.old pages.now) (contents_of s.new pages.now) result }
    ensures room { result ≢ Err AccessStop.Memory }
{
    match read_pair(pages, address, x.wide) {
        Ok((first, second)) => {
            write_pair_base(s, x);
            write_x(s, x.rt, first);
            write_x(s, x.rt2, second);
            Ok(())
        }
        Err(exception) => Err(AccessStop::Raise(exception)),
    }
}

/// A load or store of two registers.
#[inline(never)]
fn transfer_pair(x: &LoadStorePair, s: &mut Scalars, pages: &mut Pages) -> Result<(), AccessStop>
    requires { IsLoadStorePair x.now }
    ensures made { Transfers (run_fault (pair_access x.now s.old) s.old pages.old.memory)
        (after_pair x.now.op x.now (pair_access x.now s.old).address s.old pages.old.memory)
        (contents_of s.old pages.old) (contents_of s.new pages.new) result }
    ensures room { RunHasRoom (pair_access x.now s.old) pages.old → result ≢ Err AccessStop.Memory }
    ensures owned { Owns raised_by (writes_of (Insn.LoadStorePair x.now) s.old pages.old.memory)
        pages.old pages.new result }
{
    let access = pair_access(x, s);
    match place_fault(&access, s) {
        Some(exception) => Err(AccessStop::Raise(exception)),
        None => match x.op {
            PairOp::Stp => store_registers(x, access.address, s, pages),
            PairOp::Ldp => load_registers(x, access.address, s, pages),
        },
    }
}

/// A load of two registers, which changes no page and needs no memory.
#[inline(always)]
pub fn load_pair(x: &LoadStorePair, s: &mut Scalars, pages: &Pages) -> Result<(), AccessStop>
    requires fields { IsLoadStorePair x.now }
    requires load { x.now.op ≡ PairOp.Ldp }
    ensures made { Transfers (transfer_fault (Insn.LoadStorePair x.now) s.old pages.now.memory)
        (after_access (Insn.LoadStorePair x.now) s.old pages.now.memory)
        (contents_of s.old pages.now) (contents_of s.new pages.now) result }
    ensures room { result ≢ Err AccessStop.Memory }
{
    let access = pair_access(x, s);
    match place_fault(&access, s) {
        Some(exception) => Err(AccessStop::Raise(exception)),
        None => load_registers(x, access.address, s, pages),
    }
}

/// A load from beside the program counter, which changes no page and needs no memory.
#[inline(always)]
pub fn load_beside(x: &LoadLiteral, s: &mut Scalars, pages: &Pages) -> Result<(), AccessStop>
    requires { IsLoadLiteral x.now }
    ensures made { Transfers (transfer_fault (Insn.LoadLiteral x.now) s.old pages.now.memory)
        (after_access (Insn.LoadLiteral x.now) s.old pages.now.memory)
        (contents_of s.old pages.now) (contents_of s.new pages.now) result }
    ensures room { result ≢ Err AccessStop.Memory }
{
    transfer_load_literal(x, s, pages)
}

/// The instructions of this crate, as accesses to consecutive bytes.
#[inline(always)]
fn transfer_run(insn: &Insn, scalars: &mut Scalars, pages: &mut Pages) -> Result<(), AccessStop>
    requires access { IsTrue (is_access insn.now) }
    requires fields { IsInRow insn.now }
    ensures made { Transfers (run_transfer_fault insn.now scalars.old pages.old.memory)
        (after_run insn.now scalars.old pages.old.memory)
        (contents_of scalars.old pages.old) (contents_of scalars.new pages.new) result }
    ensures room { RunHasRoomFor insn.now scalars.old pages.old → result ≢ Err AccessStop.Memory }
    ensures owned { Owns raised_by (writes_of insn.now scalars.old pages.old.memory)
        pages.old pages.new result }
{
    match insn {
        Insn::LoadStore(x) => transfer_load_store(x, scalars, pages),
        Insn::LoadLiteral(x) => transfer_load_literal(x, scalars, pages),
        Insn::LoadStorePair(x) => transfer_pair(x, scalars, pages),
        Insn::Atomic(x) => transfer_atomic(x, scalars, pages),
        _ => unreachable!(),
    }
}

/// The instructions of this crate: makes all checks of the access, and then the access, which makes the pages
/// that it writes owned, and no others. Any answer but Ok leaves registers and pages as they were, but that
/// more pages may be owned after `Memory`, which comes only where the access writes a page that is not owned.
/// PC stays as it is.
#[inline(always)]
pub fn transfer(insn: &Insn, scalars: &mut Scalars, pages: &mut Pages) -> Result<(), AccessStop>
    requires access { IsTrue (is_access insn.now) }
    requires fields { IsInRow insn.now }
    ensures made { Transfers (transfer_fault insn.now scalars.old pages.old.memory)
        (after_access insn.now scalars.old pages.old.memory)
        (contents_of scalars.old pages.old) (contents_of scalars.new pages.new) result }
    ensures room { HasRoomFor insn.now scalars.old pages.old → result ≢ Err AccessStop.Memory }
    ensures owned { Owns raised_by (writes_of insn.now scalars.old pages.old.memory)
        pages.old pages.new result }
    ensures kept { KeepsOwned pages.old pages.new }
{
    transfer_run(insn, scalars, pages)
}
