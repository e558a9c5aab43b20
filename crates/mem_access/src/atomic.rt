//! The ordered and atomic accesses.
ghost use Rattle.std.specs.Prelude.{◌≢◌, ◌==◌, ◌<◌, [], cond, Err};
ghost use Rattle.a64_table.specs.Ranges.{IsAtomic};
ghost use Rattle.scalar_exec.specs.Registers.{x_of, with_x};
ghost use Rattle.paged_memory.specs.PageTable.{AreOwned, Owns};
ghost use Rattle.paged_memory.specs.Memory.{run_of};
ghost use Rattle.mem_access.specs.Access.{bytes_in, atomic_access};
ghost use Rattle.mem_access.specs.Transfer.{contents_of, raised_by, writes_of, Transfers};
ghost use Rattle.mem_access.specs.Values.{low_bytes, updated};
ghost use Rattle.mem_access.specs.Runs.{denied_read, denied_write, denied_update, run_fault, after_atomic};
ghost use Rattle.mem_access.specs.Runs.{RunHasRoom, number_in, with_number};

use crate::access::atomic_access;
use crate::checks::place_fault;
use crate::exchange::{compare_and_swap, swap, update};
use crate::numbers::{read_number, write_number};
use crate::stop::AccessStop;
use crate::values::low_bytes;
use paged_memory::Pages;
use scalar_exec::{read_x, write_x};
use sm_types::{AccessSize, Atomic, AtomicOp, Insn, Scalars};

/// An ordered load.
fn load_ordered(
    address: u64,
    size: AccessSize,
    rt: u8,
    s: &mut Scalars,
    pages: &Pages,
) -> Result<(), AccessStop>
    requires { rt < 32 }
    ensures made { Transfers (denied_read pages.now.memory address (bytes_in size))
        (record {
          scalars = with_x s.old rt (number_in pages.now.memory address (bytes_in size));
          memory = pages.now.memory;
        })
        (contents_of s.old pages.now) (contents_of s.new pages.now) result }
    ensures room { result ≢ Err AccessStop.Memory }
{
    match read_number(pages, address, size) {
        Ok(value) => {
            write_x(s, rt, value);
            Ok(())
        }
        Err(exception) => Err(AccessStop::Raise(exception)),
    }
}

/// An ordered store.
fn store_ordered(
    address: u64,
    size: AccessSize,
    rt: u8,
    s: &Scalars,
    pages: &mut Pages,
) -> Result<(), AccessStop>
    requires { rt < 32 }
    ensures made { Transfers (denied_write pages.old.memory address (bytes_in size))
        (record {
          scalars = s.now;
          memory = with_number pages.old.memory address (bytes_in size) (x_of s.now rt);
        })
        (contents_of s.now pages.old) (contents_of s.now pages.new) result }
    ensures room { AreOwned pages.old address (bytes_in size) → result ≢ Err AccessStop.Memory }
    ensures owned { Owns raised_by (run_of address (bytes_in size)) pages.old pages.new result }
{
    write_number(pages, address, size, read_x(s, rt))
}

/// A comparison with a register, and a swap where it holds.
fn swap_where_equal(
    address: u64,
    size: AccessSize,
    rs: u8,
    rt: u8,
    s: &mut Scalars,
    pages: &mut Pages,
) -> Result<(), AccessStop>
    requires rs { rs < 32 }
    requires rt { rt < 32 }
    ensures made { Transfers (denied_update pages.old.memory address (bytes_in size))
        (record {
          scalars = with_x s.old rs (number_in pages.old.memory address (bytes_in size));
          memory = cond
              (number_in pages.old.memory address (bytes_in size)
              == low_bytes (bytes_in size) (x_of s.old rs))
              (with_number pages.old.memory address (bytes_in size) (x_of s.old rt)) pages.old.memory;
        })
        (contents_of s.old pages.old) (contents_of s.new pages.new) result }
    ensures room { AreOwned pages.old address (bytes_in size) → result ≢ Err AccessStop.Memory }
    ensures owned { Owns raised_by (cond
        (number_in pages.old.memory address (bytes_in size) == low_bytes (bytes_in size) (x_of s.old rs))
        (run_of address (bytes_in size)) []) pages.old pages.new result }
{
    let expected = low_bytes(size, read_x(s, rs));
    match compare_and_swap(pages, address, size, expected, read_x(s, rt)) {
        Ok(old) => {
            write_x(s, rs, old);
            Ok(())
        }
        Err(stop) => Err(stop),
    }
}

/// A swap with a register.
fn swap_register(
    address: u64,
    size: AccessSize,
    rs: u8,
    rt: u8,
    s: &mut Scalars,
    pages: &mut Pages,
) -> Result<(), AccessStop>
    requires rs { rs < 32 }
    requires rt { rt < 32 }
    ensures made { Transfers (denied_update pages.old.memory address (bytes_in size))
        (record {
          scalars = with_x s.old rt (number_in pages.old.memory address (bytes_in size));
          memory = with_number pages.old.memory address (bytes_in size) (x_of s.old rs);
        })
        (contents_of s.old pages.old) (contents_of s.new pages.new) result }
    ensures room { AreOwned pages.old address (bytes_in size) → result ≢ Err AccessStop.Memory }
    ensures owned { Owns raised_by (run_of address (bytes_in size)) pages.old pages.new result }
{
    match swap(pages, address, size, read_x(s, rs)) {
        Ok(old) => {
            write_x(s, rt, old);
            Ok(())
        }
        Err(stop) => Err(stop),
    }
}

/// An operation with a register.
fn update_by_register(
    op: AtomicOp,
    address: u64,
    size: AccessSize,
    rs: u8,
    rt: u8,
    s: &mut Scalars,
    pages: &mut Pages,
) -> Result<(), AccessStop>
    requires rs { rs < 32 }
    requires rt { rt < 32 }
    ensures made { Transfers (denied_update pages.old.memory address (bytes_in size))
        (record {
          scalars = with_x s.old rt (number_in pages.old.memory address (bytes_in size));
          memory = with_number pages.old.memory address (bytes_in size)
              (updated op (bytes_in size) (number_in pages.old.memory address (bytes_in size))
              (low_bytes (bytes_in size) (x_of s.old rs)));
        })
        (contents_of s.old pages.old) (contents_of s.new pages.new) result }
    ensures room { AreOwned pages.old address (bytes_in size) → result ≢ Err AccessStop.Memory }
    ensures owned { Owns raised_by (run_of address (bytes_in size)) pages.old pages.new result }
{
    let operand = low_bytes(size, read_x(s, rs));
    match update(pages, address, size, op, operand) {
        Ok(old) => {
            write_x(s, rt, old);
            Ok(())
        }
        Err(stop) => Err(stop),
    }
}

/// An ordered or atomic access.
#[inline(never)]
pub fn transfer_atomic(x: &Atomic, s: &mut Scalars, pages: &mut Pages) -> Result<(), AccessStop>
    requires { IsAtomic x.now }
    ensures made { Transfers (run_fault (atomic_access x.now s.old) s.old pages.old.memory)
        (after_atomic x.now (atomic_access x.now s.old).address s.old pages.old.memory)
        (contents_of s.old pages.old) (contents_of s.new pages.new) result }
    ensures room { RunHasRoom (atomic_access x.now s.old) pages.old → result ≢ Err AccessStop.Memory }
    ensures owned { Owns raised_by (writes_of (Insn.Atomic x.now) s.old pages.old.memory)
        pages.old pages.new result }
{
    let access = atomic_access(x, s);
    match place_fault(&access, s) {
        Some(exception) => Err(AccessStop::Raise(exception)),
        None => match x {
            Atomic::Ldar { size, rn: _, rt } => load_ordered(access.address, *size, *rt, s, pages),
            Atomic::Stlr { size, rn: _, rt } => store_ordered(access.address, *size, *rt, s, pages),
            Atomic::Cas { size, rs, rt, .. } => {
                swap_where_equal(access.address, *size, *rs, *rt, s, pages)
            }
            Atomic::Swap { size, rs, rt, .. } => {
                swap_register(access.address, *size, *rs, *rt, s, pages)
            }
            Atomic::Update {
                op,
                size,
                rs,
                rt,
                ..
            } => { update_by_register(*op, access.address, *size, *rs, *rt, s, pages) }
        },
    }
}
