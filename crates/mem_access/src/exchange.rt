//! Numbers in memory that are read and then written.
ghost use Rattle.std.specs.Prelude.{◌≡◌, ◌≢◌, ◌==◌, ◌*◌, ◌^◌, ◌<◌, None, Some, [], cond, IfOk, IfErr, OnOk};
ghost use Rattle.std.specs.Prelude.{OnErr, Err};
ghost use Rattle.paged_memory.specs.PageTable.{AreOwned, Owns};
ghost use Rattle.paged_memory.specs.Memory.{run_of};
ghost use Rattle.mem_access.specs.Access.{bytes_in};
ghost use Rattle.mem_access.specs.Transfer.{raised_by};
ghost use Rattle.mem_access.specs.Values.{updated};
ghost use Rattle.mem_access.specs.Runs.{denied_write, denied_update, number_in, with_number};

use crate::access::bytes_in;
use crate::numbers::{read_number, write_number};
use crate::stop::AccessStop;
use crate::values::updated;
use paged_memory::Pages;
use sm_types::{Access, AccessSize, AtomicOp, Exception};

/// Tells whether the bytes can be written.
fn check_write(pages: &Pages, address: u64, size: AccessSize) -> Result<(), AccessStop>
    ensures allowed { OnOk result (denied_write pages.now.memory address (bytes_in size) ≡ None) }
    ensures denied { IfErr result (λ e. denied_write pages.now.memory address (bytes_in size) ≡ raised_by e) }
    ensures room { result ≢ Err AccessStop.Memory }
{
    match pages.check(address, bytes_in(size), Access::Write) {
        Ok(()) => Ok(()),
        Err(abort) => Err(AccessStop::Raise(Exception::Data {
            address: abort.address,
            access: Access::Write,
        })),
    }
}

/// Writes the low bytes of a value in the place of a number, which is the answer.
pub fn swap(
    pages: &mut Pages,
    address: u64,
    size: AccessSize,
    value: u64,
) -> Result<u64, AccessStop>
    ensures value { IfOk result (λ n. n ≡ number_in pages.old.memory address (bytes_in size)) }
    ensures ok { OnOk result (pages.new.memory ≡ with_number pages.old.memory address (bytes_in size) value) }
    ensures allowed { OnOk result (denied_update pages.old.memory address (bytes_in size) ≡ None) }
    ensures stops { IfErr result (λ e. denied_update pages.old.memory address (bytes_in size) ≡ raised_by e) }
    ensures err { OnErr result (pages.new.memory ≡ pages.old.memory) }
    ensures room { AreOwned pages.old address (bytes_in size) → result ≢ Err AccessStop.Memory }
    ensures owned { Owns raised_by (run_of address (bytes_in size)) pages.old pages.new result }
{
    match read_number(pages, address, size) {
        Ok(old) => match write_number(pages, address, size, value) {
            Ok(()) => Ok(old),
            Err(stop) => Err(stop),
        },
        Err(exception) => Err(AccessStop::Raise(exception)),
    }
}

/// Writes what an atomic operation makes of a number in its place; the answer is the number.
pub fn update(
    pages: &mut Pages,
    address: u64,
    size: AccessSize,
    op: AtomicOp,
    value: u64,
) -> Result<u64, AccessStop>
    requires { value < 2 ^ (8 * bytes_in size) }
    ensures value { IfOk result (λ n. n ≡ number_in pages.old.memory address (bytes_in size)) }
    ensures ok { OnOk result (pages.new.memory ≡ with_number pages.old.memory address (bytes_in size)
        (updated op (bytes_in size) (number_in pages.old.memory address (bytes_in size)) value)) }
    ensures allowed { OnOk result (denied_update pages.old.memory address (bytes_in size) ≡ None) }
    ensures stops { IfErr result (λ e. denied_update pages.old.memory address (bytes_in size) ≡ raised_by e) }
    ensures err { OnErr result (pages.new.memory ≡ pages.old.memory) }
    ensures room { AreOwned pages.old address (bytes_in size) → result ≢ Err AccessStop.Memory }
    ensures owned { Owns raised_by (run_of address (bytes_in size)) pages.old pages.new result }
{
    match read_number(pages, address, size) {
        Ok(old) => match write_number(pages, address, size, updated(op, size, old, value)) {
            Ok(()) => Ok(old),
            Err(stop) => Err(stop),
        },
        Err(exception) => Err(AccessStop::Raise(exception)),
    }
}

/// Writes the low bytes of a value in the place of a number, which is the answer, where it is the expected
/// one.
pub fn compare_and_swap(
    pages: &mut Pages,
    address: u64,
    size: AccessSize,
    expected: u64,
    value: u64,
) -> Result<u64, AccessStop>
    ensures value { IfOk result (λ n. n ≡ number_in pages.old.memory address (bytes_in size)) }
    ensures ok { OnOk result (pages.new.memory ≡ cond (number_in pages.old.memory address (bytes_in size)
        == expected) (with_number pages.old.memory address (bytes_in size) value) pages.old.memory) }
    ensures allowed { OnOk result (denied_update pages.old.memory address (bytes_in size) ≡ None) }
    ensures stops { IfErr result (λ e. denied_update pages.old.memory address (bytes_in size) ≡ raised_by e) }
    ensures err { OnErr result (pages.new.memory ≡ pages.old.memory) }
    ensures room { AreOwned pages.old address (bytes_in size) → result ≢ Err AccessStop.Memory }
    ensures owned { Owns raised_by (cond (number_in pages.old.memory address (bytes_in size) == expected)
        (run_of address (bytes_in size)) []) pages.old pages.new result }
{
    match read_number(pages, address, size) {
        Ok(old) => {
            let written = if old == expected {
                write_number(pages, address, size, value)
            } else {
                check_write(pages, address, size)
            };
            match written {
                Ok(()) => Ok(old),
                Err(stop) => Err(stop),
            }
        }
        Err(exception) => Err(AccessStop::Raise(exception)),
    }
}
