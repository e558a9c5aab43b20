//! The return from a handler.
ghost use Rattle.std.specs.Prelude.{◌≡◌, ◌≤◌, length, None, IfOk};
ghost use Rattle.sve_vectors.specs.Lengths.{vector_bytes};
ghost use Rattle.mem_access.specs.Bank.{bank_state};
ghost use Rattle.machine_step.specs.Machine.{core_of, IsInMode, IsSameBank};
ghost use Rattle.signal_frames.specs.Layout.{head_size};
ghost use Rattle.signal_frames.specs.Return.{fault_at, returned, unmasked, Returns};
ghost use Rattle.signal_frames.specs.Reading.{IsFoundUnless};

use crate::head::{
    Expected, TPIDR, TPIDR2, head_size, is_head, saved_length, saved_masking, saved_scalars,
    saved_size, saved_streaming, saved_za_on, u64_at,
};
use crate::masking::Masking;
use crate::reading::{is_zero_past, read_registers, restore_array};
use machine_step::Machine;
use mem_access::Bank;
use paged_memory::Pages;
use sm_types::{Access, Version};

/// A return that finds no frame: the address of the first byte among those read that cannot be read, else SP.
#[derive(Clone, Copy, Debug, PartialEq, Eq)]
pub struct FrameFault(pub u64);

/// Reads the head from an address on, and finds whether a frame stands there: the stop, if not.
fn find_fault(pages: &Pages, start: u64, expected: Expected, head: &mut [u8]) -> Option<u64>
    requires head { length head.old ≡ head_size expected.version }
    requires vl { expected.vl ≤ 256 }
    requires svl { expected.svl ≤ 256 }
    ensures fault { result ≡ fault_at expected pages.now.memory start }
    ensures found { IsFoundUnless expected pages.now.memory start head.new result }
    ensures long { length head.new ≡ head_size expected.version }
{
    match pages.read(start, head) {
        Err(abort) => Some(abort.address),
        Ok(()) => {
            if !is_head(head, expected) {
                return Some(start);
            }
            match pages.check(start, saved_size(head), Access::Read) {
                Err(abort) => Some(abort.address),
                Ok(()) => {
                    let inside = expected.depth > 0;
                    let body = start.wrapping_add(head_size(expected.version));
                    if inside && is_zero_past(pages, body, saved_length(head)) {
                        None
                    } else {
                        Some(start)
                    }
                }
            }
        }
    }
}

/// Returns all that a frame saves, whose head is given.
fn restore(machine: &mut Machine, bank: &mut Bank, expected: Expected, head: &[u8]) -> Masking
    requires head { length head.now ≡ head_size expected.version }
    requires vl { expected.vl ≡ vector_bytes bank.old.vectors.vl }
    requires svl { expected.svl ≡ vector_bytes bank.old.za.svl }
    requires found { IsFoundUnless expected machine.old.pages.memory machine.old.scalars.sp head.now None }
    ensures core { core_of machine.new (bank_state bank.new) ≡ returned expected.version expected.depth
        (vector_bytes bank.old.vectors.vl) (core_of machine.old (bank_state bank.old)) }
    ensures masking { result ≡ unmasked expected.version expected.depth
        (vector_bytes bank.old.vectors.vl) (core_of machine.old (bank_state bank.old)) }
    ensures below { result.depth ≤ expected.depth }
    ensures same { IsSameBank bank.old bank.new }
    ensures mode { IsInMode bank.new machine.new }
    ensures pages { machine.new.pages ≡ machine.old.pages }
{
    let _size = bank.za.size();
    let start = machine.scalars.sp.wrapping_add(head_size(expected.version));
    machine.scalars = saved_scalars(head);
    machine.tpidr2 = u64_at(head, TPIDR2);
    machine.tpidr = u64_at(head, TPIDR);
    machine.streaming = saved_streaming(head);
    machine.za_on = saved_za_on(head);
    let pages = &machine.pages;
    read_registers(pages, start, machine.streaming, &mut bank.vectors);
    let vector_size = bank.vectors.length() as u64;
    restore_array(pages, start, vector_size, machine.za_on, &mut bank.za);
    saved_masking(head, expected.version)
}

/// Returns from a handler: where a frame stands at SP, all that it saves comes back, PC too, and memory
/// stays; the answer is the mask and the depth that it saves, or none and zero in version 1. `depth` is the
/// number of handlers that the thread is in. `FrameFault` comes exactly where a byte among those read cannot
/// be read, where they are not those of a frame, or where the thread is in no handler, and leaves all as it
/// was.
pub fn return_from(
    version: Version,
    depth: u32,
    machine: &mut Machine,
    bank: &mut Bank,
) -> Result<Masking, FrameFault>
    requires { IsInMode bank.old machine.old }
    ensures made { Returns version depth (vector_bytes bank.old.vectors.vl)
        (core_of machine.old (bank_state bank.old)) (core_of machine.new (bank_state bank.new)) result }
    ensures below { IfOk result (λ masking. masking.depth ≤ depth) }
    ensures same { IsSameBank bank.old bank.new }
    ensures mode { IsInMode bank.new machine.new }
    ensures pages { machine.new.pages ≡ machine.old.pages }
{
    let start = machine.scalars.sp;
    let vl = bank.vectors.vl().bytes() as u64;
    let svl = bank.za.size() as u64;
    let expected = Expected {
        version,
        depth,
        vl,
        svl,
    };
    let mut room = [0; 336];
    let head = &mut room[..head_size(version) as usize];
    match find_fault(&machine.pages, start, expected, head) {
        Some(address) => Err(FrameFault(address)),
        None => Ok(restore(machine, bank, expected, head)),
    }
}
