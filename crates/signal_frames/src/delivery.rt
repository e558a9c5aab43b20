//! The delivery of a signal.
ghost use Rattle.std.specs.Prelude.{◌≡◌, ◌≢◌, ◌+◌, ◌≤◌, OnOk, IfErr, Err, false, length};
ghost use Rattle.paged_memory.specs.Memory.{first_without, run_of};
ghost use Rattle.paged_memory.specs.PageTable.{AreOwned, Owns};
ghost use Rattle.sve_vectors.specs.Lengths.{vector_bytes};
ghost use Rattle.sve_vectors.specs.State.{length_of};
ghost use Rattle.mem_access.specs.Bank.{bank_state};
ghost use Rattle.machine_step.specs.Machine.{core_of, IsInMode, IsSameBank};
ghost use Rattle.machine_step.specs.Mode.{with_za};
ghost use Rattle.machine_step.specs.System.{nzcv_of};
ghost use Rattle.signal_frames.specs.Layout as layout;
ghost use Rattle.signal_frames.specs.Layout.{head_bytes, masking_bytes, vector_state_bytes};
ghost use Rattle.signal_frames.specs.Frame.{size_of, frame_addresses, frame_bytes, entered, byte_of};
ghost use Rattle.signal_frames.specs.Frame.{Delivers, HasFrameRoom};
ghost use Rattle.signal_frames.specs.Writing.{IsReady, Puts, PutsPart};

use crate::head::{frame_size, tag};
use crate::masking::Masking;
use crate::writing::{put_array, put_doublewords, put_ffr, put_predicates, put_vectors, put_words};
use machine_step::{Machine, read_svcr, write_streaming};
use mem_access::Bank;
use paged_memory::Pages;
use sm_types::{Access, Memory, Scalars, Version};

/// Why a signal is not delivered; nothing has changed, but that more pages may be owned after `Memory`.
#[derive(Clone, Copy, Debug, PartialEq, Eq)]
pub enum FrameStop {
    /// The first byte of the frame, in the order of its bytes, that may not be written.
    BadFrame(u64),
    /// There was no memory for a page of the frame that was not owned.
    Memory,
}

/// Finds that so many bytes from an address on may be written, and makes their pages owned, and no others.
#[tactic(auto, using(crate::proofs::Putting::ready_by))]
fn reserve(pages: &mut Pages, address: u64, size: u64) -> Result<(), FrameStop>
    ensures ready { OnOk result (IsReady pages.new address size) }
    ensures stops { IfErr result (λ stop. first_without 2 pages.old.memory address size ≡ byte_of stop) }
    ensures memory { pages.new.memory ≡ pages.old.memory }
    ensures room { AreOwned pages.old address size → result ≢ Err FrameStop.Memory }
    ensures owned { Owns byte_of (run_of address size) pages.old pages.new result }
{
    match pages.check(address, size, Access::Write) {
        Err(abort) => Err(FrameStop::BadFrame(abort.address)),
        Ok(()) => match pages.own(address, size) {
            Ok(()) => Ok(()),
            Err(Memory) => Err(FrameStop::Memory),
        },
    }
}

/// Writes the first 320 bytes of a frame.
fn put_head(
    pages: &mut Pages,
    address: u64,
    version: Version,
    first: [u32; 2],
    x: &[u64; 31],
    system: [u64; 6],
    lengths: [u32; 2],
) -> u64
    ensures part { PutsPart pages.old pages.new address result
        (head_bytes version first x.now system lengths) }
    ensures long { length (head_bytes version first x.now system lengths) ≡ 320 }
{
    let tagged = put_doublewords(pages, address, &[tag(version)]);
    let begun = put_words(pages, tagged, &first);
    let general = put_doublewords(pages, begun, x);
    let other = put_doublewords(pages, general, &system);
    put_words(pages, other, &lengths)
}

/// Writes the other bytes of the head.
fn put_masking(pages: &mut Pages, address: u64, version: Version, masking: Masking) -> u64
    ensures part { PutsPart pages.old pages.new address result (masking_bytes version masking) }
    ensures long { 320 + length (masking_bytes version masking) ≡ layout.head_size version }
{
    match version {
        Version::One => address,
        Version::Two => {
            let depth = put_doublewords(pages, address, &[masking.mask]);
            put_words(pages, depth, &[masking.depth, 0])
        }
    }
}

/// Writes what follows them.
fn put_vector_state(pages: &mut Pages, address: u64, bank: &Bank, za_on: bool) -> u64
    ensures part { PutsPart pages.old pages.new address result (vector_state_bytes
        (length_of bank.now.vectors) za_on bank.now.vectors.registers bank.now.za.vectors) }
    ensures long { length (vector_state_bytes (length_of bank.now.vectors) za_on
        bank.now.vectors.registers bank.now.za.vectors)
        ≡ layout.body_size (length_of bank.now.vectors) (length bank.now.za.vectors) za_on }
{
    let _length = bank.vectors.length();
    let _size = bank.za.size();
    let vectors = put_vectors(pages, address, &bank.vectors);
    let predicates = put_predicates(pages, vectors, &bank.vectors);
    let ffr = put_ffr(pages, predicates, &bank.vectors);
    if za_on {
        put_array(pages, ffr, &bank.za)
    } else {
        ffr
    }
}

/// The flags N, Z, C and V in bits 31 to 28.
#[tactic(auto, unfolding(machine_step::specs::System::nzcv_of))]
fn read_nzcv(s: &Scalars) -> u64
    ensures { result ≡ nzcv_of s.now }
{
    let n = u64::from(s.n) << 31;
    let z = u64::from(s.z) << 30;
    let c = u64::from(s.c) << 29;
    let v = u64::from(s.v) << 28;
    n + z + c + v
}

/// Writes PSTATE.ZA as 0: where it was 1, ZA is set to zero.
fn leave_za(machine: &mut Machine, bank: &mut Bank)
    requires { IsInMode bank.old machine.old }
    ensures core { core_of machine.new (bank_state bank.new)
        ≡ with_za false (core_of machine.old (bank_state bank.old)) }
    ensures same { IsSameBank bank.old bank.new }
    ensures mode { IsInMode bank.new machine.new }
    ensures pages { machine.new.pages ≡ machine.old.pages }
{
    let _size = bank.za.size();
    if machine.za_on {
        machine.za_on = false;
        bank.za.clear();
    }
}

/// What a frame says besides the registers: the version of the kernel, the signal, and how signals are
/// masked.
#[derive(Clone, Copy)]
pub struct Delivery {
    pub version: Version,
    pub masking: Masking,
    pub signal: u32,
}

/// Writes the frame of a signal, for which all is ready.
fn write_frame(machine: &mut Machine, bank: &Bank, delivery: Delivery, size: u64, address: u64)
    requires mode { IsInMode bank.now machine.old }
    requires size { size ≡ size_of delivery.version (vector_bytes bank.now.vectors.vl)
        (core_of machine.old (bank_state bank.now)) }
    requires small { size ≤ 74608 }
    ensures frame { IsReady machine.old.pages address size → Puts machine.old.pages machine.new.pages address
        (frame_bytes delivery.version delivery.masking (vector_bytes bank.now.vectors.vl) delivery.signal
        (core_of machine.old (bank_state bank.now))) }
    ensures others { machine.new ≡ record machine.old { pages = machine.new.pages } }
{
    let lengths = [bank.vectors.length() as u32, bank.za.size() as u32];
    let system = [
        machine.scalars.sp,
        machine.scalars.pc,
        read_nzcv(&machine.scalars),
        read_svcr(machine),
        machine.tpidr2,
        machine.tpidr,
    ];
    let first = [size as u32, delivery.signal];
    let x = &machine.scalars.x;
    let version = delivery.version;
    let masked = put_head(
        &mut machine.pages,
        address,
        version,
        first,
        x,
        system,
        lengths,
    );
    let next = put_masking(&mut machine.pages, masked, version, delivery.masking);
    put_vector_state(&mut machine.pages, next, bank, machine.za_on);
}

/// Leaves the modes, and writes the registers with which a handler begins.
#[tactic(auto, unfolding(crate::specs::Frame::entered))]
fn enter(machine: &mut Machine, bank: &mut Bank, signal: u32, handler: u64, address: u64)
    requires { IsInMode bank.old machine.old }
    ensures core { core_of machine.new (bank_state bank.new) ≡ entered (vector_bytes bank.old.vectors.vl)
        signal handler address (core_of machine.old (bank_state bank.old)) }
    ensures same { IsSameBank bank.old bank.new }
    ensures mode { IsInMode bank.new machine.new }
    ensures pages { machine.new.pages ≡ machine.old.pages }
{
    write_streaming(machine, bank, false);
    leave_za(machine, bank);
    machine.tpidr2 = 0;
    machine.scalars.x[0] = u64::from(signal);
    machine.scalars.x[1] = address;
    machine.scalars.x[30] = 0;
    machine.scalars.sp = address;
    machine.scalars.pc = handler;
}

/// Delivers a signal: writes the frame of the state below SP, with how signals are masked in version 2, and
/// begins the handler. SP and X1 are then the frame's address, X0 is the signal, X30 and TPIDR2_EL0 are 0, PC
/// is the handler, and Streaming SVE mode and ZA are off. `BadFrame` comes exactly where a byte of the frame
/// may not be written, and `Memory` only where a page of it is not owned; either leaves all as it was, but
/// that more pages may be owned after `Memory`.
pub fn deliver(
    version: Version,
    masking: Masking,
    machine: &mut Machine,
    bank: &mut Bank,
    signal: u32,
    handler: u64,
) -> Result<(), FrameStop>
    requires { IsInMode bank.old machine.old }
    ensures made { Delivers version masking (vector_bytes bank.old.vectors.vl) signal handler
        (core_of machine.old (bank_state bank.old)) (core_of machine.new (bank_state bank.new)) result }
    ensures same { IsSameBank bank.old bank.new }
    ensures mode { IsInMode bank.new machine.new }
    ensures room { HasFrameRoom version (vector_bytes bank.old.vectors.vl)
        (core_of machine.old (bank_state bank.old)) machine.old.pages → result ≢ Err FrameStop.Memory }
    ensures owned { Owns byte_of (frame_addresses version (vector_bytes bank.old.vectors.vl)
        (core_of machine.old (bank_state bank.old))) machine.old.pages machine.new.pages result }
{
    let vector_size = bank.vectors.length() as u64;
    let size = frame_size(version, vector_size, bank.za.size() as u64, machine.za_on);
    let address = machine.scalars.sp.wrapping_sub(size) / 16 * 16;
    match reserve(&mut machine.pages, address, size) {
        Err(stop) => Err(stop),
        Ok(()) => {
            let delivery = Delivery {
                version,
                masking,
                signal,
            };
            write_frame(machine, bank, delivery, size, address);
            enter(machine, bank, signal, handler, address);
            Ok(())
        }
    }
}
