//! The file of a guest thread's state, written from its first field to its last.
ghost use Rattle.std.specs.Prelude.{◌≡◌, ◌==◌, ◌<◌, ◌≤◌, ◌^◌, [], ◌∷◌, not, length, map, count_by};
ghost use Rattle.std.specs.Prelude.{None, IfOk, OnOk, true};
ghost use Rattle.std.specs.List.{flat_map};
ghost use Rattle.sm_types.specs.Options.{numbers_of};
ghost use Rattle.sve_vectors.specs.Predicates.{predicate_bytes};
ghost use Rattle.bit_ops.specs.Sums.{bool_number};
ghost use Rattle.machine_step.specs.System.{nzcv_of, svcr_of};
ghost use Rattle.kernel_contexts.specs.HandlerTable.{set_from};
ghost use Rattle.kernel_contexts.specs.Context.{state_of, config_of, thread_of, stop_of, journal_of, is_home};
ghost use Rattle.ckpt_fields.specs.Values.{first_values, thread_values, system_values, handler_value};
ghost use Rattle.ckpt_fields.specs.Values.{handler_values, output_values, page_values, page_value};
ghost use Rattle.ckpt_file.specs.Checkpoint.{register_values, vector_values, array_values, pages_in};
ghost use Rattle.ckpt_file.specs.Checkpoint.{state_values, checkpoint};
ghost use Rattle.ckpt_file.specs.Putting.{IsPut};

use crate::put::{put_byte, put_doubleword, put_doublewords, put_field, put_word, put_words};
use kernel_contexts::Context;
use machine_step::read_svcr;
use paged_memory::{PageView, Pages};
use sm_types::{Config, Memory, Scalars};
use std::alloc::{AllocError, Global};
use sve_vectors::{Vectors, read_p, truths_tell_bytes};
use za_array::Za;

/// The bytes with which the file begins.
const TAG: [u8; 8] = *b"SMECKPT1";

/// Puts the tag, the program's digest and the options.
fn put_first(out: &mut Vec<u8>, image: &[u8; 32], config: &Config) -> Result<(), AllocError>
    ensures { OnOk result
        (IsPut (first_values image.now (numbers_of config.now)) out.old.items out.new.items) }
{
    put_field(out, &TAG)?;
    put_field(out, image)?;
    let lengths = [config.vl.bits(), config.svl.bits()];
    put_words(out, &lengths)?;
    let others = [config.slice, config.budget, config.threads, config.kernel];
    put_words(out, &others)?;
    Ok(())
}

/// How many events the thread has made.
fn events_made(context: &Context) -> u32
    ensures { result ≡ length (journal_of context.now) }
{
    context.journal().len() as u32
}

/// Puts how far the thread has come.
fn put_progress(out: &mut Vec<u8>, context: &Context) -> Result<(), AllocError>
    ensures { OnOk result (IsPut (thread_values (thread_of context.now) (state_of context.now).count
        (length (journal_of context.now)) (state_of context.now).depth (state_of context.now).turns)
        out.old.items out.new.items) }
{
    let numbers = [
        context.thread(),
        context.count(),
        events_made(context),
        context.depth(),
    ];
    put_words(out, &numbers)?;
    put_doubleword(out, context.turns())?;
    Ok(())
}

/// Puts PC, SP and X0 to X30.
fn put_registers(out: &mut Vec<u8>, scalars: &Scalars) -> Result<(), AllocError>
    ensures { OnOk result (IsPut (register_values scalars.now) out.old.items out.new.items) }
{
    put_doubleword(out, scalars.pc)?;
    put_doubleword(out, scalars.sp)?;
    put_doublewords(out, &scalars.x)?;
    Ok(())
}

/// NZCV: the flags in bits 31 to 28. Source: DDI 0487, C5.2, NZCV.
#[tactic(auto, unfolding(machine_step::specs::System::nzcv_of))]
fn flags_of(s: &Scalars) -> u64
    ensures { result ≡ nzcv_of s.now }
{
    u64::from(s.n) * 0x8000_0000
        + u64::from(s.z) * 0x4000_0000
        + u64::from(s.c) * 0x2000_0000
        + u64::from(s.v) * 0x1000_0000
}

/// 1 where it holds, and else 0.
fn number_of(holds: bool) -> u64
    ensures { result ≡ bool_number holds }
{
    u64::from(holds)
}

/// Puts the system registers, and what the kernel keeps of the thread's signals.
fn put_system(out: &mut Vec<u8>, context: &Context) -> Result<(), AllocError>
    ensures { OnOk result (IsPut (system_values (nzcv_of (state_of context.now).core.scalars)
        (svcr_of (state_of context.now).core) (state_of context.now).core.tpidr
        (state_of context.now).core.tpidr2 (state_of context.now).held (state_of context.now).mask
        (state_of context.now).polled) out.old.items out.new.items) }
{
    let machine = context.machine();
    let registers = [
        flags_of(&machine.scalars),
        read_svcr(machine),
        machine.tpidr,
        machine.tpidr2,
    ];
    put_doublewords(out, &registers)?;
    let signals = [context.held(), context.mask(), number_of(context.polled())];
    put_doublewords(out, &signals)?;
    Ok(())
}

/// Puts Z0 to Z31.
fn put_vectors(out: &mut Vec<u8>, vectors: &Vectors) -> Result<(), AllocError>
    ensures { OnOk result (IsPut vectors.now.registers.vectors out.old.items out.new.items) }
{
    let _length = vectors.length();
    for n in 0..32 {
        put_field(out, vectors.z(n))?;
    }
    Ok(())
}

/// Puts P0 to P15.
fn put_predicates(out: &mut Vec<u8>, vectors: &Vectors) -> Result<(), AllocError>
    ensures { OnOk result (IsPut (map predicate_bytes vectors.now.registers.predicates) out.old.items
        out.new.items) }
{
    let _length = vectors.length();
    for n in 0..16 {
        put_field(out, read_p(vectors, n))?;
    }
    Ok(())
}

/// Puts Z0 to Z31, P0 to P15 and FFR.
fn put_vector_registers(out: &mut Vec<u8>, vectors: &Vectors) -> Result<(), AllocError>
    ensures { OnOk result (IsPut (vector_values vectors.now.registers) out.old.items out.new.items) }
{
    put_vectors(out, vectors)?;
    put_predicates(out, vectors)?;
    let ffr = vectors.ffr();
    truths_tell_bytes(ffr);
    put_field(out, ffr)?;
    Ok(())
}

/// Puts the vectors of ZA.
fn put_array(out: &mut Vec<u8>, za: &Za) -> Result<(), AllocError>
    ensures { OnOk result (IsPut za.now.vectors out.old.items out.new.items) }
{
    for n in 0..za.size() {
        put_field(out, za.vector(n))?;
    }
    Ok(())
}

/// Puts the vectors of ZA where it is on.
fn put_array_if(out: &mut Vec<u8>, on: bool, za: &Za) -> Result<(), AllocError>
    ensures { OnOk result (IsPut (array_values on za.now.vectors) out.old.items out.new.items) }
{
    if on {
        put_array(out, za)?;
    }
    Ok(())
}

/// How many handlers are set, of a table with an address for each signal, and 0 where none is set.
fn handlers_set(addresses: &[u64]) -> usize
    ensures value { result ≡ count_by (λ address. not (address == 0)) addresses.now }
    ensures few { result ≤ length addresses.now }
{
    addresses.iter().filter(|address| **address != 0).count()
}

/// Puts the handler of a signal, where one is set.
fn put_handler(out: &mut Vec<u8>, signal: u32, address: u64) -> Result<(), AllocError>
    ensures { OnOk result (IsPut (flat_map handler_value (set_from signal (address ∷ []))) out.old.items
        out.new.items) }
{
    if address != 0 {
        put_word(out, signal)?;
        put_doubleword(out, address)?;
    }
    Ok(())
}

/// Puts how many handlers are set, and each by its signal.
fn put_handlers(out: &mut Vec<u8>, addresses: &[u64]) -> Result<(), AllocError>
    requires { length addresses.now ≡ 63 }
    ensures { OnOk result (IsPut (handler_values (set_from 0 addresses.now)) out.old.items out.new.items) }
{
    put_word(out, handlers_set(addresses) as u32)?;
    for signal in 0..addresses.len() {
        put_handler(out, signal as u32, addresses[signal])?;
    }
    Ok(())
}

/// Puts how many bytes of output there are, and these bytes.
fn put_output(out: &mut Vec<u8>, bytes: &[u8]) -> Result<(), AllocError>
    requires { length bytes.now < 2 ^ 32 }
    ensures { OnOk result (IsPut (output_values bytes.now) out.old.items out.new.items) }
{
    put_word(out, bytes.len() as u32)?;
    put_field(out, bytes)?;
    Ok(())
}

/// Puts a page.
fn put_page(out: &mut Vec<u8>, page: &PageView) -> Result<(), AllocError>
    ensures { OnOk result (IsPut (page_value (page.now.address, page.now.flags, page.now.bytes.now))
        out.old.items out.new.items) }
{
    put_doubleword(out, page.address)?;
    put_byte(out, page.flags)?;
    put_field(out, page.bytes)?;
    Ok(())
}

/// Puts how many pages there are, and each of them.
fn put_pages(out: &mut Vec<u8>, pages: &Pages) -> Result<(), AllocError>
    ensures { OnOk result (IsPut (page_values (pages_in pages.now.memory)) out.old.items out.new.items) }
{
    let count = pages.page_count();
    put_word(out, count as u32)?;
    for index in 0..count {
        match pages.page(index) {
            None => unreachable!(),
            Some(page) => put_page(out, &page)?,
        }
    }
    Ok(())
}

/// Puts the registers, what the kernel keeps of the thread, and its memory.
fn put_state(out: &mut Vec<u8>, context: &Context) -> Result<(), AllocError>
    requires { is_home context.now ≡ true }
    ensures { OnOk result (IsPut (state_values (state_of context.now)) out.old.items out.new.items) }
{
    let machine = context.machine();
    let bank = context.bank();
    put_registers(out, &machine.scalars)?;
    put_system(out, context)?;
    put_vector_registers(out, &bank.vectors)?;
    put_array_if(out, machine.za_on, &bank.za)?;
    put_handlers(out, context.handlers())?;
    put_output(out, context.output())?;
    put_pages(out, &machine.pages)?;
    Ok(())
}

/// The bytes of the file.
fn written(alloc: Global, context: &Context, image: &[u8; 32]) -> Result<Vec<u8>, AllocError>
    requires { is_home context.now ≡ true }
    ensures { IfOk result (λ file. file.items ≡ checkpoint image.now (numbers_of (config_of context.now))
        (state_of context.now) (thread_of context.now) (length (journal_of context.now))) }
{
    let mut out = Vec::new(alloc);
    put_first(&mut out, image, context.config())?;
    put_progress(&mut out, context)?;
    put_state(&mut out, context)?;
    Ok(out)
}

/// The file of a thread that has not stopped, where it stands, of a program with that digest: its options, how
/// far it has come, with the events of its journal, and its state. `Memory` is want of memory.
pub fn write_ckpt(alloc: Global, context: &Context, image: &[u8; 32]) -> Result<Vec<u8>, Memory>
    requires home { is_home context.now ≡ true }
    requires runs { stop_of context.now ≡ None }
    ensures { IfOk result (λ file. file.items ≡ checkpoint image.now (numbers_of (config_of context.now))
        (state_of context.now) (thread_of context.now) (length (journal_of context.now))) }
{
    written(alloc, context, image).map_err(|_| Memory)
}
