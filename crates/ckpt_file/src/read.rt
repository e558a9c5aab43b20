//! The file of a guest thread's state, read back for a report of its run.
ghost use Rattle.std.specs.Prelude.{◌≡◌, ◌*◌, ◌^◌, ◌<◌, ℕ, All, List, length, map, drop, None, IfOk, IfErr};
ghost use Rattle.sm_types.specs.Options.{numbers_of};
ghost use Rattle.field_table.specs.Rows.{rows};
ghost use Rattle.report_reader.specs.Told.{report_said};
ghost use Rattle.kernel_contexts.specs.LooseState.{handler_entry};
ghost use Rattle.kernel_contexts.specs.Loose.{loose_state, loose_config, loose_thread, loose_events, loose_stop};
ghost use Rattle.ckpt_fields.specs.Rows.{checkpoint_fault};
ghost use Rattle.ckpt_fields.specs.Values.{doublewords, handler_said, fields_said, HasSizes, IsNarrowHandler};
ghost use Rattle.ckpt_fields.specs.Told.{IsFaultOf};
ghost use Rattle.ckpt_file.specs.Checkpoint.{ReadsCheckpoint};
ghost use Rattle.ckpt_file.specs.Loose.{loose_values, HasLooseSizes, HasNarrowNumbers, IsNarrowEntry};

use byteorder::{ByteOrder, LittleEndian};
use ckpt_fields::{CkptFault, SignalHandler, StateFields, read_fields};
use kernel_contexts::{Handler, Handlers, Loose, LooseState};
use report_reader::Report;
use signal_frames::machines_are_in_range;
use sm_types::Config;
use std::alloc::{AllocError, Global};

/// The handlers of a file, as those of a thread.
fn handlers_of(alloc: Global, handlers: &[SignalHandler]) -> Result<Handlers, AllocError>
    requires { All IsNarrowHandler handlers.now }
    ensures same { IfOk result (λ list. map handler_entry list.items ≡ map handler_said handlers.now) }
    ensures narrow { IfOk result (λ list. All IsNarrowEntry list.items) }
{
    let mut list = Vec::new(alloc);
    for handler in handlers {
        list.push(Handler {
            signal: handler.signal,
            address: handler.address,
        })?;
    }
    Ok(list)
}

/// PC, SP and X0 to X30, of 8 bytes each.
fn registers_of(bytes: &[u8]) -> [u64; 33]
    requires { length bytes.now ≡ 33 * 8 }
    ensures { doublewords result ≡ rows 33 8 bytes.now }
{
    let mut registers = [0; 33];
    LittleEndian::read_u64_into(bytes, &mut registers);
    registers
}

/// X0 to X30 among them.
fn general_of(registers: &[u64; 33]) -> [u64; 31]
    ensures value { result ≡ drop 2 registers.now }
    ensures count { length registers.now ≡ 33 }
{
    let mut x = [0; 31];
    x.copy_from_slice(&registers[2..]);
    x
}

/// What the fields of a file say, as the fields of a state. Room is taken for what was read alone.
fn state_of(alloc: Global, fields: StateFields, config: &Config) -> Result<LooseState, AllocError>
    requires { HasSizes (numbers_of config.now) fields }
    ensures sizes { IfOk result (HasLooseSizes (numbers_of config.now)) }
    ensures values { IfOk result (λ state. (digest : List ℕ)
        → loose_values digest (numbers_of config.now) state
        ≡ fields_said digest (numbers_of config.now) fields.entry) }
{
    let registers = registers_of(fields.registers);
    let (p, ffr) = fields
        .vectors
        .predicates
        .split_at(fields.vectors.predicates.len() / 17 * 16);
    Ok(LooseState {
        thread: fields.progress.thread,
        count: fields.progress.count,
        events: fields.progress.events,
        depth: fields.progress.depth,
        turns: fields.progress.turns,
        pc: registers[0],
        sp: registers[1],
        x: general_of(&registers),
        nzcv: fields.system.nzcv,
        svcr: fields.system.svcr,
        tpidr: fields.system.tpidr,
        tpidr2: fields.system.tpidr2,
        held: fields.system.held,
        mask: fields.system.mask,
        polled: fields.system.polled,
        z: Vec::from_slice(alloc, fields.vectors.z)?,
        p: Vec::from_slice(alloc, p)?,
        ffr: Vec::from_slice(alloc, ffr)?,
        za: Vec::from_slice(alloc, fields.vectors.za)?,
        handlers: handlers_of(alloc, fields.handlers.as_slice())?,
        output: Vec::from_slice(alloc, fields.output)?,
        pages: fields.pages,
    })
}

/// The numbers of a state fit their types.
fn numbers_fit(state: &LooseState)
    ensures { HasNarrowNumbers state.now }
{
    let _thread = state.thread;
    let _count = state.count;
    let _events = state.events;
    let _depth = state.depth;
    let _turns = state.turns;
    let _nzcv = state.nzcv;
    let _svcr = state.svcr;
    system_fits(state);
}

/// Those of the system registers and of the signals do.
fn system_fits(state: &LooseState)
    ensures tpidr { state.now.tpidr < 2 ^ 64 }
    ensures tpidr2 { state.now.tpidr2 < 2 ^ 64 }
    ensures held { state.now.held < 2 ^ 64 }
    ensures mask { state.now.mask < 2 ^ 64 }
{
    let _tpidr = state.tpidr;
    let _tpidr2 = state.tpidr2;
    let _held = state.held;
    let _mask = state.mask;
}

/// The thread whose state a file is, for a report of the run that it came from, with the report's options.
/// `TooLong` comes exactly where the file has more than 67,108,864 bytes; `Field` exactly where else a field
/// is not whole in it or not as the table of the fields says, or where bytes follow the last page, with the
/// offset of the first of them; `Memory` is want of memory.
pub fn read_ckpt(alloc: Global, bytes: &[u8], report: &Report) -> Result<Loose, CkptFault>
    ensures read { IfOk result (λ l. ReadsCheckpoint bytes.now (report_said report.now) (loose_state l)
        (loose_thread l) (loose_events l)) }
    ensures good { IfOk result (λ l. checkpoint_fault (report_said report.now) bytes.now ≡ None) }
    ensures config { IfOk result (λ l. loose_config l ≡ report.now.config) }
    ensures stop { IfOk result (λ l. loose_stop l ≡ None) }
    ensures fault { IfErr result (IsFaultOf (report_said report.now) bytes.now) }
{
    let fields = read_fields(alloc, bytes, report)?;
    let state = state_of(alloc, fields, &report.config)?;
    numbers_fit(&state);
    let loose = Loose::from_state(alloc, state, &report.config)?;
    machines_are_in_range(loose.machine(), loose.bank());
    Ok(loose)
}
