//! A guest thread in the state of plain fields.
ghost use Rattle.std.specs.Prelude.{◌≡◌, ◌≤◌, map, IfOk, None};
ghost use Rattle.std.specs.FinMap.{entries};
ghost use Rattle.machine_step.specs.System.{nzcv_of};
ghost use Rattle.kernel_contexts.specs.HandlerTable.{handlers_of};
ghost use Rattle.kernel_contexts.specs.LooseState.{IsLooseState, AreLooseNumbers, AreHandlers};
ghost use Rattle.kernel_contexts.specs.LooseState.{handler_entry};

use crate::guest::GuestThread;
use crate::handlers::{Addresses, no_handlers, set_handler};
use crate::loose_bank::bit;
use crate::loose_state::{Handler, LooseState};
use machine_step::{Decoder, Machine};
use paged_memory::Pages;
use sm_types::{Config, Memory, Scalars};
use std::alloc::Global;

/// The table of the handlers of a list.
fn table_of(handlers: &[Handler]) -> Addresses
    requires { AreHandlers handlers.now }
    ensures { entries (handlers_of result) ≡ map handler_entry handlers.now }
{
    let mut addresses = no_handlers();
    for handler in handlers {
        set_handler(&mut addresses, handler.signal as usize, handler.address);
    }
    addresses
}

/// The general registers, SP, PC and flags of the fields.
fn scalars_of(state: &LooseState, config: &Config) -> Scalars
    requires { AreLooseNumbers config.now state.now }
    ensures x { result.x ≡ state.now.x }
    ensures sp { result.sp ≡ state.now.sp }
    ensures pc { result.pc ≡ state.now.pc }
    ensures nzcv { nzcv_of result ≡ state.now.nzcv }
{
    let _budget = config.budget;
    Scalars {
        x: state.x,
        sp: state.sp,
        pc: state.pc,
        n: bit(state.nzcv, 31),
        z: bit(state.nzcv, 30),
        c: bit(state.nzcv, 29),
        v: bit(state.nzcv, 28),
    }
}

impl GuestThread {
    ghost use Rattle.kernel_contexts.specs.GuestThread.{guest_state, guest_events};
    ghost use Rattle.kernel_contexts.specs.LooseState.{HasScalars, HasPages, HasKernel};
    ghost use Rattle.kernel_contexts.specs.LooseState.{is_streaming, is_array_on};
    ghost use Rattle.machine_step.specs.ProcessorState.{VectorState};

    /// The thread that stands in the state of these fields, with its decoder taken at once.
    pub fn from_state(
        alloc: Global,
        state: LooseState,
        config: &Config,
    ) -> Result<GuestThread, Memory>
        requires { IsLooseState config.now state }
        ensures scalars { IfOk result (λ g. (v : VectorState) → HasScalars state (guest_state g v)) }
        ensures memory { IfOk result (λ g. (v : VectorState) → HasPages state (guest_state g v)) }
        ensures kernel { IfOk result (λ g. (v : VectorState) → HasKernel state (guest_state g v)) }
        ensures config { IfOk result (λ g. g.config ≡ config.now) }
        ensures number { IfOk result (λ g. g.number ≡ state.thread) }
        ensures events { IfOk result (λ g. guest_events g ≡ state.events) }
        ensures stop { IfOk result (λ g. g.stop ≡ None) }
    {
        let pages = Pages::from_pages(alloc, &state.pages)?;
        let decoder = Decoder::new(alloc)?;
        let machine = Machine {
            scalars: scalars_of(&state, config),
            streaming: bit(state.svcr, 0),
            za_on: bit(state.svcr, 1),
            tpidr: state.tpidr,
            tpidr2: state.tpidr2,
            pages,
        };
        Ok(GuestThread {
            machine,
            decoder,
            config: *config,
            number: state.thread,
            handlers: table_of(state.handlers.as_slice()),
            held: state.held,
            mask: state.mask,
            depth: state.depth,
            polled: state.polled,
            watch: state.count,
            journal: Vec::new(alloc),
            output: state.output,
            count: state.count,
            turns: state.turns,
            stop: None,
            earlier: state.events,
            begun: state.turns,
        })
    }
}
