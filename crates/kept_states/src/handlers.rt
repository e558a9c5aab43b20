//! The handlers of a thread's signals as a list.
ghost use Rattle.std.specs.Prelude.{◌≡◌, length, map, IfOk};
ghost use Rattle.std.specs.FinMap.{entries};
ghost use Rattle.kernel_contexts.specs.HandlerTable.{handlers_of};
ghost use Rattle.kernel_contexts.specs.LooseState.{AreHandlers, handler_entry};
ghost use Rattle.kernel_contexts.specs.Watch.{AreOfSignals};

use kernel_contexts::{Handler, Handlers};
use std::alloc::{AllocError, Global};

/// The handlers of a table, which has an address for each of the numbers 0 to 62, and 0 where none is set.
pub fn list_handlers(alloc: Global, addresses: &[u64]) -> Result<Handlers, AllocError>
    requires count { length addresses.now ≡ 63 }
    requires signals { AreOfSignals (handlers_of addresses.now) }
    ensures list { IfOk result (λ list. AreHandlers list.items) }
    ensures value { IfOk result (λ list.
        entries (handlers_of addresses.now) ≡ map handler_entry list.items) }
{
    let mut list = Vec::new(alloc);
    for signal in 1..63 {
        let address = addresses[signal];
        if address == 0 {
            continue;
        }
        list.push(Handler {
            signal: signal as u32,
            address,
        })?;
    }
    Ok(list)
}
