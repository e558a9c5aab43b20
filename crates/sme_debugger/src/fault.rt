//! Why a command was not carried out.
ghost use Rattle.sme_debugger.specs.declared.fault.DebugFault.TheVariants as variants;
ghost use Rattle.std.specs.Prelude.{◌≡◌};

use edge_io::PutFault;
use sm_types::Memory;

/// Why a command was not carried out; the session stands where it stood.
#[derive(Clone, Copy, Debug, PartialEq, Eq)]
pub enum DebugFault {
    /// The sink failed; a part of the answer from the front was written.
    Put,
    /// There was no memory to make the thread's turns; nothing was written.
    Memory,
}

impl From<PutFault> for DebugFault {
    ghost from_gives = { λ _ fault. fault ≡ variants.Put };

    fn from(_error: PutFault) -> DebugFault {
        DebugFault::Put
    }
}

impl From<Memory> for DebugFault {
    ghost from_gives = { λ _ fault. fault ≡ variants.Memory };

    fn from(_error: Memory) -> DebugFault {
        DebugFault::Memory
    }
}
