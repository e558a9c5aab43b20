//! Why a command has no answer, and how that is written.
ghost use Rattle.std.specs.Prelude.{◌≡◌};
ghost use Rattle.edge_io.specs.Sink.{Writes};
ghost use Rattle.smemu.specs.Views.{refusal_status, refusal_text, unread_line, unread_status};
ghost use Rattle.smemu.specs.declared.refusal.Refusal.TheVariants as variants;

use crate::ending::{Ending, status_of_ending, write_ending};
use crate::rejection::{Rejection, status_of_rejection, write_rejection};
use cmd_words::UsageKind;
use command_lines::{Status, write_usage};
use edge_io::{PutFault, Sink, write_parts};
use sm_types::Memory;
use std::alloc::AllocError;

/// Why a command has no answer.
#[derive(Drop)]
pub enum Refusal {
    /// The words are no command: their first fault.
    Usage { place: usize, kind: UsageKind },
    /// The file of that name was not fetched.
    Unread { name: String, why: Unread },
    /// A file that was fetched is not accepted.
    Rejected(Rejection),
    /// The files are accepted, and what was asked ends otherwise than with its text.
    Ended(Ending),
    /// There was no memory.
    Memory,
}

/// Why a file was not fetched.
#[derive(Clone, Copy)]
pub enum Unread {
    /// There is none of that name.
    Absent,
    /// It could not be read.
    Failed,
}

impl From<Memory> for Refusal {
    ghost from_gives = { λ _ refusal. refusal ≡ variants.Memory };

    fn from(_error: Memory) -> Refusal {
        Refusal::Memory
    }
}

impl From<AllocError> for Refusal {
    ghost from_gives = { λ _ refusal. refusal ≡ variants.Memory };

    fn from(_error: AllocError) -> Refusal {
        Refusal::Memory
    }
}

/// Writes the line of a file that was not fetched.
fn write_unread<K: Sink>(out: &mut K, name: &str, why: Unread) -> Result<(), PutFault>
    ensures { Writes (K.view out.old) (K.view out.new) result (unread_line why name.now) }
{
    match why {
        Unread::Absent => write_parts(out, &[b"absent: ", name.as_bytes(), b"\n"]),
        Unread::Failed => write_parts(out, &[b"read fault: ", name.as_bytes(), b"\n"]),
    }
}

/// Writes the line of a refusal; want of memory has none.
#[tactic(auto, unfolding(crate::specs::Views::refusal_text))]
pub fn write_refusal<K: Sink>(out: &mut K, refusal: &Refusal) -> Result<(), PutFault>
    ensures { Writes (K.view out.old) (K.view out.new) result (refusal_text refusal.now) }
{
    match refusal {
        Refusal::Usage { place, kind } => write_usage(out, *place, *kind),
        Refusal::Unread { name, why } => write_unread(out, name.as_str(), *why),
        Refusal::Rejected(rejection) => write_rejection(out, rejection),
        Refusal::Ended(ending) => write_ending(out, ending),
        Refusal::Memory => write_parts(out, &[]),
    }
}

/// The status of a file that was not fetched.
fn status_of_unread(why: Unread) -> Status
    ensures { result ≡ unread_status why }
{
    match why {
        Unread::Absent => Status::Absent,
        Unread::Failed => Status::ReadFault,
    }
}

/// The status of a refusal.
pub fn status_of(refusal: &Refusal) -> Status
    ensures { result ≡ refusal_status refusal.now }
{
    match refusal {
        Refusal::Usage { .. } => Status::Usage,
        Refusal::Unread { name: _, why } => status_of_unread(*why),
        Refusal::Rejected(rejection) => status_of_rejection(rejection),
        Refusal::Ended(ending) => status_of_ending(ending),
        Refusal::Memory => Status::OutOfMemory,
    }
}
