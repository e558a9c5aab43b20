//! A sink in memory.
ghost use Rattle.std.specs.Prelude.{◌≡◌, ℕ, ◌+◌, ◌-◌, ◌<◌, ◌≤◌, ◌==◌, ◌++◌, ◌⊎◌, ◌↔◌, Some, IsOk, OnOk};
ghost use Rattle.std.specs.Prelude.{OnErr, IfOk, List, [], ◌∷◌, length, take, min, vec_capacity, false};
ghost use Rattle.std.specs.Prelude.{IsTrue};
ghost use Rattle.edge_io.specs.Failing.{allowance, is_listed};
ghost use Rattle.edge_io.specs.Sink.{Writes};
ghost use Rattle.edge_io.specs.Cause.{Rose};

use crate::sink::{PutFault, Sink};
use sm_types::Memory;
use std::alloc::Global;

/// A sink in memory: its bytes, room for a stated number of them, and a list of the calls that fail.
#[derive(Drop)]
pub struct MemSink {
    held: Vec<u8>,
    room: usize,
    failing: Vec<(u64, usize)>,
    made: u64,
    faults: u64,
    ghost reserved: { room ≤ vec_capacity held },
    ghost within: { length held.items ≤ room },
}

impl MemSink {
    ghost use Rattle.edge_io.specs.MemSink.{text_of, room_of, log_of};

    /// Empty, with room for so many bytes, which is taken now. `Memory` for want of memory.
    pub fn new(alloc: Global, room: usize) -> Result<MemSink, Memory>
        ensures text { IfOk result (λ sink. text_of sink ≡ []) }
        ensures room { IfOk result (λ sink. room_of sink ≡ room) }
        ensures log { IfOk result (λ sink. log_of sink ≡ record { failing = []; made = 0; faults = 0 }) }
    {
        match Vec::with_capacity(alloc, room) {
            Ok(held) => Ok(MemSink {
                held,
                room,
                failing: Vec::new(alloc),
                made: 0,
                faults: 0,
            }),
            Err(_) => Err(Memory),
        }
    }

    /// Lets that `put`, counted from 1, append at most `after` bytes and fail, if its piece is not empty.
    /// After want of memory the list is the same.
    pub fn fail(&mut self, call: u64, after: usize) -> Result<(), Memory>
        ensures ok { OnOk result (log_of self.new
            ≡ record (log_of self.old) { failing = (log_of self.old).failing ++ (call, after) ∷ [] }) }
        ensures err { OnErr result (log_of self.new ≡ log_of self.old) }
        ensures text { text_of self.new ≡ text_of self.old }
        ensures room { room_of self.new ≡ room_of self.old }
    {
        match self.failing.push((call, after)) {
            Ok(()) => Ok(()),
            Err(_) => Err(Memory),
        }
    }

    /// What it holds.
    pub fn bytes(&self) -> &[u8]
        ensures { result.now ≡ text_of self.now }
    {
        self.held.as_slice()
    }

    /// Adds bytes for which there is room, so it takes no memory.
    fn append(&mut self, bytes: &[u8])
        requires { length (text_of self.old) + length bytes.now ≤ room_of self.old }
        ensures text { text_of self.new ≡ text_of self.old ++ bytes.now }
        ensures room { room_of self.new ≡ room_of self.old }
        ensures log { log_of self.new ≡ log_of self.old }
    {
        let appended = self.held.extend_from_slice(bytes);
        let holds = appended.is_ok();
        prove!(holds);
    }
}

/// The most bytes that a call may append where there is room for `room` bytes.
fn allowed(failing: &[(u64, usize)], call: u64, room: usize) -> usize
    ensures { result ≡ allowance failing.now call room }
{
    failing
        .iter()
        .filter(|entry| entry.0 == call)
        .map(|entry| entry.1)
        .fold(room, |least, after| least.min(after))
}

/// How much of a piece of `wanted` bytes a call appends.
#[tactic(auto, using(crate::proofs::Failing::allowance_le, crate::proofs::Failing::allowance_unlisted))]
fn taken(failing: &[(u64, usize)], call: u64, room: usize, wanted: usize) -> usize
    ensures value { result ≡ min (allowance failing.now call room) wanted }
    ensures within { result ≤ room }
    ensures unlisted { is_listed failing.now call ≡ false → wanted ≤ room → result ≡ wanted }
{
    allowed(failing, call, room).min(wanted)
}

/// Whether some entry of the list is for the call.
fn listed(failing: &[(u64, usize)], call: u64) -> bool
    ensures { result ≡ is_listed failing.now call }
{
    failing.iter().any(|entry| entry.0 == call)
}

/// A call appends the whole of a piece of that length, and succeeds.
fn is_whole(failing: &[(u64, usize)], call: u64, room: usize, wanted: usize) -> bool
    ensures { IsTrue result ↔ ((wanted ≡ 0) ⊎ ((is_listed failing.now call ≡ false) × (wanted ≤ room))) }
{
    wanted == 0 || (wanted <= room && !listed(failing, call))
}

impl Sink for MemSink {
    ghost use Rattle.edge_io.specs.MemSink.{text_of, room_of, log_of, taken_of, view_of};
    ghost use Rattle.edge_io.specs.Failing.{next_call};

    ghost view = { view_of };

    /// Fails exactly where the piece is not empty, and the call is listed or the piece does not fit.
    fn put(&mut self, bytes: &[u8]) -> Result<(), PutFault>
        ensures writes { Writes (view_of self.old) (view_of self.new) result bytes.now }
        ensures ok { IsOk result ↔ ((bytes.now ≡ [])
            ⊎ ((is_listed (log_of self.old).failing (next_call (log_of self.old).made) ≡ false)
            × (length (text_of self.old) + length bytes.now ≤ room_of self.old))) }
        ensures text { text_of self.new ≡ text_of self.old ++ take (taken_of self.old) bytes.now }
        ensures room { room_of self.new ≡ room_of self.old }
        ensures list { (log_of self.new).failing ≡ (log_of self.old).failing }
        ensures made { (log_of self.new).made ≡ next_call (log_of self.old).made }
    {
        self.made = self.made.saturating_add(1);
        let room = self.room - self.held.len();
        let end = taken(self.failing.as_slice(), self.made, room, bytes.len());
        let succeeds = is_whole(self.failing.as_slice(), self.made, room, bytes.len());
        self.append(&bytes[..end]);
        if succeeds {
            return Ok(());
        }
        self.faults = self.faults.saturating_add(1);
        Err(PutFault::Failed)
    }
}

#[cfg(test)]
mod tests {
    use super::*;
    use std::test::Fail;

    #[test]
    fn fails_as_told_and_past_its_room(rt: HostRuntime) -> Result<(), Fail> {
        let mut sink = MemSink::new(rt.alloc(), 9)?;
        sink.fail(2, 2)?;
        sink.fail(3, 100)?;
        let cases = [
            ("ab", Ok(()), "ab"),
            ("cdef", Err(PutFault::Failed), "abcd"),
            ("", Ok(()), "abcd"),
            ("ef", Ok(()), "abcdef"),
            ("ghijk", Err(PutFault::Failed), "abcdefghi"),
        ];
        for (piece, answer, held) in cases {
            assert_eq!(rt; sink.put(piece.as_bytes()), answer, "{piece}");
            assert_eq!(rt; sink.bytes(), held.as_bytes(), "{piece}");
        }
        Ok(())
    }
}
