//! A session of a debugger.
ghost use Rattle.std.specs.Prelude.{◌≡◌, ◌≤◌};

use crate::fault::DebugFault;
use crate::replay::Replay;
use crate::texts::{write_end, write_state};
use edge_io::{PutFault, Sink};
use lone_runner::AloneFault;
use paged_memory::Image;
use script_reader::DebugCommand;
use sm_types::{Config, Event, Memory};
use std::alloc::Global;

/// A recorded run of one guest thread, and a count of instructions at which the session stands, at most the
/// one where the run ends. What it shows is the state that the run of the thread alone shows at that count.
#[derive(Drop)]
pub struct Session {
    replay: Replay,
    place: u32,
    ghost within: { place ≤ replay.last },
}

impl Session {
    ghost use Rattle.std.specs.Prelude.{◌≢◌, ◌+◌, ◌<◌, ◌^◌, length, Ok, Err, IfOk, IfErr, OnOk, OnErr};
    ghost use Rattle.std.specs.Prelude.{MatchOption};
    ghost use Rattle.edge_io.specs.Sink.{Writes};
    ghost use Rattle.lone_runner.specs.Parting.{EndsAt, IsParting};
    ghost use Rattle.sme_debugger.specs.Answers.{Answers, Goes, Breaks, Prints, IsNext, HasNone, shown_text};
    ghost use Rattle.sme_debugger.specs.Answers.{end_text, IsWritten, IsPartWritten};
    ghost use Rattle.sme_debugger.specs.Session.{recording_of, place_of};

    /// A session at count 0 of the run of a thread, which is to end at `count` with all events of the journal
    /// used. Else the fault is the first by which the run parts from that; `Memory` is want of memory.
    pub fn new(
        alloc: Global,
        image: Image,
        config: Config,
        thread: u32,
        journal: Vec<Event>,
        count: u32,
    ) -> Result<Session, AloneFault>
        requires thread { thread < config.threads }
        requires events { length journal.items < 2 ^ 32 }
        ensures recording { IfOk result (λ session. recording_of session ≡ record {
          program = image;
          config = config;
          thread = thread;
          journal = journal.items;
          last = count;
        }) }
        ensures ends { OnOk result (EndsAt image config thread journal.items count) }
        ensures place { IfOk result (λ session. place_of session ≡ 0) }
        ensures parts { IfErr result (λ fault. fault ≢ AloneFault.Memory
            → IsParting image config thread journal.items count fault) }
    {
        let replay = Replay::new(alloc, image, config, thread, journal, count)?;
        Ok(Session { replay, place: 0 })
    }

    /// Carries out a command: its text is written, and the session then stands where the command leads. After
    /// `Put` a part of the text from the front was written, and after `Memory`, which is want of memory,
    /// nothing; the session then stands where it stood.
    pub fn run_command<K: Sink>(
        &mut self,
        command: &DebugCommand,
        out: &mut K,
    ) -> Result<(), DebugFault>
        ensures done { OnOk result
            (IsWritten (Answers (recording_of self.old) (place_of self.old) command.now)
            (place_of self.new) (K.view out.old) (K.view out.new) (Ok tt)) }
        ensures put { result ≡ Err DebugFault.Put
            → IsPartWritten (Answers (recording_of self.old) (place_of self.old) command.now)
            (K.view out.old) (K.view out.new) (Err PutFault.Failed) }
        ensures memory { result ≡ Err DebugFault.Memory → K.view out.new ≡ K.view out.old }
        ensures stays { OnErr result (place_of self.new ≡ place_of self.old) }
        ensures same { recording_of self.new ≡ recording_of self.old }
    {
        match *command {
            DebugCommand::Step { count } => {
                self.go_to(u64::from(self.place) + u64::from(count), out)?;
                Ok(())
            }
            DebugCommand::Back { count } => {
                self.place = self.place.saturating_sub(count);
                Ok(())
            }
            DebugCommand::Goto { count } => {
                self.go_to(u64::from(count), out)?;
                Ok(())
            }
            DebugCommand::Break { address } => self.break_at(address, out),
            shows => self.print(shows, out),
        }
    }

    /// Stands at a count; where that is past the end of the run, at the last count, which is told.
    fn go_to<K: Sink>(&mut self, aim: u64, out: &mut K) -> Result<(), PutFault>
        ensures done { OnOk result (IsWritten (Goes self.old.replay.last aim) (place_of self.new)
            (K.view out.old) (K.view out.new) (Ok tt)) }
        ensures put { OnErr result (IsPartWritten (Goes self.old.replay.last aim) (K.view out.old)
            (K.view out.new) (Err PutFault.Failed)) }
        ensures stays { OnErr result (place_of self.new ≡ place_of self.old) }
        ensures same { recording_of self.new ≡ recording_of self.old }
    {
        if aim > u64::from(self.replay.last) {
            self.end(out)?;
            return Ok(());
        }
        self.place = aim as u32;
        Ok(())
    }

    /// Stands at the last count, and tells so.
    fn end<K: Sink>(&mut self, out: &mut K) -> Result<(), PutFault>
        ensures written { Writes (K.view out.old) (K.view out.new) result (end_text self.old.replay.last) }
        ensures done { OnOk result (place_of self.new ≡ self.old.replay.last) }
        ensures stays { OnErr result (place_of self.new ≡ place_of self.old) }
        ensures same { recording_of self.new ≡ recording_of self.old }
    {
        write_end(self.replay.last, out)?;
        self.place = self.replay.last;
        Ok(())
    }

    /// Stands at the next count whose PC is this address; where there is none, at the last count, which is
    /// told.
    fn break_at<K: Sink>(&mut self, address: u64, out: &mut K) -> Result<(), DebugFault>
        ensures done { OnOk result (IsWritten (Breaks (recording_of self.old) (place_of self.old) address)
            (place_of self.new) (K.view out.old) (K.view out.new) (Ok tt)) }
        ensures put { result ≡ Err DebugFault.Put
            → IsPartWritten (Breaks (recording_of self.old) (place_of self.old) address)
            (K.view out.old) (K.view out.new) (Err PutFault.Failed) }
        ensures memory { result ≡ Err DebugFault.Memory → K.view out.new ≡ K.view out.old }
        ensures stays { OnErr result (place_of self.new ≡ place_of self.old) }
        ensures same { recording_of self.new ≡ recording_of self.old }
    {
        match self.next_at(address)? {
            Some(count) => self.place = count,
            None => self.end(out)?,
        }
        Ok(())
    }

    /// The next count whose PC is this address.
    fn next_at(&mut self, address: u64) -> Result<Option<u32>, Memory>
        ensures next { IfOk result (λ found. MatchOption found
            (HasNone (recording_of self.old) (place_of self.old) address)
            (λ count. IsNext (recording_of self.old) (place_of self.old) address count)) }
        ensures stays { place_of self.new ≡ place_of self.old }
        ensures same { recording_of self.new ≡ recording_of self.old }
    {
        let last = self.replay.last;
        let mut count = self.place;
        'counts: while count < last {
            self.replay.show(count + 1)?;
            count = self.replay.run_towards(count + 1, address);
            if self.replay.loose.machine().scalars.pc == address {
                return Ok(Some(count));
            }
        }
        Ok(None)
    }

    /// Writes what a command shows of the state at the place.
    fn print<K: Sink>(&mut self, command: DebugCommand, out: &mut K) -> Result<(), DebugFault>
        ensures done { OnOk result (IsWritten
            (Prints (recording_of self.old) (place_of self.old) (shown_text command))
            (place_of self.new) (K.view out.old) (K.view out.new) (Ok tt)) }
        ensures put { result ≡ Err DebugFault.Put
            → IsPartWritten (Prints (recording_of self.old) (place_of self.old) (shown_text command))
            (K.view out.old) (K.view out.new) (Err PutFault.Failed) }
        ensures memory { result ≡ Err DebugFault.Memory → K.view out.new ≡ K.view out.old }
        ensures stays { OnErr result (place_of self.new ≡ place_of self.old) }
        ensures same { recording_of self.new ≡ recording_of self.old }
    {
        self.replay.show(self.place)?;
        write_state(&self.replay.loose, command, out)?;
        Ok(())
    }
}
