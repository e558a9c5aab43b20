//! One step of a machine, whose accesses to shared words a port answers.
ghost use Rattle.std.specs.Prelude.{◌≡◌, ◌≢◌, None, Some, ℕ, List};
ghost use Rattle.paged_memory.specs.PageTable.{PageTable};
ghost use Rattle.shared_region.specs.Tickets.{IsTicketOf, GivesEvents};
ghost use Rattle.a64_encode.specs.Either.{instruction_of};
ghost use Rattle.mem_access.specs.Bank.{bank_state};
ghost use Rattle.machine_step.specs.ProcessorState.{ProcessorState, VectorState, vector_bytes};
ghost use Rattle.machine_step.specs.Execution.{effect_of_insn};
ghost use Rattle.machine_step.specs.Effect.{Effect, Asks, answered, effect_of};
ghost use Rattle.machine_step.specs.Needs.{needs_bank};
ghost use Rattle.machine_step.specs.Machine.{core_of, HasRoomToStep, IsInMode, IsSameBank, KeepsMode, Steps};
ghost use Rattle.machine_step.specs.Machine.{HasRoomOn, IsAsk, IsAsked, AsksWell};
ghost use Rattle.machine_step.specs.Owned.{ExecutionOwns, StepOwns, step_writes, writes_on};
ghost use Rattle.machine_step.specs.Step.{AsksFor, Tells, TellsOn, TellsApart, TellsAlone, events_in};
ghost use Rattle.machine_step.specs.Lent.{lent_before, lent_after, IsLentInMode, Answers, AsksOf, ComesBack};

use crate::at_once::Attempt;
use crate::decoder::{Decoded, Decoder};
use crate::executed::Executed;
use crate::machine::Machine;
use mem_access::{Bank, write_answer};
use shared_region::{Port, PortStop};
use sm_types::{Event, Exception, Insn, SharedOp};

/// What a step came to.
#[derive(Clone, Copy, Debug, PartialEq, Eq)]
pub enum StepEnd {
    /// The instruction was executed, with this event where it accessed a shared word.
    Next(Option<Event>),
    /// The instruction is a call of the kernel, with the number in it; nothing has changed.
    Call(u16),
    /// The instruction raises; nothing has changed.
    Raise(Exception),
    /// The instruction needs a bank, and none was given; nothing has changed.
    NeedsBank,
    /// The instruction accesses a shared word, and the journal has no room for its event; nothing has
    /// changed.
    NoRoom,
    /// The port's journal has no event left for the access; nothing has changed.
    TraceEnds,
    /// The next event of the port's journal has another operation; nothing has changed.
    TraceDiffers,
    /// There was no memory for a page that is written, or for an event; nothing has changed, but that more
    /// pages may be owned.
    Memory,
}

impl Machine {
    /// Executes the instruction at PC, on the bank where one is given; the port answers its access to a
    /// shared word. `room` says that the journal has a place for the event. `NeedsBank` comes only where
    /// there is no bank, and `Memory` only where the instruction writes a page that is not owned, or where it
    /// asks an operation of a port that takes memory. After `Next` exactly the pages of the bytes that the
    /// instruction wrote are owned besides; after any other answer but `Memory` the page table is as it was.
    pub fn step<P: Port>(
        &mut self,
        bank: Option<&mut Bank>,
        port: &mut P,
        ticket: &mut P::Ticket,
        thread: u32,
        room: bool,
    ) -> StepEnd
        requires mode { IsLentInMode (lent_before bank) self.old }
        requires ticket { IsTicketOf thread (P.name port.old) (P.tells ticket.old) }
        ensures effect { Answers (lent_before bank.entry) (lent_after bank.exit)
            (P.refuses port.old ticket.old) room self.old self.new result }
        ensures bank { ComesBack (lent_before bank.entry) (lent_after bank.exit) self.new }
        ensures memory { HasRoomToStep self.old (lent_before bank.entry) → result ≡ StepEnd.Memory
            → AsksOf (P.refuses port.old ticket.old).takes_memory (lent_before bank.entry) self.old }
        ensures owned { StepOwns (step_writes self.old (lent_before bank.entry)) self.old.pages self.new.pages
            result }
        ensures gives { GivesEvents P.gives P.name P.tells thread (events_in result) port.old ticket.old
            port.new ticket.new }
    {
        match bank {
            Some(bank) => self.step_on(
                &mut Decoded::nop(),
                bank,
                false,
                port,
                ticket,
                thread,
                room,
            ),
            None => self.step_alone(&mut Decoded::nop(), port, ticket, thread, room),
        }
    }

    /// Executes the instruction at PC on a bank, by a decoder that keeps the instruction for the next time.
    /// Where `apart` says that the machine is kept off the bank, `NeedsBank` comes exactly where the
    /// instruction cannot be executed without one; else it does not come. It is laid into the loop that makes
    /// turns, where its answer needs no place in memory.
    #[inline(always)]
    pub fn step_apart<P: Port>(
        &mut self,
        decoder: &mut Decoder,
        bank: &mut Bank,
        apart: bool,
        port: &mut P,
        ticket: &mut P::Ticket,
        thread: u32,
        room: bool,
    ) -> StepEnd
        requires mode { IsInMode bank.old self.old }
        requires ticket { IsTicketOf thread (P.name port.old) (P.tells ticket.old) }
        ensures effect { TellsApart apart needs_bank effect_of
            (P.refuses port.old ticket.old) room self.old bank.old self.new bank.new result }
        ensures same { IsSameBank bank.old bank.new }
        ensures mode { IsInMode bank.new self.new }
        ensures memory { HasRoomToStep self.old (Some bank.old) → result ≡ StepEnd.Memory
            → AsksOf (P.refuses port.old ticket.old).takes_memory (Some bank.old) self.old }
        ensures owned { StepOwns (step_writes self.old (Some bank.old)) self.old.pages self.new.pages result }
        ensures gives { GivesEvents P.gives P.name P.tells thread (events_in result) port.old ticket.old
            port.new ticket.new }
    {
        let known = decoder.place(self.scalars.pc);
        self.step_on(known, bank, apart, port, ticket, thread, room)
    }

    /// Executes the instruction at PC, which may be known, on a bank that the machine may be kept off.
    #[inline(always)]
    fn step_on<P: Port>(
        &mut self,
        known: &mut Decoded,
        bank: &mut Bank,
        apart: bool,
        port: &mut P,
        ticket: &mut P::Ticket,
        thread: u32,
        room: bool,
    ) -> StepEnd
        requires mode { IsInMode bank.old self.old }
        requires ticket { IsTicketOf thread (P.name port.old) (P.tells ticket.old) }
        ensures effect { TellsApart apart needs_bank effect_of
            (P.refuses port.old ticket.old) room self.old bank.old self.new bank.new result }
        ensures same { IsSameBank bank.old bank.new }
        ensures mode { IsInMode bank.new self.new }
        ensures memory { HasRoomToStep self.old (Some bank.old) → result ≡ StepEnd.Memory
            → AsksOf (P.refuses port.old ticket.old).takes_memory (Some bank.old) self.old }
        ensures owned { StepOwns (step_writes self.old (Some bank.old)) self.old.pages self.new.pages result }
        ensures gives { GivesEvents P.gives P.name P.tells thread (events_in result) port.old ticket.old
            port.new ticket.new }
    {
        let word = match self.fetch_word() {
            Ok(word) => word,
            Err(exception) => return StepEnd::Raise(exception),
        };
        let Some(insn) = known.instruction(word) else {
            return StepEnd::Raise(Exception::Undefined(word));
        };
        if self.wants(insn, apart) {
            return StepEnd::NeedsBank;
        }
        match self.attempt(word, insn, bank) {
            Attempt::Done => StepEnd::Next(None),
            Attempt::Memory => StepEnd::Memory,
            Attempt::Waits => self.execute_with_port(word, insn, bank, port, ticket, thread, room),
        }
    }

    /// Executes the instruction of a word on a bank; the port answers the operation that it asks, if any.
    #[inline(never)]
    fn execute_with_port<P: Port>(
        &mut self,
        word: u32,
        insn: &Insn,
        bank: &mut Bank,
        port: &mut P,
        ticket: &mut P::Ticket,
        thread: u32,
        room: bool,
    ) -> StepEnd
        requires means { instruction_of word ≡ Some insn.now }
        requires mode { IsInMode bank.old self.old }
        requires ticket { IsTicketOf thread (P.name port.old) (P.tells ticket.old) }
        ensures effect { TellsOn (effect_of_insn word insn.now)
            (P.refuses port.old ticket.old) room self.old bank.old self.new bank.new result }
        ensures same { IsSameBank bank.old bank.new }
        ensures mode { IsInMode bank.new self.new }
        ensures memory { HasRoomOn self.old bank.old insn.now → result ≡ StepEnd.Memory
            → AsksFor (effect_of_insn word insn.now (vector_bytes bank.old.vectors.vl)
            (core_of self.old (bank_state bank.old)))
            (λ op. (P.refuses port.old ticket.old).takes_memory) }
        ensures owned { StepOwns (writes_on self.old bank.old insn.now) self.old.pages self.new.pages result }
        ensures gives { GivesEvents P.gives P.name P.tells thread (events_in result) port.old ticket.old
            port.new ticket.new }
    {
        let executed = self.execute_on(word, insn, bank);
        self.finish(&executed, port, ticket, thread, room)
    }

    /// Executes the instruction at PC, which may be known, without a bank.
    fn step_alone<P: Port>(
        &mut self,
        known: &mut Decoded,
        port: &mut P,
        ticket: &mut P::Ticket,
        thread: u32,
        room: bool,
    ) -> StepEnd
        requires ticket { IsTicketOf thread (P.name port.old) (P.tells ticket.old) }
        ensures effect { TellsAlone needs_bank effect_of
            (P.refuses port.old ticket.old) room self.old self.new result }
        ensures memory { HasRoomToStep self.old None → result ≡ StepEnd.Memory
            → AsksOf (P.refuses port.old ticket.old).takes_memory None self.old }
        ensures owned { StepOwns (step_writes self.old None) self.old.pages self.new.pages result }
        ensures gives { GivesEvents P.gives P.name P.tells thread (events_in result) port.old ticket.old
            port.new ticket.new }
    {
        let executed = self.execute_without_bank(known);
        self.finish(&executed, port, ticket, thread, room)
    }

    /// What a step answers whose instruction came to this; the port is asked where that asks an operation.
    #[inline]
    fn finish<P: Port>(
        &mut self,
        executed: &Executed,
        port: &mut P,
        ticket: &mut P::Ticket,
        thread: u32,
        room: bool,
    ) -> StepEnd
        requires asked { AsksWell self.old executed.now }
        requires ticket { IsTicketOf thread (P.name port.old) (P.tells ticket.old) }
        ensures tells { (bank : VectorState) (effect : Effect) (old : ProcessorState)
            → Steps effect old (core_of self.old bank) executed.now
            → Tells (P.refuses port.old ticket.old) room effect old (core_of self.new bank) result }
        ensures needs { executed.now ≡ Executed.NeedsBank
            → (result ≡ StepEnd.NeedsBank) × (self.new ≡ self.old) }
        ensures memory { result ≡ StepEnd.Memory → executed.now ≢ Executed.Memory
            → IsAsk executed.now × (P.refuses port.old ticket.old).takes_memory }
        ensures owned { (written : List ℕ) (before : PageTable)
            → ExecutionOwns written before self.old.pages executed.now
            → StepOwns written before self.new.pages result }
        ensures mode { KeepsMode self.old self.new }
        ensures gives { GivesEvents P.gives P.name P.tells thread (events_in result) port.old ticket.old
            port.new ticket.new }
    {
        match executed {
            Executed::Next => StepEnd::Next(None),
            Executed::Call(number) => StepEnd::Call(*number),
            Executed::Raise(exception) => StepEnd::Raise(*exception),
            Executed::Ask(insn, op) => self.ask(insn, *op, port, ticket, thread, room),
            Executed::NeedsBank => StepEnd::NeedsBank,
            Executed::Memory => StepEnd::Memory,
        }
    }

    /// Makes the operation of an instruction on a shared word, where the journal has room for its event.
    fn ask<P: Port>(
        &mut self,
        insn: &Insn,
        op: SharedOp,
        port: &mut P,
        ticket: &mut P::Ticket,
        thread: u32,
        room: bool,
    ) -> StepEnd
        requires asked { IsAsked insn.now op self.old.scalars }
        requires ticket { IsTicketOf thread (P.name port.old) (P.tells ticket.old) }
        ensures tells { (bank : VectorState) → Tells
            (P.refuses port.old ticket.old) room
            (Asks op (answered insn.now (core_of self.old bank)))
            (core_of self.old bank) (core_of self.new bank) result }
        ensures memory { result ≡ StepEnd.Memory → (P.refuses port.old ticket.old).takes_memory }
        ensures owned { (written : List ℕ) → StepOwns written self.old.pages self.new.pages result }
        ensures mode { KeepsMode self.old self.new }
        ensures gives { GivesEvents P.gives P.name P.tells thread (events_in result) port.old ticket.old
            port.new ticket.new }
    {
        if !room {
            return StepEnd::NoRoom;
        }
        match port.access(ticket, thread, op) {
            Ok(answer) => {
                write_answer(insn, &mut self.scalars, answer);
                self.step_past();
                StepEnd::Next(Some(Event { op, answer }))
            }
            Err(PortStop::TraceEnds) => StepEnd::TraceEnds,
            Err(PortStop::TraceDiffers) => StepEnd::TraceDiffers,
            Err(PortStop::Memory) => StepEnd::Memory,
        }
    }
}
