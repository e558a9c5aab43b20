//! The calls of the kernel.
ghost use Rattle.std.specs.Prelude.{◌≡◌, ◌≢◌, ◌+◌, ◌-◌, ◌<◌, ◌≤◌, ◌^◌, ◌++◌, length, vec_len, None, Some};
ghost use Rattle.std.specs.Prelude.{take, drop};
ghost use Rattle.std.specs.Prelude.{slice_index};
ghost use Rattle.std.specs.Prelude.{true, false};
ghost use Rattle.paged_memory.specs.Memory.{bytes_with, first_without};
ghost use Rattle.kernel_contexts.specs.Call.{post_op, masked};
ghost use Rattle.kernel_contexts.specs.Output.{Appends};

use crate::context::Turn;
use crate::guest::GuestThread;
use crate::handlers::set_handler;
use crate::kernel_call::{KernelCall, call_numbered};
use mem_access::Bank;
use paged_memory::Pages;
use shared_region::Port;
use sm_types::{Access, OUTPUT_LIMIT, OpKind, SharedOp, Stop, Version};

/// The bits of the signals 1 to 62.
const SIGNALS: u64 = 0x7fff_ffff_ffff_fffe;
/// The answer for a descriptor that is not open: EBADF is 9.
const BAD_DESCRIPTOR: u64 = u64::MAX - 8;
/// The answer for bytes that cannot be read: EFAULT is 14.
const BAD_ADDRESS: u64 = u64::MAX - 13;
/// The answer for a number that is no signal: EINVAL is 22.
const BAD_ARGUMENT: u64 = u64::MAX - 21;
/// The answer for a number that is no call: ENOSYS is 38.
const NO_CALL: u64 = u64::MAX - 37;

/// What became of bytes that were to be added to the output.
#[derive(Clone, Copy)]
pub enum Appended {
    All,
    Unreadable,
    Memory,
}

/// Reads bytes of the pages into the end of a slice, from a place on.
fn read_end(pages: &Pages, address: u64, into: &mut [u8], from: usize) -> bool
    requires { from ≤ length into.old }
    ensures kept { take from into.new ≡ take from into.old }
    ensures read { result ≡ true → bytes_with 4 pages.now.memory address (length into.old - from)
        ≡ Some (drop from into.new) }
    ensures refused { result ≡ false
        → first_without 4 pages.now.memory address (length into.old - from) ≢ None }
{
    match pages.read(address, &mut into[from..]) {
        Ok(()) => true,
        Err(_) => false,
    }
}

/// Adds bytes of the pages at the end of the output, or leaves it as it is. Room is taken where there are
/// some and each can be read.
fn append(pages: &Pages, address: u64, count: usize, output: &mut Vec<u8>) -> Appended
    requires { vec_len output.old + count < 2 ^ 32 }
    ensures appends { Appends count (bytes_with 4 pages.now.memory address count) output.old.items
        output.new.items result }
    ensures within { vec_len output.new ≤ vec_len output.old + count }
{
    if count == 0 {
        return Appended::All;
    }
    match pages.check(address, count as u64, Access::Read) {
        Ok(()) => {}
        Err(_) => return Appended::Unreadable,
    }
    let old = output.len();
    match output.resize(old + count, 0) {
        Ok(()) => {
            if read_end(pages, address, output.as_mut_slice(), old) {
                Appended::All
            } else {
                unreachable!()
            }
        }
        Err(_) => Appended::Memory,
    }
}

/// The mask with these signals added, without them, or these alone.
fn masked(how: u64, mask: u64, signals: u64) -> u64
    ensures { result ≡ masked how mask signals }
{
    match how {
        0 => mask | signals,
        1 => mask & !signals,
        _ => signals,
    }
}

/// The operation that makes a signal pending for a thread.
fn post_op(thread: u64, signal: u64) -> SharedOp
    requires thread { thread < 32 }
    requires signal { signal ≤ 62 }
    ensures { result ≡ post_op thread signal }
{
    SharedOp {
        kind: OpKind::Post,
        place: thread as u32,
        a: 1 << signal,
        b: 0,
    }
}

impl GuestThread {
    ghost use Rattle.kernel_contexts.specs.Call.{write_of, exit_of, set_handler_of, post_of, may_post};
    ghost use Rattle.kernel_contexts.specs.Call.{returned, Yields, set_mask_of};
    ghost use Rattle.kernel_contexts.specs.KernelCall.{call_numbered, write_number};
    ghost use Rattle.sm_types.specs.Options.{version_of};
    ghost use Rattle.kernel_contexts.specs.Turn.{outside_streaming};
    ghost use Rattle.kernel_contexts.specs.GuestThread.{guest_events};
    ghost use Rattle.kernel_contexts.specs.Context.{held_state, guest_call, Takes, IsQuietGuest};
    ghost use Rattle.kernel_contexts.specs.SaveArea.{IsFit, ComesBack};
    ghost use Rattle.kernel_contexts.specs.Context.{GuestTurns, Grows, HasFreePlace, GoesOrAsks};
    ghost use Rattle.kernel_contexts.specs.Wanting.{CallWants, WriteWants};
    ghost use Rattle.shared_region.specs.Tickets.{IsTicketOf, GivesEvents};

    /// The call of the number in X8.
    pub(super) fn call<P: Port>(
        &mut self,
        bank: &mut Bank,
        port: &mut P,
        ticket: &mut P::Ticket,
    ) -> Turn
        requires room { self.old.count < self.old.config.budget }
        requires runs { self.old.stop ≡ None }
        requires fit { IsFit self.old.config self.old.machine bank.old }
        requires ticket { IsTicketOf self.old.number (P.name port.old) (P.tells ticket.old) }
        ensures turn { GuestTurns (P.refuses port.old ticket.old) (guest_call self.old bank.old) self.old
            bank.old self.new bank.new result }
        ensures pages { self.new.machine.pages ≡ self.old.machine.pages }
        ensures back { ComesBack self.new.config self.new.machine bank.old bank.new }
        ensures memory { result ≡ Turn.Memory → HasFreePlace self.old
            → CallWants (P.refuses port.old ticket.old).takes_memory (held_state self.old bank.old) }
        ensures goes { result ≡ Turn.Memory → HasFreePlace self.old
            → GoesOrAsks (P.refuses port.old ticket.old).takes_memory (guest_call self.old bank.old) }
        ensures grows { Grows (λ thread events. GivesEvents P.gives P.name P.tells thread events port.old
            ticket.old port.new ticket.new) self.old self.new }
    {
        let number = self.machine.scalars.x[8];
        let call = call_numbered(self.config.version(), number);
        match call {
            KernelCall::Post => self.post(bank, port, ticket),
            _ => self.call_quietly(bank, call),
        }
    }

    /// The calls that ask no operation.
    #[tactic(auto, unfolding(crate::specs::Call::call_of))]
    fn call_quietly(&mut self, bank: &mut Bank, call: KernelCall) -> Turn
        requires room { self.old.count < self.old.config.budget }
        requires runs { self.old.stop ≡ None }
        requires fit { IsFit self.old.config self.old.machine bank.old }
        requires call { call ≡ call_numbered (version_of self.old.config)
            (slice_index self.old.machine.scalars.x 8) }
        requires quiet { call ≢ KernelCall.Post }
        ensures turn { Takes (WriteWants (held_state self.old bank.old)) (guest_call self.old bank.old)
            self.old bank.old self.new bank.new result }
        ensures pages { self.new.machine.pages ≡ self.old.machine.pages }
        ensures back { ComesBack self.new.config self.new.machine bank.old bank.new }
        ensures same { IsQuietGuest self.old self.new }
    {
        match call {
            KernelCall::Write => self.write(bank),
            KernelCall::Exit => self.exit(bank),
            KernelCall::Yield => self.give_way(bank),
            KernelCall::Post => unreachable!(),
            KernelCall::SetHandler => self.set_handler(bank),
            KernelCall::SetMask => self.set_mask(bank),
            KernelCall::Return => self.return_from_handler(bank),
            KernelCall::Number => self.return_with(bank, u64::from(self.number)),
            KernelCall::Other => self.return_with(bank, NO_CALL),
        }
    }

    /// Makes signal X1 pending for thread X0.
    fn post<P: Port>(&mut self, bank: &mut Bank, port: &mut P, ticket: &mut P::Ticket) -> Turn
        requires room { self.old.count < self.old.config.budget }
        requires runs { self.old.stop ≡ None }
        requires fit { IsFit self.old.config self.old.machine bank.old }
        requires ticket { IsTicketOf self.old.number (P.name port.old) (P.tells ticket.old) }
        ensures turn { let before = held_state self.old bank.old in
            GuestTurns (P.refuses port.old ticket.old)
            (post_of self.old.config (guest_events self.old) before
            (outside_streaming self.old.config before)) self.old bank.old self.new bank.new result }
        ensures pages { self.new.machine.pages ≡ self.old.machine.pages }
        ensures memory { result ≡ Turn.Memory → HasFreePlace self.old
            → (P.refuses port.old ticket.old).takes_memory }
        ensures goes { result ≡ Turn.Memory → HasFreePlace self.old
            → GoesOrAsks (P.refuses port.old ticket.old).takes_memory
            (post_of self.old.config (guest_events self.old) (held_state self.old bank.old)
            (outside_streaming self.old.config (held_state self.old bank.old))) }
        ensures back { ComesBack self.new.config self.new.machine bank.old bank.new }
        ensures grows { Grows (λ thread events. GivesEvents P.gives P.name P.tells thread events port.old
            ticket.old port.new ticket.new) self.old self.new }
    {
        if !self.may_post() {
            return self.return_with(bank, BAD_ARGUMENT);
        }
        let op = post_op(self.machine.scalars.x[0], self.machine.scalars.x[1]);
        match self.ask(op, port, ticket) {
            Ok(_) => self.return_with(bank, 0),
            Err(refusal) => self.refuse(refusal),
        }
    }

    /// Whether X0 is the number of a thread, and X1 a signal.
    fn may_post(&self) -> bool
        ensures value { result ≡ may_post self.now.config self.now.machine.scalars.x }
        ensures thread { result ≡ true → slice_index self.now.machine.scalars.x 0 < self.now.config.threads }
        ensures signal { result ≡ true → slice_index self.now.machine.scalars.x 1 ≤ 62 }
    {
        let thread = self.machine.scalars.x[0];
        let signal = self.machine.scalars.x[1];
        thread < u64::from(self.config.threads) && signal >= 1 && signal <= 62
    }

    /// Goes on past the call, outside Streaming SVE mode, with its answer in X0.
    fn return_with(&mut self, bank: &mut Bank, answer: u64) -> Turn
        requires room { self.old.count < self.old.config.budget }
        requires runs { self.old.stop ≡ None }
        requires fit { IsFit self.old.config self.old.machine bank.old }
        ensures answer { result ≡ Turn.Ran }
        ensures state { held_state self.new bank.new ≡
            returned (outside_streaming self.old.config (held_state self.old bank.old)) answer }
        ensures pages { self.new.machine.pages ≡ self.old.machine.pages }
        ensures stop { self.new.stop ≡ None }
        ensures back { ComesBack self.new.config self.new.machine bank.old bank.new }
        ensures same { IsQuietGuest self.old self.new }
    {
        self.leave_streaming(bank);
        self.machine.scalars.x[0] = answer;
        self.machine.scalars.pc = self.machine.scalars.pc.wrapping_add(4);
        self.count_turn();
        Turn::Ran
    }

    /// Ends the thread, with the low byte of X0 as its status.
    #[tactic(auto, unfolding(crate::specs::Call::exit_of))]
    fn exit(&mut self, bank: &mut Bank) -> Turn
        requires room { self.old.count < self.old.config.budget }
        requires runs { self.old.stop ≡ None }
        requires fit { IsFit self.old.config self.old.machine bank.old }
        ensures turn { Takes ⊥ (exit_of (outside_streaming self.old.config (held_state self.old bank.old)))
            self.old bank.old self.new bank.new result }
        ensures pages { self.new.machine.pages ≡ self.old.machine.pages }
        ensures back { ComesBack self.new.config self.new.machine bank.old bank.new }
        ensures same { IsQuietGuest self.old self.new }
    {
        self.leave_streaming(bank);
        let status = (self.machine.scalars.x[0] % 256) as u8;
        self.machine.scalars.pc = self.machine.scalars.pc.wrapping_add(4);
        self.count_turn();
        self.stop_with(Stop::Exited(status))
    }

    /// Gives way to other threads.
    fn give_way(&mut self, bank: &mut Bank) -> Turn
        requires room { self.old.count < self.old.config.budget }
        requires runs { self.old.stop ≡ None }
        requires fit { IsFit self.old.config self.old.machine bank.old }
        ensures turn { let left = outside_streaming self.old.config (held_state self.old bank.old) in
            Takes ⊥ (Yields (returned left 0)) self.old bank.old self.new bank.new result }
        ensures pages { self.new.machine.pages ≡ self.old.machine.pages }
        ensures back { ComesBack self.new.config self.new.machine bank.old bank.new }
        ensures same { IsQuietGuest self.old self.new }
    {
        self.return_with(bank, 0);
        Turn::Yielded
    }

    /// Sets the handler of signal X0 to the address in X1, or removes it where that is 0.
    #[tactic(auto, unfolding(crate::specs::Call::set_handler_of))]
    fn set_handler(&mut self, bank: &mut Bank) -> Turn
        requires room { self.old.count < self.old.config.budget }
        requires runs { self.old.stop ≡ None }
        requires fit { IsFit self.old.config self.old.machine bank.old }
        ensures turn { let left = outside_streaming self.old.config (held_state self.old bank.old) in
            Takes ⊥ (set_handler_of left) self.old bank.old self.new bank.new result }
        ensures pages { self.new.machine.pages ≡ self.old.machine.pages }
        ensures back { ComesBack self.new.config self.new.machine bank.old bank.new }
        ensures same { IsQuietGuest self.old self.new }
    {
        let signal = self.machine.scalars.x[0];
        let address = self.machine.scalars.x[1];
        if signal < 1 || signal > 62 {
            return self.return_with(bank, BAD_ARGUMENT);
        }
        set_handler(&mut self.handlers, signal as usize, address);
        self.return_with(bank, 0)
    }

    /// Adds the signals in X1 to the mask, takes them from it, or masks these alone, as X0 says.
    #[tactic(auto, unfolding(crate::specs::Call::set_mask_of))]
    fn set_mask(&mut self, bank: &mut Bank) -> Turn
        requires version { version_of self.old.config ≡ Version.Two }
        requires room { self.old.count < self.old.config.budget }
        requires runs { self.old.stop ≡ None }
        requires fit { IsFit self.old.config self.old.machine bank.old }
        ensures turn { let left = outside_streaming self.old.config (held_state self.old bank.old) in
            Takes ⊥ (set_mask_of left) self.old bank.old self.new bank.new result }
        ensures pages { self.new.machine.pages ≡ self.old.machine.pages }
        ensures back { ComesBack self.new.config self.new.machine bank.old bank.new }
        ensures same { IsQuietGuest self.old self.new }
    {
        let how = self.machine.scalars.x[0];
        if how > 2 {
            return self.return_with(bank, BAD_ARGUMENT);
        }
        let mask = self.mask;
        let signals = self.machine.scalars.x[1] & SIGNALS;
        self.return_with(bank, mask);
        self.mask = masked(how, mask, signals);
        Turn::Ran
    }

    /// Writes the X2 bytes from X1 on to the thread's output.
    #[tactic(auto, unfolding(crate::specs::Call::write_of))]
    fn write(&mut self, bank: &mut Bank) -> Turn
        requires number { slice_index self.old.machine.scalars.x 8 ≡ write_number }
        requires room { self.old.count < self.old.config.budget }
        requires runs { self.old.stop ≡ None }
        requires fit { IsFit self.old.config self.old.machine bank.old }
        ensures turn { let before = held_state self.old bank.old in
            Takes (WriteWants before) (write_of before (outside_streaming self.old.config before)) self.old
            bank.old self.new bank.new result }
        ensures pages { self.new.machine.pages ≡ self.old.machine.pages }
        ensures back { ComesBack self.new.config self.new.machine bank.old bank.new }
        ensures same { IsQuietGuest self.old self.new }
    {
        let descriptor = self.machine.scalars.x[0];
        let address = self.machine.scalars.x[1];
        let count = self.machine.scalars.x[2];
        if descriptor != 1 && descriptor != 2 {
            return self.return_with(bank, BAD_DESCRIPTOR);
        }
        if count > u64::from(OUTPUT_LIMIT) - self.output.len() as u64 {
            return self.stop_with(Stop::OutputFull);
        }
        match append(
            &self.machine.pages,
            address,
            count as usize,
            &mut self.output,
        ) {
            Appended::All => self.return_with(bank, count),
            Appended::Unreadable => self.return_with(bank, BAD_ADDRESS),
            Appended::Memory => Turn::Memory,
        }
    }
}
