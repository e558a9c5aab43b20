//! The delivery of a signal, and the return from its handler.
ghost use Rattle.std.specs.Prelude.{◌≡◌, ◌-◌, ◌^◌, ◌<◌, ◌≤◌, None, true};
ghost use Rattle.std.specs.Int.{bit_at};
ghost use Rattle.kernel_contexts.specs.Handlers.{is_signal};
ghost use Rattle.sm_types.specs.Options.{version_of};

use crate::context::Turn;
use crate::guest::GuestThread;
use crate::handlers::handler_of;
use crate::kernel::masked_inside;
use mem_access::Bank;
use signal_frames::{FrameStop, Masking, deliver, return_from, return_sees_no_mode};
use sm_types::Stop;

impl GuestThread {
    ghost use Rattle.std.specs.Prelude.{is_some};
    ghost use Rattle.std.specs.FinMap.{get};
    ghost use Rattle.kernel_contexts.specs.Call.{return_of};
    ghost use Rattle.kernel_contexts.specs.Turn.{delivery_of, lowest_signal, released, outside_streaming};
    ghost use Rattle.kernel_contexts.specs.Turn.{handled_by, open_signals, is_delivery_due};
    ghost use Rattle.kernel_contexts.specs.Context.{held_state, bare_state, Takes, IsQuietGuest};
    ghost use Rattle.kernel_contexts.specs.SaveArea.{IsFit, ComesBack};
    ghost use Rattle.kernel_contexts.specs.Wanting.{FrameWants};
    ghost use Rattle.kernel_contexts.specs.Owned.{TurnOwns, frame_writes};

    /// The signals that are held and not masked.
    pub(super) fn open_signals(&self) -> u64
        ensures { result ≡ open_signals (bare_state self.now) }
    {
        self.held & !self.mask
    }

    /// The lowest signal that is open.
    fn lowest_signal(&self) -> u32
        requires { is_delivery_due self.now.config (bare_state self.now) ≡ true }
        ensures signal { result ≡ lowest_signal (bare_state self.now) }
        ensures within { result < 64 }
        ensures held { bit_at self.now.held result ≡ 1 }
        ensures is_held { 2 ^ result ≤ self.now.held }
    {
        self.open_signals().trailing_zeros()
    }

    /// Whether the lowest signal that is open has a handler.
    pub(super) fn has_handler(&self) -> bool
        requires { is_delivery_due self.now.config (bare_state self.now) ≡ true }
        ensures { result
            ≡ is_some (get (bare_state self.now).handlers (lowest_signal (bare_state self.now))) }
    {
        handler_of(&self.handlers, self.lowest_signal()).is_some()
    }

    /// Holds the lowest signal that is open no longer.
    fn release(&mut self, signal: u32)
        requires within { signal < 64 }
        requires held { bit_at self.old.held signal ≡ 1 }
        requires is_held { 2 ^ signal ≤ self.old.held }
        requires lowest { signal ≡ lowest_signal (bare_state self.old) }
        ensures state { bare_state self.new ≡ released (bare_state self.old) }
        ensures machine { self.new.machine ≡ self.old.machine }
        ensures stop { self.new.stop ≡ self.old.stop }
        ensures watch { (self.new.watch ≡ self.old.watch) }
        ensures same { IsQuietGuest self.old self.new }
    {
        self.held -= 1 << signal;
    }

    /// Delivers the lowest signal that is open to its handler; a thread that has none for it is killed.
    pub(super) fn deliver_signal(&mut self, bank: &mut Bank) -> Turn
        requires runs { self.old.stop ≡ None }
        requires fit { IsFit self.old.config self.old.machine bank.old }
        requires due { is_delivery_due self.old.config (bare_state self.old) ≡ true }
        requires count { self.old.count < self.old.config.budget }
        ensures turn { Takes
            (FrameWants self.old.config (held_state self.old bank.old) self.old.machine.pages)
            (delivery_of self.old.config (held_state self.old bank.old)) self.old bank.old
            self.new bank.new result }
        ensures owned { TurnOwns (frame_writes self.old bank.old) self.old.machine.pages
            self.new.machine.pages result }
        ensures back { ComesBack self.new.config self.new.machine bank.old bank.new }
        ensures same { IsQuietGuest self.old self.new }
    {
        let signal = self.lowest_signal();
        match handler_of(&self.handlers, signal) {
            Some(handler) => self.enter_handler(bank, signal, handler),
            None => {
                self.release(signal);
                self.stop_with(Stop::Killed(signal))
            }
        }
    }

    /// Writes the frame of a signal and goes on in its handler.
    fn enter_handler(&mut self, bank: &mut Bank, signal: u32, handler: u64) -> Turn
        requires runs { self.old.stop ≡ None }
        requires fit { IsFit self.old.config self.old.machine bank.old }
        requires lowest { signal ≡ lowest_signal (bare_state self.old) }
        requires within { signal < 64 }
        requires held { bit_at self.old.held signal ≡ 1 }
        requires is_held { 2 ^ signal ≤ self.old.held }
        requires known { is_signal signal ≡ true }
        requires due { is_delivery_due self.old.config (bare_state self.old) ≡ true }
        requires count { self.old.count < self.old.config.budget }
        ensures turn { Takes
            (FrameWants self.old.config (held_state self.old bank.old) self.old.machine.pages)
            (handled_by self.old.config signal handler (held_state self.old bank.old))
            self.old bank.old self.new bank.new result }
        ensures owned { TurnOwns (frame_writes self.old bank.old) self.old.machine.pages
            self.new.machine.pages result }
        ensures back { ComesBack self.new.config self.new.machine bank.old bank.new }
        ensures same { IsQuietGuest self.old self.new }
    {
        let version = self.config.version();
        let masking = Masking {
            mask: self.mask,
            depth: self.depth,
        };
        match deliver(version, masking, &mut self.machine, bank, signal, handler) {
            Ok(()) => {
                self.release(signal);
                self.mask = masked_inside(version, signal, self.mask);
                self.depth += 1;
                self.turns += 1;
                Turn::Ran
            }
            Err(FrameStop::BadFrame(address)) => {
                self.release(signal);
                self.stop_with(Stop::BadFrame(address))
            }
            Err(FrameStop::Memory) => Turn::Memory,
        }
    }

    /// Returns from a handler.
    #[tactic(auto, unfolding(crate::specs::Call::return_of))]
    pub(super) fn return_from_handler(&mut self, bank: &mut Bank) -> Turn
        requires room { self.old.count < self.old.config.budget }
        requires runs { self.old.stop ≡ None }
        requires fit { IsFit self.old.config self.old.machine bank.old }
        ensures turn { Takes ⊥ (return_of self.old.config (held_state self.old bank.old)
            (outside_streaming self.old.config (held_state self.old bank.old))) self.old bank.old self.new
            bank.new result }
        ensures pages { self.new.machine.pages ≡ self.old.machine.pages }
        ensures back { ComesBack self.new.config self.new.machine bank.old bank.new }
        ensures same { IsQuietGuest self.old self.new }
    {
        return_sees_no_mode();
        let version = self.config.version();
        match return_from(version, self.depth, &mut self.machine, bank) {
            Ok(masking) => {
                self.count_turn();
                self.mask = masking.mask;
                self.depth = masking.depth;
                Turn::Ran
            }
            Err(fault) => self.stop_with(Stop::BadFrame(fault.0)),
        }
    }
}
