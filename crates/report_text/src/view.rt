//! What a block shows of a guest thread's state.
ghost use Rattle.std.specs.Prelude.{◌≡◌, true};
ghost use Rattle.kernel_contexts.specs.Context.{state_of, thread_of, stop_of, journal_of, is_home};
ghost use Rattle.kernel_contexts.specs.Loose.{loose_state};
ghost use Rattle.report_text.specs.View.{state_seen};

use kernel_contexts::{Context, Loose};
use machine_step::Machine;
use mem_access::Bank;
use sm_types::{Event, Stop};

/// What a block shows of a guest thread's state.
#[derive(Clone, Copy)]
pub struct StateView<'a> {
    /// Registers and pages.
    pub machine: &'a Machine,
    /// Vectors, predicates, FFR and ZA.
    pub bank: &'a Bank,
    /// Instructions executed.
    pub count: u32,
    /// Turns made.
    pub turns: u64,
    /// The signals that are held back, a bit for each.
    pub held: u64,
    /// Those that are masked, a bit for each.
    pub mask: u64,
    /// The number of handlers that the thread is in.
    pub depth: u32,
    /// Whether pending signals were polled since the last counted instruction.
    pub polled: bool,
    /// The addresses of the handlers, each at the place of its signal; 0 where none is set.
    pub handlers: &'a [u64],
    /// What the thread has written.
    pub output: &'a [u8],
}

impl<'a> StateView<'a> {
    /// What is shown of a context.
    pub fn of(context: &'a Context) -> StateView<'a>
        requires home { is_home context.now ≡ true }
        ensures { state_seen result ≡ state_of context.now }
    {
        StateView {
            machine: context.machine(),
            bank: context.bank(),
            count: context.count(),
            turns: context.turns(),
            held: context.held(),
            mask: context.mask(),
            depth: context.depth(),
            polled: context.polled(),
            handlers: context.handlers(),
            output: context.output(),
        }
    }

    /// What is shown of a state that no run vouches for.
    pub fn of_loose(loose: &'a Loose) -> StateView<'a>
        ensures { state_seen result ≡ loose_state loose.now }
    {
        StateView {
            machine: loose.machine(),
            bank: loose.bank(),
            count: loose.count(),
            turns: loose.turns(),
            held: loose.held(),
            mask: loose.mask(),
            depth: loose.depth(),
            polled: loose.polled(),
            handlers: loose.handlers(),
            output: loose.output(),
        }
    }
}

/// What a block shows.
#[derive(Clone, Copy)]
pub struct BlockView<'a> {
    /// The thread's number.
    pub thread: u32,
    /// Why it stopped; `None` where it has not.
    pub stop: Option<Stop>,
    pub state: StateView<'a>,
    /// The thread's events, the oldest first.
    pub journal: &'a [Event],
}

impl<'a> BlockView<'a> {
    /// The block of a context.
    pub fn of(context: &'a Context) -> BlockView<'a>
        requires home { is_home context.now ≡ true }
        ensures thread { result.thread ≡ thread_of context.now }
        ensures stop { result.stop ≡ stop_of context.now }
        ensures state { state_seen result.state ≡ state_of context.now }
        ensures journal { result.journal.now ≡ journal_of context.now }
    {
        BlockView {
            thread: context.thread(),
            stop: context.stop(),
            state: StateView::of(context),
            journal: context.journal(),
        }
    }
}
