//! The laws of the file.
ghost use Rattle.std.specs.Prelude.{◌≡◌, ◌^◌, ◌<◌, ℕ, List, None, true, length, slice_index};
ghost use Rattle.sm_types.specs.Options.{numbers_of};
ghost use Rattle.kernel_contexts.specs.State.{State};
ghost use Rattle.kernel_contexts.specs.Context.{state_of, config_of, thread_of, stop_of, journal_of, image_of};
ghost use Rattle.kernel_contexts.specs.Context.{is_home};
ghost use Rattle.report_reader.specs.Report.{Report};
ghost use Rattle.ckpt_fields.specs.Rows.{bad_field};
ghost use Rattle.ckpt_file.specs.Checkpoint.{ReadsCheckpoint, checkpoint};
ghost use Rattle.ckpt_file.specs.Beyond.{HasLoadablePages, GoesBeyond, StandsInBlock};

use kernel_contexts::{Context, contexts_are_plain};
use sm_types::Config;

/// The file of a state that is read has no bad field.
pub fn checkpoints_have_good_fields()
    ensures { (bytes : List ℕ) (report : Report) (state : State) (thread events : ℕ)
        → ReadsCheckpoint bytes report state thread events → bad_field report bytes ≡ None }
{}

/// The file of a state that is read is that of a thread which the report has, before the end of its block.
pub fn checkpoints_stand_in_blocks()
    ensures { (bytes : List ℕ) (report : Report) (state : State) (thread events : ℕ)
        → ReadsCheckpoint bytes report state thread events → StandsInBlock report state thread events }
{}

/// A file is that of one state, of one thread after so many events, at most.
pub fn one_state_a_file()
    ensures state { (bytes : List ℕ) (report : Report) (state other : State) (thread number events used : ℕ)
        → ReadsCheckpoint bytes report state thread events → ReadsCheckpoint bytes report other number used
        → state ≡ other }
    ensures thread { (bytes : List ℕ) (report : Report) (state other : State) (thread number events used : ℕ)
        → ReadsCheckpoint bytes report state thread events → ReadsCheckpoint bytes report other number used
        → thread ≡ number }
    ensures events { (bytes : List ℕ) (report : Report) (state other : State) (thread number events used : ℕ)
        → ReadsCheckpoint bytes report state thread events → ReadsCheckpoint bytes report other number used
        → events ≡ used }
{}

/// Addresses of 64 bits.
fn addresses_fit(addresses: &[u64])
    ensures { (k : ℕ) → slice_index addresses.now k < 2 ^ 64 }
{}

/// A budget of 32 bits.
fn budget_fits(config: &Config)
    ensures { config.now.budget < 2 ^ 32 }
{
    let _budget = config.budget;
}

/// What is written is read back: the file of a thread that has not stopped is that of its state, for each
/// report that has the thread's options and goes beyond where it stands. The image is one of those that images
/// are: no page of it is where the stack or the shared region is.
pub fn checkpoints_are_read(context: &Context)
    requires home { is_home context.now ≡ true }
    requires runs { stop_of context.now ≡ None }
    requires image { HasLoadablePages (image_of context.now) }
    ensures { (report : Report) → GoesBeyond report context.now
        → ReadsCheckpoint (checkpoint report.image (numbers_of (config_of context.now)) (state_of context.now)
        (thread_of context.now) (length (journal_of context.now))) report (state_of context.now)
        (thread_of context.now) (length (journal_of context.now)) }
{
    contexts_are_plain(context);
    addresses_fit(context.handlers());
    budget_fits(context.config());
    let _held = context.held();
    let _pages = context.machine().pages.page_count();
    let _size = context.bank().za.size();
}
