//! The law of a queue that was empty.
ghost use Rattle.std.specs.Prelude.{[]};
ghost use Rattle.run_queue.specs.declared.view.PassView.{PassView};
ghost use Rattle.run_queue.specs.Passes.{HoldsRest};
ghost use Rattle.run_queue.specs.Rule.{WasEmpty};

/// Where the queue was empty and all passes that the first one split off were joined again, the first pass
/// holds each thread, once.
pub fn an_empty_queue_left_all()
    ensures { (v : PassView) → WasEmpty v → HoldsRest [] v }
{}
