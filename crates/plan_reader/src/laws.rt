//! The laws of plans.
ghost use Rattle.std.specs.Prelude.{◌≡◌, ◌↔◌, ℕ, List, Ok, Err, length};
ghost use Rattle.plan_reader.specs.Faults.{IsFaultOf};
ghost use Rattle.plan_reader.specs.Plan.{Fault, IsPlanOf, event_lines, plan_in};
ghost use Rattle.sm_types.specs.declared.world_event.WorldEvent.{WorldEvent};

/// The events that are read of a file are those of which it is the plan, and there are no others.
pub fn one_plan()
    ensures { (bytes : List ℕ) (events : List WorldEvent)
        → ((plan_in bytes ≡ Ok events) ↔ IsPlanOf bytes events) }
{}

/// The fault that is read of a file is that it is too long, or else that of its first line that is neither
/// empty nor says an event: it is no text, or this is wrong at the first place of its words at which
/// something is. There is no other.
pub fn one_fault()
    ensures { (bytes : List ℕ) (fault : Fault) → ((plan_in bytes ≡ Err fault) ↔ IsFaultOf bytes fault) }
{}

/// Each event of a plan has its line, of which the number is given.
pub fn one_line_each()
    ensures { (bytes : List ℕ) (events : List WorldEvent) → plan_in bytes ≡ Ok events
        → length (event_lines bytes) ≡ length events }
{}
