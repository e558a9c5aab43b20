//! The plan of a world, read line by line.
ghost use Rattle.std.specs.Prelude.{◌≡◌, IfOk};
ghost use Rattle.line_reader.specs.Told.{AnswersAs};
ghost use Rattle.plan_reader.specs.Plan.{event_lines, plan_in};
ghost use Rattle.plan_reader.specs.Words.{event_in};

use crate::words::event_in;
use line_reader::{LineFormat, TextFault, TextKind, has_text, read_file, split_line};
use sm_types::{Memory, WorldEvent};
use std::alloc::Global;

/// The lines of a plan, each with an event.
struct PlanLines;

impl LineFormat for PlanLines {
    type Value = WorldEvent;

    ghost said_by = { event_in };

    fn value_in(text: &[u8]) -> Result<WorldEvent, TextKind> {
        event_in(text)
    }
}

/// The events of the plan that a file is, in order. `Line` is the first line that is neither empty nor says
/// an event, counted from 1, with what is wrong with it; a file of more than 67,108,864 bytes is `TooLong`
/// at line 0. `Memory` is want of memory.
#[tactic(auto, unfolding(crate::specs::Plan::plan_in))]
pub fn read_plan(alloc: Global, bytes: &[u8]) -> Result<Vec<WorldEvent>, TextFault>
    ensures { AnswersAs (λ events. events.items) (plan_in bytes.now) result }
{
    read_file::<PlanLines>(alloc, bytes)
}

/// The numbers of the lines that are not empty, counted from 1. `Memory` is want of memory.
pub fn event_lines(alloc: Global, bytes: &[u8]) -> Result<Vec<u64>, Memory>
    ensures { IfOk result (λ numbers. numbers.items ≡ event_lines bytes.now) }
{
    let mut numbers = Vec::new(alloc);
    let mut number: u64 = 0;
    let mut left = bytes;
    'lines: loop {
        let (line, rest) = split_line(left);
        if line.is_empty() {
            return Ok(numbers);
        }
        number += 1;
        if has_text(line) && numbers.push(number).is_err() {
            return Err(Memory);
        }
        left = rest;
    }
}
