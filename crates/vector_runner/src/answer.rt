//! The answer to a vector.
ghost use Rattle.std.specs.Prelude.{◌≡◌, true, All, IfOk, Ok, codes};
ghost use Rattle.sve_vectors.specs.Lengths.{vector_bytes};
ghost use Rattle.machine_step.specs.Effect.{Effect, Raises, Calls, Becomes, effect_of};
ghost use Rattle.machine_step.specs.Machine.{IsInMode};
ghost use Rattle.vector_runner.specs.Answer.{answer, effect_text};
ghost use Rattle.vector_runner.specs.Field.{fits, modes_of};
ghost use Rattle.vector_runner.specs.Prepared.{core_in, HasOutcome};
ghost use Rattle.vector_runner.specs.Told.{vector_told};

use crate::registers::fields_of;
use crate::state::State;
use crate::text::{exception_text, put_all, put_fields};
use crate::vector::Vector;
use machine_step::StepEnd;
use shared_region::{ReplayPort, ReplayTicket};
use sm_types::{Bytes, Exception, Memory, VecLen};
use std::alloc::{AllocError, Global};
use text_lines::hex64_digits;

/// The line of a state after an instruction.
#[tactic(auto, unfolding(crate::specs::Answer::effect_text))]
fn next_line(alloc: Global, state: &State) -> Result<Bytes, AllocError>
    ensures { IfOk result (λ line. line.items ≡ effect_text (Becomes (core_in state.now))) }
{
    let fields = fields_of(alloc, state)?;
    let mut line = Vec::new(alloc);
    put_all(
        &mut line,
        &[b"next pc=", &hex64_digits(state.machine.scalars.pc)],
    )?;
    put_fields(alloc, &mut line, fields.as_slice())?;
    Ok(line)
}

/// The line of a call of the kernel.
#[tactic(auto, unfolding(crate::specs::Answer::effect_text))]
fn call_line(alloc: Global, number: u16) -> Result<Bytes, AllocError>
    ensures { IfOk result (λ line. line.items ≡ effect_text (Calls number)) }
{
    let mut buffer = itoa::Buffer::new();
    let mut line = Vec::new(alloc);
    put_all(&mut line, &[b"call ", buffer.format(number).as_bytes()])?;
    Ok(line)
}

/// The line of an exception.
#[tactic(auto, unfolding(crate::specs::Answer::effect_text))]
fn raise_line(alloc: Global, exception: Exception) -> Result<Bytes, Memory>
    ensures { IfOk result (λ line. line.items ≡ effect_text (Raises exception)) }
{
    let text = exception_text(alloc, exception)?;
    let mut line = Vec::new(alloc);
    match put_all(&mut line, &[b"raise ", text.bytes()]) {
        Ok(()) => Ok(line),
        Err(_) => Err(Memory),
    }
}

/// The line of an access to a shared word.
fn shared_line(alloc: Global) -> Result<Bytes, AllocError>
    ensures { IfOk result (λ line. line.items ≡ codes "shared") }
{
    Vec::from_slice(alloc, b"shared")
}

/// A line that was made, or want of memory.
fn or_memory(line: Result<Bytes, AllocError>) -> Result<Bytes, Memory>
    ensures { IfOk result (λ made. line ≡ Ok made) }
{
    match line {
        Ok(line) => Ok(line),
        Err(_) => Err(Memory),
    }
}

/// What an instruction came to.
#[derive(Clone, Copy)]
pub enum Outcome {
    /// It was executed.
    Next,
    /// It calls the kernel, with the number in it.
    Call(u16),
    /// It raises.
    Raise(Exception),
    /// It asks for an access to a shared word.
    Shared,
}

/// Executes the instruction of a state, with no place for an event, so that no shared word is touched.
/// `Memory` is want of memory.
fn execute(alloc: Global, vl: VecLen, state: &mut State) -> Result<Outcome, Memory>
    requires mode { IsInMode state.old.bank state.old.machine }
    requires vl { state.old.bank.vectors.vl ≡ vl }
    ensures { IfOk result (HasOutcome (effect_of (vector_bytes vl) (core_in state.old)) (core_in state.new)) }
{
    let mut port = ReplayPort::new();
    let mut ticket = ReplayTicket::new(0, Vec::new(alloc));
    let bank = Some(&mut state.bank);
    match state.machine.step(bank, &mut port, &mut ticket, 0, false) {
        StepEnd::Next(None) => Ok(Outcome::Next),
        StepEnd::Call(number) => Ok(Outcome::Call(number)),
        StepEnd::Raise(exception) => Ok(Outcome::Raise(exception)),
        StepEnd::NoRoom => Ok(Outcome::Shared),
        StepEnd::Memory => Err(Memory),
        StepEnd::Next(Some(_)) | StepEnd::NeedsBank | StepEnd::TraceEnds | StepEnd::TraceDiffers =>
            { unreachable!() }
    }
}

/// The line of what an instruction came to.
fn line_of(alloc: Global, outcome: Outcome, state: &State) -> Result<Bytes, Memory>
    ensures { (effect : Effect) → HasOutcome effect (core_in state.now) outcome
        → IfOk result (λ line. line.items ≡ effect_text effect) }
{
    match outcome {
        Outcome::Next => or_memory(next_line(alloc, state)),
        Outcome::Call(number) => or_memory(call_line(alloc, number)),
        Outcome::Raise(exception) => raise_line(alloc, exception),
        Outcome::Shared => or_memory(shared_line(alloc)),
    }
}

/// The answer to a vector. `Memory` is want of memory.
#[tactic(auto, unfolding(crate::specs::Answer::answer))]
pub fn answer_of(alloc: Global, vl: VecLen, svl: VecLen, vector: &Vector) -> Result<Bytes, Memory>
    requires { All (λ f. fits vl svl (modes_of (vector_told vector.now).fields) f ≡ true)
        (vector_told vector.now).fields }
    ensures { IfOk result (λ line. line.items ≡ answer vl svl (vector_told vector.now)) }
{
    let mut state = State::of(alloc, vl, svl, vector)?;
    let outcome = execute(alloc, vl, &mut state)?;
    line_of(alloc, outcome, &state)
}
