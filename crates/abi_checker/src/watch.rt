//! The marked calls of a run that is under way.
ghost use Rattle.std.specs.Prelude.{◌≡◌, ◌+◌, ◌<◌, ◌≤◌, ◌^◌, [], ℕ, suc, true, false, not, Ok, None, IfOk};
ghost use Rattle.std.specs.Prelude.{IsTrue, length};
ghost use Rattle.std.specs.List.{All, Contains, filter};
ghost use Rattle.kernel_contexts.specs.Context.{state_of, is_home};
ghost use Rattle.kernel_contexts.specs.State.{State};
ghost use Rattle.abi_checker.specs.Returning.{is_back, IsOfSome, IsFine, IsUnlawful};
ghost use Rattle.abi_checker.specs.Watching.{AreNear};
ghost use Rattle.abi_checker.specs.Near.{is_near};
ghost use Rattle.abi_checker.specs.declared.open_call.OpenCall.{OpenCall};

use crate::abi::{Abi, AbiKind};
use crate::marks::{mark_at, may_be_marked};
use crate::near::Near;
use crate::open_call::OpenCall;
use kernel_contexts::Context;
use sm_types::Memory;
use std::alloc::Global;

/// How many calls may be open at once.
const OPEN_LIMIT: usize = 256;

/// The marked calls of the states of a run so far, at none of which there is a fault.
#[derive(Drop)]
pub struct Watch {
    alloc: Global,
    /// Those that have not returned, the oldest first.
    pub calls: Vec<OpenCall>,
    /// How many have.
    pub returned: u32,
    /// Their tails, and maybe others: at most turns this alone is looked at.
    pub near: Near,
}

impl Watch {
    ghost use Rattle.abi_checker.specs.Watching.{AfterCall, IsNoMarkPast, IsPast, IsSomewhere, IsToldNext, IsWatched, Settles};
    ghost use Rattle.abi_checker.specs.Following.{IsUnderWay, IsSomewhereWith};
    ghost use Rattle.abi_checker.specs.Checked.{IsTold};
    ghost use Rattle.abi_checker.specs.Whole.{IsWholeAt};

    /// No call.
    pub fn new(alloc: Global) -> Watch
        ensures calls { result.calls.items ≡ [] }
        ensures returned { result.returned ≡ 0 }
    {
        Watch {
            alloc,
            calls: Vec::new(alloc),
            returned: 0,
            near: Near::none(),
        }
    }

    /// Whether a call may come back to an address: none does where this is false.
    #[inline(always)]
    fn is_near(&self, pc: u64) -> bool
        ensures { result ≡ is_near self.now.near pc }
    {
        self.near.has(pc)
    }

    /// Whether a call returns in the state that the thread has come to, and its callee was not lawful.
    /// `Memory` is want of memory.
    fn returns_unlawfully(&self, context: &Context) -> Result<bool, Memory>
        requires home { is_home context.now ≡ true }
        requires kept { All IsOfSome self.now.calls.items }
        ensures yes { result ≡ Ok true → (call : OpenCall) × Contains self.now.calls.items call
            × IsUnlawful (state_of context.now) call }
        ensures no { result ≡ Ok false → All (IsFine (state_of context.now)) self.now.calls.items }
    {
        let mut index = 0;
        'calls: while index < self.calls.len() {
            let call = &self.calls[index];
            if call.is_back(context) && !call.is_lawful(self.alloc, context)? {
                return Ok(true);
            }
            index += 1;
        }
        Ok(false)
    }

    /// Takes out the calls that return in this state.
    fn take_returns(&mut self, context: &Context)
        requires few { self.old.returned + length self.old.calls.items < 2 ^ 32 }
        ensures left { self.new.calls.items
            ≡ filter (λ call. not (is_back (state_of context.now) call)) self.old.calls.items }
        ensures all { self.new.returned + length self.new.calls.items
            ≡ self.old.returned + length self.old.calls.items }
        ensures near { AreNear self.new.near self.new.calls.items }
    {
        let before = self.calls.len();
        self.calls.retain(|call| !call.is_back(context));
        self.returned += (before - self.calls.len()) as u32;
        self.near = Near::of_calls(self.calls.as_slice());
    }

    /// Takes out the calls that return in the state that the thread has come to; tells whether the callee of
    /// one was not lawful. `Memory` is want of memory.
    #[inline]
    fn settle(&mut self, context: &Context) -> Result<bool, Memory>
        requires home { is_home context.now ≡ true }
        requires kept { All IsOfSome self.old.calls.items }
        requires few { self.old.returned + length self.old.calls.items < 2 ^ 32 }
        requires near { AreNear self.old.near self.old.calls.items }
        ensures yes { result ≡ Ok true → (call : OpenCall) × Contains self.old.calls.items call
            × IsUnlawful (state_of context.now) call }
        ensures no { result ≡ Ok false → Settles (state_of context.now) self.old self.new }
    {
        if !self.is_near(context.machine().scalars.pc) {
            return Ok(false);
        }
        if self.returns_unlawfully(context)? {
            return Ok(true);
        }
        self.take_returns(context);
        Ok(false)
    }

    /// Adds the call by which the thread came to this state, if it is marked, or tells its fault. `Memory` is
    /// want of memory.
    fn call(&mut self, context: &Context, past: u64) -> Result<Option<AbiKind>, Memory>
        requires home { is_home context.now ≡ true }
        requires few { length self.old.calls.items ≤ 256 }
        requires near { AreNear self.old.near self.old.calls.items }
        ensures after { IfOk result (λ kind.
            AfterCall (state_of context.now) past self.old self.new kind) }
        ensures near { IfOk result (λ kind. AreNear self.new.near self.new.calls.items) }
    {
        let Some(places) = mark_at(&context.machine().pages, past) else {
            return Ok(None);
        };
        let Some(call) = OpenCall::keep(self.alloc, context, places)? else {
            return Ok(Some(AbiKind::NotDormant));
        };
        if self.calls.len() == OPEN_LIMIT {
            return Ok(Some(AbiKind::TooDeep));
        }
        self.calls.push(call).map_err(|_| Memory)?;
        self.near.add(places.tail);
        Ok(None)
    }

    /// Goes on to the state that the thread has come to by its turn, which was a call if there is an address
    /// past it, and tells the first fault there. `Memory` is want of memory.
    pub fn go_on(&mut self, context: &Context, past: Option<u64>) -> Result<Option<AbiKind>, Memory>
        requires home { is_home context.now ≡ true }
        requires somewhere { IsSomewhere self.old }
        ensures { (run : ℕ → State) (n : ℕ) → IsWatched run n self.old → run (suc n) ≡ state_of context.now
            → IsPast (run n) (run (suc n)) past → (run n).count ≤ (run (suc n)).count → IsWholeAt run (suc n)
            → IfOk result (λ kind. IsToldNext run (suc n) kind self.new) }
    {
        if self.settle(context)? {
            return Ok(Some(AbiKind::NotLawful));
        }
        match past {
            Some(past) => self.call(context, past),
            None => Ok(None),
        }
    }

    /// Goes on so, where no fault was told before; one that was told is told again.
    #[inline(never)]
    fn tell_there(
        &mut self,
        context: &Context,
        past: Option<u64>,
        found: Option<Abi>,
    ) -> Result<Option<Abi>, Memory>
        requires home { is_home context.now ≡ true }
        requires somewhere { IsSomewhereWith self.old found }
        ensures { (run : ℕ → State) (n : ℕ) → IsUnderWay run n self.old found
            → run (suc n) ≡ state_of context.now → IsPast (run n) (run (suc n)) past
            → (run n).count ≤ (run (suc n)).count → IsWholeAt run (suc n)
            → IfOk result (λ told. IsUnderWay run (suc n) self.new told) }
    {
        if found.is_some() {
            return Ok(found);
        }
        match self.go_on(context, past)? {
            Some(kind) => Ok(Some(Abi::No {
                count: context.count(),
                pc: context.machine().scalars.pc,
                kind,
            })),
            None => Ok(None),
        }
    }

    /// The same; at most turns nothing is to be told, as they were no call and no call comes back there.
    #[inline(always)]
    pub fn tell(
        &mut self,
        context: &Context,
        past: Option<u64>,
        found: Option<Abi>,
    ) -> Result<Option<Abi>, Memory>
        requires home { is_home context.now ≡ true }
        requires somewhere { IsSomewhereWith self.old found }
        ensures { (run : ℕ → State) (n : ℕ) → IsUnderWay run n self.old found
            → run (suc n) ≡ state_of context.now → IsPast (run n) (run (suc n)) past
            → (run n).count ≤ (run (suc n)).count → IsWholeAt run (suc n)
            → IfOk result (λ told. IsUnderWay run (suc n) self.new told) }
    {
        if self.passes(context, past) {
            return Ok(found);
        }
        self.tell_there(context, past, found)
    }

    /// Goes on so after turns of which nothing was told, puts the fault there, if there is one, into `found`, and
    /// tells whether it did.
    #[inline(never)]
    fn look_there(
        &mut self,
        context: &Context,
        past: Option<u64>,
        found: &mut Option<Abi>,
    ) -> Result<bool, Memory>
        requires home { is_home context.now ≡ true }
        requires somewhere { IsSomewhereWith self.old None }
        ensures told { (run : ℕ → State) (n : ℕ) → IsWatched run n self.old
            → run (suc n) ≡ state_of context.now → IsPast (run n) (run (suc n)) past
            → (run n).count ≤ (run (suc n)).count → IsWholeAt run (suc n)
            → IfOk result (λ told. IsUnderWay run (suc n) self.new found.new) }
        ensures quiet { IfOk result (λ told. told ≡ false → found.new ≡ None) }
    {
        let told = self.tell_there(context, past, None)?;
        *found = told;
        Ok(told.is_some())
    }

    /// The same; at most turns nothing is to be told, as in `tell`.
    #[inline(always)]
    pub fn look(
        &mut self,
        context: &Context,
        past: Option<u64>,
        found: &mut Option<Abi>,
    ) -> Result<bool, Memory>
        requires home { is_home context.now ≡ true }
        requires somewhere { IsSomewhereWith self.old None }
        requires none { found.old ≡ None }
        ensures told { (run : ℕ → State) (n : ℕ) → IsWatched run n self.old
            → run (suc n) ≡ state_of context.now → IsPast (run n) (run (suc n)) past
            → (run n).count ≤ (run (suc n)).count → IsWholeAt run (suc n)
            → IfOk result (λ told. IsUnderWay run (suc n) self.new found.new) }
        ensures quiet { IfOk result (λ told. told ≡ false → found.new ≡ None) }
    {
        if self.passes(context, past) {
            return Ok(false);
        }
        self.look_there(context, past, found)
    }

    /// Whether nothing is to be told: the turn was no marked call, and no call comes back there.
    #[inline(always)]
    fn passes(&self, context: &Context, past: Option<u64>) -> bool
        ensures call { IsTrue result → IsNoMarkPast (state_of context.now) past }
        ensures away { IsTrue result
            → is_near self.now.near (state_of context.now).core.scalars.pc ≡ false }
    {
        !may_be_marked(context, past) && !self.is_near(context.machine().scalars.pc)
    }

    /// What is told of a run that is at its end.
    pub fn answer(&self, found: Option<Abi>) -> Abi
        requires { IsSomewhereWith self.now found }
        ensures { (run : ℕ → State) (n : ℕ) → IsUnderWay run n self.now found → IsTold run n result }
    {
        match found {
            Some(abi) => abi,
            None => Abi::Yes {
                calls: self.returned,
                unreturned: self.calls.len() as u32,
            },
        }
    }
}
