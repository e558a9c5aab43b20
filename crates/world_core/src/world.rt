//! The world.
ghost use Rattle.std.specs.Prelude.{◌≡◌, ℕ, Some, IfOk, OnErr, slice_get, vec_capacity};
ghost use Rattle.world_core.specs.Applies.{is_wanting, wants_memory};
ghost use Rattle.core_unit.specs.View.{core_state};
ghost use Rattle.world_core.specs.Parts.{HaveOptions, IsCoreOf, HasRoom, world_from};
ghost use Rattle.world_core.specs.World.{IsOwned};

use crate::event::{Applied, Why, core_number};
use crate::finish::{contexts_of, empty_cores};
use crate::scene::{fetch, next, offer, run};
use crate::serial::{Phase, event_in};
use crate::start::{start_cores, start_threads};
use core_unit::{Core, RunWhy};
use kernel_contexts::{Finished, Whole};
use paged_memory::Image;
use shared_region::PlainPort;
use sm_types::{Config, Entry, Memory, WorldEvent};
use std::alloc::Global;
use thread_lists::sort_by_number;

/// The world of the guest threads and the cores, over plain words. Each thread is exactly once in the
/// queue, in one core's residents, or among those that are done.
#[derive(Drop)]
pub struct World {
    config: Config,
    queue: Vec<Whole<PlainPort>>,
    cores: Vec<Core<PlainPort>>,
    done: Vec<Whole<PlainPort>>,
    port: PlainPort,
    ghost options: { HaveOptions config queue.items },
    ghost fit: { (i : ℕ) (c : _) → slice_get cores.items i ≡ Some c → IsCoreOf config i (core_state c) },
    ghost owned: { IsOwned (world_from config queue.items cores.items done.items port.history) },
    ghost room: { HasRoom (world_from config queue.items cores.items done.items port.history)
        (vec_capacity queue) (vec_capacity done) },
}

/// Whether a run was wanting memory.
fn is_wanting(why: RunWhy) -> bool
    ensures { result ≡ is_wanting why }
{
    match why {
        RunWhy::Memory => true,
        _ => false,
    }
}

/// Whether an event was a run that was wanting memory.
pub fn wants_memory(answer: Applied) -> bool
    ensures { result ≡ wants_memory answer }
{
    match answer {
        Applied::Ran(run) => is_wanting(run.why),
        _ => false,
    }
}

impl World {
    ghost use Rattle.world_core.specs.Applies.{Applies, ApplyAll};
    ghost use Rattle.world_core.specs.Finish.{AreThreadsOf};
    ghost use Rattle.world_core.specs.Serial.{serial_event};
    ghost use Rattle.world_core.specs.View.{world_of};
    ghost use Rattle.world_core.specs.World.{start_world};

    /// All guest threads in the queue, in order, each before its first turn, and cores without residents.
    /// `Memory` is want of memory.
    pub fn new(alloc: Global, image: &Image, config: &Config) -> Result<World, Memory>
        ensures { IfOk result (λ w. world_of w ≡ start_world image.now config.now) }
    {
        let port = PlainPort::new(alloc)?;
        let queue = start_threads(alloc, image, config)?;
        let cores = start_cores(alloc, config, &port)?;
        let mut done = Vec::new(alloc);
        if done.reserve(config.threads as usize).is_err() {
            return Err(Memory);
        }
        Ok(World {
            config: *config,
            queue,
            cores,
            done,
            port,
        })
    }

    /// Makes an event of the world. One that is not enabled changes nothing, and says the first reason why; a
    /// run that is wanting memory has made the turns that it tells.
    pub fn apply(&mut self, event: WorldEvent) -> Applied
        ensures { Applies event (world_of self.old) (world_of self.new) result }
    {
        let number = core_number(event);
        let index = number as usize;
        if index >= self.cores.len() {
            return Applied::NotEnabled(Why::NoCore(number));
        }
        match event {
            WorldEvent::Run { core: _, k } => {
                run(&mut self.cores[index], &mut self.done, &mut self.port, k)
            }
            WorldEvent::Next { core: _ } => next(&mut self.cores[index]),
            WorldEvent::Fetch { core: _ } => fetch(&mut self.cores[index], &mut self.queue),
            WorldEvent::Offer { core: _ } => offer(&mut self.cores[index], &mut self.queue),
        }
    }

    /// Makes events of the world, one after the other, and gives their answers; the list ends early after a
    /// run that was wanting memory. `Memory` is want of memory for the answers, and changes nothing.
    pub fn run_events(
        &mut self,
        alloc: Global,
        events: &[WorldEvent],
    ) -> Result<Vec<Applied>, Memory>
        ensures all { IfOk result (λ answers. ApplyAll events.now (world_of self.old) (world_of self.new)
            answers.items) }
        ensures unchanged { OnErr result (world_of self.new ≡ world_of self.old) }
    {
        let mut answers = Vec::new(alloc);
        if answers.reserve(events.len()).is_err() {
            return Err(Memory);
        }
        'events: for event in events {
            let answer = self.apply(*event);
            answers.push_reserved(answer);
            if wants_memory(answer) {
                return Ok(answers);
            }
        }
        Ok(answers)
    }

    /// The next serial event, if there is one.
    pub(crate) fn serial_event(&self, phase: Phase) -> Option<WorldEvent>
        ensures { result ≡ serial_event (world_of self.now) phase }
    {
        let resident = match self.cores.first() {
            Some(core) => core.residents(),
            None => 0,
        };
        event_in(phase, self.config.slice, self.queue.len(), resident)
    }

    /// All threads, in the order of their numbers, each home, with the words as they stand. `Memory` is
    /// want of memory, which uses up the world.
    pub(crate) fn close(self, alloc: Global) -> Result<Finished, Memory>
        ensures { IfOk result (λ run. AreThreadsOf (world_of self) run.contexts.items run.words) }
    {
        let World {
            config: _,
            mut queue,
            mut cores,
            mut done,
            port,
        } = self;
        if done.append(&mut queue).is_err() {
            return Err(Memory);
        }
        empty_cores(&mut cores, &mut done);
        sort_by_number(&mut done);
        let contexts = contexts_of(alloc, done)?;
        let words = *port.words();
        Ok(Finished { contexts, words })
    }

    /// All threads, in the order of their numbers, each home, with the words as they stand, and all
    /// operations on these. `Memory` is want of memory, which uses up the world.
    pub fn finish(self, alloc: Global) -> Result<(Finished, Vec<Entry>), Memory>
        ensures threads { IfOk result (λ r. AreThreadsOf (world_of self) r.0.contexts.items r.0.words) }
        ensures history { IfOk result (λ r. r.1.items ≡ (world_of self).history) }
    {
        let history = match self.history().to_vec(alloc) {
            Ok(history) => history,
            Err(_) => return Err(Memory),
        };
        let run = self.close(alloc)?;
        Ok((run, history))
    }

    /// All operations on the shared words, the oldest first.
    pub fn history(&self) -> &[Entry]
        ensures { result.now ≡ (world_of self.now).history }
    {
        self.port.history()
    }
}
