//! A live run: each lane and each worker in a thread of its own. The actors of a live run, and what they leave. None of these can be
//! dropped, as the book of their passes cannot: `ActorsLeft` is what ends them.

ghost use Rattle.std.specs.Prelude.{◌≡◌, ◌<◌, ℕ, length, slice_index_or, All};
ghost use Rattle.nav_live.specs.Contexts.{IsContext};
ghost use Rattle.nav_live.specs.declared.actors.ActorSlot.{ActorSlot};
ghost use Rattle.nav_live.specs.Tasks.{IsDone, IsReady, IsSameTask};

use crate::{Lane, LaneEnd, LiveBook, RunContext, Worker};
use nav_base::Steps;
use nav_io::Gate;
use nav_lists::Items;
use nav_script::Line;
use nav_version::Eye;
use std::marker::Brand;
use std::sync::Wait;
use std::sync::ledger::{Blank, Ledger};
use std::thread;
use std::thread::Threads;
use turn_lock::Pass;

impl ActorTask {
    /// Does the task to its end, over a counter of steps of its own.
    fn run<R: Wait, G: Gate, L: Ledger>(
        &mut self,
        context: &RunContext<'_, R, G>,
        blank: Blank,
    ) -> Result<(), LaneEnd>
        requires ready { IsReady context.now.lock.now self.old }
        requires context { IsContext context.now.lock.now context.now.ground.now }
        requires name { blank.name ≡ L.name }
        requires parts { blank.parts ≡ L.parts }
        requires some { 0 < blank.parts }
        ensures same { IsSameTask self.old self.new }
        ensures done { IsDone context.now.lock.now self.new result }
    {
        let mut steps = Steps::<L>::new(blank);
        match self {
            ActorTask::Lane { lane, lines } => {
                lane.run_all(context, lines.as_slice(), &mut steps)
            }
            ActorTask::Worker { worker } => {
                worker.run(context, &mut steps)?;
                Ok(())
            }
        }
    }
}

impl ActorSlot {
    /// Does its task, and keeps how it ended.
    fn run<R: Wait, G: Gate>(&mut self, context: &RunContext<'_, R, G>)
        requires ready { IsReady context.now.lock.now self.old.task }
        requires context { IsContext context.now.lock.now context.now.ground.now }
        ensures same { IsSameTask self.old.task self.new.task }
        ensures done { IsDone context.now.lock.now self.new.task self.new.end }
    {
        self.end = self.task.run::<R, G, Brand>(context, Blank::new(1));
    }
}

/// Runs all hands, each in a thread of its own, and waits for their ends. Where no thread can be made they run one after another.
pub(crate) fn run_all<R: Threads + Wait + Sync, G: Gate + Sync>(
    context: &RunContext<'_, R, G>,
    slots: &mut [ActorSlot],
)
    requires ready { All (λ (slot : ActorSlot). IsReady context.now.lock.now slot.task) slots.old }
    requires context { IsContext context.now.lock.now context.now.ground.now }
    ensures same { (k : ℕ) (d : ActorSlot) → k < length slots.old → IsSameTask (slice_index_or slots.old k d).task (slice_index_or slots.new k d).task }
    ensures done { All (λ (slot : ActorSlot). IsDone context.now.lock.now slot.task slot.end) slots.new }
{
    let threads = slots.len().max(1);
    thread::for_each_mut(context.rt, slots, threads, &|_, slot| slot.run(context));
}

/// What an actor has to do.
pub(crate) enum ActorTask {
    /// To run these lines as a lane.
    Lane { lane: Lane, lines: Items<Line> },
    /// To build tiles.
    Worker { worker: Worker },
}

/// One actor, and how it has ended: well, as long as it has not run.
pub(crate) struct ActorSlot {
    pub(crate) task: ActorTask,
    pub(crate) end: Result<(), LaneEnd>,
}

/// What the actors of a run leave: all their passes, in the order of the passes' numbers, and of each lane, in order, its eye and what is
/// written of its lines.
pub(crate) struct ActorsLeft {
    pub(crate) passes: Vec<Pass<LiveBook>>,
    pub(crate) eyes: Vec<Eye>,
    pub(crate) texts: Vec<Items<u8>>,
}

/// The actors of a run, with room for what they leave, so that none is asked for once the book is under its lock.
pub(crate) struct Actors {
    pub(crate) slots: Vec<ActorSlot>,
    pub(crate) left: ActorsLeft,
}
