//! How the actors of a live run are made, and what is left of them. The lines of a script, dealt to its lanes.

ghost use Rattle.std.specs.Prelude.{◌≡◌, ◌+◌, ◌<◌, ◌^◌, ℕ, List, [], ◌∷◌, ◌++◌, length, map, filter_map, drop, All, Err, IfOk, OnOk, replicate};
ghost use Rattle.std.specs.List.{cons_option};
ghost use Rattle.std.specs.Vec.Iter.{into_iter_items};
ghost use Rattle.turn_lock.specs.Locks.{LockId, AreAll};
ghost use Rattle.nav_script.specs.declared.script.Line.{Line};
ghost use Rattle.nav_script.specs.declared.script.Script.{Script};
ghost use Rattle.nav_version.specs.Pairs.{EyeView};
ghost use Rattle.nav_live.specs.Contexts.{IsContext};
ghost use Rattle.nav_live.specs.Roots.{RootView};
ghost use Rattle.nav_live.specs.declared.lane.LaneEnd.TheVariants as stops;
ghost use Rattle.nav_live.specs.LaneSteps.{IsRunnable};
ghost use Rattle.nav_live.specs.declared.actors.ActorSlot.{ActorSlot};
ghost use Rattle.nav_live.specs.MadeActors.{AreMadeActors, CanMakeActors, IsNew};
ghost use Rattle.nav_live.specs.Leavings.{EndsAs, HasRoom, HaveLeft, HaveMetFull, IsSpare, AreSpareActors, eye_left, pass_left, text_left, worse};
ghost use Rattle.nav_live.specs.LaneLines.{lines_by_lane, given};
ghost use Rattle.nav_script.specs.Lanes.{next_lane};
ghost use Rattle.nav_script.specs.Limits.{IsScript};
ghost use Rattle.nav_script.specs.declared.script.Way.TheVariants.{Live};

use crate::actors::{ActorSlot, ActorTask, Actors, ActorsLeft, run_all};
use crate::{Lane, LaneEnd, LiveBook, RunContext, Worker};
use nav_io::Gate;
use nav_lists::Items;
use nav_script::{Line, Script};
use nav_version::Eye;
use std::alloc::{AllocError, Global};
use std::sync::Wait;
use std::thread::Threads;
use std::vec::IntoIter;
use turn_lock::Pass;

/// How two have ended together: memory comes before a full history.
fn worse(one: Result<(), LaneEnd>, other: Result<(), LaneEnd>) -> Result<(), LaneEnd>
    ensures { result ≡ worse one other }
{
    match one {
        Ok(()) => other,
        Err(LaneEnd::NoMemory) => one,
        Err(LaneEnd::HistoryFull) => match other {
            Err(LaneEnd::NoMemory) => other,
            _ => one,
        },
    }
}

impl ActorsLeft {
    /// Takes what an actor leaves.
    fn take(&mut self, task: ActorTask)
        requires { HasRoom 1 self.old }
        ensures passes { self.new.passes.items ≡ self.old.passes.items ++ pass_left task ∷ [] }
        ensures eyes { self.new.eyes.items ≡ self.old.eyes.items ++ cons_option (eye_left task) [] }
        ensures texts { self.new.texts.items ≡ self.old.texts.items ++ cons_option (text_left task) [] }
        ensures room { (count : ℕ) → HasRoom (count + 1) self.old → HasRoom count self.new }
    {
        match task {
            ActorTask::Lane {
                lane,
                lines: _lines,
            } => {
                let Lane {
                    number: _,
                    pass,
                    eye,
                    text,
                    adds: _,
                    last: _,
                    walker: _,
                } = lane;
                self.passes.push_reserved(pass);
                self.eyes.push_reserved(eye);
                self.texts.push_reserved(Items::from_vec(text));
            }
            ActorTask::Worker { worker } => {
                let Worker { number: _, pass } = worker;
                self.passes.push_reserved(pass);
            }
        }
    }

    /// Takes what actors leave, and tells how they have ended together.
    fn take_all(&mut self, slots: Vec<ActorSlot>) -> Result<(), LaneEnd>
        requires { IsSpare (length slots.items) self.old }
        ensures passes { self.new.passes.items ≡ map (λ (slot : ActorSlot). pass_left slot.task) slots.items }
        ensures eyes { self.new.eyes.items ≡ filter_map (λ (slot : ActorSlot). eye_left slot.task) slots.items }
        ensures texts { self.new.texts.items ≡ filter_map (λ (slot : ActorSlot). text_left slot.task) slots.items }
        ensures end { EndsAs slots.items result }
    {
        let mut slots = slots.into_iter();
        let mut end = Ok(());
        while let Some(slot) = slots.next() {
            let ActorSlot { task, end: own } = slot;
            self.take(task);
            end = worse(end, own);
        }
        slots.destroy_empty();
        end
    }
}

/// What the lanes of a script begin with: for each an eye and its lines.
pub(crate) struct LaneInputs {
    pub(crate) eyes: Vec<Eye>,
    pub(crate) lists: Vec<Items<Line>>,
}

/// The lane with a number, before its first line: the next eye reads for it, and the next list is its lines.
fn new_lane(
    alloc: Global,
    number: u32,
    pass: Pass<LiveBook>,
    eyes: &mut IntoIter<Eye, Global>,
    lists: &mut IntoIter<Items<Line>, Global>,
) -> ActorTask
    requires eyes { 0 < length (into_iter_items eyes.old) }
    requires lists { 0 < length (into_iter_items lists.old) }
    ensures eyes_left { into_iter_items eyes.new ≡ drop 1 (into_iter_items eyes.old) }
    ensures lists_left { into_iter_items lists.new ≡ drop 1 (into_iter_items lists.old) }
    ensures new { (all : List EyeView) (all_lists : List (List Line)) → into_iter_items eyes.old ≡ drop number all
        → into_iter_items lists.old ≡ drop number all_lists → IsNew all all_lists number pass result }
{
    let Some(eye) = eyes.next() else {
        unreachable!()
    };
    let Some(lines) = lists.next() else {
        unreachable!()
    };
    ActorTask::Lane {
        lane: Lane::new(alloc, number, pass, eye),
        lines,
    }
}

impl Actors {
    /// Room for so many actors, and for what they leave.
    pub(crate) fn with_room(alloc: Global, count: usize) -> Result<Actors, AllocError>
        ensures { IfOk result (AreSpareActors count) }
    {
        let eyes = Vec::with_capacity(alloc, count)?;
        let texts = Vec::with_capacity(alloc, count)?;
        let passes = Vec::with_capacity(alloc, count)?;
        match Vec::with_capacity(alloc, count) {
            Ok(slots) => Ok(Actors {
                slots,
                left: ActorsLeft {
                    passes,
                    eyes,
                    texts,
                },
            }),
            Err(refused) => {
                passes.destroy_empty();
                Err(refused)
            }
        }
    }

    /// Gives the room back, where no actor was made.
    pub(crate) fn discard(self)
        requires { (self.slots.items ≡ []) × (self.left.passes.items ≡ []) }
    {
        let Actors { slots, left } = self;
        let ActorsLeft {
            passes,
            eyes: _,
            texts: _,
        } = left;
        slots.destroy_empty();
        passes.destroy_empty();
    }

    /// Makes the actors of a script: its lanes, each with the next eye and the next list of lines, and then its workers; each has the next pass.
    /// It takes no memory.
    pub(crate) fn make_actors(
        &mut self,
        alloc: Global,
        script: &Script,
        passes: Vec<Pass<LiveBook>>,
        outfit: LaneInputs,
    )
        requires limit { script.now.lanes + script.now.workers < 2 ^ 32 }
        requires room { AreSpareActors (script.now.lanes + script.now.workers) self.old }
        requires passes { length passes.items ≡ script.now.lanes + script.now.workers }
        requires eyes { length outfit.eyes.items ≡ script.now.lanes }
        requires lists { outfit.lists.items ≡ lines_by_lane script.now }
        requires runnable { All (λ list. All IsRunnable list) outfit.lists.items }
        ensures made_actors { (lock : LockId RootView) → CanMakeActors lock script.now passes.items outfit.eyes.items → AreMadeActors lock script.now self.new.slots.items }
        ensures left { IsSpare (length self.new.slots.items) self.new.left }
    {
        let LaneInputs { eyes, lists } = outfit;
        let mut passes = passes.into_iter();
        let mut eyes = eyes.into_iter();
        let mut lists = lists.into_iter();
        for number in 0..script.lanes + script.workers {
            let Some(pass) = passes.next() else {
                unreachable!()
            };
            let task = if number < script.lanes {
                new_lane(alloc, number, pass, &mut eyes, &mut lists)
            } else {
                let number = number - script.lanes;
                ActorTask::Worker {
                    worker: Worker { number, pass },
                }
            };
            self.slots.push_reserved(ActorSlot { task, end: Ok(()) });
        }
        passes.destroy_empty();
    }

    /// Runs the actors, each in a thread of its own, to their ends; gives what they leave, and tells how they have ended together. What they
    /// leave takes no memory.
    pub(crate) fn run<R: Threads + Wait + Sync, G: Gate + Sync>(
        self,
        context: &RunContext<'_, R, G>,
    ) -> (ActorsLeft, Result<(), LaneEnd>)
        requires made_actors { (script : Script) × AreMadeActors context.now.lock.now script self.slots.items }
        requires left { IsSpare (length self.slots.items) self.left }
        requires context { IsContext context.now.lock.now context.now.ground.now }
        ensures all { AreAll context.now.lock.now result.0.passes.items }
        ensures well { (script : Script) → AreMadeActors context.now.lock.now script self.slots.items → OnOk result.1 (HaveLeft context.now.lock.now script result.0) }
        ensures full { (script : Script) → AreMadeActors context.now.lock.now script self.slots.items → result.1 ≡ Err stops.HistoryFull
            → HaveMetFull script result.0.passes.items }
    {
        let Actors {
            mut slots,
            mut left,
        } = self;
        run_all(context, &mut slots);
        let end = left.take_all(slots);
        (left, end)
    }
}

/// For each lane of a script its lines, in order; the lanes stand in the order of their numbers. Only memory can be refused.
pub(crate) fn lines_by_lane(alloc: Global, script: &Script) -> Result<Vec<Items<Line>>, AllocError>
    requires { IsScript Live script.now }
    ensures lists { IfOk result (λ lists. lists.items ≡ lines_by_lane script.now) }
    ensures runnable { IfOk result (λ lists. All (λ list. All IsRunnable list) lists.items) }
{
    let mut lists = without_lines(alloc, script.lanes)?;
    let mut current = 0;
    for line in script.lines.as_slice() {
        current = give(&mut lists, current, line)?;
    }
    Ok(lists)
}

/// So many lanes, without lines.
fn without_lines(alloc: Global, lanes: u32) -> Result<Vec<Items<Line>>, AllocError>
    ensures { IfOk result (λ lists. lists.items ≡ replicate lanes []) }
{
    let mut lists = Vec::with_capacity(alloc, lanes as usize)?;
    for _ in 0..lanes {
        lists.push(Items::new(alloc))?;
    }
    Ok(lists)
}

/// Gives a line to the current lane, unless it names a lane; and tells which lane is the current one after it.
fn give(lists: &mut Vec<Items<Line>>, current: u32, line: &Line) -> Result<u32, AllocError>
    requires { current < length lists.old.items }
    ensures lists { OnOk result (lists.new.items ≡ given lists.old.items current line.now) }
    ensures next { IfOk result (λ next. next ≡ next_lane current line.now) }
{
    match *line {
        Line::Lane(other) => Ok(other),
        _ => {
            lists[current as usize].push(*line)?;
            Ok(current)
        }
    }
}
