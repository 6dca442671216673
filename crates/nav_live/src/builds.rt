//! What actors build. What the actors of a run share. A worker.

ghost use Rattle.std.specs.Prelude.{IfOk, if◌then◌else◌, ◌+◌, ◌≡◌};
ghost use Rattle.turn_lock.specs.Locks.{IsOf};
ghost use Rattle.nav_base.specs.Counts.{HasRisenAtMost};
ghost use Rattle.build_queue.specs.Steps.{IsJob};
ghost use Rattle.nav_live.specs.ActRules.{Tells};
ghost use Rattle.nav_live.specs.Contexts.{IsContext};
ghost use Rattle.nav_live.specs.Lanes.{SawOthers};

use crate::book::{HeldJob, LiveBook, claim, publish, put_back, submit};
use crate::event_count::EventCount;
use nav_base::Steps;
use nav_book::build_job;
use nav_ground::Ground;
use nav_io::{Actor, Gate, Stage};
use nav_version::Told;
use std::alloc::{AllocError, Global};
use std::sync::Wait;
use std::sync::ledger::Ledger;
use turn_lock::{Pass, TurnLock};

/// Builds the tile of a job and hands it in, with one step. Where memory is refused the job is given back.
fn build<R: Wait, G: Gate, L: Ledger>(
    context: &RunContext<'_, R, G>,
    pass: &mut Pass<LiveBook>,
    actor: Actor,
    held: HeldJob,
    steps: &mut Steps<L>,
) -> Result<(), AllocError>
    requires of { IsOf context.now.lock.now pass.old }
    requires context { IsContext context.now.lock.now context.now.ground.now }
    requires job { IsJob context.now.ground.now.setting held }
    ensures saw { SawOthers context.now.lock.now pass.old pass.new }
    ensures step { steps.new ≡ steps.old + 1 }
{
    context.gate.pass(actor, Stage::BeforeBuild);
    match build_job(context.alloc, context.ground, held.job(), steps) {
        Ok(mesh) => {
            context.gate.pass(actor, Stage::BeforeSubmit);
            submit(context, pass, held, mesh);
            Ok(())
        }
        Err(refused) => {
            put_back(context, pass, held);
            Err(refused)
        }
    }
}

/// Claims a tile, and builds it, with one step, if one waits; says whether one did.
#[tactic(auto, using(crate::proofs::PassLaws::saw_then))]
pub(crate) fn build_next<R: Wait, G: Gate, L: Ledger>(
    context: &RunContext<'_, R, G>,
    pass: &mut Pass<LiveBook>,
    actor: Actor,
    steps: &mut Steps<L>,
) -> Result<bool, AllocError>
    requires of { IsOf context.now.lock.now pass.old }
    requires context { IsContext context.now.lock.now context.now.ground.now }
    ensures saw { SawOthers context.now.lock.now pass.old pass.new }
    ensures steps { IfOk result (λ built. steps.new ≡ steps.old + (if built then 1 else 0)) }
    ensures most { HasRisenAtMost 1 steps.old steps.new }
{
    context.gate.pass(actor, Stage::BeforeClaim);
    match claim(context, pass)? {
        Some(held) => {
            build(context, pass, actor, held, steps)?;
            Ok(true)
        }
        None => Ok(false),
    }
}

/// Builds what waits, and publishes once nothing waits; tells the list that is published then. Where others build what is still awaited it sleeps until
/// one of them has handed in or given back.
#[tactic(auto, using(crate::proofs::PassLaws::saw_itself, crate::proofs::PassLaws::saw_then))]
pub(crate) fn publish_all<R: Wait, G: Gate, L: Ledger>(
    context: &RunContext<'_, R, G>,
    pass: &mut Pass<LiveBook>,
    actor: Actor,
    steps: &mut Steps<L>,
) -> Result<Told, AllocError>
    requires of { IsOf context.now.lock.now pass.old }
    requires context { IsContext context.now.lock.now context.now.ground.now }
    ensures told { IfOk result (Tells context.now.lock.now.root pass.new.seen) }
    ensures saw { SawOthers context.now.lock.now pass.old pass.new }
{
    for _ in context.rt.forever() {
        let epoch = context.events.builds_epoch();
        if build_next(context, pass, actor, steps)? {
            continue;
        }
        context.gate.pass(actor, Stage::BeforePublish);
        if let Some(told) = publish(context, pass)? {
            return Ok(told);
        }
        context.events.wait_for_builds(context.rt, epoch);
    }
    unreachable!()
}

/// What every actor of a run works with.
#[derive(Drop)]
pub struct RunContext<'a, R, G> {
    /// Lets threads wait.
    pub rt: &'a R,
    pub alloc: Global,
    /// The book, on which one actor after another acts.
    pub lock: &'a TurnLock<LiveBook>,
    /// What wakes actors that wait for each other.
    pub events: &'a EventCount,
    /// The ground of the book.
    pub ground: &'a Ground,
    /// The gate that each actor passes at its stages.
    pub gate: &'a G,
}

/// After so many claims in succession that gave no tile a worker ends. One that it made while a lane was running does not count.
const IDLE_CLAIMS: u32 = 4096;

/// A worker that builds tiles while the lanes run.
pub struct Worker {
    /// Its number, from 0.
    pub number: u32,
    /// Its right to act on the book. It makes no request.
    pub pass: Pass<LiveBook>,
}

impl Worker {
    /// Claims tiles, builds them and hands them in, until 4096 claims in succession gave none while no lane was running. While a lane runs it
    /// sleeps after a claim that gave none, until a tile may have come. It is refused for want of memory alone, and has then given its tile
    /// back.
    #[tactic(auto, using(crate::proofs::PassLaws::saw_itself, crate::proofs::PassLaws::saw_then))]
    pub fn run<R: Wait, G: Gate, L: Ledger>(
        &mut self,
        context: &RunContext<'_, R, G>,
        steps: &mut Steps<L>,
    ) -> Result<(), AllocError>
        requires of { IsOf context.now.lock.now self.old.pass }
        requires context { IsContext context.now.lock.now context.now.ground.now }
        ensures named { self.new.number ≡ self.old.number }
        ensures saw { SawOthers context.now.lock.now self.old.pass self.new.pass }
    {
        let actor = Actor::Worker(self.number);
        let mut idle = 0;
        for _ in context.rt.forever() {
            if idle >= IDLE_CLAIMS {
                return Ok(());
            }
            let epoch = context.events.tiles_epoch();
            let built = build_next(context, &mut self.pass, actor, steps)?;
            let stays = built || context.events.wait_for_tiles(context.rt, epoch);
            idle = if stays { 0 } else { idle + 1 };
        }
        unreachable!()
    }
}
