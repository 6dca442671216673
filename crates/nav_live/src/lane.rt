//! A lane. A lane before its first line. A lane from its first line to its last. What the lines of live scripts are answered, and how that
//! is written.

ghost use Rattle.std.specs.Prelude.{◌≡◌, [], List, All, IfErr, OnOk, ◌++◌};
ghost use Rattle.turn_lock.specs.Locks.{LockId, IsOf};
ghost use Rattle.nav_live.specs.Lanes.{CanStart, KeepsLane, BelongsTo};
ghost use Rattle.nav_live.specs.Roots.{RootView};
ghost use Rattle.nav_script.specs.declared.script.Line.TheVariants as lines;
ghost use Rattle.nav_live.specs.Contexts.{IsContext};
ghost use Rattle.nav_live.specs.LaneEntries.{Spoken};
ghost use Rattle.nav_live.specs.LaneSteps.{HasRun, HasRunAll, IsRunnable};
ghost use Rattle.nav_live.specs.Stops.{IsStopped, IsStoppedAt};
ghost use Rattle.nav_live.specs.Waiting.{HasSettled};
ghost use Rattle.nav_live.specs.LaneTexts.{said_text};

use crate::book::{LiveBook, aim};
use crate::builds::{RunContext, publish_all};
use agent_walks::{Place, Walker};
use mesh_types::{Answer, WalkAnswer};
use nav_base::Steps;
use nav_ground::Reply;
use nav_io::{Actor, Gate, Stage};
use nav_lists::Items;
use nav_record::{StepAnswer, write_answer, write_no_walker, write_reply, write_step, write_walk};
use nav_script::Line;
use nav_version::Eye;
use std::alloc::{AllocError, Global};
use std::sync::Wait;
use std::sync::ledger::Ledger;
use turn_lock::Pass;

/// One lane of a live script while it runs.
pub struct Lane {
    /// Its number, from 0, under which its entries stand in the history.
    pub number: u32,
    /// Its right to act on the book.
    pub pass: Pass<LiveBook>,
    /// Reads the published versions for it.
    pub eye: Eye,
    /// What is written of the lines that it has run, in order: each line's answer, written when it was given.
    pub text: Vec<u8>,
    /// What its add lines added, in order: the number of the obstacle, or 0 where an add line added nothing.
    pub adds: Items<u32>,
    /// The number of its last entry, from 1; 0 before its first.
    pub last: u32,
    /// Its walker: the one that its last `send` placed, where the last `march` moved it; none before the first `send`, and after a `send` or a
    /// `march` that found no way.
    pub walker: Option<Walker>,
}

/// Why a lane ends before its last line.
#[derive(Clone, Copy)]
pub enum LaneEnd {
    /// Memory was refused.
    NoMemory,
    /// The history took no more entries.
    HistoryFull,
}

impl From<AllocError> for LaneEnd {
    ghost use Rattle.std.specs.Prelude.{◌≡◌};
    ghost use Rattle.nav_live.specs.declared.lane.LaneEnd.{LaneEnd};

    ghost from_gives = { λ _ stop. stop ≡ LaneEnd.NoMemory };

    fn from(_refused: AllocError) -> Self {
        LaneEnd::NoMemory
    }
}

impl Lane {
    /// The lane of a pass that has seen nothing, with an eye, before it runs its first line.
    #[tactic(auto, using(crate::proofs::LaneLaws::starts))]
    pub fn new(alloc: Global, number: u32, pass: Pass<LiveBook>, eye: Eye) -> Lane
        ensures keeps { (lock : LockId RootView) → CanStart lock number pass eye → KeepsLane lock [] result }
        ensures text { result.text.items ≡ [] }
        ensures pass { result.pass ≡ pass }
        ensures eye { result.eye ≡ eye }
    {
        Lane {
            number,
            pass,
            eye,
            text: Vec::new(alloc),
            adds: Items::new(alloc),
            last: 0,
            walker: None,
        }
    }
}

impl Lane {
    /// Has everything built that was asked for, and published. It ends once it was told a published list that has all that it aimed at, the
    /// lane's entries, and all that its eye has seen.
    fn settle<R: Wait, G: Gate, L: Ledger>(
        &mut self,
        context: &RunContext<'_, R, G>,
        steps: &mut Steps<L>,
    ) -> Result<(), AllocError>
        requires own { BelongsTo context.now.lock.now self.old }
        requires context { IsContext context.now.lock.now context.now.ground.now }
        ensures of { IsOf context.now.lock.now self.new.pass }
        ensures named { self.new.pass.number ≡ self.old.pass.number }
        ensures ran { (spoken : List Spoken) → KeepsLane context.now.lock.now spoken self.old → OnOk result (HasRun context.now.lock.now lines.Settle spoken self.new) }
        ensures settled { OnOk result (HasSettled context.now.lock.now self.old self.new) }
    {
        let actor = Actor::Lane(self.number);
        for _ in context.rt.forever() {
            let aimed = aim(context, &mut self.pass);
            let told = publish_all(context, &mut self.pass, actor, steps)?;
            if self.settle_at(aimed, told)? {
                return Ok(());
            }
        }
        unreachable!()
    }

    /// Runs one line and keeps what it was answered. Where it cannot, the lane's pass is still one of the lock.
    pub(crate) fn run<R: Wait, G: Gate, L: Ledger>(
        &mut self,
        context: &RunContext<'_, R, G>,
        line: &Line,
        steps: &mut Steps<L>,
    ) -> Result<(), LaneEnd>
        requires own { BelongsTo context.now.lock.now self.old }
        requires context { IsContext context.now.lock.now context.now.ground.now }
        requires line { IsRunnable line.now }
        ensures of { IsOf context.now.lock.now self.new.pass }
        ensures named { self.new.pass.number ≡ self.old.pass.number }
        ensures ran { (spoken : List Spoken) → KeepsLane context.now.lock.now spoken self.old → OnOk result (HasRun context.now.lock.now line.now spoken self.new) }
        ensures full { IfErr result (IsStoppedAt context.now.lock.now line.now self.old.pass self.new.pass) }
    {
        let actor = Actor::Lane(self.number);
        match *line {
            Line::Ask(question) => {
                context.gate.pass(actor, Stage::BeforeAsk);
                self.ask(context.alloc, question)?;
                context.gate.pass(actor, Stage::AfterAsk);
                Ok(())
            }
            Line::Send {
                from,
                from_y,
                to,
                to_y,
            } => {
                let from = Place {
                    point: from,
                    y: from_y,
                };
                let to = Place { point: to, y: to_y };
                self.send(context, from, to)?;
                Ok(())
            }
            Line::March(length) => {
                self.march(context, length)?;
                Ok(())
            }
            Line::Settle => {
                self.settle(context, steps)?;
                Ok(())
            }
            _ => match self.request_of(line) {
                Some(request) => {
                    context.gate.pass(actor, Stage::BeforeRequest);
                    self.request(context, *line, request)?;
                    context.gate.pass(actor, Stage::AfterRequest);
                    Ok(())
                }
                None => unreachable!(),
            },
        }
    }

    /// Runs all lines of the lane one after another.
    fn run_lines<R: Wait, G: Gate, L: Ledger>(
        &mut self,
        context: &RunContext<'_, R, G>,
        list: &[Line],
        steps: &mut Steps<L>,
    ) -> Result<(), LaneEnd>
        requires keeps { KeepsLane context.now.lock.now [] self.old }
        requires context { IsContext context.now.lock.now context.now.ground.now }
        requires lines { All IsRunnable list.now }
        ensures of { IsOf context.now.lock.now self.new.pass }
        ensures named { self.new.pass.number ≡ self.old.pass.number }
        ensures ran { OnOk result (HasRunAll context.now.lock.now list.now self.new) }
        ensures full { IfErr result (IsStopped list.now self.new.pass) }
    {
        for line in list {
            self.run(context, line, steps)?;
        }
        Ok(())
    }

    /// Runs all lines of the lane, which has run none before. It ends before its last line for want of memory, or where the history takes no
    /// more entries; its pass is then still one of the lock.
    pub fn run_all<R: Wait, G: Gate, L: Ledger>(
        &mut self,
        context: &RunContext<'_, R, G>,
        list: &[Line],
        steps: &mut Steps<L>,
    ) -> Result<(), LaneEnd>
        requires keeps { KeepsLane context.now.lock.now [] self.old }
        requires context { IsContext context.now.lock.now context.now.ground.now }
        requires lines { All IsRunnable list.now }
        ensures of { IsOf context.now.lock.now self.new.pass }
        ensures named { self.new.pass.number ≡ self.old.pass.number }
        ensures ran { OnOk result (HasRunAll context.now.lock.now list.now self.new) }
        ensures full { IfErr result (IsStopped list.now self.new.pass) }
    {
        context.events.begin_lane();
        let end = self.run_lines(context, list, steps);
        context.events.end_lane();
        end
    }
}

/// What a line of a lane is answered. Lengths count entries of the history.
#[derive(Drop)]
pub enum LineAnswer {
    /// A request has the entry with this number, and this reply.
    Replied { number: u32, reply: Reply },
    /// A question was put to the version with the first `k` entries, and got this answer.
    Answered { k: u32, answer: Answer },
    /// The first `k` entries are published, and with them all that the lane had asked for.
    Settled { k: u32 },
    /// A walker was sent or marched in the version with the first `k` entries, and this came of it.
    Walked { k: u32, answer: WalkAnswer },
    /// The lane has no walker that could march.
    NoWalker,
}

/// Appends the lines of what a line was answered.
pub(crate) fn write_said(text: &mut Vec<u8>, said: &LineAnswer) -> Result<(), AllocError>
    ensures { OnOk result (text.new.items ≡ text.old.items ++ said_text said.now) }
{
    match said {
        LineAnswer::Replied { number, reply } => write_reply(text, *number, reply),
        LineAnswer::Answered { k, answer } => write_answer(text, *k, answer),
        LineAnswer::Settled { k } => write_step(text, &StepAnswer::Settled { k: *k }),
        LineAnswer::Walked { k, answer } => write_walk(text, *k, answer),
        LineAnswer::NoWalker => write_no_walker(text),
    }
}
