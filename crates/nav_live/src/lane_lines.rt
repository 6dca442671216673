//! The lines of a lane. What a lane keeps of the lines that it has run. The walker of a lane.

ghost use Rattle.std.specs.Prelude.{◌≡◌, ◌≤◌, ◌↔◌, List, Some, length, IsTrue, IfOk, IfErr, OnOk, MatchBool, ◌-◌, if◌then◌else◌, slice_get, unwrap_or, IfSome};
ghost use Rattle.turn_lock.specs.Locks.{LockId, IsOf};
ghost use Rattle.nav_ground.specs.History.{IsRequest, is_added};
ghost use Rattle.nav_query.specs.Questions.{IsAnswerable};
ghost use Rattle.nav_script.specs.declared.script.Line.TheVariants as lines;
ghost use Rattle.nav_live.specs.Roots.{RootView};
ghost use Rattle.nav_live.specs.LaneEntries.{Spoken, request_of, added_by};
ghost use Rattle.nav_live.specs.Lanes.{BelongsTo, IsToldOf, KeepsLane};
ghost use Rattle.nav_live.specs.LaneSteps.{HasRun, HasNoted};
ghost use Rattle.nav_live.specs.Stops.{IsStoppedAt};
ghost use Rattle.nav_live.specs.Waiting.{HasLearnt};
ghost use Rattle.nav_live.specs.LaneRecords.{number_after};
ghost use Rattle.nav_base.specs.Point.{HasCoordinates};
ghost use Rattle.agent_walks.specs.Walkers.{IsWalker};

use crate::book::{LiveAct, LiveDone};
use crate::builds::RunContext;
use crate::lane::{Lane, LaneEnd, LineAnswer, write_said};
use agent_walks::Place;
use nav_base::Question;
use nav_ground::{Reply, Request};
use nav_io::{Actor, Gate, Stage};
use nav_script::Line;
use nav_version::Told;
use std::alloc::{AllocError, Global};
use std::sync::Wait;

impl Lane {
    /// Puts a question to the published version, which goes on from all that the lane has seen. It takes no turn and does not wait.
    pub(crate) fn ask(&mut self, alloc: Global, question: Question) -> Result<(), AllocError>
        requires question { IsAnswerable question }
        ensures ran { (lock : LockId RootView) (spoken : List Spoken) → KeepsLane lock spoken self.old
            → OnOk result (HasRun lock (lines.Ask question) spoken self.new) }
        ensures pass { self.new.pass ≡ self.old.pass }
    {
        let (k, answer) = self.eye.ask(alloc, &question)?;
        self.note(&Line::Ask(question), &LineAnswer::Answered { k, answer })?;
        Ok(())
    }

    /// Makes a request while the lane has the turn, and keeps its number and reply.
    pub(crate) fn request<R: Wait, G>(
        &mut self,
        context: &RunContext<'_, R, G>,
        line: Line,
        request: Request,
    ) -> Result<(), LaneEnd>
        requires own { BelongsTo context.now.lock.now self.old }
        requires request { request_of self.old.adds line ≡ Some request }
        requires limits { IsRequest request }
        ensures of { IsOf context.now.lock.now self.new.pass }
        ensures named { self.new.pass.number ≡ self.old.pass.number }
        ensures ran { (spoken : List Spoken) → KeepsLane context.now.lock.now spoken self.old → OnOk result (HasRun context.now.lock.now line spoken self.new) }
        ensures full { IfErr result (IsStoppedAt context.now.lock.now line self.old.pass self.new.pass) }
    {
        let act = LiveAct::Ask {
            lane: self.number,
            request,
        };
        match context
            .lock
            .with(context.rt, context.alloc, &mut self.pass, act)
        {
            LiveDone::Asked { number, reply } => {
                self.note(&line, &LineAnswer::Replied { number, reply })?;
                Ok(())
            }
            LiveDone::HistoryFull { .. } => Err(LaneEnd::HistoryFull),
            _ => unreachable!(),
        }
    }

    /// Whether a length covers the lane's entries and all that its eye has seen.
    fn is_covered_by(&self, k: u32) -> bool
        ensures { IsTrue result ↔ ((self.now.last ≤ k) × (length self.now.eye.seen ≤ k)) }
    {
        self.last <= k && self.eye.seen() <= k
    }

    /// Ends a `settle` where the published list has all that was aimed at, the lane's entries, and all that its eye has seen; says whether it
    /// did.
    pub(crate) fn settle_at(&mut self, aimed: u32, told: Told) -> Result<bool, AllocError>
        requires pair { told.pair ≡ self.old.eye.pair }
        ensures covers { IfOk result (λ done. IsTrue done → aimed ≤ length told.entries) }
        ensures learns { IfOk result (λ done. IsTrue done → HasLearnt told self.old self.new) }
        ensures ran { IfOk result (λ done. MatchBool done
            ((lock : LockId RootView) (spoken : List Spoken) → KeepsLane lock spoken self.old → IsToldOf lock told → HasRun lock lines.Settle spoken self.new)
            (self.new ≡ self.old)) }
        ensures pass { self.new.pass ≡ self.old.pass }
    {
        let k = told.length();
        if k < aimed || !self.is_covered_by(k) {
            return Ok(false);
        }
        self.eye.learn(told);
        self.note(&Line::Settle, &LineAnswer::Settled { k })?;
        Ok(true)
    }
}

/// What a line added: the number of the obstacle, or 0 where an add line added nothing; no other line adds.
fn added(line: &Line, said: &LineAnswer) -> Option<u32>
    ensures { result ≡ added_by line.now said.now }
{
    match (line, said) {
        (Line::Add(_), LineAnswer::Replied { number, reply }) => Some(number_added(*number, reply)),
        _ => None,
    }
}

fn number_added(number: u32, reply: &Reply) -> u32
    ensures { result ≡ (if is_added reply.now then number else 0) }
{
    match reply {
        Reply::Added { .. } => number,
        Reply::Removed | Reply::Full { .. } | Reply::Dead { .. } => 0,
    }
}

/// The number of the last entry after a line.
fn last_after(last: u32, said: &LineAnswer) -> u32
    ensures { result ≡ number_after last said.now }
{
    match said {
        LineAnswer::Replied { number, .. } => *number,
        _ => last,
    }
}

impl Lane {
    /// The request that a line makes, if it makes one.
    pub(crate) fn request_of(&self, line: &Line) -> Option<Request>
        ensures { result ≡ request_of self.now.adds line.now }
    {
        match *line {
            Line::Add(shape) => Some(Request::Add(shape)),
            Line::Remove(number) => Some(Request::Remove(number)),
            Line::Undo(j) => Some(Request::Remove(self.number_of_add(j))),
            _ => None,
        }
    }

    fn number_of_add(&self, j: u32) -> u32
        ensures { result ≡ unwrap_or (slice_get self.now.adds (j - 1)) 0 }
    {
        self.adds
            .get((j as usize).saturating_sub(1))
            .copied()
            .unwrap_or(0)
    }

    /// Writes what a line was answered, and keeps what later lines need of it. After want of memory a part of it may be kept.
    pub(crate) fn note(&mut self, line: &Line, said: &LineAnswer) -> Result<(), AllocError>
        ensures noted { OnOk result (HasNoted line.now said.now self.old self.new) }
        ensures number { self.new.number ≡ self.old.number }
        ensures pass { self.new.pass ≡ self.old.pass }
        ensures eye { self.new.eye ≡ self.old.eye }
        ensures walker { self.new.walker ≡ self.old.walker }
    {
        if let Some(number) = added(line, said) {
            self.adds.push(number)?;
        }
        self.last = last_after(self.last, said);
        write_said(&mut self.text, said)
    }
}

impl Lane {
    /// Sends a walker from one place to another in the published version, in place of one that the lane has. It takes no turn and does not wait.
    pub(crate) fn send<R: Wait, G: Gate>(
        &mut self,
        context: &RunContext<'_, R, G>,
        from: Place,
        to: Place,
    ) -> Result<(), AllocError>
        requires from { HasCoordinates from.point }
        requires to { HasCoordinates to.point }
        ensures ran { (lock : LockId RootView) (spoken : List Spoken) → KeepsLane lock spoken self.old
            → OnOk result (HasRun lock (lines.Send from.point from.y to.point to.y) spoken self.new) }
        ensures pass { self.new.pass ≡ self.old.pass }
    {
        let actor = Actor::Lane(self.number);
        context.gate.pass(actor, Stage::BeforeAsk);
        let (k, sent, answer) = agent_walks::send(
            context.alloc,
            &mut self.eye,
            from.point,
            from.y,
            to.point,
            to.y,
        )?;
        self.walker = sent;
        let line = Line::Send {
            from: from.point,
            from_y: from.y,
            to: to.point,
            to_y: to.y,
        };
        self.note(&line, &LineAnswer::Walked { k, answer })?;
        context.gate.pass(actor, Stage::AfterAsk);
        Ok(())
    }

    /// Lets the lane's walker march in the published version; tells where there is none. It takes no turn and does not wait.
    pub(crate) fn march<R: Wait, G: Gate>(
        &mut self,
        context: &RunContext<'_, R, G>,
        length: u32,
    ) -> Result<(), AllocError>
        requires walker { IfSome self.old.walker IsWalker }
        ensures ran { (lock : LockId RootView) (spoken : List Spoken) → KeepsLane lock spoken self.old
            → OnOk result (HasRun lock (lines.March length) spoken self.new) }
        ensures pass { self.new.pass ≡ self.old.pass }
    {
        let actor = Actor::Lane(self.number);
        context.gate.pass(actor, Stage::BeforeAsk);
        let Some(walker) = self.walker.take() else {
            self.note(&Line::March(length), &LineAnswer::NoWalker)?;
            context.gate.pass(actor, Stage::AfterAsk);
            return Ok(());
        };
        let (k, left, answer) = agent_walks::march(context.alloc, walker, &mut self.eye, length)?;
        self.walker = left;
        self.note(&Line::March(length), &LineAnswer::Walked { k, answer })?;
        context.gate.pass(actor, Stage::AfterAsk);
        Ok(())
    }
}
