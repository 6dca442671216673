//! A play under way.

ghost use Rattle.std.specs.Prelude.{◌≡◌, ℕ, ◌+◌, ◌<◌, ◌++◌, IfOk, IsOkAnd, OnOk, length};
ghost use Rattle.nav_base.specs.Point.{HasCoordinates};
ghost use Rattle.nav_ground.specs.History.{IsRequest};
ghost use Rattle.nav_ground.specs.Limits.{IsShape};
ghost use Rattle.nav_play.specs.PlayRecord.{IsTextFrom};
ghost use Rattle.nav_play.specs.PlayStates.{number_added, number_got, state_after_all};
ghost use Rattle.nav_play.specs.PlayTotals.{AreTotalsFrom};
ghost use Rattle.nav_play.specs.Players.{HasBegun, HasPlayed, HasRequested, IsPlayable, IsSteady, player_state};
ghost use Rattle.nav_play.specs.Tallies.{HasRoom, totals_at};
ghost use Rattle.nav_play.specs.Work.{jobs_from, jobs_of};
ghost use Rattle.nav_query.specs.Questions.{IsAnswerable};
ghost use Rattle.nav_record.specs.StepTexts.{step_text};
ghost use Rattle.nav_script.specs.Limits.{IsScript};
ghost use Rattle.nav_script.specs.declared.script.Way.TheVariants.{Play};
ghost use Rattle.off_links.specs.OffMeshLinks.{HasJumpCoordinates};
ghost use Rattle.nav_base.specs.Counts.{HasRisenAtMost};

use crate::lanes::{LaneAdds, count};
use crate::run::{HeldBuilds, PlayText, Played, claim, publish, put_back, settle, submit};
use nav_base::{Point, Question, Steps};
use nav_book::{Book, HistoryFull};
use nav_ground::{Reply, Request, Shape};
use nav_record::{
    StepAnswer, Totals, write_answer, write_done, write_hop, write_reply, write_step,
};
use nav_script::{Line, Script};
use off_links::{HopQuestion, Jump};
use std::alloc::{AllocError, Global};
use std::sync::Wait;
use std::sync::ledger::Ledger;

/// The book, the lane of the next request, what the add lines of each lane got, what the workers hold, the jumps so far as part of the last
/// question for a hop walk, the totals of what `path` lines were answered so far, and the text so far. It is not `Drop`, since its book is
/// not: `end` ends it.
pub(crate) struct Player {
    pub(crate) book: Book,
    pub(crate) lane: u32,
    pub(crate) adds: LaneAdds,
    pub(crate) workers: HeldBuilds,
    pub(crate) hop: HopQuestion,
    pub(crate) totals: Totals,
    pub(crate) text: Vec<u8>,
}

/// Where a hop walk begins and where it goes to, each a point and a height.
#[derive(Clone, Copy)]
struct HopEnds {
    from: Point,
    from_y: u32,
    to: Point,
    to_y: u32,
}

impl Player {
    /// Plays the lines of a script from its beginning, writes what they are answered and how far the play came, and gives its totals. It takes
    /// one step for each tile that a claim of a line gives.
    pub(crate) fn play<R: Wait, L: Ledger>(
        &mut self,
        rt: &R,
        alloc: Global,
        script: &Script,
        steps: &mut Steps<L>,
    ) -> Result<Totals, AllocError>
        requires script { IsScript Play script.now }
        requires begun { HasBegun script.now self.old }
        ensures text { OnOk result (IsTextFrom (player_state self.old) script.now.lines self.new.text.items) }
        ensures totals { IfOk result (λ totals. AreTotalsFrom (player_state self.old) script.now.lines totals) }
        ensures ended { OnOk result (self.new.book.state ≡ (state_after_all (player_state self.old) script.now.lines).book) }
        ensures steps { OnOk result (steps.new ≡ steps.old + jobs_from (player_state self.old) script.now.lines) }
        ensures most { HasRisenAtMost (jobs_from (player_state self.old) script.now.lines) steps.old steps.new }
    {
        for line in script.lines.as_slice() {
            self.step(rt, alloc, line, steps)?;
        }
        write_done(&mut self.text, self.book.published(), self.book.length())?;
        Ok(told(&self.book, self.totals))
    }

    /// What the play came to: its book, its text so far, and these totals.
    pub(crate) fn stop(self, totals: Totals) -> Played
        ensures book { result.book.state ≡ self.book.state }
        ensures bytes { result.text.bytes.items ≡ self.text.items }
        ensures totals { result.text.totals ≡ totals }
    {
        let Player {
            book,
            lane: _,
            adds: _,
            workers: _,
            hop: _,
            totals: _,
            text,
        } = self;
        Played {
            book,
            text: PlayText {
                bytes: text,
                totals,
            },
        }
    }

    /// The text so far. It ends the book.
    pub(crate) fn end<R: Wait>(self, rt: &R) -> Vec<u8>
        ensures { result.items ≡ self.text.items }
    {
        let Player {
            book,
            lane: _,
            adds: _,
            workers: _,
            hop: _,
            totals: _,
            text,
        } = self;
        book.end(rt);
        text
    }

    /// Plays one line and writes what it is answered. It takes one step for each tile that a claim of the line gives.
    fn step<R: Wait, L: Ledger>(
        &mut self,
        rt: &R,
        alloc: Global,
        line: &Line,
        steps: &mut Steps<L>,
    ) -> Result<(), AllocError>
        requires playable { IsPlayable (length self.old.adds) (length self.old.workers) (length self.old.hop.jumps) line.now }
        requires steady { IsSteady self.old }
        requires room { HasRoom self.old.totals }
        ensures played { OnOk result (HasPlayed line.now self.old self.new steps.old steps.new) }
        ensures most { HasRisenAtMost (jobs_of (player_state self.old) line.now) steps.old steps.new }
    {
        match *line {
            Line::Lane(lane) => {
                self.lane = lane;
                Ok(())
            }
            Line::Ask(question) => self.ask(alloc, &question),
            Line::Add(shape) => self.add(shape),
            Line::Undo(j) => self.undo(j),
            Line::Remove(number) => self.remove(number),
            Line::Settle => {
                let answer = settle(rt, alloc, &mut self.book, &mut self.workers, steps);
                write_answered(&mut self.text, answer)
            }
            Line::Aim => self.aim(),
            Line::Claim(worker) => {
                let answer = claim(alloc, &mut self.book, &mut self.workers, worker, steps);
                write_answered(&mut self.text, answer)
            }
            Line::Back(worker) => {
                let answer = put_back(&mut self.book, &mut self.workers, worker);
                write_step(&mut self.text, &answer)
            }
            Line::Submit(worker) => {
                let answer = submit(&mut self.book, &mut self.workers, worker);
                write_step(&mut self.text, &answer)
            }
            Line::Publish => {
                let answer = publish(rt, alloc, &mut self.book);
                write_answered(&mut self.text, answer)
            }
            Line::Jump(jump) => self.declare(jump),
            Line::Hop {
                from,
                from_y,
                to,
                to_y,
            } => self.ask_hop(
                alloc,
                HopEnds {
                    from,
                    from_y,
                    to,
                    to_y,
                },
            ),
            // Lines of walkers stand in scripts that run live alone.
            Line::Send { .. } => unreachable!(),
            Line::March(_) => unreachable!(),
        }
    }

    /// Answers a question from the published mesh.
    fn ask(&mut self, alloc: Global, question: &Question) -> Result<(), AllocError>
        requires answerable { IsAnswerable question.now }
        requires steady { IsSteady self.old }
        requires room { HasRoom self.old.totals }
        ensures { (s : ℕ) → OnOk result (HasPlayed (Line.Ask question.now) self.old self.new s s) }
    {
        let (k, answer) = self.book.ask_and_prepare(alloc, question)?;
        count(&mut self.totals, question, &answer);
        write_answer(&mut self.text, k, &answer)
    }

    /// Answers the question for a hop walk over links and the jumps so far from the published mesh.
    fn ask_hop(&mut self, alloc: Global, ends: HopEnds) -> Result<(), AllocError>
        requires from { HasCoordinates ends.from }
        requires to { HasCoordinates ends.to }
        requires steady { IsSteady self.old }
        ensures { (s : ℕ) → OnOk result (HasPlayed (Line.Hop ends.from ends.from_y ends.to ends.to_y) self.old self.new s s) }
    {
        self.hop.from = ends.from;
        self.hop.from_y = ends.from_y;
        self.hop.to = ends.to;
        self.hop.to_y = ends.to_y;
        let (k, answer) = self.book.ask_by(alloc, &self.hop)?;
        write_hop(&mut self.text, k, &answer)
    }

    /// A jump that is one more from now on. Nothing is written.
    fn declare(&mut self, jump: Jump) -> Result<(), AllocError>
        requires room { length self.old.hop.jumps < 256 }
        requires points { HasJumpCoordinates jump }
        requires steady { IsSteady self.old }
        ensures { (s : ℕ) → OnOk result (HasPlayed (Line.Jump jump) self.old self.new s s) }
    {
        self.hop.jumps.push(jump)?;
        Ok(())
    }

    /// Makes the whole history the target and writes its length.
    fn aim(&mut self) -> Result<(), AllocError>
        requires { IsSteady self.old }
        ensures { (s : ℕ) → OnOk result (HasPlayed Line.Aim self.old self.new s s) }
    {
        let k = self.book.aim();
        write_step(&mut self.text, &StepAnswer::Aim { k })
    }

    /// Makes a request of the current lane for an obstacle, and keeps its number.
    fn add(&mut self, shape: Shape) -> Result<(), AllocError>
        requires shape { IsShape shape }
        requires steady { IsSteady self.old }
        ensures { (s : ℕ) → OnOk result (HasPlayed (Line.Add shape) self.old self.new s s) }
    {
        let number = self.request(Request::Add(shape))?;
        self.adds.push(self.lane, number)
    }

    /// Makes a request of the current lane that the obstacle of its j-th add line goes.
    fn undo(&mut self, j: u32) -> Result<(), AllocError>
        requires { IsSteady self.old }
        ensures { (s : ℕ) → OnOk result (HasPlayed (Line.Undo j) self.old self.new s s) }
    {
        let dropped = self.adds.number(self.lane, j);
        self.remove(dropped)
    }

    /// Makes a request of the current lane that the obstacle with a number goes.
    fn remove(&mut self, number: u32) -> Result<(), AllocError>
        requires { IsSteady self.old }
        ensures { (s : ℕ) → OnOk result (HasPlayed (Line.Remove number) self.old self.new s s) }
    {
        let _ = self.request(Request::Remove(number))?;
        Ok(())
    }

    /// Makes a request of the current lane and writes what became of it. Gives the number of the obstacle that it added, or 0.
    fn request(&mut self, request: Request) -> Result<u32, AllocError>
        requires { IsRequest request }
        ensures number { IfOk result (λ number. number ≡ number_got self.old.book.state request) }
        ensures requested { OnOk result (HasRequested request self.old self.new) }
    {
        match self.book.request(self.lane, request) {
            Ok((number, reply)) => {
                write_reply(&mut self.text, number, &reply)?;
                Ok(added(&reply))
            }
            Err(HistoryFull { len }) => {
                write_step(&mut self.text, &StepAnswer::HistoryFull { len })?;
                Ok(0)
            }
        }
    }
}

/// Writes what a step is answered, where memory sufficed for the step.
fn write_answered(
    text: &mut Vec<u8>,
    answer: Result<StepAnswer, AllocError>,
) -> Result<(), AllocError>
    ensures { OnOk result (IsOkAnd answer (λ said. text.new.items ≡ text.old.items ++ step_text said)) }
{
    let answer = answer?;
    write_step(text, &answer)
}

/// The totals of a play at its end, from those of its answers.
fn told(book: &Book, totals: Totals) -> Totals
    ensures { result ≡ totals_at book.now.state totals }
{
    let (polys, links) = book.mesh_counts();
    Totals {
        entries: book.length(),
        published: book.published(),
        polys,
        links,
        ..totals
    }
}

/// The number of the obstacle that a reply says was added; 0 where none was.
fn added(reply: &Reply) -> u32
    ensures { result ≡ number_added reply.now }
{
    match *reply {
        Reply::Added { number } => number,
        Reply::Removed | Reply::Full { .. } | Reply::Dead { .. } => 0,
    }
}
