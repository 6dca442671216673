//! The numbers that the add lines of each lane got. The totals of what `path` lines were answered.

ghost use Rattle.std.specs.Prelude.{◌≡◌, ◌<◌, ◌≤◌, IfOk, OnOk, OnErr, length, replicate, []};
ghost use Rattle.nav_play.specs.PlayStates.{adds_and, number_in};
ghost use Rattle.nav_query.specs.Questions.{HasLowCost};
ghost use Rattle.nav_play.specs.Tallies.{HasRoom, no_answers, totals_after, totals_with};

use mesh_types::Answer;
use nav_base::Question;
use nav_lists::Items;
use nav_record::Totals;
use std::alloc::{AllocError, Global};
use std::marker::Model;

/// For each lane the numbers that its add lines got, in order.
#[derive(Drop)]
pub(crate) struct LaneAdds {
    lanes: Vec<Items<u32>>,
}

impl Model for LaneAdds {
    ghost use Rattle.std.specs.Prelude.{List, ℕ};

    ghost Value = { List (List ℕ) };

    ghost view = { λ a. a.lanes.items };
}

impl LaneAdds {
    /// So many lanes, without numbers.
    pub(crate) fn new(alloc: Global, count: u32) -> Result<LaneAdds, AllocError>
        ensures { IfOk result (λ lanes. lanes ≡ replicate count []) }
    {
        let mut lanes = Vec::with_capacity(alloc, count as usize)?;
        for _ in 0..count {
            lanes.push(Items::new(alloc))?;
        }
        Ok(LaneAdds { lanes })
    }

    /// A further number for a lane.
    pub(crate) fn push(&mut self, lane: u32, number: u32) -> Result<(), AllocError>
        requires { lane < length self.old }
        ensures ok { OnOk result (self.new ≡ adds_and self.old lane number) }
        ensures err { OnErr result (length self.new ≡ length self.old) }
    {
        self.lanes[lane as usize].push(number)?;
        Ok(())
    }

    /// The number that the lane's j-th add line got, counted from 1; 0 where there is none.
    pub(crate) fn number(&self, lane: u32, j: u32) -> u32
        requires { lane < length self.now }
        ensures { result ≡ number_in self.now lane j }
    {
        self.lanes[lane as usize]
            .get((j as usize).saturating_sub(1))
            .copied()
            .unwrap_or(0)
    }
}

/// The totals of no answers, in which the rest is 0 too.
pub(crate) fn nothing() -> Totals
    ensures { result ≡ no_answers }
{
    Totals {
        entries: 0,
        published: 0,
        paths: 0,
        nopath: 0,
        nostart: 0,
        nogoal: 0,
        cost: 0,
        polys: 0,
        links: 0,
    }
}

/// Counts the answer to a question, if the question is one for a path.
pub(crate) fn count(totals: &mut Totals, question: &Question, answer: &Answer)
    requires room { HasRoom totals.old }
    requires low { HasLowCost answer.now }
    ensures { totals.new ≡ totals_after totals.old question.now answer.now }
{
    match question {
        Question::Path { .. } => count_path(totals, answer),
        Question::Floor { .. } | Question::Ray { .. } => (),
    }
}

fn count_path(totals: &mut Totals, answer: &Answer)
    requires room { HasRoom totals.old }
    requires low { HasLowCost answer.now }
    ensures { totals.new ≡ totals_with totals.old answer.now }
{
    match answer {
        Answer::Path(found) => {
            totals.paths += 1;
            totals.cost += found.cost;
        }
        Answer::NoPath => totals.nopath += 1,
        Answer::NoStart => totals.nostart += 1,
        Answer::NoGoal => totals.nogoal += 1,
        Answer::Floors(_) | Answer::Reached(_) | Answer::Wall { .. } => (),
    }
}
