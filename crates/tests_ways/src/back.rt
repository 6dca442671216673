//! Floods back to a place, and ways from many places to one goal, over rows of which the third is water that costs 5.

ghost use Rattle.std.specs.Prelude.{◌≡◌, ◌<◌, None, IsTrue};
ghost use Rattle.nav_ground.specs.Limits.{IsSetting};
ghost use Rattle.mesh_types.specs.Passages.{IsTwoWay};
ghost use Rattle.mesh_types.specs.Soundness.{IsSound};

use crate::floods::{Entry, can_flood, is_wanted};
use crate::meshes::{all_hold, dear_water, has_coordinates, mesh, point};
use crate::nearest::{goals, have_coordinates};
use mesh_types::Mesh;
use nav_base::Steps;
use path_queries::{Filter, FloodQuery, Goal, PlanAnswer, flood_back, plans_to};
use std::alloc::{AllocError, Global};
use std::marker::Brand;
use std::sync::ledger::{Blank, Ledger};

/// To where, which areas are open, up to which cost, and the polygons that are wanted; none where no polygon holds the place.
type Row = ((i32, i32), u64, u64, &'static [Entry]);

const NONE: u64 = u64::MAX;

const DRY: u64 = 0xfffffffffffffffb;

static ROWS: [Row; 7] = [
    // Who comes from the second row pays for the water there and for the fourth row, and who comes from the water for the fourth alone.
    ((72, 72), NONE, 96, &[(3, 0, 0), (2, 16, 0), (1, 96, 1)]),
    ((72, 72), NONE, 95, &[(3, 0, 0), (2, 16, 0)]),
    (
        (72, 24),
        NONE,
        112,
        &[(0, 0, 0), (1, 16, 0), (2, 32, 1), (3, 112, 2)],
    ),
    // A walk may begin in the water, and none leads on through it.
    ((72, 72), DRY, NONE, &[(3, 0, 0), (2, 16, 0)]),
    ((72, 40), DRY, 15, &[(1, 0, 0)]),
    ((72, 60), DRY, NONE, &[(2, 0, 0)]),
    ((0, 0), NONE, 96, &[]),
];

fn holds(alloc: Global, mesh: &Mesh, row: Row) -> bool
    requires sound { IsSound mesh.now }
    requires setting { IsSetting mesh.now.setting }
    requires two_way { IsTwoWay mesh.now }
{
    let query = FloodQuery {
        at: point(row.0),
        y: 10,
        filter: Filter {
            areas: row.1,
            costs: None,
        },
        most_cost: row.2,
    };
    if !can_flood(&query) {
        return false;
    }
    match flood_back(alloc, mesh, &query) {
        Ok(answer) => is_wanted(&answer, row.3),
        Err(_) => false,
    }
}

/// A row that is wrong; 99 where there is no memory.
fn wrong<L: Ledger>(alloc: Global, rows: &[Row], blank: Blank) -> Option<usize>
    requires name { blank.name ≡ L.name }
    requires parts { blank.parts ≡ L.parts }
    requires some { 0 < blank.parts }
{
    let mut steps = Steps::<L>::new(blank);
    let Ok(mesh) = mesh(alloc, dear_water(), &mut steps) else {
        return Some(99);
    };
    for row in 0..rows.len() {
        if !holds(alloc, &mesh, rows[row]) {
            return Some(row);
        }
    }
    None
}

#[test]
fn floods_back_rows(rt: HostRuntime) {
    let found = wrong::<Brand>(rt.alloc(), &ROWS, Blank::new(1));
    all_hold(&rt, "floods back", found);
}

/// What a question of a batch is to be answered.
#[derive(Clone, Copy, PartialEq)]
enum Wanted {
    /// What the way costs, and how many links it has.
    Way(u64, usize),
    NoStart,
    NoGoal,
    NoPath,
    Limit,
}

/// From where, to one goal, which areas are open, and what is wanted for each start.
type Batch = (&'static [(i32, i32)], (i32, i32), u64, &'static [Wanted]);

static BATCHES: [Batch; 5] = [
    (
        &[(24, 24), (24, 56), (0, 0), (72, 72)],
        (72, 72),
        NONE,
        &[
            Wanted::Way(112, 3),
            Wanted::Way(16, 1),
            Wanted::NoStart,
            Wanted::Way(0, 0),
        ],
    ),
    (
        &[(24, 24), (24, 56), (0, 0), (72, 72)],
        (72, 72),
        DRY,
        &[
            Wanted::NoPath,
            Wanted::Way(16, 1),
            Wanted::NoStart,
            Wanted::Way(0, 0),
        ],
    ),
    (
        &[(24, 24), (24, 56), (0, 0), (72, 72)],
        (72, 56),
        DRY,
        &[
            Wanted::NoPath,
            Wanted::Way(0, 0),
            Wanted::NoStart,
            Wanted::NoPath,
        ],
    ),
    (
        &[(24, 24), (24, 56), (0, 0), (72, 72)],
        (0, 0),
        NONE,
        &[
            Wanted::NoGoal,
            Wanted::NoGoal,
            Wanted::NoStart,
            Wanted::NoGoal,
        ],
    ),
    (&[], (72, 72), NONE, &[]),
];

fn told(answer: &PlanAnswer) -> Wanted {
    match answer {
        PlanAnswer::Whole { way, .. } => Wanted::Way(way.cost, way.links.len()),
        PlanAnswer::Nearest { .. } | PlanAnswer::Limit { .. } => Wanted::Limit,
        PlanAnswer::NoStart => Wanted::NoStart,
        PlanAnswer::NoGoal => Wanted::NoGoal,
        PlanAnswer::NoPath => Wanted::NoPath,
    }
}

fn are_told(answers: &[PlanAnswer], wanted: &[Wanted]) -> bool {
    if answers.len() != wanted.len() {
        return false;
    }
    for (answer, wanted) in answers.iter().zip(wanted) {
        if told(answer) != *wanted {
            return false;
        }
    }
    true
}

fn answers_so(alloc: Global, mesh: &Mesh, batch: Batch) -> Result<bool, AllocError>
    requires sound { IsSound mesh.now }
    requires setting { IsSetting mesh.now.setting }
    requires two_way { IsTwoWay mesh.now }
{
    let starts = goals(alloc, batch.0)?;
    let goal = Goal {
        point: point(batch.1),
        y: 10,
    };
    let filter = Filter {
        areas: batch.2,
        costs: None,
    };
    if !have_coordinates(starts.as_slice()) || !has_coordinates(goal.point) {
        return Ok(false);
    }
    let answers = plans_to(alloc, mesh, starts.as_slice(), goal, &filter)?;
    Ok(are_told(answers.as_slice(), batch.3))
}

/// A batch that is answered otherwise; 99 where there is no memory.
fn wrong_batch<L: Ledger>(alloc: Global, batches: &[Batch], blank: Blank) -> Option<usize>
    requires name { blank.name ≡ L.name }
    requires parts { blank.parts ≡ L.parts }
    requires some { 0 < blank.parts }
{
    let mut steps = Steps::<L>::new(blank);
    let Ok(mesh) = mesh(alloc, dear_water(), &mut steps) else {
        return Some(99);
    };
    for place in 0..batches.len() {
        match answers_so(alloc, &mesh, batches[place]) {
            Ok(true) => {}
            _ => return Some(place),
        }
    }
    None
}

#[test]
fn plans_to_one_goal(rt: HostRuntime) {
    let found = wrong_batch::<Brand>(rt.alloc(), &BATCHES, Blank::new(1));
    all_hold(&rt, "ways to one goal", found);
}
