//! The nearest of many goals, over rows of which the third is water that costs 3.

ghost use Rattle.std.specs.Prelude.{◌≡◌, ◌<◌, All, None, IsTrue};
ghost use Rattle.nav_ground.specs.Limits.{IsSetting};
ghost use Rattle.mesh_types.specs.Soundness.{IsSound};
ghost use Rattle.path_queries.specs.NearestGoals.{CanAskNearest, HasGoalCoordinates};

use crate::meshes::{all_hold, has_coordinates, mesh, point, water};
use mesh_types::Mesh;
use nav_base::Steps;
use nav_lists::Items;
use path_queries::{Filter, Goal, NearestAnswer, NearestQuery, nearest_goal};
use std::alloc::{AllocError, Global};
use std::marker::Brand;
use std::sync::ledger::{Blank, Ledger};

/// What a question is to be answered.
#[derive(Clone, Copy, PartialEq)]
enum Wanted {
    /// Which goal, what the way there costs, and how many links it has.
    Found(usize, u64, usize),
    Limit(u64),
    NoStart,
    NoGoal,
    NoPath,
    NoMemory,
}

/// From where, to one of which places, which areas are open, and the limit of cost.
type Row = ((i32, i32), &'static [(i32, i32)], u64, u64, Wanted);

const NONE: u64 = u64::MAX;

const DRY: u64 = 0xfffffffffffffffb;

static ROWS: [Row; 9] = [
    (
        (24, 24),
        &[(72, 72), (24, 40), (0, 0)],
        NONE,
        NONE,
        Wanted::Found(1, 16, 1),
    ),
    (
        (24, 24),
        &[(24, 56), (72, 72)],
        NONE,
        NONE,
        Wanted::Found(0, 64, 2),
    ),
    ((24, 24), &[(24, 56), (72, 72)], DRY, NONE, Wanted::NoPath),
    // The farther goal, since the nearer one stands in the water.
    (
        (24, 24),
        &[(24, 56), (72, 40)],
        DRY,
        NONE,
        Wanted::Found(1, 16, 1),
    ),
    ((24, 24), &[(24, 56), (72, 72)], NONE, 63, Wanted::Limit(64)),
    ((24, 24), &[(0, 0)], NONE, NONE, Wanted::NoGoal),
    ((24, 24), &[], NONE, NONE, Wanted::NoGoal),
    ((0, 0), &[(24, 24)], NONE, NONE, Wanted::NoStart),
    (
        (24, 24),
        &[(72, 72), (72, 24)],
        0,
        0,
        Wanted::Found(1, 0, 0),
    ),
];

pub(crate) fn goals(alloc: Global, places: &[(i32, i32)]) -> Result<Items<Goal>, AllocError> {
    let mut goals = Vec::new(alloc);
    for place in places {
        let goal = Goal {
            point: point(*place),
            y: 10,
        };
        goals.push(goal)?;
    }
    Ok(Items::from_vec(goals))
}

pub(crate) fn have_coordinates(goals: &[Goal]) -> bool
    ensures { IsTrue result → All HasGoalCoordinates goals.now }
{
    for goal in goals {
        if !has_coordinates(goal.point) {
            return false;
        }
    }
    true
}

fn can_ask(query: &NearestQuery) -> bool
    requires { query.now.filter.costs ≡ None }
    ensures { IsTrue result → CanAskNearest query.now }
{
    has_coordinates(query.from) && have_coordinates(query.goals.as_slice())
}

fn told(answer: &NearestAnswer) -> Wanted {
    match answer {
        NearestAnswer::Found { which, way, .. } => {
            Wanted::Found(*which, way.cost, way.links.len())
        }
        NearestAnswer::Limit { seen } => Wanted::Limit(*seen),
        NearestAnswer::NoStart => Wanted::NoStart,
        NearestAnswer::NoGoal => Wanted::NoGoal,
        NearestAnswer::NoPath => Wanted::NoPath,
    }
}

fn answered(alloc: Global, mesh: &Mesh, row: Row) -> Result<Wanted, AllocError>
    requires sound { IsSound mesh.now }
    requires setting { IsSetting mesh.now.setting }
{
    let query = NearestQuery {
        from: point(row.0),
        from_y: 10,
        goals: goals(alloc, row.1)?,
        filter: Filter {
            areas: row.2,
            costs: None,
        },
        most_cost: row.3,
    };
    if !can_ask(&query) {
        return Ok(Wanted::NoMemory);
    }
    let answer = nearest_goal(alloc, mesh, &query)?;
    Ok(told(&answer))
}

fn holds(alloc: Global, mesh: &Mesh, row: Row) -> bool
    requires sound { IsSound mesh.now }
    requires setting { IsSetting mesh.now.setting }
{
    match answered(alloc, mesh, row) {
        Ok(told) => told == row.4,
        Err(_) => false,
    }
}

fn wrong_row(alloc: Global, mesh: &Mesh, rows: &[Row]) -> Option<usize>
    requires sound { IsSound mesh.now }
    requires setting { IsSetting mesh.now.setting }
{
    for row in 0..rows.len() {
        if !holds(alloc, mesh, rows[row]) {
            return Some(row);
        }
    }
    None
}

/// A row that is wrong; 99 where there is no memory.
fn wrong<L: Ledger>(alloc: Global, rows: &[Row], blank: Blank) -> Option<usize>
    requires name { blank.name ≡ L.name }
    requires parts { blank.parts ≡ L.parts }
    requires some { 0 < blank.parts }
{
    let mut steps = Steps::<L>::new(blank);
    match mesh(alloc, water(), &mut steps) {
        Ok(mesh) => wrong_row(alloc, &mesh, rows),
        Err(_) => Some(99),
    }
}

#[test]
fn finds_nearest_goals(rt: HostRuntime) {
    let found = wrong::<Brand>(rt.alloc(), &ROWS, Blank::new(1));
    all_hold(&rt, "nearest goals", found);
}
