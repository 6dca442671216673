//! Ways through a filter. The middles of neighbouring rows are 16 apart.

ghost use Rattle.std.specs.Prelude.{◌≡◌, ◌<◌, IsTrue, IfSome};
ghost use Rattle.nav_ground.specs.Limits.{IsSetting};
ghost use Rattle.mesh_types.specs.Soundness.{IsSound};
ghost use Rattle.path_queries.specs.Filters.{IsFilter};
ghost use Rattle.path_queries.specs.PartialWays.{IsPartialAsked};
ghost use Rattle.path_queries.specs.Plans.{CanPlan};

use crate::meshes::{FlatLevel, all_hold, dear_water, has_coordinates, mesh, open, point, water};
use mesh_types::Mesh;
use nav_base::Steps;
use path_queries::{Filter, PathQuery, PlanAnswer, plan};
use std::alloc::Global;
use std::marker::Brand;
use std::sync::ledger::{Blank, Ledger};

/// What a question is to be answered.
#[derive(Clone, Copy, PartialEq)]
enum Wanted {
    /// What the way costs, and how many links and turns it has.
    Whole(u64, usize, usize),
    Limit(u64),
    NoStart,
    NoGoal,
    NoPath,
    NoMemory,
}

/// From where, to where and to which height, which areas are open, and the limits of cost and of polygons.
type Row = ((i32, i32), (i32, i32), u32, u64, u64, usize, Wanted);

const NONE: u64 = u64::MAX;

const ALL: usize = usize::MAX;

/// All areas but 2, which is the water.
pub(crate) const DRY: u64 = 0xfffffffffffffffb;

static OPEN: [Row; 8] = [
    (
        (24, 24),
        (72, 72),
        10,
        NONE,
        NONE,
        ALL,
        Wanted::Whole(48, 3, 0),
    ),
    ((24, 24), (72, 72), 10, NONE, 47, ALL, Wanted::Limit(48)),
    (
        (24, 24),
        (72, 72),
        10,
        NONE,
        48,
        ALL,
        Wanted::Whole(48, 3, 0),
    ),
    ((24, 24), (72, 72), 10, NONE, NONE, 2, Wanted::Limit(48)),
    ((24, 24), (72, 200), 10, NONE, NONE, ALL, Wanted::NoGoal),
    ((24, 24), (72, 72), 40, NONE, NONE, ALL, Wanted::NoGoal),
    ((0, 0), (72, 72), 10, NONE, NONE, ALL, Wanted::NoStart),
    ((24, 56), (72, 60), 10, 0, NONE, ALL, Wanted::Whole(0, 0, 0)),
];

/// Who stands in the water walks out of it.
static WATER: [Row; 4] = [
    (
        (24, 24),
        (72, 72),
        10,
        NONE,
        NONE,
        ALL,
        Wanted::Whole(80, 3, 0),
    ),
    ((24, 24), (72, 72), 10, DRY, NONE, ALL, Wanted::NoPath),
    (
        (24, 56),
        (72, 72),
        10,
        DRY,
        NONE,
        ALL,
        Wanted::Whole(16, 1, 0),
    ),
    ((24, 24), (72, 56), 10, DRY, NONE, ALL, Wanted::NoPath),
];

/// By the costs of another mesh, in which the water costs 5.
static DEAR: [Row; 1] = [(
    (24, 24),
    (72, 72),
    10,
    NONE,
    NONE,
    ALL,
    Wanted::Whole(112, 3, 0),
)];

pub(crate) fn can_plan(query: &PathQuery) -> bool
    requires { IsFilter query.now.filter }
    ensures { IsTrue result → CanPlan query.now }
{
    has_coordinates(query.from) && has_coordinates(query.goal) && can_be_partial(query)
}

fn can_be_partial(query: &PathQuery) -> bool
    ensures { IsTrue result → IfSome query.now.partial (IsPartialAsked query.now) }
{
    match query.partial {
        Some(rise) => rise <= 1024 && query.goal_y <= 65535,
        None => true,
    }
}

fn told(answer: &PlanAnswer) -> Wanted {
    match answer {
        PlanAnswer::Whole { way, .. } => {
            Wanted::Whole(way.cost, way.links.len(), way.turns.len())
        }
        PlanAnswer::Nearest { .. } => Wanted::NoMemory,
        PlanAnswer::Limit { seen } => Wanted::Limit(*seen),
        PlanAnswer::NoStart => Wanted::NoStart,
        PlanAnswer::NoGoal => Wanted::NoGoal,
        PlanAnswer::NoPath => Wanted::NoPath,
    }
}

/// What a question is answered by the costs of another mesh.
fn asked(alloc: Global, mesh: &Mesh, priced: &Mesh, row: Row) -> Wanted
    requires sound { IsSound mesh.now }
    requires setting { IsSetting mesh.now.setting }
    requires priced { IsSetting priced.now.setting }
{
    let (from, goal, goal_y, areas, most_cost, most_polygons, _wanted) = row;
    let query = PathQuery {
        from: point(from),
        from_y: 10,
        goal: point(goal),
        goal_y,
        filter: Filter {
            areas,
            costs: Some(priced.setting.costs),
        },
        most_cost,
        most_polygons,
        partial: None,
    };
    if !can_plan(&query) {
        return Wanted::NoMemory;
    }
    match plan(alloc, mesh, &query) {
        Ok(answer) => told(&answer),
        Err(_) => Wanted::NoMemory,
    }
}

fn wrong_row(alloc: Global, mesh: &Mesh, priced: &Mesh, rows: &[Row]) -> Option<usize>
    requires sound { IsSound mesh.now }
    requires setting { IsSetting mesh.now.setting }
    requires priced { IsSetting priced.now.setting }
{
    for row in 0..rows.len() {
        if asked(alloc, mesh, priced, rows[row]) != rows[row].6 {
            return Some(row);
        }
    }
    None
}

/// A row that is wrong; 99 where there is no memory.
fn wrong<L: Ledger>(
    alloc: Global,
    levels: (FlatLevel, FlatLevel),
    rows: &[Row],
    blank: Blank,
) -> Option<usize>
    requires name { blank.name ≡ L.name }
    requires parts { blank.parts ≡ L.parts }
    requires some { 0 < blank.parts }
{
    let mut steps = Steps::<L>::new(blank);
    let Ok(walked) = mesh(alloc, levels.0, &mut steps) else {
        return Some(99);
    };
    match mesh(alloc, levels.1, &mut steps) {
        Ok(priced) => wrong_row(alloc, &walked, &priced, rows),
        Err(_) => Some(99),
    }
}

#[test]
fn plans_ways(rt: HostRuntime) {
    let found = wrong::<Brand>(rt.alloc(), (open(), open()), &OPEN, Blank::new(1));
    all_hold(&rt, "ways in the open", found);
    let found = wrong::<Brand>(rt.alloc(), (water(), water()), &WATER, Blank::new(1));
    all_hold(&rt, "ways round water", found);
    let found = wrong::<Brand>(rt.alloc(), (water(), dear_water()), &DEAR, Blank::new(1));
    all_hold(&rt, "ways at other costs", found);
}
