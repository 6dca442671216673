//! Ways to the nearest place where none leads to the goal. The middles of neighbouring rows are 16 apart.

ghost use Rattle.std.specs.Prelude.{◌≡◌, ◌<◌};
ghost use Rattle.nav_ground.specs.Limits.{IsSetting};
ghost use Rattle.mesh_types.specs.Soundness.{IsSound};

use crate::meshes::{FlatLevel, all_hold, hole, mesh, open, point, water};
use crate::plans::{DRY, can_plan};
use mesh_types::Mesh;
use nav_base::Steps;
use path_queries::{Filter, PathQuery, PlanAnswer, plan};
use std::alloc::Global;
use std::marker::Brand;
use std::sync::ledger::{Blank, Ledger};

/// What a question is to be answered: in which polygon the way ends, at which point, and what it costs; of a partial way also how far was seen.
#[derive(Clone, Copy, PartialEq)]
enum Wanted {
    Whole(u32, (i32, i32), u64),
    Nearest(u32, (i32, i32), u64, u64),
    Other,
}

/// From where, to where and to which height, which areas are open, the limit of polygons, and how many sixteenths a unit of height counts.
type Row = ((i32, i32), (i32, i32), u32, u64, usize, u32, Wanted);

const ALL: usize = usize::MAX;

const SEEN: u64 = u64::MAX;

static OPEN: [Row; 7] = [
    (
        (24, 24),
        (72, 72),
        10,
        SEEN,
        ALL,
        16,
        Wanted::Whole(3, (72, 72), 48),
    ),
    (
        (24, 24),
        (72, 72),
        10,
        SEEN,
        2,
        16,
        Wanted::Nearest(1, (72, 48), 16, 48),
    ),
    (
        (24, 24),
        (72, 72),
        10,
        SEEN,
        0,
        16,
        Wanted::Nearest(0, (72, 32), 0, 48),
    ),
    (
        (24, 24),
        (72, 200),
        10,
        SEEN,
        ALL,
        16,
        Wanted::Nearest(3, (72, 80), 48, SEEN),
    ),
    (
        (24, 24),
        (72, 72),
        40,
        SEEN,
        ALL,
        0,
        Wanted::Nearest(3, (72, 72), 48, SEEN),
    ),
    (
        (24, 24),
        (72, 72),
        40,
        SEEN,
        ALL,
        1024,
        Wanted::Nearest(3, (72, 72), 48, SEEN),
    ),
    ((0, 0), (72, 72), 10, SEEN, ALL, 16, Wanted::Other),
];

/// The water cannot be entered: the rows before it are all that is reached.
static WATER: [Row; 2] = [
    (
        (24, 24),
        (72, 72),
        10,
        DRY,
        ALL,
        16,
        Wanted::Nearest(1, (72, 48), 16, SEEN),
    ),
    (
        (24, 24),
        (72, 56),
        10,
        DRY,
        ALL,
        16,
        Wanted::Nearest(1, (72, 48), 16, SEEN),
    ),
];

/// In the middle of a hole six polygons are equally near, and the cheapest way decides.
static HOLE: [Row; 2] = [
    (
        (24, 24),
        (64, 64),
        10,
        SEEN,
        ALL,
        16,
        Wanted::Nearest(1, (64, 48), 16, SEEN),
    ),
    (
        (24, 104),
        (64, 64),
        10,
        SEEN,
        ALL,
        16,
        Wanted::Nearest(6, (64, 80), 16, SEEN),
    ),
];

fn told(answer: &PlanAnswer) -> Wanted {
    match answer {
        PlanAnswer::Whole { way, end } => {
            Wanted::Whole(end.polygon.index, (end.point.x, end.point.z), way.cost)
        }
        PlanAnswer::Nearest { way, end, seen } => {
            Wanted::Nearest(
                end.polygon.index,
                (end.point.x, end.point.z),
                way.cost,
                *seen,
            )
        }
        _ => Wanted::Other,
    }
}

fn asked(alloc: Global, mesh: &Mesh, row: Row) -> Option<Wanted>
    requires sound { IsSound mesh.now }
    requires setting { IsSetting mesh.now.setting }
{
    let (from, goal, goal_y, areas, most_polygons, rise, _wanted) = row;
    let query = PathQuery {
        from: point(from),
        from_y: 10,
        goal: point(goal),
        goal_y,
        filter: Filter { areas, costs: None },
        most_cost: u64::MAX,
        most_polygons,
        partial: Some(rise),
    };
    if !can_plan(&query) {
        return None;
    }
    match plan(alloc, mesh, &query) {
        Ok(answer) => Some(told(&answer)),
        Err(_) => None,
    }
}

/// A row that is wrong; 99 where there is no memory.
fn wrong<L: Ledger>(alloc: Global, level: FlatLevel, rows: &[Row], blank: Blank) -> Option<usize>
    requires name { blank.name ≡ L.name }
    requires parts { blank.parts ≡ L.parts }
    requires some { 0 < blank.parts }
{
    let mut steps = Steps::<L>::new(blank);
    let Ok(walked) = mesh(alloc, level, &mut steps) else {
        return Some(99);
    };
    for row in 0..rows.len() {
        if asked(alloc, &walked, rows[row]) != Some(rows[row].6) {
            return Some(row);
        }
    }
    None
}

#[test]
fn comes_near(rt: HostRuntime) {
    let found = wrong::<Brand>(rt.alloc(), open(), &OPEN, Blank::new(1));
    all_hold(&rt, "partial ways in the open", found);
    let found = wrong::<Brand>(rt.alloc(), water(), &WATER, Blank::new(1));
    all_hold(&rt, "partial ways before water", found);
    let found = wrong::<Brand>(rt.alloc(), hole(), &HOLE, Blank::new(1));
    all_hold(&rt, "partial ways round a hole", found);
}
