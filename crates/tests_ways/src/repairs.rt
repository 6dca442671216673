//! Kept paths that are made whole: those of the open rows where the first row is two strips, and those of a row of tiles where a border is shut.

ghost use Rattle.std.specs.Prelude.{◌≡◌, ◌<◌, None, IsTrue};
ghost use Rattle.nav_ground.specs.Limits.{IsSetting};
ghost use Rattle.mesh_types.specs.Soundness.{IsSound};
ghost use Rattle.kept_paths.specs.Repairs.{CanRepair};

use crate::kept::{filter, way};
use crate::meshes::{
    FlatLevel, all_hold, gap, has_coordinates, long, long_shut, mesh, open, pair, pair_moved,
    pair_shut, point, split,
};
use kept_paths::{KeptPath, Repair, RepairAnswer, repair_path};
use mesh_types::Mesh;
use nav_base::Steps;
use std::alloc::{AllocError, Global};
use std::marker::Brand;
use std::sync::ledger::{Blank, Ledger};

/// What the question is to be answered.
#[derive(Clone, Copy, PartialEq)]
enum Wanted {
    /// The cost, how many links are kept, how many are new, and how many there are.
    Repaired(u64, usize, usize, usize),
    Limit(u64),
    NoStart,
    NoGoal,
    NoPath,
    NoMemory,
}

/// How many links are kept, whether the last ones are joined, and how many polygons may be met.
type Bounds = (usize, bool, usize);

/// Between which places the path was planned, where its walker and its goal are now, the bounds, and the answer.
type Row = (
    (i32, i32),
    (i32, i32),
    (i32, i32),
    (i32, i32),
    Bounds,
    Wanted,
);

/// The first row is two strips, and the numbers of all others have risen.
static SPLIT: [Row; 5] = [
    (
        (24, 40),
        (24, 72),
        (24, 40),
        (24, 72),
        (9, false, 0),
        Wanted::Repaired(32, 2, 0, 2),
    ),
    (
        (24, 40),
        (24, 72),
        (24, 40),
        (24, 24),
        (1, false, 99),
        Wanted::Repaired(23, 0, 1, 1),
    ),
    (
        (24, 40),
        (24, 72),
        (24, 40),
        (24, 24),
        (1, true, 99),
        Wanted::Repaired(23, 0, 1, 1),
    ),
    (
        (24, 40),
        (24, 72),
        (24, 24),
        (24, 72),
        (9, true, 99),
        Wanted::NoStart,
    ),
    (
        (24, 40),
        (24, 72),
        (24, 40),
        (200, 24),
        (9, true, 99),
        Wanted::NoGoal,
    ),
];

/// The third row is missing.
static GAP: [Row; 2] = [
    (
        (24, 24),
        (24, 72),
        (24, 24),
        (24, 72),
        (9, true, 99),
        Wanted::NoPath,
    ),
    (
        (24, 24),
        (24, 72),
        (24, 24),
        (24, 40),
        (0, false, 99),
        Wanted::Repaired(16, 0, 1, 1),
    ),
];

/// A middle has moved.
static MOVED: [Row; 2] = [
    (
        (24, 24),
        (168, 72),
        (24, 24),
        (168, 72),
        (9, false, 99),
        Wanted::Repaired(128, 4, 0, 4),
    ),
    (
        (24, 24),
        (168, 72),
        (24, 24),
        (168, 72),
        (0, false, 99),
        Wanted::Repaired(122, 0, 4, 4),
    ),
];

/// The second link is cut, and no link behind it is as it was: from 0/1 the way goes on by 0/3, 1/2 and 1/3.
static SHUT: [Row; 1] = [(
    (24, 24),
    (168, 72),
    (24, 24),
    (168, 72),
    (9, true, 99),
    Wanted::Repaired(119, 1, 3, 4),
)];

/// Of four tiles one border is shut beside the first rows.
static LONG: [Row; 4] = [
    (
        (24, 24),
        (360, 24),
        (24, 24),
        (360, 24),
        (9, true, 99),
        Wanted::Repaired(281, 1, 3, 5),
    ),
    (
        (24, 24),
        (360, 24),
        (24, 24),
        (360, 24),
        (9, true, 2),
        Wanted::Limit(129),
    ),
    (
        (24, 24),
        (360, 24),
        (24, 24),
        (360, 24),
        (0, true, 99),
        Wanted::Repaired(281, 0, 4, 5),
    ),
    (
        (24, 24),
        (360, 24),
        (24, 24),
        (360, 24),
        (9, false, 99),
        Wanted::Repaired(281, 1, 4, 5),
    ),
];

fn can_repair(repair: &Repair) -> bool
    requires { repair.now.path.filter.costs ≡ None }
    ensures { IsTrue result → CanRepair repair.now }
{
    has_coordinates(repair.path.from)
        && has_coordinates(repair.path.goal)
        && repair.path.links.len() < 4286967295
}

fn told(answer: &RepairAnswer) -> Wanted {
    match answer {
        RepairAnswer::Repaired {
            cost,
            links,
            kept,
            bridge,
            ..
        } => Wanted::Repaired(*cost, *kept, *bridge, links.len()),
        RepairAnswer::Limit { seen } => Wanted::Limit(*seen),
        RepairAnswer::NoStart => Wanted::NoStart,
        RepairAnswer::NoGoal => Wanted::NoGoal,
        RepairAnswer::NoPath => Wanted::NoPath,
    }
}

/// What is answered of a way that was planned in another mesh.
fn answered(alloc: Global, old: &Mesh, mesh: &Mesh, row: Row) -> Result<Wanted, AllocError>
    requires old { IsSound old.now }
    requires old_setting { IsSetting old.now.setting }
    requires sound { IsSound mesh.now }
    requires setting { IsSetting mesh.now.setting }
{
    let (start, end, from, goal, bounds, _wanted) = row;
    let Some(way) = way(alloc, old, start, end)? else {
        return Ok(Wanted::NoMemory);
    };
    let path = KeptPath {
        from: point(from),
        from_y: 10,
        goal: point(goal),
        goal_y: 10,
        filter: filter(),
        first: way.first,
        links: way.links,
    };
    let repair = Repair {
        path,
        keep: bounds.0,
        join: bounds.1,
        most_polygons: bounds.2,
    };
    if !can_repair(&repair) {
        return Ok(Wanted::NoMemory);
    }
    let answer = repair_path(alloc, mesh, &repair)?;
    Ok(told(&answer))
}

fn wrong_row(alloc: Global, old: &Mesh, mesh: &Mesh, rows: &[Row]) -> Option<usize>
    requires old { IsSound old.now }
    requires old_setting { IsSetting old.now.setting }
    requires sound { IsSound mesh.now }
    requires setting { IsSetting mesh.now.setting }
{
    for row in 0..rows.len() {
        match answered(alloc, old, mesh, rows[row]) {
            Ok(told) => {
                if told != rows[row].5 {
                    return Some(row);
                }
            }
            Err(_) => return Some(99),
        }
    }
    None
}

/// A row that is wrong, of paths that were planned in one level and are made whole in another; 99 where there is no memory.
fn wrong<L: Ledger>(
    alloc: Global,
    levels: (FlatLevel, FlatLevel),
    rows: &[Row],
    blank: Blank,
) -> Option<usize>
    requires name { blank.name ≡ L.name }
    requires parts { blank.parts ≡ L.parts }
    requires some { 0 < blank.parts }
{
    let mut steps = Steps::<L>::new(blank);
    let Ok(old) = mesh(alloc, levels.0, &mut steps) else {
        return Some(99);
    };
    match mesh(alloc, levels.1, &mut steps) {
        Ok(new) => wrong_row(alloc, &old, &new, rows),
        Err(_) => Some(99),
    }
}

#[test]
fn repairs_paths(rt: HostRuntime) {
    let found = wrong::<Brand>(rt.alloc(), (open(), split()), &SPLIT, Blank::new(1));
    all_hold(&rt, "repairs where numbers rise", found);
    let found = wrong::<Brand>(rt.alloc(), (open(), gap()), &GAP, Blank::new(1));
    all_hold(&rt, "repairs at a gap", found);
    let found = wrong::<Brand>(rt.alloc(), (pair(), pair_moved()), &MOVED, Blank::new(1));
    all_hold(&rt, "repairs where a middle moved", found);
    let found = wrong::<Brand>(rt.alloc(), (pair(), pair_shut()), &SHUT, Blank::new(1));
    all_hold(&rt, "repairs of a row that is cut", found);
    let found = wrong::<Brand>(rt.alloc(), (long(), long_shut()), &LONG, Blank::new(1));
    all_hold(&rt, "repairs round a shut border", found);
}
