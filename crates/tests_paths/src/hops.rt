//! Hop walks in the mesh of a few cells: over links, over a jump to the cell that stands apart, and round circles that cost nothing.

ghost use Rattle.std.specs.Prelude.{◌≡◌, IsTrue, All};
ghost use Rattle.mesh_types.specs.Soundness.{IsSound};
ghost use Rattle.off_links.specs.OffMeshLinks.{HasJumpCoordinates};
ghost use Rattle.off_links.specs.Questions.{CanHop};

use crate::chains::has_coordinates;
use crate::questions::{SETTING, mesh};
use crate::rows::all_hold;
use mesh_types::Mesh;
use nav_base::Point;
use nav_lists::Items;
use off_links::{HopAnswer, HopQuestion, Jump, hop};
use std::alloc::{AllocError, Global};

/// A jump between two points at the height of the one floor.
macro_rules! jump {
    ($x:expr, $z:expr, $to_x:expr, $to_z:expr, $cost:expr) => {
        Jump {
            from: Point { x: $x, z: $z },
            from_y: 10,
            to: Point { x: $to_x, z: $to_z },
            to_y: 10,
            cost: $cost,
        }
    };
}

/// To the cell that stands apart.
static ACROSS: [Jump; 1] = [jump!(8, 8, 8, 56, 7)];

static COSTLY: [Jump; 1] = [jump!(8, 8, 8, 56, 4294967295)];

/// From a polygon to itself, and there and back, at no cost.
static ROUND: [Jump; 3] = [
    jump!(8, 8, 8, 8, 0),
    jump!(8, 8, 40, 24, 0),
    jump!(40, 24, 8, 8, 0),
];

/// As many as a question may have.
static MANY: [Jump; 256] = [jump!(8, 8, 8, 56, 7); 256];

/// No polygon holds its first point.
static UNJOINED: [Jump; 1] = [jump!(999, 8, 8, 56, 1)];

#[derive(Clone, Copy)]
enum Wanted {
    /// The cost, the steps and the turns.
    Found(u64, usize, usize),
    /// The cost alone, where walks of several lengths cost the same.
    Costs(u64),
    NoStart,
    NoGoal,
    NoPath,
}

#[derive(Clone, Copy)]
struct Row {
    from: Point,
    to: Point,
    jumps: &'static [Jump],
    wanted: Wanted,
}

macro_rules! row {
    ($x:expr, $z:expr, $to_x:expr, $to_z:expr, $jumps:expr, $wanted:expr) => {
        Row {
            from: Point { x: $x, z: $z },
            to: Point { x: $to_x, z: $to_z },
            jumps: $jumps,
            wanted: $wanted,
        }
    };
}

/// The link between the two polygons of the first rows costs twice the distance of their middles, (16, 8) and (32, 24), which is 23 rounded up.
const ROWS: [Row; 12] = [
    row!(8, 8, 40, 24, &[], Wanted::Found(46, 1, 0)),
    row!(8, 8, 8, 56, &[], Wanted::NoPath),
    row!(8, 8, 8, 56, &ACROSS, Wanted::Found(7, 1, 0)),
    row!(40, 24, 8, 56, &ACROSS, Wanted::Found(53, 2, 0)),
    row!(8, 56, 8, 8, &ACROSS, Wanted::NoPath),
    row!(8, 8, 8, 56, &COSTLY, Wanted::Found(4294967295, 1, 0)),
    row!(8, 8, 8, 56, &UNJOINED, Wanted::NoPath),
    row!(8, 8, 8, 56, &MANY, Wanted::Found(7, 1, 0)),
    row!(8, 8, 8, 8, &ROUND, Wanted::Costs(0)),
    row!(8, 8, 40, 24, &ROUND, Wanted::Costs(0)),
    row!(999, 8, 999, 8, &ACROSS, Wanted::NoStart),
    row!(8, 8, 999, 8, &ACROSS, Wanted::NoGoal),
];

/// Whether each jump's points have coordinates.
fn have_coordinates(jumps: &[Jump]) -> bool
    ensures { IsTrue result → All HasJumpCoordinates jumps.now }
{
    for jump in jumps {
        if !has_coordinates(jump.from) || !has_coordinates(jump.to) {
            return false;
        }
    }
    true
}

fn can_hop(question: &HopQuestion) -> bool
    ensures { IsTrue result → CanHop question.now }
{
    let jumps = question.jumps.as_slice();
    has_coordinates(question.from)
        && has_coordinates(question.to)
        && jumps.len() <= 256
        && have_coordinates(jumps)
}

fn is_wanted(answer: &HopAnswer, wanted: Wanted) -> bool {
    match wanted {
        Wanted::Found(cost, steps, turns) => match answer {
            HopAnswer::Found(found) => {
                found.cost == cost && found.steps.len() == steps && found.turns.len() == turns
            }
            _ => false,
        },
        Wanted::Costs(cost) => match answer {
            HopAnswer::Found(found) => found.cost == cost,
            _ => false,
        },
        Wanted::NoStart => matches!(answer, HopAnswer::NoStart),
        Wanted::NoGoal => matches!(answer, HopAnswer::NoGoal),
        Wanted::NoPath => matches!(answer, HopAnswer::NoPath),
    }
}

fn question(alloc: Global, row: Row) -> Result<HopQuestion, AllocError> {
    let jumps = Vec::from_slice(alloc, row.jumps)?;
    Ok(HopQuestion {
        from: row.from,
        from_y: 10,
        to: row.to,
        to_y: 10,
        jumps: Items::from_vec(jumps),
    })
}

/// Whether a question is answered as wanted.
fn is_answered(alloc: Global, mesh: &Mesh, question: &HopQuestion, wanted: Wanted) -> bool
    requires sound { IsSound mesh.now }
    requires setting { mesh.now.setting ≡ SETTING }
{
    if !can_hop(question) {
        return false;
    }
    match hop(alloc, mesh, question) {
        Ok(answer) => is_wanted(&answer, wanted),
        Err(_) => false,
    }
}

fn holds(alloc: Global, mesh: &Mesh, row: Row) -> bool
    requires sound { IsSound mesh.now }
    requires setting { mesh.now.setting ≡ SETTING }
{
    match question(alloc, row) {
        Ok(question) => is_answered(alloc, mesh, &question, row.wanted),
        Err(_) => false,
    }
}

fn wrong_row(alloc: Global, mesh: &Mesh, rows: &[Row]) -> Option<usize>
    requires sound { IsSound mesh.now }
    requires setting { mesh.now.setting ≡ SETTING }
{
    for row in 0..rows.len() {
        if !holds(alloc, mesh, rows[row]) {
            return Some(row);
        }
    }
    None
}

/// A row that is wrong; 99 where there is no memory.
fn wrong(alloc: Global) -> Option<usize> {
    match mesh(alloc) {
        Ok(mesh) => wrong_row(alloc, &mesh, &ROWS),
        Err(_) => Some(99),
    }
}

#[test]
fn hops_over_links_and_jumps(rt: HostRuntime) {
    all_hold(&rt, "hop walks", wrong(rt.alloc()));
}
