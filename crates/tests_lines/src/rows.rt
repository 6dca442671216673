//! Shortest lines on small meshes. A sixteenth has 4096 parts; what is wanted was worked out by hand.

ghost use Rattle.std.specs.Prelude.{◌≡◌, ◌<◌, IsTrue};
ghost use Rattle.nav_ground.specs.Limits.{IsSetting};
ghost use Rattle.mesh_types.specs.Soundness.{IsSound};
ghost use Rattle.shortest_line.specs.Lines.{CanAskLine};

use crate::meshes::{Plan, has_coordinates, mesh};
use mesh_types::{Asked, Mesh, Side};
use nav_base::Point;
use shortest_line::{LineFound, LineQuery, ShortestAnswer};
use std::alloc::{AllocError, Global};
use std::marker::Brand;
use std::process::Abort;
use std::sync::ledger::{Blank, Ledger};

/// What a question is to be answered.
#[derive(Clone, Copy, PartialEq)]
enum Wanted {
    /// How many links and turns a line has, and its two numbers.
    Shortest(usize, usize, u64, u64),
    /// How many links it has, the portal at whose right end (48, 80) it turns, and its two numbers.
    Line(usize, u32, u64, u64),
    /// It turns elsewhere.
    Astray,
    NoStart,
    NoGoal,
    NoPath,
    NoMemory,
}

/// From where, to where, how many records of the search at most, whether it is quick, and the answer.
type Row = ((i32, i32), (i32, i32), u32, bool, Wanted);

const MANY: u32 = 1000000;

/// 48 roots of 2 are 67.88 sixteenths, 278045.6 parts.
static FLAT: [Row; 8] = [
    (
        (24, 24),
        (72, 72),
        MANY,
        false,
        Wanted::Shortest(3, 0, 278046, 278045),
    ),
    (
        (24, 24),
        (72, 72),
        0,
        false,
        Wanted::Shortest(3, 0, 278046, 278045),
    ),
    (
        (24, 40),
        (24, 72),
        MANY,
        false,
        Wanted::Shortest(2, 0, 131072, 131072),
    ),
    (
        (24, 40),
        (24, 72),
        MANY,
        true,
        Wanted::Shortest(2, 0, 131072, 131072),
    ),
    (
        (24, 24),
        (64, 24),
        MANY,
        false,
        Wanted::Shortest(0, 0, 163840, 163840),
    ),
    (
        (24, 24),
        (24, 24),
        MANY,
        false,
        Wanted::Shortest(0, 0, 0, 0),
    ),
    ((0, 0), (72, 72), MANY, false, Wanted::NoStart),
    ((24, 24), (96, 72), MANY, false, Wanted::NoGoal),
];

static GAP: [Row; 1] = [((24, 24), (72, 72), MANY, false, Wanted::NoPath)];

/// Round the corner (48, 80): 40 and 50 sixteenths, where the straight distance is 89.1.
static HOLE: [Row; 4] = [
    (
        (24, 48),
        (88, 110),
        MANY,
        false,
        Wanted::Line(4, 2, 368640, 364980),
    ),
    (
        (24, 48),
        (88, 110),
        MANY,
        true,
        Wanted::Line(4, 2, 368640, 364980),
    ),
    (
        (24, 48),
        (88, 110),
        4,
        false,
        Wanted::Line(4, 2, 368640, 364980),
    ),
    ((24, 48), (64, 64), MANY, false, Wanted::NoGoal),
];

/// Round the corner (48, 80): 29 and 61 sixteenths, where the straight distance is 86.2.
static BEND: [Row; 1] = [(
    (28, 59),
    (108, 91),
    MANY,
    false,
    Wanted::Line(2, 1, 368640, 352922),
)];

/// Straight over one border.
static FOUR: [Row; 3] = [
    (
        (24, 24),
        (168, 152),
        MANY,
        false,
        Wanted::Shortest(9, 0, 789158, 789157),
    ),
    (
        (24, 24),
        (168, 70),
        MANY,
        false,
        Wanted::Shortest(4, 0, 619188, 619187),
    ),
    (
        (24, 24),
        (168, 70),
        MANY,
        true,
        Wanted::Shortest(4, 0, 619188, 619187),
    ),
];

/// Straight over three borders.
static LONG: [Row; 2] = [
    (
        (24, 24),
        (360, 70),
        MANY,
        false,
        Wanted::Shortest(6, 0, 1389094, 1389093),
    ),
    (
        (24, 24),
        (360, 70),
        MANY,
        true,
        Wanted::Shortest(6, 0, 1389094, 1389093),
    ),
];

/// A line that turns once.
fn line_told(found: &LineFound) -> Wanted {
    if found.turns.len() != 1 {
        return Wanted::Astray;
    }
    match found.turns.get(0) {
        Some(turn) if turn.at == (Point { x: 48, z: 80 }) && turn.side == Side::R => {
            Wanted::Line(found.links.len(), turn.portal, found.upper, found.lower)
        }
        _ => Wanted::Astray,
    }
}

/// What an answer is, with how many links and turns it has.
fn told(answer: &ShortestAnswer) -> Wanted {
    match answer {
        ShortestAnswer::Shortest(found) => {
            Wanted::Shortest(
                found.links.len(),
                found.turns.len(),
                found.upper,
                found.lower,
            )
        }
        ShortestAnswer::Line(found) => line_told(found),
        ShortestAnswer::NoStart => Wanted::NoStart,
        ShortestAnswer::NoGoal => Wanted::NoGoal,
        ShortestAnswer::NoPath => Wanted::NoPath,
    }
}

/// Asks any question of a mesh.
fn asked_of<Q: Asked>(alloc: Global, mesh: &Mesh, question: &Q) -> Result<Q::Answer, AllocError>
    requires sound { IsSound mesh.now }
    requires setting { IsSetting mesh.now.setting }
    requires question { Q.can_ask question.now }
{
    question.ask(alloc, mesh)
}

fn can_ask(query: &LineQuery) -> bool
    ensures { IsTrue result → CanAskLine query.now }
{
    has_coordinates(query.from) && has_coordinates(query.goal)
}

/// What a question is answered.
fn asked(alloc: Global, mesh: &Mesh, row: Row) -> Wanted
    requires sound { IsSound mesh.now }
    requires setting { IsSetting mesh.now.setting }
{
    let (from, goal, most, quick, _wanted) = row;
    let query = LineQuery {
        from: Point {
            x: from.0,
            z: from.1,
        },
        from_y: 10,
        goal: Point {
            x: goal.0,
            z: goal.1,
        },
        goal_y: 10,
        most,
        quick,
    };
    if !can_ask(&query) {
        return Wanted::NoMemory;
    }
    match asked_of(alloc, mesh, &query) {
        Ok(answer) => told(&answer),
        Err(_) => Wanted::NoMemory,
    }
}

fn wrong_row(alloc: Global, mesh: &Mesh, rows: &[Row]) -> Option<usize>
    requires sound { IsSound mesh.now }
    requires setting { IsSetting mesh.now.setting }
{
    for row in 0..rows.len() {
        if asked(alloc, mesh, rows[row]) != rows[row].4 {
            return Some(row);
        }
    }
    None
}

/// A row that is wrong; 99 where there is no memory.
fn wrong<L: Ledger>(alloc: Global, plan: Plan, rows: &[Row], blank: Blank) -> Option<usize>
    requires name { blank.name ≡ L.name }
    requires parts { blank.parts ≡ L.parts }
    requires some { 0 < blank.parts }
{
    match mesh::<L>(alloc, plan, blank) {
        Some(mesh) => wrong_row(alloc, &mesh, rows),
        None => Some(99),
    }
}

/// Ends the test where a row of a table is wrong, and names the table and the row.
fn all_hold(rt: &impl Abort, table: &str, wrong: Option<usize>) {
    if let Some(row) = wrong {
        panic!(rt; "{table}, row {row}");
    }
}

#[test]
fn finds_lines(rt: HostRuntime) {
    let found = wrong::<Brand>(rt.alloc(), Plan::Flat, &FLAT, Blank::new(1));
    all_hold(&rt, "lines in the open", found);
    let found = wrong::<Brand>(rt.alloc(), Plan::Gap, &GAP, Blank::new(1));
    all_hold(&rt, "lines over a gap", found);
    let found = wrong::<Brand>(rt.alloc(), Plan::Hole, &HOLE, Blank::new(1));
    all_hold(&rt, "lines round a hole", found);
    let found = wrong::<Brand>(rt.alloc(), Plan::Bend, &BEND, Blank::new(1));
    all_hold(&rt, "lines round a bend", found);
    let found = wrong::<Brand>(rt.alloc(), Plan::Four, &FOUR, Blank::new(1));
    all_hold(&rt, "lines over four tiles", found);
    let found = wrong::<Brand>(rt.alloc(), Plan::Long, &LONG, Blank::new(1));
    all_hold(&rt, "lines along four tiles", found);
}
