//! Answers in the mesh of a few cells by hand.

ghost use Rattle.std.specs.Prelude.{◌≡◌, IfOk, IsTrue};
ghost use Rattle.nav_ground.specs.Limits.{IsSetting};
ghost use Rattle.mesh_types.specs.FitTiles.{IsFit};
ghost use Rattle.mesh_types.specs.Soundness.{IsSound};
ghost use Rattle.nav_query.specs.Questions.{IsAnswerable};

use crate::chains::has_coordinates;
use crate::rows::all_hold;
use mesh_types::{Answer, Corner, Mesh, PathFound, PolyRef, RayAnswer, Side, TileMesh};
use nav_base::{FloorAt, Point, Question};
use nav_ground::{AREAS, Agent, Cell, CellRef, FreeLayer, MeshKind, Setting};
use nav_query::answer;
use std::alloc::{AllocError, Global};
use strip_mesh::strip_mesh;
use tests_mesh::stored::stored;
use tile_links::whole;

/// A cell of the level of its column with the neighbours that it has.
macro_rules! cell {
    ($x:expr, $z:expr, $next:expr) => {
        Cell {
            at: CellRef {
                x: $x,
                z: $z,
                level: 0,
            },
            floor: 10,
            ceiling: 65535,
            area: 1,
            next: $next,
        }
    };
}

/// Two cells in the first row, the second of which is connected to the first of two in the second row, and one apart in the last row.
static CELLS: [Cell; 5] = [
    cell!(0, 0, [None, None, Some(0), None]),
    cell!(1, 0, [Some(0), Some(0), None, None]),
    cell!(1, 1, [None, None, Some(0), Some(0)]),
    cell!(2, 1, [Some(0), None, None, None]),
    cell!(0, 3, [None, None, None, None]),
];

pub(crate) const SETTING: Setting = Setting {
    width: 3,
    depth: 4,
    tile: 4,
    agent: Agent {
        height: 10,
        climb: 4,
        radius: 0,
    },
    error: 169,
    mesh: MeshKind::Strips,
    limit: 4,
    costs: [2; AREAS],
    clear: false,
};

fn tile(alloc: Global) -> Result<TileMesh, AllocError>
    ensures { IfOk result (IsFit SETTING) }
{
    let cells = CELLS;
    let free = FreeLayer {
        tile: 0,
        cells: stored(alloc, &cells)?,
    };
    strip_mesh(alloc, &free, &SETTING)
}

pub(crate) fn mesh(alloc: Global) -> Result<Mesh, AllocError>
    ensures sound { IfOk result IsSound }
    ensures setting { IfOk result (λ mesh. mesh.setting ≡ SETTING) }
{
    let tile = tile(alloc)?;
    if tile.polys.len() > 8000000 {
        return Err(AllocError);
    }
    let tiles = Vec::from_array(alloc, [tile])?;
    whole(alloc, &SETTING, tiles)
}

/// A question for the floors of a column.
macro_rules! floor {
    ($x:expr, $z:expr) => {
        Question::Floor { x: $x, z: $z }
    };
}

/// A question for a path between two points, each at the height of the floors.
macro_rules! path {
    ($x:expr, $z:expr, $to_x:expr, $to_z:expr) => {
        Question::Path {
            from: Point { x: $x, z: $z },
            from_y: 10,
            to: Point { x: $to_x, z: $to_z },
            to_y: 10,
        }
    };
}

/// A question for a straight walk from one point, at the height of the floors, toward another.
macro_rules! ray {
    ($x:expr, $z:expr, $to_x:expr, $to_z:expr) => {
        Question::Ray {
            from: Point { x: $x, z: $z },
            from_y: 10,
            to: Point { x: $to_x, z: $to_z },
        }
    };
}

/// What a question is to be answered.
#[derive(Clone, Copy)]
enum Wanted {
    Floors(&'static [FloorAt]),
    NoStart,
    NoGoal,
    NoPath,
    /// What a path costs, how many links it has, and where it turns; it begins in the first polygon.
    Path(u64, usize, Corner),
    HopEnds(RayAnswer),
}

/// A walk that ends in a polygon.
macro_rules! reached {
    ($index:expr) => {
        Wanted::HopEnds(RayAnswer::Reached(PolyRef {
            tile: 0,
            index: $index,
        }))
    };
}

static ROWS: [(Question, Wanted); 14] = [
    (floor!(1, 1), Wanted::Floors(&[FloorAt { y: 10, area: 1 }])),
    (floor!(0, 1), Wanted::Floors(&[])),
    (floor!(9, 9), Wanted::Floors(&[])),
    (path!(40, 8, 8, 8), Wanted::NoStart),
    (path!(40, 8, 40, 8), Wanted::NoStart),
    (path!(8, 8, 40, 8), Wanted::NoGoal),
    (path!(8, 8, 8, 56), Wanted::NoPath),
    (
        path!(0, 0, 48, 17),
        Wanted::Path(
            46,
            1,
            Corner {
                at: Point { x: 32, z: 16 },
                side: Side::R,
                portal: 0,
            },
        ),
    ),
    (ray!(8, 8, 8, 8), reached!(0)),
    (ray!(8, 8, 32, 16), reached!(0)),
    // Through the corner that the two polygons share.
    (ray!(24, 8, 40, 24), reached!(1)),
    // Over the part of an edge behind which there is a polygon, and over the part behind which there is none.
    (
        ray!(24, 8, 24, 40),
        Wanted::HopEnds(RayAnswer::Wall {
            a: Point { x: 48, z: 32 },
            b: Point { x: 16, z: 32 },
            num: 768,
            den: 1024,
        }),
    ),
    (
        ray!(8, 8, 8, 40),
        Wanted::HopEnds(RayAnswer::Wall {
            a: Point { x: 32, z: 16 },
            b: Point { x: 0, z: 16 },
            num: 256,
            den: 1024,
        }),
    ),
    (ray!(40, 8, 8, 8), Wanted::NoStart),
];

/// Whether the points of a question have coordinates.
fn is_answerable(question: Question) -> bool
    ensures { IsTrue result → IsAnswerable question }
{
    match question {
        Question::Floor { .. } => true,
        Question::Path { from, to, .. } => has_coordinates(from) && has_coordinates(to),
        Question::Ray { from, to, .. } => has_coordinates(from) && has_coordinates(to),
    }
}

fn is_path(found: &PathFound, cost: u64, links: usize, turn: Corner) -> bool {
    found.first == PolyRef { tile: 0, index: 0 }
        && found.cost == cost
        && found.links.len() == links
        && found.turns.as_slice() == [turn].as_slice()
}

/// How a walk ended; none where it did not begin.
fn end_of(answer: &Answer) -> Option<RayAnswer> {
    match answer {
        Answer::Reached(at) => Some(RayAnswer::Reached(*at)),
        Answer::Wall { a, b, num, den } => Some(RayAnswer::Wall {
            a: *a,
            b: *b,
            num: *num,
            den: *den,
        }),
        _ => None,
    }
}

fn is_wanted(answer: &Answer, wanted: Wanted) -> bool {
    match wanted {
        Wanted::Floors(wanted) => match answer {
            Answer::Floors(floors) => floors.as_slice() == wanted,
            _ => false,
        },
        Wanted::NoStart => matches!(answer, Answer::NoStart),
        Wanted::NoGoal => matches!(answer, Answer::NoGoal),
        Wanted::NoPath => matches!(answer, Answer::NoPath),
        Wanted::Path(cost, links, turn) => match answer {
            Answer::Path(found) => is_path(found, cost, links, turn),
            _ => false,
        },
        Wanted::HopEnds(end) => end_of(answer) == Some(end),
    }
}

/// Whether a question is answered as wanted.
fn is_answered(alloc: Global, mesh: &Mesh, question: Question, wanted: Wanted) -> bool
    requires sound { IsSound mesh.now }
    requires setting { mesh.now.setting ≡ SETTING }
{
    if !is_answerable(question) {
        return false;
    }
    match answer(alloc, mesh, &question) {
        Ok(answer) => is_wanted(&answer, wanted),
        Err(_) => false,
    }
}

fn wrong_row(alloc: Global, mesh: &Mesh, rows: &[(Question, Wanted)]) -> Option<usize>
    requires sound { IsSound mesh.now }
    requires setting { mesh.now.setting ≡ SETTING }
{
    for row in 0..rows.len() {
        let (question, wanted) = rows[row];
        if !is_answered(alloc, mesh, question, wanted) {
            return Some(row);
        }
    }
    None
}

/// A row that is wrong; 99 where there is no memory.
fn wrong(alloc: Global) -> Option<usize> {
    match mesh(alloc) {
        Ok(mesh) => wrong_row(alloc, &mesh, &ROWS),
        Err(_) => Some(99),
    }
}

#[test]
fn answers_questions(rt: HostRuntime) {
    all_hold(&rt, "questions", wrong(rt.alloc()));
}
