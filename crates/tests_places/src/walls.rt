//! Nearest walls and walls around places on small meshes. What is wanted was worked out by hand.

ghost use Rattle.std.specs.Prelude.{◌≡◌, ◌<◌};
ghost use Rattle.mesh_types.specs.Soundness.{IsSound};

use crate::fields::Sketch;
use crate::meshes::{has_coordinates, mesh};
use crate::rows::all_hold;
use mesh_place::MeshPlace;
use mesh_types::{Mesh, PolyRef};
use nav_base::{Deviation, Point};
use std::alloc::Global;
use std::marker::Brand;
use std::sync::ledger::{Blank, Ledger};
use wall_query::{
    Wall, WallAnswer, WallQuery, WallsAnswer, WallsQuery, nearest_wall, walls_around,
};

/// A place: the index of its polygon, its point, and its floor.
type Spot = (u32, i32, i32, u32);

/// A wall: the index of its polygon, its edge, where it begins and ends, and the square of how far it is, as a fraction.
type Part = (u32, u32, i32, i32, i32, i32, u64, u64);

/// What is told.
#[derive(Clone, Copy, PartialEq)]
enum Told {
    Nearest(Part),
    NoWall,
    NoStart,
    NoMemory,
}

/// From where, the reach, which areas are open, and what is told.
type Row = (Spot, u32, u64, Told);

/// All areas.
const ALL: u64 = u64::MAX;

static FLAT: [Row; 10] = [
    ((0, 40, 24, 10), 7, ALL, Told::NoWall),
    // The lower edge of the lowest row, 8 away.
    (
        (0, 40, 24, 10),
        8,
        ALL,
        Told::Nearest((0, 0, 16, 16, 80, 16, 262144, 4096)),
    ),
    (
        (0, 40, 24, 10),
        262143,
        ALL,
        Told::Nearest((0, 0, 16, 16, 80, 16, 262144, 4096)),
    ),
    // On the wall.
    (
        (1, 16, 40, 10),
        0,
        ALL,
        Told::Nearest((1, 3, 16, 48, 16, 32, 0, 256)),
    ),
    // The wall of another polygon, 17 away.
    ((1, 40, 33, 10), 16, ALL, Told::NoWall),
    (
        (1, 40, 33, 10),
        17,
        ALL,
        Told::Nearest((0, 0, 16, 16, 80, 16, 1183744, 4096)),
    ),
    // No area is open, or another one: the edge to the next row is a wall, 4 away.
    (
        (0, 40, 28, 10),
        100,
        0,
        Told::Nearest((0, 2, 80, 32, 16, 32, 65536, 4096)),
    ),
    (
        (0, 40, 28, 10),
        100,
        4,
        Told::Nearest((0, 2, 80, 32, 16, 32, 65536, 4096)),
    ),
    // A floor that is not there, and a polygon that does not hold the point.
    ((0, 40, 24, 11), 100, ALL, Told::NoStart),
    ((1, 40, 24, 10), 100, ALL, Told::NoStart),
];

/// Below the end of the wall: the part of an edge between two portals, 3 away.
static WALL: [Row; 1] = [(
    (14, 90, 131, 10),
    100,
    ALL,
    Told::Nearest((14, 0, 80, 128, 96, 128, 2304, 256)),
)];

/// The walls no farther than 40 from a place beside the wall: the ends of five rows.
static BESIDE: [Part; 5] = [
    (2, 1, 80, 32, 80, 48, 832, 1),
    (4, 1, 80, 48, 80, 64, 320, 1),
    (6, 1, 80, 64, 80, 80, 65536, 256),
    (8, 1, 80, 80, 80, 96, 320, 1),
    (10, 1, 80, 96, 80, 112, 832, 1),
];

/// The walls of a row without neighbours: its four edges.
static ROUND: [Part; 4] = [
    (1, 0, 16, 32, 80, 32, 262144, 4096),
    (1, 1, 80, 32, 80, 48, 409600, 256),
    (1, 2, 80, 48, 16, 48, 262144, 4096),
    (1, 3, 16, 48, 16, 32, 147456, 256),
];

fn place_of(spot: Spot) -> MeshPlace {
    let (index, x, z, y) = spot;
    MeshPlace {
        polygon: PolyRef { tile: 0, index },
        point: Point { x, z },
        y,
    }
}

fn wall_of(part: Part) -> Wall {
    let (index, edge, x, z, x_end, z_end, num, den) = part;
    Wall {
        polygon: PolyRef { tile: 0, index },
        edge,
        begin: Point { x, z },
        end: Point { x: x_end, z: z_end },
        far: Deviation { num, den },
    }
}

/// Whether the answer is what is wanted.
fn is_told(answer: WallAnswer, told: Told) -> bool {
    match told {
        Told::Nearest(part) => answer == WallAnswer::Nearest(wall_of(part)),
        Told::NoWall => answer == WallAnswer::NoWall,
        Told::NoStart => answer == WallAnswer::NoStart,
        Told::NoMemory => false,
    }
}

fn is_right(alloc: Global, mesh: &Mesh, row: Row) -> bool
    requires sound { IsSound mesh.now }
{
    let (from, reach, areas, told) = row;
    let from = place_of(from);
    if !has_coordinates(from.point) || reach >= 262144 {
        return false;
    }
    match nearest_wall(alloc, mesh, &WallQuery { from, reach, areas }) {
        Ok(answer) => is_told(answer, told),
        Err(_) => told == Told::NoMemory,
    }
}

fn wrong_row(alloc: Global, mesh: &Mesh, rows: &[Row]) -> Option<usize>
    requires sound { IsSound mesh.now }
{
    for row in 0..rows.len() {
        if !is_right(alloc, mesh, rows[row]) {
            return Some(row);
        }
    }
    None
}

/// A row that is wrong; 99 where there is no mesh.
fn wrong<L: Ledger>(alloc: Global, sketch: Sketch, rows: &[Row], blank: Blank) -> Option<usize>
    requires name { blank.name ≡ L.name }
    requires parts { blank.parts ≡ L.parts }
    requires some { 0 < blank.parts }
{
    let Some(mesh) = mesh::<L>(alloc, sketch, blank) else {
        return Some(99);
    };
    wrong_row(alloc, &mesh, rows)
}

#[test]
fn finds_nearest_walls(rt: HostRuntime) {
    let row = wrong::<Brand>(rt.alloc(), Sketch::Flat, &FLAT, Blank::new(1));
    all_hold(&rt, "flat", row);
    let row = wrong::<Brand>(rt.alloc(), Sketch::Wall, &WALL, Blank::new(1));
    all_hold(&rt, "wall", row);
}

/// A wall that is another one than is wanted, or none.
fn wrong_wall(walls: &[Wall], wanted: &[Part]) -> Option<usize> {
    if walls.len() != wanted.len() {
        return Some(walls.len());
    }
    for place in 0..wanted.len() {
        if walls[place] != wall_of(wanted[place]) {
            return Some(place);
        }
    }
    None
}

/// The walls around a place within a reach that are wrong; 98 where there are none, 99 where there is no mesh.
fn wrong_walls<L: Ledger>(
    alloc: Global,
    sketch: Sketch,
    asked: (Spot, u32, u64),
    wanted: &[Part],
    blank: Blank,
) -> Option<usize>
    requires name { blank.name ≡ L.name }
    requires parts { blank.parts ≡ L.parts }
    requires some { 0 < blank.parts }
{
    let Some(mesh) = mesh::<L>(alloc, sketch, blank) else {
        return Some(99);
    };
    let (from, reach, areas) = asked;
    let from = place_of(from);
    if !has_coordinates(from.point) || reach >= 262144 {
        return Some(97);
    }
    match walls_around(alloc, &mesh, &WallsQuery { from, reach, areas }) {
        Ok(WallsAnswer::Walls(walls)) => wrong_wall(walls.as_slice(), wanted),
        _ => Some(98),
    }
}

#[test]
fn finds_walls_around(rt: HostRuntime) {
    let asked = ((6, 64, 72, 10), 40, ALL);
    let wall = wrong_walls::<Brand>(rt.alloc(), Sketch::Wall, asked, &BESIDE, Blank::new(1));
    all_hold(&rt, "beside the wall", wall);
    let asked = ((1, 40, 40, 10), 40, 0);
    let wall = wrong_walls::<Brand>(rt.alloc(), Sketch::Flat, asked, &ROUND, Blank::new(1));
    all_hold(&rt, "round a row", wall);
}
