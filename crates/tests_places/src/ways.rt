//! Ways between places on small meshes, and their corners. What is wanted was worked out by hand. The middles of neighbouring rows are 16 apart.

ghost use Rattle.std.specs.Prelude.{◌≡◌, ◌<◌};
ghost use Rattle.nav_ground.specs.Limits.{IsSetting};
ghost use Rattle.mesh_types.specs.Soundness.{IsSound};

use crate::fields::Sketch;
use crate::meshes::{has_coordinates, mesh};
use crate::rows::all_hold;
use mesh_place::MeshPlace;
use mesh_types::{Mesh, PolyRef};
use nav_base::Point;
use path_queries::Filter;
use place_ways::{PlaceWayAnswer, PlaceWayQuery, way_between};
use std::alloc::Global;
use std::marker::Brand;
use std::sync::ledger::{Blank, Ledger};

/// A place: the index of its polygon, its point, and its floor.
type Spot = (u32, i32, i32, u32);

/// What is told.
#[derive(Clone, Copy, PartialEq)]
enum Told {
    /// What the way costs, how many links it has, and how many corners.
    Way(u64, usize, usize),
    Limit(u64),
    NoStart,
    NoGoal,
    NoPath,
    NoMemory,
}

/// From where, to where, which areas are open, the limits of cost and of polygons, and what is told.
type Row = (Spot, Spot, u64, u64, usize, Told);

/// All areas; no limit of cost.
const ALL: u64 = u64::MAX;

const ANY: usize = usize::MAX;

static FLAT: [Row; 9] = [
    (
        (0, 24, 24, 10),
        (3, 72, 72, 10),
        ALL,
        ALL,
        ANY,
        Told::Way(48, 3, 2),
    ),
    (
        (0, 24, 24, 10),
        (0, 72, 24, 10),
        0,
        0,
        ANY,
        Told::Way(0, 0, 2),
    ),
    ((0, 24, 24, 10), (3, 72, 72, 10), 0, ALL, ANY, Told::NoPath),
    (
        (0, 24, 24, 10),
        (3, 72, 72, 10),
        ALL,
        47,
        ANY,
        Told::Limit(48),
    ),
    (
        (0, 24, 24, 10),
        (3, 72, 72, 10),
        ALL,
        ALL,
        2,
        Told::Limit(48),
    ),
    // A floor that is not there, and a polygon that does not hold the point.
    (
        (0, 24, 24, 11),
        (3, 72, 72, 10),
        ALL,
        ALL,
        ANY,
        Told::NoStart,
    ),
    (
        (1, 24, 24, 10),
        (3, 72, 72, 10),
        ALL,
        ALL,
        ANY,
        Told::NoStart,
    ),
    ((0, 24, 24, 10), (3, 72, 72, 9), ALL, ALL, ANY, Told::NoGoal),
    // The start is looked at first.
    (
        (0, 24, 24, 11),
        (3, 72, 72, 9),
        ALL,
        ALL,
        ANY,
        Told::NoStart,
    ),
];

static DECK: [Row; 3] = [
    (
        (1, 96, 96, 32),
        (0, 96, 96, 10),
        ALL,
        ALL,
        ANY,
        Told::NoPath,
    ),
    (
        (1, 96, 96, 10),
        (0, 96, 96, 10),
        ALL,
        ALL,
        ANY,
        Told::NoStart,
    ),
    (
        (1, 96, 96, 32),
        (1, 80, 112, 32),
        ALL,
        ALL,
        ANY,
        Told::Way(0, 0, 2),
    ),
];

/// Round the end of the wall: the rows down the one side, the row below the wall, and the rows up the other side.
static WALL: [Row; 1] = [(
    (0, 24, 24, 10),
    (1, 120, 24, 10),
    ALL,
    ALL,
    ANY,
    Told::Way(280, 14, 4),
)];

/// The corners of that way. Each turn lies in the polygon that is entered there.
static ROUND: [Spot; 4] = [
    (0, 24, 24, 10),
    (14, 80, 128, 10),
    (13, 96, 128, 10),
    (1, 120, 24, 10),
];

fn place_of(spot: Spot) -> MeshPlace {
    let (index, x, z, y) = spot;
    MeshPlace {
        polygon: PolyRef { tile: 0, index },
        point: Point { x, z },
        y,
    }
}

/// What the question is answered, if it may be asked and there is memory.
fn answer_of(alloc: Global, mesh: &Mesh, row: Row) -> Option<PlaceWayAnswer>
    requires sound { IsSound mesh.now }
    requires setting { IsSetting mesh.now.setting }
{
    let (from, goal, areas, most_cost, most_polygons, _told) = row;
    let (from, goal) = (place_of(from), place_of(goal));
    if !has_coordinates(from.point) || !has_coordinates(goal.point) {
        return None;
    }
    let query = PlaceWayQuery {
        from,
        goal,
        filter: Filter { areas, costs: None },
        most_cost,
        most_polygons,
    };
    way_between(alloc, mesh, &query).ok()
}

fn told_by(answer: &PlaceWayAnswer) -> Told {
    match answer {
        PlaceWayAnswer::Way { way, corners } => {
            Told::Way(way.cost, way.links.len(), corners.len())
        }
        PlaceWayAnswer::Limit { seen } => Told::Limit(*seen),
        PlaceWayAnswer::NoStart => Told::NoStart,
        PlaceWayAnswer::NoGoal => Told::NoGoal,
        PlaceWayAnswer::NoPath => Told::NoPath,
    }
}

fn wrong_row(alloc: Global, mesh: &Mesh, rows: &[Row]) -> Option<usize>
    requires sound { IsSound mesh.now }
    requires setting { IsSetting mesh.now.setting }
{
    for row in 0..rows.len() {
        let found = match answer_of(alloc, mesh, rows[row]) {
            Some(answer) => told_by(&answer),
            None => Told::NoMemory,
        };
        if found != rows[row].5 {
            return Some(row);
        }
    }
    None
}

/// A corner that is another one than is wanted, or none.
fn wrong_place(corners: &[MeshPlace], wanted: &[Spot]) -> Option<usize> {
    if corners.len() != wanted.len() {
        return Some(corners.len());
    }
    for place in 0..wanted.len() {
        if corners[place] != place_of(wanted[place]) {
            return Some(place);
        }
    }
    None
}

/// A corner of the first row's way that is wrong, where corners are wanted; 98 where there is no way.
fn wrong_corner(alloc: Global, mesh: &Mesh, rows: &[Row], wanted: &[Spot]) -> Option<usize>
    requires sound { IsSound mesh.now }
    requires setting { IsSetting mesh.now.setting }
{
    if wanted.is_empty() || rows.is_empty() {
        return None;
    }
    match answer_of(alloc, mesh, rows[0]) {
        Some(PlaceWayAnswer::Way { corners, .. }) => wrong_place(corners.as_slice(), wanted),
        _ => Some(98),
    }
}

/// A row or a corner that is wrong; 99 where there is no mesh.
fn wrong<L: Ledger>(
    alloc: Global,
    sketch: Sketch,
    rows: &[Row],
    corners: &[Spot],
    blank: Blank,
) -> Option<usize>
    requires name { blank.name ≡ L.name }
    requires parts { blank.parts ≡ L.parts }
    requires some { 0 < blank.parts }
{
    let Some(mesh) = mesh::<L>(alloc, sketch, blank) else {
        return Some(99);
    };
    match wrong_row(alloc, &mesh, rows) {
        Some(row) => Some(row),
        None => wrong_corner(alloc, &mesh, rows, corners),
    }
}

#[test]
fn finds_ways_between_places(rt: HostRuntime) {
    let row = wrong::<Brand>(rt.alloc(), Sketch::Flat, &FLAT, &[], Blank::new(1));
    all_hold(&rt, "flat", row);
    let row = wrong::<Brand>(rt.alloc(), Sketch::Deck, &DECK, &[], Blank::new(1));
    all_hold(&rt, "deck", row);
    let row = wrong::<Brand>(rt.alloc(), Sketch::Wall, &WALL, &ROUND, Blank::new(1));
    all_hold(&rt, "wall", row);
}
