//! Ways between the places nearest to two points on small meshes. What is wanted was worked out by hand.

ghost use Rattle.std.specs.Prelude.{◌≡◌, ◌<◌};
ghost use Rattle.nav_ground.specs.Limits.{IsSetting};
ghost use Rattle.mesh_types.specs.Soundness.{IsSound};
ghost use Rattle.mesh_place.specs.Nearest.{CanAskNear};

use crate::fields::Sketch;
use crate::meshes::mesh;
use crate::nearest::can_ask;
use crate::rows::all_hold;
use mesh_place::Near;
use mesh_types::{Mesh, MeshPlace};
use nav_base::Point;
use near_ways::{NearWayQuery, way_near};
use path_queries::Filter;
use place_ways::PlaceWayAnswer;
use std::alloc::Global;
use std::marker::Brand;
use std::sync::ledger::{Blank, Ledger};

/// Near which point, and how far from it at most.
type Around = (i32, i32, u32);

/// What is told.
#[derive(Clone, Copy, PartialEq)]
enum Told {
    /// What the way costs, and the polygons and points of its first corner and its last.
    Way(u64, (u32, i32, i32), (u32, i32, i32)),
    Limit(u64),
    NoStart,
    NoGoal,
    NoPath,
    NoMemory,
}

/// Near where a way begins, near where it ends, which areas are open, the limit of cost, and what is told.
type Row = (Around, Around, u64, u64, Told);

/// All areas; no limit of cost.
const ALL: u64 = u64::MAX;

static FLAT: [Row; 7] = [
    // Both points lie beside the mesh.
    (
        (11, 24, 5),
        (92, 89, 15),
        ALL,
        ALL,
        Told::Way(48, (0, 16, 24), (3, 80, 80)),
    ),
    // One sixteenth too little of reach: of the start, of the goal, and of both.
    ((11, 24, 4), (92, 89, 15), ALL, ALL, Told::NoStart),
    ((11, 24, 5), (92, 89, 14), ALL, ALL, Told::NoGoal),
    ((11, 24, 4), (92, 89, 14), ALL, ALL, Told::NoStart),
    // The ends exchanged.
    (
        (92, 89, 15),
        (11, 24, 5),
        ALL,
        ALL,
        Told::Way(48, (3, 80, 80), (0, 16, 24)),
    ),
    ((11, 24, 5), (92, 89, 15), 0, ALL, Told::NoPath),
    ((11, 24, 5), (92, 89, 15), ALL, 47, Told::Limit(48)),
];

/// What is looked for at the height of the land, of all areas.
fn near_of(around: Around) -> Near {
    let (x, z, reach) = around;
    Near {
        point: Point { x, z },
        y: 10,
        reach,
        down: 4,
        up: 4,
        weight: 0,
        areas: ALL,
    }
}

fn end_told(corners: &[MeshPlace], place: usize) -> (u32, i32, i32) {
    match corners.get(place) {
        Some(corner) => (corner.polygon.index, corner.point.x, corner.point.z),
        None => (99, 0, 0),
    }
}

fn told_by(answer: &PlaceWayAnswer) -> Told {
    match answer {
        PlaceWayAnswer::Way { way, corners } => {
            let line = corners.as_slice();
            let last = line.len().saturating_sub(1);
            Told::Way(way.cost, end_told(line, 0), end_told(line, last))
        }
        PlaceWayAnswer::Limit { seen } => Told::Limit(*seen),
        PlaceWayAnswer::NoStart => Told::NoStart,
        PlaceWayAnswer::NoGoal => Told::NoGoal,
        PlaceWayAnswer::NoPath => Told::NoPath,
    }
}

/// What the question is answered, if it may be asked and there is memory.
fn way_told(alloc: Global, mesh: &Mesh, row: Row) -> Told
    requires sound { IsSound mesh.now }
    requires setting { IsSetting mesh.now.setting }
{
    let (from, goal, areas, most_cost, _told) = row;
    let (from, goal) = (near_of(from), near_of(goal));
    if !can_ask(&from) || !can_ask(&goal) {
        return Told::NoMemory;
    }
    told_between(alloc, mesh, (from, goal), areas, most_cost)
}

/// The same, of what may be asked.
fn told_between(alloc: Global, mesh: &Mesh, ends: (Near, Near), areas: u64, most_cost: u64) -> Told
    requires sound { IsSound mesh.now }
    requires setting { IsSetting mesh.now.setting }
    requires from { CanAskNear ends.0 }
    requires goal { CanAskNear ends.1 }
{
    let query = NearWayQuery {
        from: ends.0,
        goal: ends.1,
        filter: Filter { areas, costs: None },
        most_cost,
        most_polygons: usize::MAX,
    };
    match way_near(alloc, mesh, &query) {
        Ok(answer) => told_by(&answer),
        Err(_) => Told::NoMemory,
    }
}

fn wrong_row(alloc: Global, mesh: &Mesh, rows: &[Row]) -> Option<usize>
    requires sound { IsSound mesh.now }
    requires setting { IsSetting mesh.now.setting }
{
    for row in 0..rows.len() {
        if way_told(alloc, mesh, rows[row]) != rows[row].4 {
            return Some(row);
        }
    }
    None
}

/// A row that is wrong; 99 where there is no mesh.
fn wrong<L: Ledger>(alloc: Global, sketch: Sketch, rows: &[Row], blank: Blank) -> Option<usize>
    requires name { blank.name ≡ L.name }
    requires parts { blank.parts ≡ L.parts }
    requires some { 0 < blank.parts }
{
    match mesh::<L>(alloc, sketch, blank) {
        Some(mesh) => wrong_row(alloc, &mesh, rows),
        None => Some(99),
    }
}

#[test]
fn finds_ways_between_nearest_places(rt: HostRuntime) {
    let row = wrong::<Brand>(rt.alloc(), Sketch::Flat, &FLAT, Blank::new(1));
    all_hold(&rt, "flat", row);
}
