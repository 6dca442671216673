//! Straight ways of fine points on small meshes. What is wanted was worked out by hand.

ghost use Rattle.std.specs.Prelude.{◌≡◌, ◌<◌, ◌≤◌, ◌^◌, ◌↔◌, IsTrue};
ghost use Rattle.nav_base.specs.Point.{IsWithin};
ghost use Rattle.mesh_types.specs.Soundness.{IsSound};

use crate::fields::Sketch;
use crate::meshes::mesh;
use crate::rows::all_hold;
use fine_walk::{fine_walk, is_fine_held};
use mesh_types::{Mesh, PolyRef};
use nav_base::Point;
use std::alloc::Global;
use std::marker::Brand;
use std::sync::ledger::{Blank, Ledger};

/// What is told: the index of the polygon in which the way ends, and the floors that it passes over.
#[derive(Clone, Copy, PartialEq)]
enum Told {
    /// The polygon does not hold the way's begin.
    NoStart,
    NoWay,
    Way(u32, u32, u32),
}

/// Which areas may be entered, the index of a polygon, a point in it, and a point to go to.
type Row = (u64, u32, i32, i32, i32, i32, Told);

const ALL: u64 = u64::MAX;

/// The area 63 alone.
const OPEN: u64 = 1 << 63;

static FLAT: [Row; 15] = [
    (ALL, 0, 300, 300, 340, 500, Told::Way(0, 10, 10)),
    // On the edge between two polygons the way ends in the one from which it comes, and one unit beyond it in the other.
    (ALL, 0, 300, 300, 340, 512, Told::Way(0, 10, 10)),
    (ALL, 0, 300, 300, 340, 513, Told::Way(1, 10, 10)),
    (ALL, 0, 300, 300, 340, 1100, Told::Way(3, 10, 10)),
    (ALL, 0, 300, 300, 300, 300, Told::Way(0, 10, 10)),
    (ALL, 0, 300, 300, 255, 300, Told::NoWay),
    // Along the wall, and along the wall from a corner of two polygons.
    (ALL, 0, 256, 300, 256, 900, Told::Way(2, 10, 10)),
    (ALL, 0, 1280, 512, 1280, 1280, Told::Way(3, 10, 10)),
    (ALL, 1, 640, 512, 640, 400, Told::Way(0, 10, 10)),
    (ALL, 3, 300, 1280, 340, 1281, Told::NoWay),
    (ALL, 0, 300, 513, 340, 600, Told::NoStart),
    (ALL, 4, 300, 300, 340, 500, Told::NoStart),
    // No area is open: what is entered already may be gone through.
    (0, 0, 300, 300, 340, 500, Told::Way(0, 10, 10)),
    (0, 0, 300, 300, 340, 513, Told::NoWay),
    // 24 units along for each across: the way leaves by the side, before the end.
    (ALL, 0, 1270, 300, 1290, 780, Told::NoWay),
];

static BARRED: [Row; 5] = [
    (ALL, 0, 300, 300, 340, 1100, Told::Way(3, 10, 12)),
    (OPEN, 0, 300, 300, 340, 1100, Told::NoWay),
    // A polygon of a closed area may be left, and not entered.
    (OPEN, 1, 300, 600, 340, 1100, Told::Way(3, 10, 12)),
    (OPEN, 1, 300, 600, 340, 600, Told::Way(1, 12, 12)),
    (OPEN, 2, 300, 800, 300, 1000, Told::Way(2, 10, 10)),
];

/// Whether a point is small enough.
fn is_small(p: Point) -> bool
    ensures { IsTrue result ↔ IsWithin (2 ^ 20) p }
{
    p.x.unsigned_abs() <= 1048576 && p.z.unsigned_abs() <= 1048576
}

/// What is told of a way.
fn tell(mesh: &Mesh, areas: u64, first: PolyRef, from: Point, to: Point) -> Told
    requires { IsSound mesh.now }
{
    if !is_small(from) || !is_small(to) {
        return Told::NoStart;
    }
    if !is_fine_held(mesh, first, from) {
        return Told::NoStart;
    }
    match fine_walk(mesh, areas, first, from, to) {
        Some(way) => Told::Way(way.last.index, way.low, way.high),
        None => Told::NoWay,
    }
}

fn wrong_row(mesh: &Mesh, rows: &[Row]) -> Option<usize>
    requires { IsSound mesh.now }
{
    for row in 0..rows.len() {
        let (areas, index, x, z, to_x, to_z, wanted) = rows[row];
        let from = Point { x, z };
        let to = Point { x: to_x, z: to_z };
        if tell(mesh, areas, PolyRef { tile: 0, index }, from, to) != wanted {
            return Some(row);
        }
    }
    None
}

/// A row that is wrong; 99 where there is no mesh.
fn wrong<L: Ledger>(alloc: Global, sketch: Sketch, rows: &[Row], blank: Blank) -> Option<usize>
    requires name { blank.name ≡ L.name }
    requires parts { blank.parts ≡ L.parts }
    requires some { 0 < blank.parts }
{
    match mesh::<L>(alloc, sketch, blank) {
        Some(mesh) => wrong_row(&mesh, rows),
        None => Some(99),
    }
}

#[test]
fn finds_straight_ways(rt: HostRuntime) {
    let row = wrong::<Brand>(rt.alloc(), Sketch::Flat, &FLAT, Blank::new(1));
    all_hold(&rt, "flat", row);
    let row = wrong::<Brand>(rt.alloc(), Sketch::Barred, &BARRED, Blank::new(1));
    all_hold(&rt, "barred", row);
}
