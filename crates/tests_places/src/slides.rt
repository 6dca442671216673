//! Slides on small meshes. What is wanted was worked out by hand.

ghost use Rattle.std.specs.Prelude.{◌≡◌, ◌<◌};
ghost use Rattle.mesh_types.specs.Soundness.{IsSound};

use crate::fields::Sketch;
use crate::meshes::{has_coordinates, mesh};
use crate::rows::all_hold;
use mesh_types::{Mesh, MeshPlace, PolyRef};
use nav_base::Point;
use std::alloc::Global;
use std::marker::Brand;
use std::sync::ledger::{Blank, Ledger};
use wall_slide::{Slide, SlideAnswer, slide};

/// A place: the index of its polygon, its point, and its floor.
type Spot = (u32, i32, i32, u32);

/// What is told.
#[derive(Clone, Copy, PartialEq)]
enum Told {
    End(u32, i32, i32, u32),
    NoStart,
    NoMemory,
}

/// From where, toward which point, which areas are open, and what is told.
type Row = (Spot, i32, i32, u64, Told);

/// All areas.
const ALL: u64 = u64::MAX;

static FLAT: [Row; 10] = [
    // The target lies beyond a wall, straight ahead and aslant.
    ((0, 40, 24, 10), 40, -10, ALL, Told::End(0, 40, 16, 10)),
    ((0, 40, 24, 10), 200, 40, ALL, Told::End(1, 80, 40, 10)),
    // It lies on the mesh, three rows on, and is the start itself.
    ((0, 40, 24, 10), 72, 72, ALL, Told::End(3, 72, 72, 10)),
    ((0, 40, 24, 10), 40, 24, ALL, Told::End(0, 40, 24, 10)),
    // Along the side wall, and into a corner.
    ((0, 24, 24, 10), 4, 44, ALL, Told::End(1, 16, 44, 10)),
    ((0, 24, 24, 10), 0, 0, ALL, Told::End(0, 16, 16, 10)),
    // No area is open: it stays in the polygon in which it begins.
    ((0, 24, 24, 10), 24, 44, 0, Told::End(0, 24, 32, 10)),
    // A floor that is not there, a polygon that does not hold the point, and one that is not there.
    ((0, 24, 24, 11), 40, 24, ALL, Told::NoStart),
    ((1, 24, 24, 10), 40, 24, ALL, Told::NoStart),
    ((9, 24, 24, 10), 40, 24, ALL, Told::NoStart),
];

static DECK: [Row; 2] = [
    // Up to the rim of the deck, and beneath it.
    ((1, 96, 96, 32), 160, 96, ALL, Told::End(1, 128, 96, 32)),
    ((0, 96, 96, 10), 160, 96, ALL, Told::End(0, 160, 96, 10)),
];

static RAMP: [Row; 1] = [
    // The point is on the border of two cells, of which the higher one is told.
    ((0, 24, 24, 12), 48, 24, ALL, Told::End(0, 48, 24, 16)),
];

static WALL: [Row; 2] = [
    // Against the wall, and round its end, which the disc touches.
    ((0, 64, 24, 10), 120, 24, ALL, Told::End(0, 80, 24, 10)),
    (
        (12, 72, 120, 10),
        104,
        104,
        ALL,
        Told::End(11, 104, 104, 10),
    ),
];

fn place_of(spot: Spot) -> MeshPlace {
    let (index, x, z, y) = spot;
    MeshPlace {
        polygon: PolyRef { tile: 0, index },
        point: Point { x, z },
        y,
    }
}

/// What the question is answered.
fn slide_told(alloc: Global, mesh: &Mesh, row: Row) -> Told
    requires sound { IsSound mesh.now }
{
    let (from, x, z, areas, _told) = row;
    let from = place_of(from);
    let to = Point { x, z };
    if !has_coordinates(from.point) || !has_coordinates(to) {
        return Told::NoMemory;
    }
    match slide(alloc, mesh, &Slide { from, to, areas }) {
        Ok(SlideAnswer::Slid(end)) => Told::End(end.polygon.index, end.point.x, end.point.z, end.y),
        Ok(SlideAnswer::NoStart) => Told::NoStart,
        Err(_) => Told::NoMemory,
    }
}

fn wrong_row(alloc: Global, mesh: &Mesh, rows: &[Row]) -> Option<usize>
    requires sound { IsSound mesh.now }
{
    for row in 0..rows.len() {
        if slide_told(alloc, mesh, rows[row]) != rows[row].4 {
            return Some(row);
        }
    }
    None
}

/// A row that is wrong; 99 where there is no mesh.
fn wrong<L: Ledger>(alloc: Global, sketch: Sketch, rows: &[Row], blank: Blank) -> Option<usize>
    requires name { blank.name ≡ L.name }
    requires parts { blank.parts ≡ L.parts }
    requires some { 0 < blank.parts }
{
    match mesh::<L>(alloc, sketch, blank) {
        Some(mesh) => wrong_row(alloc, &mesh, rows),
        None => Some(99),
    }
}

#[test]
fn slides_along_walls(rt: HostRuntime) {
    let row = wrong::<Brand>(rt.alloc(), Sketch::Flat, &FLAT, Blank::new(1));
    all_hold(&rt, "flat", row);
    let row = wrong::<Brand>(rt.alloc(), Sketch::Deck, &DECK, Blank::new(1));
    all_hold(&rt, "deck", row);
    let row = wrong::<Brand>(rt.alloc(), Sketch::Ramp, &RAMP, Blank::new(1));
    all_hold(&rt, "ramp", row);
    let row = wrong::<Brand>(rt.alloc(), Sketch::Wall, &WALL, Blank::new(1));
    all_hold(&rt, "wall", row);
}
