//! Heights on small meshes, and which places are theirs. What is wanted was worked out by hand.

ghost use Rattle.std.specs.Prelude.{◌≡◌, ◌<◌};
ghost use Rattle.mesh_types.specs.Soundness.{IsSound};

use crate::fields::Sketch;
use crate::meshes::{has_coordinates, mesh};
use crate::rows::all_hold;
use mesh_place::{HeightAnswer, MeshPlace, height, is_place};
use mesh_types::{Mesh, PolyRef};
use nav_base::Point;
use std::alloc::Global;
use std::marker::Brand;
use std::sync::ledger::{Blank, Ledger};

/// What is told: no place, or a floor and the square of how far its cell is.
#[derive(Clone, Copy, PartialEq)]
enum Told {
    NoPlace,
    Floor(u32, u64),
}

/// A tile, a polygon's index and a point; the height there; and a floor, with whether it makes a place there.
type Row = (u32, u32, i32, i32, Told, u32, bool);

static FLAT: [Row; 5] = [
    (0, 0, 24, 24, Told::Floor(10, 0), 10, true),
    (0, 0, 24, 24, Told::Floor(10, 0), 11, false),
    (0, 1, 24, 24, Told::NoPlace, 10, false),
    (0, 3, 72, 72, Told::Floor(10, 0), 9, false),
    (4294967295, 0, 24, 24, Told::NoPlace, 10, false),
];

static RAMP: [Row; 5] = [
    (0, 0, 40, 24, Told::Floor(14, 0), 14, true),
    // On the border of two cells the higher floor is told, and each makes a place.
    (0, 0, 48, 24, Told::Floor(16, 0), 16, true),
    (0, 0, 48, 24, Told::Floor(16, 0), 14, true),
    (0, 0, 48, 32, Told::Floor(16, 0), 15, false),
    (0, 0, 8, 24, Told::NoPlace, 10, false),
];

static DECK: [Row; 3] = [
    (0, 1, 96, 96, Told::Floor(32, 0), 32, true),
    (0, 1, 96, 96, Told::Floor(32, 0), 10, false),
    (0, 0, 96, 96, Told::Floor(10, 0), 10, true),
];

/// The height at a point of a polygon.
fn height_told(mesh: &Mesh, at: PolyRef, p: Point) -> Told
    requires { IsSound mesh.now }
{
    if !has_coordinates(p) {
        return Told::NoPlace;
    }
    match height(mesh, at, p) {
        HeightAnswer::Height { y, aside } => Told::Floor(y, aside),
        HeightAnswer::NoPlace => Told::NoPlace,
    }
}

/// Whether a place is one of the mesh.
fn is_one(mesh: &Mesh, place: MeshPlace) -> bool
    requires { IsSound mesh.now }
{
    has_coordinates(place.point) && is_place(mesh, place)
}

fn wrong_row(mesh: &Mesh, rows: &[Row]) -> Option<usize>
    requires { IsSound mesh.now }
{
    for row in 0..rows.len() {
        let (tile, index, x, z, wanted, y, is_place) = rows[row];
        let polygon = PolyRef { tile, index };
        let point = Point { x, z };
        let place = MeshPlace { polygon, point, y };
        if height_told(mesh, polygon, point) != wanted || is_one(mesh, place) != is_place {
            return Some(row);
        }
    }
    None
}

/// A row that is wrong; 99 where there is no mesh.
fn wrong<L: Ledger>(alloc: Global, sketch: Sketch, rows: &[Row], blank: Blank) -> Option<usize>
    requires name { blank.name ≡ L.name }
    requires parts { blank.parts ≡ L.parts }
    requires some { 0 < blank.parts }
{
    match mesh::<L>(alloc, sketch, blank) {
        Some(mesh) => wrong_row(&mesh, rows),
        None => Some(99),
    }
}

#[test]
fn tells_heights(rt: HostRuntime) {
    let row = wrong::<Brand>(rt.alloc(), Sketch::Flat, &FLAT, Blank::new(1));
    all_hold(&rt, "flat", row);
    let row = wrong::<Brand>(rt.alloc(), Sketch::Ramp, &RAMP, Blank::new(1));
    all_hold(&rt, "ramp", row);
    let row = wrong::<Brand>(rt.alloc(), Sketch::Deck, &DECK, Blank::new(1));
    all_hold(&rt, "deck", row);
}
