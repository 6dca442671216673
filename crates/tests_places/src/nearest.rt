//! Nearest places on small meshes. What is wanted was worked out by hand.

ghost use Rattle.std.specs.Prelude.{◌≡◌, ◌<◌, IsTrue};
ghost use Rattle.nav_ground.specs.Limits.{IsSetting};
ghost use Rattle.mesh_types.specs.Soundness.{IsSound};
ghost use Rattle.mesh_place.specs.Nearest.{CanAskNear};

use crate::fields::Sketch;
use crate::meshes::{has_coordinates, mesh};
use crate::rows::all_hold;
use mesh_place::{Near, NearAnswer, nearest};
use mesh_types::Mesh;
use nav_base::Point;
use std::alloc::Global;
use std::marker::Brand;
use std::sync::ledger::{Blank, Ledger};

/// What is asked, as a host says it: a point and a height; how far a place may be in the plane, and down and up; what a height unit
/// counts; and the areas that are open.
type Wish = (i32, i32, u32, u32, u32, u32, u32, u64);

/// What is told: no place, or the index of a polygon, a point and a floor.
#[derive(Clone, Copy, PartialEq)]
enum Told {
    NoPlace,
    Place(u32, i32, i32, u32),
}

/// All areas.
const ALL: u64 = 18446744073709551615;

static FLAT: [(Wish, Told); 11] = [
    ((40, 32, 10, 0, 0, 0, 0, ALL), Told::Place(0, 40, 32, 10)),
    ((11, 24, 10, 4, 0, 0, 0, ALL), Told::NoPlace),
    ((11, 24, 10, 5, 0, 0, 0, ALL), Told::Place(0, 16, 24, 10)),
    ((92, 89, 10, 14, 0, 0, 0, ALL), Told::NoPlace),
    ((92, 89, 10, 15, 0, 0, 0, ALL), Told::Place(3, 80, 80, 10)),
    ((40, 24, 30, 0, 19, 0, 0, ALL), Told::NoPlace),
    ((40, 24, 30, 0, 20, 0, 0, ALL), Told::Place(0, 40, 24, 10)),
    ((40, 24, 0, 0, 0, 9, 0, ALL), Told::NoPlace),
    ((40, 24, 0, 0, 0, 10, 0, ALL), Told::Place(0, 40, 24, 10)),
    // The area 2 alone.
    ((40, 24, 0, 0, 0, 10, 0, 4), Told::NoPlace),
    (
        (-65536, 65536, 10, 262143, 0, 0, 0, ALL),
        Told::Place(3, 16, 80, 10),
    ),
];

static RAMP: [(Wish, Told); 9] = [
    (
        (24, 24, 20, 200, 20, 20, 0, ALL),
        Told::Place(0, 24, 24, 12),
    ),
    (
        (24, 24, 20, 200, 20, 20, 8, ALL),
        Told::Place(0, 32, 24, 14),
    ),
    (
        (24, 24, 20, 200, 20, 20, 64, ALL),
        Told::Place(0, 48, 24, 16),
    ),
    ((24, 24, 20, 200, 4, 20, 0, ALL), Told::Place(0, 48, 24, 16)),
    ((24, 24, 20, 56, 0, 20, 0, ALL), Told::Place(0, 80, 24, 20)),
    ((24, 24, 20, 55, 0, 20, 0, ALL), Told::NoPlace),
    ((48, 24, 14, 0, 20, 20, 0, ALL), Told::Place(0, 48, 24, 14)),
    // Two floors are equally near: the lower one.
    ((48, 24, 15, 0, 20, 20, 0, ALL), Told::Place(0, 48, 24, 14)),
    ((48, 24, 16, 0, 20, 20, 0, ALL), Told::Place(0, 48, 24, 16)),
];

static DECK: [(Wish, Told); 6] = [
    // Two floors are equally near: that of the first polygon.
    ((96, 96, 21, 40, 40, 40, 0, ALL), Told::Place(0, 96, 96, 10)),
    ((96, 96, 22, 40, 40, 40, 0, ALL), Told::Place(1, 96, 96, 32)),
    ((96, 96, 25, 40, 40, 4, 0, ALL), Told::Place(0, 96, 96, 10)),
    (
        (160, 96, 32, 200, 40, 4, 0, ALL),
        Told::Place(0, 160, 96, 10),
    ),
    (
        (160, 96, 32, 200, 40, 4, 1, ALL),
        Told::Place(0, 160, 96, 10),
    ),
    (
        (160, 96, 32, 200, 40, 4, 2, ALL),
        Told::Place(1, 128, 96, 32),
    ),
];

/// The question for a place.
fn near_of(wish: Wish) -> Near {
    let (x, z, y, reach, down, up, weight, areas) = wish;
    Near {
        point: Point { x, z },
        y,
        reach,
        down,
        up,
        weight,
        areas,
    }
}

/// Whether the question may be asked.
pub(crate) fn can_ask(asked: &Near) -> bool
    ensures { IsTrue result → CanAskNear asked.now }
{
    has_coordinates(asked.point)
        && asked.reach < 262144
        && asked.down < 16384
        && asked.up < 16384
        && asked.weight < 65536
}

/// What the question is answered.
fn place_told(mesh: &Mesh, asked: &Near) -> Told
    requires sound { IsSound mesh.now }
    requires setting { IsSetting mesh.now.setting }
{
    if !can_ask(asked) {
        return Told::NoPlace;
    }
    match nearest(mesh, asked) {
        NearAnswer::Nearest(place) => Told::Place(
            place.polygon.index,
            place.point.x,
            place.point.z,
            place.y,
        ),
        NearAnswer::NoneInReach => Told::NoPlace,
    }
}

fn wrong_row(mesh: &Mesh, rows: &[(Wish, Told)]) -> Option<usize>
    requires sound { IsSound mesh.now }
    requires setting { IsSetting mesh.now.setting }
{
    for row in 0..rows.len() {
        let (wish, wanted) = rows[row];
        if place_told(mesh, &near_of(wish)) != wanted {
            return Some(row);
        }
    }
    None
}

/// A row that is wrong; 99 where there is no mesh.
fn wrong<L: Ledger>(
    alloc: Global,
    sketch: Sketch,
    rows: &[(Wish, Told)],
    blank: Blank,
) -> Option<usize>
    requires name { blank.name ≡ L.name }
    requires parts { blank.parts ≡ L.parts }
    requires some { 0 < blank.parts }
{
    match mesh::<L>(alloc, sketch, blank) {
        Some(mesh) => wrong_row(&mesh, rows),
        None => Some(99),
    }
}

#[test]
fn finds_nearest_places(rt: HostRuntime) {
    let row = wrong::<Brand>(rt.alloc(), Sketch::Flat, &FLAT, Blank::new(1));
    all_hold(&rt, "flat", row);
    let row = wrong::<Brand>(rt.alloc(), Sketch::Ramp, &RAMP, Blank::new(1));
    all_hold(&rt, "ramp", row);
    let row = wrong::<Brand>(rt.alloc(), Sketch::Deck, &DECK, Blank::new(1));
    all_hold(&rt, "deck", row);
}
