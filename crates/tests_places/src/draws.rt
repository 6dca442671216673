//! The places that numbers draw on small meshes. What is wanted was worked out by hand.

ghost use Rattle.std.specs.Prelude.{◌≡◌, ◌<◌};
ghost use Rattle.nav_ground.specs.Limits.{IsSetting};
ghost use Rattle.mesh_types.specs.Soundness.{IsSound};

use crate::fields::Sketch;
use crate::meshes::mesh;
use crate::rows::all_hold;
use mesh_types::Mesh;
use random_place::{DrawAnswer, DrawPlace, draw_place};
use std::alloc::Global;
use std::marker::Brand;
use std::sync::ledger::{Blank, Ledger};

/// What is told: the index of a polygon, a point and a floor; or why there is no place.
#[derive(Clone, Copy, PartialEq)]
enum Told {
    Cut,
    Nowhere,
    Place(u32, i32, i32, u32),
}

/// The areas that are open, a number, and what it draws.
type Row = (u64, u64, Told);

/// All areas.
const ALL: u64 = 18446744073709551615;

static FLAT: [Row; 6] = [
    (ALL, 0, Told::Place(0, 24, 24, 10)),
    // The last number that draws the eighth of 16 cells, and the first that draws the ninth.
    (ALL, 9223372036854775807, Told::Place(1, 72, 40, 10)),
    (ALL, 9223372036854775808, Told::Place(2, 24, 56, 10)),
    (ALL, ALL, Told::Place(3, 72, 72, 10)),
    // The area 2 alone, and no area.
    (4, 0, Told::Nowhere),
    (0, ALL, Told::Nowhere),
];

static DECK: [Row; 6] = [
    // The last of 100 cells of the ground, and the first of 16 of the deck.
    (ALL, 15902365580784096220, Told::Place(0, 168, 168, 10)),
    (ALL, 15902365580784096221, Told::Place(1, 72, 72, 32)),
    // The deck alone.
    (32, 0, Told::Place(1, 72, 72, 32)),
    (32, ALL, Told::Place(1, 120, 120, 32)),
    // The ground alone.
    (9223372036854775808, 0, Told::Place(0, 24, 24, 10)),
    (9223372036854775808, ALL, Told::Place(0, 168, 168, 10)),
];

static SLANT: [Row; 5] = [
    // The fourth of 40 cells, and the next three, of which the outline leaves out the middle.
    (ALL, 1383505805528216372, Told::Place(0, 72, 24, 10)),
    (ALL, 1844674407370955161, Told::Place(0, 72, 24, 10)),
    (ALL, 1844674407370955162, Told::Cut),
    (ALL, 3228180212899171532, Told::Cut),
    (ALL, 3228180212899171533, Told::Place(0, 24, 40, 10)),
];

/// What the question is answered.
fn draw_told(mesh: &Mesh, areas: u64, draw: u64) -> Told
    requires sound { IsSound mesh.now }
    requires setting { IsSetting mesh.now.setting }
{
    match draw_place(mesh, DrawPlace { areas, draw }) {
        DrawAnswer::Drawn(place) => Told::Place(
            place.polygon.index,
            place.point.x,
            place.point.z,
            place.y,
        ),
        DrawAnswer::Cut => Told::Cut,
        DrawAnswer::Nowhere => Told::Nowhere,
    }
}

fn wrong_row(mesh: &Mesh, rows: &[Row]) -> Option<usize>
    requires sound { IsSound mesh.now }
    requires setting { IsSetting mesh.now.setting }
{
    for row in 0..rows.len() {
        let (areas, draw, wanted) = rows[row];
        if draw_told(mesh, areas, draw) != wanted {
            return Some(row);
        }
    }
    None
}

/// A row that is wrong; 99 where there is no mesh.
fn wrong<L: Ledger>(alloc: Global, sketch: Sketch, rows: &[Row], blank: Blank) -> Option<usize>
    requires name { blank.name ≡ L.name }
    requires parts { blank.parts ≡ L.parts }
    requires some { 0 < blank.parts }
{
    match mesh::<L>(alloc, sketch, blank) {
        Some(mesh) => wrong_row(&mesh, rows),
        None => Some(99),
    }
}

#[test]
fn draws_places(rt: HostRuntime) {
    let row = wrong::<Brand>(rt.alloc(), Sketch::Flat, &FLAT, Blank::new(1));
    all_hold(&rt, "flat", row);
    let row = wrong::<Brand>(rt.alloc(), Sketch::Deck, &DECK, Blank::new(1));
    all_hold(&rt, "deck", row);
    let row = wrong::<Brand>(rt.alloc(), Sketch::Slant, &SLANT, Blank::new(1));
    all_hold(&rt, "slant", row);
}
