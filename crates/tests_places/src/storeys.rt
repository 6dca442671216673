//! The storeys of small meshes, and the laws that hold of them. What is wanted was worked out by hand.

ghost use Rattle.std.specs.Prelude.{◌≡◌, ◌<◌, All, IfOk};
ghost use Rattle.nav_ground.specs.Grounds.{IsGround};
ghost use Rattle.mesh_types.specs.declared.mesh.TileMesh.{TileMesh};
ghost use Rattle.mesh_types.specs.Standing.{CornersStand, PointsStand};
ghost use Rattle.mesh_types.specs.StripCover.{IsOfStrips};
ghost use Rattle.storey_laws.specs.FreeCells.{AreOverStoreys, KeepsClimb, SharesFreeCells};
ghost use Rattle.storey_laws.specs.HeldPlaces.{CornersArePlaces, HeldPointsArePlaces};
ghost use Rattle.storey_laws.specs.PlacesTold.{HeightsAreTold, SlidesEndAtPlaces, StripDrawsAreWhole, WaysTurnAtPlaces};

use crate::fields::Sketch;
use crate::meshes::{level, sketched};
use crate::rows::all_hold;
use mesh_types::{Mesh, Storey, TileMesh};
use nav_ground::Ground;
use std::alloc::{AllocError, Global};
use std::marker::Brand;
use std::sync::ledger::{Blank, Ledger};
use storey_laws::{
    corners_are_places, corners_stand, draws_on_strips_are_whole, heights_are_told,
    held_points_are_places, points_of_strips_stand, polygons_tell_floors, slides_end_at_places,
    storeys_keep_climb, storeys_share_free_cells, ways_turn_at_places,
};

/// The index of a polygon, its area, its least and its greatest floor, and how many cells its storey has.
type Row = (usize, u32, u32, u32, usize);

static FLAT: [Row; 2] = [(0, 63, 10, 10, 4), (3, 63, 10, 10, 4)];

static RAMP: [Row; 1] = [(0, 63, 12, 22, 24)];

static DECK: [Row; 2] = [(0, 63, 10, 10, 100), (1, 5, 32, 32, 16)];

static SLANT: [Row; 1] = [(0, 63, 10, 10, 40)];

static WALL: [Row; 3] = [(0, 63, 10, 10, 4), (13, 63, 10, 10, 4), (15, 63, 10, 10, 9)];

/// The mesh of a ground without obstacles. The laws say what holds of it.
fn lawful<L: Ledger>(alloc: Global, ground: &Ground, blank: Blank) -> Result<Mesh, AllocError>
    requires ground { IsGround ground.now }
    requires name { blank.name ≡ L.name }
    requires parts { blank.parts ≡ L.parts }
    requires some { 0 < blank.parts }
    ensures shared { IfOk result (λ mesh. All SharesFreeCells mesh.tiles) }
    ensures climb { IfOk result (λ mesh. All (λ (tile : TileMesh). All (KeepsClimb mesh.setting.agent.climb) tile.storeys.list) mesh.tiles) }
    ensures floors { IfOk result (λ mesh. All AreOverStoreys mesh.tiles) }
    ensures corners { IfOk result (λ mesh. All CornersStand mesh.tiles) }
    ensures strips { IfOk result (λ mesh. All (λ (tile : TileMesh). IsOfStrips mesh.setting tile → PointsStand tile) mesh.tiles) }
    ensures turns { IfOk result CornersArePlaces }
    ensures places { IfOk result HeldPointsArePlaces }
    ensures heights { IfOk result HeightsAreTold }
    ensures slides { IfOk result SlidesEndAtPlaces }
    ensures ways { IfOk result WaysTurnAtPlaces }
    ensures draws { IfOk result StripDrawsAreWhole }
{
    storeys_share_free_cells();
    storeys_keep_climb();
    polygons_tell_floors();
    corners_stand();
    corners_are_places();
    points_of_strips_stand();
    held_points_are_places();
    heights_are_told();
    slides_end_at_places();
    ways_turn_at_places();
    draws_on_strips_are_whole();
    level::<L>(alloc, ground, blank)
}

/// How many cells a storey has.
fn count_of(storey: &Storey) -> usize {
    let mut count: usize = 0;
    for row in storey.rows.as_slice() {
        count = count.saturating_add(row.floors.len());
    }
    count
}

/// How many cells the storeys of a tile have.
fn count_in(tile: &TileMesh) -> usize {
    let mut count: usize = 0;
    for storey in tile.storeys.list() {
        count = count.saturating_add(count_of(storey));
    }
    count
}

/// Whether a polygon and its storey are as a row says.
fn is_told(tile: &TileMesh, row: Row) -> bool {
    let (index, area, low, high, cells) = row;
    match (tile.polys.get(index), tile.storeys.of(index)) {
        (Some(polygon), Some(storey)) => {
            polygon.area == area
                && storey.area == area
                && polygon.low == low
                && polygon.high == high
                && count_of(storey) == cells
        }
        _ => false,
    }
}

/// A row that is wrong; 98 where the storeys do not have so many cells, or the tile has not so many free ones.
fn wrong_row(alloc: Global, tile: &TileMesh, cells: usize, rows: &[Row]) -> Option<usize> {
    if count_in(tile) != cells || tile.free.cells(alloc).ok()?.len() != cells {
        return Some(98);
    }
    for row in 0..rows.len() {
        if !is_told(tile, rows[row]) {
            return Some(row);
        }
    }
    None
}

/// A row that is wrong; 99 where there is no mesh. How many cells the field's tile has is said too.
fn wrong<L: Ledger>(
    alloc: Global,
    sketch: Sketch,
    cells: usize,
    rows: &[Row],
    blank: Blank,
) -> Option<usize>
    requires name { blank.name ≡ L.name }
    requires parts { blank.parts ≡ L.parts }
    requires some { 0 < blank.parts }
{
    let ground = match sketched(alloc, sketch) {
        Some(ground) => ground,
        None => return Some(99),
    };
    match lawful::<L>(alloc, &ground, blank) {
        Ok(mesh) => match mesh.tiles.get(0) {
            Some(tile) => wrong_row(alloc, tile.get(), cells, rows),
            None => Some(99),
        },
        Err(_) => Some(99),
    }
}

#[test]
fn has_storeys(rt: HostRuntime) {
    let row = wrong::<Brand>(rt.alloc(), Sketch::Flat, 16, &FLAT, Blank::new(1));
    all_hold(&rt, "flat", row);
    let row = wrong::<Brand>(rt.alloc(), Sketch::Ramp, 24, &RAMP, Blank::new(1));
    all_hold(&rt, "ramp", row);
    let row = wrong::<Brand>(rt.alloc(), Sketch::Deck, 116, &DECK, Blank::new(1));
    all_hold(&rt, "deck", row);
    let row = wrong::<Brand>(rt.alloc(), Sketch::Slant, 40, &SLANT, Blank::new(1));
    all_hold(&rt, "slant", row);
    let row = wrong::<Brand>(rt.alloc(), Sketch::Wall, 74, &WALL, Blank::new(1));
    all_hold(&rt, "wall", row);
}
