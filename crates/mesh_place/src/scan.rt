//! The search for the nearest place in a tile, over its polygons.

ghost use Rattle.std.specs.Prelude.{◌≡◌, ◌<◌, ◌≤◌, All, IsTrue, Some, length, slice_get};
ghost use Rattle.nav_base.specs.Point.{HasCoordinates, IsCellCorner};
ghost use Rattle.mesh_types.specs.declared.storeys.Storey.{Storey};
ghost use Rattle.mesh_types.specs.Places.{storey_at, storey_in};
ghost use Rattle.mesh_types.specs.Reaches.{IsStoreyBetween};
ghost use Rattle.mesh_types.specs.Soundness.{IsSound};
ghost use Rattle.mesh_types.specs.Storeys.{IsStorey};
ghost use Rattle.mesh_place.specs.Nearest.{CanAskNear};
ghost use Rattle.mesh_place.specs.Searches.{IsDone, IsFound, IsFoundAmong, IsOf, IsPart};
ghost use Rattle.mesh_place.specs.Bounds.{AddAtLeast};

use crate::bounds::{
    is_gap_beyond, is_polygon_beyond, least_part, limit, meets, reach_left, square_around,
};
use crate::boxes::box_gap;
use crate::guesses::{likely_polygon, likely_reach};
use crate::near::{Near, is_open};
use crate::storey_scan::{PolygonPart, cells_touched, in_storey, search_within};
use mesh_types::{
    FloorReach, Mesh, MeshPlace, PolyRef, Polygon, Storey, Storeys, TileMesh, storey_of,
};
use nav_base::Point;
use nav_ground::TileNo;

/// What was found, or a nearer place of a tile. Of most polygons the box alone is looked at.
pub(crate) fn in_tile(
    mesh: &Mesh,
    tile: TileNo,
    asked: &Near,
    done: Option<PolyRef>,
    best: Option<MeshPlace>,
) -> Option<MeshPlace>
    requires sound { IsSound mesh.now }
    requires there { tile < length mesh.now.tiles }
    requires asked { CanAskNear asked.now }
    requires best { IsFound mesh.now asked.now best }
    requires done { IsDone mesh.now asked.now done best }
    ensures { IsFoundAmong mesh.now asked.now best result (λ place. place.polygon.tile ≡ tile) }
{
    let here = mesh.tiles.at(tile as usize).get();
    let climb = mesh.setting.agent.climb;
    let Some(part) = least_part(climb, asked, here.storeys.whole().floors) else {
        return best;
    };
    let square = square_around(asked.point, reach_left(climb, asked, part, best));
    let mut nearest = best;
    for i in 0..here.polys.len() {
        if meets(&square, here.polys.extent(i)) {
            let at = PolyRef {
                tile,
                index: i as u32,
            };
            nearest = in_other(mesh, at, here, asked, done, nearest);
        }
    }
    nearest
}

/// What was found, or a nearer place of a polygon, if it is not the one that was looked at before.
fn in_other(
    mesh: &Mesh,
    at: PolyRef,
    here: &TileMesh,
    asked: &Near,
    done: Option<PolyRef>,
    best: Option<MeshPlace>,
) -> Option<MeshPlace>
    requires sound { IsSound mesh.now }
    requires tile { slice_get mesh.now.tiles at.tile ≡ Some here.now }
    requires there { at.index < length here.now.polys }
    requires asked { CanAskNear asked.now }
    requires best { IsFound mesh.now asked.now best }
    requires done { IsDone mesh.now asked.now done best }
    ensures { IsFoundAmong mesh.now asked.now best result (λ place. place.polygon ≡ at) }
{
    if is_it(done, at) {
        return best;
    }
    in_polygon(mesh, at, here, asked, best)
}

/// Whether there is a polygon, and it is another one.
fn is_it(done: Option<PolyRef>, at: PolyRef) -> bool
    ensures { IsTrue result → done ≡ Some at }
{
    match done {
        Some(done) => done.tile == at.tile && done.index == at.index,
        None => false,
    }
}

/// A polygon of which all places were looked at, if there is one, and what was found.
#[derive(Clone, Copy)]
pub struct LookedAt {
    pub done: Option<PolyRef>,
    pub best: Option<MeshPlace>,
}

/// What was found, or a nearer place of the polygon of a tile that is likely to have the nearest.
pub(crate) fn likely_first(
    mesh: &Mesh,
    tile: TileNo,
    asked: &Near,
    best: Option<MeshPlace>,
) -> LookedAt
    requires sound { IsSound mesh.now }
    requires there { tile < length mesh.now.tiles }
    requires asked { CanAskNear asked.now }
    requires best { IsFound mesh.now asked.now best }
    ensures { IsFoundAmong mesh.now asked.now best result.best (IsOf result.done) }
{
    let here = mesh.tiles.at(tile as usize).get();
    let index = likely_polygon(&here.polys, mesh.setting.agent.climb, asked);
    if index as usize >= here.polys.len() {
        return LookedAt { done: None, best };
    }
    let at = PolyRef { tile, index };
    LookedAt {
        done: Some(at),
        best: in_polygon(mesh, at, here, asked, best),
    }
}

/// What was found, or a nearer place of a polygon. It is passed over by its box and the floors of its storey where these are too far.
fn in_polygon(
    mesh: &Mesh,
    at: PolyRef,
    here: &TileMesh,
    asked: &Near,
    best: Option<MeshPlace>,
) -> Option<MeshPlace>
    requires sound { IsSound mesh.now }
    requires tile { slice_get mesh.now.tiles at.tile ≡ Some here.now }
    requires there { at.index < length here.now.polys }
    requires asked { CanAskNear asked.now }
    requires best { IsFound mesh.now asked.now best }
    ensures { IsFoundAmong mesh.now asked.now best result (λ place. place.polygon ≡ at) }
{
    let place = at.index as usize;
    let extent = here.polys.extent(place);
    if !is_open(asked.areas, extent.area) {
        return best;
    }
    let climb = mesh.setting.agent.climb;
    let Some(least) = least_part(climb, asked, floors_of(&here.storeys, place)) else {
        return best;
    };
    if is_gap_beyond(climb, asked, box_gap(extent, asked.point), least, best) {
        return best;
    }
    let Some(storey) = storey_of(mesh, at) else {
        return best;
    };
    let part = PolygonPart {
        at,
        polygon: here.polys.at(place),
        touched: cells_touched(extent),
    };
    in_part(mesh, &part, storey, asked, least, best)
}

/// Between which floors the cells of a polygon's storey lie.
fn floors_of(storeys: &Storeys, polygon: usize) -> FloorReach
    ensures { (storey : Storey) → storey_in storeys.now polygon ≡ Some storey → IsStoreyBetween result storey }
{
    let none = FloorReach {
        least: 0,
        greatest: 0,
    };
    let Some(home) = storeys.homes().get(polygon) else {
        return none;
    };
    let home = *home as usize;
    if home >= storeys.list().len() {
        return none;
    }
    storeys.reach(home).floors
}

/// What was found, or a nearer place of a polygon of an open area whose heights add at least so much to their measures: first within the
/// distance at which there is likely to be one, and then within what is left of the reach.
fn in_part(
    mesh: &Mesh,
    part: &PolygonPart,
    storey: &Storey,
    asked: &Near,
    least: u64,
    best: Option<MeshPlace>,
) -> Option<MeshPlace>
    requires sound { IsSound mesh.now }
    requires part { IsPart mesh.now asked.now part.now }
    requires home { storey_at mesh.now part.now.at ≡ Some storey.now }
    requires storey { IsStorey storey.now }
    requires asked { CanAskNear asked.now }
    requires least { AddAtLeast mesh.now asked.now least (λ place. place.polygon ≡ part.now.at) }
    requires best { IsFound mesh.now asked.now best }
    ensures { IsFoundAmong mesh.now asked.now best result (λ place. place.polygon ≡ part.now.at) }
{
    let climb = mesh.setting.agent.climb;
    if is_polygon_beyond(&part.polygon, asked.point, limit(climb, asked, least, best)) {
        return best;
    }
    let near = near_reach(
        &part.polygon,
        asked.point,
        reach_left(climb, asked, least, best),
    );
    let nearest = in_storey(mesh, part, storey, &search_within(asked, near), best);
    let rest = reach_left(climb, asked, least, nearest);
    if rest <= near {
        return nearest;
    }
    in_storey(mesh, part, storey, &search_within(asked, rest), nearest)
}

/// The reach within which a polygon is looked at first: all of one that is no more than a cell, and else as far as the polygon is likely to be.
fn near_reach(polygon: &Polygon, p: Point, reach: u32) -> u32
    requires corners { All IsCellCorner polygon.now.corners }
    requires point { HasCoordinates p }
    ensures { result ≤ reach }
{
    if reach <= 16 {
        return reach;
    }
    reach.min(likely_reach(polygon, p))
}
