//! Of the polygons that a search reached, the one that has the point nearest to a goal.

ghost use Rattle.std.specs.Prelude.{◌≡◌, ◌<◌, ◌≤◌, ◌*◌, Some, length, slice_get};
ghost use Rattle.std.specs.Bool.{MatchBool};
ghost use Rattle.nav_base.specs.Point.{HasCoordinates};
ghost use Rattle.mesh_types.specs.FitTiles.{IsPolygon};
ghost use Rattle.mesh_types.specs.Located.{height_gap};
ghost use Rattle.mesh_types.specs.Soundness.{IsSound};
ghost use Rattle.mesh_types.specs.WholeMesh.{poly_at};
ghost use Rattle.graph_search.specs.declared.exploring.ReachedVertex.{ReachedVertex};
ghost use Rattle.corridor_search.specs.MeshGraphs.{IsThere, polygon_of};
ghost use Rattle.path_queries.specs.PartialWays.{IsNoWorse};
ghost use Rattle.path_queries.specs.Spots.{AreThere, IsKeptAt, IsNearerSpot, IsNearestSpot, IsSpotNear, IsToward};

use crate::filtered_graph::{extent_there, leads_on};
use crate::plans::WayEnd;
use corridor_search::{extent_at, polygon_at};
use graph_search::ReachedVertex;
use mesh_place::{box_gap, nearest_held};
use mesh_types::{Mesh, PolyRef, Polygon};
use nav_base::{Point, square_distance};

/// A goal that is sought in the plane and in height: each unit of height counts so many sixteenths of a cell.
#[derive(Clone, Copy)]
pub(crate) struct Toward {
    pub(crate) goal: Point,
    pub(crate) y: u32,
    pub(crate) rise: u32,
}

/// A point of a polygon that was reached: its place in the list, what it costs to come there, and how near it is to the goal.
#[derive(Clone, Copy)]
pub(crate) struct Spot {
    pub(crate) place: usize,
    pub(crate) cost: u64,
    pub(crate) near: u64,
    pub(crate) end: WayEnd,
}

/// The nearest spot of the polygons that were reached and from which walks may lead on; of equally near ones one that costs least.
pub(crate) fn nearest_spot(
    mesh: &Mesh,
    areas: u64,
    first: PolyRef,
    reached: &[ReachedVertex],
    toward: Toward,
) -> Spot
    requires sound { IsSound mesh.now }
    requires there { AreThere mesh.now reached.now }
    requires begins { IsKeptAt mesh.now areas first reached.now 0 }
    requires toward { IsToward toward }
    ensures { IsNearestSpot mesh.now areas first toward reached.now result }
{
    let likely = likely_place(mesh, areas, first, reached, toward);
    let mut nearest = spot_at(mesh, reached, likely, toward);
    for place in 0..reached.len() {
        if leads_on(mesh, areas, first, polygon_at(reached[place].vertex)) {
            nearest = nearer_spot(mesh, reached, place, toward, nearest);
        }
    }
    nearest
}

/// The place of the polygon whose points can be nearest to a goal, by its box and its floors: its spot is likely to be so near that nearly all
/// others are passed over.
fn likely_place(
    mesh: &Mesh,
    areas: u64,
    first: PolyRef,
    reached: &[ReachedVertex],
    toward: Toward,
) -> usize
    requires sound { IsSound mesh.now }
    requires there { AreThere mesh.now reached.now }
    requires begins { IsKeptAt mesh.now areas first reached.now 0 }
    requires toward { IsToward toward }
    ensures { IsKeptAt mesh.now areas first reached.now result }
{
    let mut likely = 0;
    let mut least = u64::MAX;
    for place in 0..reached.len() {
        let at = polygon_at(reached[place].vertex);
        if leads_on(mesh, areas, first, at) {
            let bound = least_near(mesh, at, toward, least);
            if bound < least {
                least = bound;
                likely = place;
            }
        }
    }
    likely
}

/// How near the points of a polygon can be, by its box and its floors; where the box alone is no nearer than a number, by the box.
fn least_near(mesh: &Mesh, at: PolyRef, toward: Toward, least: u64) -> u64
    requires sound { IsSound mesh.now }
    requires there { IsThere mesh.now at }
    requires toward { IsToward toward }
{
    let gap = box_gap(extent_there(mesh, at), toward.goal);
    if gap >= least {
        return gap;
    }
    let polygon = polygon_there(mesh, at);
    gap + square_rise(&polygon, toward)
}

/// What was found, or the spot of the polygon at a place, if that is nearer. Of most polygons the box alone is looked at, and of most others
/// the box and the floors.
fn nearer_spot(
    mesh: &Mesh,
    reached: &[ReachedVertex],
    place: usize,
    toward: Toward,
    nearest: Spot,
) -> Spot
    requires sound { IsSound mesh.now }
    requires there { AreThere mesh.now reached.now }
    requires inside { place < length reached.now }
    requires toward { IsToward toward }
    requires nearest { IsSpotNear mesh.now toward reached.now nearest }
    ensures { IsNearerSpot mesh.now toward reached.now place nearest result }
{
    let at = polygon_at(reached[place].vertex);
    let gap = box_gap(extent_there(mesh, at), toward.goal);
    if is_farther(gap, nearest.near) {
        return nearest;
    }
    let polygon = polygon_there(mesh, at);
    let in_box = gap + square_rise(&polygon, toward);
    if is_farther(in_box, nearest.near) {
        return nearest;
    }
    if place == nearest.place {
        return nearest;
    }
    let spot = spot_in(mesh, reached, place, &polygon, toward);
    if is_no_worse(nearest, spot) {
        nearest
    } else {
        spot
    }
}

/// The spot of the polygon at a place.
fn spot_at(mesh: &Mesh, reached: &[ReachedVertex], place: usize, toward: Toward) -> Spot
    requires sound { IsSound mesh.now }
    requires there { AreThere mesh.now reached.now }
    requires inside { place < length reached.now }
    requires toward { IsToward toward }
    ensures spot { IsSpotNear mesh.now toward reached.now result }
    ensures place { result.place ≡ place }
{
    let polygon = polygon_there(mesh, polygon_at(reached[place].vertex));
    spot_in(mesh, reached, place, &polygon, toward)
}

/// The polygon that a reference names.
fn polygon_there(mesh: &Mesh, at: PolyRef) -> Polygon
    requires sound { IsSound mesh.now }
    requires there { IsThere mesh.now at }
    ensures { poly_at mesh.now at ≡ Some result }
{
    mesh.tiles
        .at(at.tile as usize)
        .get()
        .polys
        .at(at.index as usize)
}

/// The same, of the polygon as it is.
fn spot_in(
    mesh: &Mesh,
    reached: &[ReachedVertex],
    place: usize,
    polygon: &Polygon,
    toward: Toward,
) -> Spot
    requires sound { IsSound mesh.now }
    requires polygon { (entry : ReachedVertex) → slice_get reached.now place ≡ Some entry → poly_at mesh.now (polygon_of entry.vertex) ≡ Some polygon.now }
    requires inside { place < length reached.now }
    requires toward { IsToward toward }
    ensures spot { IsSpotNear mesh.now toward reached.now result }
    ensures place { result.place ≡ place }
{
    let entry = reached[place];
    let at = polygon_at(entry.vertex);
    let point = nearest_held(polygon, extent_at(mesh, at), toward.goal);
    Spot {
        place,
        cost: entry.cost,
        near: square_distance(toward.goal, point) + square_rise(polygon, toward),
        end: WayEnd {
            polygon: at,
            point,
            y: polygon.low,
        },
    }
}

/// What the height adds to how near the points of a polygon are.
fn square_rise(polygon: &Polygon, toward: Toward) -> u64
    requires rules { IsPolygon polygon.now }
    requires toward { IsToward toward }
    ensures value { result ≡ toward.rise * height_gap polygon.now toward.y * (toward.rise * height_gap polygon.now toward.y) }
    ensures bound { result ≤ 4503599627370496 }
{
    let gap = polygon
        .low
        .saturating_sub(toward.y)
        .max(toward.y.saturating_sub(polygon.high));
    let rise = u64::from(toward.rise) * u64::from(gap);
    rise * rise
}

/// Whether all points of a box are farther than what was found.
fn is_farther(in_box: u64, near: u64) -> bool
    ensures { MatchBool result (near < in_box) (in_box ≤ near) }
{
    near < in_box
}

/// Whether a spot is nearer than another, or as near and costs no more.
fn is_no_worse(a: Spot, b: Spot) -> bool
    ensures { MatchBool result (IsNoWorse a.near a.cost b.near b.cost) (IsNoWorse b.near b.cost a.near a.cost) }
{
    a.near < b.near || (a.near == b.near && a.cost <= b.cost)
}
