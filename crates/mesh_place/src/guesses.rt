//! Guesses at where the nearest place is, of which nothing is promised: a good one leaves little to be looked at after it.

ghost use Rattle.std.specs.Prelude.{All, ◌<◌, length};
ghost use Rattle.nav_base.specs.Point.{HasCoordinates, IsCellCorner};
ghost use Rattle.nav_ground.specs.Limits.{IsSetting};
ghost use Rattle.mesh_types.specs.FitTiles.{IsPolygon};
ghost use Rattle.mesh_place.specs.Nearest.{CanAskNear};

use crate::bounds::{ReachSquare, meets, square_around};
use crate::boxes::box_gap;
use crate::near::{Near, is_open, square_distance};
use mesh_types::{Polygon, Polygons, edge_ends};
use nav_base::{Point, ceil_sqrt, orient};
use nav_ground::{Setting, TileNo};

/// Where the nearest place of a polygon is likely to be.
#[derive(Clone, Copy)]
struct Likely {
    /// The square of how far it is in the plane, in sixteenths.
    flat: u64,
    /// What its height adds to the measure.
    high: u64,
}

/// The place of the polygon of a tile that is likely to have the nearest place, by how far it is and by its range of floors; that of none
/// where none has a place in reach by these. The first that holds the point, with a floor that is not far, is taken at once.
pub(crate) fn likely_polygon(polygons: &Polygons, climb: u32, asked: &Near) -> u32
    requires polygons { All IsPolygon polygons.now }
    requires asked { CanAskNear asked.now }
{
    let square = square_around(asked.point, asked.reach);
    let close = height_square(climb, asked, CLOSE_FLOORS);
    let mut likely = u32::MAX;
    let mut least = u64::MAX;
    let mut place = 0_u32;
    for i in 0..polygons.len() {
        if let Some(found) = likely_of(polygons, i, climb, asked, &square, least) {
            least = found.flat.wrapping_add(found.high);
            likely = place;
            if found.flat == 0 && found.high <= close {
                return likely;
            }
        }
        place = place.wrapping_add(1);
    }
    likely
}

/// How far a floor may be from the height asked for, in height units, that is taken for the one meant.
const CLOSE_FLOORS: u32 = 64;

/// Where the nearest place of a polygon in a square is likely to be, if its measure is then less than another. Where the point lies outside
/// the polygon's box, the box stands for the polygon.
fn likely_of(
    polygons: &Polygons,
    place: usize,
    climb: u32,
    asked: &Near,
    square: &ReachSquare,
    least: u64,
) -> Option<Likely>
    requires polygons { All IsPolygon polygons.now }
    requires there { place < length polygons.now }
    requires asked { CanAskNear asked.now }
{
    let extent = polygons.extent(place);
    if !meets(square, extent) {
        return None;
    }
    let gap = box_gap(extent, asked.point);
    if gap >= least || !is_open(asked.areas, extent.area) {
        return None;
    }
    let polygon = polygons.at(place);
    let high = height_square(climb, asked, floors_off(&polygon, asked)?);
    let flat = if gap > 0 {
        gap
    } else if high >= least {
        return None;
    } else {
        square_outside(&polygon, asked.point).unwrap_or(0)
    };
    if flat.wrapping_add(high) >= least {
        return None;
    }
    Some(Likely { flat, high })
}

/// What a floor that is so far off adds to the measure.
fn height_square(climb: u32, asked: &Near, off: u32) -> u64 {
    let over = u64::from(asked.weight).wrapping_mul(u64::from(off.saturating_sub(climb)));
    over.wrapping_mul(over)
}

/// How far the range of a polygon's floors is from the height asked for; none where it is out of reach.
fn floors_off(polygon: &Polygon, asked: &Near) -> Option<u32> {
    let below = asked.y.saturating_sub(polygon.high);
    let above = polygon.low.saturating_sub(asked.y);
    if below > asked.down || above > asked.up {
        return None;
    }
    Some(below.max(above))
}

/// How far a polygon is from a point, in sixteenths, rounded up; 0 where it holds the point.
pub(crate) fn likely_reach(polygon: &Polygon, p: Point) -> u32
    requires corners { All IsCellCorner polygon.now.corners }
    requires point { HasCoordinates p }
{
    match square_outside(polygon, p) {
        Some(square) if square <= 68719476736 => ceil_sqrt(square).wrapping_add(1),
        _ => 0,
    }
}

/// The square of how far a polygon is from a point, in sixteenths, about; none where it holds the point.
fn square_outside(polygon: &Polygon, p: Point) -> Option<u64>
    requires corners { All IsCellCorner polygon.now.corners }
    requires point { HasCoordinates p }
{
    let mut least = None;
    for edge in 0..polygon.corners.as_slice().len() {
        let (begin, end) = edge_ends(polygon, edge);
        if orient(begin, end, p) < 0 {
            least = Some(square_to_edge(begin, end, p).min(least.unwrap_or(u64::MAX)));
        }
    }
    least
}

/// The square of how far an edge is from a point, in sixteenths.
fn square_to_edge(begin: Point, end: Point, p: Point) -> u64
    requires begin { HasCoordinates begin }
    requires end { HasCoordinates end }
    requires point { HasCoordinates p }
{
    let reached = reached_along(begin, end, p);
    if reached <= 0 {
        return square_distance(begin, p);
    }
    let length = square_distance(begin, end);
    if reached.unsigned_abs() >= length {
        return square_distance(end, p);
    }
    let aside = orient(begin, end, p).unsigned_abs() / 16;
    aside.wrapping_mul(aside) / (length / 256).max(1)
}

/// How far along an edge a point lies, as a product.
fn reached_along(begin: Point, end: Point, p: Point) -> i64
    requires begin { HasCoordinates begin }
    requires end { HasCoordinates end }
    requires point { HasCoordinates p }
{
    let across = i64::from(end.x - begin.x).wrapping_mul(i64::from(p.x - begin.x));
    let along = i64::from(end.z - begin.z).wrapping_mul(i64::from(p.z - begin.z));
    across.wrapping_add(along)
}

/// The number of the tile that is nearest to a point.
pub(crate) fn likely_tile(setting: &Setting, p: Point) -> TileNo
    requires { IsSetting setting.now }
{
    let side = 16 * setting.tile;
    let across = setting.width.div_ceil(setting.tile);
    let along = setting.depth.div_ceil(setting.tile);
    let column = (p.x.max(0).unsigned_abs() / side).min(across.saturating_sub(1));
    let row = (p.z.max(0).unsigned_abs() / side).min(along.saturating_sub(1));
    row.wrapping_mul(across).wrapping_add(column)
}
