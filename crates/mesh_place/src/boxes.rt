//! How far a point lies outside a box of whole cells.

ghost use Rattle.std.specs.Prelude.{◌≡◌, ◌≤◌};
ghost use Rattle.nav_base.specs.Point.{HasCoordinates, IsCellCorner};
ghost use Rattle.mesh_types.specs.Places.{outside};
ghost use Rattle.mesh_place.specs.Columns.{over_by};
ghost use Rattle.mesh_place.specs.Searches.{box_gap};

use crate::near::{across, along};
use mesh_types::{Extent, in_sixteenths};
use nav_base::Point;

/// The square of how far a point, in sixteenths of a cell, lies outside a box of whole cells; 0 for one inside.
pub fn box_gap(extent: Extent, p: Point) -> u64
    requires low { IsCellCorner extent.low }
    requires high { IsCellCorner extent.high }
    requires point { HasCoordinates p }
    ensures { result ≡ box_gap extent p }
{
    let low = in_sixteenths(extent.low);
    let high = in_sixteenths(extent.high);
    let across = across_out(low, high, p);
    let along = along_out(low, high, p);
    across * across + along * along
}

/// How far a point lies outside two others across.
fn across_out(low: Point, high: Point, p: Point) -> u64
    requires low { HasCoordinates low }
    requires high { HasCoordinates high }
    requires point { HasCoordinates p }
    ensures value { result ≡ outside low.x high.x p.x }
    ensures bound { result ≤ 131072 }
{
    left_by(p, low).max(left_by(high, p))
}

/// How far a point lies left of another; 0 where it does not.
fn left_by(a: Point, b: Point) -> u64
    requires first { HasCoordinates a }
    requires second { HasCoordinates b }
    ensures value { result ≡ over_by a.x b.x }
    ensures bound { result ≤ 131072 }
{
    if a.x < b.x { across(a, b) } else { 0 }
}

/// How far a point lies outside two others along.
fn along_out(low: Point, high: Point, p: Point) -> u64
    requires low { HasCoordinates low }
    requires high { HasCoordinates high }
    requires point { HasCoordinates p }
    ensures value { result ≡ outside low.z high.z p.z }
    ensures bound { result ≤ 131072 }
{
    below_by(p, low).max(below_by(high, p))
}

/// How far a point lies below another; 0 where it does not.
fn below_by(a: Point, b: Point) -> u64
    requires first { HasCoordinates a }
    requires second { HasCoordinates b }
    ensures value { result ≡ over_by a.z b.z }
    ensures bound { result ≤ 131072 }
{
    if a.z < b.z { along(a, b) } else { 0 }
}
