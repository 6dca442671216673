//! The straight way, from polygon to polygon.

ghost use Rattle.std.specs.Prelude.{◌≡◌, ◌↔◌, ◌^◌, All, IfSome, IsNone, IsTrue, Some};
ghost use Rattle.nav_base.specs.Point.{IsCellCorner, IsWithin};
ghost use Rattle.mesh_types.specs.Soundness.{IsSound};
ghost use Rattle.mesh_types.specs.WholeMesh.{poly_at};
ghost use Rattle.fine_walk.specs.FineRays.{HasFineWay, IsFineHeld};
ghost use Rattle.fine_walk.specs.Laws.{IsToldWay};
ghost use Rattle.fine_walk.specs.Passing.{IsThere, passed_over};

use crate::exits::{FineRay, least_exit};
use crate::fine_points::fine_holds;
use crate::onward::{Crossing, next_link};
use mesh_types::{Mesh, PolyRef, Polygon, poly};
use nav_base::Point;

/// How many polygons a straight way may pass over.
const MOST_POLYGONS: usize = 24;

/// Where a straight way ends, and what it passes over.
#[derive(Clone, Copy, PartialEq, Eq)]
pub struct FineWay {
    /// The polygon in which it ends.
    pub last: PolyRef,
    /// The least and the greatest floor of the polygons that it passes over, in height units.
    pub low: u32,
    pub high: u32,
}

/// The straight way from one fine point to another, begun in a polygon that holds the first, over polygons of the areas that may be entered: bit a
/// of `areas` for area a. None exactly where there is no such way.
pub fn fine_walk(mesh: &Mesh, areas: u64, first: PolyRef, from: Point, to: Point) -> Option<FineWay>
    requires sound { IsSound mesh.now }
    requires start { IsFineHeld mesh.now from first }
    requires from { IsWithin (2 ^ 20) from }
    requires to { IsWithin (2 ^ 20) to }
    ensures some { IfSome result (λ way. IsToldWay mesh.now areas first from to way) }
    ensures none { IsNone result → HasFineWay mesh.now areas first from to → ⊥ }
{
    let ray = FineRay { from, to };
    let mut visited = [first; MOST_POLYGONS];
    let mut way = FineWay {
        last: first,
        low: u32::MAX,
        high: 0,
    };
    for count in 0..MOST_POLYGONS {
        let at = way.last;
        visited[count] = at;
        let polygon = polygon_at(mesh, at);
        way = over(way, &polygon);
        let Some(exit) = least_exit(&polygon, ray) else {
            return Some(way);
        };
        let crossing = Crossing {
            mesh,
            areas,
            polygon: &polygon,
            ray,
            exit,
        };
        let Some(link) = next_link(at, crossing, &visited[..count + 1]) else {
            return None;
        };
        way.last = link.to;
    }
    None
}

/// A way that passes over a polygon more.
fn over(way: FineWay, polygon: &Polygon) -> FineWay
    ensures { result ≡ passed_over way polygon.now }
{
    FineWay {
        last: way.last,
        low: way.low.min(polygon.low),
        high: way.high.max(polygon.high),
    }
}

/// The polygon that a reference names.
fn polygon_at(mesh: &Mesh, at: PolyRef) -> Polygon
    requires sound { IsSound mesh.now }
    requires there { IsThere mesh.now at }
    ensures named { poly_at mesh.now at ≡ Some result }
    ensures corners { All IsCellCorner result.corners }
{
    poly(mesh, at).unwrap()
}

/// Whether a polygon of the mesh holds a fine point.
pub fn is_fine_held(mesh: &Mesh, at: PolyRef, p: Point) -> bool
    requires sound { IsSound mesh.now }
    requires point { IsWithin (2 ^ 20) p }
    ensures { IsTrue result ↔ IsFineHeld mesh.now p at }
{
    match poly(mesh, at) {
        Some(polygon) => fine_holds(&polygon, p),
        None => false,
    }
}
