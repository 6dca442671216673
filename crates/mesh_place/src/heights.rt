//! The height at a point of a polygon. Whether a place is one of the mesh.

ghost use Rattle.std.specs.Prelude.{◌≡◌, ◌↔◌, IsTrue, IfSome, Some, IsNone};
ghost use Rattle.std.specs.Option.{option_copied};
ghost use Rattle.nav_base.specs.Point.{HasCoordinates};
ghost use Rattle.mesh_types.specs.Places.{IsPlace};
ghost use Rattle.mesh_types.specs.Rays.{IsHeldAt};
ghost use Rattle.mesh_types.specs.WholeMesh.{poly_at};
ghost use Rattle.mesh_types.specs.Soundness.{IsSound};
ghost use Rattle.mesh_place.specs.Heights.{IsRightHeight};
ghost use Rattle.mesh_place.specs.Floors.{IsFloorIn};

use crate::floors::{Aim, NearFloor, floor_toward};
use mesh_types::{Asked, Mesh, MeshPlace, PolyRef, Polygon, holds, poly, storey_of};
use nav_base::Point;
use std::alloc::{AllocError, Global};

/// The question for the height at a point of a polygon.
#[derive(Clone, Copy, PartialEq, Eq)]
pub struct HeightAt {
    pub polygon: PolyRef,
    /// In sixteenths of a cell.
    pub point: Point,
}

/// What the question for a height is answered.
#[derive(Clone, Copy, PartialEq, Eq, Drop)]
pub enum HeightAnswer {
    /// The floor, in height units, and the square of how far its cell is from the point, in sixteenths: 0 where the cell lies under it.
    Height { y: u32, aside: u64 },
    /// The polygon does not hold the point, or there is no such polygon.
    NoPlace,
}

impl Asked for HeightAt {
    ghost use Rattle.mesh_place.specs.Heights.{IsRightHeight};
    ghost use Rattle.nav_base.specs.Point.{HasCoordinates};

    type Answer = HeightAnswer;

    ghost can_ask = { λ asked. HasCoordinates asked.point };

    ghost is_right = { λ asked mesh answer. IsRightHeight mesh asked.polygon asked.point answer };

    fn ask(&self, _alloc: Global, mesh: &Mesh) -> Result<HeightAnswer, AllocError> {
        Ok(height(mesh, self.polygon, self.point))
    }
}

/// The highest floor at a point of a polygon.
pub fn height(mesh: &Mesh, at: PolyRef, p: Point) -> HeightAnswer
    requires sound { IsSound mesh.now }
    requires point { HasCoordinates p }
    ensures { IsRightHeight mesh.now at p result }
{
    match floor_at(mesh, at, Aim { p, y: u32::MAX }) {
        Some(floor) => HeightAnswer::Height {
            y: floor.y,
            aside: floor.aside,
        },
        None => HeightAnswer::NoPlace,
    }
}

/// The same, where the polygon is known to hold the point.
pub fn height_held(mesh: &Mesh, at: PolyRef, p: Point) -> HeightAnswer
    requires point { HasCoordinates p }
    requires held { IsHeldAt mesh.now p at }
    ensures { IsRightHeight mesh.now at p result }
{
    match floor_held(mesh, at, Aim { p, y: u32::MAX }) {
        Some(floor) => HeightAnswer::Height {
            y: floor.y,
            aside: floor.aside,
        },
        None => HeightAnswer::NoPlace,
    }
}

/// Whether a place is one of the mesh, where its polygon is known.
pub fn is_place_of(mesh: &Mesh, polygon: &Polygon, place: MeshPlace) -> bool
    requires sound { IsSound mesh.now }
    requires polygon { poly_at mesh.now place.polygon ≡ Some polygon.now }
    requires point { HasCoordinates place.point }
    ensures { IsTrue result ↔ IsPlace mesh.now place }
{
    let aim = Aim {
        p: place.point,
        y: place.y,
    };
    match floor_of(mesh, polygon, place.polygon, aim) {
        Some(floor) => floor.y == place.y,
        None => false,
    }
}

/// Whether a place is one of the mesh.
pub fn is_place(mesh: &Mesh, place: MeshPlace) -> bool
    requires sound { IsSound mesh.now }
    requires point { HasCoordinates place.point }
    ensures { IsTrue result ↔ IsPlace mesh.now place }
{
    match poly(mesh, place.polygon) {
        Some(polygon) => is_place_of(mesh, &polygon, place),
        None => false,
    }
}

/// The floor at a point of a polygon that is nearest to a height; none where the polygon does not hold the point.
fn floor_at(mesh: &Mesh, at: PolyRef, aim: Aim) -> Option<NearFloor>
    requires sound { IsSound mesh.now }
    requires point { HasCoordinates aim.p }
    ensures { IsFloorIn mesh.now at aim result }
{
    floor_of(mesh, &poly(mesh, at)?, at, aim)
}

/// The same, where the polygon is known.
fn floor_of(mesh: &Mesh, polygon: &Polygon, at: PolyRef, aim: Aim) -> Option<NearFloor>
    requires sound { IsSound mesh.now }
    requires polygon { poly_at mesh.now at ≡ Some polygon.now }
    requires point { HasCoordinates aim.p }
    ensures { IsFloorIn mesh.now at aim result }
{
    if !holds(polygon, aim.p) {
        return None;
    }
    floor_held(mesh, at, aim)
}

/// The same, where the polygon is known to hold the point.
fn floor_held(mesh: &Mesh, at: PolyRef, aim: Aim) -> Option<NearFloor>
    requires point { HasCoordinates aim.p }
    requires held { IsHeldAt mesh.now aim.p at }
    ensures { IsFloorIn mesh.now at aim result }
{
    floor_toward(storey_of(mesh, at)?, aim)
}
