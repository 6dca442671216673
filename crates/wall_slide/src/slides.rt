//! Where a slide ends: of the points in reach that the polygons hold which it looks at, one nearest to its target.

ghost use Rattle.std.specs.Prelude.{◌≡◌, ◌↔◌, All, Contains, IfOk, IsTrue, Some};
ghost use Rattle.nav_base.specs.Point.{HasCoordinates};
ghost use Rattle.mesh_types.specs.FitTiles.{IsPolygon};
ghost use Rattle.mesh_types.specs.Rays.{IsHeldAt};
ghost use Rattle.mesh_types.specs.Soundness.{IsSound};
ghost use Rattle.mesh_types.specs.WholeMesh.{poly_at};
ghost use Rattle.wall_slide.specs.Slides.{CanSlide, EndsNoFarther, IsFloorTold, IsRightSlide, LooksAt, StartsIn};
ghost use Rattle.wall_slide.specs.Ends.{IsEnd, IsNearerEnd, IsNearestEnd, IsThere};

use crate::around::{Gathered, gather};
use crate::discs::Motion;
use crate::feet::nearer_in;
use crate::questions::{Slide, SlideAnswer};
use mesh_place::{HeightAnswer, height_held, is_place_of};
use mesh_types::{Asked, Mesh, MeshPlace, PolyRef, Polygon, holds, poly};
use nav_base::Point;
use std::alloc::{AllocError, Global};

/// A polygon, and a point that it holds.
#[derive(Clone, Copy)]
pub(crate) struct SlideEnd {
    pub(crate) polygon: PolyRef,
    pub(crate) point: Point,
}

/// Where a slide from a place toward a point ends. Only memory can be refused.
pub fn slide(alloc: Global, mesh: &Mesh, asked: &Slide) -> Result<SlideAnswer, AllocError>
    requires sound { IsSound mesh.now }
    requires asked { CanSlide asked.now }
    ensures right { IfOk result (IsRightSlide mesh.now asked.now) }

    // It ends no farther from the target than it begins.
    ensures no_farther { IfOk result (EndsNoFarther asked.now) }
{
    let Some(polygon) = poly(mesh, asked.from.polygon) else {
        return Ok(SlideAnswer::NoStart);
    };
    if !is_place_of(mesh, &polygon, asked.from) {
        return Ok(SlideAnswer::NoStart);
    }
    let end = end_of(alloc, mesh, &polygon, asked)?;
    Ok(SlideAnswer::Slid(place_at(mesh, end)))
}

impl Asked for Slide {
    ghost use Rattle.wall_slide.specs.Slides.{CanSlide, IsRightSlide};

    type Answer = SlideAnswer;

    ghost can_ask = { λ asked. CanSlide asked };

    ghost is_right = { λ asked mesh answer. IsRightSlide mesh asked answer };

    fn ask(&self, alloc: Global, mesh: &Mesh) -> Result<SlideAnswer, AllocError> {
        slide(alloc, mesh, self)
    }
}

/// The end of a slide that begins at a place, of a polygon that is known.
fn end_of(
    alloc: Global,
    mesh: &Mesh,
    polygon: &Polygon,
    asked: &Slide,
) -> Result<SlideEnd, AllocError>
    requires sound { IsSound mesh.now }
    requires polygon { poly_at mesh.now asked.now.from.polygon ≡ Some polygon.now }
    requires rules { IsPolygon polygon.now }
    requires start { StartsIn mesh.now asked.now }
    ensures { IfOk result (IsNearestEnd mesh.now asked.now (LooksAt mesh.now asked.now)) }
{
    if holds(polygon, asked.to) {
        return Ok(SlideEnd {
            polygon: asked.from.polygon,
            point: asked.to,
        });
    }
    match gather(alloc, mesh, asked)? {
        Gathered::Target(at) => Ok(SlideEnd {
            polygon: at,
            point: asked.to,
        }),
        Gathered::All(list) => Ok(nearest_end(mesh, asked, list.as_slice())),
    }
}

/// The nearest end in polygons that a slide looks at, of which the start's is one.
fn nearest_end(mesh: &Mesh, asked: &Slide, list: &[PolyRef]) -> SlideEnd
    requires sound { IsSound mesh.now }
    requires start { StartsIn mesh.now asked.now }
    requires list { All (LooksAt mesh.now asked.now) list.now }
    requires first { Contains list.now asked.now.from.polygon }
    ensures { IsNearestEnd mesh.now asked.now (Contains list.now) result }
{
    let mut best = SlideEnd {
        polygon: asked.from.polygon,
        point: asked.from.point,
    };
    for at in list {
        best = nearer_end(mesh, asked, *at, best);
    }
    best
}

/// An end, or a nearer one in a polygon.
fn nearer_end(mesh: &Mesh, asked: &Slide, at: PolyRef, best: SlideEnd) -> SlideEnd
    requires sound { IsSound mesh.now }
    requires start { StartsIn mesh.now asked.now }
    requires looks { LooksAt mesh.now asked.now at }
    requires best { IsEnd mesh.now asked.now best }
    ensures { IsNearerEnd mesh.now asked.now at best result }
{
    let motion = Motion {
        from: asked.from.point,
        to: asked.to,
    };
    let point = nearer_in(&polygon_at(mesh, at), motion, best.point);
    if is_same(point, best.point) {
        return best;
    }
    SlideEnd { polygon: at, point }
}

/// Whether two points are the same.
fn is_same(a: Point, b: Point) -> bool
    ensures { IsTrue result ↔ (a ≡ b) }
{
    a.x == b.x && a.z == b.z
}

/// The polygon that a reference names.
fn polygon_at(mesh: &Mesh, at: PolyRef) -> Polygon
    requires sound { IsSound mesh.now }
    requires there { IsThere mesh.now at }
    ensures named { poly_at mesh.now at ≡ Some result }
    ensures rules { IsPolygon result }
{
    poly(mesh, at).unwrap()
}

/// The place at the end of a slide, with the floor there.
fn place_at(mesh: &Mesh, end: SlideEnd) -> MeshPlace
    requires point { HasCoordinates end.point }
    requires held { IsHeldAt mesh.now end.point end.polygon }
    ensures polygon { result.polygon ≡ end.polygon }
    ensures point { result.point ≡ end.point }
    ensures floor { IsFloorTold mesh.now result }
{
    let y = match height_held(mesh, end.polygon, end.point) {
        HeightAnswer::Height { y, .. } => y,
        HeightAnswer::NoPlace => 0,
    };
    MeshPlace {
        polygon: end.polygon,
        point: end.point,
        y,
    }
}
