//! Obstacles as solids: prisms at any angle and discs where they stand, beside the blocks and cylinders of `nav_handle`.

ghost use Rattle.std.specs.Prelude.{◌≡◌, ◌↔◌, IsTrue, IfSome, IsNone};
ghost use Rattle.nav_ground.specs.Limits.{IsDisc, IsPrism, IsShape};
ghost use Rattle.nav_ground.specs.Prisms.{IsPrismBase};
ghost use Rattle.nav_ground.specs.declared.shape.Shape.{Shape};
ghost use Rattle.registry_handle.specs.Solids.{IsSolid, disc_of, prism_of};

use nav_base::Point;
use nav_ground::{PrismBase, Shape, corners, is_near, prism_base};
use nav_handle::{NavdBlock, NavdCylinder, NavdPoint, block_shape, cylinder_shape, point_of};

/// A prism: how many corners its base has, these corners counterclockwise, and heights y0 to y1. What stands behind the last corner is not
/// read.
#[repr(C)]
#[derive(Clone, Copy)]
pub struct NavdPrism {
    pub corners: u32,
    pub first: NavdPoint,
    pub second: NavdPoint,
    pub third: NavdPoint,
    pub fourth: NavdPoint,
    pub fifth: NavdPoint,
    pub sixth: NavdPoint,
    pub y0: u32,
    pub y1: u32,
}

/// A disc: its centre and its radius in sixteenths of a cell, and heights y0 to y1.
#[repr(C)]
#[derive(Clone, Copy)]
pub struct NavdDisc {
    pub x: i32,
    pub z: i32,
    pub r: u32,
    pub y0: u32,
    pub y1: u32,
}

/// An obstacle: its kind, the area that it gives or 0 where it stops agents, and its numbers; those of what it is not are not read.
#[repr(C)]
#[derive(Clone, Copy)]
pub struct NavdSolid {
    pub kind: u32,
    pub area: u32,
    pub block: NavdBlock,
    pub cylinder: NavdCylinder,
    pub prism: NavdPrism,
    pub disc: NavdDisc,
}

pub(crate) const BLOCK: u32 = 0;

pub(crate) const CYLINDER: u32 = 1;

pub(crate) const PRISM: u32 = 2;

pub(crate) const DISC: u32 = 3;

/// What stands in a place of a base with some corners.
fn corner_in(corners: u32, place: u32, corner: NavdPoint) -> Point
    ensures { result ≡ Rattle.registry_handle.specs.Solids.corner_in corners place corner }
{
    if place < corners {
        point_of(corner)
    } else {
        Point { x: 0, z: 0 }
    }
}

fn base_of(prism: &NavdPrism) -> PrismBase
    ensures { result ≡ Rattle.registry_handle.specs.Solids.base_of prism.now }
{
    let count = prism.corners;
    PrismBase {
        count,
        corners: [
            corner_in(count, 0, prism.first),
            corner_in(count, 1, prism.second),
            corner_in(count, 2, prism.third),
            corner_in(count, 3, prism.fourth),
            corner_in(count, 4, prism.fifth),
            corner_in(count, 5, prism.sixth),
        ],
    }
}

/// Whether a base keeps the rules of bases.
fn is_base(base: &PrismBase) -> bool
    ensures { IsTrue result ↔ IsPrismBase base.now }
{
    base.count <= 6 && prism_base(corners(base)).is_some()
}

/// Whether a prism's numbers are in their limits.
fn is_prism(base: &PrismBase, area: u32, y0: u32, y1: u32) -> bool
    ensures { IsTrue result ↔ IsPrism base.now area y0 y1 }
{
    area <= 63 && y0 <= y1 && y1 <= 8191 && is_base(base)
}

/// Whether a disc's numbers are in their limits.
fn is_disc(disc: &NavdDisc, area: u32) -> bool
    ensures { IsTrue result ↔ IsDisc disc.now.x disc.now.z disc.now.r area disc.now.y0 disc.now.y1 }
{
    1 <= disc.r
        && disc.r <= 16384
        && area <= 63
        && disc.y0 <= disc.y1
        && disc.y1 <= 8191
        && is_near(Point {
            x: disc.x,
            z: disc.z,
        })
}

/// A prism as an obstacle, which sets an area or, with the area 0, stops agents; none exactly where a number is out of its limits.
pub fn prism_shape(prism: &NavdPrism, area: u32) -> Option<Shape>
    ensures shape { IfSome result (λ shape. shape ≡ prism_of area prism.now) }
    ensures limits { IfSome result IsShape }
    ensures none { IsNone result ↔ (IsShape (prism_of area prism.now) → ⊥) }
{
    let base = base_of(prism);
    let NavdPrism { y0, y1, .. } = *prism;
    if !is_prism(&base, area, y0, y1) {
        return None;
    }
    Some(Shape::Prism { base, area, y0, y1 })
}

/// A disc as an obstacle, likewise.
pub fn disc_shape(disc: &NavdDisc, area: u32) -> Option<Shape>
    ensures shape { IfSome result (λ shape. shape ≡ disc_of area disc.now) }
    ensures limits { IfSome result IsShape }
    ensures none { IsNone result ↔ (IsShape (disc_of area disc.now) → ⊥) }
{
    if !is_disc(disc, area) {
        return None;
    }
    let NavdDisc { x, z, r, y0, y1 } = *disc;
    Some(Shape::Disc {
        x,
        z,
        r,
        area,
        y0,
        y1,
    })
}

/// A solid as an obstacle; none exactly where it has no kind or a number is out of its limits.
pub(crate) fn solid_shape(solid: &NavdSolid) -> Option<Shape>
    ensures shape { IfSome result (IsSolid solid.now) }
    ensures none { IsNone result → (shape : Shape) → IsSolid solid.now shape → ⊥ }
{
    let NavdSolid { kind, area, .. } = *solid;
    if kind == BLOCK {
        return block_shape(&solid.block, area);
    }
    if kind == CYLINDER {
        return cylinder_shape(&solid.cylinder, area);
    }
    if kind == PRISM {
        return prism_shape(&solid.prism, area);
    }
    if kind == DISC {
        return disc_shape(&solid.disc, area);
    }
    None
}
