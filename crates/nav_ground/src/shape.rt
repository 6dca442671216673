//! Obstacles: what they cover and how far they reach.

ghost use Rattle.std.specs.Prelude.{◌≡◌, ℕ, ◌↔◌, ◌≤◌, IsTrue};
ghost use Rattle.nav_ground.specs.Limits.{IsShape};
ghost use Rattle.nav_ground.specs.Shapes.{Covers, IsWithinReach, is_covering, bounds_of, area_set_by};
ghost use Rattle.nav_ground.specs.Discs;
ghost use Rattle.nav_ground.specs.Prisms.{IsNearPoint, IsPrismBase, corners_of};
ghost use Rattle.nav_ground.specs.Tiling.{IsInWindow};

use crate::cell::Window;
use crate::disc;
use crate::prism::{self, PrismBase};
use nav_base::Point;

/// An obstacle. Ranges are closed and do not run backwards: x and z in columns, 0 to 1023, and y in height units, 0 to 8191. A cylinder's
/// centre is in half cells, 0 to 2048, and its r in cells, 0 to 1023; it reaches the columns whose middle is at most r cells and a half
/// from the centre. A shape covers a cell in reach whose floor lies in y0 to y1. A block or cylinder stops agents; an area block or area
/// cylinder gives the cells that it covers another area, 1 to 63. A shape may lie outside the field, and then covers nothing.
///
/// A prism's base and a disc's centre and radius are in sixteenths of a cell, the centre's parts -16384 to 81920 and the radius 1 to 16384. With
/// the area 0 they stop agents, and cover each column with which they share area; with an area they set it, and cover the columns whose
/// middles they hold.
#[derive(Clone, Copy, PartialEq, Eq, Debug)]
pub enum Shape {
    Block {
        x0: u32,
        x1: u32,
        y0: u32,
        y1: u32,
        z0: u32,
        z1: u32,
    },
    Cylinder {
        cx: u32,
        cz: u32,
        r: u32,
        y0: u32,
        y1: u32,
    },
    AreaBlock {
        area: u32,
        x0: u32,
        x1: u32,
        y0: u32,
        y1: u32,
        z0: u32,
        z1: u32,
    },
    AreaCylinder {
        area: u32,
        cx: u32,
        cz: u32,
        r: u32,
        y0: u32,
        y1: u32,
    },
    Prism {
        base: PrismBase,
        area: u32,
        y0: u32,
        y1: u32,
    },
    Disc {
        x: i32,
        z: i32,
        r: u32,
        area: u32,
        y0: u32,
        y1: u32,
    },
}

/// Whether a number lies in a closed range.
fn is_in(low: u32, high: u32, n: u32) -> bool
    ensures { result ≡ Rattle.nav_ground.specs.Shapes.is_in low high n }
{
    low <= n && n <= high
}

/// Whether the middle of a column lies in a disc. Centre in half cells, radius in cells; all is measured in half cells,
/// where the middle of column x is 2x + 1 and the disc's radius is 2r + 1.
fn is_in_disc(cx: u32, cz: u32, r: u32, x: u32, z: u32) -> bool
    requires { r ≤ 1023 }
    ensures { result ≡ Rattle.nav_ground.specs.Shapes.is_in_disc cx cz r x z }
{
    disc::is_within(
        (2 * x as u64 + 1).abs_diff(cx as u64),
        (2 * z as u64 + 1).abs_diff(cz as u64),
        2 * r as u64 + 1,
    )
}

/// Whether an obstacle covers the cell of a column with a floor.
pub fn covers(shape: &Shape, x: u32, z: u32, floor: u32) -> bool
    requires { IsShape shape.now }
    ensures test { result ≡ is_covering shape.now x z floor }
    ensures covered { IsTrue result ↔ Covers shape.now x z floor }
{
    match *shape {
        Shape::Block {
            x0,
            x1,
            y0,
            y1,
            z0,
            z1,
        } => is_in(x0, x1, x) && is_in(z0, z1, z) && is_in(y0, y1, floor),
        Shape::Cylinder { cx, cz, r, y0, y1 } => is_in_disc(cx, cz, r, x, z)
            && is_in(y0, y1, floor),
        Shape::AreaBlock {
            area: _,
            x0,
            x1,
            y0,
            y1,
            z0,
            z1,
        } => is_in(x0, x1, x) && is_in(z0, z1, z) && is_in(y0, y1, floor),
        Shape::AreaCylinder {
            area: _,
            cx,
            cz,
            r,
            y0,
            y1,
        } => is_in_disc(cx, cz, r, x, z) && is_in(y0, y1, floor),
        Shape::Prism { base, area, y0, y1 } => is_under_base(&base, area, x, z)
            && is_in(y0, y1, floor),
        Shape::Disc {
            x: cx,
            z: cz,
            r,
            area,
            y0,
            y1,
        } => is_under_disc(cx, cz, r, area, x, z) && is_in(y0, y1, floor),
    }
}

/// Whether a prism covers a column: by shared area where it stops agents, by its middle where it sets an area.
fn is_under_base(base: &PrismBase, area: u32, x: u32, z: u32) -> bool
    requires { IsPrismBase base.now }
    ensures { result ≡ Rattle.nav_ground.specs.Prisms.is_under_base area (corners_of base.now) x z }
{
    if area == 0 {
        prism::shares_area(base, x, z)
    } else {
        prism::holds_middle(prism::corners(base), x, z)
    }
}

/// The same for a disc.
fn is_under_disc(cx: i32, cz: i32, r: u32, area: u32, x: u32, z: u32) -> bool
    requires { r ≤ 16384 }
    ensures { result ≡ Rattle.nav_ground.specs.Discs.is_under_disc area cx cz r x z }
{
    if area == 0 {
        disc::reaches_into(cx, cz, r, x, z)
    } else {
        disc::holds_middle(cx, cz, r, x, z)
    }
}

/// A rectangle that holds every column the obstacle covers: a block's ranges; of a cylinder the columns whose middle is, along each
/// axis, at most r cells and a half from the centre; of a prism or disc those with which its box shares area. It may lie outside the field.
pub fn bounds(shape: &Shape) -> Window
    requires { IsShape shape.now }
    ensures value { result ≡ bounds_of shape.now }
    ensures columns { (x z : ℕ) → IsInWindow result x z ↔ IsWithinReach shape.now x z }
    ensures covered { (x z floor : ℕ) → Covers shape.now x z floor → IsInWindow result x z }
{
    match *shape {
        Shape::Block { x0, x1, z0, z1, .. } => block_bounds(x0, x1, z0, z1),
        Shape::Cylinder { cx, cz, r, .. } => disc_bounds(cx, cz, r),
        Shape::AreaBlock { x0, x1, z0, z1, .. } => block_bounds(x0, x1, z0, z1),
        Shape::AreaCylinder { cx, cz, r, .. } => disc_bounds(cx, cz, r),
        Shape::Prism { base, .. } => prism::base_window(prism::corners(&base)),
        Shape::Disc { x, z, r, .. } => square_bounds(x, z, r),
    }
}

/// The area that an obstacle gives to the cells that it covers; none where it stops agents instead.
pub fn sets(shape: &Shape) -> Option<u32>
    ensures { result ≡ area_set_by shape.now }
{
    match *shape {
        Shape::Block { .. } | Shape::Cylinder { .. } => None,
        Shape::AreaBlock { area, .. } | Shape::AreaCylinder { area, .. } => Some(area),
        Shape::Prism { area, .. } | Shape::Disc { area, .. } => painted(area),
    }
}

/// The area that a prism or a disc sets.
fn painted(area: u32) -> Option<u32>
    ensures { result ≡ Rattle.nav_ground.specs.Shapes.painted area }
{
    if area == 0 { None } else { Some(area) }
}

fn block_bounds(x0: u32, x1: u32, z0: u32, z1: u32) -> Window
    requires x { (x0 ≤ 1023) × (x1 ≤ 1023) }
    requires z { (z0 ≤ 1023) × (z1 ≤ 1023) }
    ensures { result ≡ Rattle.nav_ground.specs.Shapes.block_window x0 x1 z0 z1 }
{
    Window {
        x0: x0 as i32,
        x1: x1 as i32,
        z0: z0 as i32,
        z1: z1 as i32,
    }
}

fn disc_bounds(cx: u32, cz: u32, r: u32) -> Window
    requires centre { (cx ≤ 2048) × (cz ≤ 2048) }
    requires radius { r ≤ 1023 }
    ensures { result ≡ Rattle.nav_ground.specs.Shapes.disc_window cx cz r }
{
    Window {
        x0: cx.div_ceil(2) as i32 - (r + 1) as i32,
        x1: (cx / 2 + r) as i32,
        z0: cz.div_ceil(2) as i32 - (r + 1) as i32,
        z1: (cz / 2 + r) as i32,
    }
}

fn square_bounds(x: i32, z: i32, r: u32) -> Window
    requires centre { IsNearPoint (record { x = x; z = z }) }
    requires radius { r ≤ 16384 }
    ensures { result ≡ Rattle.nav_ground.specs.Shapes.square_window x z r }
{
    let r = r as i32;
    prism::window(Point { x: x - r, z: z - r }, Point { x: x + r, z: z + r })
}
