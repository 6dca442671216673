//! Free cells of a layer of a field where agents keep a radius from obstacles: what lies near the obstacles alone says the same as all wide cells.

ghost use Rattle.std.specs.Prelude.{All};
ghost use Rattle.nav_ground.specs.Limits.{IsShape};

use crate::checks::same;
use crate::cuts::clear_layer;
use crate::rows::are_same;
use nav_ground::Shape;
use obstacle_mark::{mark, mark_kept};
use std::alloc::{AllocError, Global};
use std::process::Abort;

/// So many cells are left free, and the same as are by looking at all wide cells.
fn check(rt: &impl Abort, alloc: Global, shapes: &[Shape], wanted: usize) -> Result<(), AllocError>
    requires { All IsShape shapes.now }
{
    let layer = clear_layer(rt, alloc)?;
    let near = mark_kept(alloc, &layer, shapes)?;
    let whole = mark(alloc, &layer, shapes)?;
    same(rt, near.cells.len(), wanted);
    assert!(rt; are_same(near.cells.as_slice(), whole.cells.as_slice()));
    Ok(())
}

/// The column (3, 3).
const NEAR: Shape = Shape::Block {
    x0: 3,
    x1: 3,
    y0: 0,
    y1: 100,
    z0: 3,
    z1: 3,
};

/// The column (12, 12), in the other corner.
const FAR: Shape = Shape::Block {
    x0: 12,
    x1: 12,
    y0: 0,
    y1: 100,
    z0: 12,
    z1: 12,
};

/// The column (1, 3), which is none of the layer, but beside one that is.
const EDGE: Shape = Shape::Block {
    x0: 1,
    x1: 1,
    y0: 0,
    y1: 100,
    z0: 3,
    z1: 3,
};

/// All columns, above the floor.
const TOO_HIGH: Shape = Shape::Block {
    x0: 0,
    x1: 15,
    y0: 11,
    y1: 100,
    z0: 0,
    z1: 15,
};

/// All columns, area 5.
const MUD: Shape = Shape::AreaBlock {
    area: 5,
    x0: 0,
    x1: 15,
    y0: 0,
    y1: 100,
    z0: 0,
    z1: 15,
};

/// A blocked column takes itself and the four columns beside it.
#[test]
fn takes_cells_near_obstacles(rt: HostRuntime) -> Result<(), AllocError> {
    let alloc = rt.alloc();
    check(&rt, alloc, &[NEAR], 139)?;
    check(&rt, alloc, &[NEAR, FAR], 134)?;
    check(&rt, alloc, &[EDGE], 143)
}

#[test]
fn takes_none_where_none_is_blocked(rt: HostRuntime) -> Result<(), AllocError> {
    let alloc = rt.alloc();
    check(&rt, alloc, &[], 144)?;
    check(&rt, alloc, &[TOO_HIGH], 144)?;
    check(&rt, alloc, &[MUD], 144)
}
