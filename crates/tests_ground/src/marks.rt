//! Free cells by hand.

ghost use Rattle.std.specs.Prelude.{IfOk, All};
ghost use Rattle.nav_ground.specs.Limits.{IsShape};
ghost use Rattle.nav_ground.specs.Cells.{IsLayer};

use crate::checks::same;
use crate::kept::check_kept;
use crate::rows::{CellRow, NO, check_cells, stored};
use nav_ground::{Layer, PaddedCells, Shape};
use obstacle_mark::mark;
use std::alloc::{AllocError, Global};
use std::process::Abort;

/// The four columns from (1, 1) to (2, 2); the cell of (2, 1) is connected to one of (3, 1) too, which lies in another tile.
static CELLS: [CellRow; 4] = [
    ((1, 1, 0), (3, 65535, 63), (NO, 0, 0, NO)),
    ((2, 1, 0), (4, 65535, 63), (0, 0, 7, NO)),
    ((1, 2, 0), (5, 65535, 63), (NO, NO, 0, 0)),
    ((2, 2, 0), (6, 65535, 63), (0, NO, NO, 0)),
];

fn layer(alloc: Global) -> Result<Layer, AllocError>
    ensures { IfOk result IsLayer }
{
    Ok(Layer {
        tile: 5,
        cells: stored(alloc, &CELLS)?,
        radius: 0,
        wide: PaddedCells::none(alloc),
    })
}

fn check(
    rt: &impl Abort,
    alloc: Global,
    shapes: &[Shape],
    wanted: &[CellRow],
) -> Result<(), AllocError>
    requires { All IsShape shapes.now }
{
    let layer = layer(alloc)?;
    let free = mark(alloc, &layer, shapes)?;
    same(rt, free.tile, 5);
    check_cells(rt, free.cells.as_slice(), wanted);
    check_kept(rt, alloc, &layer, free, wanted)
}

/// The block of one column, or none where its heights miss the floor.
const CORNER: Shape = Shape::Block {
    x0: 1,
    x1: 1,
    y0: 3,
    y1: 3,
    z0: 0,
    z1: 1,
};

/// As large as the corner, a height unit too low.
const TOO_LOW: Shape = Shape::Block {
    x0: 1,
    x1: 1,
    y0: 0,
    y1: 2,
    z0: 0,
    z1: 1,
};

/// The columns (2, 1) and (2, 2): the centre is the middle of the edge between (2, 1) and (2, 2), and their middles are half a cell away.
const DISC: Shape = Shape::Cylinder {
    cx: 5,
    cz: 4,
    r: 0,
    y0: 0,
    y1: 8191,
};

/// All columns, area 5.
const MUD: Shape = Shape::AreaBlock {
    area: 5,
    x0: 0,
    x1: 1023,
    y0: 0,
    y1: 8191,
    z0: 0,
    z1: 1023,
};

/// The column (2, 2) and the ones beside it, area 9.
const POND: Shape = Shape::AreaCylinder {
    area: 9,
    cx: 5,
    cz: 5,
    r: 1,
    y0: 5,
    y1: 6,
};

/// All four cells.
static WHOLE: [CellRow; 4] = [
    ((1, 1, 0), (3, 65535, 63), (NO, 0, 0, NO)),
    ((2, 1, 0), (4, 65535, 63), (0, 0, 7, NO)),
    ((1, 2, 0), (5, 65535, 63), (NO, NO, 0, 0)),
    ((2, 2, 0), (6, 65535, 63), (0, NO, NO, 0)),
];

/// What is left beside the corner.
static BESIDE_CORNER: [CellRow; 3] = [
    ((2, 1, 0), (4, 65535, 63), (NO, 0, 7, NO)),
    ((1, 2, 0), (5, 65535, 63), (NO, NO, 0, NO)),
    ((2, 2, 0), (6, 65535, 63), (0, NO, NO, 0)),
];

/// What is left beside the disc.
static BESIDE_DISC: [CellRow; 2] = [
    ((1, 1, 0), (3, 65535, 63), (NO, 0, NO, NO)),
    ((1, 2, 0), (5, 65535, 63), (NO, NO, NO, 0)),
];

#[test]
fn leaves_what_stands_free(rt: HostRuntime) -> Result<(), AllocError> {
    let alloc = rt.alloc();
    check(&rt, alloc, &[], &WHOLE)?;
    check(&rt, alloc, &[TOO_LOW], &WHOLE)?;
    check(&rt, alloc, &[CORNER], &BESIDE_CORNER)?;
    check(&rt, alloc, &[DISC], &BESIDE_DISC)
}

/// The cells beside the corner, of which the last two lie in the pond.
static MUDDY: [CellRow; 3] = [
    ((2, 1, 0), (4, 65535, 5), (NO, 0, 7, NO)),
    ((1, 2, 0), (5, 65535, 9), (NO, NO, 0, NO)),
    ((2, 2, 0), (6, 65535, 9), (0, NO, NO, 0)),
];

/// The same, all in mud.
static ALL_MUD: [CellRow; 3] = [
    ((2, 1, 0), (4, 65535, 5), (NO, 0, 7, NO)),
    ((1, 2, 0), (5, 65535, 5), (NO, NO, 0, NO)),
    ((2, 2, 0), (6, 65535, 5), (0, NO, NO, 0)),
];

/// The third cell alone, in mud.
static ALONE: [CellRow; 1] = [((1, 2, 0), (5, 65535, 5), (NO, NO, NO, NO))];

#[test]
fn sets_the_last_area(rt: HostRuntime) -> Result<(), AllocError> {
    let alloc = rt.alloc();
    check(&rt, alloc, &[MUD, POND, CORNER], &MUDDY)?;
    check(&rt, alloc, &[POND, CORNER, MUD], &ALL_MUD)?;
    check(&rt, alloc, &[DISC, CORNER, MUD], &ALONE)
}
