//! Free cells of layers where agents keep a radius from obstacles, by hand.

ghost use Rattle.std.specs.Prelude.{IfOk, All};
ghost use Rattle.nav_ground.specs.Limits.{IsShape};
ghost use Rattle.nav_ground.specs.Cells.{IsCells, IsCut, IsLayer};

use crate::rows::{CellRow, NO, Row, cells_of, check_cells};
use agent_erode::runs_near;
use nav_ground::{FreeLayer, Layer, PackedCell, PaddedCells, Shape, Window};
use nav_lists::{Items, Shared};
use obstacle_mark::mark;
use std::alloc::{AllocError, Global};
use std::process::Abort;

/// The columns from (1, 1) to (5, 5) on one level.
static WIDE: [Row; 25] = [
    (1, 1, 0, NO, 0, 0, NO),
    (2, 1, 0, 0, 0, 0, NO),
    (3, 1, 0, 0, 0, 0, NO),
    (4, 1, 0, 0, 0, 0, NO),
    (5, 1, 0, 0, 0, NO, NO),
    (1, 2, 0, NO, 0, 0, 0),
    (2, 2, 0, 0, 0, 0, 0),
    (3, 2, 0, 0, 0, 0, 0),
    (4, 2, 0, 0, 0, 0, 0),
    (5, 2, 0, 0, 0, NO, 0),
    (1, 3, 0, NO, 0, 0, 0),
    (2, 3, 0, 0, 0, 0, 0),
    (3, 3, 0, 0, 0, 0, 0),
    (4, 3, 0, 0, 0, 0, 0),
    (5, 3, 0, 0, 0, NO, 0),
    (1, 4, 0, NO, 0, 0, 0),
    (2, 4, 0, 0, 0, 0, 0),
    (3, 4, 0, 0, 0, 0, 0),
    (4, 4, 0, 0, 0, 0, 0),
    (5, 4, 0, 0, 0, NO, 0),
    (1, 5, 0, NO, NO, 0, 0),
    (2, 5, 0, 0, NO, 0, 0),
    (3, 5, 0, 0, NO, 0, 0),
    (4, 5, 0, 0, NO, 0, 0),
    (5, 5, 0, 0, NO, NO, 0),
];

/// The same without the middle one, which those beside it still name.
static HOLLOW: [Row; 24] = [
    (1, 1, 0, NO, 0, 0, NO),
    (2, 1, 0, 0, 0, 0, NO),
    (3, 1, 0, 0, 0, 0, NO),
    (4, 1, 0, 0, 0, 0, NO),
    (5, 1, 0, 0, 0, NO, NO),
    (1, 2, 0, NO, 0, 0, 0),
    (2, 2, 0, 0, 0, 0, 0),
    (3, 2, 0, 0, 0, 0, 0),
    (4, 2, 0, 0, 0, 0, 0),
    (5, 2, 0, 0, 0, NO, 0),
    (1, 3, 0, NO, 0, 0, 0),
    (2, 3, 0, 0, 0, 0, 0),
    (4, 3, 0, 0, 0, 0, 0),
    (5, 3, 0, 0, 0, NO, 0),
    (1, 4, 0, NO, 0, 0, 0),
    (2, 4, 0, 0, 0, 0, 0),
    (3, 4, 0, 0, 0, 0, 0),
    (4, 4, 0, 0, 0, 0, 0),
    (5, 4, 0, 0, 0, NO, 0),
    (1, 5, 0, NO, NO, 0, 0),
    (2, 5, 0, 0, NO, 0, 0),
    (3, 5, 0, 0, NO, 0, 0),
    (4, 5, 0, 0, NO, 0, 0),
    (5, 5, 0, 0, NO, NO, 0),
];

/// The nine inner ones, which keep a radius of 1 from the edge, with their connections to each other.
static INNER: [Row; 9] = [
    (2, 2, 0, NO, 0, 0, NO),
    (3, 2, 0, 0, 0, 0, NO),
    (4, 2, 0, 0, 0, NO, NO),
    (2, 3, 0, NO, 0, 0, 0),
    (3, 3, 0, 0, 0, 0, 0),
    (4, 3, 0, 0, 0, NO, 0),
    (2, 4, 0, NO, NO, 0, 0),
    (3, 4, 0, 0, NO, 0, 0),
    (4, 4, 0, 0, NO, NO, 0),
];

const EVERYWHERE: Window = Window {
    x0: 0,
    x1: 1023,
    z0: 0,
    z1: 1023,
};

fn inner(alloc: Global) -> Result<Vec<PackedCell>, AllocError>
    ensures { IfOk result (λ cells. IsCut cells.items) }
{
    let cells = cells_of(alloc, &INNER)?;
    Ok(cells)
}

fn wide(alloc: Global) -> Result<Vec<PackedCell>, AllocError>
    ensures { IfOk result (λ cells. IsCells cells.items) }
{
    let cells = cells_of(alloc, &WIDE)?;
    Ok(cells)
}

fn hollow(alloc: Global) -> Result<Vec<PackedCell>, AllocError>
    ensures { IfOk result (λ cells. IsCells cells.items) }
{
    let cells = cells_of(alloc, &HOLLOW)?;
    Ok(cells)
}

/// Cells as wide cells: runs of a list, one a row.
fn wide_of(alloc: Global, cells: Vec<PackedCell>) -> Result<PaddedCells, AllocError>
    requires { IsCells cells.items }
    ensures { IfOk result IsCells }
{
    let runs = runs_near(alloc, cells.as_slice(), EVERYWHERE, 0)?;
    let shared = Shared::new(alloc, Items::from_vec(cells))?;
    Ok(PaddedCells::over(shared, runs))
}

/// A layer of the inner cells.
fn layer(alloc: Global, radius: u32, wide: Vec<PackedCell>) -> Result<Layer, AllocError>
    requires { IsCells wide.items }
    ensures { IfOk result IsLayer }
{
    let cells = inner(alloc)?;
    Ok(Layer {
        tile: 5,
        cells: Shared::new(alloc, Items::from_vec(cells))?,
        radius,
        wide: wide_of(alloc, wide)?,
    })
}

fn marked(
    alloc: Global,
    radius: u32,
    wide: Vec<PackedCell>,
    shapes: &[Shape],
) -> Result<FreeLayer, AllocError>
    requires wide { IsCells wide.items }
    requires shapes { All IsShape shapes.now }
{
    let layer = layer(alloc, radius, wide)?;
    mark(alloc, &layer, shapes)
}

/// What is left free where all columns are wide cells.
fn check(
    rt: &impl Abort,
    alloc: Global,
    radius: u32,
    shapes: &[Shape],
    wanted: &[CellRow],
) -> Result<(), AllocError>
    requires { All IsShape shapes.now }
{
    let wide = wide(alloc)?;
    let free = marked(alloc, radius, wide, shapes)?;
    check_cells(rt, free.cells.as_slice(), wanted);
    Ok(())
}

/// What is left free where the middle one is missing among the wide cells.
fn check_hollow(rt: &impl Abort, alloc: Global, wanted: &[CellRow]) -> Result<(), AllocError> {
    let wide = hollow(alloc)?;
    let free = marked(alloc, 1, wide, &[])?;
    check_cells(rt, free.cells.as_slice(), wanted);
    Ok(())
}

/// The middle column.
const MIDDLE: Shape = Shape::Block {
    x0: 3,
    x1: 3,
    y0: 0,
    y1: 100,
    z0: 3,
    z1: 3,
};

/// The column (2, 1), which is none of the inner ones.
const EDGE: Shape = Shape::Cylinder {
    cx: 5,
    cz: 3,
    r: 0,
    y0: 0,
    y1: 100,
};

/// A height unit above all floors.
const TOO_HIGH: Shape = Shape::Block {
    x0: 0,
    x1: 9,
    y0: 8,
    y1: 100,
    z0: 0,
    z1: 9,
};

/// All columns, area 5.
const MUD: Shape = Shape::AreaBlock {
    area: 5,
    x0: 0,
    x1: 9,
    y0: 0,
    y1: 100,
    z0: 0,
    z1: 9,
};

/// All inner cells.
static WHOLE: [CellRow; 9] = [
    ((2, 2, 0), (7, 65535, 63), (NO, 0, 0, NO)),
    ((3, 2, 0), (7, 65535, 63), (0, 0, 0, NO)),
    ((4, 2, 0), (7, 65535, 63), (0, 0, NO, NO)),
    ((2, 3, 0), (7, 65535, 63), (NO, 0, 0, 0)),
    ((3, 3, 0), (7, 65535, 63), (0, 0, 0, 0)),
    ((4, 3, 0), (7, 65535, 63), (0, 0, NO, 0)),
    ((2, 4, 0), (7, 65535, 63), (NO, NO, 0, 0)),
    ((3, 4, 0), (7, 65535, 63), (0, NO, 0, 0)),
    ((4, 4, 0), (7, 65535, 63), (0, NO, NO, 0)),
];

/// The same in mud, which stops nobody.
static MUDDY: [CellRow; 9] = [
    ((2, 2, 0), (7, 65535, 5), (NO, 0, 0, NO)),
    ((3, 2, 0), (7, 65535, 5), (0, 0, 0, NO)),
    ((4, 2, 0), (7, 65535, 5), (0, 0, NO, NO)),
    ((2, 3, 0), (7, 65535, 5), (NO, 0, 0, 0)),
    ((3, 3, 0), (7, 65535, 5), (0, 0, 0, 0)),
    ((4, 3, 0), (7, 65535, 5), (0, 0, NO, 0)),
    ((2, 4, 0), (7, 65535, 5), (NO, NO, 0, 0)),
    ((3, 4, 0), (7, 65535, 5), (0, NO, 0, 0)),
    ((4, 4, 0), (7, 65535, 5), (0, NO, NO, 0)),
];

/// The middle one alone keeps a radius of 2.
static ALONE: [CellRow; 1] = [((3, 3, 0), (7, 65535, 63), (NO, NO, NO, NO))];

/// Beside the middle one stand boundary cells, so the corners are left, each alone.
static CORNERS: [CellRow; 4] = [
    ((2, 2, 0), (7, 65535, 63), (NO, NO, NO, NO)),
    ((4, 2, 0), (7, 65535, 63), (NO, NO, NO, NO)),
    ((2, 4, 0), (7, 65535, 63), (NO, NO, NO, NO)),
    ((4, 4, 0), (7, 65535, 63), (NO, NO, NO, NO)),
];

/// Without a radius the middle one alone is lost.
static ROUND_MIDDLE: [CellRow; 8] = [
    ((2, 2, 0), (7, 65535, 63), (NO, 0, 0, NO)),
    ((3, 2, 0), (7, 65535, 63), (0, NO, 0, NO)),
    ((4, 2, 0), (7, 65535, 63), (0, 0, NO, NO)),
    ((2, 3, 0), (7, 65535, 63), (NO, 0, NO, 0)),
    ((4, 3, 0), (7, 65535, 63), (NO, 0, NO, 0)),
    ((2, 4, 0), (7, 65535, 63), (NO, NO, 0, 0)),
    ((3, 4, 0), (7, 65535, 63), (0, NO, 0, NO)),
    ((4, 4, 0), (7, 65535, 63), (0, NO, NO, 0)),
];

/// The cell (2, 2) becomes a boundary cell where the one below it is blocked, though that one is not kept itself.
static BESIDE_EDGE: [CellRow; 8] = [
    ((3, 2, 0), (7, 65535, 63), (NO, 0, 0, NO)),
    ((4, 2, 0), (7, 65535, 63), (0, 0, NO, NO)),
    ((2, 3, 0), (7, 65535, 63), (NO, 0, 0, NO)),
    ((3, 3, 0), (7, 65535, 63), (0, 0, 0, 0)),
    ((4, 3, 0), (7, 65535, 63), (0, 0, NO, 0)),
    ((2, 4, 0), (7, 65535, 63), (NO, NO, 0, 0)),
    ((3, 4, 0), (7, 65535, 63), (0, NO, 0, 0)),
    ((4, 4, 0), (7, 65535, 63), (0, NO, NO, 0)),
];

#[test]
fn keeps_a_radius(rt: HostRuntime) -> Result<(), AllocError> {
    let alloc = rt.alloc();
    check(&rt, alloc, 1, &[], &WHOLE)?;
    check(&rt, alloc, 1, &[MIDDLE], &CORNERS)?;
    check(&rt, alloc, 0, &[MIDDLE], &ROUND_MIDDLE)?;
    check(&rt, alloc, 1, &[EDGE], &BESIDE_EDGE)
}

#[test]
fn stops_at_nothing_else(rt: HostRuntime) -> Result<(), AllocError> {
    let alloc = rt.alloc();
    check(&rt, alloc, 1, &[TOO_HIGH], &WHOLE)?;
    check(&rt, alloc, 1, &[MUD], &MUDDY)?;
    check(&rt, alloc, 2, &[], &ALONE)?;
    check(&rt, alloc, u32::MAX, &[], &[])
}

#[test]
fn takes_what_is_not_wide(rt: HostRuntime) -> Result<(), AllocError> {
    check_hollow(&rt, rt.alloc(), &CORNERS)
}
