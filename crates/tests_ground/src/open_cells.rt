//! Kept cells among the open ones of a list, by hand.

ghost use Rattle.std.specs.Prelude.{◌≡◌, IfOk, length};
ghost use Rattle.nav_ground.specs.Cells.{IsCells, IsLayer};

use crate::checks::same;
use crate::cuts::flat_layer;
use crate::rows::{NO, Row, cells_of};
use agent_erode::kept;
use nav_ground::{CellRef, Layer, PackedCell, Window};
use std::alloc::{AllocError, Global};
use std::process::Abort;

const ALL: Window = Window {
    x0: i32::MIN,
    x1: i32::MAX,
    z0: i32::MIN,
    z1: i32::MAX,
};

const QUARTER: Window = Window {
    x1: 6,
    z0: 6,
    ..ALL
};

const CUT: Window = Window {
    x0: 3,
    x1: 4,
    z0: -5,
    z1: 5,
};

const EMPTY: Window = Window {
    x0: 4,
    x1: 2,
    ..ALL
};

/// A truth value beside each cell, which is true but over one column.
fn all_but(alloc: Global, cells: &[PackedCell], closed: (u32, u32)) -> Result<Vec<bool>, AllocError>
    ensures { IfOk result (λ marks. length marks.items ≡ length cells.now) }
{
    let mut marks = Vec::new(alloc);
    for cell in cells {
        let at = cell.at();
        marks.push((at.x, at.z) != closed)?;
    }
    Ok(marks)
}

/// The kept ones of the cells but those over one column.
fn kept_without(
    alloc: Global,
    cells: &[PackedCell],
    closed: (u32, u32),
    window: Window,
    radius: u32,
) -> Result<Vec<CellRef>, AllocError>
    requires { IsCells cells.now }
{
    let marks = all_but(alloc, cells, closed)?;
    kept(alloc, cells, marks.as_slice(), window, radius)
}

/// Whether the cell over a column is kept, where those from (1, 1) to (11, 11) are open but (6, 6): for a radius of 1 those that are not in
/// the outer ring and not beside the middle; for 2 the ring of the columns and rows 3 and 9, and its inner corners.
fn is_kept(radius: u32, x: u32, z: u32) -> bool {
    let beside = x.abs_diff(6).saturating_add(z.abs_diff(6));
    let far = x.abs_diff(6).max(z.abs_diff(6));
    match radius {
        0 => beside != 0,
        1 => far < 5 && 1 < beside,
        2 => far == 3 || (far == 2 && beside == 4),
        _ => false,
    }
}

fn is_in(window: &Window, x: u32, z: u32) -> bool {
    let (x, z) = (i64::from(x), i64::from(z));
    i64::from(window.x0) <= x
        && x <= i64::from(window.x1)
        && i64::from(window.z0) <= z
        && z <= i64::from(window.z1)
}

/// A window, a radius, and how many cells of the window are kept.
type Kept = (Window, u32, usize);

static KEPT: [Kept; 11] = [
    (ALL, 0, 120),
    (ALL, 1, 76),
    (ALL, 2, 28),
    (ALL, 3, 0),
    (ALL, u32::MAX, 0),
    (QUARTER, 0, 35),
    (QUARTER, 1, 22),
    (CUT, 0, 10),
    (CUT, 2, 5),
    (EMPTY, 0, 0),
    (EMPTY, 2, 0),
];

/// The places of those of the cells that are to be kept.
fn wanted(alloc: Global, cells: &[PackedCell], row: &Kept) -> Result<Vec<CellRef>, AllocError> {
    let mut places = Vec::new(alloc);
    for cell in cells {
        let CellRef { x, z, level: _ } = cell.at();
        if is_kept(row.1, x, z) && is_in(&row.0, x, z) {
            places.push(cell.at())?;
        }
    }
    Ok(places)
}

/// How many cells are kept, and whether they are the right ones.
fn found(alloc: Global, cells: &[PackedCell], row: &Kept) -> Result<(usize, bool), AllocError>
    requires { IsCells cells.now }
{
    let places = kept_without(alloc, cells, (6, 6), row.0, row.1)?;
    let wanted = wanted(alloc, cells, row)?;
    Ok((places.len(), places.as_slice() == wanted.as_slice()))
}

fn check_kept(
    rt: &impl Abort,
    alloc: Global,
    layer: &Layer,
    rows: &[Kept],
) -> Result<(), AllocError>
    requires { IsLayer layer.now }
{
    let wide = layer.wide.all(alloc)?;
    same(rt, wide.len(), 121);
    for (number, row) in rows.iter().enumerate() {
        let found = found(alloc, wide.as_slice(), row)?;
        same(rt, (number, found), (number, (row.2, true)));
    }
    Ok(())
}

#[test]
fn keeps_from_a_closed_cell(rt: HostRuntime) -> Result<(), AllocError> {
    let layer = flat_layer(&rt, rt.alloc())?;
    check_kept(&rt, rt.alloc(), &layer, &KEPT)
}

/// A middle that names four cells, none of which names it: it is no boundary cell while all are open, and no walk comes to it.
static CROSS: [Row; 5] = [
    (2, 1, 0, NO, NO, NO, NO),
    (1, 2, 0, NO, NO, NO, NO),
    (2, 2, 0, 0, 0, 0, 0),
    (3, 2, 0, NO, NO, NO, NO),
    (2, 3, 0, NO, NO, NO, NO),
];

fn cross(alloc: Global) -> Result<Vec<PackedCell>, AllocError>
    ensures { IfOk result (λ cells. IsCells cells.items) }
{
    let cells = cells_of(alloc, &CROSS)?;
    Ok(cells)
}

/// A middle whose connection toward x + 1 leaves the list.
static LEFT: [Row; 5] = [
    (2, 1, 0, NO, NO, NO, NO),
    (1, 2, 0, NO, NO, NO, NO),
    (2, 2, 0, 0, 0, 1, 0),
    (3, 2, 0, NO, NO, NO, NO),
    (2, 3, 0, NO, NO, NO, NO),
];

fn left(alloc: Global) -> Result<Vec<PackedCell>, AllocError>
    ensures { IfOk result (λ cells. IsCells cells.items) }
{
    let cells = cells_of(alloc, &LEFT)?;
    Ok(cells)
}

/// The column that is closed, a radius, and how many cells are kept.
type Count = ((u32, u32), u32, usize);

static CROSSED: [Count; 5] = [
    ((0, 0), 0, 5),
    ((0, 0), 1, 1),
    ((0, 0), u32::MAX, 1),
    ((3, 2), 0, 4),
    ((3, 2), 1, 0),
];

fn check_counts(
    rt: &impl Abort,
    alloc: Global,
    cells: &[PackedCell],
    rows: &[Count],
) -> Result<(), AllocError>
    requires { IsCells cells.now }
{
    for (number, row) in rows.iter().enumerate() {
        let places = kept_without(alloc, cells, row.0, ALL, row.1)?;
        same(rt, (number, places.len()), (number, row.2));
    }
    Ok(())
}

#[test]
fn keeps_what_no_walk_comes_to(rt: HostRuntime) -> Result<(), AllocError> {
    let cells = cross(rt.alloc())?;
    check_counts(&rt, rt.alloc(), cells.as_slice(), &CROSSED)?;
    let cells = left(rt.alloc())?;
    check_counts(&rt, rt.alloc(), cells.as_slice(), &[((0, 0), 1, 0)])
}
