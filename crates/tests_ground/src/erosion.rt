//! Kept cells by hand.

ghost use Rattle.std.specs.Prelude.{IfOk};
ghost use Rattle.nav_ground.specs.Cells.{IsCompact};

use crate::checks::same;
use crate::rows::{NO, Row, cells_of};
use agent_erode::{erode, erode_window, kept_marks};
use compact_layer::CompactField;
use nav_ground::{CellRef, Window};
use nav_lists::Items;
use std::alloc::{AllocError, Global};
use std::process::Abort;

/// The columns from (1, 1) to (5, 5) on one level, and over (2, 3), (3, 3) and (4, 3) a bridge that leads nowhere, whose level is 3.
static ROWS: [Row; 28] = [
    (1, 1, 0, NO, 0, 0, NO),
    (2, 1, 0, 0, 0, 0, NO),
    (3, 1, 0, 0, 0, 0, NO),
    (4, 1, 0, 0, 0, 0, NO),
    (5, 1, 0, 0, 0, NO, NO),
    (1, 2, 0, NO, 0, 0, 0),
    (2, 2, 0, 0, 0, 0, 0),
    (3, 2, 0, 0, 0, 0, 0),
    (4, 2, 0, 0, 0, 0, 0),
    (5, 2, 0, 0, 0, NO, 0),
    (1, 3, 0, NO, 0, 0, 0),
    (2, 3, 0, 0, 0, 0, 0),
    (2, 3, 3, NO, NO, 3, NO),
    (3, 3, 0, 0, 0, 0, 0),
    (3, 3, 3, 3, NO, 3, NO),
    (4, 3, 0, 0, 0, 0, 0),
    (4, 3, 3, 3, NO, NO, NO),
    (5, 3, 0, 0, 0, NO, 0),
    (1, 4, 0, NO, 0, 0, 0),
    (2, 4, 0, 0, 0, 0, 0),
    (3, 4, 0, 0, 0, 0, 0),
    (4, 4, 0, 0, 0, 0, 0),
    (5, 4, 0, 0, 0, NO, 0),
    (1, 5, 0, NO, NO, 0, 0),
    (2, 5, 0, 0, NO, 0, 0),
    (3, 5, 0, 0, NO, 0, 0),
    (4, 5, 0, 0, NO, 0, 0),
    (5, 5, 0, 0, NO, NO, 0),
];

fn field(alloc: Global) -> Result<CompactField, AllocError>
    ensures { IfOk result (λ field. IsCompact field.cells) }
{
    Ok(CompactField {
        cells: Items::from_vec(cells_of(alloc, &ROWS)?),
    })
}

/// The middle cell, which alone is kept for a radius of 2: the corner (2, 2) is one step from the boundary, (3, 3) is two.
const MIDDLE: CellRef = CellRef {
    x: 3,
    z: 3,
    level: 0,
};

/// The cell of the bridge over the middle one.
const BRIDGE: CellRef = CellRef { level: 3, ..MIDDLE };

const LEFT_BELOW: CellRef = CellRef {
    x: 2,
    z: 2,
    ..MIDDLE
};

const MIDDLE_BELOW: CellRef = CellRef { z: 2, ..MIDDLE };

const RIGHT_BELOW: CellRef = CellRef {
    x: 4,
    z: 2,
    ..MIDDLE
};

const LEFT_BESIDE: CellRef = CellRef { x: 2, ..MIDDLE };

const RIGHT_BESIDE: CellRef = CellRef { x: 4, ..MIDDLE };

const LEFT_ABOVE: CellRef = CellRef {
    x: 2,
    z: 4,
    ..MIDDLE
};

const MIDDLE_ABOVE: CellRef = CellRef { z: 4, ..MIDDLE };

const RIGHT_ABOVE: CellRef = CellRef {
    x: 4,
    z: 4,
    ..MIDDLE
};

/// The cells with four connections, which are kept for a radius of 1.
static INNER: [CellRef; 9] = [
    LEFT_BELOW,
    MIDDLE_BELOW,
    RIGHT_BELOW,
    LEFT_BESIDE,
    MIDDLE,
    RIGHT_BESIDE,
    LEFT_ABOVE,
    MIDDLE_ABOVE,
    RIGHT_ABOVE,
];

/// A radius, and how many cells are kept.
static COUNTS: [(u32, usize); 5] = [(0, 28), (1, 9), (2, 1), (3, 0), (u32::MAX, 0)];

/// How many cells `erode` keeps.
fn kept_count(alloc: Global, field: &CompactField, radius: u32) -> Result<usize, AllocError>
    requires { IsCompact field.now.cells }
{
    Ok(erode(alloc, field, radius)?.len())
}

/// How many cells `kept_marks` marks, and whether it marks the middle one.
fn marked(
    alloc: Global,
    field: &CompactField,
    radius: u32,
) -> Result<(usize, Option<bool>), AllocError>
    requires { IsCompact field.now.cells }
{
    let marks = kept_marks(alloc, field.cells.as_slice(), radius)?;
    let count = marks.iter().filter(|mark| **mark).count();
    Ok((count, marks.get(13).copied()))
}

fn check_counts(
    rt: &impl Abort,
    alloc: Global,
    field: &CompactField,
    rows: &[(u32, usize)],
) -> Result<(), AllocError>
    requires { IsCompact field.now.cells }
{
    for (radius, wanted) in rows {
        let count = kept_count(alloc, field, *radius)?;
        let marked = marked(alloc, field, *radius)?;
        let middle = Some(*radius < 3);
        same(
            rt,
            (*radius, count, marked),
            (*radius, *wanted, (*wanted, middle)),
        );
    }
    Ok(())
}

/// Whether `erode` keeps the cells at these places.
fn keeps(
    alloc: Global,
    field: &CompactField,
    radius: u32,
    wanted: &[CellRef],
) -> Result<bool, AllocError>
    requires { IsCompact field.now.cells }
{
    Ok(erode(alloc, field, radius)?.as_slice() == wanted)
}

const ALL: Window = Window {
    x0: i32::MIN,
    x1: i32::MAX,
    z0: i32::MIN,
    z1: i32::MAX,
};

const COLUMN: Window = Window {
    x0: 2,
    x1: 2,
    ..ALL
};

const ROW: Window = Window {
    z0: 4,
    z1: 4,
    ..ALL
};

const ONE_COLUMN: Window = Window {
    x0: 3,
    x1: 3,
    z0: 3,
    z1: 3,
};

const LEFT: Window = Window {
    x0: -9,
    x1: -1,
    ..ALL
};

const RIGHT: Window = Window {
    x0: 6,
    x1: 900,
    ..ALL
};

const EMPTY: Window = Window {
    x0: 4,
    x1: 2,
    ..ALL
};

/// A window, a radius, and the cells of the window that are kept.
type Kept = (Window, u32, &'static [CellRef]);

const WINDOWS: [Kept; 15] = [
    (ALL, 1, &INNER),
    (ALL, 2, &[MIDDLE]),
    (ALL, u32::MAX, &[]),
    (COLUMN, 1, &[LEFT_BELOW, LEFT_BESIDE, LEFT_ABOVE]),
    (ROW, 1, &[LEFT_ABOVE, MIDDLE_ABOVE, RIGHT_ABOVE]),
    (ROW, 2, &[]),
    (ONE_COLUMN, 0, &[MIDDLE, BRIDGE]),
    (ONE_COLUMN, 1, &[MIDDLE]),
    (ONE_COLUMN, 2, &[MIDDLE]),
    (ONE_COLUMN, 3, &[]),
    (LEFT, 1, &[]),
    (RIGHT, 0, &[]),
    (RIGHT, 2, &[]),
    (EMPTY, 0, &[]),
    (EMPTY, 1, &[]),
];

/// Whether `erode_window` keeps the cells of a row.
fn keeps_in_window(alloc: Global, field: &CompactField, row: &Kept) -> Result<bool, AllocError>
    requires { IsCompact field.now.cells }
{
    Ok(erode_window(alloc, field, row.0, row.1)?.as_slice() == row.2)
}

fn check_windows(
    rt: &impl Abort,
    alloc: Global,
    field: &CompactField,
    rows: &[Kept],
) -> Result<(), AllocError>
    requires { IsCompact field.now.cells }
{
    for (number, row) in rows.iter().enumerate() {
        let is_right = keeps_in_window(alloc, field, row)?;
        same(rt, (number, is_right), (number, true));
    }
    Ok(())
}

fn check_all(rt: &impl Abort, alloc: Global, field: &CompactField) -> Result<(), AllocError>
    requires { IsCompact field.now.cells }
{
    check_counts(rt, alloc, field, &COUNTS)?;
    assert!(rt; keeps(alloc, field, 1, &INNER)?);
    assert!(rt; keeps(alloc, field, 2, &[MIDDLE])?);
    check_windows(rt, alloc, field, &WINDOWS)
}

#[test]
fn keeps_by_hand(rt: HostRuntime) -> Result<(), AllocError> {
    let field = field(rt.alloc())?;
    check_all(&rt, rt.alloc(), &field)
}
