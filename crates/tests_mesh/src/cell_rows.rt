//! Free cells that are written as rows.

ghost use Rattle.std.specs.Prelude.{◌≡◌, IfOk, map};
ghost use Rattle.nav_ground.specs.Cells.{IsCut};
ghost use Rattle.tests_mesh.specs.Rows.{cell_of, named_by};

use nav_ground::{Cell, CellRef, FreeLayer, PackedCell};
use nav_lists::Items;
use std::alloc::{AllocError, Global};

/// The x, z, level and area of a cell, and the levels that it names toward x - 1, z + 1, x + 1 and z - 1, or `NO` where it names none.
pub(crate) type Row = (u16, u16, u16, u8, u16, u16, u16, u16);

/// Stands for a level that is not named: a table of plain numbers is proved far sooner than one of options.
pub(crate) const NO: u16 = 65535;

/// A square of 4 by 4 cells from (1, 1) on, of which the middle 2 by 2 are blocked.
pub(crate) static RING: [Row; 12] = [
    (1, 1, 0, 63, NO, 0, 0, NO),
    (2, 1, 0, 63, 0, NO, 0, NO),
    (3, 1, 0, 63, 0, NO, 0, NO),
    (4, 1, 0, 63, 0, 0, NO, NO),
    (1, 2, 0, 63, NO, 0, NO, 0),
    (4, 2, 0, 63, NO, 0, NO, 0),
    (1, 3, 0, 63, NO, 0, NO, 0),
    (4, 3, 0, 63, NO, 0, NO, 0),
    (1, 4, 0, 63, NO, NO, 0, 0),
    (2, 4, 0, 63, 0, NO, 0, NO),
    (3, 4, 0, 63, 0, NO, 0, NO),
    (4, 4, 0, 63, 0, NO, NO, 0),
];

/// The first two rows are a region that reaches further right below and further left above. The cell over them has another area, and the
/// second has a neighbour in another tile.
pub(crate) static STEP: [Row; 5] = [
    (3, 0, 0, 63, NO, 0, 0, NO),
    (4, 0, 0, 63, 0, NO, 2, NO),
    (2, 1, 0, 63, NO, NO, 0, NO),
    (3, 1, 0, 63, 0, 0, NO, 0),
    (3, 2, 0, 7, NO, NO, NO, 0),
];

/// The cells of the square.
pub(crate) fn ring(alloc: Global) -> Result<FreeLayer, AllocError>
    ensures cells { IfOk result (λ free. IsCut free.cells) }
    ensures tile { IfOk result (λ free. free.tile ≡ 0) }
{
    let free = free_of(alloc, &RING)?;
    Ok(free)
}

/// A level that is named, or none.
fn named(level: u16) -> Option<u32>
    ensures { result ≡ named_by level }
{
    if level == NO {
        None
    } else {
        Some(u32::from(level))
    }
}

fn cell(row: &Row) -> PackedCell
    ensures { result ≡ cell_of row.now }
{
    let (x, z, level, area, left, above, right, below) = *row;
    PackedCell::new(&Cell {
        at: CellRef {
            x: u32::from(x),
            z: u32::from(z),
            level: u32::from(level),
        },
        floor: 10,
        ceiling: 65535,
        area: u32::from(area),
        next: [named(left), named(above), named(right), named(below)],
    })
}

/// The cells of rows, in tile 0, each with its floor at height 10.
pub(crate) fn free_of(alloc: Global, rows: &[Row]) -> Result<FreeLayer, AllocError>
    ensures cells { IfOk result (λ free. free.cells ≡ map cell_of rows.now) }
    ensures tile { IfOk result (λ free. free.tile ≡ 0) }
{
    let mut cells = Vec::new(alloc);
    for row in rows {
        cells.push(cell(row))?;
    }
    Ok(FreeLayer {
        tile: 0,
        cells: Items::from_vec(cells),
    })
}
