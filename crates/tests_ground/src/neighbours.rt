//! The table of a small list of cells, worked out by hand.

ghost use Rattle.std.specs.Prelude.{IfOk};
ghost use Rattle.nav_ground.specs.Cells.{IsCells};

use crate::checks::same;
use crate::rows::{NO, Row, cells_of};
use cell_table::neighbour_table;
use nav_ground::PackedCell;
use std::alloc::{AllocError, Global};
use std::test::Fail;

/// Levels with gaps, two levels of one column, a name of a cell that is not there, and columns at the field's corner.
static ROWS: [Row; 5] = [
    (0, 0, 2, NO, NO, 7, NO),
    (1, 0, 0, NO, 4, NO, NO),
    (1, 0, 7, 2, 1, 0, NO),
    (1, 1, 4, NO, NO, NO, 0),
    (1, 1, 9, 0, NO, NO, 9),
];

fn cells(alloc: Global) -> Result<Vec<PackedCell>, AllocError>
    ensures { IfOk result (λ cells. IsCells cells.items) }
{
    let cells = cells_of(alloc, &ROWS)?;
    Ok(cells)
}

#[test]
fn finds_named_cells(rt: HostRuntime) -> Result<(), Fail> {
    let alloc = rt.alloc();
    let cells = cells(alloc)?;
    let table = neighbour_table(alloc, cells.as_slice())?;
    let wanted = [
        [5, 5, 2, 5],
        [5, 3, 5, 5],
        [0, 5, 5, 5],
        [5, 5, 5, 1],
        [5, 5, 5, 5],
    ];
    same(&rt, table.as_slice(), wanted.as_slice());
    Ok(())
}
