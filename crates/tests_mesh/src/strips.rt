//! Strips by hand.

ghost use Rattle.std.specs.Prelude.{◌≡◌, IfOk};
ghost use Rattle.nav_ground.specs.Cells.{IsCut};

use crate::five_cells::CELLS;
use crate::rows::all_hold;
use crate::stored::stored;
use cell_table::neighbour_table;
use mesh_types::Strip;
use mono_regions::{StripIndex, strip_index, strips};
use nav_ground::{FreeLayer, PackedCell};
use std::alloc::{AllocError, Global};

fn free(alloc: Global) -> Result<FreeLayer, AllocError>
    ensures { IfOk result (λ free. IsCut free.cells) }
{
    let cells = CELLS;
    Ok(FreeLayer {
        tile: 0,
        cells: stored(alloc, &cells)?,
    })
}

/// The row, the columns, the area and the levels of a strip.
type Row = (u32, u32, u32, u32, &'static [u32]);

static WANTED: [Row; 4] = [
    (0, 1, 2, 63, &[0, 0]),
    (0, 3, 3, 7, &[0]),
    (1, 1, 1, 63, &[0]),
    (1, 2, 2, 63, &[1]),
];

fn is_strip(strip: &Strip, row: &Row) -> bool {
    (strip.z, strip.x0, strip.x1, strip.area) == (row.0, row.1, row.2, row.3)
        && strip.levels.as_slice() == row.4
}

fn wrong_row(strips: &[Strip], rows: &[Row]) -> Option<usize> {
    if strips.len() != rows.len() {
        return Some(rows.len());
    }
    for row in 0..rows.len() {
        if !is_strip(&strips[row], &rows[row]) {
            return Some(row);
        }
    }
    None
}

fn wrong_strip(alloc: Global, free: &FreeLayer) -> Option<usize>
    requires { IsCut free.now.cells }
{
    match strips(alloc, free) {
        Ok(strips) => wrong_row(strips.as_slice(), &WANTED),
        Err(_) => Some(9),
    }
}

fn index(alloc: Global, cells: &[PackedCell]) -> Result<StripIndex, AllocError>
    requires { IsCut cells.now }
{
    let table = neighbour_table(alloc, cells)?;
    strip_index(alloc, cells, table.as_slice())
}

fn has_index(alloc: Global, cells: &[PackedCell]) -> bool
    requires { IsCut cells.now }
{
    match index(alloc, cells) {
        Ok(index) => {
            index.runs.len() == 4 && index.owners.as_slice() == [0, 0, 1, 2, 3].as_slice()
        }
        Err(_) => false,
    }
}

/// A row that is wrong, 4 where there are not as many strips; 9 where the index is, or where there is no memory.
fn wrong(alloc: Global) -> Option<usize> {
    match free(alloc) {
        Ok(free) if has_index(alloc, free.cells.as_slice()) => wrong_strip(alloc, &free),
        _ => Some(9),
    }
}

#[test]
fn strips_by_hand(rt: HostRuntime) {
    all_hold(&rt, "strips", wrong(rt.alloc()));
}
