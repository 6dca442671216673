//! Free cells as meshes keep them: over their layer, and as copies.

ghost use Rattle.std.specs.Prelude.{IfOk};
ghost use Rattle.nav_ground.specs.CellColumns.{AreOrdered};
ghost use Rattle.nav_ground.specs.Cells.{IsCut, IsLayer};

use crate::checks::same;
use crate::rows::{CellRow, check_cells};
use nav_ground::{FreeLayer, Layer, PackedFreeLayer};
use nav_lists::Duplicate;
use std::alloc::{AllocError, Global};
use std::process::Abort;

/// Free cells as a list of their own.
fn own(free: FreeLayer) -> PackedFreeLayer
    requires { IsCut free.cells }
    ensures { AreOrdered result.cells }
{
    PackedFreeLayer::own(free)
}

/// The same over their layer.
fn over(alloc: Global, layer: &Layer, kept: PackedFreeLayer) -> Result<PackedFreeLayer, AllocError>
    requires layer { IsLayer layer.now }
    requires kept { AreOrdered kept.cells }
    ensures { IfOk result (λ over. AreOrdered over.cells) }
{
    let over = kept.over(alloc, layer)?;
    Ok(over)
}

/// The same as a copy.
fn copy(alloc: Global, kept: &PackedFreeLayer) -> Result<PackedFreeLayer, AllocError>
    requires { AreOrdered kept.now.cells }
    ensures { IfOk result (λ copy. AreOrdered copy.cells) }
{
    let copy = kept.duplicate(alloc)?;
    Ok(copy)
}

/// Free cells of the tile 5 are those of rows, as a list of their own, over their layer, and as a copy.
pub(crate) fn check_kept(
    rt: &impl Abort,
    alloc: Global,
    layer: &Layer,
    free: FreeLayer,
    wanted: &[CellRow],
) -> Result<(), AllocError>
    requires layer { IsLayer layer.now }
    requires free { IsCut free.cells }
{
    let kept = own(free);
    check_cells_kept(rt, alloc, &kept, wanted)?;
    let kept = over(alloc, layer, kept)?;
    assert!(rt; kept.is_over());
    check_cells_kept(rt, alloc, &kept, wanted)?;
    let copy = copy(alloc, &kept)?;
    assert!(rt; copy.is_over());
    check_cells_kept(rt, alloc, &copy, wanted)
}

/// The cells are those of rows, and so are those of each column.
fn check_cells_kept(
    rt: &impl Abort,
    alloc: Global,
    kept: &PackedFreeLayer,
    wanted: &[CellRow],
) -> Result<(), AllocError>
    requires { AreOrdered kept.now.cells }
{
    same(rt, kept.tile(), 5);
    let cells = kept.cells(alloc)?;
    check_cells(rt, cells.as_slice(), wanted);
    for place in 0..16 {
        check_column(rt, alloc, kept, (place % 4, place / 4), wanted)?;
    }
    Ok(())
}

/// A column has as many cells as rows, all at its place.
fn check_column(
    rt: &impl Abort,
    alloc: Global,
    kept: &PackedFreeLayer,
    at: (u32, u32),
    wanted: &[CellRow],
) -> Result<(), AllocError>
    requires { AreOrdered kept.now.cells }
{
    let (x, z) = at;
    let column = kept.column(alloc, x, z)?;
    let rows = wanted
        .iter()
        .filter(|row| row.0.0 as u32 == x && row.0.1 as u32 == z)
        .count();
    same(rt, column.len(), rows);
    for cell in column.as_slice() {
        assert!(rt; cell.at().x == x && cell.at().z == z);
    }
    Ok(())
}
