//! The free cells of a layer whose cells keep its radius where no obstacle stands: only what lies near an obstacle is looked at.

ghost use Rattle.std.specs.Prelude.{◌≡◌, ◌≤◌, ◌<◌, ◌*◌, ◌++◌, ◌∷◌, ◌⊎◌, [], ℕ, IfOk, All, List, None, length, map, filter, not, ◌&&◌, slice_index_or};
ghost use Rattle.std.specs.List.{list_any};
ghost use Rattle.nav_ground.specs.declared.cell.Cell.{Cell};
ghost use Rattle.nav_ground.specs.declared.cell.CellRef.{CellRef};
ghost use Rattle.nav_ground.specs.declared.field.Field.{Field};
ghost use Rattle.nav_ground.specs.declared.setting.Setting.{Setting};
ghost use Rattle.nav_ground.specs.declared.shape.Shape.{Shape};
ghost use Rattle.nav_ground.specs.Limits.{IsSetting, IsShape};
ghost use Rattle.nav_ground.specs.Fields.{IsField};
ghost use Rattle.nav_ground.specs.Cells.{IsCells, IsCut, IsLayer};
ghost use Rattle.nav_ground.specs.Clearance.{places_of, cells_in, kept_cells};
ghost use Rattle.nav_ground.specs.FreeCells.{free_layer_of, is_taken, is_unblocked};
ghost use Rattle.nav_ground.specs.Layers.{layer_of};
ghost use Rattle.nav_ground.specs.Tiling.{IsInWindow, is_in_window, tile_window, widened};
ghost use Rattle.nav_ground.specs.WholeFree.{whole_free};
ghost use Rattle.cell_table.specs.Columns.{IsPlace, column_of};
ghost use Rattle.obstacle_mark.specs.AreasLeft.{area_left};
ghost use Rattle.obstacle_mark.specs.Columns.{ArePlaces, IsPassed};
ghost use Rattle.obstacle_mark.specs.Near.{KeepsRadius, HoldsBlocked, area_near};
ghost use Rattle.obstacle_mark.specs.Places.{is_there};

use crate::areas::areas_left;
use crate::free::{all_cells, areas_clear, cells_left, clear_places};
use crate::places::{is_there, pass};
use agent_erode::{cells_near, is_near};
use cell_table::column_of;
use nav_ground::{CellRef, FreeLayer, Layer, PackedCell, Shape, Window, bounds, sets};
use std::alloc::{AllocError, Global};

/// What `mark` gives, of a layer whose cells keep its radius where no obstacle stands, as those of the layers of a ground do. Where agents keep a
/// radius from obstacles, only cells near the obstacles are looked at for it. Only memory can be refused.
pub fn mark_kept(alloc: Global, layer: &Layer, shapes: &[Shape]) -> Result<FreeLayer, AllocError>
    requires layer { IsLayer layer.now }
    requires shapes { All IsShape shapes.now }
    requires kept { KeepsRadius layer.now }
    ensures free { IfOk result (λ free. free ≡ free_layer_of layer.now shapes.now) }
    ensures rules { IfOk result (λ free. IsCut free.cells) }
    ensures whole { (setting : Setting) (field : Field) → IsSetting setting → IsField field → layer.now ≡ layer_of setting field layer.now.tile
        → IfOk result (λ free. places_of free.cells ≡ places_of (cells_in (tile_window setting layer.now.tile) (whole_free setting field shapes.now))) }
{
    let free = kept_layer(alloc, layer, shapes)?;
    Ok(free)
}

/// The free cells of such a layer: where there are no obstacles, all of them as they are.
fn kept_layer(alloc: Global, layer: &Layer, shapes: &[Shape]) -> Result<FreeLayer, AllocError>
    requires layer { IsLayer layer.now }
    requires shapes { All IsShape shapes.now }
    requires kept { KeepsRadius layer.now }
    ensures { IfOk result (λ free. free ≡ free_layer_of layer.now shapes.now) }
{
    if shapes.is_empty() {
        all_cells(alloc, layer)
    } else {
        let areas = areas_kept(alloc, layer, shapes)?;
        cells_left(alloc, layer, shapes, areas.as_slice())
    }
}

/// The radius from which on all wide cells are looked at.
const WHOLE_FIELD: u32 = 1024;

/// The area that each cell of a layer is left with; none where the cell is taken. Cells that lie further than the radius from all obstacles
/// that stop agents are not looked at again, and of the wide cells only those that lie no further than twice the radius.
fn areas_kept(
    alloc: Global,
    layer: &Layer,
    shapes: &[Shape],
) -> Result<Vec<Option<u32>>, AllocError>
    requires layer { IsLayer layer.now }
    requires shapes { All IsShape shapes.now }
    requires kept { KeepsRadius layer.now }
    ensures { IfOk result (λ areas. areas.items ≡ map (area_left (is_taken layer.now shapes.now) shapes.now) layer.now.cells) }
{
    if layer.radius == 0 || layer.radius >= WHOLE_FIELD {
        return areas_clear(alloc, layer, shapes);
    }
    let cells = layer.cells.get().as_slice();
    let mut areas = areas_left(alloc, cells, shapes)?;
    if let Some(window) = stops_window(shapes) {
        let clear = clear_near(alloc, layer, shapes, window)?;
        let around = Around {
            window,
            radius: layer.radius,
        };
        leave_near(cells, areas.as_mut_slice(), clear.as_slice(), around);
    }
    Ok(areas)
}

/// The columns that lie no further than a radius from a rectangle.
#[derive(Clone, Copy)]
struct Around {
    window: Window,
    radius: u32,
}

/// The least rectangle that holds the bounds of all obstacles that stop agents; none where all set areas.
fn stops_window(shapes: &[Shape]) -> Option<Window>
    requires { All IsShape shapes.now }
    ensures { HoldsBlocked shapes.now result }
{
    let mut hull = None;
    for shape in shapes {
        hull = hull_with(hull, shape);
    }
    hull
}

/// The rectangle with one more obstacle.
fn hull_with(hull: Option<Window>, shape: &Shape) -> Option<Window>
    requires { IsShape shape.now }
    ensures { (shapes : List Shape) → HoldsBlocked shapes hull → HoldsBlocked (shapes ++ shape.now ∷ []) result }
{
    if sets(shape).is_some() {
        return hull;
    }
    match hull {
        Some(before) => Some(both(before, bounds(shape))),
        None => Some(bounds(shape)),
    }
}

/// The least rectangle that holds two.
fn both(a: Window, b: Window) -> Window
    ensures { (x z : ℕ) → IsInWindow a x z ⊎ IsInWindow b x z → IsInWindow result x z }
{
    Window {
        x0: a.x0.min(b.x0),
        x1: a.x1.max(b.x1),
        z0: a.z0.min(b.z0),
        z1: a.z1.max(b.z1),
    }
}

/// The places of the wide cells that no obstacle blocks and that keep the radius among those that none blocks, as far as they lie no further than
/// the radius from a rectangle; others may be missing, or stand there too.
fn clear_near(
    alloc: Global,
    layer: &Layer,
    shapes: &[Shape],
    window: Window,
) -> Result<Vec<CellRef>, AllocError>
    requires wide { IsCells layer.now.wide }
    requires shapes { All IsShape shapes.now }
    requires radius { layer.now.radius < 1024 }
    ensures { IfOk result (λ clear. clear.items
        ≡ places_of (kept_cells (filter (is_unblocked shapes.now) (cells_in (widened window (2 * layer.now.radius)) layer.now.wide)) layer.now.radius)) }
{
    let wide = layer.wide.all(alloc)?;
    let near = cells_near(alloc, wide.as_slice(), window, 2 * layer.radius)?;
    clear_places(alloc, near.as_slice(), shapes, layer.radius)
}

/// Takes its area from each cell that lies around a rectangle and whose place is not among the clear ones.
fn leave_near(cells: &[PackedCell], areas: &mut [Option<u32>], clear: &[CellRef], around: Around)
    requires cells { IsCells cells.now }
    requires beside { length areas.old ≡ length cells.now }
    requires clear { ArePlaces clear.now }
    ensures { (k : ℕ) (d : Cell) → k < length cells.now → slice_index_or areas.new k None
        ≡ area_near around.window around.radius clear.now (slice_index_or cells.now k d) (slice_index_or areas.old k None) }
{
    let mut passed = 0;
    for (i, cell) in cells.iter().enumerate() {
        let at = cell.at();
        passed = pass(clear, passed, column_of(at));
        if is_crowded(clear, passed, around, at) {
            areas[i] = None;
        }
    }
}

/// Whether a place lies around a rectangle and is not among the clear ones, of which the first of its column or of a later one is known.
fn is_crowded(clear: &[CellRef], first: usize, around: Around, at: CellRef) -> bool
    requires clear { ArePlaces clear.now }
    requires passed { IsPassed clear.now first (column_of at) }
    requires next { (d : CellRef) → first < length clear.now → column_of at ≤ column_of (slice_index_or clear.now first d) }
    ensures { result ≡ (is_in_window (widened around.window around.radius) at.x at.z && not (is_there (column_of at) at.level clear.now)) }
{
    is_near(around.window, around.radius, at) && !is_there(clear, first, column_of(at), at.level)
}
