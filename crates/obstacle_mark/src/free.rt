//! The free cells of a layer. The areas that the cells of a layer are left with where agents keep a radius from obstacles.

ghost use Rattle.std.specs.Prelude.{◌≡◌, ◌≤◌, Bool, not, IfOk, All, List, length, map, filter, ℕ, ◌<◌, ◌==◌, slice_index_or, None, is_some};
ghost use Rattle.nav_ground.specs.declared.cell.Cell.{Cell};
ghost use Rattle.nav_ground.specs.declared.field.Field.{Field};
ghost use Rattle.nav_ground.specs.declared.setting.Setting.{Setting};
ghost use Rattle.nav_ground.specs.declared.shape.Shape.{Shape};
ghost use Rattle.nav_ground.specs.Limits.{IsSetting, IsShape};
ghost use Rattle.nav_ground.specs.Fields.{IsField};
ghost use Rattle.nav_ground.specs.Cells.{IsCell, IsCells, IsCut, IsLayer};
ghost use Rattle.nav_ground.specs.Tiling.{tile_window};
ghost use Rattle.nav_ground.specs.Clearance.{places_of, cells_in, kept_cells};
ghost use Rattle.nav_ground.specs.Layers.{layer_of};
ghost use Rattle.nav_ground.specs.FreeCells.{free_cell_of, free_layer_of, is_taken, is_unblocked};
ghost use Rattle.nav_ground.specs.WholeFree.{whole_free};
ghost use Rattle.obstacle_mark.specs.AreasLeft.{area_left, AreSmall};
ghost use Rattle.obstacle_mark.specs.Columns.{ArePlaces};
ghost use Rattle.obstacle_mark.specs.Places.{places_taken, next_kept, ArePassed};

use crate::areas::areas_left;
use crate::places::{PassedPlaces, blocked_places, is_clear, is_there, next_kept, pass};
use agent_erode::kept;
use cell_table::column_of;
use nav_ground::{Cell, CellRef, FreeLayer, Layer, PackedCell, Shape, Window};
use nav_lists::{Duplicate, Items};
use std::alloc::{AllocError, Global};

/// The free cells of a layer, for a list of obstacles: its cells that none of them blocks and, where the layer has a radius, that keep it
/// from every cell that one blocks, as from walls; each with the area of the last area shape that covers it, and with those neighbours that
/// are free or lie in another tile. Only memory can be refused.
pub fn mark(alloc: Global, layer: &Layer, shapes: &[Shape]) -> Result<FreeLayer, AllocError>
    requires layer { IsLayer layer.now }
    requires shapes { All IsShape shapes.now }
    ensures free { IfOk result (λ free. free ≡ free_layer_of layer.now shapes.now) }
    ensures rules { IfOk result (λ free. IsCut free.cells) }
    ensures whole { (setting : Setting) (field : Field) → IsSetting setting → IsField field → layer.now ≡ layer_of setting field layer.now.tile
        → IfOk result (λ free. places_of free.cells ≡ places_of (cells_in (tile_window setting layer.now.tile) (whole_free setting field shapes.now))) }
{
    let free = free_layer(alloc, layer, shapes)?;
    Ok(free)
}

/// The free cells of a layer: where it has no radius and there are no obstacles, all of them as they are.
fn free_layer(alloc: Global, layer: &Layer, shapes: &[Shape]) -> Result<FreeLayer, AllocError>
    requires layer { IsLayer layer.now }
    requires shapes { All IsShape shapes.now }
    ensures { IfOk result (λ free. free ≡ free_layer_of layer.now shapes.now) }
{
    if shapes.is_empty() && layer.radius == 0 {
        all_cells(alloc, layer)
    } else {
        let areas = areas_clear(alloc, layer, shapes)?;
        cells_left(alloc, layer, shapes, areas.as_slice())
    }
}

/// All cells of a layer.
pub fn all_cells(alloc: Global, layer: &Layer) -> Result<FreeLayer, AllocError>
    ensures { IfOk result (λ free. free ≡ record { tile = layer.now.tile; cells = layer.now.cells }) }
{
    Ok(FreeLayer {
        tile: layer.tile,
        cells: layer.cells.get().duplicate(alloc)?,
    })
}

/// The cells of a layer that obstacles leave, from the areas that they leave its cells with.
pub fn cells_left(
    alloc: Global,
    layer: &Layer,
    shapes: &[Shape],
    areas: &[Option<u32>],
) -> Result<FreeLayer, AllocError>
    requires layer { IsLayer layer.now }
    requires shapes { All IsShape shapes.now }
    requires areas { areas.now ≡ map (area_left (is_taken layer.now shapes.now) shapes.now) layer.now.cells }
    ensures { IfOk result (λ free. free ≡ free_layer_of layer.now shapes.now) }
{
    let _ = shapes;
    let cells = layer.cells.get().as_slice();
    let blocked = blocked_places(alloc, cells, areas)?;
    let free = free_cells(alloc, cells, areas, blocked.as_slice())?;
    Ok(FreeLayer {
        tile: layer.tile,
        cells: Items::from_vec(free),
    })
}

/// The free cells, from the areas that all cells are left with and the places of those that are blocked.
fn free_cells(
    alloc: Global,
    cells: &[PackedCell],
    areas: &[Option<u32>],
    blocked: &[CellRef],
) -> Result<Vec<PackedCell>, AllocError>
    requires cells { IsCells cells.now }
    requires beside { length areas.now ≡ length cells.now }
    requires areas { AreSmall areas.now }
    requires blocked { ArePlaces blocked.now }
    requires few { length blocked.now ≤ length cells.now }
    ensures { (taken : Cell → Bool) (shapes : List Shape) → areas.now ≡ map (area_left taken shapes) cells.now → blocked.now ≡ places_taken taken cells.now
        → IfOk result (λ free. free.items ≡ map (free_cell_of taken cells.now shapes) (filter (λ (cell : Cell). not (taken cell)) cells.now)) }
{
    let mut passed = PassedPlaces {
        left: 0,
        above: 0,
        right: 0,
        below: 0,
        clear_before: 0,
    };
    let mut free = Vec::with_capacity(alloc, cells.len() - blocked.len())?;
    for (i, cell) in cells.iter().enumerate() {
        if let Some(area) = areas[i] {
            free.push(free_cell(blocked, &mut passed, cell, area))?;
        }
    }
    Ok(free)
}

/// A free cell with the area that it is left with: the cell of the layer as it is where its area stays and no blocked place lies in a
/// column beside its own, else without those neighbours that are blocked.
fn free_cell(
    blocked: &[CellRef],
    passed: &mut PassedPlaces,
    cell: &PackedCell,
    area: u32,
) -> PackedCell
    requires cell { IsCell cell.now }
    requires area { area ≤ 255 }
    requires blocked { ArePlaces blocked.now }
    requires passed { ArePassed blocked.now passed.old cell.now.at }
    ensures cell { result ≡ record cell.now { area = area; next = next_kept blocked.now cell.now } }
    ensures passed { ArePassed blocked.now passed.new cell.now.at }
{
    if area == cell.area() && is_clear(blocked, passed, cell.at()) {
        return *cell;
    }
    let next = next_kept(blocked, passed, cell);
    PackedCell::new(&Cell {
        area,
        next,
        ..cell.get()
    })
}

/// All columns of the largest field.
const EVERYWHERE: Window = Window {
    x0: 0,
    x1: 1023,
    z0: 0,
    z1: 1023,
};

/// The area that each cell of a layer is left with; none where the cell is taken.
pub fn areas_clear(
    alloc: Global,
    layer: &Layer,
    shapes: &[Shape],
) -> Result<Vec<Option<u32>>, AllocError>
    requires layer { IsLayer layer.now }
    requires shapes { All IsShape shapes.now }
    ensures { IfOk result (λ areas. areas.items ≡ map (area_left (is_taken layer.now shapes.now) shapes.now) layer.now.cells) }
{
    let cells = layer.cells.get().as_slice();
    let mut areas = areas_left(alloc, cells, shapes)?;
    if is_plain(layer) {
        return Ok(areas);
    }
    let wide = layer.wide.all(alloc)?;
    let clear = clear_places(alloc, wide.as_slice(), shapes, layer.radius)?;
    leave_clear(cells, areas.as_mut_slice(), clear.as_slice());
    Ok(areas)
}

/// Whether agents keep no radius from the obstacles of a layer.
fn is_plain(layer: &Layer) -> bool
    ensures { result ≡ (layer.now.radius == 0) }
{
    layer.radius == 0
}

/// The places of those cells that no obstacle blocks and that keep a radius among the cells that none blocks, in order.
pub fn clear_places(
    alloc: Global,
    wide: &[PackedCell],
    shapes: &[Shape],
    radius: u32,
) -> Result<Vec<CellRef>, AllocError>
    requires cells { IsCells wide.now }
    requires shapes { All IsShape shapes.now }
    ensures { IfOk result (λ clear. clear.items ≡ places_of (kept_cells (filter (is_unblocked shapes.now) wide.now) radius)) }
{
    let uncovered = are_open(alloc, wide, shapes)?;
    kept(alloc, wide, uncovered.as_slice(), EVERYWHERE, radius)
}

/// For each cell whether no obstacle blocks it.
fn are_open(alloc: Global, cells: &[PackedCell], shapes: &[Shape]) -> Result<Vec<bool>, AllocError>
    requires cells { IsCells cells.now }
    requires shapes { All IsShape shapes.now }
    ensures { IfOk result (λ marks. marks.items ≡ map (is_unblocked shapes.now) cells.now) }
{
    let areas = areas_left(alloc, cells, shapes)?;
    marks_of(alloc, areas.as_slice())
}

/// For each area whether there is one.
fn marks_of(alloc: Global, areas: &[Option<u32>]) -> Result<Vec<bool>, AllocError>
    ensures { IfOk result (λ marks. marks.items ≡ map is_some areas.now) }
{
    let mut marks = Vec::with_capacity(alloc, areas.len())?;
    for area in areas {
        marks.push(area.is_some())?;
    }
    Ok(marks)
}

/// Takes its area from each cell whose place is not among the clear ones.
fn leave_clear(cells: &[PackedCell], areas: &mut [Option<u32>], clear: &[CellRef])
    requires cells { IsCells cells.now }
    requires beside { length areas.old ≡ length cells.now }
    requires clear { ArePlaces clear.now }
    ensures { (k : ℕ) (d : Cell) → k < length cells.now → slice_index_or areas.new k None
        ≡ Rattle.obstacle_mark.specs.AreasLeft.area_clear clear.now (slice_index_or cells.now k d) (slice_index_or areas.old k None) }
{
    let mut passed = 0;
    for (i, cell) in cells.iter().enumerate() {
        let at = cell.at();
        let column = column_of(at);
        passed = pass(clear, passed, column);
        if !is_there(clear, passed, column, at.level) {
            areas[i] = None;
        }
    }
}
