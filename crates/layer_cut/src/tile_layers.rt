//! Hands the kept cells of a field out to the layers of their tiles. Layers while cells are handed out to them.

ghost use Rattle.std.specs.Prelude.{◌≡◌, ◌<◌, IfOk, List, [], map, ◌++◌, ◌∷◌, OnOk};
ghost use Rattle.std.specs.List.{range_with_len};
ghost use Rattle.nav_ground.specs.declared.cell.Cell.{Cell};
ghost use Rattle.nav_ground.specs.Cells.{IsCells, IsCompact};
ghost use Rattle.nav_ground.specs.Clearance.{is_kept, kept_cells, cells_in};
ghost use Rattle.nav_ground.specs.Layers;
ghost use Rattle.nav_ground.specs.Layers.{layer_among, wide_cells};
ghost use Rattle.nav_ground.specs.Limits.{IsSetting};
ghost use Rattle.nav_ground.specs.Tiling.{tile_count, tile_window, margin_of, is_in_window};
ghost use Rattle.layer_cut.specs.Tiles.{tile_at, IsInField, AreInField, layer_with};

use crate::neighbours::layer_cell;
use agent_erode::runs_near;
use nav_ground::{
    CellRef, Layer, PackedCell, PaddedCells, Setting, TileNo, Window, margin_of, tile_bounds, tiles,
};
use nav_lists::{Items, Shared};
use std::alloc::{AllocError, Global};
use std::marker::Model;

/// The tile of a column of the field.
#[tactic(auto, using(crate::proofs::TilePlaces::tile_there))]
pub fn tile_of(setting: &Setting, x: u32, z: u32) -> TileNo
    requires setting { IsSetting setting.now }
    requires inside { IsInField setting.now x z }
    ensures value { result ≡ tile_at setting.now x z }
    ensures there { result < tile_count setting.now }
{
    z / setting.tile * setting.width.div_ceil(setting.tile) + x / setting.tile
}

/// The layers of all tiles, in order, from the cells of the whole field and the marks that say which of them are kept.
pub(crate) fn hand_out(
    alloc: Global,
    setting: &Setting,
    cells: &Shared<Items<PackedCell>>,
    marks: &[bool],
) -> Result<Vec<Layer>, AllocError>
    requires setting { IsSetting setting.now }
    requires cells { IsCompact cells.now }
    requires inside { AreInField setting.now cells.now }
    requires marks { marks.now ≡ map (is_kept cells.now setting.now.agent.radius) cells.now }
    ensures { IfOk result (λ layers. layers.items
        ≡ map (layer_among setting.now cells.now (kept_cells cells.now setting.now.agent.radius)) (range_with_len 0 (tile_count setting.now))) }
{
    let layers = empty_layers(alloc, setting, cells)?;
    handed_out(alloc, setting, cells.get().as_slice(), marks, layers)
}

/// The layers of all tiles, in order, from those without cells, to which the kept cells are handed out.
fn handed_out(
    alloc: Global,
    setting: &Setting,
    cells: &[PackedCell],
    marks: &[bool],
    empty: Vec<OpenLayer>,
) -> Result<Vec<Layer>, AllocError>
    requires setting { IsSetting setting.now }
    requires cells { IsCompact cells.now }
    requires inside { AreInField setting.now cells.now }
    requires marks { marks.now ≡ map (is_kept cells.now setting.now.agent.radius) cells.now }
    requires empty { (kept : List Cell) → empty.items ≡ map (layer_with setting.now cells.now kept []) (range_with_len 0 (tile_count setting.now)) }
    ensures { IfOk result (λ layers. layers.items
        ≡ map (layer_among setting.now cells.now (kept_cells cells.now setting.now.agent.radius)) (range_with_len 0 (tile_count setting.now))) }
{
    let mut layers = empty;
    let mut firsts = [0; 4];
    for (i, cell) in cells.iter().enumerate() {
        if marks[i] {
            let place = cell.at();
            let tile = tile_of(setting, place.x, place.z);
            let kept = layer_cell(cells, marks, &mut firsts, cell);
            layers[tile as usize].push(kept)?;
        }
    }
    closed(alloc, layers)
}

/// The layers of all tiles before any cell is handed out: with what agents keep from obstacles and with their wide cells.
fn empty_layers(
    alloc: Global,
    setting: &Setting,
    cells: &Shared<Items<PackedCell>>,
) -> Result<Vec<OpenLayer>, AllocError>
    requires setting { IsSetting setting.now }
    requires cells { IsCells cells.now }
    ensures { (kept : List Cell) → IfOk result (λ layers. layers.items ≡ map (layer_with setting.now cells.now kept []) (range_with_len 0 (tile_count setting.now))) }
{
    let count = tiles(setting);
    let mut layers = Vec::with_capacity(alloc, count as usize)?;
    for tile in 0..count {
        let layer = layer_of_cells(alloc, setting, cells, tile, Vec::new(alloc))?;
        layers.push(layer)?;
    }
    Ok(layers)
}

/// The layer of one tile, from the cells of the whole field and the marks that say which of them are kept.
pub(crate) fn cut(
    alloc: Global,
    setting: &Setting,
    cells: &Shared<Items<PackedCell>>,
    marks: &[bool],
    tile: TileNo,
) -> Result<Layer, AllocError>
    requires setting { IsSetting setting.now }
    requires cells { IsCompact cells.now }
    requires marks { marks.now ≡ map (is_kept cells.now setting.now.agent.radius) cells.now }
    requires there { tile < tile_count setting.now }
    ensures { IfOk result (λ layer. layer ≡ layer_among setting.now cells.now (kept_cells cells.now setting.now.agent.radius) tile) }
{
    let kept = kept_in_tile(alloc, setting, cells.get().as_slice(), marks, tile)?;
    let open = layer_of_cells(alloc, setting, cells, tile, kept)?;
    open.close(alloc)
}

/// The kept cells of a tile as its layer has them, from the cells of the whole field and the marks that say which of them are kept.
fn kept_in_tile(
    alloc: Global,
    setting: &Setting,
    cells: &[PackedCell],
    marks: &[bool],
    tile: TileNo,
) -> Result<Vec<PackedCell>, AllocError>
    requires setting { IsSetting setting.now }
    requires cells { IsCompact cells.now }
    requires marks { marks.now ≡ map (is_kept cells.now setting.now.agent.radius) cells.now }
    requires there { tile < tile_count setting.now }
    ensures { IfOk result (λ kept. kept.items
        ≡ map (Layers.layer_cell (kept_cells cells.now setting.now.agent.radius)) (cells_in (tile_window setting.now tile) (kept_cells cells.now setting.now.agent.radius))) }
{
    let window = tile_bounds(setting, tile);
    let mut kept = Vec::new(alloc);
    let mut firsts = [0; 4];
    for (i, cell) in cells.iter().enumerate() {
        let place = cell.at();
        if marks[i] && is_inside(&window, place) {
            kept.push(layer_cell(cells, marks, &mut firsts, cell))?;
        }
    }
    Ok(kept)
}

/// The layer of a tile with some kept cells: what agents keep from obstacles, and its wide cells from those of the whole field.
fn layer_of_cells(
    alloc: Global,
    setting: &Setting,
    cells: &Shared<Items<PackedCell>>,
    tile: TileNo,
    kept: Vec<PackedCell>,
) -> Result<OpenLayer, AllocError>
    requires setting { IsSetting setting.now }
    requires cells { IsCells cells.now }
    requires there { tile < tile_count setting.now }
    ensures { IfOk result (λ layer. layer ≡ record { tile = tile; cells = kept.items; radius = margin_of setting.now; wide = wide_cells setting.now cells.now tile }) }
{
    let wide = wide_cells(alloc, setting, cells, tile)?;
    let radius = margin_of(setting);
    Ok(OpenLayer::new(tile, kept, radius, wide))
}

/// The cells of a tile and of the columns that agents keep from obstacles on each side; none where they keep no distance. They are not copied.
fn wide_cells(
    alloc: Global,
    setting: &Setting,
    cells: &Shared<Items<PackedCell>>,
    tile: TileNo,
) -> Result<PaddedCells, AllocError>
    requires setting { IsSetting setting.now }
    requires cells { IsCells cells.now }
    requires there { tile < tile_count setting.now }
    ensures { IfOk result (λ wide. wide ≡ Layers.wide_cells setting.now cells.now tile) }
{
    if !setting.clear {
        return Ok(PaddedCells::none(alloc));
    }
    let window = tile_bounds(setting, tile);
    let runs = runs_near(alloc, cells.get().as_slice(), window, margin_of(setting))?;
    Ok(PaddedCells::over(cells.share()?, runs))
}

/// Whether a place lies in a rectangle of columns.
fn is_inside(window: &Window, at: CellRef) -> bool
    requires { (at.x < 1024) × (at.z < 1024) }
    ensures { result ≡ is_in_window window.now at.x at.z }
{
    let x = at.x as i32;
    let z = at.z as i32;
    window.x0 <= x && x <= window.x1 && (window.z0 <= z && z <= window.z1)
}

/// The layer of a tile to which cells are still handed out. It is seen as the layer.
#[derive(Drop)]
pub(crate) struct OpenLayer {
    tile: TileNo,
    cells: Vec<PackedCell>,
    radius: u32,
    wide: PaddedCells,
}

impl Model for OpenLayer {
    ghost use Rattle.nav_ground.specs.declared.cell.Layer.{Layer};

    ghost Value = { Layer };

    ghost view = { λ a. record { tile = a.tile; cells = a.cells.items; radius = a.radius; wide = a.wide } };
}

impl OpenLayer {
    /// The layer of a tile with some cells, what agents keep from obstacles, and its wide cells.
    pub(crate) fn new(
        tile: TileNo,
        cells: Vec<PackedCell>,
        radius: u32,
        wide: PaddedCells,
    ) -> OpenLayer
        ensures { result ≡ record { tile = tile; cells = cells.items; radius = radius; wide = wide } }
    {
        OpenLayer {
            tile,
            cells,
            radius,
            wide,
        }
    }

    /// Hands one more cell out to it.
    pub(crate) fn push(&mut self, cell: PackedCell) -> Result<(), AllocError>
        ensures { OnOk result (self.new ≡ record self.old { cells = self.old.cells ++ cell ∷ [] }) }
    {
        self.cells.push(cell)?;
        Ok(())
    }

    /// The layer, once all cells are handed out, with no more room than they take.
    pub(crate) fn close(self, alloc: Global) -> Result<Layer, AllocError>
        ensures { IfOk result (λ layer. layer ≡ self) }
    {
        let cells = Vec::from_slice(alloc, self.cells.as_slice())?;
        Ok(Layer {
            tile: self.tile,
            cells: Shared::new(alloc, Items::from_vec(cells))?,
            radius: self.radius,
            wide: self.wide,
        })
    }
}

/// The layers, once all cells are handed out.
pub(crate) fn closed(alloc: Global, open: Vec<OpenLayer>) -> Result<Vec<Layer>, AllocError>
    ensures { IfOk result (λ layers. layers.items ≡ open.items) }
{
    let mut layers = Vec::with_capacity(alloc, open.len())?;
    for layer in open {
        layers.push(layer.close(alloc)?)?;
    }
    Ok(layers)
}
