//! From a field to its layers: the filters, the cells, the kept cells, and the cut into tiles.

ghost use Rattle.std.specs.Prelude.{◌≡◌, ◌<◌, IfOk, All};
ghost use Rattle.nav_ground.specs.declared.field.Field.{Field};
ghost use Rattle.nav_ground.specs.Cells.{IsCompact};
ghost use Rattle.nav_ground.specs.Fields.{IsField};
ghost use Rattle.nav_ground.specs.Grounds.{IsSized, IsGround, IsLayerOf, IsWideWithin};
ghost use Rattle.nav_ground.specs.Layers.{cells_of, layer_of, layers_of};
ghost use Rattle.nav_ground.specs.Limits.{IsSetting};
ghost use Rattle.nav_ground.specs.Tiling.{tile_count};
ghost use Rattle.layer_cut.specs.Tiles.{AreInField};

use crate::neighbours::field_near;
use crate::tile_layers::{cut, hand_out};
use agent_erode::kept_marks;
use compact_layer::{CompactField, compact};
use nav_ground::{Field, Ground, Layer, PackedCell, PastField, Setting, TileNo, tile_bounds};
use nav_lists::{Items, Shared};
use span_filters::filtered;
use std::alloc::{AllocError, Global};

/// The ground that a field makes for a setting: its layers have the kept cells of each tile, in order of tiles, each connected to its
/// kept neighbours in its own tile and across the border; where the setting says clear they also have the agent's radius and all cells so
/// near the tile. It takes one pass over the field for each stage, and the spans are let go on the way. Only memory can be refused.
pub fn ground(alloc: Global, setting: Setting, field: Field) -> Result<Ground, AllocError>
    requires setting { IsSetting setting }
    requires field { IsField field }
    requires sized { IsSized setting field }
    ensures value { IfOk result (λ made. made ≡ record { setting = setting; field = field; layers = layers_of setting field }) }
    ensures rules { IfOk result IsGround }
    ensures layers { IfOk result (λ made. All (IsLayerOf made.setting) made.layers) }

    // No wide cell is further from its tile than agents keep from obstacles.
    ensures wide { IfOk result (λ made. All (IsWideWithin made.setting) made.layers) }
{
    let past = PastField::of(&field);
    let layers = layers(alloc, &setting, field)?;
    Ok(Ground {
        setting,
        field: past,
        layers: Items::from_vec(layers),
    })
}

/// The layer of one tile: exactly what `ground` makes of that tile. It works on the spans over the tile's columns and over those within the
/// agent's radius and two more on each side of it, and searches the list of spans for where their rows begin. The radius is for the
/// neighbours across the border and the walks to them, the two more are for the connections of the cells where those walks begin and for
/// the filters of the cells so connected; where the radius is 0 they are for the neighbours and their filters. The wide cells lie no
/// further away. Only memory can be refused.
pub fn layer(
    alloc: Global,
    field: &Field,
    setting: &Setting,
    tile: TileNo,
) -> Result<Layer, AllocError>
    requires setting { IsSetting setting.now }
    requires field { IsField field.now }
    requires sized { IsSized setting.now field.now }
    requires there { tile < tile_count setting.now }
    ensures value { IfOk result (λ layer. layer ≡ layer_of setting.now field.now tile) }
    ensures rules { IfOk result (λ layer. IsLayerOf setting.now layer) }

    // No wide cell is further from the tile than agents keep from obstacles.
    ensures wide { IfOk result (IsWideWithin setting.now) }
{
    let window = tile_bounds(setting, tile);
    let margin = setting.agent.radius + 2;
    let near = field_near(alloc, field, window, margin)?;
    layer_from(alloc, &near, setting, tile)
}

/// The layer of one tile, from the whole of a field.
fn layer_from(
    alloc: Global,
    field: &Field,
    setting: &Setting,
    tile: TileNo,
) -> Result<Layer, AllocError>
    requires setting { IsSetting setting.now }
    requires field { IsField field.now }
    requires sized { IsSized setting.now field.now }
    requires there { tile < tile_count setting.now }
    ensures { IfOk result (λ layer. layer ≡ layer_of setting.now field.now tile) }
{
    let compact = cells(alloc, setting, field)?;
    let shared = Shared::new(alloc, compact.cells)?;
    let marks = kept_marks(alloc, shared.get().as_slice(), setting.agent.radius)?;
    cut(alloc, setting, &shared, marks.as_slice(), tile)
}

/// The layers of all tiles, in order. The spans are let go before the layers are made, so that at most two of the three lists stand at once;
/// where agents keep their radius from obstacles, the wide cells of all layers share the list of cells.
fn layers(alloc: Global, setting: &Setting, field: Field) -> Result<Vec<Layer>, AllocError>
    requires setting { IsSetting setting.now }
    requires field { IsField field }
    requires sized { IsSized setting.now field }
    ensures { IfOk result (λ layers. layers.items ≡ layers_of setting.now field) }
{
    let compact = last_cells(alloc, setting, field)?;
    let shared = Shared::new(alloc, compact.cells)?;
    layers_over(alloc, setting, &shared)
}

/// The layers of all tiles, in order, from the cells of the whole field.
pub(crate) fn layers_over(
    alloc: Global,
    setting: &Setting,
    cells: &Shared<Items<PackedCell>>,
) -> Result<Vec<Layer>, AllocError>
    requires setting { IsSetting setting.now }
    requires cells { IsCompact cells.now }
    requires inside { AreInField setting.now cells.now }
    ensures { (field : Field) → cells.now ≡ cells_of setting.now field → IfOk result (λ layers. layers.items ≡ layers_of setting.now field) }
{
    let marks = kept_marks(alloc, cells.get().as_slice(), setting.agent.radius)?;
    hand_out(alloc, setting, cells, marks.as_slice())
}

/// The cells of a field, whose spans are let go at the end.
fn last_cells(alloc: Global, setting: &Setting, field: Field) -> Result<CompactField, AllocError>
    requires setting { IsSetting setting.now }
    requires field { IsField field }
    requires sized { IsSized setting.now field }
    ensures cells { IfOk result (λ compact. compact.cells ≡ cells_of setting.now field) }
    ensures rules { IfOk result (λ compact. IsCompact compact.cells) }
    ensures inside { IfOk result (λ compact. AreInField setting.now compact.cells) }
{
    cells(alloc, setting, &field)
}

/// The cells of a field, on the spans that the filters leave walkable.
pub(crate) fn cells(
    alloc: Global,
    setting: &Setting,
    field: &Field,
) -> Result<CompactField, AllocError>
    requires setting { IsSetting setting.now }
    requires field { IsField field.now }
    requires sized { IsSized setting.now field.now }
    ensures cells { IfOk result (λ compact. compact.cells ≡ cells_of setting.now field.now) }
    ensures rules { IfOk result (λ compact. IsCompact compact.cells) }
    ensures inside { IfOk result (λ compact. AreInField setting.now compact.cells) }
{
    let areas = filtered(alloc, field, &setting.agent)?;
    compact(alloc, field, areas.as_slice(), &setting.agent)
}
