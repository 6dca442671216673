//! The ground of a field whose spans have changed in a rectangle.

ghost use Rattle.std.specs.Prelude.{◌≡◌, ℕ, ◌<◌, false, All, IfOk, slice_get};
ghost use Rattle.nav_ground.specs.Fields.{IsField};
ghost use Rattle.nav_ground.specs.Grounds.{IsGround, IsLayerOf, IsWideWithin};
ghost use Rattle.nav_ground.specs.Layers.{layer_of, layers_of};
ghost use Rattle.nav_ground.specs.Tiling.{tile_count};
ghost use Rattle.live_ground.specs.Changes;
ghost use Rattle.live_ground.specs.Changes.{AreSameOutside};

use crate::kept_field::KeptField;
use crate::reach::is_in_reach;
use layer_cut::layer;
use nav_ground::{Field, Ground, Layer, PastField, TileNo, Window, tiles};
use nav_lists::{Duplicate, Items};
use std::alloc::{AllocError, Global};

/// The ground of a field that differs from that of an old ground in the columns of a rectangle alone: the one that would be made anew. Only the
/// layers of the tiles in reach of the rectangle are made; the others are shared with the old ground. Only memory can be refused.
pub fn changed_ground(
    alloc: Global,
    old: &Ground,
    field: &KeptField,
    window: Window,
) -> Result<Ground, AllocError>
    requires ground { IsGround old.now }
    requires same { AreSameOutside window old.now.field field.now }
    ensures value { IfOk result (λ made. made
        ≡ record { setting = old.now.setting; field = field.now; layers = layers_of old.now.setting field.now }) }
    ensures rules { IfOk result IsGround }
    ensures unreached { IfOk result (λ made. (tile : ℕ) → tile < tile_count old.now.setting → Changes.is_in_reach old.now.setting window tile ≡ false
        → slice_get made.layers tile ≡ slice_get old.now.layers tile) }
{
    let field = field.field();
    let count = tiles(&old.setting);
    let mut layers = Vec::with_capacity(alloc, count as usize)?;
    for tile in 0..count {
        layers.push(changed_layer(alloc, old, field, window, tile)?)?;
    }
    Ok(Ground {
        setting: old.setting,
        field: PastField::of(field),
        layers: Items::from_vec(layers),
    })
}

/// The layer of a tile of the changed field: made anew in reach of the rectangle, else that of the old ground.
fn changed_layer(
    alloc: Global,
    old: &Ground,
    field: &Field,
    window: Window,
    tile: TileNo,
) -> Result<Layer, AllocError>
    requires ground { IsGround old.now }
    requires rules { IsField field.now }
    requires same { AreSameOutside window old.now.field field.now }
    requires there { tile < tile_count old.now.setting }
    ensures { IfOk result (λ made. made ≡ layer_of old.now.setting field.now tile) }
{
    if is_in_reach(&old.setting, window, tile) {
        layer(alloc, field, &old.setting, tile)
    } else {
        old.layers.as_slice()[tile as usize].duplicate(alloc)
    }
}
