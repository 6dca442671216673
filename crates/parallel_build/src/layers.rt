//! The layers of a ground.

ghost use Rattle.std.specs.Prelude.{◌≡◌, ◌<◌, IfOk, All};
ghost use Rattle.nav_ground.specs.Fields.{IsField};
ghost use Rattle.nav_ground.specs.Grounds.{IsSized, IsGround, IsLayerOf, IsWideWithin};
ghost use Rattle.nav_ground.specs.Layers.{layer_of, layers_of};
ghost use Rattle.nav_ground.specs.Limits.{IsSetting};
ghost use Rattle.nav_ground.specs.Tiling.{tile_count};

use layer_cut::{ground, layer};
use nav_ground::{Field, Ground, Layer, PastField, Setting, tiles};
use nav_lists::Items;
use rayon::prelude::*;
use std::alloc::{AllocError, Global};
use std::thread::Threads;

/// The ground that a field makes for a setting, as `ground` of `layer_cut` makes it, layer by layer in several threads. Where agents keep
/// their radius from obstacles it is made in one, since all layers then share the cells of the whole field. Only memory can be refused.
pub fn ground_by<R: Threads + Sync>(
    rt: &R,
    alloc: Global,
    setting: Setting,
    field: Field,
) -> Result<Ground, AllocError>
    requires setting { IsSetting setting }
    requires field { IsField field }
    requires sized { IsSized setting field }
    ensures value { IfOk result (λ made. made ≡ record { setting = setting; field = field; layers = layers_of setting field }) }
    ensures rules { IfOk result IsGround }
    ensures layers { IfOk result (λ made. All (IsLayerOf made.setting) made.layers) }

    // No wide cell is further from its tile than agents keep from obstacles.
    ensures wide { IfOk result (λ made. All (IsWideWithin made.setting) made.layers) }
{
    if setting.clear {
        return ground(alloc, setting, field);
    }
    let layers = layers_by(rt, alloc, &setting, &field)?;
    let past = PastField::of(&field);
    Ok(Ground {
        setting,
        field: past,
        layers: Items::from_vec(layers),
    })
}

/// The layers of all tiles, in order.
fn layers_by<R: Threads + Sync>(
    rt: &R,
    alloc: Global,
    setting: &Setting,
    field: &Field,
) -> Result<Vec<Layer>, AllocError>
    requires setting { IsSetting setting.now }
    requires field { IsField field.now }
    requires sized { IsSized setting.now field.now }
    ensures { IfOk result (λ layers. layers.items ≡ layers_of setting.now field.now) }
{
    let layers: Result<Vec<Layer>, AllocError> = (0..tiles(setting))
        .into_par_iter()
        .with_min_len(1)
        .map(
            |tile: u32| -> Result<Layer, AllocError>
                requires { IsSetting setting.now × IsField field.now × IsSized setting.now field.now × (tile < tile_count setting.now) }
                ensures { IfOk result (λ made. made ≡ layer_of setting.entry.now field.entry.now tile) }
            { layer(alloc, field, setting, tile) },
        )
        .collect(rt, alloc)?;
    layers
}
