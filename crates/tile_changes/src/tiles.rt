//! The tiles that shapes touch.

ghost use Rattle.std.specs.Prelude.{◌≡◌, ◌<◌, All, IfOk, filter};
ghost use Rattle.std.specs.List.{list_any, range_with_len};
ghost use Rattle.nav_ground.specs.Limits.{IsSetting, IsShape};
ghost use Rattle.nav_ground.specs.Tiling.{tile_count};
ghost use Rattle.nav_ground.specs.Touching.{is_touching};
ghost use Rattle.tile_changes.specs.Telling.{is_touched};

use nav_ground::{Setting, Shape, TileNo, tiles, touches};
use nav_lists::Items;
use std::alloc::{AllocError, Global};

/// The tiles that some shape of a list touches, rising.
pub(crate) fn touched_tiles(
    alloc: Global,
    setting: &Setting,
    shapes: &[Shape],
) -> Result<Items<TileNo>, AllocError>
    requires setting { IsSetting setting.now }
    requires shapes { All IsShape shapes.now }
    ensures { IfOk result (λ list. list ≡ filter (is_touched setting.now shapes.now) (range_with_len 0 (tile_count setting.now))) }
{
    let mut list = Vec::new(alloc);
    for tile in 0..tiles(setting) {
        if is_touched(setting, shapes, tile) {
            list.push(tile)?;
        }
    }
    Ok(Items::from_vec(list))
}

/// Whether some shape of a list touches a tile.
fn is_touched(setting: &Setting, shapes: &[Shape], tile: TileNo) -> bool
    requires setting { IsSetting setting.now }
    requires shapes { All IsShape shapes.now }
    requires there { tile < tile_count setting.now }
    ensures { result ≡ is_touched setting.now shapes.now tile }
{
    shapes.iter().any(|shape| touches(setting, tile, shape))
}
