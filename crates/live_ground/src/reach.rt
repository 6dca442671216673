//! Which tiles a change of spans may change.

ghost use Rattle.std.specs.Prelude.{◌≡◌, ◌+ℤ◌, ◌-ℤ◌, ◌<◌, IfOk, pos};
ghost use Rattle.nav_ground.specs.Limits.{IsSetting};
ghost use Rattle.nav_ground.specs.Tiling.{tile_count};
ghost use Rattle.nav_ground.specs.Touching.{are_overlapping};
ghost use Rattle.live_ground.specs.Changes;

use nav_ground::{Setting, TileNo, Window, tile_bounds, tiles};
use nav_lists::Items;
use std::alloc::{AllocError, Global};

/// Whether a tile is in reach of a rectangle of columns: within the agent's radius and two columns of it. The layers of all other tiles stay
/// where the spans in the rectangle change. The radius is for the walks to a cell and its neighbours across the border, the two more are
/// for the connections of the cells where those walks begin and for the filters of the cells so connected.
pub fn is_in_reach(setting: &Setting, window: Window, tile: TileNo) -> bool
    requires setting { IsSetting setting.now }
    requires there { tile < tile_count setting.now }
    ensures { result ≡ Changes.is_in_reach setting.now window tile }
{
    let reach = setting.agent.radius + 2;
    let tile = tile_bounds(setting, tile);
    is_reaching(window.x0, window.x1, reach, tile.x0, tile.x1)
        && is_reaching(window.z0, window.z1, reach, tile.z0, tile.z1)
}

/// The tiles in reach of a rectangle, in order of their numbers.
pub fn reached_tiles(
    alloc: Global,
    setting: &Setting,
    window: Window,
) -> Result<Items<TileNo>, AllocError>
    requires { IsSetting setting.now }
    ensures { IfOk result (λ reached. reached ≡ Changes.reached_tiles setting.now window) }
{
    let mut reached = Vec::new(alloc);
    for tile in 0..tiles(setting) {
        if is_in_reach(setting, window, tile) {
            reached.push(tile)?;
        }
    }
    Ok(Items::from_vec(reached))
}

/// Whether a range with so many more numbers on each side overlaps another range.
fn is_reaching(a0: i32, a1: i32, reach: u32, b0: i32, b1: i32) -> bool
    ensures { result ≡ are_overlapping (a0 -ℤ pos reach) (a1 +ℤ pos reach) b0 b1 }
{
    let reach = i64::from(reach);
    are_overlapping(
        i64::from(a0) - reach,
        i64::from(a1) + reach,
        i64::from(b0),
        i64::from(b1),
    )
}

/// Whether neither of two ranges begins after the other ends.
fn are_overlapping(a0: i64, a1: i64, b0: i64, b1: i64) -> bool
    ensures { result ≡ are_overlapping a0 a1 b0 b1 }
{
    a0 <= b1 && b0 <= a1
}
