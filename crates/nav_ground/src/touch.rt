//! Which tiles an obstacle touches.

ghost use Rattle.std.specs.Prelude.{◌≡◌, ◌↔◌, ◌<◌, ◌≤◌, ◌≤ℤ◌, ◌+ℤ◌, pos, IsTrue};
ghost use Rattle.nav_ground.specs.Limits.{IsSetting, IsShape};
ghost use Rattle.nav_ground.specs.Tiling.{tile_count};
ghost use Rattle.nav_ground.specs.Touching.{Touches, is_touching};

use crate::cell::Window;
use crate::setting::{Setting, TileNo, tile_bounds};
use crate::shape::{Shape, bounds};

/// Whether an obstacle's bounds, with as many columns on each side as agents keep from obstacles, have a column in common with a tile. An
/// obstacle that does not touch a tile changes none of its free cells.
pub fn touches(setting: &Setting, tile: TileNo, shape: &Shape) -> bool
    requires setting { IsSetting setting.now }
    requires there { tile < tile_count setting.now }
    requires shape { IsShape shape.now }
    ensures test { result ≡ is_touching setting.now tile shape.now }
    ensures touched { IsTrue result ↔ Touches setting.now tile shape.now }
{
    are_meeting(touch_window(setting, shape), tile_bounds(setting, tile))
}

/// The columns within which an obstacle can change which cells are free: its bounds, with as many columns on each side as agents keep from
/// obstacles. They may lie outside the field.
pub fn touch_window(setting: &Setting, shape: &Shape) -> Window
    requires setting { IsSetting setting.now }
    requires shape { IsShape shape.now }
    ensures { result ≡ Rattle.nav_ground.specs.Touching.touch_window setting.now shape.now }
{
    widened(bounds(shape), margin_of(setting))
}

/// How many columns agents keep from obstacles: their radius where the setting says clear, else none.
pub fn margin_of(setting: &Setting) -> u32
    requires { IsSetting setting.now }
    ensures value { result ≡ Rattle.nav_ground.specs.Tiling.margin_of setting.now }
    ensures most { result ≤ 15 }
{
    if setting.clear {
        setting.agent.radius
    } else {
        0
    }
}

/// A rectangle in or near the largest field, with so many more columns on each side.
fn widened(window: Window, margin: u32) -> Window
    requires x0 { (pos 0 ≤ℤ (window.x0 +ℤ pos 4096)) × (window.x0 ≤ℤ pos 8191) }
    requires x1 { (pos 0 ≤ℤ (window.x1 +ℤ pos 4096)) × (window.x1 ≤ℤ pos 8191) }
    requires z0 { (pos 0 ≤ℤ (window.z0 +ℤ pos 4096)) × (window.z0 ≤ℤ pos 8191) }
    requires z1 { (pos 0 ≤ℤ (window.z1 +ℤ pos 4096)) × (window.z1 ≤ℤ pos 8191) }
    requires margin { margin ≤ 15 }
    ensures { result ≡ Rattle.nav_ground.specs.Tiling.widened window margin }
{
    let margin = margin as i32;
    Window {
        x0: window.x0 - margin,
        x1: window.x1 + margin,
        z0: window.z0 - margin,
        z1: window.z1 + margin,
    }
}

/// Whether two rectangles, neither of them empty, have a column in common.
fn are_meeting(a: Window, b: Window) -> bool
    ensures { result ≡ Rattle.nav_ground.specs.Touching.are_meeting a b }
{
    are_overlapping(a.x0, a.x1, b.x0, b.x1) && are_overlapping(a.z0, a.z1, b.z0, b.z1)
}

/// Whether two ranges, neither of them empty, have a number in common.
fn are_overlapping(a0: i32, a1: i32, b0: i32, b1: i32) -> bool
    ensures { result ≡ Rattle.nav_ground.specs.Touching.are_overlapping a0 a1 b0 b1 }
{
    a0 <= b1 && b0 <= a1
}
