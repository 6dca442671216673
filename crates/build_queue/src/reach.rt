//! The tiles that a range of columns meets, along one axis. The shapes that touch a tile.

ghost use Rattle.std.specs.Prelude.{◌≡◌, ℕ, ◌+◌, ◌*◌, ◌<◌, ◌≤◌, ◌≤ℤ◌, pos, ◌↔◌, IsTrue, IfOk, length, slice_index_or};
ghost use Rattle.std.specs.Int.{div_ceil};
ghost use Rattle.nav_ground.specs.Limits.{IsSetting};
ghost use Rattle.nav_ground.specs.Tiling.{tile_count, tile_window, widened, margin_of};
ghost use Rattle.nav_ground.specs.Touching.{touching_shapes};
ghost use Rattle.build_queue.specs.SameShapes.{are_same};

use crate::live::BoundedShape;
use nav_ground::{Setting, Shape, TileNo, Window, margin_of, tile_bounds};
use nav_lists::Items;
use std::alloc::{AllocError, Global};

/// TileRange of tiles along one axis, from `first` on, before `end`.
#[derive(Clone, Copy)]
pub(crate) struct TileRange {
    pub(crate) first: u32,
    pub(crate) end: u32,
}

/// How many tiles stand along an axis.
pub(crate) fn tiles_along(edge: u32, tile: u32) -> u32
    requires edge { edge ≤ 1024 }
    requires tile { 4 ≤ tile }
    ensures value { result ≡ div_ceil edge tile }
    ensures few { result ≤ 256 }
{
    edge.div_ceil(tile)
}

/// The places, of so many, whose tiles a closed range of columns can meet.
pub(crate) fn places(from: i32, to: i32, tile: u32, count: u32) -> TileRange
    requires { 1 ≤ tile }
    ensures few { result.end ≤ count }
    ensures met { (place last : ℕ) → place < count → pos (place * tile) ≤ℤ to → from ≤ℤ pos last → last < (place + 1) * tile
        → (result.first ≤ place) × (place < result.end) }
{
    let first = or_zero(from) / tile;
    let end = (or_zero(to) / tile + 1).min(count);
    TileRange { first, end }
}

/// A number, or 0 where it is below 0.
fn or_zero(number: i32) -> u32
    ensures small { result < 2147483648 }
    ensures least { (n : ℕ) → number ≤ℤ pos n → result ≤ n }
    ensures most { (n : ℕ) → pos n ≤ℤ number → n ≤ result }
{
    number.max(0) as u32
}

/// The shapes of a list that touch a tile, in order.
pub(crate) fn touching_list(
    alloc: Global,
    setting: &Setting,
    tile: TileNo,
    shapes: &[BoundedShape],
) -> Result<Items<Shape>, AllocError>
    requires setting { IsSetting setting.now }
    requires there { tile < tile_count setting.now }
    ensures { IfOk result (λ list. list ≡ touching_shapes setting.now tile shapes.now) }
{
    let columns = tile_reach(setting, tile);
    let mut list = Vec::new(alloc);
    for shape in shapes {
        if shape.meets(columns) {
            list.push(*shape.get())?;
        }
    }
    Ok(Items::from_vec(list))
}

/// Whether a list is that of the shapes that touch a tile, in order.
pub(crate) fn is_touching_list(
    setting: &Setting,
    tile: TileNo,
    shapes: &[BoundedShape],
    list: &[Shape],
) -> bool
    requires setting { IsSetting setting.now }
    requires there { tile < tile_count setting.now }
    ensures test { result ≡ are_same list.now (touching_shapes setting.now tile shapes.now) }
    ensures own { IsTrue result ↔ (list.now ≡ touching_shapes setting.now tile shapes.now) }
{
    let columns = tile_reach(setting, tile);
    let mut place = 0;
    for shape in shapes {
        if shape.meets(columns) {
            if !is_at(list, place, shape.get()) {
                return false;
            }
            place += 1;
        }
    }
    place == list.len()
}

/// The columns of a tile, with as many more on each side as agents keep from obstacles: a shape touches the tile where its bounds have one of
/// these.
fn tile_reach(setting: &Setting, tile: TileNo) -> Window
    requires setting { IsSetting setting.now }
    requires there { tile < tile_count setting.now }
    ensures { result ≡ widened (tile_window setting.now tile) (margin_of setting.now) }
{
    let columns = tile_bounds(setting, tile);
    let margin = margin_of(setting) as i32;
    Window {
        x0: columns.x0 - margin,
        x1: columns.x1 + margin,
        z0: columns.z0 - margin,
        z1: columns.z1 + margin,
    }
}

/// Whether a list has a shape at a place.
fn is_at(list: &[Shape], place: usize, shape: &Shape) -> bool
    ensures { IsTrue result ↔ ((place < length list.now) × (slice_index_or list.now place shape.now ≡ shape.now)) }
{
    place < list.len() && is_same(&list[place], shape)
}

/// Whether two shapes are the same.
fn is_same(a: &Shape, b: &Shape) -> bool
    ensures { IsTrue result ↔ (a.now ≡ b.now) }
{
    a == b
}
