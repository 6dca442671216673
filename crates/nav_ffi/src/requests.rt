//! Requests over the border.

ghost use Rattle.std.specs.Prelude.{◌≡◌, IfSome, IsNone};
ghost use Rattle.nav_ground.specs.History.{IsRequest};
ghost use Rattle.nav_ground.specs.Limits.{IsShape};
ghost use Rattle.nav_ffi.specs.Requests.{IsAddAsked, IsRequested};
ghost use Rattle.nav_handle.specs.Wire.{block_of, cylinder_of};
ghost use Rattle.nav_handle.specs.Statuses as status;

use kinds_handle::reply_status;
use nav_ground::{Request, Shape};
use nav_handle::{
    EMPTY, HISTORY_FULL, NavdBlock, NavdCylinder, NavdLevel, OUT_OF_RANGE, block_shape,
    cylinder_shape,
};
use std::alloc::Global;

/// How a request ends, and the number of the entry that it made, or 0.
fn request(alloc: Global, level: &mut NavdLevel, request: Request) -> (u32, u32)
    requires { IsRequest request }
    ensures { IsRequested level.old.level level.new.level request result.0 result.1 }
{
    let Some(mut held) = level.take(alloc) else {
        return (EMPTY, 0);
    };
    let answer = held.request(0, request);
    level.put(held);
    match answer {
        Ok((number, reply)) => (reply_status(reply), number),
        Err(_) => (HISTORY_FULL, 0),
    }
}

/// Adds an obstacle, if there is one: how that ends, and the number of the entry that it made, or 0.
pub(crate) fn add(alloc: Global, level: &mut NavdLevel, shape: Option<Shape>) -> (u32, u32)
    requires { IfSome shape IsShape }
    ensures added { IfSome shape (λ shape. IsRequested level.old.level level.new.level (Request.Add shape) result.0 result.1) }
    ensures none { IsNone shape → (result ≡ (status.out_of_range, 0)) × (level.new.level ≡ level.old.level) }
{
    match shape {
        Some(shape) => request(alloc, level, Request::Add(shape)),
        None => (OUT_OF_RANGE, 0),
    }
}

/// Adds a block, which stops agents where `area` is 0, and else sets that area, 1 to 63. The number of the entry that this makes, or 0, is
/// left at `entry`.
#[unsafe(no_mangle)]
pub extern "C" fn navd_add_block(
    alloc: Global,
    level: &mut NavdLevel,
    block: &NavdBlock,
    area: u32,
    entry: &mut u32,
) -> u32
    ensures { IsAddAsked level.old.level level.new.level (block_of area block.now) result entry.new }
{
    let (status, number) = add(alloc, level, block_shape(block, area));
    *entry = number;
    status
}

/// Adds a cylinder, likewise.
#[unsafe(no_mangle)]
pub extern "C" fn navd_add_cylinder(
    alloc: Global,
    level: &mut NavdLevel,
    cylinder: &NavdCylinder,
    area: u32,
    entry: &mut u32,
) -> u32
    ensures { IsAddAsked level.old.level level.new.level (cylinder_of area cylinder.now) result entry.new }
{
    let (status, number) = add(alloc, level, cylinder_shape(cylinder, area));
    *entry = number;
    status
}

/// Removes the obstacle that the entry with a number added. The number of the entry that this makes, or 0, is left at `entry`.
#[unsafe(no_mangle)]
pub extern "C" fn navd_remove(
    alloc: Global,
    level: &mut NavdLevel,
    number: u32,
    entry: &mut u32,
) -> u32
    ensures { IsRequested level.old.level level.new.level (Request.Remove number) result entry.new }
{
    let (status, made) = request(alloc, level, Request::Remove(number));
    *entry = made;
    status
}
