//! Obstacles at any angle and round ones where they stand, over the border.

ghost use Rattle.nav_ffi.specs.Requests.{IsAddAsked};
ghost use Rattle.registry_handle.specs.Solids.{disc_of, prism_of};

use crate::requests::add;
use nav_handle::NavdLevel;
use registry_handle::{NavdDisc, NavdPrism, disc_shape, prism_shape};
use std::alloc::Global;

/// Adds a prism, which stops agents where `area` is 0, and else sets that area, 1 to 63. The number of the entry that this makes, or 0, is
/// left at `entry`.
#[unsafe(no_mangle)]
pub extern "C" fn navd_add_prism(
    alloc: Global,
    level: &mut NavdLevel,
    prism: &NavdPrism,
    area: u32,
    entry: &mut u32,
) -> u32
    ensures { IsAddAsked level.old.level level.new.level (prism_of area prism.now) result entry.new }
{
    let (status, number) = add(alloc, level, prism_shape(prism, area));
    *entry = number;
    status
}

/// Adds a disc, likewise.
#[unsafe(no_mangle)]
pub extern "C" fn navd_add_disc(
    alloc: Global,
    level: &mut NavdLevel,
    disc: &NavdDisc,
    area: u32,
    entry: &mut u32,
) -> u32
    ensures { IsAddAsked level.old.level level.new.level (disc_of area disc.now) result entry.new }
{
    let (status, number) = add(alloc, level, disc_shape(disc, area));
    *entry = number;
    status
}
