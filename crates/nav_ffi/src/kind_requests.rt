//! Requests of kinds over the border: each is one entry of all kinds.

ghost use Rattle.nav_ground.specs.declared.history.Request.TheVariants as requests;
ghost use Rattle.nav_handle.specs.Wire.{block_of, cylinder_of};
ghost use Rattle.kinds_handle.specs.KindRequests.{IsKindsAddAsked, IsKindsRequested};
ghost use Rattle.registry_handle.specs.Solids.{disc_of, prism_of};

use kinds_handle::{NavdKinds, add_to_kinds, remove_from_kinds};
use nav_handle::{NavdBlock, NavdCylinder, block_shape, cylinder_shape};
use registry_handle::{NavdDisc, NavdPrism, disc_shape, prism_shape};
use std::alloc::Global;

/// Adds a block to all kinds, which stops agents where `area` is 0, and else sets that area, 1 to 63. The number of the entry that this makes, or 0,
/// is left at `entry`.
#[unsafe(no_mangle)]
pub extern "C" fn navd_kinds_add_block(
    alloc: Global,
    kinds: &mut NavdKinds,
    block: &NavdBlock,
    area: u32,
    entry: &mut u32,
) -> u32
    ensures { IsKindsAddAsked kinds.old.kinds kinds.new.kinds (block_of area block.now) result entry.new }
{
    let (status, number) = add_to_kinds(alloc, kinds, block_shape(block, area));
    *entry = number;
    status
}

/// Adds a cylinder, likewise.
#[unsafe(no_mangle)]
pub extern "C" fn navd_kinds_add_cylinder(
    alloc: Global,
    kinds: &mut NavdKinds,
    cylinder: &NavdCylinder,
    area: u32,
    entry: &mut u32,
) -> u32
    ensures { IsKindsAddAsked kinds.old.kinds kinds.new.kinds (cylinder_of area cylinder.now) result entry.new }
{
    let (status, number) = add_to_kinds(alloc, kinds, cylinder_shape(cylinder, area));
    *entry = number;
    status
}

/// Adds a prism, likewise.
#[unsafe(no_mangle)]
pub extern "C" fn navd_kinds_add_prism(
    alloc: Global,
    kinds: &mut NavdKinds,
    prism: &NavdPrism,
    area: u32,
    entry: &mut u32,
) -> u32
    ensures { IsKindsAddAsked kinds.old.kinds kinds.new.kinds (prism_of area prism.now) result entry.new }
{
    let (status, number) = add_to_kinds(alloc, kinds, prism_shape(prism, area));
    *entry = number;
    status
}

/// Adds a disc, likewise.
#[unsafe(no_mangle)]
pub extern "C" fn navd_kinds_add_disc(
    alloc: Global,
    kinds: &mut NavdKinds,
    disc: &NavdDisc,
    area: u32,
    entry: &mut u32,
) -> u32
    ensures { IsKindsAddAsked kinds.old.kinds kinds.new.kinds (disc_of area disc.now) result entry.new }
{
    let (status, number) = add_to_kinds(alloc, kinds, disc_shape(disc, area));
    *entry = number;
    status
}

/// Removes the obstacle that the entry with a number added from all kinds. The number of the entry that this makes, or 0, is left at `entry`.
#[unsafe(no_mangle)]
pub extern "C" fn navd_kinds_remove(
    alloc: Global,
    kinds: &mut NavdKinds,
    number: u32,
    entry: &mut u32,
) -> u32
    ensures { IsKindsRequested kinds.old.kinds kinds.new.kinds (requests.Remove number) result entry.new }
{
    let (status, made) = remove_from_kinds(alloc, kinds, number);
    *entry = made;
    status
}
