//! Regions by hand.

ghost use Rattle.std.specs.Prelude.{◌≡◌, IfOk};
ghost use Rattle.nav_ground.specs.Cells.{IsCut};

use crate::cell_rows::{NO, Row, free_of, ring};
use mesh_types::Regions;
use mono_regions::regions;
use nav_ground::FreeLayer;
use std::alloc::{AllocError, Global};
use std::process::Abort;

/// The first row has the columns 1 to 3, the last of which has another area and a neighbour in another tile; the second row has the columns
/// 1 and 2 on two levels, which are connected to the first row alone.
static LEVELS: [Row; 5] = [
    (1, 0, 0, 63, NO, 0, 0, NO),
    (2, 0, 0, 63, 0, 1, 0, NO),
    (3, 0, 0, 7, 0, NO, 2, NO),
    (1, 1, 0, 63, NO, NO, NO, 0),
    (2, 1, 1, 63, NO, NO, NO, 0),
];

/// The first two rows join. The third has a common column with the second that is not connected, the fourth has another area than the third,
/// and the fifth that of the fourth.
static STAIRS: [Row; 9] = [
    (0, 0, 0, 63, NO, 0, 0, NO),
    (1, 0, 0, 63, 0, 0, NO, NO),
    (0, 1, 0, 63, NO, NO, 0, 0),
    (1, 1, 0, 63, 0, NO, 0, 0),
    (2, 1, 0, 63, 0, 0, NO, NO),
    (1, 2, 0, 63, NO, NO, 0, NO),
    (2, 2, 0, 63, 0, 0, NO, 0),
    (2, 3, 0, 7, NO, 0, NO, 0),
    (2, 4, 0, 7, NO, NO, NO, 0),
];

fn levels(alloc: Global) -> Result<FreeLayer, AllocError>
    ensures { IfOk result (λ free. IsCut free.cells) }
{
    let free = free_of(alloc, &LEVELS)?;
    Ok(free)
}

fn stairs(alloc: Global) -> Result<FreeLayer, AllocError>
    ensures { IfOk result (λ free. IsCut free.cells) }
{
    let free = free_of(alloc, &STAIRS)?;
    Ok(free)
}

/// The number of the region, the row and the columns of each strip, region by region.
fn places(alloc: Global, regions: &Regions) -> Result<Vec<(usize, u32, u32, u32)>, AllocError> {
    let mut places = Vec::new(alloc);
    for (number, region) in regions.regions.iter().enumerate() {
        for strip in region.strips.iter() {
            places.push((number, strip.z, strip.x0, strip.x1))?;
        }
    }
    Ok(places)
}

/// Whether the strips of regions are these, region by region.
fn are_at(
    alloc: Global,
    regions: &Regions,
    wanted: &[(usize, u32, u32, u32)],
) -> Result<bool, AllocError> {
    Ok(places(alloc, regions)?.as_slice() == wanted)
}

/// Whether cells have regions of these strips.
fn gives(
    alloc: Global,
    free: &FreeLayer,
    wanted: &[(usize, u32, u32, u32)],
) -> Result<bool, AllocError>
    requires { IsCut free.now.cells }
{
    let regions = regions(alloc, free)?;
    are_at(alloc, &regions, wanted)
}

fn check(
    rt: &impl Abort,
    alloc: Global,
    free: &FreeLayer,
    wanted: &[(usize, u32, u32, u32)],
) -> Result<(), AllocError>
    requires { IsCut free.now.cells }
{
    assert!(rt; gives(alloc, free, wanted)?);
    Ok(())
}

#[test]
fn regions_on_levels(rt: HostRuntime) -> Result<(), AllocError> {
    let free = levels(rt.alloc())?;
    let wanted = [(0, 0, 1, 2), (1, 0, 3, 3), (2, 1, 1, 1), (3, 1, 2, 2)];
    check(&rt, rt.alloc(), &free, &wanted)
}

#[test]
fn regions_of_a_ring(rt: HostRuntime) -> Result<(), AllocError> {
    let free = ring(rt.alloc())?;
    let wanted = [
        (0, 1, 1, 4),
        (1, 2, 1, 1),
        (1, 3, 1, 1),
        (2, 2, 4, 4),
        (2, 3, 4, 4),
        (3, 4, 1, 4),
    ];
    check(&rt, rt.alloc(), &free, &wanted)
}

#[test]
fn regions_of_stairs(rt: HostRuntime) -> Result<(), AllocError> {
    let free = stairs(rt.alloc())?;
    let wanted = [
        (0, 0, 0, 1),
        (0, 1, 0, 2),
        (1, 2, 1, 2),
        (2, 3, 2, 2),
        (2, 4, 2, 2),
    ];
    check(&rt, rt.alloc(), &free, &wanted)
}
