//! Contours by hand.

ghost use Rattle.std.specs.Prelude.{◌≡◌, IfOk};
ghost use Rattle.nav_ground.specs.Cells.{IsCut};

use crate::cell_rows::{STEP, free_of, ring};
use contour_walk::contour;
use mesh_types::{Code, UnitEdge};
use mono_regions::regions;
use nav_ground::{AREAS, Agent, FreeLayer, MeshKind, Setting};
use nav_lists::Items;
use std::alloc::{AllocError, Global};

/// Where an edge begins, and its code.
type Wanted = (i32, i32, Code);

/// Its first row is a region of its own, between the two columns of cells.
static RING_CONTOUR: [Wanted; 10] = [
    (1, 1, Code::Wall),
    (2, 1, Code::Wall),
    (3, 1, Code::Wall),
    (4, 1, Code::Wall),
    (5, 1, Code::Wall),
    (5, 2, Code::Region(2)),
    (4, 2, Code::Wall),
    (3, 2, Code::Wall),
    (2, 2, Code::Region(1)),
    (1, 2, Code::Wall),
];

static STEP_CONTOUR: [Wanted; 10] = [
    (2, 1, Code::Wall),
    (3, 1, Code::Wall),
    (3, 0, Code::Wall),
    (4, 0, Code::Wall),
    (5, 0, Code::Side(2)),
    (5, 1, Code::Wall),
    (4, 1, Code::Wall),
    (4, 2, Code::Region(1)),
    (3, 2, Code::Wall),
    (2, 2, Code::Wall),
];

/// Two tiles side by side.
const SETTING: Setting = Setting {
    width: 10,
    depth: 5,
    tile: 5,
    agent: Agent {
        height: 10,
        climb: 4,
        radius: 0,
    },
    error: 169,
    mesh: MeshKind::Contours,
    limit: 4,
    costs: [1; AREAS],
    clear: false,
};

fn step(alloc: Global) -> Result<FreeLayer, AllocError>
    ensures cells { IfOk result (λ free. IsCut free.cells) }
    ensures tile { IfOk result (λ free. free.tile ≡ 0) }
{
    let free = free_of(alloc, &STEP)?;
    Ok(free)
}

/// Whether edges begin at corners, with codes.
fn is_like(edges: &[UnitEdge], wanted: &[Wanted]) -> bool {
    if edges.len() != wanted.len() {
        return false;
    }
    for (edge, wanted) in edges.iter().zip(wanted.iter()) {
        if (edge.from.x, edge.from.z, edge.code) != *wanted {
            return false;
        }
    }
    true
}

/// The contour of the first region of cells, and none where there is no region.
fn first_contour(alloc: Global, free: &FreeLayer) -> Result<Items<UnitEdge>, AllocError>
    requires cells { IsCut free.now.cells }
    requires tile { free.now.tile ≡ 0 }
{
    let regions = regions(alloc, free)?;
    if regions.regions.is_empty() {
        return Ok(Items::new(alloc));
    }
    contour(alloc, free, &SETTING, &regions, 0)
}

/// Whether the contour of the first region of cells has these edges.
fn gives(alloc: Global, free: &FreeLayer, wanted: &[Wanted]) -> Result<bool, AllocError>
    requires cells { IsCut free.now.cells }
    requires tile { free.now.tile ≡ 0 }
{
    Ok(is_like(first_contour(alloc, free)?.as_slice(), wanted))
}

#[test]
fn ring_by_hand(rt: HostRuntime) -> Result<(), AllocError> {
    let free = ring(rt.alloc())?;
    assert!(rt; gives(rt.alloc(), &free, &RING_CONTOUR)?);
    Ok(())
}

#[test]
fn step_by_hand(rt: HostRuntime) -> Result<(), AllocError> {
    let free = step(rt.alloc())?;
    assert!(rt; gives(rt.alloc(), &free, &STEP_CONTOUR)?);
    Ok(())
}
