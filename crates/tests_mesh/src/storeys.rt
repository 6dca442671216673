//! Storeys by hand: a ramp of three columns and two rows, and a deck of two columns over its upper end.

use crate::checks::same;
use crate::stored::stored;
use contour_mesh::{ContourMesh, contour_mesh_over};
use mesh_types::{FloorRow, Storey, Storeys, TileMesh};
use nav_ground::{AREAS, Agent, Cell, CellRef, FreeLayer, MeshKind, Setting};
use std::alloc::{AllocError, Global};
use std::process::Abort;
use strip_mesh::strip_mesh_over;

/// One tile, whose outlines keep to the contours.
const SETTING: Setting = Setting {
    width: 6,
    depth: 4,
    tile: 6,
    agent: Agent {
        height: 10,
        climb: 4,
        radius: 0,
    },
    error: 0,
    mesh: MeshKind::Contours,
    limit: 4,
    costs: [1; AREAS],
    clear: false,
};

/// The x, z and level of a cell, its floor, and the levels that it names toward x - 1, z + 1, x + 1 and z - 1.
macro_rules! cell {
    ($x:expr, $z:expr, $level:expr, $floor:expr, $next:expr) => {
        Cell {
            at: CellRef {
                x: $x,
                z: $z,
                level: $level,
            },
            floor: $floor,
            ceiling: 65535,
            area: 63,
            next: $next,
        }
    };
}

/// The ramp is on level 0, the deck on level 1.
static CELLS: [Cell; 10] = [
    cell!(1, 1, 0, 12, [None, Some(0), Some(0), None]),
    cell!(2, 1, 0, 14, [Some(0), Some(0), Some(0), None]),
    cell!(2, 1, 1, 40, [None, Some(1), Some(1), None]),
    cell!(3, 1, 0, 16, [Some(0), Some(0), None, None]),
    cell!(3, 1, 1, 41, [Some(1), Some(1), None, None]),
    cell!(1, 2, 0, 12, [None, None, Some(0), Some(0)]),
    cell!(2, 2, 0, 14, [Some(0), None, Some(0), Some(0)]),
    cell!(2, 2, 1, 42, [None, None, Some(1), Some(1)]),
    cell!(3, 2, 0, 16, [Some(0), None, None, Some(0)]),
    cell!(3, 2, 1, 43, [Some(1), None, None, Some(1)]),
];

/// The homes of the polygons; then for each storey its area, its first row and how many rows it has, and for each of these the first column,
/// how many columns, and the floors.
static BY_OUTLINES: [usize; 26] = [
    0, 1, //
    63, 1, 2, 1, 3, 12, 14, 16, 1, 3, 12, 14, 16, //
    63, 1, 2, 2, 2, 40, 41, 2, 2, 42, 43,
];

/// The same of the tile as strips: the ramp and the deck in each row.
static BY_STRIPS: [usize; 34] = [
    0, 1, 2, 3, //
    63, 1, 1, 1, 3, 12, 14, 16, //
    63, 1, 1, 2, 2, 40, 41, //
    63, 2, 1, 1, 3, 12, 14, 16, //
    63, 2, 1, 2, 2, 42, 43,
];

fn by_outlines(alloc: Global) -> Result<ContourMesh, AllocError> {
    let cells = CELLS;
    let free = FreeLayer {
        tile: 0,
        cells: stored(alloc, &cells)?,
    };
    contour_mesh_over(alloc, free, &SETTING)
}

fn by_strips(alloc: Global) -> Result<TileMesh, AllocError> {
    let cells = CELLS;
    let free = FreeLayer {
        tile: 0,
        cells: stored(alloc, &cells)?,
    };
    strip_mesh_over(alloc, free, &SETTING)
}

/// The numbers of storeys, one after the other.
fn numbers(alloc: Global, storeys: &Storeys) -> Result<Vec<usize>, AllocError> {
    let mut numbers = Vec::new(alloc);
    for home in storeys.homes() {
        numbers.push(*home as usize)?;
    }
    for storey in storeys.list() {
        push_storey(&mut numbers, storey)?;
    }
    Ok(numbers)
}

fn push_storey(numbers: &mut Vec<usize>, storey: &Storey) -> Result<(), AllocError> {
    numbers.push(storey.area as usize)?;
    numbers.push(storey.z0 as usize)?;
    numbers.push(storey.rows.len())?;
    for row in storey.rows.as_slice() {
        push_row(numbers, row)?;
    }
    Ok(())
}

fn push_row(numbers: &mut Vec<usize>, row: &FloorRow) -> Result<(), AllocError> {
    numbers.push(row.x0 as usize)?;
    numbers.push(row.floors.len())?;
    for floor in row.floors.as_slice() {
        numbers.push(*floor as usize)?;
    }
    Ok(())
}

/// The storeys of a tile have these numbers.
fn check(
    rt: &impl Abort,
    alloc: Global,
    mesh: &TileMesh,
    wanted: &[usize],
) -> Result<(), AllocError> {
    let found = numbers(alloc, &mesh.storeys)?;
    same(rt, found.as_slice(), wanted);
    Ok(())
}

#[test]
fn storeys_of_regions(rt: HostRuntime) -> Result<(), AllocError> {
    match by_outlines(rt.alloc())? {
        ContourMesh::Made(mesh) => check(&rt, rt.alloc(), &mesh, &BY_OUTLINES),
        ContourMesh::NotCut { .. } => panic!(rt; "some region has no outline that can be cut"),
    }
}

#[test]
fn storeys_of_strips(rt: HostRuntime) -> Result<(), AllocError> {
    let mesh = by_strips(rt.alloc())?;
    check(&rt, rt.alloc(), &mesh, &BY_STRIPS)
}
