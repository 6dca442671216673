//! The build of a small tile by hand.

ghost use Rattle.std.specs.Prelude.{◌≡◌, ◌<◌, All};
ghost use Rattle.nav_ground.specs.Limits.{IsShape};

use crate::rows::hold;
use crate::stored::shared;
use mesh_types::TileMesh;
use nav_base::Steps;
use nav_ground::{AREAS, Agent, Cell, CellRef, Layer, MeshKind, PaddedCells, Setting, Shape};
use std::alloc::{AllocError, Global};
use std::marker::Brand;
use std::sync::ledger::{Blank, Ledger};
use tile_build::build_tile;

/// Three cells in a row, each connected to the next.
static CELLS: [Cell; 3] = [
    Cell {
        at: CellRef {
            x: 1,
            z: 2,
            level: 0,
        },
        floor: 10,
        ceiling: 65535,
        area: 63,
        next: [None, None, Some(0), None],
    },
    Cell {
        at: CellRef {
            x: 2,
            z: 2,
            level: 0,
        },
        floor: 12,
        ceiling: 65535,
        area: 63,
        next: [Some(0), None, Some(0), None],
    },
    Cell {
        at: CellRef {
            x: 3,
            z: 2,
            level: 0,
        },
        floor: 14,
        ceiling: 65535,
        area: 63,
        next: [Some(0), None, None, None],
    },
];

const SETTING: Setting = Setting {
    width: 4,
    depth: 4,
    tile: 4,
    agent: Agent {
        height: 10,
        climb: 4,
        radius: 0,
    },
    error: 169,
    mesh: MeshKind::Strips,
    limit: 4,
    costs: [1; AREAS],
    clear: false,
};

/// A block over the middle cell.
const BLOCK: Shape = Shape::Block {
    x0: 2,
    x1: 2,
    y0: 0,
    y1: 100,
    z0: 2,
    z1: 2,
};

/// The tile of the three cells under some shapes.
fn built<L: Ledger>(
    alloc: Global,
    shapes: &[Shape],
    steps: &mut Steps<L>,
) -> Result<TileMesh, AllocError>
    requires { All IsShape shapes.now }
{
    let cells = CELLS;
    let layer = Layer {
        tile: 0,
        cells: shared(alloc, &cells)?,
        radius: 0,
        wide: PaddedCells::none(alloc),
    };
    build_tile(alloc, &layer, &SETTING, shapes, steps)
}

/// How many polygons the tile has, if it keeps its free cells over its layer.
fn count<L: Ledger>(alloc: Global, shapes: &[Shape], steps: &mut Steps<L>) -> Option<usize>
    requires { All IsShape shapes.now }
{
    match built(alloc, shapes, steps) {
        Ok(tile) if tile.free.is_over() => Some(tile.polys.len()),
        _ => None,
    }
}

/// How many polygons the tile has as a whole and parted, with a counter over a blank ledger.
fn counts<L: Ledger>(alloc: Global, blank: Blank) -> (Option<usize>, Option<usize>)
    requires name { blank.name ≡ L.name }
    requires parts { blank.parts ≡ L.parts }
    requires some { 0 < blank.parts }
{
    let mut steps = Steps::<L>::new(blank);
    let whole = count(alloc, &[], &mut steps);
    let parted = count(alloc, &[BLOCK], &mut steps);
    (whole, parted)
}

#[test]
fn builds_a_tile(rt: HostRuntime) {
    let counts = counts::<Brand>(rt.alloc(), Blank::new(1));
    hold(&rt, "polygons", counts == (Some(1), Some(2)));
}
