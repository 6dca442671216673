//! Contours by hand: one cell, and three in a row, with a wall round them.

ghost use Rattle.mesh_types.specs.Rings.{IsRing};

use contour_simplify::simplify;
use mesh_types::{Code, Simplified, UnitEdge};
use nav_base::Point;
use std::alloc::{AllocError, Global};

static CELL: [UnitEdge; 4] = [
    UnitEdge {
        from: Point { x: 1, z: 1 },
        to: Point { x: 2, z: 1 },
        code: Code::Wall,
    },
    UnitEdge {
        from: Point { x: 2, z: 1 },
        to: Point { x: 2, z: 2 },
        code: Code::Wall,
    },
    UnitEdge {
        from: Point { x: 2, z: 2 },
        to: Point { x: 1, z: 2 },
        code: Code::Wall,
    },
    UnitEdge {
        from: Point { x: 1, z: 2 },
        to: Point { x: 1, z: 1 },
        code: Code::Wall,
    },
];

static THREE: [UnitEdge; 8] = [
    UnitEdge {
        from: Point { x: 1, z: 1 },
        to: Point { x: 2, z: 1 },
        code: Code::Wall,
    },
    UnitEdge {
        from: Point { x: 2, z: 1 },
        to: Point { x: 3, z: 1 },
        code: Code::Wall,
    },
    UnitEdge {
        from: Point { x: 3, z: 1 },
        to: Point { x: 4, z: 1 },
        code: Code::Wall,
    },
    UnitEdge {
        from: Point { x: 4, z: 1 },
        to: Point { x: 4, z: 2 },
        code: Code::Wall,
    },
    UnitEdge {
        from: Point { x: 4, z: 2 },
        to: Point { x: 3, z: 2 },
        code: Code::Wall,
    },
    UnitEdge {
        from: Point { x: 3, z: 2 },
        to: Point { x: 2, z: 2 },
        code: Code::Wall,
    },
    UnitEdge {
        from: Point { x: 2, z: 2 },
        to: Point { x: 1, z: 2 },
        code: Code::Wall,
    },
    UnitEdge {
        from: Point { x: 1, z: 2 },
        to: Point { x: 1, z: 1 },
        code: Code::Wall,
    },
];

fn cell() -> &'static [UnitEdge]
    ensures { IsRing result.now }
{
    &CELL
}

fn three() -> &'static [UnitEdge]
    ensures { IsRing result.now }
{
    &THREE
}

/// How many corners an outline has; none where it is flat.
fn corners(alloc: Global, edges: &[UnitEdge], error: u32) -> Result<usize, AllocError>
    requires { IsRing edges.now }
{
    let simplified = simplify(alloc, edges, error)?;
    Ok(match &simplified {
        Simplified::Flat => 0,
        Simplified::Outline(outline) => outline.corners.as_slice().len(),
    })
}

// Of n cells in a row the corners beside the diagonal lie n * n / (n * n + 1) squared cells from it.
#[test]
fn rows_are_flat_past_the_law(rt: HostRuntime) -> Result<(), AllocError> {
    let found = [
        corners(rt.alloc(), cell(), 49)?,
        corners(rt.alloc(), cell(), 50)?,
        corners(rt.alloc(), three(), 49)?,
        corners(rt.alloc(), three(), 89)?,
        corners(rt.alloc(), three(), 90)?,
        corners(rt.alloc(), three(), 100)?,
    ];
    assert!(rt; found == [4, 0, 4, 4, 0, 0]);
    Ok(())
}
