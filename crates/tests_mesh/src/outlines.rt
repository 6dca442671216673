//! Contours by hand.

ghost use Rattle.mesh_types.specs.Rings.{IsRing};

use contour_simplify::simplify;
use mesh_types::{Code, Simplified, UnitEdge};
use nav_base::Point;
use std::alloc::{AllocError, Global};

/// Four cells in a row: the region 2 lies above the last, the region 1 above the first, and a wall round the rest.
static ROW: [UnitEdge; 10] = [
    UnitEdge {
        from: Point { x: 1, z: 1 },
        to: Point { x: 2, z: 1 },
        code: Code::Wall,
    },
    UnitEdge {
        from: Point { x: 2, z: 1 },
        to: Point { x: 3, z: 1 },
        code: Code::Wall,
    },
    UnitEdge {
        from: Point { x: 3, z: 1 },
        to: Point { x: 4, z: 1 },
        code: Code::Wall,
    },
    UnitEdge {
        from: Point { x: 4, z: 1 },
        to: Point { x: 5, z: 1 },
        code: Code::Wall,
    },
    UnitEdge {
        from: Point { x: 5, z: 1 },
        to: Point { x: 5, z: 2 },
        code: Code::Wall,
    },
    UnitEdge {
        from: Point { x: 5, z: 2 },
        to: Point { x: 4, z: 2 },
        code: Code::Region(2),
    },
    UnitEdge {
        from: Point { x: 4, z: 2 },
        to: Point { x: 3, z: 2 },
        code: Code::Wall,
    },
    UnitEdge {
        from: Point { x: 3, z: 2 },
        to: Point { x: 2, z: 2 },
        code: Code::Wall,
    },
    UnitEdge {
        from: Point { x: 2, z: 2 },
        to: Point { x: 1, z: 2 },
        code: Code::Region(1),
    },
    UnitEdge {
        from: Point { x: 1, z: 2 },
        to: Point { x: 1, z: 1 },
        code: Code::Wall,
    },
];

/// One cell with a wall all round.
static CELL: [UnitEdge; 4] = [
    UnitEdge {
        from: Point { x: 1, z: 1 },
        to: Point { x: 2, z: 1 },
        code: Code::Wall,
    },
    UnitEdge {
        from: Point { x: 2, z: 1 },
        to: Point { x: 2, z: 2 },
        code: Code::Wall,
    },
    UnitEdge {
        from: Point { x: 2, z: 2 },
        to: Point { x: 1, z: 2 },
        code: Code::Wall,
    },
    UnitEdge {
        from: Point { x: 1, z: 2 },
        to: Point { x: 1, z: 1 },
        code: Code::Wall,
    },
];

fn row() -> &'static [UnitEdge]
    ensures { IsRing result.now }
{
    &ROW
}

fn cell() -> &'static [UnitEdge]
    ensures { IsRing result.now }
{
    &CELL
}

/// The corners and the codes of an outline; none where it is flat.
fn written(simplified: &Simplified) -> (&[Point], &[Code]) {
    match simplified {
        Simplified::Flat => (&[], &[]),
        Simplified::Outline(outline) => (outline.corners.as_slice(), outline.codes.as_slice()),
    }
}

static LONG: [Point; 6] = [
    Point { x: 1, z: 1 },
    Point { x: 5, z: 1 },
    Point { x: 5, z: 2 },
    Point { x: 4, z: 2 },
    Point { x: 2, z: 2 },
    Point { x: 1, z: 2 },
];

static SHORT: [Point; 4] = [
    Point { x: 5, z: 2 },
    Point { x: 4, z: 2 },
    Point { x: 2, z: 2 },
    Point { x: 1, z: 2 },
];

static SQUARE: [Point; 4] = [
    Point { x: 1, z: 1 },
    Point { x: 2, z: 1 },
    Point { x: 2, z: 2 },
    Point { x: 1, z: 2 },
];

/// The codes of the sides of the long outline.
static CODES: [Code; 6] = [
    Code::Wall,
    Code::Wall,
    Code::Region(2),
    Code::Wall,
    Code::Region(1),
    Code::Wall,
];

/// Whether these corners, and between them these codes, are left at an error.
fn leaves(
    alloc: Global,
    edges: &[UnitEdge],
    error: u32,
    corners: &[Point],
    codes: Option<&[Code]>,
) -> Result<bool, AllocError>
    requires { IsRing edges.now }
{
    let simplified = simplify(alloc, edges, error)?;
    Ok(is_like(written(&simplified), corners, codes))
}

fn is_like(found: (&[Point], &[Code]), corners: &[Point], codes: Option<&[Code]>) -> bool {
    match codes {
        Some(codes) => found.0 == corners && found.1 == codes,
        None => found.0 == corners,
    }
}

/// Whether nothing but a flat outline is left at an error.
fn is_flat(alloc: Global, edges: &[UnitEdge], error: u32) -> Result<bool, AllocError>
    requires { IsRing edges.now }
{
    Ok(simplify(alloc, edges, error)? == Simplified::Flat)
}

#[test]
fn outlines_by_hand(rt: HostRuntime) -> Result<(), AllocError> {
    assert!(rt; leaves(rt.alloc(), row(), 50, &LONG, Some(&CODES))?);
    assert!(rt; leaves(rt.alloc(), row(), 169, &SHORT, None)?);
    assert!(rt; leaves(rt.alloc(), cell(), 49, &SQUARE, None)?);
    assert!(rt; leaves(rt.alloc(), cell(), 50, &[], None)?);
    assert!(rt; is_flat(rt.alloc(), cell(), 50)?);
    Ok(())
}
