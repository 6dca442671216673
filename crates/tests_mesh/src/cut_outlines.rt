//! Outlines by hand, how they are cut, and the pieces into which their triangles are united.

ghost use Rattle.std.specs.Prelude.{◌≡◌, ◌↔◌, IfOk, IsTrue};
ghost use Rattle.nav_base.specs.Point.{HasCoordinates};
ghost use Rattle.mesh_types.specs.Ears.{CanBeCut};

use ear_cut::{EarRefusal, ears};
use mesh_types::{Outline, Piece, Triangle};
use nav_base::Point;
use nav_lists::Items;
use poly_merge::merge;
use std::alloc::{AllocError, Global};
use std::process::Abort;

static THIN: [Point; 6] = [
    Point { x: 1, z: 1 },
    Point { x: 5, z: 1 },
    Point { x: 5, z: 2 },
    Point { x: 4, z: 2 },
    Point { x: 2, z: 2 },
    Point { x: 1, z: 2 },
];

static THIN_TRIANGLES: [Triangle; 4] = [
    Triangle { a: 1, b: 2, c: 3 },
    Triangle { a: 4, b: 5, c: 0 },
    Triangle { a: 4, b: 0, c: 1 },
    Triangle { a: 1, b: 3, c: 4 },
];

static ROUND: [Point; 8] = [
    Point { x: 2, z: 0 },
    Point { x: 4, z: 0 },
    Point { x: 6, z: 2 },
    Point { x: 6, z: 4 },
    Point { x: 4, z: 6 },
    Point { x: 2, z: 6 },
    Point { x: 0, z: 4 },
    Point { x: 0, z: 2 },
];

static ROUND_TRIANGLES: [Triangle; 6] = [
    Triangle { a: 7, b: 0, c: 1 },
    Triangle { a: 1, b: 2, c: 3 },
    Triangle { a: 3, b: 4, c: 5 },
    Triangle { a: 5, b: 6, c: 7 },
    Triangle { a: 7, b: 1, c: 3 },
    Triangle { a: 3, b: 5, c: 7 },
];

/// Whether a point has coordinates.
fn has_coordinates(p: Point) -> bool
    ensures { IsTrue result ↔ HasCoordinates p }
{
    -65536 <= p.x && p.x <= 65536 && -65536 <= p.z && p.z <= 65536
}

/// Whether an outline with these corners can be cut.
fn can_be_cut(corners: &[Point]) -> bool
    ensures { IsTrue result → CanBeCut corners.now }
{
    if corners.len() < 3 || corners.len() > 100 {
        return false;
    }
    for corner in corners {
        if !has_coordinates(*corner) {
            return false;
        }
    }
    true
}

/// An outline with these corners.
fn outline(alloc: Global, corners: &[Point]) -> Result<Outline, AllocError>
    ensures { IfOk result (λ outline. outline.corners ≡ corners.now) }
{
    Ok(Outline {
        corners: Items::from_vec(Vec::from_slice(alloc, corners)?),
        codes: Items::new(alloc),
    })
}

/// The triangles of an outline with these corners.
fn cut(alloc: Global, corners: &[Point]) -> Result<Items<Triangle>, EarRefusal>
    requires { CanBeCut corners.now }
{
    let outline = outline(alloc, corners)?;
    ears(alloc, &outline)
}

/// Whether an outline with these corners is cut into these triangles.
fn gives(alloc: Global, corners: &[Point], wanted: &[Triangle]) -> Result<bool, EarRefusal> {
    if !can_be_cut(corners) {
        return Ok(false);
    }
    Ok(cut(alloc, corners)?.as_slice() == wanted)
}

/// Corners, and the triangles into which they are cut.
type Cut = (&'static [Point], &'static [Triangle]);

const CUTS: [Cut; 3] = [
    // one cell deep, with a corner on a straight side
    (&THIN, &THIN_TRIANGLES),
    // with a corner that turns to the right, which blocks the triangle opposite
    (
        &[
            Point { x: 0, z: 0 },
            Point { x: 4, z: 0 },
            Point { x: 4, z: 4 },
            Point { x: 2, z: 1 },
            Point { x: 0, z: 4 },
        ],
        &[
            Triangle { a: 1, b: 2, c: 3 },
            Triangle { a: 0, b: 1, c: 3 },
            Triangle { a: 0, b: 3, c: 4 },
        ],
    ),
    (
        &[
            Point { x: 0, z: 0 },
            Point { x: 4, z: 0 },
            Point { x: 4, z: 4 },
        ],
        &[Triangle { a: 0, b: 1, c: 2 }],
    ),
];

fn check_cuts(rt: &impl Abort, alloc: Global, rows: &[Cut]) -> Result<(), EarRefusal> {
    for (corners, wanted) in rows {
        assert!(rt; gives(alloc, corners, wanted)?);
    }
    Ok(())
}

#[test]
fn cuts_ears(rt: HostRuntime) -> Result<(), EarRefusal> {
    check_cuts(&rt, rt.alloc(), &CUTS)
}

/// Whether the cut of an outline with these corners ends at these places, which have no ear.
fn leaves(alloc: Global, corners: &[Point], wanted: &[u32]) -> bool {
    if !can_be_cut(corners) {
        return false;
    }
    match cut(alloc, corners) {
        Err(EarRefusal::NoEar { left }) => left.as_slice() == wanted,
        _ => false,
    }
}

/// Flat corners.
static FLAT: [Point; 4] = [
    Point { x: 5, z: 2 },
    Point { x: 4, z: 2 },
    Point { x: 2, z: 2 },
    Point { x: 1, z: 2 },
];

static CROSSING: [Point; 4] = [
    Point { x: 0, z: 0 },
    Point { x: 2, z: 2 },
    Point { x: 2, z: 0 },
    Point { x: 0, z: 2 },
];

#[test]
fn leaves_places_without_an_ear(rt: HostRuntime) {
    assert!(rt; leaves(rt.alloc(), &FLAT, &[0, 1, 2, 3]));
    assert!(rt; leaves(rt.alloc(), &CROSSING, &[1, 2, 3]));
}

/// The pieces of an outline that is cut into these triangles.
fn united(
    rt: &impl Abort,
    alloc: Global,
    outline: &Outline,
    triangles: &[Triangle],
) -> Result<Items<Piece>, EarRefusal>
    requires { CanBeCut outline.now.corners }
{
    let cut = ears(alloc, outline)?;
    assert!(rt; cut.as_slice() == triangles);
    Ok(merge(alloc, outline, cut)?)
}

fn pieces_of(
    rt: &impl Abort,
    alloc: Global,
    corners: &[Point],
    triangles: &[Triangle],
) -> Result<Items<Piece>, EarRefusal> {
    assert!(rt; can_be_cut(corners));
    let outline = outline(alloc, corners)?;
    united(rt, alloc, &outline, triangles)
}

/// Whether the corners of three pieces have these places.
fn are_at(pieces: &[Piece], wanted: &[&[u32]; 3]) -> bool {
    let [first, second, third] = pieces else {
        return false;
    };
    first.corners.as_slice() == wanted[0]
        && second.corners.as_slice() == wanted[1]
        && third.corners.as_slice() == wanted[2]
}

/// Corners, the triangles into which they are cut, and the places of the pieces into which these are united.
type United = (&'static [Point], &'static [Triangle], [&'static [u32]; 3]);

const UNITED: [United; 2] = [
    (
        &THIN,
        &THIN_TRIANGLES,
        [&[1, 2, 3], &[4, 5, 0], &[4, 0, 1, 3]],
    ),
    // Pieces have up to six corners.
    (
        &ROUND,
        &ROUND_TRIANGLES,
        [&[3, 5, 7, 0, 1, 2], &[3, 4, 5], &[5, 6, 7]],
    ),
];

fn unites(rt: &impl Abort, alloc: Global, row: &United) -> Result<bool, EarRefusal> {
    Ok(are_at(pieces_of(rt, alloc, row.0, row.1)?.as_slice(), &row.2))
}

fn check_united(rt: &impl Abort, alloc: Global, rows: &[United]) -> Result<(), EarRefusal> {
    for row in rows {
        assert!(rt; unites(rt, alloc, row)?);
    }
    Ok(())
}

#[test]
fn unites_triangles(rt: HostRuntime) -> Result<(), EarRefusal> {
    check_united(&rt, rt.alloc(), &UNITED)
}
