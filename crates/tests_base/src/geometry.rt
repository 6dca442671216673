//! Turns, deviations, roots and convexity, worked out by hand. Each helper tests what its call requires.

ghost use Rattle.std.specs.Prelude.{◌↔◌, All, IsTrue};
ghost use Rattle.nav_base.specs.Point.{HasCoordinates, IsCellCorner};

use crate::checks::same;
use nav_base::{Deviation, Point, ceil_sqrt, cross, dev, exceeds, less, orient, strictly_convex};
use std::process::Abort;

/// Whether a point has coordinates.
fn has_coordinates(p: Point) -> bool
    ensures { IsTrue result ↔ HasCoordinates p }
{
    -65536 <= p.x && p.x <= 65536 && -65536 <= p.z && p.z <= 65536
}

/// Whether all points have coordinates.
fn have_coordinates(points: &[Point]) -> bool
    ensures { IsTrue result → All HasCoordinates points.now }
{
    for point in points {
        if !has_coordinates(*point) {
            return false;
        }
    }
    true
}

/// Whether a point is a corner of a cell.
fn is_cell_corner(p: Point) -> bool
    ensures { IsTrue result ↔ IsCellCorner p }
{
    0 <= p.x && p.x <= 1024 && 0 <= p.z && p.z <= 1024
}

fn crossed(a: Point, b: Point) -> Option<i64> {
    if has_coordinates(a) && has_coordinates(b) {
        Some(cross(a, b))
    } else {
        None
    }
}

/// Two vectors, and their cross.
static CROSSES: [(Point, Point, i64); 3] = [
    (Point { x: 1, z: 0 }, Point { x: 0, z: 1 }, 1),
    (Point { x: 3, z: -2 }, Point { x: -5, z: 7 }, 11),
    (
        Point {
            x: 65536,
            z: -65536,
        },
        Point { x: 65536, z: 65536 },
        8589934592,
    ),
];

fn check_crosses(rt: &impl Abort, rows: &[(Point, Point, i64)]) {
    for (a, b, want) in rows {
        same(rt, crossed(*a, *b), Some(*want));
        same(rt, crossed(*b, *a), want.checked_neg());
    }
}

#[test]
fn crosses_vectors(rt: HostRuntime) {
    check_crosses(&rt, &CROSSES);
}

fn turned(a: Point, b: Point, c: Point) -> Option<i64> {
    if has_coordinates(a) && has_coordinates(b) && has_coordinates(c) {
        Some(orient(a, b, c))
    } else {
        None
    }
}

/// The ends of a walk, a point, and the turn.
static TURNS: [(Point, Point, Point, i64); 4] = [
    (
        Point { x: 0, z: 0 },
        Point { x: 4, z: 0 },
        Point { x: 1, z: 3 },
        12,
    ),
    (
        Point { x: 0, z: 0 },
        Point { x: 4, z: 0 },
        Point { x: 9, z: 0 },
        0,
    ),
    (
        Point { x: -2, z: -3 },
        Point { x: 5, z: 1 },
        Point { x: 4, z: -6 },
        -45,
    ),
    (
        Point {
            x: -65536,
            z: -65536,
        },
        Point {
            x: 65536,
            z: -65536,
        },
        Point { x: 65536, z: 65536 },
        17179869184,
    ),
];

fn check_turns(rt: &impl Abort, rows: &[(Point, Point, Point, i64)]) {
    for (a, b, c, want) in rows {
        same(rt, turned(*a, *b, *c), Some(*want));
        same(rt, turned(*a, *c, *b), want.checked_neg());
    }
}

#[test]
fn tells_turns(rt: HostRuntime) {
    check_turns(&rt, &TURNS);
}

fn deviation(a: Point, b: Point, p: Point) -> Option<Deviation> {
    if is_cell_corner(a) && is_cell_corner(b) && is_cell_corner(p) {
        Some(dev(a, b, p))
    } else {
        None
    }
}

/// The ends of a segment, a point, and the parts of its deviation.
static DEVIATIONS: [(Point, Point, Point, u64, u64); 6] = [
    (
        Point { x: 0, z: 0 },
        Point { x: 4, z: 0 },
        Point { x: 2, z: 3 },
        144,
        16,
    ),
    (
        Point { x: 0, z: 0 },
        Point { x: 4, z: 0 },
        Point { x: 0, z: 5 },
        25,
        1,
    ),
    (
        Point { x: 4, z: 0 },
        Point { x: 0, z: 0 },
        Point { x: 9, z: 0 },
        25,
        1,
    ),
    (
        Point { x: 1, z: 1 },
        Point { x: 4, z: 5 },
        Point { x: 9, z: 9 },
        41,
        1,
    ),
    (
        Point { x: 3, z: 3 },
        Point { x: 3, z: 3 },
        Point { x: 0, z: 7 },
        25,
        1,
    ),
    (
        Point { x: 0, z: 0 },
        Point { x: 1024, z: 1024 },
        Point { x: 1024, z: 0 },
        1099511627776,
        2097152,
    ),
];

fn check_deviations(rt: &impl Abort, rows: &[(Point, Point, Point, u64, u64)]) {
    for (a, b, p, num, den) in rows {
        let wanted = Deviation {
            num: *num,
            den: *den,
        };
        same(rt, deviation(*a, *b, *p), Some(wanted));
    }
}

#[test]
fn measures_deviations(rt: HostRuntime) {
    check_deviations(&rt, &DEVIATIONS);
}

const MOST: u64 = 18446744073709551615;

/// The parts of a deviation, an error, and whether the deviation exceeds it.
static ERRORS: [(u64, u64, u32, bool); 6] = [
    (144, 16, 899, true),
    (144, 16, 900, false),
    (0, MOST, 0, false),
    (MOST, MOST, 99, true),
    (MOST, MOST, 100, false),
    (MOST, 1, u32::MAX, true),
];

/// The parts of two deviations, and whether the first is less.
static PAIRS: [(u64, u64, u64, u64, bool); 5] = [
    (1, 2, 2, 3, true),
    (2, 3, 1, 2, false),
    (2, 4, 1, 2, false),
    (1, 2, 2, 4, false),
    (18446744073709551614, MOST, MOST, MOST, true),
];

fn check_errors(rt: &impl Abort, rows: &[(u64, u64, u32, bool)]) {
    for (num, den, error, want) in rows {
        let deviation = Deviation {
            num: *num,
            den: *den,
        };
        same(rt, exceeds(deviation, *error), *want);
    }
}

fn check_pairs(rt: &impl Abort, rows: &[(u64, u64, u64, u64, bool)]) {
    for (num, den, other_num, other_den, want) in rows {
        let one = Deviation {
            num: *num,
            den: *den,
        };
        let other = Deviation {
            num: *other_num,
            den: *other_den,
        };
        same(rt, less(one, other), *want);
    }
}

#[test]
fn compares_deviations(rt: HostRuntime) {
    check_errors(&rt, &ERRORS);
    check_pairs(&rt, &PAIRS);
}

fn root(n: u64) -> Option<u32> {
    if n <= 18446744065119617025 {
        Some(ceil_sqrt(n))
    } else {
        None
    }
}

/// A number, and its root rounded up.
static ROOTS: [(u64, u32); 17] = [
    (0, 0),
    (1, 1),
    (2, 2),
    (4, 2),
    (5, 3),
    (99, 10),
    (100, 10),
    (101, 11),
    (4294836225, 65535),
    (4294836226, 65536),
    (4294967297, 65537),
    (4611686018427387903, 2147483648),
    (4611686018427387904, 2147483648),
    (4611686018427387905, 2147483649),
    (18446744056529682436, 4294967294),
    (18446744056529682437, 4294967295),
    (18446744065119617025, 4294967295),
];

fn check_roots(rt: &impl Abort, rows: &[(u64, u32)]) {
    for (n, wanted) in rows {
        same(rt, (*n, root(*n)), (*n, Some(*wanted)));
    }
}

#[test]
fn rounds_roots_up(rt: HostRuntime) {
    check_roots(&rt, &ROOTS);
}

fn is_convex(points: &[Point]) -> Option<bool> {
    if have_coordinates(points) {
        Some(strictly_convex(points))
    } else {
        None
    }
}

const A: Point = Point { x: 0, z: 10 };

const B: Point = Point { x: -10, z: 3 };

const C: Point = Point { x: -6, z: -8 };

const D: Point = Point { x: 6, z: -8 };

const E: Point = Point { x: 10, z: 3 };

/// Between C and D.
const MIDDLE: Point = Point { x: 0, z: -8 };

const FAR: Point = Point {
    x: 65536,
    z: -65536,
};

const HIGH: Point = Point {
    x: -65536,
    z: 65536,
};

/// Corners, and whether they are a strictly convex polygon.
static POLYGONS: [(&[Point], bool); 9] = [
    (&[A, B, C, D, E], true),
    (&[B, C, D], true),
    (&[HIGH, B, FAR], true),
    (&[], false),
    (&[A, B], false),
    (&[D, C, B], false),
    (&[A, B, C, MIDDLE, D, E], false),
    (&[A, C, E, B, D], false),
    (&[A, B, B, C], false),
];

fn check_polygons(rt: &impl Abort, rows: &[(&[Point], bool)]) {
    for (corners, wanted) in rows {
        same(
            rt,
            (*corners, is_convex(corners)),
            (*corners, Some(*wanted)),
        );
    }
}

#[test]
fn tells_convex_polygons(rt: HostRuntime) {
    check_polygons(&rt, &POLYGONS);
}
