//! Vectors of the steering, in fine units. Nothing is promised of them: sums and products wrap, and a division by 0 gives 0.

use nav_base::{Point, ceil_sqrt};

/// A vector of the plane.
#[derive(Clone, Copy, PartialEq, Eq)]
pub(crate) struct Vector {
    pub(crate) x: i64,
    pub(crate) z: i64,
}

/// How the cosine and the sine of a turn are written: in 4096 parts.
pub(crate) const WHOLE: i64 = 4096;

/// A turn to the left, by its cosine and its sine.
#[derive(Clone, Copy)]
pub(crate) struct Turn {
    pub(crate) cosine: i64,
    pub(crate) sine: i64,
}

pub(crate) const NOWHERE: Vector = Vector { x: 0, z: 0 };

pub(crate) fn vector_of(p: Point) -> Vector {
    Vector {
        x: i64::from(p.x),
        z: i64::from(p.z),
    }
}

/// The vector as a point; a part that is too large is 0.
pub(crate) fn point_of(v: Vector) -> Point {
    Point {
        x: i32::try_from(v.x).unwrap_or(0),
        z: i32::try_from(v.z).unwrap_or(0),
    }
}

pub(crate) fn plus(u: Vector, v: Vector) -> Vector {
    Vector {
        x: u.x.wrapping_add(v.x),
        z: u.z.wrapping_add(v.z),
    }
}

pub(crate) fn minus(u: Vector, v: Vector) -> Vector {
    Vector {
        x: u.x.wrapping_sub(v.x),
        z: u.z.wrapping_sub(v.z),
    }
}

/// So many parts of a vector out of so many.
#[inline(never)]
pub(crate) fn part(v: Vector, parts: i64, of: i64) -> Vector {
    Vector {
        x: ratio(v.x.wrapping_mul(parts), of),
        z: ratio(v.z.wrapping_mul(parts), of),
    }
}

pub(crate) fn ratio(n: i64, d: i64) -> i64 {
    n.checked_div(d).unwrap_or(0)
}

pub(crate) fn dot(u: Vector, v: Vector) -> i64 {
    u.x.wrapping_mul(v.x).wrapping_add(u.z.wrapping_mul(v.z))
}

/// Above 0 where the second vector points to the left of the first.
pub(crate) fn cross(u: Vector, v: Vector) -> i64 {
    u.x.wrapping_mul(v.z).wrapping_sub(u.z.wrapping_mul(v.x))
}

pub(crate) fn square(n: i64) -> i64 {
    n.wrapping_mul(n)
}

/// The root of a number, rounded up.
#[inline(never)]
pub(crate) fn root(n: i64) -> i64 {
    let root = ceil_sqrt(n.unsigned_abs().min(1099511627776));
    i64::from(root)
}

pub(crate) fn length(v: Vector) -> i64 {
    root(dot(v, v))
}

/// About the length of a vector: a fifteenth too long at most, a thirtieth too short.
pub(crate) fn rough_length(v: Vector) -> i64 {
    let across = v.x.wrapping_abs();
    let along = v.z.wrapping_abs();
    let less = across.min(along).wrapping_mul(3) >> 3;
    across.max(along).wrapping_add(less)
}

#[inline(never)]
pub(crate) fn turned(v: Vector, turn: Turn) -> Vector {
    let across = v.x.wrapping_mul(turn.cosine);
    let along = v.z.wrapping_mul(turn.cosine);
    Vector {
        x: ratio(across.wrapping_sub(v.z.wrapping_mul(turn.sine)), WHOLE),
        z: ratio(along.wrapping_add(v.x.wrapping_mul(turn.sine)), WHOLE),
    }
}

/// A vector, no longer than so much.
pub(crate) fn cut(v: Vector, most: i64) -> Vector {
    let square = dot(v, v);
    if square <= most.wrapping_mul(most) {
        return v;
    }
    part(v, most, root(square))
}

/// A vector in the direction of another, or that of no length, and so long.
pub(crate) fn stretched(v: Vector, long: i64) -> Vector {
    part(v, long, length(v))
}
