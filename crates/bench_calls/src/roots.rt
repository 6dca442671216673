//! Roots and turns: `large_roots ROUNDS`, `small_roots ROUNDS` and `turns ROUNDS` give the sum of so many.

ghost use Rattle.nav_base.specs.Point.{HasCoordinates};

use nav_base::{Point, ceil_sqrt, orient};
use nav_text::numbers_of;

// The next number of a sequence that looks random.
fn scattered(state: u64) -> u64 {
    state
        .wrapping_mul(6364136223846793005)
        .wrapping_add(1442695040888963407)
}

// The sum of the roots of numbers of up to 63 bits.
fn large_roots(rounds: u32) -> u64 {
    let mut state = 1;
    let mut sum: u64 = 0;
    for _ in 0..rounds {
        state = scattered(state);
        sum = sum.wrapping_add(ceil_sqrt(state >> 1) as u64);
    }
    sum
}

// The sum of the roots of numbers of up to 30 bits, as the squares of lengths in a mesh.
fn small_roots(rounds: u32) -> u64 {
    let mut state = 1;
    let mut sum: u64 = 0;
    for _ in 0..rounds {
        state = scattered(state);
        sum = sum.wrapping_add(ceil_sqrt(state >> 34) as u64);
    }
    sum
}

// A point with coordinates between -65536 and 65535.
fn point(state: u64) -> Point
    ensures { HasCoordinates result }
{
    Point {
        x: ((state >> 47 & 0x1ffff) as i32) - 65536,
        z: ((state >> 30 & 0x1ffff) as i32) - 65536,
    }
}

// The sum of the turns of triangles.
fn turns(rounds: u32) -> i64 {
    let mut a = 1;
    let mut b = 2;
    let mut sum: i64 = 0;
    for _ in 0..rounds {
        let c = scattered(b);
        sum = sum.wrapping_add(orient(point(a), point(b), point(c)));
        a = b;
        b = c;
    }
    sum
}

/// The sum of what a line names here, if it does.
pub fn take(line: &[u8]) -> Option<u64> {
    if let Some(n) = numbers_of::<1>(b"large_roots", line) {
        Some(large_roots(n[0]))
    } else if let Some(n) = numbers_of::<1>(b"small_roots", line) {
        Some(small_roots(n[0]))
    } else {
        let n = numbers_of::<1>(b"turns", line)?;
        Some(turns(n[0]).unsigned_abs())
    }
}
