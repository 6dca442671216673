//! Pairs of agents and their moves. What is wanted was worked out by hand. All radii are 100.

ghost use Rattle.std.specs.Prelude.{◌≡◌};

use crate::rows::{all_hold, hold};
use crowd_moves::{CrowdAgent, CrowdMove, has_room, has_sizes, is_apart, is_clear, is_mover};
use mesh_types::PolyRef;
use nav_base::Point;

/// An agent: its place, the floor of its polygon, its speed, and the vector by which it moves.
type Mover = (i32, i32, u32, u32, i32, i32);

/// Two of them, whether they are apart, and whether their moves are clear of each other. The height of agents is 10.
type Row = (Mover, Mover, bool, bool);

static ROWS: [Row; 14] = [
    // Up to touching, and one unit farther.
    (
        (400, 640, 10, 64, 40, 0),
        (640, 640, 10, 64, 0, 0),
        true,
        true,
    ),
    (
        (400, 640, 10, 64, 41, 0),
        (640, 640, 10, 64, 0, 0),
        true,
        false,
    ),
    // Where the other goes on as far, it is free.
    (
        (400, 640, 10, 64, 64, 0),
        (640, 640, 10, 64, 64, 0),
        true,
        true,
    ),
    (
        (400, 640, 10, 64, 64, 0),
        (640, 640, 10, 64, 0, 0),
        true,
        false,
    ),
    // Through each other, and apart at both ends.
    (
        (400, 640, 10, 400, 400, 0),
        (640, 640, 10, 400, -144, 0),
        true,
        false,
    ),
    // They overlap at a distance of 150: outward and aside is free, inward is not, wherever it ends.
    (
        (400, 640, 10, 64, 0, 10),
        (550, 640, 10, 64, 0, 10),
        false,
        true,
    ),
    (
        (400, 640, 10, 64, 0, 0),
        (550, 640, 10, 64, 1, 20),
        false,
        true,
    ),
    (
        (400, 640, 10, 64, 1, 20),
        (550, 640, 10, 64, 0, 0),
        false,
        false,
    ),
    // Below each other.
    (
        (400, 640, 10, 64, 10, 0),
        (400, 640, 32, 64, 0, 10),
        true,
        true,
    ),
    (
        (400, 640, 10, 64, 10, 0),
        (400, 640, 20, 64, 0, 10),
        true,
        true,
    ),
    (
        (400, 640, 10, 64, 0, 0),
        (400, 640, 19, 64, 0, 0),
        false,
        true,
    ),
    // Far from each other, at the ends of a field.
    (
        (0, 0, 10, 8191, 5000, 5000),
        (262144, 262144, 10, 8191, -5000, -5000),
        true,
        true,
    ),
    // Near by speed, and missing each other.
    (
        (0, 0, 10, 300, 300, 0),
        (400, 300, 10, 300, -300, 0),
        true,
        true,
    ),
    (
        (0, 0, 10, 300, 300, 0),
        (400, 199, 10, 300, -300, 0),
        true,
        false,
    ),
];

fn agent(mover: Mover) -> CrowdAgent {
    let (x, z, floor, speed, _x, _z) = mover;
    CrowdAgent {
        polygon: PolyRef { tile: 0, index: 0 },
        at: Point { x, z },
        low: floor,
        high: floor,
        stranded: false,
        areas: u64::MAX,
        radius: 100,
        speed,
    }
}

fn made(mover: Mover) -> CrowdMove {
    let (_x, _z, floor, _speed, x, z) = mover;
    CrowdMove {
        by: Point { x, z },
        to: PolyRef { tile: 0, index: 0 },
        low: floor,
        high: floor,
    }
}

/// Whether two are apart and clear as is wanted, seen from either.
fn is_right(row: Row) -> bool {
    let (first, second, apart, clear) = row;
    let (a, b) = (agent(first), agent(second));
    let (m, n) = (made(first), made(second));
    if !is_mover(&a, &m) || !is_mover(&b, &n) {
        return false;
    }
    is_apart(10, &a, &b) == apart
        && is_apart(10, &b, &a) == apart
        && is_clear(10, &a, &b, &m, &n) == clear
        && is_clear(10, &b, &a, &n, &m) == clear
}

fn wrong_row(rows: &[Row]) -> Option<usize> {
    for row in 0..rows.len() {
        if !is_right(rows[row]) {
            return Some(row);
        }
    }
    None
}

#[test]
fn tells_clear_moves(rt: HostRuntime) {
    all_hold(&rt, "pairs", wrong_row(&ROWS));
}

/// Whether a third agent has room beside two.
fn is_free(x: i32, floor: u32) -> bool {
    let first = agent((400, 640, 10, 64, 0, 0));
    let second = agent((640, 640, 10, 64, 0, 0));
    let third = agent((x, 640, floor, 64, 0, 0));
    if !has_sizes(&first) || !has_sizes(&second) || !has_sizes(&third) {
        return false;
    }
    has_room(&[first, second], 10, &third)
}

#[test]
fn finds_room(rt: HostRuntime) {
    hold(&rt, "touching", is_free(840, 10));
    hold(&rt, "too near", !is_free(839, 10));
    hold(&rt, "another storey", is_free(520, 20));
}
