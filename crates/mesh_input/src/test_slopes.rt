//! Triangles on cells of 0.3 and height units of 0.2: 3 along x or z are 40960 of an edge's units, 3 up 3840.

use crate::gentle::is_gentle;
use crate::slope::{Edge, Slope};
use std::process::Abort;

/// 45 degrees: 12288 units over 131072 sixteenths.
const STEEPEST: Slope = Slope {
    rise: 12288,
    run: 131072,
    both_sides: false,
};

const EITHER_SIDE: Slope = Slope {
    rise: 12288,
    run: 131072,
    both_sides: true,
};

/// Nothing is too steep.
const ANY: Slope = Slope {
    rise: 12288,
    run: 0,
    both_sides: false,
};

/// Both edges as x, y and z, and whether somebody can walk on the triangle.
static TRIANGLES: [([i64; 3], [i64; 3], bool); 5] = [
    // A ramp as long as it is high, one that is a little higher, and its lower side.
    ([0, 0, 40960], [40960, 3840, 0], true),
    ([0, 0, 40960], [40960, 3853, 0], false),
    ([40960, 3840, 0], [0, 0, 40960], false),
    // Upright, and a line.
    ([0, 0, 40960], [0, 3840, 0], false),
    ([0, 0, 40960], [0, 0, 81920], false),
];

/// With both sides: the lower side is as good as the upper one.
static TURNED: [([i64; 3], [i64; 3], bool); 2] = [
    ([40960, 3840, 0], [0, 0, 40960], true),
    ([0, 0, 40960], [0, 3840, 0], false),
];

/// With nothing too steep: 89 degrees.
static STEEP: [([i64; 3], [i64; 3], bool); 1] = [([0, 0, 40960], [40960, 219994, 0], true)];

fn edge(of: [i64; 3]) -> Option<Edge> {
    let [x, y, z] = of;
    if x.unsigned_abs() > 5000000 || y.unsigned_abs() > 5000000 || z.unsigned_abs() > 5000000 {
        return None;
    }
    Some(Edge { x, y, z })
}

fn check(rt: &impl Abort, slope: Slope, rows: &[([i64; 3], [i64; 3], bool)]) {
    for (p, q, wanted) in rows {
        let p = edge(*p).expect(rt, "an edge");
        let q = edge(*q).expect(rt, "an edge");
        assert_eq!(rt; is_gentle(slope, p, q), *wanted);
    }
}

#[test]
fn walkable_triangles(rt: HostRuntime) {
    check(&rt, STEEPEST, &TRIANGLES);
    check(&rt, EITHER_SIDE, &TURNED);
    check(&rt, ANY, &STEEP);
}
