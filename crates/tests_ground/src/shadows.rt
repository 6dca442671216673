//! Rows of columns worked by hand.
ghost use Rattle.std.specs.Prelude.{◌<◌, IsTrue};
ghost use Rattle.tri_raster.specs.Triangles.{IsTriangle, IsCorner};
ghost use Rattle.tri_raster.specs.Rows.{MeetsRow};

use std::process::Abort;
use tri_raster::{Bound, Corner3, Tri, row_shadows, shadow_of};

/// A triangle's corners, a row that it meets, the first column that it hits there and the one behind the last, and the bottom and top of its
/// shadow in each of three columns, or twice 0 where there is none.
type Row = ([u32; 9], u32, [u32; 2], [u32; 6]);

static ROWS: [Row; 12] = [
    // a slope over two columns
    ([0, 0, 0, 32, 5, 0, 0, 0, 16], 0, [0, 2], [0, 3, 2, 5, 0, 0]),
    // its rows, of fewer columns each
    (
        [0, 0, 0, 48, 48, 0, 0, 0, 48],
        0,
        [0, 3],
        [0, 16, 16, 32, 32, 48],
    ),
    (
        [0, 0, 0, 48, 48, 0, 0, 0, 48],
        1,
        [0, 2],
        [0, 16, 16, 32, 0, 0],
    ),
    (
        [0, 0, 0, 48, 48, 0, 0, 0, 48],
        2,
        [0, 1],
        [0, 16, 0, 0, 0, 0],
    ),
    // walls within a column, and on the line between two
    (
        [24, 3, 0, 24, 7, 0, 24, 3, 48],
        1,
        [1, 2],
        [0, 0, 3, 6, 0, 0],
    ),
    (
        [24, 3, 0, 24, 7, 0, 24, 3, 48],
        2,
        [1, 2],
        [0, 0, 3, 5, 0, 0],
    ),
    (
        [16, 3, 0, 16, 7, 0, 16, 3, 48],
        1,
        [1, 1],
        [0, 0, 0, 0, 0, 0],
    ),
    // a needle, and a floor
    (
        [24, 3, 24, 24, 7, 24, 24, 5, 24],
        1,
        [1, 2],
        [0, 0, 3, 7, 0, 0],
    ),
    (
        [0, 10, 0, 48, 10, 0, 0, 10, 48],
        0,
        [0, 3],
        [10, 11, 10, 11, 10, 11],
    ),
    // beyond the last column
    (
        [0, 0, 0, 160, 100, 0, 0, 0, 160],
        0,
        [0, 3],
        [0, 10, 10, 20, 20, 30],
    ),
    (
        [80, 5, 0, 160, 100, 0, 80, 0, 160],
        3,
        [5, 3],
        [0, 0, 0, 0, 0, 0],
    ),
    // each of its edges crosses lines within the row
    (
        [0, 0, 0, 40, 60, 24, 8, 30, 40],
        1,
        [0, 3],
        [12, 36, 27, 53, 48, 60],
    ),
];

fn tri_of(corners: [u32; 9]) -> Tri {
    let [ax, ay, az, bx, by, bz, cx, cy, cz] = corners;
    Tri {
        a: Corner3 {
            x: ax,
            y: ay,
            z: az,
        },
        b: Corner3 {
            x: bx,
            y: by,
            z: bz,
        },
        c: Corner3 {
            x: cx,
            y: cy,
            z: cz,
        },
        area: 7,
    }
}

fn is_corner(corner: Corner3) -> bool
    ensures { IsTrue result → IsCorner corner }
{
    corner.x <= 16384 && corner.y <= 8190 && corner.z <= 16384
}

fn is_triangle(tri: Tri) -> bool
    ensures { IsTrue result → IsTriangle tri }
{
    tri.area <= 63 && is_corner(tri.a) && is_corner(tri.b) && is_corner(tri.c)
}

fn is_met(tri: Tri, z: u32) -> bool
    requires { z < 1024 }
    ensures { IsTrue result → MeetsRow tri z }
{
    let behind = 16 * z < tri.a.z || 16 * z < tri.b.z || 16 * z < tri.c.z;
    let end = 16 * z + 16;
    behind && (tri.a.z < end || tri.b.z < end || tri.c.z < end)
}

/// Whether a row is as its table has it, whatever the columns held before.
fn is_right(row: &Row) -> bool {
    let (corners, z, [first, end], heights) = *row;
    let tri = tri_of(corners);
    if z >= 1024 || !is_triangle(tri) || !is_met(tri, z) {
        return false;
    }
    let mut bounds = [Bound { low: 1, high: 99 }; 3];
    let hits = row_shadows(&tri, z, &mut bounds);
    let mut found = [0; 6];
    for x in hits.first..hits.end {
        let shadow = shadow_of(bounds[x as usize], tri.area);
        found[2 * x as usize] = shadow.bottom;
        found[2 * x as usize + 1] = shadow.top;
    }
    hits.first == first && hits.end == end && found == heights
}

#[test]
fn rows_by_hand(rt: HostRuntime) {
    for row in &ROWS {
        assert!(rt; is_right(row));
    }
}
