//! Distances kept all through a step. What is wanted was worked out by hand.

ghost use Rattle.std.specs.Prelude.{◌≡◌, ◌≤◌, ◌^◌, ◌↔◌, IsTrue};
ghost use Rattle.nav_base.specs.Point.{IsWithin};

use crate::rows::all_hold;
use crowd_moves::stays_beyond;
use nav_base::Point;

/// Where the one is, seen from the other, by how much that changes, the square of the distance, and whether it is kept.
type Row = (i32, i32, i32, i32, u32, bool);

static ROWS: [Row; 15] = [
    // Toward each other: from 300 to 200, and to 199.
    (300, 0, -100, 0, 40000, true),
    (300, 0, -101, 0, 40000, false),
    // Past each other, at a distance of 100 in the middle; both ends are 316 away.
    (300, 100, -600, 0, 10000, true),
    (300, 100, -600, 0, 10001, false),
    // Nearest at 9/25 of the way, at a distance of 240.
    (300, 0, -300, 400, 57600, true),
    (300, 0, -300, 400, 57601, false),
    // They overlap at a distance of 150, and come no nearer; by the last way the end is farther away than the begin.
    (150, 0, 0, 50, 22500, true),
    (150, 0, 1, 20, 22500, true),
    (150, 0, -1, 20, 22500, false),
    // At one point, where no distance is asked; and at rest.
    (0, 0, 0, 0, 0, true),
    (0, 0, 5, -5, 0, true),
    (10, 0, 0, 0, 100, true),
    (10, 0, 0, 0, 101, false),
    // The largest that may be asked.
    (32768, 32768, -32768, -32768, 0, true),
    (32768, 32768, -32768, -32768, 1, false),
];

/// Whether a vector may be asked.
fn is_small(v: Point) -> bool
    ensures { IsTrue result ↔ IsWithin (2 ^ 15) v }
{
    v.x.unsigned_abs() <= 32768 && v.z.unsigned_abs() <= 32768
}

fn wrong_row(rows: &[Row]) -> Option<usize> {
    for row in 0..rows.len() {
        let (x, z, way_x, way_z, gap, wanted) = rows[row];
        let place = Point { x, z };
        let way = Point { x: way_x, z: way_z };
        if !is_small(place) || !is_small(way) || gap > 1073741824 {
            return Some(row);
        }
        if stays_beyond(place, way, gap) != wanted {
            return Some(row);
        }
    }
    None
}

#[test]
fn keeps_distances(rt: HostRuntime) {
    all_hold(&rt, "distances", wrong_row(&ROWS));
}
