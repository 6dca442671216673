//! Lists of polygons, in small numbers and where some number is too great for them.

use crate::rows::all_hold;
use mesh_types::{Corners, Extent, Polygon, Polygons};
use nav_base::Point;
use std::alloc::Global;

/// Whether a list has these polygons, and no other.
pub(crate) fn are_polygons(polygons: &Polygons, wanted: &[Polygon]) -> bool {
    if polygons.len() != wanted.len() {
        return false;
    }
    for place in 0..wanted.len() {
        if polygons.at(place) != wanted[place] {
            return false;
        }
    }
    true
}

/// The least and the greatest x, the least and the greatest z, the area, and the least and the greatest floor.
type Row = (i32, i32, i32, i32, u32, u32, u32);

/// In each but the first three, one number or two are too great for small numbers or less than 0.
static ROWS: [Row; 10] = [
    (0, 1, 2, 3, 4, 5, 6),
    (1000, 1024, 7, 1023, 63, 0, 8191),
    (65534, 65535, 255, 256, 255, 65534, 65535),
    (-1, 1, 0, 9, 1, 0, 0),
    (0, 1, -9, 9, 1, 0, 0),
    (0, 65536, 0, 9, 1, 0, 0),
    (0, 1, 0, 65536, 1, 0, 0),
    (0, 1, 2, 3, 256, 0, 0),
    (0, 1, 2, 3, 1, 65536, 65537),
    (0, 1, 2, 3, 1, 0, 65536),
];

/// The triangle of three corners, or the rectangle of four, over a box.
fn over(row: Row, corners: usize) -> Polygon {
    let (left, right, bottom, top, area, low, high) = row;
    let points = [
        Point { x: left, z: bottom },
        Point {
            x: right,
            z: bottom,
        },
        Point { x: right, z: top },
        Point { x: left, z: top },
    ];
    Polygon {
        corners: Corners::from_slice(&points[..corners.min(4)]),
        area,
        low,
        high,
    }
}

/// Whether it is the box and the area of a row.
fn is_box(extent: Extent, row: Row) -> bool {
    let (left, right, bottom, top, area, _, _) = row;
    let Extent {
        low,
        high,
        area: own,
    } = extent;
    (low.x, high.x, low.z, high.z, own) == (left, right, bottom, top, area)
}

/// Whether the list of a triangle, a rectangle and the first row gives them back, with their boxes, and no fourth.
fn gives_back(alloc: Global, row: Row) -> bool {
    let Ok(list) = Vec::from_array(alloc, three(row)) else {
        return false;
    };
    match Polygons::from_vec(alloc, list) {
        Ok(polygons) => has_boxes(&polygons, row) && are_three(&polygons, row),
        Err(_) => false,
    }
}

/// The triangle and the rectangle of a row, and the rectangle of the first row.
fn three(row: Row) -> [Polygon; 3] {
    [over(row, 3), over(row, 4), over(ROWS[0], 4)]
}

fn are_three(polygons: &Polygons, row: Row) -> bool {
    let wanted = three(row);
    are_polygons(polygons, wanted.as_slice())
}

/// Whether the first two of three polygons have the box of a row, and the third has that of the first row.
fn has_boxes(polygons: &Polygons, row: Row) -> bool {
    polygons.len() == 3
        && is_box(polygons.extent(0), row)
        && is_box(polygons.extent(1), row)
        && is_box(polygons.extent(2), ROWS[0])
        && polygons.get(3).is_none()
}

fn wrong_row(alloc: Global, rows: &[Row]) -> Option<usize> {
    for row in 0..rows.len() {
        if !gives_back(alloc, rows[row]) {
            return Some(row);
        }
    }
    None
}

#[test]
fn polygons_of_rows(rt: HostRuntime) {
    all_hold(&rt, "polygons", wrong_row(rt.alloc(), &ROWS));
}
