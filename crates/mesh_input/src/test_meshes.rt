//! A mesh on cells and height units of 1, which vertices share, worked by hand. Sixteenths along x and z, units along y.

use crate::add::add_triangles;
use crate::axis::mesh_grid;
use crate::fault::{MeshFault, MeshRefusal};
use crate::slope::Slope;
use std::alloc::Global;
use std::process::Abort;
use tri_raster::{Corner3, Tri};
use world_grid::Frame;

const FRAME: Frame = Frame {
    cell_size: 1.0,
    cell_height: 1.0,
    x: 0,
    y: 0,
    z: 0,
};

/// 45 degrees.
const SLOPE: Slope = Slope {
    rise: 8192,
    run: 131072,
    both_sides: false,
};

/// Eight vertices. The fifth is infinite; the sixth lies half way between two numbers of x and two of y; the seventh stands over the second; the
/// last lies before the field.
static VERTICES: [f32; 24] = [
    0.0,
    0.0,
    0.0, //
    2.0,
    0.0,
    0.0, //
    0.0,
    0.0,
    2.0, //
    2.0,
    1.0,
    2.0, //
    f32::INFINITY,
    0.0,
    0.0, //
    0.09375,
    0.5,
    0.0, //
    2.0,
    3.0,
    0.0, //
    -1.0,
    0.0,
    0.0,
];

/// The mesh, of six triangles. The third lies with its lower side up, the fifth stands on a line between columns.
static CORNERS: [u32; 18] = [0, 2, 1, 1, 2, 3, 0, 1, 3, 5, 2, 1, 1, 3, 6, 2, 3, 1];

static AREAS: [u8; 6] = [5, 7, 9, 11, 13, 15];

/// What they become: three corners and an area each.
static MADE: [[u32; 10]; 6] = [
    [0, 0, 0, 0, 0, 32, 32, 0, 0, 5],
    [32, 0, 0, 0, 0, 32, 32, 1, 32, 7],
    [0, 0, 0, 32, 0, 0, 32, 1, 32, 0],
    [2, 0, 0, 0, 0, 32, 32, 0, 0, 11],
    [33, 0, 0, 33, 1, 32, 33, 3, 0, 0],
    [0, 0, 32, 32, 1, 32, 32, 0, 0, 15],
];

/// The second vertex of the third triangle, its area, and what is told: 0 where all is well, else the fault and how many triangles stand before.
static FAULTS: [(u32, u8, u8, usize); 5] = [
    (1, 9, 0, 0),
    (99, 64, 1, 2),
    (4, 64, 2, 2),
    (7, 64, 3, 2),
    (1, 64, 4, 2),
];

fn told(added: Result<(), MeshRefusal>) -> (u8, usize) {
    match added {
        Ok(()) => (0, 0),
        Err(MeshRefusal::OutOfMemory) => (9, 0),
        Err(MeshRefusal::Faulty(faulty)) => {
            let number = match faulty.fault {
                MeshFault::NoVertex => 1,
                MeshFault::NoNumber => 2,
                MeshFault::Outside => 3,
                MeshFault::BadArea => 4,
            };
            (number, faulty.place)
        }
    }
}

fn made(of: [u32; 10]) -> Tri {
    let [ax, ay, az, bx, by, bz, cx, cy, cz, area] = of;
    Tri {
        a: Corner3 {
            x: ax,
            y: ay,
            z: az,
        },
        b: Corner3 {
            x: bx,
            y: by,
            z: bz,
        },
        c: Corner3 {
            x: cx,
            y: cy,
            z: cz,
        },
        area,
    }
}

/// The mesh with another vertex and area of its third triangle.
fn check(rt: &impl Abort, alloc: Global, vertices: &[f32], row: (u32, u8, u8, usize)) {
    let (vertex, area, fault, place) = row;
    let grid = mesh_grid(FRAME).expect(rt, "a grid");
    let mut corners = CORNERS;
    corners[7] = vertex;
    let mut areas = AREAS;
    areas[2] = area;
    let mut tris = Vec::new(alloc);
    let added = add_triangles(&mut tris, &grid, SLOPE, vertices, &corners, &areas);
    assert_eq!(rt; told(added), (fault, place));
    assert_eq!(rt; tris.len(), if fault == 0 { 6 } else { 0 });
    for (tri, wanted) in tris.iter().zip(MADE.iter()) {
        assert_eq!(rt; *tri, made(*wanted));
    }
}

fn check_all(rt: &impl Abort, alloc: Global, vertices: &[f32]) {
    for row in &FAULTS {
        check(rt, alloc, vertices, *row);
    }
}

/// Eight vertices for eighteen corners are put on the grid once; of ten those of each triangle are.
#[test]
fn meshes(rt: HostRuntime) {
    check_all(&rt, rt.alloc(), &VERTICES);
    let mut more = Vec::from_slice(rt.alloc(), &VERTICES).expect(&rt, "memory");
    for _i in 0..6 {
        more.push(0.0).expect(&rt, "memory");
    }
    check_all(&rt, rt.alloc(), more.as_slice());
}
