//! Tiles by the outlines of their regions, by hand.

ghost use Rattle.std.specs.Prelude.{◌≤◌, length};

use crate::cell_rows::{RING, STEP, free_of};
use crate::checks::same;
use contour_mesh::{ContourMesh, contour_mesh_over};
use mesh_types::{Corners, LevelPair, Link, Polygon, Polygons, Portal, RimEdge, TileMesh};
use nav_base::Point;
use nav_ground::{AREAS, Agent, MeshKind, Setting};
use std::alloc::{AllocError, Global};
use std::process::Abort;

/// One tile, with an error of half a cell.
const HALF: Setting = Setting {
    width: 6,
    depth: 6,
    tile: 6,
    agent: Agent {
        height: 10,
        climb: 4,
        radius: 0,
    },
    error: 50,
    mesh: MeshKind::Contours,
    limit: 4,
    costs: [1; AREAS],
    clear: false,
};

/// The same with a greater error.
const WIDE: Setting = Setting {
    width: 6,
    depth: 6,
    tile: 6,
    agent: Agent {
        height: 10,
        climb: 4,
        radius: 0,
    },
    error: 169,
    mesh: MeshKind::Contours,
    limit: 4,
    costs: [1; AREAS],
    clear: false,
};

/// Two tiles side by side.
const PAIR: Setting = Setting {
    width: 10,
    depth: 5,
    tile: 5,
    agent: Agent {
        height: 10,
        climb: 4,
        radius: 0,
    },
    error: 50,
    mesh: MeshKind::Contours,
    limit: 4,
    costs: [1; AREAS],
    clear: false,
};

fn half(alloc: Global) -> Result<ContourMesh, AllocError> {
    let free = free_of(alloc, &RING)?;
    contour_mesh_over(alloc, free, &HALF)
}

fn wide(alloc: Global) -> Result<ContourMesh, AllocError> {
    let free = free_of(alloc, &RING)?;
    contour_mesh_over(alloc, free, &WIDE)
}

fn pair(alloc: Global) -> Result<ContourMesh, AllocError> {
    let free = free_of(alloc, &STEP)?;
    contour_mesh_over(alloc, free, &PAIR)
}

/// The polygon with these corners and an area, on the floor of the rows.
fn polygon(corners: &[Point], area: u32) -> Polygon
    requires { length corners.now ≤ 6 }
{
    Polygon {
        corners: Corners::from_slice(corners),
        area,
        low: 10,
        high: 10,
    }
}

/// The first row of the ring is thin: its outline is cut into three pieces.
fn thin_row() -> [Polygon; 3] {
    let right = [
        Point { x: 5, z: 1 },
        Point { x: 5, z: 2 },
        Point { x: 4, z: 2 },
    ];
    let left = [
        Point { x: 2, z: 2 },
        Point { x: 1, z: 2 },
        Point { x: 1, z: 1 },
    ];
    let middle = [
        Point { x: 2, z: 2 },
        Point { x: 1, z: 1 },
        Point { x: 5, z: 1 },
        Point { x: 4, z: 2 },
    ];
    [
        polygon(&right, 63),
        polygon(&left, 63),
        polygon(&middle, 63),
    ]
}

/// Two regions, of which the upper has another area.
fn two_regions() -> [Polygon; 2] {
    let lower = [
        Point { x: 2, z: 1 },
        Point { x: 5, z: 0 },
        Point { x: 5, z: 1 },
        Point { x: 4, z: 2 },
        Point { x: 3, z: 2 },
    ];
    let upper = [
        Point { x: 3, z: 2 },
        Point { x: 4, z: 2 },
        Point { x: 3, z: 3 },
    ];
    [polygon(&lower, 63), polygon(&upper, 7)]
}

/// So many polygons begin with the wanted.
fn check_polygons(rt: &impl Abort, polygons: &Polygons, count: usize, wanted: &[Polygon]) {
    same(rt, polygons.len(), count);
    assert!(rt; wanted.len() <= polygons.len());
    for place in 0..wanted.len() {
        same(rt, polygons.at(place), wanted[place]);
    }
}

/// The polygon that a link leaves, the edge, the polygon entered, and the right and the left end of the portal.
type LinkRow = (u32, u32, u32, (i32, i32), (i32, i32));

/// Two links join the regions, there and back.
fn check_links(rt: &impl Abort, links: &[Link]) {
    let [out, back] = links else {
        panic!(rt; "two links join the regions");
    };
    same(rt, row_of(out), (0, 3, 1, (64, 32), (48, 32)));
    same(rt, row_of(back), (1, 0, 0, (48, 32), (64, 32)));
}

fn row_of(link: &Link) -> LinkRow {
    let Portal { left, right } = link.portal;
    (
        link.from.index,
        link.edge,
        link.to.index,
        (right.x, right.z),
        (left.x, left.z),
    )
}

/// The edge of the lower region that lies on the border to the right is the only one there.
fn check_rim(rt: &impl Abort, rim: &[RimEdge]) {
    let [entry] = rim else {
        panic!(rt; "one edge lies on a border");
    };
    same(
        rt,
        (entry.poly, entry.edge, entry.side, entry.first),
        (0, 1, 2, 0),
    );
    same(
        rt,
        entry.pairs.as_slice(),
        [LevelPair { own: 0, other: 2 }].as_slice(),
    );
}

/// The mesh, which is made.
fn made(rt: &impl Abort, mesh: ContourMesh) -> TileMesh {
    match mesh {
        ContourMesh::Made(mesh) => mesh,
        ContourMesh::NotCut { .. } => panic!(rt; "some region has no outline that can be cut"),
    }
}

fn check_ring(rt: &impl Abort, mesh: &TileMesh) {
    check_polygons(rt, &mesh.polys, 8, &thin_row());
    same(rt, (mesh.links.len(), mesh.rim.len()), (16, 0));
}

#[test]
fn thin_rows(rt: HostRuntime) -> Result<(), AllocError> {
    let mesh = made(&rt, half(rt.alloc())?);
    check_ring(&rt, &mesh);
    Ok(())
}

#[test]
fn outlines_that_cannot_be_cut(rt: HostRuntime) -> Result<(), AllocError> {
    let mesh = wide(rt.alloc())?;
    match mesh {
        ContourMesh::NotCut { free, .. } => same(&rt, free.cells.len(), RING.len()),
        ContourMesh::Made(_) => panic!(rt; "an outline crosses itself"),
    }
    Ok(())
}

fn check_pair(rt: &impl Abort, mesh: &TileMesh) {
    check_polygons(rt, &mesh.polys, 2, &two_regions());
    check_links(rt, mesh.links.as_slice());
    check_rim(rt, mesh.rim.as_slice());
}

#[test]
fn regions_side_by_side(rt: HostRuntime) -> Result<(), AllocError> {
    let mesh = made(&rt, pair(rt.alloc())?);
    check_pair(&rt, &mesh);
    Ok(())
}
