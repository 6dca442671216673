//! Parts of ways in a small mesh by hand.

ghost use Rattle.std.specs.Prelude.{◌≡◌, ◌↔◌, ◌≤◌, [], ◌∷◌, length, IfOk, IsTrue};
ghost use Rattle.nav_base.specs.Point.{HasCoordinates};
ghost use Rattle.surface_move.specs.Moves.{AreThere};
ghost use Rattle.tests_paths.specs.PartMesh.{flat, hand_mesh, hand_tile, left_cell, right_cell, sliver, wedge};

use crate::rows::all_hold;
use mesh_types::{Corners, Links, Mesh, PolyRef, Polygon, Polygons, Storeys, TileMesh, poly};
use nav_base::Point;
use nav_ground::{AREAS, Agent, FreeLayer, MeshKind, PackedFreeLayer, Setting};
use nav_lists::{Chunks, Items, Shared};
use std::alloc::{AllocError, Global};
use surface_move::{leg, part};

/// 8 by 4 columns in one tile.
const ONE_TILE: Setting = Setting {
    width: 8,
    depth: 4,
    tile: 8,
    agent: Agent {
        height: 8,
        climb: 3,
        radius: 0,
    },
    error: 100,
    mesh: MeshKind::Strips,
    limit: 9,
    costs: [1; AREAS],
    clear: false,
};

/// A polygon at height 0.
fn flat(corners: &[Point]) -> Polygon
    requires { length corners.now ≤ 6 }
    ensures { result ≡ flat corners.now }
{
    Polygon {
        corners: Corners::from_slice(corners),
        area: 1,
        low: 0,
        high: 0,
    }
}

fn left_cell() -> Polygon
    ensures { result ≡ flat left_cell }
{
    flat(&[
        Point { x: 0, z: 0 },
        Point { x: 1, z: 0 },
        Point { x: 1, z: 1 },
        Point { x: 0, z: 1 },
    ])
}

fn right_cell() -> Polygon
    ensures { result ≡ flat right_cell }
{
    flat(&[
        Point { x: 1, z: 0 },
        Point { x: 2, z: 0 },
        Point { x: 2, z: 1 },
        Point { x: 1, z: 1 },
    ])
}

fn wedge() -> Polygon
    ensures { result ≡ flat wedge }
{
    flat(&[
        Point { x: 0, z: 0 },
        Point { x: 5, z: 2 },
        Point { x: 2, z: 1 },
    ])
}

fn sliver() -> Polygon
    ensures { result ≡ flat sliver }
{
    flat(&[
        Point { x: 0, z: 0 },
        Point { x: 5, z: 2 },
        Point { x: 7, z: 3 },
    ])
}

/// No links.
fn no_links(alloc: Global) -> Result<Links, AllocError>
    ensures { IfOk result (λ made. made ≡ []) }
{
    Links::new(alloc, Vec::new(alloc), 0)
}

fn tile(alloc: Global) -> Result<TileMesh, AllocError>
    ensures { IfOk result (λ tile. tile ≡ hand_tile) }
{
    let polys = Vec::from_array(alloc, [left_cell(), right_cell(), wedge(), sliver()])?;
    let links = no_links(alloc)?;
    Ok(TileMesh {
        tile: 0,
        free: PackedFreeLayer::own(FreeLayer {
            tile: 0,
            cells: Items::new(alloc),
        }),
        polys: Polygons::from_vec(alloc, polys)?,
        links,
        rim: Items::new(alloc),
        storeys: Storeys::none(alloc),
    })
}

fn mesh(alloc: Global) -> Result<Mesh, AllocError>
    ensures { IfOk result (λ mesh. mesh ≡ hand_mesh) }
{
    let tile = Shared::new(alloc, tile(alloc)?)?;
    let links = Shared::new(alloc, no_links(alloc)?)?;
    Ok(Mesh {
        setting: ONE_TILE,
        tiles: Chunks::from_vec(alloc, Vec::from_array(alloc, [tile])?)?,
        cross: Chunks::from_vec(alloc, Vec::from_array(alloc, [links])?)?,
    })
}

/// Whether a point has coordinates.
fn has_coordinates(p: Point) -> bool
    ensures { IsTrue result ↔ HasCoordinates p }
{
    -65536 <= p.x && p.x <= 65536 && -65536 <= p.z && p.z <= 65536
}

/// Whether a mesh has some polygons.
fn are_there(mesh: &Mesh, polys: &[PolyRef]) -> bool
    ensures { IsTrue result → AreThere mesh.now polys.now }
{
    for at in polys {
        match poly(mesh, *at) {
            Some(_) => {}
            None => return false,
        }
    }
    true
}

static LEFT: [PolyRef; 1] = [PolyRef { tile: 0, index: 0 }];

static BOTH: [PolyRef; 2] = [PolyRef { tile: 0, index: 0 }, PolyRef { tile: 0, index: 1 }];

static TURNED: [PolyRef; 2] = [PolyRef { tile: 0, index: 1 }, PolyRef { tile: 0, index: 0 }];

static WEDGE: [PolyRef; 1] = [PolyRef { tile: 0, index: 2 }];

static SLIVER: [PolyRef; 1] = [PolyRef { tile: 0, index: 3 }];

/// Polygons, x and z of a way's beginning and of its end, the limit, and x, z, place and steps of the part's end; no steps where there is none.
type Row = (&'static [PolyRef], [i32; 4], u32, [i32; 4]);

/// The end of the part of a row's way.
fn found(mesh: &Mesh, polys: &[PolyRef], way: [i32; 4], rest: u32) -> [i32; 4]
    requires { mesh.now ≡ hand_mesh }
{
    let from = Point {
        x: way[0],
        z: way[1],
    };
    let to = Point {
        x: way[2],
        z: way[3],
    };
    if !has_coordinates(from) || !has_coordinates(to) || leg(from, to) <= rest {
        return [-1; 4];
    }
    if polys.len() > 9 || !are_there(mesh, polys) {
        return [-2; 4];
    }
    match part(mesh, polys, from, to, rest) {
        Some(end) => [
            end.at.x,
            end.at.z,
            as_number(end.place),
            as_number(end.gone),
        ],
        None => [0; 4],
    }
}

/// A small number; -3 for any other.
fn as_number(n: u32) -> i32 {
    if n < 65536 { n as i32 } else { -3 }
}

const ROWS: [Row; 10] = [
    // Out of one cell, and through two, which may stand in any order.
    (&LEFT, [0, 8, 40, 20], 30, [16, 12, 0, 16]),
    (&BOTH, [0, 8, 40, 20], 30, [29, 16, 1, 29]),
    (&TURNED, [0, 8, 40, 20], 16, [16, 12, 0, 16]),
    // Through a corner; from outside and away; straight down.
    (&LEFT, [8, 8, 40, 40], 20, [16, 16, 0, 8]),
    (&LEFT, [20, 8, 60, 8], 30, [0; 4]),
    (&LEFT, [8, 8, 8, -30], 20, [8, 0, 0, 8]),
    // No step is allowed.
    (&LEFT, [0, 8, 40, 20], 0, [0; 4]),
    // Along an edge of a thin triangle, and out over it.
    (&WEDGE, [0, 0, 80, 32], 79, [77, 31, 0, 77]),
    (&WEDGE, [0, 0, 80, 36], 70, [53, 23, 0, 53]),
    // A triangle so thin that it holds near points after a few steps alone.
    (&SLIVER, [0, 1, 112, 46], 110, [100, 42, 0, 100]),
];

fn wrong_row(mesh: &Mesh, rows: &[Row]) -> Option<usize>
    requires { mesh.now ≡ hand_mesh }
{
    for row in 0..rows.len() {
        let (polys, way, rest, wanted) = rows[row];
        if found(mesh, polys, way, rest) != wanted {
            return Some(row);
        }
    }
    None
}

/// A row that is wrong; 99 where there is no memory.
fn wrong(alloc: Global) -> Option<usize> {
    match mesh(alloc) {
        Ok(mesh) => wrong_row(&mesh, &ROWS),
        Err(_) => Some(99),
    }
}

#[test]
fn parts_of_ways(rt: HostRuntime) {
    all_hold(&rt, "parts", wrong(rt.alloc()));
}
