//! Where places lie in a small mesh by hand.

ghost use Rattle.std.specs.Prelude.{◌≡◌, ◌≤◌, [], ◌∷◌, IfOk};
ghost use Rattle.tests_paths.specs.PlaceMesh.{hand_mesh, hand_polygon, hand_tile, left_tile, right_tile};

use crate::rows::all_hold;
use crate::settings::PLAIN;
use mesh_locate::locate;
use mesh_types::{Corners, Links, Mesh, PolyRef, Polygon, Polygons, Storeys, TileMesh};
use nav_base::Point;
use nav_ground::{FreeLayer, PackedFreeLayer};
use nav_lists::{Chunks, Items, Shared};
use std::alloc::{AllocError, Global};

/// The triangle on four cells of the lowest row from a column on, that reaches four cells up at another column, with floors from `low` to two more.
fn polygon(x: u32, top: u32, low: u32) -> Polygon
    requires across { x ≤ 4 }
    requires top { top ≤ 8 }
    requires low { low ≤ 9 }
    ensures { result ≡ hand_polygon x top low }
{
    let corners = [
        Point { x: x as i32, z: 0 },
        Point {
            x: (x + 4) as i32,
            z: 0,
        },
        Point {
            x: top as i32,
            z: 4,
        },
    ];
    Polygon {
        corners: Corners::from_slice(&corners),
        area: 1,
        low,
        high: low + 2,
    }
}

/// A tile of polygons without links.
fn tile(alloc: Global, tile: u32, polys: Vec<Polygon>) -> Result<Shared<TileMesh>, AllocError>
    ensures { IfOk result (λ made. made ≡ hand_tile tile polys.items) }
{
    let links = Links::new(alloc, Vec::new(alloc), 0)?;
    let made = TileMesh {
        tile,
        free: PackedFreeLayer::own(FreeLayer {
            tile,
            cells: Items::new(alloc),
        }),
        polys: Polygons::from_vec(alloc, polys)?,
        links,
        rim: Items::new(alloc),
        storeys: Storeys::none(alloc),
    };
    Ok(Shared::new(alloc, made)?)
}

/// No links of so many polygons.
pub(crate) fn no_links(alloc: Global, polygons: u32) -> Result<Shared<Links>, AllocError>
    ensures { IfOk result (λ made. made ≡ []) }
{
    let links = Links::new(alloc, Vec::new(alloc), polygons)?;
    Ok(Shared::new(alloc, links)?)
}

fn tiles(alloc: Global) -> Result<Items<Shared<TileMesh>>, AllocError>
    ensures { IfOk result (λ tiles. tiles ≡ left_tile ∷ right_tile ∷ []) }
{
    let polys = Vec::from_array(alloc, [polygon(0, 4, 0), polygon(0, 4, 4)])?;
    let left = tile(alloc, 0, polys)?;
    let polys = Vec::from_array(alloc, [polygon(4, 4, 0)])?;
    let right = tile(alloc, 1, polys)?;
    Ok(Items::from_vec(Vec::from_array(alloc, [left, right])?))
}

fn cross(alloc: Global) -> Result<Items<Shared<Links>>, AllocError>
    ensures { IfOk result (λ cross. cross ≡ [] ∷ [] ∷ []) }
{
    let rightward = no_links(alloc, 0)?;
    let leftward = no_links(alloc, 0)?;
    Ok(Items::from_vec(Vec::from_array(alloc, [rightward, leftward])?))
}

fn mesh(alloc: Global) -> Result<Mesh, AllocError>
    ensures { IfOk result (λ mesh. mesh ≡ hand_mesh) }
{
    let tiles = tiles(alloc)?.into_vec();
    let cross = cross(alloc)?.into_vec();
    Ok(Mesh {
        setting: PLAIN,
        tiles: Chunks::from_vec(alloc, tiles)?,
        cross: Chunks::from_vec(alloc, cross)?,
    })
}

/// The tile and the place of the polygon that locates a place.
fn found(mesh: &Mesh, x: i32, z: i32, y: u32) -> Option<(u32, u32)>
    requires { mesh.now ≡ hand_mesh }
{
    if x < -65536 || x > 65536 || z < -65536 || z > 65536 {
        return None;
    }
    let at = locate(mesh, Point { x, z }, y)?;
    Some((at.tile, at.index))
}

/// A place by x, z and height, and the tile and the place of the polygon that locates it.
type Row = (i32, i32, u32, Option<(u32, u32)>);

static ROWS: [Row; 13] = [
    // Heights over both polygons of the left tile.
    (32, 16, 0, Some((0, 0))),
    (32, 16, 3, Some((0, 0))),
    (32, 16, 4, Some((0, 1))),
    (32, 16, 9, Some((0, 1))),
    (32, 16, 10, None),
    // Places at the height 1.
    (64, 16, 1, Some((0, 0))),
    (65, 16, 1, Some((1, 0))),
    (32, 32, 1, Some((0, 0))),
    (32, 33, 1, None),
    (128, 0, 1, Some((1, 0))),
    (129, 0, 1, None),
    (0, -1, 1, None),
    (-65536, 65536, 1, None),
];

fn wrong_row(mesh: &Mesh, rows: &[Row]) -> Option<usize>
    requires { mesh.now ≡ hand_mesh }
{
    for row in 0..rows.len() {
        let (x, z, y, wanted) = rows[row];
        if found(mesh, x, z, y) != wanted {
            return Some(row);
        }
    }
    None
}

/// A row that is wrong; 99 where there is no memory.
fn wrong(alloc: Global) -> Option<usize> {
    match mesh(alloc) {
        Ok(mesh) => wrong_row(&mesh, &ROWS),
        Err(_) => Some(99),
    }
}

#[test]
fn locates_places(rt: HostRuntime) {
    all_hold(&rt, "places", wrong(rt.alloc()));
}
