//! Corridors in a small mesh by hand.

ghost use Rattle.std.specs.Prelude.{◌≡◌, ◌<◌, [], ◌∷◌, pos, IfOk, IfSome};
ghost use Rattle.std.specs.Option.{option_copied};
ghost use Rattle.mesh_types.specs.Soundness.{IsSound};
ghost use Rattle.corridor_search.specs.Landmarks.{AreLandmarks};
ghost use Rattle.tests_mesh.specs.HandSettings.{costly_setting};
ghost use Rattle.tests_paths.specs.CorridorMesh.{reference, hand_tile, left_tile, right_tile, border_link, hand_mesh};

use crate::chains::has_coordinates;
use crate::places::no_links;
use crate::questions::{SETTING, mesh as few_cells};
use crate::rows::all_hold;
use crate::settings::PLAIN;
use corridor_search::{Landmarks, cheapest_by, landmarks_of};
use mesh_locate::locate;
use mesh_types::{
    Corners, Corridor, Link, Links, Mesh, PolyRef, Polygon, Polygons, Portal, Storeys, TileMesh,
};
use nav_base::Point;
use nav_ground::{AREAS, FreeLayer, PackedFreeLayer, Setting};
use nav_lists::{Chunks, Items, Shared};
use std::alloc::{AllocError, Global};

/// The area 2 costs 3, and all others 1.
fn setting() -> Setting
    ensures { result ≡ costly_setting }
{
    let mut costs = [1; AREAS];
    costs[2] = 3;
    Setting { costs, ..PLAIN }
}

/// A point by x and z.
macro_rules! corner {
    ($x:expr, $z:expr) => {
        Point { x: $x, z: $z }
    };
}

/// The triangle of three corners.
fn triangle(area: u32, corners: [Point; 3]) -> Polygon
    ensures { result ≡ record { corners = corners; area = area; low = 0; high = 0 } }
{
    Polygon {
        corners: Corners::from_slice(&corners),
        area,
        low: 0,
        high: 0,
    }
}

/// A tile of two polygons with one link.
fn tile(
    alloc: Global,
    tile: u32,
    lower: Polygon,
    upper: Polygon,
    link: Link,
) -> Result<Shared<TileMesh>, AllocError>
    requires { link.from.index < 2 }
    ensures { IfOk result (λ made. made ≡ hand_tile tile lower upper link) }
{
    let links = one_link(alloc, link)?;
    let polys = Vec::from_array(alloc, [lower, upper])?;
    let made = TileMesh {
        tile,
        free: PackedFreeLayer::own(FreeLayer {
            tile,
            cells: Items::new(alloc),
        }),
        polys: Polygons::from_vec(alloc, polys)?,
        links,
        rim: Items::new(alloc),
        storeys: Storeys::none(alloc),
    };
    Ok(Shared::new(alloc, made)?)
}

fn one_link(alloc: Global, link: Link) -> Result<Links, AllocError>
    requires { link.from.index < 2 }
    ensures { IfOk result (λ made. made ≡ link ∷ []) }
{
    let links = Vec::from_array(alloc, [link])?;
    Links::new(alloc, links, 2)
}

/// The link from one polygon over an edge to another, whose portal begins at a point and ends at (64, 64).
macro_rules! link {
    ($tile:expr, $index:expr, $edge:expr, $to_tile:expr, $to_index:expr, $x:expr, $z:expr) => {
        Link {
            from: PolyRef {
                tile: $tile,
                index: $index,
            },
            edge: $edge,
            to: PolyRef {
                tile: $to_tile,
                index: $to_index,
            },
            portal: Portal {
                left: Point { x: 64, z: 64 },
                right: Point { x: $x, z: $z },
            },
        }
    };
}

const DOWN: Link = link!(0, 1, 0, 0, 0, 0, 0);

const BORDER: Link = link!(0, 0, 1, 1, 0, 64, 0);

const UP: Link = link!(1, 0, 1, 1, 1, 128, 0);

fn at(polygon: (u32, u32)) -> PolyRef
    ensures { result ≡ reference polygon.0 polygon.1 }
{
    PolyRef {
        tile: polygon.0,
        index: polygon.1,
    }
}

fn left(alloc: Global) -> Result<Shared<TileMesh>, AllocError>
    ensures { IfOk result (λ made. made ≡ left_tile) }
{
    let lower = triangle(1, [corner!(0, 0), corner!(4, 0), corner!(4, 4)]);
    let upper = triangle(1, [corner!(0, 0), corner!(4, 4), corner!(0, 4)]);
    tile(alloc, 0, lower, upper, DOWN)
}

fn right(alloc: Global) -> Result<Shared<TileMesh>, AllocError>
    ensures { IfOk result (λ made. made ≡ right_tile) }
{
    let lower = triangle(2, [corner!(4, 0), corner!(8, 0), corner!(4, 4)]);
    let upper = triangle(1, [corner!(8, 0), corner!(8, 4), corner!(4, 4)]);
    tile(alloc, 1, lower, upper, UP)
}

fn tiles(alloc: Global) -> Result<Items<Shared<TileMesh>>, AllocError>
    ensures { IfOk result (λ tiles. tiles ≡ left_tile ∷ right_tile ∷ []) }
{
    let left = left(alloc)?;
    let right = right(alloc)?;
    Ok(Items::from_vec(Vec::from_array(alloc, [left, right])?))
}

fn border(alloc: Global) -> Result<Shared<Links>, AllocError>
    ensures { IfOk result (λ made. made ≡ border_link ∷ []) }
{
    let links = one_link(alloc, BORDER)?;
    Ok(Shared::new(alloc, links)?)
}

/// The links over the border: one from the left tile, and none from the right one.
fn cross(alloc: Global) -> Result<Items<Shared<Links>>, AllocError>
    ensures { IfOk result (λ cross. cross ≡ (border_link ∷ []) ∷ [] ∷ []) }
{
    let rightward = border(alloc)?;
    let leftward = no_links(alloc, 2)?;
    Ok(Items::from_vec(Vec::from_array(alloc, [rightward, leftward])?))
}

fn mesh(alloc: Global) -> Result<Mesh, AllocError>
    ensures { IfOk result (λ mesh. mesh ≡ hand_mesh) }
{
    let tiles = tiles(alloc)?.into_vec();
    let cross = cross(alloc)?.into_vec();
    Ok(Mesh {
        setting: setting(),
        tiles: Chunks::from_vec(alloc, tiles)?,
        cross: Chunks::from_vec(alloc, cross)?,
    })
}

/// The corridor between two of the four polygons.
fn corridor(
    alloc: Global,
    mesh: &Mesh,
    landmarks: Option<&Landmarks>,
    from: (u32, u32),
    to: (u32, u32),
) -> Result<Option<Corridor>, AllocError>
    requires mesh { mesh.now ≡ hand_mesh }
    requires landmarks { IfSome (option_copied landmarks) (AreLandmarks hand_mesh) }
{
    if from.0 < 2 && from.1 < 2 && to.0 < 2 && to.1 < 2 {
        cheapest_by(alloc, mesh, landmarks, at(from), at(to))
    } else {
        Ok(None)
    }
}

/// Two polygons, and the cost and the links of the corridor between them.
type Row = ((u32, u32), (u32, u32), Option<(u64, &'static [Link])>);

/// Two triangles of one tile have the same middle, so that the link between them weighs 1; the middles of the two tiles are 64 sixteenths
/// from each other, and the area entered over the border costs 3.
static ROWS: [Row; 9] = [
    ((0, 1), (1, 1), Some((194, &[DOWN, BORDER, UP]))),
    ((0, 1), (1, 0), Some((193, &[DOWN, BORDER]))),
    ((0, 0), (1, 0), Some((192, &[BORDER]))),
    ((0, 1), (0, 0), Some((1, &[DOWN]))),
    ((1, 0), (1, 1), Some((1, &[UP]))),
    ((0, 1), (0, 1), Some((0, &[]))),
    ((1, 0), (0, 0), None),
    ((1, 1), (0, 1), None),
    ((0, 0), (0, 1), None),
];

fn is_wanted(found: &Option<Corridor>, wanted: Option<(u64, &[Link])>) -> bool {
    match (found, wanted) {
        (Some(found), Some((cost, links))) => {
            found.cost == cost && found.links.as_slice() == links
        }
        (None, None) => true,
        _ => false,
    }
}

/// Whether the corridor between two polygons is as wanted.
fn is_corridor(alloc: Global, mesh: &Mesh, landmarks: Option<&Landmarks>, row: Row) -> bool
    requires mesh { mesh.now ≡ hand_mesh }
    requires landmarks { IfSome (option_copied landmarks) (AreLandmarks hand_mesh) }
{
    match corridor(alloc, mesh, landmarks, row.0, row.1) {
        Ok(found) => is_wanted(&found, row.2),
        Err(_) => false,
    }
}

fn wrong_row(
    alloc: Global,
    mesh: &Mesh,
    landmarks: Option<&Landmarks>,
    rows: &[Row],
) -> Option<usize>
    requires mesh { mesh.now ≡ hand_mesh }
    requires landmarks { IfSome (option_copied landmarks) (AreLandmarks hand_mesh) }
{
    for row in 0..rows.len() {
        if !is_corridor(alloc, mesh, landmarks, rows[row]) {
            return Some(row);
        }
    }
    None
}

/// The same by landmarks of the mesh; 99 where there is no memory. Its links have none back, so that the heights are tested and let go.
fn wrong_by_landmarks(alloc: Global, mesh: &Mesh) -> Option<usize>
    requires mesh { mesh.now ≡ hand_mesh }
{
    match landmarks_of(alloc, mesh) {
        Ok(made) => wrong_row(alloc, mesh, Some(&made), &ROWS),
        Err(_) => Some(99),
    }
}

/// A row that is wrong, without landmarks or with them; 99 where there is no memory.
fn wrong(alloc: Global) -> Option<usize> {
    match mesh(alloc) {
        Ok(mesh) => match wrong_row(alloc, &mesh, None, &ROWS) {
            Some(row) => Some(row),
            None => wrong_by_landmarks(alloc, &mesh),
        },
        Err(_) => Some(99),
    }
}

#[test]
fn finds_corridors(rt: HostRuntime) {
    all_hold(&rt, "corridors", wrong(rt.alloc()));
}

/// Two points, at the height of the floors, and what a corridor between their polygons costs.
type CostRow = ((i32, i32), (i32, i32), Option<u64>);

/// In the mesh of a few cells links have links back: its two large polygons have middles 16 sixteenths from each other along each axis, 23
/// across, and each area costs 2. The third polygon stands alone.
static COSTS: [CostRow; 5] = [
    ((8, 8), (40, 24), Some(46)),
    ((40, 24), (8, 8), Some(46)),
    ((8, 8), (24, 8), Some(0)),
    ((8, 8), (8, 56), None),
    ((8, 56), (40, 24), None),
];

/// What a corridor costs by landmarks.
fn cost_by_landmarks(
    alloc: Global,
    mesh: &Mesh,
    from: (i32, i32),
    to: (i32, i32),
) -> Result<Option<u64>, AllocError>
    requires sound { IsSound mesh.now }
    requires setting { mesh.now.setting ≡ SETTING }
{
    let from = corner!(from.0, from.1);
    let to = corner!(to.0, to.1);
    if !has_coordinates(from) || !has_coordinates(to) {
        return Ok(None);
    }
    let Some(from) = locate(mesh, from, 10) else {
        return Ok(None);
    };
    let Some(to) = locate(mesh, to, 10) else {
        return Ok(None);
    };
    let made = landmarks_of(alloc, mesh)?;
    match cheapest_by(alloc, mesh, Some(&made), from, to)? {
        Some(corridor) => Ok(Some(corridor.cost)),
        None => Ok(None),
    }
}

fn wrong_cost(alloc: Global, mesh: &Mesh, rows: &[CostRow]) -> Option<usize>
    requires sound { IsSound mesh.now }
    requires setting { mesh.now.setting ≡ SETTING }
{
    for row in 0..rows.len() {
        let (from, to, wanted) = rows[row];
        match cost_by_landmarks(alloc, mesh, from, to) {
            Ok(cost) => {
                if cost != wanted {
                    return Some(row);
                }
            }
            Err(_) => return Some(99),
        }
    }
    None
}

/// A row that is wrong; 99 where there is no memory.
fn wrong_costs(alloc: Global) -> Option<usize> {
    match few_cells(alloc) {
        Ok(mesh) => wrong_cost(alloc, &mesh, &COSTS),
        Err(_) => Some(99),
    }
}

#[test]
fn costs_corridors_by_landmarks(rt: HostRuntime) {
    all_hold(&rt, "costs by landmarks", wrong_costs(rt.alloc()));
}
