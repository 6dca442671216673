//! Links over a border by hand: two tiles side by side, of which one has two levels there.

ghost use Rattle.std.specs.Prelude.{◌≡◌, ◌<◌, [], ◌∷◌, IfOk};
ghost use Rattle.mesh_types.specs.WholeMesh.{mesh_of};
ghost use Rattle.tile_links.specs.Across.{AreAcross};
ghost use Rattle.tests_mesh.specs.HandSettings.{plain_setting};
ghost use Rattle.tests_mesh.specs.TwoTiles.{hand_polygon, hand_tile, left_tile, right_tile, lower_entry, upper_entry};

use crate::rows::{all_hold, hold};
use mesh_types::{
    Corners, LevelPair, Link, Links, Mesh, PolyRef, Polygon, Polygons, Portal, RimEdge, Storeys,
    TileMesh,
};
use nav_base::Point;
use nav_ground::{AREAS, Agent, Direction, FreeLayer, MeshKind, PackedFreeLayer, Setting, TileNo};
use nav_lists::{Items, Shared};
use std::alloc::{AllocError, Global};
use tile_links::{across, replace, rim_links, whole};

const SETTING: Setting = Setting {
    width: 8,
    depth: 4,
    tile: 4,
    agent: Agent {
        height: 8,
        climb: 3,
        radius: 0,
    },
    error: 100,
    mesh: MeshKind::Strips,
    limit: 9,
    costs: [1; AREAS],
    clear: false,
};

/// The rectangle of two columns and four rows from a column on.
fn polygon(x: u32) -> Polygon
    requires { x < 8 }
    ensures { result ≡ hand_polygon x }
{
    let x = x as i32;
    let corners = [
        Point { x, z: 0 },
        Point { x: x + 2, z: 0 },
        Point { x: x + 2, z: 4 },
        Point { x, z: 4 },
    ];
    Polygon {
        corners: Corners::from_slice(&corners),
        area: 1,
        low: 0,
        high: 0,
    }
}

/// A tile without inner links, which knows of so many polygons that none leaves them.
pub(crate) fn tile(
    alloc: Global,
    tile: u32,
    polygons: u32,
    polys: Vec<Polygon>,
    rim: Vec<RimEdge>,
) -> Result<TileMesh, AllocError>
    ensures { IfOk result (λ made. made ≡ hand_tile tile polys.items rim.items) }
{
    let links = Links::new(alloc, Vec::new(alloc), polygons)?;
    Ok(TileMesh {
        tile,
        free: PackedFreeLayer::own(FreeLayer {
            tile,
            cells: Items::new(alloc),
        }),
        polys: Polygons::from_vec(alloc, polys)?,
        links,
        rim: Items::from_vec(rim),
        storeys: Storeys::none(alloc),
    })
}

fn levels(alloc: Global, pairs: &[LevelPair]) -> Result<Items<LevelPair>, AllocError>
    ensures { IfOk result (λ made. made ≡ pairs.now) }
{
    Ok(Items::from_vec(Vec::from_slice(alloc, pairs)?))
}

/// Along the border it leads to level 0, twice to level 1, and to level 0 again.
fn left(alloc: Global) -> Result<TileMesh, AllocError>
    ensures { IfOk result (λ made. made ≡ left_tile) }
{
    let pairs = [
        LevelPair { own: 0, other: 0 },
        LevelPair { own: 0, other: 1 },
        LevelPair { own: 0, other: 1 },
        LevelPair { own: 0, other: 0 },
    ];
    let polys = Vec::from_array(alloc, [polygon(2)])?;
    let edge = RimEdge {
        poly: 0,
        edge: 1,
        side: 2,
        first: 0,
        pairs: levels(alloc, &pairs)?,
    };
    let rim = Vec::from_array(alloc, [edge])?;
    tile(alloc, 0, 0, polys, rim)
}

/// The edges of the right tile on the border: the lower polygon leads to the left tile at the first and the last position, the upper one at
/// the two between.
fn right_rim(alloc: Global) -> Result<Vec<RimEdge>, AllocError>
    ensures { IfOk result (λ rim. rim.items ≡ lower_entry ∷ upper_entry ∷ []) }
{
    let pairs = [
        LevelPair { own: 0, other: 0 },
        LevelPair { own: 0, other: 5 },
        LevelPair { own: 0, other: 5 },
        LevelPair { own: 0, other: 0 },
    ];
    let lower = RimEdge {
        poly: 0,
        edge: 3,
        side: 0,
        first: 0,
        pairs: levels(alloc, &pairs)?,
    };
    let pairs = [
        LevelPair { own: 1, other: 0 },
        LevelPair { own: 1, other: 0 },
    ];
    let upper = RimEdge {
        poly: 1,
        edge: 3,
        side: 0,
        first: 1,
        pairs: levels(alloc, &pairs)?,
    };
    Ok(Vec::from_array(alloc, [lower, upper])?)
}

fn right(alloc: Global) -> Result<TileMesh, AllocError>
    ensures { IfOk result (λ made. made ≡ right_tile) }
{
    let polys = Vec::from_array(alloc, [polygon(4), polygon(4)])?;
    let rim = right_rim(alloc)?;
    tile(alloc, 1, 0, polys, rim)
}

/// The two tiles.
fn pair(alloc: Global) -> Result<(TileMesh, TileMesh), AllocError>
    ensures left { IfOk result (λ made. made.0 ≡ left_tile) }
    ensures right { IfOk result (λ made. made.1 ≡ right_tile) }
    ensures rightward { IfOk result (λ made. AreAcross made.0 made.1 2) }
    ensures leftward { IfOk result (λ made. AreAcross made.1 made.0 0) }
{
    let left = left(alloc)?;
    let right = right(alloc)?;
    Ok((left, right))
}

/// The link between two polygons over the border at x = 4, between two of its points.
macro_rules! link {
    ($tile:expr, $index:expr, $edge:expr, $to_tile:expr, $to_index:expr, $left:expr, $right:expr) => {
        Link {
            from: PolyRef {
                tile: $tile,
                index: $index,
            },
            edge: $edge,
            to: PolyRef {
                tile: $to_tile,
                index: $to_index,
            },
            portal: Portal {
                left: Point { x: 64, z: $left },
                right: Point { x: 64, z: $right },
            },
        }
    };
}

/// The links over the border to the right.
static RIGHTWARD: [Link; 3] = [
    link!(0, 0, 1, 1, 0, 16, 0),
    link!(0, 0, 1, 1, 0, 64, 48),
    link!(0, 0, 1, 1, 1, 48, 16),
];

/// The links over the border to the left.
static LEFTWARD: [Link; 3] = [
    link!(1, 0, 3, 0, 0, 0, 16),
    link!(1, 0, 3, 0, 0, 48, 64),
    link!(1, 1, 3, 0, 0, 16, 48),
];

/// Whether these are the links from one tile to the other, across a side.
fn are_links(alloc: Global, one: &TileMesh, other: &TileMesh, side: u32, wanted: &[Link]) -> bool
    requires { AreAcross one.now other.now side }
{
    match rim_links(alloc, one, other, side) {
        Ok(links) => links.as_slice() == wanted,
        Err(_) => false,
    }
}

/// Whether the tiles have the links that lead both ways.
fn link_both_ways(alloc: Global) -> bool {
    match pair(alloc) {
        Ok((one, other)) => {
            are_links(alloc, &one, &other, 2, &RIGHTWARD)
                && are_links(alloc, &other, &one, 0, &LEFTWARD)
        }
        Err(_) => false,
    }
}

fn mesh(alloc: Global) -> Result<Mesh, AllocError>
    ensures { IfOk result (λ mesh. mesh ≡ mesh_of plain_setting (left_tile ∷ right_tile ∷ [])) }
{
    let (left, right) = pair(alloc)?;
    let tiles = Vec::from_array(alloc, [left, right])?;
    whole(alloc, &SETTING, tiles)
}

/// A tile without polygons, to come in the right tile's place.
fn emptied(alloc: Global) -> Result<Vec<(TileNo, Shared<TileMesh>)>, AllocError>
    ensures { IfOk result (λ news. news.items ≡ (1, hand_tile 1 [] []) ∷ []) }
{
    let empty = tile(alloc, 1, 0, Vec::new(alloc), Vec::new(alloc))?;
    let empty = Shared::new(alloc, empty)?;
    Ok(Vec::from_array(alloc, [(1, empty)])?)
}

/// Empties the right tile, and says whether that was done.
fn empty_right(alloc: Global, mesh: &mut Mesh) -> bool
    requires { mesh.old ≡ mesh_of plain_setting (left_tile ∷ right_tile ∷ []) }
{
    match emptied(alloc) {
        Ok(news) => replace(mesh, alloc, news).is_ok(),
        Err(_) => false,
    }
}

/// The links of a tile over the border; none where there is no such tile.
fn cross_links(mesh: &Mesh, tile: usize) -> &[Link] {
    match mesh.cross.get(tile) {
        Some(links) => links.get().as_slice(),
        None => &[],
    }
}

/// Whether the mesh has two tiles, and these links to the right and to the left.
fn has_links(mesh: &Mesh, to_right: &[Link], to_left: &[Link]) -> bool {
    mesh.tiles.len() == 2
        && mesh.cross.len() == 2
        && cross_links(mesh, 0) == to_right
        && cross_links(mesh, 1) == to_left
}

/// Whether the mesh has the links of each tile, and none once the right tile is replaced.
fn mesh_is_linked(alloc: Global) -> bool {
    match mesh(alloc) {
        Ok(mesh) => {
            let mut mesh = mesh;
            has_links(&mesh, &RIGHTWARD, &LEFTWARD)
                && empty_right(alloc, &mut mesh)
                && has_links(&mesh, &[], &[])
        }
        Err(_) => false,
    }
}

/// A tile, a side, and the tile across it.
static SIDES: [(u32, Direction, Option<u32>); 6] = [
    (0, Direction::Left, None),
    (0, Direction::Above, None),
    (0, Direction::Right, Some(1)),
    (1, Direction::Left, Some(0)),
    (1, Direction::Right, None),
    (1, Direction::Below, None),
];

fn wrong_side(rows: &[(u32, Direction, Option<u32>)]) -> Option<usize> {
    for row in 0..rows.len() {
        let (tile, side, wanted) = rows[row];
        if tile >= 2 || across(&SETTING, tile, side) != wanted {
            return Some(row);
        }
    }
    None
}

#[test]
fn tiles_are_linked(rt: HostRuntime) {
    hold(&rt, "links", link_both_ways(rt.alloc()));
    hold(&rt, "the mesh", mesh_is_linked(rt.alloc()));
    all_hold(&rt, "sides", wrong_side(&SIDES));
}
