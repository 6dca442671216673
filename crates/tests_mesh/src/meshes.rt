//! Small meshes by hand: what their calls find.

ghost use Rattle.std.specs.Prelude.{◌<◌};

use crate::borders::tile;
use crate::rows::{all_hold, hold};
use mesh_types::{
    Corners, LabelRun, Link, Links, Mesh, PolyRef, Polygon, Portal, TileMesh, copy_mesh, copy_tile,
    order_links, poly, runs,
};
use nav_base::Point;
use nav_ground::{AREAS, Agent, MeshKind, Setting};
use nav_lists::{Chunks, Duplicate, Items, Shared};
use std::alloc::{AllocError, Global};

static LABELS: [Option<u32>; 8] = [
    Some(4),
    Some(4),
    None,
    None,
    Some(4),
    Some(5),
    Some(5),
    Some(5),
];

static RUNS: [LabelRun; 3] = [
    LabelRun {
        first: 0,
        last: 1,
        label: 4,
    },
    LabelRun {
        first: 4,
        last: 4,
        label: 4,
    },
    LabelRun {
        first: 5,
        last: 7,
        label: 5,
    },
];

/// Whether these are the runs of a few labels.
fn has_runs(alloc: Global, labels: &[Option<u32>], wanted: &[LabelRun]) -> bool {
    if labels.len() > 100 {
        return false;
    }
    match runs(alloc, labels) {
        Ok(found) => found.as_slice() == wanted,
        Err(_) => false,
    }
}

fn finds_runs(alloc: Global) -> bool {
    has_runs(alloc, &LABELS, &RUNS) && has_runs(alloc, &[], &[]) && has_runs(alloc, &[None], &[])
}

/// A link from a polygon of the tile 0 over an edge to another, through a portal that begins at x.
macro_rules! link {
    ($index:expr, $edge:expr, $to_tile:expr, $to_index:expr, $x:expr) => {
        Link {
            from: PolyRef {
                tile: 0,
                index: $index,
            },
            edge: $edge,
            to: PolyRef {
                tile: $to_tile,
                index: $to_index,
            },
            portal: Portal {
                left: Point { x: 64, z: 16 },
                right: Point { x: $x, z: 16 },
            },
        }
    };
}

const FIRST: Link = link!(0, 0, 0, 2, 16);

/// Links in order.
static LINKS: [Link; 5] = [
    FIRST,
    link!(0, 2, 0, 1, 16),
    link!(0, 2, 0, 1, 32),
    link!(0, 2, 1, 0, 16),
    link!(2, 0, 0, 0, 16),
];

fn puts_links_in_order() -> bool {
    let [a, b, c, d, e] = LINKS;
    let mut links = [d, b, e, c, a];
    order_links(&mut links);
    links == LINKS
}

/// A polygon, and how many links leave it.
static COUNTS: [(u32, usize); 5] = [(0, 1), (1, 0), (2, 0), (3, 0), (4000000000, 0)];

fn wrong_count(list: &Links, rows: &[(u32, usize)]) -> Option<usize> {
    for row in 0..rows.len() {
        let (polygon, count) = rows[row];
        if list.leaving(polygon).len() != count {
            return Some(row);
        }
    }
    None
}

/// Whether the list holds one link, which leaves the first polygon.
fn has_only(list: &Links, only: Link) -> bool {
    list.len() == 1 && list.leaving(0) == [only].as_slice()
}

/// The list of one link.
fn one_link(alloc: Global, link: Link) -> Result<Links, AllocError>
    requires { link.from.index < 3 }
{
    let links = Vec::from_array(alloc, [link])?;
    Links::new(alloc, links, 3)
}

/// A row of counts that is wrong; 9 where the list is, or where there is no memory.
fn wrong_links(alloc: Global) -> Option<usize> {
    match one_link(alloc, FIRST) {
        Ok(list) if has_only(&list, FIRST) => wrong_count(&list, &COUNTS),
        _ => Some(9),
    }
}

fn square(area: u32) -> Polygon {
    Polygon {
        corners: Corners::from_slice(&[
            Point { x: 0, z: 0 },
            Point { x: 4, z: 0 },
            Point { x: 4, z: 4 },
            Point { x: 0, z: 4 },
        ]),
        area,
        low: 10,
        high: 12,
    }
}

const SETTING: Setting = Setting {
    width: 4,
    depth: 4,
    tile: 4,
    agent: Agent {
        height: 10,
        climb: 4,
        radius: 0,
    },
    error: 169,
    mesh: MeshKind::Strips,
    limit: 2,
    costs: [1; AREAS],
    clear: false,
};

/// The mesh of one tile.
fn mesh_of(alloc: Global, tile: TileMesh) -> Result<Mesh, AllocError> {
    let tile = Shared::new(alloc, tile)?;
    Ok(Mesh {
        setting: SETTING,
        tiles: Chunks::from_vec(alloc, Vec::from_array(alloc, [tile])?)?,
        cross: Chunks::from_vec(alloc, Vec::new(alloc))?,
    })
}

/// The mesh of one tile with two polygons and no links.
fn mesh(alloc: Global) -> Result<Mesh, AllocError> {
    let polys = Vec::from_array(alloc, [square(63), square(5)])?;
    mesh_of(alloc, tile(alloc, 0, 2, polys, Vec::new(alloc))?)
}

/// A tile, an index, and the area of the polygon there.
type Place = (u32, u32, Option<u32>);

static PLACES: [Place; 4] = [
    (0, 0, Some(63)),
    (0, 1, Some(5)),
    (0, 2, None),
    (1, 0, None),
];

/// The area of the polygon at a place, which has four corners.
fn area_at(mesh: &Mesh, tile: u32, index: u32) -> Option<u32> {
    match poly(mesh, PolyRef { tile, index }) {
        Some(polygon) if polygon.corners.as_slice().len() == 4 => Some(polygon.area),
        _ => None,
    }
}

fn wrong_place(mesh: &Mesh, places: &[Place]) -> Option<usize> {
    for row in 0..places.len() {
        let (tile, index, area) = places[row];
        if area_at(mesh, tile, index) != area {
            return Some(row);
        }
    }
    None
}

fn wrong_in_copy(alloc: Global, mesh: &Mesh) -> Option<usize> {
    match copy_mesh(alloc, mesh) {
        Ok(copy) => wrong_place(&copy, &PLACES),
        Err(_) => Some(9),
    }
}

/// How many polygons and links a copy of a tile has.
fn counts_of_copy(alloc: Global, tile: &TileMesh) -> Option<(usize, usize)> {
    match copy_tile(alloc, tile) {
        Ok(copy) => Some((copy.polys.len(), copy.links.len())),
        Err(_) => None,
    }
}

fn counts_of_first(alloc: Global, mesh: &Mesh) -> Option<(usize, usize)> {
    match mesh.tiles.get(0) {
        Some(tile) => counts_of_copy(alloc, tile.get()),
        None => None,
    }
}

/// A place that is wrong in a copy of the mesh; 9 where a copied tile has other counts, or where there is no memory.
fn wrong_copies(alloc: Global) -> Option<usize> {
    match mesh(alloc) {
        Ok(mesh) if counts_of_first(alloc, &mesh) == Some((2, 0)) => wrong_in_copy(alloc, &mesh),
        _ => Some(9),
    }
}

fn is_copied(alloc: Global, polygon: Polygon) -> bool {
    match polygon.duplicate(alloc) {
        Ok(copy) => copy == polygon,
        Err(_) => false,
    }
}

fn copies_polygons(alloc: Global) -> bool {
    is_copied(alloc, square(63)) && is_copied(alloc, square(5))
}

#[test]
fn small_meshes(rt: HostRuntime) {
    hold(&rt, "runs", finds_runs(rt.alloc()));
    hold(&rt, "links in order", puts_links_in_order());
    all_hold(&rt, "links of a list", wrong_links(rt.alloc()));
    all_hold(&rt, "copies", wrong_copies(rt.alloc()));
    hold(&rt, "polygons", copies_polygons(rt.alloc()));
}
