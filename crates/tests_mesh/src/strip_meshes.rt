//! A tile's mesh by hand.

ghost use Rattle.std.specs.Prelude.{◌≡◌, IfOk};
ghost use Rattle.nav_ground.specs.Cells.{IsCut, IsInTile};
ghost use Rattle.nav_ground.specs.Limits.{IsSetting};

use crate::five_cells::CELLS;
use crate::polygons::are_polygons;
use crate::rows::hold;
use crate::stored::stored;
use mesh_types::{Corners, LevelPair, Link, PolyRef, Polygon, Portal, RimEdge, TileMesh};
use nav_base::Point;
use nav_ground::{AREAS, Agent, FreeLayer, MeshKind, Setting};
use std::alloc::{AllocError, Global};
use strip_mesh::strip_mesh;

/// Two tiles side by side.
const SETTING: Setting = Setting {
    width: 8,
    depth: 4,
    tile: 4,
    agent: Agent {
        height: 10,
        climb: 4,
        radius: 0,
    },
    error: 169,
    mesh: MeshKind::Strips,
    limit: 4,
    costs: [1; AREAS],
    clear: false,
};

fn mesh(alloc: Global) -> Result<TileMesh, AllocError> {
    let cells = CELLS;
    let free = FreeLayer {
        tile: 0,
        cells: stored(alloc, &cells)?,
    };
    strip_mesh(alloc, &free, &SETTING)
}

/// The rectangle over columns of a row, from one to before another, with the least and the greatest floor.
fn rectangle(x: (i32, i32), z: i32, area: u32, low: u32, high: u32) -> Polygon {
    let end = z.saturating_add(1);
    Polygon {
        corners: Corners::from_slice(&[
            Point { x: x.0, z },
            Point { x: x.1, z },
            Point { x: x.1, z: end },
            Point { x: x.0, z: end },
        ]),
        area,
        low,
        high,
    }
}

fn has_polygons(mesh: &TileMesh) -> bool {
    let polys = [
        rectangle((1, 3), 0, 63, 10, 12),
        rectangle((3, 4), 0, 7, 9, 9),
        rectangle((1, 2), 1, 63, 8, 8),
        rectangle((2, 3), 1, 63, 14, 14),
    ];
    are_polygons(&mesh.polys, polys.as_slice())
}

/// The polygon that a link leaves, the edge, the polygon entered, and x and z of the right and of the left end of the portal.
macro_rules! link {
    ($from:expr, $edge:expr, $to:expr, $right_x:expr, $right_z:expr, $left_x:expr, $left_z:expr) => {
        Link {
            from: PolyRef {
                tile: 0,
                index: $from,
            },
            edge: $edge,
            to: PolyRef {
                tile: 0,
                index: $to,
            },
            portal: Portal {
                left: Point {
                    x: $left_x,
                    z: $left_z,
                },
                right: Point {
                    x: $right_x,
                    z: $right_z,
                },
            },
        }
    };
}

static LINKS: [Link; 6] = [
    link!(0, 1, 1, 48, 0, 48, 16),
    link!(0, 2, 2, 32, 16, 16, 16),
    link!(0, 2, 3, 48, 16, 32, 16),
    link!(1, 3, 0, 48, 16, 48, 0),
    link!(2, 0, 0, 16, 16, 32, 16),
    link!(3, 0, 0, 32, 16, 48, 16),
];

/// Whether it is the edge of the polygon with the other area, which lies on the border to the right.
fn is_border(entry: &RimEdge) -> bool {
    let pair = LevelPair { own: 0, other: 2 };
    (entry.poly, entry.edge, entry.side, entry.first) == (1, 1, 2, 0)
        && entry.pairs.as_slice() == [pair].as_slice()
}

fn has_border(mesh: &TileMesh) -> bool {
    match mesh.rim.as_slice() {
        [entry] => is_border(entry),
        _ => false,
    }
}

fn is_as_drawn(alloc: Global) -> bool {
    match mesh(alloc) {
        Ok(mesh) => {
            has_polygons(&mesh) && mesh.links.as_slice() == LINKS.as_slice() && has_border(&mesh)
        }
        Err(_) => false,
    }
}

#[test]
fn mesh_by_hand(rt: HostRuntime) {
    hold(&rt, "the mesh", is_as_drawn(rt.alloc()));
}
