//! What is told of polygons, links and obstacles to one who draws them.

ghost use Rattle.std.specs.Prelude.{◌≡◌, map};
ghost use Rattle.nav_ground.specs.History.{shape_in, shape_of};
ghost use Rattle.nav_handle.specs.Looking.{IsListed, border_links_of, corner_at_place, faces_of, inner_links_of, obstacle_of};
ghost use Rattle.nav_handle.specs.Wire.{laid};

use crate::ends::lay_links;
use crate::wire::{NavdBlock, NavdCylinder, NavdLink, OK, OUT_OF_RANGE};
use mesh_types::{Mesh, Polygon, Polygons};
use nav_base::Point;
use nav_ground::{Entry, Request, Shape};

/// A corner of a polygon, in whole cells.
#[repr(C)]
#[derive(Clone, Copy)]
pub struct NavdCorner {
    pub x: i32,
    pub z: i32,
}

/// A polygon as it is drawn: how many corners it has, these corners, its area, and its least and greatest floor. The corners that it does not
/// have are 0.
#[repr(C)]
#[derive(Clone, Copy)]
pub struct NavdFace {
    pub corners: u32,
    pub first: NavdCorner,
    pub second: NavdCorner,
    pub third: NavdCorner,
    pub fourth: NavdCorner,
    pub fifth: NavdCorner,
    pub sixth: NavdCorner,
    pub area: u32,
    pub low: u32,
    pub high: u32,
}

/// An obstacle: its number, the area that it sets or 0, and what it is: a block (0), a cylinder (1), a prism (2) or a disc (3). The numbers of what
/// it is not are 0.
#[repr(C)]
#[derive(Clone, Copy)]
pub struct NavdObstacle {
    pub number: u32,
    pub area: u32,
    pub kind: u32,
    pub block: NavdBlock,
    pub cylinder: NavdCylinder,
}

/// The corner at a place.
fn corner_told(corners: &[Point], place: usize) -> NavdCorner
    ensures { result ≡ corner_at_place corners.now place }
{
    match corners.get(place) {
        Some(corner) => NavdCorner {
            x: corner.x,
            z: corner.z,
        },
        None => NavdCorner { x: 0, z: 0 },
    }
}

fn face_told(polygon: &Polygon) -> NavdFace
    ensures { result ≡ Rattle.nav_handle.specs.Looking.face_told polygon.now }
{
    let corners = polygon.corners.as_slice();
    NavdFace {
        corners: corners.len() as u32,
        first: corner_told(corners, 0),
        second: corner_told(corners, 1),
        third: corner_told(corners, 2),
        fourth: corner_told(corners, 3),
        fifth: corner_told(corners, 4),
        sixth: corner_told(corners, 5),
        area: polygon.area,
        low: polygon.low,
        high: polygon.high,
    }
}

/// Lays polygons into a room.
fn lay_faces(polygons: &Polygons, room: &mut [NavdFace])
    ensures { room.new ≡ laid (map Rattle.nav_handle.specs.Looking.face_told polygons.now) room.old }
{
    let count = polygons.len().min(room.len());
    for place in 0..count {
        room[place] = face_told(&polygons.at(place));
    }
}

/// The shape that an entry with a number adds, if there is one.
fn shape_at(entries: &[Entry], number: u32) -> Option<Shape>
    ensures { result ≡ shape_of entries.now number }
{
    if number == 0 {
        return None;
    }
    match entries.get(number as usize - 1) {
        Some(entry) => shape_asked(entry.request),
        None => None,
    }
}

fn shape_asked(request: Request) -> Option<Shape>
    ensures { result ≡ shape_in request }
{
    match request {
        Request::Add(shape) => Some(shape),
        Request::Remove(_) => None,
    }
}

fn block_told(number: u32, area: u32, block: NavdBlock) -> NavdObstacle
    ensures { result ≡ Rattle.nav_handle.specs.Looking.block_told number area block }
{
    NavdObstacle {
        number,
        area,
        kind: 0,
        block,
        cylinder: NavdCylinder {
            cx: 0,
            cz: 0,
            r: 0,
            y0: 0,
            y1: 0,
        },
    }
}

fn cylinder_told(number: u32, area: u32, cylinder: NavdCylinder) -> NavdObstacle
    ensures { result ≡ Rattle.nav_handle.specs.Looking.cylinder_told number area cylinder }
{
    NavdObstacle {
        number,
        area,
        kind: 1,
        block: no_block(),
        cylinder,
    }
}

fn other_told(number: u32, area: u32, kind: u32) -> NavdObstacle
    ensures { result ≡ Rattle.nav_handle.specs.Looking.other_told number area kind }
{
    NavdObstacle {
        number,
        area,
        kind,
        block: no_block(),
        cylinder: NavdCylinder {
            cx: 0,
            cz: 0,
            r: 0,
            y0: 0,
            y1: 0,
        },
    }
}

fn no_block() -> NavdBlock
    ensures { result ≡ Rattle.nav_handle.specs.Looking.no_block }
{
    NavdBlock {
        x0: 0,
        x1: 0,
        y0: 0,
        y1: 0,
        z0: 0,
        z1: 0,
    }
}

/// A shape under a number.
fn obstacle_told(number: u32, shape: Option<Shape>) -> NavdObstacle
    ensures { result ≡ Rattle.nav_handle.specs.Looking.obstacle_told number shape }
{
    match shape {
        Some(
            Shape::Block {
                x0,
                x1,
                y0,
                y1,
                z0,
                z1,
            },
        ) => {
            block_told(
                number,
                0,
                NavdBlock {
                    x0,
                    x1,
                    y0,
                    y1,
                    z0,
                    z1,
                },
            )
        }
        Some(
            Shape::AreaBlock {
                area,
                x0,
                x1,
                y0,
                y1,
                z0,
                z1,
            },
        ) => {
            block_told(
                number,
                area,
                NavdBlock {
                    x0,
                    x1,
                    y0,
                    y1,
                    z0,
                    z1,
                },
            )
        }
        Some(Shape::Cylinder { cx, cz, r, y0, y1 }) => {
            cylinder_told(number, 0, NavdCylinder { cx, cz, r, y0, y1 })
        }
        Some(
            Shape::AreaCylinder {
                area,
                cx,
                cz,
                r,
                y0,
                y1,
            },
        ) => { cylinder_told(number, area, NavdCylinder { cx, cz, r, y0, y1 }) }
        Some(Shape::Prism { area, .. }) => other_told(number, area, 2),
        Some(Shape::Disc { area, .. }) => other_told(number, area, 3),
        None => block_told(number, 0, no_block()),
    }
}

/// Lays the obstacles of a history with some numbers into a room.
pub fn lay_obstacles(entries: &[Entry], numbers: &[u32], room: &mut [NavdObstacle])
    ensures { room.new ≡ laid (map (obstacle_of entries.now) numbers.now) room.old }
{
    let count = numbers.len().min(room.len());
    for place in 0..count {
        room[place] = obstacle_told(numbers[place], shape_at(entries, numbers[place]));
    }
}

/// Tells the polygons of a tile.
pub fn tell_faces(mesh: &Mesh, tile: u32, faces: &mut [NavdFace], count: &mut usize) -> u32
    ensures { IsListed (faces_of mesh.now tile) (count.old, faces.old) (count.new, faces.new) result }
{
    let Some(tile) = mesh.tiles.get(tile as usize) else {
        return OUT_OF_RANGE;
    };
    let polygons = &tile.get().polys;
    *count = polygons.len();
    lay_faces(polygons, faces);
    OK
}

/// Tells the links between polygons of a tile.
pub fn tell_inner_links(mesh: &Mesh, tile: u32, links: &mut [NavdLink], count: &mut usize) -> u32
    ensures { IsListed (inner_links_of mesh.now tile) (count.old, links.old) (count.new, links.new) result }
{
    let Some(tile) = mesh.tiles.get(tile as usize) else {
        return OUT_OF_RANGE;
    };
    let inner = tile.get().links.as_slice();
    *count = inner.len();
    lay_links(inner, links);
    OK
}

/// Tells the links that lead from a tile to others.
pub fn tell_border_links(mesh: &Mesh, tile: u32, links: &mut [NavdLink], count: &mut usize) -> u32
    ensures { IsListed (border_links_of mesh.now tile) (count.old, links.old) (count.new, links.new) result }
{
    let Some(list) = mesh.cross.get(tile as usize) else {
        return OUT_OF_RANGE;
    };
    let cross = list.get().as_slice();
    *count = cross.len();
    lay_links(cross, links);
    OK
}
