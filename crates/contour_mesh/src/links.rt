//! The links through a tile's doors.

ghost use Rattle.std.specs.Prelude.{◌≡◌, ◌<◌, ◌++◌, [], IfOk, OnOk, All};
ghost use Rattle.std.specs.Option.{option_map};
ghost use Rattle.std.specs.List.{cons_option, filter_map};
ghost use Rattle.nav_base.specs.Point.{IsCellCorner};
ghost use Rattle.mesh_types.specs.declared.region.PortalEdge.{PortalEdge};
ghost use Rattle.mesh_types.specs.BorderLinks.{scaled};
ghost use Rattle.mesh_types.specs.Doors.{door_link, door_links, link_through};
ghost use Rattle.contour_mesh.specs.Orders.{IsSortOf, door_begins_before, MeetsFacing, JoinsCorners};

use crate::doors::{by_begin, facing};
use mesh_types::{Link, Links, PolyRef, Portal, PortalEdge, order_links};
use nav_base::Point;
use nav_ground::TileNo;
use std::alloc::{AllocError, Global};

/// The links through the doors of a tile, in order: one through each door that faces another.
pub fn door_links(
    alloc: Global,
    doors: &[PortalEdge],
    tile: TileNo,
    polygons: u32,
) -> Result<Links, AllocError>
    requires meet { All (MeetsFacing doors.now) doors.now }
    requires corners { All JoinsCorners doors.now }
    requires polygons { All (λ (door : PortalEdge). door.polygon < polygons) doors.now }
    ensures { IfOk result (λ links. links ≡ door_links tile doors.now) }
{
    let links = links_in_order(alloc, doors, tile)?;
    Links::new(alloc, links, polygons)
}

/// The links as a vector, in order.
fn links_in_order(
    alloc: Global,
    doors: &[PortalEdge],
    tile: TileNo,
) -> Result<Vec<Link>, AllocError>
    requires meet { All (MeetsFacing doors.now) doors.now }
    requires corners { All JoinsCorners doors.now }
    ensures { IfOk result (λ links. links.items ≡ door_links tile doors.now) }
{
    let by_begin = by_begin(alloc, doors)?;
    let mut links = loose_links(alloc, doors, by_begin.as_slice(), tile)?;
    order_links(links.as_mut_slice());
    Ok(links)
}

/// The links door by door.
fn loose_links(
    alloc: Global,
    doors: &[PortalEdge],
    by_begin: &[PortalEdge],
    tile: TileNo,
) -> Result<Vec<Link>, AllocError>
    requires meet { All (MeetsFacing doors.now) doors.now }
    requires corners { All JoinsCorners doors.now }
    requires order { IsSortOf door_begins_before doors.now by_begin.now }
    ensures { IfOk result (λ links. links.items ≡ filter_map (link_through tile doors.now) doors.now) }
{
    let mut links = Vec::new(alloc);
    for door in doors {
        push_link(&mut links, tile, door, facing(by_begin, door))?;
    }
    Ok(links)
}

/// Appends the link from a door to another, if there is one.
fn push_link(
    links: &mut Vec<Link>,
    tile: TileNo,
    door: &PortalEdge,
    other: Option<PortalEdge>,
) -> Result<(), AllocError>
    requires { JoinsCorners door.now }
    ensures { OnOk result (links.new.items ≡ links.old.items ++ cons_option (option_map (door_link tile door.now) other) []) }
{
    if let Some(other) = other {
        links.push(door_link(tile, door, &other))?;
    }
    Ok(())
}

/// The link from a door to another. Its portal is the whole edge.
fn door_link(tile: TileNo, door: &PortalEdge, other: &PortalEdge) -> Link
    requires { JoinsCorners door.now }
    ensures { result ≡ door_link tile door.now other.now }
{
    Link {
        from: PolyRef {
            tile,
            index: door.polygon,
        },
        edge: door.edge,
        to: PolyRef {
            tile,
            index: other.polygon,
        },
        portal: Portal {
            left: sixteenths(door.end),
            right: sixteenths(door.begin),
        },
    }
}

/// A corner of a cell in sixteenths.
fn sixteenths(corner: Point) -> Point
    requires { IsCellCorner corner }
    ensures { result ≡ scaled corner.x corner.z }
{
    Point {
        x: 16 * corner.x,
        z: 16 * corner.z,
    }
}
