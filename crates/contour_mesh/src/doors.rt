//! The doors of a tile's parts. Which door a door leads to. How doors lie along the sides of a tile.

ghost use Rattle.std.specs.Prelude.{◌≡◌, ◌+◌, ◌<◌, ◌≤◌, ◌++◌, IfOk, OnOk, All, length, ℕ, Option, Some, None, ◌+ℤ◌, ◌≤ℤ◌, ◌<ℤ◌, pos, option_map};
ghost use Rattle.nav_base.specs.Convex.{place_after};
ghost use Rattle.nav_ground.specs.Directions.{number};
ghost use Rattle.mesh_types.specs.Simplified.{IsOutline};
ghost use Rattle.mesh_types.specs.Facets.{facets_in, facets_of};
ghost use Rattle.mesh_types.specs.Doors.{facet_doors, doors_of, door_over, code_between, are_facing, share_places, share_corners, names_region};
ghost use Rattle.contour_mesh.specs.Parts.{IsCutPart, numbered, facet_over};
ghost use Rattle.std.specs.List.{find};
ghost use Rattle.std.specs.List.Sorted.{IsSortedBy};
ghost use Rattle.mesh_types.specs.LinkOrder.{is_point_before, point_cmp};
ghost use Rattle.mesh_types.specs.Ears.{is_same_point};
ghost use Rattle.contour_mesh.specs.Orders.{IsSortOf, door_begins_before, MeetsFacing};
ghost use Rattle.mesh_types.specs.DoorRim.{side_of, is_on_line, point_position, first_position, end_position};
ghost use Rattle.contour_mesh.specs.Sides.{IsFieldWindow, side_along};

use mesh_types::{Code, Outline, PortalEdge, RegionPart};
use nav_base::Point;
use nav_ground::{Direction, Window};
use std::alloc::{AllocError, Global};
use std::cmp::Ordering;

/// The doors of a tile's parts: the edges of the pieces, polygon by polygon.
pub fn doors(alloc: Global, parts: &[RegionPart]) -> Result<Vec<PortalEdge>, AllocError>
    requires parts { All IsCutPart parts.now }
    requires regions { length parts.now ≤ 2000000 }
    requires polygons { length (facets_of parts.now) ≤ 8000000 }
    ensures { IfOk result (λ doors. doors.items ≡ doors_of (facets_of parts.now)) }
{
    let mut doors = Vec::new(alloc);
    let mut polygon = 0;
    for region in 0..parts.len() {
        push_part_doors(&mut doors, polygon, region as u32, &parts[region])?;
        polygon += parts[region].pieces.len() as u32;
    }
    Ok(doors)
}

/// Appends the doors of a part, whose first piece is the polygon with a number.
fn push_part_doors(
    doors: &mut Vec<PortalEdge>,
    first: u32,
    region: u32,
    part: &RegionPart,
) -> Result<(), AllocError>
    requires part { IsCutPart part.now }
    requires few { first + length part.now.pieces ≤ 8000000 }
    ensures { OnOk result (doors.new.items ≡ doors.old.items ++ numbered facet_doors first (facets_in part.now region)) }
{
    let pieces = part.pieces.as_slice();
    for number in 0..pieces.len() {
        let places = pieces[number].corners.as_slice();
        push_piece_doors(doors, first + number as u32, region, &part.outline, places)?;
    }
    Ok(())
}

/// Appends the doors of a piece with these places of an outline.
fn push_piece_doors(
    doors: &mut Vec<PortalEdge>,
    polygon: u32,
    region: u32,
    outline: &Outline,
    places: &[u32],
) -> Result<(), AllocError>
    requires outline { IsOutline outline.now }
    requires places { All (λ place. place < length outline.now.corners) places.now }
    requires most { length places.now ≤ 6 }
    ensures { OnOk result (doors.new.items ≡ doors.old.items ++ facet_doors polygon (facet_over region outline.now places.now)) }
{
    for edge in 0..places.len() {
        doors.push(door_over(polygon, region, outline, places, edge))?;
    }
    Ok(())
}

/// The door over an edge of a piece with these places of an outline.
fn door_over(
    polygon: u32,
    region: u32,
    outline: &Outline,
    places: &[u32],
    edge: usize,
) -> PortalEdge
    requires outline { IsOutline outline.now }
    requires places { All (λ place. place < length outline.now.corners) places.now }
    requires most { length places.now ≤ 6 }
    requires there { edge < length places.now }
    ensures { result ≡ door_over polygon (facet_over region outline.now places.now) edge }
{
    let corners = outline.corners.as_slice();
    let from = places[edge];
    let to = places[place_after(places.len(), edge)];
    PortalEdge {
        polygon,
        edge: edge as u32,
        region,
        from,
        to,
        begin: corners[from as usize],
        end: corners[to as usize],
        code: code_between(outline, from, to),
    }
}

/// The code of an outline's edge from one place to another, where the other is the next.
fn code_between(outline: &Outline, from: u32, to: u32) -> Option<Code>
    requires { from < length outline.now.corners }
    ensures { result ≡ code_between outline.now from to }
{
    if to as usize == place_after(outline.corners.len(), from as usize) {
        outline.codes.get(from as usize).copied()
    } else {
        None
    }
}

/// The place after one, the first after the last.
fn place_after(count: usize, place: usize) -> usize
    requires { place < count }
    ensures value { result ≡ place_after count place }
    ensures there { result < count }
{
    if place + 1 == count { 0 } else { place + 1 }
}

/// Doors in the order of the corners at which they begin, by x and then z; those that begin at one corner stand as they stood.
pub fn by_begin(alloc: Global, doors: &[PortalEdge]) -> Result<Vec<PortalEdge>, AllocError>
    ensures { IfOk result (λ sorted. IsSortOf door_begins_before doors.now sorted.items) }
{
    let mut sorted = Vec::from_slice(alloc, doors)?;
    sorted.sort_by(|a, b| begin_order(a, b))?;
    Ok(sorted)
}

/// Of doors in the order of their beginnings the first that a door faces, if it faces one. Only those that begin where the door ends are
/// looked at.
pub fn facing(by_begin: &[PortalEdge], door: &PortalEdge) -> Option<PortalEdge>
    requires order { IsSortedBy door_begins_before by_begin.now }
    requires meet { MeetsFacing by_begin.now door.now }
    ensures { result ≡ find (are_facing door.now) by_begin.now }
{
    let corner = door.end;
    let first = by_begin.partition_point(|other| begins_ahead(other, corner));
    for place in first..by_begin.len() {
        let other = &by_begin[place];
        if !is_same_point(other.begin, corner) {
            return None;
        }
        if are_facing(door, other) {
            return Some(*other);
        }
    }
    None
}

/// Which of two doors begins first.
fn begin_order(a: &PortalEdge, b: &PortalEdge) -> Ordering
    ensures { result ≡ point_cmp a.now.begin b.now.begin }
{
    point_order(a.begin, b.begin)
}

/// Which of two points comes first: by x, then by z.
fn point_order(a: Point, b: Point) -> Ordering
    ensures { result ≡ point_cmp a b }
{
    a.x.cmp(&b.x).then(a.z.cmp(&b.z))
}

/// Whether a door begins before a corner.
fn begins_ahead(door: &PortalEdge, corner: Point) -> bool
    ensures { result ≡ is_point_before door.now.begin corner }
{
    point_order(door.begin, corner).is_lt()
}

fn is_same_point(a: Point, b: Point) -> bool
    ensures { result ≡ is_same_point a b }
{
    a.x == b.x && a.z == b.z
}

/// Whether two doors face each other.
fn are_facing(a: &PortalEdge, b: &PortalEdge) -> bool
    ensures { result ≡ are_facing a.now b.now }
{
    share_places(a, b) || share_corners(a, b)
}

/// Whether two doors join the same places of one region's outline, in opposite directions.
fn share_places(a: &PortalEdge, b: &PortalEdge) -> bool
    ensures { result ≡ share_places a.now b.now }
{
    a.region == b.region && a.from == b.to && a.to == b.from
}

/// Whether two doors join the same corners in opposite directions, and their codes name each other's regions.
fn share_corners(a: &PortalEdge, b: &PortalEdge) -> bool
    ensures { result ≡ share_corners a.now b.now }
{
    names_region(a.code, b.region)
        && names_region(b.code, a.region)
        && is_same_point(a.begin, b.end)
        && is_same_point(a.end, b.begin)
}

/// Whether a code names a region.
fn names_region(code: Option<Code>, region: u32) -> bool
    ensures { result ≡ names_region code region }
{
    match code {
        Some(Code::Region(id)) => id == region,
        Some(Code::Side(_)) => false,
        Some(Code::Wall) => false,
        None => false,
    }
}

/// The side of the tile on which a door lies, if it lies on one and its code names that.
pub fn side_of(window: &Window, door: &PortalEdge) -> Option<Direction>
    requires { IsFieldWindow window.now }
    ensures { option_map number result ≡ side_of window.now door.now }
{
    match door.code {
        Some(Code::Side(side)) => side_along(window, side, door),
        Some(Code::Region(_)) => None,
        Some(Code::Wall) => None,
        None => None,
    }
}

/// The side of the tile with a number, if there is one and a door lies on it.
fn side_along(window: &Window, side: u32, door: &PortalEdge) -> Option<Direction>
    requires { IsFieldWindow window.now }
    ensures { option_map number result ≡ side_along window.now side door.now }
{
    if side >= 4 {
        return None;
    }
    let along = Direction::of(side);
    if is_on_line(window, along, door.begin) && is_on_line(window, along, door.end) {
        Some(along)
    } else {
        None
    }
}

/// Whether a point lies on the line of a side of the tile.
fn is_on_line(window: &Window, side: Direction, p: Point) -> bool
    requires { IsFieldWindow window.now }
    ensures { result ≡ is_on_line window.now (number side) p }
{
    match side {
        Direction::Left => p.x == window.x0,
        Direction::Above => p.z == line_past(window.z1),
        Direction::Right => p.x == line_past(window.x1),
        Direction::Below => p.z == window.z0,
    }
}

/// The line at which a column of the field ends.
fn line_past(column: i32) -> i32
    requires least { pos 0 ≤ℤ column }
    requires most { column <ℤ pos 1024 }
    ensures { result ≡ column +ℤ pos 1 }
{
    column + 1
}

/// The first of the positions over which a door on a side runs.
pub fn first_position(side: Direction, door: &PortalEdge) -> u32
    ensures { result ≡ first_position (number side) door.now }
{
    match side {
        Direction::Left | Direction::Above => point_position(side, door.end),
        Direction::Right | Direction::Below => point_position(side, door.begin),
    }
}

/// The position before which a door on a side ends.
pub fn end_position(side: Direction, door: &PortalEdge) -> u32
    ensures { result ≡ end_position (number side) door.now }
{
    match side {
        Direction::Left | Direction::Above => point_position(side, door.begin),
        Direction::Right | Direction::Below => point_position(side, door.end),
    }
}

/// The position of a point along a side: z on the sides 0 and 2, x on the sides 1 and 3.
fn point_position(side: Direction, p: Point) -> u32
    ensures { result ≡ point_position (number side) p }
{
    match side {
        Direction::Left | Direction::Right => p.z.unsigned_abs(),
        Direction::Above | Direction::Below => p.x.unsigned_abs(),
    }
}
