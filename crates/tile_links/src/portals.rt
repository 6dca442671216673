//! The link from one rim entry to another along a run of positions, and its portal. Where two rim entries meet: the runs of positions at
//! which each names the other's level.

ghost use Rattle.std.specs.Prelude.{◌≡◌, ◌+◌, ◌<◌, ◌≤◌, pos, ◌≤ℤ◌, All, ◌++◌, [], map, drop, length, OnOk, IfSome, Some};
ghost use Rattle.nav_base.specs.Convex.{corner_at};
ghost use Rattle.mesh_types.specs.BorderLinks.{border_link, line_of, scaled, side_portal, are_meeting, pair_at, meetings};
ghost use Rattle.mesh_types.specs.declared.mesh.RimEdge.{RimEdge};
ghost use Rattle.tile_links.specs.Across.{HasLine, IsNamed, IsOnField, IsWithinField};
ghost use Rattle.std.specs.List.{prefix_len, cons_option};
ghost use Rattle.mesh_types.specs.Runs.{has_label};
ghost use Rattle.tile_links.specs.Loose.{run_at};

use crate::join::Border;
use mesh_types::{
    LabelRun, LevelPair, Link, PolyRef, Polygon, Polygons, Portal, RimEdge, TileMesh,
};
use nav_base::Point;
use std::alloc::AllocError;

/// The link from an entry of a tile on its side of the border to an entry of the tile across, along a run of the first one's positions.
pub fn border_link(border: Border, entry: &RimEdge, other: &RimEdge, run: LabelRun) -> Link
    requires entry { IsNamed border.tile.now entry.now }
    requires line { border.line ≡ line_of border.side border.tile.now.polys entry.now }
    requires run { (run.first ≤ run.last) × (entry.now.first + run.last < 1024) }
    ensures { result ≡ border_link border.entry.tile.now border.entry.across.now border.entry.side entry.now other.now run }
{
    Link {
        from: PolyRef {
            tile: border.tile.tile,
            index: entry.poly,
        },
        edge: entry.edge,
        to: PolyRef {
            tile: border.across.tile,
            index: other.poly,
        },
        portal: side_portal(
            border.side,
            border.line,
            entry.first + run.first,
            entry.first + run.last,
        ),
    }
}

/// Where the edges of a tile's rim along a side lie, in whole cells: x for the sides 0 and 2, z for the sides 1 and 3. The first one tells.
pub fn rim_line(tile: &TileMesh, side: u32) -> i32
    requires { HasLine side tile.now }
    ensures { All (λ (entry : RimEdge). entry.side ≡ side → result ≡ line_of side tile.now.polys entry) tile.now.rim }
{
    for entry in tile.rim.as_slice() {
        if entry.side == side {
            return line_of(side, &tile.polys, entry);
        }
    }
    0
}

/// Where the edge of an entry along a side lies, in whole cells: x for the sides 0 and 2, z for the sides 1 and 3.
fn line_of(side: u32, polys: &Polygons, entry: &RimEdge) -> i32
    ensures { result ≡ line_of side polys.now entry.now }
{
    match polys.get(entry.poly as usize) {
        Some(polygon) => along(side, corner_at(&polygon, entry.edge)),
        None => 0,
    }
}

/// The coordinate of a point that is the same all along a side.
fn along(side: u32, corner: Point) -> i32
    ensures { result ≡ Rattle.tile_links.specs.Across.fixed_of side corner }
{
    match side {
        0 => corner.x,
        1 => corner.z,
        2 => corner.x,
        _ => corner.z,
    }
}

/// The corner of a polygon at a place; the origin where there is no such corner.
fn corner_at(polygon: &Polygon, place: u32) -> Point
    ensures { result ≡ corner_at polygon.now.corners place }
{
    let corners = polygon.corners.as_slice();
    if (place as usize) < corners.len() {
        corners[place as usize]
    } else {
        Point { x: 0, z: 0 }
    }
}

/// The portal through a side that lies at a line, from one position to the end of another. Seen from inside, side 0 runs downward, side 1
/// to the left, side 2 upward and side 3 to the right.
fn side_portal(side: u32, line: i32, first: u32, last: u32) -> Portal
    requires line { IsOnField line }
    requires run { (first ≤ last) × (last < 1024) }
    ensures { result ≡ side_portal side line first last }
{
    let first = first as i32;
    let end = last as i32 + 1;
    match side {
        0 => Portal {
            left: scaled(line, first),
            right: scaled(line, end),
        },
        1 => Portal {
            left: scaled(first, line),
            right: scaled(end, line),
        },
        2 => Portal {
            left: scaled(line, end),
            right: scaled(line, first),
        },
        _ => Portal {
            left: scaled(end, line),
            right: scaled(first, line),
        },
    }
}

/// A point in sixteenths, from whole cells.
fn scaled(x: i32, z: i32) -> Point
    requires x { IsOnField x }
    requires z { IsOnField z }
    ensures { result ≡ scaled x z }
{
    Point {
        x: 16 * x,
        z: 16 * z,
    }
}

/// Appends the link from an entry of a tile on its side of the border to an entry of the tile across along the run of positions where they meet
/// that begins at a place of the entry, if one does.
pub fn push_run_link(
    links: &mut Vec<Link>,
    border: Border,
    entry: &RimEdge,
    other: &RimEdge,
    place: usize,
) -> Result<(), AllocError>
    requires entry { IsNamed border.tile.now entry.now }
    requires line { border.line ≡ line_of border.side border.tile.now.polys entry.now }
    requires there { place < length entry.now.pairs }
    ensures { OnOk result (links.new.items ≡ links.old.items ++ map (border_link border.entry.tile.now border.entry.across.now border.entry.side entry.now other.now)
        (cons_option (run_at entry.now other.now place) [])) }
{
    if let Some(run) = run_from(entry, other, place) {
        links.push(border_link(border, entry, other, run))?;
    }
    Ok(())
}

/// The maximal run of places of an entry where it meets another that begins at a place, if one does. In most places a run goes on, so that is
/// looked at first.
#[tactic(auto, using(crate::proofs::MeetingPlaces::meeting_at))]
fn run_from(entry: &RimEdge, other: &RimEdge, place: usize) -> Option<LabelRun>
    requires inside { IsWithinField entry.now }
    requires there { place < length entry.now.pairs }
    ensures value { result ≡ run_at entry.now other.now place }
    ensures inside { IfSome result (λ run. (run.first ≤ run.last) × (run.last < length entry.now.pairs)) }
{
    if place != 0 && are_met(entry, other, place - 1) {
        return None;
    }
    if !are_met(entry, other, place) {
        return None;
    }
    let more = run_len(entry, other, place + 1);
    Some(LabelRun {
        first: place as u32,
        last: (place + more) as u32,
        label: 0,
    })
}

/// At how many places of an entry, from one on, it meets another without a break.
fn run_len(entry: &RimEdge, other: &RimEdge, first: usize) -> usize
    requires inside { IsWithinField entry.now }
    requires there { first ≤ length entry.now.pairs }
    ensures value { result ≡ prefix_len (has_label 0) (drop first (meetings entry.now other.now)) }
    ensures most { first + result ≤ length entry.now.pairs }
{
    let mut end = first;
    while end < entry.pairs.len() && are_met(entry, other, end) {
        end += 1;
    }
    end - first
}

/// Whether an entry meets another at one of its places.
fn are_met(entry: &RimEdge, other: &RimEdge, place: usize) -> bool
    requires inside { IsWithinField entry.now }
    requires there { place < length entry.now.pairs }
    ensures { result ≡ are_meeting (pair_at entry.now (entry.now.first + place)) (pair_at other.now (entry.now.first + place)) }
{
    let pair = entry.pairs.as_slice()[place];
    match pair_at(other, entry.first + place as u32) {
        Some(across) => are_meeting(pair, across),
        None => false,
    }
}

/// Whether two pairs of levels name each other.
fn are_meeting(a: LevelPair, b: LevelPair) -> bool
    ensures { result ≡ are_meeting (Some a) (Some b) }
{
    a.own == b.other && a.other == b.own
}

/// The levels that an entry has at a position, if it has some there.
fn pair_at(entry: &RimEdge, position: u32) -> Option<LevelPair>
    ensures { result ≡ pair_at entry.now position }
{
    if entry.first <= position {
        entry.pairs.get((position - entry.first) as usize).copied()
    } else {
        None
    }
}
