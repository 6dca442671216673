//! The links between the strips of a tile. Corners of rectangles, and portals over their edges.

ghost use Rattle.std.specs.Prelude.{◌≡◌, ◌<◌, ◌≤◌, ◌+◌, ◌++◌, [], None, IfOk, OnOk, drop, get_or, length, map};
ghost use Rattle.std.specs.List.{cons_option, flat_map, prefix_len, range_with_len};
ghost use Rattle.mesh_types.specs.Runs.{has_label};
ghost use Rattle.mesh_types.specs.StripLinks.{strip_link, strip_links, strip_links_over, outside_of, edge_portal};
ghost use Rattle.strip_mesh.specs.Indexed.{AreIndexed, runs_in, run_in};
ghost use Rattle.strip_mesh.specs.Strips.{MeetsOthersAt, behind, part_with, strips_over};
ghost use Rattle.mesh_types.specs.StripPolygons.{corner, sixteenths};

use crate::tile_strips::{TileStrips, outside_of};
use mesh_types::{LabelRun, Link, Links, PolyRef, Portal, order_links};
use nav_base::Point;
use std::alloc::{AllocError, Global};

/// The links between the strips of a tile, in order: over each edge one for each maximal run of columns whose cells are connected to cells
/// of one other strip.
pub fn inner_links(alloc: Global, strips: &TileStrips) -> Result<Links, AllocError>
    requires { AreIndexed strips.now }
    ensures { IfOk result (λ links. links ≡ strip_links strips.now.free.tile (runs_in strips.now)) }
{
    let mut links = links(alloc, strips)?;
    order_links(links.as_mut_slice());
    Links::new(alloc, links, strips.count())
}

/// The links strip by strip and edge by edge.
fn links(alloc: Global, strips: &TileStrips) -> Result<Vec<Link>, AllocError>
    requires { AreIndexed strips.now }
    ensures { IfOk result (λ links. links.items
        ≡ flat_map (λ s. flat_map (strip_links_over strips.now.free.tile (runs_in strips.now) s) (range_with_len 0 4)) (range_with_len 0 (length (runs_in strips.now)))) }
{
    let mut links = Vec::new(alloc);
    for strip in 0..strips.count() {
        let one = OneStrip { strips, strip };
        push_links(one, &mut links)?;
    }
    Ok(links)
}

/// One of the strips of a tile.
#[derive(Clone, Copy)]
struct OneStrip<'a> {
    strips: &'a TileStrips,
    strip: u32,
}

/// Appends the links from a strip.
fn push_links(one: OneStrip, links: &mut Vec<Link>) -> Result<(), AllocError>
    requires rules { AreIndexed one.strips.now }
    requires there { one.strip < length (runs_in one.strips.now) }
    ensures { OnOk result (links.new.items
        ≡ links.old.items ++ flat_map (strip_links_over one.entry.strips.now.free.tile (runs_in one.entry.strips.now) one.entry.strip) (range_with_len 0 4)) }
{
    for edge in 0..4 {
        push_links_over(one, edge, links)?;
    }
    Ok(())
}

/// Appends the links over an edge of a strip. Along its row a strip meets others with its ends alone.
fn push_links_over(one: OneStrip, edge: u32, links: &mut Vec<Link>) -> Result<(), AllocError>
    requires rules { AreIndexed one.strips.now }
    requires there { one.strip < length (runs_in one.strips.now) }
    requires edge { edge < 4 }
    ensures { OnOk result (links.new.items ≡ links.old.items ++ strip_links_over one.entry.strips.now.free.tile (runs_in one.entry.strips.now) one.entry.strip edge) }
{
    match edge {
        1 => {
            let last = one.strips.run(one.strip).len() - 1;
            push_end_link(one, edge, last as u32, links)
        }
        3 => push_end_link(one, edge, 0, links),
        _ => push_links_along(one, edge, links),
    }
}

/// Appends the link over an edge of a strip at one of its cells, if that is connected to another strip; no other cell is.
fn push_end_link(
    one: OneStrip,
    edge: u32,
    place: u32,
    links: &mut Vec<Link>,
) -> Result<(), AllocError>
    requires rules { AreIndexed one.strips.now }
    requires there { one.strip < length (runs_in one.strips.now) }
    requires edge { edge < 4 }
    requires place { place < length (run_in one.strips.now one.strip) }
    requires alone { MeetsOthersAt (runs_in one.strips.now) one.strip (outside_of edge) place }
    ensures { OnOk result (links.new.items ≡ links.old.items ++ strip_links_over one.entry.strips.now.free.tile (runs_in one.entry.strips.now) one.entry.strip edge) }
{
    let run = one.strips.run(one.strip);
    let dir = outside_of(edge);
    if let Some(label) = one.strips.beyond(one.strip, dir, run[place as usize]) {
        let end = LabelRun {
            first: place,
            last: place,
            label,
        };
        links.push(link(one.strips, one.strip, edge, end))?;
    }
    Ok(())
}

/// Appends the links over an edge of a strip, along all of it: from a cell on, the cells that are connected to the same strip are passed at
/// once.
fn push_links_along(one: OneStrip, edge: u32, links: &mut Vec<Link>) -> Result<(), AllocError>
    requires rules { AreIndexed one.strips.now }
    requires there { one.strip < length (runs_in one.strips.now) }
    requires edge { edge < 4 }
    ensures { OnOk result (links.new.items ≡ links.old.items ++ strip_links_over one.entry.strips.now.free.tile (runs_in one.entry.strips.now) one.entry.strip edge) }
{
    let count = one.strips.run(one.strip).len();
    let mut place = 0;
    while place < count {
        let label = beyond_at(one, edge, place);
        let end = end_of(one, edge, place, label);
        push_part_link(one, edge, (place, end), label, links)?;
        place = end;
    }
    Ok(())
}

/// The strip that lies beyond an edge of a strip at one of its cells.
fn beyond_at(one: OneStrip, edge: u32, place: usize) -> Option<u32>
    requires rules { AreIndexed one.strips.now }
    requires there { one.strip < length (runs_in one.strips.now) }
    requires edge { edge < 4 }
    requires place { place < length (run_in one.strips.now one.strip) }
    ensures { result ≡ get_or (strips_over (runs_in one.entry.strips.now) one.entry.strip edge) place None }
{
    let run = one.strips.run(one.strip);
    one.strips.beyond(one.strip, outside_of(edge), run[place])
}

/// The place behind that of a cell, and behind those that follow it and are connected to the same strip, which is given.
fn end_of(one: OneStrip, edge: u32, place: usize, label: Option<u32>) -> usize
    requires rules { AreIndexed one.strips.now }
    requires there { one.strip < length (runs_in one.strips.now) }
    requires edge { edge < 4 }
    requires place { place < length (run_in one.strips.now one.strip) }
    ensures value { result ≡ behind (strips_over (runs_in one.entry.strips.now) one.entry.strip edge) place label }
    ensures most { result ≤ length (run_in one.entry.strips.now one.entry.strip) }
{
    match label {
        Some(label) => same_until(one, edge, place + 1, label),
        None => place + 1,
    }
}

/// The first place from one on at which a cell is not connected to a given strip.
fn same_until(one: OneStrip, edge: u32, from: usize, label: u32) -> usize
    requires rules { AreIndexed one.strips.now }
    requires there { one.strip < length (runs_in one.strips.now) }
    requires edge { edge < 4 }
    requires from { from ≤ length (run_in one.strips.now one.strip) }
    ensures value { result ≡ from + prefix_len (has_label label) (drop from (strips_over (runs_in one.entry.strips.now) one.entry.strip edge)) }
    ensures most { result ≤ length (run_in one.entry.strips.now one.entry.strip) }
{
    let count = one.strips.run(one.strip).len();
    let mut end = from;
    while end < count && is_beyond(one, edge, end, label) {
        end += 1;
    }
    end
}

/// Whether a given strip lies beyond an edge of a strip at one of its cells.
fn is_beyond(one: OneStrip, edge: u32, place: usize, label: u32) -> bool
    requires rules { AreIndexed one.strips.now }
    requires there { one.strip < length (runs_in one.strips.now) }
    requires edge { edge < 4 }
    requires place { place < length (run_in one.strips.now one.strip) }
    ensures { result ≡ has_label label (get_or (strips_over (runs_in one.entry.strips.now) one.entry.strip edge) place None) }
{
    match beyond_at(one, edge, place) {
        Some(own) => own == label,
        None => false,
    }
}

/// Appends the link over an edge of a strip from one place up to another, if a strip lies beyond them.
fn push_part_link(
    one: OneStrip,
    edge: u32,
    part: (usize, usize),
    label: Option<u32>,
    links: &mut Vec<Link>,
) -> Result<(), AllocError>
    requires rules { AreIndexed one.strips.now }
    requires there { one.strip < length (runs_in one.strips.now) }
    requires order { part.0 < part.1 }
    requires inside { part.1 ≤ length (run_in one.strips.now one.strip) }
    ensures { OnOk result (links.new.items ≡ links.old.items
        ++ map (strip_link one.entry.strips.now.free.tile (run_in one.entry.strips.now one.entry.strip) one.entry.strip edge) (cons_option (part_with part.0 part.1 label) [])) }
{
    if let Some(label) = label {
        let run = LabelRun {
            first: part.0 as u32,
            last: (part.1 - 1) as u32,
            label,
        };
        links.push(link(one.strips, one.strip, edge, run))?;
    }
    Ok(())
}

/// The link over an edge of a strip along a run of its cells.
fn link(strips: &TileStrips, strip: u32, edge: u32, part: LabelRun) -> Link
    requires rules { AreIndexed strips.now }
    requires there { strip < length (runs_in strips.now) }
    requires first { part.first < 3000000 }
    requires last { part.last < 3000000 }
    ensures { result ≡ strip_link strips.now.free.tile (run_in strips.now strip) strip edge part }
{
    let tile = strips.free.tile;
    let at = strips.first(strip).at();
    Link {
        from: PolyRef { tile, index: strip },
        edge,
        to: PolyRef {
            tile,
            index: part.label,
        },
        portal: edge_portal(edge, at.x + part.first, at.x + part.last, at.z),
    }
}

/// A corner, in whole cells.
pub fn corner(x: u32, z: u32) -> Point
    requires x { x < 67108864 }
    requires z { z < 67108864 }
    ensures { result ≡ corner x z }
{
    Point {
        x: x as i32,
        z: z as i32,
    }
}

/// The same point in sixteenths of a cell.
fn sixteenths(x: u32, z: u32) -> Point
    requires x { x < 4194304 }
    requires z { z < 4194304 }
    ensures { result ≡ sixteenths x z }
{
    corner(16 * x, 16 * z)
}

/// The portal over an edge of a row z along the columns x0 to x1.
pub fn edge_portal(edge: u32, x0: u32, x1: u32, z: u32) -> Portal
    requires x0 { x0 < 4000000 }
    requires x1 { x1 < 4000000 }
    requires z { z < 1024 }
    ensures { result ≡ edge_portal edge x0 x1 z }
{
    match edge {
        0 => Portal {
            left: sixteenths(x1 + 1, z),
            right: sixteenths(x0, z),
        },
        1 => Portal {
            left: sixteenths(x1 + 1, z + 1),
            right: sixteenths(x1 + 1, z),
        },
        2 => Portal {
            left: sixteenths(x0, z + 1),
            right: sixteenths(x1 + 1, z + 1),
        },
        _ => Portal {
            left: sixteenths(x0, z),
            right: sixteenths(x0, z + 1),
        },
    }
}
