//! Regions of strips, and the contours of regions. Outlines of regions, and the pieces into which they are cut. Strips of cells. Maximal
//! runs of places with one label. Parts of a tile's mesh by the outlines of its regions, and the edges of their polygons.

ghost use Rattle.std.specs.Prelude.{◌≡◌, ◌≤◌, ◌<◌, ◌+◌, ◌^◌, ◌++◌, IfOk, OnOk, length, slice_index_or, None, []};
ghost use Rattle.std.specs.List.{prefix_len, cons_option};
ghost use Rattle.mesh_types.specs.Runs.{has_label, run_with, runs_of};

use nav_base::Point;
use nav_lists::{Duplicate, Items};
use std::alloc::{AllocError, Global};

/// A maximal chain of strips of one area, row by row, each joined to the next. Its strips stand in rising order of their rows.
#[derive(Drop)]
pub struct Region {
    /// By rising row.
    pub strips: Items<Strip>,
}

/// The regions of a tile, numbered from 0 in the order of their first strips.
#[derive(Drop)]
pub struct Regions {
    /// By number.
    pub regions: Items<Region>,
}

/// What a cell at a region's rim meets on the other side of its edge.
#[derive(Clone, Copy, PartialEq, Eq, Debug)]
pub enum Code {
    /// Nothing that it is connected to.
    Wall,
    /// A free cell of the region of this number in the same tile.
    Region(u32),
    /// A kept cell of the tile across in this direction: 0 is x - 1, 1 is z + 1, 2 is x + 1, 3 is z - 1.
    Side(u32),
}

/// One edge of one cell at a region's rim, in whole cells, directed so that the cell lies on its left.
#[derive(Clone, Copy)]
pub struct UnitEdge {
    /// Where it begins.
    pub from: Point,
    /// Where it ends, one cell on.
    pub to: Point,
    /// What lies on its right.
    pub code: Code,
}

/// A simplified contour: the corners that were kept, in whole cells and in the contour's order, and for each corner the code of the
/// edge that begins there.
#[derive(PartialEq, Eq, Drop)]
pub struct Outline {
    /// In whole cells; the region's cells lie on the left of each edge.
    pub corners: Items<Point>,
    /// As many as corners: what lies over the edge from this corner to the next.
    pub codes: Items<Code>,
}

/// What simplifying a contour comes to.
#[derive(PartialEq, Eq, Drop)]
pub enum Simplified {
    /// Fewer than three corners are left.
    Flat,
    Outline(Outline),
}

/// Three places of an outline, counterclockwise.
#[derive(Clone, Copy, PartialEq, Eq)]
pub struct Triangle {
    /// Each a place of the outline's corners, from 0.
    pub a: u32,
    pub b: u32,
    pub c: u32,
}

/// A strictly convex part of an outline: the places of its 3 to 6 corners, counterclockwise.
#[derive(Drop)]
pub struct Piece {
    /// Places of the outline's corners, from 0.
    pub corners: Items<u32>,
}

/// A maximal run of free cells of one area in one row, with successive x, each connected to the next.
#[derive(Drop)]
pub struct Strip {
    /// The row, in cells.
    pub z: u32,
    /// The first column, in cells.
    pub x0: u32,
    /// The last column, which is of the strip.
    pub x1: u32,
    /// The level of each cell in its column, counted from the bottom, 0; from the first column on.
    pub levels: Items<u32>,
    /// The area of its cells, 1 to 63.
    pub area: u32,
}

impl Duplicate for Strip {
    fn duplicate(&self, alloc: Global) -> Result<Self, AllocError> {
        Ok(Strip {
            z: self.z,
            x0: self.x0,
            x1: self.x1,
            levels: self.levels.duplicate(alloc)?,
            area: self.area,
        })
    }
}

/// A maximal run of successive places that have one label, from the first to the last.
#[derive(Clone, Copy, PartialEq, Eq)]
pub struct LabelRun {
    /// The place of the first, from 0.
    pub first: u32,
    /// The place of the last, which is of the run.
    pub last: u32,
    pub label: u32,
}

/// The maximal runs of places with one label, in order. A place may have no label.
#[tactic(auto, unfolding(crate::specs::Runs::runs_of))]
pub fn runs(alloc: Global, labels: &[Option<u32>]) -> Result<Vec<LabelRun>, AllocError>
    requires { length labels.now < 2 ^ 32 }
    ensures { IfOk result (λ runs. runs.items ≡ runs_of labels.now) }
{
    let mut runs = Vec::new(alloc);
    for place in 0..labels.len() {
        push_some(&mut runs, run_from(labels, place))?;
    }
    Ok(runs)
}

/// Appends a run, if there is one.
fn push_some(runs: &mut Vec<LabelRun>, run: Option<LabelRun>) -> Result<(), AllocError>
    ensures { OnOk result (runs.new.items ≡ runs.old.items ++ cons_option run []) }
{
    if let Some(run) = run {
        runs.push(run)?;
    }
    Ok(())
}

/// The maximal run that begins at a place, if one does.
fn run_from(labels: &[Option<u32>], place: usize) -> Option<LabelRun>
    requires few { length labels.now < 2 ^ 32 }
    requires there { place < length labels.now }
    ensures { result ≡ run_with labels.now place (slice_index_or labels.now place None) }
{
    let label = labels[place]?;
    if place != 0 && labels[place - 1] == Some(label) {
        return None;
    }
    let more = run_len(&labels[place + 1..], label);
    Some(LabelRun {
        first: place as u32,
        last: (place + more) as u32,
        label,
    })
}

/// How many places from the first on have a label.
fn run_len(labels: &[Option<u32>], label: u32) -> usize
    ensures value { result ≡ prefix_len (has_label label) labels.now }
    ensures most { result ≤ length labels.now }
{
    let mut len = 0;
    while len < labels.len() && labels[len] == Some(label) {
        len += 1;
    }
    len
}

/// What a region adds to the mesh of its tile: its outline, and the pieces into which that is cut, each a polygon of the tile.
#[derive(Drop)]
pub struct RegionPart {
    /// In whole cells.
    pub outline: Outline,
    /// By places of the outline, from 0.
    pub pieces: Items<Piece>,
}

/// An edge of a polygon of a tile, as what may lead out of the polygon.
#[derive(Clone, Copy)]
pub struct PortalEdge {
    /// The polygon's place in the tile, and the edge's place in the polygon.
    pub polygon: u32,
    pub edge: u32,
    /// The region of the polygon.
    pub region: u32,
    /// The places in the region's outline at which the edge begins and ends.
    pub from: u32,
    pub to: u32,
    /// The corners at these places, in whole cells.
    pub begin: Point,
    pub end: Point,
    /// The code of the edge where it is one of the outline, from a place to the next.
    pub code: Option<Code>,
}
