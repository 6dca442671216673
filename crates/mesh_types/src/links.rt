//! Links between polygons. Lists of links in which those that leave a polygon are one slice. The one order of links.

ghost use Rattle.std.specs.Prelude.{◌≡◌, ◌<◌, ◌≤◌, ◌+◌, IfOk, length, map, slice_range};
ghost use Rattle.std.specs.List.{count_by};
ghost use Rattle.mesh_types.specs.LinkIndex.{AreOrderedLinks, AreBelow, IsIndexed, is_before_polygon, leaving_of, entered_by, kept_start, starts_of};
ghost use Rattle.std.specs.Ordering.{ordering_then};
ghost use Rattle.mesh_types.specs.LinkOrder.{link_cmp, poly_cmp, point_cmp, ordered_links};

use nav_base::Point;
use nav_ground::TileNo;
use nav_lists::Duplicate;
use std::alloc::{AllocError, Global};
use std::cmp::Ordering;
use std::marker::Model;

/// A polygon by its tile and its place there, from 0.
#[derive(Clone, Copy, PartialEq, Eq)]
pub struct PolyRef {
    /// The tile's number, row by row, from 0.
    pub tile: TileNo,
    /// The polygon's place in its tile, from 0.
    pub index: u32,
}

/// The part of an edge through which a link leads, in sixteenths of a cell. For one who goes through, `left` is on the left hand: it is
/// the part's end in the direction of the edge, and `right` its beginning.
#[derive(Clone, Copy, PartialEq, Eq)]
pub struct Portal {
    pub left: Point,
    pub right: Point,
}

/// A way from one polygon into another over an edge of the first: edge i runs from corner i to the next, from 0.
#[derive(Clone, Copy, PartialEq, Eq)]
pub struct Link {
    /// The polygon that it leaves.
    pub from: PolyRef,
    /// The edge of `from` that it leads over, from 0.
    pub edge: u32,
    /// The polygon that it enters.
    pub to: PolyRef,
    /// In sixteenths of a cell.
    pub portal: Portal,
}

/// The links that leave the polygons of one tile, by the polygon that they leave, seen by contracts as their list. Beside the links stands
/// where those of each polygon begin, so that they are found at once, and which polygons they enter, which is all that a search asks of them.
#[derive(Drop)]
pub struct Links {
    links: Vec<Link>,
    /// A start past the greatest number of 32 bits is kept as that number, and looked for from there on.
    starts: Vec<u32>,
    entered: Vec<PolyRef>,
}

impl Model for Links {
    ghost use Rattle.std.specs.Prelude.{List};
    ghost use Rattle.mesh_types.specs.declared.links.Link.{Link};
    ghost use Rattle.mesh_types.specs.LinkIndex.{AreKept};

    ghost Value = { List Link };

    ghost view = { λ a. a.links.items };

    ghost invariant = { λ a. AreKept a.links.items a.starts.items a.entered.items };
}

impl Links {
    /// A list of links that leave polygons numbered below `polygons`, in order of those numbers.
    pub fn new(alloc: Global, links: Vec<Link>, polygons: u32) -> Result<Links, AllocError>
        requires order { AreOrderedLinks links.items }
        requires within { AreBelow polygons links.items }
        ensures { IfOk result (λ made. made ≡ links.items) }
    {
        let starts = starts(alloc, links.as_slice(), polygons)?;
        let entered = entered(alloc, links.as_slice())?;
        Ok(Links {
            links,
            starts,
            entered,
        })
    }

    /// All links, in order.
    pub fn as_slice(&self) -> &[Link]
        ensures value { result.now ≡ self.now }
        ensures order { AreOrderedLinks self.now }
    {
        self.links.as_slice()
    }

    /// How many links there are.
    pub fn len(&self) -> usize
        ensures { result ≡ length self.now }
    {
        self.links.len()
    }

    /// The links that leave a polygon, in order.
    pub fn leaving(&self, polygon: u32) -> &[Link]
        ensures { result.now ≡ leaving_of polygon self.now }
    {
        let place = polygon as usize;
        if self.starts.len() <= place + 1 {
            return &[];
        }
        let first = start_at(self.links.as_slice(), self.starts.as_slice(), place);
        let end = start_at(self.links.as_slice(), self.starts.as_slice(), place + 1);
        between(self.links.as_slice(), first, end)
    }

    /// The polygons that the links which leave a polygon enter, in order of the links.
    pub fn entered_from(&self, polygon: u32) -> &[PolyRef]
        ensures { result.now ≡ map entered_by (leaving_of polygon self.now) }
    {
        let place = polygon as usize;
        if self.starts.len() <= place + 1 {
            return &[];
        }
        let first = start_at(self.links.as_slice(), self.starts.as_slice(), place);
        let end = start_at(self.links.as_slice(), self.starts.as_slice(), place + 1);
        between(self.entered.as_slice(), first, end)
    }
}

/// The polygons that links enter, in order.
fn entered(alloc: Global, links: &[Link]) -> Result<Vec<PolyRef>, AllocError>
    ensures { IfOk result (λ ends. ends.items ≡ map entered_by links.now) }
{
    links.iter().map(|link| link.to).collect(alloc)
}

/// The elements from one place up to another.
fn between<T>(items: &[T], first: usize, end: usize) -> &[T]
    requires { (first ≤ end) × (end ≤ length items.now) }
    ensures { result.now ≡ slice_range items.now first end }
{
    &items[first..end]
}

/// How many links leave polygons before one.
fn start_at(links: &[Link], starts: &[u32], polygon: usize) -> usize
    requires indexed { IsIndexed links.now starts.now }
    requires there { polygon < length starts.now }
    ensures { result ≡ count_by (is_before_polygon polygon) links.now }
{
    let start = starts[polygon];
    if start < u32::MAX {
        return start as usize;
    }
    start_from(links, start as usize, polygon)
}

/// For each polygon, and the number after the last, how many links leave earlier ones, as they are kept.
fn starts(alloc: Global, links: &[Link], polygons: u32) -> Result<Vec<u32>, AllocError>
    requires { AreOrderedLinks links.now }
    ensures { IfOk result (λ starts. starts.items ≡ starts_of links.now polygons) }
{
    let mut starts = Vec::with_capacity(alloc, polygons as usize + 1)?;
    let mut start = 0;
    for polygon in 0..polygons as usize + 1 {
        start = start_from(links, start, polygon);
        starts.push(kept_start(start))?;
    }
    Ok(starts)
}

/// A start as it is kept.
fn kept_start(start: usize) -> u32
    ensures { result ≡ kept_start start }
{
    start.min(u32::MAX as usize) as u32
}

/// How many links leave polygons before one, of which the first ones are known to.
fn start_from(links: &[Link], known: usize, polygon: usize) -> usize
    requires order { AreOrderedLinks links.now }
    requires known { known ≤ count_by (is_before_polygon polygon) links.now }
    ensures { result ≡ count_by (is_before_polygon polygon) links.now }
{
    let mut start = known;
    while start < links.len() && (links[start].from.index as usize) < polygon {
        start += 1;
    }
    start
}

impl Duplicate for Links {
    fn duplicate(&self, alloc: Global) -> Result<Self, AllocError> {
        Ok(Links {
            links: Vec::from_slice(alloc, self.links.as_slice())?,
            starts: Vec::from_slice(alloc, self.starts.as_slice())?,
            entered: Vec::from_slice(alloc, self.entered.as_slice())?,
        })
    }
}

/// Puts links in order: by the polygon that they leave, then by edge, then by the polygon entered (tile, place), then by the right end and
/// by the left end of the portal (x, then z). It takes no memory.
pub fn order_links(links: &mut [Link])
    ensures { links.new ≡ ordered_links links.old }
{
    links.sort_unstable_by(|a, b| link_order(a, b))
}

/// Which of two links comes first. Most leave two polygons of one tile, so that is looked at first; the rest only where it tells nothing.
fn link_order(a: &Link, b: &Link) -> Ordering
    ensures { result ≡ link_cmp a.now b.now }
{
    if a.from.index != b.from.index && a.from.tile == b.from.tile {
        return a.from.index.cmp(&b.from.index);
    }
    let left = poly_order(a.from, b.from).then(a.edge.cmp(&b.edge));
    match left {
        Ordering::Equal => entered_order(a, b),
        _ => left,
    }
}

/// Which of two links comes first by the polygon entered and then by the portal.
fn entered_order(a: &Link, b: &Link) -> Ordering
    ensures { result ≡ ordering_then (poly_cmp a.now.to b.now.to)
        (ordering_then (point_cmp a.now.portal.right b.now.portal.right) (point_cmp a.now.portal.left b.now.portal.left)) }
{
    let portal = point_order(a.portal.right, b.portal.right).then(point_order(
        a.portal.left,
        b.portal.left,
    ));
    poly_order(a.to, b.to).then(portal)
}

fn poly_order(a: PolyRef, b: PolyRef) -> Ordering
    ensures { result ≡ poly_cmp a b }
{
    a.tile.cmp(&b.tile).then(a.index.cmp(&b.index))
}

fn point_order(a: Point, b: Point) -> Ordering
    ensures { result ≡ point_cmp a b }
{
    a.x.cmp(&b.x).then(a.z.cmp(&b.z))
}
