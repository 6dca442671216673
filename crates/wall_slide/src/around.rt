//! The polygons that a slide looks at.

ghost use Rattle.std.specs.Prelude.{◌≡◌, ◌↔◌, ◌<◌, All, Contains, IfOk, OnOk, IsTrue};
ghost use Rattle.mesh_types.specs.declared.links.PolyRef.{PolyRef};
ghost use Rattle.mesh_types.specs.Soundness.{IsSound};
ghost use Rattle.mesh_place.specs.Nearest.{is_open};
ghost use Rattle.wall_slide.specs.Around.{IsOpen};
ghost use Rattle.mesh_types.specs.Rays.{IsHeldAt};
ghost use Rattle.wall_slide.specs.Slides.{IsPassed, StartsIn};
ghost use Rattle.wall_slide.specs.Gathers.{IsGathered, IsGatheredFor, IsLeading, IsMissed, inner_links, outer_links};

use crate::discs::{Motion, touches};
use crate::questions::Slide;
use mesh_types::{Link, Mesh, PolyRef, holds, poly};
use std::alloc::{AllocError, Global};

/// For how many polygons there is room at first. Most slides look at fewer.
const ROOM: usize = 16;

/// What was gathered for a slide.
#[derive(Drop)]
pub(crate) enum Gathered {
    /// A polygon that the slide looks at and that holds its target.
    Target(PolyRef),
    /// All polygons that it looks at, the start's first, each once.
    All(Vec<PolyRef>),
}

/// The polygons that a slide looks at, as far as one that holds its target; the start's was looked at before.
pub(crate) fn gather(alloc: Global, mesh: &Mesh, asked: &Slide) -> Result<Gathered, AllocError>
    requires sound { IsSound mesh.now }
    requires start { StartsIn mesh.now asked.now }
    ensures { IfOk result (IsGatheredFor mesh.now asked.now) }
{
    let mut list = Vec::with_capacity(alloc, ROOM)?;
    list.push(asked.from.polygon)?;
    let mut next = 0;
    while next < list.len() {
        let at = list[next];
        if is_ending(mesh, asked, at) {
            return Ok(Gathered::Target(at));
        }
        push_passed(mesh, asked, inner(mesh, at), &mut list)?;
        push_passed(mesh, asked, outer(mesh, at), &mut list)?;
        next += 1;
    }
    Ok(Gathered::All(list))
}

/// Whether a polygon other than the start's holds a slide's target.
fn is_ending(mesh: &Mesh, asked: &Slide, at: PolyRef) -> bool
    requires sound { IsSound mesh.now }
    requires start { StartsIn mesh.now asked.now }
    ensures { IsTrue result → IsHeldAt mesh.now asked.now.to at }
{
    if at == asked.from.polygon {
        return false;
    }
    match poly(mesh, at) {
        Some(polygon) => holds(&polygon, asked.to),
        None => false,
    }
}

/// Appends the polygons that those of some links enter that a slide passes, if they are not in the list.
fn push_passed(
    mesh: &Mesh,
    asked: &Slide,
    links: &[Link],
    list: &mut Vec<PolyRef>,
) -> Result<(), AllocError>
    requires sound { IsSound mesh.now }
    requires start { StartsIn mesh.now asked.now }
    requires links { All (IsLeading mesh.now) links.now }
    ensures { OnOk result (IsGathered (IsPassed mesh.now asked.now) links.now list.old.items list.new.items) }
{
    for link in links {
        if is_missed(mesh, asked, list.as_slice(), link) {
            list.push(link.to)?;
        }
    }
    Ok(())
}

/// Whether a slide passes a link that enters a polygon which is not in a list.
fn is_missed(mesh: &Mesh, asked: &Slide, list: &[PolyRef], link: &Link) -> bool
    requires sound { IsSound mesh.now }
    requires start { StartsIn mesh.now asked.now }
    requires link { IsLeading mesh.now link.now }
    ensures { IsTrue result ↔ IsMissed (IsPassed mesh.now asked.now) list.now link.now }
{
    !has(list, link.to) && is_passed(mesh, asked, link)
}

/// Whether a polygon is in a list.
fn has(list: &[PolyRef], at: PolyRef) -> bool
    ensures { IsTrue result ↔ Contains list.now at }
{
    list.contains(&at)
}

/// Whether a slide passes a link: it enters a polygon of an open area, through a portal that touches the disc.
fn is_passed(mesh: &Mesh, asked: &Slide, link: &Link) -> bool
    requires sound { IsSound mesh.now }
    requires start { StartsIn mesh.now asked.now }
    requires link { IsLeading mesh.now link.now }
    ensures { IsTrue result ↔ IsPassed mesh.now asked.now link.now }
{
    let motion = Motion {
        from: asked.from.point,
        to: asked.to,
    };
    touches(motion, link.portal) && enters(mesh, asked.areas, link)
}

/// Whether a link enters a polygon of an open area.
fn enters(mesh: &Mesh, areas: u64, link: &Link) -> bool
    requires sound { IsSound mesh.now }
    ensures { IsTrue result ↔ IsOpen mesh.now areas link.now }
{
    match poly(mesh, link.to) {
        Some(polygon) => is_open(areas, polygon.area),
        None => false,
    }
}

/// Whether an area is open.
fn is_open(areas: u64, area: u32) -> bool
    requires { area < 64 }
    ensures { result ≡ is_open areas area }
{
    (areas >> area) & 1 == 1
}

/// The links that leave a polygon inside its tile.
fn inner(mesh: &Mesh, at: PolyRef) -> &[Link]
    ensures { result.now ≡ inner_links mesh.now at }
{
    match mesh.tiles.get(at.tile as usize) {
        Some(tile) => tile.get().links.leaving(at.index),
        None => &[],
    }
}

/// The links that leave a polygon over its tile's border.
fn outer(mesh: &Mesh, at: PolyRef) -> &[Link]
    ensures { result.now ≡ outer_links mesh.now at }
{
    match mesh.cross.get(at.tile as usize) {
        Some(links) => links.get().leaving(at.index),
        None => &[],
    }
}
