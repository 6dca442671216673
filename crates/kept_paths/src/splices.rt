//! Walks that follow each other, joined without the loops that they make together.

ghost use Rattle.std.specs.Prelude.{◌≡◌, ◌++◌, IfOk, IfSome, IfNone, take, drop};
ghost use Rattle.mesh_types.specs.declared.links.PolyRef as polygons;
ghost use Rattle.mesh_types.specs.declared.mesh.Mesh as meshes;
ghost use Rattle.mesh_types.specs.Corridors.{WalksTo};
ghost use Rattle.kept_paths.specs.Splices.{IsMeeting, StandsAt, StandsNowhere};

use crate::rests::is_same;
use mesh_types::{Link, PolyRef};
use std::alloc::{AllocError, Global};

/// What a repaired path is made of: kept links, a bridge, and the rest.
#[derive(Clone, Copy)]
pub(crate) struct Parts<'a> {
    pub(crate) kept: &'a [Link],
    pub(crate) bridge: &'a [Link],
    pub(crate) rest: &'a [Link],
}

/// The first of some links, no more than a number.
pub(crate) fn first_links(links: &[Link], most: usize) -> &[Link]
    ensures { result.now ≡ take most links.now }
{
    &links[..most.min(links.len())]
}

/// The polygon to which links lead from a first one.
pub(crate) fn end_of(first: PolyRef, links: &[Link]) -> PolyRef
    ensures { (mesh : meshes.Mesh) (to : polygons.PolyRef) → WalksTo mesh first links.now to → result ≡ to }
{
    match links.last() {
        Some(link) => link.to,
        None => first,
    }
}

/// Two walks as one: of the first so many links, and the second without so many.
#[derive(Drop)]
pub(crate) struct Spliced {
    pub(crate) links: Vec<Link>,
    pub(crate) taken: usize,
    pub(crate) dropped: usize,
}

/// Two walks that follow each other, the second of which leads to a last polygon, as one: where the first comes to a polygon in which the
/// second stands again, it goes on from there.
pub(crate) fn splice(
    alloc: Global,
    links: &[Link],
    more: &[Link],
    last: PolyRef,
) -> Result<Spliced, AllocError>
    ensures meeting { IfOk result (λ made. IsMeeting links.now more.now last made.taken made.dropped) }
    ensures links { IfOk result (λ made. made.links.items ≡ take made.taken links.now ++ drop made.dropped more.now) }
{
    let meeting = first_meeting(links, more, last);
    let taken = meeting.taken;
    let dropped = meeting.dropped;
    let mut all = Vec::new(alloc);
    all.extend_from_slice(&links[..taken])?;
    all.extend_from_slice(&more[dropped..])?;
    Ok(Spliced {
        links: all,
        taken,
        dropped,
    })
}

/// Where two walks meet first, in links of each.
#[derive(Clone, Copy)]
struct Meeting {
    taken: usize,
    dropped: usize,
}

/// Where a walk comes first to a polygon in which the next one stands.
fn first_meeting(links: &[Link], more: &[Link], last: PolyRef) -> Meeting
    ensures { IsMeeting links.now more.now last result.taken result.dropped }
{
    for (taken, link) in links.iter().enumerate() {
        if let Some(dropped) = place_of(more, last, link.from) {
            return Meeting { taken, dropped };
        }
    }
    Meeting {
        taken: links.len(),
        dropped: 0,
    }
}

/// Behind how many links of a walk to a last polygon it stands first in a polygon.
fn place_of(links: &[Link], last: PolyRef, at: PolyRef) -> Option<usize>
    ensures some { IfSome result (λ place. StandsAt links.now last at place) }
    ensures none { IfNone result (StandsNowhere links.now last at) }
{
    for (place, link) in links.iter().enumerate() {
        if is_same(link.from, at) {
            return Some(place);
        }
    }
    if is_same(last, at) {
        return Some(links.len());
    }
    None
}
