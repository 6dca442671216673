//! Walkers that march. The links that a march passes, and those that are left. The end of a march: the part of the next leg that is still
//! gone.

ghost use Rattle.std.specs.Prelude.{◌≡◌, ◌<◌, ◌^◌, IfOk, IfSome, ◌≤◌, All, drop, length, take, ◌-◌, slice_range};
ghost use Rattle.nav_base.specs.Point.{HasCoordinates};
ghost use Rattle.nav_ground.specs.Limits.{IsSetting};
ghost use Rattle.mesh_types.specs.Right.{IsPath};
ghost use Rattle.mesh_types.specs.Soundness.{IsSound};
ghost use Rattle.agent_walks.specs.Marches.{IsMarched, polygons_of, EndsFrom, TakesPart};
ghost use Rattle.agent_walks.specs.Walkers.{IsUnderWay, IsWalker, walker_of};
ghost use Rattle.mesh_types.specs.Corridors.{IsLinkOf, cost_of};
ghost use Rattle.surface_move.specs.Moves.{nth_polygon, leg_of};
ghost use Rattle.mesh_types.specs.Rays.{IsHeldAt};
ghost use Rattle.agent_walks.specs.Standings.{ArePolygons, EndsAt, IsLine, IsStop, StandsAt, stand_of};
ghost use Rattle.mesh_types.specs.declared.links.PolyRef as references;

use crate::sending::walker_at;
use crate::walkers::{MarchEnd, Place, Standing, WalkLine, Walker, floor_of, past_corners};
use corridor_search::weight_over;
use mesh_types::{Answer, Corner, Link, Mesh, PathFound, PolyRef, WalkAnswer};
use nav_base::{Point, Question};
use nav_lists::Items;
use nav_query::answer;
use std::alloc::{AllocError, Global};
use surface_move::{leg, part};

/// Lets a walker march for a length, 0 or more sixteenths of a cell, in the mesh of a history of length k: the answer, and the walker as it is
/// after, exactly where the answer is that it walks. Its way is found anew. Where memory is refused, the walker is gone.
pub fn march_in(
    alloc: Global,
    mesh: &Mesh,
    k: u32,
    walker: Walker,
    length: u32,
) -> Result<(Option<Walker>, WalkAnswer), AllocError>
    requires sound { IsSound mesh.now }
    requires setting { IsSetting mesh.now.setting }
    requires walker { IsWalker walker }
    ensures marched { IfOk result (λ told. IsMarched mesh.now walker.point walker.y walker.goal walker.goal_y length told.1) }

    // The polygon named holds the walker's point, and its links are a cheapest walk from there to the goal's polygon.
    ensures way { IfOk result (λ told. IsUnderWay mesh.now walker.goal walker.goal_y told.1) }
    ensures walker { IfOk result (λ told. told.0 ≡ walker_of k walker.goal walker.goal_y told.1) }

    // So it may march on.
    ensures may_march { IfOk result (λ told. IfSome told.0 IsWalker) }
{
    let from = Place {
        point: walker.point,
        y: walker.y,
    };
    let goal = Place {
        point: walker.goal,
        y: walker.goal_y,
    };
    let answer = marched(alloc, mesh, from, goal, length)?;
    let after = walker_at(alloc, k, goal, &answer)?;
    Ok((after, answer))
}

/// What a walker is answered that marches for a length from a place toward a goal.
pub fn marched(
    alloc: Global,
    mesh: &Mesh,
    from: Place,
    goal: Place,
    length: u32,
) -> Result<WalkAnswer, AllocError>
    requires sound { IsSound mesh.now }
    requires setting { IsSetting mesh.now.setting }
    requires from { HasCoordinates from.point }
    requires goal { HasCoordinates goal.point }
    ensures marched { IfOk result (λ answer. IsMarched mesh.now from.point from.y goal.point goal.y length answer) }
    ensures way { IfOk result (λ answer. IsUnderWay mesh.now goal.point goal.y answer) }
{
    let question = Question::Path {
        from: from.point,
        from_y: from.y,
        to: goal.point,
        to_y: goal.y,
    };
    match answer(alloc, mesh, &question)? {
        Answer::Path(found) => along(alloc, mesh, March { from, goal, length }, found),
        Answer::NoStart => Ok(WalkAnswer::NoStart),
        Answer::NoGoal => Ok(WalkAnswer::NoGoal),
        Answer::NoPath => Ok(WalkAnswer::NoPath),
        Answer::Floors(_) | Answer::Reached(_) | Answer::Wall { .. } => unreachable!(),
    }
}

/// A march: where it begins, where it goes to, and how far it gets at most.
#[derive(Clone, Copy)]
struct March {
    from: Place,
    goal: Place,
    length: u32,
}

/// What it is answered where a path was found.
fn along(
    alloc: Global,
    mesh: &Mesh,
    march: March,
    found: PathFound,
) -> Result<WalkAnswer, AllocError>
    requires sound { IsSound mesh.now }
    requires setting { IsSetting mesh.now.setting }
    requires path { IsPath mesh.now march.from.point march.from.y march.goal.point march.goal.y found }
    requires cost { found.cost < 2 ^ 45 }
    ensures marched { IfOk result (λ answer. IsMarched mesh.now march.from.point march.from.y march.goal.point march.goal.y march.length answer) }
    ensures way { IfOk result (λ answer. IsUnderWay mesh.now march.goal.point march.goal.y answer) }
{
    let links = found.links.as_slice();
    let corners = found.turns.as_slice();
    let line = WalkLine {
        first: found.first,
        links,
        point: march.from.point,
        goal: march.goal.point,
        corners,
    };
    let stop = stop_along(alloc, mesh, line, march.length)?;
    let place = stop.place as usize;
    let at = nth_polygon(found.first, links, place);
    let y = floor_of(mesh, at);
    let passed = cost(mesh, first_links(links, place));
    let left = links_from(alloc, links, place)?;
    Ok(WalkAnswer::Walking {
        at,
        point: stop.point,
        y,
        cost: found.cost - passed,
        links: left,
    })
}

/// The polygon at a place of a corridor: its first, or that which the link before the place enters.
pub(crate) fn nth_polygon(first: PolyRef, links: &[Link], place: usize) -> PolyRef
    requires { place ≤ length links.now }
    ensures { result ≡ nth_polygon (polygons_of first links.now) place }
{
    if place == 0 {
        return first;
    }
    links[place - 1].to
}

/// The links before a place.
pub(crate) fn first_links(links: &[Link], place: usize) -> &[Link]
    requires { place ≤ length links.now }
    ensures { result.now ≡ take place links.now }
{
    &links[..place]
}

/// What links cost together.
pub(crate) fn cost(mesh: &Mesh, links: &[Link]) -> u64
    requires sound { IsSound mesh.now }
    requires setting { IsSetting mesh.now.setting }
    requires links { All (IsLinkOf mesh.now) links.now }
    requires small { cost_of mesh.now links.now < 2 ^ 64 }
    ensures { result ≡ cost_of mesh.now links.now }
{
    let mut cost = 0;
    for link in links {
        cost += weight_over(mesh, link);
    }
    cost
}

/// The links from a place on.
pub(crate) fn links_from(
    alloc: Global,
    links: &[Link],
    place: usize,
) -> Result<Items<Link>, AllocError>
    requires { place ≤ length links.now }
    ensures { IfOk result (λ left. left ≡ drop place links.now) }
{
    Ok(Items::from_vec(Vec::from_slice(alloc, &links[place..])?))
}

/// Where a march ends that goes along a line for a length.
pub(crate) fn stop_along(
    alloc: Global,
    mesh: &Mesh,
    way: WalkLine<'_>,
    length: u32,
) -> Result<MarchEnd, AllocError>
    requires sound { IsSound mesh.now }
    requires line { (last : references.PolyRef) × IsLine mesh.now way.first last way.links.now way.point way.goal way.corners.now }
    ensures { IfOk result (λ stop. EndsAt mesh.now way.entry.first way.entry.links.now way.entry.point way.entry.goal length way.entry.corners.now stop) }
{
    let polys = polygons(alloc, way.first, way.links)?;
    let standing = past_corners(way.point, length, way.corners);
    Ok(stop_from(mesh, polys.as_slice(), way.goal, standing, way.corners))
}

/// The polygons of a corridor: the first, and those that its links enter.
fn polygons(alloc: Global, first: PolyRef, links: &[Link]) -> Result<Vec<PolyRef>, AllocError>
    ensures { IfOk result (λ polys. polys.items ≡ polygons_of first links.now) }
{
    let mut polys = Vec::with_capacity(alloc, links.len() + 1)?;
    polys.push(first)?;
    for link in links {
        polys.push(link.to)?;
    }
    Ok(polys)
}

/// Where a walker stops that goes on from where it stands on a line: at the goal where it may go so far, else part of the way to the next corner
/// or to the goal.
fn stop_from(
    mesh: &Mesh,
    polys: &[PolyRef],
    goal: Point,
    standing: Standing,
    corners: &[Corner],
) -> MarchEnd
    requires sound { IsSound mesh.now }
    requires polys { ArePolygons mesh.now polys.now }
    requires goal { IsHeldAt mesh.now goal (nth_polygon polys.now (length polys.now - 1)) }
    requires stands { StandsAt mesh.now polys.now corners.now standing }
    ensures ends { EndsFrom mesh.now polys.now goal (stand_of corners.now standing) (drop standing.passed corners.now) result.place result.point }
    ensures stops { IsStop mesh.now polys.now result }
{
    if standing.passed < corners.len() {
        let corner = corners[standing.passed];
        let upto = standing.place.max(corner.portal) as usize;
        return part_way(mesh, polys, standing, corner.at, upto);
    }
    let last = polys.len() - 1;
    if leg(standing.point, goal) <= standing.budget {
        return MarchEnd {
            point: goal,
            place: last as u32,
        };
    }
    part_way(mesh, polys, standing, goal, last)
}

/// Where it stops on the way to a point that it does not reach: at the end of the part of that way that leads through the polygons from its own up
/// to another; where there is no such part, where it stands.
fn part_way(
    mesh: &Mesh,
    polys: &[PolyRef],
    standing: Standing,
    toward: Point,
    upto: usize,
) -> MarchEnd
    requires sound { IsSound mesh.now }
    requires polys { ArePolygons mesh.now polys.now }
    requires held { IsHeldAt mesh.now standing.point (nth_polygon polys.now standing.place) }
    requires order { standing.place ≤ upto }
    requires upto { upto < length polys.now }
    requires toward { HasCoordinates toward }
    requires beyond { standing.budget < leg_of standing.point toward }
    ensures takes { TakesPart mesh.now polys.now standing.point standing.place standing.budget toward upto result.place result.point }
    ensures stops { IsStop mesh.now polys.now result }
{
    let ahead = between(polys, standing.place as usize, upto + 1);
    match part(mesh, ahead, standing.point, toward, standing.budget) {
        Some(end) => MarchEnd {
            point: end.at,
            place: standing.place + end.place,
        },
        None => MarchEnd {
            point: standing.point,
            place: standing.place,
        },
    }
}

/// The polygons from one place up to another.
fn between(polys: &[PolyRef], first: usize, end: usize) -> &[PolyRef]
    requires { (first ≤ end) × (end ≤ length polys.now) }
    ensures { result.now ≡ slice_range polys.now first end }
{
    &polys[first..end]
}
