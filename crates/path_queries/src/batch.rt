//! Ways from many places to one goal, by one search.

ghost use Rattle.std.specs.Prelude.{◌≡◌, ◌<◌, ◌≤◌, ℕ, All, Contains, IfNone, IfOk, IfSome, length};
ghost use Rattle.std.specs.Bool.{MatchBool};
ghost use Rattle.nav_ground.specs.Limits.{IsSetting};
ghost use Rattle.mesh_types.specs.declared.links.Link as references;
ghost use Rattle.mesh_types.specs.Passages.{IsTwoWay};
ghost use Rattle.mesh_types.specs.Soundness.{IsSound};
ghost use Rattle.path_queries.specs.Batches.{AreLinked, AreRightPlans, IsFloodToGoal, IsLinkBetween, LeadToFirst, flooded_at, query_from};
ghost use Rattle.path_queries.specs.Filters.{IsFilter};
ghost use Rattle.path_queries.specs.NearestGoals.{HasGoalCoordinates};
ghost use Rattle.path_queries.specs.Plans.{IsRightPlan};

use crate::filters::Filter;
use crate::floods::Flooded;
use crate::floods_back::flood_to;
use crate::leaving::{inner, outer};
use crate::nearest::Goal;
use crate::plans::{PathQuery, PlanAnswer, WayEnd, least_floor, plan, turns};
use graph_search::Room;
use mesh_locate::locate;
use mesh_types::{Link, Mesh, PathFound, PolyRef};
use nav_lists::Items;
use std::alloc::{AllocError, Global};

/// Right answers to the questions for ways from many places to one goal through a filter, without limits: one for each start, in order. All
/// come of one flood back from the goal, whatever the starts are, so one question alone is better asked by `plan`. The links of the mesh must
/// lead there and back, as those of builds do. Only memory can be refused.
pub fn plans_to(
    alloc: Global,
    mesh: &Mesh,
    starts: &[Goal],
    goal: Goal,
    filter: &Filter,
) -> Result<Vec<PlanAnswer>, AllocError>
    requires sound { IsSound mesh.now }
    requires setting { IsSetting mesh.now.setting }
    requires two_way { IsTwoWay mesh.now }
    requires starts { All HasGoalCoordinates starts.now }
    requires goal { HasGoalCoordinates goal }
    requires filter { IsFilter filter.now }
    ensures right { IfOk result (λ answers. AreRightPlans mesh.now goal filter.now starts.now answers.items) }
{
    let mut room = Room::new(alloc);
    plans_to_in(alloc, &mut room, mesh, starts, goal, filter)
}

/// The same, in room that an earlier search may have left.
pub fn plans_to_in(
    alloc: Global,
    room: &mut Room,
    mesh: &Mesh,
    starts: &[Goal],
    goal: Goal,
    filter: &Filter,
) -> Result<Vec<PlanAnswer>, AllocError>
    requires sound { IsSound mesh.now }
    requires setting { IsSetting mesh.now.setting }
    requires two_way { IsTwoWay mesh.now }
    requires starts { All HasGoalCoordinates starts.now }
    requires goal { HasGoalCoordinates goal }
    requires filter { IsFilter filter.now }
    ensures right { IfOk result (λ answers. AreRightPlans mesh.now goal filter.now starts.now answers.items) }
{
    let Some(last) = locate(mesh, goal.point, goal.y) else {
        return one_by_one(alloc, mesh, starts, goal, filter);
    };
    let list = flood_to(alloc, room, mesh, filter, last, u64::MAX)?;
    let polygons = list.as_slice();
    let guesses = guesses(alloc, mesh, polygons)?;
    let flood = IndexedFlood {
        list: polygons,
        guesses: guesses.as_slice(),
    };
    plans_by(alloc, mesh, filter, flood, starts, goal)
}

/// The polygons of a flood, and where each of them may stand in it, by tile and place there: a guess, which is tested.
#[derive(Clone, Copy)]
struct IndexedFlood<'a> {
    list: &'a [Flooded],
    guesses: &'a [Vec<usize>],
}

/// The places of the polygons of a flood, by tile and place there, of which nothing is promised.
fn guesses(alloc: Global, mesh: &Mesh, list: &[Flooded]) -> Result<Vec<Vec<usize>>, AllocError> {
    let mut guesses = Vec::with_capacity(alloc, mesh.tiles.len())?;
    for tile in 0..mesh.tiles.len() {
        let mut places = Vec::new(alloc);
        places.resize(mesh.tiles.at(tile).get().polys.len(), 0)?;
        guesses.push(places)?;
    }
    for (place, flooded) in list.iter().enumerate() {
        let tile = flooded.at.tile as usize;
        let index = flooded.at.index as usize;
        if tile < guesses.len() && index < guesses[tile].len() {
            guesses[tile][index] = place;
        }
    }
    Ok(guesses)
}

/// The answers where no polygon holds the goal: each question by itself, which then searches nothing.
fn one_by_one(
    alloc: Global,
    mesh: &Mesh,
    starts: &[Goal],
    goal: Goal,
    filter: &Filter,
) -> Result<Vec<PlanAnswer>, AllocError>
    requires sound { IsSound mesh.now }
    requires setting { IsSetting mesh.now.setting }
    requires starts { All HasGoalCoordinates starts.now }
    requires goal { HasGoalCoordinates goal }
    requires filter { IsFilter filter.now }
    ensures { IfOk result (λ answers. AreRightPlans mesh.now goal filter.now starts.now answers.items) }
{
    let mut answers = Vec::with_capacity(alloc, starts.len())?;
    for start in starts {
        let query = PathQuery {
            from: start.point,
            from_y: start.y,
            goal: goal.point,
            goal_y: goal.y,
            filter: *filter,
            most_cost: u64::MAX,
            most_polygons: usize::MAX,
            partial: None,
        };
        answers.push(plan(alloc, mesh, &query)?)?;
    }
    Ok(answers)
}

/// The answers by a flood back from the goal.
fn plans_by(
    alloc: Global,
    mesh: &Mesh,
    filter: &Filter,
    flood: IndexedFlood<'_>,
    starts: &[Goal],
    goal: Goal,
) -> Result<Vec<PlanAnswer>, AllocError>
    requires sound { IsSound mesh.now }
    requires setting { IsSetting mesh.now.setting }
    requires flood { IsFloodToGoal mesh.now goal filter.now flood.list.now }
    requires starts { All HasGoalCoordinates starts.now }
    requires goal { HasGoalCoordinates goal }
    ensures { IfOk result (λ answers. AreRightPlans mesh.now goal filter.now starts.now answers.items) }
{
    let mut answers = Vec::with_capacity(alloc, starts.len())?;
    for start in starts {
        answers.push(plan_by(alloc, mesh, filter, flood, *start, goal)?)?;
    }
    Ok(answers)
}

/// The answer for one start by a flood back from the goal.
fn plan_by(
    alloc: Global,
    mesh: &Mesh,
    filter: &Filter,
    flood: IndexedFlood<'_>,
    start: Goal,
    goal: Goal,
) -> Result<PlanAnswer, AllocError>
    requires sound { IsSound mesh.now }
    requires setting { IsSetting mesh.now.setting }
    requires flood { IsFloodToGoal mesh.now goal filter.now flood.list.now }
    requires start { HasGoalCoordinates start }
    requires goal { HasGoalCoordinates goal }
    ensures { IfOk result (λ answer. IsRightPlan (query_from goal filter.now start) mesh.now answer) }
{
    let Some(first) = locate(mesh, start.point, start.y) else {
        return Ok(PlanAnswer::NoStart);
    };
    let list = flood.list;
    let Some(place) = place_of(list, guess(flood.guesses, first), first) else {
        return Ok(PlanAnswer::NoPath);
    };
    let links = links_from(alloc, mesh, list, place)?;
    let turns = turns(alloc, start.point, links.as_slice(), goal.point)?;
    let way = PathFound {
        first,
        cost: list[place].cost,
        links,
        turns,
    };
    let last = list[0].at;
    let end = WayEnd {
        polygon: last,
        point: goal.point,
        y: least_floor(mesh, last),
    };
    Ok(PlanAnswer::Whole { way, end })
}

/// What is guessed to be the place of a polygon; 0 where nothing is.
fn guess(guesses: &[Vec<usize>], at: PolyRef) -> usize {
    match guesses.get(at.tile as usize) {
        Some(places) => place_in(places.as_slice(), at.index as usize),
        None => 0,
    }
}

/// The same in a tile.
fn place_in(places: &[usize], index: usize) -> usize {
    match places.get(index) {
        Some(place) => *place,
        None => 0,
    }
}

/// The place of a polygon in a flood; none exactly where it is not there. It is looked for in the whole flood only where it does not stand
/// at the place that is guessed.
fn place_of(list: &[Flooded], guess: usize, at: PolyRef) -> Option<usize>
    ensures there { IfSome result (λ place. place < length list.now) }
    ensures some { IfSome result (λ place. (flooded_at list.now place).at ≡ at) }
    ensures none { IfNone result ((place : ℕ) → place < length list.now → (flooded_at list.now place).at ≡ at → ⊥) }
{
    if guess < list.len() && is_same(list[guess].at, at) {
        return Some(guess);
    }
    first_place(list, at)
}

/// The first place of a polygon in a flood; none exactly where it is not there.
fn first_place(list: &[Flooded], at: PolyRef) -> Option<usize>
    ensures there { IfSome result (λ place. place < length list.now) }
    ensures some { IfSome result (λ place. (flooded_at list.now place).at ≡ at) }
    ensures none { IfNone result ((place : ℕ) → place < length list.now → (flooded_at list.now place).at ≡ at → ⊥) }
{
    for (place, flooded) in list.iter().enumerate() {
        if is_same(flooded.at, at) {
            return Some(place);
        }
    }
    None
}

/// Whether two polygons are the same.
fn is_same(a: PolyRef, b: PolyRef) -> bool
    ensures { MatchBool result (a ≡ b) (a ≡ b → ⊥) }
{
    a == b
}

/// Links from the polygon at a place of a flood back to the one behind it, and so on to the first.
fn links_from(
    alloc: Global,
    mesh: &Mesh,
    list: &[Flooded],
    place: usize,
) -> Result<Items<Link>, AllocError>
    requires sound { IsSound mesh.now }
    requires there { place < length list.now }
    requires linked { AreLinked mesh.now list.now }
    ensures lead { IfOk result (λ links. LeadToFirst mesh.now list.now place links) }
    ensures few { IfOk result (λ links. length links ≤ place) }
{
    let mut links = Vec::new(alloc);
    let mut at = place;
    while at != 0 {
        let entry = list[at];
        let next = entry.via;
        links.push(link_between(mesh, entry.at, list[next].at).unwrap())?;
        at = next;
    }
    Ok(Items::from_vec(links))
}

/// The first link that leads from a polygon to another; none exactly where none does.
fn link_between(mesh: &Mesh, from: PolyRef, to: PolyRef) -> Option<Link>
    requires sound { IsSound mesh.now }
    ensures some { IfSome result (IsLinkBetween mesh.now from to) }
    ensures none { IfNone result ((link : references.Link) → IsLinkBetween mesh.now from to link → ⊥) }
{
    match first_into(inner(mesh, from), to) {
        Some(link) => Some(link),
        None => first_into(outer(mesh, from), to),
    }
}

/// The first of some links that enters a polygon.
fn first_into(links: &[Link], to: PolyRef) -> Option<Link>
    ensures some { IfSome result (λ link. Contains links.now link × (link.to ≡ to)) }
    ensures none { IfNone result ((link : references.Link) → Contains links.now link → link.to ≡ to → ⊥) }
{
    for link in links {
        if is_same(link.to, to) {
            return Some(*link);
        }
    }
    None
}
