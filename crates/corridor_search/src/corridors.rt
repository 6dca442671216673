//! The cheapest corridor between two polygons.

ghost use Rattle.std.specs.Prelude.{◌≡◌, ◌<◌, ◌^◌, true, IfOk, IfSome, IfNone, All, map, length};
ghost use Rattle.std.specs.Option.{option_copied, option_map_or};
ghost use Rattle.nav_ground.specs.Limits.{IsSetting};
ghost use Rattle.mesh_types.specs.Soundness.{IsSound};
ghost use Rattle.mesh_types.specs.Corridors.{IsCheapest};
ghost use Rattle.graph_search.specs.declared.graph.Step.{Step};
ghost use Rattle.corridor_search.specs.MeshGraphs.{IsThere, IsApart, IsOver, link_of};
ghost use Rattle.corridor_search.specs.Landmarks.{Heights, flat, heights_at, AreLandmarks};

use crate::islands::is_cut_off;
use crate::landmarks::{FLAT, LANDMARKS, Landmarks, are_alike, are_seen};
use crate::mesh_graph::{MeshGraph, link_at, vertex_at};
use crate::weights::{extent_at, least_cost, middle};
use graph_search::{Room, Step, cheapest_walk_in};
use mesh_types::{Corridor, Link, Mesh, PolyRef};
use nav_lists::Items;
use std::alloc::{AllocError, Global};

/// A corridor from one polygon to another, a walk over links than which no other such walk costs less; none exactly where no walk joins the two.
/// From a polygon to itself it has no links and costs 0. Costs are in sixteenths of a cell times the costs of areas, and less than 2^45. Only
/// memory can be refused.
pub fn cheapest(
    alloc: Global,
    mesh: &Mesh,
    from: PolyRef,
    to: PolyRef,
) -> Result<Option<Corridor>, AllocError>
    requires sound { IsSound mesh.now }
    requires setting { IsSetting mesh.now.setting }
    requires from { IsThere mesh.now from }
    requires to { IsThere mesh.now to }
    ensures found { IfOk result (λ answer. IfSome answer (λ corridor. IsCheapest mesh.now from to corridor)) }
    ensures none { IfOk result (λ answer. IfNone answer (IsApart mesh.now from to)) }
    ensures few { IfOk result (λ answer. IfSome answer (λ corridor. corridor.cost < 2 ^ 45)) }
{
    cheapest_by(alloc, mesh, None, from, to)
}

/// The same, by landmarks of the mesh where there are some. Another corridor that costs as much may be found, and the search closes fewer
/// polygons, the more so the farther apart the two are. Only memory can be refused.
pub fn cheapest_by(
    alloc: Global,
    mesh: &Mesh,
    landmarks: Option<&Landmarks>,
    from: PolyRef,
    to: PolyRef,
) -> Result<Option<Corridor>, AllocError>
    requires sound { IsSound mesh.now }
    requires setting { IsSetting mesh.now.setting }
    requires landmarks { IfSome (option_copied landmarks) (AreLandmarks mesh.now) }
    requires from { IsThere mesh.now from }
    requires to { IsThere mesh.now to }
    ensures found { IfOk result (λ answer. IfSome answer (λ corridor. IsCheapest mesh.now from to corridor)) }
    ensures none { IfOk result (λ answer. IfNone answer (IsApart mesh.now from to)) }
    ensures few { IfOk result (λ answer. IfSome answer (λ corridor. corridor.cost < 2 ^ 45)) }
{
    let mut room = Room::new(alloc);
    cheapest_in(alloc, &mut room, mesh, landmarks, from, to)
}

/// The same, in room that an earlier search may have left.
pub fn cheapest_in(
    alloc: Global,
    room: &mut Room,
    mesh: &Mesh,
    landmarks: Option<&Landmarks>,
    from: PolyRef,
    to: PolyRef,
) -> Result<Option<Corridor>, AllocError>
    requires sound { IsSound mesh.now }
    requires setting { IsSetting mesh.now.setting }
    requires landmarks { IfSome (option_copied landmarks) (AreLandmarks mesh.now) }
    requires from { IsThere mesh.now from }
    requires to { IsThere mesh.now to }
    ensures found { IfOk result (λ answer. IfSome answer (λ corridor. IsCheapest mesh.now from to corridor)) }
    ensures none { IfOk result (λ answer. IfNone answer (IsApart mesh.now from to)) }
    ensures few { IfOk result (λ answer. IfSome answer (λ corridor. corridor.cost < 2 ^ 45)) }
{
    if is_seen_apart(alloc, mesh, landmarks, from, to)? {
        return Ok(None);
    }
    let goal = middle(extent_at(mesh, to));
    let heights = heights_of(landmarks, to);
    let graph = MeshGraph {
        mesh,
        goal,
        least: least_cost(&mesh.setting),
        landmarks,
        heights,
    };
    match cheapest_walk_in(alloc, room, &graph, vertex_at(from), vertex_at(to))? {
        Some(walk) => {
            let links = links_along(alloc, mesh, walk.steps.as_slice())?;
            let cost = walk.cost;
            Ok(Some(Corridor { cost, links }))
        }
        None => Ok(None),
    }
}

/// Whether it is seen before a search that no walk joins two polygons: a landmark reaches one of them alone, or the second stands on a small
/// island. Where one is seen to reach both, no island is looked for.
fn is_seen_apart(
    alloc: Global,
    mesh: &Mesh,
    landmarks: Option<&Landmarks>,
    from: PolyRef,
    to: PolyRef,
) -> Result<bool, AllocError>
    requires sound { IsSound mesh.now }
    requires setting { IsSetting mesh.now.setting }
    requires landmarks { IfSome (option_copied landmarks) (AreLandmarks mesh.now) }
    ensures { IfOk result (λ apart. apart ≡ true → IsApart mesh.now from to) }
{
    let heights = heights_of(landmarks, from);
    let others = heights_of(landmarks, to);
    if !are_alike(heights, others) {
        return Ok(true);
    }
    if are_seen(others) {
        return Ok(false);
    }
    is_cut_off(alloc, mesh, from, to)
}

/// The heights of a polygon over landmarks, where there are some.
fn heights_of(landmarks: Option<&Landmarks>, at: PolyRef) -> [u32; LANDMARKS]
    ensures { result ≡ option_map_or (λ (marks : Heights). heights_at marks at) (option_copied landmarks.entry) flat }
{
    match landmarks {
        Some(marks) => marks.heights(at),
        None => FLAT,
    }
}

/// The links that steps take, in order.
fn links_along(alloc: Global, mesh: &Mesh, steps: &[Step]) -> Result<Items<Link>, AllocError>
    requires { All (λ (step : Step). IsOver mesh.now step) steps.now }
    ensures { IfOk result (λ links. links ≡ map (link_of mesh.now) steps.now) }
{
    let mut links = Vec::with_capacity(alloc, steps.len())?;
    for step in steps {
        links.push(link_at(mesh, *step))?;
    }
    Ok(Items::from_vec(links))
}
