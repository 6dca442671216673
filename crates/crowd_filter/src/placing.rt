//! Agents placed in the mesh, where it may be another than before.

ghost use Rattle.std.specs.Prelude.{◌≡◌, ◌⊎◌, ◌≤◌, ◌<◌, ◌*◌, ◌/◌, ◌%◌, MatchBool, IfSome, IfNone, Some};
ghost use Rattle.nav_ground.specs.Limits.{IsSetting};
ghost use Rattle.nav_ground.specs.Tiling.{tiles_in_row};
ghost use Rattle.mesh_types.specs.declared.links.PolyRef.{PolyRef};
ghost use Rattle.mesh_types.specs.Located.{IsNoLater};
ghost use Rattle.mesh_types.specs.Soundness.{IsSound};
ghost use Rattle.crowd_moves.specs.Pairs.{HasSizes};
ghost use Rattle.fine_walk.specs.FineRays.{low_at, high_at};
ghost use Rattle.crowd_filter.specs.declared.placing.FittingPolygon.{FittingPolygon};
ghost use Rattle.crowd_filter.specs.CrowdAgents.{IsCrowdAgent};
ghost use Rattle.crowd_filter.specs.Placing;
ghost use Rattle.crowd_filter.specs.Placing.{DoesTileReach, Fits, IsBestFit, IsFitting, IsFoundFit, IsPlacedAnew, IsSearchedAmong};

use crate::tiles::best_in_tiles;
use crowd_moves::CrowdAgent;
use fine_walk::is_fine_held;
use mesh_types::{Mesh, PolyRef, Polygon, poly};

/// A polygon that fits an agent, and how far its floors are from those that the agent had, in height units.
#[derive(Clone, Copy)]
pub(crate) struct FittingPolygon {
    pub(crate) gap: u32,
    pub(crate) at: PolyRef,
}

/// An agent in the polygon that is its own in this mesh: the one that it names, if that still fits it; else, of those that fit it in the tiles that
/// reach its middle, the one with the nearest floors. Where there is none the agent is stranded.
pub fn place(mesh: &Mesh, agent: CrowdAgent) -> CrowdAgent
    requires sound { IsSound mesh.now }
    requires setting { IsSetting mesh.now.setting }
    requires sizes { HasSizes agent }
    ensures placed { IsPlacedAnew mesh.now agent result }
    ensures agent { IsCrowdAgent mesh.now result }
{
    if let Some(_gap) = gap_at(mesh, &agent, agent.polygon) {
        return placed_in(mesh, &agent, agent.polygon);
    }
    match best_in_tiles(mesh, &agent) {
        Some(best) => placed_in(mesh, &agent, best.at),
        None => CrowdAgent {
            stranded: true,
            ..agent
        },
    }
}

/// An agent in a polygon that fits it.
fn placed_in(mesh: &Mesh, agent: &CrowdAgent, at: PolyRef) -> CrowdAgent
    requires sizes { HasSizes agent.now }
    requires fits { Fits mesh.now agent.now at }
    ensures placed { result ≡ Placing.placed_in mesh.now agent.now at }
    ensures agent { IsCrowdAgent mesh.now result }
{
    let (low, high) = floors(mesh, at);
    CrowdAgent {
        polygon: at,
        low,
        high,
        stranded: false,
        ..*agent
    }
}

/// The least and the greatest floor of a polygon of the mesh.
pub(crate) fn floors(mesh: &Mesh, at: PolyRef) -> (u32, u32)
    ensures low { result.0 ≡ low_at mesh.now at }
    ensures high { result.1 ≡ high_at mesh.now at }
{
    match poly(mesh, at) {
        Some(polygon) => (polygon.low, polygon.high),
        None => (0, 0),
    }
}

/// What was found, or a polygon that fits the agent better.
pub(crate) fn better_of(
    mesh: &Mesh,
    agent: &CrowdAgent,
    at: PolyRef,
    had: Option<FittingPolygon>,
) -> Option<FittingPolygon>
    requires sound { IsSound mesh.now }
    requires sizes { HasSizes agent.now }
    requires had { IsFoundFit mesh.now agent.now had }
    ensures { IsSearchedAmong mesh.now agent.now (λ other. other ≡ at) had result }
{
    match gap_at(mesh, agent, at) {
        Some(gap) => Some(better(had, FittingPolygon { gap, at })),
        None => had,
    }
}

/// How far the floors of a polygon are from those that the agent had; none where it does not fit the agent.
fn gap_at(mesh: &Mesh, agent: &CrowdAgent, at: PolyRef) -> Option<u32>
    requires sound { IsSound mesh.now }
    requires sizes { HasSizes agent.now }
    ensures some { IfSome result (λ gap. IsFitting mesh.now agent.now (record { gap = gap; at = at })) }
    ensures none { IfNone result (Fits mesh.now agent.now at → ⊥) }
{
    let Some(polygon) = poly(mesh, at) else {
        return None;
    };
    let gap = floors_gap(&polygon, agent);
    if gap > mesh.setting.agent.climb || !is_fine_held(mesh, at, agent.at) {
        return None;
    }
    Some(gap)
}

/// How far the floors of a polygon are from those that an agent had.
fn floors_gap(polygon: &Polygon, agent: &CrowdAgent) -> u32
    ensures { result ≡ Placing.floors_gap polygon.now agent.now }
{
    let above = polygon.low.saturating_sub(agent.high);
    let below = agent.low.saturating_sub(polygon.high);
    above.max(below)
}

/// The one of the nearer floors; of equally near ones the first by tile and place.
fn better(had: Option<FittingPolygon>, other: FittingPolygon) -> FittingPolygon
    ensures one { (result ≡ other) ⊎ (had ≡ Some result) }
    ensures had { (before : FittingPolygon) → had ≡ Some before → IsNoLater result.gap result.at before.gap before.at }
    ensures other { IsNoLater result.gap result.at other.gap other.at }
{
    let Some(before) = had else {
        return other;
    };
    if is_earlier(other, before) {
        other
    } else {
        before
    }
}

/// Whether one comes before another; else it is not before it.
fn is_earlier(a: FittingPolygon, b: FittingPolygon) -> bool
    ensures { MatchBool result (IsNoLater a.gap a.at b.gap b.at) (IsNoLater b.gap b.at a.gap a.at) }
{
    if a.gap != b.gap {
        return a.gap < b.gap;
    }
    if a.at.tile != b.at.tile {
        return a.at.tile < b.at.tile;
    }
    a.at.index < b.at.index
}
