//! The question for a kept path made whole, and its answers.

ghost use Rattle.std.specs.Prelude.{◌<◌, ◌↔◌, IfOk, IsTrue, length};
ghost use Rattle.nav_ground.specs.Limits.{IsSetting};
ghost use Rattle.mesh_types.specs.Soundness.{IsSound};
ghost use Rattle.kept_paths.specs.KeptPaths.{CanCheck};
ghost use Rattle.kept_paths.specs.Repairs.{AreParts, CanRepair, IsAllKept, IsLead, IsRightRepair};

use crate::beginnings::{beginning, holds_at};
use crate::checks::KeptPath;
use crate::leads::lead_from;
use crate::rests::bridge_target;
use crate::splices::{Parts, end_of, first_links, splice};
use crate::weights::cost;
use graph_search::{Limits, Room};
use mesh_types::{Asked, Corner, Link, Mesh, PolyRef};
use nav_lists::Items;
use path_queries::reach::Reach;
use path_queries::{AskedIn, WalkEnds, cheapest_allowed_in, turns};
use std::alloc::{AllocError, Global};

/// A kept path that is to lead to its goal again.
#[derive(PartialEq, Eq, Drop)]
pub struct Repair {
    pub path: KeptPath,
    /// So many of its first links are kept, where so many lead on.
    pub keep: usize,
    /// Whether the way may come back to the last kept links, where these lead on as they are.
    pub join: bool,
    /// The search ends after so many polygons; `usize::MAX` for no limit.
    pub most_polygons: usize,
}

/// What the question for a kept path made whole is answered.
#[derive(PartialEq, Eq, Drop)]
pub enum RepairAnswer {
    /// It leads to the goal: by so many links that are kept, so many of a cheapest allowed walk, and the last kept links as they were; no
    /// polygon stands in two of the three. Told as by `CheckAnswer::Whole`. The whole is cheapest where nothing is kept nor joined.
    Repaired {
        first: PolyRef,
        cost: u64,
        links: Items<Link>,
        turns: Items<Corner>,
        kept: usize,
        bridge: usize,
    },
    /// The limit ended the search: each allowed walk from what is kept to the goal, or to the links to be joined, costs at least `seen`.
    Limit {
        seen: u64,
    },
    /// The path can begin nowhere, as in `CheckAnswer::NoStart`.
    NoStart,
    /// No polygon holds the goal.
    NoGoal,
    /// No allowed walk leads there from what is kept.
    NoPath,
}

/// A kept path made whole. Of the links as which it leads on the first are kept; from there a cheapest allowed walk is searched for, to the
/// polygon that locates the goal, or to where the last kept links lead on as they are; loops are left out. Only memory can be refused.
/// After Detour's `dtPathCorridor::optimizePathTopology` and `trimInvalidPath`.
pub fn repair_path(alloc: Global, mesh: &Mesh, repair: &Repair) -> Result<RepairAnswer, AllocError>
    requires sound { IsSound mesh.now }
    requires setting { IsSetting mesh.now.setting }
    requires repair { CanRepair repair.now }
    ensures right { IfOk result (λ answer. IsRightRepair repair.now mesh.now answer) }
{
    let mut room = Room::new(alloc);
    repair_path_in(alloc, &mut room, mesh, repair)
}

/// The same, in room that an earlier search may have left.
pub fn repair_path_in(
    alloc: Global,
    room: &mut Room,
    mesh: &Mesh,
    repair: &Repair,
) -> Result<RepairAnswer, AllocError>
    requires sound { IsSound mesh.now }
    requires setting { IsSetting mesh.now.setting }
    requires repair { CanRepair repair.now }
    ensures right { IfOk result (λ answer. IsRightRepair repair.now mesh.now answer) }
{
    let path = &repair.path;
    let Some(first) = beginning(mesh, path) else {
        return Ok(RepairAnswer::NoStart);
    };
    let lead = lead_from(alloc, mesh, &path.filter, first, path.links.as_slice())?;
    repair_behind(alloc, room, mesh, repair, first, lead.links.as_slice())
}

impl Asked for Repair {
    type Answer = RepairAnswer;

    ghost can_ask = { λ repair. CanRepair repair };

    ghost is_right = { λ repair mesh answer. IsRightRepair repair mesh answer };

    fn ask(&self, alloc: Global, mesh: &Mesh) -> Result<RepairAnswer, AllocError> {
        repair_path(alloc, mesh, self)
    }
}

impl AskedIn for Repair {
    fn ask_in(
        &self,
        alloc: Global,
        room: &mut Room,
        mesh: &Mesh,
    ) -> Result<RepairAnswer, AllocError> {
        repair_path_in(alloc, room, mesh, self)
    }
}

/// The same, of the links as which the path leads on.
fn repair_behind(
    alloc: Global,
    room: &mut Room,
    mesh: &Mesh,
    repair: &Repair,
    first: PolyRef,
    lead: &[Link],
) -> Result<RepairAnswer, AllocError>
    requires sound { IsSound mesh.now }
    requires setting { IsSetting mesh.now.setting }
    requires repair { CanRepair repair.now }
    requires lead { IsLead mesh.now repair.now.path first lead.now }
    ensures { IfOk result (λ answer. IsRightRepair repair.now mesh.now answer) }
{
    let path = &repair.path;
    let kept = first_links(lead, repair.keep);
    let at = end_of(first, kept);
    if is_all_kept(mesh, path, kept, at) {
        let parts = Parts {
            kept,
            bridge: &[],
            rest: &[],
        };
        return joined(alloc, mesh, repair, first, parts, at);
    }
    let Some(target) = bridge_target(mesh, repair, lead.len()) else {
        return Ok(RepairAnswer::NoGoal);
    };
    let limits = Limits {
        key: u64::MAX,
        count: repair.most_polygons,
    };
    let ends = WalkEnds {
        from: at,
        to: target.to,
    };
    match cheapest_allowed_in(alloc, room, mesh, &path.filter, ends, limits)? {
        Reach::Found { corridor, .. } => {
            let parts = Parts {
                kept,
                bridge: corridor.links.as_slice(),
                rest: &path.links.as_slice()[target.start..],
            };
            joined(alloc, mesh, repair, first, parts, target.last)
        }
        Reach::Limit { seen } => Ok(RepairAnswer::Limit { seen }),
        Reach::Apart => Ok(RepairAnswer::NoPath),
    }
}

/// Whether all of a path is kept, up to a polygon that holds the goal.
fn is_all_kept(mesh: &Mesh, path: &KeptPath, kept: &[Link], at: PolyRef) -> bool
    requires sound { IsSound mesh.now }
    requires path { CanCheck path.now }
    ensures { IsTrue result ↔ IsAllKept mesh.now path.now kept.now at }
{
    kept.len() == path.links.len() && holds_at(mesh, path.goal, path.goal_y, at)
}

/// The answer of what is kept, a bridge and a rest that leads to a last polygon, without loops.
fn joined(
    alloc: Global,
    mesh: &Mesh,
    repair: &Repair,
    first: PolyRef,
    parts: Parts<'_>,
    last: PolyRef,
) -> Result<RepairAnswer, AllocError>
    requires sound { IsSound mesh.now }
    requires setting { IsSetting mesh.now.setting }
    requires repair { CanRepair repair.now }
    requires parts { AreParts mesh.now repair.now first parts.kept.now parts.bridge.now parts.rest.now last }
    requires few { length parts.bridge.now < 8000000 }
    ensures { IfOk result (λ answer. IsRightRepair repair.now mesh.now answer) }
{
    let path = &repair.path;
    let onward = splice(alloc, parts.bridge, parts.rest, last)?;
    let way = splice(alloc, parts.kept, onward.links.as_slice(), last)?;
    let links = way.links.as_slice();
    let cost = cost(mesh, &path.filter, links);
    let turns = turns(alloc, path.from, links, path.goal)?;
    Ok(RepairAnswer::Repaired {
        first,
        cost,
        links: Items::from_vec(way.links),
        turns,
        kept: way.taken,
        bridge: onward.taken.saturating_sub(way.dropped),
    })
}
