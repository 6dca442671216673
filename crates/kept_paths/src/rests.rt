//! What a bridge leads to: the goal, or where the last kept links lead on as they are.

ghost use Rattle.std.specs.Prelude.{◌≡◌, ◌↔◌, ◌<◌, ◌≤◌, List, IfSome, IfNone, IsTrue, length, drop};
ghost use Rattle.nav_ground.specs.Limits.{IsSetting};
ghost use Rattle.mesh_types.specs.declared.links.Link as references;
ghost use Rattle.mesh_types.specs.declared.links.PolyRef as polygons;
ghost use Rattle.mesh_types.specs.Right.{IsNowhere};
ghost use Rattle.mesh_types.specs.Soundness.{IsSound};
ghost use Rattle.kept_paths.specs.KeptPaths.{CanCheck};
ghost use Rattle.kept_paths.specs.Repairs.{CanRepair, IsRest, IsTarget};
ghost use Rattle.kept_paths.specs.Splices.{IsLongestRest, Joins};

use crate::beginnings::holds_at;
use crate::checks::KeptPath;
use crate::leads::{enters, leaves};
use crate::repairs::Repair;
use mesh_locate::locate;
use mesh_types::{Link, Mesh, PolyRef};

/// What a bridge leads to: a polygon, and from there the kept links from a place on, to a last polygon.
#[derive(Clone, Copy)]
pub(crate) struct Target {
    pub(crate) to: PolyRef,
    pub(crate) start: usize,
    pub(crate) last: PolyRef,
}

/// What a bridge leads to, of a path of which so many links lead on; none exactly where no polygon holds the goal.
pub(crate) fn bridge_target(mesh: &Mesh, repair: &Repair, cut: usize) -> Option<Target>
    requires sound { IsSound mesh.now }
    requires setting { IsSetting mesh.now.setting }
    requires repair { CanRepair repair.now }
    requires cut { cut ≤ length repair.now.path.links }
    ensures some { IfSome result (λ target. IsTarget mesh.now repair.now cut (drop target.start repair.now.path.links) target.to target.last) }
    ensures there { IfSome result (λ target. target.start ≤ length repair.now.path.links) }
    ensures none { IfNone result (IsNowhere mesh.now repair.now.path.goal repair.now.path.goal_y) }
{
    let path = &repair.path;
    if repair.join {
        if let Some(rest) = longest_rest(mesh, path, cut) {
            return Some(rest);
        }
    }
    let to = locate(mesh, path.goal, path.goal_y)?;
    Some(Target {
        to,
        start: path.links.len(),
        last: to,
    })
}

/// The longest rest of a kept path of which so many links lead on.
fn longest_rest(mesh: &Mesh, path: &KeptPath, cut: usize) -> Option<Target>
    requires sound { IsSound mesh.now }
    requires path { CanCheck path.now }
    requires cut { cut ≤ length path.now.links }
    ensures some { IfSome result (λ rest. IsLongestRest mesh.now path.now cut rest.start rest.to rest.last) }
    ensures none { IfNone result ((rest : List references.Link) (to last : polygons.PolyRef) → IsRest mesh.now path.now cut rest to last → ⊥) }
{
    let links = path.links.as_slice();
    let end = links.last()?;
    if !holds_at(mesh, path.goal, path.goal_y, end.to) {
        return None;
    }
    let mut start = links.len();
    let mut to = end.to;
    while start > cut + 1 && joins(mesh, path.filter.areas, &links[start - 1], to) {
        start -= 1;
        to = links[start].from;
    }
    if start == links.len() {
        return None;
    }
    Some(Target {
        to,
        start,
        last: end.to,
    })
}

/// Whether a link leads, as it is, into a polygon, of an open area.
fn joins(mesh: &Mesh, areas: u64, link: &Link, to: PolyRef) -> bool
    requires sound { IsSound mesh.now }
    ensures { IsTrue result ↔ Joins mesh.now areas link.now to }
{
    leaves(mesh, link.from, link) && enters(mesh, areas, link) && is_same(link.to, to)
}

/// Whether two polygons are the same.
pub(crate) fn is_same(a: PolyRef, b: PolyRef) -> bool
    ensures { IsTrue result ↔ (a ≡ b) }
{
    a == b
}
