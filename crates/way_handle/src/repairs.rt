//! Kept paths that are made whole in the mesh of a handle.

ghost use Rattle.std.specs.Prelude.{◌≡◌, ◌↔◌, ◌+◌, ◌<◌, ◌≤◌, IfNone, IfOk, IfSome, IsTrue, Option, length};
ghost use Rattle.mesh_types.specs.declared.mesh.Mesh.{Mesh};
ghost use Rattle.kept_paths.specs.declared.repairs.Repair as questions;
ghost use Rattle.kept_paths.specs.Repairs.{CanRepair, IsRightRepair};
ghost use Rattle.nav_handle.specs.Answers.{EndsSo, IsAskedBy, IsRepliedBy};
ghost use Rattle.nav_handle.specs.Statuses as status;
ghost use Rattle.way_handle.specs.Repairing.{CanAskRepair, RepairRoom, repair_asked, repair_ends, repair_of, told_repair};

use crate::filters::filter_of;
use crate::reading::{links_of, polygon_of};
use graph_search::Room;
use kept_paths::{KeptPath, Repair, RepairAnswer, repair_path, repair_path_in};
use mesh_types::{Asked, Corner, Link, Mesh};
use nav_handle::{
    HasMesh, LIMIT, NO_GOAL, NO_PATH, NO_ROOM, NO_START, NavdLink, NavdPolygon, NavdTurn, NavdWay,
    OK, OUT_OF_RANGE, is_way, lay_links, lay_turns, point_of, polygon_told,
};
use path_queries::{AskedIn, Filter};
use std::alloc::{AllocError, Global};

/// Where the walker of a kept path is and its goal, the polygon in which it was last, how many links it has, how many of them are kept at most,
/// whether the way may join the last of them, 0 or 1, how many polygons the search may meet, and which areas it may enter, bit a for area a,
/// which the host writes; and the polygon in which the path begins now, what it costs, or what the way to the goal costs at least, how many links
/// are kept, how many are new, and how many links and turns there are, which the call tells.
#[repr(C)]
#[derive(Clone, Copy)]
pub struct NavdRepair {
    pub way: NavdWay,
    pub first: NavdPolygon,
    pub join: u32,
    pub count: usize,
    pub keep: usize,
    pub most_polygons: usize,
    pub areas: u64,
    pub cost: u64,
    pub seen: u64,
    pub kept: usize,
    pub bridge: usize,
    pub links: usize,
    pub turns: usize,
}

/// The filter of a kept path, if the question may be asked.
fn repair_filter(repair: &NavdRepair, costs: &[u32], links: &[NavdLink]) -> Option<Filter>
    ensures filter { IfSome result (λ filter. repair_of repair.now filter links.now ≡ repair_asked repair.now costs.now links.now) }
    ensures rules { IfSome result (λ filter. CanAskRepair repair.now costs.now links.now) }
    ensures none { IfNone result (CanAskRepair repair.now costs.now links.now → ⊥) }
{
    if !is_way(&repair.way) || !is_counted(repair, links) {
        return None;
    }
    filter_of(repair.areas, costs)
}

/// Whether the array has as many links as the host says, no more than can be numbered with those of a bridge, and joining is 0 or 1.
fn is_counted(repair: &NavdRepair, links: &[NavdLink]) -> bool
    ensures { IsTrue result ↔ ((repair.now.count ≤ length links.now) × (repair.now.join ≤ 1) × (repair.now.count + 8000000 < 4294967295)) }
{
    repair.count <= links.len() && repair.join <= 1 && repair.count < 4286967295
}

/// The question for the path made whole.
fn question(
    alloc: Global,
    repair: &NavdRepair,
    filter: &Filter,
    links: &[NavdLink],
) -> Result<Repair, AllocError>
    requires { repair.now.count ≤ length links.now }
    ensures { IfOk result (λ question. question ≡ repair_of repair.now filter.now links.now) }
{
    let links = links_of(alloc, &links[..repair.count])?;
    let path = KeptPath {
        from: point_of(repair.way.from),
        from_y: repair.way.from_y,
        goal: point_of(repair.way.to),
        goal_y: repair.way.to_y,
        filter: *filter,
        first: polygon_of(repair.first),
        links,
    };
    Ok(Repair {
        path,
        keep: repair.keep,
        join: repair.join == 1,
        most_polygons: repair.most_polygons,
    })
}

/// The question for a path with links of the host's array: they are copied only where there is a mesh.
#[derive(Drop)]
struct Repairing<'a> {
    repair: NavdRepair,
    filter: Filter,
    links: &'a [NavdLink],
}

impl<'a> Asked for Repairing<'a> {
    type Answer = RepairAnswer;

    ghost can_ask = { λ asked. CanRepair (repair_of asked.repair asked.filter asked.links.now) × (asked.repair.count ≤ length asked.links.now) };

    ghost is_right = { λ asked mesh answer. IsRightRepair (repair_of asked.repair asked.filter asked.links.now) mesh answer };

    fn ask(&self, alloc: Global, mesh: &Mesh) -> Result<RepairAnswer, AllocError> {
        let question = question(alloc, &self.repair, &self.filter, self.links)?;
        repair_path(alloc, mesh, &question)
    }
}

impl<'a> AskedIn for Repairing<'a> {
    fn ask_in(
        &self,
        alloc: Global,
        room: &mut Room,
        mesh: &Mesh,
    ) -> Result<RepairAnswer, AllocError> {
        let question = question(alloc, &self.repair, &self.filter, self.links)?;
        repair_path_in(alloc, room, mesh, &question)
    }
}

/// Asks for a path made whole.
fn ask_repair<H: HasMesh>(
    alloc: Global,
    held: &mut H,
    repair: &NavdRepair,
    filter: Filter,
    links: &[NavdLink],
) -> Result<RepairAnswer, u32>
    requires rules { CanRepair (repair_of repair.now filter links.now) }
    requires count { repair.now.count ≤ length links.now }
    ensures replied { IsRepliedBy (IsRightRepair (repair_of repair.now filter links.now)) (H.mesh_in held.old) result }
    ensures same { H.is_same held.old held.new }
{
    let asked = Repairing {
        repair: *repair,
        filter,
        links,
    };
    held.ask_in_room(alloc, &asked)
}

/// Whether there is room for all links and all turns.
fn has_room(way: &[Link], line: &[Corner], links: &[NavdLink], turns: &[NavdTurn]) -> bool
    ensures { result ≡ Rattle.way_handle.specs.Repairing.has_room way.now line.now links.now turns.now }
{
    way.len() <= links.len() && line.len() <= turns.len()
}

/// How the question ends with an answer.
fn repair_status(answer: &RepairAnswer, links: &[NavdLink], turns: &[NavdTurn]) -> u32
    ensures { result ≡ repair_ends links.now turns.now answer.now }
{
    match answer {
        RepairAnswer::Repaired {
            links: way,
            turns: line,
            ..
        } => {
            if has_room(way.as_slice(), line.as_slice(), links, turns) {
                OK
            } else {
                NO_ROOM
            }
        }
        RepairAnswer::Limit { .. } => LIMIT,
        RepairAnswer::NoStart => NO_START,
        RepairAnswer::NoGoal => NO_GOAL,
        RepairAnswer::NoPath => NO_PATH,
    }
}

/// Tells a path with its links and turns where there is room, or how far was seen, if the answer says so.
fn tell_repair(
    answer: &RepairAnswer,
    repair: &mut NavdRepair,
    links: &mut [NavdLink],
    turns: &mut [NavdTurn],
)
    ensures { (repair.new, links.new, turns.new) ≡ told_repair answer.now (repair.old, links.old, turns.old) }
{
    match answer {
        RepairAnswer::Repaired {
            first,
            cost,
            links: way,
            turns: line,
            kept,
            bridge,
        } => {
            repair.links = way.len();
            repair.turns = line.len();
            if has_room(way.as_slice(), line.as_slice(), links, turns) {
                lay_links(way.as_slice(), links);
                lay_turns(line.as_slice(), turns);
                repair.first = polygon_told(*first);
                repair.cost = *cost;
                repair.kept = *kept;
                repair.bridge = *bridge;
            }
        }
        RepairAnswer::Limit { seen } => repair.seen = *seen,
        _ => {}
    }
}

/// How the question ends.
fn end_repair(
    answer: Result<RepairAnswer, u32>,
    repair: &mut NavdRepair,
    links: &mut [NavdLink],
    turns: &mut [NavdTurn],
) -> u32
    ensures { (held : Option Mesh) (question : questions.Repair) → IsRepliedBy (IsRightRepair question) held answer
        → IsAskedBy (IsRightRepair question) (repair_ends links.old turns.old) told_repair held (repair.old, links.old, turns.old)
        (repair.new, links.new, turns.new) result }
{
    match answer {
        Ok(answer) => {
            let status = repair_status(&answer, links, turns);
            tell_repair(&answer, repair, links, turns);
            status
        }
        Err(status) => status,
    }
}

/// A kept path made whole in the mesh of a handle. Its links are the first ones of `links`, and the new ones are laid over them, if there is
/// room for all of them and for the turns.
pub fn repair<H: HasMesh>(
    alloc: Global,
    held: &mut H,
    repair: &mut NavdRepair,
    costs: &[u32],
    links: &mut [NavdLink],
    turns: &mut [NavdTurn],
) -> u32
    ensures asked { CanAskRepair repair.old costs.now links.old → IsAskedBy (IsRightRepair (repair_asked repair.old costs.now links.old))
        (repair_ends links.old turns.old) told_repair (H.mesh_in held.old) (repair.old, links.old, turns.old) (repair.new, links.new, turns.new) result }
    ensures refused { (CanAskRepair repair.old costs.now links.old → ⊥)
        → EndsSo {Room = RepairRoom} status.out_of_range (repair.old, links.old, turns.old) (repair.new, links.new, turns.new) result }
    ensures same { H.is_same held.old held.new }
{
    let Some(filter) = repair_filter(repair, costs, links) else {
        return OUT_OF_RANGE;
    };
    let answer = ask_repair(alloc, held, repair, filter, links);
    end_repair(answer, repair, links, turns)
}
