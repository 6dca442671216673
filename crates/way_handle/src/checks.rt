//! Kept paths: whether one still leads on in the mesh of a handle.

ghost use Rattle.std.specs.Prelude.{◌≡◌, IfNone, IfOk, IfSome, Option};
ghost use Rattle.mesh_types.specs.declared.mesh.Mesh.{Mesh};
ghost use Rattle.kept_paths.specs.declared.checks.KeptPath.{KeptPath};
ghost use Rattle.kept_paths.specs.KeptPaths.{CanCheck, IsChecked};
ghost use Rattle.nav_handle.specs.Answers.{EndsSo, IsAskedBy, IsRepliedBy};
ghost use Rattle.nav_handle.specs.Statuses as status;
ghost use Rattle.way_handle.specs.Checking.{CheckRoom, check_asked, check_ends, path_kept, told_check};

use crate::filters::filter_of;
use crate::reading::{links_of, polygon_of};
use kept_paths::{CheckAnswer, KeptPath};
use mesh_types::{Asked, Mesh};
use nav_handle::{
    CUT, HasMesh, NO_START, NavdLink, NavdPolygon, NavdTurn, NavdWay, OK, OUT_OF_RANGE, is_way,
    lay_links, lay_turns, point_of, polygon_told,
};
use path_queries::Filter;
use std::alloc::{AllocError, Global};

/// Where the walker of a kept path is and its goal, the polygon in which it was last, and which areas it may enter, bit a for area a, which the host
/// writes; and the polygon in which the path begins now, what the links that lead on cost, and how many links and turns there are, which the call
/// tells.
#[repr(C)]
#[derive(Clone, Copy)]
pub struct NavdKept {
    pub way: NavdWay,
    pub first: NavdPolygon,
    pub areas: u64,
    pub cost: u64,
    pub links: usize,
    pub turns: usize,
}

/// The filter of a kept path, if the question may be asked.
fn check_filter(kept: &NavdKept, costs: &[u32], links: &[NavdLink]) -> Option<Filter>
    ensures filter { IfSome result (λ filter. path_kept kept.now filter links.now ≡ check_asked kept.now costs.now links.now) }
    ensures rules { IfSome result (λ filter. CanCheck (path_kept kept.now filter links.now)) }
    ensures none { IfNone result (CanCheck (check_asked kept.now costs.now links.now) → ⊥) }
{
    if !is_way(&kept.way) || links.len() >= 4294967295 {
        return None;
    }
    filter_of(kept.areas, costs)
}

/// The path that is kept.
fn kept_path(
    alloc: Global,
    kept: &NavdKept,
    filter: &Filter,
    links: &[NavdLink],
) -> Result<KeptPath, AllocError>
    ensures { IfOk result (λ path. path ≡ path_kept kept.now filter.now links.now) }
{
    let links = links_of(alloc, links)?;
    Ok(KeptPath {
        from: point_of(kept.way.from),
        from_y: kept.way.from_y,
        goal: point_of(kept.way.to),
        goal_y: kept.way.to_y,
        filter: *filter,
        first: polygon_of(kept.first),
        links,
    })
}

/// The question whether a path with the links of the host's array leads on: they are copied only where there is a mesh.
#[derive(Drop)]
struct Checking<'a> {
    kept: NavdKept,
    filter: Filter,
    links: &'a [NavdLink],
}

impl<'a> Asked for Checking<'a> {
    type Answer = CheckAnswer;

    ghost can_ask = { λ asked. CanCheck (path_kept asked.kept asked.filter asked.links.now) };

    ghost is_right = { λ asked mesh answer. IsChecked (path_kept asked.kept asked.filter asked.links.now) mesh answer };

    fn ask(&self, alloc: Global, mesh: &Mesh) -> Result<CheckAnswer, AllocError> {
        let path = kept_path(alloc, &self.kept, &self.filter, self.links)?;
        path.ask(alloc, mesh)
    }
}

/// Asks whether a path leads on.
fn ask_check<H: HasMesh>(
    alloc: Global,
    held: &mut H,
    kept: &NavdKept,
    filter: Filter,
    links: &[NavdLink],
) -> Result<CheckAnswer, u32>
    requires { CanCheck (path_kept kept.now filter links.now) }
    ensures replied { IsRepliedBy (IsChecked (path_kept kept.now filter links.now)) (H.mesh_in held.old) result }
    ensures same { H.is_same held.old held.new }
{
    let asked = Checking {
        kept: *kept,
        filter,
        links,
    };
    held.ask_by(alloc, &asked)
}

/// How the question ends with an answer.
fn check_status(answer: &CheckAnswer) -> u32
    ensures { result ≡ check_ends answer.now }
{
    match answer {
        CheckAnswer::Whole { .. } => OK,
        CheckAnswer::Cut { .. } => CUT,
        CheckAnswer::NoStart => NO_START,
    }
}

/// Tells the links that lead on, and the turns where all of them do.
fn tell_check(
    answer: &CheckAnswer,
    kept: &mut NavdKept,
    links: &mut [NavdLink],
    turns: &mut [NavdTurn],
)
    ensures { (kept.new, links.new, turns.new) ≡ told_check answer.now (kept.old, links.old, turns.old) }
{
    match answer {
        CheckAnswer::Whole {
            first,
            cost,
            links: lead,
            turns: line,
        } => {
            lay_links(lead.as_slice(), links);
            lay_turns(line.as_slice(), turns);
            kept.first = polygon_told(*first);
            kept.cost = *cost;
            kept.links = lead.len();
            kept.turns = line.len();
        }
        CheckAnswer::Cut {
            first,
            cost,
            links: lead,
        } => {
            lay_links(lead.as_slice(), links);
            kept.first = polygon_told(*first);
            kept.cost = *cost;
            kept.links = lead.len();
            kept.turns = 0;
        }
        CheckAnswer::NoStart => {}
    }
}

/// How the question ends.
fn end_check(
    answer: Result<CheckAnswer, u32>,
    kept: &mut NavdKept,
    links: &mut [NavdLink],
    turns: &mut [NavdTurn],
) -> u32
    ensures { (held : Option Mesh) (path : KeptPath) → IsRepliedBy (IsChecked path) held answer
        → IsAskedBy (IsChecked path) check_ends told_check held (kept.old, links.old, turns.old) (kept.new, links.new, turns.new) result }
{
    match answer {
        Ok(answer) => {
            tell_check(&answer, kept, links, turns);
            check_status(&answer)
        }
        Err(status) => status,
    }
}

/// Whether a kept path still leads on in the mesh of a handle. The links of the path are read from `links`, and those as which they lead on
/// now are laid over the first of them.
pub fn check<H: HasMesh>(
    alloc: Global,
    held: &mut H,
    kept: &mut NavdKept,
    costs: &[u32],
    links: &mut [NavdLink],
    turns: &mut [NavdTurn],
) -> u32
    ensures asked { CanCheck (check_asked kept.old costs.now links.old) → IsAskedBy (IsChecked (check_asked kept.old costs.now links.old))
        check_ends told_check (H.mesh_in held.old) (kept.old, links.old, turns.old) (kept.new, links.new, turns.new) result }
    ensures refused { (CanCheck (check_asked kept.old costs.now links.old) → ⊥)
        → EndsSo {Room = CheckRoom} status.out_of_range (kept.old, links.old, turns.old) (kept.new, links.new, turns.new) result }
    ensures same { H.is_same held.old held.new }
{
    let Some(filter) = check_filter(kept, costs, links) else {
        return OUT_OF_RANGE;
    };
    let answer = ask_check(alloc, held, kept, filter, links);
    end_check(answer, kept, links, turns)
}
