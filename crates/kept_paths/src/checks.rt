//! The question whether a kept path still leads on, and its answers.

ghost use Rattle.std.specs.Prelude.{IfOk};
ghost use Rattle.nav_ground.specs.Limits.{IsSetting};
ghost use Rattle.mesh_types.specs.Soundness.{IsSound};
ghost use Rattle.kept_paths.specs.KeptPaths.{CanCheck, IsBeginning, IsChecked};

use crate::beginnings::{beginning, holds_at};
use crate::leads::lead_from;
use mesh_types::{Asked, Corner, Link, Mesh, PolyRef};
use nav_base::Point;
use nav_lists::Items;
use path_queries::{Filter, turns};
use std::alloc::{AllocError, Global};

/// A path that is kept: where its walker is now, its goal, the filter by which it was found, the polygon in which the walker was last, and
/// the links from there to the goal. Points are in sixteenths of a cell and heights in height units.
#[derive(PartialEq, Eq, Drop)]
pub struct KeptPath {
    pub from: Point,
    pub from_y: u32,
    pub goal: Point,
    pub goal_y: u32,
    pub filter: Filter,
    pub first: PolyRef,
    pub links: Items<Link>,
}

/// What the question whether a kept path still leads on is answered.
#[derive(PartialEq, Eq, Drop)]
pub enum CheckAnswer {
    /// All of it does, to the goal: the polygon in which it begins now, what it costs, its links as they are now, and where it turns; each
    /// turn names the portal of a link by the link's place, from 0. Cheaper ways may have opened.
    Whole {
        first: PolyRef,
        cost: u64,
        links: Items<Link>,
        turns: Items<Corner>,
    },
    /// A part of it does: as many links as are told here; where those are all, the goal has left the last polygon.
    Cut {
        first: PolyRef,
        cost: u64,
        links: Items<Link>,
    },
    /// In no polygon that holds the place a link leads through the first portal; or, where no link is kept, no polygon holds the place.
    NoStart,
}

/// How far a kept path leads on in a mesh. Only memory can be refused.
pub fn check(alloc: Global, mesh: &Mesh, path: &KeptPath) -> Result<CheckAnswer, AllocError>
    requires sound { IsSound mesh.now }
    requires setting { IsSetting mesh.now.setting }
    requires path { CanCheck path.now }
    ensures right { IfOk result (λ answer. IsChecked path.now mesh.now answer) }
{
    match beginning(mesh, path) {
        Some(first) => check_from(alloc, mesh, path, first),
        None => Ok(CheckAnswer::NoStart),
    }
}

/// The same, from the polygon in which it begins.
fn check_from(
    alloc: Global,
    mesh: &Mesh,
    path: &KeptPath,
    first: PolyRef,
) -> Result<CheckAnswer, AllocError>
    requires sound { IsSound mesh.now }
    requires setting { IsSetting mesh.now.setting }
    requires path { CanCheck path.now }
    requires first { IsBeginning mesh.now path.now first }
    ensures { IfOk result (λ answer. IsChecked path.now mesh.now answer) }
{
    let lead = lead_from(alloc, mesh, &path.filter, first, path.links.as_slice())?;
    let cost = lead.cost;
    let whole = lead.links.len() == path.links.len();
    if whole && holds_at(mesh, path.goal, path.goal_y, lead.last) {
        let turns = turns(alloc, path.from, lead.links.as_slice(), path.goal)?;
        return Ok(CheckAnswer::Whole {
            first,
            cost,
            links: lead.links,
            turns,
        });
    }
    Ok(CheckAnswer::Cut {
        first,
        cost,
        links: lead.links,
    })
}

impl Asked for KeptPath {
    type Answer = CheckAnswer;

    ghost can_ask = { λ path. CanCheck path };

    ghost is_right = { λ path mesh answer. IsChecked path mesh answer };

    fn ask(&self, alloc: Global, mesh: &Mesh) -> Result<CheckAnswer, AllocError> {
        check(alloc, mesh, self)
    }
}
