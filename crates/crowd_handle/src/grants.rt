//! Steps of a crowd with wishes of the host's own.

ghost use Rattle.std.specs.Prelude.{◌≡◌, ◌↔◌, IsTrue, List, Option, ℕ};
ghost use Rattle.mesh_types.specs.declared.mesh.Mesh.{Mesh};
ghost use Rattle.nav_handle.specs.Answers.{EndsSo, IsAskedBy, IsRepliedBy};
ghost use Rattle.nav_handle.specs.Statuses as status;
ghost use Rattle.crowd_handle.specs.declared.agents.NavdAgent.{NavdAgent};
ghost use Rattle.crowd_handle.specs.declared.agents.NavdFine.{NavdFine};
ghost use Rattle.crowd_handle.specs.Granting.{CanGrant, IsGrantedBy, grant_ends, told_grant};

use crate::agents::{
    NavdAgent, NavdCrowd, NavdFine, agents_of, are_rules, are_told_right, fine_points,
    tell_all_placed,
};
use crowd_filter::step;
use crowd_moves::{CrowdAgent, CrowdWishes};
use mesh_types::{Asked, Mesh};
use nav_handle::{HasMesh, OK, OUT_OF_RANGE};
use nav_lists::Items;
use std::alloc::{AllocError, Global};

/// The question how agents of the host's array stand after a step, in which each is granted the first move of its list that is free: they are copied
/// only where there is a mesh.
#[derive(Drop)]
struct GrantedStep<'a> {
    rules: NavdCrowd,
    agents: &'a [NavdAgent],
    order: &'a [u32],
    first: &'a [usize],
    moves: &'a [NavdFine],
}

impl<'a> Asked for GrantedStep<'a> {
    type Answer = Items<CrowdAgent>;

    ghost can_ask = { λ asked. CanGrant asked.rules asked.agents.now asked.first.now };

    ghost is_right = { λ asked mesh after. IsGrantedBy asked.order.now asked.first.now asked.moves.now asked.agents.now mesh after };

    fn ask(&self, alloc: Global, mesh: &Mesh) -> Result<Items<CrowdAgent>, AllocError> {
        let mut agents = agents_of(alloc, self.agents)?;
        let vectors = fine_points(alloc, self.moves)?;
        let wishes = CrowdWishes {
            order: self.order,
            first: self.first,
            vectors: vectors.as_slice(),
        };
        let _settles = step(
            alloc,
            mesh,
            wishes,
            self.rules.rounds,
            agents.as_mut_slice(),
        )?;
        Ok(Items::from_vec(agents))
    }
}

/// Whether a step may be asked.
fn can_grant(rules: &NavdCrowd, agents: &[NavdAgent], first: &[usize]) -> bool
    ensures { IsTrue result ↔ CanGrant rules.now agents.now first.now }
{
    are_rules(rules) && are_told_right(agents) && first.len() == agents.len() + 1
}

/// How a step ends.
fn end_grant(after: Result<Items<CrowdAgent>, u32>, agents: &mut [NavdAgent]) -> u32
    ensures { (held : Option Mesh) (order first : List ℕ) (moves : List NavdFine) (before : List NavdAgent) → IsRepliedBy (IsGrantedBy order first moves before) held after
        → IsAskedBy (IsGrantedBy order first moves before) grant_ends told_grant held agents.old agents.new result }
{
    match after {
        Ok(after) => {
            tell_all_placed(after.as_slice(), agents);
            OK
        }
        Err(status) => status,
    }
}

/// One step of a crowd over the mesh of a handle: agent i is granted the first of the moves from `first[i]` to before `first[i + 1]` that is free.
pub fn grant_wishes<H: HasMesh>(
    alloc: Global,
    held: &mut H,
    rules: &NavdCrowd,
    agents: &mut [NavdAgent],
    order: &[u32],
    first: &[usize],
    moves: &[NavdFine],
) -> u32
    ensures asked { CanGrant rules.now agents.old first.now → IsAskedBy (IsGrantedBy order.now first.now moves.now agents.old) grant_ends told_grant
        (H.mesh_in held.old) agents.old agents.new result }
    ensures refused { (CanGrant rules.now agents.old first.now → ⊥) → EndsSo status.out_of_range agents.old agents.new result }
    ensures same { H.is_same held.old held.new }
{
    if !can_grant(rules, agents, first) {
        return OUT_OF_RANGE;
    }
    let asked = GrantedStep {
        rules: *rules,
        agents,
        order,
        first,
        moves,
    };
    let after = held.ask_by(alloc, &asked);
    end_grant(after, agents)
}
