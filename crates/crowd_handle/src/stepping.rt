//! Steps of a crowd that steers itself.

ghost use Rattle.std.specs.Prelude.{◌≡◌, ◌↔◌, IsTrue, List, Option};
ghost use Rattle.mesh_types.specs.declared.mesh.Mesh.{Mesh};
ghost use Rattle.nav_handle.specs.Answers.{EndsSo, IsAskedBy, IsRepliedBy};
ghost use Rattle.nav_handle.specs.Statuses as status;
ghost use Rattle.crowd_handle.specs.declared.agents.NavdAgent.{NavdAgent};
ghost use Rattle.crowd_handle.specs.declared.agents.NavdCrowd.{NavdCrowd};
ghost use Rattle.crowd_handle.specs.Stepping.{CanStep, IsSteppedBy, step_ends, told_step};

use crate::agents::{NavdAgent, NavdCrowd, agents_of, are_rules, are_told_right, tell_all_placed};
use crate::steering::{rules_of, steering_of, tell_all_steering};
use crowd_moves::CrowdAgent;
use crowd_step::{Steering, crowd_step};
use mesh_types::{Asked, Mesh};
use nav_handle::{HasMesh, OK, OUT_OF_RANGE};
use nav_lists::Items;
use std::alloc::{AllocError, Global};

/// Agents after a step, and what they are to remember.
#[derive(Drop)]
pub struct CrowdAfter {
    pub agents: Items<CrowdAgent>,
    pub steering: Items<Steering>,
}

/// The question how agents of the host's array stand after a step by their wishes: they are copied only where there is a mesh.
#[derive(Drop)]
struct SteeredStep<'a> {
    rules: NavdCrowd,
    agents: &'a [NavdAgent],
}

impl<'a> Asked for SteeredStep<'a> {
    type Answer = CrowdAfter;

    ghost can_ask = { λ asked. CanStep asked.rules asked.agents.now };

    ghost is_right = { λ asked mesh after. IsSteppedBy asked.rules asked.agents.now mesh after };

    fn ask(&self, alloc: Global, mesh: &Mesh) -> Result<CrowdAfter, AllocError> {
        let mut agents = agents_of(alloc, self.agents)?;
        let mut steering = steering_of(alloc, self.agents)?;
        crowd_step(
            alloc,
            mesh,
            rules_of(self.rules),
            agents.as_mut_slice(),
            steering.as_mut_slice(),
        )?;
        Ok(CrowdAfter {
            agents: Items::from_vec(agents),
            steering: Items::from_vec(steering),
        })
    }
}

/// Whether a step may be asked.
pub(crate) fn can_step(rules: &NavdCrowd, agents: &[NavdAgent]) -> bool
    ensures { IsTrue result ↔ CanStep rules.now agents.now }
{
    are_rules(rules) && are_told_right(agents)
}

/// How a step ends.
fn end_step(after: Result<CrowdAfter, u32>, agents: &mut [NavdAgent]) -> u32
    ensures { (held : Option Mesh) (rules : NavdCrowd) (before : List NavdAgent) → IsRepliedBy (IsSteppedBy rules before) held after
        → IsAskedBy (IsSteppedBy rules before) step_ends told_step held agents.old agents.new result }
{
    match after {
        Ok(after) => {
            tell_all_placed(after.agents.as_slice(), agents);
            tell_all_steering(after.steering.as_slice(), agents);
            OK
        }
        Err(status) => status,
    }
}

/// One step of a crowd over the mesh of a handle, by the wishes of its agents.
pub fn step_crowd<H: HasMesh>(
    alloc: Global,
    held: &mut H,
    rules: &NavdCrowd,
    agents: &mut [NavdAgent],
) -> u32
    ensures asked { CanStep rules.now agents.old → IsAskedBy (IsSteppedBy rules.now agents.old) step_ends told_step
        (H.mesh_in held.old) agents.old agents.new result }
    ensures refused { (CanStep rules.now agents.old → ⊥) → EndsSo status.out_of_range agents.old agents.new result }
    ensures same { H.is_same held.old held.new }
{
    if !can_step(rules, agents) {
        return OUT_OF_RANGE;
    }
    let asked = SteeredStep {
        rules: *rules,
        agents,
    };
    let after = held.ask_by(alloc, &asked);
    end_step(after, agents)
}
