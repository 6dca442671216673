//! The sizes of agents that wait.

ghost use Rattle.std.specs.Prelude.{◌≡◌, List, Option};
ghost use Rattle.mesh_types.specs.declared.mesh.Mesh.{Mesh};
ghost use Rattle.nav_handle.specs.Answers.{EndsSo, IsAskedBy, IsRepliedBy};
ghost use Rattle.nav_handle.specs.Statuses as status;
ghost use Rattle.crowd_handle.specs.declared.agents.NavdAgent.{NavdAgent};
ghost use Rattle.crowd_handle.specs.declared.agents.NavdCrowd.{NavdCrowd};
ghost use Rattle.crowd_handle.specs.Slimming.{AreSlimmedBy, radius_told, slim_ends, told_slim};
ghost use Rattle.crowd_handle.specs.Stepping.{CanStep};

use crate::agents::{NavdAgent, NavdCrowd, agents_of};
use crate::steering::{full_radii, rules_of, steering_of};
use crate::stepping::can_step;
use crowd_moves::CrowdAgent;
use crowd_step::slim;
use mesh_types::{Asked, Mesh};
use nav_handle::{HasMesh, OK, OUT_OF_RANGE};
use nav_lists::Items;
use std::alloc::{AllocError, Global};

/// The question how large agents of the host's array are to be: they are copied only where there is a mesh.
#[derive(Drop)]
struct WaitingAgents<'a> {
    rules: NavdCrowd,
    agents: &'a [NavdAgent],
}

impl<'a> Asked for WaitingAgents<'a> {
    type Answer = Items<CrowdAgent>;

    ghost can_ask = { λ asked. CanStep asked.rules asked.agents.now };

    ghost is_right = { λ asked mesh after. AreSlimmedBy asked.rules asked.agents.now mesh after };

    fn ask(&self, alloc: Global, mesh: &Mesh) -> Result<Items<CrowdAgent>, AllocError> {
        let mut agents = agents_of(alloc, self.agents)?;
        let full = full_radii(alloc, self.agents)?;
        let steering = steering_of(alloc, self.agents)?;
        slim(
            mesh.setting.agent.height,
            rules_of(self.rules),
            full.as_slice(),
            steering.as_slice(),
            agents.as_mut_slice(),
        );
        Ok(Items::from_vec(agents))
    }
}

fn tell_radius(after: &CrowdAgent, agent: &mut NavdAgent)
    ensures { agent.new ≡ radius_told after.now agent.old }
{
    agent.radius = after.radius;
}

/// Tells the radii of the agents of a list, as far as it and the room go.
fn tell_radii(after: &[CrowdAgent], room: &mut [NavdAgent])
    ensures { room.new ≡ told_slim after.now room.old }
{
    let count = after.len().min(room.len());
    for place in 0..count {
        tell_radius(&after[place], &mut room[place]);
    }
}

/// How the question ends.
fn end_slim(after: Result<Items<CrowdAgent>, u32>, agents: &mut [NavdAgent]) -> u32
    ensures { (held : Option Mesh) (rules : NavdCrowd) (before : List NavdAgent) → IsRepliedBy (AreSlimmedBy rules before) held after
        → IsAskedBy (AreSlimmedBy rules before) slim_ends told_slim held agents.old agents.new result }
{
    match after {
        Ok(after) => {
            tell_radii(after.as_slice(), agents);
            OK
        }
        Err(status) => status,
    }
}

/// Lets agents that waited for three seconds be slim, and those that go and have room of their full size, over the mesh of a handle.
pub fn slim_crowd<H: HasMesh>(
    alloc: Global,
    held: &mut H,
    rules: &NavdCrowd,
    agents: &mut [NavdAgent],
) -> u32
    ensures asked { CanStep rules.now agents.old → IsAskedBy (AreSlimmedBy rules.now agents.old) slim_ends told_slim
        (H.mesh_in held.old) agents.old agents.new result }
    ensures refused { (CanStep rules.now agents.old → ⊥) → EndsSo status.out_of_range agents.old agents.new result }
    ensures same { H.is_same held.old held.new }
{
    if !can_step(rules, agents) {
        return OUT_OF_RANGE;
    }
    let asked = WaitingAgents {
        rules: *rules,
        agents,
    };
    let after = held.ask_by(alloc, &asked);
    end_slim(after, agents)
}
