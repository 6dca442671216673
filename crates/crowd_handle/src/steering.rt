//! The steering of agents over the border.

ghost use Rattle.std.specs.Prelude.{◌≡◌, IfOk};
ghost use Rattle.crowd_handle.specs.CrowdSteering;
ghost use Rattle.crowd_handle.specs.CrowdSteering.{all_steering_told, full_radii, steering_of, steering_told};

use crate::agents::{NavdAgent, NavdCrowd, fine_point, fine_told};
use crowd_step::{CrowdRules, Steering};
use std::alloc::{AllocError, Global};

/// The rules of a host's crowd.
pub(crate) fn rules_of(rules: NavdCrowd) -> CrowdRules
    ensures { result ≡ record { sight = rules.sight; hz = rules.hz; rounds = rules.rounds } }
{
    CrowdRules {
        sight: rules.sight,
        hz: rules.hz,
        rounds: rules.rounds,
    }
}

fn own_steering(agent: &NavdAgent) -> Steering
    ensures { result ≡ CrowdSteering.own_steering agent.now }
{
    Steering {
        wish: fine_point(agent.wish),
        left: agent.left,
        idle: agent.idle != 0,
        last: fine_point(agent.last),
        meant: fine_point(agent.meant),
        waited: agent.waited,
        tired: agent.tired,
    }
}

/// The steering of the agents of the host's array.
pub(crate) fn steering_of(alloc: Global, agents: &[NavdAgent]) -> Result<Vec<Steering>, AllocError>
    ensures { IfOk result (λ list. list.items ≡ steering_of agents.now) }
{
    let mut list = Vec::with_capacity(alloc, agents.len())?;
    for agent in agents {
        list.push(own_steering(agent))?;
    }
    Ok(list)
}

/// The full radii of the agents of the host's array.
pub(crate) fn full_radii(alloc: Global, agents: &[NavdAgent]) -> Result<Vec<u32>, AllocError>
    ensures { IfOk result (λ list. list.items ≡ full_radii agents.now) }
{
    agents.iter().map(|agent| agent.full).collect(alloc)
}

fn tell_steering(own: &Steering, agent: &mut NavdAgent)
    ensures { agent.new ≡ steering_told own.now agent.old }
{
    agent.last = fine_told(own.last);
    agent.meant = fine_told(own.meant);
    agent.waited = own.waited;
    agent.tired = own.tired;
}

/// Tells what the agents of a list are to remember, as far as it and the room go.
pub(crate) fn tell_all_steering(steering: &[Steering], room: &mut [NavdAgent])
    ensures { room.new ≡ all_steering_told steering.now room.old }
{
    let count = steering.len().min(room.len());
    for place in 0..count {
        tell_steering(&steering[place], &mut room[place]);
    }
}
