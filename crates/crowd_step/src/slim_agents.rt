//! Slim agents.

ghost use Rattle.std.specs.Prelude.{◌≡◌, ◌≤◌, ◌<◌, ℕ, All, length};
ghost use Rattle.crowd_moves.specs.declared.agents.CrowdAgent.{CrowdAgent};
ghost use Rattle.crowd_moves.specs.Pairs.{HasSizes};
ghost use Rattle.crowd_step.specs.Slim;
ghost use Rattle.crowd_step.specs.Slim.{AreAllApart, AreSlimmed, others_of, with_radius};

use crate::steering::{CrowdRules, Steering};
use crowd_moves::{CrowdAgent, has_room};

/// Lets those that waited for three seconds be slim: with a quarter of their full radius, but at least 1. Those that do not wait have the full one again
/// where they overlap nobody with it. This goes from one agent to the next, and who did not overlap before it does not then.
pub fn slim(
    height: u32,
    rules: CrowdRules,
    full: &[u32],
    steering: &[Steering],
    agents: &mut [CrowdAgent],
)
    requires sizes { All HasSizes agents.old }
    requires full_sizes { All (λ (n : ℕ). n ≤ 8191) full.now }
    requires full_each { length full.now ≡ length agents.old }
    requires one_each { length steering.now ≡ length agents.old }
    ensures slimmed { AreSlimmed height rules.hz full.now steering.now agents.old agents.new }
    ensures apart { AreAllApart height agents.old → AreAllApart height agents.new }
    ensures sizes { All HasSizes agents.new }
{
    for i in 0..agents.len() {
        let agent = agents[i];
        let others = Others { height, agents, i };
        let radius = next_radius(others, &agent, rules.hz, full[i], &steering[i]);
        agents[i] = CrowdAgent { radius, ..agent };
    }
}

/// The other agents than that at a place, and the height of all.
#[derive(Clone, Copy)]
struct Others<'a> {
    height: u32,
    agents: &'a [CrowdAgent],
    i: usize,
}

/// The radius that an agent is to have beside others.
fn next_radius(others: Others, agent: &CrowdAgent, hz: u32, full: u32, own: &Steering) -> u32
    requires sizes { All HasSizes others.agents.now }
    requires agent { HasSizes agent.now }
    requires full { full ≤ 8191 }
    requires there { others.i < length others.agents.now }
    ensures value { result ≡ Slim.next_radius others.entry.height hz full own.now agent.now (others_of others.entry.i others.entry.agents.now) }
    ensures small { result ≤ 8191 }
{
    if did_wait_long(hz, own) {
        return slim_radius(full, agent.radius);
    }
    if own.waited == 0 && agent.radius < full && has_room_with(others, agent, full) {
        return full;
    }
    agent.radius
}

/// Whether an agent waited for three seconds.
fn did_wait_long(hz: u32, own: &Steering) -> bool
    ensures { result ≡ Slim.did_wait_long hz own.now }
{
    3 * u64::from(hz) <= u64::from(own.waited)
}

/// The radius of a slim agent.
fn slim_radius(full: u32, radius: u32) -> u32
    ensures { result ≡ Slim.slim_radius full radius }
{
    radius.min((full / 4).max(1))
}

/// Whether an agent overlaps none of the others with another radius.
fn has_room_with(others: Others, agent: &CrowdAgent, radius: u32) -> bool
    requires sizes { All HasSizes others.agents.now }
    requires agent { HasSizes agent.now }
    requires radius { radius ≤ 8191 }
    requires there { others.i < length others.agents.now }
    ensures { result ≡ Slim.has_room_with others.entry.height radius agent.now (others_of others.entry.i others.entry.agents.now) }
{
    let wide = CrowdAgent { radius, ..*agent };
    let before = has_room(&others.agents[..others.i], others.height, &wide);
    let behind = has_room(&others.agents[others.i + 1..], others.height, &wide);
    before & behind
}
