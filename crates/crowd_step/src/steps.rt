//! One step of a crowd that steers itself.

ghost use Rattle.std.specs.Prelude.{◌≡◌, ◌<◌, ◌^◌, All, IfOk, OnErr, OnOk, length};
ghost use Rattle.nav_ground.specs.Limits.{IsSetting};
ghost use Rattle.mesh_types.specs.Soundness.{IsSound};
ghost use Rattle.crowd_moves.specs.Pairs.{HasSizes};
ghost use Rattle.crowd_step.specs.Kept.{AreWishesKept};
ghost use Rattle.crowd_step.specs.Steered.{IsSteeredStep};

use crate::intents::intents_of;
use crate::steering::{CrowdRules, Steering, Thought, remembered};
use crowd_filter::step;
use crowd_moves::{CrowdAgent, CrowdWishes};
use mesh_types::Mesh;
use nav_base::Point;
use std::alloc::{AllocError, Global};

/// One step of a crowd: the steering of each agent makes a list of moves of its wish, moves are granted in the order of ranks, and made. An agent that
/// sees nobody goes as it wishes, if the mesh lets it and the wish is no longer than its speed. What the host wishes stays as it says it; where memory is
/// refused nothing changes.
pub fn crowd_step(
    alloc: Global,
    mesh: &Mesh,
    rules: CrowdRules,
    agents: &mut [CrowdAgent],
    steering: &mut [Steering],
) -> Result<(), AllocError>
    requires sound { IsSound mesh.now }
    requires setting { IsSetting mesh.now.setting }
    requires sizes { All HasSizes agents.old }
    requires few { length agents.old < 2 ^ 32 }
    requires one_each { length steering.old ≡ length agents.old }
    ensures right { OnOk result (IsSteeredStep mesh.now rules.sight steering.old agents.old agents.new) }
    ensures kept { OnOk result (AreWishesKept steering.old steering.new) }
    ensures refused { OnErr result (agents.new ≡ agents.old) }
    ensures unsteered { OnErr result (steering.new ≡ steering.old) }
{
    let intents = intents_of(alloc, mesh, rules, agents, steering)?;
    let from = middles(alloc, agents)?;
    let wishes = CrowdWishes {
        order: intents.order.as_slice(),
        first: intents.first.as_slice(),
        vectors: intents.vectors.as_slice(),
    };
    step(alloc, mesh, wishes, rules.rounds.max(1), agents)?;
    remember(
        rules,
        from.as_slice(),
        agents,
        intents.thoughts.as_slice(),
        steering,
    );
    Ok(())
}

/// Where agents are.
fn middles(alloc: Global, agents: &[CrowdAgent]) -> Result<Vec<Point>, AllocError> {
    agents.iter().map(|agent| agent.at).collect(alloc)
}

/// Writes what each agent is to remember.
fn remember(
    rules: CrowdRules,
    from: &[Point],
    agents: &[CrowdAgent],
    thoughts: &[Thought],
    steering: &mut [Steering],
)
    ensures { AreWishesKept steering.old steering.new }
{
    for i in 0..steering.len() {
        if let (Some(place), Some(agent), Some(thought)) = (
            from.get(i),
            agents.get(i),
            thoughts.get(i),
        ) {
            steering[i] = remembered(rules, *place, agent, *thought, steering[i]);
        }
    }
}
