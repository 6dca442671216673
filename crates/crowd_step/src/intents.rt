//! The lists of moves that agents try.

ghost use Rattle.std.specs.Prelude.{◌≡◌, ◌<◌, ◌^◌, All, IfOk, IsTrue, OnOk, length};
ghost use Rattle.nav_ground.specs.Limits.{IsSetting};
ghost use Rattle.mesh_types.specs.Soundness.{IsSound};
ghost use Rattle.crowd_moves.specs.Pairs.{HasSizes};
ghost use Rattle.crowd_filter.specs.CrowdAgents.{IsCrowdAgent};
ghost use Rattle.crowd_step.specs.Lists.{AddsList, AreListed, Extends};
ghost use Rattle.crowd_step.specs.Orders.{AreNamed};
ghost use Rattle.crowd_step.specs.Steered.{IsInSight, IsOtherInSight, SeesNobody};

use crate::choosing::{Scratch, choose};
use crate::fan::Candidate;
use crate::footing::{Footing, placed_in};
use crate::ranks::{hand_ranks_on, order_of};
use crate::sights::{Sights, sights_of};
use crate::steering::{CrowdRules, Steering, Thought};
use crate::vectors::{point_of, vector_of};
use crate::walkers::{Walker, walkers_of};
use crowd_moves::CrowdAgent;
use mesh_types::Mesh;
use nav_base::Point;
use std::alloc::{AllocError, Global};

/// What all agents try in a step: who goes before others, where the list of each begins, the moves; and what each is to remember.
#[derive(Drop)]
pub(crate) struct Intents {
    pub(crate) order: Vec<u32>,
    pub(crate) first: Vec<usize>,
    pub(crate) vectors: Vec<Point>,
    pub(crate) thoughts: Vec<Thought>,
}

/// The agents of a step, as they are and in their polygons, with their steering and with whom they see.
#[derive(Clone, Copy)]
pub(crate) struct Scene<'a> {
    pub(crate) mesh: &'a Mesh,
    pub(crate) rules: CrowdRules,
    pub(crate) agents: &'a [CrowdAgent],
    pub(crate) placed: &'a [CrowdAgent],
    pub(crate) steering: &'a [Steering],
    pub(crate) walkers: &'a [Walker],
    pub(crate) sights: &'a Sights,
}

/// What agents with their steering try.
pub(crate) fn intents_of(
    alloc: Global,
    mesh: &Mesh,
    rules: CrowdRules,
    agents: &[CrowdAgent],
    steering: &[Steering],
) -> Result<Intents, AllocError>
    requires sound { IsSound mesh.now }
    requires setting { IsSetting mesh.now.setting }
    requires sizes { All HasSizes agents.now }
    requires few { length agents.now < 2 ^ 32 }
    requires one_each { length steering.now ≡ length agents.now }
    ensures order { IfOk result (λ intents. AreNamed (length agents.now) intents.order.items) }
    ensures lists { IfOk result (λ intents. AreListed rules.sight agents.now steering.now intents.first.items intents.vectors.items (length agents.now)) }
    ensures thoughts { IfOk result (λ intents. length intents.thoughts.items ≡ length agents.now) }
{
    let placed = placed_in(alloc, mesh, agents)?;
    let mut walkers = walkers_of(alloc, placed.as_slice(), steering)?;
    let height = mesh.setting.agent.height;
    let sights = sights_of(alloc, height, rules.sight, agents, walkers.as_slice())?;
    hand_ranks_on(&sights, walkers.as_mut_slice());
    let order = order_of(alloc, walkers.as_slice())?;
    let scene = Scene {
        mesh,
        rules,
        agents,
        placed: placed.as_slice(),
        steering,
        walkers: walkers.as_slice(),
        sights: &sights,
    };
    lists(alloc, scene, order)
}

/// The lists of all, one after the other.
fn lists(alloc: Global, scene: Scene, order: Vec<u32>) -> Result<Intents, AllocError>
    requires sound { IsSound scene.mesh.now }
    requires sizes { All HasSizes scene.agents.now }
    requires placed { All (IsCrowdAgent scene.mesh.now) scene.placed.now }
    requires placed_each { length scene.placed.now ≡ length scene.agents.now }
    requires one_each { length scene.steering.now ≡ length scene.agents.now }
    ensures order { IfOk result (λ intents. intents.order ≡ order) }
    ensures lists { IfOk result (λ intents. AreListed scene.entry.rules.sight scene.entry.agents.now scene.entry.steering.now intents.first.items intents.vectors.items (length scene.entry.agents.now)) }
    ensures thoughts { IfOk result (λ intents. length intents.thoughts.items ≡ length scene.entry.agents.now) }
{
    let mut scratch = Scratch {
        planes: Vec::new(alloc),
        tried: Vec::new(alloc),
    };
    let mut first = Vec::with_capacity(alloc, scene.agents.len())?;
    let mut vectors = Vec::new(alloc);
    let mut thoughts = Vec::with_capacity(alloc, scene.agents.len())?;
    first.push(0)?;
    for i in 0..scene.agents.len() {
        let thought = push_list(scene, i, &mut scratch, &mut vectors)?;
        thoughts.push(thought)?;
        first.push(vectors.len())?;
    }
    Ok(Intents {
        order,
        first,
        vectors,
        thoughts,
    })
}

/// Adds the list of one agent: its wish alone where it sees nobody.
fn push_list(
    scene: Scene,
    i: usize,
    scratch: &mut Scratch,
    vectors: &mut Vec<Point>,
) -> Result<Thought, AllocError>
    requires sound { IsSound scene.mesh.now }
    requires sizes { All HasSizes scene.agents.now }
    requires placed { All (IsCrowdAgent scene.mesh.now) scene.placed.now }
    requires placed_each { length scene.placed.now ≡ length scene.agents.now }
    requires one_each { length scene.steering.now ≡ length scene.agents.now }
    requires there { i < length scene.agents.now }
    ensures { OnOk result (AddsList scene.entry.rules.sight scene.entry.agents.now scene.entry.steering.now i vectors.old.items vectors.new.items) }
{
    let seen = scene.sights.of(i);
    if !sees_any(scene.rules.sight, scene.agents, i, seen) {
        let wish = scene.steering[i].wish;
        vectors.push(wish)?;
        return Ok(Thought {
            meant: vector_of(wish),
            leads: true,
        });
    }
    let footing = Footing {
        mesh: scene.mesh,
        agent: &scene.placed[i],
    };
    let thought = choose(footing, scene.rules, scene.walkers, i, seen, scratch)?;
    push_tried(scratch.tried.as_slice(), vectors)?;
    Ok(thought)
}

/// Adds the moves that are tried.
fn push_tried(tried: &[Candidate], vectors: &mut Vec<Point>) -> Result<(), AllocError>
    ensures { OnOk result (Extends vectors.old.items vectors.new.items) }
{
    for candidate in tried {
        vectors.push(point_of(candidate.by))?;
    }
    Ok(())
}

/// Whether an agent sees one of those at which it is to look.
fn sees_any(sight: u32, agents: &[CrowdAgent], i: usize, seen: &[u32]) -> bool
    requires sizes { All HasSizes agents.now }
    requires there { i < length agents.now }
    ensures { IsTrue result → SeesNobody sight agents.now i → ⊥ }
{
    for place in seen {
        if is_other_in_sight(sight, agents, i, *place as usize) {
            return true;
        }
    }
    false
}

/// Whether an agent is another than one, and in its sight.
fn is_other_in_sight(sight: u32, agents: &[CrowdAgent], i: usize, j: usize) -> bool
    requires sizes { All HasSizes agents.now }
    requires there { i < length agents.now }
    ensures { IsTrue result → IsOtherInSight sight agents.now i j }
{
    if j == i || j >= agents.len() {
        return false;
    }
    is_in_sight(sight, &agents[i], &agents[j])
}

/// Whether another agent is in sight of one.
fn is_in_sight(sight: u32, a: &CrowdAgent, b: &CrowdAgent) -> bool
    requires first { HasSizes a.now }
    requires second { HasSizes b.now }
    ensures { IsTrue result → IsInSight sight a.now b.now }
{
    let reach = sight.max(a.radius + b.radius + a.speed + b.speed);
    let across = b.at.x - a.at.x;
    let along = b.at.z - a.at.z;
    across.unsigned_abs() <= reach && along.unsigned_abs() <= reach
}
