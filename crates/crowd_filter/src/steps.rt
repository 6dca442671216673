//! One step of a crowd on a mesh.

ghost use Rattle.std.specs.Prelude.{◌≡◌, ◌<◌, ◌^◌, All, IfOk, OnErr, length, slice_get, Some, ℕ};
ghost use Rattle.nav_ground.specs.Limits.{IsSetting};
ghost use Rattle.mesh_types.specs.Soundness.{IsSound};
ghost use Rattle.crowd_moves.specs.declared.agents.CrowdAgent.{CrowdAgent};
ghost use Rattle.crowd_moves.specs.declared.agents.CrowdMove.{CrowdMove};
ghost use Rattle.crowd_moves.specs.Pairs.{HasSizes};
ghost use Rattle.crowd_moves.specs.Steps.{MayMove};
ghost use Rattle.crowd_filter.specs.CrowdAgents.{IsCrowdAgent, MayWalk};
ghost use Rattle.crowd_filter.specs.CrowdSteps;
ghost use Rattle.crowd_filter.specs.CrowdSteps.{AreGrantedIn, ArePlacedAnew, HaveMoved, IsCrowdStep};

use crate::placing::{floors, place};
use crate::space::{MeshSpace, sum};
use crowd_moves::{Crowd, CrowdAgent, CrowdMove, CrowdWishes, find_contacts, grant, stand};
use mesh_types::Mesh;
use std::alloc::{AllocError, Global};

/// One step of a crowd: each agent is placed in the mesh, gets the first of its wishes that the mesh lets it make and that is clear of the moves of all
/// others, in at most so many rounds, and makes it. Whether in the last round nobody could gain any more. Where memory is refused nothing changes.
pub fn step(
    alloc: Global,
    mesh: &Mesh,
    wishes: CrowdWishes,
    rounds: u32,
    agents: &mut [CrowdAgent],
) -> Result<bool, AllocError>
    requires sound { IsSound mesh.now }
    requires setting { IsSetting mesh.now.setting }
    requires sizes { All HasSizes agents.old }
    requires few { length agents.old < 2 ^ 32 }
    requires rounds { 0 < rounds }
    ensures right { IfOk result (λ settles. IsCrowdStep mesh.now wishes.entry.order.now wishes.entry.first.now wishes.entry.vectors.now agents.old agents.new settles) }
    ensures refused { OnErr result (agents.new ≡ agents.old) }
{
    let placed = placed_anew(alloc, mesh, agents)?;
    let granted = granted(alloc, mesh, wishes, rounds, placed.as_slice())?;
    make_moves(mesh, placed.as_slice(), granted.moves.as_slice(), agents);
    Ok(granted.settles)
}

/// The moves that are granted, and whether nobody could gain any more.
#[derive(Drop)]
struct GrantedMoves {
    moves: Vec<CrowdMove>,
    settles: bool,
}

/// The agents in their polygons of this mesh.
fn placed_anew(
    alloc: Global,
    mesh: &Mesh,
    agents: &[CrowdAgent],
) -> Result<Vec<CrowdAgent>, AllocError>
    requires sound { IsSound mesh.now }
    requires setting { IsSetting mesh.now.setting }
    requires sizes { All HasSizes agents.now }
    ensures { IfOk result (λ placed. ArePlacedAnew mesh.now agents.now placed.items) }
{
    let mut placed = Vec::with_capacity(alloc, agents.len())?;
    for i in 0..agents.len() {
        placed.push(place(mesh, agents[i]))?;
    }
    Ok(placed)
}

/// The moves that agents in the mesh are granted of their wishes.
fn granted(
    alloc: Global,
    mesh: &Mesh,
    wishes: CrowdWishes,
    rounds: u32,
    placed: &[CrowdAgent],
) -> Result<GrantedMoves, AllocError>
    requires sound { IsSound mesh.now }
    requires agents { All (IsCrowdAgent mesh.now) placed.now }
    requires few { length placed.now < 2 ^ 32 }
    requires rounds { 0 < rounds }
    ensures { IfOk result (λ granted. AreGrantedIn mesh.now wishes.entry.order.now wishes.entry.first.now wishes.entry.vectors.now placed.now granted.moves.items granted.settles) }
{
    let space = MeshSpace { mesh };
    let contacts = find_contacts(alloc, placed)?;
    let mut moves = stand(alloc, &space, placed)?;
    let crowd = Crowd {
        height: mesh.setting.agent.height,
        agents: placed,
        contacts: &contacts,
    };
    let settles = grant(&space, crowd, wishes, rounds, moves.as_mut_slice());
    Ok(GrantedMoves { moves, settles })
}

/// Writes each agent as it is after its move.
fn make_moves(mesh: &Mesh, placed: &[CrowdAgent], moves: &[CrowdMove], agents: &mut [CrowdAgent])
    requires agents { All (IsCrowdAgent mesh.now) placed.now }
    requires moves { (i : ℕ) (a : CrowdAgent) (m : CrowdMove) → slice_get placed.now i ≡ Some a → slice_get moves.now i ≡ Some m → MayMove (MayWalk mesh.now) a m }
    requires one_each { length agents.old ≡ length placed.now }
    requires one_move { length moves.now ≡ length placed.now }
    ensures { HaveMoved mesh.now placed.now moves.now agents.new }
{
    for i in 0..agents.len() {
        agents[i] = moved(mesh, &placed[i], &moves[i]);
    }
}

/// An agent after its move.
fn moved(mesh: &Mesh, agent: &CrowdAgent, made: &CrowdMove) -> CrowdAgent
    requires agent { IsCrowdAgent mesh.now agent.now }
    requires made { MayMove (MayWalk mesh.now) agent.now made.now }
    ensures { result ≡ CrowdSteps.moved mesh.now agent.now made.now }
{
    if agent.stranded {
        return *agent;
    }
    let (low, high) = floors(mesh, made.to);
    CrowdAgent {
        at: sum(agent.at, made.by),
        polygon: made.to,
        low,
        high,
        ..*agent
    }
}
