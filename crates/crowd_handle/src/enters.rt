//! Where an agent that enters a crowd stands.

ghost use Rattle.std.specs.Prelude.{◌≡◌, ◌↔◌, IsTrue, List, Option, ℕ};
ghost use Rattle.mesh_types.specs.declared.mesh.Mesh.{Mesh};
ghost use Rattle.nav_handle.specs.Answers.{EndsSo, IsAskedBy, IsRepliedBy};
ghost use Rattle.nav_handle.specs.Statuses as status;
ghost use Rattle.crowd_handle.specs.declared.agents.NavdAgent.{NavdAgent};
ghost use Rattle.crowd_handle.specs.Entering;
ghost use Rattle.crowd_handle.specs.Entering.{CanEnter, IsEnteredBy, enter_ends, told_enter};

use crate::agents::{NavdAgent, agent_of, agents_of, are_told_right, is_told_right, tell_placed};
use crowd_filter::place;
use crowd_moves::{CrowdAgent, has_room};
use mesh_types::{Asked, Mesh, PolyRef};
use nav_handle::{HasMesh, NO_START, OK, OUT_OF_RANGE};
use std::alloc::{AllocError, Global};

/// An agent overlaps another one.
pub const OVERLAPS: u32 = 27;

/// Where an agent that enters a crowd stands.
#[derive(Clone, Copy)]
pub enum EnterAnswer {
    /// The agent in its polygon, and whether it is apart from all others there.
    Enters { placed: CrowdAgent, has_room: bool },
    /// No polygon holds it.
    NoStart,
}

/// The question where an agent at a height stands beside those of the host's array: they are copied only where there is a mesh.
#[derive(Drop)]
struct EnteringAgent<'a> {
    agents: &'a [NavdAgent],
    agent: NavdAgent,
    y: u32,
}

impl<'a> Asked for EnteringAgent<'a> {
    type Answer = EnterAnswer;

    ghost can_ask = { λ asked. CanEnter asked.agents.now asked.agent };

    ghost is_right = { λ asked mesh answer. IsEnteredBy asked.agents.now asked.agent asked.y mesh answer };

    #[tactic(auto, using(crate::proofs::Asking::entering_sized))]
    fn ask(&self, alloc: Global, mesh: &Mesh) -> Result<EnterAnswer, AllocError> {
        let placed = place(mesh, entering(&self.agent, self.y));
        if placed.stranded {
            return Ok(EnterAnswer::NoStart);
        }
        let agents = agents_of(alloc, self.agents)?;
        let has_room = has_room(agents.as_slice(), mesh.setting.agent.height, &placed);
        Ok(EnterAnswer::Enters { placed, has_room })
    }
}

/// The agent that enters, with its height as its floors, and in no polygon yet.
fn entering(agent: &NavdAgent, y: u32) -> CrowdAgent
    ensures { result ≡ Entering.entering agent.now y }
{
    CrowdAgent {
        polygon: PolyRef {
            tile: u32::MAX,
            index: u32::MAX,
        },
        low: y,
        high: y,
        stranded: true,
        ..agent_of(agent)
    }
}

/// How the question ends with an answer.
fn enter_status(answer: EnterAnswer) -> u32
    ensures { result ≡ enter_ends answer }
{
    match answer {
        EnterAnswer::Enters { has_room: true, .. } => OK,
        EnterAnswer::Enters {
            has_room: false,
            ..
        } => OVERLAPS,
        EnterAnswer::NoStart => NO_START,
    }
}

/// Tells where the agent stands.
fn tell_enter(answer: EnterAnswer, agent: &mut NavdAgent)
    ensures { agent.new ≡ told_enter answer agent.old }
{
    match answer {
        EnterAnswer::Enters { placed, .. } => tell_placed(&placed, agent),
        EnterAnswer::NoStart => {}
    }
}

/// How the question ends.
fn end_enter(answer: Result<EnterAnswer, u32>, agent: &mut NavdAgent) -> u32
    ensures { (held : Option Mesh) (agents : List NavdAgent) (a : NavdAgent) (y : ℕ) → IsRepliedBy (IsEnteredBy agents a y) held answer
        → IsAskedBy (IsEnteredBy agents a y) enter_ends told_enter held agent.old agent.new result }
{
    match answer {
        Ok(answer) => {
            tell_enter(answer, agent);
            enter_status(answer)
        }
        Err(status) => status,
    }
}

/// Where an agent at a height stands in the mesh of a handle, and whether it overlaps none of some others there.
pub fn enter<H: HasMesh>(
    alloc: Global,
    held: &mut H,
    agents: &[NavdAgent],
    agent: &mut NavdAgent,
    y: u32,
) -> u32
    ensures asked { CanEnter agents.now agent.old → IsAskedBy (IsEnteredBy agents.now agent.old y) enter_ends told_enter
        (H.mesh_in held.old) agent.old agent.new result }
    ensures refused { (CanEnter agents.now agent.old → ⊥) → EndsSo status.out_of_range agent.old agent.new result }
    ensures same { H.is_same held.old held.new }
{
    if !are_told_right(agents) || !is_told_right(agent) {
        return OUT_OF_RANGE;
    }
    let asked = EnteringAgent {
        agents,
        agent: *agent,
        y,
    };
    let answer = held.ask_by(alloc, &asked);
    end_enter(answer, agent)
}
