//! Where a kept path leads an agent.

ghost use Rattle.std.specs.Prelude.{◌≡◌, ◌↔◌, IsTrue, List, Option, ℕ};
ghost use Rattle.mesh_types.specs.declared.mesh.Mesh.{Mesh};
ghost use Rattle.nav_handle.specs.Answers.{EndsSo, IsAskedBy, IsRepliedBy};
ghost use Rattle.nav_handle.specs.declared.wire.NavdLink.{NavdLink};
ghost use Rattle.nav_handle.specs.declared.wire.NavdPoint.{NavdPoint};
ghost use Rattle.nav_handle.specs.Statuses as status;
ghost use Rattle.crowd_handle.specs.declared.agents.NavdAgent.{NavdAgent};
ghost use Rattle.crowd_handle.specs.Leading.{CanLead, IsLeadBy, LeadRoom, lead_ends, told_lead};

use crate::agents::{NavdAgent, agent_of, fine_told, is_told_right};
use crowd_lead::{LeadAnswer, lead};
use mesh_types::{Asked, Mesh};
use nav_handle::{CUT, HasMesh, NavdLink, NavdPoint, OK, OUT_OF_RANGE, has_coordinates, point_of};
use std::alloc::{AllocError, Global};
use way_handle::links_of;

/// The question where the links of the host's array lead an agent: they are copied only where there is a mesh.
#[derive(Drop)]
struct AgentOnPath<'a> {
    agent: NavdAgent,
    goal: NavdPoint,
    links: &'a [NavdLink],
    link: usize,
}

impl<'a> Asked for AgentOnPath<'a> {
    type Answer = LeadAnswer;

    ghost can_ask = { λ asked. CanLead asked.agent asked.goal asked.links.now asked.link };

    ghost is_right = { λ asked mesh answer. IsLeadBy asked.agent asked.goal asked.links.now asked.link mesh answer };

    #[tactic(auto, using(crate::proofs::Asking::sized))]
    fn ask(&self, alloc: Global, mesh: &Mesh) -> Result<LeadAnswer, AllocError> {
        let links = links_of(alloc, self.links)?;
        let agent = agent_of(&self.agent);
        Ok(lead(
            mesh,
            &agent,
            point_of(self.goal),
            links.as_slice(),
            self.link,
        ))
    }
}

/// Whether it may be asked where a path leads an agent.
fn can_lead(agent: &NavdAgent, goal: NavdPoint, links: &[NavdLink], link: usize) -> bool
    ensures { IsTrue result ↔ CanLead agent.now goal links.now link }
{
    is_told_right(agent) && has_coordinates(goal) && link <= links.len()
}

/// How the question ends with an answer.
fn lead_status(answer: LeadAnswer) -> u32
    ensures { result ≡ lead_ends answer }
{
    match answer {
        LeadAnswer::Led { .. } => OK,
        LeadAnswer::Cut { .. } => CUT,
    }
}

/// Tells by which vector the agent would like to go, and how far its goal is.
fn tell_lead(answer: LeadAnswer, agent: &mut NavdAgent, link: &mut usize)
    ensures { (agent.new, link.new) ≡ told_lead answer (agent.old, link.old) }
{
    match answer {
        LeadAnswer::Led {
            wish,
            left,
            link: passed,
        } => {
            agent.wish = fine_told(wish);
            agent.left = left;
            *link = passed;
        }
        LeadAnswer::Cut { link: passed } => *link = passed,
    }
}

/// How the question ends.
fn end_lead(answer: Result<LeadAnswer, u32>, agent: &mut NavdAgent, link: &mut usize) -> u32
    ensures { (held : Option Mesh) (a : NavdAgent) (goal : NavdPoint) (links : List NavdLink) (known : ℕ) → IsRepliedBy (IsLeadBy a goal links known) held answer
        → IsAskedBy (IsLeadBy a goal links known) lead_ends told_lead held (agent.old, link.old) (agent.new, link.new) result }
{
    match answer {
        Ok(answer) => {
            tell_lead(answer, agent, link);
            lead_status(answer)
        }
        Err(status) => status,
    }
}

/// Where a kept path leads an agent in the mesh of a handle.
pub fn lead_agent<H: HasMesh>(
    alloc: Global,
    held: &mut H,
    agent: &mut NavdAgent,
    goal: &NavdPoint,
    links: &[NavdLink],
    link: &mut usize,
) -> u32
    ensures asked { CanLead agent.old goal.now links.now link.old → IsAskedBy (IsLeadBy agent.old goal.now links.now link.old) lead_ends told_lead
        (H.mesh_in held.old) (agent.old, link.old) (agent.new, link.new) result }
    ensures refused { (CanLead agent.old goal.now links.now link.old → ⊥)
        → EndsSo {Room = LeadRoom} status.out_of_range (agent.old, link.old) (agent.new, link.new) result }
    ensures same { H.is_same held.old held.new }
{
    if !can_lead(agent, *goal, links, *link) {
        return OUT_OF_RANGE;
    }
    let asked = AgentOnPath {
        agent: *agent,
        goal: *goal,
        links,
        link: *link,
    };
    let answer = held.ask_by(alloc, &asked);
    end_lead(answer, agent, link)
}
