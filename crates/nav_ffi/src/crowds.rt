//! Crowds on what a view shows.

ghost use Rattle.std.specs.Prelude.{◌≡◌};
ghost use Rattle.nav_handle.specs.Answers.{EndsSo, IsAskedBy, seen_in};
ghost use Rattle.nav_handle.specs.Statuses as status;
ghost use Rattle.crowd_handle.specs.Entering.{CanEnter, IsEnteredBy, enter_ends, told_enter};
ghost use Rattle.crowd_handle.specs.Granting.{CanGrant, IsGrantedBy, grant_ends, told_grant};
ghost use Rattle.crowd_handle.specs.Leading.{CanLead, IsLeadBy, LeadRoom, lead_ends, told_lead};
ghost use Rattle.crowd_handle.specs.Slimming.{AreSlimmedBy, slim_ends, told_slim};
ghost use Rattle.crowd_handle.specs.Stepping.{CanStep, IsSteppedBy, step_ends, told_step};

use crowd_handle::{NavdAgent, NavdCrowd, NavdFine};
use nav_handle::{NavdLink, NavdPoint, NavdView};
use std::alloc::Global;

/// One step of a crowd over the mesh that a view shows, by the wishes of its agents.
#[unsafe(no_mangle)]
pub extern "C" fn navd_view_crowd_step(
    alloc: Global,
    view: &mut NavdView,
    rules: &NavdCrowd,
    agents: &mut [NavdAgent],
) -> u32
    ensures asked { CanStep rules.now agents.old → IsAskedBy (IsSteppedBy rules.now agents.old) step_ends told_step
        (seen_in view.old.view) agents.old agents.new result }
    ensures refused { (CanStep rules.now agents.old → ⊥) → EndsSo status.out_of_range agents.old agents.new result }
    ensures same { view.new.view ≡ view.old.view }
{
    crowd_handle::step_crowd(alloc, view, rules, agents)
}

/// Lets agents that waited for three seconds be slim, and those that go and have room of their full size, over the mesh that a view shows.
#[unsafe(no_mangle)]
pub extern "C" fn navd_view_crowd_slim(
    alloc: Global,
    view: &mut NavdView,
    rules: &NavdCrowd,
    agents: &mut [NavdAgent],
) -> u32
    ensures asked { CanStep rules.now agents.old → IsAskedBy (AreSlimmedBy rules.now agents.old) slim_ends told_slim
        (seen_in view.old.view) agents.old agents.new result }
    ensures refused { (CanStep rules.now agents.old → ⊥) → EndsSo status.out_of_range agents.old agents.new result }
    ensures same { view.new.view ≡ view.old.view }
{
    crowd_handle::slim_crowd(alloc, view, rules, agents)
}

/// One step of a crowd over the mesh that a view shows, with wishes of the host's own: agent i is granted the first of the moves from `first[i]` to
/// before `first[i + 1]` that is free.
#[unsafe(no_mangle)]
pub extern "C" fn navd_view_crowd_grant(
    alloc: Global,
    view: &mut NavdView,
    rules: &NavdCrowd,
    agents: &mut [NavdAgent],
    order: &[u32],
    first: &[usize],
    moves: &[NavdFine],
) -> u32
    ensures asked { CanGrant rules.now agents.old first.now → IsAskedBy (IsGrantedBy order.now first.now moves.now agents.old) grant_ends told_grant
        (seen_in view.old.view) agents.old agents.new result }
    ensures refused { (CanGrant rules.now agents.old first.now → ⊥) → EndsSo status.out_of_range agents.old agents.new result }
    ensures same { view.new.view ≡ view.old.view }
{
    crowd_handle::grant_wishes(alloc, view, rules, agents, order, first, moves)
}

/// Where an agent at a height stands on the mesh that a view shows, and whether it overlaps none of some others there.
#[unsafe(no_mangle)]
pub extern "C" fn navd_view_crowd_enter(
    alloc: Global,
    view: &mut NavdView,
    agents: &[NavdAgent],
    agent: &mut NavdAgent,
    y: u32,
) -> u32
    ensures asked { CanEnter agents.now agent.old
        → IsAskedBy (IsEnteredBy agents.now agent.old y) enter_ends told_enter (seen_in view.old.view) agent.old agent.new result }
    ensures refused { (CanEnter agents.now agent.old → ⊥) → EndsSo status.out_of_range agent.old agent.new result }
    ensures same { view.new.view ≡ view.old.view }
{
    crowd_handle::enter(alloc, view, agents, agent, y)
}

/// Where a kept path leads an agent on the mesh that a view shows.
#[unsafe(no_mangle)]
pub extern "C" fn navd_view_lead(
    alloc: Global,
    view: &mut NavdView,
    agent: &mut NavdAgent,
    goal: &NavdPoint,
    links: &[NavdLink],
    link: &mut usize,
) -> u32
    ensures asked { CanLead agent.old goal.now links.now link.old → IsAskedBy (IsLeadBy agent.old goal.now links.now link.old) lead_ends told_lead
        (seen_in view.old.view) (agent.old, link.old) (agent.new, link.new) result }
    ensures refused { (CanLead agent.old goal.now links.now link.old → ⊥)
        → EndsSo {Room = LeadRoom} status.out_of_range (agent.old, link.old) (agent.new, link.new) result }
    ensures same { view.new.view ≡ view.old.view }
{
    crowd_handle::lead_agent(alloc, view, agent, goal, links, link)
}
