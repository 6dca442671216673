//! Walks over links and jumps: which questions the numbers that C hands over ask, and what is told of the answers.

ghost use Rattle.std.specs.Prelude.{◌≡◌, ◌↔◌, IfOk, IsTrue, Option, map};
ghost use Rattle.mesh_types.specs.declared.mesh.Mesh.{Mesh};
ghost use Rattle.off_links.specs.OffMeshLinks.{AreJumps, HasJumpCoordinates};
ghost use Rattle.off_links.specs.Questions.{CanHop, IsRightHop};
ghost use Rattle.nav_handle.specs.Answers.{EndsSo, IsAskedBy, IsRepliedBy};
ghost use Rattle.nav_handle.specs.Hopping.{HopRoom, hop_asked, hop_ends, jumps_of, told_hop};
ghost use Rattle.nav_handle.specs.Wire.{laid};
ghost use Rattle.nav_handle.specs.Statuses as status;

use crate::asking::HasMesh;
use crate::ends::{has_coordinates, is_way, lay_turns, link_told, point_of, polygon_told};
use crate::wire::{
    NO_GOAL, NO_PATH, NO_START, NavdLink, NavdPoint, NavdPolygon, NavdTurn, NavdWay, OK,
    OUT_OF_RANGE,
};
use mesh_types::{Asked, HopAnswer, HopStep, Jump, Mesh};
use nav_lists::Items;
use off_links::HopQuestion;
use std::alloc::{AllocError, Global};

/// A one-way jump from a place to another, and what it costs.
#[repr(C)]
#[derive(Clone, Copy)]
pub struct NavdJump {
    pub from: NavdPoint,
    pub from_y: u32,
    pub to: NavdPoint,
    pub to_y: u32,
    pub cost: u32,
}

/// A step: over a link (0), or by a jump (1), which is named by its place among the jumps, from 0. Of a jump `link.to` alone says something.
#[repr(C)]
#[derive(Clone, Copy)]
pub struct NavdStep {
    pub kind: u32,
    pub jump: u32,
    pub link: NavdLink,
}

/// From where to where a walk over links and jumps leads, which the host writes; and what it costs, the polygon in which it begins, and how
/// many steps and turns it has, which the call tells.
#[repr(C)]
#[derive(Clone, Copy)]
pub struct NavdHop {
    pub way: NavdWay,
    pub cost: u64,
    pub first: NavdPolygon,
    pub steps: usize,
    pub turns: usize,
}

fn jump_of(jump: &NavdJump) -> Jump
    ensures { result ≡ Rattle.nav_handle.specs.Hopping.jump_of jump.now }
{
    Jump {
        from: point_of(jump.from),
        from_y: jump.from_y,
        to: point_of(jump.to),
        to_y: jump.to_y,
        cost: jump.cost,
    }
}

/// The jumps of the host's array.
fn jumps_from(alloc: Global, jumps: &[NavdJump]) -> Result<Items<Jump>, AllocError>
    ensures { IfOk result (λ list. list ≡ jumps_of jumps.now) }
{
    let mut list = Vec::with_capacity(alloc, jumps.len())?;
    for jump in jumps {
        list.push(jump_of(jump))?;
    }
    Ok(Items::from_vec(list))
}

fn is_jump(jump: &NavdJump) -> bool
    ensures { IsTrue result ↔ HasJumpCoordinates (Rattle.nav_handle.specs.Hopping.jump_of jump.now) }
{
    has_coordinates(jump.from) && has_coordinates(jump.to)
}

/// Whether all jumps lead from coordinates to coordinates, and they are not too many.
fn are_jumps(jumps: &[NavdJump]) -> bool
    ensures { IsTrue result ↔ AreJumps (jumps_of jumps.now) }
{
    if jumps.len() > 256 {
        return false;
    }
    for jump in jumps {
        if !is_jump(jump) {
            return false;
        }
    }
    true
}

/// Whether a question for a walk may be asked.
fn may_hop(way: &NavdWay, jumps: &[NavdJump]) -> bool
    ensures { IsTrue result ↔ CanHop (hop_asked way.now jumps.now) }
{
    is_way(way) && are_jumps(jumps)
}

/// The question for a walk.
fn hop_question(alloc: Global, way: &NavdWay, jumps: &[NavdJump]) -> Result<HopQuestion, AllocError>
    ensures { IfOk result (λ question. question ≡ hop_asked way.now jumps.now) }
{
    let jumps = jumps_from(alloc, jumps)?;
    Ok(HopQuestion {
        from: point_of(way.from),
        from_y: way.from_y,
        to: point_of(way.to),
        to_y: way.to_y,
        jumps,
    })
}

fn step_told(step: &HopStep) -> NavdStep
    ensures { result ≡ Rattle.nav_handle.specs.Hopping.step_told step.now }
{
    match step {
        HopStep::Link(link) => NavdStep {
            kind: 0,
            jump: 0,
            link: link_told(link),
        },
        HopStep::Jump { number, to } => NavdStep {
            kind: 1,
            jump: *number,
            link: NavdLink {
                from: NavdPolygon { tile: 0, index: 0 },
                edge: 0,
                to: polygon_told(*to),
                left: NavdPoint { x: 0, z: 0 },
                right: NavdPoint { x: 0, z: 0 },
            },
        },
    }
}

/// Lays steps into a room.
fn lay_steps(steps: &[HopStep], room: &mut [NavdStep])
    ensures { room.new ≡ laid (map Rattle.nav_handle.specs.Hopping.step_told steps.now) room.old }
{
    let count = steps.len().min(room.len());
    for place in 0..count {
        room[place] = step_told(&steps[place]);
    }
}

/// How a question for a walk with an answer ends.
fn hop_status(answer: &HopAnswer) -> u32
    ensures { result ≡ hop_ends answer.now }
{
    match answer {
        HopAnswer::Found(_) => OK,
        HopAnswer::NoStart => NO_START,
        HopAnswer::NoGoal => NO_GOAL,
        HopAnswer::NoPath => NO_PATH,
    }
}

/// Tells a walk with its steps and turns, if the answer is one.
fn tell_hop(answer: &HopAnswer, hop: &mut NavdHop, steps: &mut [NavdStep], turns: &mut [NavdTurn])
    ensures { (hop.new, steps.new, turns.new) ≡ told_hop answer.now (hop.old, steps.old, turns.old) }
{
    match answer {
        HopAnswer::Found(found) => {
            lay_steps(found.steps.as_slice(), steps);
            lay_turns(found.turns.as_slice(), turns);
            hop.cost = found.cost;
            hop.first = polygon_told(found.first);
            hop.steps = found.steps.len();
            hop.turns = found.turns.len();
        }
        _ => {}
    }
}

/// How the question for a walk ends.
fn end_hop(
    answer: Result<HopAnswer, u32>,
    hop: &mut NavdHop,
    steps: &mut [NavdStep],
    turns: &mut [NavdTurn],
) -> u32
    ensures { (held : Option Mesh) (question : HopQuestion) → IsRepliedBy (IsRightHop question) held answer
        → IsAskedBy (IsRightHop question) hop_ends told_hop held (hop.old, steps.old, turns.old) (hop.new, steps.new, turns.new) result }
{
    match answer {
        Ok(answer) => {
            tell_hop(&answer, hop, steps, turns);
            hop_status(&answer)
        }
        Err(status) => status,
    }
}

/// The question for a walk that is asked with the jumps of the host's array, which are copied only where there is a mesh.
#[derive(Drop)]
struct Hopping<'a> {
    way: NavdWay,
    jumps: &'a [NavdJump],
}

impl<'a> Asked for Hopping<'a> {
    type Answer = HopAnswer;

    ghost can_ask = { λ asked. CanHop (hop_asked asked.way asked.jumps.now) };

    ghost is_right = { λ asked mesh answer. IsRightHop (hop_asked asked.way asked.jumps.now) mesh answer };

    fn ask(&self, alloc: Global, mesh: &Mesh) -> Result<HopAnswer, AllocError> {
        let question = hop_question(alloc, &self.way, self.jumps)?;
        question.ask(alloc, mesh)
    }
}

/// A cheapest walk over links and jumps in the mesh of a handle, with taut lines between the jumps.
pub fn find_hop<H: HasMesh>(
    alloc: Global,
    held: &mut H,
    hop: &mut NavdHop,
    jumps: &[NavdJump],
    steps: &mut [NavdStep],
    turns: &mut [NavdTurn],
) -> u32
    ensures asked { CanHop (hop_asked hop.old.way jumps.now) → IsAskedBy (IsRightHop (hop_asked hop.old.way jumps.now)) hop_ends told_hop
        (H.mesh_in held.old) (hop.old, steps.old, turns.old) (hop.new, steps.new, turns.new) result }
    ensures refused { (CanHop (hop_asked hop.old.way jumps.now) → ⊥)
        → EndsSo {Room = HopRoom} status.out_of_range (hop.old, steps.old, turns.old) (hop.new, steps.new, turns.new) result }
    ensures same { H.is_same held.old held.new }
{
    let asked = Hopping {
        way: hop.way,
        jumps,
    };
    if !may_hop(&asked.way, jumps) {
        return OUT_OF_RANGE;
    }
    let answer = held.ask_by(alloc, &asked);
    end_hop(answer, hop, steps, turns)
}
