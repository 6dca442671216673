//! Walkers that are sent from a place to a goal. The walker that an answer leaves.

ghost use Rattle.std.specs.Prelude.{◌≡◌, IfOk, IfSome};
ghost use Rattle.nav_base.specs.Point.{HasCoordinates};
ghost use Rattle.nav_ground.specs.Limits.{IsSetting};
ghost use Rattle.mesh_types.specs.Soundness.{IsSound};
ghost use Rattle.agent_walks.specs.Marches.{IsSent};
ghost use Rattle.agent_walks.specs.Walkers.{IsUnderWay, IsWalker, walker_of};
ghost use Rattle.mesh_types.specs.declared.mesh.Mesh as meshes;

use crate::walkers::{Place, Walker, floor_of};
use corridor_search::cheapest;
use mesh_locate::locate;
use mesh_types::{Mesh, WalkAnswer};
use nav_lists::Duplicate;
use std::alloc::{AllocError, Global};

/// Sends a walker from a place to a goal, in the mesh of a history of length k: the answer, and the walker, exactly where the answer is that it
/// walks. Only memory can be refused.
pub fn send_in(
    alloc: Global,
    mesh: &Mesh,
    k: u32,
    from: Place,
    goal: Place,
) -> Result<(Option<Walker>, WalkAnswer), AllocError>
    requires sound { IsSound mesh.now }
    requires setting { IsSetting mesh.now.setting }
    requires from { HasCoordinates from.point }
    requires goal { HasCoordinates goal.point }
    ensures sent { IfOk result (λ told. IsSent mesh.now from.point from.y goal.point goal.y told.1) }

    // The polygon named holds the walker's point, and its links are a cheapest walk from there to the goal's polygon.
    ensures way { IfOk result (λ told. IsUnderWay mesh.now goal.point goal.y told.1) }
    ensures walker { IfOk result (λ told. told.0 ≡ walker_of k goal.point goal.y told.1) }

    // So it may march.
    ensures may_march { IfOk result (λ told. IfSome told.0 IsWalker) }
{
    let answer = sent(alloc, mesh, from, goal)?;
    let walker = walker_at(alloc, k, goal, &answer)?;
    Ok((walker, answer))
}

/// What a walker is answered that is sent from a place to a goal.
pub fn sent(alloc: Global, mesh: &Mesh, from: Place, goal: Place) -> Result<WalkAnswer, AllocError>
    requires sound { IsSound mesh.now }
    requires setting { IsSetting mesh.now.setting }
    requires from { HasCoordinates from.point }
    requires goal { HasCoordinates goal.point }
    ensures sent { IfOk result (λ answer. IsSent mesh.now from.point from.y goal.point goal.y answer) }
    ensures way { IfOk result (λ answer. IsUnderWay mesh.now goal.point goal.y answer) }
{
    let Some(first) = locate(mesh, from.point, from.y) else {
        return Ok(WalkAnswer::NoStart);
    };
    let Some(last) = locate(mesh, goal.point, goal.y) else {
        return Ok(WalkAnswer::NoGoal);
    };
    let Some(corridor) = cheapest(alloc, mesh, first, last)? else {
        return Ok(WalkAnswer::NoPath);
    };
    let y = floor_of(mesh, first);
    Ok(WalkAnswer::Walking {
        at: first,
        point: from.point,
        y,
        cost: corridor.cost,
        links: corridor.links,
    })
}

/// The walker that an answer leaves, with links of its own.
pub(crate) fn walker_at(
    alloc: Global,
    k: u32,
    goal: Place,
    answer: &WalkAnswer,
) -> Result<Option<Walker>, AllocError>
    requires goal { HasCoordinates goal.point }
    requires way { (mesh : meshes.Mesh) × IsUnderWay mesh goal.point goal.y answer.now }
    ensures walker { IfOk result (λ walker. walker ≡ walker_of k goal.point goal.y answer.now) }
    ensures may_march { IfOk result (λ walker. IfSome walker IsWalker) }
{
    match answer {
        WalkAnswer::Walking {
            at,
            point,
            y,
            cost,
            links,
        } => Ok(Some(Walker {
            k,
            at: *at,
            point: *point,
            y: *y,
            goal: goal.point,
            goal_y: goal.y,
            cost: *cost,
            links: links.duplicate(alloc)?,
        })),
        WalkAnswer::NoStart => Ok(None),
        WalkAnswer::NoGoal => Ok(None),
        WalkAnswer::NoPath => Ok(None),
    }
}
