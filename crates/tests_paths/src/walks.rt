//! A walker in the mesh of a few cells by hand.

ghost use Rattle.std.specs.Prelude.{◌≡◌};
ghost use Rattle.nav_base.specs.Point.{HasCoordinates, IsCoordinate};
ghost use Rattle.mesh_types.specs.Soundness.{IsSound};

use crate::questions::{SETTING, mesh};
use crate::rows::all_hold;
use agent_walks::{Place, WalkAnswer, march_in, send_in};
use mesh_types::{Mesh, PolyRef};
use nav_base::Point;
use std::alloc::{AllocError, Global};

/// A place at the height of the floors.
fn place(x: i32, z: i32) -> Place
    requires across { IsCoordinate x }
    requires along { IsCoordinate z }
    ensures { HasCoordinates result.point }
{
    Place {
        point: Point { x, z },
        y: 10,
    }
}

/// Whether a walker stands in a polygon at a point, with so many links left, which cost so much.
fn stands(answer: &WalkAnswer, index: u32, p: Point, cost: u64, count: usize) -> bool {
    match answer {
        WalkAnswer::Walking {
            at,
            point,
            y,
            cost: left,
            links,
        } => {
            *at == PolyRef { tile: 0, index }
                && *point == p
                && *y == 10
                && *left == cost
                && links.len() == count
        }
        _ => false,
    }
}

/// The first step that is wrong, of a walker that goes from the first polygon round its corner at (32, 16) to a goal in the second.
fn wrong_step(alloc: Global, mesh: &Mesh) -> Result<Option<usize>, AllocError>
    requires sound { IsSound mesh.now }
    requires setting { mesh.now.setting ≡ SETTING }
{
    let (walker, answer) = send_in(alloc, mesh, 0, place(0, 0), place(48, 17))?;
    if !stands(&answer, 0, Point { x: 0, z: 0 }, 46, 1) {
        return Ok(Some(0));
    }
    let Some(walker) = walker else {
        return Ok(Some(1));
    };
    // Half of the way to the corner.
    let (walker, answer) = march_in(alloc, mesh, 0, walker, 16)?;
    if !stands(&answer, 0, Point { x: 16, z: 8 }, 46, 1) {
        return Ok(Some(2));
    }
    let Some(walker) = walker else {
        return Ok(Some(3));
    };
    // To the corner, 16, and 8 of the 16 to the goal.
    let (walker, answer) = march_in(alloc, mesh, 0, walker, 24)?;
    if !stands(&answer, 1, Point { x: 40, z: 16 }, 0, 0) {
        return Ok(Some(4));
    }
    let Some(walker) = walker else {
        return Ok(Some(5));
    };
    let (_, answer) = march_in(alloc, mesh, 0, walker, 100)?;
    if !stands(&answer, 1, Point { x: 48, z: 17 }, 0, 0) {
        return Ok(Some(6));
    }
    Ok(None)
}

/// The first place that is answered otherwise than that there is no start, no goal or no way.
fn wrong_refusal(alloc: Global, mesh: &Mesh) -> Result<Option<usize>, AllocError>
    requires sound { IsSound mesh.now }
    requires setting { mesh.now.setting ≡ SETTING }
{
    let (walker, answer) = send_in(alloc, mesh, 0, place(40, 8), place(8, 8))?;
    if walker.is_some() || !matches!(answer, WalkAnswer::NoStart) {
        return Ok(Some(0));
    }
    let (walker, answer) = send_in(alloc, mesh, 0, place(8, 8), place(40, 8))?;
    if walker.is_some() || !matches!(answer, WalkAnswer::NoGoal) {
        return Ok(Some(1));
    }
    let (walker, answer) = send_in(alloc, mesh, 0, place(8, 8), place(8, 56))?;
    if walker.is_some() || !matches!(answer, WalkAnswer::NoPath) {
        return Ok(Some(2));
    }
    Ok(None)
}

/// A step that is wrong; 99 where there is no memory.
fn wrong(alloc: Global) -> Option<usize> {
    match mesh(alloc) {
        Ok(mesh) => wrong_step(alloc, &mesh).unwrap_or(Some(99)),
        Err(_) => Some(99),
    }
}

/// A refusal that is wrong; 99 where there is no memory.
fn wrong_answer(alloc: Global) -> Option<usize> {
    match mesh(alloc) {
        Ok(mesh) => wrong_refusal(alloc, &mesh).unwrap_or(Some(99)),
        Err(_) => Some(99),
    }
}

#[test]
fn walks_round_a_corner(rt: HostRuntime) {
    all_hold(&rt, "steps", wrong(rt.alloc()));
}

#[test]
fn is_not_sent(rt: HostRuntime) {
    all_hold(&rt, "refusals", wrong_answer(rt.alloc()));
}
