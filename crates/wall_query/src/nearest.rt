//! The wall nearest to a place, of those that are reached.

ghost use Rattle.std.specs.Prelude.{◌↔◌, ◌*◌, All, Contains, IfOk, IsTrue};
ghost use Rattle.nav_base.specs.Deviation.{IsFraction};
ghost use Rattle.mesh_types.specs.Places.{IsPlace};
ghost use Rattle.mesh_types.specs.Soundness.{IsSound};
ghost use Rattle.wall_slide.specs.Slides.{IsNoFarther, whole};
ghost use Rattle.wall_query.specs.Around.{IsAround};
ghost use Rattle.wall_query.specs.Walls.{CanAskWall, IsBestOf, IsInReach, IsNearerThan, IsNearestReached, IsNearestWithin, IsRightWall};

use crate::around::{Around, gather, has};
use crate::distances::{is_no_farther, square_of_reach};
use crate::questions::{Wall, WallAnswer, WallQuery};
use crate::walls::walls_of;
use mesh_place::is_place;
use mesh_types::{Asked, Mesh};
use nav_base::{Deviation, less};
use std::alloc::{AllocError, Global};

/// How far the nearest wall is looked for first, in sixteenths of a cell.
const NEAR: u32 = 64;

/// The wall nearest to a place, of those that are reached without going farther from it. Only memory can be refused.
pub fn nearest_wall(alloc: Global, mesh: &Mesh, asked: &WallQuery) -> Result<WallAnswer, AllocError>
    requires sound { IsSound mesh.now }
    requires asked { CanAskWall asked.now }
    ensures right { IfOk result (IsRightWall mesh.now asked.now) }
{
    if !is_place(mesh, asked.from) {
        return Ok(WallAnswer::NoStart);
    }
    match nearest_reached(alloc, mesh, asked)? {
        Some(wall) => Ok(WallAnswer::Nearest(wall)),
        None => Ok(WallAnswer::NoWall),
    }
}

impl Asked for WallQuery {
    ghost use Rattle.wall_query.specs.Walls.{CanAskWall, IsRightWall};

    type Answer = WallAnswer;

    ghost can_ask = { λ asked. CanAskWall asked };

    ghost is_right = { λ asked mesh answer. IsRightWall mesh asked answer };

    fn ask(&self, alloc: Global, mesh: &Mesh) -> Result<WallAnswer, AllocError> {
        nearest_wall(alloc, mesh, self)
    }
}

/// The nearest wall that is reached from a place, if there is one. It is looked for near the place first, so that little of a great reach is gone
/// through.
fn nearest_reached(
    alloc: Global,
    mesh: &Mesh,
    asked: &WallQuery,
) -> Result<Option<Wall>, AllocError>
    requires sound { IsSound mesh.now }
    requires place { IsPlace mesh.now asked.now.from }
    ensures { IfOk result (IsNearestReached mesh.now asked.now) }
{
    let reach = square_of_reach(asked.reach);
    let near = lesser(square_of_reach(NEAR), reach);
    if let Some(wall) = nearest_within(alloc, mesh, asked, near)? {
        if is_no_farther(wall.far, near) {
            return Ok(Some(wall));
        }
    }
    nearest_within(alloc, mesh, asked, reach)
}

/// The lesser of two distances.
fn lesser(a: Deviation, b: Deviation) -> Deviation
    requires first { IsFraction a }
    requires second { IsFraction b }
    ensures fraction { IsFraction result }
    ensures within { IsNoFarther result b }
{
    if is_no_farther(a, b) { a } else { b }
}

/// The nearest wall within a distance that is reached from a place, if there is one.
fn nearest_within(
    alloc: Global,
    mesh: &Mesh,
    asked: &WallQuery,
    far: Deviation,
) -> Result<Option<Wall>, AllocError>
    requires sound { IsSound mesh.now }
    requires place { IsPlace mesh.now asked.now.from }
    requires fraction { IsFraction far }
    requires within { IsNoFarther far (whole (asked.now.reach * asked.now.reach)) }
    ensures { IfOk result (IsNearestWithin mesh.now asked.now far) }
{
    let around = Around {
        from: asked.from,
        areas: asked.areas,
        far,
    };
    let list = gather(alloc, mesh, &around)?;
    let walls = walls_of(alloc, mesh, &around, list.as_slice())?;
    nearest_of(alloc, mesh, asked, walls.as_slice())
}

/// The nearest of some walls within the reach that is reached, if there is one.
fn nearest_of(
    alloc: Global,
    mesh: &Mesh,
    asked: &WallQuery,
    walls: &[Wall],
) -> Result<Option<Wall>, AllocError>
    requires sound { IsSound mesh.now }
    requires place { IsPlace mesh.now asked.now.from }
    requires walls { All (IsInReach mesh.now asked.now) walls.now }
    ensures { IfOk result (IsBestOf mesh.now asked.now (Contains walls.now)) }
{
    let mut best = None;
    for wall in walls {
        if is_better(alloc, mesh, asked, wall, best)? {
            best = Some(*wall);
        }
    }
    Ok(best)
}

/// Whether a wall is nearer than the nearest so far, and reached.
fn is_better(
    alloc: Global,
    mesh: &Mesh,
    asked: &WallQuery,
    wall: &Wall,
    best: Option<Wall>,
) -> Result<bool, AllocError>
    requires sound { IsSound mesh.now }
    requires place { IsPlace mesh.now asked.now.from }
    ensures { IfOk result (λ better. IsTrue better ↔ (IsNearerThan wall.now best × IsAround mesh.now asked.now.areas asked.now.from wall.now.far wall.now.polygon)) }
{
    if is_nearer(wall, best) {
        return is_reached(alloc, mesh, asked, wall);
    }
    Ok(false)
}

/// Whether a wall is nearer than the nearest so far.
fn is_nearer(wall: &Wall, best: Option<Wall>) -> bool
    ensures { IsTrue result ↔ IsNearerThan wall.now best }
{
    match best {
        Some(best) => less(wall.far, best.far),
        None => true,
    }
}

/// Whether a wall is reached: links lead to its polygon through portals that are no farther than it.
fn is_reached(
    alloc: Global,
    mesh: &Mesh,
    asked: &WallQuery,
    wall: &Wall,
) -> Result<bool, AllocError>
    requires sound { IsSound mesh.now }
    requires place { IsPlace mesh.now asked.now.from }
    ensures { IfOk result (λ reached. IsTrue reached ↔ IsAround mesh.now asked.now.areas asked.now.from wall.now.far wall.now.polygon) }
{
    let around = Around {
        from: asked.from,
        areas: asked.areas,
        far: wall.far,
    };
    let list = gather(alloc, mesh, &around)?;
    Ok(has(list.as_slice(), wall.polygon))
}
