//! All walls around a place.

ghost use Rattle.std.specs.Prelude.{◌≡◌, Option, map};
ghost use Rattle.mesh_types.specs.declared.mesh.Mesh.{Mesh};
ghost use Rattle.nav_handle.specs.Answers.{EndsSo, IsAskedBy, IsRepliedBy};
ghost use Rattle.nav_handle.specs.Statuses as status;
ghost use Rattle.nav_handle.specs.Wire.{laid};
ghost use Rattle.wall_handle.specs.Around.{AreWallsBy, WallsRoom, told_walls, walls_asked, walls_ends};
ghost use Rattle.wall_handle.specs.Walls.{wall_told};
ghost use Rattle.wall_query.specs.declared.questions.WallsQuery.{WallsQuery};
ghost use Rattle.wall_query.specs.AllWalls.{CanAskWalls};

use crate::walls::{NavdAround, NavdWall, can_ask, wall_told};
use nav_handle::{HasMesh, NO_START, OK, OUT_OF_RANGE};
use place_handle::place_of;
use std::alloc::Global;
use wall_query::{Wall, WallsAnswer, WallsQuery};

/// Lays walls into a room.
fn lay_walls(walls: &[Wall], room: &mut [NavdWall])
    ensures { room.new ≡ laid (map wall_told walls.now) room.old }
{
    let count = walls.len().min(room.len());
    for place in 0..count {
        room[place] = wall_told(walls[place]);
    }
}

/// How the question for the walls around ends with an answer.
fn walls_status(answer: &WallsAnswer) -> u32
    ensures { result ≡ walls_ends answer.now }
{
    match answer {
        WallsAnswer::Walls(_) => OK,
        WallsAnswer::NoStart => NO_START,
    }
}

/// Tells the walls, if the answer has them.
fn tell_walls(answer: &WallsAnswer, walls: &mut [NavdWall], count: &mut usize)
    ensures { (count.new, walls.new) ≡ told_walls answer.now (count.old, walls.old) }
{
    match answer {
        WallsAnswer::Walls(list) => {
            lay_walls(list.as_slice(), walls);
            *count = list.len();
        }
        WallsAnswer::NoStart => {}
    }
}

/// How the question for the walls around ends.
fn end_walls(answer: Result<WallsAnswer, u32>, walls: &mut [NavdWall], count: &mut usize) -> u32
    ensures { (held : Option Mesh) (asked : WallsQuery) → IsRepliedBy (AreWallsBy asked) held answer
        → IsAskedBy (AreWallsBy asked) walls_ends told_walls held (count.old, walls.old) (count.new, walls.new) result }
{
    match answer {
        Ok(answer) => {
            tell_walls(&answer, walls, count);
            walls_status(&answer)
        }
        Err(status) => status,
    }
}

/// The walls within a reach of a place in the mesh of a handle.
pub fn walls_around<H: HasMesh>(
    alloc: Global,
    held: &mut H,
    around: &NavdAround,
    walls: &mut [NavdWall],
    count: &mut usize,
) -> u32
    ensures asked { CanAskWalls (walls_asked around.now) → IsAskedBy (AreWallsBy (walls_asked around.now)) walls_ends
        told_walls (H.mesh_in held.old) (count.old, walls.old) (count.new, walls.new) result }
    ensures refused { (CanAskWalls (walls_asked around.now) → ⊥)
        → EndsSo {Room = WallsRoom} status.out_of_range (count.old, walls.old) (count.new, walls.new) result }
    ensures same { H.is_same held.old held.new }
{
    if !can_ask(around) {
        return OUT_OF_RANGE;
    }
    let asked = WallsQuery {
        from: place_of(&around.from),
        reach: around.reach,
        areas: around.areas,
    };
    let answer = held.ask_by(alloc, &asked);
    end_walls(answer, walls, count)
}
