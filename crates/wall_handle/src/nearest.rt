//! The wall nearest to a place.

ghost use Rattle.std.specs.Prelude.{◌≡◌, Option};
ghost use Rattle.mesh_types.specs.declared.mesh.Mesh.{Mesh};
ghost use Rattle.nav_handle.specs.Answers.{EndsSo, IsAskedBy, IsRepliedBy};
ghost use Rattle.nav_handle.specs.Statuses as status;
ghost use Rattle.wall_handle.specs.Walls.{IsWallBy, told_wall, wall_asked, wall_ends};
ghost use Rattle.wall_query.specs.declared.questions.WallQuery.{WallQuery};
ghost use Rattle.wall_query.specs.Walls.{CanAskWall};

use crate::walls::{NavdAround, NavdWall, can_ask, wall_told};
use nav_handle::{HasMesh, NO_START, OK, OUT_OF_RANGE};
use place_handle::{NO_PLACE, place_of};
use std::alloc::Global;
use wall_query::{WallAnswer, WallQuery};

/// How the question for the nearest wall ends.
fn end_wall(answer: Result<WallAnswer, u32>, wall: &mut NavdWall) -> u32
    ensures { (held : Option Mesh) (asked : WallQuery) → IsRepliedBy (IsWallBy asked) held answer
        → IsAskedBy (IsWallBy asked) wall_ends told_wall held wall.old wall.new result }
{
    match answer {
        Ok(WallAnswer::Nearest(nearest)) => {
            *wall = wall_told(nearest);
            OK
        }
        Ok(WallAnswer::NoWall) => NO_PLACE,
        Ok(WallAnswer::NoStart) => NO_START,
        Err(status) => status,
    }
}

/// The wall nearest to a place in the mesh of a handle.
pub fn nearest_wall<H: HasMesh>(
    alloc: Global,
    held: &mut H,
    around: &NavdAround,
    wall: &mut NavdWall,
) -> u32
    ensures asked { CanAskWall (wall_asked around.now)
        → IsAskedBy (IsWallBy (wall_asked around.now)) wall_ends told_wall (H.mesh_in held.old) wall.old wall.new result }
    ensures refused { (CanAskWall (wall_asked around.now) → ⊥) → EndsSo status.out_of_range wall.old wall.new result }
    ensures same { H.is_same held.old held.new }
{
    if !can_ask(around) {
        return OUT_OF_RANGE;
    }
    let asked = WallQuery {
        from: place_of(&around.from),
        reach: around.reach,
        areas: around.areas,
    };
    let answer = held.ask_by(alloc, &asked);
    end_wall(answer, wall)
}
