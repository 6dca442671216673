//! Questions about walls, asked of what a view shows.

ghost use Rattle.std.specs.Prelude.{◌≡◌};
ghost use Rattle.nav_handle.specs.Answers.{EndsSo, IsAskedBy, seen_in};
ghost use Rattle.nav_handle.specs.Statuses as status;
ghost use Rattle.wall_handle.specs.Around.{AreWallsBy, WallsRoom, told_walls, walls_asked, walls_ends};
ghost use Rattle.wall_handle.specs.Walls.{IsWallBy, told_wall, wall_asked, wall_ends};
ghost use Rattle.wall_query.specs.AllWalls.{CanAskWalls};
ghost use Rattle.wall_query.specs.Walls.{CanAskWall};

use nav_handle::NavdView;
use std::alloc::Global;
use wall_handle::{NavdAround, NavdWall};

/// The wall nearest to a place of the mesh that a view shows.
#[unsafe(no_mangle)]
pub extern "C" fn navd_view_nearest_wall(
    alloc: Global,
    view: &mut NavdView,
    around: &NavdAround,
    wall: &mut NavdWall,
) -> u32
    ensures asked { CanAskWall (wall_asked around.now)
        → IsAskedBy (IsWallBy (wall_asked around.now)) wall_ends told_wall (seen_in view.old.view) wall.old wall.new result }
    ensures refused { (CanAskWall (wall_asked around.now) → ⊥) → EndsSo status.out_of_range wall.old wall.new result }
    ensures same { view.new.view ≡ view.old.view }
{
    wall_handle::nearest_wall(alloc, view, around, wall)
}

/// The walls around a place of the mesh that a view shows.
#[unsafe(no_mangle)]
pub extern "C" fn navd_view_walls(
    alloc: Global,
    view: &mut NavdView,
    around: &NavdAround,
    walls: &mut [NavdWall],
    count: &mut usize,
) -> u32
    ensures asked { CanAskWalls (walls_asked around.now) → IsAskedBy (AreWallsBy (walls_asked around.now)) walls_ends told_walls
        (seen_in view.old.view) (count.old, walls.old) (count.new, walls.new) result }
    ensures refused { (CanAskWalls (walls_asked around.now) → ⊥)
        → EndsSo {Room = WallsRoom} status.out_of_range (count.old, walls.old) (count.new, walls.new) result }
    ensures same { view.new.view ≡ view.old.view }
{
    wall_handle::walls_around(alloc, view, around, walls, count)
}
