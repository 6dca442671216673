//! Questions of what a level has published, over the border, and its counts.

ghost use Rattle.std.specs.Prelude.{◌≡◌};
ghost use Rattle.nav_query.specs.Questions.{IsAnswerable};
ghost use Rattle.off_links.specs.Questions.{CanHop, IsRightHop};
ghost use Rattle.agent_walks.specs.Questions.{CanMarch, CanSend, IsRightMarched, IsRightSent};
ghost use Rattle.nav_handle.specs.Answers.{EndsSo, IsAsked, IsAskedBy, IsPrepared, shown_in};
ghost use Rattle.nav_handle.specs.Hopping.{HopRoom, hop_asked, hop_ends, told_hop};
ghost use Rattle.nav_handle.specs.Telling.{PathRoom, told_floors, told_path, told_ray};
ghost use Rattle.nav_handle.specs.Walking.{WalkRoom, march_asked, send_asked, told_march, told_send, walk_ends};
ghost use Rattle.nav_handle.specs.Wire.{path_asked, ray_asked};
ghost use Rattle.nav_ffi.specs.Counts.{AreCounted, counts_of};
ghost use Rattle.nav_handle.specs.Statuses as status;

use nav_base::Question;
use nav_book::Level;
use nav_ground::tiles;
use nav_handle::{
    EMPTY, NO_MEMORY, NavdCounts, NavdFloor, NavdHop, NavdJump, NavdLevel, NavdLink, NavdPath,
    NavdRay, NavdStep, NavdTurn, NavdWalker, NavdWay, OK, cast_ray, find_floors, find_hop,
    find_path, march, send,
};
use std::alloc::Global;

/// Makes landmarks of what is published, where there are none yet: paths are found sooner with them, and a publish keeps them where it can. What
/// is asked is answered rightly either way.
#[unsafe(no_mangle)]
pub extern "C" fn navd_prepare(alloc: Global, level: &mut NavdLevel) -> u32
    ensures prepared { IsPrepared level.old.level result }
    ensures same { level.new.level ≡ level.old.level }
{
    let Some(mut held) = level.take(alloc) else {
        return EMPTY;
    };
    let ended = held.prepare(alloc);
    level.put(held);
    match ended {
        Ok(()) => OK,
        Err(_) => NO_MEMORY,
    }
}

/// A cheapest corridor and a taut path through it, from one place to another.
#[unsafe(no_mangle)]
pub extern "C" fn navd_find_path(
    alloc: Global,
    level: &mut NavdLevel,
    way: &NavdWay,
    links: &mut [NavdLink],
    turns: &mut [NavdTurn],
    path: &mut NavdPath,
) -> u32
    ensures asked { IsAnswerable (path_asked way.now)
        → IsAsked told_path (shown_in level.old.level) (path_asked way.now) (path.old, links.old, turns.old) (path.new, links.new, turns.new) result }
    ensures refused { (IsAnswerable (path_asked way.now) → ⊥)
        → EndsSo {Room = PathRoom} status.out_of_range (path.old, links.old, turns.old) (path.new, links.new, turns.new) result }
    ensures same { level.new.level ≡ level.old.level }
{
    find_path(alloc, level, way, links, turns, path)
}

/// The straight walk from a place toward a point.
#[unsafe(no_mangle)]
pub extern "C" fn navd_cast_ray(
    alloc: Global,
    level: &mut NavdLevel,
    way: &NavdWay,
    ray: &mut NavdRay,
) -> u32
    ensures asked { IsAnswerable (ray_asked way.now) → IsAsked told_ray (shown_in level.old.level) (ray_asked way.now) ray.old ray.new result }
    ensures refused { (IsAnswerable (ray_asked way.now) → ⊥) → EndsSo status.out_of_range ray.old ray.new result }
    ensures same { level.new.level ≡ level.old.level }
{
    cast_ray(alloc, level, way, ray)
}

/// The floors of the free cells of a column; how many there are is left at `count`.
#[unsafe(no_mangle)]
pub extern "C" fn navd_floors(
    alloc: Global,
    level: &mut NavdLevel,
    x: u32,
    z: u32,
    floors: &mut [NavdFloor],
    count: &mut usize,
) -> u32
    ensures asked { IsAsked told_floors (shown_in level.old.level) (Question.Floor x z) (count.old, floors.old) (count.new, floors.new) result }
    ensures same { level.new.level ≡ level.old.level }
{
    find_floors(alloc, level, x, z, floors, count)
}

/// A cheapest walk over links and jumps, with taut lines between the jumps.
#[unsafe(no_mangle)]
pub extern "C" fn navd_find_hop(
    alloc: Global,
    level: &mut NavdLevel,
    hop: &mut NavdHop,
    jumps: &[NavdJump],
    steps: &mut [NavdStep],
    turns: &mut [NavdTurn],
) -> u32
    ensures asked { CanHop (hop_asked hop.old.way jumps.now) → IsAskedBy (IsRightHop (hop_asked hop.old.way jumps.now)) hop_ends told_hop
        (shown_in level.old.level) (hop.old, steps.old, turns.old) (hop.new, steps.new, turns.new) result }
    ensures refused { (CanHop (hop_asked hop.old.way jumps.now) → ⊥)
        → EndsSo {Room = HopRoom} status.out_of_range (hop.old, steps.old, turns.old) (hop.new, steps.new, turns.new) result }
    ensures same { level.new.level ≡ level.old.level }
{
    find_hop(alloc, level, hop, jumps, steps, turns)
}

/// Places a walker at a place, on its way to another.
#[unsafe(no_mangle)]
pub extern "C" fn navd_send(
    alloc: Global,
    level: &mut NavdLevel,
    way: &NavdWay,
    links: &mut [NavdLink],
    walker: &mut NavdWalker,
) -> u32
    ensures asked { CanSend (send_asked way.now) → IsAskedBy (IsRightSent (send_asked way.now)) walk_ends (told_send way.now)
        (shown_in level.old.level) (walker.old, links.old) (walker.new, links.new) result }
    ensures refused { (CanSend (send_asked way.now) → ⊥)
        → EndsSo {Room = WalkRoom} status.out_of_range (walker.old, links.old) (walker.new, links.new) result }
    ensures same { level.new.level ≡ level.old.level }
{
    send(alloc, level, way, links, walker)
}

/// Moves a walker toward its goal, for a length in sixteenths of a cell.
#[unsafe(no_mangle)]
pub extern "C" fn navd_march(
    alloc: Global,
    level: &mut NavdLevel,
    walker: &mut NavdWalker,
    length: u32,
    links: &mut [NavdLink],
) -> u32
    ensures asked { CanMarch (march_asked walker.old length) → IsAskedBy (IsRightMarched (march_asked walker.old length)) walk_ends told_march
        (shown_in level.old.level) (walker.old, links.old) (walker.new, links.new) result }
    ensures refused { (CanMarch (march_asked walker.old length) → ⊥)
        → EndsSo {Room = WalkRoom} status.out_of_range (walker.old, links.old) (walker.new, links.new) result }
    ensures same { level.new.level ≡ level.old.level }
{
    march(alloc, level, walker, length, links)
}

/// What is told of a level.
pub(crate) fn level_counts(level: &Level) -> NavdCounts
    ensures { result ≡ counts_of level.now }
{
    let (polygons, links) = level.mesh_counts();
    NavdCounts {
        history: level.length(),
        target: level.target(),
        published: level.published(),
        tiles: tiles(&level.ground().setting),
        polygons,
        links,
    }
}

/// The counts of a level.
#[unsafe(no_mangle)]
pub extern "C" fn navd_count(alloc: Global, level: &mut NavdLevel, counts: &mut NavdCounts) -> u32
    ensures counted { AreCounted level.old.level counts.old counts.new result }
    ensures same { level.new.level ≡ level.old.level }
{
    let Some(held) = level.take(alloc) else {
        return EMPTY;
    };
    *counts = level_counts(&held);
    level.put(held);
    OK
}
