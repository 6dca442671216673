//! What a mesh shows to one who draws it, over the border.

ghost use Rattle.std.specs.Prelude.{◌≡◌};
ghost use Rattle.nav_handle.specs.Answers.{shown_in};
ghost use Rattle.nav_handle.specs.Looking.{AreObstacles, AreTold, faces_of, inner_links_of, border_links_of};

use nav_handle::{
    EMPTY, NO_MEMORY, NavdFace, NavdLevel, NavdLink, NavdObstacle, OK, lay_obstacles,
    tell_border_links, tell_faces, tell_inner_links,
};
use std::alloc::Global;

/// The polygons of a tile of the published mesh; how many there are is left at `count`.
#[unsafe(no_mangle)]
pub extern "C" fn navd_polygons(
    alloc: Global,
    level: &mut NavdLevel,
    tile: u32,
    polygons: &mut [NavdFace],
    count: &mut usize,
) -> u32
    ensures told { AreTold faces_of (shown_in level.old.level) tile (count.old, polygons.old) (count.new, polygons.new) result }
    ensures same { level.new.level ≡ level.old.level }
{
    let Some(held) = level.take(alloc) else {
        return EMPTY;
    };
    let status = tell_faces(held.mesh(), tile, polygons, count);
    level.put(held);
    status
}

/// The links between polygons of a tile of the published mesh; how many there are is left at `count`.
#[unsafe(no_mangle)]
pub extern "C" fn navd_inner_links(
    alloc: Global,
    level: &mut NavdLevel,
    tile: u32,
    links: &mut [NavdLink],
    count: &mut usize,
) -> u32
    ensures told { AreTold inner_links_of (shown_in level.old.level) tile (count.old, links.old) (count.new, links.new) result }
    ensures same { level.new.level ≡ level.old.level }
{
    let Some(held) = level.take(alloc) else {
        return EMPTY;
    };
    let status = tell_inner_links(held.mesh(), tile, links, count);
    level.put(held);
    status
}

/// The links that lead from a tile of the published mesh to others; how many there are is left at `count`.
#[unsafe(no_mangle)]
pub extern "C" fn navd_border_links(
    alloc: Global,
    level: &mut NavdLevel,
    tile: u32,
    links: &mut [NavdLink],
    count: &mut usize,
) -> u32
    ensures told { AreTold border_links_of (shown_in level.old.level) tile (count.old, links.old) (count.new, links.new) result }
    ensures same { level.new.level ≡ level.old.level }
{
    let Some(held) = level.take(alloc) else {
        return EMPTY;
    };
    let status = tell_border_links(held.mesh(), tile, links, count);
    level.put(held);
    status
}

/// The obstacles that are alive after the whole history, by rising numbers; how many there are is left at `count`.
#[unsafe(no_mangle)]
pub extern "C" fn navd_obstacles(
    alloc: Global,
    level: &mut NavdLevel,
    obstacles: &mut [NavdObstacle],
    count: &mut usize,
) -> u32
    ensures told { AreObstacles level.old.level (count.old, obstacles.old) (count.new, obstacles.new) result }
    ensures same { level.new.level ≡ level.old.level }
{
    let Some(held) = level.take(alloc) else {
        return EMPTY;
    };
    let Ok(numbers) = held.alive(alloc) else {
        level.put(held);
        return NO_MEMORY;
    };
    *count = numbers.len();
    lay_obstacles(held.entries(), numbers.as_slice(), obstacles);
    level.put(held);
    OK
}
