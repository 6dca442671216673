//! Views over the border: what one thread asks and is shown while another changes the level, and costs that a view has of its own.

ghost use Rattle.std.specs.Prelude.{◌≡◌, None, IfOk};
ghost use Rattle.nav_query.specs.Questions.{IsAnswerable};
ghost use Rattle.off_links.specs.Questions.{CanHop, IsRightHop};
ghost use Rattle.agent_walks.specs.Questions.{CanMarch, CanSend, IsRightMarched, IsRightSent};
ghost use Rattle.nav_handle.specs.Views.{shown_to, AreCosts, seen_at};
ghost use Rattle.nav_handle.specs.Answers.{EndsSo, IsAsked, IsAskedBy, seen_in};
ghost use Rattle.nav_handle.specs.Hopping.{HopRoom, hop_asked, hop_ends, told_hop};
ghost use Rattle.nav_handle.specs.Telling.{PathRoom, told_floors, told_path, told_ray};
ghost use Rattle.nav_handle.specs.Walking.{WalkRoom, march_asked, send_asked, told_march, told_send, walk_ends};
ghost use Rattle.nav_handle.specs.Wire.{path_asked, ray_asked};
ghost use Rattle.nav_handle.specs.Looking.{AreShown, AreTold, faces_of, inner_links_of, border_links_of};
ghost use Rattle.nav_ffi.specs.Viewing.{IsCopied, IsLooked, own_in, IsCosted};
ghost use Rattle.nav_handle.specs.Statuses as status;

use nav_base::Question;
use nav_book::Level;
use nav_ground::AREAS;
use nav_handle::{
    EMPTY, MeshView, NO_MEMORY, NavdFace, NavdFloor, NavdHop, NavdJump, NavdLevel, NavdLink,
    NavdPath, NavdRay, NavdShown, NavdStep, NavdTurn, NavdView, NavdWalker, NavdWay, OK,
    OUT_OF_RANGE, cast_ray, find_floors, find_hop, find_path, march, send, table_of,
    tell_border_links, tell_faces, tell_inner_links,
};
use std::alloc::{AllocError, Global};

/// A view of what a level has published, on the heap, with the costs that the handle's view has of its own, if it holds one that has some.
pub(crate) fn next_view(
    alloc: Global,
    view: &mut NavdView,
    level: &Level,
) -> Result<Box<MeshView, Global>, AllocError>
    ensures made { IfOk result (λ made. made.value ≡ shown_to (own_in view.old.view) level.now) }
    ensures same { view.new.view ≡ view.old.view }
{
    let Some(mut held) = view.take(alloc) else {
        return Ok(Box::new(alloc, MeshView::of(alloc, level)?)?);
    };
    let made = held.again(alloc, level);
    view.put(held);
    Ok(Box::new(alloc, made?)?)
}

/// Brings a view up to what the level has published now, whose length is left at `published`. What the view showed before is let go; costs
/// of its own stay.
#[unsafe(no_mangle)]
pub extern "C" fn navd_look(
    alloc: Global,
    view: &mut NavdView,
    level: &mut NavdLevel,
    published: &mut u32,
) -> u32
    ensures looked { IsLooked level.old.level view.old.view published.old
        (record { status = result; number = published.new; held = view.new.view }) }
    ensures same { level.new.level ≡ level.old.level }
{
    let Some(held) = level.take(alloc) else {
        return EMPTY;
    };
    let length = held.published();
    let made = next_view(alloc, view, &held);
    level.put(held);
    match made {
        Ok(made) => {
            view.put(made);
            *published = length;
            OK
        }
        Err(_) => NO_MEMORY,
    }
}

/// A further view of the mesh that a view shows, on the heap.
fn copy_of(alloc: Global, view: &MeshView) -> Result<Box<MeshView, Global>, AllocError>
    ensures { IfOk result (λ made. made.value ≡ view.now) }
{
    let made = view.duplicate(alloc)?;
    Ok(Box::new(alloc, made)?)
}

/// Brings a view to what another one shows, with the costs that that one has of its own. What the view showed before is let go.
#[unsafe(no_mangle)]
pub extern "C" fn navd_view_copy(alloc: Global, to: &mut NavdView, from: &mut NavdView) -> u32
    ensures copied { IsCopied from.old.view to.old.view to.new.view result }
    ensures same { from.new.view ≡ from.old.view }
{
    let Some(held) = from.take(alloc) else {
        return EMPTY;
    };
    let made = copy_of(alloc, &held);
    from.put(held);
    match made {
        Ok(made) => {
            to.put(made);
            OK
        }
        Err(_) => NO_MEMORY,
    }
}

/// Closes the view, if the handle holds one.
#[unsafe(no_mangle)]
pub extern "C" fn navd_view_close(alloc: Global, view: &mut NavdView)
    ensures { view.new.view ≡ None }
{
    let _ = view.take(alloc);
}

/// A cheapest corridor and a taut path through it, in the mesh that a view shows.
#[unsafe(no_mangle)]
pub extern "C" fn navd_view_find_path(
    alloc: Global,
    view: &mut NavdView,
    way: &NavdWay,
    links: &mut [NavdLink],
    turns: &mut [NavdTurn],
    path: &mut NavdPath,
) -> u32
    ensures asked { IsAnswerable (path_asked way.now)
        → IsAsked told_path (seen_in view.old.view) (path_asked way.now) (path.old, links.old, turns.old) (path.new, links.new, turns.new) result }
    ensures refused { (IsAnswerable (path_asked way.now) → ⊥)
        → EndsSo {Room = PathRoom} status.out_of_range (path.old, links.old, turns.old) (path.new, links.new, turns.new) result }
    ensures same { view.new.view ≡ view.old.view }
{
    find_path(alloc, view, way, links, turns, path)
}

/// The straight walk from a place toward a point, in the mesh that a view shows.
#[unsafe(no_mangle)]
pub extern "C" fn navd_view_cast_ray(
    alloc: Global,
    view: &mut NavdView,
    way: &NavdWay,
    ray: &mut NavdRay,
) -> u32
    ensures asked { IsAnswerable (ray_asked way.now) → IsAsked told_ray (seen_in view.old.view) (ray_asked way.now) ray.old ray.new result }
    ensures refused { (IsAnswerable (ray_asked way.now) → ⊥) → EndsSo status.out_of_range ray.old ray.new result }
    ensures same { view.new.view ≡ view.old.view }
{
    cast_ray(alloc, view, way, ray)
}

/// The floors of the free cells of a column, in the mesh that a view shows.
#[unsafe(no_mangle)]
pub extern "C" fn navd_view_floors(
    alloc: Global,
    view: &mut NavdView,
    x: u32,
    z: u32,
    floors: &mut [NavdFloor],
    count: &mut usize,
) -> u32
    ensures asked { IsAsked told_floors (seen_in view.old.view) (Question.Floor x z) (count.old, floors.old) (count.new, floors.new) result }
    ensures same { view.new.view ≡ view.old.view }
{
    find_floors(alloc, view, x, z, floors, count)
}

/// A cheapest walk over links and jumps, with taut lines between the jumps, in the mesh that a view shows.
#[unsafe(no_mangle)]
pub extern "C" fn navd_view_find_hop(
    alloc: Global,
    view: &mut NavdView,
    hop: &mut NavdHop,
    jumps: &[NavdJump],
    steps: &mut [NavdStep],
    turns: &mut [NavdTurn],
) -> u32
    ensures asked { CanHop (hop_asked hop.old.way jumps.now) → IsAskedBy (IsRightHop (hop_asked hop.old.way jumps.now)) hop_ends told_hop
        (seen_in view.old.view) (hop.old, steps.old, turns.old) (hop.new, steps.new, turns.new) result }
    ensures refused { (CanHop (hop_asked hop.old.way jumps.now) → ⊥)
        → EndsSo {Room = HopRoom} status.out_of_range (hop.old, steps.old, turns.old) (hop.new, steps.new, turns.new) result }
    ensures same { view.new.view ≡ view.old.view }
{
    find_hop(alloc, view, hop, jumps, steps, turns)
}

/// Places a walker at a place, on its way to another, in the mesh that a view shows.
#[unsafe(no_mangle)]
pub extern "C" fn navd_view_send(
    alloc: Global,
    view: &mut NavdView,
    way: &NavdWay,
    links: &mut [NavdLink],
    walker: &mut NavdWalker,
) -> u32
    ensures asked { CanSend (send_asked way.now) → IsAskedBy (IsRightSent (send_asked way.now)) walk_ends (told_send way.now)
        (seen_in view.old.view) (walker.old, links.old) (walker.new, links.new) result }
    ensures refused { (CanSend (send_asked way.now) → ⊥)
        → EndsSo {Room = WalkRoom} status.out_of_range (walker.old, links.old) (walker.new, links.new) result }
    ensures same { view.new.view ≡ view.old.view }
{
    send(alloc, view, way, links, walker)
}

/// Moves a walker toward its goal, for a length in sixteenths of a cell, in the mesh that a view shows.
#[unsafe(no_mangle)]
pub extern "C" fn navd_view_march(
    alloc: Global,
    view: &mut NavdView,
    walker: &mut NavdWalker,
    length: u32,
    links: &mut [NavdLink],
) -> u32
    ensures asked { CanMarch (march_asked walker.old length) → IsAskedBy (IsRightMarched (march_asked walker.old length)) walk_ends told_march
        (seen_in view.old.view) (walker.old, links.old) (walker.new, links.new) result }
    ensures refused { (CanMarch (march_asked walker.old length) → ⊥)
        → EndsSo {Room = WalkRoom} status.out_of_range (walker.old, links.old) (walker.new, links.new) result }
    ensures same { view.new.view ≡ view.old.view }
{
    march(alloc, view, walker, length, links)
}

/// How many entries a view shows, and how many tiles it has.
#[unsafe(no_mangle)]
pub extern "C" fn navd_view_count(alloc: Global, view: &mut NavdView, shown: &mut NavdShown) -> u32
    ensures told { AreShown view.old.view shown.old shown.new result }
    ensures same { view.new.view ≡ view.old.view }
{
    let Some(held) = view.take(alloc) else {
        return EMPTY;
    };
    *shown = NavdShown {
        published: held.length(),
        tiles: held.tiles(),
    };
    view.put(held);
    OK
}

/// The polygons of a tile of the mesh that a view shows; how many there are is left at `count`.
#[unsafe(no_mangle)]
pub extern "C" fn navd_view_polygons(
    alloc: Global,
    view: &mut NavdView,
    tile: u32,
    polygons: &mut [NavdFace],
    count: &mut usize,
) -> u32
    ensures told { AreTold faces_of (seen_in view.old.view) tile (count.old, polygons.old) (count.new, polygons.new) result }
    ensures same { view.new.view ≡ view.old.view }
{
    let Some(held) = view.take(alloc) else {
        return EMPTY;
    };
    let status = tell_faces(held.mesh(), tile, polygons, count);
    view.put(held);
    status
}

/// The links between polygons of a tile of the mesh that a view shows; how many there are is left at `count`.
#[unsafe(no_mangle)]
pub extern "C" fn navd_view_inner_links(
    alloc: Global,
    view: &mut NavdView,
    tile: u32,
    links: &mut [NavdLink],
    count: &mut usize,
) -> u32
    ensures told { AreTold inner_links_of (seen_in view.old.view) tile (count.old, links.old) (count.new, links.new) result }
    ensures same { view.new.view ≡ view.old.view }
{
    let Some(held) = view.take(alloc) else {
        return EMPTY;
    };
    let status = tell_inner_links(held.mesh(), tile, links, count);
    view.put(held);
    status
}

/// The links that lead from a tile of the mesh that a view shows to others; how many there are is left at `count`.
#[unsafe(no_mangle)]
pub extern "C" fn navd_view_border_links(
    alloc: Global,
    view: &mut NavdView,
    tile: u32,
    links: &mut [NavdLink],
    count: &mut usize,
) -> u32
    ensures told { AreTold border_links_of (seen_in view.old.view) tile (count.old, links.old) (count.new, links.new) result }
    ensures same { view.new.view ≡ view.old.view }
{
    let Some(held) = view.take(alloc) else {
        return EMPTY;
    };
    let status = tell_border_links(held.mesh(), tile, links, count);
    view.put(held);
    status
}

/// A view with other costs, on the heap.
fn costing(
    alloc: Global,
    view: &MeshView,
    costs: [u32; AREAS],
) -> Result<Box<MeshView, Global>, AllocError>
    requires { AreCosts costs }
    ensures { IfOk result (λ made. made.value ≡ seen_at costs view.now) }
{
    let made = view.costing(alloc, costs)?;
    Ok(Box::new(alloc, made)?)
}

/// Gives a view costs of areas of its own, one an area, by its number.
#[unsafe(no_mangle)]
pub extern "C" fn navd_view_set_costs(alloc: Global, view: &mut NavdView, costs: &[u32]) -> u32
    ensures { IsCosted view.old.view costs.now view.new.view result }
{
    let Some(table) = table_of(costs) else {
        return OUT_OF_RANGE;
    };
    let Some(held) = view.take(alloc) else {
        return EMPTY;
    };
    match costing(alloc, &held, table) {
        Ok(made) => {
            view.put(made);
            OK
        }
        Err(_) => {
            view.put(held);
            NO_MEMORY
        }
    }
}
