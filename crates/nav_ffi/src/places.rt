//! Questions about places on the mesh, asked of what a view shows.

ghost use Rattle.std.specs.Prelude.{◌≡◌};
ghost use Rattle.nav_base.specs.Point.{HasCoordinates};
ghost use Rattle.mesh_place.specs.Nearest.{CanAskNear};
ghost use Rattle.nav_handle.specs.Answers.{EndsSo, IsAskedBy, seen_in};
ghost use Rattle.nav_handle.specs.Statuses as status;
ghost use Rattle.place_handle.specs.Checking.{IsPlaceCheck, check_ends, told_check};
ghost use Rattle.place_handle.specs.Drawing.{IsDrawnBy, draw_asked, draw_ends, told_draw};
ghost use Rattle.place_handle.specs.Heights.{IsHeightAt, height_ends, told_height};
ghost use Rattle.place_handle.specs.Nearing.{IsNearestTo, near_asked, near_ends, told_near};
ghost use Rattle.place_handle.specs.Places.{place_of};
ghost use Rattle.place_handle.specs.Sliding.{IsSlidBy, slide_asked, slide_ends, told_slide};
ghost use Rattle.wall_slide.specs.Slides.{CanSlide};

use nav_handle::{NavdPoint, NavdView};
use place_handle::{NavdNear, NavdPlace};
use std::alloc::Global;

/// The place nearest to a point and a height in the mesh that a view shows, of those that stand and are in reach.
#[unsafe(no_mangle)]
pub extern "C" fn navd_view_nearest(
    alloc: Global,
    view: &mut NavdView,
    near: &NavdNear,
    place: &mut NavdPlace,
) -> u32
    ensures asked { CanAskNear (near_asked near.now)
        → IsAskedBy (IsNearestTo (near_asked near.now)) near_ends told_near (seen_in view.old.view) place.old place.new result }
    ensures refused { (CanAskNear (near_asked near.now) → ⊥) → EndsSo status.out_of_range place.old place.new result }
    ensures same { view.new.view ≡ view.old.view }
{
    place_handle::nearest(alloc, view, near, place)
}

/// The highest floor at the point of a place in its polygon, in the mesh that a view shows.
#[unsafe(no_mangle)]
pub extern "C" fn navd_view_height(alloc: Global, view: &mut NavdView, place: &mut NavdPlace) -> u32
    ensures asked { HasCoordinates (place_of place.old).point
        → IsAskedBy (IsHeightAt (place_of place.old)) height_ends told_height (seen_in view.old.view) place.old place.new result }
    ensures refused { (HasCoordinates (place_of place.old).point → ⊥) → EndsSo status.out_of_range place.old place.new result }
    ensures same { view.new.view ≡ view.old.view }
{
    place_handle::height(alloc, view, place)
}

/// Whether a place is one of the mesh that a view shows.
#[unsafe(no_mangle)]
pub extern "C" fn navd_view_is_place(alloc: Global, view: &mut NavdView, place: &NavdPlace) -> u32
    ensures asked { HasCoordinates (place_of place.now).point
        → IsAskedBy (IsPlaceCheck (place_of place.now)) check_ends told_check (seen_in view.old.view) place.now place.now result }
    ensures refused { (HasCoordinates (place_of place.now).point → ⊥) → EndsSo status.out_of_range place.now place.now result }
    ensures same { view.new.view ≡ view.old.view }
{
    place_handle::is_place(alloc, view, place)
}

/// The place that a number draws in the mesh that a view shows, of the cells of some areas, bit a for area a.
#[unsafe(no_mangle)]
pub extern "C" fn navd_view_random_place(
    alloc: Global,
    view: &mut NavdView,
    areas: u64,
    draw: u64,
    place: &mut NavdPlace,
) -> u32
    ensures asked { IsAskedBy (IsDrawnBy (draw_asked areas draw)) draw_ends told_draw (seen_in view.old.view) place.old place.new result }
    ensures same { view.new.view ≡ view.old.view }
{
    place_handle::draw_place(alloc, view, areas, draw, place)
}

/// Where a slide along walls from a place toward a point ends in the mesh that a view shows, which enters polygons of some areas, bit a for
/// area a.
#[unsafe(no_mangle)]
pub extern "C" fn navd_view_slide(
    alloc: Global,
    view: &mut NavdView,
    from: &NavdPlace,
    to: &NavdPoint,
    areas: u64,
    end: &mut NavdPlace,
) -> u32
    ensures asked { CanSlide (slide_asked from.now to.now areas)
        → IsAskedBy (IsSlidBy (slide_asked from.now to.now areas)) slide_ends told_slide (seen_in view.old.view) end.old end.new result }
    ensures refused { (CanSlide (slide_asked from.now to.now areas) → ⊥) → EndsSo status.out_of_range end.old end.new result }
    ensures same { view.new.view ≡ view.old.view }
{
    place_handle::slide(alloc, view, from, to, areas, end)
}
