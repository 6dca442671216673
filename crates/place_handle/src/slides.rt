//! Slides along walls, from a place toward a point.

ghost use Rattle.std.specs.Prelude.{◌≡◌, Option};
ghost use Rattle.mesh_types.specs.declared.mesh.Mesh.{Mesh};
ghost use Rattle.nav_handle.specs.Answers.{EndsSo, IsAskedBy, IsRepliedBy};
ghost use Rattle.nav_handle.specs.Statuses as status;
ghost use Rattle.place_handle.specs.Sliding.{IsSlidBy, slide_asked, slide_ends, told_slide};
ghost use Rattle.wall_slide.specs.declared.questions.Slide.{Slide};
ghost use Rattle.wall_slide.specs.Slides.{CanSlide};

use crate::places::{NavdPlace, place_of, place_told};
use nav_handle::{HasMesh, NO_START, NavdPoint, OK, OUT_OF_RANGE, has_coordinates, point_of};
use std::alloc::Global;
use wall_slide::{Slide, SlideAnswer};

/// How the question for a slide ends.
fn end_slide(answer: Result<SlideAnswer, u32>, end: &mut NavdPlace) -> u32
    ensures { (held : Option Mesh) (asked : Slide) → IsRepliedBy (IsSlidBy asked) held answer
        → IsAskedBy (IsSlidBy asked) slide_ends told_slide held end.old end.new result }
{
    match answer {
        Ok(SlideAnswer::Slid(place)) => {
            *end = place_told(place);
            OK
        }
        Ok(SlideAnswer::NoStart) => NO_START,
        Err(status) => status,
    }
}

/// Where a slide from a place toward a point ends in the mesh of a handle, which enters polygons of some areas, bit a for area a.
pub fn slide<H: HasMesh>(
    alloc: Global,
    held: &mut H,
    from: &NavdPlace,
    to: &NavdPoint,
    areas: u64,
    end: &mut NavdPlace,
) -> u32
    ensures asked { CanSlide (slide_asked from.now to.now areas)
        → IsAskedBy (IsSlidBy (slide_asked from.now to.now areas)) slide_ends told_slide (H.mesh_in held.old) end.old end.new result }
    ensures refused { (CanSlide (slide_asked from.now to.now areas) → ⊥) → EndsSo status.out_of_range end.old end.new result }
    ensures same { H.is_same held.old held.new }
{
    if !has_coordinates(from.at) || !has_coordinates(*to) {
        return OUT_OF_RANGE;
    }
    let asked = Slide {
        from: place_of(from),
        to: point_of(*to),
        areas,
    };
    let answer = held.ask_by(alloc, &asked);
    end_slide(answer, end)
}
