//! The place that a number draws.

ghost use Rattle.std.specs.Prelude.{◌≡◌, Option};
ghost use Rattle.mesh_types.specs.declared.mesh.Mesh.{Mesh};
ghost use Rattle.nav_handle.specs.Answers.{IsAskedBy, IsRepliedBy, seen_in};
ghost use Rattle.place_handle.specs.Drawing.{IsDrawnBy, draw_asked, draw_ends, told_draw};
ghost use Rattle.random_place.specs.declared.draws.DrawPlace.{DrawPlace};

use crate::places::{NO_PLACE, NavdPlace, place_told};
use nav_handle::{CUT, NavdView, OK};
use random_place::{DrawAnswer, DrawPlace};
use std::alloc::Global;

/// How the question for the place that a number draws ends.
fn end_draw(answer: Result<DrawAnswer, u32>, place: &mut NavdPlace) -> u32
    ensures { (held : Option Mesh) (asked : DrawPlace) → IsRepliedBy (IsDrawnBy asked) held answer
        → IsAskedBy (IsDrawnBy asked) draw_ends told_draw held place.old place.new result }
{
    match answer {
        Ok(DrawAnswer::Drawn(drawn)) => {
            *place = place_told(drawn);
            OK
        }
        Ok(DrawAnswer::Cut) => CUT,
        Ok(DrawAnswer::Nowhere) => NO_PLACE,
        Err(status) => status,
    }
}

/// The place that a number draws in the mesh that a view shows, of the cells of some areas, bit a for area a.
pub fn draw_place(
    alloc: Global,
    view: &mut NavdView,
    areas: u64,
    draw: u64,
    place: &mut NavdPlace,
) -> u32
    ensures asked { IsAskedBy (IsDrawnBy (draw_asked areas draw)) draw_ends told_draw (seen_in view.old.view) place.old place.new result }
    ensures same { view.new.view ≡ view.old.view }
{
    let answer = view.draw_place(alloc, DrawPlace { areas, draw });
    end_draw(answer, place)
}
