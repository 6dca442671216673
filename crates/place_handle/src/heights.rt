//! The height at a point of a polygon.

ghost use Rattle.std.specs.Prelude.{◌≡◌, Option};
ghost use Rattle.nav_base.specs.Point.{HasCoordinates};
ghost use Rattle.mesh_types.specs.declared.mesh.Mesh.{Mesh};
ghost use Rattle.mesh_types.specs.declared.storeys.MeshPlace.{MeshPlace};
ghost use Rattle.nav_handle.specs.Answers.{EndsSo, IsAskedBy, IsRepliedBy};
ghost use Rattle.nav_handle.specs.Statuses as status;
ghost use Rattle.place_handle.specs.Heights.{IsHeightAt, height_ends, told_height};
ghost use Rattle.place_handle.specs.Places.{place_of};

use crate::places::{NO_PLACE, NavdPlace, place_of};
use mesh_place::{HeightAnswer, HeightAt};
use nav_handle::{HasMesh, OK, OUT_OF_RANGE, has_coordinates};
use std::alloc::Global;

/// How the question for a height ends.
fn end_height(answer: Result<HeightAnswer, u32>, place: &mut NavdPlace) -> u32
    ensures { (held : Option Mesh) (at : MeshPlace) → IsRepliedBy (IsHeightAt at) held answer
        → IsAskedBy (IsHeightAt at) height_ends told_height held place.old place.new result }
{
    match answer {
        Ok(HeightAnswer::Height { y, .. }) => {
            place.y = y;
            OK
        }
        Ok(HeightAnswer::NoPlace) => NO_PLACE,
        Err(status) => status,
    }
}

/// The highest floor at the point of a place in its polygon, in the mesh of a handle.
pub fn height<H: HasMesh>(alloc: Global, held: &mut H, place: &mut NavdPlace) -> u32
    ensures asked { HasCoordinates (place_of place.old).point
        → IsAskedBy (IsHeightAt (place_of place.old)) height_ends told_height (H.mesh_in held.old) place.old place.new result }
    ensures refused { (HasCoordinates (place_of place.old).point → ⊥) → EndsSo status.out_of_range place.old place.new result }
    ensures same { H.is_same held.old held.new }
{
    if !has_coordinates(place.at) {
        return OUT_OF_RANGE;
    }
    let at = place_of(place);
    let asked = HeightAt {
        polygon: at.polygon,
        point: at.point,
    };
    let answer = held.ask_by(alloc, &asked);
    end_height(answer, place)
}
