//! Whether a place that a host kept is one of the mesh.

ghost use Rattle.std.specs.Prelude.{◌≡◌, Bool, Option};
ghost use Rattle.nav_base.specs.Point.{HasCoordinates};
ghost use Rattle.mesh_types.specs.declared.mesh.Mesh.{Mesh};
ghost use Rattle.mesh_types.specs.declared.storeys.MeshPlace.{MeshPlace};
ghost use Rattle.nav_handle.specs.Answers.{EndsSo, IsAskedBy, IsRepliedBy};
ghost use Rattle.nav_handle.specs.Statuses as status;
ghost use Rattle.place_handle.specs.Checking.{IsPlaceCheck, check_ends, told_check};
ghost use Rattle.place_handle.specs.declared.places.NavdPlace.{NavdPlace};
ghost use Rattle.place_handle.specs.Places.{place_of};

use crate::places::{NO_PLACE, NavdPlace, place_of};
use mesh_types::{Asked, Mesh, MeshPlace};
use nav_handle::{HasMesh, OK, OUT_OF_RANGE, has_coordinates};
use std::alloc::{AllocError, Global};

/// The question whether a place is one of the mesh.
#[derive(Clone, Copy)]
struct PlaceCheck {
    place: MeshPlace,
}

impl Asked for PlaceCheck {
    ghost use Rattle.nav_base.specs.Point.{HasCoordinates};
    ghost use Rattle.place_handle.specs.Checking.{IsPlaceCheck};

    type Answer = bool;

    ghost can_ask = { λ asked. HasCoordinates asked.place.point };

    ghost is_right = { λ asked mesh answer. IsPlaceCheck asked.place mesh answer };

    fn ask(&self, _alloc: Global, mesh: &Mesh) -> Result<bool, AllocError> {
        Ok(mesh_place::is_place(mesh, self.place))
    }
}

/// How the question ends.
fn end_check(answer: Result<bool, u32>) -> u32
    ensures { (held : Option Mesh) (place : MeshPlace) (room : NavdPlace) → IsRepliedBy (IsPlaceCheck place) held answer
        → IsAskedBy (IsPlaceCheck place) check_ends told_check held room room result }
{
    match answer {
        Ok(true) => OK,
        Ok(false) => NO_PLACE,
        Err(status) => status,
    }
}

/// Whether a place is one of the mesh of a handle.
pub fn is_place<H: HasMesh>(alloc: Global, held: &mut H, place: &NavdPlace) -> u32
    ensures asked { HasCoordinates (place_of place.now).point
        → IsAskedBy (IsPlaceCheck (place_of place.now)) check_ends told_check (H.mesh_in held.old) place.now place.now result }
    ensures refused { (HasCoordinates (place_of place.now).point → ⊥) → EndsSo status.out_of_range place.now place.now result }
    ensures same { H.is_same held.old held.new }
{
    if !has_coordinates(place.at) {
        return OUT_OF_RANGE;
    }
    let asked = PlaceCheck {
        place: place_of(place),
    };
    let answer = held.ask_by(alloc, &asked);
    end_check(answer)
}
