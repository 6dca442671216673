//! Laws of right answers on built meshes: what they tell are places, so that the next question may begin there and is not answered that there is no
//! start. The calls do nothing.

ghost use Rattle.storey_laws.specs.Built.{HoldsOfMeshes};
ghost use Rattle.storey_laws.specs.PlacesTold.{HeightsAreTold, SlidesEndAtPlaces, StripDrawsAreWhole, WaysTurnAtPlaces};

/// Where a polygon holds a point, a right answer for the height there tells one.
pub fn heights_are_told()
    ensures { HoldsOfMeshes HeightsAreTold }
{}

/// Each slide ends at a place of the mesh.
pub fn slides_end_at_places()
    ensures { HoldsOfMeshes SlidesEndAtPlaces }
{}

/// The corners of each way between places are places of the mesh.
pub fn ways_turn_at_places()
    ensures { HoldsOfMeshes WaysTurnAtPlaces }
{}

/// Where the setting asks for strips, each draw that falls on a cell tells a place: none is cut.
pub fn draws_on_strips_are_whole()
    ensures { HoldsOfMeshes StripDrawsAreWhole }
{}
