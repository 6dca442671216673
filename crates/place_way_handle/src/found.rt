//! What is told of a way between places.

ghost use Rattle.std.specs.Prelude.{◌≡◌, map};
ghost use Rattle.nav_handle.specs.Wire.{laid};
ghost use Rattle.place_handle.specs.Places.{place_told};
ghost use Rattle.place_way_handle.specs.Finding.{found_ends, told_found};

use mesh_types::MeshPlace;
use nav_handle::{LIMIT, NO_GOAL, NO_PATH, NO_START, NavdLink, OK, lay_links};
use place_handle::{NavdPlace, place_told};
use place_ways::PlaceWayAnswer;

/// What is found of a way between places: what it costs, or what it costs at least, and how many links and corners it has.
#[repr(C)]
#[derive(Clone, Copy)]
pub struct NavdFoundWay {
    pub cost: u64,
    pub seen: u64,
    pub links: usize,
    pub corners: usize,
}

/// How a question for a way between places ends with an answer.
pub(crate) fn found_status(answer: &PlaceWayAnswer) -> u32
    ensures { result ≡ found_ends answer.now }
{
    match answer {
        PlaceWayAnswer::Way { .. } => OK,
        PlaceWayAnswer::Limit { .. } => LIMIT,
        PlaceWayAnswer::NoStart => NO_START,
        PlaceWayAnswer::NoGoal => NO_GOAL,
        PlaceWayAnswer::NoPath => NO_PATH,
    }
}

/// Lays places into a room.
fn lay_places(places: &[MeshPlace], room: &mut [NavdPlace])
    ensures { room.new ≡ laid (map place_told places.now) room.old }
{
    let count = places.len().min(room.len());
    for place in 0..count {
        room[place] = place_told(places[place]);
    }
}

/// Tells a way with its links and corners, or how far was seen, if the answer says so.
pub(crate) fn tell_found(
    answer: &PlaceWayAnswer,
    found: &mut NavdFoundWay,
    links: &mut [NavdLink],
    corners: &mut [NavdPlace],
)
    ensures { (found.new, links.new, corners.new) ≡ told_found answer.now (found.old, links.old, corners.old) }
{
    match answer {
        PlaceWayAnswer::Way { way, corners: line } => {
            lay_links(way.links.as_slice(), links);
            lay_places(line.as_slice(), corners);
            found.cost = way.cost;
            found.links = way.links.len();
            found.corners = line.len();
        }
        PlaceWayAnswer::Limit { seen } => found.seen = *seen,
        _ => {}
    }
}
