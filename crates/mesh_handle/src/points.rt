//! Points of the game as places of a frame, and places as points.
ghost use Rattle.mesh_handle.specs.Points.{IsPlacing, IsPointing};

use crate::statuses::{NO_ROOM, OK, OUT_OF_RANGE};
use world_grid::{Frame, FramePlace, WorldPoint, place_of, point_of};

/// Turns points of the game into places of a frame, one after the other, and leaves at `count` how many were turned. It ends before the
/// first that has no place, and where there is no room for more.
pub fn places_of(
    frame: &Frame,
    points: &[WorldPoint],
    places: &mut [FramePlace],
    count: &mut usize,
) -> u32
    ensures { IsPlacing frame.now points.now places.old places.new count.new result }
{
    for at in 0..points.len() {
        if at == places.len() {
            *count = at;
            return NO_ROOM;
        }
        let Some(place) = place_of(*frame, points[at]) else {
            *count = at;
            return OUT_OF_RANGE;
        };
        places[at] = place;
    }
    *count = points.len();
    OK
}

/// Turns places of a frame into points of the game, one after the other, and leaves at `count` how many were turned. It ends before the
/// first to which no point belongs, and where there is no room for more.
pub fn points_of(
    frame: &Frame,
    places: &[FramePlace],
    points: &mut [WorldPoint],
    count: &mut usize,
) -> u32
    ensures { IsPointing frame.now places.now points.old points.new count.new result }
{
    for at in 0..places.len() {
        if at == points.len() {
            *count = at;
            return NO_ROOM;
        }
        let Some(point) = point_of(*frame, places[at]) else {
            *count = at;
            return OUT_OF_RANGE;
        };
        points[at] = point;
    }
    *count = places.len();
    OK
}
