//! The foot of a motion's target on a polygon: the nearest point that the polygon holds, no farther from the motion's start than the target.

ghost use Rattle.std.specs.Prelude.{◌≡◌, ◌≤◌, pos, ◌+ℤ◌, ◌-ℤ◌};
ghost use Rattle.std.specs.Int.RustNames.{unsigned_abs};
ghost use Rattle.nav_base.specs.Point.{HasCoordinates};
ghost use Rattle.mesh_types.specs.FitTiles.{IsPolygon};
ghost use Rattle.wall_slide.specs.Slides.{IsMotion};
ghost use Rattle.wall_slide.specs.Facing.{IsFacing, IsFootRow};
ghost use Rattle.wall_slide.specs.Feet.{IsAnywhere, IsNearer, IsNearerOf, IsOnRow};

use crate::corners::nearest_line;
use crate::discs::Motion;
use crate::facing::{FacingEdge, FootRow, facing_edge, foot_row, is_beyond, is_row_beyond};
use crate::rows::{nearest_place, part_held, part_within, point_on};
use mesh_types::Polygon;
use nav_base::{Point, square_distance};

/// The point that was found, or one that a polygon holds, no farther from the start of a motion than its target is, and nearer to the target;
/// of those one than which none is nearer. A row on which the nearest point is likely comes first: mostly no other row can then hold a nearer
/// one.
pub(crate) fn nearer_in(polygon: &Polygon, motion: Motion, best: Point) -> Point
    requires rules { IsPolygon polygon.now }
    requires motion { IsMotion motion }
    requires best { HasCoordinates best }
    ensures { IsNearer polygon.now motion best result IsAnywhere }
{
    let edge = facing_edge(polygon, motion.to);
    if is_beyond(edge, motion.to, square_distance(motion.to, best)) {
        return best;
    }
    let facing = nearest_line(polygon, edge, motion.to);
    let foot = foot_row(facing, motion.to);
    let guess = nearer_on_row(polygon, facing, motion, foot.row, best);
    nearer_beside(polygon, facing, motion, foot, guess)
}

/// The same, where the row of the target's foot was looked at. Rows are looked at outward from that one, as long as they can hold a nearer
/// point.
fn nearer_beside(
    polygon: &Polygon,
    facing: FacingEdge,
    motion: Motion,
    foot: FootRow,
    best: Point,
) -> Point
    requires rules { IsPolygon polygon.now }
    requires facing { IsFacing polygon.now facing }
    requires motion { IsMotion motion }
    requires best { HasCoordinates best }
    requires foot { IsFootRow facing motion.to foot }
    requires row { unsigned_abs foot.row ≤ 196608 }
    requires away { foot.away ≤ 34359738368 }
    requires looked { IsNearer polygon.now motion best best (IsOnRow foot.row) }
    ensures { IsNearer polygon.now motion best result IsAnywhere }
{
    let mut nearest = best;
    let mut out = 0;
    while foot.away + out * out < square_distance(motion.to, nearest) {
        let (low, high) = rows_beside(foot.row, out + 1);
        nearest = nearer_on_row(polygon, facing, motion, low, nearest);
        nearest = nearer_on_row(polygon, facing, motion, high, nearest);
        out += 1;
    }
    nearest
}

/// The two rows so far from a row.
fn rows_beside(z: i32, out: u64) -> (i32, i32)
    requires row { unsigned_abs z ≤ 196608 }
    requires out { out ≤ 185365 }
    ensures low { result.0 ≡ z -ℤ pos out }
    ensures high { result.1 ≡ z +ℤ pos out }
{
    (z - out as i32, z + out as i32)
}

/// The same of the points of a row.
fn nearer_on_row(
    polygon: &Polygon,
    facing: FacingEdge,
    motion: Motion,
    z: i32,
    best: Point,
) -> Point
    requires rules { IsPolygon polygon.now }
    requires facing { IsFacing polygon.now facing }
    requires motion { IsMotion motion }
    requires best { HasCoordinates best }
    ensures { IsNearer polygon.now motion best result (IsOnRow z) }
{
    if z < 0 {
        return best;
    }
    if z > 16384 {
        return best;
    }
    nearer_on_line(polygon, facing, motion, z.unsigned_abs(), best)
}

/// The same of a row of the field.
fn nearer_on_line(
    polygon: &Polygon,
    facing: FacingEdge,
    motion: Motion,
    z: u32,
    best: Point,
) -> Point
    requires rules { IsPolygon polygon.now }
    requires facing { IsFacing polygon.now facing }
    requires motion { IsMotion motion }
    requires best { HasCoordinates best }
    requires row { z ≤ 16384 }
    ensures { IsNearer polygon.now motion best result (IsOnRow (pos z)) }
{
    if is_row_beyond(facing, motion.to, z, square_distance(motion.to, best)) {
        return best;
    }
    let Some(within) = part_within(motion, z) else {
        return best;
    };
    let Some(held) = part_held(polygon, within, z) else {
        return best;
    };
    nearer(motion, point_on(nearest_place(held, motion.to), z), best)
}

/// The one of two points that is nearer to a motion's target; the second where they are equally near.
fn nearer(motion: Motion, point: Point, best: Point) -> Point
    requires motion { IsMotion motion }
    requires point { HasCoordinates point }
    requires best { HasCoordinates best }
    ensures { IsNearerOf motion point best result }
{
    if square_distance(motion.to, point) < square_distance(motion.to, best) {
        point
    } else {
        best
    }
}
