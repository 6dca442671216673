//! String pulling: the path through a chain of portals that is pulled tight.
//!
//! A chain is a row of portals from a start to a goal, each seen through the one before it. The path turns only at ends of portals. It is
//! found by a cone: from the last corner one looks ahead, a portal at a time, through the wedge that the portals leave open. Where the
//! wedge closes on the left, its left corner is the next, and where it closes on the right, its right corner; from there one looks again.
//! After Detour's string pulling.
//!
//! Points are in sixteenths of a cell. With x drawn to the right and z upward, a positive turn is a turn to the left.
#![tactic(auto)]

mod corners;
mod funnel;

ghost use Rattle.std.specs.Prelude.{◌<◌, IfOk, length};
ghost use Rattle.mesh_types.specs.Chains.{IsChain};
ghost use Rattle.mesh_types.specs.Taut.{IsTaut};
ghost use Rattle.funnel_path.specs.Coordinates.{HasChainCoordinates};

use funnel::next_corner;
use mesh_types::{Corner, Portal};
use nav_base::Point;
use std::alloc::{AllocError, Global};

/// The corners of a taut path from `start` to `goal` through the portals, in order; none where the goal is seen from the start.
///
/// The path goes from the start straight to the first corner, from each corner straight to the next, and from the last one to the goal. It
/// goes through every portal, and each of its bends is held by an end of a portal, or by a portal on which the next one folds back. Each
/// corner names its portal by its place from 0, and no later one names a lesser place; several corners may stand at one point. The only
/// allocation is the answer.
pub fn pull(
    alloc: Global,
    start: Point,
    portals: &[Portal],
    goal: Point,
) -> Result<Vec<Corner>, AllocError>
    requires chain { IsChain start portals.now goal }
    requires few { length portals.now < 4294967295 }
    requires coordinates { HasChainCoordinates start portals.now goal }
    ensures { IfOk result (λ corners. IsTaut start portals.now goal corners.items) }
{
    let mut corners = Vec::new(alloc);
    let mut apex = start;
    let mut first = 0;
    while let Some(corner) = next_corner(apex, portals, first, goal) {
        corners.push(corner)?;
        apex = corner.at;
        first = corner.portal as usize + 1;
    }
    Ok(corners)
}
