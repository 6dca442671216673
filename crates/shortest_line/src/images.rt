//! Goals as they are seen through a portal: one that lies on the near side is as far, over any point of the portal's line, as its mirror image.
//!
//! A walk that crosses the portal and comes back is as long as the one to the image that is mirrored behind the crossing.

use crate::cones::{between, cross, turn};
use crate::lengths::{leg, leg_with};
use mesh_types::Portal;
use nav_base::Point;

/// A goal, or its mirror image at the line of a portal, whichever lies ahead of the portal.
#[derive(Clone, Copy)]
pub(crate) struct Image {
    portal: Portal,
    goal: Point,
    /// The turn at the portal to the goal: positive where the goal lies on the near side.
    back: i64,
}

impl Image {
    /// The image of a goal at a portal.
    pub(crate) fn new(portal: Portal, goal: Point) -> Self {
        Image {
            portal,
            goal,
            back: turn(portal.right, portal.left, goal),
        }
    }

    /// A number as positive or negative as the turn at a ray to the image.
    pub(crate) fn turn(&self, root: Point, on_ray: Point) -> i64 {
        let ray = between(root, on_ray);
        let to_goal = cross(ray, between(root, self.goal));
        if self.back <= 0 {
            return to_goal;
        }
        let along = between(self.portal.right, self.portal.left);
        let ahead = (along.1.wrapping_mul(2), along.0.wrapping_mul(-2));
        self.square()
            .wrapping_mul(to_goal)
            .wrapping_add(self.back.wrapping_mul(cross(ray, ahead)))
    }

    /// Parts from a point on the near side to the image.
    pub(crate) fn leg_from(&self, from: Point) -> u64 {
        if self.back <= 0 {
            return leg(from, self.goal);
        }
        let before = turn(self.portal.right, self.portal.left, from);
        let more = before.wrapping_mul(self.back).wrapping_mul(4).max(0);
        leg_with(from, self.goal, more / self.square().max(1))
    }

    /// The square of the portal's length.
    fn square(&self) -> i64 {
        let along = between(self.portal.right, self.portal.left);
        along
            .0
            .wrapping_mul(along.0)
            .wrapping_add(along.1.wrapping_mul(along.1))
    }
}
