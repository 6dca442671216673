//! What a line sees of the mesh from its last corner, through the portals of links: cones. How a cone goes on over the next portal, and how it
//! leads to a goal.
//!
//! Each turn is decided exactly for points of a field, and for those that lie as far beyond an end of a portal as a corner lies before it.

use crate::images::Image;
use crate::lengths::leg;
use crate::met_links::EndLegs;
use mesh_types::Portal;
use nav_base::Point;

/// What is seen from the last corner of a line through the portal of the link taken last.
#[derive(Clone, Copy)]
pub(crate) struct Cone {
    /// The parts of the line up to the root, each leg rounded down.
    pub(crate) len: u64,
    /// How many legs these are.
    pub(crate) legs: u32,
    /// The last corner of the line, or its start.
    pub(crate) root: Point,
    /// A point on the left ray from the root, and one on the right ray.
    pub(crate) left: Point,
    pub(crate) right: Point,
    /// Whether the left ray goes through the left end of the portal, and the right ray through the right end.
    pub(crate) through_left: bool,
    pub(crate) through_right: bool,
    /// Whether the root lies on the portal, and sees all that lies ahead of it.
    pub(crate) whole: bool,
}

impl Cone {
    /// All that a root sees through a portal, at the end of a line of some parts in some legs.
    pub(crate) fn through(portal: Portal, root: Point, len: u64, legs: u32) -> Self {
        Cone {
            len,
            legs,
            root,
            left: portal.left,
            right: portal.right,
            through_left: true,
            through_right: true,
            whole: false,
        }
        .settled(portal)
    }

    /// A cone whose root lies on the portal's line is whole, and its root is moved to the portal.
    fn settled(self, portal: Portal) -> Self {
        if turn(portal.right, portal.left, self.root) != 0 {
            return self;
        }
        let cone = Cone {
            left: portal.left,
            right: portal.right,
            through_left: true,
            through_right: true,
            whole: true,
            ..self
        };
        if lies_between(self.root, portal) {
            return cone;
        }
        let root = nearer_end(self.root, portal);
        Cone {
            len: self.len.wrapping_add(leg(self.root, root)),
            legs: self.legs.wrapping_add(1),
            root,
            ..cone
        }
    }

    /// On which sides of the rays the ends of the next portal lie.
    pub(crate) fn sides(&self, next: Portal) -> Sides {
        let to_left = between(self.root, next.left);
        let to_right = between(self.root, next.right);
        let left_ray = between(self.root, self.left);
        let right_ray = between(self.root, self.right);
        Sides {
            left_at_left: cross(left_ray, to_left),
            right_at_left: cross(left_ray, to_right),
            left_at_right: cross(right_ray, to_left),
            right_at_right: cross(right_ray, to_right),
        }
    }

    /// What is seen of the next portal behind a turn to the left, round the left end of the portal, to which the line has some parts.
    pub(crate) fn turned_left(&self, sides: Sides, portal: Portal, next: Portal, len: u64) -> Self {
        let all = sides.right_at_left >= 0;
        let right = if all {
            next.right
        } else {
            beyond(self.root, portal.left)
        };
        let cone = Cone {
            len,
            legs: self.legs.wrapping_add(1),
            root: portal.left,
            left: next.left,
            right,
            through_left: true,
            through_right: all,
            whole: false,
        };
        cone.settled(next)
    }

    /// What is seen of the next portal behind a turn to the right, round the right end of the portal, to which the line has some parts.
    pub(crate) fn turned_right(
        &self,
        sides: Sides,
        portal: Portal,
        next: Portal,
        len: u64,
    ) -> Self {
        let all = sides.left_at_right <= 0;
        let left = if all {
            next.left
        } else {
            beyond(self.root, portal.right)
        };
        let cone = Cone {
            len,
            legs: self.legs.wrapping_add(1),
            root: portal.right,
            left,
            right: next.right,
            through_left: all,
            through_right: true,
            whole: false,
        };
        cone.settled(next)
    }

    /// What is seen of the next portal between the rays.
    pub(crate) fn straight_on(&self, sides: Sides, next: Portal) -> Self {
        let stays_left = sides.left_at_left > 0;
        let stays_right = sides.right_at_right < 0;
        Cone {
            left: if stays_left { self.left } else { next.left },
            right: if stays_right { self.right } else { next.right },
            through_left: !stays_left,
            through_right: !stays_right,
            whole: false,
            ..*self
        }
    }

    /// The corner at which the line to a goal leaves the root's sight, if it does, and whether the cone leads to the goal at all.
    pub(crate) fn way_to(&self, goal: Point) -> Option<Bend> {
        if self.whole {
            return Some(Bend::None);
        }
        if turn(self.root, self.left, goal) > 0 {
            return self.through_left.then_some(Bend::Left);
        }
        if turn(self.root, self.right, goal) < 0 {
            return self.through_right.then_some(Bend::Right);
        }
        Some(Bend::None)
    }

    /// What a line by the cone through its portal to a goal has at least behind the root, of which the ends of the portal lie so far. A goal on the
    /// root's side of the portal is as far as its mirror image.
    pub(crate) fn rest(&self, portal: Portal, legs: EndLegs, goal: Point) -> u64 {
        if self.whole {
            return leg(self.root, goal);
        }
        let image = Image::new(portal, goal);
        if self.through_left && image.turn(self.root, self.left) > 0 {
            return legs.left.wrapping_add(leg(portal.left, goal));
        }
        if self.through_right && image.turn(self.root, self.right) < 0 {
            return legs.right.wrapping_add(leg(portal.right, goal));
        }
        image.leg_from(self.root)
    }

    /// Whether all that another cone at the same link sees is seen by this one, from the same root and behind a line that is no longer.
    pub(crate) fn covers(&self, other: &Cone) -> bool {
        self.root == other.root
            && self.len <= other.len
            && (other.whole
                || turn(self.root, self.left, other.left) <= 0
                    && turn(self.root, self.right, other.right) >= 0)
    }
}

/// The turns at the rays of a cone to the ends of a portal: positive where the end lies to the left of the ray.
#[derive(Clone, Copy)]
pub(crate) struct Sides {
    left_at_left: i64,
    right_at_left: i64,
    left_at_right: i64,
    right_at_right: i64,
}

impl Sides {
    /// Whether a point of the portal lies to the left of the left ray, or its right end on that ray.
    pub(crate) fn is_left(&self) -> bool {
        self.left_at_left > 0 || self.right_at_left >= 0
    }

    /// Whether a point of the portal lies to the right of the right ray, or its left end on that ray.
    pub(crate) fn is_right(&self) -> bool {
        self.right_at_right < 0 || self.left_at_right <= 0
    }

    /// Whether more than one point of the portal lies between the rays.
    pub(crate) fn is_between(&self) -> bool {
        self.left_at_right > 0 && self.right_at_left < 0
    }
}

/// Where the line of a cone bends on its way to a goal: at no end of the portal, or at one of them.
#[derive(Clone, Copy)]
pub(crate) enum Bend {
    None,
    Left,
    Right,
}

/// The turn at the walk from `a` to `b`: positive where `c` lies to the left of it, 0 where it lies on its line, negative to the right.
pub(crate) fn turn(a: Point, b: Point, c: Point) -> i64 {
    cross(between(a, b), between(a, c))
}

/// The cross product of two steps.
pub(crate) fn cross(a: (i64, i64), b: (i64, i64)) -> i64 {
    a.0.wrapping_mul(b.1).wrapping_sub(a.1.wrapping_mul(b.0))
}

/// How far `b` lies from `a` along both axes.
pub(crate) fn between(a: Point, b: Point) -> (i64, i64) {
    (
        i64::from(b.x.wrapping_sub(a.x)),
        i64::from(b.z.wrapping_sub(a.z)),
    )
}

/// Whether a point of a portal's line lies on the portal.
fn lies_between(p: Point, portal: Portal) -> bool {
    let (across, along) = between(p, portal.left);
    let (to_across, to_along) = between(p, portal.right);
    across
        .wrapping_mul(to_across)
        .wrapping_add(along.wrapping_mul(to_along))
        <= 0
}

/// The end of a portal that is nearer to a point; the left one where both are as near.
fn nearer_end(p: Point, portal: Portal) -> Point {
    if leg(p, portal.left) <= leg(p, portal.right) {
        portal.left
    } else {
        portal.right
    }
}

/// The point as far beyond `b` as `a` lies before it.
fn beyond(a: Point, b: Point) -> Point {
    Point {
        x: b.x.wrapping_add(b.x.wrapping_sub(a.x)),
        z: b.z.wrapping_add(b.z.wrapping_sub(a.z)),
    }
}
