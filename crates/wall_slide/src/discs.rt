//! Motions, and whether a portal touches the disc of one.

ghost use Rattle.std.specs.Prelude.{◌≡◌, ◌↔◌, IsTrue};
ghost use Rattle.nav_base.specs.Point.{HasCoordinates};
ghost use Rattle.wall_slide.specs.Slides.{IsMotion, TouchesDisc};
ghost use Rattle.wall_slide.specs.Discs.{SeesEnds, aside_of, toward_of};

use mesh_types::Portal;
use nav_base::{Point, dot, orient, square_distance};

/// A straight way from a point of the field to its target, in sixteenths of a cell.
#[derive(Clone, Copy)]
pub(crate) struct Motion {
    pub(crate) from: Point,
    pub(crate) to: Point,
}

/// Whether a portal touches the disc that has the way of a motion as its diameter: one of its ends lies in it, or the foot of the disc's middle
/// on the portal does.
pub(crate) fn touches(motion: Motion, portal: Portal) -> bool
    requires motion { IsMotion motion }
    requires right { HasCoordinates portal.right }
    requires left { HasCoordinates portal.left }
    ensures { IsTrue result ↔ TouchesDisc motion.from motion.to portal }
{
    let toward = toward(motion, portal);
    if toward <= 0 {
        return sees_ends(motion, portal.right);
    }
    let square = square_distance(portal.right, portal.left);
    if toward.unsigned_abs() >= 2 * square {
        return sees_ends(motion, portal.left);
    }
    let aside = u128::from(aside(motion, portal).unsigned_abs());
    aside * aside <= u128::from(square) * u128::from(square_distance(motion.from, motion.to))
}

/// How far the middle of a motion lies along a portal from its right end, as a product; twice that.
fn toward(motion: Motion, portal: Portal) -> i64
    requires motion { IsMotion motion }
    requires right { HasCoordinates portal.right }
    requires left { HasCoordinates portal.left }
    ensures { result ≡ toward_of motion.from motion.to portal }
{
    dot(portal.right, portal.left, portal.right, motion.from)
        + dot(portal.right, portal.left, portal.right, motion.to)
}

/// How far the middle of a motion lies to the left of the line of a portal, as a cross; twice that.
fn aside(motion: Motion, portal: Portal) -> i64
    requires motion { IsMotion motion }
    requires right { HasCoordinates portal.right }
    requires left { HasCoordinates portal.left }
    ensures { result ≡ aside_of motion.from motion.to portal }
{
    orient(portal.right, portal.left, motion.from) + orient(portal.right, portal.left, motion.to)
}

/// Whether a point lies in the disc of a motion: the motion's ends are seen from there at a right angle at least.
fn sees_ends(motion: Motion, p: Point) -> bool
    requires motion { IsMotion motion }
    requires point { HasCoordinates p }
    ensures { IsTrue result ↔ SeesEnds motion.from motion.to p }
{
    dot(p, motion.from, p, motion.to) <= 0
}
