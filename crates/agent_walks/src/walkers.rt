//! Walkers. The way over the corners of a line. Where a walker stands on its line, and where it stops. Places of walks. The floors of
//! polygons.

ghost use Rattle.std.specs.Prelude.{◌≡◌, ◌+◌, ◌-◌, ◌<◌, ◌≤◌, max, All, Some};
ghost use Rattle.agent_walks.specs.Marches.{over_corners};
ghost use Rattle.agent_walks.specs.Standings.{HasNextPlace, stand_of};
ghost use Rattle.mesh_types.specs.declared.polygon.Polygon as polygons;
ghost use Rattle.mesh_types.specs.WholeMesh.{poly_at};
ghost use Rattle.surface_move.specs.Moves.{IsThere};

use mesh_types::{Corner, Link, Mesh, PolyRef, poly};
use nav_base::Point;
use nav_lists::Items;
use surface_move::leg;

/// An agent on its way to a goal.
#[derive(PartialEq, Eq, Drop)]
pub struct Walker {
    /// The length of the history whose mesh last placed it.
    pub k: u32,
    /// The polygon in which it stands, its point in sixteenths of a cell, and its height, which is the polygon's least floor.
    pub at: PolyRef,
    pub point: Point,
    pub y: u32,
    /// Its goal, and the goal's height.
    pub goal: Point,
    pub goal_y: u32,
    /// What the way that is left costs, and its links.
    pub cost: u64,
    pub links: Items<Link>,
}

/// Where a walker stands that goes from a point over the corners of a line as far as a length reaches.
pub(crate) fn past_corners(point: Point, length: u32, corners: &[Corner]) -> Standing
    requires { All HasNextPlace corners.now }
    ensures { over_corners point 0 length corners.now ≡ stand_of corners.now result }
{
    let mut standing = Standing {
        point,
        place: 0,
        budget: length,
        passed: 0,
    };
    for corner in corners {
        let way = leg(standing.point, corner.at);
        if way > standing.budget {
            return standing;
        }
        standing = at_corner(standing, *corner, way);
    }
    standing
}

/// Where it stands at the next corner, from where the way is so long.
fn at_corner(standing: Standing, corner: Corner, way: u32) -> Standing
    requires place { HasNextPlace corner }
    requires reached { way ≤ standing.budget }
    requires few { standing.passed < 18446744073709551615 }
    ensures point { result.point ≡ corner.at }
    ensures place { result.place ≡ max standing.place (corner.portal + 1) }
    ensures budget { result.budget ≡ standing.budget - way }
    ensures passed { result.passed ≡ standing.passed + 1 }
{
    Standing {
        point: corner.at,
        place: standing.place.max(corner.portal + 1),
        budget: standing.budget - way,
        passed: standing.passed + 1,
    }
}

/// Where a walker stands on a line through a corridor.
#[derive(Clone, Copy)]
pub(crate) struct Standing {
    pub(crate) point: Point,
    /// The place of its polygon among the corridor's.
    pub(crate) place: u32,
    /// How far it may still go.
    pub(crate) budget: u32,
    /// How many corners of the line it has passed.
    pub(crate) passed: usize,
}

/// Where a march ends, by the place of the polygon among the corridor's.
#[derive(Clone, Copy)]
pub(crate) struct MarchEnd {
    pub(crate) point: Point,
    pub(crate) place: u32,
}

/// A line through the portals of a corridor: from a point, over corners, to the goal.
#[derive(Clone, Copy)]
pub(crate) struct WalkLine<'a> {
    /// The corridor's first polygon, and its links.
    pub(crate) first: PolyRef,
    pub(crate) links: &'a [Link],
    pub(crate) point: Point,
    pub(crate) goal: Point,
    pub(crate) corners: &'a [Corner],
}

/// A point, in sixteenths of a cell, and a height, which tells of which storey it is.
#[derive(Clone, Copy, PartialEq, Eq)]
pub struct Place {
    pub point: Point,
    pub y: u32,
}

/// The least floor of the polygon that a reference names.
pub(crate) fn floor_of(mesh: &Mesh, at: PolyRef) -> u32
    requires { IsThere mesh.now at }
    ensures { (polygon : polygons.Polygon) → poly_at mesh.now at ≡ Some polygon → result ≡ polygon.low }
{
    poly(mesh, at).unwrap().low
}
