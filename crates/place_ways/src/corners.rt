//! The corners of a line as places.

ghost use Rattle.std.specs.Prelude.{All, IfOk};
ghost use Rattle.nav_base.specs.Point.{HasCoordinates};
ghost use Rattle.mesh_types.specs.Corridors.{IsLinkOf, WalksTo};
ghost use Rattle.mesh_types.specs.Places.{storey_at};
ghost use Rattle.mesh_types.specs.Rays.{IsHeldAt};
ghost use Rattle.mesh_types.specs.Right.{portals_of};
ghost use Rattle.mesh_types.specs.Soundness.{IsSound};
ghost use Rattle.mesh_types.specs.Taut.{IsNamed, IsTaut};
ghost use Rattle.place_ways.specs.Corners.{AreCorners, IsCornerPlace, IsFloorTold};

use mesh_place::{HeightAnswer, height};
use mesh_types::{Corner, Link, Mesh, MeshPlace, PolyRef, storey_of};
use nav_base::Point;
use nav_lists::Items;
use std::alloc::{AllocError, Global};

/// The corners of a line through the portals of links, as places: the two places that it joins first and last, and its turns between them.
pub(crate) fn corners(
    alloc: Global,
    mesh: &Mesh,
    from: MeshPlace,
    links: &[Link],
    turns: &[Corner],
    goal: MeshPlace,
) -> Result<Items<MeshPlace>, AllocError>
    requires sound { IsSound mesh.now }
    requires walks { WalksTo mesh.now from.polygon links.now goal.polygon }
    requires taut { IsTaut from.point (portals_of links.now) goal.point turns.now }
    ensures { IfOk result (AreCorners mesh.now from goal links.now turns.now) }
{
    let mut corners = Vec::with_capacity(alloc, turns.len() + 2)?;
    corners.push(from)?;
    for turn in turns {
        corners.push(corner_place(mesh, links, *turn))?;
    }
    corners.push(goal)?;
    Ok(Items::from_vec(corners))
}

/// A turn as a place: in the polygon that its link enters.
fn corner_place(mesh: &Mesh, links: &[Link], turn: Corner) -> MeshPlace
    requires sound { IsSound mesh.now }
    requires links { All (IsLinkOf mesh.now) links.now }
    requires named { IsNamed (portals_of links.now) turn }
    ensures { IsCornerPlace mesh.now links.now turn result }
{
    let polygon = links[turn.portal as usize].to;
    MeshPlace {
        polygon,
        point: turn.at,
        y: floor_told(mesh, polygon, turn.at),
    }
}

/// The highest floor at a point of a polygon; 0 where the mesh has no storey for it.
fn floor_told(mesh: &Mesh, at: PolyRef, p: Point) -> u32
    requires sound { IsSound mesh.now }
    requires point { HasCoordinates p }
    requires held { IsHeldAt mesh.now p at }
    ensures { IsFloorTold (storey_at mesh.now at) p result }
{
    match height(mesh, at, p) {
        HeightAnswer::Height { y, .. } => y,
        HeightAnswer::NoPlace => {
            // A storey has a floor at every point.
            prove!(storey_of(mesh, at).is_none());
            0
        }
    }
}
