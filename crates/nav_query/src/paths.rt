//! Paths between two places.

ghost use Rattle.std.specs.Prelude.{◌≡◌, ◌<◌, IfOk, IfSome, length};
ghost use Rattle.std.specs.Option.{option_copied};
ghost use Rattle.nav_base.specs.Point.{HasCoordinates};
ghost use Rattle.nav_ground.specs.Limits.{IsSetting};
ghost use Rattle.corridor_search.specs.Landmarks.{AreLandmarks};
ghost use Rattle.funnel_path.specs.Coordinates.{HasChainCoordinates};
ghost use Rattle.mesh_types.specs.Chains.{IsChain};
ghost use Rattle.mesh_types.specs.Right.{IsRightPath, portals_of};
ghost use Rattle.mesh_types.specs.Soundness.{IsSound};
ghost use Rattle.mesh_types.specs.Taut.{IsTaut};
ghost use Rattle.nav_query.specs.Questions.{HasLowCost};

use corridor_search::{Landmarks, cheapest_in};
use funnel_path::pull;
use graph_search::Room;
use mesh_locate::locate;
use mesh_types::{Answer, Corner, Link, Mesh, PathFound, Portal};
use nav_base::Point;
use nav_lists::Items;
use std::alloc::{AllocError, Global};

/// What a path is asked from and to, each a place and a height.
#[derive(Clone, Copy)]
pub struct PathEnds {
    pub from: Point,
    pub from_y: u32,
    pub to: Point,
    pub to_y: u32,
}

/// A right answer to the question for a path from one place to another. Landmarks of the mesh, if there are some, let the search close fewer
/// polygons. The search works in room that an earlier one may have left.
pub fn path(
    alloc: Global,
    room: &mut Room,
    mesh: &Mesh,
    landmarks: Option<&Landmarks>,
    ends: PathEnds,
) -> Result<Answer, AllocError>
    requires sound { IsSound mesh.now }
    requires setting { IsSetting mesh.now.setting }
    requires landmarks { IfSome (option_copied landmarks) (AreLandmarks mesh.now) }
    requires from { HasCoordinates ends.from }
    requires to { HasCoordinates ends.to }
    ensures right { IfOk result (λ answer. IsRightPath mesh.now ends.from ends.from_y ends.to ends.to_y answer) }
    ensures low_cost { IfOk result HasLowCost }
{
    let Some(first) = locate(mesh, ends.from, ends.from_y) else {
        return Ok(Answer::NoStart);
    };
    let Some(last) = locate(mesh, ends.to, ends.to_y) else {
        return Ok(Answer::NoGoal);
    };
    let Some(corridor) = cheapest_in(alloc, room, mesh, landmarks, first, last)? else {
        return Ok(Answer::NoPath);
    };
    let turns = turns(alloc, ends.from, corridor.links.as_slice(), ends.to)?;
    Ok(Answer::Path(PathFound {
        first,
        cost: corridor.cost,
        links: corridor.links,
        turns,
    }))
}

/// The corners of a taut line from one place to another through the portals of links.
fn turns(alloc: Global, from: Point, links: &[Link], to: Point) -> Result<Items<Corner>, AllocError>
    requires chain { IsChain from (portals_of links.now) to }
    requires few { length (portals_of links.now) < 4294967295 }
    requires coordinates { HasChainCoordinates from (portals_of links.now) to }
    ensures { IfOk result (λ turns. IsTaut from (portals_of links.now) to turns) }
{
    let portals = portals(alloc, links)?;
    let turns = pull(alloc, from, portals.as_slice(), to)?;
    Ok(Items::from_vec(turns))
}

/// The portals of links, in order.
fn portals(alloc: Global, links: &[Link]) -> Result<Vec<Portal>, AllocError>
    ensures { IfOk result (λ portals. portals.items ≡ portals_of links.now) }
{
    links.iter().map(|link| link.portal).collect(alloc)
}
