//! The turns of hop walks: each stretch is pulled tight.

ghost use Rattle.std.specs.Prelude.{◌≡◌, ◌≤◌, ◌<◌, ◌+◌, ◌++◌, [], All, IfOk, OnOk, length, map};
ghost use Rattle.nav_base.specs.Point.{HasCoordinates};
ghost use Rattle.funnel_path.specs.Coordinates.{HasChainCoordinates};
ghost use Rattle.mesh_types.specs.declared.answers.Corner.{Corner};
ghost use Rattle.mesh_types.specs.Chains.{IsChain};
ghost use Rattle.mesh_types.specs.Hops.{HopsTo};
ghost use Rattle.mesh_types.specs.Stretches.{AreTautIn, stretches_from, counted_from};
ghost use Rattle.mesh_types.specs.Soundness.{IsSound};
ghost use Rattle.off_links.specs.Pulling.{IsPulled, IsWithin};
ghost use Rattle.off_links.specs.OffMeshLinks.{AreJumps};

use crate::hops::HopQuestion;
use funnel_path::pull;
use mesh_types::{Corner, HopStep, Jump, Mesh, PolyRef, Portal};
use nav_base::Point;
use nav_lists::Items;
use std::alloc::{AllocError, Global};

/// The corners of taut lines through the portals of each stretch of a hop walk, from one place to another. Each names its portal by the
/// link's place among all steps.
pub(crate) fn turns(
    alloc: Global,
    mesh: &Mesh,
    question: &HopQuestion,
    ends: (PolyRef, PolyRef),
    steps: &[HopStep],
) -> Result<Items<Corner>, AllocError>
    requires sound { IsSound mesh.now }
    requires within { IsWithin mesh.now question.now ends.0 ends.1 }
    requires walks { HopsTo mesh.now question.now.jumps ends.0 steps.now ends.1 }
    requires few { length steps.now < 8000000 }
    ensures { IfOk result (λ turns. AreTautIn (stretches_from question.now.jumps question.now.to question.now.from 0 [] steps.now) turns) }
{
    let jumps = question.jumps.as_slice();
    let _ = mesh;
    let _ = ends;
    let mut turns = Vec::new(alloc);
    let mut portals = Vec::new(alloc);
    let mut from = question.from;
    let mut first = 0;
    for (place, step) in steps.iter().enumerate() {
        match *step {
            HopStep::Link(link) => portals.push(link.portal)?,
            HopStep::Jump { number, to: _ } => {
                let jump = jumps[number as usize];
                push_turns(
                    alloc,
                    &mut turns,
                    (from, jump.from),
                    portals.as_slice(),
                    first,
                )?;
                portals.clear();
                from = jump.to;
                first = place as u32 + 1;
            }
        }
    }
    push_turns(
        alloc,
        &mut turns,
        (from, question.to),
        portals.as_slice(),
        first,
    )?;
    Ok(Items::from_vec(turns))
}

/// Appends the corners of a taut line from one point to another through portals, which are counted from a place.
fn push_turns(
    alloc: Global,
    turns: &mut Vec<Corner>,
    ends: (Point, Point),
    portals: &[Portal],
    first: u32,
) -> Result<(), AllocError>
    requires chain { IsChain ends.0 portals.now ends.1 }
    requires few { first + length portals.now < 8000000 }
    requires coordinates { HasChainCoordinates ends.0 portals.now ends.1 }
    ensures { OnOk result (IsPulled ends.0 portals.now ends.1 first turns.old.items turns.new.items) }
{
    let corners = pull(alloc, ends.0, portals, ends.1)?;
    push_counted(turns, corners.as_slice(), first)
}

/// Appends corners whose portals are counted from a place.
fn push_counted(turns: &mut Vec<Corner>, corners: &[Corner], first: u32) -> Result<(), AllocError>
    requires { All (λ (corner : Corner). corner.portal + first < 8000000) corners.now }
    ensures { OnOk result (turns.new.items ≡ turns.old.items ++ map (counted_from first) corners.now) }
{
    for corner in corners {
        turns.push(counted_from(*corner, first))?;
    }
    Ok(())
}

/// A corner whose portal is counted from a place.
fn counted_from(corner: Corner, first: u32) -> Corner
    requires { corner.portal + first < 8000000 }
    ensures { result ≡ Rattle.mesh_types.specs.Stretches.counted_from first corner }
{
    Corner {
        portal: corner.portal + first,
        ..corner
    }
}
