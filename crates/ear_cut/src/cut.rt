//! The cut of an outline. Why an outline was not cut.

ghost use Rattle.std.specs.Prelude.{◌≡◌, ◌<◌, ◌≤◌, ◌+◌, length, map, All, pos, ◌<ℤ◌, IfOk, IfErr};
ghost use Rattle.std.specs.List.{range_with_len};
ghost use Rattle.nav_base.specs.Point.{HasCoordinates};
ghost use Rattle.mesh_types.specs.Ears.{AreEarsOf, CanBeCut, IsTriangleOf, outline_area, turn_of, turns_of};
ghost use Rattle.mesh_types.specs.Words.{piece_of};
ghost use Rattle.mesh_types.specs.Edges.{HaveEdgesOnce, KeepOutline};
ghost use Rattle.ear_cut.specs.Refused.{IsLeft};

use crate::ear::{best_ear, runs_counterclockwise, triangle_at};
use mesh_types::{Outline, Triangle};
use nav_lists::Items;
use std::alloc::{AllocError, AllocFailed, Global};

/// The triangles that cutting ears off an outline gives, in the order in which they are cut.
pub fn ears(alloc: Global, outline: &Outline) -> Result<Items<Triangle>, EarRefusal>
    requires { CanBeCut outline.now.corners }
    ensures cut { IfOk result (AreEarsOf outline.now.corners) }

    // Triangles come exactly where the definition gives them, and `NoEar` where it comes to places that have no ear, which are left.
    ensures no_ear { IfErr result (IsLeft outline.now.corners) }
    ensures count { IfOk result (λ triangles. length triangles + 2 ≡ length outline.now.corners) }
    ensures places { IfOk result (All (IsTriangleOf outline.now.corners)) }
    ensures turn { IfOk result (λ triangles. All (λ t. pos 0 <ℤ turn_of outline.now.corners t) triangles) }

    // Together they have exactly the area that the outline runs round.
    ensures area { IfOk result (λ triangles. turns_of outline.now.corners triangles ≡ outline_area outline.now.corners) }

    // No two of their edges lead from the same corner to the same other. Each edge of the outline is the edge of one triangle, and none leads back along it.
    ensures once { IfOk result (λ triangles. HaveEdgesOnce (map piece_of triangles)) }
    ensures outline { IfOk result (λ triangles. KeepOutline outline.now.corners (map piece_of triangles)) }
{
    let corners = outline.corners.as_slice();
    let mut rest = places(alloc, corners.len() as u32)?;
    let mut triangles = Vec::with_capacity(alloc, corners.len() - 2)?;
    while rest.len() > 3 {
        let Some(position) = best_ear(corners, rest.as_slice()) else {
            return Err(EarRefusal::NoEar {
                left: Items::from_vec(rest),
            });
        };
        triangles.push(triangle_at(rest.as_slice(), position))?;
        let _cut = rest.remove(position);
    }
    let last = triangle_at(rest.as_slice(), 1);
    if !runs_counterclockwise(corners, last) {
        return Err(EarRefusal::NoEar {
            left: Items::from_vec(rest),
        });
    }
    triangles.push(last)?;
    Ok(Items::from_vec(triangles))
}

/// The places of that many corners.
fn places(alloc: Global, count: u32) -> Result<Vec<u32>, AllocError>
    ensures { IfOk result (λ places. places.items ≡ range_with_len 0 count) }
{
    let mut places = Vec::with_capacity(alloc, count as usize)?;
    for place in 0..count {
        places.push(place)?;
    }
    Ok(places)
}

/// Why there are no triangles.
#[derive(PartialEq, Eq, Debug, Drop)]
pub enum EarRefusal {
    /// The places that are left have no ear, or are three that do not run counterclockwise.
    NoEar { left: Items<u32> },
    OutOfMemory,
}

impl From<AllocError> for EarRefusal {
    ghost use Rattle.std.specs.Prelude.{◌≡◌};
    ghost use Rattle.ear_cut.specs.declared.cut.EarRefusal.{EarRefusal};

    ghost from_gives = { λ _ refusal. refusal ≡ EarRefusal.OutOfMemory };

    fn from(_error: AllocError) -> Self {
        EarRefusal::OutOfMemory
    }
}

impl From<AllocFailed<Triangle>> for EarRefusal {
    ghost use Rattle.std.specs.Prelude.{◌≡◌};
    ghost use Rattle.ear_cut.specs.declared.cut.EarRefusal.{EarRefusal};

    ghost from_gives = { λ _ refusal. refusal ≡ EarRefusal.OutOfMemory };

    fn from(_error: AllocFailed<Triangle>) -> Self {
        EarRefusal::OutOfMemory
    }
}
