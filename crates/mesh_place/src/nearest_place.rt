//! The place nearest to a point and a height.

ghost use Rattle.std.specs.Prelude.{◌≡◌};
ghost use Rattle.nav_ground.specs.Limits.{IsSetting};
ghost use Rattle.mesh_types.specs.Soundness.{IsSound};
ghost use Rattle.mesh_place.specs.declared.near.NearAnswer.{NearAnswer};
ghost use Rattle.mesh_place.specs.Nearest.{CanAskNear, IsRightNear, TellsPlace};

use crate::near::{Near, NearAnswer};
use crate::tiles::in_tiles;
use mesh_types::{Asked, Mesh};
use std::alloc::{AllocError, Global};

impl Asked for Near {
    ghost use Rattle.mesh_place.specs.Nearest.{CanAskNear, IsRightNear};

    type Answer = NearAnswer;

    ghost can_ask = { λ asked. CanAskNear asked };

    ghost is_right = { λ asked mesh answer. IsRightNear mesh asked answer };

    fn ask(&self, _alloc: Global, mesh: &Mesh) -> Result<NearAnswer, AllocError> {
        Ok(nearest(mesh, self))
    }
}

/// The place nearest to a point and a height, of those that stand and are in reach.
pub fn nearest(mesh: &Mesh, asked: &Near) -> NearAnswer
    requires sound { IsSound mesh.now }
    requires setting { IsSetting mesh.now.setting }
    requires asked { CanAskNear asked.now }
    ensures right { IsRightNear mesh.now asked.now result }
    ensures place { TellsPlace mesh.now result }

    // It is the only right answer.
    ensures only { (other : NearAnswer) → IsRightNear mesh.now asked.now other → other ≡ result }
{
    right_answer(mesh, asked)
}

/// The same, without what follows from the answer being right.
fn right_answer(mesh: &Mesh, asked: &Near) -> NearAnswer
    requires sound { IsSound mesh.now }
    requires setting { IsSetting mesh.now.setting }
    requires asked { CanAskNear asked.now }
    ensures { IsRightNear mesh.now asked.now result }
{
    match in_tiles(mesh, asked, None) {
        Some(place) => NearAnswer::Nearest(place),
        None => NearAnswer::NoneInReach,
    }
}
