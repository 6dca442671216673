//! The mesh of a field text.

ghost use Rattle.std.specs.Prelude.{◌≡◌, ◌<◌, IfOk, [], All};
ghost use Rattle.nav_ground.specs.Grounds.{IsGround};
ghost use Rattle.nav_ground.specs.Limits.{IsSetting};
ghost use Rattle.mesh_types.specs.Soundness.{IsSound};

use mesh_types::Mesh;
use nav_base::Steps;
use nav_ground::Ground;
use std::alloc::{AllocError, Global};
use std::sync::ledger::{Blank, Ledger};
use tile_build::build_tiles;
use tile_links::joined;

/// The mesh of a ground without obstacles.
pub fn level<L: Ledger>(alloc: Global, ground: &Ground, blank: Blank) -> Result<Mesh, AllocError>
    requires ground { IsGround ground.now }
    requires name { blank.name ≡ L.name }
    requires parts { blank.parts ≡ L.parts }
    requires some { 0 < blank.parts }
    ensures sound { IfOk result IsSound }
    ensures setting { IfOk result (λ mesh. IsSetting mesh.setting) }
{
    let mut steps = Steps::<L>::new(blank);
    let tiles = build_tiles(alloc, ground, &[], &mut steps)?;
    joined(alloc, &ground.setting, tiles)
}
