//! Calls that a host makes over a border, made inside: floors of columns, and aims of a level.

ghost use Rattle.std.specs.Prelude.{◌≡◌, ◌<◌};
ghost use Rattle.nav_ground.specs.Grounds.{IsGround};
ghost use Rattle.nav_ground.specs.Limits.{IsSetting};
ghost use Rattle.mesh_types.specs.Soundness.{IsSound};

use crate::random::Random;
use mesh_types::{Answer, Mesh};
use nav_base::{Question, Steps};
use nav_book::Level;
use nav_ground::Ground;
use nav_query::answer;
use std::alloc::{AllocError, Global};
use std::sync::Arc;
use std::sync::ledger::{Blank, Ledger};
use tile_build::build_tiles;

/// How many floors a random column has.
pub fn floors_found(
    alloc: Global,
    mesh: &Mesh,
    random: &mut Random,
) -> Result<Option<usize>, AllocError>
    requires sound { IsSound mesh.now }
    requires setting { IsSetting mesh.now.setting }
{
    let point = random.point(&mesh.setting);
    let question = Question::Floor {
        x: u32::try_from(point.x).unwrap_or(0) / 16,
        z: u32::try_from(point.z).unwrap_or(0) / 16,
    };
    match answer(alloc, mesh, &question)? {
        Answer::Floors(floors) => Ok(Some(floors.len())),
        _ => Ok(None),
    }
}

/// How long the history is that so many aims at the level of a ground see, all together.
pub fn aims<L: Ledger>(
    alloc: Global,
    ground: Ground,
    count: u32,
    blank: Blank,
) -> Result<usize, AllocError>
    requires ground { IsGround ground }
    requires name { blank.name ≡ L.name }
    requires parts { blank.parts ≡ L.parts }
    requires some { 0 < blank.parts }
{
    let mut steps = Steps::<L>::new(blank);
    let tiles = build_tiles(alloc, &ground, &[], &mut steps)?;
    let mut level = Level::begin(alloc, Arc::new(alloc, ground)?, tiles)?;
    let mut seen = 0_usize;
    for _place in 0..count {
        seen = seen.wrapping_add(level.aim() as usize);
    }
    Ok(seen)
}
