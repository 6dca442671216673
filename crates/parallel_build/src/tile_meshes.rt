//! The meshes of the tiles of a ground.

ghost use Rattle.std.specs.Prelude.{◌≡◌, ◌+◌, ◌<◌, IfOk, OnOk, All};
ghost use Rattle.nav_base.specs.Counts.{HasRisenAtMost};
ghost use Rattle.nav_ground.specs.Grounds.{IsGround, IsLayerOf};
ghost use Rattle.nav_ground.specs.Limits.{IsSetting, IsShape};
ghost use Rattle.nav_ground.specs.Tiling.{tile_count};
ghost use Rattle.obstacle_mark.specs.Near.{KeepsRadius};
ghost use Rattle.mesh_types.specs.Builds.{tile_mesh_of};
ghost use Rattle.tile_build.specs.Meshes.{tiles_of, tiles_under};

use mesh_types::TileMesh;
use nav_base::Steps;
use nav_ground::{Ground, Layer, Setting, Shape, tiles};
use nav_lists::{Items, Shared};
use rayon::prelude::*;
use std::alloc::{AllocError, Global};
use std::marker::Brand;
use std::sync::ledger::{Blank, Ledger};
use std::thread::Threads;
use tile_build::build_kept_tile;

/// The mesh of each tile of a ground under a list of shapes, as `build_tiles` of `tile_build` makes it, tile by tile in several threads. It
/// takes one step a tile. Only memory can be refused.
pub fn build_tiles_by<R: Threads + Sync, L: Ledger>(
    rt: &R,
    alloc: Global,
    ground: &Ground,
    shapes: &[Shape],
    steps: &mut Steps<L>,
) -> Result<Items<Shared<TileMesh>>, AllocError>
    requires level { IsGround ground.now }
    requires shapes { All IsShape shapes.now }
    ensures tiles { IfOk result (λ tiles. tiles ≡ tiles_under ground.now shapes.now) }
    ensures steps { OnOk result (steps.new ≡ steps.old + tile_count ground.now.setting) }
    ensures most { HasRisenAtMost (tile_count ground.now.setting) steps.old steps.new }
{
    tick(tiles(&ground.setting), steps);
    let tiles = built(rt, alloc, ground.layers.as_slice(), &ground.setting, shapes)?;
    Ok(Items::from_vec(tiles))
}

/// So many steps more.
fn tick<L: Ledger>(count: u32, steps: &mut Steps<L>)
    ensures { steps.new ≡ steps.old + count }
{
    for _step in 0..count {
        steps.tick();
    }
}

/// The meshes of layers, in order.
fn built<R: Threads + Sync>(
    rt: &R,
    alloc: Global,
    layers: &[Layer],
    setting: &Setting,
    shapes: &[Shape],
) -> Result<Vec<Shared<TileMesh>>, AllocError>
    requires setting { IsSetting setting.now }
    requires layers { All (IsLayerOf setting.now) layers.now }
    requires kept { All KeepsRadius layers.now }
    requires shapes { All IsShape shapes.now }
    ensures { IfOk result (λ tiles. tiles.items ≡ tiles_of setting.now shapes.now layers.now) }
{
    let tiles: Result<Vec<Shared<TileMesh>>, AllocError> = layers
        .par_iter()
        .with_min_len(1)
        .map(
            |layer: &Layer| -> Result<Shared<TileMesh>, AllocError>
                requires { IsSetting setting.now × IsLayerOf setting.now layer.now × KeepsRadius layer.now × All IsShape shapes.now }
                ensures { IfOk result (λ made. made ≡ tile_mesh_of setting.entry.now layer.now shapes.entry.now) }
            { built_one(alloc, layer, setting, shapes) },
        )
        .collect(rt, alloc)?;
    tiles
}

/// The mesh of one layer.
fn built_one(
    alloc: Global,
    layer: &Layer,
    setting: &Setting,
    shapes: &[Shape],
) -> Result<Shared<TileMesh>, AllocError>
    requires setting { IsSetting setting.now }
    requires layer { IsLayerOf setting.now layer.now }
    requires kept { KeepsRadius layer.now }
    requires shapes { All IsShape shapes.now }
    ensures { IfOk result (λ made. made ≡ tile_mesh_of setting.now layer.now shapes.now) }
{
    counted::<Brand>(alloc, layer, setting, shapes, Blank::new(1))
}

/// The same, with a count of steps of its own.
fn counted<L: Ledger>(
    alloc: Global,
    layer: &Layer,
    setting: &Setting,
    shapes: &[Shape],
    blank: Blank,
) -> Result<Shared<TileMesh>, AllocError>
    requires setting { IsSetting setting.now }
    requires layer { IsLayerOf setting.now layer.now }
    requires kept { KeepsRadius layer.now }
    requires shapes { All IsShape shapes.now }
    requires name { blank.name ≡ L.name }
    requires parts { blank.parts ≡ L.parts }
    requires some { 0 < blank.parts }
    ensures { IfOk result (λ made. made ≡ tile_mesh_of setting.now layer.now shapes.now) }
{
    let mut steps = Steps::<L>::new(blank);
    let tile = build_kept_tile(alloc, layer, setting, shapes, &mut steps)?;
    Ok(Shared::new(alloc, tile)?)
}
