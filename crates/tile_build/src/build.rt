//! The build of one tile. All tiles of a ground.

ghost use Rattle.std.specs.Prelude.{◌≡◌, ◌+◌, ◌⊎◌, IfOk, IsTrue, All, unwrap_or, length, OnOk, []};
ghost use Rattle.nav_ground.specs.CellColumns.{AreOrdered};
ghost use Rattle.nav_ground.specs.Cells.{IsCut, IsInTile, IsLayer};
ghost use Rattle.nav_ground.specs.FreeCells.{free_layer_of};
ghost use Rattle.nav_ground.specs.Grounds.{IsLayerOf, IsWideWithin, IsGround};
ghost use Rattle.nav_ground.specs.Limits.{IsSetting, IsShape};
ghost use Rattle.nav_ground.specs.Touching.{touching_shapes};
ghost use Rattle.mesh_types.specs.Builds.{tile_mesh_of, mesh_under};
ghost use Rattle.mesh_types.specs.ContourMeshes.{contour_mesh_of, mesh_of_free};
ghost use Rattle.mesh_types.specs.Passages.{AreTwoWay, LinksConnected, ListsCrossings};
ghost use Rattle.mesh_types.specs.FitTiles.{IsFit};
ghost use Rattle.mesh_types.specs.StripCover.{CoversCells, IsOfStrips};
ghost use Rattle.mesh_types.specs.StripMeshes.{strip_mesh_of};
ghost use Rattle.contour_mesh.specs.Linked.{IsOfOutlines, LinksFacing};
ghost use Rattle.nav_ground.specs.declared.cell.Layer.{Layer};
ghost use Rattle.nav_ground.specs.Tiling.{tile_count};
ghost use Rattle.nav_base.specs.Counts.{HasRisenAtMost};
ghost use Rattle.mesh_types.specs.WholeMesh.{mesh_of};
ghost use Rattle.obstacle_mark.specs.Near.{KeepsRadius};
ghost use Rattle.tile_build.specs.Meshes.{tiles_of, tiles_under, plain_ground, HasSameParts};

use contour_mesh::{ContourMesh, contour_mesh_over};
use mesh_types::TileMesh;
use nav_base::Steps;
use nav_ground::{FreeLayer, Ground, Layer, MeshKind, Setting, Shape};
use nav_lists::{Items, Shared};
use obstacle_mark::{mark, mark_kept};
use std::alloc::{AllocError, Global};
use std::sync::ledger::Ledger;
use strip_mesh::{strip_mesh_of_table, strip_mesh_over};

/// The mesh of a layer under a list of shapes. Where the radius of the layer is 0, or its wide cells lie as near its tile as those of a ground
/// do, this is also its mesh under those of the shapes that touch its tile. Only memory can be refused, and it takes one step then too.
pub fn build_tile<L: Ledger>(
    alloc: Global,
    layer: &Layer,
    setting: &Setting,
    shapes: &[Shape],
    steps: &mut Steps<L>,
) -> Result<TileMesh, AllocError>
    requires setting { IsSetting setting.now }
    requires layer { IsLayerOf setting.now layer.now }
    requires shapes { All IsShape shapes.now }
    ensures value { IfOk result (λ tile. tile ≡ tile_mesh_of setting.now layer.now shapes.now) }
    ensures local { (layer.now.radius ≡ 0) ⊎ IsWideWithin setting.now layer.now
        → IfOk result (λ tile. tile ≡ tile_mesh_of setting.now layer.now (touching_shapes setting.now layer.now.tile shapes.now)) }
    ensures fit { IfOk result (IsFit setting.now) }
    ensures cover { IfOk result (λ tile. IsOfStrips setting.now tile → CoversCells tile) }
    ensures linked { IfOk result (λ tile. IsOfStrips setting.now tile → LinksConnected tile) }
    ensures facing { IfOk result (λ tile. IsOfOutlines setting.now tile → LinksFacing setting.now tile) }
    ensures back { IfOk result (λ tile. AreTwoWay tile.links) }
    ensures listed { IfOk result (ListsCrossings setting.now) }
    ensures step { steps.new ≡ steps.old + 1 }
{
    built_tile(alloc, layer, setting, shapes, false, steps)
}

/// The same of a layer whose cells keep its radius where no shape stands, as those of the layers of a ground do. Where agents keep a radius from
/// obstacles it takes less time, since only what lies near the shapes is looked at for it.
pub fn build_kept_tile<L: Ledger>(
    alloc: Global,
    layer: &Layer,
    setting: &Setting,
    shapes: &[Shape],
    steps: &mut Steps<L>,
) -> Result<TileMesh, AllocError>
    requires setting { IsSetting setting.now }
    requires layer { IsLayerOf setting.now layer.now }
    requires shapes { All IsShape shapes.now }
    requires kept { KeepsRadius layer.now }
    ensures value { IfOk result (λ tile. tile ≡ tile_mesh_of setting.now layer.now shapes.now) }
    ensures local { (layer.now.radius ≡ 0) ⊎ IsWideWithin setting.now layer.now
        → IfOk result (λ tile. tile ≡ tile_mesh_of setting.now layer.now (touching_shapes setting.now layer.now.tile shapes.now)) }
    ensures fit { IfOk result (IsFit setting.now) }
    ensures cover { IfOk result (λ tile. IsOfStrips setting.now tile → CoversCells tile) }
    ensures linked { IfOk result (λ tile. IsOfStrips setting.now tile → LinksConnected tile) }
    ensures facing { IfOk result (λ tile. IsOfOutlines setting.now tile → LinksFacing setting.now tile) }
    ensures back { IfOk result (λ tile. AreTwoWay tile.links) }
    ensures listed { IfOk result (ListsCrossings setting.now) }
    ensures step { steps.new ≡ steps.old + 1 }
{
    built_tile(alloc, layer, setting, shapes, true, steps)
}

/// The mesh of a layer of which it may be known that its cells keep its radius.
fn built_tile<L: Ledger>(
    alloc: Global,
    layer: &Layer,
    setting: &Setting,
    shapes: &[Shape],
    keeps: bool,
    steps: &mut Steps<L>,
) -> Result<TileMesh, AllocError>
    requires setting { IsSetting setting.now }
    requires layer { IsLayerOf setting.now layer.now }
    requires shapes { All IsShape shapes.now }
    requires kept { IsTrue keeps → KeepsRadius layer.now }
    ensures value { IfOk result (λ tile. tile ≡ tile_mesh_of setting.now layer.now shapes.now) }
    ensures local { (layer.now.radius ≡ 0) ⊎ IsWideWithin setting.now layer.now
        → IfOk result (λ tile. tile ≡ tile_mesh_of setting.now layer.now (touching_shapes setting.now layer.now.tile shapes.now)) }
    ensures fit { IfOk result (IsFit setting.now) }
    ensures cover { IfOk result (λ tile. IsOfStrips setting.now tile → CoversCells tile) }
    ensures linked { IfOk result (λ tile. IsOfStrips setting.now tile → LinksConnected tile) }
    ensures facing { IfOk result (λ tile. IsOfOutlines setting.now tile → LinksFacing setting.now tile) }
    ensures back { IfOk result (λ tile. AreTwoWay tile.links) }
    ensures listed { IfOk result (ListsCrossings setting.now) }
    ensures step { steps.new ≡ steps.old + 1 }
{
    steps.tick();
    let free = marked(alloc, layer, shapes, keeps)?;
    let tile = free_mesh(alloc, free, setting)?;
    over_layer(alloc, layer, tile)
}

/// The free cells of such a layer.
fn marked(
    alloc: Global,
    layer: &Layer,
    shapes: &[Shape],
    keeps: bool,
) -> Result<FreeLayer, AllocError>
    requires layer { IsLayer layer.now }
    requires shapes { All IsShape shapes.now }
    requires kept { IsTrue keeps → KeepsRadius layer.now }
    ensures free { IfOk result (λ free. free ≡ free_layer_of layer.now shapes.now) }
    ensures rules { IfOk result (λ free. IsCut free.cells) }
{
    if keeps {
        mark_kept(alloc, layer, shapes)
    } else {
        mark(alloc, layer, shapes)
    }
}

/// The same mesh with its free cells as what they differ by from the cells of its layer.
fn over_layer(alloc: Global, layer: &Layer, tile: TileMesh) -> Result<TileMesh, AllocError>
    requires { AreOrdered layer.now.cells }
    ensures { IfOk result (λ made. made ≡ tile) }
{
    Ok(TileMesh {
        tile: tile.tile,
        free: tile.free.over(alloc, layer)?,
        polys: tile.polys,
        links: tile.links,
        rim: tile.rim,
        storeys: tile.storeys,
    })
}

/// The mesh of free cells: by the outlines of their regions where the setting asks for outlines and each region has one that can be cut,
/// otherwise as strips.
#[tactic(auto, unfolding(mesh_types::specs::ContourMeshes::mesh_of_free))]
fn free_mesh(alloc: Global, free: FreeLayer, setting: &Setting) -> Result<TileMesh, AllocError>
    requires setting { IsSetting setting.now }
    requires cells { IsCut free.cells }
    requires tile { IsInTile setting.now free.tile free.cells }
    ensures value { IfOk result (λ tile. tile ≡ mesh_of_free setting.now free) }
    ensures fit { IfOk result (IsFit setting.now) }
    ensures back { IfOk result (λ tile. AreTwoWay tile.links) }
    ensures listed { IfOk result (ListsCrossings setting.now) }
{
    match setting.mesh {
        MeshKind::Strips => strip_mesh_over(alloc, free, setting),
        MeshKind::Contours => contour_or_strips(alloc, free, setting),
    }
}

/// The mesh of free cells where the setting asks for outlines.
fn contour_or_strips(
    alloc: Global,
    free: FreeLayer,
    setting: &Setting,
) -> Result<TileMesh, AllocError>
    requires setting { IsSetting setting.now }
    requires cells { IsCut free.cells }
    requires tile { IsInTile setting.now free.tile free.cells }
    ensures value { IfOk result (λ tile. tile ≡ unwrap_or (contour_mesh_of setting.now free) (strip_mesh_of setting.now free)) }
    ensures fit { IfOk result (IsFit setting.now) }
    ensures back { IfOk result (λ tile. AreTwoWay tile.links) }
    ensures listed { IfOk result (ListsCrossings setting.now) }
{
    match contour_mesh_over(alloc, free, setting)? {
        ContourMesh::Made(tile) => Ok(tile),
        ContourMesh::NotCut { free, strips } => strip_mesh_of_table(alloc, free, strips, setting),
    }
}

/// The mesh of each tile of a ground under a list of shapes, in order. Without shapes the mesh of these tiles has the polygons and the links
/// that it has where agents keep no radius from obstacles. It takes one step a tile. Only memory can be refused.
pub fn build_tiles<L: Ledger>(
    alloc: Global,
    ground: &Ground,
    shapes: &[Shape],
    steps: &mut Steps<L>,
) -> Result<Items<Shared<TileMesh>>, AllocError>
    requires level { IsGround ground.now }
    requires shapes { All IsShape shapes.now }
    ensures tiles { IfOk result (λ tiles. tiles ≡ tiles_under ground.now shapes.now) }
    ensures plain { shapes.now ≡ [] → IfOk result (λ tiles. HasSameParts (mesh_of ground.now.setting tiles) (mesh_under (plain_ground ground.now) [])) }
    ensures steps { OnOk result (steps.new ≡ steps.old + tile_count ground.now.setting) }
    ensures most { HasRisenAtMost (tile_count ground.now.setting) steps.old steps.new }
{
    let tiles = built(
        alloc,
        ground.layers.as_slice(),
        &ground.setting,
        shapes,
        steps,
    )?;
    Ok(Items::from_vec(tiles))
}

/// The meshes of layers.
fn built<L: Ledger>(
    alloc: Global,
    layers: &[Layer],
    setting: &Setting,
    shapes: &[Shape],
    steps: &mut Steps<L>,
) -> Result<Vec<Shared<TileMesh>>, AllocError>
    requires setting { IsSetting setting.now }
    requires layers { All (IsLayerOf setting.now) layers.now }
    requires kept { All KeepsRadius layers.now }
    requires shapes { All IsShape shapes.now }
    ensures tiles { IfOk result (λ tiles. tiles.items ≡ tiles_of setting.now shapes.now layers.now) }
    ensures steps { OnOk result (steps.new ≡ steps.old + length layers.now) }
    ensures most { HasRisenAtMost (length layers.now) steps.old steps.new }
{
    let mut tiles = Vec::with_capacity(alloc, layers.len())?;
    for layer in layers {
        let tile = build_kept_tile(alloc, layer, setting, shapes, steps)?;
        tiles.push(Shared::new(alloc, tile)?)?;
    }
    Ok(tiles)
}
