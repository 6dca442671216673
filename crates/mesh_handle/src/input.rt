//! The field of a mesh.
ghost use Rattle.std.specs.Prelude.{[], All, IfErr, IfOk, IfSome, IsNone, MatchBool};
ghost use Rattle.nav_ground.specs.Fields.{IsField};
ghost use Rattle.nav_ground.specs.Grounds.{IsSized};
ghost use Rattle.nav_ground.specs.Limits.{IsSetting};
ghost use Rattle.tri_raster.specs.Triangles.{IsTriangle};
ghost use Rattle.mesh_input.specs.Adding.{AreAdded, lists_of};
ghost use Rattle.mesh_handle.specs.declared.input.MeshAsk.{MeshAsk};
ghost use Rattle.mesh_handle.specs.Meshes.{AreWhole, EndsMesh, EndsTriangles, IsAskOf, IsFieldOfMesh};

use crate::setting::{asked_setting, slope};
use crate::wire::NavdMesh;
use mesh_input::{FaultyTriangle, MeshGrid, MeshRefusal, Slope, add_triangles, mesh_grid};
use nav_ground::{Field, Setting};
use std::alloc::Global;
use tri_raster::{RasterRefusal, Tri, raster};

/// Why there is no field of a mesh.
#[derive(Clone, Copy)]
pub enum MeshEnd {
    /// The sizes, the slope, the frame or the lengths of the arrays are out of their limits.
    OutOfRange,
    Faulty(FaultyTriangle),
    TooManySpans,
    NoMemory,
}

/// What a host asks for.
#[derive(Clone, Copy)]
pub(crate) struct MeshAsk {
    pub setting: Setting,
    pub slope: Slope,
    pub grid: MeshGrid,
}

/// The field of a mesh, and its setting.
#[derive(Drop)]
pub struct MeshField {
    pub setting: Setting,
    pub field: Field,
}

/// The field of the triangles of a mesh.
pub fn field_of(
    alloc: Global,
    mesh: &NavdMesh,
    vertices: &[f32],
    corners: &[u32],
    areas: &[u8],
) -> Result<MeshField, MeshEnd>
    ensures found { IfOk result (IsFieldOfMesh mesh.now (lists_of vertices.now corners.now areas.now)) }
    ensures setting { IfOk result (λ made. IsSetting made.setting) }
    ensures field { IfOk result (λ made. IsField made.field) }
    ensures sized { IfOk result (λ made. IsSized made.setting made.field) }
    ensures refused { IfErr result (EndsMesh mesh.now (lists_of vertices.now corners.now areas.now)) }
{
    let Some(ask) = asked(mesh) else {
        return Err(MeshEnd::OutOfRange);
    };
    if !are_whole(corners, areas) {
        return Err(MeshEnd::OutOfRange);
    }
    let tris = match triangles(alloc, &ask, vertices, corners, areas) {
        Ok(tris) => tris,
        Err(end) => return Err(end),
    };
    match raster(alloc, &ask.setting, tris.as_slice()) {
        Ok(field) => Ok(MeshField {
            setting: ask.setting,
            field,
        }),
        Err(RasterRefusal::TooManySpans) => Err(MeshEnd::TooManySpans),
        Err(RasterRefusal::OutOfMemory) => Err(MeshEnd::NoMemory),
    }
}

/// What a host asks for, where it is within its limits.
fn asked(mesh: &NavdMesh) -> Option<MeshAsk>
    ensures found { IfSome result (IsAskOf mesh.now) }
    ensures none { IsNone result → (ask : MeshAsk) → ¬ IsAskOf mesh.now ask }
{
    let setting = asked_setting(&mesh.setting)?;
    let slope = slope(&mesh.slope)?;
    let grid = mesh_grid(mesh.frame)?;
    Some(MeshAsk {
        setting,
        slope,
        grid,
    })
}

/// Whether the arrays have whole triangles, and an area for each or none at all.
fn are_whole(corners: &[u32], areas: &[u8]) -> bool
    ensures { MatchBool result (AreWhole corners.now areas.now) (¬ AreWhole corners.now areas.now) }
{
    corners.len() % 3 == 0 && (areas.is_empty() || areas.len() == corners.len() / 3)
}

/// The triangles of a mesh.
fn triangles(
    alloc: Global,
    ask: &MeshAsk,
    vertices: &[f32],
    corners: &[u32],
    areas: &[u8],
) -> Result<Vec<Tri>, MeshEnd>
    requires { AreWhole corners.now areas.now }
    ensures made { IfOk result (λ tris. AreAdded ask.now.grid ask.now.slope (lists_of vertices.now corners.now areas.now) [] tris.items) }
    ensures rules { IfOk result (λ tris. All IsTriangle tris.items) }
    ensures refused { IfErr result (EndsTriangles ask.now (lists_of vertices.now corners.now areas.now)) }
{
    let mut tris = Vec::new(alloc);
    match add_triangles(&mut tris, &ask.grid, ask.slope, vertices, corners, areas) {
        Ok(()) => Ok(tris),
        Err(MeshRefusal::Faulty(faulty)) => Err(MeshEnd::Faulty(faulty)),
        Err(MeshRefusal::OutOfMemory) => Err(MeshEnd::NoMemory),
    }
}
