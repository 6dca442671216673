//! A game's own numbers over the border: frames, places, and levels of the arrays of a mesh.

ghost use Rattle.std.specs.Prelude.{◌≡◌};
ghost use Rattle.mesh_input.specs.Adding.{lists_of};
ghost use Rattle.mesh_handle.specs.Frames.{IsFraming};
ghost use Rattle.mesh_handle.specs.Points.{IsPlacing, IsPointing};
ghost use Rattle.nav_ffi.specs.Meshes.{IsMeshOpening};

use crate::opening::level_of;
use mesh_handle::{NavdMesh, NavdMeshFault, end_mesh, field_of, frame_over, places_of, points_of};
use nav_handle::{NO_MEMORY, NavdLevel, OK};
use std::alloc::Global;
use std::marker::Brand;
use std::sync::ledger::Blank;
use world_grid::{Frame, FramePlace, FramedField, WorldPoint};

/// The frame of these sizes whose field begins in the last whole column that is not behind `low`, at its height, and the columns that reach
/// from there to `high`.
#[unsafe(no_mangle)]
pub extern "C" fn navd_frame_of(
    sizes: &Frame,
    low: &WorldPoint,
    high: &WorldPoint,
    field: &mut FramedField,
) -> u32
    ensures { IsFraming sizes.now low.now high.now field.old field.new result }
{
    frame_over(sizes, low, high, field)
}

/// Turns points of the game into places of a frame, one after the other, and leaves at `count` how many were turned.
#[unsafe(no_mangle)]
pub extern "C" fn navd_quantize(
    frame: &Frame,
    points: &[WorldPoint],
    places: &mut [FramePlace],
    count: &mut usize,
) -> u32
    ensures { IsPlacing frame.now points.now places.old places.new count.new result }
{
    places_of(frame, points, places, count)
}

/// Turns places of a frame into points of the game, one after the other, and leaves at `count` how many were turned.
#[unsafe(no_mangle)]
pub extern "C" fn navd_dequantize(
    frame: &Frame,
    places: &[FramePlace],
    points: &mut [WorldPoint],
    count: &mut usize,
) -> u32
    ensures { IsPointing frame.now places.now points.old points.new count.new result }
{
    points_of(frame, places, points, count)
}

/// Opens the level of a mesh: three numbers of `vertices` a vertex, three of `corners` a triangle, and one of `areas` a triangle, or none at
/// all. A level that the handle held is closed then.
#[unsafe(no_mangle)]
pub extern "C" fn navd_open_mesh(
    alloc: Global,
    level: &mut NavdLevel,
    mesh: &NavdMesh,
    vertices: &[f32],
    corners: &[u32],
    areas: &[u8],
    fault: &mut NavdMeshFault,
) -> u32
    ensures { IsMeshOpening mesh.now (lists_of vertices.now corners.now areas.now) (level.old.level, fault.old) (level.new.level, fault.new) result }
{
    let made = match field_of(alloc, mesh, vertices, corners, areas) {
        Ok(made) => made,
        Err(end) => return end_mesh(end, fault),
    };
    match level_of::<Brand>(alloc, made.setting, made.field, Blank::new(1)) {
        Ok(held) => {
            level.put(held);
            OK
        }
        Err(_) => NO_MEMORY,
    }
}
