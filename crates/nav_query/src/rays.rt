//! Straight walks from a place toward a point. The floors of a column of a mesh.

ghost use Rattle.std.specs.Prelude.{◌≡◌, IfOk, ◌↔◌, ◌++◌, IsTrue, OnOk, map};
ghost use Rattle.nav_base.specs.Point.{HasCoordinates};
ghost use Rattle.nav_ground.specs.Limits.{IsSetting};
ghost use Rattle.mesh_types.specs.Right.{IsRightRay};
ghost use Rattle.mesh_types.specs.Soundness.{IsSound};
ghost use Rattle.nav_query.specs.Questions.{HasLowCost};
ghost use Rattle.layer_cut.specs.Tiles.{IsInField};
ghost use Rattle.mesh_types.specs.Floors.{floors_at};
ghost use Rattle.mesh_types.specs.Words.{floor_of, free_of};

use layer_cut::tile_of;
use mesh_locate::locate;
use mesh_types::{Answer, Mesh, RayAnswer};
use nav_base::{FloorAt, Point};
use nav_ground::{PackedCell, Setting};
use ray_walk::walk;
use std::alloc::{AllocError, Global};

/// The right answer to the question for a straight walk from a place toward a point.
pub fn ray(
    alloc: Global,
    mesh: &Mesh,
    from: Point,
    from_y: u32,
    to: Point,
) -> Result<Answer, AllocError>
    requires sound { IsSound mesh.now }
    requires setting { IsSetting mesh.now.setting }
    requires from { HasCoordinates from }
    requires to { HasCoordinates to }
    ensures right { IfOk result (λ answer. IsRightRay mesh.now from from_y to answer) }
    ensures low_cost { IfOk result HasLowCost }
{
    let Some(first) = locate(mesh, from, from_y) else {
        return Ok(Answer::NoStart);
    };
    match walk(alloc, mesh, first, from, to)? {
        RayAnswer::Reached(at) => Ok(Answer::Reached(at)),
        RayAnswer::Wall { a, b, num, den } => Ok(Answer::Wall { a, b, num, den }),
    }
}

/// The floors of the free cells of a column, from the bottom up; none where the column has no free cell or lies outside the field. It looks
/// into the column's tile alone, by halving.
pub fn floors(alloc: Global, mesh: &Mesh, x: u32, z: u32) -> Result<Vec<FloorAt>, AllocError>
    requires sound { IsSound mesh.now }
    requires setting { IsSetting mesh.now.setting }
    ensures { IfOk result (λ floors. floors.items ≡ floors_at x z (free_of mesh.now.tiles)) }
{
    let mut floors = Vec::new(alloc);
    if is_inside(&mesh.setting, x, z) {
        let tile = mesh.tiles.at(tile_of(&mesh.setting, x, z) as usize).get();
        let column = tile.free.column(alloc, x, z)?;
        push_floors(&mut floors, column.as_slice())?;
    }
    Ok(floors)
}

/// Whether a column lies in the field.
fn is_inside(setting: &Setting, x: u32, z: u32) -> bool
    ensures { IsTrue result ↔ IsInField setting.now x z }
{
    x < setting.width && z < setting.depth
}

/// Appends the floors of cells, in order.
fn push_floors(floors: &mut Vec<FloorAt>, cells: &[PackedCell]) -> Result<(), AllocError>
    ensures { OnOk result (floors.new.items ≡ floors.old.items ++ map floor_of cells.now) }
{
    for cell in cells {
        floors.push(FloorAt {
            y: cell.floor(),
            area: cell.area(),
        })?;
    }
    Ok(())
}
