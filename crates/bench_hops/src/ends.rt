//! Ways from one end of a field to the other: asked for, and marched along.

ghost use Rattle.std.specs.Prelude.{IsTrue};
ghost use Rattle.nav_base.specs.Point.{HasCoordinates};
ghost use Rattle.nav_ground.specs.Limits.{IsSetting};
ghost use Rattle.mesh_types.specs.Soundness.{IsSound};

use agent_walks::{Place, WalkAnswer, marched};
use mesh_types::{Answer, Mesh};
use nav_base::{Point, Question};
use nav_query::answer;
use std::alloc::{AllocError, Global};

/// How many links the way has that is found from a field's first corner to its last; or, where a length is given, that is left after a march
/// of it.
pub fn links_between_ends(
    alloc: Global,
    mesh: &Mesh,
    length: Option<u32>,
) -> Result<Option<usize>, AllocError>
    requires sound { IsSound mesh.now }
    requires setting { IsSetting mesh.now.setting }
{
    let from = Point { x: 24, z: 24 };
    let to = Point {
        x: last_place(mesh.setting.width),
        z: last_place(mesh.setting.depth),
    };
    if !has_coordinates(from) || !has_coordinates(to) {
        return Ok(None);
    }
    match length {
        Some(length) => links_left(alloc, mesh, from, to, length),
        None => links_found(alloc, mesh, from, to),
    }
}

fn links_found(
    alloc: Global,
    mesh: &Mesh,
    from: Point,
    to: Point,
) -> Result<Option<usize>, AllocError>
    requires sound { IsSound mesh.now }
    requires setting { IsSetting mesh.now.setting }
    requires from { HasCoordinates from }
    requires to { HasCoordinates to }
{
    let question = Question::Path {
        from,
        from_y: 10,
        to,
        to_y: 10,
    };
    match answer(alloc, mesh, &question)? {
        Answer::Path(found) => Ok(Some(found.links.len())),
        _ => Ok(None),
    }
}

fn links_left(
    alloc: Global,
    mesh: &Mesh,
    from: Point,
    to: Point,
    length: u32,
) -> Result<Option<usize>, AllocError>
    requires sound { IsSound mesh.now }
    requires setting { IsSetting mesh.now.setting }
    requires from { HasCoordinates from }
    requires to { HasCoordinates to }
{
    let from = Place { point: from, y: 10 };
    let goal = Place { point: to, y: 10 };
    match marched(alloc, mesh, from, goal, length)? {
        WalkAnswer::Walking {
            at: _,
            point: _,
            y: _,
            cost: _,
            links,
        } => Ok(Some(links.len())),
        _ => Ok(None),
    }
}

/// The middle of the last column but one, in sixteenths.
fn last_place(columns: u32) -> i32 {
    i32::try_from(columns.wrapping_mul(16).wrapping_sub(24)).unwrap_or(24)
}

/// Whether a point has coordinates.
pub fn has_coordinates(p: Point) -> bool
    ensures { IsTrue result → HasCoordinates p }
{
    -65536 <= p.x && p.x <= 65536 && -65536 <= p.z && p.z <= 65536
}
