//! The meshes of small fields.

ghost use Rattle.std.specs.Prelude.{◌≡◌, ◌<◌, ◌↔◌, IfOk, IfSome, IsTrue, []};
ghost use Rattle.nav_base.specs.Point.{HasCoordinates};
ghost use Rattle.nav_ground.specs.Grounds.{IsGround};
ghost use Rattle.nav_ground.specs.Limits.{IsSetting};
ghost use Rattle.mesh_types.specs.Builds.{mesh_under};
ghost use Rattle.mesh_types.specs.Soundness.{IsSound};

use crate::fields::{Sketch, field_text};
use layer_cut::ground;
use mesh_types::Mesh;
use nav_base::{Point, Steps};
use nav_ground::Ground;
use span_text::read_field;
use std::alloc::{AllocError, Global};
use std::sync::ledger::{Blank, Ledger};
use tile_build::build_tiles;
use tile_links::joined;

/// The mesh of a field; none where there is no memory, or the text is none.
pub(crate) fn mesh<L: Ledger>(alloc: Global, sketch: Sketch, blank: Blank) -> Option<Mesh>
    requires name { blank.name ≡ L.name }
    requires parts { blank.parts ≡ L.parts }
    requires some { 0 < blank.parts }
    ensures sound { IfSome result IsSound }
    ensures setting { IfSome result (λ mesh. IsSetting mesh.setting) }
{
    let ground = sketched(alloc, sketch)?;
    level::<L>(alloc, &ground, blank).ok()
}

/// The ground of a field; none where there is no memory, or the text is none.
pub(crate) fn sketched(alloc: Global, sketch: Sketch) -> Option<Ground>
    ensures { IfSome result IsGround }
{
    let text = field_text(alloc, sketch).ok()?;
    let read = read_field(alloc, text.as_slice()).ok()?;
    ground(alloc, read.setting, read.field).ok()
}

/// The mesh of a ground without obstacles.
pub(crate) fn level<L: Ledger>(
    alloc: Global,
    ground: &Ground,
    blank: Blank,
) -> Result<Mesh, AllocError>
    requires ground { IsGround ground.now }
    requires name { blank.name ≡ L.name }
    requires parts { blank.parts ≡ L.parts }
    requires some { 0 < blank.parts }
    ensures under { IfOk result (λ mesh. mesh ≡ mesh_under ground.now []) }
    ensures sound { IfOk result IsSound }
    ensures setting { IfOk result (λ mesh. IsSetting mesh.setting) }
{
    let mut steps = Steps::<L>::new(blank);
    let tiles = build_tiles(alloc, ground, &[], &mut steps)?;
    joined(alloc, &ground.setting, tiles)
}

/// Whether a point has coordinates.
pub(crate) fn has_coordinates(p: Point) -> bool
    ensures { IsTrue result ↔ HasCoordinates p }
{
    -65536 <= p.x && p.x <= 65536 && -65536 <= p.z && p.z <= 65536
}
