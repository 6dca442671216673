//! Meshes of flat fields with the top 10, made of strips: one for each row of columns that may be walked on, numbered from the lowest row and in a
//! row from the left. The outer ring is a ledge.

ghost use Rattle.std.specs.Prelude.{◌≡◌, ◌<◌, ◌≤◌, ◌↔◌, IfOk, IfSome, IsTrue};
ghost use Rattle.nav_base.specs.Point.{HasCoordinates};
ghost use Rattle.nav_ground.specs.Grounds.{IsGround};
ghost use Rattle.nav_ground.specs.Limits.{IsSetting};
ghost use Rattle.mesh_types.specs.Soundness.{IsSound};

use layer_cut::ground;
use mesh_types::Mesh;
use nav_base::{Point, Steps};
use nav_ground::{Ground, Span};
use span_text::{read_field, write_span};
use std::alloc::{AllocError, Global};
use std::sync::ledger::{Blank, Ledger};
use tile_build::build_tiles;
use tile_links::joined;

/// What a field looks like.
#[derive(Clone, Copy)]
pub(crate) enum Plan {
    /// 6 by 6 columns in one tile: four rows, from 16 to 80 sixteenths along both axes.
    Flat,
    /// The same, where the third of the four rows is shut.
    Gap,
    /// 8 by 8 columns in one tile, of which the middle four are shut, from 48 to 80 along both axes.
    Hole,
    /// 8 by 8 columns in one tile, of which the columns 1 and 2 and the rows 5 and 6 are open: they meet round a corner at (48, 80).
    Bend,
    /// 12 by 12 columns in four tiles.
    Four,
    /// 24 by 6 columns in four tiles.
    Long,
}

/// The lines before the spans.
fn header(plan: Plan) -> &'static str {
    match plan {
        Plan::Flat | Plan::Gap => {
            "nav 1\nsize 6 6\ntile 6\nagent 10 4 0\nerror 0\nmesh strips\nlimit 4\n"
        }
        Plan::Hole | Plan::Bend => {
            "nav 1\nsize 8 8\ntile 8\nagent 10 4 0\nerror 0\nmesh strips\nlimit 4\n"
        }
        Plan::Four => "nav 1\nsize 12 12\ntile 6\nagent 10 4 0\nerror 0\nmesh strips\nlimit 4\n",
        Plan::Long => "nav 1\nsize 24 6\ntile 6\nagent 10 4 0\nerror 0\nmesh strips\nlimit 4\n",
    }
}

/// How many columns there are along x and along z.
fn size(plan: Plan) -> (u32, u32)
    ensures wide { (1 ≤ result.0) × (result.0 ≤ 24) }
    ensures deep { (1 ≤ result.1) × (result.1 ≤ 12) }
{
    match plan {
        Plan::Flat | Plan::Gap => (6, 6),
        Plan::Hole | Plan::Bend => (8, 8),
        Plan::Four => (12, 12),
        Plan::Long => (24, 6),
    }
}

/// The area of a column.
fn area(plan: Plan, x: u32, z: u32) -> u32 {
    let shut = match plan {
        Plan::Flat | Plan::Four | Plan::Long => false,
        Plan::Gap => z == 3,
        Plan::Hole => (x == 3 || x == 4) && (z == 3 || z == 4),
        Plan::Bend => x > 2 && z < 5,
    };
    if shut { 0 } else { 63 }
}

/// The text of a field.
fn field_text(alloc: Global, plan: Plan) -> Result<Vec<u8>, AllocError> {
    let mut text = Vec::new(alloc);
    text.extend_from_slice(header(plan).as_bytes())?;
    let (width, depth) = size(plan);
    for z in 0..depth {
        for x in 0..width {
            let span = Span {
                x,
                z,
                bottom: 0,
                top: 10,
                area: area(plan, x, z),
            };
            write_span(&mut text, &span)?;
        }
    }
    text.extend_from_slice(b"end\n")?;
    Ok(text)
}

/// The mesh of a field; none where there is no memory, or the text is none.
pub(crate) fn mesh<L: Ledger>(alloc: Global, plan: Plan, blank: Blank) -> Option<Mesh>
    requires name { blank.name ≡ L.name }
    requires parts { blank.parts ≡ L.parts }
    requires some { 0 < blank.parts }
    ensures sound { IfSome result IsSound }
    ensures setting { IfSome result (λ mesh. IsSetting mesh.setting) }
{
    let text = field_text(alloc, plan).ok()?;
    let read = read_field(alloc, text.as_slice()).ok()?;
    let ground = ground(alloc, read.setting, read.field).ok()?;
    level::<L>(alloc, &ground, blank).ok()
}

/// The mesh of a ground without obstacles.
fn level<L: Ledger>(alloc: Global, ground: &Ground, blank: Blank) -> Result<Mesh, AllocError>
    requires ground { IsGround ground.now }
    requires name { blank.name ≡ L.name }
    requires parts { blank.parts ≡ L.parts }
    requires some { 0 < blank.parts }
    ensures sound { IfOk result IsSound }
    ensures setting { IfOk result (λ mesh. IsSetting mesh.setting) }
{
    let mut steps = Steps::<L>::new(blank);
    let tiles = build_tiles(alloc, ground, &[], &mut steps)?;
    joined(alloc, &ground.setting, tiles)
}

/// Whether a point has coordinates.
pub(crate) fn has_coordinates(p: Point) -> bool
    ensures { IsTrue result ↔ HasCoordinates p }
{
    -65536 <= p.x && p.x <= 65536 && -65536 <= p.z && p.z <= 65536
}
