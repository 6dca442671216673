//! The stages of a mesh.

ghost use Rattle.std.specs.Prelude.{◌≡◌, ◌<◌, [], take};
ghost use Rattle.nav_ground.specs.Limits.{IsSetting};
ghost use Rattle.nav_ground.specs.Fields.{IsField};
ghost use Rattle.nav_ground.specs.Grounds.{IsGround};
ghost use Rattle.span_text.specs.FieldText.{IsFieldText};
ghost use Rattle.tile_build.specs.Meshes.{tiles_under};

use crate::outcome::{Made, Outcome};
use layer_cut::ground;
use mesh_types::{Mesh, TileMesh, copy_mesh};
use nav_base::{Steps, read_number};
use nav_book::Book;
use nav_ground::Ground;
use nav_lists::{Items, Shared};
use nav_text::first_line;
use span_text::{FieldRefusal, FieldText, read_field};
use std::alloc::{AllocError, Global};
use std::sync::ledger::{Blank, Ledger};
use std::sync::{Arc, Wait};
use tile_build::build_tiles;

/// What the input comes to: its first line says up to which stage, and the second how many copies are made.
pub fn measured<R: Wait, L: Ledger>(rt: &R, alloc: Global, input: &[u8], blank: Blank) -> Outcome
    requires name { blank.name ≡ L.name }
    requires parts { blank.parts ≡ L.parts }
    requires some { 0 < blank.parts }
{
    let Some((stage, rest)) = first_line(input) else {
        return Outcome::Nothing;
    };
    let Some((copies, text)) = first_line(rest) else {
        return Outcome::Nothing;
    };
    let stage = read_number(stage, 4).unwrap_or(1);
    let copies = read_number(copies, 1000000).unwrap_or(0);
    match read_field(alloc, text) {
        Ok(read) => {
            let task = Task {
                stage,
                copies,
                blank,
            };
            match staged::<R, L>(rt, alloc, read, text, task) {
                Ok(made) => Outcome::Made(made),
                Err(AllocError) => Outcome::OutOfMemory,
            }
        }
        Err(FieldRefusal::Fault(fault)) => Outcome::Fault {
            line: fault.line,
            kind: fault.kind,
        },
        Err(FieldRefusal::OutOfMemory) => Outcome::OutOfMemory,
    }
}

/// Up to which stage a mesh is made, how many copies are made of it then, and the counter's ledger.
#[derive(Drop)]
struct Task {
    stage: u32,
    copies: u32,
    blank: Blank,
}

/// A ground and its tiles.
#[derive(Drop)]
struct Level {
    ground: Ground,
    tiles: Items<Shared<TileMesh>>,
}

/// Goes on from a text that was read, up to a stage, and then makes copies of the mesh.
fn staged<R: Wait, L: Ledger>(
    rt: &R,
    alloc: Global,
    read: FieldText,
    bytes: &[u8],
    task: Task,
) -> Result<Made, AllocError>
    requires setting { IsSetting read.setting }
    requires field { IsField read.field }
    requires text { IsFieldText (take read.used bytes.now) read.setting read.field }
    requires name { task.blank.name ≡ L.name }
    requires parts { task.blank.parts ≡ L.parts }
    requires some { 0 < task.blank.parts }
{
    let mut made = Made {
        spans: read.field.spans.len(),
        tiles: 0,
        polygons: 0,
        links: 0,
    };
    if task.stage < 2 {
        return Ok(made);
    }
    let ground = ground(alloc, read.setting, read.field)?;
    made.tiles = ground.layers.len();
    if task.stage < 3 {
        return Ok(made);
    }
    built::<R, L>(rt, alloc, ground, made, task)
}

/// Goes on from the ground.
fn built<R: Wait, L: Ledger>(
    rt: &R,
    alloc: Global,
    ground: Ground,
    made: Made,
    task: Task,
) -> Result<Made, AllocError>
    requires ground { IsGround ground }
    requires name { task.blank.name ≡ L.name }
    requires parts { task.blank.parts ≡ L.parts }
    requires some { 0 < task.blank.parts }
{
    let Task {
        stage,
        copies,
        blank,
    } = task;
    let mut made = made;
    let mut steps = Steps::<L>::new(blank);
    let tiles = build_tiles(alloc, &ground, &[], &mut steps)?;
    count_tiles(&mut made, tiles.as_slice());
    if stage < 4 {
        return Ok(made);
    }
    booked(rt, alloc, Level { ground, tiles }, made, copies)
}

/// Goes on from the tiles.
fn booked<R: Wait>(
    rt: &R,
    alloc: Global,
    level: Level,
    made: Made,
    copies: u32,
) -> Result<Made, AllocError>
    requires ground { IsGround level.ground }
    requires tiles { level.tiles ≡ tiles_under level.ground [] }
{
    let Level { ground, tiles } = level;
    let mut made = made;
    let level = Arc::new(alloc, ground)?;
    let (book, _eyes) = Book::begin(rt, alloc, level, tiles, 0)?;
    count_cross(&mut made, book.level().mesh());
    let copied = make_copies(alloc, book.level().mesh(), copies);
    book.end(rt);
    copied?;
    Ok(made)
}

fn count_tiles(made: &mut Made, tiles: &[Shared<TileMesh>]) {
    for tile in tiles {
        made.polygons = made.polygons.wrapping_add(tile.get().polys.len());
        made.links = made.links.wrapping_add(tile.get().links.len());
    }
}

fn count_cross(made: &mut Made, mesh: &Mesh) {
    for tile in 0..mesh.cross.len() {
        made.links = made.links.wrapping_add(mesh.cross.at(tile).get().len());
    }
}

fn make_copies(alloc: Global, mesh: &Mesh, copies: u32) -> Result<(), AllocError> {
    for place in 0..copies {
        let _ = copy_with(alloc, mesh, place as usize)?;
    }
    Ok(())
}

/// A copy of a mesh in which a tile is replaced by the first.
fn copy_with(alloc: Global, mesh: &Mesh, place: usize) -> Result<Mesh, AllocError> {
    let Mesh {
        setting,
        tiles,
        cross,
    } = copy_mesh(alloc, mesh)?;
    let mut tiles = tiles;
    if 0 < tiles.len() {
        let tile = tiles.at(0).share()?;
        let count = tiles.len();
        tiles.set(alloc, place % count, tile)?;
    }
    Ok(Mesh {
        setting,
        tiles,
        cross,
    })
}
