//! Questions for places, and how many have one.

ghost use Rattle.std.specs.Prelude.{◌≡◌, ◌<◌, IsTrue, take};
ghost use Rattle.nav_ground.specs.Fields.{IsField};
ghost use Rattle.nav_ground.specs.Limits.{IsSetting};
ghost use Rattle.span_text.specs.FieldText.{IsFieldText};
ghost use Rattle.mesh_types.specs.Soundness.{IsSound};
ghost use Rattle.mesh_place.specs.Nearest.{CanAskNear};

use crate::level::level;
use crate::random::Random;
use layer_cut::ground;
use mesh_place::{Near, NearAnswer, nearest};
use mesh_types::Mesh;
use nav_base::read_number;
use nav_text::first_line;
use span_text::{FieldRefusal, FieldText, read_field};
use std::alloc::{AllocError, Global};
use std::sync::ledger::{Blank, Ledger};

/// What was found.
#[derive(Clone, Copy)]
pub struct Made {
    pub polygons: usize,
    pub places: u32,
}

/// What a run comes to.
#[derive(Clone, Copy)]
pub enum Outcome {
    Made(Made),
    /// The input is no such text.
    Fault,
    OutOfMemory,
}

/// What is asked: how far a place may be, how far its floor, and how often.
#[derive(Clone, Copy)]
struct Wanted {
    reach: u32,
    heights: u32,
    count: u32,
}

/// What the input comes to.
pub fn measured<L: Ledger>(alloc: Global, input: &[u8], blank: Blank) -> Outcome
    requires name { blank.name ≡ L.name }
    requires parts { blank.parts ≡ L.parts }
    requires some { 0 < blank.parts }
{
    let Some((reach, rest)) = first_line(input) else {
        return Outcome::Fault;
    };
    let Some((heights, rest)) = first_line(rest) else {
        return Outcome::Fault;
    };
    let Some((count, text)) = first_line(rest) else {
        return Outcome::Fault;
    };
    let wanted = Wanted {
        reach: read_number(reach, 262143).unwrap_or(0),
        heights: read_number(heights, 16383).unwrap_or(0),
        count: read_number(count, 10000000).unwrap_or(0),
    };
    match read_field(alloc, text) {
        Ok(read) => match built::<L>(alloc, read, text, wanted, blank) {
            Ok(made) => Outcome::Made(made),
            Err(AllocError) => Outcome::OutOfMemory,
        },
        Err(FieldRefusal::Fault(_)) => Outcome::Fault,
        Err(FieldRefusal::OutOfMemory) => Outcome::OutOfMemory,
    }
}

/// Builds the mesh, and asks.
fn built<L: Ledger>(
    alloc: Global,
    read: FieldText,
    bytes: &[u8],
    wanted: Wanted,
    blank: Blank,
) -> Result<Made, AllocError>
    requires setting { IsSetting read.setting }
    requires field { IsField read.field }
    requires text { IsFieldText (take read.used bytes.now) read.setting read.field }
    requires name { blank.name ≡ L.name }
    requires parts { blank.parts ≡ L.parts }
    requires some { 0 < blank.parts }
{
    let ground = ground(alloc, read.setting, read.field)?;
    let mesh = level::<L>(alloc, &ground, blank)?;
    Ok(asked(&mesh, wanted))
}

/// Asks as often as is wanted.
fn asked(mesh: &Mesh, wanted: Wanted) -> Made
    requires sound { IsSound mesh.now }
    requires setting { IsSetting mesh.now.setting }
{
    let mut made = Made {
        polygons: 0,
        places: 0,
    };
    for tile in 0..mesh.tiles.len() {
        made.polygons = made
            .polygons
            .wrapping_add(mesh.tiles.at(tile).get().polys.len());
    }
    let mut random = Random { state: 7 };
    for _question in 0..wanted.count {
        if has_place(mesh, &mut random, wanted) {
            made.places = made.places.wrapping_add(1);
        }
    }
    made
}

/// Whether a random point has a place.
fn has_place(mesh: &Mesh, random: &mut Random, wanted: Wanted) -> bool
    requires sound { IsSound mesh.now }
    requires setting { IsSetting mesh.now.setting }
{
    let asked = Near {
        point: random.point(&mesh.setting),
        y: 10,
        reach: wanted.reach,
        down: wanted.heights,
        up: wanted.heights,
        weight: 4,
        areas: u64::MAX,
    };
    if !can_ask(&asked) {
        return false;
    }
    match nearest(mesh, &asked) {
        NearAnswer::Nearest(_) => true,
        NearAnswer::NoneInReach => false,
    }
}

/// Whether the question may be asked.
fn can_ask(asked: &Near) -> bool
    ensures { IsTrue result → CanAskNear asked.now }
{
    -65536 <= asked.point.x
        && asked.point.x <= 65536
        && -65536 <= asked.point.z
        && asked.point.z <= 65536
        && asked.reach < 262144
        && asked.down < 16384
        && asked.up < 16384
        && asked.weight < 65536
}
