//! Questions, and how they are answered.

ghost use Rattle.std.specs.Prelude.{◌≡◌, ◌<◌, IsTrue, All, take};
ghost use Rattle.nav_base.specs.Point.{HasCoordinates};
ghost use Rattle.nav_ground.specs.Fields.{IsField};
ghost use Rattle.nav_ground.specs.Limits.{IsSetting};
ghost use Rattle.span_text.specs.FieldText.{IsFieldText};
ghost use Rattle.mesh_types.specs.Soundness.{IsSound};
ghost use Rattle.off_links.specs.OffMeshLinks.{HasJumpCoordinates};
ghost use Rattle.off_links.specs.Questions.{CanHop};

use crate::ends::{has_coordinates, links_between_ends};
use crate::inside::{aims, floors_found};
use crate::level::level;
use crate::plain::steps_of_plain;
use crate::random::Random;
use corridor_search::cheapest;
use layer_cut::ground;
use mesh_locate::locate;
use mesh_types::Mesh;
use nav_base::{Point, read_number};
use nav_ground::Setting;
use nav_lists::Items;
use nav_text::first_line;
use off_links::{HopAnswer, HopQuestion, Jump, hop};
use span_text::{FieldRefusal, FieldText, read_field};
use std::alloc::{AllocError, Global};
use std::sync::ledger::{Blank, Ledger};

/// What was found.
#[derive(Clone, Copy)]
pub struct Made {
    pub polygons: usize,
    pub walks: u32,
    pub steps: usize,
}

/// What a run comes to.
#[derive(Clone, Copy)]
pub enum Outcome {
    Made(Made),
    /// The input is no such text.
    Fault,
    OutOfMemory,
}

/// What is asked: in which way, how often, and with how many jumps.
#[derive(Clone, Copy)]
struct Wanted {
    way: u32,
    count: u32,
    jumps: u32,
}

/// What the input comes to.
pub fn measured<L: Ledger>(alloc: Global, input: &[u8], blank: Blank) -> Outcome
    requires name { blank.name ≡ L.name }
    requires parts { blank.parts ≡ L.parts }
    requires some { 0 < blank.parts }
{
    let Some((way, rest)) = first_line(input) else {
        return Outcome::Fault;
    };
    let Some((count, rest)) = first_line(rest) else {
        return Outcome::Fault;
    };
    let Some((jumps, text)) = first_line(rest) else {
        return Outcome::Fault;
    };
    let wanted = Wanted {
        way: read_number(way, 7).unwrap_or(1),
        count: read_number(count, 1000000).unwrap_or(0),
        jumps: read_number(jumps, 256).unwrap_or(0),
    };
    match read_field(alloc, text) {
        Ok(read) => match built::<L>(alloc, read, text, wanted, blank) {
            Ok(made) => Outcome::Made(made),
            Err(AllocError) => Outcome::OutOfMemory,
        },
        Err(FieldRefusal::Fault(_)) => Outcome::Fault,
        Err(FieldRefusal::OutOfMemory) => Outcome::OutOfMemory,
    }
}

/// Builds the mesh, and asks.
fn built<L: Ledger>(
    alloc: Global,
    read: FieldText,
    bytes: &[u8],
    wanted: Wanted,
    blank: Blank,
) -> Result<Made, AllocError>
    requires setting { IsSetting read.setting }
    requires field { IsField read.field }
    requires text { IsFieldText (take read.used bytes.now) read.setting read.field }
    requires name { blank.name ≡ L.name }
    requires parts { blank.parts ≡ L.parts }
    requires some { 0 < blank.parts }
{
    let ground = ground(alloc, read.setting, read.field)?;
    if wanted.way == 7 {
        let seen = aims::<L>(alloc, ground, wanted.count, blank)?;
        return Ok(Made {
            polygons: 0,
            walks: wanted.count,
            steps: seen,
        });
    }
    let mesh = level::<L>(alloc, &ground, blank)?;
    asked(alloc, &mesh, wanted)
}

/// Asks as often as is wanted.
fn asked(alloc: Global, mesh: &Mesh, wanted: Wanted) -> Result<Made, AllocError>
    requires sound { IsSound mesh.now }
    requires setting { IsSetting mesh.now.setting }
{
    let mut made = Made {
        polygons: 0,
        walks: 0,
        steps: 0,
    };
    for tile in 0..mesh.tiles.len() {
        made.polygons = made
            .polygons
            .wrapping_add(mesh.tiles.at(tile).get().polys.len());
    }
    let mut random = Random { state: 7 };
    for _place in 0..wanted.count {
        if let Some(steps) = steps_of(alloc, mesh, &mut random, wanted)? {
            made.walks = made.walks.wrapping_add(1);
            made.steps = made.steps.wrapping_add(steps);
        }
    }
    Ok(made)
}

/// How many steps the way has that answers one question.
fn steps_of(
    alloc: Global,
    mesh: &Mesh,
    random: &mut Random,
    wanted: Wanted,
) -> Result<Option<usize>, AllocError>
    requires sound { IsSound mesh.now }
    requires setting { IsSetting mesh.now.setting }
{
    match wanted.way {
        4 => links_between_ends(alloc, mesh, None),
        5 => links_between_ends(alloc, mesh, Some(random.length(&mesh.setting))),
        6 => floors_found(alloc, mesh, random),
        way => {
            let question = question(alloc, random, &mesh.setting, wanted.jumps)?;
            steps_by(alloc, mesh, &question, way)
        }
    }
}

/// A question between random points. Its jumps are the same in all questions, and too dear to be of use.
fn question(
    alloc: Global,
    random: &mut Random,
    setting: &Setting,
    jumps: u32,
) -> Result<HopQuestion, AllocError> {
    let mut declared = Vec::new(alloc);
    let mut other = Random { state: 11 };
    for _place in 0..jumps {
        declared.push(Jump {
            from: other.point(setting),
            from_y: 10,
            to: other.point(setting),
            to_y: 10,
            cost: 4000000000,
        })?;
    }
    Ok(HopQuestion {
        from: random.point(setting),
        from_y: 10,
        to: random.point(setting),
        to_y: 10,
        jumps: Items::from_vec(declared),
    })
}

/// How many steps a walk has that answers a question in a way.
fn steps_by(
    alloc: Global,
    mesh: &Mesh,
    question: &HopQuestion,
    way: u32,
) -> Result<Option<usize>, AllocError>
    requires sound { IsSound mesh.now }
    requires setting { IsSetting mesh.now.setting }
{
    if !can_hop(question) {
        return Ok(None);
    }
    if way == 1 {
        return match hop(alloc, mesh, question)? {
            HopAnswer::Found(found) => Ok(Some(found.steps.len())),
            _ => Ok(None),
        };
    }
    let Some(from) = locate(mesh, question.from, question.from_y) else {
        return Ok(None);
    };
    let Some(to) = locate(mesh, question.to, question.to_y) else {
        return Ok(None);
    };
    if way == 2 {
        return steps_of_plain(alloc, mesh, from, to);
    }
    match cheapest(alloc, mesh, from, to)? {
        Some(corridor) => Ok(Some(corridor.links.len())),
        None => Ok(None),
    }
}

/// Whether each jump's points have coordinates.
fn have_coordinates(jumps: &[Jump]) -> bool
    ensures { IsTrue result → All HasJumpCoordinates jumps.now }
{
    for jump in jumps {
        if !has_coordinates(jump.from) || !has_coordinates(jump.to) {
            return false;
        }
    }
    true
}

fn can_hop(question: &HopQuestion) -> bool
    ensures { IsTrue result → CanHop question.now }
{
    let jumps = question.jumps.as_slice();
    has_coordinates(question.from)
        && has_coordinates(question.to)
        && jumps.len() <= 256
        && have_coordinates(jumps)
}
