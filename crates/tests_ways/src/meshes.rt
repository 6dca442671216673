//! Meshes of flat fields with one span over each column, which are made of strips: one for each row of columns that have one area, numbered from
//! the lowest row and in a row from the left. The outer ring is a ledge.

ghost use Rattle.std.specs.Prelude.{◌≡◌, ◌↔◌, ◌<◌, IfOk, IsTrue};
ghost use Rattle.nav_base.specs.Point.{HasCoordinates};
ghost use Rattle.nav_ground.specs.Grounds.{IsGround, IsSized};
ghost use Rattle.nav_ground.specs.Limits.{IsSetting};
ghost use Rattle.mesh_types.specs.Passages.{IsTwoWay};
ghost use Rattle.mesh_types.specs.Soundness.{IsSound};

use layer_cut::ground;
use mesh_types::{Mesh, PolyRef};
use nav_base::{Point, Steps};
use nav_ground::{Field, Ground, Setting, Span};
use span_text::{FieldText, read_field, write_span};
use std::alloc::{AllocError, Global};
use std::process::Abort;
use std::sync::ledger::{Blank, Ledger};
use tile_build::build_tiles;
use tile_links::joined;

/// A field: what its text says before the spans, how many columns a row has, and the area of each column, row by row.
#[derive(Clone, Copy)]
pub(crate) struct FlatLevel {
    header: &'static [u8],
    side: usize,
    areas: &'static [u8],
}

const SIX: &[u8] = b"nav 1\nsize 6 6\ntile 6\nagent 10 4 0\nerror 0\nmesh strips\nlimit 4\n";

const SIX_3: &[u8] =
    b"nav 1\nsize 6 6\ntile 6\nagent 10 4 0\nerror 0\nmesh strips\nlimit 4\ncost 2 3\n";

const SIX_5: &[u8] =
    b"nav 1\nsize 6 6\ntile 6\nagent 10 4 0\nerror 0\nmesh strips\nlimit 4\ncost 2 5\n";

const EIGHT: &[u8] = b"nav 1\nsize 8 8\ntile 8\nagent 10 4 0\nerror 0\nmesh strips\nlimit 4\n";

static ALL: [u8; 36] = [1; 36];

/// The third of the four rows has the area 2.
static WATER: [u8; 36] = [
    1, 1, 1, 1, 1, 1, 1, 1, 1, 1, 1, 1, 1, 1, 1, 1, 1, 1, 2, 2, 2, 2, 2, 2, 1, 1, 1, 1, 1, 1, 1, 1,
    1, 1, 1, 1,
];

/// The third row cannot be walked on.
static GAP: [u8; 36] = [
    1, 1, 1, 1, 1, 1, 1, 1, 1, 1, 1, 1, 1, 1, 1, 1, 1, 1, 0, 0, 0, 0, 0, 0, 1, 1, 1, 1, 1, 1, 1, 1,
    1, 1, 1, 1,
];

/// The first row is two strips, so that the numbers of the others rise.
static SPLIT: [u8; 36] = [
    1, 1, 1, 1, 1, 1, 1, 1, 1, 0, 1, 1, 1, 1, 1, 1, 1, 1, 1, 1, 1, 1, 1, 1, 1, 1, 1, 1, 1, 1, 1, 1,
    1, 1, 1, 1,
];

/// A wall in all rows but the last: two strips a row, and then one.
static WALL: [u8; 64] = [
    1, 1, 1, 1, 1, 1, 1, 1, 1, 1, 1, 0, 1, 1, 1, 1, 1, 1, 1, 0, 1, 1, 1, 1, 1, 1, 1, 0, 1, 1, 1, 1,
    1, 1, 1, 0, 1, 1, 1, 1, 1, 1, 1, 0, 1, 1, 1, 1, 1, 1, 1, 1, 1, 1, 1, 1, 1, 1, 1, 1, 1, 1, 1, 1,
];

/// A hole of two by two columns in the middle: two strips in each of its rows.
static HOLE: [u8; 64] = [
    1, 1, 1, 1, 1, 1, 1, 1, 1, 1, 1, 1, 1, 1, 1, 1, 1, 1, 1, 1, 1, 1, 1, 1, 1, 1, 1, 0, 0, 1, 1, 1,
    1, 1, 1, 0, 0, 1, 1, 1, 1, 1, 1, 1, 1, 1, 1, 1, 1, 1, 1, 1, 1, 1, 1, 1, 1, 1, 1, 1, 1, 1, 1, 1,
];

const PAIR: &[u8] = b"nav 1\nsize 12 6\ntile 6\nagent 10 4 0\nerror 0\nmesh strips\nlimit 4\n";

const LONG: &[u8] = b"nav 1\nsize 24 6\ntile 6\nagent 10 4 0\nerror 0\nmesh strips\nlimit 4\n";

static ALL_PAIR: [u8; 72] = [1; 72];

static ALL_LONG: [u8; 144] = [1; 144];

/// In the second of two tiles the second row ends sooner.
static PAIR_MOVED: [u8; 72] = [
    1, 1, 1, 1, 1, 1, 1, 1, 1, 1, 1, 1, 1, 1, 1, 1, 1, 1, 1, 1, 1, 1, 1, 1, 1, 1, 1, 1, 1, 1, 1, 1,
    1, 1, 0, 1, 1, 1, 1, 1, 1, 1, 1, 1, 1, 1, 1, 1, 1, 1, 1, 1, 1, 1, 1, 1, 1, 1, 1, 1, 1, 1, 1, 1,
    1, 1, 1, 1, 1, 1, 1, 1,
];

/// In the first the third row is two strips.
static PAIR_SHUT: [u8; 72] = [
    1, 1, 1, 1, 1, 1, 1, 1, 1, 1, 1, 1, 1, 1, 1, 1, 1, 1, 1, 1, 1, 1, 1, 1, 1, 1, 1, 1, 1, 1, 1, 1,
    1, 1, 1, 1, 1, 1, 0, 1, 1, 1, 1, 1, 1, 1, 1, 1, 1, 1, 1, 1, 1, 1, 1, 1, 1, 1, 1, 1, 1, 1, 1, 1,
    1, 1, 1, 1, 1, 1, 1, 1,
];

/// Of four tiles the second and the third have no border together in the first row.
static LONG_SHUT: [u8; 144] = [
    1, 1, 1, 1, 1, 1, 1, 1, 1, 0, 1, 1, 1, 1, 1, 1, 1, 1, 1, 1, 1, 1, 1, 1, 1, 1, 1, 1, 1, 1, 1, 1,
    1, 0, 1, 1, 1, 1, 1, 1, 1, 1, 1, 1, 1, 1, 1, 1, 1, 1, 1, 1, 1, 1, 1, 1, 1, 1, 1, 1, 1, 1, 1, 1,
    1, 1, 1, 1, 1, 1, 1, 1, 1, 1, 1, 1, 1, 1, 1, 1, 1, 1, 1, 1, 1, 1, 1, 1, 1, 1, 1, 1, 1, 1, 1, 1,
    1, 1, 1, 1, 1, 1, 1, 1, 1, 1, 1, 1, 1, 1, 1, 1, 1, 1, 1, 1, 1, 1, 1, 1, 1, 1, 1, 1, 1, 1, 1, 1,
    1, 1, 1, 1, 1, 1, 1, 1, 1, 1, 1, 1, 1, 1, 1, 1,
];

/// Four rows, from 16 to 80 sixteenths along both axes.
pub(crate) fn open() -> FlatLevel {
    FlatLevel {
        header: SIX,
        side: 6,
        areas: &ALL,
    }
}

/// The same with water, which costs 3.
pub(crate) fn water() -> FlatLevel {
    FlatLevel {
        header: SIX_3,
        side: 6,
        areas: &WATER,
    }
}

/// The same, where the water costs 5.
pub(crate) fn dear_water() -> FlatLevel {
    FlatLevel {
        header: SIX_5,
        side: 6,
        areas: &WATER,
    }
}

pub(crate) fn gap() -> FlatLevel {
    FlatLevel {
        header: SIX,
        side: 6,
        areas: &GAP,
    }
}

pub(crate) fn split() -> FlatLevel {
    FlatLevel {
        header: SIX,
        side: 6,
        areas: &SPLIT,
    }
}

pub(crate) fn wall() -> FlatLevel {
    FlatLevel {
        header: EIGHT,
        side: 8,
        areas: &WALL,
    }
}

pub(crate) fn hole() -> FlatLevel {
    FlatLevel {
        header: EIGHT,
        side: 8,
        areas: &HOLE,
    }
}

/// Two tiles of such rows.
pub(crate) fn pair() -> FlatLevel {
    FlatLevel {
        header: PAIR,
        side: 12,
        areas: &ALL_PAIR,
    }
}

pub(crate) fn pair_moved() -> FlatLevel {
    FlatLevel {
        header: PAIR,
        side: 12,
        areas: &PAIR_MOVED,
    }
}

pub(crate) fn pair_shut() -> FlatLevel {
    FlatLevel {
        header: PAIR,
        side: 12,
        areas: &PAIR_SHUT,
    }
}

/// Four tiles of such rows.
pub(crate) fn long() -> FlatLevel {
    FlatLevel {
        header: LONG,
        side: 24,
        areas: &ALL_LONG,
    }
}

pub(crate) fn long_shut() -> FlatLevel {
    FlatLevel {
        header: LONG,
        side: 24,
        areas: &LONG_SHUT,
    }
}

fn text(alloc: Global, level: FlatLevel) -> Result<Vec<u8>, AllocError> {
    let mut text = Vec::new(alloc);
    text.extend_from_slice(level.header)?;
    let side = level.side.clamp(1, 64) as u32;
    let mut place: u32 = 0;
    for area in level.areas {
        let span = Span {
            x: place % side,
            z: place / side,
            bottom: 0,
            top: 10,
            area: u32::from(*area),
        };
        write_span(&mut text, &span)?;
        place = place.wrapping_add(1);
    }
    text.extend_from_slice(b"end\n")?;
    Ok(text)
}

fn is_sized(setting: &Setting, field: &Field) -> bool
    ensures { IsTrue result → IsSized setting.now field.now }
{
    field.width == setting.width && field.depth == setting.depth
}

fn read(alloc: Global, level: FlatLevel) -> Result<Ground, AllocError>
    ensures { IfOk result IsGround }
{
    let text = text(alloc, level)?;
    match read_field(alloc, text.as_slice()) {
        Ok(FieldText { setting, field, .. }) => {
            if is_sized(&setting, &field) {
                ground(alloc, setting, field)
            } else {
                Err(AllocError)
            }
        }
        Err(_) => Err(AllocError),
    }
}

/// The mesh of a level.
pub(crate) fn mesh<L: Ledger>(
    alloc: Global,
    level: FlatLevel,
    steps: &mut Steps<L>,
) -> Result<Mesh, AllocError>
    ensures sound { IfOk result IsSound }
    ensures setting { IfOk result (λ mesh. IsSetting mesh.setting) }
    ensures two_way { IfOk result IsTwoWay }
{
    let ground = read(alloc, level)?;
    built(alloc, &ground, steps)
}

/// The mesh of a ground.
fn built<L: Ledger>(
    alloc: Global,
    ground: &Ground,
    steps: &mut Steps<L>,
) -> Result<Mesh, AllocError>
    requires ground { IsGround ground.now }
    ensures sound { IfOk result IsSound }
    ensures setting { IfOk result (λ mesh. IsSetting mesh.setting) }
    ensures two_way { IfOk result IsTwoWay }
{
    let tiles = build_tiles(alloc, ground, &[], steps)?;
    joined(alloc, &ground.setting, tiles)
}

/// A polygon of the only tile.
pub(crate) fn at(index: u32) -> PolyRef {
    PolyRef { tile: 0, index }
}

pub(crate) fn point(p: (i32, i32)) -> Point {
    Point { x: p.0, z: p.1 }
}

pub(crate) fn has_coordinates(p: Point) -> bool
    ensures { IsTrue result ↔ HasCoordinates p }
{
    -65536 <= p.x && p.x <= 65536 && -65536 <= p.z && p.z <= 65536
}

/// Ends the test where a row of a table is wrong, and names the table and the row.
pub(crate) fn all_hold(rt: &impl Abort, table: &str, wrong: Option<usize>) {
    if let Some(row) = wrong {
        panic!(rt; "{table}, row {row}");
    }
}
