//! The scene at the end of a play. What stands before a mesh: entries and tiles. The parts of lines.

ghost use Rattle.std.specs.Prelude.{◌≡◌, ◌+◌, IfOk, OnOk, ◌<◌, ◌^◌, ◌++◌, length};
ghost use Rattle.nav_ground.specs.Limits.{IsSetting};
ghost use Rattle.nav_ground.specs.Fields.{IsField};
ghost use Rattle.nav_ground.specs.Grounds.{IsSized};
ghost use Rattle.nav_play.specs.Work.{builds_of};
ghost use Rattle.nav_script.specs.Limits.{IsScript};
ghost use Rattle.nav_script.specs.declared.script.Way.TheVariants.{Play};
ghost use Rattle.nav_base.specs.Counts.{HasRisenAtMost};
ghost use Rattle.nav_play.specs.Scenes.{IsSceneText, StandsInFront, entries_text, tile_text, tiles_text, window_text, line_of, spaced_point};
ghost use Rattle.nav_ground.specs.Tiling.{tile_count};

use crate::meshes::{append_all, append_scene};
use crate::{PlayStart, PlayText, Played, play_to_end};
use nav_base::{Point, Steps};
use nav_ground::{Entry, Setting, TileNo, Window, tile_bounds, tiles};
use nav_record::write_entry;
use nav_script::Script;
use nav_text::{append_line, append_number};
use std::alloc::{AllocError, Global};
use std::sync::Wait;
use std::sync::ledger::Ledger;

/// Plays a script over a field, and writes its play text and, behind it, the scene of what its book shows after the last line. Steps are taken
/// for the play alone. Only memory can be refused.
pub fn scene<R: Wait, L: Ledger>(
    rt: &R,
    alloc: Global,
    start: PlayStart,
    script: &Script,
    steps: &mut Steps<L>,
) -> Result<Vec<u8>, AllocError>
    requires setting { IsSetting start.setting }
    requires field { IsField start.field }
    requires sized { IsSized start.setting start.field }
    requires script { IsScript Play script.now }
    ensures text { IfOk result (λ text. IsSceneText start.setting start.field script.now text.items) }
    ensures steps { OnOk result (steps.new ≡ steps.old + builds_of start.setting start.field script.now) }
    ensures most { HasRisenAtMost (builds_of start.setting start.field script.now) steps.old steps.new }
{
    let Played { book, text } = play_to_end(rt, alloc, start, script, steps)?;
    let PlayText { bytes, totals: _ } = text;
    let mut bytes = bytes;
    let written = append_scene(&mut bytes, &book);
    book.end(rt);
    written?;
    Ok(bytes)
}

/// Appends a line for each entry, with its number, from 1.
pub(crate) fn append_entries(out: &mut Vec<u8>, entries: &[Entry]) -> Result<(), AllocError>
    requires { length entries.now < 2 ^ 32 }
    ensures ok { OnOk result (out.new.items ≡ out.old.items ++ entries_text entries.now) }
    ensures front { StandsInFront out.old.items out.new.items }
{
    for (place, entry) in entries.iter().enumerate() {
        write_entry(out, place as u32 + 1, entry)?;
    }
    Ok(())
}

/// Appends the line of each tile, in order.
pub(crate) fn append_tiles(out: &mut Vec<u8>, setting: &Setting) -> Result<(), AllocError>
    requires { IsSetting setting.now }
    ensures ok { OnOk result (out.new.items ≡ out.old.items ++ tiles_text setting.now) }
    ensures front { StandsInFront out.old.items out.new.items }
{
    for tile in 0..tiles(setting) {
        append_tile(out, setting, tile)?;
    }
    Ok(())
}

/// Appends the line of a tile: its number, its first column along x and along z, and its last ones.
fn append_tile(out: &mut Vec<u8>, setting: &Setting, tile: TileNo) -> Result<(), AllocError>
    requires setting { IsSetting setting.now }
    requires there { tile < tile_count setting.now }
    ensures ok { OnOk result (out.new.items ≡ out.old.items ++ tile_text setting.now tile) }
    ensures front { StandsInFront out.old.items out.new.items }
{
    append_line(out, b"tile", &[tile])?;
    append_window(out, &tile_bounds(setting, tile))?;
    out.extend_from_slice(b"\n")
}

/// Appends the first column of a window along x and along z, and its last ones.
fn append_window(out: &mut Vec<u8>, window: &Window) -> Result<(), AllocError>
    ensures ok { OnOk result (out.new.items ≡ out.old.items ++ window_text window.now) }
    ensures front { StandsInFront out.old.items out.new.items }
{
    let first = Point {
        x: window.x0,
        z: window.z0,
    };
    let last = Point {
        x: window.x1,
        z: window.z1,
    };
    append_all(out, &[first, last])
}

/// Appends a line of a word and numbers, each behind a space.
pub(crate) fn write_line(out: &mut Vec<u8>, word: &[u8], numbers: &[u32]) -> Result<(), AllocError>
    ensures ok { OnOk result (out.new.items ≡ out.old.items ++ line_of word.now numbers.now) }
    ensures front { StandsInFront out.old.items out.new.items }
{
    append_line(out, word, numbers)?;
    out.extend_from_slice(b"\n")
}

/// Appends a point, each of its numbers behind a space.
pub(crate) fn write_point(out: &mut Vec<u8>, at: Point) -> Result<(), AllocError>
    ensures ok { OnOk result (out.new.items ≡ out.old.items ++ spaced_point at) }
    ensures front { StandsInFront out.old.items out.new.items }
{
    append_number(out, at.x)?;
    append_number(out, at.z)
}
