//! Levels opened, from a field text or from triangles, renewed and closed, over the border.

ghost use Rattle.std.specs.Prelude.{◌≡◌, ◌<◌, ◌⊎◌, None, Some, IfOk, ◌≤◌, ℕ, List, length};
ghost use Rattle.nav_ground.specs.Fields.{IsField};
ghost use Rattle.nav_ground.specs.Grounds.{IsSized};
ghost use Rattle.nav_ground.specs.Limits.{IsSetting};
ghost use Rattle.nav_text.specs.Lines.{lines};
ghost use Rattle.nav_text.specs.Reading.{IsFirstFault};
ghost use Rattle.span_text.specs.FieldFormat.{AtNav, field_format};
ghost use Rattle.build_queue.specs.BookState.{first_state};
ghost use Rattle.nav_book.specs.Openings.{ground_of};
ghost use Rattle.nav_ffi.specs.Opening.{BeginsWith, HoldsOpened, fault_of};
ghost use Rattle.nav_ffi.specs.Renewing.{IsRenewing};
ghost use Rattle.nav_ground.specs.declared.field.Field.{Field};
ghost use Rattle.nav_ground.specs.declared.setting.Setting.{Setting};
ghost use Rattle.tri_raster.specs.declared.triangle.Tri.{Tri};
ghost use Rattle.tri_raster.specs.Rasters.{IsRaster};
ghost use Rattle.tri_raster.specs.TriFormat.{IsTextFault};
ghost use Rattle.tri_raster.specs.TriText.{IsTriText};
ghost use Rattle.nav_ffi.specs.Triangles.{HasTooMany, HoldsRastered};
ghost use Rattle.nav_handle.specs.Statuses as status;

use layer_cut::ground;
use nav_base::Steps;
use nav_book::Level;
use nav_ground::{Field, Setting};
use nav_handle::{
    EMPTY, FAULTY, NO_MEMORY, NO_ROOM, NOT_YET, NavdFault, NavdLevel, OK, TOO_MANY_SPANS,
    lay_numbers,
};
use span_text::{FieldRefusal, read_field};
use std::alloc::{AllocError, Global};
use std::marker::Brand;
use std::sync::Arc;
use std::sync::ledger::{Blank, Ledger};
use tile_build::build_tiles;
use tri_raster::{RasterRefusal, raster, read_triangles};

/// The level of a setting and a field, on the heap.
pub(crate) fn level_of<L: Ledger>(
    alloc: Global,
    setting: Setting,
    field: Field,
    blank: Blank,
) -> Result<Box<Level, Global>, AllocError>
    requires setting { IsSetting setting }
    requires field { IsField field }
    requires sized { IsSized setting field }
    requires name { blank.name ≡ L.name }
    requires parts { blank.parts ≡ L.parts }
    requires some { 0 < blank.parts }
    ensures { IfOk result (λ level. level.value ≡ first_state (ground_of setting field)) }
{
    let mut steps = Steps::<L>::new(blank);
    let ground = ground(alloc, setting, field)?;
    let tiles = build_tiles(alloc, &ground, &[], &mut steps)?;
    let level = Level::begin(alloc, Arc::new(alloc, ground)?, tiles)?;
    Ok(Box::new(alloc, level)?)
}

/// Opens the level of the field text with which the bytes begin. A level that the handle held is closed then.
#[unsafe(no_mangle)]
pub extern "C" fn navd_open(
    alloc: Global,
    level: &mut NavdLevel,
    text: &[u8],
    fault: &mut NavdFault,
) -> u32
    ensures ends { (result ≡ status.ok) ⊎ ((result ≡ status.faulty) ⊎ (result ≡ status.no_memory)) }
    ensures opened { result ≡ status.ok → HoldsOpened text.now level.new.level }
    ensures only { (setting : Setting) (field : Field) → BeginsWith text.now setting field
        → ((result ≡ status.ok) × (level.new.level ≡ Some (first_state (ground_of setting field)))) ⊎ (result ≡ status.no_memory) }
    ensures fault { result ≡ status.faulty → IsFirstFault field_format AtNav 0 (lines text.now) (fault_of fault.new) }
    ensures told { (result ≡ status.faulty → ⊥) → fault.new ≡ fault.old }
    ensures kept { (result ≡ status.ok → ⊥) → level.new.level ≡ level.old.level }
{
    let text = match read_field(alloc, text) {
        Ok(text) => text,
        Err(FieldRefusal::Fault(first)) => {
            *fault = NavdFault {
                line: first.line,
                kind: first.kind,
            };
            return FAULTY;
        }
        Err(FieldRefusal::OutOfMemory) => return NO_MEMORY,
    };
    match level_of::<Brand>(alloc, text.setting, text.field, Blank::new(1)) {
        Ok(made) => {
            level.put(made);
            OK
        }
        Err(_) => NO_MEMORY,
    }
}

/// Closes the level, if the handle holds one.
#[unsafe(no_mangle)]
pub extern "C" fn navd_close(alloc: Global, level: &mut NavdLevel)
    ensures { level.new.level ≡ None }
{
    let _ = level.take(alloc);
}

/// Begins the history again, where all of it is published, with the obstacles that are alive; the number of each is then its place in the list
/// that is laid into `numbers`, from 1. How many there are is left at `count`.
#[unsafe(no_mangle)]
pub extern "C" fn navd_renew(
    alloc: Global,
    level: &mut NavdLevel,
    numbers: &mut [u32],
    count: &mut usize,
) -> u32
    ensures { IsRenewing level.old.level (count.old, numbers.old)
        (record { status = result; held = level.new.level; told = (count.new, numbers.new) }) }
{
    let Some(mut held) = level.take(alloc) else {
        return EMPTY;
    };
    if held.published() != held.length() {
        level.put(held);
        return NOT_YET;
    }
    let Ok(alive) = held.alive(alloc) else {
        level.put(held);
        return NO_MEMORY;
    };
    *count = alive.len();
    if numbers.len() < alive.len() {
        level.put(held);
        return NO_ROOM;
    }
    held.begin_again();
    level.put(held);
    lay_numbers(alive.as_slice(), numbers);
    OK
}

/// Opens the level of a triangle text, which is all of the bytes. A level that the handle held is closed then.
#[unsafe(no_mangle)]
pub extern "C" fn navd_open_triangles(
    alloc: Global,
    level: &mut NavdLevel,
    text: &[u8],
    fault: &mut NavdFault,
) -> u32
    ensures ends { (result ≡ status.ok) ⊎ ((result ≡ status.faulty) ⊎ ((result ≡ status.too_many_spans) ⊎ (result ≡ status.no_memory))) }
    ensures opened { result ≡ status.ok → HoldsRastered text.now level.new.level }
    ensures only { (setting : Setting) (header : ℕ) (tris : List Tri) (field : Field)
        → IsTriText text.now setting header tris → IsRaster setting tris field → length field.spans ≤ 2000000
        → ((result ≡ status.ok) × (level.new.level ≡ Some (first_state (ground_of setting field)))) ⊎ (result ≡ status.no_memory) }
    ensures many { result ≡ status.too_many_spans → HasTooMany text.now }
    ensures fault { result ≡ status.faulty → IsTextFault text.now (fault_of fault.new) }
    ensures told { (result ≡ status.faulty → ⊥) → fault.new ≡ fault.old }
    ensures kept { (result ≡ status.ok → ⊥) → level.new.level ≡ level.old.level }
{
    let text = match read_triangles(alloc, text) {
        Ok(text) => text,
        Err(FieldRefusal::Fault(first)) => {
            *fault = NavdFault {
                line: first.line,
                kind: first.kind,
            };
            return FAULTY;
        }
        Err(FieldRefusal::OutOfMemory) => return NO_MEMORY,
    };
    let field = match raster(alloc, &text.setting, text.tris.as_slice()) {
        Ok(field) => field,
        Err(RasterRefusal::TooManySpans) => return TOO_MANY_SPANS,
        Err(RasterRefusal::OutOfMemory) => return NO_MEMORY,
    };
    match level_of::<Brand>(alloc, text.setting, field, Blank::new(1)) {
        Ok(made) => {
            level.put(made);
            OK
        }
        Err(_) => NO_MEMORY,
    }
}
