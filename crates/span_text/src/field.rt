//! A whole field text.
ghost use Rattle.std.specs.Prelude.{◌≡◌, ℕ, ◌≤◌, List, [], ◌++◌, take, length, IfOk, Err};
ghost use Rattle.nav_ground.specs.declared.setting.Setting.{Setting};
ghost use Rattle.nav_ground.specs.declared.field.Field.{Field};
ghost use Rattle.nav_ground.specs.Limits.{IsSetting};
ghost use Rattle.nav_ground.specs.Fields.{IsField};
ghost use Rattle.nav_text.specs.declared.fault.TextFault.{TextFault};
ghost use Rattle.nav_text.specs.Lines.{lines, IsPast};
ghost use Rattle.nav_text.specs.Reading.{read, IsFirstFault};
ghost use Rattle.span_text.specs.FieldText.{IsFieldText};
ghost use Rattle.span_text.specs.FieldFormat.{field_of, field_format, AtNav, AtBody};
ghost use Rattle.span_text.specs.Outcome.{IsRead, Gives, text_with};

use crate::body::{BodyLine, next_line};
use crate::front::read_front;
use nav_ground::{Field, PackedSpan, Setting};
use nav_lists::Items;
use nav_text::{FaultKind, TextFault};
use std::alloc::Global;

/// A field text that was read.
#[derive(Drop)]
pub struct FieldText {
    /// What the lines before the spans say.
    pub setting: Setting,
    /// As wide and as deep as the setting says.
    pub field: Field,
    /// How many bytes the text has.
    pub used: usize,
    /// How many lines the text has.
    pub lines: u32,
}

/// Why no field text was read.
#[derive(Clone, Copy)]
pub enum FieldRefusal {
    /// The bytes do not begin with a field text.
    Fault(TextFault),
    OutOfMemory,
}

/// What is read of a whole text.
fn field_text(setting: Setting, spans: Vec<PackedSpan>, used: usize, lines: u32) -> FieldText
    ensures { result ≡ text_with setting spans.items used lines }
{
    let field = Field {
        width: setting.width,
        depth: setting.depth,
        spans: Items::from_vec(spans),
    };
    FieldText {
        setting,
        field,
        used,
        lines,
    }
}

/// The lines behind those of the setting, of which there are `front_lines`: costs, then spans, then the end.
fn read_body(
    alloc: Global,
    front: Setting,
    front_lines: u32,
    bytes: &[u8],
    body: &[u8],
) -> Result<FieldText, FieldRefusal>
    requires said { field_of bytes.now ≡ read field_format (AtBody front 0 []) front_lines (lines body.now) }
    requires past { IsPast bytes.now body.now front_lines }
    requires few { front_lines ≤ 8 }
    requires sides { (front.width ≤ 1024) × (front.depth ≤ 1024) }
    ensures { IsRead bytes.now result }
{
    let mut setting = front;
    let mut spans: Vec<PackedSpan> = Vec::new(alloc);
    let mut before = 0;
    let mut count = front_lines;
    let mut rest = body;
    while let Some((said, after)) = next_line(
        setting.width,
        setting.depth,
        before,
        spans.as_slice(),
        rest,
    ) {
        match said {
            BodyLine::Cost { area, cost } => {
                setting.costs[area as usize] = cost;
                before = area;
            }
            BodyLine::Spans(span) => {
                let small = PackedSpan::new(&span);
                if spans.push(small).is_err() {
                    return Err(FieldRefusal::OutOfMemory);
                }
            }
            BodyLine::End => {
                let used = bytes.len() - after.len();
                return Ok(field_text(setting, spans, used, count + 1));
            }
            BodyLine::Fails(kind) => {
                let fault = TextFault::new(count + 1, kind);
                return Err(FieldRefusal::Fault(fault));
            }
        }
        count += 1;
        rest = after;
    }
    Err(FieldRefusal::Fault(TextFault::new(count + 1, FaultKind::Unfinished)))
}

fn read_text(alloc: Global, bytes: &[u8]) -> Result<FieldText, FieldRefusal>
    ensures { IsRead bytes.now result }
{
    match read_front(bytes) {
        Ok((setting, count, body)) => read_body(alloc, setting, count, bytes, body),
        Err(fault) => Err(FieldRefusal::Fault(fault)),
    }
}

/// Reads the field text that the bytes begin with, and leaves what follows it. Memory is taken for the spans alone.
pub fn read_field(alloc: Global, bytes: &[u8]) -> Result<FieldText, FieldRefusal>
    // What is read is within its limits, and the bytes that it used spell it.
    ensures setting { IfOk result (λ text. IsSetting text.setting) }
    ensures field { IfOk result (λ text. IsField text.field) }
    ensures found { IfOk result
        (λ text. IsFieldText (take text.used bytes.now) text.setting text.field) }
    ensures used { IfOk result (λ text. text.used ≤ length bytes.now) }
    ensures lines { IfOk result (λ text. text.lines ≡ length (lines (take text.used bytes.now))) }

    // Bytes that begin with the text of a setting and a field are read as these.
    ensures only { (setting : Setting) (field : Field) (text rest : List ℕ)
        → IsSetting setting → IsField field → IsFieldText text setting field
        → bytes.now ≡ text ++ rest → Gives setting field (length text) result }

    // A fault is that of the first line that fails, given the lines before it.
    ensures first { (fault : TextFault) → result ≡ Err (FieldRefusal.Fault fault)
        → IsFirstFault field_format AtNav 0 (lines bytes.now) fault }
{
    read_text(alloc, bytes)
}
