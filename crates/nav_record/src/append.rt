//! Words with numbers and other fields behind them. `append` appends all or nothing; the others may leave a part where memory is refused.
ghost use Rattle.std.specs.Prelude.{◌≡◌, ◌+◌, ◌≤◌, ◌∷◌, ◌++◌, codes, length, IsOk, OnOk, OnErr, vec_len, vec_capacity};
ghost use Rattle.nav_record.specs.Appending.{field_text, fields_text};
ghost use Rattle.nav_text.specs.Appends.{Appends};

use itoa::Integer;
use mesh_types::{PolyRef, Side};
use nav_base::Point;
use nav_text::append_number;
use std::alloc::AllocError;

/// What a line tells behind its word.
#[derive(Clone, Copy)]
pub enum LineField {
    Number(u32),
    Cost(u64),
    Count(usize),
    Signed(i64),
    Polygon(PolyRef),
    Place(Point),
    Side(Side),
}

/// Appends a word, fields, each behind a space, and what ends them; or nothing where memory is refused.
pub fn append(
    out: &mut Vec<u8>,
    word: &[u8],
    fields: &[LineField],
    end: &[u8],
) -> Result<(), AllocError>
    ensures ok { OnOk result (out.new.items ≡ out.old.items ++ (fields_text word.now fields.now ++ end.now)) }
    ensures err { OnErr result (out.new.items ≡ out.old.items) }
    ensures room { vec_len out.old + length (fields_text word.now fields.now ++ end.now) ≤ vec_capacity out.old → IsOk result }
    ensures capacity { vec_capacity out.old ≤ vec_capacity out.new }
{
    let len = out.len();
    let written = append_parts(out, word, fields, end);
    if written.is_err() {
        out.truncate(len);
    }
    written
}

/// The same, but where memory is refused a part may stand at the end.
pub fn append_parts(
    out: &mut Vec<u8>,
    word: &[u8],
    fields: &[LineField],
    end: &[u8],
) -> Result<(), AllocError>
    ensures { Appends out.old out.new result (fields_text word.now fields.now ++ end.now) }
{
    append_fields(out, word, fields)?;
    out.extend_from_slice(end)
}

/// Appends a word and fields, each behind a space. Where memory is refused a part may stand at the end.
pub fn append_fields(out: &mut Vec<u8>, word: &[u8], fields: &[LineField]) -> Result<(), AllocError>
    ensures { Appends out.old out.new result (fields_text word.now fields.now) }
{
    out.extend_from_slice(word)?;
    for field in fields {
        append_field(out, *field)?;
    }
    Ok(())
}

fn append_field(out: &mut Vec<u8>, field: LineField) -> Result<(), AllocError>
    ensures { Appends out.old out.new result (field_text field) }
{
    match field {
        LineField::Number(number) => append_number(out, number),
        LineField::Cost(number) => append_number(out, number),
        LineField::Count(number) => append_number(out, number),
        LineField::Signed(number) => append_number(out, number),
        LineField::Polygon(at) => append_pair(out, at.tile, at.index),
        LineField::Place(at) => append_pair(out, at.x, at.z),
        LineField::Side(Side::L) => out.extend_from_slice(b" L"),
        LineField::Side(Side::R) => out.extend_from_slice(b" R"),
    }
}

fn append_pair<I: Integer>(out: &mut Vec<u8>, first: I, second: I) -> Result<(), AllocError>
    ensures { Appends out.old out.new result (32 ∷ (I.text first ++ codes " " ++ I.text second)) }
{
    append_number(out, first)?;
    append_number(out, second)
}
