//! Small fields of one tile, as texts.

ghost use Rattle.std.specs.Prelude.{◌≤◌};

use nav_ground::Span;
use span_text::write_span;
use std::alloc::{AllocError, Global};

/// What a field looks like: 6 by 6 columns with the top 10, as strips. The polygons 0 to 3 are the rows 1 to 4, on the columns 1 to 4, so in fine
/// points they lie from x 256 to x 1280, and the first from z 256 to z 512.
#[derive(Clone, Copy)]
pub(crate) enum Sketch {
    /// All columns have the area 63.
    Flat,
    /// The columns of the row 2, and so the polygon 1, have the area 5 and the top 12; all others have the area 63.
    Barred,
}

/// The lines before the spans.
const HEADER: &str = "nav 1\nsize 6 6\ntile 6\nagent 10 4 0\nerror 0\nmesh strips\nlimit 4\n";

/// Whether a row is the one of another area.
fn is_bar(sketch: Sketch, z: u32) -> bool {
    match sketch {
        Sketch::Barred => z == 2,
        Sketch::Flat => false,
    }
}

/// Writes the span of a column.
fn write_column(out: &mut Vec<u8>, sketch: Sketch, x: u32, z: u32) -> Result<(), AllocError>
    requires across { x ≤ 12 }
    requires along { z ≤ 12 }
{
    let bar = is_bar(sketch, z);
    let ground = Span {
        x,
        z,
        bottom: 0,
        top: if bar { 12 } else { 10 },
        area: if bar { 5 } else { 63 },
    };
    write_span(out, &ground)
}

/// The text of a field.
pub(crate) fn field_text(alloc: Global, sketch: Sketch) -> Result<Vec<u8>, AllocError> {
    let mut out = Vec::new(alloc);
    out.extend_from_slice(HEADER.as_bytes())?;
    for z in 0..6 {
        for x in 0..6 {
            write_column(&mut out, sketch, x, z)?;
        }
    }
    out.extend_from_slice(b"end\n")?;
    Ok(out)
}
