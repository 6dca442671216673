//! Small fields of one tile, as texts.

ghost use Rattle.std.specs.Prelude.{◌≤◌};

use nav_ground::Span;
use span_text::write_span;
use std::alloc::{AllocError, Global};

/// What a field looks like.
#[derive(Clone, Copy)]
pub(crate) enum Sketch {
    /// 6 by 6 columns with the top 10, as strips: the polygons 0 to 3 are the rows 1 to 4, on the columns 1 to 4.
    Flat,
    /// 8 by 6 columns, of which the column x has the top 10 + 2 x, as outlines: one polygon on the columns 1 to 6 and the rows 1 to 4.
    Ramp,
    /// 12 by 12 columns with the top 10, as outlines, and in the columns and rows 3 to 8 a deck with the top 32: the polygon 0 is the
    /// ground, the polygon 1 the deck, on the columns and rows 4 to 7, of the area 5.
    Deck,
    /// 10 by 10 columns with the top 10, walkable where 2 x + z < 16, as outlines that may stray: one polygon with the corners (1, 1), (8, 2),
    /// (4, 9) and (1, 9), over 40 cells.
    Slant,
    /// 11 by 11 columns with the top 10, as strips, and in the column 5 a wall in the rows 0 to 7: the polygons 0 to 13 are the rows 1 to 7,
    /// on the columns 1 to 4 and on 6 to 9, the polygons 14 and 15 the rows 8 and 9, on the columns 1 to 9.
    Wall,
}

/// The lines before the spans.
fn header(sketch: Sketch) -> &'static str {
    match sketch {
        Sketch::Flat => { "nav 1\nsize 6 6\ntile 6\nagent 6 4 0\nerror 0\nmesh strips\nlimit 4\n" }
        Sketch::Ramp => {
            "nav 1\nsize 8 6\ntile 8\nagent 6 4 0\nerror 0\nmesh contours\nlimit 4\n"
        }
        Sketch::Deck => {
            "nav 1\nsize 12 12\ntile 12\nagent 6 4 0\nerror 0\nmesh contours\nlimit 4\n"
        }
        Sketch::Slant => {
            "nav 1\nsize 10 10\ntile 10\nagent 6 4 0\nerror 169\nmesh contours\nlimit 4\n"
        }
        Sketch::Wall => {
            "nav 1\nsize 11 11\ntile 11\nagent 6 4 0\nerror 0\nmesh strips\nlimit 4\n"
        }
    }
}

/// How many columns there are along x and along z.
fn size(sketch: Sketch) -> (u32, u32)
    ensures wide { (1 ≤ result.0) × (result.0 ≤ 12) }
    ensures deep { (1 ≤ result.1) × (result.1 ≤ 12) }
{
    match sketch {
        Sketch::Flat => (6, 6),
        Sketch::Ramp => (8, 6),
        Sketch::Deck => (12, 12),
        Sketch::Slant => (10, 10),
        Sketch::Wall => (11, 11),
    }
}

/// Whether the deck stands over a column.
fn has_deck(sketch: Sketch, x: u32, z: u32) -> bool {
    match sketch {
        Sketch::Deck => 3 <= x && x <= 8 && 3 <= z && z <= 8,
        _ => false,
    }
}

/// The top of the land in a column.
fn land(sketch: Sketch, x: u32) -> u32
    requires { x ≤ 12 }
{
    match sketch {
        Sketch::Ramp => 10 + 2 * x,
        _ => 10,
    }
}

/// The area of the land in a column; 0 where it is not walkable.
fn area(sketch: Sketch, x: u32, z: u32) -> u32
    requires across { x ≤ 12 }
    requires along { z ≤ 12 }
{
    match sketch {
        Sketch::Slant if 2 * x + z >= 16 => 0,
        Sketch::Wall if x == 5 && z < 8 => 0,
        _ => 63,
    }
}

/// Writes the spans of a column.
fn write_column(out: &mut Vec<u8>, sketch: Sketch, x: u32, z: u32) -> Result<(), AllocError>
    requires across { x ≤ 12 }
    requires along { z ≤ 12 }
{
    let ground = Span {
        x,
        z,
        bottom: 0,
        top: land(sketch, x),
        area: area(sketch, x, z),
    };
    write_span(out, &ground)?;
    if !has_deck(sketch, x, z) {
        return Ok(());
    }
    let deck = Span {
        x,
        z,
        bottom: 30,
        top: 32,
        area: 5,
    };
    write_span(out, &deck)
}

/// The text of a field.
pub(crate) fn field_text(alloc: Global, sketch: Sketch) -> Result<Vec<u8>, AllocError> {
    let mut out = Vec::new(alloc);
    out.extend_from_slice(header(sketch).as_bytes())?;
    let (width, depth) = size(sketch);
    for z in 0..depth {
        for x in 0..width {
            write_column(&mut out, sketch, x, z)?;
        }
    }
    out.extend_from_slice(b"end\n")?;
    Ok(out)
}
