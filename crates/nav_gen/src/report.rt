//! The summary of the play of a made input. Lines of words and numbers. Where memory is refused a part of a line may stand at the end. The
//! whole made input.

ghost use Rattle.std.specs.Prelude.{◌≡◌, ◌++◌, ◌∷◌, [], IfOk, OnOk, codes, ℕ, ◌≤◌, length};
ghost use Rattle.nav_text.specs.Lines.{ended, lines};
ghost use Rattle.nav_text.specs.Forms.{line_text};
ghost use Rattle.nav_gen.specs.Summary.{summary_text};
ghost use Rattle.nav_gen.specs.MadeField.{IsMadeSize};
ghost use Rattle.nav_gen.specs.MadeText.{made_text, IsMadeInput};

use crate::field::{Draws, push_field};
use crate::script::push_rounds;
use itoa::{Buffer, Integer};
use nav_record::Totals;
use std::alloc::{AllocError, Global};

/// How many bytes a summary has at most.
const SUMMARY_BYTES: usize = 256;

/// The six lines that tell what was made, how long its input is, and what its play came to.
pub fn summary(
    alloc: Global,
    number: u32,
    size: u32,
    bytes: u32,
    lines: u32,
    totals: &Totals,
) -> Result<Vec<u8>, AllocError>
    ensures { IfOk result (λ text. text.items ≡ summary_text number size bytes lines totals.now) }
{
    let mut text = Vec::with_capacity(alloc, SUMMARY_BYTES)?;
    push_summary(&mut text, (number, size), (bytes, lines), totals)?;
    Ok(text)
}

/// Appends the six lines for a number and a size, and an input of so many bytes and lines.
fn push_summary(
    out: &mut Vec<u8>,
    made: (u32, u32),
    input: (u32, u32),
    totals: &Totals,
) -> Result<(), AllocError>
    ensures { OnOk result (out.new.items ≡ out.old.items ++ summary_text made.0 made.1 input.0 input.1 totals.now) }
{
    push_line(out, b"gen", &[made.0, made.1])?;
    push_line(out, b"input", &[input.0, input.1])?;
    push_history(out, totals)?;
    push_questions(out, totals)?;
    push_cost(out, totals.cost)?;
    push_line(out, b"mesh", &[totals.polys, totals.links])
}

fn push_history(out: &mut Vec<u8>, totals: &Totals) -> Result<(), AllocError>
    ensures { OnOk result (out.new.items ≡ out.old.items
        ++ ended (line_text (codes "history") (totals.now.entries ∷ []) ++ line_text (codes " published") (totals.now.published ∷ []))) }
{
    push_word(out, b"history", totals.entries)?;
    push_line(out, b" published", &[totals.published])
}

fn push_questions(out: &mut Vec<u8>, totals: &Totals) -> Result<(), AllocError>
    ensures { OnOk result (out.new.items ≡ out.old.items
        ++ ended (line_text (codes "paths") (totals.now.paths ∷ []) ++ line_text (codes " nopath") (totals.now.nopath ∷ [])
        ++ line_text (codes " nostart") (totals.now.nostart ∷ []) ++ line_text (codes " nogoal") (totals.now.nogoal ∷ []))) }
{
    push_word(out, b"paths", totals.paths)?;
    push_word(out, b" nopath", totals.nopath)?;
    push_word(out, b" nostart", totals.nostart)?;
    push_line(out, b" nogoal", &[totals.nogoal])
}

fn push_cost(out: &mut Vec<u8>, cost: u64) -> Result<(), AllocError>
    ensures { OnOk result (out.new.items ≡ out.old.items ++ ended (line_text (codes "cost") (cost ∷ []))) }
{
    push_word(out, b"cost", cost)?;
    out.push(b'\n')?;
    Ok(())
}

/// Appends a word, a space and a number.
pub fn push_word<I: Integer>(out: &mut Vec<u8>, word: &[u8], number: I) -> Result<(), AllocError>
    ensures { OnOk result (out.new.items ≡ out.old.items ++ (word.now ++ 32 ∷ I.text number)) }
{
    let mut buffer = Buffer::new();
    out.extend_from_slice(word)?;
    out.push(b' ')?;
    out.extend_from_slice(buffer.format(number).as_bytes())
}

/// Appends the line of a word and numbers, each behind one space.
pub fn push_line(out: &mut Vec<u8>, word: &[u8], numbers: &[u32]) -> Result<(), AllocError>
    ensures { OnOk result (out.new.items ≡ out.old.items ++ ended (line_text word.now numbers.now)) }
{
    out.extend_from_slice(word)?;
    for number in numbers {
        push_word(out, b"", *number)?;
    }
    out.push(b'\n')?;
    Ok(())
}

/// How many bytes the line of a span has at most.
const SPAN_BYTES: usize = 21;
/// How many bytes all other lines have together at most.
const OTHER_BYTES: usize = 16384;

/// The input that a number and a size determine: a level of `size` by `size` columns, and a script to be played in it. `size` is 32 to 512.
/// The text has at most 67108864 bytes, as every input, and its room is taken at once.
pub fn make(alloc: Global, number: u32, size: u32) -> Result<Vec<u8>, AllocError>
    requires { IsMadeSize size }
    ensures text { IfOk result (λ text. text.items ≡ made_text number size) }
    // The text is in the grammar of inputs, and is no longer than these may be.
    ensures input { IsMadeInput number size }
    ensures short { length (made_text number size) ≤ 67108864 }
{
    write_input(alloc, number, size)
}

fn write_input(alloc: Global, number: u32, size: u32) -> Result<Vec<u8>, AllocError>
    requires { IsMadeSize size }
    ensures { IfOk result (λ text. text.items ≡ made_text number size) }
{
    let room = size as usize * size as usize * SPAN_BYTES + OTHER_BYTES;
    let mut text = Vec::with_capacity(alloc, room)?;
    let mut draws = Draws::new(number);
    push_field(&mut text, &mut draws, size)?;
    push_line(&mut text, b"script", &[1, 1])?;
    push_rounds(&mut text, &mut draws, size)?;
    Ok(text)
}

/// How many lines every made input of a size has.
pub fn line_count(size: u32) -> u32
    requires { IsMadeSize size }
    ensures { (number : ℕ) → result ≡ length (lines (made_text number size)) }
{
    size * size + 1345
}
