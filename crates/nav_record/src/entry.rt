//! Entries of the history. The lines of a live text that stand between the lines of its lanes. The last line of a play. Faults of the
//! input, as the output tells them.

ghost use Rattle.std.specs.Prelude.{◌≡◌, ◌+◌, ◌≤◌, [], ◌∷◌, ◌++◌, length, codes, IsOk, OnOk, OnErr, vec_len, vec_capacity};
ghost use Rattle.nav_text.specs.Appends.{Appends};
ghost use Rattle.nav_record.specs.OneLine.{IsOneLine};
ghost use Rattle.nav_record.specs.EntryTexts.{entry_text, outcome_text, request_spelling};
ghost use Rattle.nav_text.specs.Forms.{line_text};
ghost use Rattle.nav_script.specs.Spelling.{shape_spelling};
ghost use Rattle.nav_record.specs.FrameTexts.{history_text, lane_text, final_text, done_text, fault_text};

use crate::append::{LineField, append, append_parts};
use nav_ground::{Entry, Reply, Request, Shape};
use nav_text::{TextFault, append_line};
use std::alloc::AllocError;

/// Appends the line of an entry of the history: its number, the lane that made the request, the request, and what became of it.
#[tactic(auto, using(crate::proofs::OneLineLaws::entry_line))]
pub fn write_entry(out: &mut Vec<u8>, number: u32, entry: &Entry) -> Result<(), AllocError>
    ensures ok { OnOk result (out.new.items ≡ out.old.items ++ entry_text number entry.now) }
    ensures err { OnErr result (out.new.items ≡ out.old.items) }
    ensures room { vec_len out.old + length (entry_text number entry.now) ≤ vec_capacity out.old → IsOk result }
    // The text is one line.
    ensures line { IsOneLine (entry_text number entry.now) }
{
    let len = out.len();
    let written = append_entry(out, number, entry);
    if written.is_err() {
        out.truncate(len);
    }
    written
}

/// The same, but where memory is refused a part of the line may stand at the end.
fn append_entry(out: &mut Vec<u8>, number: u32, entry: &Entry) -> Result<(), AllocError>
    ensures { Appends out.old out.new result (entry_text number entry.now) }
{
    append_parts(
        out,
        b"entry",
        &[LineField::Number(number), LineField::Number(entry.lane)],
        b" ",
    )?;
    append_request(out, &entry.request)?;
    append_outcome(out, &entry.reply)
}

fn append_request(out: &mut Vec<u8>, request: &Request) -> Result<(), AllocError>
    ensures { Appends out.old out.new result (request_spelling request.now) }
{
    match *request {
        Request::Add(shape) => append_shape(out, &shape),
        Request::Remove(number) => append_line(out, b"remove", &[number]),
    }
}

fn append_shape(out: &mut Vec<u8>, shape: &Shape) -> Result<(), AllocError>
    ensures { Appends out.old out.new result (shape_spelling shape.now) }
{
    match *shape {
        Shape::Block {
            x0,
            x1,
            y0,
            y1,
            z0,
            z1,
        } => append_line(out, b"add block", &[x0, x1, y0, y1, z0, z1]),
        Shape::Cylinder { cx, cz, r, y0, y1 } => append_line(
            out,
            b"add cylinder",
            &[cx, cz, r, y0, y1],
        ),
        Shape::AreaBlock {
            area,
            x0,
            x1,
            y0,
            y1,
            z0,
            z1,
        } => append_area(out, area, b" block", &[x0, x1, y0, y1, z0, z1]),
        Shape::AreaCylinder {
            area,
            cx,
            cz,
            r,
            y0,
            y1,
        } => append_area(out, area, b" cylinder", &[cx, cz, r, y0, y1]),
        Shape::Prism { .. } => out.extend_from_slice(b"add prism"),
        Shape::Disc { .. } => out.extend_from_slice(b"add disc"),
    }
}

/// Appends an area shape: its area, its kind and its numbers.
fn append_area(out: &mut Vec<u8>, area: u32, kind: &[u8], numbers: &[u32]) -> Result<(), AllocError>
    ensures { Appends out.old out.new result (line_text (codes "add area") (area ∷ []) ++ line_text kind.now numbers.now) }
{
    append_line(out, b"add area", &[area])?;
    append_line(out, kind, numbers)
}

/// Appends what became of a request, and the end of its line. Where memory is refused a part may stand at the end.
pub fn append_outcome(out: &mut Vec<u8>, reply: &Reply) -> Result<(), AllocError>
    ensures { Appends out.old out.new result (outcome_text reply.now) }
{
    match *reply {
        Reply::Added { .. } => out.extend_from_slice(b" added\n"),
        Reply::Removed => out.extend_from_slice(b" removed\n"),
        Reply::Full { live } => append_parts(out, b" full", &[LineField::Number(live)], b"\n"),
        Reply::Dead { number } => append_parts(out, b" dead", &[LineField::Number(number)], b"\n"),
    }
}

/// Appends the line that begins a live text: the history's length.
#[tactic(auto, using(crate::proofs::OneLineLaws::history_line))]
pub fn write_history(out: &mut Vec<u8>, n: u32) -> Result<(), AllocError>
    ensures ok { OnOk result (out.new.items ≡ out.old.items ++ history_text n) }
    ensures err { OnErr result (out.new.items ≡ out.old.items) }
    ensures room { vec_len out.old + length (history_text n) ≤ vec_capacity out.old → IsOk result }
    // The text is one line.
    ensures line { IsOneLine (history_text n) }
{
    append(out, b"history", &[LineField::Number(n)], b"\n")
}

/// Appends the line that names the lane whose lines follow.
#[tactic(auto, using(crate::proofs::OneLineLaws::lane_line))]
pub fn write_lane(out: &mut Vec<u8>, lane: u32) -> Result<(), AllocError>
    ensures ok { OnOk result (out.new.items ≡ out.old.items ++ lane_text lane) }
    ensures err { OnErr result (out.new.items ≡ out.old.items) }
    ensures room { vec_len out.old + length (lane_text lane) ≤ vec_capacity out.old → IsOk result }
    // The text is one line.
    ensures line { IsOneLine (lane_text lane) }
{
    append(out, b"lane", &[LineField::Number(lane)], b"\n")
}

/// Appends the line that ends a live text: the final length, and how many polygons and directed links the final mesh has.
#[tactic(auto, using(crate::proofs::OneLineLaws::final_line))]
pub fn write_final(out: &mut Vec<u8>, n: u32, polygons: u32, links: u32) -> Result<(), AllocError>
    ensures ok { OnOk result (out.new.items ≡ out.old.items ++ final_text n polygons links) }
    ensures err { OnErr result (out.new.items ≡ out.old.items) }
    ensures room { vec_len out.old + length (final_text n polygons links) ≤ vec_capacity out.old → IsOk result }
    // The text is one line.
    ensures line { IsOneLine (final_text n polygons links) }
{
    append(
        out,
        b"final",
        &[
            LineField::Number(n),
            LineField::Number(polygons),
            LineField::Number(links),
        ],
        b"\n",
    )
}

/// Appends the line that ends a play: the published length `k` and the history's length `n`.
#[tactic(auto, using(crate::proofs::OneLineLaws::done_line))]
pub fn write_done(out: &mut Vec<u8>, k: u32, n: u32) -> Result<(), AllocError>
    ensures ok { OnOk result (out.new.items ≡ out.old.items ++ done_text k n) }
    ensures err { OnErr result (out.new.items ≡ out.old.items) }
    ensures room { vec_len out.old + length (done_text k n) ≤ vec_capacity out.old → IsOk result }
    // The text is one line.
    ensures line { IsOneLine (done_text k n) }
{
    append(
        out,
        b"done",
        &[LineField::Number(k), LineField::Number(n)],
        b"\n",
    )
}

/// Appends the line of a fault: the line that fails, and the number of the fault's kind.
#[tactic(auto, using(crate::proofs::OneLineLaws::fault_line))]
pub fn write_fault(out: &mut Vec<u8>, fault: &TextFault) -> Result<(), AllocError>
    ensures ok { OnOk result (out.new.items ≡ out.old.items ++ fault_text fault.now) }
    ensures err { OnErr result (out.new.items ≡ out.old.items) }
    ensures room { vec_len out.old + length (fault_text fault.now) ≤ vec_capacity out.old → IsOk result }
    // The text is one line.
    ensures line { IsOneLine (fault_text fault.now) }
{
    append(
        out,
        b"fault",
        &[LineField::Number(fault.line), LineField::Number(fault.kind)],
        b"\n",
    )
}
