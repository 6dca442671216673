//! Answers to questions for hop walks. What walkers are answered.

ghost use Rattle.std.specs.Prelude.{◌≡◌, ◌+◌, ◌≤◌, ◌++◌, length, IsOk, OnOk, OnErr, vec_len, vec_capacity};
ghost use Rattle.std.specs.List.{flat_map};
ghost use Rattle.nav_text.specs.Appends.{Appends};
ghost use Rattle.nav_record.specs.HopTexts.{found_text, hop_line_count, hop_line_text, hop_step_text, hop_text};
ghost use Rattle.nav_record.specs.OneLine.{HasLines, IsOneLine};
ghost use Rattle.nav_record.specs.WalkTexts.{no_walker_text, walk_line_count, walk_text, walker_text, walker_line_text};

use crate::answer::{append_link, append_links, append_turns};
use crate::append::{LineField, append, append_parts};
use mesh_types::{HopAnswer, HopFound, HopStep, Link, PolyRef, WalkAnswer};
use nav_base::Point;
use std::alloc::AllocError;

/// Appends the lines of an answer; `k` is the length of the version that was read. A hop walk has a line of its own, one for each link or jump
/// and one for each turn; every other answer is one line. Points are in sixteenths of a cell.
#[tactic(auto, using(crate::proofs::HopLines::hop_lines))]
pub fn write_hop(out: &mut Vec<u8>, k: u32, answer: &HopAnswer) -> Result<(), AllocError>
    ensures ok { OnOk result (out.new.items ≡ out.old.items ++ hop_text k answer.now) }
    ensures err { OnErr result (out.new.items ≡ out.old.items) }
    ensures room { vec_len out.old + length (hop_text k answer.now) ≤ vec_capacity out.old → IsOk result }
    // The text is whole lines: one, and for a hop walk one more for each step and each turn.
    ensures lines { HasLines (hop_text k answer.now) (hop_line_count answer.now) }
{
    let len = out.len();
    let written = append_hop(out, k, answer);
    if written.is_err() {
        out.truncate(len);
    }
    written
}

/// The same, but where memory is refused a part of the lines may stand at the end.
fn append_hop(out: &mut Vec<u8>, k: u32, answer: &HopAnswer) -> Result<(), AllocError>
    ensures { Appends out.old out.new result (hop_text k answer.now) }
{
    match answer {
        HopAnswer::Found(found) => append_found(out, k, found),
        HopAnswer::NoStart => append_parts(out, b"nostart", &[LineField::Number(k)], b"\n"),
        HopAnswer::NoGoal => append_parts(out, b"nogoal", &[LineField::Number(k)], b"\n"),
        HopAnswer::NoPath => append_parts(out, b"nopath", &[LineField::Number(k)], b"\n"),
    }
}

/// Appends the lines of a hop walk: its own, then one for each step, then one for each turn.
fn append_found(out: &mut Vec<u8>, k: u32, found: &HopFound) -> Result<(), AllocError>
    ensures { Appends out.old out.new result (found_text k found.now) }
{
    append_hop_line(out, k, found)?;
    append_steps(out, found.steps.as_slice())?;
    append_turns(out, found.turns.as_slice())
}

/// Appends the line of a hop walk: its cost, the polygon in which it begins, and how many steps and turns it has.
fn append_hop_line(out: &mut Vec<u8>, k: u32, found: &HopFound) -> Result<(), AllocError>
    ensures { Appends out.old out.new result (hop_line_text k found.now) }
{
    append_parts(
        out,
        b"hop",
        &[
            LineField::Number(k),
            LineField::Cost(found.cost),
            LineField::Polygon(found.first),
            LineField::Count(found.steps.len()),
            LineField::Count(found.turns.len()),
        ],
        b"\n",
    )
}

/// Appends a line for each step.
fn append_steps(out: &mut Vec<u8>, steps: &[HopStep]) -> Result<(), AllocError>
    ensures { Appends out.old out.new result (flat_map hop_step_text steps.now) }
{
    for step in steps {
        append_hop_step(out, step)?;
    }
    Ok(())
}

/// Appends the line of a link, or that of a jump: its number and the polygon that it enters.
fn append_hop_step(out: &mut Vec<u8>, step: &HopStep) -> Result<(), AllocError>
    ensures { Appends out.old out.new result (hop_step_text step.now) }
{
    match step {
        HopStep::Link(link) => append_link(out, link),
        HopStep::Jump { number, to } => append_parts(
            out,
            b"jump",
            &[LineField::Number(*number), LineField::Polygon(*to)],
            b"\n",
        ),
    }
}

/// Appends the lines of what a walker is answered; `k` is the length of the version that was read. A walker has a line of its own and one for
/// each link that leads on; every other answer is one line. Points are in sixteenths of a cell.
#[tactic(auto, using(crate::proofs::WalkLines::walk_lines))]
pub fn write_walk(out: &mut Vec<u8>, k: u32, answer: &WalkAnswer) -> Result<(), AllocError>
    ensures ok { OnOk result (out.new.items ≡ out.old.items ++ walk_text k answer.now) }
    ensures err { OnErr result (out.new.items ≡ out.old.items) }
    ensures room { vec_len out.old + length (walk_text k answer.now) ≤ vec_capacity out.old → IsOk result }
    // The text is whole lines: one, and for a walker one more for each link.
    ensures lines { HasLines (walk_text k answer.now) (walk_line_count answer.now) }
{
    let len = out.len();
    let written = append_walk(out, k, answer);
    if written.is_err() {
        out.truncate(len);
    }
    written
}

/// Appends the line of a march where there is no walker.
#[tactic(auto, using(crate::proofs::WalkLines::no_walker_line))]
pub fn write_no_walker(out: &mut Vec<u8>) -> Result<(), AllocError>
    ensures ok { OnOk result (out.new.items ≡ out.old.items ++ no_walker_text) }
    ensures err { OnErr result (out.new.items ≡ out.old.items) }
    ensures room { vec_len out.old + length no_walker_text ≤ vec_capacity out.old → IsOk result }
    // The text is one line.
    ensures line { IsOneLine no_walker_text }
{
    append(out, b"nowalker", &[], b"\n")
}

/// What `write_walk` appends, but where memory is refused a part of the lines may stand at the end.
fn append_walk(out: &mut Vec<u8>, k: u32, answer: &WalkAnswer) -> Result<(), AllocError>
    ensures { Appends out.old out.new result (walk_text k answer.now) }
{
    match answer {
        WalkAnswer::Walking {
            at,
            point,
            y: _,
            cost,
            links,
        } => append_walker(out, k, (*at, *point), *cost, links.as_slice()),
        WalkAnswer::NoStart => append_parts(out, b"nostart", &[LineField::Number(k)], b"\n"),
        WalkAnswer::NoGoal => append_parts(out, b"nogoal", &[LineField::Number(k)], b"\n"),
        WalkAnswer::NoPath => append_parts(out, b"nopath", &[LineField::Number(k)], b"\n"),
    }
}

/// Appends the lines of a walker that stands in a polygon at a point: its own, then one for each link.
fn append_walker(
    out: &mut Vec<u8>,
    k: u32,
    stand: (PolyRef, Point),
    cost: u64,
    links: &[Link],
) -> Result<(), AllocError>
    ensures { Appends out.old out.new result (walker_text k stand.0 stand.1 cost links.now) }
{
    append_walker_line(out, k, stand, cost, links.len())?;
    append_links(out, links)
}

/// Appends the line of a walker: the polygon and the point where it stands, its cost, and how many links lead on.
fn append_walker_line(
    out: &mut Vec<u8>,
    k: u32,
    stand: (PolyRef, Point),
    cost: u64,
    links: usize,
) -> Result<(), AllocError>
    ensures { Appends out.old out.new result (walker_line_text k stand.0 stand.1 cost links) }
{
    let (at, point) = stand;
    append_parts(
        out,
        b"walker",
        &[
            LineField::Number(k),
            LineField::Polygon(at),
            LineField::Place(point),
            LineField::Cost(cost),
            LineField::Count(links),
        ],
        b"\n",
    )
}
