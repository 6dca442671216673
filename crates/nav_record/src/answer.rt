//! Answers to questions. The floors of a column. Paths. Where memory is refused a part of the lines may stand at the end. What became of a
//! request.

ghost use Rattle.std.specs.Prelude.{◌≡◌, ◌+◌, ◌≤◌, ◌++◌, length, IsOk, OnOk, OnErr, vec_len, vec_capacity};
ghost use Rattle.nav_text.specs.Appends.{Appends};
ghost use Rattle.nav_record.specs.OneLine.{HasLines, IsOneLine};
ghost use Rattle.nav_record.specs.AnswerTexts.{answer_text, line_count, floors_text, link_text, turn_text, first_line_text, path_text};
ghost use Rattle.std.specs.List.{flat_map};
ghost use Rattle.nav_record.specs.EntryTexts.{reply_text};

use crate::append::{LineField, append_fields, append_parts};
use crate::entry::append_outcome;
use mesh_types::{Answer, Corner, Link, PathFound};
use nav_base::FloorAt;
use nav_ground::Reply;
use std::alloc::AllocError;

/// Appends the lines of an answer; `k` is the length of the version that was read. A path has a line of its own, one for each link and one
/// for each turn; every other answer is one line. Points are in sixteenths of a cell.
#[tactic(auto, using(crate::proofs::AnswerLines::answer_lines))]
pub fn write_answer(out: &mut Vec<u8>, k: u32, answer: &Answer) -> Result<(), AllocError>
    ensures ok { OnOk result (out.new.items ≡ out.old.items ++ answer_text k answer.now) }
    ensures err { OnErr result (out.new.items ≡ out.old.items) }
    ensures room { vec_len out.old + length (answer_text k answer.now) ≤ vec_capacity out.old → IsOk result }
    // The text is whole lines: one, and for a path one more for each link and each turn.
    ensures lines { HasLines (answer_text k answer.now) (line_count answer.now) }
{
    let len = out.len();
    let written = append_answer(out, k, answer);
    if written.is_err() {
        out.truncate(len);
    }
    written
}

/// The same, but where memory is refused a part of the lines may stand at the end.
fn append_answer(out: &mut Vec<u8>, k: u32, answer: &Answer) -> Result<(), AllocError>
    ensures { Appends out.old out.new result (answer_text k answer.now) }
{
    match answer {
        Answer::Floors(floors) => append_floors(out, k, floors.as_slice()),
        Answer::Path(found) => append_path(out, k, found),
        Answer::NoStart => append_parts(out, b"nostart", &[LineField::Number(k)], b"\n"),
        Answer::NoGoal => append_parts(out, b"nogoal", &[LineField::Number(k)], b"\n"),
        Answer::NoPath => append_parts(out, b"nopath", &[LineField::Number(k)], b"\n"),
        Answer::Reached(at) => append_parts(
            out,
            b"reached",
            &[LineField::Number(k), LineField::Polygon(*at)],
            b"\n",
        ),
        Answer::Wall { a, b, num, den } => append_parts(
            out,
            b"wall",
            &[
                LineField::Number(k),
                LineField::Place(*a),
                LineField::Place(*b),
                LineField::Signed(*num),
                LineField::Signed(*den),
            ],
            b"\n",
        ),
    }
}

/// Appends the line of a column's floors, in the order given: the length `k` of the version that was read, how many floors there are,
/// and the height and the area of each. Where memory is refused a part of the line may stand at the end.
pub fn append_floors(out: &mut Vec<u8>, k: u32, floors: &[FloorAt]) -> Result<(), AllocError>
    ensures { Appends out.old out.new result (floors_text k floors.now) }
{
    append_fields(
        out,
        b"floors",
        &[LineField::Number(k), LineField::Count(floors.len())],
    )?;
    for floor in floors {
        append_fields(
            out,
            b"",
            &[LineField::Number(floor.y), LineField::Number(floor.area)],
        )?;
    }
    out.extend_from_slice(b"\n")
}

/// Appends the lines of a path: its own, then one for each link, then one for each turn.
pub fn append_path(out: &mut Vec<u8>, k: u32, found: &PathFound) -> Result<(), AllocError>
    ensures { Appends out.old out.new result (path_text k found.now) }
{
    append_first_line(out, k, found)?;
    append_links(out, found.links.as_slice())?;
    append_turns(out, found.turns.as_slice())
}

/// Appends the line of a path: its cost, the polygon in which it begins, and how many links and turns it has.
fn append_first_line(out: &mut Vec<u8>, k: u32, found: &PathFound) -> Result<(), AllocError>
    ensures { Appends out.old out.new result (first_line_text k found.now) }
{
    append_parts(
        out,
        b"path",
        &[
            LineField::Number(k),
            LineField::Cost(found.cost),
            LineField::Polygon(found.first),
            LineField::Count(found.links.len()),
            LineField::Count(found.turns.len()),
        ],
        b"\n",
    )
}

/// Appends a line for each link: the polygon that it enters, and the left and the right end of its portal.
pub(crate) fn append_links(out: &mut Vec<u8>, links: &[Link]) -> Result<(), AllocError>
    ensures { Appends out.old out.new result (flat_map link_text links.now) }
{
    for link in links {
        append_link(out, link)?;
    }
    Ok(())
}

/// Appends the line of a link.
pub(crate) fn append_link(out: &mut Vec<u8>, link: &Link) -> Result<(), AllocError>
    ensures { Appends out.old out.new result (link_text link.now) }
{
    append_parts(
        out,
        b"link",
        &[
            LineField::Polygon(link.to),
            LineField::Place(link.portal.left),
            LineField::Place(link.portal.right),
        ],
        b"\n",
    )
}

/// Appends a line for each turn: where it is, at which end of which portal.
pub(crate) fn append_turns(out: &mut Vec<u8>, turns: &[Corner]) -> Result<(), AllocError>
    ensures { Appends out.old out.new result (flat_map turn_text turns.now) }
{
    for turn in turns {
        append_turn(out, turn)?;
    }
    Ok(())
}

fn append_turn(out: &mut Vec<u8>, turn: &Corner) -> Result<(), AllocError>
    ensures { Appends out.old out.new result (turn_text turn.now) }
{
    append_parts(
        out,
        b"turn",
        &[
            LineField::Place(turn.at),
            LineField::Side(turn.side),
            LineField::Number(turn.portal),
        ],
        b"\n",
    )
}

/// Appends the line of a request's reply; `number` is that of the request's entry in the history.
#[tactic(auto, using(crate::proofs::OneLineLaws::reply_line))]
pub fn write_reply(out: &mut Vec<u8>, number: u32, reply: &Reply) -> Result<(), AllocError>
    ensures ok { OnOk result (out.new.items ≡ out.old.items ++ reply_text number reply.now) }
    ensures err { OnErr result (out.new.items ≡ out.old.items) }
    ensures room { vec_len out.old + length (reply_text number reply.now) ≤ vec_capacity out.old → IsOk result }
    // The text is one line.
    ensures line { IsOneLine (reply_text number reply.now) }
{
    let len = out.len();
    let written = append_reply(out, number, reply);
    if written.is_err() {
        out.truncate(len);
    }
    written
}

/// The same, but where memory is refused a part of the line may stand at the end.
fn append_reply(out: &mut Vec<u8>, number: u32, reply: &Reply) -> Result<(), AllocError>
    ensures { Appends out.old out.new result (reply_text number reply.now) }
{
    append_fields(out, b"entry", &[LineField::Number(number)])?;
    append_outcome(out, reply)
}
