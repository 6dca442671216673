//! Lines between two places, as short as the search finds them.

ghost use Rattle.std.specs.Prelude.{◌≡◌, Option};
ghost use Rattle.mesh_types.specs.declared.mesh.Mesh.{Mesh};
ghost use Rattle.nav_handle.specs.Answers.{EndsSo, IsAskedBy, IsRepliedBy};
ghost use Rattle.nav_handle.specs.Statuses as status;
ghost use Rattle.line_handle.specs.Lines.{IsLineBy, LineRoom, line_asked, line_ends, line_found, told_line};
ghost use Rattle.shortest_line.specs.declared.query.LineQuery.{LineQuery};
ghost use Rattle.shortest_line.specs.Lines.{CanAskLine};

use nav_handle::{
    HasMesh, NO_GOAL, NO_PATH, NO_START, NavdLink, NavdPolygon, NavdTurn, NavdWay, OK,
    OUT_OF_RANGE, is_way, lay_links, lay_turns, point_of, polygon_told,
};
use shortest_line::{LineFound, LineQuery, ShortestAnswer};
use std::alloc::Global;

/// A line was found, which may be longer than the shortest: by no more than lies between its two numbers.
pub const ABOUT: u32 = 26;

/// From where to where a line leads, with the heights that say in which storeys; after how many records its search ends, and whether it passes over
/// ends of portals that the mesh surrounds (not 0), which the host writes. And what is found, which the call tells: the line is not longer than
/// `upper`, and no line over the links of the mesh is shorter than `lower`, both in 65536ths of a cell; the polygons in which it begins and ends, and
/// how many links and turns it has.
#[repr(C)]
#[derive(Clone, Copy)]
pub struct NavdLine {
    pub way: NavdWay,
    pub most: u32,
    pub quick: u32,
    pub upper: u64,
    pub lower: u64,
    pub first: NavdPolygon,
    pub last: NavdPolygon,
    pub links: usize,
    pub turns: usize,
}

/// The question for a line.
fn query_of(line: &NavdLine) -> LineQuery
    ensures { result ≡ line_asked line.now }
{
    LineQuery {
        from: point_of(line.way.from),
        from_y: line.way.from_y,
        goal: point_of(line.way.to),
        goal_y: line.way.to_y,
        most: line.most,
        quick: line.quick != 0,
    }
}

/// How the question for a line ends with an answer.
fn line_status(answer: &ShortestAnswer) -> u32
    ensures { result ≡ line_ends answer.now }
{
    match answer {
        ShortestAnswer::Shortest(_) => OK,
        ShortestAnswer::Line(_) => ABOUT,
        ShortestAnswer::NoStart => NO_START,
        ShortestAnswer::NoGoal => NO_GOAL,
        ShortestAnswer::NoPath => NO_PATH,
    }
}

/// Tells a line with its links and turns.
fn tell_found(
    found: &LineFound,
    line: &mut NavdLine,
    links: &mut [NavdLink],
    turns: &mut [NavdTurn],
)
    ensures { (line.new, links.new, turns.new) ≡ line_found found.now (line.old, links.old, turns.old) }
{
    lay_links(found.links.as_slice(), links);
    lay_turns(found.turns.as_slice(), turns);
    line.upper = found.upper;
    line.lower = found.lower;
    line.first = polygon_told(found.first);
    line.last = polygon_told(found.last);
    line.links = found.links.len();
    line.turns = found.turns.len();
}

/// Tells a line, if the answer has one.
fn tell_line(
    answer: &ShortestAnswer,
    line: &mut NavdLine,
    links: &mut [NavdLink],
    turns: &mut [NavdTurn],
)
    ensures { (line.new, links.new, turns.new) ≡ told_line answer.now (line.old, links.old, turns.old) }
{
    match answer {
        ShortestAnswer::Shortest(found) => tell_found(found, line, links, turns),
        ShortestAnswer::Line(found) => tell_found(found, line, links, turns),
        ShortestAnswer::NoStart => {}
        ShortestAnswer::NoGoal => {}
        ShortestAnswer::NoPath => {}
    }
}

/// How the question for a line ends.
fn end_line(
    answer: Result<ShortestAnswer, u32>,
    line: &mut NavdLine,
    links: &mut [NavdLink],
    turns: &mut [NavdTurn],
) -> u32
    ensures { (held : Option Mesh) (asked : LineQuery) → IsRepliedBy (IsLineBy asked) held answer
        → IsAskedBy (IsLineBy asked) line_ends told_line held (line.old, links.old, turns.old) (line.new, links.new, turns.new) result }
{
    match answer {
        Ok(answer) => {
            tell_line(&answer, line, links, turns);
            line_status(&answer)
        }
        Err(status) => status,
    }
}

/// A line between two places of the mesh of a handle, as short as the search finds it.
pub fn find_line<H: HasMesh>(
    alloc: Global,
    held: &mut H,
    line: &mut NavdLine,
    links: &mut [NavdLink],
    turns: &mut [NavdTurn],
) -> u32
    ensures asked { CanAskLine (line_asked line.old) → IsAskedBy (IsLineBy (line_asked line.old)) line_ends told_line (H.mesh_in held.old)
        (line.old, links.old, turns.old) (line.new, links.new, turns.new) result }
    ensures refused { (CanAskLine (line_asked line.old) → ⊥)
        → EndsSo {Room = LineRoom} status.out_of_range (line.old, links.old, turns.old) (line.new, links.new, turns.new) result }
    ensures same { H.is_same held.old held.new }
{
    if !is_way(&line.way) {
        return OUT_OF_RANGE;
    }
    let asked = query_of(line);
    let answer = held.ask_by(alloc, &asked);
    end_line(answer, line, links, turns)
}
