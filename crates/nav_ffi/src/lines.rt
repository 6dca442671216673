//! The question for a shortest line, asked of what a view shows.

ghost use Rattle.std.specs.Prelude.{◌≡◌};
ghost use Rattle.line_handle.specs.Lines.{IsLineBy, LineRoom, line_asked, line_ends, told_line};
ghost use Rattle.nav_handle.specs.Answers.{EndsSo, IsAskedBy, seen_in};
ghost use Rattle.nav_handle.specs.Statuses as status;
ghost use Rattle.shortest_line.specs.Lines.{CanAskLine};

use line_handle::NavdLine;
use nav_handle::{NavdLink, NavdTurn, NavdView};
use std::alloc::Global;

/// A line between two places of the mesh that a view shows, as short as the search finds it, with a number below which no line comes.
#[unsafe(no_mangle)]
pub extern "C" fn navd_view_shortest(
    alloc: Global,
    view: &mut NavdView,
    line: &mut NavdLine,
    links: &mut [NavdLink],
    turns: &mut [NavdTurn],
) -> u32
    ensures asked { CanAskLine (line_asked line.old) → IsAskedBy (IsLineBy (line_asked line.old)) line_ends told_line (seen_in view.old.view)
        (line.old, links.old, turns.old) (line.new, links.new, turns.new) result }
    ensures refused { (CanAskLine (line_asked line.old) → ⊥)
        → EndsSo {Room = LineRoom} status.out_of_range (line.old, links.old, turns.old) (line.new, links.new, turns.new) result }
    ensures same { view.new.view ≡ view.old.view }
{
    line_handle::find_line(alloc, view, line, links, turns)
}
