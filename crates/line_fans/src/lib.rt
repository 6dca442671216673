//! The law of fans: which lines through a row of portals are the shortest.
//!
//! A line goes from a start over a point of each portal to a goal. From its last corner it sees a part of the next portal, a cone; where it bends, it
//! bends at an end of a portal, and other cones come of the first. All cones of a portal are its fan. The call here does nothing; it ensures that one
//! cone of the fan of the last portal tells a way to the goal than which no line over the portals is shorter, by more than what the rounding down of its
//! legs takes away. So who takes all cones of all walks misses no shorter line.
#![tactic(auto)]

ghost use Rattle.std.specs.Prelude.{List};
ghost use Rattle.nav_base.specs.declared.point.Point.{Point};
ghost use Rattle.mesh_types.specs.Chains.{IsBehind};
ghost use Rattle.mesh_types.specs.declared.links.Portal.{Portal};
ghost use Rattle.line_fans.specs.Fans.{StandInRow, TellsShortest};

/// Over portals that stand in a row, from what lies behind the first or on its line to what lies ahead of the last or on its line, the fan tells a
/// shortest way.
#[tactic(auto, using(crate::proofs::FanLines::fan_tells))]
pub fn fans_tell_shortest_ways()
    ensures { (start goal : Point) (portal : Portal) (rest : List Portal) → IsBehind portal start → StandInRow portal rest goal
        → TellsShortest start portal rest goal }
{}
