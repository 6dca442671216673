//! The space in which agents move.

use crate::agents::{CrowdAgent, CrowdMove};
use nav_base::Point;

/// A space in which agents move: it tells where a straight way leads, and whether it may be gone.
pub trait MoveSpace {
    ghost use Rattle.std.specs.Prelude.{◌≡◌, IfSome, IfNone};
    ghost use Rattle.nav_base.specs.declared.point.Point.{Point};
    ghost use Rattle.crowd_moves.specs.declared.agents.CrowdAgent.{CrowdAgent};
    ghost use Rattle.crowd_moves.specs.declared.agents.CrowdMove.{CrowdMove};
    ghost use Rattle.crowd_moves.specs.Pairs.{HasSizes, IsSlowVector, standing};

    /// What holds of an agent of which the space may be asked.
    ghost knows: { Self → CrowdAgent → Type 0 };

    /// It lets an agent make a move.
    ghost lets: { Self → CrowdAgent → CrowdMove → Type 0 };

    /// The move that it lets an agent make by a vector; none exactly where there is none.
    fn way(&self, agent: &CrowdAgent, by: Point) -> Option<CrowdMove>
        requires known { knows self.now agent.now }
        requires sizes { HasSizes agent.now }
        requires slow { IsSlowVector agent.now by }
        ensures by { IfSome result (λ made. made.by ≡ by) }
        ensures lets { IfSome result (λ made. lets self.now agent.now made) }
        ensures one { IfSome result (λ made. (other : CrowdMove) → other.by ≡ by → lets self.now agent.now other → other ≡ made) }
        ensures none { IfNone result ((made : CrowdMove) → made.by ≡ by → lets self.now agent.now made → ⊥) };

    /// The move of an agent that stands. It lets each one stand.
    fn stay(&self, agent: &CrowdAgent) -> CrowdMove
        requires known { knows self.now agent.now }
        requires sizes { HasSizes agent.now }
        ensures stands { result ≡ standing agent.now }
        ensures lets { lets self.now agent.now result };
}
