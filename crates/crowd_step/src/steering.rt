//! What an agent wishes, and what it remembers from step to step.

ghost use Rattle.crowd_step.specs.Kept.{KeepsWish};

use crate::vectors::{Vector, dot, minus, point_of, square, vector_of};
use crowd_moves::CrowdAgent;
use nav_base::Point;

/// The steering of one agent. Vectors and lengths are in fine units, vectors by step.
#[derive(Clone, Copy)]
pub struct Steering {
    /// The way that it would like to go in the next step.
    pub wish: Point,
    /// How far its goal is. Who has less to go goes before others.
    pub left: u64,
    /// It wishes for nothing, and makes room for all others.
    pub idle: bool,
    /// The steps' own, 0 at first: the move that it made last, and the one that it would have liked best.
    pub last: Point,
    pub meant: Point,
    /// The steps' own: for how many steps it waits, and for how many more it is tired of waiting.
    pub waited: u32,
    pub tired: u32,
}

/// The rules of a crowd's steps.
#[derive(Clone, Copy)]
pub struct CrowdRules {
    /// How far an agent sees, in fine units; up to 16384.
    pub sight: u32,
    /// Steps a second, from 1 to 1000.
    pub hz: u32,
    /// In how many rounds moves are granted at most; from 1 to 64.
    pub rounds: u32,
}

/// What an agent thought when it chose.
#[derive(Clone, Copy)]
pub(crate) struct Thought {
    /// The move that it would have liked best, of those that the mesh lets it make.
    pub(crate) meant: Vector,
    /// Nobody that it looks at goes before it.
    pub(crate) leads: bool,
}

/// After how many seconds of waiting one that leads is tired, and for how many seconds.
const PATIENCE: u32 = 3;

const REST: u32 = 2;

/// An agent's steering after a step.
pub(crate) fn remembered(
    rules: CrowdRules,
    from: Point,
    agent: &CrowdAgent,
    thought: Thought,
    had: Steering,
) -> Steering
    ensures { KeepsWish had result }
{
    let made = minus(vector_of(agent.at), vector_of(from));
    let mut own = had;
    own.last = point_of(made);
    own.meant = point_of(thought.meant);
    let creep = square(i64::from(agent.speed / 8));
    own.waited = if own.idle || dot(made, made) > creep {
        0
    } else {
        own.waited.saturating_add(1)
    };
    own.tired = own.tired.saturating_sub(1);
    let patience = rules.hz.saturating_mul(PATIENCE);
    if had.tired == 0 && thought.leads && own.waited >= patience {
        // One that waited longer began to lead just now, and is not tired of it.
        if own.waited == patience {
            own.tired = rules.hz.saturating_mul(REST);
        }
        own.waited = 1;
    }
    own
}
