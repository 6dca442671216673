//! The agents as the steering sees them.

ghost use Rattle.std.specs.Prelude.{◌≡◌, IfOk, length};

use crate::steering::Steering;
use crate::vectors::{NOWHERE, Vector, dot, root, vector_of};
use crowd_moves::CrowdAgent;
use std::alloc::{AllocError, Global};

/// An agent with its steering.
#[derive(Clone, Copy)]
pub(crate) struct Walker {
    pub(crate) at: Vector,
    pub(crate) radius: i64,
    pub(crate) speed: i64,
    pub(crate) low: u32,
    pub(crate) high: u32,
    pub(crate) wish: Vector,
    pub(crate) wish_length: i64,
    pub(crate) last: Vector,
    pub(crate) meant: Vector,
    pub(crate) idle: bool,
    pub(crate) waited: u32,
    pub(crate) tired: u32,
    /// Who has a lesser one goes before others; of two with the same, the first.
    pub(crate) rank: u64,
}

/// The rank of the agents that are tired, and that of those that are idle, without the way left.
const TIRED: u64 = 1 << 60;

const IDLE: u64 = 1 << 62;

/// All agents with their steering.
pub(crate) fn walkers_of(
    alloc: Global,
    placed: &[CrowdAgent],
    steering: &[Steering],
) -> Result<Vec<Walker>, AllocError>
    requires { length steering.now ≡ length placed.now }
    ensures { IfOk result (λ walkers. length walkers.items ≡ length placed.now) }
{
    let mut walkers = Vec::with_capacity(alloc, placed.len())?;
    for i in 0..placed.len() {
        walkers.push(walker_of(&placed[i], &steering[i]))?;
    }
    Ok(walkers)
}

fn walker_of(agent: &CrowdAgent, own: &Steering) -> Walker {
    let wish = if own.idle {
        NOWHERE
    } else {
        vector_of(own.wish)
    };
    Walker {
        at: vector_of(agent.at),
        radius: i64::from(agent.radius),
        speed: i64::from(agent.speed),
        low: agent.low,
        high: agent.high,
        wish,
        wish_length: root(dot(wish, wish)),
        last: vector_of(own.last),
        meant: vector_of(own.meant),
        idle: own.idle,
        waited: own.waited,
        tired: own.tired,
        rank: own_rank(own),
    }
}

/// The rank of an agent by itself: by the way left, behind all others if it is tired, and behind those too if it is idle.
fn own_rank(own: &Steering) -> u64 {
    let left = own.left.min(TIRED - 1).saturating_add(16);
    if own.idle {
        return IDLE.saturating_add(left);
    }
    if own.tired > 0 {
        return TIRED.saturating_add(left);
    }
    left
}

/// Whether one of two agents goes before the other; the places decide between equal ranks.
pub(crate) fn goes_before(walkers: &[Walker], i: usize, j: usize) -> bool {
    let (Some(one), Some(other)) = (walkers.get(i), walkers.get(j)) else {
        return false;
    };
    one.rank < other.rank || one.rank == other.rank && i < j
}

/// Whether an agent's last move was at least half its speed.
pub(crate) fn is_fast(walker: &Walker) -> bool {
    let last = walker.last;
    let square = dot(last, last);
    square.wrapping_mul(4) >= walker.speed.wrapping_mul(walker.speed)
}
