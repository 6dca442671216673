//! Two agents: whether they are apart, and whether their moves are clear of each other.

ghost use Rattle.std.specs.Prelude.{◌≡◌, ◌↔◌, ◌≤◌, ◌*◌, ◌^◌, All, IsTrue};
ghost use Rattle.crowd_moves.specs.Pairs;
ghost use Rattle.nav_base.specs.Point.{IsWithin, from_to};
ghost use Rattle.nav_base.specs.Deviation.{square_of};
ghost use Rattle.crowd_moves.specs.Pairs.{HasSizes, IsClear, IsMover, IsNear, IsSlowVector, gap_of};

use crate::agents::{CrowdAgent, CrowdMove};
use crate::beyond::stays_beyond;
use nav_base::Point;

/// Whether an agent's sizes are such as the other calls ask: parts of its place at most 2 ^ 20, radius and speed at most 8191.
pub fn has_sizes(agent: &CrowdAgent) -> bool
    ensures { IsTrue result ↔ HasSizes agent.now }
{
    let place = agent.at;
    place.x.unsigned_abs() <= 1048576
        && place.z.unsigned_abs() <= 1048576
        && agent.radius <= 8191
        && agent.speed <= 8191
}

/// Whether an agent has such sizes, and a move is no longer than its speed.
pub fn is_mover(agent: &CrowdAgent, made: &CrowdMove) -> bool
    ensures { IsTrue result ↔ IsMover agent.now made.now }
{
    if !has_sizes(agent) {
        return false;
    }
    is_slow(agent, made.by)
}

/// Whether a vector is no longer than an agent's speed.
pub(crate) fn is_slow(agent: &CrowdAgent, by: Point) -> bool
    requires { HasSizes agent.now }
    ensures { IsTrue result ↔ IsSlowVector agent.now by }
{
    square_length(by) <= square(agent.speed)
}

/// Whether two ranges of floors are a height or more apart.
fn are_storeys_apart(height: u32, first: (u32, u32), second: (u32, u32)) -> bool
    ensures { result ≡ Pairs.are_storeys_apart height first.0 first.1 second.0 second.1 }
{
    let height = u64::from(height);
    u64::from(first.1) + height <= u64::from(second.0)
        || u64::from(second.1) + height <= u64::from(first.0)
}

/// Whether two agents are apart: on other storeys, a height or more apart, or with discs that have no common inner point.
pub fn is_apart(height: u32, a: &CrowdAgent, b: &CrowdAgent) -> bool
    requires first { HasSizes a.now }
    requires second { HasSizes b.now }
    ensures { result ≡ Pairs.is_apart height a.now b.now }
{
    if are_storeys_apart(height, (a.low, a.high), (b.low, b.high)) {
        return true;
    }
    square(a.radius + b.radius) <= square_length(vector(a.at, b.at))
}

/// Whether an agent is apart from all of these.
pub fn has_room(agents: &[CrowdAgent], height: u32, agent: &CrowdAgent) -> bool
    requires agents { All HasSizes agents.now }
    requires agent { HasSizes agent.now }
    ensures { IsTrue result ↔ All (λ other. IsTrue (Pairs.is_apart height agent.now other)) agents.now }
{
    for other in agents {
        if !is_apart(height, agent, other) {
            return false;
        }
    }
    true
}

/// Whether the moves of two agents are clear of each other: they pass over other storeys, or the two keep apart at every moment of the step; where they
/// overlap now, they come no nearer.
pub fn is_clear(height: u32, a: &CrowdAgent, b: &CrowdAgent, m: &CrowdMove, n: &CrowdMove) -> bool
    requires first { IsMover a.now m.now }
    requires second { IsMover b.now n.now }
    ensures { IsTrue result ↔ IsClear height a.now b.now m.now n.now }
{
    if are_storeys_apart(height, (m.low, m.high), (n.low, n.high)) {
        return true;
    }
    if !is_near(a, b) {
        return true;
    }
    stays_beyond(vector(a.at, b.at), vector(m.by, n.by), gap(height, a, b))
}

/// Whether two agents could come to touch in one step.
pub(crate) fn is_near(a: &CrowdAgent, b: &CrowdAgent) -> bool
    requires first { HasSizes a.now }
    requires second { HasSizes b.now }
    ensures { IsTrue result ↔ IsNear a.now b.now }
{
    let reach = a.radius + b.radius + a.speed + b.speed;
    let way = vector(a.at, b.at);
    way.x.unsigned_abs() <= reach && way.z.unsigned_abs() <= reach
}

/// The square of the distance that two agents are to keep.
fn gap(height: u32, a: &CrowdAgent, b: &CrowdAgent) -> u32
    requires first { HasSizes a.now }
    requires second { HasSizes b.now }
    ensures value { result ≡ gap_of height a.now b.now }
    ensures small { result ≤ 2 ^ 30 }
{
    let touching = square(a.radius + b.radius);
    let distance = square_length(vector(a.at, b.at));
    if is_apart(height, a, b) {
        touching as u32
    } else {
        distance as u32
    }
}

/// The vector from one point to another.
fn vector(from: Point, to: Point) -> Point
    requires first { IsWithin (2 ^ 20) from }
    requires second { IsWithin (2 ^ 20) to }
    ensures value { result ≡ from_to from to }
    ensures small { IsWithin (2 ^ 21) result }
{
    Point {
        x: to.x - from.x,
        z: to.z - from.z,
    }
}

/// The square of the length of a vector.
#[tactic(auto, using(crate::proofs::PairLaws::squares_sum))]
fn square_length(v: Point) -> u64
    ensures { result ≡ square_of v }
{
    square(v.x.unsigned_abs()) + square(v.z.unsigned_abs())
}

/// The square of a number.
fn square(n: u32) -> u64
    requires { n ≤ 2 ^ 31 }
    ensures value { result ≡ n * n }
    ensures small { result ≤ 2 ^ 62 }
{
    let wide = n as u64;
    wide * wide
}
