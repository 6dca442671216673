//! Whom each agent sees: the eight nearest of its storey.

ghost use Rattle.std.specs.Prelude.{◌≡◌, ◌<◌, ◌^◌, All, IfOk, length};
ghost use Rattle.crowd_moves.specs.Pairs.{HasSizes};

use crate::vectors::{dot, minus};
use crate::walkers::Walker;
use crowd_moves::{Contacts, CrowdAgent, find_contacts};
use std::alloc::{AllocError, Global};

/// How many others an agent looks at.
const MOST_SEEN: usize = 8;

/// For each agent the others that it looks at, one list after the other.
#[derive(Drop)]
pub(crate) struct Sights {
    /// Where the list of each begins, and how many there are in all.
    pub(crate) first: Vec<usize>,
    /// Places of agents.
    pub(crate) others: Vec<u32>,
}

impl Sights {
    pub(crate) fn of(&self, i: usize) -> &[u32] {
        list_of(self.first.as_slice(), self.others.as_slice(), i)
    }
}

/// The list of one among lists that stand one after the other.
pub(crate) fn list_of<'a>(first: &[usize], others: &'a [u32], i: usize) -> &'a [u32] {
    let begin = first.get(i).copied().unwrap_or(0);
    let end = first
        .get(i.saturating_add(1))
        .copied()
        .unwrap_or(0)
        .min(others.len());
    if begin <= end {
        &others[begin..end]
    } else {
        &[]
    }
}

/// Another agent, and the square of its distance.
#[derive(Clone, Copy)]
struct SeenAgent {
    square: i64,
    place: u32,
}

/// Whom each agent looks at.
pub(crate) fn sights_of(
    alloc: Global,
    height: u32,
    sight: u32,
    agents: &[CrowdAgent],
    walkers: &[Walker],
) -> Result<Sights, AllocError>
    requires sizes { All HasSizes agents.now }
    requires few { length agents.now < 2 ^ 32 }
{
    let near = near_in_sight(alloc, sight, agents)?;
    let mut seen = Vec::with_capacity(alloc, 64)?;
    let mut first = Vec::with_capacity(alloc, walkers.len())?;
    let mut others = Vec::new(alloc);
    first.push(0)?;
    for i in 0..walkers.len() {
        push_seen(&near, height, sight, walkers, i, &mut seen)?;
        for other in &seen {
            others.push(other.place)?;
        }
        first.push(others.len())?;
    }
    Ok(Sights { first, others })
}

/// Those near each agent, made so wide that it touches all that it sees.
fn near_in_sight(alloc: Global, sight: u32, agents: &[CrowdAgent]) -> Result<Contacts, AllocError>
    requires sizes { All HasSizes agents.now }
    requires few { length agents.now < 2 ^ 32 }
{
    let wide = wide_agents(alloc, sight, agents)?;
    find_contacts(alloc, wide.as_slice())
}

fn wide_agents(
    alloc: Global,
    sight: u32,
    agents: &[CrowdAgent],
) -> Result<Vec<CrowdAgent>, AllocError>
    requires { All HasSizes agents.now }
    ensures one_each { IfOk result (λ wide. length wide.items ≡ length agents.now) }
    ensures sizes { IfOk result (λ wide. All HasSizes wide.items) }
{
    let mut wide = Vec::with_capacity(alloc, agents.len())?;
    for i in 0..agents.len() {
        wide.push(wide_agent(sight, &agents[i]))?;
    }
    Ok(wide)
}

fn wide_agent(sight: u32, agent: &CrowdAgent) -> CrowdAgent
    requires { HasSizes agent.now }
    ensures { HasSizes result }
{
    let reach = (sight / 2).saturating_sub(agent.speed).min(8190) + 1;
    CrowdAgent {
        radius: agent.radius.max(reach),
        ..*agent
    }
}

/// Those of its storey that an agent sees, the nearest first.
fn push_seen(
    near: &Contacts,
    height: u32,
    sight: u32,
    walkers: &[Walker],
    i: usize,
    seen: &mut Vec<SeenAgent>,
) -> Result<(), AllocError> {
    seen.clear();
    let Some(own) = walkers.get(i) else {
        return Ok(());
    };
    for place in list_of(near.first.as_slice(), near.others.as_slice(), i) {
        let Some(other) = walkers.get(*place as usize) else {
            continue;
        };
        let way = minus(other.at, own.at);
        let square = dot(way, way);
        let reach = i64::from(sight).max(
            own.radius
                .wrapping_add(other.radius)
                .wrapping_add(own.speed)
                .wrapping_add(other.speed),
        );
        if square <= reach.wrapping_mul(reach) && !are_storeys_apart(height, own, other) {
            let other = SeenAgent {
                square,
                place: *place,
            };
            insert_nearer(seen, other)?;
        }
    }
    Ok(())
}

/// Puts an agent among the nearest, which are in order.
fn insert_nearer(seen: &mut Vec<SeenAgent>, other: SeenAgent) -> Result<(), AllocError> {
    if let Some(last) = seen.get(MOST_SEEN - 1) {
        if !is_nearer(&other, last) {
            return Ok(());
        }
    }
    seen.push(other)?;
    move_up(seen.as_mut_slice());
    seen.truncate(MOST_SEEN);
    Ok(())
}

/// Moves the last one in front of those that are farther.
fn move_up(seen: &mut [SeenAgent]) {
    let count = seen.len();
    for step in 1..count {
        let place = count - step;
        let (before, own) = (seen[place - 1], seen[place]);
        if !is_nearer(&own, &before) {
            return;
        }
        seen[place - 1] = own;
        seen[place] = before;
    }
}

/// Whether one agent is nearer than another; of those as far, the first place comes first.
fn is_nearer(one: &SeenAgent, other: &SeenAgent) -> bool {
    one.square < other.square || one.square == other.square && one.place < other.place
}

fn are_storeys_apart(height: u32, a: &Walker, b: &Walker) -> bool {
    a.high.saturating_add(height) <= b.low || b.high.saturating_add(height) <= a.low
}
