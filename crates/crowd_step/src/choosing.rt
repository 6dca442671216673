//! What one agent tries in a step that sees others.

ghost use Rattle.crowd_step.specs.Steered.{IsFooting};

use crate::fan::{Candidate, Choice, push_fan};
use crate::footing::{Footing, walks};
use crate::planes::{Plane, breach, push_planes};
use crate::steering::{CrowdRules, Thought};
use crate::vectors::{NOWHERE, Turn, Vector, cut, dot, length, minus, part, ratio, turned};
use crate::walkers::{Walker, goes_before};
use std::alloc::AllocError;

/// Room for the planes of one agent and for the moves that it tries.
#[derive(Drop)]
pub(crate) struct Scratch {
    pub(crate) planes: Vec<Plane>,
    pub(crate) tried: Vec<Candidate>,
}

/// A turn to the right by two degrees.
const A_LITTLE_RIGHT: Turn = Turn {
    cosine: 4094,
    sine: -143,
};

/// The moves that an agent tries, the best first, go into the scratch; what it is to remember is told.
pub(crate) fn choose(
    footing: Footing,
    rules: CrowdRules,
    walkers: &[Walker],
    i: usize,
    seen: &[u32],
    scratch: &mut Scratch,
) -> Result<Thought, AllocError>
    requires { IsFooting footing.mesh.now footing.agent.now }
{
    let leads = does_lead(walkers, i, seen);
    scratch.tried.clear();
    let Some(own) = walkers.get(i) else {
        return Ok(Thought {
            meant: NOWHERE,
            leads,
        });
    };
    push_planes(rules, walkers, i, seen, &mut scratch.planes)?;
    let wish = eased(rules, walkers, own, i, seen);
    let planes = scratch.planes.as_slice();
    if is_unbroken(planes, wish) && walks(footing, wish) {
        push_wish(wish, &mut scratch.tried)?;
        return Ok(Thought { meant: wish, leads });
    }
    let choice = Choice {
        planes,
        wish,
        last: own.last,
        speed: own.speed,
        slowness: slowness(own, leads),
    };
    push_fan(footing, &choice, &mut scratch.tried)?;
    let meant = scratch.tried.get(0).map_or(wish, |best| best.by);
    Ok(Thought { meant, leads })
}

/// What one that leads and waits pays for being slow.
fn slowness(own: &Walker, leads: bool) -> i64 {
    if leads && own.waited > 0 && !own.idle {
        16
    } else {
        0
    }
}

/// The wish, and shorter ones.
fn push_wish(wish: Vector, tried: &mut Vec<Candidate>) -> Result<(), AllocError> {
    for parts in [4_i64, 3, 2, 1] {
        tried.push(Candidate {
            by: part(wish, parts, 4),
            penalty: 0,
        })?;
    }
    Ok(())
}

fn is_unbroken(planes: &[Plane], v: Vector) -> bool {
    planes.iter().all(|plane| breach(plane, v) == 0)
}

/// Whether none of those that an agent looks at goes before it.
fn does_lead(walkers: &[Walker], i: usize, seen: &[u32]) -> bool {
    seen.iter()
        .all(|place| !goes_before(walkers, *place as usize, i))
}

/// The wish of an agent that sees others, turned a little to the right; close behind one that goes before, it grows no quicker than from nothing to full
/// speed in half a second.
fn eased(rules: CrowdRules, walkers: &[Walker], own: &Walker, i: usize, seen: &[u32]) -> Vector {
    let wish = turned(own.wish, A_LITTLE_RIGHT);
    if !seen
        .iter()
        .any(|place| is_close_ahead(walkers, own, i, *place as usize))
    {
        return wish;
    }
    let growth = ratio(own.speed.wrapping_mul(2), i64::from(rules.hz)).max(1);
    cut(wish, length(own.last).wrapping_add(growth))
}

fn is_close_ahead(walkers: &[Walker], own: &Walker, i: usize, j: usize) -> bool {
    let Some(other) = walkers.get(j) else {
        return false;
    };
    let way = minus(other.at, own.at);
    let reach = own
        .radius
        .wrapping_add(other.radius)
        .wrapping_add(own.radius.wrapping_mul(3) / 4);
    goes_before(walkers, j, i)
        && dot(way, own.wish) > 0
        && dot(way, way) < reach.wrapping_mul(reach)
}
