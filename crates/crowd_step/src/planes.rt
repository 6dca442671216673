//! Half planes of moves that keep out of the way of others, by reciprocal velocity obstacles.

use crate::steering::CrowdRules;
use crate::vectors::{
    Vector, WHOLE, cross, dot, length, minus, part, ratio, root, square, stretched,
};
use crate::walkers::{Walker, goes_before, is_fast};
use std::alloc::AllocError;

/// The moves v with normal * v at least `least`; the normal has the length 4096.
#[derive(Clone, Copy)]
pub(crate) struct Plane {
    normal: Vector,
    least: i64,
}

/// How far from touching others an agent likes to be, in fine units.
const SKIN: i64 = 4;

/// By how much a move breaks a plane, in fine units, times 4096.
pub(crate) fn breach(plane: &Plane, v: Vector) -> i64 {
    plane.least.wrapping_sub(dot(plane.normal, v)).max(0)
}

/// Two agents on their ways: where the other is, the radii of both, how both go, and how many steps are looked ahead.
#[derive(Clone, Copy)]
struct Encounter {
    way: Vector,
    radii: i64,
    own: Vector,
    other: Vector,
    ahead: i64,
    /// Which share of the way around is the own one, in eighths.
    share: i64,
}

/// The half planes of an agent against those that it looks at.
pub(crate) fn push_planes(
    rules: CrowdRules,
    walkers: &[Walker],
    i: usize,
    seen: &[u32],
    planes: &mut Vec<Plane>,
) -> Result<(), AllocError> {
    planes.clear();
    for place in seen {
        push_against(rules, walkers, i, *place as usize, planes)?;
    }
    Ok(())
}

/// The half planes of an agent against another. Of one that goes before it, it takes the whole way around upon itself, and also beside the move that the other
/// would have liked; half of it where both are fast. Of one that goes behind, it takes three eighths where both are fast, and else none.
fn push_against(
    rules: CrowdRules,
    walkers: &[Walker],
    i: usize,
    j: usize,
    planes: &mut Vec<Plane>,
) -> Result<(), AllocError> {
    let (Some(own), Some(other)) = (walkers.get(i), walkers.get(j)) else {
        return Ok(());
    };
    let both_fast = is_fast(own) && is_fast(other);
    let encounter = Encounter {
        way: minus(other.at, own.at),
        radii: own.radius.wrapping_add(other.radius).wrapping_add(SKIN),
        own: own.last,
        other: other.last,
        ahead: (i64::from(rules.hz).wrapping_mul(3) / 2).max(1),
        share: if both_fast { 4 } else { 8 },
    };
    if goes_before(walkers, j, i) {
        push_if_broken(plane_of(encounter), own, planes)?;
        if other.meant != other.last || both_fast {
            let meant = Encounter {
                other: other.meant,
                share: 8,
                ..encounter
            };
            push_if_broken(plane_of(meant), own, planes)?;
        }
    } else if both_fast {
        let less = Encounter {
            share: 3,
            ..encounter
        };
        push_if_broken(plane_of(less), own, planes)?;
    }
    Ok(())
}

/// Adds a half plane, unless no move of an agent breaks it. Moves that are tried are little longer than the speed, by their rounding.
fn push_if_broken(plane: Plane, own: &Walker, planes: &mut Vec<Plane>) -> Result<(), AllocError> {
    let most = own.speed.wrapping_add(own.speed / 8).wrapping_add(8);
    if plane.least.wrapping_add(most.wrapping_mul(WHOLE)) > 0 {
        planes.push(plane)?;
    }
    Ok(())
}

/// The half plane of an encounter.
fn plane_of(encounter: Encounter) -> Plane {
    let relative = minus(encounter.own, encounter.other);
    let apart = dot(encounter.way, encounter.way);
    let (normal, short) = if apart <= square(encounter.radii) {
        past_circle(encounter.way, encounter.radii, relative)
    } else {
        let centre = part(encounter.way, 1, encounter.ahead);
        let inside = minus(relative, centre);
        let toward = dot(inside, encounter.way);
        if toward < 0
            && square(toward) > square(encounter.radii).wrapping_mul(dot(inside, inside))
        {
            past_circle(centre, ratio(encounter.radii, encounter.ahead), relative)
        } else {
            past_leg(encounter, relative, cross(encounter.way, inside) > 0)
        }
    };
    Plane {
        normal,
        least: dot(normal, encounter.own).wrapping_add(short.wrapping_mul(encounter.share) / 8),
    }
}

/// The normal out of a circle at the point nearest to a vector, and how far that is, times 4096.
fn past_circle(centre: Vector, radius: i64, relative: Vector) -> (Vector, i64) {
    let out = minus(relative, centre);
    let long = length(out);
    let normal = if long == 0 {
        stretched(centre, -WHOLE)
    } else {
        part(out, WHOLE, long)
    };
    (normal, radius.wrapping_sub(long).wrapping_mul(WHOLE))
}

/// The normal out of the cone of a circle over its left or right leg, and how far a vector is from there, times 4096.
fn past_leg(encounter: Encounter, relative: Vector, left: bool) -> (Vector, i64) {
    let way = encounter.way;
    let apart = dot(way, way);
    let leg = root(apart.wrapping_sub(square(encounter.radii)));
    let side = if left {
        encounter.radii
    } else {
        encounter.radii.wrapping_neg()
    };
    let direction = Vector {
        x: way
            .x
            .wrapping_mul(leg)
            .wrapping_sub(way.z.wrapping_mul(side)),
        z: way
            .x
            .wrapping_mul(side)
            .wrapping_add(way.z.wrapping_mul(leg)),
    };
    let turned = if left {
        Vector {
            x: direction.z.wrapping_neg(),
            z: direction.x,
        }
    } else {
        Vector {
            x: direction.z,
            z: direction.x.wrapping_neg(),
        }
    };
    let normal = part(turned, WHOLE, apart);
    (normal, dot(normal, relative).wrapping_neg())
}
