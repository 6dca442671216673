//! The line of a followed path: where a walker stands on it, and what it makes for.

ghost use Rattle.std.specs.Prelude.{◌≡◌, ◌<◌, ◌≤◌, ◌+◌, ◌-◌, max, All, length};
ghost use Rattle.agent_walks.specs.Marches.{over_corners};
ghost use Rattle.nav_base.specs.Point.{HasCoordinates};
ghost use Rattle.path_follow.specs.Following.{CanFollow, IsTurnOf};
ghost use Rattle.path_follow.specs.Lines.{IsNext, IsShort, IsStanding, stand_of};

use crate::following::Following;
use mesh_types::Corner;
use nav_base::Point;
use surface_move::leg;

/// Where a walker stands on a line: at the last turn that it passed, or where the line begins.
#[derive(Clone, Copy)]
pub(crate) struct Standing {
    pub(crate) point: Point,
    /// The place of its polygon among the path's.
    pub(crate) place: usize,
    /// How far it may still go.
    pub(crate) budget: u32,
    /// How many turns of the line it has passed.
    pub(crate) passed: usize,
}

/// What a walker makes for: a turn or the goal, and the place of the last polygon on the way there.
#[derive(Clone, Copy)]
pub(crate) struct NextPoint {
    pub(crate) point: Point,
    pub(crate) upto: usize,
}

/// Where a walker stands by how far it has gone.
pub(crate) fn standing_of(following: &Following) -> Standing
    requires { CanFollow following.now }
    ensures { IsStanding following.now result }
{
    let standing = past_turns(following.from, following.far, following.turns.as_slice());
    Standing {
        place: standing.place.max(following.link),
        ..standing
    }
}

/// Where it stands that goes from a point over turns as far as a length reaches.
fn past_turns(point: Point, length: u32, turns: &[Corner]) -> Standing
    ensures stands { over_corners point 0 length turns.now ≡ stand_of turns.now result }
    ensures short { IsShort turns.now result }
{
    let mut standing = Standing {
        point,
        place: 0,
        budget: length,
        passed: 0,
    };
    for turn in turns {
        let way = leg(standing.point, turn.at);
        if way > standing.budget {
            return standing;
        }
        standing = at_turn(standing, *turn, way);
    }
    standing
}

/// Where it stands at the next turn, to which the way is so long.
fn at_turn(standing: Standing, turn: Corner, way: u32) -> Standing
    requires reached { way ≤ standing.budget }
    requires few { standing.passed < 18446744073709551615 }
    ensures point { result.point ≡ turn.at }
    ensures place { result.place ≡ max standing.place (turn.portal + 1) }
    ensures budget { result.budget ≡ standing.budget - way }
    ensures passed { result.passed ≡ standing.passed + 1 }
{
    Standing {
        point: turn.at,
        place: standing.place.max(turn.portal as usize + 1),
        budget: standing.budget - way,
        passed: standing.passed + 1,
    }
}

/// What it makes for from where it stands.
pub(crate) fn next_of(following: &Following, standing: Standing) -> NextPoint
    requires can { CanFollow following.now }
    requires stands { IsStanding following.now standing }
    ensures { IsNext following.now standing result }
{
    match following.turns.get(standing.passed) {
        Some(turn) => NextPoint {
            point: turn.at,
            upto: standing.place.max(turn.portal as usize),
        },
        None => NextPoint {
            point: following.goal,
            upto: following.links.len(),
        },
    }
}
