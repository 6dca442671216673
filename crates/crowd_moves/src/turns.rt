//! Moves of one step, granted in turns: each agent the first of its list that it may make and that is clear of the moves of all others.

ghost use Rattle.std.specs.Prelude.{◌≡◌, ◌↔◌, ◌<◌, ◌≤◌, ℕ, length, All, IfSome, IfNone, IsTrue};
ghost use Rattle.crowd_moves.specs.Contacts.{AreContacts};
ghost use Rattle.crowd_moves.specs.Pairs.{HasSizes};
ghost use Rattle.crowd_moves.specs.Steps.{AreMoves, IsClearBeside, IsFree, MayMoveAt};
ghost use Rattle.crowd_moves.specs.Wishes.{AreGranted, AreTurns, IsOffered, IsOpen, IsTurn};

use crate::agents::{CrowdAgent, CrowdMove};
use crate::contacts::Contacts;
use crate::lists::places;
use crate::pairs::is_slow;
use crate::space::MoveSpace;
use crate::steps::is_free;
use crate::wishes::CrowdWishes;
use nav_base::Point;

/// The agents of a step, how high they are, and who is near whom.
#[derive(Clone, Copy)]
pub struct Crowd<'a> {
    /// In height units.
    pub height: u32,
    pub agents: &'a [CrowdAgent],
    pub contacts: &'a Contacts,
}

/// Grants agents moves of their lists in rounds, at most so many, until in one nobody gains any more; whether it came to that. In a round each has
/// its turn in the order of the wishes: it gets the first of its list that it may make and that is clear of the moves which the others have then.
pub fn grant<S: MoveSpace>(
    space: &S,
    crowd: Crowd,
    wishes: CrowdWishes,
    rounds: u32,
    moves: &mut [CrowdMove],
) -> bool
    requires moves { AreMoves (S.lets space.now) crowd.height crowd.agents.now moves.old }
    requires known { All (S.knows space.now) crowd.agents.now }
    requires contacts { AreContacts crowd.agents.now crowd.contacts.now.first.items crowd.contacts.now.others.items }
    requires some { 0 < rounds }
    ensures { AreGranted (S.lets space.now) crowd.entry.height crowd.entry.agents.now wishes.entry.order.now wishes.entry.first.now wishes.entry.vectors.now moves.old result moves.new }
{
    for _round in 0..rounds {
        if !take_turns(space, crowd, wishes, moves) {
            return true;
        }
    }
    false
}

/// Each agent in an order has its turn. Whether one gained.
fn take_turns<S: MoveSpace>(
    space: &S,
    crowd: Crowd,
    wishes: CrowdWishes,
    moves: &mut [CrowdMove],
) -> bool
    requires moves { AreMoves (S.lets space.now) crowd.height crowd.agents.now moves.old }
    requires known { All (S.knows space.now) crowd.agents.now }
    requires contacts { AreContacts crowd.agents.now crowd.contacts.now.first.items crowd.contacts.now.others.items }
    ensures { AreTurns (S.lets space.now) crowd.entry.height crowd.entry.agents.now wishes.entry.order.now wishes.entry.first.now wishes.entry.vectors.now moves.old (length wishes.entry.order.now) result moves.new }
{
    let mut gains = false;
    for q in 0..wishes.order.len() {
        let i = wishes.order[q] as usize;
        if i < crowd.agents.len() {
            gains |= take_turn(space, crowd, wishes, i, moves);
        }
    }
    gains
}

/// One agent's turn: it gets the first of its list that it may make and that is clear of the moves of all others. Whether it gained.
fn take_turn<S: MoveSpace>(
    space: &S,
    crowd: Crowd,
    wishes: CrowdWishes,
    i: usize,
    moves: &mut [CrowdMove],
) -> bool
    requires moves { AreMoves (S.lets space.now) crowd.height crowd.agents.now moves.old }
    requires known { All (S.knows space.now) crowd.agents.now }
    requires contacts { AreContacts crowd.agents.now crowd.contacts.now.first.items crowd.contacts.now.others.items }
    requires there { i < length crowd.agents.now }
    ensures { IsTurn (S.lets space.now) crowd.entry.height crowd.entry.agents.now wishes.entry.first.now wishes.entry.vectors.now moves.old i result moves.new }
{
    let (begin, end) = places(wishes.first, i, wishes.vectors.len());
    for k in begin..end {
        if let Some(made) = offered(space, crowd, moves, i, wishes.vectors[k]) {
            if made.by == moves[i].by {
                return false;
            }
            moves[i] = made;
            return true;
        }
    }
    false
}

/// The move by a vector, if an agent may make it and it is clear of the moves of all others.
fn offered<S: MoveSpace>(
    space: &S,
    crowd: Crowd,
    moves: &[CrowdMove],
    i: usize,
    by: Point,
) -> Option<CrowdMove>
    requires moves { AreMoves (S.lets space.now) crowd.height crowd.agents.now moves.now }
    requires known { All (S.knows space.now) crowd.agents.now }
    requires contacts { AreContacts crowd.agents.now crowd.contacts.now.first.items crowd.contacts.now.others.items }
    requires there { i < length crowd.agents.now }
    ensures some { IfSome result (λ made. IsOffered (S.lets space.now) crowd.entry.height crowd.entry.agents.now moves.now i by made) }
    ensures none { IfNone result (IsOpen (S.lets space.now) crowd.entry.height crowd.entry.agents.now moves.now i by → ⊥) }
{
    let has = moves[i];
    if has.by == by {
        return Some(has);
    }
    let agent = &crowd.agents[i];
    if !is_slow(agent, by) {
        return None;
    }
    let Some(made) = space.way(agent, by) else {
        return None;
    };
    if is_free(crowd, moves, i, &made) {
        Some(made)
    } else {
        None
    }
}
