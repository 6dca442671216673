//! The moves of all agents in one step: those with which it begins, and whether one may take the place of another.

ghost use Rattle.std.specs.Prelude.{◌≡◌, ◌↔◌, ◌<◌, ℕ, length, map, All, IfOk, IsTrue};
ghost use Rattle.crowd_moves.specs.Contacts.{AreContacts};
ghost use Rattle.crowd_moves.specs.Pairs.{HasSizes, standing};
ghost use Rattle.crowd_moves.specs.Steps.{AreMovers, AreMoves, IsClearBeside, IsFree, IsMoverAt};

use crate::agents::{CrowdAgent, CrowdMove};
use crate::lists::places;
use crate::pairs::is_clear;
use crate::space::MoveSpace;
use crate::turns::Crowd;
use std::alloc::{AllocError, Global};

/// The moves with which a step begins: all stand.
pub fn stand<S: MoveSpace>(
    alloc: Global,
    space: &S,
    agents: &[CrowdAgent],
) -> Result<Vec<CrowdMove>, AllocError>
    requires sizes { All HasSizes agents.now }
    requires known { All (S.knows space.now) agents.now }
    ensures moves { IfOk result (λ moves. moves.items ≡ map standing agents.now) }
    ensures right { IfOk result (λ moves. (height : ℕ) → AreMoves (S.lets space.now) height agents.now moves.items) }
{
    let mut moves = Vec::with_capacity(alloc, agents.len())?;
    for agent in agents {
        moves.push(space.stay(agent))?;
    }
    Ok(moves)
}

/// Whether a move of an agent is clear of the moves of all others. Only those near are asked.
pub(crate) fn is_free(crowd: Crowd, moves: &[CrowdMove], i: usize, made: &CrowdMove) -> bool
    requires movers { AreMovers crowd.agents.now moves.now }
    requires contacts { AreContacts crowd.agents.now crowd.contacts.now.first.items crowd.contacts.now.others.items }
    requires there { i < length crowd.agents.now }
    requires mover { IsMoverAt crowd.agents.now i made.now }
    ensures { IsTrue result ↔ IsFree crowd.entry.height crowd.entry.agents.now moves.now i made.now }
{
    let others = crowd.contacts.others.as_slice();
    let (begin, end) = places(crowd.contacts.first.as_slice(), i, others.len());
    for k in begin..end {
        if !is_clear_beside(crowd, moves, i, made, others[k] as usize) {
            return false;
        }
    }
    true
}

/// Whether a move of one agent is clear of the move of another.
fn is_clear_beside(crowd: Crowd, moves: &[CrowdMove], i: usize, made: &CrowdMove, j: usize) -> bool
    requires movers { AreMovers crowd.agents.now moves.now }
    requires there { i < length crowd.agents.now }
    requires mover { IsMoverAt crowd.agents.now i made.now }
    ensures { IsTrue result ↔ IsClearBeside crowd.entry.height crowd.entry.agents.now moves.now i made.now j }
{
    if j == i || j >= crowd.agents.len() {
        return true;
    }
    let (a, b) = (&crowd.agents[i], &crowd.agents[j]);
    is_clear(crowd.height, a, b, made, &moves[j])
}
