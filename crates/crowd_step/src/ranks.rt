//! Who goes before whom, and who is granted a move before others.

ghost use Rattle.std.specs.Prelude.{◌≡◌, ◌<◌, ◌^◌, IfOk, length, map};
ghost use Rattle.crowd_step.specs.Orders.{AreEntered, AreNamed};
ghost use Rattle.crowd_moves.specs.declared.keyed.KeyedPlace.{KeyedPlace};

use crate::sights::Sights;
use crate::vectors::{cross, dot, minus};
use crate::walkers::Walker;
use crowd_moves::{KeyedPlace, order_by_key};
use std::alloc::{AllocError, Global};

/// How often ranks are handed on at most.
const HANDINGS: u32 = 6;

/// Hands ranks on: who stands in another's wish takes that one's rank less 1 where that is less, so that it makes way for it before others.
/// Those that are tired or idle stay behind: they are to keep out of that one's way.
pub(crate) fn hand_ranks_on(sights: &Sights, walkers: &mut [Walker]) {
    for _time in 0..HANDINGS {
        let mut changes = false;
        for i in 0..walkers.len() {
            changes |= hand_on(sights, walkers, i);
        }
        if !changes {
            return;
        }
    }
}

/// Hands the rank of one agent on to those that stand in its wish. Whether one of them takes it.
fn hand_on(sights: &Sights, walkers: &mut [Walker], i: usize) -> bool {
    let Some(own) = walkers.get(i).copied() else {
        return false;
    };
    let mut changes = false;
    for place in sights.of(i) {
        if let Some(other) = walkers.get_mut(*place as usize) {
            let rank = own.rank.saturating_sub(1);
            if rank < other.rank
                && !stays_behind(other)
                && stands_in_wish(&own, other)
                && !stands_in_wish(other, &own)
            {
                other.rank = rank;
                changes = true;
            }
        }
    }
    changes
}

/// Whether an agent goes behind others wherever it stands: it is tired, or idle.
fn stays_behind(walker: &Walker) -> bool {
    walker.idle || walker.tired > 0
}

/// Whether another stands in the wish of an agent: within both radii of its line, and less than three times that ahead.
fn stands_in_wish(own: &Walker, other: &Walker) -> bool {
    let way = minus(other.at, own.at);
    let along = dot(own.wish, way);
    if along <= 0 {
        return false;
    }
    let radii = own.radius.wrapping_add(other.radius);
    let reach = radii.wrapping_mul(own.wish_length);
    cross(own.wish, way).wrapping_abs() < reach && along < reach.wrapping_mul(3)
}

/// The places of all agents by their ranks; of equal ranks the first place first.
pub(crate) fn order_of(alloc: Global, walkers: &[Walker]) -> Result<Vec<u32>, AllocError>
    requires few { length walkers.now < 2 ^ 32 }
    ensures { IfOk result (λ order. AreNamed (length walkers.now) order.items) }
{
    let mut entries = entries_of(alloc, walkers)?;
    order_by_key(&mut entries);
    places_of(alloc, entries.as_slice())
}

fn entries_of(alloc: Global, walkers: &[Walker]) -> Result<Vec<KeyedPlace>, AllocError>
    requires few { length walkers.now < 2 ^ 32 }
    ensures { IfOk result (λ entries. AreEntered (length walkers.now) entries.items) }
{
    let mut entries = Vec::with_capacity(alloc, walkers.len())?;
    for i in 0..walkers.len() {
        entries.push(KeyedPlace {
            key: walkers[i].rank,
            place: i as u32,
        })?;
    }
    Ok(entries)
}

fn places_of(alloc: Global, entries: &[KeyedPlace]) -> Result<Vec<u32>, AllocError>
    ensures { IfOk result (λ places. places.items ≡ map (λ (entry : KeyedPlace). entry.place) entries.now) }
{
    entries.iter().map(|entry| entry.place).collect(alloc)
}
