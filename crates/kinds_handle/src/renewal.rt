//! Kinds whose history begins again.

ghost use Rattle.std.specs.Prelude.{◌≡◌, ◌<◌, ◌≤◌, All, IfOk, MatchBool, OnErr, OnOk, Some, length, slice_get};
ghost use Rattle.std.specs.List.{AllZip};
ghost use Rattle.build_queue.specs.Renewal.{IsAllShown};
ghost use Rattle.build_queue.specs.StepContracts.{IsRenewStep};
ghost use Rattle.agent_kinds.specs.Kinds.{AreKinds};
ghost use Rattle.kinds_handle.specs.KindRenewals.{AreAliveIn, AreRenewed};

use crate::handle::NavdKinds;
use agent_kinds::Kinds;
use nav_book::Level;
use nav_handle::{EMPTY, NO_MEMORY, NO_ROOM, NOT_YET, OK, lay_numbers};
use nav_lists::Items;
use std::alloc::{AllocError, Global};

/// The level of the first kind.
fn first_level(held: &Kinds) -> &Level
    ensures value { slice_get held.now 0 ≡ Some result.now }
    ensures rules { AreKinds held.now }
{
    let _count = held.count();
    held.level(0)
}

/// Whether all of the history is published.
fn are_all_shown(held: &Kinds) -> bool
    ensures { MatchBool result (All IsAllShown held.now) (¬ All IsAllShown held.now) }
{
    let first = first_level(held);
    first.published() == first.length()
}

/// The numbers of the obstacles that are alive.
fn alive_in(alloc: Global, held: &Kinds) -> Result<Items<u32>, AllocError>
    ensures { IfOk result (λ numbers. All (AreAliveIn numbers) held.now) }
{
    first_level(held).alive(alloc)
}

fn renew(alloc: Global, held: &mut Kinds, numbers: &mut [u32], count: &mut usize) -> u32
    ensures { AreRenewed (Some held.old) (count.old, numbers.old) (record { status = result; held = Some held.new; told = (count.new, numbers.new) }) }
{
    if !are_all_shown(held) {
        return NOT_YET;
    }
    let Ok(alive) = alive_in(alloc, held) else {
        return NO_MEMORY;
    };
    if numbers.len() < alive.len() {
        *count = alive.len();
        return NO_ROOM;
    }
    match held.renew(alloc) {
        Ok(_) => {
            *count = alive.len();
            lay_numbers(alive.as_slice(), numbers);
            OK
        }
        Err(_) => NO_MEMORY,
    }
}

/// Begins the history again in all kinds, where all of it is published, with the obstacles that are alive; the number of each is then its place in the
/// list that is laid into `numbers`, from 1. How many there are is left at `count`.
pub fn renew_kinds(
    alloc: Global,
    kinds: &mut NavdKinds,
    numbers: &mut [u32],
    count: &mut usize,
) -> u32
    ensures { AreRenewed kinds.old.kinds (count.old, numbers.old)
        (record { status = result; held = kinds.new.kinds; told = (count.new, numbers.new) }) }
{
    let Some(mut held) = kinds.take(alloc) else {
        return EMPTY;
    };
    let status = renew(alloc, &mut held, numbers, count);
    kinds.put(held);
    status
}
