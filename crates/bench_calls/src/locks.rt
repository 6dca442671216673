//! Acts under a turn lock by one thread: `lock ROUNDS` adds 10000 pairs a round; the sum is how many all rounds added.

ghost use Rattle.std.specs.Prelude.{◌≡◌};
ghost use Rattle.turn_lock.specs.Locks.{IsOf};

use nav_text::numbers_of;
use std::alloc::{AllocError, Global};
use std::sync::Wait;
use turn_lock::pairs::{Pair, Pairs};
use turn_lock::{Pass, TurnLock};

const ACTS: u32 = 10000;

fn add_all<R: Wait>(rt: &R, alloc: Global, lock: &TurnLock<Pairs>, pass: &mut Pass<Pairs>)
    requires of { IsOf lock.now pass.old }
    requires zero { pass.old.number ≡ 0 }
    ensures { IsOf lock.now pass.new }
{
    for number in 0..ACTS {
        lock.with(rt, alloc, pass, Pair { maker: 0, number });
    }
}

// How many pairs one round added.
fn round<R: Wait>(rt: &R, alloc: Global) -> Result<u32, AllocError> {
    let (lock, mut passes) = match TurnLock::new(alloc, Pairs::new(alloc), 1) {
        Ok(made) => made,
        Err((_pairs, error)) => return Err(error),
    };
    let Some(mut pass) = passes.pop() else {
        unreachable!()
    };
    add_all(rt, alloc, &lock, &mut pass);
    Ok(lock.length(&mut pass))
}

// How many pairs so many rounds added.
fn added<R: Wait>(rt: &R, alloc: Global, rounds: u32) -> Result<u64, AllocError> {
    let mut added: u64 = 0;
    for _ in 0..rounds {
        added = added.saturating_add(u64::from(round(rt, alloc)?));
    }
    Ok(added)
}

/// The sum of what a line names here, if it does.
pub fn take<R: Wait>(rt: &R, alloc: Global, line: &[u8]) -> Result<Option<u64>, AllocError> {
    let Some(n) = numbers_of::<1>(b"lock", line) else {
        return Ok(None);
    };
    Ok(Some(added(rt, alloc, n[0])?))
}
