//! Acts under a lock, one after the other and by many threads at once.

ghost use Rattle.std.specs.Prelude.{◌≡◌, ◌≤◌, ◌<◌, IfOk, length};
ghost use Rattle.turn_lock.specs.Locks.{AreAll, IsOf};
ghost use Rattle.tests_base.specs.Passes.{AreInOrder};

use crate::checks::same;
use std::alloc::{AllocError, Global};
use std::process::Abort;
use std::sync::Wait;
use std::thread;
use std::thread::Threads;
use turn_lock::pairs::{Added, Pair, Pairs};
use turn_lock::{Pass, TurnLock};

const ACTS: u32 = 1000;

fn locked(alloc: Global, passes: u32) -> Result<(TurnLock<Pairs>, Vec<Pass<Pairs>>), AllocError>
    requires { 1 ≤ passes }
    ensures passes { IfOk result (λ made. made.0.passes ≡ passes) }
    ensures order { IfOk result (λ made. AreInOrder made.0 made.1.items) }
{
    match TurnLock::new(alloc, Pairs::new(alloc), passes) {
        Ok(made) => Ok(made),
        Err((_pairs, error)) => Err(error),
    }
}

fn pair(maker: u32, number: u32) -> Pair
    ensures { result.maker ≡ maker }
{
    Pair { maker, number }
}

// Adds a pair by a pass whose number is the pair's maker, when each pass before has added one.
fn check_adding<R: Wait + Abort>(
    rt: &R,
    alloc: Global,
    lock: &TurnLock<Pairs>,
    pass: &mut Pass<Pairs>,
    pair: Pair,
)
    requires of { IsOf lock.now pass.old }
    requires maker { pair.maker ≡ pass.old.number }
    ensures of { IsOf lock.now pass.new }
    ensures number { pass.new.number ≡ pass.old.number }
{
    same(rt, lock.length(pass), pair.maker);
    same(rt, lock.with(rt, alloc, pass, pair), Added::Yes);
}

// Adds the numbers from 0 on under the pass's own.
fn add_all<R: Wait>(
    rt: &R,
    alloc: Global,
    lock: &TurnLock<Pairs>,
    pass: &mut Pass<Pairs>,
    maker: usize,
)
    requires of { IsOf lock.now pass.old }
    requires maker { (maker ≡ pass.old.number) × (maker < 4294967296) }
    ensures of { IsOf lock.now pass.new }
    ensures number { pass.new.number ≡ pass.old.number }
{
    for number in 0..ACTS {
        lock.with(rt, alloc, pass, pair(maker as u32, number));
    }
}

// What one pass does.
#[derive(Clone, Copy)]
enum Doing {
    // The pass 0 adds 5 as the first, and the pass 1 adds 7 as the second.
    AddOne,
    AddAll,
    // So many pairs are there.
    LookAt(u32),
}

// What the pass of a number does.
#[derive(Clone, Copy)]
struct Acting {
    maker: usize,
    doing: Doing,
}

fn act<R: Wait + Abort>(
    rt: &R,
    alloc: Global,
    lock: &TurnLock<Pairs>,
    pass: &mut Pass<Pairs>,
    acting: Acting,
)
    requires of { IsOf lock.now pass.old }
    requires maker { (acting.maker ≡ pass.old.number) × (acting.maker < 4294967296) }
    ensures of { IsOf lock.now pass.new }
    ensures number { pass.new.number ≡ pass.old.number }
{
    let number = if acting.maker == 0 { 5 } else { 7 };
    match acting.doing {
        Doing::AddOne => check_adding(rt, alloc, lock, pass, pair(acting.maker as u32, number)),
        Doing::AddAll => add_all(rt, alloc, lock, pass, acting.maker),
        Doing::LookAt(count) => same(rt, lock.length(pass), count),
    }
}

// What all passes do, on so many threads, and how many pairs each then sees.
#[derive(Clone, Copy)]
struct Acts {
    threads: usize,
    doing: Doing,
    count: u32,
}

fn each_acts<R: Threads + Wait + Abort + Sync>(
    rt: &R,
    alloc: Global,
    lock: &TurnLock<Pairs>,
    passes: &mut [Pass<Pairs>],
    acts: Acts,
)
    requires some { 0 < acts.threads }
    requires order { AreInOrder lock.now passes.old }
    requires few { length passes.old < 4294967296 }
    ensures { AreInOrder lock.now passes.new }
{
    let doing = acts.doing;
    thread::for_each_mut(
        rt,
        passes,
        acts.threads,
        &|maker, pass| { act(rt, alloc, lock, pass, Acting { maker, doing }) },
    );
}

// All passes act, and then each looks how many pairs there are.
fn all_act<R: Threads + Wait + Abort + Sync>(
    rt: &R,
    alloc: Global,
    lock: &TurnLock<Pairs>,
    passes: &mut [Pass<Pairs>],
    acts: Acts,
)
    requires some { 0 < acts.threads }
    requires order { AreInOrder lock.now passes.old }
    requires few { length passes.old < 4294967296 }
    ensures { AreAll lock.now passes.new }
{
    each_acts(rt, alloc, lock, passes, acts);
    let looks = Acts {
        threads: 1,
        doing: Doing::LookAt(acts.count),
        count: acts.count,
    };
    each_acts(rt, alloc, lock, passes, looks);
}

// What so many passes have added.
fn added<R: Threads + Wait + Abort + Sync>(
    rt: &R,
    alloc: Global,
    passes: u32,
    acts: Acts,
) -> Result<Pairs, AllocError>
    requires passes { 1 ≤ passes }
    requires threads { 0 < acts.threads }
{
    let (lock, mut passes) = locked(alloc, passes)?;
    all_act(rt, alloc, &lock, &mut passes, acts);
    Ok(lock.close(passes))
}

#[test]
fn two_passes(rt: HostRuntime) -> Result<(), AllocError> {
    let acts = Acts {
        threads: 1,
        doing: Doing::AddOne,
        count: 2,
    };
    let pairs = added(&rt, rt.alloc(), 2, acts)?;
    same(&rt, pairs.as_slice(), [pair(0, 5), pair(1, 7)].as_slice());
    Ok(())
}

// Whether the maker's numbers are those from 0 to the last, in order.
fn is_in_order(pairs: &[Pair], maker: u32) -> bool {
    let mut next = 0;
    for pair in pairs {
        if pair.maker == maker {
            if pair.number != next {
                return false;
            }
            next = next.wrapping_add(1);
        }
    }
    next == ACTS
}

fn check_orders(rt: &impl Abort, pairs: &[Pair]) {
    same(rt, pairs.len(), 8000);
    for maker in 0..8 {
        let is_in_order = is_in_order(pairs, maker);
        same(rt, (maker, is_in_order), (maker, true));
    }
}

#[test]
fn many_threads(rt: HostRuntime) -> Result<(), AllocError> {
    let acts = Acts {
        threads: 8,
        doing: Doing::AddAll,
        count: 8000,
    };
    let pairs = added(&rt, rt.alloc(), 8, acts)?;
    check_orders(&rt, pairs.as_slice());
    Ok(())
}
