//! Steps of kinds: what is aimed at, built and shown in all of them.

ghost use Rattle.std.specs.Prelude.{◌≡◌, ◌<◌, ◌≤◌, Some};
ghost use Rattle.kinds_handle.specs.KindsSteps.{AreAimed, AreAllFree, ArePublished, AreSettled, AreStepped};

use crate::handle::NavdKinds;
use agent_kinds::{Kinds, KindsPublished};
use nav_base::Steps;
use nav_handle::{EMPTY, NO_MEMORY, NOT_YET, OK, SAME};
use std::alloc::Global;
use std::marker::Brand;
use std::sync::ledger::{Blank, Ledger};

fn aim(held: &mut Kinds, target: &mut u32) -> u32
    ensures { AreAimed (Some held.old) target.old (record { status = result; number = target.new; held = Some held.new }) }
{
    *target = held.aim();
    OK
}

/// Makes the whole history the target in all kinds, and leaves its length at `target`.
pub fn aim_kinds(alloc: Global, kinds: &mut NavdKinds, target: &mut u32) -> u32
    ensures { AreAimed kinds.old.kinds target.old (record { status = result; number = target.new; held = kinds.new.kinds }) }
{
    let Some(mut held) = kinds.take(alloc) else {
        return EMPTY;
    };
    let status = aim(&mut held, target);
    kinds.put(held);
    status
}

fn settle<L: Ledger>(alloc: Global, held: &mut Kinds, published: &mut u32, blank: Blank) -> u32
    requires name { blank.name ≡ L.name }
    requires parts { blank.parts ≡ L.parts }
    requires some { 0 < blank.parts }
    ensures { AreSettled (Some held.old) published.old (record { status = result; number = published.new; held = Some held.new }) }
{
    let mut steps = Steps::<L>::new(blank);
    match held.settle(alloc, &mut steps) {
        Ok(k) => {
            *published = k;
            OK
        }
        Err(_) => NO_MEMORY,
    }
}

/// Builds all that the history asks for in all kinds and publishes it; how many entries that are is left at `published`.
pub fn settle_kinds(alloc: Global, kinds: &mut NavdKinds, published: &mut u32) -> u32
    ensures { AreSettled kinds.old.kinds published.old (record { status = result; number = published.new; held = kinds.new.kinds }) }
{
    let Some(mut held) = kinds.take(alloc) else {
        return EMPTY;
    };
    let status = settle::<Brand>(alloc, &mut held, published, Blank::new(1));
    kinds.put(held);
    status
}

/// Ends all claims of all kinds.
pub fn free_kinds(alloc: Global, kinds: &mut NavdKinds) -> u32
    ensures { AreAllFree kinds.old.kinds kinds.new.kinds result }
{
    let Some(mut held) = kinds.take(alloc) else {
        return EMPTY;
    };
    held.put_back_all();
    kinds.put(held);
    OK
}

/// The number of a kind, of which there are 16 at most.
pub(crate) fn kind_told(kind: usize) -> u32
    requires { kind ≤ 16 }
    ensures { result ≡ kind }
{
    kind as u32
}

fn step<L: Ledger>(
    alloc: Global,
    held: &mut Kinds,
    kind: &mut u32,
    tile: &mut u32,
    blank: Blank,
) -> u32
    requires name { blank.name ≡ L.name }
    requires parts { blank.parts ≡ L.parts }
    requires some { 0 < blank.parts }
    ensures { AreStepped (Some held.old) kind.old tile.old (record { status = result; kind = kind.new; number = tile.new; held = Some held.new }) }
{
    let mut steps = Steps::<L>::new(blank);
    match held.step(alloc, &mut steps) {
        Ok(Some((found, built))) => {
            *kind = kind_told(found);
            *tile = built;
            OK
        }
        Ok(None) => SAME,
        Err(_) => NO_MEMORY,
    }
}

/// Builds the least tile that can be built in the least kind that has one; both are left at `kind` and `tile`.
pub fn step_kinds(alloc: Global, kinds: &mut NavdKinds, kind: &mut u32, tile: &mut u32) -> u32
    ensures { AreStepped kinds.old.kinds kind.old tile.old (record { status = result; kind = kind.new; number = tile.new; held = kinds.new.kinds }) }
{
    let Some(mut held) = kinds.take(alloc) else {
        return EMPTY;
    };
    let status = step::<Brand>(alloc, &mut held, kind, tile, Blank::new(1));
    kinds.put(held);
    status
}

fn publish(alloc: Global, held: &mut Kinds, kind: &mut u32, number: &mut u32) -> u32
    ensures { ArePublished (Some held.old) kind.old number.old (record { status = result; kind = kind.new; number = number.new; held = Some held.new }) }
{
    match held.publish(alloc) {
        Ok(KindsPublished::New { k }) => {
            *number = k;
            OK
        }
        Ok(KindsPublished::Same { k }) => {
            *number = k;
            SAME
        }
        Ok(
            KindsPublished::NotYet {
                kind: awaited,
                tile,
            },
        ) => {
            *kind = kind_told(awaited);
            *number = tile;
            NOT_YET
        }
        Err(_) => NO_MEMORY,
    }
}

/// Publishes the target in all kinds, once no tile is awaited in any. How many entries are published is left at `number`; or the least kind in which a
/// tile is awaited at `kind`, and that tile at `number`.
pub fn publish_kinds(alloc: Global, kinds: &mut NavdKinds, kind: &mut u32, number: &mut u32) -> u32
    ensures { ArePublished kinds.old.kinds kind.old number.old (record { status = result; kind = kind.new; number = number.new; held = kinds.new.kinds }) }
{
    let Some(mut held) = kinds.take(alloc) else {
        return EMPTY;
    };
    let status = publish(alloc, &mut held, kind, number);
    kinds.put(held);
    status
}
