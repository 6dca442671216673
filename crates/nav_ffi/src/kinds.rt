//! Kinds of agents over the border: opened over one ground, built, shown in all of them at once, looked at one by one, and closed.

ghost use Rattle.std.specs.Prelude.{◌≡◌, None, slice_get};
ghost use Rattle.kinds_handle.specs.KindGroundChanges.{IsGroundChange};
ghost use Rattle.kinds_handle.specs.KindRenewals.{AreRenewed};
ghost use Rattle.kinds_handle.specs.KindSettings.{costs_said};
ghost use Rattle.kinds_handle.specs.KindsOpened.{IsKindsOpening};
ghost use Rattle.kinds_handle.specs.KindsSteps.{AreAimed, ArePublished, AreSettled, AreStepped};
ghost use Rattle.nav_ffi.specs.KindViews.{AreKindsCounted, AreLooked, IsKindCounted, IsKindLooked};

use crate::questions::level_counts;
use crate::views::next_view;
use agent_kinds::Kinds;
use kinds_handle::{
    NavdColumns, NavdGround, NavdKind, NavdKinds, NavdSpan, aim_kinds, change_ground_of_kinds,
    close_kinds, kind_level, open_kinds, publish_kinds, renew_kinds, settle_kinds, step_kinds,
};
use nav_handle::{EMPTY, NO_MEMORY, NavdCounts, NavdView, OK, OUT_OF_RANGE};
use std::alloc::Global;

/// Opens kinds over spans, with costs of areas for all of them. Kinds that the handle held are closed then.
#[unsafe(no_mangle)]
pub extern "C" fn navd_kinds_open(
    alloc: Global,
    kinds: &mut NavdKinds,
    ground: &NavdGround,
    kind: &[NavdKind],
    costs: &[u32],
    spans: &[NavdSpan],
) -> u32
    ensures { IsKindsOpening ground.now kind.now (costs_said costs.now) spans.now kinds.old.kinds kinds.new.kinds result }
{
    open_kinds(alloc, kinds, ground, kind, costs, spans)
}

/// Closes the kinds, if the handle holds some.
#[unsafe(no_mangle)]
pub extern "C" fn navd_kinds_close(alloc: Global, kinds: &mut NavdKinds)
    ensures { kinds.new.kinds ≡ None }
{
    close_kinds(alloc, kinds)
}

/// Builds all that the history asks for in all kinds and publishes it; how many entries that are is left at `published`.
#[unsafe(no_mangle)]
pub extern "C" fn navd_kinds_settle(
    alloc: Global,
    kinds: &mut NavdKinds,
    published: &mut u32,
) -> u32
    ensures { AreSettled kinds.old.kinds published.old (record { status = result; number = published.new; held = kinds.new.kinds }) }
{
    settle_kinds(alloc, kinds, published)
}

/// Makes the whole history the target in all kinds, and leaves its length at `target`.
#[unsafe(no_mangle)]
pub extern "C" fn navd_kinds_aim(alloc: Global, kinds: &mut NavdKinds, target: &mut u32) -> u32
    ensures { AreAimed kinds.old.kinds target.old (record { status = result; number = target.new; held = kinds.new.kinds }) }
{
    aim_kinds(alloc, kinds, target)
}

/// Builds the least tile that can be built in the least kind that has one; both are left at `kind` and `tile`.
#[unsafe(no_mangle)]
pub extern "C" fn navd_kinds_step(
    alloc: Global,
    kinds: &mut NavdKinds,
    kind: &mut u32,
    tile: &mut u32,
) -> u32
    ensures { AreStepped kinds.old.kinds kind.old tile.old (record { status = result; kind = kind.new; number = tile.new; held = kinds.new.kinds }) }
{
    step_kinds(alloc, kinds, kind, tile)
}

/// Publishes the target in all kinds, once no tile is awaited in any. How many entries are published is left at `number`; or the least kind in which a
/// tile is awaited at `kind`, and that tile at `number`.
#[unsafe(no_mangle)]
pub extern "C" fn navd_kinds_publish(
    alloc: Global,
    kinds: &mut NavdKinds,
    kind: &mut u32,
    number: &mut u32,
) -> u32
    ensures { ArePublished kinds.old.kinds kind.old number.old (record { status = result; kind = kind.new; number = number.new; held = kinds.new.kinds }) }
{
    publish_kinds(alloc, kinds, kind, number)
}

/// Begins the history again in all kinds, where all of it is published, with the obstacles that are alive; the number of each is then its place in the
/// list that is laid into `numbers`, from 1. How many there are is left at `count`.
#[unsafe(no_mangle)]
pub extern "C" fn navd_kinds_renew(
    alloc: Global,
    kinds: &mut NavdKinds,
    numbers: &mut [u32],
    count: &mut usize,
) -> u32
    ensures { AreRenewed kinds.old.kinds (count.old, numbers.old)
        (record { status = result; held = kinds.new.kinds; told = (count.new, numbers.new) }) }
{
    renew_kinds(alloc, kinds, numbers, count)
}

/// Changes the ground of all kinds to that of their field with these spans in the columns of a rectangle, where all that was aimed at is published;
/// without any, the columns are empty.
#[unsafe(no_mangle)]
pub extern "C" fn navd_kinds_change_ground(
    alloc: Global,
    kinds: &mut NavdKinds,
    columns: &NavdColumns,
    spans: &[NavdSpan],
) -> u32
    ensures { IsGroundChange columns.now spans.now kinds.old.kinds (record { status = result; held = kinds.new.kinds }) }
{
    change_ground_of_kinds(alloc, kinds, columns, spans)
}

fn look(alloc: Global, view: &mut NavdView, held: &Kinds, kind: u32, published: &mut u32) -> u32
    ensures { IsKindLooked (slice_get held.now kind) view.old.view published.old
        (record { status = result; number = published.new; held = view.new.view }) }
{
    let Some(level) = kind_level(held, kind) else {
        return OUT_OF_RANGE;
    };
    let length = level.published();
    match next_view(alloc, view, level) {
        Ok(made) => {
            view.put(made);
            *published = length;
            OK
        }
        Err(_) => NO_MEMORY,
    }
}

/// Brings a view up to what a kind shows, whose length is left at `published`. What the view showed before is let go; costs of its own stay.
#[unsafe(no_mangle)]
pub extern "C" fn navd_kinds_look(
    alloc: Global,
    view: &mut NavdView,
    kinds: &mut NavdKinds,
    kind: u32,
    published: &mut u32,
) -> u32
    ensures looked { AreLooked kinds.old.kinds kind view.old.view published.old
        (record { status = result; number = published.new; held = view.new.view }) }
    ensures same { kinds.new.kinds ≡ kinds.old.kinds }
{
    let Some(held) = kinds.take(alloc) else {
        return EMPTY;
    };
    let status = look(alloc, view, &held, kind, published);
    kinds.put(held);
    status
}

fn count(held: &Kinds, kind: u32, counts: &mut NavdCounts) -> u32
    ensures { IsKindCounted (slice_get held.now kind) counts.old counts.new result }
{
    let Some(level) = kind_level(held, kind) else {
        return OUT_OF_RANGE;
    };
    *counts = level_counts(level);
    OK
}

/// The counts of a kind.
#[unsafe(no_mangle)]
pub extern "C" fn navd_kinds_count(
    alloc: Global,
    kinds: &mut NavdKinds,
    kind: u32,
    counts: &mut NavdCounts,
) -> u32
    ensures counted { AreKindsCounted kinds.old.kinds kind counts.old counts.new result }
    ensures same { kinds.new.kinds ≡ kinds.old.kinds }
{
    let Some(held) = kinds.take(alloc) else {
        return EMPTY;
    };
    let status = count(&held, kind, counts);
    kinds.put(held);
    status
}
