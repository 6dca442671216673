//! Updates: the steps of a level between two looks at it.

ghost use Rattle.std.specs.Prelude.{◌≡◌, IfOk, OnOk, OnErr};
ghost use Rattle.build_queue.specs.BookState.{IsBook};
ghost use Rattle.obstacle_registry.specs.Updates.{IsPartOfUpdate, IsSomeSteps, aimed_if_shown, is_new, is_showing, stepped_up_to, tiles_built, updated};

use nav_base::Steps;
use nav_book::{Level, Published};
use std::alloc::{AllocError, Global};
use std::sync::ledger::Ledger;

/// What an update did.
#[derive(Clone, Copy, PartialEq, Eq, Debug)]
pub struct Updated {
    /// How many tiles were built.
    pub built: u32,
    /// Whether something new is shown.
    pub published: bool,
}

/// Aims at the whole history, unless what was aimed at before is not published; builds at most so many tiles; and publishes once none is
/// awaited. Memory may be refused, and then some of the tiles were built.
pub(crate) fn update<L: Ledger>(
    level: &mut Level,
    alloc: Global,
    most: u32,
    steps: &mut Steps<L>,
) -> Result<Updated, AllocError>
    ensures state { OnOk result (level.new ≡ updated most level.old) }
    ensures built { IfOk result (λ told. told.built ≡ tiles_built most (aimed_if_shown level.old)) }
    ensures published { IfOk result (λ told. told.published ≡ is_showing most level.old) }
    ensures refused { OnErr result (IsPartOfUpdate most level.old level.new) }
    ensures rules { IsBook level.new }
    ensures ground { level.new.ground ≡ level.old.ground }
    ensures history { level.new.history ≡ level.old.history }
{
    aim_if_shown(level);
    let built = build_some(level, alloc, most, steps)?;
    let answer = level.publish(alloc)?;
    let published = is_new(answer);
    Ok(Updated { built, published })
}

/// Whether something new is shown.
fn is_new(answer: Published) -> bool
    ensures { result ≡ is_new answer }
{
    match answer {
        Published::New { .. } => true,
        Published::Same { .. } | Published::NotYet { .. } => false,
    }
}

fn aim_if_shown(level: &mut Level)
    ensures state { level.new ≡ aimed_if_shown level.old }
    ensures rules { IsBook level.new }
{
    if level.target() == level.published() {
        let _ = level.aim();
    }
    let _ = level.ground();
}

/// Builds at most so many tiles, and gives how many.
fn build_some<L: Ledger>(
    level: &mut Level,
    alloc: Global,
    most: u32,
    steps: &mut Steps<L>,
) -> Result<u32, AllocError>
    requires rules { IsBook level.old }
    ensures state { OnOk result (level.new ≡ stepped_up_to most level.old) }
    ensures built { IfOk result (λ built. built ≡ tiles_built most level.old) }
    ensures refused { OnErr result (IsSomeSteps most level.old level.new) }
    ensures rules_after { IsBook level.new }
{
    for built in 0..most {
        let Some(_tile) = level.step(alloc, steps)? else {
            return Ok(built);
        };
    }
    Ok(most)
}
