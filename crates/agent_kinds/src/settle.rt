//! All that is asked for, built and shown.

ghost use Rattle.std.specs.Prelude.{◌≡◌, All, IfOk, OnErr, OnOk, length, map};
ghost use Rattle.build_queue.specs.BookState.{BookState};
ghost use Rattle.nav_book.specs.LevelResults.{published_mesh};
ghost use Rattle.nav_book.specs.Settling.{after_settle};
ghost use Rattle.agent_kinds.specs.Kinds.{AreKinds};

use crate::builds::build_all;
use crate::levels::{aim_all, put_back_all};
use crate::publish::publish_all;
use nav_base::Steps;
use nav_book::Level;
use std::alloc::{AllocError, Global};
use std::sync::ledger::Ledger;

/// Puts every job back, builds every tile that is awaited for the whole history, and publishes the history in each level. Where memory is refused,
/// some of the tiles are built, and each shows what it showed.
pub(crate) fn settle_all<L: Ledger>(
    levels: &mut [Level],
    alloc: Global,
    steps: &mut Steps<L>,
) -> Result<u32, AllocError>
    requires kinds { AreKinds levels.old }
    ensures state { OnOk result (levels.new ≡ map after_settle levels.old) }
    ensures length { IfOk result (λ k. All (λ (state : BookState). k ≡ length state.history) levels.old) }
    ensures shown { OnOk result (All (λ (state : BookState). state.published ≡ length state.history) levels.new) }
    ensures history { map (λ (state : BookState). state.history) levels.new ≡ map (λ (state : BookState). state.history) levels.old }
    ensures ground { map (λ (state : BookState). state.ground) levels.new ≡ map (λ (state : BookState). state.ground) levels.old }
    ensures refused { OnErr result (map published_mesh levels.new ≡ map published_mesh levels.old) }
    ensures rules { AreKinds levels.new }
{
    put_back_all(levels);
    let k = aim_all(levels);
    build_all(levels, alloc, steps)?;
    publish_all(levels, alloc)?;
    Ok(k)
}
