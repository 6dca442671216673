//! What is done in each of several levels.

ghost use Rattle.std.specs.Prelude.{◌≡◌, ◌+◌, All, IfOk, OnErr, OnOk, Result, length, map};
ghost use Rattle.std.specs.List.{AllZip};
ghost use Rattle.nav_ground.specs.History.{IsRequest, alive_after};
ghost use Rattle.build_queue.specs.BookState.{BookState};
ghost use Rattle.build_queue.specs.Renewal.{IsAllShown};
ghost use Rattle.build_queue.specs.StepContracts.{IsRenewStep};
ghost use Rattle.build_queue.specs.Steps.{after_aim, after_put_back_all, request_answer, requested};
ghost use Rattle.agent_kinds.specs.Kinds.{AreKinds};

use nav_book::{HistoryFull, Level};
use nav_ground::{Reply, Request};
use nav_lists::Items;
use std::alloc::{AllocError, Global};

/// Appends a request to each history, and gives the answer, which is that of each.
pub(crate) fn request_all(
    levels: &mut [Level],
    lane: u32,
    request: Request,
) -> Result<(u32, Reply), HistoryFull>
    requires kinds { AreKinds levels.old }
    requires request { IsRequest request }
    ensures state { levels.new ≡ map (λ (state : BookState). requested state lane request) levels.old }
    ensures answer { All (λ (state : BookState). result ≡ request_answer state request) levels.old }
    ensures rules { AreKinds levels.new }
{
    let mut answer = Err(HistoryFull { len: 0 });
    for level in levels.iter_mut() {
        answer = level.request(lane, request);
    }
    answer
}

/// Makes the whole history the target of each level, and gives its length.
pub(crate) fn aim_all(levels: &mut [Level]) -> u32
    requires kinds { AreKinds levels.old }
    ensures state { levels.new ≡ map after_aim levels.old }
    ensures length { All (λ (state : BookState). result ≡ length state.history) levels.old }
    ensures rules { AreKinds levels.new }
{
    let mut length = 0;
    for level in levels.iter_mut() {
        length = level.aim();
    }
    length
}

/// Gives all jobs of each level back.
pub(crate) fn put_back_all(levels: &mut [Level])
    requires kinds { AreKinds levels.old }
    ensures state { levels.new ≡ map after_put_back_all levels.old }
    ensures rules { AreKinds levels.new }
{
    for level in levels.iter_mut() {
        level.put_back_all();
    }
}

/// Begins each history again with the obstacles that are alive.
fn begin_all_again(levels: &mut [Level])
    requires kinds { AreKinds levels.old }
    requires shown { All IsAllShown levels.old }
    ensures did { AllZip IsRenewStep levels.old levels.new }
    ensures rules { AreKinds levels.new }
{
    for level in levels.iter_mut() {
        level.begin_again();
    }
}

/// Begins each history again, and gives the numbers that the obstacles had. Where memory is refused, nothing has changed.
pub(crate) fn renew_all(levels: &mut [Level], alloc: Global) -> Result<Items<u32>, AllocError>
    requires kinds { AreKinds levels.old }
    requires shown { All IsAllShown levels.old }
    ensures numbers { IfOk result (λ numbers. All (λ (state : BookState). numbers ≡ alive_after state.history (length state.history)) levels.old) }
    ensures did { OnOk result (AllZip IsRenewStep levels.old levels.new) }
    ensures refused { OnErr result (levels.new ≡ levels.old) }
    ensures rules { AreKinds levels.new }
{
    let numbers = alive_in(levels, alloc)?;
    begin_all_again(levels);
    Ok(numbers)
}

/// The numbers of the obstacles that are alive, which are those of each level.
fn alive_in(levels: &[Level], alloc: Global) -> Result<Items<u32>, AllocError>
    requires kinds { AreKinds levels.now }
    ensures { IfOk result (λ numbers. All (λ (state : BookState). numbers ≡ alive_after state.history (length state.history)) levels.now) }
{
    let numbers = levels[0].alive(alloc)?;
    Ok(numbers)
}

/// How many entries are shown, by each level.
pub(crate) fn length_shown(levels: &[Level]) -> u32
    requires kinds { AreKinds levels.now }
    ensures { All (λ (state : BookState). result ≡ state.published) levels.now }
{
    levels[0].published()
}
