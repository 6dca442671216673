//! What is done in the first level in which a tile can be claimed; and all builds of each level.

ghost use Rattle.std.specs.Prelude.{◌≡◌, ◌+◌, All, IfOk, IfSome, None, OnErr, OnOk, map, slice_get};
ghost use Rattle.std.specs.List.{AllZip};
ghost use Rattle.build_queue.specs.BookState.{BookState, IsBook, least_awaited};
ghost use Rattle.build_queue.specs.Steps.{IsJob, after_claim, after_put_back, after_submit, submission};
ghost use Rattle.nav_book.specs.Settling.{IsUnclaimed, after_step, all_built};
ghost use Rattle.agent_kinds.specs.Firsts.{at_found, at_kind, first_claimable, first_job};
ghost use Rattle.agent_kinds.specs.Kinds.{AreKinds, IsShownAsBefore};
ghost use Rattle.agent_kinds.specs.KindSteps.{IsMeshOfKind, IsTileOfKind};

use mesh_types::TileMesh;
use nav_base::Steps;
use nav_book::{Job, Level, Submitted};
use nav_ground::TileNo;
use nav_lists::Shared;
use std::alloc::{AllocError, Global};
use std::sync::ledger::Ledger;

/// Builds the least tile that can be claimed in the least kind that has one, and gives both. None where there is none. Where memory is refused,
/// nothing has changed.
pub(crate) fn step_first<L: Ledger>(
    levels: &mut [Level],
    alloc: Global,
    steps: &mut Steps<L>,
) -> Result<Option<(usize, TileNo)>, AllocError>
    requires kinds { AreKinds levels.old }
    ensures found { IfOk result (λ found. found ≡ first_claimable levels.old) }
    ensures state { OnOk result (levels.new ≡ at_found after_step (first_claimable levels.old) levels.old) }
    ensures refused { OnErr result (levels.new ≡ levels.old) }
    ensures rules { AreKinds levels.new }
{
    for kind in 0..levels.len() {
        if let Some(tile) = levels[kind].step(alloc, steps)? {
            return Ok(Some((kind, tile)));
        }
    }
    Ok(None)
}

/// Claims the least tile that can be claimed in the least kind that has one, and gives the kind and the job. None where there is none. Where
/// memory is refused, nothing has changed.
pub(crate) fn claim_first(
    levels: &mut [Level],
    alloc: Global,
) -> Result<Option<(usize, Job)>, AllocError>
    requires kinds { AreKinds levels.old }
    ensures job { IfOk result (λ given. given ≡ first_job levels.old) }
    ensures fit { IfOk result (λ given. IfSome given (λ first. IfSome (slice_get levels.old first.0) (λ state. IsJob state.ground.setting first.1))) }
    ensures state { OnOk result (levels.new ≡ at_found after_claim (first_job levels.old) levels.old) }
    ensures refused { OnErr result (levels.new ≡ levels.old) }
    ensures rules { AreKinds levels.new }
{
    for kind in 0..levels.len() {
        if let Some(job) = levels[kind].claim(alloc)? {
            return Ok(Some((kind, job)));
        }
    }
    Ok(None)
}

/// Builds every tile that is awaited in each level. Where memory is refused, some of them are built.
pub(crate) fn build_all<L: Ledger>(
    levels: &mut [Level],
    alloc: Global,
    steps: &mut Steps<L>,
) -> Result<(), AllocError>
    requires kinds { AreKinds levels.old }
    requires free { All IsUnclaimed levels.old }
    ensures built { OnOk result (levels.new ≡ map all_built levels.old) }
    ensures none { OnOk result (All (λ (state : BookState). least_awaited state ≡ None) levels.new) }
    ensures same { AllZip IsShownAsBefore levels.old levels.new }
    ensures rules { AreKinds levels.new }
{
    for level in levels.iter_mut() {
        build_level(level, alloc, steps)?;
    }
    Ok(())
}

/// Builds every tile of a level that is awaited, in rising order. Where memory is refused, some of them are built.
fn build_level<L: Ledger>(
    level: &mut Level,
    alloc: Global,
    steps: &mut Steps<L>,
) -> Result<(), AllocError>
    requires free { IsUnclaimed level.old }
    requires rules { IsBook level.old }
    ensures built { OnOk result (level.new ≡ all_built level.old) }
    ensures none { OnOk result (least_awaited level.new ≡ None) }
    ensures same { IsShownAsBefore level.old level.new }
    ensures rules_after { IsBook level.new }
{
    while let Some(_tile) = level.step(alloc, steps)? {}
    Ok(())
}

/// Takes the build of a job of a kind in.
pub(crate) fn submit_to(
    levels: &mut [Level],
    kind: usize,
    job: Job,
    mesh: Shared<TileMesh>,
) -> Submitted
    requires kinds { AreKinds levels.old }
    requires there { IsTileOfKind levels.old kind job.tile }
    requires mesh { IsMeshOfKind levels.old kind job.tile job.shapes mesh }
    ensures answer { IfSome (slice_get levels.old kind) (λ state. result ≡ submission state job.tile job.shapes) }
    ensures state { levels.new ≡ at_kind kind (λ (state : BookState). after_submit state job.tile job.shapes) levels.old }
    ensures rules { AreKinds levels.new }
{
    levels[kind].submit(job, mesh)
}

/// Gives a job of a kind back.
pub(crate) fn put_back_to(levels: &mut [Level], kind: usize, job: Job)
    requires kinds { AreKinds levels.old }
    requires there { IsTileOfKind levels.old kind job.tile }
    ensures state { levels.new ≡ at_kind kind (λ (state : BookState). after_put_back state job.tile) levels.old }
    ensures rules { AreKinds levels.new }
{
    levels[kind].put_back(job);
}
