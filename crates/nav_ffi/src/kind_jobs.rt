//! Jobs of kinds over the border: tiles that worker threads of the host build beside whoever changes the kinds.

ghost use Rattle.kinds_handle.specs.KindJobs.{AreClaimed, AreHandedIn, ArePutBack};
ghost use Rattle.kinds_handle.specs.KindsSteps.{AreAllFree};

use kinds_handle::{NavdKinds, claim_of_kinds, free_kinds, put_back_to_kind, submit_to_kind};
use nav_handle::NavdJob;
use std::alloc::Global;

/// Claims the least tile that can be claimed of the least kind that has one; the job's handle holds it then, and both are left at `kind` and `tile`.
#[unsafe(no_mangle)]
pub extern "C" fn navd_kinds_claim(
    alloc: Global,
    kinds: &mut NavdKinds,
    job: &mut NavdJob,
    kind: &mut u32,
    tile: &mut u32,
) -> u32
    ensures { AreClaimed kinds.old.kinds job.old.work kind.old tile.old
        (record { status = result; kind = kind.new; tile = tile.new; held = kinds.new.kinds; job = job.new.work }) }
{
    claim_of_kinds(alloc, kinds, job, kind, tile)
}

/// Hands a job in that is built, to the kind that was told; its tile is claimed no more, and the job's handle holds nothing.
#[unsafe(no_mangle)]
pub extern "C" fn navd_kinds_submit(
    alloc: Global,
    kinds: &mut NavdKinds,
    kind: u32,
    job: &mut NavdJob,
) -> u32
    ensures { AreHandedIn kinds.old.kinds kind job.old.work (record { status = result; held = kinds.new.kinds; job = job.new.work }) }
{
    submit_to_kind(alloc, kinds, kind, job)
}

/// Gives a job back to the kind that was told; its tile is claimed no more, and the job's handle holds nothing.
#[unsafe(no_mangle)]
pub extern "C" fn navd_kinds_put_back(
    alloc: Global,
    kinds: &mut NavdKinds,
    kind: u32,
    job: &mut NavdJob,
) -> u32
    ensures { ArePutBack kinds.old.kinds kind job.old.work (record { status = result; held = kinds.new.kinds; job = job.new.work }) }
{
    put_back_to_kind(alloc, kinds, kind, job)
}

/// Ends all claims of all kinds; what jobs hold may still be handed in.
#[unsafe(no_mangle)]
pub extern "C" fn navd_kinds_put_back_all(alloc: Global, kinds: &mut NavdKinds) -> u32
    ensures { AreAllFree kinds.old.kinds kinds.new.kinds result }
{
    free_kinds(alloc, kinds)
}
