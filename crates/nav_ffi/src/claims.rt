//! Jobs of a registry over the border: tiles that worker threads of the host build beside whoever changes the obstacles.

ghost use Rattle.std.specs.Prelude.{◌≡◌, true, IfOk, OnErr, OnOk, option_map};
ghost use Rattle.build_queue.specs.Steps.{after_claim, after_put_back, after_submit, submission};
ghost use Rattle.nav_ffi.specs.Claims.{KeepsObstacles, level_in};
ghost use Rattle.nav_ffi.specs.Jobs.{AreFree, IsClaimed, IsHandedIn, IsPutBack};
ghost use Rattle.nav_handle.specs.Works.{IsOf, next_work};
ghost use Rattle.obstacle_registry.specs.Claims.{with_level};

use crate::jobs::{readiness, submit_status};
use nav_book::Submitted;
use nav_handle::{BUSY, BuildJob, EMPTY, FOREIGN, NO_MEMORY, NavdJob, OK, SAME};
use obstacle_registry::Registry;
use registry_handle::NavdRegistry;
use std::alloc::{AllocError, Global};

/// Claims the least tile of a registry that is awaited and not claimed; none exactly where there is no such tile. Where memory is refused, nothing
/// has changed.
fn claim(alloc: Global, held: &mut Registry) -> Result<Option<Box<BuildJob, Global>>, AllocError>
    ensures work { IfOk result (λ work. option_map (λ given. given.value) work ≡ next_work held.old.book) }
    ensures claimed { OnOk result (held.new ≡ with_level held.old (after_claim held.old.book)) }
    ensures refused { OnErr result (held.new ≡ held.old) }
{
    let ground = held.level().shared_ground()?;
    let Some(job) = held.claim(alloc)? else {
        return Ok(None);
    };
    match Box::new(alloc, BuildJob::of(ground, job)) {
        Ok(work) => Ok(Some(work)),
        Err(refused) => {
            held.put_back(refused.value.into_parts().0);
            Err(AllocError)
        }
    }
}

/// Hands a job in that is built: its tile is claimed no more, and the build is taken where it is still wanted.
fn hand_in(work: BuildJob, held: &mut Registry) -> Submitted
    requires of { IsOf work held.old.book.ground }
    requires built { work.built ≡ true }
    ensures answer { result ≡ submission held.old.book work.job.tile work.job.shapes }
    ensures stored { held.new ≡ with_level held.old (after_submit held.old.book work.job.tile work.job.shapes) }
{
    let (job, mesh) = work.into_parts();
    match mesh {
        Some(mesh) => held.submit(job, mesh),
        None => unreachable!(),
    }
}

/// Gives a job back: its tile is claimed no more.
fn give_back(work: BuildJob, held: &mut Registry)
    requires { IsOf work held.old.book.ground }
    ensures { held.new ≡ with_level held.old (after_put_back held.old.book work.job.tile) }
{
    held.put_back(work.into_parts().0);
}

/// Claims the least tile that is awaited and not claimed; the job's handle holds it then, and its number is left at `tile`.
#[unsafe(no_mangle)]
pub extern "C" fn navd_registry_claim(
    alloc: Global,
    registry: &mut NavdRegistry,
    job: &mut NavdJob,
    tile: &mut u32,
) -> u32
    ensures claimed { IsClaimed (level_in registry.old.registry) job.old.work tile.old
        (record { status = result; number = tile.new; level = level_in registry.new.registry; job = job.new.work }) }
    ensures obstacles { KeepsObstacles registry.old.registry registry.new.registry }
{
    let Some(mut held) = registry.take(alloc) else {
        return EMPTY;
    };
    if let Some(before) = job.take(alloc) {
        job.put(before);
        registry.put(held);
        return BUSY;
    }
    let ended = claim(alloc, &mut held);
    registry.put(held);
    match ended {
        Ok(Some(work)) => {
            *tile = work.tile();
            job.put(work);
            OK
        }
        Ok(None) => SAME,
        Err(_) => NO_MEMORY,
    }
}

/// Hands a job in that is built; its tile is claimed no more, and the job's handle holds nothing.
#[unsafe(no_mangle)]
pub extern "C" fn navd_registry_submit(
    alloc: Global,
    registry: &mut NavdRegistry,
    job: &mut NavdJob,
) -> u32
    ensures handed { IsHandedIn (level_in registry.old.registry) job.old.work
        (record { status = result; level = level_in registry.new.registry; job = job.new.work }) }
    ensures obstacles { KeepsObstacles registry.old.registry registry.new.registry }
{
    let Some(mut held) = registry.take(alloc) else {
        return EMPTY;
    };
    let Some(work) = job.take(alloc) else {
        registry.put(held);
        return EMPTY;
    };
    let ready = readiness(&work, held.level());
    if ready != OK {
        job.put(work);
        registry.put(held);
        return ready;
    }
    let answer = hand_in(Box::into_inner(work), &mut held);
    registry.put(held);
    submit_status(answer)
}

/// Gives a job back; its tile is claimed no more, and the job's handle holds nothing.
#[unsafe(no_mangle)]
pub extern "C" fn navd_registry_put_back(
    alloc: Global,
    registry: &mut NavdRegistry,
    job: &mut NavdJob,
) -> u32
    ensures back { IsPutBack (level_in registry.old.registry) job.old.work
        (record { status = result; level = level_in registry.new.registry; job = job.new.work }) }
    ensures obstacles { KeepsObstacles registry.old.registry registry.new.registry }
{
    let Some(mut held) = registry.take(alloc) else {
        return EMPTY;
    };
    let Some(work) = job.take(alloc) else {
        registry.put(held);
        return EMPTY;
    };
    if !work.is_of(held.level()) {
        job.put(work);
        registry.put(held);
        return FOREIGN;
    }
    give_back(Box::into_inner(work), &mut held);
    registry.put(held);
    OK
}

/// Ends all claims of a registry; what jobs hold may still be handed in.
#[unsafe(no_mangle)]
pub extern "C" fn navd_registry_put_back_all(alloc: Global, registry: &mut NavdRegistry) -> u32
    ensures free { AreFree (level_in registry.old.registry) (level_in registry.new.registry) result }
    ensures obstacles { KeepsObstacles registry.old.registry registry.new.registry }
{
    let Some(mut held) = registry.take(alloc) else {
        return EMPTY;
    };
    held.put_back_all();
    registry.put(held);
    OK
}
