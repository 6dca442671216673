//! Jobs and steps over the border: tiles that worker threads of the host build beside whoever changes the level, and what is built without them.

ghost use Rattle.std.specs.Prelude.{◌≡◌, ◌<◌, None, OnErr, OnOk, length, IfOk};
ghost use Rattle.nav_handle.specs.Works.{built};
ghost use Rattle.nav_ffi.specs.Jobs.{AreFree, IsBuilt, IsClaimed, IsHandedIn, IsPutBack, IsReady};
ghost use Rattle.build_queue.specs.BookState.{least_claimable};
ghost use Rattle.nav_book.specs.Settling.{IsUnclaimed, after_settle, after_step};
ghost use Rattle.nav_ffi.specs.Steps.{IsPublishing, IsSettled, UnlessRefused, aimed, stepped};

use nav_base::Steps;
use nav_book::{Level, Published, Submitted};
use nav_handle::{
    BUSY, BuildJob, EMPTY, FOREIGN, NO_MEMORY, NOT_YET, NavdJob, NavdLevel, OK, SAME, STALE,
};
use std::alloc::{AllocError, Global};
use std::marker::Brand;
use std::sync::ledger::{Blank, Ledger};

/// Claims the least tile that is awaited and not claimed; the job's handle holds it then, and its number is left at `tile`.
#[unsafe(no_mangle)]
pub extern "C" fn navd_claim(
    alloc: Global,
    level: &mut NavdLevel,
    job: &mut NavdJob,
    tile: &mut u32,
) -> u32
    ensures { IsClaimed level.old.level job.old.work tile.old
        (record { status = result; number = tile.new; level = level.new.level; job = job.new.work }) }
{
    let Some(mut held) = level.take(alloc) else {
        return EMPTY;
    };
    if let Some(before) = job.take(alloc) {
        job.put(before);
        level.put(held);
        return BUSY;
    }
    let ended = BuildJob::claim(alloc, &mut held);
    level.put(held);
    match ended {
        Ok(Some(work)) => {
            *tile = work.tile();
            job.put(work);
            OK
        }
        Ok(None) => SAME,
        Err(_) => NO_MEMORY,
    }
}

/// A job once its tile is built.
fn build<L: Ledger>(alloc: Global, work: &mut BuildJob, blank: Blank) -> Result<(), AllocError>
    requires name { blank.name ≡ L.name }
    requires parts { blank.parts ≡ L.parts }
    requires some { 0 < blank.parts }
    ensures built { OnOk result (work.new ≡ built work.old) }
    ensures refused { OnErr result (work.new ≡ work.old) }
{
    let mut steps = Steps::<L>::new(blank);
    work.build(alloc, &mut steps)
}

/// Builds a job's tile, from the job alone.
#[unsafe(no_mangle)]
pub extern "C" fn navd_build(alloc: Global, job: &mut NavdJob) -> u32
    ensures { IsBuilt job.old.work job.new.work result }
{
    let Some(mut work) = job.take(alloc) else {
        return EMPTY;
    };
    if work.is_built() {
        job.put(work);
        return SAME;
    }
    let ended = build::<Brand>(alloc, &mut work, Blank::new(1));
    job.put(work);
    match ended {
        Ok(()) => OK,
        Err(_) => NO_MEMORY,
    }
}

/// How a build that was handed in ends.
pub(crate) fn submit_status(answer: Submitted) -> u32
    ensures { result ≡ Rattle.nav_ffi.specs.Jobs.submit_status answer }
{
    match answer {
        Submitted::Taken => OK,
        Submitted::Stale => STALE,
    }
}

/// Why a job may not be handed in, or that it may.
pub(crate) fn readiness(work: &BuildJob, level: &Level) -> u32
    ensures { IsReady work.now level.now.ground result }
{
    if !work.is_of(level) {
        return FOREIGN;
    }
    if work.is_built() { OK } else { NOT_YET }
}

/// Hands a job in that is built; its tile is claimed no more, and the job's handle holds nothing.
#[unsafe(no_mangle)]
pub extern "C" fn navd_submit(alloc: Global, level: &mut NavdLevel, job: &mut NavdJob) -> u32
    ensures { IsHandedIn level.old.level job.old.work (record { status = result; level = level.new.level; job = job.new.work }) }
{
    let Some(mut held) = level.take(alloc) else {
        return EMPTY;
    };
    let Some(work) = job.take(alloc) else {
        level.put(held);
        return EMPTY;
    };
    let ready = readiness(&work, &held);
    if ready != OK {
        job.put(work);
        level.put(held);
        return ready;
    }
    let answer = Box::into_inner(work).hand_in(&mut held);
    level.put(held);
    submit_status(answer)
}

/// Gives a job back; its tile is claimed no more, and the job's handle holds nothing.
#[unsafe(no_mangle)]
pub extern "C" fn navd_put_back(alloc: Global, level: &mut NavdLevel, job: &mut NavdJob) -> u32
    ensures { IsPutBack level.old.level job.old.work (record { status = result; level = level.new.level; job = job.new.work }) }
{
    let Some(mut held) = level.take(alloc) else {
        return EMPTY;
    };
    let Some(work) = job.take(alloc) else {
        level.put(held);
        return EMPTY;
    };
    if !work.is_of(&held) {
        job.put(work);
        level.put(held);
        return FOREIGN;
    }
    Box::into_inner(work).give_back(&mut held);
    level.put(held);
    OK
}

/// Ends all claims of a level; what jobs hold may still be handed in.
#[unsafe(no_mangle)]
pub extern "C" fn navd_put_back_all(alloc: Global, level: &mut NavdLevel) -> u32
    ensures { AreFree level.old.level level.new.level result }
{
    let Some(mut held) = level.take(alloc) else {
        return EMPTY;
    };
    held.put_back_all();
    level.put(held);
    OK
}

/// Closes a job, if the handle holds one. Its tile stays claimed.
#[unsafe(no_mangle)]
pub extern "C" fn navd_job_close(alloc: Global, job: &mut NavdJob)
    ensures { job.new.work ≡ None }
{
    let _ = job.take(alloc);
}

/// Makes the whole history the target, and leaves its length at `target`.
#[unsafe(no_mangle)]
pub extern "C" fn navd_aim(alloc: Global, level: &mut NavdLevel, target: &mut u32) -> u32
    ensures { record { status = result; number = target.new; held = level.new.level } ≡ aimed level.old.level target.old }
{
    let Some(mut held) = level.take(alloc) else {
        return EMPTY;
    };
    *target = held.aim();
    level.put(held);
    OK
}

/// Publishes the target, once no tile is awaited. How many entries are published, or the least tile that is awaited, is left at `number`.
#[unsafe(no_mangle)]
pub extern "C" fn navd_publish(alloc: Global, level: &mut NavdLevel, number: &mut u32) -> u32
    ensures { IsPublishing level.old.level number.old (record { status = result; number = number.new; held = level.new.level }) }
{
    let Some(mut held) = level.take(alloc) else {
        return EMPTY;
    };
    let ended = held.publish(alloc);
    level.put(held);
    let (status, told) = match ended {
        Ok(Published::New { k }) => (OK, k),
        Ok(Published::Same { k }) => (SAME, k),
        Ok(Published::NotYet { tile }) => (NOT_YET, tile),
        Err(_) => return NO_MEMORY,
    };
    *number = told;
    status
}

/// A level once it was settled, and how many entries are published then.
fn settle<L: Ledger>(alloc: Global, level: &mut Level, blank: Blank) -> Result<u32, AllocError>
    requires name { blank.name ≡ L.name }
    requires parts { blank.parts ≡ L.parts }
    requires some { 0 < blank.parts }
    ensures length { IfOk result (λ k. k ≡ length level.old.history) }
    ensures level { OnOk result (level.new ≡ after_settle level.old) }
    ensures ground { level.new.ground ≡ level.old.ground }
    ensures history { level.new.history ≡ level.old.history }
    ensures free { IsUnclaimed level.new }
    ensures refused { OnErr result (level.new.published ≡ level.old.published) }
{
    let mut steps = Steps::<L>::new(blank);
    level.settle(alloc, &mut steps)
}

/// Builds all that the history asks for and publishes it; how many entries that are is left at `published`.
#[unsafe(no_mangle)]
pub extern "C" fn navd_settle(alloc: Global, level: &mut NavdLevel, published: &mut u32) -> u32
    ensures { IsSettled level.old.level published.old (record { status = result; number = published.new; held = level.new.level }) }
{
    let Some(mut held) = level.take(alloc) else {
        return EMPTY;
    };
    let ended = settle::<Brand>(alloc, &mut held, Blank::new(1));
    level.put(held);
    match ended {
        Ok(k) => {
            *published = k;
            OK
        }
        Err(_) => NO_MEMORY,
    }
}

/// A level once its least awaited tile was built and handed in, and that tile, if there is one.
fn step<L: Ledger>(
    alloc: Global,
    level: &mut Level,
    blank: Blank,
) -> Result<Option<u32>, AllocError>
    requires name { blank.name ≡ L.name }
    requires parts { blank.parts ≡ L.parts }
    requires some { 0 < blank.parts }
    ensures tile { IfOk result (λ tile. tile ≡ least_claimable level.old) }
    ensures stepped { OnOk result (level.new ≡ after_step level.old) }
    ensures refused { OnErr result (level.new ≡ level.old) }
{
    let mut steps = Steps::<L>::new(blank);
    level.step(alloc, &mut steps)
}

/// Builds the least tile that is awaited and not claimed, and hands it in; its number is left at `tile`.
#[unsafe(no_mangle)]
pub extern "C" fn navd_step(alloc: Global, level: &mut NavdLevel, tile: &mut u32) -> u32
    ensures { UnlessRefused (stepped level.old.level tile.old) level.old.level tile.old
        (record { status = result; number = tile.new; held = level.new.level }) }
{
    let Some(mut held) = level.take(alloc) else {
        return EMPTY;
    };
    let ended = step::<Brand>(alloc, &mut held, Blank::new(1));
    level.put(held);
    match ended {
        Ok(Some(built)) => {
            *tile = built;
            OK
        }
        Ok(None) => SAME,
        Err(_) => NO_MEMORY,
    }
}
