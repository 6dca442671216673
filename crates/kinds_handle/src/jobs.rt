//! Jobs of kinds: tiles that worker threads of the host build beside whoever changes them.

ghost use Rattle.std.specs.Prelude.{◌≡◌, ◌<◌, IfErr, IfOk, IfSome, None, OnErr, OnOk, Some, true, length, option_map, slice_get};
ghost use Rattle.std.specs.Arc.{arc_value};
ghost use Rattle.nav_ground.specs.Grounds.{IsGround};
ghost use Rattle.build_queue.specs.BookState.{BookState};
ghost use Rattle.build_queue.specs.Steps.{IsJob, after_claim, after_put_back, after_submit, submission};
ghost use Rattle.agent_kinds.specs.Firsts.{at_found, at_kind, first_job};
ghost use Rattle.nav_handle.specs.Works.{begun};
ghost use Rattle.kinds_handle.specs.KindJobs.{AreClaimed, AreHandedIn, ArePutBack, IsBackAt, IsDueWork, IsHandedAt, IsJobAt, IsJobOfKind, IsKnownAt, work_of};

use crate::handle::NavdKinds;
use crate::levels::kind_level;
use crate::steps::kind_told;
use agent_kinds::Kinds;
use nav_book::{Job, Submitted};
use nav_ground::Ground;
use nav_handle::{
    BUSY, BuildJob, EMPTY, FOREIGN, NO_MEMORY, NOT_YET, NavdJob, OK, OUT_OF_RANGE, SAME, STALE,
};
use std::alloc::{AllocError, Global};
use std::sync::Arc;

/// A job of a ground, on the heap; or the job again, where memory is refused.
fn boxed(alloc: Global, ground: Arc<Ground>, job: Job) -> Result<Box<BuildJob, Global>, Job>
    requires ground { IsGround (arc_value ground) }
    requires job { IsJob (arc_value ground).setting job }
    ensures made { IfOk result (λ work. work.value ≡ begun (arc_value ground) job) }
    ensures refused { IfErr result (λ back. back ≡ job) }
{
    match Box::new(alloc, BuildJob::of(ground, job)) {
        Ok(work) => Ok(work),
        Err(refused) => Err(refused.value.into_parts().0),
    }
}

/// The ground of a kind.
fn ground_at(held: &Kinds, kind: usize) -> Result<Arc<Ground>, AllocError>
    requires { kind < length held.now }
    ensures value { IfOk result (λ shared. option_map (λ (state : BookState). state.ground) (slice_get held.now kind) ≡ Some (arc_value shared)) }
    ensures rules { IfOk result (λ shared. IsGround (arc_value shared)) }
{
    held.level(kind).shared_ground()
}

/// A job that was claimed of a kind, on the heap; it is put back where memory is refused.
fn given(
    alloc: Global,
    held: &mut Kinds,
    kind: usize,
    job: Job,
) -> Result<(u32, Box<BuildJob, Global>), AllocError>
    requires { IsJobOfKind held.old kind job }
    ensures given { IfOk result (λ told. (told.0 ≡ kind) × (Some told.1.value ≡ work_of held.old kind job)) }
    ensures same { OnOk result (held.new ≡ held.old) }
    ensures back { OnErr result (held.new ≡ at_kind kind (λ (it : BookState). after_put_back it job.tile) held.old) }
{
    let made = match ground_at(held, kind) {
        Ok(ground) => boxed(alloc, ground, job),
        Err(_) => Err(job),
    };
    match made {
        Ok(work) => Ok((kind_told(kind), work)),
        Err(job) => {
            held.put_back(kind, job);
            Err(AllocError)
        }
    }
}

/// Claims the least tile that can be claimed of the least kind that has one: the kind, and the job. Where memory is refused, nothing has changed.
fn claim(
    alloc: Global,
    held: &mut Kinds,
) -> Result<Option<(u32, Box<BuildJob, Global>)>, AllocError>
    ensures work { IfOk result (λ told. IsDueWork held.old (first_job held.old) (option_map (λ first. (first.0, first.1.value)) told)) }
    ensures claimed { OnOk result (held.new ≡ at_found after_claim (first_job held.old) held.old) }
    ensures refused { OnErr result (held.new ≡ held.old) }
{
    match held.claim(alloc)? {
        Some((kind, job)) => Ok(Some(given(alloc, held, kind, job)?)),
        None => Ok(None),
    }
}

fn claim_into(
    alloc: Global,
    held: &mut Kinds,
    job: &mut NavdJob,
    kind: &mut u32,
    tile: &mut u32,
) -> u32
    requires { job.old.work ≡ None }
    ensures { AreClaimed (Some held.old) None kind.old tile.old
        (record { status = result; kind = kind.new; tile = tile.new; held = Some held.new; job = job.new.work }) }
{
    match claim(alloc, held) {
        Ok(Some((found, work))) => {
            *kind = found;
            *tile = work.tile();
            job.put(work);
            OK
        }
        Ok(None) => SAME,
        Err(_) => NO_MEMORY,
    }
}

/// Claims the least tile that can be claimed of the least kind that has one; the job's handle holds it then, and both are left at `kind` and `tile`.
pub fn claim_of_kinds(
    alloc: Global,
    kinds: &mut NavdKinds,
    job: &mut NavdJob,
    kind: &mut u32,
    tile: &mut u32,
) -> u32
    ensures { AreClaimed kinds.old.kinds job.old.work kind.old tile.old
        (record { status = result; kind = kind.new; tile = tile.new; held = kinds.new.kinds; job = job.new.work }) }
{
    let Some(mut held) = kinds.take(alloc) else {
        return EMPTY;
    };
    if let Some(before) = job.take(alloc) {
        job.put(before);
        kinds.put(held);
        return BUSY;
    }
    let status = claim_into(alloc, &mut held, job, kind, tile);
    kinds.put(held);
    status
}

/// Why a job may not go back to a kind, or that it may.
fn known_at(held: &Kinds, kind: u32, work: &BuildJob) -> u32
    ensures { IsKnownAt (slice_get held.now kind) work.now result }
{
    let Some(level) = kind_level(held, kind) else {
        return OUT_OF_RANGE;
    };
    if work.is_of(level) { OK } else { FOREIGN }
}

/// How a build that was handed in ends.
fn taken_status(answer: Submitted) -> u32
    ensures { result ≡ Rattle.kinds_handle.specs.KindJobs.taken_status answer }
{
    match answer {
        Submitted::Taken => OK,
        Submitted::Stale => STALE,
    }
}

/// Hands a job in to a kind that is built.
fn hand_in(held: &mut Kinds, kind: u32, work: BuildJob) -> Submitted
    requires of { IsJobAt (slice_get held.old kind) work }
    requires built { work.built ≡ true }
    ensures answer { IfSome (slice_get held.old kind) (λ state. result ≡ submission state work.job.tile work.job.shapes) }
    ensures stored { held.new ≡ at_kind kind (λ (it : BookState). after_submit it work.job.tile work.job.shapes) held.old }
{
    let (job, mesh) = work.into_parts();
    match mesh {
        Some(mesh) => held.submit(kind as usize, job, mesh),
        None => unreachable!(),
    }
}

fn submit(held: &mut Kinds, kind: u32, work: Box<BuildJob, Global>, job: &mut NavdJob) -> u32
    requires { job.old.work ≡ None }
    ensures { IsHandedAt (slice_get held.old kind) held.old kind work.value (record { status = result; held = Some held.new; job = job.new.work }) }
{
    let known = known_at(held, kind, &work);
    if known != OK {
        job.put(work);
        return known;
    }
    if !work.is_built() {
        job.put(work);
        return NOT_YET;
    }
    taken_status(hand_in(held, kind, Box::into_inner(work)))
}

/// Hands a job in that is built, to the kind that was told; its tile is claimed no more, and the job's handle holds nothing.
pub fn submit_to_kind(alloc: Global, kinds: &mut NavdKinds, kind: u32, job: &mut NavdJob) -> u32
    ensures { AreHandedIn kinds.old.kinds kind job.old.work (record { status = result; held = kinds.new.kinds; job = job.new.work }) }
{
    let Some(mut held) = kinds.take(alloc) else {
        return EMPTY;
    };
    let Some(work) = job.take(alloc) else {
        kinds.put(held);
        return EMPTY;
    };
    let status = submit(&mut held, kind, work, job);
    kinds.put(held);
    status
}

/// Gives a job back to a kind: its tile is claimed no more.
fn give_back(held: &mut Kinds, kind: u32, work: BuildJob)
    requires { IsJobAt (slice_get held.old kind) work }
    ensures { held.new ≡ at_kind kind (λ (it : BookState). after_put_back it work.job.tile) held.old }
{
    held.put_back(kind as usize, work.into_parts().0);
}

fn put_back(held: &mut Kinds, kind: u32, work: Box<BuildJob, Global>, job: &mut NavdJob) -> u32
    requires { job.old.work ≡ None }
    ensures { IsBackAt (slice_get held.old kind) held.old kind work.value (record { status = result; held = Some held.new; job = job.new.work }) }
{
    let known = known_at(held, kind, &work);
    if known != OK {
        job.put(work);
        return known;
    }
    give_back(held, kind, Box::into_inner(work));
    OK
}

/// Gives a job back to the kind that was told; its tile is claimed no more, and the job's handle holds nothing.
pub fn put_back_to_kind(alloc: Global, kinds: &mut NavdKinds, kind: u32, job: &mut NavdJob) -> u32
    ensures { ArePutBack kinds.old.kinds kind job.old.work (record { status = result; held = kinds.new.kinds; job = job.new.work }) }
{
    let Some(mut held) = kinds.take(alloc) else {
        return EMPTY;
    };
    let Some(work) = job.take(alloc) else {
        kinds.put(held);
        return EMPTY;
    };
    let status = put_back(&mut held, kind, work, job);
    kinds.put(held);
    status
}
