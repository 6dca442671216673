//! Handles that other threads take out of.

ghost use Rattle.std.specs.Prelude.{◌<◌};

use nav_handle::{NavdJob, NavdLevel, NavdView};
use std::alloc::{AllocError, Global};
use std::thread;
use std::thread::Threads;

// What the handles hold is taken out, on so many threads.
fn empty_levels<R: Threads + Sync>(rt: &R, alloc: Global, levels: &mut [NavdLevel], threads: usize)
    requires some { 0 < threads }
{
    thread::for_each_mut(
        rt,
        levels,
        threads,
        &|_place, level| {
            let _ = level.take(alloc);
        },
    );
}

fn empty_views<R: Threads + Sync>(rt: &R, alloc: Global, views: &mut [NavdView], threads: usize)
    requires some { 0 < threads }
{
    thread::for_each_mut(
        rt,
        views,
        threads,
        &|_place, view| {
            let _ = view.take(alloc);
        },
    );
}

fn empty_jobs<R: Threads + Sync>(rt: &R, alloc: Global, jobs: &mut [NavdJob], threads: usize)
    requires some { 0 < threads }
{
    thread::for_each_mut(
        rt,
        jobs,
        threads,
        &|_place, job| {
            let _ = job.take(alloc);
        },
    );
}

#[test]
fn handles_go_to_other_threads(rt: HostRuntime) -> Result<(), AllocError> {
    let alloc = rt.alloc();
    let mut levels = vec![in alloc; NavdLevel::empty(alloc), NavdLevel::empty(alloc)]?;
    empty_levels(&rt, alloc, &mut levels, 2);
    let mut views = vec![in alloc; NavdView::empty(alloc), NavdView::empty(alloc)]?;
    empty_views(&rt, alloc, &mut views, 2);
    let mut jobs = vec![in alloc; NavdJob::empty(alloc), NavdJob::empty(alloc)]?;
    empty_jobs(&rt, alloc, &mut jobs, 2);
    Ok(())
}
