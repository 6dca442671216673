//! Tiles of a registry that other threads build: they are claimed, and handed in or put back. The obstacles, their ids and the version stay.

ghost use Rattle.std.specs.Prelude.{◌≡◌, ◌<◌, IfOk, IfSome, OnErr, OnOk};
ghost use Rattle.nav_ground.specs.Tiling.{tile_count};
ghost use Rattle.build_queue.specs.BookState.{IsUnclaimed};
ghost use Rattle.build_queue.specs.StepContracts.{IsClaimStep, IsPutBackAllStep, IsPutBackStep, IsSubmitStep};
ghost use Rattle.build_queue.specs.Steps.{IsJob, after_claim, after_put_back, after_put_back_all, after_submit, next_job, submission};
ghost use Rattle.nav_book.specs.LevelResults.{tile_under};
ghost use Rattle.obstacle_registry.specs.Claims.{with_level};
ghost use Rattle.obstacle_registry.specs.Registry.{IsRegistry};

use crate::live::LiveLevel;
use crate::registry::Registry;
use mesh_types::TileMesh;
use nav_book::{Job, Submitted};
use nav_lists::Shared;
use std::alloc::{AllocError, Global};

impl LiveLevel {
    pub(crate) fn claim(&mut self, alloc: Global) -> Result<Option<Job>, AllocError>
        ensures { IsClaimStep self.old self.new result }
    {
        self.level.claim(alloc)
    }

    pub(crate) fn put_back(&mut self, job: Job)
        requires { job.tile < tile_count self.old.ground.setting }
        ensures { IsPutBackStep self.old self.new job.tile }
    {
        self.level.put_back(job)
    }

    pub(crate) fn put_back_all(&mut self)
        ensures { IsPutBackAllStep self.old self.new }
    {
        self.level.put_back_all()
    }

    pub(crate) fn submit(&mut self, job: Job, mesh: Shared<TileMesh>) -> Submitted
        requires there { job.tile < tile_count self.old.ground.setting }
        requires mesh { mesh ≡ tile_under self.old.ground job.tile job.shapes }
        ensures { IsSubmitStep self.old self.new job.tile job.shapes result }
    {
        self.level.submit(job, mesh)
    }
}

impl Registry {
    /// Claims the least tile that is awaited and not claimed, and gives it with the shapes to build it under; none exactly where there is no such
    /// tile. Where memory is refused, nothing has changed.
    pub fn claim(&mut self, alloc: Global) -> Result<Option<Job>, AllocError>
        ensures job { IfOk result (λ job. job ≡ next_job self.old.book) }
        ensures fit { IfOk result (λ job. IfSome job (IsJob self.old.book.ground.setting)) }
        ensures claimed { OnOk result (self.new ≡ with_level self.old (after_claim self.old.book)) }
        ensures refused { OnErr result (self.new ≡ self.old) }
        ensures rules { IsRegistry self.new }
    {
        self.level.claim(alloc)
    }

    /// Puts a job back: its tile is claimed no more.
    pub fn put_back(&mut self, job: Job)
        requires { job.tile < tile_count self.old.book.ground.setting }
        ensures back { self.new ≡ with_level self.old (after_put_back self.old.book job.tile) }
        ensures rules { IsRegistry self.new }
    {
        self.level.put_back(job)
    }

    /// Puts all jobs back: no tile is claimed any more.
    pub fn put_back_all(&mut self)
        ensures back { self.new ≡ with_level self.old (after_put_back_all self.old.book) }
        ensures free { IsUnclaimed self.new.book }
        ensures rules { IsRegistry self.new }
    {
        self.level.put_back_all()
    }

    /// Takes the build of a job in: its tile is claimed no more. It is stale exactly where the tile is not awaited, or was not built under the shapes
    /// that touch it at the target, and then it is dropped, and nothing else changes. What is taken is shown by an update.
    pub fn submit(&mut self, job: Job, mesh: Shared<TileMesh>) -> Submitted
        requires there { job.tile < tile_count self.old.book.ground.setting }
        requires mesh { mesh ≡ tile_under self.old.book.ground job.tile job.shapes }
        ensures answer { result ≡ submission self.old.book job.tile job.shapes }
        ensures stored { self.new ≡ with_level self.old (after_submit self.old.book job.tile job.shapes) }
        ensures rules { IsRegistry self.new }
    {
        self.level.submit(job, mesh)
    }
}
