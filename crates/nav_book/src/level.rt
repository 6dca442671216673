//! The level: its history, the tiles that wait for a build, those that were built since the last publishing, and the published mesh.

ghost use Rattle.std.specs.Prelude.{◌≡◌, ◌+◌, ◌<◌, ◌≤◌, ◌++◌, [], List, None, length, slice_range, IfOk, OnOk, OnErr};
ghost use Rattle.std.specs.Arc.{arc_value};
ghost use Rattle.nav_ground.specs.declared.history.Entry.{Entry};
ghost use Rattle.nav_ground.specs.Grounds.{IsGround};
ghost use Rattle.nav_ground.specs.History.{IsRequest, IsHistory, alive_after};
ghost use Rattle.nav_ground.specs.Tiling.{tile_count};
ghost use Rattle.mesh_types.specs.Builds.{build_of};
ghost use Rattle.mesh_types.specs.Right.{IsRight};
ghost use Rattle.mesh_types.specs.Soundness.{IsSound, link_count, polygon_count};
ghost use Rattle.tile_build.specs.Meshes.{tiles_under};
ghost use Rattle.nav_query.specs.Questions.{HasLowCost, HasUnfoldedWay, IsAnswerable};
ghost use Rattle.build_queue.specs.BookState.{IsBook, first_state, least_awaited};
ghost use Rattle.build_queue.specs.Renewal.{AddsAgain, IsAllShown};
ghost use Rattle.build_queue.specs.StepContracts.{IsAimStep, IsClaimStep, IsPutBackAllStep, IsPutBackStep, IsRenewStep, IsRequestStep, IsShowStep, IsSubmitStep};
ghost use Rattle.build_queue.specs.Steps.{IsJob};
ghost use Rattle.nav_book.specs.CallContracts.{IsPublishStep};
ghost use Rattle.nav_book.specs.LevelResults.{published_mesh, target_mesh, tile_under};

use crate::builds::{BuildCache, NewMeshes};
use crate::settle::{links, polygons};
use crate::shown::PublishedMesh;
use build_queue::{BuildQueue, HistoryFull, Job, Published, Submitted};
use mesh_types::{Answer, Asked, Mesh, TileMesh};
use nav_base::{Question, Steps};
use nav_ground::{Entry, Ground, Reply, Request, TileNo};
use nav_lists::{Duplicate, Items, Shared};
use nav_query::PreparedMesh;
use std::alloc::{AllocError, Global};
use std::marker::Model;
use std::sync::Arc;
use std::sync::ledger::Ledger;
use tile_links::{joined, replaced};

/// The history of the requests to a ground, the tiles that wait for a build, and the published mesh.
///
/// Contracts see its state, of which each call is a step.
#[derive(Drop)]
pub struct Level {
    pub(crate) queue: BuildQueue,
    /// The tile meshes that are stored and not published yet.
    pub(crate) fresh: NewMeshes,
    pub(crate) mesh: PublishedMesh,
    /// The ground, with the builds that the level itself made last.
    pub(crate) builds: BuildCache,
}

impl Model for Level {
    ghost use Rattle.build_queue.specs.BookState.{BookState};

    ghost Value = { BookState };

    ghost use Rattle.nav_book.specs.LevelRepresentation.{state_of, IsKept};

    ghost view = { state_of };

    ghost invariant = { IsKept };
}

impl Level {
    /// The level of a ground, with no entries, whose published mesh is that of the ground without obstacles: the tiles are those. It takes
    /// the room for a whole history, for as many live obstacles as the setting allows, and for what is kept of each tile, so that requests
    /// and builds that come in take no memory.
    pub fn begin(
        alloc: Global,
        level: Arc<Ground>,
        tiles: Items<Shared<TileMesh>>,
    ) -> Result<Level, AllocError>
        requires level { IsGround (arc_value level) }
        requires tiles { tiles ≡ tiles_under (arc_value level) [] }
        ensures state { IfOk result (λ made. made ≡ first_state (arc_value level)) }
        ensures rules { IfOk result IsBook }
    {
        let builds = BuildCache::new(alloc, Arc::try_clone(&level)?);
        let fresh = NewMeshes::new(alloc, tiles.len())?;
        let mesh = joined(alloc, &level.setting, tiles)?;
        let shared = Shared::new(alloc, mesh)?;
        let queue = BuildQueue::begin(alloc, level)?;
        Ok(Level {
            queue,
            fresh,
            mesh: PublishedMesh::new(alloc, shared),
            builds,
        })
    }

    /// Appends a request of a lane to the history, and gives the number of its entry, from 1, and its answer. What was published stays.
    /// It is refused exactly where the history is full, and then nothing changes. It takes no memory.
    pub fn request(&mut self, lane: u32, request: Request) -> Result<(u32, Reply), HistoryFull>
        requires { IsRequest request }
        ensures { IsRequestStep self.old self.new lane request result }
    {
        self.queue.request(lane, request)
    }

    /// Makes the whole history the target, and gives its length. A tile is awaited from then on where the shapes that it was last built
    /// under are not those that touch it at the target.
    pub fn aim(&mut self) -> u32
        ensures { IsAimStep self.old self.new result }
    {
        self.queue.aim()
    }

    /// Claims the least tile that is awaited and not claimed, and gives it with the shapes to build it under: those that are alive at the
    /// target and touch it. None exactly where there is no such tile. Where memory is refused, nothing has changed.
    pub fn claim(&mut self, alloc: Global) -> Result<Option<Job>, AllocError>
        ensures { IsClaimStep self.old self.new result }
    {
        self.queue.claim(alloc)
    }

    /// Gives a job back: its tile is claimed no more.
    pub fn put_back(&mut self, job: Job)
        requires { job.tile < tile_count self.old.ground.setting }
        ensures { IsPutBackStep self.old self.new job.tile }
    {
        self.queue.put_back(job.tile)
    }

    /// Gives all jobs back: no tile is claimed any more.
    pub fn put_back_all(&mut self)
        ensures { IsPutBackAllStep self.old self.new }
    {
        self.queue.put_back_all()
    }

    /// The mesh of a job's tile under the job's shapes, built or taken from the builds that are remembered. It takes one step, also where memory
    /// is refused.
    pub(crate) fn build<L: Ledger>(
        &mut self,
        alloc: Global,
        job: &Job,
        steps: &mut Steps<L>,
    ) -> Result<Shared<TileMesh>, AllocError>
        requires { IsJob self.old.ground.setting job.now }
        ensures same { self.new ≡ self.old }
        ensures mesh { IfOk result (λ mesh. mesh ≡ tile_under self.old.ground job.now.tile job.now.shapes) }
        ensures step { steps.new ≡ steps.old + 1 }
    {
        if let Some(mesh) = self.builds.remembered(job) {
            steps.tick();
            return Ok(mesh);
        }
        let _ = self.remember_stored(alloc, job.tile);
        self.builds.build(alloc, job, steps)
    }

    /// Remembers the published mesh of a tile that has no fresh one, since what comes may go again: then the tile is as it was.
    fn remember_stored(&mut self, alloc: Global, tile: TileNo) -> Result<(), AllocError>
        requires { tile < tile_count self.old.ground.setting }
        ensures { self.new ≡ self.old }
    {
        if self.fresh.has(tile) {
            return Ok(());
        }
        let job = Job {
            tile,
            shapes: self.queue.stored(tile).duplicate(alloc)?,
        };
        if self.builds.remembered(&job).is_some() {
            return Ok(());
        }
        match self.mesh.get().tiles.get(tile as usize) {
            Some(mesh) => self.builds.remember(alloc, &job, mesh),
            None => Ok(()),
        }
    }

    /// Takes the build of a job in: its tile is claimed no more. It is stale exactly where the tile is not awaited, or was not built under
    /// the shapes that touch it at the target, and then it is dropped, and nothing else changes. It takes no memory.
    pub fn submit(&mut self, job: Job, mesh: Shared<TileMesh>) -> Submitted
        requires there { job.tile < tile_count self.old.ground.setting }
        requires mesh { mesh ≡ tile_under self.old.ground job.tile job.shapes }
        ensures { IsSubmitStep self.old self.new job.tile job.shapes result }
    {
        let Job { tile, shapes } = job;
        let answer = self.queue.submit(tile, shapes);
        match answer {
            Submitted::Taken => {
                self.fresh.put(tile, mesh);
                answer
            }
            Submitted::Stale => answer,
        }
    }

    /// What a publish is answered now: that a tile is awaited, of which the least is named; else that the target is published already, or
    /// that it comes to be published. Nothing that a caller sees has changed.
    pub fn publication(&mut self) -> Published
        ensures answer { result ≡ Rattle.build_queue.specs.Steps.publication self.old }
        ensures same { self.new ≡ self.old }
    {
        self.queue.publication()
    }

    /// The entries that are to be published next: those behind the published ones up to the target.
    pub fn next_entries(&self) -> &[Entry]
        ensures { result.now ≡ slice_range self.now.history self.now.published self.now.target }
    {
        let from = self.queue.published() as usize;
        let to = self.queue.target() as usize;
        &self.queue.entries()[from..to]
    }

    /// The mesh for the target, made of the published one and the tiles that were built since; the two share all others. It has landmarks where
    /// those of the published one can be kept, and memory for that is left.
    pub fn next_mesh(&self, alloc: Global) -> Result<PreparedMesh, AllocError>
        requires { least_awaited self.now ≡ None }
        ensures mesh { IfOk result (λ mesh. mesh ≡ target_mesh self.now) }
        ensures sound { IfOk result IsSound }
    {
        let news = self.fresh.news();
        let mesh = replaced(alloc, self.mesh.get(), news)?;
        let shared = Shared::new(alloc, mesh)?;
        Ok(self.mesh.after(alloc, shared, news))
    }

    /// Publishes the target with its mesh. It takes no memory.
    pub fn show(&mut self, mesh: PreparedMesh)
        requires built { least_awaited self.old ≡ None }
        requires mesh { mesh ≡ target_mesh self.old }
        requires sound { IsSound mesh }
        ensures { IsShowStep self.old self.new }
    {
        self.fresh.clear();
        self.mesh.show(mesh);
        self.queue.publish();
    }

    /// Publishes the target. It is not yet to be where a tile is awaited, of which the least is named, and it is published already where the
    /// target is the published length; then nothing changes, and no memory is taken. Memory may be refused only where the target is to be
    /// published, and then nothing has changed.
    pub fn publish(&mut self, alloc: Global) -> Result<Published, AllocError>
        ensures { IsPublishStep self.old self.new result }
    {
        let answer = self.publication();
        match answer {
            Published::New { .. } => {
                let next = self.next_mesh(alloc)?;
                self.show(next);
                Ok(answer)
            }
            _ => Ok(answer),
        }
    }

    /// Begins the history again, where all of it is published, so that it can go on where it would come to be full: it adds the obstacles that
    /// are alive, in order of their numbers, and all of that is published. An obstacle's number is its place in that order, from 1; the numbers
    /// that they had are told in the same order. Nothing is built, the published mesh is the same, and no tile is claimed then. Where memory is
    /// refused, nothing has changed.
    pub fn renew(&mut self, alloc: Global) -> Result<Items<u32>, AllocError>
        requires { IsAllShown self.old }
        ensures numbers { IfOk result (λ numbers. numbers ≡ alive_after self.old.history (length self.old.history)) }
        ensures did { OnOk result (IsRenewStep self.old self.new) }
        ensures mesh { OnOk result (published_mesh self.new ≡ published_mesh self.old) }
        ensures refused { OnErr result (self.new ≡ self.old) }
    {
        let numbers = self.alive(alloc)?;
        self.begin_again();
        Ok(numbers)
    }

    /// Begins the history again as `renew` does, for one who was told the numbers by `alive`. It takes no memory.
    pub fn begin_again(&mut self)
        requires { IsAllShown self.old }
        ensures did { IsRenewStep self.old self.new }
        ensures mesh { published_mesh self.new ≡ published_mesh self.old }
    {
        self.queue.renew()
    }

    /// The history that `renew` leaves, and then the published mesh is that of this history.
    pub fn renewed(&self, alloc: Global) -> Result<Items<Entry>, AllocError>
        requires { IsAllShown self.now }
        ensures again { IfOk result (AddsAgain self.now.history (alive_after self.now.history (length self.now.history))) }
        ensures rules { IfOk result (IsHistory self.now.ground.setting.limit) }
        ensures mesh { IfOk result (λ entries. build_of self.now.ground entries (length entries) ≡ published_mesh self.now) }
    {
        self.queue.renewed(alloc)
    }

    /// The published length, and an answer to the question that is right in the mesh as it was last published. A path that is found costs
    /// less than 2^45, and no portal on its way folds back on the one before it.
    pub fn ask(&self, alloc: Global, question: &Question) -> Result<(u32, Answer), AllocError>
        requires { IsAnswerable question.now }
        ensures published { IfOk result (λ told. told.0 ≡ self.now.published) }
        ensures right { IfOk result (λ told. IsRight (published_mesh self.now) question.now told.1) }
        ensures low_cost { IfOk result (λ told. HasLowCost told.1) }
        ensures unfolded { IfOk result (λ told. HasUnfoldedWay told.1) }
    {
        let answer = self.mesh.ask(alloc, question)?;
        Ok((self.queue.published(), answer))
    }

    /// The same; the memory that a search for a path works in is kept for the next.
    pub fn ask_in_room(
        &mut self,
        alloc: Global,
        question: &Question,
    ) -> Result<(u32, Answer), AllocError>
        requires { IsAnswerable question.now }
        ensures published { IfOk result (λ told. told.0 ≡ self.old.published) }
        ensures right { IfOk result (λ told. IsRight (published_mesh self.old) question.now told.1) }
        ensures low_cost { IfOk result (λ told. HasLowCost told.1) }
        ensures unfolded { IfOk result (λ told. HasUnfoldedWay told.1) }
        ensures same { self.new ≡ self.old }
    {
        let answer = self.mesh.ask_in_room(alloc, question)?;
        Ok((self.queue.published(), answer))
    }

    /// The same, for one who asks much: the 24th path question that is so asked without landmarks makes some first, where memory for that is
    /// left, and each publish keeps them where it can. Only memory for the answer is refused.
    pub fn ask_and_prepare(
        &mut self,
        alloc: Global,
        question: &Question,
    ) -> Result<(u32, Answer), AllocError>
        requires { IsAnswerable question.now }
        ensures published { IfOk result (λ told. told.0 ≡ self.old.published) }
        ensures right { IfOk result (λ told. IsRight (published_mesh self.old) question.now told.1) }
        ensures low_cost { IfOk result (λ told. HasLowCost told.1) }
        ensures unfolded { IfOk result (λ told. HasUnfoldedWay told.1) }
        ensures same { self.new ≡ self.old }
    {
        let answer = self.mesh.ask_and_prepare(alloc, question)?;
        Ok((self.queue.published(), answer))
    }

    /// Makes landmarks of the published mesh where there are none. They cost about as much as thirty path questions, and each later one closes a
    /// fifth of the polygons that it would, or fewer. A publish keeps them where it can. Nothing that a caller sees has changed, also where
    /// memory is refused.
    pub fn prepare(&mut self, alloc: Global) -> Result<(), AllocError>
        ensures same { self.new ≡ self.old }
    {
        self.mesh.prepare(alloc)
    }

    /// The published length, and an answer to a question of any kind that is right in the mesh as it was last published.
    pub fn ask_by<Q: Asked>(
        &self,
        alloc: Global,
        question: &Q,
    ) -> Result<(u32, Q::Answer), AllocError>
        requires question { Q.can_ask question.now }
        ensures published { IfOk result (λ told. told.0 ≡ self.now.published) }
        ensures right { IfOk result (λ told. Q.is_right question.now (published_mesh self.now) told.1) }
        ensures rules { IsBook self.now }
    {
        let answer = question.ask(alloc, self.mesh())?;
        Ok((self.queue.published(), answer))
    }

    /// The ground, as it is without obstacles.
    pub fn ground(&self) -> &Ground
        ensures value { result.now ≡ self.now.ground }
        ensures rules { IsBook self.now }
    {
        self.queue.ground()
    }

    /// A further owner of the ground, for one who builds its tiles beside whoever changes the level. It takes no memory; it is refused only
    /// where the count of owners has reached its end.
    pub fn shared_ground(&self) -> Result<Arc<Ground>, AllocError>
        ensures value { IfOk result (λ shared. arc_value shared ≡ self.now.ground) }
        ensures rules { IsBook self.now }
    {
        self.queue.shared_ground()
    }

    /// The mesh as it was last published. It is also that of every longer history at that length.
    pub fn mesh(&self) -> &Mesh
        ensures value { result.now ≡ published_mesh self.now }
        ensures lasting { (more : List Entry) → result.now ≡ build_of self.now.ground (self.now.history ++ more) self.now.published }
        ensures sound { IsSound (published_mesh self.now) }
        ensures rules { IsBook self.now }
    {
        self.mesh.get()
    }

    /// A further owner of the mesh as it was last published, which stays as it is. It takes no memory; it is refused only where the count of
    /// owners has reached its end.
    pub fn shared_mesh(&self) -> Result<Shared<Mesh>, AllocError>
        ensures value { IfOk result (λ mesh. mesh ≡ published_mesh self.now) }
        ensures sound { IfOk result IsSound }
    {
        self.mesh.share_mesh()
    }

    /// The same with the landmarks of the mesh, where there are some.
    pub fn prepared_mesh(&self) -> Result<PreparedMesh, AllocError>
        ensures value { IfOk result (λ mesh. mesh ≡ published_mesh self.now) }
        ensures sound { IfOk result IsSound }
    {
        self.mesh.share()
    }

    /// How many polygons and how many links the mesh has as it was last published; a link leads one way. The obstacles may be any: there are
    /// never more than 8000000 polygons and 64000000 links.
    pub fn mesh_counts(&self) -> (u32, u32)
        ensures polygons { result.0 ≡ polygon_count (published_mesh self.now).tiles }
        ensures links { result.1 ≡ link_count (published_mesh self.now) }
        ensures few_polygons { result.0 ≤ 8000000 }
        ensures few_links { result.1 ≤ 64000000 }
    {
        let mesh = self.mesh();
        (polygons(&mesh.tiles), links(mesh))
    }

    /// The numbers of the obstacles that are alive after the whole history, rising.
    pub fn alive(&self, alloc: Global) -> Result<Items<u32>, AllocError>
        ensures { IfOk result (λ numbers. numbers ≡ alive_after self.now.history (length self.now.history)) }
    {
        self.queue.alive(alloc)
    }

    /// How many entries the history has.
    pub fn length(&self) -> u32
        ensures { result ≡ length self.now.history }
    {
        self.queue.length()
    }

    /// How many entries the last `aim` saw: the tiles are built for the history up to there.
    pub fn target(&self) -> u32
        ensures value { result ≡ self.now.target }
        ensures within { result ≤ length self.now.history }
    {
        self.queue.target()
    }

    /// How many entries the published mesh shows.
    pub fn published(&self) -> u32
        ensures value { result ≡ self.now.published }
        ensures within { result ≤ self.now.target }
    {
        self.queue.published()
    }

    /// The history, the oldest entry first.
    pub fn entries(&self) -> &[Entry]
        ensures entries { result.now ≡ self.now.history }
        ensures rules { IsHistory self.now.ground.setting.limit self.now.history }
    {
        self.queue.entries()
    }
}
