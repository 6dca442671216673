//! The book: a level, and the press that publishes its mesh. What the builder of a tile brings.

ghost use Rattle.std.specs.Prelude.{◌≡◌, ◌+◌, ◌<◌, ◌≤◌, [], length, replicate, IfOk, OnOk, OnErr};
ghost use Rattle.std.specs.Arc.{arc_value};
ghost use Rattle.nav_ground.specs.Grounds.{IsGround};
ghost use Rattle.nav_ground.specs.History.{IsRequest, IsHistory, alive_after};
ghost use Rattle.nav_ground.specs.Tiling.{tile_count};
ghost use Rattle.mesh_types.specs.Right.{IsRight};
ghost use Rattle.mesh_types.specs.Soundness.{link_count, polygon_count};
ghost use Rattle.tile_build.specs.Meshes.{tiles_under};
ghost use Rattle.nav_query.specs.Questions.{HasLowCost, HasUnfoldedWay, IsAnswerable};
ghost use Rattle.nav_version.specs.Pairs.{eye_of};
ghost use Rattle.build_queue.specs.BookState.{IsBook, first_state};
ghost use Rattle.build_queue.specs.Renewal.{AddsAgain, IsAllShown};
ghost use Rattle.build_queue.specs.StepContracts.{IsAimStep, IsClaimStep, IsPutBackAllStep, IsPutBackStep, IsRenewStep, IsRequestStep, IsSubmitStep};
ghost use Rattle.build_queue.specs.Steps.{IsJob};
ghost use Rattle.nav_book.specs.CallContracts.{IsPublishStep, IsSettleStep};
ghost use Rattle.nav_book.specs.Results.{IsBuild, job_built, published_entries, published_mesh};

use crate::{HistoryFull, Job, Level, Published, Submitted, build_job};
use core::mem::replace;
use mesh_types::{Answer, Asked, TileMesh};
use nav_base::{Question, Steps};
use nav_ground::{Entry, Ground, Reply, Request, Shape, TileNo};
use nav_lists::{Items, Shared};
use nav_version::{Entries, Eye, Press, Told, Version, pair};
use std::alloc::{AllocError, Global};
use std::marker::Model;
use std::sync::ledger::Ledger;
use std::sync::{Arc, Wait};

/// A level of a ground, and the press that shows each mesh which the level publishes to eyes. It is not `Drop`, since its press is not:
/// `end` ends it.
///
/// Contracts see its state, of which each call is a step, and the pair of its press and its eyes, which no call but `renew` and `show_ground` changes.
pub struct Book {
    pub(crate) level: Level,
    pub(crate) press: Press,
}

impl Model for Book {
    ghost use Rattle.nav_book.specs.Views.{BookView};

    ghost Value = { BookView };

    ghost use Rattle.nav_book.specs.Representation.{view_of, IsKept};

    ghost view = { view_of };

    ghost invariant = { IsKept };
}

impl Book {
    /// The book of a ground, with no entries, which shows the ground without obstacles: the tiles are those. Each reader gets an eye, which
    /// has seen that. It takes the room for a whole history, for as many live obstacles as the setting allows, and for what is kept of each
    /// tile, so that requests and results take no memory.
    pub fn begin<R: Wait>(
        rt: &R,
        alloc: Global,
        level: Arc<Ground>,
        tiles: Items<Shared<TileMesh>>,
        readers: u32,
    ) -> Result<(Book, Vec<Eye>), AllocError>
        requires level { IsGround (arc_value level) }
        requires tiles { tiles ≡ tiles_under (arc_value level) [] }
        ensures state { IfOk result (λ made. made.0.state ≡ first_state (arc_value level)) }
        ensures eyes { IfOk result (λ made. made.1.items ≡ replicate readers (eye_of made.0.pair (arc_value level) [])) }
    {
        let shown = Arc::try_clone(&level)?;
        let held = Level::begin(alloc, level, tiles)?;
        let (press, eyes) = Book::first_pair(rt, alloc, shown, &held, readers)?;
        Ok((Book { level: held, press }, eyes))
    }

    // The pair that shows a level without entries over its ground.
    fn first_pair<R: Wait>(
        rt: &R,
        alloc: Global,
        ground: Arc<Ground>,
        level: &Level,
        readers: u32,
    ) -> Result<(Press, Vec<Eye>), AllocError>
        requires ground { IsGround (arc_value ground) }
        requires level { level.now ≡ first_state (arc_value ground) }
        ensures ground { IfOk result (λ made. made.0.ground ≡ arc_value ground) }
        ensures entries { IfOk result (λ made. made.0.entries ≡ []) }
        ensures eyes { IfOk result (λ made. made.1.items ≡ replicate readers (eye_of made.0.pair (arc_value ground) [])) }
    {
        let opening = Version {
            ground,
            entries: Entries::new(alloc)?,
            mesh: level.prepared_mesh()?,
        };
        let (press, eyes) = pair(rt, alloc, opening, readers)?;
        Ok((press, eyes))
    }

    /// Appends a request of a lane to the history, and gives the number of its entry, from 1, and its answer. What was published stays.
    /// It is refused exactly where the history is full, and then nothing changes. It takes no memory.
    pub fn request(&mut self, lane: u32, request: Request) -> Result<(u32, Reply), HistoryFull>
        requires { IsRequest request }
        ensures did { IsRequestStep self.old.state self.new.state lane request result }
        ensures pair { self.new.pair ≡ self.old.pair }
        ensures refused { OnErr result (self.new ≡ self.old) }
    {
        self.level.request(lane, request)
    }

    /// Makes the whole history the target, and gives its length. A tile is awaited from then on where the shapes that it was last built
    /// under are not those that touch it at the target.
    pub fn aim(&mut self) -> u32
        ensures did { IsAimStep self.old.state self.new.state result }
        ensures pair { self.new.pair ≡ self.old.pair }
    {
        self.level.aim()
    }

    /// Claims the least tile that is awaited and not claimed, and gives it with the shapes to build it under: those that are alive at the
    /// target and touch it. None exactly where there is no such tile. Where memory is refused, nothing has changed.
    pub fn claim(&mut self, alloc: Global) -> Result<Option<Job>, AllocError>
        ensures did { IsClaimStep self.old.state self.new.state result }
        ensures pair { self.new.pair ≡ self.old.pair }
        ensures refused { OnErr result (self.new ≡ self.old) }
    {
        self.level.claim(alloc)
    }

    /// Gives a job back: its tile is claimed no more.
    pub fn put_back(&mut self, job: Job)
        requires { job.tile < tile_count self.old.state.ground.setting }
        ensures did { IsPutBackStep self.old.state self.new.state job.tile }
        ensures pair { self.new.pair ≡ self.old.pair }
    {
        self.level.put_back(job)
    }

    /// Gives all jobs back: no tile is claimed any more.
    pub fn put_back_all(&mut self)
        ensures did { IsPutBackAllStep self.old.state self.new.state }
        ensures pair { self.new.pair ≡ self.old.pair }
    {
        self.level.put_back_all()
    }

    /// Takes a build in: its tile is claimed no more. It is stale exactly where the tile is not awaited, or was not built under the
    /// shapes that touch it at the target, and then it is dropped, and nothing else changes. It takes no memory.
    pub fn submit(&mut self, made: TileResult) -> Submitted
        requires { IsBuild self.old.state.ground made }
        ensures did { IsSubmitStep self.old.state self.new.state made.tile made.shapes result }
        ensures pair { self.new.pair ≡ self.old.pair }
    {
        let TileResult { tile, shapes, mesh } = made;
        self.level.submit(Job { tile, shapes }, mesh)
    }

    /// Publishes the target, and waits for eyes that still read the version from before the last publishing. It is not yet to be where a
    /// tile is awaited, of which the least is named, and it is published already where the target is the published length; then nothing
    /// changes, and no memory is taken. Where memory is refused, neither the book nor what eyes see has changed.
    pub fn publish<R: Wait>(&mut self, rt: &R, alloc: Global) -> Result<Published, AllocError>
        ensures did { IsPublishStep self.old.state self.new.state result }
        ensures pair { self.new.pair ≡ self.old.pair }
        ensures refused { OnErr result (self.new ≡ self.old) }
    {
        let answer = self.level.publication();
        match answer {
            Published::New { .. } => {
                let next = self.level.next_mesh(alloc)?;
                let _told = self
                    .press
                    .publish_mesh(rt, alloc, self.level.next_entries(), next.share()?)?;
                self.level.show(next);
                Ok(answer)
            }
            _ => Ok(answer),
        }
    }

    /// The build of the tile of a job, of the book's ground. It takes one step, also where memory is refused.
    pub fn build<L: Ledger>(
        &self,
        alloc: Global,
        job: Job,
        steps: &mut Steps<L>,
    ) -> Result<TileResult, AllocError>
        requires job { IsJob self.now.state.ground.setting job }
        ensures rules { IsBook self.now.state }
        ensures job { IfOk result (λ made. job_built made ≡ job) }
        ensures made { IfOk result (IsBuild self.now.state.ground) }
        ensures step { steps.new ≡ steps.old + 1 }
    {
        let mesh = build_job(alloc, self.level.ground(), &job, steps)?;
        let Job { tile, shapes } = job;
        Ok(TileResult { tile, shapes, mesh })
    }

    /// Puts every job back, builds every tile that is awaited for the whole history, with one step each, and publishes the history, whose
    /// length it gives. No tile is claimed then, also where memory is refused: then some of that is done.
    pub fn settle<R: Wait, L: Ledger>(
        &mut self,
        rt: &R,
        alloc: Global,
        steps: &mut Steps<L>,
    ) -> Result<u32, AllocError>
        ensures did { IsSettleStep self.old.state self.new.state steps.old steps.new result }
        ensures pair { self.new.pair ≡ self.old.pair }
    {
        let k = self.level.build_target(alloc, steps)?;
        let _ = self.publish(rt, alloc)?;
        Ok(k)
    }

    /// Begins the history again, where all of it is published, so that it can go on where it would come to be full: it adds the obstacles that
    /// are alive, in order of their numbers, and all of that is published. An obstacle's number is its place in that order, from 1; the numbers
    /// that they had are told in the same order. Nothing is built, the published mesh is the same, and no tile is claimed then.
    ///
    /// The press and its eyes are new ones, since eyes see one history that only grows: each reader gets an eye, which has seen the new one, and
    /// those from before answer no more. It waits for those that are reading. Where memory is refused, nothing has changed.
    pub fn renew<R: Wait>(
        &mut self,
        rt: &R,
        alloc: Global,
        readers: u32,
    ) -> Result<(Items<u32>, Vec<Eye>), AllocError>
        requires { IsAllShown self.old.state }
        ensures numbers { IfOk result (λ made. made.0 ≡ alive_after self.old.state.history (length self.old.state.history)) }
        ensures did { OnOk result (IsRenewStep self.old.state self.new.state) }
        ensures mesh { OnOk result (published_mesh self.new.state ≡ published_mesh self.old.state) }
        ensures eyes { IfOk result (λ made. made.1.items ≡ replicate readers (eye_of self.new.pair self.new.state.ground self.new.state.history)) }
        ensures refused { OnErr result (self.new ≡ self.old) }
    {
        let numbers = self.level.alive(alloc)?;
        let (press, eyes) = self.next_pair(rt, alloc, readers)?;
        self.level.begin_again();
        let last = replace(&mut self.press, press);
        last.end(rt);
        Ok((numbers, eyes))
    }

    // The pair that shows what is published with the history that a renewal leaves.
    fn next_pair<R: Wait>(
        &self,
        rt: &R,
        alloc: Global,
        readers: u32,
    ) -> Result<(Press, Vec<Eye>), AllocError>
        requires { IsAllShown self.now.state }
        ensures ground { IfOk result (λ made. made.0.ground ≡ self.now.state.ground) }
        ensures again { IfOk result (λ made. AddsAgain self.now.state.history (alive_after self.now.state.history (length self.now.state.history)) made.0.entries) }
        ensures eyes { IfOk result (λ made. made.1.items ≡ replicate readers (eye_of made.0.pair self.now.state.ground made.0.entries)) }
    {
        let entries = self.level.renewed(alloc)?;
        let version = Version {
            ground: Arc::try_clone(&self.press.version().ground)?,
            entries: Entries::of(alloc, entries.as_slice())?,
            mesh: self.level.prepared_mesh()?,
        };
        let (press, eyes) = pair(rt, alloc, version, readers)?;
        Ok((press, eyes))
    }

    /// The published length, for an eye of this book to learn.
    pub fn told(&self) -> Told
        ensures told { result ≡ record { pair = self.now.pair; entries = published_entries self.now.state } }
        ensures length { length result.entries ≡ self.now.state.published }
    {
        self.press.told()
    }

    /// The published length, and an answer to the question that is right in the mesh as it was last published. A path that is found costs
    /// less than 2^45, and no portal on its way folds back on the one before it.
    pub fn ask(&self, alloc: Global, question: &Question) -> Result<(u32, Answer), AllocError>
        requires { IsAnswerable question.now }
        ensures published { IfOk result (λ told. told.0 ≡ self.now.state.published) }
        ensures right { IfOk result (λ told. IsRight (published_mesh self.now.state) question.now told.1) }
        ensures low_cost { IfOk result (λ told. HasLowCost told.1) }
        ensures unfolded { IfOk result (λ told. HasUnfoldedWay told.1) }
    {
        self.level.ask(alloc, question)
    }

    /// The same, for one who asks much: the 24th path question that is so asked without landmarks makes some first, where memory for that is
    /// left. Only memory for the answer is refused.
    pub fn ask_and_prepare(
        &mut self,
        alloc: Global,
        question: &Question,
    ) -> Result<(u32, Answer), AllocError>
        requires { IsAnswerable question.now }
        ensures published { IfOk result (λ told. told.0 ≡ self.old.state.published) }
        ensures right { IfOk result (λ told. IsRight (published_mesh self.old.state) question.now told.1) }
        ensures low_cost { IfOk result (λ told. HasLowCost told.1) }
        ensures unfolded { IfOk result (λ told. HasUnfoldedWay told.1) }
        ensures same { self.new ≡ self.old }
    {
        self.level.ask_and_prepare(alloc, question)
    }

    /// Makes landmarks of the published mesh where there are none. They cost about as much as thirty path questions, and each later one closes a
    /// fifth of the polygons that it would, or fewer. A publish keeps them where it can. Nothing that a caller sees has changed, also where
    /// memory is refused.
    pub fn prepare(&mut self, alloc: Global) -> Result<(), AllocError>
        ensures same { self.new ≡ self.old }
    {
        self.level.prepare(alloc)
    }

    /// The published length, and an answer to a question of any kind that is right in the mesh as it was last published.
    pub fn ask_by<Q: Asked>(
        &self,
        alloc: Global,
        question: &Q,
    ) -> Result<(u32, Q::Answer), AllocError>
        requires question { Q.can_ask question.now }
        ensures published { IfOk result (λ told. told.0 ≡ self.now.state.published) }
        ensures right { IfOk result (λ told. Q.is_right question.now (published_mesh self.now.state) told.1) }
    {
        self.level.ask_by(alloc, question)
    }

    /// The level, to be read: its ground and its mesh, and what else a level tells. To change it is the book's alone.
    pub fn level(&self) -> &Level
        ensures value { result.now ≡ self.now.state }
        ensures rules { IsBook self.now.state }
    {
        &self.level
    }

    /// How many polygons and how many links the mesh has as it was last published; a link leads one way. The obstacles may be any: there are
    /// never more than 8000000 polygons and 64000000 links.
    pub fn mesh_counts(&self) -> (u32, u32)
        ensures polygons { result.0 ≡ polygon_count (published_mesh self.now.state).tiles }
        ensures links { result.1 ≡ link_count (published_mesh self.now.state) }
        ensures few_polygons { result.0 ≤ 8000000 }
        ensures few_links { result.1 ≤ 64000000 }
    {
        self.level.mesh_counts()
    }

    /// How many entries the history has.
    pub fn length(&self) -> u32
        ensures { result ≡ length self.now.state.history }
    {
        self.level.length()
    }

    /// How many entries the last `aim` saw: the tiles are built for the history up to there.
    pub fn target(&self) -> u32
        ensures value { result ≡ self.now.state.target }
        ensures within { result ≤ length self.now.state.history }
    {
        self.level.target()
    }

    /// How many entries the published mesh shows.
    pub fn published(&self) -> u32
        ensures value { result ≡ self.now.state.published }
        ensures within { result ≤ self.now.state.target }
    {
        self.level.published()
    }

    /// The history, the oldest entry first.
    pub fn entries(&self) -> &[Entry]
        ensures entries { result.now ≡ self.now.state.history }
        ensures rules { IsHistory self.now.state.ground.setting.limit self.now.state.history }
    {
        self.level.entries()
    }

    /// Ends the book and its press. It waits for eyes that are reading; from then on no eye answers any more.
    pub fn end<R: Wait>(self, rt: &R) {
        let Book { level: _, press } = self;
        press.end(rt);
    }
}

/// A tile that was built.
#[derive(Drop)]
pub struct TileResult {
    /// The tile of the job.
    pub tile: TileNo,
    /// The shapes that it was built under, in the job's order. It is by this list that a late build is told from one that is wanted.
    pub shapes: Items<Shape>,
    /// Its mesh under those shapes.
    pub mesh: Shared<TileMesh>,
}
