//! Kinds of agents over one ground, with one history.

ghost use Rattle.std.specs.Prelude.{◌≡◌, ◌↔◌, ◌<◌, All, Err, IfOk, IfSome, OnErr, OnOk, Some, length, map, slice_get};
ghost use Rattle.std.specs.List.{AllZip};
ghost use Rattle.nav_ground.specs.Fields.{IsField};
ghost use Rattle.nav_ground.specs.History.{IsRequest, alive_after};
ghost use Rattle.mesh_types.specs.Builds.{build_of};
ghost use Rattle.build_queue.specs.BookState.{BookState};
ghost use Rattle.build_queue.specs.Renewal.{IsAllShown};
ghost use Rattle.build_queue.specs.StepContracts.{IsRenewStep};
ghost use Rattle.build_queue.specs.Steps.{IsJob, after_aim, after_claim, after_put_back, after_put_back_all, after_submit, request_answer, requested, submission};
ghost use Rattle.nav_book.specs.LevelResults.{published_mesh};
ghost use Rattle.nav_book.specs.Openings.{ground_of};
ghost use Rattle.nav_book.specs.Settling.{after_settle, after_step};
ghost use Rattle.agent_kinds.specs.Firsts.{at_found, at_kind, first_awaited, first_claimable, first_job};
ghost use Rattle.agent_kinds.specs.KindGrounds.{AreGroundsChanged, AreOver, AreSameBeyond, AreSpansOfKinds, AreTooMany};
ghost use Rattle.agent_kinds.specs.Kinds.{AreKinds};
ghost use Rattle.agent_kinds.specs.KindOpenings.{AreKindSettings, first_kinds};
ghost use Rattle.agent_kinds.specs.KindSteps.{IsMeshOfKind, IsTileOfKind, after_publish_all, publication_by};

use crate::builds::{claim_first, put_back_to, step_first, submit_to};
use crate::ground::change_grounds;
use crate::levels::{aim_all, length_shown, put_back_all, renew_all, request_all};
use crate::opening::levels_of;
use crate::publish::{KindsPublished, publish_kinds};
use crate::settle::settle_all;
use live_ground::{ChangeRefusal, KeptField};
use mesh_types::TileMesh;
use nav_base::Steps;
use nav_book::{HistoryFull, Job, Level, Submitted};
use nav_ground::{Field, PackedSpan, Reply, Request, Setting, TileNo, Window};
use nav_lists::{Items, Shared};
use std::alloc::{AllocError, Global};
use std::marker::Model;
use std::sync::ledger::Ledger;

/// A level for each of several kinds of agents, over one ground and with one history. Contracts see the states of the levels.
#[derive(Drop)]
pub struct Kinds {
    levels: Vec<Level>,
    field: KeptField,
}

impl Model for Kinds {
    ghost use Rattle.std.specs.Prelude.{List};
    ghost use Rattle.build_queue.specs.BookState.{BookState};
    ghost use Rattle.agent_kinds.specs.Representation.{states_of, IsKept};

    ghost Value = { List BookState };

    ghost view = { states_of };

    ghost invariant = { IsKept };
}

impl Kinds {
    /// The kinds of these settings over a field, each as a level that is opened alone. They may differ in the agent, the tiles and the costs. The
    /// cells of the field are made once for agents of one height and climb. It takes one step a tile of each.
    pub fn begin<L: Ledger>(
        alloc: Global,
        settings: &[Setting],
        field: &Field,
        steps: &mut Steps<L>,
    ) -> Result<Kinds, AllocError>
        requires settings { AreKindSettings settings.now field.now }
        requires field { IsField field.now }
        ensures state { IfOk result (λ made. made ≡ first_kinds settings.now field.now) }
        ensures rules { IfOk result AreKinds }
    {
        let levels = levels_of(alloc, settings, field, steps)?;
        let field = KeptField::of(alloc, field)?;
        Ok(Kinds { levels, field })
    }

    /// Appends a request of a lane to the history of all kinds, and gives the number of its entry, from 1, and its answer, which are those of each
    /// kind. It is refused exactly where the history is full, and then nothing changes. It takes no memory.
    pub fn request(&mut self, lane: u32, request: Request) -> Result<(u32, Reply), HistoryFull>
        requires { IsRequest request }
        ensures state { self.new ≡ map (λ (state : BookState). requested state lane request) self.old }
        ensures answer { All (λ (state : BookState). result ≡ request_answer state request) self.old }
        ensures rules { AreKinds self.new }
    {
        request_all(self.levels.as_mut_slice(), lane, request)
    }

    /// Makes the whole history the target in all kinds, and gives its length.
    pub fn aim(&mut self) -> u32
        ensures state { self.new ≡ map after_aim self.old }
        ensures length { All (λ (state : BookState). result ≡ length state.history) self.old }
        ensures rules { AreKinds self.new }
    {
        aim_all(self.levels.as_mut_slice())
    }

    /// Builds one tile, with one step: the least that can be claimed in the least kind that has one. Both are given; none exactly where there is no
    /// such tile, and then nothing is done. Where memory is refused, nothing has changed.
    pub fn step<L: Ledger>(
        &mut self,
        alloc: Global,
        steps: &mut Steps<L>,
    ) -> Result<Option<(usize, TileNo)>, AllocError>
        ensures found { IfOk result (λ found. found ≡ first_claimable self.old) }
        ensures state { OnOk result (self.new ≡ at_found after_step (first_claimable self.old) self.old) }
        ensures refused { OnErr result (self.new ≡ self.old) }
        ensures rules { AreKinds self.new }
    {
        step_first(self.levels.as_mut_slice(), alloc, steps)
    }

    /// Claims the least tile that can be claimed in the least kind that has one, and gives the kind and the job; the other kinds stay. None exactly
    /// where there is no such tile. Where memory is refused, nothing has changed.
    pub fn claim(&mut self, alloc: Global) -> Result<Option<(usize, Job)>, AllocError>
        ensures job { IfOk result (λ given. given ≡ first_job self.old) }
        ensures fit { IfOk result (λ given. IfSome given (λ first. IfSome (slice_get self.old first.0) (λ state. IsJob state.ground.setting first.1))) }
        ensures state { OnOk result (self.new ≡ at_found after_claim (first_job self.old) self.old) }
        ensures refused { OnErr result (self.new ≡ self.old) }
        ensures rules { AreKinds self.new }
    {
        claim_first(self.levels.as_mut_slice(), alloc)
    }

    /// Takes the build of a job of a kind in, as its level does; the other kinds stay. It takes no memory.
    pub fn submit(&mut self, kind: usize, job: Job, mesh: Shared<TileMesh>) -> Submitted
        requires there { IsTileOfKind self.old kind job.tile }
        requires mesh { IsMeshOfKind self.old kind job.tile job.shapes mesh }
        ensures answer { IfSome (slice_get self.old kind) (λ state. result ≡ submission state job.tile job.shapes) }
        ensures state { self.new ≡ at_kind kind (λ (state : BookState). after_submit state job.tile job.shapes) self.old }
        ensures rules { AreKinds self.new }
    {
        submit_to(self.levels.as_mut_slice(), kind, job, mesh)
    }

    /// Gives a job of a kind back: its tile is claimed no more; the other kinds stay.
    pub fn put_back(&mut self, kind: usize, job: Job)
        requires { IsTileOfKind self.old kind job.tile }
        ensures state { self.new ≡ at_kind kind (λ (state : BookState). after_put_back state job.tile) self.old }
        ensures rules { AreKinds self.new }
    {
        put_back_to(self.levels.as_mut_slice(), kind, job);
    }

    /// Gives all jobs back: no tile of any kind is claimed any more.
    pub fn put_back_all(&mut self)
        ensures state { self.new ≡ map after_put_back_all self.old }
        ensures rules { AreKinds self.new }
    {
        put_back_all(self.levels.as_mut_slice());
    }

    /// Publishes the target in all kinds. It is not yet to be where a tile is awaited in one: the least kind is named, and its least tile; and it is
    /// published already where the target is the published length; then nothing changes, and no memory is taken. Memory may be refused only where
    /// the target is to be published, and then nothing has changed in any kind.
    pub fn publish(&mut self, alloc: Global) -> Result<KindsPublished, AllocError>
        ensures answer { IfOk result (λ told. All (λ (state : BookState). told ≡ publication_by (first_awaited self.old) state) self.old) }
        ensures state { OnOk result (self.new ≡ after_publish_all self.old) }
        ensures refused { OnErr result (self.new ≡ self.old) }
        ensures wanted { OnErr result (All (λ (state : BookState). publication_by (first_awaited self.old) state ≡ KindsPublished.New state.target) self.old) }
        ensures rules { AreKinds self.new }
    {
        publish_kinds(self.levels.as_mut_slice(), alloc)
    }

    /// Puts every job back, builds every tile that is awaited for the whole history, with one step each, and publishes the history in all kinds,
    /// whose length it gives. Where memory is refused, some of the tiles are built, and each kind shows what it showed.
    pub fn settle<L: Ledger>(
        &mut self,
        alloc: Global,
        steps: &mut Steps<L>,
    ) -> Result<u32, AllocError>
        ensures state { OnOk result (self.new ≡ map after_settle self.old) }
        ensures length { IfOk result (λ k. All (λ (state : BookState). k ≡ length state.history) self.old) }
        ensures shown { OnOk result (All (λ (state : BookState). state.published ≡ length state.history) self.new) }
        ensures history { map (λ (state : BookState). state.history) self.new ≡ map (λ (state : BookState). state.history) self.old }
        ensures refused { OnErr result (map published_mesh self.new ≡ map published_mesh self.old) }
        ensures rules { AreKinds self.new }
    {
        settle_all(self.levels.as_mut_slice(), alloc, steps)
    }

    /// Begins the history again in all kinds, where all of it is published, as a level does; the numbers that the obstacles had are told in their
    /// order. Nothing is built, and each kind shows what it showed. Where memory is refused, nothing has changed.
    pub fn renew(&mut self, alloc: Global) -> Result<Items<u32>, AllocError>
        requires { All IsAllShown self.old }
        ensures numbers { IfOk result (λ numbers. All (λ (state : BookState). numbers ≡ alive_after state.history (length state.history)) self.old) }
        ensures did { OnOk result (AllZip IsRenewStep self.old self.new) }
        ensures refused { OnErr result (self.new ≡ self.old) }
        ensures rules { AreKinds self.new }
    {
        renew_all(self.levels.as_mut_slice(), alloc)
    }

    /// Changes the ground of all kinds to that of their field with other spans in the columns of a rectangle; without any, the columns are empty.
    /// Obstacles and entries stay, no tile is claimed then, and each kind shows from then on what a level that is opened over the field for it alone
    /// shows with the published entries. The tiles in reach of the rectangle are built, with one step each; all others stay. It comes where all that was
    /// aimed at is published, which a publish would answer by `Same`; else nothing changes, and the answer is what a publish would be answered. Where
    /// the field would have more than 2000000 spans, or memory is refused, nothing has changed in any kind.
    pub fn change_ground<L: Ledger>(
        &mut self,
        alloc: Global,
        window: Window,
        spans: &[PackedSpan],
        steps: &mut Steps<L>,
    ) -> Result<KindsPublished, ChangeRefusal>
        requires { All (AreSpansOfKinds window spans.now) self.old }
        ensures answer { IfOk result (λ told. All (λ (state : BookState). told ≡ publication_by (first_awaited self.old) state) self.old) }
        ensures state { OnOk result (AreGroundsChanged window spans.now self.old self.new) }
        ensures differ { AllZip (AreSameBeyond window) self.old self.new }
        ensures many { (result ≡ Err ChangeRefusal.TooManySpans) ↔ All (AreTooMany window spans.now) self.old }
        ensures refused { OnErr result (self.new ≡ self.old) }
        ensures rules { AreKinds self.new }
    {
        let field = self.field.changed(alloc, window, spans)?;
        let answer = change_grounds(self.levels.as_mut_slice(), alloc, &field, window, steps)?;
        if let KindsPublished::Same { .. } = answer {
            self.field = field;
        }
        Ok(answer)
    }

    /// The field that all kinds are over.
    pub fn field(&self) -> &Field
        ensures value { AreOver result.now self.now }
        ensures rules { IsField result.now }
        ensures kinds { AreKinds self.now }
    {
        self.field.field()
    }

    /// How many kinds there are.
    pub fn count(&self) -> usize
        ensures value { result ≡ length self.now }
        ensures rules { AreKinds self.now }
    {
        self.levels.len()
    }

    /// How many entries are shown, by each kind.
    pub fn published(&self) -> u32
        ensures { All (λ (state : BookState). result ≡ state.published) self.now }
    {
        length_shown(self.levels.as_slice())
    }

    /// The level of a kind, to ask of what it shows: the mesh of a level that is opened for the kind alone, with the entries that are published.
    pub fn level(&self, kind: usize) -> &Level
        requires { kind < length self.now }
        ensures value { slice_get self.now kind ≡ Some result.now }
        ensures mesh { published_mesh result.now
            ≡ build_of (ground_of result.now.ground.setting result.now.ground.field) result.now.history result.now.published }
        ensures rules { AreKinds self.now }
    {
        &self.levels[kind]
    }
}
