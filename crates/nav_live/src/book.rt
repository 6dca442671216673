//! The book under the lock. What actors do while they have the turn, but for requests; each notifies those who may wait for it, once it has
//! given the turn back.

ghost use Rattle.std.specs.Prelude.{◌≡◌, IfOk, IfSome, length};
ghost use mathlib.Core.List.{IsPrefix};
ghost use Rattle.nav_ground.specs.History.{IsRequest};
ghost use Rattle.nav_ground.specs.declared.history.Ground.{Ground};
ghost use Rattle.nav_live.specs.ActRules.{IsJobOf, IsMade, Tells};
ghost use Rattle.turn_lock.specs.Locks.{IsOf};
ghost use Rattle.build_queue.specs.BookState.{first_state};
ghost use Rattle.build_queue.specs.Steps.{IsJob};
ghost use Rattle.nav_live.specs.Lanes.{Covers, SawOthers};

use crate::acts;
use crate::builds::RunContext;
use mesh_types::TileMesh;
use nav_book::{Book, Job, Published, Submitted, TileResult};
use nav_ground::{Entry, Ground, Reply, Request};
use nav_lists::Shared;
use nav_version::Told;
use std::alloc::{AllocError, Global};
use std::marker::Model;
use std::sync::Wait;
use turn_lock::{Booked, Pass};

/// What no act changes: the ground of the book, and the pair of its press and its eyes, which is that of a published length. No value of
/// it is made.
#[derive(Drop)]
pub struct LiveRoot {
    ground: Ground,
    told: Told,
}

impl Model for LiveRoot {
    ghost use Rattle.nav_live.specs.Roots.{RootView};

    ghost Value = { RootView };

    ghost view = { λ root. record { ground = root.ground; pair = root.told.pair } };
}

/// What an actor asks of the book while it has the turn.
#[derive(Drop)]
pub enum LiveAct {
    /// A request of a lane.
    Ask { lane: u32, request: Request },
    /// The whole history is to be shown.
    Aim,
    /// A tile to build is wanted.
    Claim,
    /// A job is given back.
    PutBack { job: Job },
    /// A tile was built.
    Submit { made: TileResult },
    /// The target is to be published.
    Publish,
}

/// What the book answers. Lengths count entries of the history.
#[derive(Drop)]
pub enum LiveDone {
    /// The number of the request's entry, from 1, and its reply.
    Asked { number: u32, reply: Reply },
    /// The history has `len` entries and takes no more; nothing was asked.
    HistoryFull { len: u32 },
    /// The target is the history's length, `k`.
    Aim { k: u32 },
    /// The job of a tile that waits for its build.
    Claimed { job: Job },
    /// No tile waits for a builder.
    NoTile,
    /// The job is open again.
    Back,
    /// Whether the build was taken.
    Submitted { answer: Submitted },
    /// What the publishing came to, and the published length after it, for an eye to learn.
    Published { answer: Published, told: Told },
    /// Memory was refused, and nothing has changed.
    NoMemory,
}

/// A book that one actor after another acts on. A tile of it is stored with obstacles only where some obstacle has touched it.
/// It is not `Drop`, since its book is not.
pub struct LiveBook {
    book: Book,
}

impl Model for LiveBook {
    ghost use Rattle.nav_book.specs.Views.{BookView};
    ghost use Rattle.nav_live.specs.Touched.{AreTouched};

    ghost Value = { BookView };

    ghost view = { λ live. live.book };

    ghost invariant = { λ live. AreTouched live.book };
}

impl LiveBook {
    /// The book that a run begins with.
    pub(crate) fn new(book: Book) -> LiveBook
        requires { (level : Ground) × (book.state ≡ first_state level) }
        ensures { result ≡ book }
    {
        LiveBook { book }
    }

    /// The book.
    pub(crate) fn into_book(self) -> Book
        ensures { result ≡ self }
    {
        let LiveBook { book } = self;
        book
    }
}

impl Booked for LiveBook {
    ghost use Rattle.nav_live.specs.LiveBooks.{Steps};
    ghost use Rattle.nav_live.specs.Roots.{root_of};
    ghost use Rattle.nav_live.specs.ActRules.{lane_of, IsLegal, IsAllowed, Does};

    type Root = LiveRoot;

    type Entry = Entry;

    type Act = LiveAct;

    type Done = LiveDone;

    ghost root = { root_of };

    ghost entries = { λ book. book.state.history };

    ghost maker = { λ entry. entry.lane };

    ghost by = { lane_of };

    ghost legal = { IsLegal };

    ghost may = { IsAllowed };

    ghost did = { Does };

    ghost step = { Steps };

    fn length(&self) -> u32 {
        // Its history keeps the rules, as that of each book does.
        let _entries = self.book.entries();
        self.book.length()
    }

    fn act<R: Wait>(&mut self, rt: &R, alloc: Global, act: LiveAct) -> LiveDone {
        acts::act(&mut self.book, rt, alloc, act)
    }
}

/// A job that its actor has claimed. It cannot be dropped: it ends by `submit` or by `put_back`.
pub(crate) struct HeldJob {
    job: Job,
}

impl Model for HeldJob {
    ghost use Rattle.build_queue.specs.declared.live.Job.{Job};

    ghost Value = { Job };

    ghost view = { λ held. held.job };
}

impl HeldJob {
    /// The job.
    pub(crate) fn job(&self) -> &Job
        ensures { result.now ≡ self.now }
    {
        &self.job
    }
}

/// Makes the whole history the target, and gives its length.
pub(crate) fn aim<R: Wait, G>(context: &RunContext<'_, R, G>, pass: &mut Pass<LiveBook>) -> u32
    requires { IsOf context.now.lock.now pass.old }
    ensures whole { result ≡ length pass.new.seen }
    ensures covers { Covers pass.old result }
    ensures saw { SawOthers context.now.lock.now pass.old pass.new }
{
    let LiveDone::Aim { k } = context
        .lock
        .with(context.rt, context.alloc, pass, LiveAct::Aim)
    else {
        unreachable!()
    };
    context.events.tiles_changed();
    k
}

/// Claims a tile, if one waits. Its job is one that the history asks for.
pub(crate) fn claim<R: Wait, G>(
    context: &RunContext<'_, R, G>,
    pass: &mut Pass<LiveBook>,
) -> Result<Option<HeldJob>, AllocError>
    requires { IsOf context.now.lock.now pass.old }
    ensures job { IfOk result (λ job. IfSome job (IsJobOf context.now.lock.now.root pass.new.seen)) }
    ensures saw { SawOthers context.now.lock.now pass.old pass.new }
{
    match context
        .lock
        .with(context.rt, context.alloc, pass, LiveAct::Claim)
    {
        LiveDone::Claimed { job } => Ok(Some(HeldJob { job })),
        LiveDone::NoTile => Ok(None),
        LiveDone::NoMemory => Err(AllocError),
        _ => unreachable!(),
    }
}

/// Gives a job back.
pub(crate) fn put_back<R: Wait, G>(
    context: &RunContext<'_, R, G>,
    pass: &mut Pass<LiveBook>,
    held: HeldJob,
)
    requires of { IsOf context.now.lock.now pass.old }
    requires job { IsJob context.now.lock.now.root.ground.setting held }
    ensures { SawOthers context.now.lock.now pass.old pass.new }
{
    let HeldJob { job } = held;
    let _done = context
        .lock
        .with(context.rt, context.alloc, pass, LiveAct::PutBack { job });
    context.events.builds_changed();
    context.events.tiles_changed();
}

/// Hands the build of a job in. One that came too late leaves a tile that can be claimed again.
pub(crate) fn submit<R: Wait, G>(
    context: &RunContext<'_, R, G>,
    pass: &mut Pass<LiveBook>,
    held: HeldJob,
    mesh: Shared<TileMesh>,
)
    requires of { IsOf context.now.lock.now pass.old }
    requires made { IsMade context.now.lock.now.root (record { tile = held.tile; shapes = held.shapes; mesh = mesh }) }
    ensures { SawOthers context.now.lock.now pass.old pass.new }
{
    let HeldJob { job } = held;
    let Job { tile, shapes } = job;
    let made = TileResult { tile, shapes, mesh };
    let done = context
        .lock
        .with(context.rt, context.alloc, pass, LiveAct::Submit { made });
    context.events.builds_changed();
    if let LiveDone::Submitted {
        answer: Submitted::Stale,
    } = done
    {
        context.events.tiles_changed();
    }
}

/// Publishes the target, and tells the list that is published then; none where a tile still waits for its build.
pub(crate) fn publish<R: Wait, G>(
    context: &RunContext<'_, R, G>,
    pass: &mut Pass<LiveBook>,
) -> Result<Option<Told>, AllocError>
    requires { IsOf context.now.lock.now pass.old }
    ensures told { IfOk result (λ told. IfSome told (Tells context.now.lock.now.root pass.new.seen)) }
    ensures saw { SawOthers context.now.lock.now pass.old pass.new }
{
    match context
        .lock
        .with(context.rt, context.alloc, pass, LiveAct::Publish)
    {
        LiveDone::Published { answer, told } => match answer {
            Published::New { .. } | Published::Same { .. } => Ok(Some(told)),
            Published::NotYet { .. } => Ok(None),
        },
        LiveDone::NoMemory => Err(AllocError),
        _ => unreachable!(),
    }
}
