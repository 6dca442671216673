//! The play of a whole script. Single steps of workers and of the book. What the workers hold.

ghost use Rattle.std.specs.Prelude.{◌≡◌, ◌+◌, [], IfOk, OnOk, ◌<◌, None, length, replicate, slice_set, Some, is_some, get_or};
ghost use Rattle.nav_ground.specs.Limits.{IsSetting};
ghost use Rattle.nav_ground.specs.Fields.{IsField};
ghost use Rattle.nav_ground.specs.Grounds.{IsGround, IsSized};
ghost use Rattle.nav_ground.specs.Tiling.{tile_count};
ghost use Rattle.nav_play.specs.PlayRecord.{IsPlayText};
ghost use Rattle.nav_play.specs.PlayStates.{first_state_of, opening_state, state_after_all};
ghost use Rattle.nav_play.specs.PlayTotals.{AreTotals};
ghost use Rattle.nav_play.specs.Players.{HasBegun, player_state, AreHeld, held_job, jobs_of_held};
ghost use Rattle.nav_play.specs.Work.{builds_of};
ghost use Rattle.nav_record.specs.declared.step.Totals.{Totals};
ghost use Rattle.nav_script.specs.Limits.{IsScript};
ghost use Rattle.nav_script.specs.declared.script.Way.TheVariants.{Play};
ghost use Rattle.nav_base.specs.Counts.{HasRisenAtMost};
ghost use Rattle.tile_build.specs.Meshes.{tiles_under};
ghost use Rattle.build_queue.specs.Steps.{after_publish, publication};
ghost use Rattle.nav_play.specs.Claims.{HasClaimed};
ghost use Rattle.nav_play.specs.Jobs.{jobs_of_claim, back_said, book_after_back, submit_said, book_after_submit, publication_said};
ghost use Rattle.nav_book.specs.Settling.{after_settle, awaited_tiles, settling};

use crate::lanes::{LaneAdds, nothing};
use crate::player::Player;
use layer_cut::ground;
use mesh_types::TileMesh;
use nav_base::{Point, Steps};
use nav_book::{Book, Job, Published, Submitted, TileResult};
use nav_ground::{Field, Ground, Setting};
use nav_lists::{Items, Shared};
use nav_record::{StepAnswer, Totals};
use nav_script::Script;
use off_links::HopQuestion;
use std::alloc::{AllocError, Global};
use std::marker::Model;
use std::sync::ledger::Ledger;
use std::sync::{Arc, Wait};
use tile_build::build_tiles;

/// The text of a play, and what came to pass in it.
#[derive(Drop)]
pub struct PlayText {
    pub bytes: Vec<u8>,
    pub totals: Totals,
}

/// A play that came to its end: the book as its last line leaves it, and the text. It is not `Drop`, since its book is not: end the book.
pub struct Played {
    pub book: Book,
    pub text: PlayText,
}

/// What a play starts from: a setting, and the field that it is for.
#[derive(Drop)]
pub struct PlayStart {
    pub setting: Setting,
    pub field: Field,
}

/// Plays a script over a field: for each script line in order what it is answered, and then the published length and the history's length.
/// It takes one step for each build of a tile, new or remembered: each tile at its beginning, and one for each claim that gives one, of a `claim` line or
/// within a `settle` line. Only memory can be refused.
pub fn play<R: Wait, L: Ledger>(
    rt: &R,
    alloc: Global,
    setting: Setting,
    field: Field,
    script: &Script,
    steps: &mut Steps<L>,
) -> Result<PlayText, AllocError>
    requires setting { IsSetting setting }
    requires field { IsField field }
    requires sized { IsSized setting field }
    requires script { IsScript Play script.now }
    ensures text { IfOk result (λ text. IsPlayText setting field script.now text.bytes.items) }
    ensures totals { IfOk result (λ text. AreTotals setting field script.now text.totals) }

    // All totals of one play are the same, whichever of several right answers a path line is given.
    ensures only { IfOk result (λ text. (other : Totals) → AreTotals setting field script.now other → other ≡ text.totals) }
    ensures steps { OnOk result (steps.new ≡ steps.old + builds_of setting field script.now) }
    ensures most { HasRisenAtMost (builds_of setting field script.now) steps.old steps.new }
{
    let Played { book, text } = play_to_end(
        rt,
        alloc,
        PlayStart { setting, field },
        script,
        steps,
    )?;
    book.end(rt);
    Ok(text)
}

/// The same with the book as the last line leaves it. Only memory can be refused.
pub fn play_to_end<R: Wait, L: Ledger>(
    rt: &R,
    alloc: Global,
    start: PlayStart,
    script: &Script,
    steps: &mut Steps<L>,
) -> Result<Played, AllocError>
    requires setting { IsSetting start.setting }
    requires field { IsField start.field }
    requires sized { IsSized start.setting start.field }
    requires script { IsScript Play script.now }
    ensures book { IfOk result (λ played. played.book.state ≡ (state_after_all (first_state_of start.setting start.field script.now) script.now.lines).book) }
    ensures text { IfOk result (λ played. IsPlayText start.setting start.field script.now played.text.bytes.items) }
    ensures totals { IfOk result (λ played. AreTotals start.setting start.field script.now played.text.totals) }
    ensures steps { OnOk result (steps.new ≡ steps.old + builds_of start.setting start.field script.now) }
    ensures most { HasRisenAtMost (builds_of start.setting start.field script.now) steps.old steps.new }
{
    let mut player = begin(rt, alloc, start, script, steps)?;
    match player.play(rt, alloc, script, steps) {
        Ok(totals) => Ok(player.stop(totals)),
        Err(refused) => {
            let _ = player.end(rt);
            Err(refused)
        }
    }
}

/// The player of a script over a field, before its first line. It takes one step for each tile.
fn begin<R: Wait, L: Ledger>(
    rt: &R,
    alloc: Global,
    start: PlayStart,
    script: &Script,
    steps: &mut Steps<L>,
) -> Result<Player, AllocError>
    requires setting { IsSetting start.setting }
    requires field { IsField start.field }
    requires sized { IsSized start.setting start.field }
    requires script { IsScript Play script.now }
    ensures state { IfOk result (λ player. player_state player ≡ first_state_of start.setting start.field script.now) }
    ensures begun { IfOk result (HasBegun script.now) }
    ensures steps { OnOk result (steps.new ≡ steps.old + tile_count start.setting) }
    ensures most { HasRisenAtMost (tile_count start.setting) steps.old steps.new }
{
    let PlayStart { setting, field } = start;
    let level = ground(alloc, setting, field)?;
    let tiles = build_tiles(alloc, &level, &[], steps)?;
    Ok(opened(rt, alloc, level, tiles, script)?)
}

/// The player of a script over a ground whose tiles were built.
fn opened<R: Wait>(
    rt: &R,
    alloc: Global,
    level: Ground,
    tiles: Items<Shared<TileMesh>>,
    script: &Script,
) -> Result<Player, AllocError>
    requires level { IsGround level }
    requires tiles { tiles ≡ tiles_under level [] }
    requires script { IsScript Play script.now }
    ensures state { IfOk result (λ player. player_state player ≡ opening_state level script.now.lanes script.now.workers) }
    ensures begun { IfOk result (HasBegun script.now) }
{
    let adds = LaneAdds::new(alloc, script.lanes)?;
    let workers = HeldBuilds::new(alloc, script.workers)?;
    let (book, _eyes) = Book::begin(rt, alloc, Arc::new(alloc, level)?, tiles, 0)?;
    Ok(Player {
        book,
        lane: 0,
        adds,
        workers,
        hop: without_jumps(alloc),
        totals: nothing(),
        text: Vec::new(alloc),
    })
}

/// A question for a hop walk, from nowhere, with no jumps.
fn without_jumps(alloc: Global) -> HopQuestion
    ensures { result.jumps ≡ [] }
{
    let nowhere = Point { x: 0, z: 0 };
    HopQuestion {
        from: nowhere,
        from_y: 0,
        to: nowhere,
        to_y: 0,
        jumps: Items::new(alloc),
    }
}

/// A worker claims a tile. One that is not busy and is given a tile builds it at once, with one step, and holds it from then on.
pub(crate) fn claim<L: Ledger>(
    alloc: Global,
    book: &mut Book,
    workers: &mut HeldBuilds,
    worker: u32,
    steps: &mut Steps<L>,
) -> Result<StepAnswer, AllocError>
    requires there { worker < length workers.old }
    requires held { AreHeld book.old.state.ground workers.old }
    ensures claimed { IfOk result (HasClaimed worker book.old.state book.new.state workers.old workers.new steps.old steps.new) }
    ensures most { HasRisenAtMost (jobs_of_claim book.old.state (held_job workers.old worker)) steps.old steps.new }
{
    if workers.is_busy(worker) {
        return Ok(StepAnswer::Busy { worker });
    }
    match book.claim(alloc)? {
        None => Ok(StepAnswer::NoTile { worker }),
        Some(job) => {
            let tile = job.tile;
            let made = book.build(alloc, job, steps)?;
            workers.hold(worker, made);
            Ok(StepAnswer::Claimed { worker, tile })
        }
    }
}

/// A worker puts back the job of the tile that it holds.
pub(crate) fn put_back(book: &mut Book, workers: &mut HeldBuilds, worker: u32) -> StepAnswer
    requires there { worker < length workers.old }
    requires held { AreHeld book.old.state.ground workers.old }
    ensures answer { result ≡ back_said worker (held_job workers.old worker) }
    ensures book { book.new.state ≡ book_after_back book.old.state (held_job workers.old worker) }
    ensures jobs { jobs_of_held workers.new ≡ slice_set (jobs_of_held workers.old) worker None }
    ensures held { AreHeld book.old.state.ground workers.new }
{
    match workers.take(worker) {
        None => StepAnswer::Idle { worker },
        Some(TileResult { tile, shapes, .. }) => {
            book.put_back(Job { tile, shapes });
            StepAnswer::Back { worker, tile }
        }
    }
}

/// A worker submits the tile that it holds.
pub(crate) fn submit(book: &mut Book, workers: &mut HeldBuilds, worker: u32) -> StepAnswer
    requires there { worker < length workers.old }
    requires held { AreHeld book.old.state.ground workers.old }
    ensures answer { result ≡ submit_said book.old.state worker (held_job workers.old worker) }
    ensures book { book.new.state ≡ book_after_submit book.old.state (held_job workers.old worker) }
    ensures jobs { jobs_of_held workers.new ≡ slice_set (jobs_of_held workers.old) worker None }
    ensures held { AreHeld book.old.state.ground workers.new }
{
    match workers.take(worker) {
        None => StepAnswer::Idle { worker },
        Some(made) => {
            let tile = made.tile;
            match book.submit(made) {
                Submitted::Taken => StepAnswer::Taken { worker, tile },
                Submitted::Stale => StepAnswer::Stale { worker, tile },
            }
        }
    }
}

/// Publishes what was aimed at, where no tile is awaited.
pub(crate) fn publish<R: Wait>(
    rt: &R,
    alloc: Global,
    book: &mut Book,
) -> Result<StepAnswer, AllocError>
    ensures answer { IfOk result (λ answer. answer ≡ publication_said (publication book.old.state)) }
    ensures book { OnOk result (book.new.state ≡ after_publish book.old.state) }
{
    let published = book.publish(rt, alloc)?;
    Ok(match published {
        Published::New { k } => StepAnswer::Published { k },
        Published::Same { k } => StepAnswer::Same { k },
        Published::NotYet { tile } => StepAnswer::NotYet { tile },
    })
}

/// Puts back every job, so that no worker holds a tile, builds every tile that is awaited for the whole history, with one step each, and
/// publishes it.
pub(crate) fn settle<R: Wait, L: Ledger>(
    rt: &R,
    alloc: Global,
    book: &mut Book,
    workers: &mut HeldBuilds,
    steps: &mut Steps<L>,
) -> Result<StepAnswer, AllocError>
    ensures answer { IfOk result (λ answer. answer ≡ StepAnswer.Settled (length book.old.state.history)) }
    ensures book { OnOk result (book.new.state ≡ after_settle book.old.state) }
    // So the publish at its end never has to wait for a tile.
    ensures shown { OnOk result (book.new.state.published ≡ length book.old.state.history) }
    ensures jobs { OnOk result (jobs_of_held workers.new ≡ replicate (length (jobs_of_held workers.old)) None) }
    ensures held { OnOk result (AreHeld book.old.state.ground workers.new) }
    ensures steps { OnOk result (steps.new ≡ steps.old + length (awaited_tiles (settling book.old.state))) }
    ensures most { HasRisenAtMost (length (awaited_tiles (settling book.old.state))) steps.old steps.new }
{
    workers.drop_all();
    let k = book.settle(rt, alloc, steps)?;
    Ok(StepAnswer::Settled { k })
}

/// For each worker the tile that it built and has neither submitted nor put back, if it holds one.
#[derive(Drop)]
pub(crate) struct HeldBuilds {
    held: Vec<Option<TileResult>>,
}

impl Model for HeldBuilds {
    ghost use Rattle.std.specs.Prelude.{List, Option};
    ghost use Rattle.nav_book.specs.declared.book.TileResult.{TileResult};

    ghost Value = { List (Option TileResult) };

    ghost view = { λ a. a.held.items };
}

impl HeldBuilds {
    /// So many workers, which hold nothing.
    pub(crate) fn new(alloc: Global, count: u32) -> Result<HeldBuilds, AllocError>
        ensures { IfOk result (λ workers. workers ≡ replicate count None) }
    {
        let mut held = Vec::with_capacity(alloc, count as usize)?;
        for _ in 0..count {
            held.push(None)?;
        }
        Ok(HeldBuilds { held })
    }

    /// Whether a worker holds a tile.
    pub(crate) fn is_busy(&self, worker: u32) -> bool
        requires { worker < length self.now }
        ensures { result ≡ is_some (get_or self.now worker None) }
    {
        self.held[worker as usize].is_some()
    }

    /// A worker holds a tile from now on.
    pub(crate) fn hold(&mut self, worker: u32, made: TileResult)
        requires { worker < length self.old }
        ensures { self.new ≡ slice_set self.old worker (Some made) }
    {
        self.held[worker as usize] = Some(made);
    }

    /// What a worker held; it holds nothing from now on.
    pub(crate) fn take(&mut self, worker: u32) -> Option<TileResult>
        requires { worker < length self.old }
        ensures taken { result ≡ get_or self.old worker None }
        ensures others { self.new ≡ slice_set self.old worker None }
    {
        self.held[worker as usize].take()
    }

    /// No worker holds anything from now on.
    pub(crate) fn drop_all(&mut self)
        ensures { self.new ≡ replicate (length self.old) None }
    {
        for worker in 0..self.held.len() {
            self.held[worker] = None;
        }
    }
}
