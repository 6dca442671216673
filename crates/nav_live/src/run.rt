//! A live run, from its ground and its script to its text. What is left to do once the lanes have ended and the lock is closed: the whole
//! history is built and published, every eye sees it, and the text is written. The live text.

ghost use Rattle.std.specs.Prelude.{◌≡◌, ◌+◌, ◌*◌, Err, IfOk, OnOk, ◌<◌, ◌^◌, length, All, ◌++◌};
ghost use Rattle.turn_lock.specs.Locks.{LockId, AreAll};
ghost use Rattle.nav_ground.specs.Limits.{IsSetting};
ghost use Rattle.nav_ground.specs.Fields.{IsField};
ghost use Rattle.nav_ground.specs.Grounds.{IsSized};
ghost use Rattle.nav_ground.specs.Tiling.{tile_count};
ghost use Rattle.nav_script.specs.Limits.{IsScript};
ghost use Rattle.nav_script.specs.declared.script.Way.TheVariants.{Live};
ghost use Rattle.nav_book.specs.Openings.{ground_of};
ghost use Rattle.nav_base.specs.Counts.{HasRisenAtMost};
ghost use Rattle.nav_live.specs.declared.lane.LaneEnd.TheVariants as stops;
ghost use Rattle.nav_live.specs.Leavings.{HaveLeft, HaveMetFull, AreSpareActors};
ghost use Rattle.nav_live.specs.LiveRecord.{LiveRecord, live_text, entries_text, lane_lines};
ghost use Rattle.nav_live.specs.Runs.{IsOpened, IsRun};
ghost use mathlib.Core.List.{IsPrefix};
ghost use Rattle.nav_version.specs.Pairs.{EyeView};
ghost use Rattle.nav_book.specs.Results.{published_entries};
ghost use Rattle.nav_book.specs.Settling.{IsUnclaimed};
ghost use Rattle.std.specs.List.{enumerate_from, flat_map};

use crate::actors::{Actors, ActorsLeft};
use crate::start::{LaneInputs, lines_by_lane};
use crate::{EventCount, LaneEnd, LiveBook, RunContext};
use nav_base::{Question, Steps};
use nav_book::Book;
use nav_ground::{Entry, Field, Ground, Setting};
use nav_io::Gate;
use nav_lists::Items;
use nav_record::{write_entry, write_final, write_history, write_lane};
use nav_script::{Line, Script};
use nav_version::Eye;
use parallel_build::{build_tiles_by, ground_by};
use std::alloc::{AllocError, Global};
use std::sync::ledger::Ledger;
use std::sync::{Arc, Wait};
use std::thread::Threads;
use turn_lock::TurnLock;

/// The text of a live run.
#[derive(Drop)]
pub struct LiveText {
    pub bytes: Vec<u8>,
}

/// Runs the lanes and the workers of a script over a field, each in a thread of its own where one can be made, and gives the text of the run: the
/// history that the lanes' requests came to, what each lane's lines were answered, and the counts of the mesh in the end. Which of the possible
/// histories it is, and which published version a question meets, is open; `LiveRecord` says what holds of each.
///
/// Each actor passes the gate at each of its stages. It takes at most one step for each tile before the threads and one after them; what the
/// threads build is not counted. It waits for its threads. Only memory can be refused.
pub fn live<R: Threads + Wait + Sync, G: Gate + Sync, L: Ledger>(
    rt: &R,
    alloc: Global,
    setting: Setting,
    field: Field,
    script: &Script,
    gate: &G,
    steps: &mut Steps<L>,
) -> Result<LiveText, AllocError>
    requires setting { IsSetting setting }
    requires field { IsField field }
    requires sized { IsSized setting field }
    requires script { IsScript Live script.now }
    ensures text { IfOk result (λ text. LiveRecord (ground_of setting field) script.now text.bytes.items) }
    ensures most { HasRisenAtMost (2 * tile_count setting) steps.old steps.new }
{
    let lists = lines_by_lane(alloc, script)?;
    let level = ground_by(rt, alloc, setting, field)?;
    let tiles = build_tiles_by(rt, alloc, &level, &[], steps)?;
    let level = Arc::new(alloc, level)?;
    let shown = Arc::try_clone(&level)?;
    let (book, eyes) = Book::begin(rt, alloc, level, tiles, script.lanes)?;
    let run = LiveRun {
        rt,
        alloc,
        ground: &shown,
        script,
        gate,
    };
    let bytes = run_over(&run, OpenedRun { book, eyes, lists }, steps)?;
    Ok(LiveText { bytes })
}

/// What a run is of: the ground of its level, and its script; and what it runs with.
#[derive(Drop)]
pub(crate) struct LiveRun<'a, R, G> {
    pub(crate) rt: &'a R,
    pub(crate) alloc: Global,
    ground: &'a Ground,
    script: &'a Script,
    gate: &'a G,
}

/// A level that was opened for the lanes of a script: a book that has no history yet, and for each lane an eye and its lines.
struct OpenedRun {
    book: Book,
    eyes: Vec<Eye>,
    lists: Vec<Items<Line>>,
}

/// Runs the actors of a script over an opened level, gives the text of the run, and ends the book.
fn run_over<R: Threads + Wait + Sync, G: Gate + Sync, L: Ledger>(
    run: &LiveRun<'_, R, G>,
    opened: OpenedRun,
    steps: &mut Steps<L>,
) -> Result<Vec<u8>, AllocError>
    requires run { IsRun run.now.ground.now run.now.script.now }
    requires opened { IsOpened run.now.ground.now run.now.script.now opened }
    ensures text { IfOk result (λ text. LiveRecord run.now.ground.now run.now.script.now text.items) }
    ensures most { HasRisenAtMost (tile_count run.now.ground.now.setting) steps.old steps.new }
{
    let count = run.script.lanes + run.script.workers;
    match Actors::with_room(run.alloc, count as usize) {
        Ok(actors) => run_actors(run, opened, actors, steps),
        Err(refused) => {
            let OpenedRun {
                book,
                eyes: _,
                lists: _,
            } = opened;
            book.end(run.rt);
            Err(refused)
        }
    }
}

/// The same with the room for the actors.
fn run_actors<R: Threads + Wait + Sync, G: Gate + Sync, L: Ledger>(
    run: &LiveRun<'_, R, G>,
    opened: OpenedRun,
    actors: Actors,
    steps: &mut Steps<L>,
) -> Result<Vec<u8>, AllocError>
    requires run { IsRun run.now.ground.now run.now.script.now }
    requires opened { IsOpened run.now.ground.now run.now.script.now opened }
    requires room { AreSpareActors (run.now.script.now.lanes + run.now.script.now.workers) actors }
    ensures text { IfOk result (λ text. LiveRecord run.now.ground.now run.now.script.now text.items) }
    ensures most { HasRisenAtMost (tile_count run.now.ground.now.setting) steps.old steps.new }
{
    let mut actors = actors;
    let OpenedRun { book, eyes, lists } = opened;
    let events = EventCount::new(run.script.lanes);
    let count = run.script.lanes + run.script.workers;
    match TurnLock::new(run.alloc, LiveBook::new(book), count) {
        Ok((lock, passes)) => {
            actors.make_actors(run.alloc, run.script, passes, LaneInputs { eyes, lists });
            let context = RunContext {
                rt: run.rt,
                alloc: run.alloc,
                lock: &lock,
                events: &events,
                ground: run.ground,
                gate: run.gate,
            };
            let (left, end) = actors.run(&context);
            end_run(run, lock, left, end, steps)
        }
        Err((live, refused)) => {
            actors.discard();
            live.into_book().end(run.rt);
            Err(refused)
        }
    }
}

/// Closes the lock once all actors have ended, gives the text of the run, and ends the book. No lane of a live script has met a full
/// history, since the lines of all lanes together make no more requests than a history has entries, and a lane that met one had a request left.
fn end_run<R: Wait, G, L: Ledger>(
    run: &LiveRun<'_, R, G>,
    lock: TurnLock<LiveBook>,
    left: ActorsLeft,
    end: Result<(), LaneEnd>,
    steps: &mut Steps<L>,
) -> Result<Vec<u8>, AllocError>
    requires script { IsScript Live run.now.script.now }
    requires all { AreAll lock left.passes.items }
    requires well { OnOk end (HaveLeft lock run.now.script.now left) }
    requires full { end ≡ Err stops.HistoryFull → HaveMetFull run.now.script.now left.passes.items }
    ensures text { IfOk result (λ text. LiveRecord lock.root.ground run.now.script.now text.items) }
    ensures most { HasRisenAtMost (tile_count lock.root.ground.setting) steps.old steps.new }
{
    let ActorsLeft {
        passes,
        mut eyes,
        texts,
    } = left;
    let mut book = lock.close(passes).into_book();
    let text = match end {
        Ok(()) => finish(run, &mut book, &mut eyes, texts, steps),
        Err(stop) => match stop {
            LaneEnd::NoMemory => Err(AllocError),
            LaneEnd::HistoryFull => unreachable!(),
        },
    };
    book.end(run.rt);
    text
}

/// Builds and publishes the whole history, with one step at most for each tile, shows it to the eyes of the lanes, and gives the live text of
/// it and of what the lanes have written.
pub(crate) fn finish<R: Wait, G, L: Ledger>(
    run: &LiveRun<'_, R, G>,
    book: &mut Book,
    eyes: &mut [Eye],
    lanes: Vec<Items<u8>>,
    steps: &mut Steps<L>,
) -> Result<Vec<u8>, AllocError>
    requires pairs { All (λ (eye : EyeView). eye.pair ≡ book.old.pair) eyes.old }
    requires few { length lanes.items < 2 ^ 32 }
    ensures text { IfOk result (λ text. text.items ≡ live_text book.old.state.ground book.old.state.history lanes.items) }
    // What each eye had seen or learnt of is a beginning of the whole history.
    ensures seen { OnOk result (All (λ (eye : EyeView). IsPrefix eye.seen book.old.state.history) eyes.old) }
    // No job that an actor left is still claimed.
    ensures free { OnOk result (IsUnclaimed book.new.state) }
    ensures most { HasRisenAtMost (tile_count book.old.state.ground.setting) steps.old steps.new }
{
    let _ = book.settle(run.rt, run.alloc, steps)?;
    catch_up(run.rt, run.alloc, book, eyes)?;
    write_live(run.alloc, book, lanes)
}

/// Lets eyes see all that is published.
fn catch_up<R: Wait>(rt: &R, alloc: Global, book: &Book, eyes: &mut [Eye]) -> Result<(), AllocError>
    requires { All (λ (eye : EyeView). eye.pair ≡ book.now.pair) eyes.old }
    ensures { OnOk result (All (λ (eye : EyeView). IsPrefix eye.seen (published_entries book.now.state)) eyes.old) }
{
    for eye in eyes.iter_mut() {
        see_all(rt, alloc, book, eye)?;
    }
    Ok(())
}

/// Lets an eye see all that is published: it learns the published length, and asks until the version that answers has that length.
fn see_all<R: Wait>(rt: &R, alloc: Global, book: &Book, eye: &mut Eye) -> Result<(), AllocError>
    requires { eye.old.pair ≡ book.now.pair }
    ensures all { OnOk result (eye.new.seen ≡ published_entries book.now.state) }
    ensures before { OnOk result (IsPrefix eye.old.seen (published_entries book.now.state)) }
{
    let all = book.published();
    eye.learn(book.told());
    for _ in rt.forever() {
        let (length, _answer) = eye.ask(alloc, &Question::Floor { x: 0, z: 0 })?;
        if length == all {
            return Ok(());
        }
    }
    unreachable!()
}

/// The live text of a book whose whole history is published, and of what its lanes have written, the lanes in the order of their numbers: the
/// history, then each lane, then the counts of the published mesh.
pub(crate) fn write_live(
    alloc: Global,
    book: &Book,
    lanes: Vec<Items<u8>>,
) -> Result<Vec<u8>, AllocError>
    requires shown { book.now.state.published ≡ length book.now.state.history }
    requires few { length lanes.items < 2 ^ 32 }
    ensures { IfOk result (λ text. text.items ≡ live_text book.now.state.ground book.now.state.history lanes.items) }
{
    let mut text = Vec::new(alloc);
    write_history(&mut text, book.length())?;
    write_entries(&mut text, book.entries())?;
    write_lanes(&mut text, lanes)?;
    let (polygons, links) = book.mesh_counts();
    write_final(&mut text, book.length(), polygons, links)?;
    Ok(text)
}

/// Appends a line for each entry of a history, with its number, from 1.
fn write_entries(text: &mut Vec<u8>, entries: &[Entry]) -> Result<(), AllocError>
    requires { length entries.now < 4294967295 }
    ensures { OnOk result (text.new.items ≡ text.old.items ++ entries_text entries.now) }
{
    for (i, entry) in entries.iter().enumerate() {
        write_entry(text, i as u32 + 1, entry)?;
    }
    Ok(())
}

/// Appends the number of each lane, and then what the lane has written, which is given back at once: what all lanes have written is never there
/// twice.
fn write_lanes(text: &mut Vec<u8>, lanes: Vec<Items<u8>>) -> Result<(), AllocError>
    requires { length lanes.items < 2 ^ 32 }
    ensures { OnOk result (text.new.items ≡ text.old.items ++ flat_map lane_lines (enumerate_from 0 lanes.items)) }
{
    let mut rest = lanes.into_iter();
    let mut lane = 0;
    while let Some(told) = rest.next() {
        write_lane(text, lane)?;
        text.extend_from_slice(told.as_slice())?;
        lane += 1;
    }
    Ok(())
}
