//! Runs of queues over an empty ground of three tiles in a row. What is wanted was worked out by hand.

ghost use Rattle.std.specs.Prelude.{◌≡◌, ◌<◌, ◌≤◌, IsTrue};
ghost use Rattle.nav_ground.specs.Fields.{IsField};
ghost use Rattle.nav_ground.specs.History.{IsRequest};
ghost use Rattle.nav_ground.specs.Limits.{IsShape};
ghost use Rattle.nav_ground.specs.Tiling.{tile_count};

use build_queue::{BuildQueue, HistoryFull, Published, Submitted};
use layer_cut::ground;
use nav_ground::{
    AREAS, Agent, Field, HISTORY_LIMIT, MeshKind, Reply, Request, Setting, Shape, TileNo, tiles,
};
use nav_lists::Items;
use std::alloc::{AllocError, Global};
use std::process::Abort;
use std::sync::Arc;

/// What is asked of a queue. Blocks are those over the columns from x to x + 1 of row 1; a list has two blocks at most, given by their x.
#[derive(Clone, Copy)]
enum Asked {
    Add(u32),
    Remove(u32),
    Aim,
    Claim,
    Back(TileNo),
    BackAll,
    Submit(TileNo, Option<u32>),
    SubmitTwo(TileNo, u32, u32),
    Look,
    Publish,
}

/// What it is answered; of a job the tile, the x of its first block, and how many blocks there are.
#[derive(Clone, Copy, PartialEq, Eq)]
enum Told {
    Replied(u32, Reply),
    HistoryFull,
    Aimed(u32),
    NoJob,
    Job(TileNo, Option<u32>, usize),
    Nothing,
    Submitted(Submitted),
    Published(Published),
}

/// The queue of an empty ground whose three tiles have sides of 4 columns, where two obstacles may be alive.
fn opened(alloc: Global) -> Result<BuildQueue, AllocError> {
    let setting = Setting {
        width: 12,
        depth: 4,
        tile: 4,
        agent: Agent {
            height: 10,
            climb: 4,
            radius: 0,
        },
        error: 169,
        mesh: MeshKind::Strips,
        limit: 2,
        costs: [1; AREAS],
        clear: false,
    };
    let level = ground(alloc, setting, empty_field(alloc, 12, 4))?;
    BuildQueue::begin(alloc, Arc::new(alloc, level)?)
}

fn empty_field(alloc: Global, width: u32, depth: u32) -> Field
    requires wide { (1 ≤ width) × (width ≤ 1024) }
    requires deep { (1 ≤ depth) × (depth ≤ 1024) }
    ensures rules { IsField result }
    ensures width { result.width ≡ width }
    ensures depth { result.depth ≡ depth }
{
    Field {
        width,
        depth,
        spans: Items::new(alloc),
    }
}

fn block(x: u32) -> Shape
    ensures { IsShape result }
{
    let x = x.min(1000);
    Shape::Block {
        x0: x,
        x1: x + 1,
        y0: 0,
        y1: 100,
        z0: 1,
        z1: 1,
    }
}

fn ask(queue: &mut BuildQueue, alloc: Global, asked: Asked) -> Result<Told, AllocError> {
    match asked {
        Asked::Add(x) => Ok(replied(queue, Request::Add(block(x)))),
        Asked::Remove(number) => Ok(replied(queue, Request::Remove(number))),
        Asked::Aim => Ok(Told::Aimed(queue.aim())),
        Asked::Claim => claimed(queue, alloc),
        Asked::Back(tile) => Ok(put_back(queue, tile)),
        Asked::BackAll => {
            queue.put_back_all();
            Ok(Told::Nothing)
        }
        Asked::Submit(tile, x) => submitted(queue, alloc, tile, &[x]),
        Asked::SubmitTwo(tile, x, next) => submitted(queue, alloc, tile, &[Some(x), Some(next)]),
        Asked::Look => Ok(Told::Published(queue.publication())),
        Asked::Publish => Ok(Told::Published(published(queue))),
    }
}

fn replied(queue: &mut BuildQueue, request: Request) -> Told
    requires { IsRequest request }
{
    match queue.request(7, request) {
        Ok((number, reply)) => Told::Replied(number, reply),
        Err(_) => Told::HistoryFull,
    }
}

fn claimed(queue: &mut BuildQueue, alloc: Global) -> Result<Told, AllocError> {
    let Some(job) = queue.claim(alloc)? else {
        return Ok(Told::NoJob);
    };
    Ok(Told::Job(job.tile, first_x(job.shapes.as_slice()), job.shapes.len()))
}

fn first_x(shapes: &[Shape]) -> Option<u32> {
    match shapes.first() {
        Some(Shape::Block { x0, .. }) => Some(*x0),
        _ => None,
    }
}

fn is_there(queue: &BuildQueue, tile: TileNo) -> bool
    ensures { IsTrue result → tile < tile_count queue.now.ground.setting }
{
    tile < tiles(&queue.ground().setting)
}

fn put_back(queue: &mut BuildQueue, tile: TileNo) -> Told {
    if is_there(queue, tile) {
        queue.put_back(tile);
    }
    Told::Nothing
}

fn submitted(
    queue: &mut BuildQueue,
    alloc: Global,
    tile: TileNo,
    list: &[Option<u32>],
) -> Result<Told, AllocError> {
    let mut shapes = Vec::new(alloc);
    for x in list.iter().flatten() {
        shapes.push(block(*x))?;
    }
    if !is_there(queue, tile) {
        return Ok(Told::Nothing);
    }
    Ok(Told::Submitted(queue.submit(tile, Items::from_vec(shapes))))
}

/// Publishes, where that is possible.
fn published(queue: &mut BuildQueue) -> Published {
    let answer = queue.publication();
    match answer {
        Published::New { .. } => queue.publish(),
        Published::Same { .. } => (),
        Published::NotYet { .. } => (),
    }
    answer
}

/// Asks a queue the rows of a table one after the other.
fn check(
    rt: &impl Abort,
    queue: &mut BuildQueue,
    alloc: Global,
    rows: &[(Asked, Told)],
) -> Result<(), AllocError> {
    for (asked, wanted) in rows {
        let found = ask(queue, alloc, *asked)?;
        assert!(rt; found == *wanted);
    }
    Ok(())
}

/// A block that touches the tile 1 comes, is built, and goes and comes again, which makes nothing awaited.
static ONE_BLOCK: [(Asked, Told); 12] = [
    (Asked::Look, Told::Published(Published::Same { k: 0 })),
    (Asked::Add(5), Told::Replied(1, Reply::Added { number: 1 })),
    (Asked::Aim, Told::Aimed(1)),
    (Asked::Look, Told::Published(Published::NotYet { tile: 1 })),
    (Asked::Claim, Told::Job(1, Some(5), 1)),
    (Asked::Claim, Told::NoJob),
    (Asked::Back(1), Told::Nothing),
    (Asked::Claim, Told::Job(1, Some(5), 1)),
    (Asked::Submit(1, None), Told::Submitted(Submitted::Stale)),
    (Asked::Submit(1, Some(5)), Told::Submitted(Submitted::Taken)),
    (Asked::Submit(1, Some(5)), Told::Submitted(Submitted::Stale)),
    (Asked::Publish, Told::Published(Published::New { k: 1 })),
];

static SAME_AGAIN: [(Asked, Told); 6] = [
    (Asked::Look, Told::Published(Published::Same { k: 1 })),
    (Asked::Remove(1), Told::Replied(2, Reply::Removed)),
    (Asked::Add(5), Told::Replied(3, Reply::Added { number: 3 })),
    (Asked::Aim, Told::Aimed(3)),
    (Asked::Claim, Told::NoJob),
    (Asked::Publish, Told::Published(Published::New { k: 3 })),
];

/// A block over a border comes, is built in one tile after it went, and is taken there since nobody has aimed anew.
static TWO_TILES: [(Asked, Told); 15] = [
    (Asked::Add(7), Told::Replied(4, Reply::Added { number: 4 })),
    (Asked::Add(0), Told::Replied(5, Reply::Full { live: 2 })),
    (
        Asked::Remove(1),
        Told::Replied(6, Reply::Dead { number: 1 }),
    ),
    (Asked::Aim, Told::Aimed(6)),
    (Asked::Claim, Told::Job(1, Some(5), 2)),
    (Asked::Claim, Told::Job(2, Some(7), 1)),
    (Asked::Claim, Told::NoJob),
    (Asked::Remove(4), Told::Replied(7, Reply::Removed)),
    (Asked::Submit(2, Some(7)), Told::Submitted(Submitted::Taken)),
    (Asked::Aim, Told::Aimed(7)),
    (Asked::Look, Told::Published(Published::NotYet { tile: 2 })),
    (Asked::BackAll, Told::Nothing),
    (Asked::Claim, Told::Job(2, None, 0)),
    (Asked::Submit(2, None), Told::Submitted(Submitted::Taken)),
    (Asked::Publish, Told::Published(Published::New { k: 7 })),
];

/// Asks a queue the rows of all three tables.
fn check_all(rt: &impl Abort, queue: &mut BuildQueue, alloc: Global) -> Result<(), AllocError> {
    check(rt, queue, alloc, &ONE_BLOCK)?;
    check(rt, queue, alloc, &SAME_AGAIN)?;
    check(rt, queue, alloc, &TWO_TILES)
}

#[test]
fn takes_steps(rt: HostRuntime) -> Result<(), AllocError> {
    let mut queue = opened(rt.alloc())?;
    check_all(&rt, &mut queue, rt.alloc())
}

/// Of two blocks that touch one tile the list in reverse order is stale, and changes nothing but the claim.
static REVERSED: [(Asked, Told); 9] = [
    (Asked::Add(4), Told::Replied(1, Reply::Added { number: 1 })),
    (Asked::Add(5), Told::Replied(2, Reply::Added { number: 2 })),
    (Asked::Aim, Told::Aimed(2)),
    (Asked::Claim, Told::Job(1, Some(4), 2)),
    (Asked::SubmitTwo(1, 5, 4), Told::Submitted(Submitted::Stale)),
    (Asked::Look, Told::Published(Published::NotYet { tile: 1 })),
    (Asked::Claim, Told::Job(1, Some(4), 2)),
    (Asked::SubmitTwo(1, 4, 5), Told::Submitted(Submitted::Taken)),
    (Asked::Publish, Told::Published(Published::New { k: 2 })),
];

/// A list with a block that does not touch the tile is stale.
static APART: [(Asked, Told); 9] = [
    (Asked::Add(4), Told::Replied(1, Reply::Added { number: 1 })),
    (
        Asked::Add(900),
        Told::Replied(2, Reply::Added { number: 2 }),
    ),
    (Asked::Aim, Told::Aimed(2)),
    (Asked::Claim, Told::Job(1, Some(4), 1)),
    (
        Asked::SubmitTwo(1, 4, 900),
        Told::Submitted(Submitted::Stale),
    ),
    (Asked::Look, Told::Published(Published::NotYet { tile: 1 })),
    (Asked::Claim, Told::Job(1, Some(4), 1)),
    (Asked::Submit(1, Some(4)), Told::Submitted(Submitted::Taken)),
    (Asked::Publish, Told::Published(Published::New { k: 2 })),
];

#[test]
fn takes_lists_in_order(rt: HostRuntime) -> Result<(), AllocError> {
    let mut queue = opened(rt.alloc())?;
    check(&rt, &mut queue, rt.alloc(), &REVERSED)
}

#[test]
fn takes_touching_lists(rt: HostRuntime) -> Result<(), AllocError> {
    let mut queue = opened(rt.alloc())?;
    check(&rt, &mut queue, rt.alloc(), &APART)
}

/// Fills a history with requests that remove nothing.
fn fill(queue: &mut BuildQueue) -> bool {
    for _ in 0..HISTORY_LIMIT {
        if queue.request(0, Request::Remove(1)).is_err() {
            return false;
        }
    }
    true
}

/// Whether a queue takes no more requests.
fn is_full(queue: &mut BuildQueue) -> bool {
    let full = HistoryFull { len: HISTORY_LIMIT };
    queue.request(0, Request::Remove(1)) == Err(full) && queue.aim() == HISTORY_LIMIT
}

#[test]
fn fills_its_history(rt: HostRuntime) -> Result<(), AllocError> {
    let mut queue = opened(rt.alloc())?;
    assert!(rt; fill(&mut queue) && is_full(&mut queue));
    Ok(())
}
