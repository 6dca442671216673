//! Results of a tile whose lists are the wanted one or not: in another order, or with a shape that does not touch the tile.

ghost use Rattle.std.specs.Prelude.{◌≡◌, ◌<◌, All, IfOk};
ghost use Rattle.nav_ground.specs.Limits.{IsShape};
ghost use Rattle.nav_ground.specs.Tiling.{tile_count};
ghost use Rattle.nav_book.specs.Results.{IsBuild};

use crate::books::{Asked, BARE, Layout, Row, Step, Told, play, request_of};
use nav_base::Steps;
use nav_book::{Book, Job, Published, Submitted, TileResult, build_job};
use nav_ground::{Reply, Request, Shape, tiles};
use nav_lists::Items;
use std::alloc::{AllocError, Global};
use std::sync::ledger::Ledger;

/// The shapes that requests add.
fn shapes_of(alloc: Global, requests: &[Asked]) -> Result<Items<Shape>, AllocError>
    ensures { IfOk result (λ shapes. All IsShape shapes) }
{
    let mut shapes = Items::new(alloc);
    for asked in requests {
        match request_of(*asked) {
            Request::Add(shape) => shapes.push(shape)?,
            Request::Remove(_) => (),
        }
    }
    Ok(shapes)
}

/// A build of a tile under the shapes that requests add.
fn built_under<L: Ledger>(
    book: &Book,
    alloc: Global,
    tile: u32,
    requests: &[Asked],
    steps: &mut Steps<L>,
) -> Result<TileResult, AllocError>
    requires { tile < tile_count book.now.state.ground.setting }
    ensures { IfOk result (λ made. IsBuild book.now.state.ground made) }
{
    let shapes = shapes_of(alloc, requests)?;
    let job = Job { tile, shapes };
    let mesh = build_job(alloc, book.level().ground(), &job, steps)?;
    let Job { tile, shapes } = job;
    Ok(TileResult { tile, shapes, mesh })
}

/// Builds a tile under the shapes that requests add, claimed or not, and submits it.
pub(crate) fn submitted_under<L: Ledger>(
    book: &mut Book,
    alloc: Global,
    tile: u32,
    requests: &[Asked],
    steps: &mut Steps<L>,
) -> Told {
    if tile < tiles(&book.level().ground().setting) {
        match built_under(book, alloc, tile, requests, steps) {
            Ok(made) => Told::Submitted(book.submit(made)),
            Err(_) => Told::NoMemory,
        }
    } else {
        Told::Nothing
    }
}

fn is_list(alloc: Global, job: &Job, requests: &[Asked]) -> bool {
    match shapes_of(alloc, requests) {
        Ok(shapes) => job.shapes == shapes,
        Err(_) => false,
    }
}

/// Claims a tile: its number, where its list has the shapes that requests add, in this order.
pub(crate) fn claimed_list(book: &mut Book, alloc: Global, requests: &[Asked]) -> Told {
    match book.claim(alloc) {
        Ok(Some(job)) => {
            if is_list(alloc, &job, requests) {
                Told::Number(job.tile)
            } else {
                Told::Nothing
            }
        }
        Ok(None) => Told::Nothing,
        Err(_) => Told::NoMemory,
    }
}

/// Two blocks that touch the one tile there is. The list in reverse order is stale; it ends the claim, and changes nothing else.
static REVERSED: [Row; 14] = [
    (
        Step::Ask(0, Asked::Column(2, 2)),
        Told::Reply(Ok((1, Reply::Added { number: 1 }))),
    ),
    (
        Step::Ask(0, Asked::Column(3, 2)),
        Told::Reply(Ok((2, Reply::Added { number: 2 }))),
    ),
    (Step::Aim, Told::Number(2)),
    (
        Step::Built(0, &[Asked::Column(3, 2), Asked::Column(2, 2)]),
        Told::Submitted(Submitted::Stale),
    ),
    (
        Step::Listed(&[Asked::Column(2, 2), Asked::Column(3, 2)]),
        Told::Number(0),
    ),
    (Step::Claim, Told::Nothing),
    (
        Step::Built(0, &[Asked::Column(3, 2), Asked::Column(2, 2)]),
        Told::Submitted(Submitted::Stale),
    ),
    (
        Step::Publish,
        Told::Published(Ok(Published::NotYet { tile: 0 })),
    ),
    (Step::Lengths, Told::Numbers(2, 0)),
    (Step::Floors(2, 2), Told::Floors(1, BARE)),
    (Step::Claim, Told::Number(0)),
    (
        Step::Built(0, &[Asked::Column(2, 2), Asked::Column(3, 2)]),
        Told::Submitted(Submitted::Taken),
    ),
    (Step::Publish, Told::Published(Ok(Published::New { k: 2 }))),
    (Step::Floors(2, 2), Told::Floors(0, None)),
];

/// A block that touches the tile, and one outside the field. The list with both is stale.
static APART: [Row; 12] = [
    (
        Step::Ask(0, Asked::Column(2, 2)),
        Told::Reply(Ok((1, Reply::Added { number: 1 }))),
    ),
    (
        Step::Ask(0, Asked::Column(20, 20)),
        Told::Reply(Ok((2, Reply::Added { number: 2 }))),
    ),
    (Step::Aim, Told::Number(2)),
    (Step::Listed(&[Asked::Column(2, 2)]), Told::Number(0)),
    (Step::Claim, Told::Nothing),
    (
        Step::Built(0, &[Asked::Column(2, 2), Asked::Column(20, 20)]),
        Told::Submitted(Submitted::Stale),
    ),
    (
        Step::Publish,
        Told::Published(Ok(Published::NotYet { tile: 0 })),
    ),
    (Step::Lengths, Told::Numbers(2, 0)),
    (Step::Claim, Told::Number(0)),
    (
        Step::Built(0, &[Asked::Column(2, 2)]),
        Told::Submitted(Submitted::Taken),
    ),
    (Step::Publish, Told::Published(Ok(Published::New { k: 2 }))),
    (Step::Floors(2, 2), Told::Floors(0, None)),
];

#[test]
fn takes_lists_that_fit(rt: HostRuntime) {
    play(
        &rt,
        rt.alloc(),
        Layout::One,
        "a list in reverse order",
        &REVERSED,
    );
    play(
        &rt,
        rt.alloc(),
        Layout::One,
        "a list with a shape apart",
        &APART,
    );
}
