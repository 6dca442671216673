//! Rows of levels, of which no call waits, over a small flat ground. What is wanted was worked out by hand.

ghost use Rattle.std.specs.Prelude.{◌≡◌, ◌<◌, IfOk};

use crate::books::{Asked, Layout, flat_ground, request_of};
use crate::rows::all_hold;
use mesh_types::Answer;
use nav_base::{Point, Question, Steps};
use nav_book::{Level, Published};
use nav_ground::Reply;
use std::alloc::{AllocError, Global};
use std::marker::Brand;
use std::sync::Arc;
use std::sync::ledger::{Blank, Ledger};
use tile_build::build_tiles;

/// What is done with a level, or asked of it.
#[derive(Clone, Copy)]
enum Step {
    Ask(Asked),
    Aim,
    /// One tile is claimed, built and taken in.
    CachedBuild,
    Publish,
    /// What was built is published; it is done where the mesh has landmarks.
    PublishKept,
    Settle,
    /// The history begins again.
    Renew,
    /// How long the history is, and how much of it is published.
    Lengths,
    /// The floors of a column.
    Floors(u32, u32),
    Prepare,
    /// The path from a row of the tile 0 to the other row of the tile 1.
    Path,
    /// The same, asked so many times of a level that prepares itself.
    Paths(u32),
}

/// What a step was answered.
#[derive(Clone, Copy, PartialEq)]
enum Told {
    /// Also an answer that no row wants.
    Nothing,
    NoMemory,
    Reply(u32, Reply),
    /// The length that is aimed at or published, or the tile that was built.
    Number(u32),
    /// Two lengths, or the numbers that two obstacles had.
    Numbers(u32, u32),
    Published(Published),
    Floors(usize),
    Done,
    /// The cost of a path, and that of the last of several.
    Cost(u64),
}

fn opened<L: Ledger>(alloc: Global, steps: &mut Steps<L>) -> Result<Level, AllocError> {
    let ground = flat_ground(alloc, Layout::Two)?;
    let tiles = build_tiles(alloc, &ground, &[], steps)?;
    let ground = Arc::new(alloc, ground)?;
    Level::begin(alloc, ground, tiles)
}

fn asked(level: &mut Level, asked: Asked) -> Told {
    match level.request(0, request_of(asked)) {
        Ok((number, reply)) => Told::Reply(number, reply),
        Err(_) => Told::Nothing,
    }
}

fn built<L: Ledger>(level: &mut Level, alloc: Global, steps: &mut Steps<L>) -> Told {
    match level.step(alloc, steps) {
        Ok(Some(tile)) => Told::Number(tile),
        Ok(None) => Told::Nothing,
        Err(_) => Told::NoMemory,
    }
}

fn published(level: &mut Level, alloc: Global) -> Told {
    match level.publish(alloc) {
        Ok(answer) => Told::Published(answer),
        Err(_) => Told::NoMemory,
    }
}

fn published_with_landmarks(level: &mut Level, alloc: Global) -> Told {
    match level.publication() {
        Published::New { .. } => match level.next_mesh(alloc) {
            Ok(mesh) => {
                let kept = mesh.has_landmarks();
                level.show(mesh);
                if kept { Told::Done } else { Told::Nothing }
            }
            Err(_) => Told::NoMemory,
        },
        _ => Told::Nothing,
    }
}

fn settled<L: Ledger>(level: &mut Level, alloc: Global, steps: &mut Steps<L>) -> Told {
    match level.settle(alloc, steps) {
        Ok(length) => Told::Number(length),
        Err(_) => Told::NoMemory,
    }
}

/// The numbers that the two obstacles had; nothing is done where not all is published.
fn renewed(level: &mut Level, alloc: Global) -> Told {
    if level.published() != level.length() {
        return Told::Nothing;
    }
    match level.renew(alloc) {
        Ok(numbers) => Told::Numbers(
            numbers.get(0).copied().unwrap_or(0),
            numbers.get(1).copied().unwrap_or(0),
        ),
        Err(_) => Told::NoMemory,
    }
}

fn floors(level: &Level, alloc: Global, x: u32, z: u32) -> Told {
    match level.ask(alloc, &Question::Floor { x, z }) {
        Ok((_length, Answer::Floors(floors))) => Told::Floors(floors.len()),
        Ok(_) => Told::Nothing,
        Err(_) => Told::NoMemory,
    }
}

fn prepared(level: &mut Level, alloc: Global) -> Told {
    match level.prepare(alloc) {
        Ok(()) => Told::Done,
        Err(_) => Told::NoMemory,
    }
}

const ACROSS: Question = Question::Path {
    from: Point { x: 24, z: 24 },
    from_y: 10,
    to: Point { x: 88, z: 40 },
    to_y: 10,
};

fn cost(answer: Result<(u32, Answer), AllocError>) -> Told {
    match answer {
        Ok((_length, Answer::Path(path))) => Told::Cost(path.cost),
        Ok(_) => Told::Nothing,
        Err(_) => Told::NoMemory,
    }
}

fn across(level: &Level, alloc: Global) -> Told {
    cost(level.ask(alloc, &ACROSS))
}

fn often_across(level: &mut Level, alloc: Global, times: u32) -> Told {
    let mut last = Told::Nothing;
    for _time in 0..times {
        last = cost(level.ask_and_prepare(alloc, &ACROSS));
    }
    last
}

fn act<L: Ledger>(level: &mut Level, alloc: Global, steps: &mut Steps<L>, step: Step) -> Told {
    match step {
        Step::Ask(request) => asked(level, request),
        Step::Aim => Told::Number(level.aim()),
        Step::CachedBuild => built(level, alloc, steps),
        Step::Publish => published(level, alloc),
        Step::PublishKept => published_with_landmarks(level, alloc),
        Step::Settle => settled(level, alloc, steps),
        Step::Renew => renewed(level, alloc),
        Step::Lengths => Told::Numbers(level.length(), level.published()),
        Step::Floors(x, z) => floors(level, alloc, x, z),
        Step::Prepare => prepared(level, alloc),
        Step::Path => across(level, alloc),
        Step::Paths(times) => often_across(level, alloc, times),
    }
}

type Row = (Step, Told);

fn wrong_row<L: Ledger>(
    level: &mut Level,
    alloc: Global,
    steps: &mut Steps<L>,
    rows: &[Row],
) -> Option<usize> {
    for row in 0..rows.len() {
        let (step, wanted) = rows[row];
        if act(level, alloc, steps, step) != wanted {
            return Some(row);
        }
    }
    None
}

/// A row that is wrong; 99 where there is no memory.
fn wrong_in_play<L: Ledger>(alloc: Global, rows: &[Row], blank: Blank) -> Option<usize>
    requires name { blank.name ≡ L.name }
    requires parts { blank.parts ≡ L.parts }
    requires some { 0 < blank.parts }
{
    let mut steps = Steps::<L>::new(blank);
    match opened(alloc, &mut steps) {
        Ok(mut level) => wrong_row(&mut level, alloc, &mut steps, rows),
        Err(_) => Some(99),
    }
}

/// Tiles that are built one by one. The columns up to 3 are of the tile 0.
static STEPS: [Row; 12] = [
    (Step::CachedBuild, Told::Nothing),
    (
        Step::Ask(Asked::Block(1)),
        Told::Reply(1, Reply::Added { number: 1 }),
    ),
    (Step::CachedBuild, Told::Nothing),
    (Step::Aim, Told::Number(1)),
    (
        Step::Publish,
        Told::Published(Published::NotYet { tile: 0 }),
    ),
    (Step::CachedBuild, Told::Number(0)),
    (Step::CachedBuild, Told::Nothing),
    (Step::Floors(1, 1), Told::Floors(1)),
    (Step::Publish, Told::Published(Published::New { k: 1 })),
    (Step::Floors(1, 1), Told::Floors(0)),
    (Step::Publish, Told::Published(Published::Same { k: 1 })),
    (Step::Lengths, Told::Numbers(1, 1)),
];

/// Of three obstacles the first goes; the two that are left get the numbers 1 and 2.
static RENEWAL: [Row; 19] = [
    (
        Step::Ask(Asked::Block(1)),
        Told::Reply(1, Reply::Added { number: 1 }),
    ),
    (
        Step::Ask(Asked::Block(5)),
        Told::Reply(2, Reply::Added { number: 2 }),
    ),
    (Step::Ask(Asked::Remove(1)), Told::Reply(3, Reply::Removed)),
    (
        Step::Ask(Asked::Block(2)),
        Told::Reply(4, Reply::Added { number: 4 }),
    ),
    (Step::Renew, Told::Nothing),
    (Step::Lengths, Told::Numbers(4, 0)),
    (Step::Settle, Told::Number(4)),
    (Step::Renew, Told::Numbers(2, 4)),
    (Step::Lengths, Told::Numbers(2, 2)),
    (Step::Publish, Told::Published(Published::Same { k: 2 })),
    (Step::Floors(1, 1), Told::Floors(1)),
    (Step::Floors(2, 1), Told::Floors(0)),
    (Step::Floors(5, 1), Told::Floors(0)),
    (
        Step::Ask(Asked::Remove(4)),
        Told::Reply(3, Reply::Dead { number: 4 }),
    ),
    (Step::Ask(Asked::Remove(2)), Told::Reply(4, Reply::Removed)),
    (
        Step::Ask(Asked::Remove(2)),
        Told::Reply(5, Reply::Dead { number: 2 }),
    ),
    (Step::Settle, Told::Number(5)),
    (Step::Floors(2, 1), Told::Floors(1)),
    (Step::Floors(5, 1), Told::Floors(0)),
];

/// Paths before and after the level is prepared. The middles of the strips are 40 and 80 in x and 24 and 40 in z; the obstacle cuts one strip of
/// the row that the path begins in to the middle 24, from which the next is 16 on in x and in z.
static LANDMARKS: [Row; 15] = [
    (Step::Path, Told::Cost(56)),
    (Step::Prepare, Told::Done),
    (Step::Path, Told::Cost(56)),
    (
        Step::Ask(Asked::Block(2)),
        Told::Reply(1, Reply::Added { number: 1 }),
    ),
    (Step::Path, Told::Cost(56)),
    (Step::Settle, Told::Number(1)),
    (Step::Path, Told::Cost(63)),
    (Step::Prepare, Told::Done),
    (Step::Path, Told::Cost(63)),
    (Step::Publish, Told::Published(Published::Same { k: 1 })),
    (Step::Renew, Told::Numbers(1, 0)),
    (Step::Path, Told::Cost(63)),
    (Step::Ask(Asked::Remove(1)), Told::Reply(2, Reply::Removed)),
    (Step::Settle, Told::Number(2)),
    (Step::Paths(20), Told::Cost(56)),
];

/// A door that shuts and opens: landmarks that were made once are there after each publish, and paths cost what they do in a fresh mesh.
static KEPT: [Row; 15] = [
    (Step::Paths(23), Told::Cost(56)),
    (
        Step::Ask(Asked::Block(2)),
        Told::Reply(1, Reply::Added { number: 1 }),
    ),
    (Step::Aim, Told::Number(1)),
    (Step::CachedBuild, Told::Number(0)),
    (Step::PublishKept, Told::Nothing),
    (Step::Paths(1), Told::Cost(63)),
    (Step::Ask(Asked::Remove(1)), Told::Reply(2, Reply::Removed)),
    (Step::Aim, Told::Number(2)),
    (Step::CachedBuild, Told::Number(0)),
    (Step::PublishKept, Told::Done),
    (Step::Path, Told::Cost(56)),
    (
        Step::Ask(Asked::Block(2)),
        Told::Reply(3, Reply::Added { number: 3 }),
    ),
    (Step::Settle, Told::Number(3)),
    (Step::Path, Told::Cost(63)),
    (Step::Lengths, Told::Numbers(3, 3)),
];

#[test]
fn plays_levels(rt: HostRuntime) {
    let wrong = wrong_in_play::<Brand>(rt.alloc(), &STEPS, Blank::new(1));
    all_hold(&rt, "steps of a level", wrong);
    let wrong = wrong_in_play::<Brand>(rt.alloc(), &RENEWAL, Blank::new(1));
    all_hold(&rt, "a history that begins again", wrong);
    let wrong = wrong_in_play::<Brand>(rt.alloc(), &LANDMARKS, Blank::new(1));
    all_hold(&rt, "paths by landmarks", wrong);
    let wrong = wrong_in_play::<Brand>(rt.alloc(), &KEPT, Blank::new(1));
    all_hold(&rt, "landmarks that are kept", wrong);
}
