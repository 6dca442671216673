//! Runs of books over small flat grounds. What is wanted was worked out by hand.

ghost use Rattle.std.specs.Prelude.{◌≡◌, ◌<◌, ◌≤◌, [], All, IfOk, IfSome};
ghost use Rattle.nav_ground.specs.Fields.{IsField};
ghost use Rattle.nav_ground.specs.Grounds.{IsGround};
ghost use Rattle.nav_ground.specs.History.{IsRequest};
ghost use Rattle.nav_query.specs.Questions.{IsAnswerable};
ghost use Rattle.nav_version.specs.Pairs.{EyeView};
ghost use Rattle.tile_build.specs.Meshes.{tiles_under};
ghost use Rattle.nav_book.specs.Results.{IsBuild};

use crate::late_rows::{LATE_AGAIN, LATE_ELSEWHERE, LATE_MORE, LATE_REMOVED};
use crate::lists::{claimed_list, submitted_under};
use crate::rows::{all_hold, hold};
use crate::versions::{both, floors};
use layer_cut::ground;
use mesh_types::{Answer, PathFound, PolyRef, TileMesh};
use nav_base::{FloorAt, Point, Question, Steps};
use nav_book::{Book, HistoryFull, Job, Published, Submitted, TileResult, build_job};
use nav_ground::{
    AREAS, Agent, Entry, Field, Ground, HISTORY_LIMIT, MeshKind, PackedSpan, Reply, Request,
    Setting, Shape, Span, tiles,
};
use nav_lists::{Items, Shared};
use nav_version::Eye;
use std::alloc::{AllocError, Global};
use std::marker::Brand;
use std::process::Abort;
use std::sync::ledger::{Blank, Ledger};
use std::sync::{Arc, Wait};
use tile_build::build_tiles;

/// What a table asks for: a block over the column (x, 1), a block there that sets the area 5, a block over a column (x, z), or that a
/// number goes.
#[derive(Clone, Copy)]
pub(crate) enum Asked {
    Block(u32),
    Area(u32),
    Column(u32, u32),
    Remove(u32),
}

pub(crate) fn request_of(asked: Asked) -> Request
    ensures { IsRequest result }
{
    match asked {
        Asked::Block(x) => Request::Add(Shape::Block {
            x0: x.min(1023),
            x1: x.min(1023),
            y0: 0,
            y1: 100,
            z0: 1,
            z1: 1,
        }),
        Asked::Area(x) => Request::Add(Shape::AreaBlock {
            area: 5,
            x0: x.min(1023),
            x1: x.min(1023),
            y0: 0,
            y1: 100,
            z0: 1,
            z1: 1,
        }),
        Asked::Column(x, z) => Request::Add(Shape::Block {
            x0: x.min(1023),
            x1: x.min(1023),
            y0: 0,
            y1: 100,
            z0: z.min(1023),
            z1: z.min(1023),
        }),
        Asked::Remove(number) => Request::Remove(number),
    }
}

/// A field with one span over each column, all with the top 10.
pub(crate) fn flat_field(alloc: Global, width: u32, depth: u32) -> Result<Field, AllocError>
    requires wide { (1 ≤ width) × (width ≤ 1024) }
    requires deep { (1 ≤ depth) × (depth ≤ 1024) }
    ensures rules { IfOk result IsField }
    ensures width { IfOk result (λ field. field.width ≡ width) }
    ensures depth { IfOk result (λ field. field.depth ≡ depth) }
{
    let mut spans = Vec::new(alloc);
    for i in 0..width * depth {
        let span = Span {
            x: i % width,
            z: i / width,
            bottom: 0,
            top: 10,
            area: 63,
        };
        spans.push(PackedSpan::new(&span))?;
    }
    Ok(Field {
        width,
        depth,
        spans: Items::from_vec(spans),
    })
}

/// The tiles of a ground: one, two beside each other, or four.
#[derive(Clone, Copy)]
pub(crate) enum Layout {
    One,
    Two,
    Four,
}

/// The columns of such a ground across and along, and those of a tile.
fn sizes(layout: Layout) -> (u32, u32, u32)
    ensures wide { (1 ≤ result.0) × (result.0 ≤ 1024) }
    ensures deep { (1 ≤ result.1) × (result.1 ≤ 1024) }
    ensures tile { (4 ≤ result.2) × (result.2 ≤ 128) }
{
    match layout {
        Layout::One => (6, 6, 6),
        Layout::Two => (7, 4, 4),
        Layout::Four => (8, 8, 4),
    }
}

/// The ground of a flat field, where two obstacles may be alive.
pub(crate) fn flat_ground(alloc: Global, layout: Layout) -> Result<Ground, AllocError>
    ensures { IfOk result IsGround }
{
    let (width, depth, tile) = sizes(layout);
    let setting = Setting {
        width,
        depth,
        tile,
        agent: Agent {
            height: 10,
            climb: 4,
            radius: 0,
        },
        error: 169,
        mesh: MeshKind::Strips,
        limit: 2,
        costs: [1; AREAS],
        clear: false,
    };
    ground(alloc, setting, flat_field(alloc, width, depth)?)
}

/// The book of a ground and its tile meshes, and an eye for each reader.
fn begun<R: Wait>(
    rt: &R,
    alloc: Global,
    level: Ground,
    tiles: Items<Shared<TileMesh>>,
    readers: u32,
) -> Result<(Book, Vec<Eye>), AllocError>
    requires level { IsGround level }
    requires tiles { tiles ≡ tiles_under level [] }
    ensures { IfOk result (λ made. All (λ (eye : EyeView). eye.pair ≡ made.0.pair) made.1.items) }
{
    let level = Arc::new(alloc, level)?;
    Ok(Book::begin(rt, alloc, level, tiles, readers)?)
}

/// The book of a flat ground, and an eye for each reader.
pub(crate) fn opened<R: Wait, L: Ledger>(
    rt: &R,
    alloc: Global,
    layout: Layout,
    readers: u32,
    steps: &mut Steps<L>,
) -> Result<(Book, Vec<Eye>), AllocError>
    ensures { IfOk result (λ made. All (λ (eye : EyeView). eye.pair ≡ made.0.pair) made.1.items) }
{
    let level = flat_ground(alloc, layout)?;
    let tiles = build_tiles(alloc, &level, &[], steps)?;
    begun(rt, alloc, level, tiles, readers)
}

/// Claims the least tile that can be claimed, if there is one, and builds it.
fn next_build<L: Ledger>(
    book: &mut Book,
    alloc: Global,
    steps: &mut Steps<L>,
) -> Result<Option<TileResult>, AllocError>
    ensures same { book.new.state.ground ≡ book.old.state.ground }
    ensures pair { book.new.pair ≡ book.old.pair }
    ensures build { IfOk result (λ made. IfSome made (IsBuild book.old.state.ground)) }
{
    match book.level().ground().setting.mesh {
        MeshKind::Strips => (),
        MeshKind::Contours => return Ok(None),
    }
    match book.claim(alloc)? {
        None => Ok(None),
        Some(job) => {
            let mesh = build_job(alloc, book.level().ground(), &job, steps)?;
            let Job { tile, shapes } = job;
            Ok(Some(TileResult { tile, shapes, mesh }))
        }
    }
}

/// Builds the least tile that can be claimed, if there is one, and submits it.
fn build_next<L: Ledger>(
    book: &mut Book,
    alloc: Global,
    steps: &mut Steps<L>,
) -> Result<(), AllocError>
    ensures { book.new.pair ≡ book.old.pair }
{
    match next_build(book, alloc, steps)? {
        Some(made) => {
            let _taken = book.submit(made);
        }
        None => (),
    }
    Ok(())
}

/// Builds all tiles that are awaited for the whole history of a book, of which there are four at most, and publishes it.
fn settled<R: Wait, L: Ledger>(
    rt: &R,
    book: &mut Book,
    alloc: Global,
    steps: &mut Steps<L>,
) -> Result<Published, AllocError>
    ensures { book.new.pair ≡ book.old.pair }
{
    book.put_back_all();
    book.aim();
    for _ in 0..4 {
        build_next(book, alloc, steps)?;
    }
    book.publish(rt, alloc)
}

fn ask_all(book: &mut Book, requests: &[Asked])
    ensures { book.new.state.ground ≡ book.old.state.ground }
{
    for asked in requests {
        let _answer = book.request(0, request_of(*asked));
    }
}

/// What is done with a book, or asked of it.
#[derive(Clone, Copy)]
pub(crate) enum Step {
    /// A request in a lane.
    Ask(u32, Asked),
    /// Requests that remove nothing, until the history is full.
    Fill,
    Aim,
    Claim,
    Back(u32),
    AllBack,
    /// The awaited tile is built, this is asked and aimed at, and then the build is submitted.
    Late(&'static [Asked]),
    /// A build of a tile under the shapes of these requests is submitted.
    Built(u32, &'static [Asked]),
    /// A claim, whose job has the shapes of these requests, in this order.
    Listed(&'static [Asked]),
    Publish,
    /// All that is awaited is built and published.
    Settle,
    /// The floors of a column.
    Floors(u32, u32),
    /// A path inside the first polygon.
    Path,
    /// How long the history is, and how much of it is published.
    Lengths,
    /// How many polygons and links there are.
    Counts,
    /// Whether the last entry is of this lane and this request, with this reply.
    Last(u32, Asked, Reply),
}

/// What a step was answered.
#[derive(Clone, Copy, PartialEq)]
pub(crate) enum Told {
    /// Also an answer that no row wants.
    Nothing,
    NoMemory,
    /// The number of a request, and the reply.
    Reply(Result<(u32, Reply), HistoryFull>),
    /// The length that is aimed at, the tile that is claimed, the length at which a history was not filled, or 1 where it is so.
    Number(u32),
    Submitted(Submitted),
    Published(Result<Published, AllocError>),
    /// How many floors a column has, and the lowest of them.
    Floors(usize, Option<FloorAt>),
    /// The path stays in the first polygon, and so much is published.
    Stays(u32),
    /// No polygon holds the goal, and so much is published.
    NoGoal(u32),
    Numbers(u32, u32),
}

fn fill(book: &mut Book) -> Told {
    for _ in 0..HISTORY_LIMIT {
        if book.request(0, Request::Remove(1)).is_err() {
            return Told::Number(book.length());
        }
    }
    Told::Nothing
}

fn claimed(book: &mut Book, alloc: Global) -> Told {
    match book.claim(alloc) {
        Ok(Some(job)) => Told::Number(job.tile),
        Ok(None) => Told::Nothing,
        Err(_) => Told::NoMemory,
    }
}

fn put_back(book: &mut Book, alloc: Global, tile: u32) -> Told {
    if tile < tiles(&book.level().ground().setting) {
        let shapes = Items::new(alloc);
        book.put_back(Job { tile, shapes });
    }
    Told::Nothing
}

/// Builds the awaited tile, does something else with the book and aims again, and submits the build.
fn submitted_late<L: Ledger>(
    book: &mut Book,
    alloc: Global,
    between: &[Asked],
    steps: &mut Steps<L>,
) -> Told {
    match next_build(book, alloc, steps) {
        Ok(Some(made)) => {
            ask_all(book, between);
            book.aim();
            Told::Submitted(book.submit(made))
        }
        Ok(None) => Told::Nothing,
        Err(_) => Told::NoMemory,
    }
}

/// The tile of the columns 1 to 3 has the strips of the rows 1 and 2, each from 16 to 64 of x.
const QUESTION: Question = Question::Path {
    from: Point { x: 24, z: 24 },
    from_y: 10,
    to: Point { x: 40, z: 24 },
    to_y: 10,
};

/// Whether it is the path that stays in the first polygon.
fn stays(path: &PathFound) -> bool {
    path.first == PolyRef { tile: 0, index: 0 }
        && path.cost == 0
        && path.links.len() == 0
        && path.turns.len() == 0
}

/// What an answer tells, with so much published.
fn told_of(number: u32, answer: &Answer) -> Told {
    match answer {
        Answer::Floors(floors) => Told::Floors(floors.len(), floors.get(0).copied()),
        Answer::Path(path) if stays(path) => Told::Stays(number),
        Answer::NoGoal => Told::NoGoal(number),
        _ => Told::Nothing,
    }
}

fn answered(book: &Book, alloc: Global, question: &Question) -> Told
    requires { IsAnswerable question.now }
{
    match book.ask(alloc, question) {
        Ok((number, answer)) => told_of(number, &answer),
        Err(_) => Told::NoMemory,
    }
}

/// What is asked of a book that stays as it is.
fn seen(book: &Book, alloc: Global, step: Step) -> Told {
    match step {
        Step::Floors(x, z) => answered(book, alloc, &Question::Floor { x, z }),
        Step::Path => answered(book, alloc, &QUESTION),
        Step::Lengths => Told::Numbers(book.length(), book.published()),
        Step::Counts => {
            let (polygons, links) = book.mesh_counts();
            Told::Numbers(polygons, links)
        }
        Step::Last(lane, asked, reply) => Told::Number(is_last(book, lane, asked, reply)),
        _ => Told::Nothing,
    }
}

/// 1 where the last entry is this one, else 0.
fn is_last(book: &Book, lane: u32, asked: Asked, reply: Reply) -> u32 {
    let wanted = Entry {
        lane,
        request: request_of(asked),
        reply,
    };
    match book.entries().last() {
        Some(entry) if *entry == wanted => 1,
        _ => 0,
    }
}

fn act<R: Wait, L: Ledger>(
    rt: &R,
    book: &mut Book,
    alloc: Global,
    steps: &mut Steps<L>,
    step: Step,
) -> Told {
    match step {
        Step::Ask(lane, asked) => Told::Reply(book.request(lane, request_of(asked))),
        Step::Fill => fill(book),
        Step::Aim => Told::Number(book.aim()),
        Step::Claim => claimed(book, alloc),
        Step::Back(tile) => put_back(book, alloc, tile),
        Step::AllBack => {
            book.put_back_all();
            Told::Nothing
        }
        Step::Late(between) => submitted_late(book, alloc, between, steps),
        Step::Built(tile, asked) => submitted_under(book, alloc, tile, asked, steps),
        Step::Listed(asked) => claimed_list(book, alloc, asked),
        Step::Publish => Told::Published(book.publish(rt, alloc)),
        Step::Settle => Told::Published(settled(rt, book, alloc, steps)),
        _ => seen(book, alloc, step),
    }
}

/// A step, and what it is to be told.
pub(crate) type Row = (Step, Told);

fn wrong_row<R: Wait, L: Ledger>(
    rt: &R,
    alloc: Global,
    book: &mut Book,
    steps: &mut Steps<L>,
    rows: &[Row],
) -> Option<usize> {
    for row in 0..rows.len() {
        let (step, wanted) = rows[row];
        if act(rt, book, alloc, steps, step) != wanted {
            return Some(row);
        }
    }
    None
}

// A book may go from one thread to another.
fn sent<T: Send>(value: T) -> T {
    value
}

/// Plays the rows of a table with a book of its own. A row that is wrong; 99 where there is no memory.
fn wrong_in_play<R: Wait, L: Ledger>(
    rt: &R,
    alloc: Global,
    layout: Layout,
    rows: &[Row],
    blank: Blank,
) -> Option<usize>
    requires name { blank.name ≡ L.name }
    requires parts { blank.parts ≡ L.parts }
    requires some { 0 < blank.parts }
{
    let mut steps = Steps::<L>::new(blank);
    match opened(rt, alloc, layout, 0, &mut steps) {
        Ok((book, _eyes)) => {
            let mut book = sent(book);
            let wrong = wrong_row(rt, alloc, &mut book, &mut steps, rows);
            book.end(rt);
            wrong
        }
        Err(_) => Some(99),
    }
}

/// Plays a table with a book of a ground.
pub(crate) fn play<R: Abort + Wait>(
    rt: &R,
    alloc: Global,
    layout: Layout,
    name: &str,
    rows: &[Row],
) {
    let wrong = wrong_in_play::<R, Brand>(rt, alloc, layout, rows, Blank::new(1));
    all_hold(rt, name, wrong);
}

pub(crate) const BARE: Option<FloorAt> = Some(FloorAt { y: 10, area: 63 });

const MUDDY: Option<FloorAt> = Some(FloorAt { y: 10, area: 5 });

/// Requests with their numbers and replies.
static ASKINGS: [Row; 23] = [
    (
        Step::Ask(3, Asked::Block(1)),
        Told::Reply(Ok((1, Reply::Added { number: 1 }))),
    ),
    (Step::Lengths, Told::Numbers(1, 0)),
    (
        Step::Ask(3, Asked::Area(2)),
        Told::Reply(Ok((2, Reply::Added { number: 2 }))),
    ),
    (Step::Lengths, Told::Numbers(2, 0)),
    (
        Step::Ask(3, Asked::Block(3)),
        Told::Reply(Ok((3, Reply::Full { live: 2 }))),
    ),
    (Step::Lengths, Told::Numbers(3, 0)),
    (
        Step::Ask(3, Asked::Remove(1)),
        Told::Reply(Ok((4, Reply::Removed))),
    ),
    (Step::Lengths, Told::Numbers(4, 0)),
    (
        Step::Ask(3, Asked::Remove(1)),
        Told::Reply(Ok((5, Reply::Dead { number: 1 }))),
    ),
    (Step::Lengths, Told::Numbers(5, 0)),
    (
        Step::Ask(3, Asked::Remove(0)),
        Told::Reply(Ok((6, Reply::Dead { number: 0 }))),
    ),
    (Step::Lengths, Told::Numbers(6, 0)),
    (
        Step::Ask(3, Asked::Block(3)),
        Told::Reply(Ok((7, Reply::Added { number: 7 }))),
    ),
    (Step::Lengths, Told::Numbers(7, 0)),
    (
        Step::Ask(3, Asked::Remove(3)),
        Told::Reply(Ok((8, Reply::Dead { number: 3 }))),
    ),
    (Step::Lengths, Told::Numbers(8, 0)),
    (
        Step::Ask(3, Asked::Remove(7)),
        Told::Reply(Ok((9, Reply::Removed))),
    ),
    (Step::Lengths, Told::Numbers(9, 0)),
    (
        Step::Ask(3, Asked::Remove(2)),
        Told::Reply(Ok((10, Reply::Removed))),
    ),
    (Step::Lengths, Told::Numbers(10, 0)),
    (
        Step::Ask(3, Asked::Block(1)),
        Told::Reply(Ok((11, Reply::Added { number: 11 }))),
    ),
    (Step::Lengths, Told::Numbers(11, 0)),
    (
        Step::Last(3, Asked::Block(1), Reply::Added { number: 11 }),
        Told::Number(1),
    ),
];

/// What is published, and what is seen of it. In the last ten rows columns of the edge and those outside have no floors, and each other one has
/// one.
static SETTLINGS: [Row; 34] = [
    (
        Step::Ask(0, Asked::Remove(9)),
        Told::Reply(Ok((1, Reply::Dead { number: 9 }))),
    ),
    (Step::Floors(1, 1), Told::Floors(1, BARE)),
    (Step::Floors(2, 1), Told::Floors(1, BARE)),
    (
        Step::Ask(0, Asked::Block(2)),
        Told::Reply(Ok((2, Reply::Added { number: 2 }))),
    ),
    (Step::Floors(1, 1), Told::Floors(1, BARE)),
    (Step::Floors(2, 1), Told::Floors(1, BARE)),
    (
        Step::Ask(0, Asked::Area(1)),
        Told::Reply(Ok((3, Reply::Added { number: 3 }))),
    ),
    (Step::Settle, Told::Published(Ok(Published::New { k: 3 }))),
    (Step::Lengths, Told::Numbers(3, 3)),
    (Step::Floors(1, 1), Told::Floors(1, MUDDY)),
    (Step::Floors(2, 1), Told::Floors(0, None)),
    (
        Step::Ask(0, Asked::Block(3)),
        Told::Reply(Ok((4, Reply::Full { live: 2 }))),
    ),
    (Step::Settle, Told::Published(Ok(Published::New { k: 4 }))),
    (Step::Lengths, Told::Numbers(4, 4)),
    (Step::Floors(1, 1), Told::Floors(1, MUDDY)),
    (Step::Floors(2, 1), Told::Floors(0, None)),
    (
        Step::Ask(0, Asked::Remove(2)),
        Told::Reply(Ok((5, Reply::Removed))),
    ),
    (Step::Floors(1, 1), Told::Floors(1, MUDDY)),
    (Step::Floors(2, 1), Told::Floors(0, None)),
    (
        Step::Ask(0, Asked::Remove(3)),
        Told::Reply(Ok((6, Reply::Removed))),
    ),
    (Step::Settle, Told::Published(Ok(Published::New { k: 6 }))),
    (Step::Lengths, Told::Numbers(6, 6)),
    (Step::Floors(1, 1), Told::Floors(1, BARE)),
    (Step::Floors(2, 1), Told::Floors(1, BARE)),
    (Step::Floors(0, 1), Told::Floors(0, None)),
    (Step::Floors(6, 1), Told::Floors(0, None)),
    (Step::Floors(1, 0), Told::Floors(0, None)),
    (Step::Floors(1, 3), Told::Floors(0, None)),
    (Step::Floors(3, 2), Told::Floors(1, BARE)),
    (Step::Floors(4, 2), Told::Floors(1, BARE)),
    (Step::Floors(5, 1), Told::Floors(1, BARE)),
    (Step::Floors(7, 2), Told::Floors(0, None)),
    (Step::Floors(1, 4), Told::Floors(0, None)),
    (Step::Floors(5000, 2), Told::Floors(0, None)),
];

/// The goal is covered once the request is published, and not before.
static COVERING: [Row; 5] = [
    (Step::Path, Told::Stays(0)),
    (
        Step::Ask(0, Asked::Block(2)),
        Told::Reply(Ok((1, Reply::Added { number: 1 }))),
    ),
    (Step::Path, Told::Stays(0)),
    (Step::Settle, Told::Published(Ok(Published::New { k: 1 }))),
    (Step::Path, Told::NoGoal(1)),
];

/// A history that is full.
static FILLING: [Row; 3] = [
    (Step::Fill, Told::Nothing),
    (
        Step::Ask(0, Asked::Remove(1)),
        Told::Reply(Err(HistoryFull { len: HISTORY_LIMIT })),
    ),
    (
        Step::Settle,
        Told::Published(Ok(Published::New { k: HISTORY_LIMIT })),
    ),
];

/// The tiles that are awaited are handed out. The column 1 is of the tile 0, the column 5 of the tile 1.
static STEPS: [Row; 17] = [
    (Step::Publish, Told::Published(Ok(Published::Same { k: 0 }))),
    (
        Step::Ask(0, Asked::Block(1)),
        Told::Reply(Ok((1, Reply::Added { number: 1 }))),
    ),
    (Step::Claim, Told::Nothing),
    (Step::Publish, Told::Published(Ok(Published::Same { k: 0 }))),
    (Step::Aim, Told::Number(1)),
    (
        Step::Publish,
        Told::Published(Ok(Published::NotYet { tile: 0 })),
    ),
    (Step::Claim, Told::Number(0)),
    (Step::Claim, Told::Nothing),
    (
        Step::Publish,
        Told::Published(Ok(Published::NotYet { tile: 0 })),
    ),
    (
        Step::Ask(0, Asked::Area(5)),
        Told::Reply(Ok((2, Reply::Added { number: 2 }))),
    ),
    (Step::Aim, Told::Number(2)),
    (Step::Back(0), Told::Nothing),
    (Step::Claim, Told::Number(0)),
    (Step::Claim, Told::Number(1)),
    (Step::Claim, Told::Nothing),
    (Step::AllBack, Told::Nothing),
    (Step::Claim, Told::Number(0)),
];

/// Four tiles of three strips each, with as many links inside tiles as over borders.
static COUNTED: [Row; 1] = [(Step::Counts, Told::Numbers(12, 32))];

/// One tile of four strips.
static COUNTED_ONE: [Row; 1] = [(Step::Counts, Told::Numbers(4, 6))];

#[test]
fn plays_books(rt: HostRuntime) {
    play(&rt, rt.alloc(), Layout::Two, "requests", &ASKINGS);
    play(&rt, rt.alloc(), Layout::Two, "settlings", &SETTLINGS);
    play(&rt, rt.alloc(), Layout::Two, "covering", &COVERING);
    play(&rt, rt.alloc(), Layout::Two, "filling", &FILLING);
    play(&rt, rt.alloc(), Layout::Four, "awaited tiles", &STEPS);
    play(
        &rt,
        rt.alloc(),
        Layout::Four,
        "late, of another tile",
        &LATE_ELSEWHERE,
    );
    play(
        &rt,
        rt.alloc(),
        Layout::Four,
        "late, without the block",
        &LATE_REMOVED,
    );
    play(
        &rt,
        rt.alloc(),
        Layout::Four,
        "late, under the block again",
        &LATE_AGAIN,
    );
    play(
        &rt,
        rt.alloc(),
        Layout::Four,
        "late, under more",
        &LATE_MORE,
    );
    play(
        &rt,
        rt.alloc(),
        Layout::Four,
        "counts of four tiles",
        &COUNTED,
    );
    play(
        &rt,
        rt.alloc(),
        Layout::One,
        "counts of one tile",
        &COUNTED_ONE,
    );
}

/// What eyes of a book see: the first one before a block is published there; the second one once it learnt the length that the book tells,
/// and the first one again, which was told nothing; and that length.
type Seen = ([Option<(u32, usize)>; 3], u32);

fn seen_by<R: Wait, L: Ledger>(
    rt: &R,
    alloc: Global,
    book: &mut Book,
    eyes: &mut (Eye, Eye),
    steps: &mut Steps<L>,
) -> Seen
    requires { eyes.old.1.pair ≡ book.old.pair }
{
    let before = floors(&mut eyes.0, alloc, 2, 1);
    let _answer = book.request(0, request_of(Asked::Block(2)));
    let _published = settled(rt, book, alloc, steps);
    let told = book.told();
    let length = told.length();
    eyes.1.learn(told);
    let after = floors(&mut eyes.1, alloc, 2, 1);
    let again = floors(&mut eyes.0, alloc, 2, 1);
    ([before, after, again], length)
}

/// The same, and whether an eye is refused once the book has ended.
fn watched<R: Wait, L: Ledger>(
    rt: &R,
    alloc: Global,
    book: Book,
    eyes: (Eye, Eye),
    steps: &mut Steps<L>,
) -> (Seen, bool)
    requires { eyes.1.pair ≡ book.pair }
{
    let mut book = book;
    let mut eyes = eyes;
    let seen = seen_by(rt, alloc, &mut book, &mut eyes, steps);
    book.end(rt);
    (seen, floors(&mut eyes.0, alloc, 2, 1).is_none())
}

/// The same of a book that is opened with two eyes.
fn watched_anew<R: Wait, L: Ledger>(rt: &R, alloc: Global, blank: Blank) -> Option<(Seen, bool)>
    requires name { blank.name ≡ L.name }
    requires parts { blank.parts ≡ L.parts }
    requires some { 0 < blank.parts }
{
    let mut steps = Steps::<L>::new(blank);
    match opened(rt, alloc, Layout::Two, 2, &mut steps) {
        Ok((book, eyes)) => match both(eyes) {
            Some(eyes) => Some(watched(rt, alloc, book, eyes, &mut steps)),
            None => {
                book.end(rt);
                None
            }
        },
        Err(_) => None,
    }
}

#[test]
fn hands_out_eyes(rt: HostRuntime) {
    let seen = watched_anew::<HostRuntime, Brand>(&rt, rt.alloc(), Blank::new(1));
    let answers = [Some((0, 1)), Some((1, 0)), Some((1, 0))];
    hold(&rt, "eyes", seen == Some(((answers, 1), true)));
}
