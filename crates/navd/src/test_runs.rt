//! Runs of the whole program over sources and sinks in memory, and the levels that the tests run.

ghost use Rattle.std.specs.Prelude.{◌≡◌, ◌<◌};

use nav_base::{Steps, push_number};
use nav_io::{FreeGate, Gate, MemorySink, MemorySource};
use std::alloc::Global;
use std::marker::Brand;
use std::process::Abort;
use std::sync::Wait;
use std::sync::ledger::{Blank, Ledger};
use std::thread::Threads;
use top_call::{Status, navd};

/// What a run gave: its status, and the sink after it.
#[derive(Drop)]
pub(crate) struct Ran {
    pub(crate) status: Status,
    pub(crate) sink: MemorySink,
}

/// The bytes that a read and a write move at most, each with the number of the read or the write that fails (0 for none).
#[derive(Clone, Copy)]
pub(crate) struct Moves {
    pub(crate) read: (usize, u32),
    pub(crate) write: (usize, u32),
}

/// Up to 100 bytes at once.
pub(crate) const FREE: Moves = Moves {
    read: (100, 0),
    write: (100, 0),
};

/// Up to 100 bytes at once are read, and up to 8 written.
pub(crate) const NARROW_WRITES: Moves = Moves {
    read: (100, 0),
    write: (8, 0),
};

/// Up to 4096 bytes at once.
pub(crate) const LARGE: Moves = Moves {
    read: (4096, 0),
    write: (4096, 0),
};

/// What a run is given: its words, its input, and how both are moved.
struct Feed<'a> {
    words: &'a [&'a str],
    input: Vec<u8>,
    moves: Moves,
}

/// One run through a gate, with a counter of its own.
fn run_counted<R: Abort + Threads + Wait + Sync, G: Gate + Sync, L: Ledger>(
    rt: &R,
    alloc: Global,
    feed: Feed<'_>,
    gate: &G,
    blank: Blank,
) -> Ran
    requires reads { 0 < feed.moves.read.0 }
    requires writes { 0 < feed.moves.write.0 }
    requires name { blank.name ≡ L.name }
    requires parts { blank.parts ≡ L.parts }
    requires some { 0 < blank.parts }
{
    let Feed {
        words,
        input,
        moves,
    } = feed;
    let words = words_of(rt, alloc, words);
    let failing_reads = vec![in alloc; moves.read.1].expect(rt, "memory");
    let mut source = MemorySource::new(input, moves.read.0, failing_reads);
    let failing_writes = vec![in alloc; moves.write.1].expect(rt, "memory");
    let mut sink = MemorySink::with_room(alloc, moves.write.0, 6000000, failing_writes).expect(
        rt, "memory",
    );
    let mut steps = Steps::<L>::new(blank);
    let status = navd(
        rt,
        alloc,
        words.as_slice(),
        &mut source,
        &mut sink,
        gate,
        &mut steps,
    );
    Ran { status, sink }
}

/// One run at whose gate nobody waits.
pub(crate) fn run_once<R: Abort + Threads + Wait + Sync>(
    rt: &R,
    alloc: Global,
    words: &[&str],
    input: Vec<u8>,
    moves: Moves,
) -> Ran
    requires reads { 0 < moves.read.0 }
    requires writes { 0 < moves.write.0 }
{
    let blank = Blank::new(1);
    let feed = Feed {
        words,
        input,
        moves,
    };
    run_counted::<_, _, Brand>(rt, alloc, feed, &FreeGate, blank)
}

fn words_of(rt: &impl Abort, alloc: Global, texts: &[&str]) -> Vec<String> {
    let mut words = Vec::new(alloc);
    for text in texts {
        words
            .push(text.to_string(alloc).expect(rt, "memory"))
            .expect(rt, "memory");
    }
    words
}

/// The run ended with a status, and the sink holds these bytes.
pub(crate) fn check(rt: &impl Abort, ran: &Ran, status: Status, held: &[u8]) {
    assert!(rt; ran.status == status);
    assert!(rt; ran.sink.bytes() == held);
}

/// The run ended well, and what the sink holds begins and ends with these texts.
pub(crate) fn check_ends(rt: &impl Abort, ran: &Ran, first: &str, last: &str) {
    assert!(rt; ran.status == Status::Ok);
    assert!(rt; ran.sink.bytes().starts_with(first.as_bytes()));
    assert!(rt; ran.sink.bytes().ends_with(last.as_bytes()));
}

/// What stands over a square field beside its floor at height 10.
#[derive(Clone, Copy)]
pub(crate) enum Over {
    /// No field: it has no spans at all.
    Void,
    Sky,
    /// Spans over the column (2, 2).
    Spans(&'static str),
    /// A deck at height 40 over the rows 1 to 3.
    Deck,
    /// Walls of height 40 in every column but (1, 1).
    Walls,
    /// A floor at height 14 from row 3 on.
    Step,
    /// A second floor at height 40 over the whole field.
    Storey,
}

/// A square field: the form of its text, its side and that of its tiles, the agent's radius, the lines of the error and of the mesh, how many
/// obstacles at once, the `clear` and `cost` lines, what stands there, and the lanes and workers of the script.
#[derive(Clone, Copy)]
pub(crate) struct SquareField {
    pub(crate) form: u32,
    pub(crate) side: u8,
    pub(crate) tile: u32,
    pub(crate) radius: u32,
    pub(crate) mesh: &'static str,
    pub(crate) limit: u32,
    pub(crate) costs: &'static str,
    pub(crate) over: Over,
    pub(crate) lanes: u32,
    pub(crate) workers: u32,
}

/// A flat field of 6 by 6 columns in one tile.
pub(crate) const ROOM: SquareField = SquareField {
    form: 1,
    side: 6,
    tile: 6,
    radius: 0,
    mesh: "error 169\nmesh strips\n",
    limit: 4,
    costs: "",
    over: Over::Sky,
    lanes: 1,
    workers: 1,
};

/// The same on a field of another side, in four tiles.
pub(crate) const FOUR_TILES: SquareField = SquareField {
    side: 8,
    tile: 4,
    ..ROOM
};

/// A flat field of 96 by 96 columns in four tiles, whose meshes are outlines.
pub(crate) const WIDE: SquareField = SquareField {
    side: 96,
    tile: 48,
    radius: 2,
    mesh: "error 169\nmesh contours\n",
    limit: 64,
    ..ROOM
};

/// Appends a line of a word and numbers.
pub(crate) fn push_line(rt: &impl Abort, text: &mut Vec<u8>, word: &str, numbers: &[u32]) {
    push_text(rt, text, word);
    for number in numbers {
        text.push(b' ').expect(rt, "memory");
        push_number(text, i64::from(*number)).expect(rt, "memory");
    }
    text.push(b'\n').expect(rt, "memory");
}

fn push_text(rt: &impl Abort, text: &mut Vec<u8>, more: &str) {
    text.extend_from_slice(more.as_bytes()).expect(rt, "memory");
}

fn push_header(rt: &impl Abort, text: &mut Vec<u8>, level: &SquareField) {
    push_line(rt, text, "nav", &[level.form]);
    let side = u32::from(level.side);
    push_line(rt, text, "size", &[side, side]);
    push_line(rt, text, "tile", &[level.tile]);
    push_line(rt, text, "agent", &[10, 4, level.radius]);
    push_text(rt, text, level.mesh);
    push_line(rt, text, "limit", &[level.limit]);
    push_text(rt, text, level.costs);
}

/// Appends the spans of one column.
fn push_column(rt: &impl Abort, text: &mut Vec<u8>, over: Over, x: u32, z: u32) {
    let (top, area) = match over {
        Over::Void => return,
        Over::Walls if x != 1 || z != 1 => (40, 0),
        Over::Step if 3 <= z => (14, 63),
        _ => (10, 63),
    };
    push_line(rt, text, "span", &[x, z, 0, top, area]);
    match over {
        Over::Spans(spans) if x == 2 && z == 2 => push_text(rt, text, spans),
        Over::Deck if 1 <= z && z <= 3 => push_line(rt, text, "span", &[x, z, 30, 40, 63]),
        Over::Storey => push_line(rt, text, "span", &[x, z, 30, 40, 63]),
        _ => (),
    }
}

fn push_columns(rt: &impl Abort, text: &mut Vec<u8>, level: &SquareField) {
    let side = u32::from(level.side);
    for i in 0..side * side {
        push_column(rt, text, level.over, i % side, i / side);
    }
}

/// The text of a level, and the script behind it.
pub(crate) fn built_level(
    rt: &impl Abort,
    alloc: Global,
    level: &SquareField,
    script: &str,
) -> Vec<u8> {
    let mut text = Vec::new(alloc);
    push_header(rt, &mut text, level);
    push_columns(rt, &mut text, level);
    push_text(rt, &mut text, "end\n");
    push_line(rt, &mut text, "script", &[level.lanes, level.workers]);
    push_text(rt, &mut text, script);
    text
}

/// Plays the script over the level.
pub(crate) fn played<R: Abort + Threads + Wait + Sync>(
    rt: &R,
    alloc: Global,
    level: &SquareField,
    script: &str,
    moves: Moves,
) -> Ran
    requires reads { 0 < moves.read.0 }
    requires writes { 0 < moves.write.0 }
{
    let text = built_level(rt, alloc, level, script);
    run_once(rt, alloc, &["play"], text, moves)
}

/// Runs the script live over the level, its actors through the gate.
pub(crate) fn lived<R: Abort + Threads + Wait + Sync, G: Gate + Sync>(
    rt: &R,
    alloc: Global,
    level: &SquareField,
    script: &str,
    gate: &G,
) -> Ran {
    let text = built_level(rt, alloc, level, script);
    let blank = Blank::new(1);
    let feed = Feed {
        words: &["live"],
        input: text,
        moves: FREE,
    };
    run_counted::<_, _, Brand>(rt, alloc, feed, gate, blank)
}
