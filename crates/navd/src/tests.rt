//! Runs of the whole program: how each ends, and what is written by then. What is wanted was worked out by hand.

ghost use Rattle.std.specs.Prelude.{◌<◌};

use crate::test_runs::{
    FREE, LARGE, Moves, NARROW_WRITES, ROOM, Ran, SquareField, built_level, check, check_ends,
    played, push_line, run_once,
};
use std::alloc::Global;
use std::process::Abort;
use std::sync::Wait;
use std::thread::Threads;
use top_call::Status;

/// A script over the flat room, and its play text.
const SCRIPT: &str = "floor 2 2\nadd block 2 2 0 100 2 2\nsettle\nfloor 2 2\n";

const PLAYED: &str = "floors 0 1 10 63\nentry 1 added\nsettled 1\nfloors 1 0\ndone 1 1\n";

/// So many times one line.
fn lines(rt: &impl Abort, alloc: Global, count: u32, line: &str) -> String {
    let mut script = String::new(alloc);
    for _ in 0..count {
        script.push_str(line).expect(rt, "memory");
    }
    script
}

/// The word, the script; the status and what the sink holds.
type Ending = (&'static str, &'static str, Status, &'static str);

static ENDINGS: [Ending; 15] = [
    ("play", SCRIPT, Status::Ok, PLAYED),
    ("play", "", Status::Ok, "done 0 0\n"),
    ("plays", "", Status::Usage, "fault usage\n"),
    ("play", "publish", Status::BadText, "fault 46 7\n"),
    ("play", "jump\n", Status::BadText, "fault 46 8\n"),
    ("play", "lane 1\n", Status::BadText, "fault 46 9\n"),
    ("play", "drop 1\n", Status::BadText, "fault 46 10\n"),
    (
        "play",
        "floor 1 1\nfloor 1024 1\n",
        Status::BadText,
        "fault 47 2\n",
    ),
    ("play", "aim\n", Status::Ok, "aim 0\ndone 0 0\n"),
    ("live", "aim\n", Status::BadText, "fault 46 8\n"),
    ("live", "lane 1\n", Status::BadText, "fault 46 9\n"),
    ("live", "march 0\n", Status::BadText, "fault 46 2\n"),
    ("play", "march 1\n", Status::BadText, "fault 46 8\n"),
    (
        "play",
        "send 24 24 10 72 72 10\n",
        Status::BadText,
        "fault 46 8\n",
    ),
    ("lives", "", Status::Usage, "fault usage\n"),
];

fn check_endings<R: Abort + Threads + Wait + Sync>(rt: &R, alloc: Global, endings: &[Ending]) {
    for (word, script, status, held) in endings {
        let level = built_level(rt, alloc, &ROOM, script);
        let ran = run_once(rt, alloc, &[*word], level, NARROW_WRITES);
        check(rt, &ran, *status, held.as_bytes());
    }
}

#[test]
fn ends_with_the_status_of_its_cause(rt: HostRuntime) {
    check_endings(&rt, rt.alloc(), &ENDINGS);
}

#[test]
fn tells_each_failing_call(rt: HostRuntime) {
    let alloc = rt.alloc();
    let length = built_level(&rt, alloc, &ROOM, SCRIPT).len();
    assert!(rt; length < 5000);
    // The last call is the one that would tell the end.
    for call in 1..length + 2 {
        let moves = Moves {
            read: (1, call as u32),
            write: (8, 0),
        };
        let ran = played(&rt, alloc, &ROOM, SCRIPT, moves);
        check(&rt, &ran, Status::ReadFault, b"");
    }
}

/// Where the writing of a text byte by byte fails, the bytes before are left.
fn check_left<R: Abort + Threads + Wait + Sync>(rt: &R, alloc: Global, text: &[u8]) {
    assert!(rt; text.len() < 5000);
    for call in 0..text.len() {
        let moves = Moves {
            read: (100, 0),
            write: (1, call as u32 + 1),
        };
        let ran = played(rt, alloc, &ROOM, SCRIPT, moves);
        check(rt, &ran, Status::WriteFault, &text[..call]);
    }
}

#[test]
fn leaves_what_was_written(rt: HostRuntime) {
    check_left(&rt, rt.alloc(), PLAYED.as_bytes());
}

#[test]
fn leaves_nothing_of_a_fault(rt: HostRuntime) {
    let moves = Moves {
        read: (1, 0),
        write: (8, 1),
    };
    let input = Vec::new(rt.alloc());
    let ran = run_once(&rt, rt.alloc(), &["play"], input, moves);
    check(&rt, &ran, Status::WriteFault, b"");
}

/// What the first lines of the script over the flat room are answered with, its 45 lines of a level before them.
fn played_by(lines: u32) -> &'static str {
    match lines {
        45 => "done 0 0\n",
        46 => "floors 0 1 10 63\ndone 0 0\n",
        47 => "floors 0 1 10 63\nentry 1 added\ndone 0 1\n",
        _ => "floors 0 1 10 63\nentry 1 added\nsettled 1\ndone 1 1\n",
    }
}

/// A beginning of an input is played where it ends with a line behind the level; else the fault is that of the first line that is not whole.
fn check_beginning<R: Abort + Threads + Wait + Sync>(
    rt: &R,
    alloc: Global,
    beginning: &[u8],
    lines: u32,
    is_whole: bool,
) {
    let mut input = Vec::new(alloc);
    input.extend_from_slice(beginning).expect(rt, "memory");
    let ran = run_once(rt, alloc, &["play"], input, FREE);
    if is_whole && lines >= 45 {
        check(rt, &ran, Status::Ok, played_by(lines).as_bytes());
    } else {
        let mut fault = Vec::new(alloc);
        push_line(rt, &mut fault, "fault", &[lines.saturating_add(1), 7]);
        check(rt, &ran, Status::BadText, fault.as_slice());
    }
}

fn check_beginnings<R: Abort + Threads + Wait + Sync>(rt: &R, alloc: Global, text: &[u8]) {
    let mut lines = 0u32;
    let mut is_whole = true;
    for length in 0..text.len() {
        check_beginning(rt, alloc, &text[..length], lines, is_whole);
        is_whole = text[length] == b'\n';
        lines = lines.saturating_add(u32::from(is_whole));
    }
}

#[test]
fn tells_where_an_input_is_cut(rt: HostRuntime) {
    let text = built_level(&rt, rt.alloc(), &ROOM, SCRIPT);
    check_beginnings(&rt, rt.alloc(), text.as_slice());
}

/// So many line feeds; the status and what the sink holds.
type Feeds = (usize, Status, &'static str);

/// As many line feeds as an input may have, and one more.
static FEEDS: [Feeds; 2] = [
    (67108864, Status::BadText, "fault 1 1\n"),
    (67108865, Status::TooLong, "fault too long\n"),
];

fn check_feeds<R: Abort + Threads + Wait + Sync>(rt: &R, alloc: Global, rows: &[Feeds]) {
    for (length, status, held) in rows {
        let feeds = vec![in alloc; b'\n'; *length].expect(rt, "memory");
        let moves = Moves {
            read: (1000000, 0),
            write: (8, 0),
        };
        let ran = run_once(rt, alloc, &["play"], feeds, moves);
        check(rt, &ran, *status, held.as_bytes());
    }
}

#[test]
fn reads_no_more_than_it_may(rt: HostRuntime) {
    check_feeds(&rt, rt.alloc(), &FEEDS);
}

/// A level with room for one obstacle.
const ONE_OBSTACLE: SquareField = SquareField { limit: 1, ..ROOM };

/// Runs a script over a level, as the word says.
fn run_script<R: Abort + Threads + Wait + Sync>(
    rt: &R,
    alloc: Global,
    word: &str,
    level: &SquareField,
    script: &str,
) -> Ran {
    let text = built_level(rt, alloc, level, script);
    run_once(rt, alloc, &[word], text, LARGE)
}

#[test]
fn fills_a_history(rt: HostRuntime) {
    let line = "add block 0 0 0 0 0 0\n";
    let script = lines(&rt, rt.alloc(), 262145, line);
    let ran = run_script(&rt, rt.alloc(), "play", &ONE_OBSTACLE, script.as_str());
    check_ends(
        &rt,
        &ran,
        "entry 1 added\nentry 2 full 1\n",
        "entry 262144 full 1\nhistory full 262144\ndone 0 262144\n",
    );
}

const ONE_JUMP: &str = "jump 40 24 10 40 56 10 50\n";

/// The word, one more line than it takes, the line; the fault.
type TooMany = (&'static str, u32, &'static str, &'static str);

static TOO_MANY: [TooMany; 3] = [
    ("play", 300001, "settle\n", "fault 300046 11\n"),
    // A live run takes no more requests than a history has entries.
    ("live", 262145, "remove 1\n", "fault 262190 11\n"),
    ("play", 257, ONE_JUMP, "fault 302 12\n"),
];

fn check_too_many<R: Abort + Threads + Wait + Sync>(rt: &R, alloc: Global, rows: &[TooMany]) {
    for (word, count, line, fault) in rows {
        let script = lines(rt, alloc, *count, *line);
        let ran = run_script(rt, alloc, *word, &ROOM, script.as_str());
        check(rt, &ran, Status::BadText, fault.as_bytes());
    }
}

#[test]
fn takes_no_more_lines_than_it_may(rt: HostRuntime) {
    check_too_many(&rt, rt.alloc(), &TOO_MANY);
}

/// A walk over three links is cheaper than one over any of 256 jumps.
#[test]
fn takes_as_many_jumps_as_it_may(rt: HostRuntime) {
    let mut script = lines(&rt, rt.alloc(), 256, ONE_JUMP);
    let hop = "hop 24 24 10 72 72 10\n";
    script.push_str(hop).expect(&rt, "memory");
    let ran = played(&rt, rt.alloc(), &ROOM, script.as_str(), LARGE);
    check_ends(&rt, &ran, "hop 0 48 0 0 3 0\n", "done 0 0\n");
}

/// Words that are no form.
static NO_FORMS: [&[&str]; 19] = [
    &[],
    &[""],
    &["Play"],
    &["play", ""],
    &["Live"],
    &["live", "play"],
    &["play", "1", "32"],
    &["gen"],
    &["gen", "1"],
    &["gen", "1", "32", ""],
    &["gen", "", "32"],
    &["gen", "1", "31"],
    &["gen", "1", "513"],
    &["gen", "01", "32"],
    &["gen", "1", "032"],
    &["gen", "+1", "32"],
    &["gen", "1", "32 "],
    &["gen", "4294967296", "32"],
    &["--help", "1", "32"],
];

/// Runs the program on words, over a source that fails at its first read.
fn run_unread<R: Abort + Threads + Wait + Sync>(
    rt: &R,
    alloc: Global,
    words: &[&str],
    write: (usize, u32),
) -> Ran
    requires { 0 < write.0 }
{
    let moves = Moves {
        read: (1, 1),
        write,
    };
    run_once(rt, alloc, words, Vec::new(alloc), moves)
}

fn check_no_forms<R: Abort + Threads + Wait + Sync>(rt: &R, alloc: Global, forms: &[&[&str]]) {
    for words in forms {
        let ran = run_unread(rt, alloc, *words, (100, 0));
        check(rt, &ran, Status::Usage, b"fault usage\n");
    }
}

#[test]
fn refuses_words_in_no_form(rt: HostRuntime) {
    check_no_forms(&rt, rt.alloc(), &NO_FORMS);
}

/// The summary of the number 1 and the size 32, by a second program that was written apart from this one.
const SUMMARY: &[u8] =
    b"gen 1 32\ninput 32189 2369\nhistory 120 published 120\npaths 1 nopath 2 nostart 48 nogoal 13\ncost 404\nmesh 40 74\n";

#[test]
fn plays_made_inputs(rt: HostRuntime) {
    let ran = run_unread(&rt, rt.alloc(), &["gen", "1", "32"], (100, 0));
    check(&rt, &ran, Status::Ok, SUMMARY);
}

#[test]
fn leaves_what_was_written_of_a_summary(rt: HostRuntime) {
    let ran = run_unread(&rt, rt.alloc(), &["gen", "4294967295", "32"], (8, 3));
    check(
        &rt,
        &ran,
        Status::WriteFault,
        b"gen 4294967295 3".as_slice(),
    );
}
