//! Every form of line once, beside its text written by hand.

use crate::texts::check;
use mesh_types::{
    Answer, Corner, HopAnswer, HopFound, HopStep, Link, PathFound, PolyRef, Portal, Side,
    WalkAnswer,
};
use nav_base::{FloorAt, Point};
use nav_ground::{Entry, Reply, Request, Shape};
use nav_lists::Items;
use nav_record::{
    StepAnswer, write_answer, write_done, write_entry, write_fault, write_final, write_history,
    write_hop, write_lane, write_no_walker, write_reply, write_step, write_walk,
};
use nav_text::{FaultKind, TextFault};
use std::alloc::Global;
use std::process::Abort;

/// What a step answers, and its line.
static STEPS: [(StepAnswer, &str); 13] = [
    (StepAnswer::Aim { k: 0 }, "aim 0\n"),
    (
        StepAnswer::Claimed {
            worker: 15,
            tile: 4294967295,
        },
        "claim 15 tile 4294967295\n",
    ),
    (StepAnswer::NoTile { worker: 3 }, "claim 3 none\n"),
    (StepAnswer::Busy { worker: 4294967295 }, "busy 4294967295\n"),
    (StepAnswer::Idle { worker: 0 }, "idle 0\n"),
    (
        StepAnswer::Back {
            worker: 1,
            tile: 20,
        },
        "back 1 tile 20\n",
    ),
    (
        StepAnswer::Taken { worker: 2, tile: 0 },
        "submit 2 taken 0\n",
    ),
    (
        StepAnswer::Stale {
            worker: 10,
            tile: 7,
        },
        "submit 10 stale 7\n",
    ),
    (StepAnswer::Published { k: 262144 }, "published 262144\n"),
    (StepAnswer::Same { k: 9 }, "same 9\n"),
    (StepAnswer::NotYet { tile: 63 }, "notyet 63\n"),
    (StepAnswer::Settled { k: 12 }, "settled 12\n"),
    (
        StepAnswer::HistoryFull { len: 262144 },
        "history full 262144\n",
    ),
];

/// What was written is this text.
fn check_text(rt: &impl Abort, out: &[u8], wanted: &str) {
    check(rt, out == wanted.as_bytes(), wanted);
}

fn check_steps(rt: &impl Abort, alloc: Global, steps: &[(StepAnswer, &str)]) {
    for (step, wanted) in steps {
        let mut out = Vec::new(alloc);
        write_step(&mut out, step).expect(rt, "memory");
        check_text(rt, out.as_slice(), wanted);
    }
}

#[test]
fn writes_steps(rt: HostRuntime) {
    check_steps(&rt, rt.alloc(), &STEPS);
}

/// Replies and the numbers of their entries.
static REPLIES: [(u32, Reply); 4] = [
    (1, Reply::Added { number: 1 }),
    (2, Reply::Full { live: 1024 }),
    (262144, Reply::Removed),
    (4, Reply::Dead { number: 4294967295 }),
];

fn write_replies(rt: &impl Abort, out: &mut Vec<u8>, replies: &[(u32, Reply)]) {
    for (number, reply) in replies {
        write_reply(out, *number, reply).expect(rt, "memory");
    }
}

#[test]
fn writes_the_other_lines(rt: HostRuntime) {
    let mut out = Vec::new(rt.alloc());
    write_replies(&rt, &mut out, &REPLIES);
    write_done(&mut out, 0, 4294967295).expect(&rt, "memory");
    let many_lines = TextFault::new(4294967295, FaultKind::TooManyLines);
    write_fault(&mut out, &many_lines).expect(&rt, "memory");
    write_fault(&mut out, &TextFault { line: 0, kind: 0 }).expect(&rt, "memory");
    let wanted = "entry 1 added\nentry 2 full 1024\nentry 262144 removed\nentry 4 dead 4294967295\n\
        done 0 4294967295\nfault 4294967295 11\nfault 0 0\n";
    check_text(&rt, out.as_slice(), wanted);
}

/// Entries with the number 262144.
static ENTRIES: [Entry; 6] = [
    Entry {
        lane: 0,
        request: Request::Add(Shape::Block {
            x0: 40,
            x1: 55,
            y0: 0,
            y1: 100,
            z0: 41,
            z1: 56,
        }),
        reply: Reply::Added { number: 262144 },
    },
    Entry {
        lane: 15,
        request: Request::Add(Shape::Cylinder {
            cx: 2048,
            cz: 0,
            r: 1023,
            y0: 1,
            y1: 8191,
        }),
        reply: Reply::Full { live: 1024 },
    },
    Entry {
        lane: 4294967295,
        request: Request::Remove(7),
        reply: Reply::Removed,
    },
    Entry {
        lane: 2,
        request: Request::Remove(4294967295),
        reply: Reply::Dead { number: 4294967295 },
    },
    Entry {
        lane: 1,
        request: Request::Add(Shape::AreaBlock {
            area: 5,
            x0: 1,
            x1: 2,
            y0: 3,
            y1: 4,
            z0: 6,
            z1: 7,
        }),
        reply: Reply::Added { number: 8 },
    },
    Entry {
        lane: 1,
        request: Request::Add(Shape::AreaCylinder {
            area: 63,
            cx: 1,
            cz: 2,
            r: 3,
            y0: 4,
            y1: 5,
        }),
        reply: Reply::Added { number: 8 },
    },
];

/// The line of each.
static ENTRY_LINES: [&str; 6] = [
    "entry 262144 0 add block 40 55 0 100 41 56 added\n",
    "entry 262144 15 add cylinder 2048 0 1023 1 8191 full 1024\n",
    "entry 262144 4294967295 remove 7 removed\n",
    "entry 262144 2 remove 4294967295 dead 4294967295\n",
    "entry 262144 1 add area 5 block 1 2 3 4 6 7 added\n",
    "entry 262144 1 add area 63 cylinder 1 2 3 4 5 added\n",
];

fn check_entries(rt: &impl Abort, alloc: Global, entries: &[Entry], lines: &[&str]) {
    for (at, entry) in entries.iter().enumerate() {
        let mut out = Vec::new(alloc);
        write_entry(&mut out, 262144, entry).expect(rt, "memory");
        let wanted = lines.get(at).copied().unwrap_or("");
        check_text(rt, out.as_slice(), wanted);
    }
}

#[test]
fn writes_entries(rt: HostRuntime) {
    let entries = ENTRIES;
    check_entries(&rt, rt.alloc(), &entries, &ENTRY_LINES);
}

#[test]
fn writes_the_frame_of_a_live_text(rt: HostRuntime) {
    let mut out = Vec::new(rt.alloc());
    write_history(&mut out, 262144).expect(&rt, "memory");
    write_lane(&mut out, 15).expect(&rt, "memory");
    write_final(&mut out, 1, 13, 4294967295).expect(&rt, "memory");
    let wanted = "history 262144\nlane 15\nfinal 1 13 4294967295\n";
    check_text(&rt, out.as_slice(), wanted);
}

/// The answer to the question in a line is written as these lines.
fn check_answer(rt: &impl Abort, alloc: Global, line: u32, answer: Answer, wanted: &str) {
    let mut out = Vec::new(alloc);
    write_answer(&mut out, line, &answer).expect(rt, "memory");
    check_text(rt, out.as_slice(), wanted);
}

static FLOORS: [FloorAt; 2] = [FloorAt { y: 0, area: 63 }, FloorAt { y: 8191, area: 1 }];

#[test]
fn writes_floors(rt: HostRuntime) {
    let alloc = rt.alloc();
    let two = Vec::from_array(alloc, FLOORS).expect(&rt, "memory");
    let floors = Answer::Floors(Items::from_vec(two));
    check_answer(&rt, alloc, 3, floors, "floors 3 2 0 63 8191 1\n");
    let none = Answer::Floors(Items::new(alloc));
    check_answer(&rt, alloc, 3, none, "floors 3 0\n");
}

#[test]
fn writes_answers(rt: HostRuntime) {
    let alloc = rt.alloc();
    check_answer(&rt, alloc, 3, Answer::NoStart, "nostart 3\n");
    check_answer(&rt, alloc, 3, Answer::NoGoal, "nogoal 3\n");
    check_answer(&rt, alloc, 3, Answer::NoPath, "nopath 3\n");
    let reached = Answer::Reached(PolyRef {
        tile: 4294967295,
        index: 7,
    });
    check_answer(&rt, alloc, 3, reached, "reached 3 4294967295 7\n");
    let wall = Answer::Wall {
        a: Point { x: -1, z: 0 },
        b: Point { x: 16384, z: 32 },
        num: 9223372036854775807,
        den: -1,
    };
    let wanted = "wall 3 -1 0 16384 32 9223372036854775807 -1\n";
    check_answer(&rt, alloc, 3, wall, wanted);
}

const FIRST: PolyRef = PolyRef { tile: 0, index: 1 };

const LINK: Link = Link {
    from: FIRST,
    edge: 2,
    to: PolyRef { tile: 3, index: 4 },
    portal: Portal {
        left: Point { x: 16, z: 32 },
        right: Point { x: 48, z: 64 },
    },
};

static TURNS: [Corner; 2] = [
    Corner {
        at: Point { x: 16, z: 32 },
        side: Side::L,
        portal: 0,
    },
    Corner {
        at: Point { x: 48, z: 64 },
        side: Side::R,
        portal: 0,
    },
];

#[test]
fn writes_a_path(rt: HostRuntime) {
    let alloc = rt.alloc();
    let links = Vec::from_array(alloc, [LINK]).expect(&rt, "memory");
    let turns = Vec::from_array(alloc, TURNS).expect(&rt, "memory");
    let found = PathFound {
        first: FIRST,
        cost: 18446744073709551615,
        links: Items::from_vec(links),
        turns: Items::from_vec(turns),
    };
    let wanted =
        "path 12 18446744073709551615 0 1 1 2\nlink 3 4 16 32 48 64\nturn 16 32 L 0\nturn 48 64 R 0\n";
    check_answer(&rt, alloc, 12, Answer::Path(found), wanted);
}

/// The answer to the question for a hop walk in a line is written as these lines.
fn check_hop(rt: &impl Abort, alloc: Global, line: u32, answer: HopAnswer, wanted: &str) {
    let mut out = Vec::new(alloc);
    write_hop(&mut out, line, &answer).expect(rt, "memory");
    check_text(rt, out.as_slice(), wanted);
}

const STEPS_OF_A_HOP: [HopStep; 2] = [
    HopStep::Jump {
        number: 255,
        to: PolyRef { tile: 5, index: 6 },
    },
    HopStep::Link(LINK),
];

#[test]
fn writes_hops(rt: HostRuntime) {
    let alloc = rt.alloc();
    check_hop(&rt, alloc, 3, HopAnswer::NoStart, "nostart 3\n");
    check_hop(&rt, alloc, 3, HopAnswer::NoGoal, "nogoal 3\n");
    check_hop(&rt, alloc, 3, HopAnswer::NoPath, "nopath 3\n");
    let steps = Vec::from_array(alloc, STEPS_OF_A_HOP).expect(&rt, "memory");
    let turns = Vec::from_array(alloc, TURNS).expect(&rt, "memory");
    let found = HopFound {
        first: FIRST,
        cost: 18446744073709551615,
        steps: Items::from_vec(steps),
        turns: Items::from_vec(turns),
    };
    let wanted = "hop 12 18446744073709551615 0 1 2 2\njump 255 5 6\nlink 3 4 16 32 48 64\n\
        turn 16 32 L 0\nturn 48 64 R 0\n";
    check_hop(&rt, alloc, 12, HopAnswer::Found(found), wanted);
}

/// What a walker is answered is written as these lines.
fn check_walker(rt: &impl Abort, alloc: Global, answer: WalkAnswer, wanted: &str) {
    let mut out = Vec::new(alloc);
    write_walk(&mut out, 12, &answer).expect(rt, "memory");
    check_text(rt, out.as_slice(), wanted);
}

#[test]
fn writes_walkers(rt: HostRuntime) {
    let alloc = rt.alloc();
    check_walker(&rt, alloc, WalkAnswer::NoStart, "nostart 12\n");
    check_walker(&rt, alloc, WalkAnswer::NoGoal, "nogoal 12\n");
    check_walker(&rt, alloc, WalkAnswer::NoPath, "nopath 12\n");
    let links = Vec::from_array(alloc, [LINK]).expect(&rt, "memory");
    let walking = WalkAnswer::Walking {
        at: FIRST,
        point: Point { x: 16, z: 32 },
        y: 10,
        cost: 18446744073709551615,
        links: Items::from_vec(links),
    };
    let wanted = "walker 12 0 1 16 32 18446744073709551615 1\nlink 3 4 16 32 48 64\n";
    check_walker(&rt, alloc, walking, wanted);
}

#[test]
fn writes_that_there_is_no_walker(rt: HostRuntime) {
    let mut out = Vec::new(rt.alloc());
    write_no_walker(&mut out).expect(&rt, "memory");
    check_text(&rt, out.as_slice(), "nowalker\n");
}
