//! Each line form once good and once with each fault that it can have, and the faults of whole texts.

use crate::texts::{append, check};
use mesh_types::Jump;
use nav_base::{Point, Question};
use nav_ground::Shape;
use nav_script::{Line, ScriptRefusal, Way, read_script};
use std::alloc::Global;
use std::process::Abort;

/// What is read of a text whose first line has the number 45: the number of its lines and the last of them, or the fault.
#[derive(Clone, Copy, PartialEq)]
enum Told {
    Script { lanes: u32, workers: u32 },
    Last(usize, Line),
    Fault(u32, u32),
}

/// What is told of a text that runs one way.
fn told_of(rt: &impl Abort, alloc: Global, text: &[u8], way: Way) -> Told {
    match read_script(alloc, text, 45, way) {
        Ok(script) => match script.lines.as_slice().last() {
            Some(line) => Told::Last(script.lines.len(), *line),
            None => Told::Script {
                lanes: script.lanes,
                workers: script.workers,
            },
        },
        Err(ScriptRefusal::Fault(fault)) => Told::Fault(fault.line, fault.kind),
        Err(ScriptRefusal::OutOfMemory) => panic!(rt; "memory"),
    }
}

const FROM: Point = Point { x: 16384, z: 0 };

const TO: Point = Point { x: 7, z: 16384 };

/// The third line of a script of two lanes and three workers, and the way that it runs.
type Third = (&'static str, Way);

/// A line of each form.
static RIGHT_LINES: [Third; 22] = [
    ("floor 1023 0", Way::Play),
    ("path 16384 0 8191 7 16384 0", Way::Play),
    ("ray 16384 0 8191 7 16384", Way::Play),
    ("add block 0 1023 7 8191 5 6", Way::Play),
    ("add cylinder 2048 1 1023 8190 8191", Way::Play),
    ("add area 63 block 0 1023 7 8191 5 6", Way::Play),
    ("add area 1 cylinder 2048 1 1023 8190 8191", Way::Live),
    ("remove 4294967295", Way::Play),
    ("drop 1", Way::Play),
    ("settle", Way::Play),
    ("lane 1", Way::Play),
    ("aim", Way::Play),
    ("claim 2", Way::Play),
    ("back 0", Way::Play),
    ("submit 1", Way::Play),
    ("publish", Way::Play),
    ("jump 16384 0 8191 7 16384 0 1000000", Way::Play),
    ("jump 7 16384 0 7 16384 8191 1", Way::Play),
    ("hop 16384 0 8191 7 16384 0", Way::Play),
    ("send 16384 0 8191 7 16384 0", Way::Live),
    ("march 1", Way::Live),
    ("march 65535", Way::Live),
];

/// What each of these lines is read as.
static RIGHT_TOLD: [Told; 22] = [
    Told::Last(2, Line::Ask(Question::Floor { x: 1023, z: 0 })),
    Told::Last(
        2,
        Line::Ask(Question::Path {
            from: FROM,
            from_y: 8191,
            to: TO,
            to_y: 0,
        }),
    ),
    Told::Last(
        2,
        Line::Ask(Question::Ray {
            from: FROM,
            from_y: 8191,
            to: TO,
        }),
    ),
    Told::Last(
        2,
        Line::Add(Shape::Block {
            x0: 0,
            x1: 1023,
            y0: 7,
            y1: 8191,
            z0: 5,
            z1: 6,
        }),
    ),
    Told::Last(
        2,
        Line::Add(Shape::Cylinder {
            cx: 2048,
            cz: 1,
            r: 1023,
            y0: 8190,
            y1: 8191,
        }),
    ),
    Told::Last(
        2,
        Line::Add(Shape::AreaBlock {
            area: 63,
            x0: 0,
            x1: 1023,
            y0: 7,
            y1: 8191,
            z0: 5,
            z1: 6,
        }),
    ),
    Told::Last(
        2,
        Line::Add(Shape::AreaCylinder {
            area: 1,
            cx: 2048,
            cz: 1,
            r: 1023,
            y0: 8190,
            y1: 8191,
        }),
    ),
    Told::Last(2, Line::Remove(4294967295)),
    Told::Last(2, Line::Undo(1)),
    Told::Last(2, Line::Settle),
    Told::Last(2, Line::Lane(1)),
    Told::Last(2, Line::Aim),
    Told::Last(2, Line::Claim(2)),
    Told::Last(2, Line::Back(0)),
    Told::Last(2, Line::Submit(1)),
    Told::Last(2, Line::Publish),
    Told::Last(
        2,
        Line::Jump(Jump {
            from: FROM,
            from_y: 8191,
            to: TO,
            to_y: 0,
            cost: 1000000,
        }),
    ),
    Told::Last(
        2,
        Line::Jump(Jump {
            from: TO,
            from_y: 0,
            to: TO,
            to_y: 8191,
            cost: 1,
        }),
    ),
    Told::Last(
        2,
        Line::Hop {
            from: FROM,
            from_y: 8191,
            to: TO,
            to_y: 0,
        },
    ),
    Told::Last(
        2,
        Line::Send {
            from: FROM,
            from_y: 8191,
            to: TO,
            to_y: 0,
        },
    ),
    Told::Last(2, Line::March(1)),
    Told::Last(2, Line::March(65535)),
];

/// Reads scripts with these third lines, and a text behind each.
/// Whether this is what is wanted at a place of a list.
fn is_at(wanted: &[Told], at: usize, told: Told) -> bool {
    match wanted.get(at) {
        Some(wanted) => told == *wanted,
        None => false,
    }
}

fn check_thirds(rt: &impl Abort, alloc: Global, behind: &str, rows: &[Third], wanted: &[Told]) {
    for (at, (line, way)) in rows.iter().enumerate() {
        let mut text = Vec::new(alloc);
        append(rt, &mut text, "script 2 3\nadd block 0 0 0 0 0 0\n", 1);
        append(rt, &mut text, line, 1);
        append(rt, &mut text, "\n", 1);
        append(rt, &mut text, behind, 1);
        let told = told_of(rt, alloc, text.as_slice(), *way);
        check(rt, is_at(wanted, at, told), line);
    }
}

#[test]
fn reads_right_lines(rt: HostRuntime) {
    let wanted = RIGHT_TOLD;
    check_thirds(&rt, rt.alloc(), "", &RIGHT_LINES, &wanted);
}

/// Lines with each fault that they can have.
static WRONG_LINES: [Third; 101] = [
    ("floor 0 1024", Way::Play),
    ("floor 1024 0", Way::Live),
    ("floor 0", Way::Play),
    ("floor 0 0 0", Way::Play),
    ("floor 0 0 ", Way::Play),
    ("floor  0 0", Way::Play),
    (" floor 0 0", Way::Play),
    ("floor 00 0", Way::Play),
    ("floor 0 4294967296", Way::Play),
    ("floor 0 4294967295", Way::Play),
    ("Floor 0 0", Way::Play),
    ("floor 0 0\r", Way::Play),
    ("path 16385 0 0 0 0 0", Way::Play),
    ("path 0 16385 0 0 0 0", Way::Play),
    ("path 0 0 8192 0 0 0", Way::Play),
    ("path 0 0 0 16385 0 0", Way::Play),
    ("path 0 0 0 0 16385 0", Way::Play),
    ("path 0 0 0 0 0 8192", Way::Play),
    ("path 0 0 0 0 0", Way::Play),
    ("ray 16385 0 0 0 0", Way::Play),
    ("ray 0 16385 0 0 0", Way::Play),
    ("ray 0 0 8192 0 0", Way::Play),
    ("ray 0 0 0 16385 0", Way::Play),
    ("ray 0 0 0 0 16385", Way::Play),
    ("ray 0 0 0 0 0 0", Way::Play),
    ("add block 1 0 0 0 0 0", Way::Play),
    ("add block 0 1024 0 0 0 0", Way::Play),
    ("add block 0 0 1 0 0 0", Way::Play),
    ("add block 0 0 0 8192 0 0", Way::Play),
    ("add block 0 0 0 0 1 0", Way::Play),
    ("add block 0 0 0 0 0 1024", Way::Play),
    ("add block 0 0 0 0 0", Way::Play),
    ("add area 0 block 0 0 0 0 0 0", Way::Play),
    ("add area 64 block 0 0 0 0 0 0", Way::Live),
    ("add area 4294967295 cylinder 0 0 0 0 0", Way::Play),
    ("add area 1 block 0 0 0 0 1 0", Way::Play),
    ("add area 1 block 0 0 0 8192 0 0", Way::Play),
    ("add area 1 cylinder 0 0 1024 0 0", Way::Play),
    ("add area", Way::Play),
    ("add area block 0 0 0 0 0 0", Way::Play),
    ("add area 1 block 0 0 0 0 0", Way::Play),
    ("add area 64 block 0 0 0 0 0", Way::Play),
    ("add area 20 blocks 0 0 0 0 0 0", Way::Play),
    ("add area 20  block 0 0 0 0 0 0", Way::Play),
    ("add area 020 block 0 0 0 0 0 0", Way::Play),
    ("add area 4294967296 cylinder 0 0 0 0 0", Way::Play),
    ("add area 1 cylinder 0 0 0 0 0 0", Way::Live),
    ("add area 1block 0 0 0 0 0 0", Way::Play),
    ("add cylinder 2049 0 0 0 0", Way::Play),
    ("add cylinder 0 2049 0 0 0", Way::Play),
    ("add cylinder 0 0 1024 0 0", Way::Play),
    ("add cylinder 0 0 0 1 0", Way::Play),
    ("add cylinder 0 0 0 0 8192", Way::Play),
    ("add", Way::Play),
    ("remove", Way::Play),
    ("remove -1", Way::Play),
    ("drop 0", Way::Play),
    ("drop 2", Way::Play),
    ("drop 2", Way::Live),
    ("drop", Way::Play),
    ("settle 1", Way::Play),
    ("lane 2", Way::Play),
    ("lane 2", Way::Live),
    ("lane", Way::Play),
    ("claim 3", Way::Play),
    ("back 3", Way::Play),
    ("submit 3", Way::Play),
    ("claim", Way::Play),
    ("claim 0", Way::Live),
    ("back 0", Way::Live),
    ("submit 0", Way::Live),
    ("aim", Way::Live),
    ("publish", Way::Live),
    ("aims", Way::Play),
    ("jump", Way::Play),
    ("jump 0 0 0 0 0 0", Way::Play),
    ("jump 0 0 0 0 0 0 1", Way::Live),
    ("jump 16385 0 0 0 0 0 1", Way::Play),
    ("jump 0 0 8192 0 0 0 1", Way::Play),
    ("jump 0 0 0 0 16385 0 1", Way::Play),
    ("jump 0 0 0 0 0 8192 1", Way::Play),
    ("jump 0 0 0 0 0 0 0", Way::Play),
    ("jump 0 0 0 0 0 0 1000001", Way::Play),
    ("hop 0 0 0 0 0", Way::Play),
    ("hop 0 0 0 0 0 0", Way::Live),
    ("hop 0 16385 0 0 0 0", Way::Play),
    ("hop 0 0 8192 0 0 0", Way::Play),
    ("hop 0 0 0 16385 0 0", Way::Play),
    ("hop 0 0 0 0 0 8192", Way::Play),
    ("send 0 0 0 0 0", Way::Live),
    ("send 0 0 0 0 0 0", Way::Play),
    ("send 0 16385 0 0 0 0", Way::Live),
    ("send 0 0 8192 0 0 0", Way::Live),
    ("send 0 0 0 16385 0 0", Way::Live),
    ("send 0 0 0 0 0 8192", Way::Live),
    ("march", Way::Live),
    ("march 1", Way::Play),
    ("march 0", Way::Live),
    ("march 65536", Way::Live),
    ("march 1 1", Way::Live),
    ("", Way::Play),
];

/// The fault of each.
static WRONG_TOLD: [Told; 101] = [
    Told::Fault(47, 2),
    Told::Fault(47, 2),
    Told::Fault(47, 8),
    Told::Fault(47, 8),
    Told::Fault(47, 8),
    Told::Fault(47, 8),
    Told::Fault(47, 8),
    Told::Fault(47, 8),
    Told::Fault(47, 8),
    Told::Fault(47, 2),
    Told::Fault(47, 8),
    Told::Fault(47, 8),
    Told::Fault(47, 2),
    Told::Fault(47, 2),
    Told::Fault(47, 2),
    Told::Fault(47, 2),
    Told::Fault(47, 2),
    Told::Fault(47, 2),
    Told::Fault(47, 8),
    Told::Fault(47, 2),
    Told::Fault(47, 2),
    Told::Fault(47, 2),
    Told::Fault(47, 2),
    Told::Fault(47, 2),
    Told::Fault(47, 8),
    Told::Fault(47, 2),
    Told::Fault(47, 2),
    Told::Fault(47, 2),
    Told::Fault(47, 2),
    Told::Fault(47, 2),
    Told::Fault(47, 2),
    Told::Fault(47, 8),
    Told::Fault(47, 2),
    Told::Fault(47, 2),
    Told::Fault(47, 2),
    Told::Fault(47, 2),
    Told::Fault(47, 2),
    Told::Fault(47, 2),
    Told::Fault(47, 8),
    Told::Fault(47, 8),
    Told::Fault(47, 8),
    Told::Fault(47, 8),
    Told::Fault(47, 8),
    Told::Fault(47, 8),
    Told::Fault(47, 8),
    Told::Fault(47, 8),
    Told::Fault(47, 8),
    Told::Fault(47, 8),
    Told::Fault(47, 2),
    Told::Fault(47, 2),
    Told::Fault(47, 2),
    Told::Fault(47, 2),
    Told::Fault(47, 2),
    Told::Fault(47, 8),
    Told::Fault(47, 8),
    Told::Fault(47, 8),
    Told::Fault(47, 2),
    Told::Fault(47, 10),
    Told::Fault(47, 10),
    Told::Fault(47, 8),
    Told::Fault(47, 8),
    Told::Fault(47, 9),
    Told::Fault(47, 9),
    Told::Fault(47, 8),
    Told::Fault(47, 9),
    Told::Fault(47, 9),
    Told::Fault(47, 9),
    Told::Fault(47, 8),
    Told::Fault(47, 8),
    Told::Fault(47, 8),
    Told::Fault(47, 8),
    Told::Fault(47, 8),
    Told::Fault(47, 8),
    Told::Fault(47, 8),
    Told::Fault(47, 8),
    Told::Fault(47, 8),
    Told::Fault(47, 8),
    Told::Fault(47, 2),
    Told::Fault(47, 2),
    Told::Fault(47, 2),
    Told::Fault(47, 2),
    Told::Fault(47, 2),
    Told::Fault(47, 2),
    Told::Fault(47, 8),
    Told::Fault(47, 8),
    Told::Fault(47, 2),
    Told::Fault(47, 2),
    Told::Fault(47, 2),
    Told::Fault(47, 2),
    Told::Fault(47, 8),
    Told::Fault(47, 8),
    Told::Fault(47, 2),
    Told::Fault(47, 2),
    Told::Fault(47, 2),
    Told::Fault(47, 2),
    Told::Fault(47, 8),
    Told::Fault(47, 8),
    Told::Fault(47, 2),
    Told::Fault(47, 2),
    Told::Fault(47, 8),
    Told::Fault(47, 8),
];

#[test]
fn refuses_wrong_lines(rt: HostRuntime) {
    let wanted = WRONG_TOLD;
    check_thirds(&rt, rt.alloc(), "settle\n", &WRONG_LINES, &wanted);
}

/// Whole texts.
static TEXTS: [&str; 19] = [
    "",
    "script 1 1",
    "script 16 8\n",
    "script 1 1\n",
    "script 0 1\n",
    "script 17 1\n",
    "script 1 0\n",
    "script 1 9\n",
    "script 1\n",
    "scripts 1 1\n",
    "\n",
    "jump\nscript 1 1",
    "script 1 1\npublish",
    "script 1 1\njump",
    "script 1 1\njump\n",
    "script 1 1\nlane 1\n",
    "script 1 1\ndrop 1\n",
    "script 2 1\nadd block 0 0 0 0 0 0\nlane 1\ndrop 1\n",
    "script 2 1\nlane 1\nadd block 0 0 0 0 0 0\nlane 0\nlane 1\ndrop 1\n",
];

/// What is read of each.
static TEXTS_TOLD: [Told; 19] = [
    Told::Fault(45, 7),
    Told::Fault(45, 7),
    Told::Script {
        lanes: 16,
        workers: 8,
    },
    Told::Script {
        lanes: 1,
        workers: 1,
    },
    Told::Fault(45, 2),
    Told::Fault(45, 2),
    Told::Fault(45, 2),
    Told::Fault(45, 2),
    Told::Fault(45, 1),
    Told::Fault(45, 1),
    Told::Fault(45, 1),
    Told::Fault(45, 1),
    Told::Fault(46, 7),
    Told::Fault(46, 7),
    Told::Fault(46, 8),
    Told::Fault(46, 9),
    Told::Fault(46, 10),
    Told::Fault(48, 10),
    Told::Last(5, Line::Undo(1)),
];

fn check_texts(rt: &impl Abort, alloc: Global, texts: &[&str], wanted: &[Told]) {
    for (at, text) in texts.iter().enumerate() {
        let told = told_of(rt, alloc, text.as_bytes(), Way::Play);
        check(rt, is_at(wanted, at, told), text);
    }
}

#[test]
fn reads_texts(rt: HostRuntime) {
    let wanted = TEXTS_TOLD;
    check_texts(&rt, rt.alloc(), &TEXTS, &wanted);
}

/// A line, how often it stands, the way it runs, and the line behind it.
static LONG_TEXTS: [(&str, u32, Way, &str); 15] = [
    ("settle\n", 299999, Way::Play, "settle\n"),
    ("settle\n", 300000, Way::Play, "jump\n"),
    ("settle\n", 300000, Way::Play, "jump"),
    ("remove 0\n", 262143, Way::Live, "remove 1\n"),
    ("remove 0\n", 262144, Way::Live, "settle\n"),
    ("remove 0\n", 262144, Way::Live, "drop"),
    ("remove 0\n", 262144, Way::Live, "drop\n"),
    ("remove 0\n", 262144, Way::Live, "add area\n"),
    ("remove 0\n", 262144, Way::Live, "removes 0\n"),
    ("remove 0\n", 262144, Way::Play, "remove 1\n"),
    ("jump 0 0 0 0 0 0 1\n", 255, Way::Play, "jump\n"),
    ("jump 0 0 0 0 0 0 1\n", 256, Way::Play, "settle\n"),
    ("jump 0 0 0 0 0 0 1\n", 257, Way::Play, "settle\n"),
    ("jump 0 0 0 0 0 0 1\n", 256, Way::Play, "jump\n"),
    ("jump 0 0 0 0 0 0 1\n", 256, Way::Play, "jumps\n"),
];

/// What is read of each.
static LONG_TOLD: [Told; 15] = [
    Told::Last(300000, Line::Settle),
    Told::Fault(300046, 11),
    Told::Fault(300046, 7),
    Told::Last(262144, Line::Remove(1)),
    Told::Last(262145, Line::Settle),
    Told::Fault(262190, 7),
    Told::Fault(262190, 11),
    Told::Fault(262190, 11),
    Told::Fault(262190, 8),
    Told::Last(262145, Line::Remove(1)),
    Told::Fault(301, 8),
    Told::Last(257, Line::Settle),
    Told::Fault(302, 12),
    Told::Fault(302, 12),
    Told::Fault(302, 8),
];

fn check_long_texts(
    rt: &impl Abort,
    alloc: Global,
    rows: &[(&str, u32, Way, &str)],
    wanted: &[Told],
) {
    for (at, (line, count, way, last)) in rows.iter().enumerate() {
        let mut text = Vec::new(alloc);
        append(rt, &mut text, "script 1 1\n", 1);
        append(rt, &mut text, line, *count);
        append(rt, &mut text, last, 1);
        let told = told_of(rt, alloc, text.as_slice(), *way);
        check(rt, is_at(wanted, at, told), last);
    }
}

#[test]
fn counts_lines(rt: HostRuntime) {
    let wanted = LONG_TOLD;
    check_long_texts(&rt, rt.alloc(), &LONG_TEXTS, &wanted);
}
