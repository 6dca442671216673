//! Live runs of the whole program: what lanes in threads are answered. What is wanted was worked out by hand.

use crate::test_runs::{FOUR_TILES, ROOM, SquareField, WIDE, check, check_ends, lived};
use nav_io::{Actor, FreeGate, Gate, Stage};
use nav_text::{first_line, numbers_of};
use std::alloc::Global;
use std::process::Abort;
use std::sync::Wait;
use std::sync::atomic::{AtomicU64, Ordering};
use std::thread;
use std::thread::Threads;
use top_call::Status;

/// The level, the script; the live text, of which one lane leaves no choice.
type Live = (SquareField, &'static str, &'static str);

static ALONE: [Live; 5] = [
    (ROOM, "", "history 0\nlane 0\nfinal 0 4 6\n"),
    // Four strips of four cells, of which the block cuts the second in two.
    (
        ROOM,
        "floor 2 2\nadd block 2 2 0 100 2 2\nsettle\nfloor 2 2\n",
        "history 1\nentry 1 0 add block 2 2 0 100 2 2 added\nlane 0\nfloors 0 1 10 63\nentry 1 added\nsettled 1\nfloors 1 0\nfinal 1 5 10\n",
    ),
    (
        ROOM,
        "add cylinder 6 5 2 0 100\ndrop 1\nsettle\nfloor 4 4\npath 24 24 10 0 0 10\n",
        "history 2\nentry 1 0 add cylinder 6 5 2 0 100 added\nentry 2 0 remove 1 removed\nlane 0\nentry 1 added\nentry 2 removed\nsettled 2\nfloors 2 1 10 63\nnogoal 2\nfinal 2 4 6\n",
    ),
    (
        ROOM,
        "add area 20 block 2 2 0 100 2 2\nsettle\nfloor 2 2\ndrop 1\nadd area 63 cylinder 5 5 0 0 10\n",
        "history 3\nentry 1 0 add area 20 block 2 2 0 100 2 2 added\nentry 2 0 remove 1 removed\nentry 3 0 add area 63 cylinder 5 5 0 0 10 added\nlane 0\nentry 1 added\nsettled 1\nfloors 1 1 10 20\nentry 2 removed\nentry 3 added\nfinal 3 4 6\n",
    ),
    // The add that was refused counts as the lane's second, and dropping it removes number 0.
    (
        SquareField { limit: 1, ..ROOM },
        "add block 2 2 0 100 2 2\nadd block 3 3 0 100 2 2\ndrop 2\ndrop 1\n",
        "history 4\nentry 1 0 add block 2 2 0 100 2 2 added\nentry 2 0 add block 3 3 0 100 2 2 full 1\nentry 3 0 remove 0 dead 0\nentry 4 0 remove 1 removed\nlane 0\nentry 1 added\nentry 2 full 1\nentry 3 dead 0\nentry 4 removed\nfinal 4 4 6\n",
    ),
];

/// A flat field of 8 by 8 columns in one tile. A block from its lower edge to its row 5 leaves a way round above it.
const COURT: SquareField = SquareField {
    side: 8,
    tile: 8,
    ..ROOM
};

/// What a walker is told, which goes up through strips, round a block and down again.
static WALKERS: [Live; 6] = [
    // Three strips up, of which 16 sixteenths are one; then on to the goal, and there it stays.
    (
        ROOM,
        "march 5\nsend 24 24 10 72 72 10\nmarch 16\nmarch 100\n",
        "history 0\nlane 0\nnowalker\nwalker 0 0 0 24 24 48 3\nlink 0 1 16 32 80 32\nlink 0 2 16 48 80 48\nlink 0 3 16 64 80 64\nwalker 0 0 1 40 40 32 2\nlink 0 2 16 48 80 48\nlink 0 3 16 64 80 64\nwalker 0 0 3 72 72 0 0\nfinal 0 4 6\n",
    ),
    // The way that it was given is gone after the change, and so is the walker.
    (
        ROOM,
        "send 24 24 10 72 72 10\nadd block 0 5 0 100 2 2\nsettle\nmarch 16\nmarch 16\n",
        "history 1\nentry 1 0 add block 0 5 0 100 2 2 added\nlane 0\nwalker 0 0 0 24 24 48 3\nlink 0 1 16 32 80 32\nlink 0 2 16 48 80 48\nlink 0 3 16 64 80 64\nentry 1 added\nsettled 1\nnopath 1\nnowalker\nfinal 1 3 2\n",
    ),
    // Over one corner and a part of the way to the next, a part beyond a corner, to the goal, and no further.
    (
        COURT,
        "add block 3 3 0 100 1 5\nsettle\nsend 40 24 10 72 24 10\nmarch 80\nmarch 20\nmarch 65535\nmarch 1\n",
        "history 1\nentry 1 0 add block 3 3 0 100 1 5 added\nlane 0\nentry 1 added\nsettled 1\nwalker 1 0 0 40 24 193 10\nlink 0 2 16 32 48 32\nlink 0 4 16 48 48 48\nlink 0 6 16 64 48 64\nlink 0 8 16 80 48 80\nlink 0 10 16 96 48 96\nlink 0 9 112 96 64 96\nlink 0 7 112 80 64 80\nlink 0 5 112 64 64 64\nlink 0 3 112 48 64 48\nlink 0 1 112 32 64 32\nwalker 1 0 10 56 96 93 5\nlink 0 9 112 96 64 96\nlink 0 7 112 80 64 80\nlink 0 5 112 64 64 64\nlink 0 3 112 48 64 48\nlink 0 1 112 32 64 32\nwalker 1 0 9 65 84 64 4\nlink 0 7 112 80 64 80\nlink 0 5 112 64 64 64\nlink 0 3 112 48 64 48\nlink 0 1 112 32 64 32\nwalker 1 0 1 72 24 0 0\nwalker 1 0 1 72 24 0 0\nfinal 1 11 20\n",
    ),
    (
        COURT,
        "add block 3 3 0 100 1 5\nsettle\nsend 0 0 10 72 24 10\nmarch 1\nsend 40 24 10 0 0 10\nmarch 1\n",
        "history 1\nentry 1 0 add block 3 3 0 100 1 5 added\nlane 0\nentry 1 added\nsettled 1\nnostart 1\nnowalker\nnogoal 1\nnowalker\nfinal 1 11 20\n",
    ),
    // A new walker takes the place of the old one, with its own goal; a send that fails takes it away.
    (
        ROOM,
        "send 24 24 10 72 72 10\nsend 72 72 10 24 72 10\nmarch 16\nsend 24 24 10 0 0 10\nmarch 16\n",
        "history 0\nlane 0\nwalker 0 0 0 24 24 48 3\nlink 0 1 16 32 80 32\nlink 0 2 16 48 80 48\nlink 0 3 16 64 80 64\nwalker 0 0 3 72 72 0 0\nwalker 0 0 3 56 72 0 0\nnogoal 0\nnowalker\nfinal 0 4 6\n",
    ),
    // A block that a walker stands in leaves it no start.
    (
        ROOM,
        "send 24 24 10 72 72 10\nadd block 1 1 0 100 1 1\nsettle\nmarch 16\nmarch 16\n",
        "history 1\nentry 1 0 add block 1 1 0 100 1 1 added\nlane 0\nwalker 0 0 0 24 24 48 3\nlink 0 1 16 32 80 32\nlink 0 2 16 48 80 48\nlink 0 3 16 64 80 64\nentry 1 added\nsettled 1\nnostart 1\nnowalker\nfinal 1 4 6\n",
    ),
];

fn check_lives<R: Abort + Threads + Wait + Sync>(rt: &R, alloc: Global, lives: &[Live]) {
    for (level, script, text) in lives {
        let ran = lived(rt, alloc, level, script, &FreeGate);
        check(rt, &ran, Status::Ok, text.as_bytes());
    }
}

#[test]
fn runs_one_lane(rt: HostRuntime) {
    check_lives(&rt, rt.alloc(), &ALONE);
}

#[test]
fn sends_walkers(rt: HostRuntime) {
    check_lives(&rt, rt.alloc(), &WALKERS);
}

/// Three lanes and two workers on a wide field.
const THREE_LANES: SquareField = SquareField {
    lanes: 3,
    workers: 2,
    ..WIDE
};

const ERRANDS: &str =
    "lane 0\nadd block 40 55 0 100 40 55\ndrop 1\nsettle\npath 160 160 10 1400 1400 10\nlane 1\nadd cylinder 96 96 4 0 100\nsettle\ndrop 1\nlane 2\npath 160 160 10 1400 1400 10\n";

/// The line with a number, counted from 1, or nothing.
fn line_at(number: u32, text: &[u8]) -> &[u8] {
    let mut line = text;
    let mut rest = text;
    for _ in 0..number {
        match first_line(rest) {
            Some((next, behind)) => {
                line = next;
                rest = behind;
            }
            None => return &[],
        }
    }
    line
}

/// Whether the lengths that lane 0 names cover its last entry and do not fall. Its lines stand behind a history of four entries: two
/// entries, the length behind `settled`, and the path.
fn covers_its_entries(text: &[u8]) -> bool {
    let entry = line_at(8, text).strip_suffix(b" removed").unwrap_or(&[]);
    match (
        numbers_of::<1>(b"entry", entry),
        numbers_of::<1>(b"settled", line_at(9, text)),
        numbers_of::<6>(b"path", line_at(10, text)),
    ) {
        (Some(entry), Some(settled), Some(path)) => entry[0] <= settled[0] && settled[0] <= path[0],
        _ => false,
    }
}

#[test]
fn shares_one_history(rt: HostRuntime) {
    let ran = lived(&rt, rt.alloc(), &THREE_LANES, ERRANDS, &FreeGate);
    check_ends(&rt, &ran, "history 4\n", "\nfinal 4 4 8\n");
    assert!(rt; covers_its_entries(ran.sink.bytes()));
}

/// How actors are held.
#[derive(Clone, Copy)]
enum Course {
    Free,
    /// Lane 0 before its request, until lane 1 comes to its question; and lane 1 there, until lane 0 has made its request.
    Meeting,
    /// Lane 1 before its request, until lane 0 has asked once; and lane 0 before its second question, until lane 1 has asked.
    Turns,
}

/// For so many turns an actor is held at most.
const TURNS: u32 = 100000000;

/// A gate that holds actors, and counts how often one is about to build a tile.
#[derive(Drop)]
struct Holding {
    course: Course,
    /// 1 once the first of the two actors may go on, and the second.
    first: AtomicU64,
    second: AtomicU64,
    /// 1 where an actor was held to the end of its turns.
    late: AtomicU64,
    builds: AtomicU64,
}

impl Holding {
    fn new(course: Course) -> Self {
        Holding {
            course,
            first: AtomicU64::new(0),
            second: AtomicU64::new(0),
            late: AtomicU64::new(0),
            builds: AtomicU64::new(0),
        }
    }

    /// Holds an actor until the sign is 1.
    fn hold(&self, sign: &AtomicU64) {
        for _ in 0..TURNS {
            if sign.load(Ordering::SeqCst) == 1 {
                return;
            }
            thread::yield_now();
        }
        self.late.store(1, Ordering::SeqCst);
    }

    fn meet(&self, lane: u32, stage: Stage) {
        match (lane, stage) {
            (0, Stage::BeforeRequest) => self.hold(&self.first),
            (0, Stage::AfterRequest) => self.second.store(1, Ordering::SeqCst),
            (1, Stage::BeforeAsk) => {
                self.first.store(1, Ordering::SeqCst);
                self.hold(&self.second);
            }
            _ => (),
        }
    }

    fn take_turns(&self, lane: u32, stage: Stage) {
        match (lane, stage) {
            (0, Stage::BeforeAsk) if self.first.load(Ordering::SeqCst) == 1 => self.hold(
                &self.second,
            ),
            (0, Stage::AfterAsk) => self.first.store(1, Ordering::SeqCst),
            (1, Stage::BeforeRequest) => self.hold(&self.first),
            (1, Stage::AfterAsk) => self.second.store(1, Ordering::SeqCst),
            _ => (),
        }
    }
}

impl Gate for Holding {
    fn pass(&self, actor: Actor, stage: Stage) {
        if let Stage::BeforeBuild = stage {
            self.builds.fetch_add(1, Ordering::SeqCst);
        }
        if let Actor::Lane(lane) = actor {
            match self.course {
                Course::Free => (),
                Course::Meeting => self.meet(lane, stage),
                Course::Turns => self.take_turns(lane, stage),
            }
        }
    }
}

/// How actors are held, the level, the script; how many tiles are built between the threads' begin and end, and the live text.
type Held = (Course, SquareField, &'static str, u64, &'static str);

const TWO_LANES: SquareField = SquareField { lanes: 2, ..WIDE };

static HELD: [Held; 3] = [
    // Lanes run beside each other.
    (
        Course::Meeting,
        TWO_LANES,
        "remove 1\nfloor 48 48\nlane 1\nadd block 40 55 0 100 40 55\nfloor 48 48\n",
        0,
        "history 2\nentry 1 1 add block 40 55 0 100 40 55 added\nentry 2 0 remove 1 removed\nlane 0\nentry 2 removed\nfloors 0 1 10 63\nlane 1\nentry 1 added\nfloors 0 1 10 63\nfinal 2 4 8\n",
    ),
    // A question is answered when it is asked, in what another lane had published by then.
    (
        Course::Turns,
        TWO_LANES,
        "lane 0\nfloor 48 48\nfloor 48 48\nlane 1\nadd block 40 55 0 100 40 55\nsettle\nfloor 48 48\n",
        4,
        "history 1\nentry 1 1 add block 40 55 0 100 40 55 added\nlane 0\nfloors 0 1 10 63\nfloors 1 0\nlane 1\nentry 1 added\nsettled 1\nfloors 1 0\nfinal 1 12 24\n",
    ),
    // Of four tiles the one that the block touches is built.
    (
        Course::Free,
        FOUR_TILES,
        "add block 2 2 0 100 2 2\nsettle\n",
        1,
        "history 1\nentry 1 0 add block 2 2 0 100 2 2 added\nlane 0\nentry 1 added\nsettled 1\nfinal 1 13 36\n",
    ),
];

fn check_held<R: Abort + Threads + Wait + Sync>(rt: &R, alloc: Global, rows: &[Held]) {
    for (course, level, script, builds, text) in rows {
        let gate = Holding::new(*course);
        let ran = lived(rt, alloc, level, script, &gate);
        assert!(rt; gate.late.load(Ordering::SeqCst) == 0);
        assert!(rt; gate.builds.load(Ordering::SeqCst) == *builds);
        check(rt, &ran, Status::Ok, text.as_bytes());
    }
}

#[test]
fn runs_lanes_beside_each_other(rt: HostRuntime) {
    check_held(&rt, rt.alloc(), &HELD);
}
