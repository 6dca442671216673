//! Live runs in which lanes wait for what workers build. The gates hold actors and count who passes.

use crate::test_runs::{FOUR_TILES, SquareField, check, lived};
use nav_io::{Actor, Gate, Stage};
use std::alloc::Global;
use std::process::Abort;
use std::sync::Wait;
use std::sync::atomic::{AtomicU64, Ordering};
use std::thread;
use std::thread::Threads;
use top_call::Status;

/// For so many turns an actor is held at most.
const TURNS: u32 = 100000000;

/// For so many turns an actor is let wait for what others do by themselves. In that time a worker makes many more claims than those
/// after which one ends, and a lane that did not sleep would try to publish often.
const LONG: u32 = 30000;

/// How often each stage was passed.
#[derive(Drop)]
struct Passed {
    before_request: AtomicU64,
    after_request: AtomicU64,
    before_ask: AtomicU64,
    after_ask: AtomicU64,
    before_claim: AtomicU64,
    before_build: AtomicU64,
    before_submit: AtomicU64,
    before_publish: AtomicU64,
}

impl Passed {
    fn new() -> Self {
        Passed {
            before_request: AtomicU64::new(0),
            after_request: AtomicU64::new(0),
            before_ask: AtomicU64::new(0),
            after_ask: AtomicU64::new(0),
            before_claim: AtomicU64::new(0),
            before_build: AtomicU64::new(0),
            before_submit: AtomicU64::new(0),
            before_publish: AtomicU64::new(0),
        }
    }

    fn counter(&self, stage: Stage) -> &AtomicU64 {
        match stage {
            Stage::BeforeRequest => &self.before_request,
            Stage::AfterRequest => &self.after_request,
            Stage::BeforeAsk => &self.before_ask,
            Stage::AfterAsk => &self.after_ask,
            Stage::BeforeClaim => &self.before_claim,
            Stage::BeforeBuild => &self.before_build,
            Stage::BeforeSubmit => &self.before_submit,
            Stage::BeforePublish => &self.before_publish,
        }
    }

    fn count(&self, stage: Stage) -> u64 {
        self.counter(stage).load(Ordering::SeqCst)
    }

    fn note(&self, stage: Stage) {
        self.counter(stage).fetch_add(1, Ordering::SeqCst);
    }
}

fn linger() {
    for _ in 0..LONG {
        thread::yield_now();
    }
}

/// What actors have passed: one lane, and two workers with the numbers 0 and 1; and whether one was held to the end of its turns.
#[derive(Drop)]
struct Watch {
    lane: Passed,
    first: Passed,
    second: Passed,
    /// 1 where an actor was held to the end of its turns, or was none of these.
    late: AtomicU64,
}

impl Watch {
    fn new() -> Self {
        Watch {
            lane: Passed::new(),
            first: Passed::new(),
            second: Passed::new(),
            late: AtomicU64::new(0),
        }
    }

    fn note(&self, actor: Actor, stage: Stage) {
        match actor {
            Actor::Lane(0) => self.lane.note(stage),
            Actor::Worker(0) => self.first.note(stage),
            Actor::Worker(1) => self.second.note(stage),
            _ => self.late.store(1, Ordering::SeqCst),
        }
    }

    /// Holds an actor until the stage was passed so often.
    fn hold(&self, passed: &Passed, stage: Stage, often: u64) {
        for _ in 0..TURNS {
            if passed.count(stage) >= often {
                return;
            }
            thread::yield_now();
        }
        self.late.store(1, Ordering::SeqCst);
    }
}

/// Lets the worker build: the lane claims only once the worker is about to submit. The lane has been idle for long before it asks for
/// anything; and the worker submits long after the lane has tried to publish.
#[derive(Drop)]
struct Served(Watch);

impl Gate for Served {
    fn pass(&self, actor: Actor, stage: Stage) {
        self.0.note(actor, stage);
        match (actor, stage) {
            (Actor::Lane(_), Stage::BeforeRequest) => linger(),
            (Actor::Lane(_), Stage::BeforeClaim) => self
                .0
                .hold(&self.0.first, Stage::BeforeSubmit, 1),
            (Actor::Worker(_), Stage::BeforeSubmit) => {
                self.0.hold(&self.0.lane, Stage::BeforePublish, 1);
                linger();
            }
            _ => (),
        }
    }
}

/// Lets all three build: each is held at its first build until the others have come to theirs.
#[derive(Drop)]
struct Shared(Watch);

impl Gate for Shared {
    fn pass(&self, actor: Actor, stage: Stage) {
        self.0.note(actor, stage);
        if let Stage::BeforeBuild = stage {
            self.0.hold(&self.0.lane, stage, 1);
            self.0.hold(&self.0.first, stage, 1);
            self.0.hold(&self.0.second, stage, 1);
        }
    }
}

fn count_is(rt: &impl Abort, passed: &Passed, stage: Stage, wanted: u64) {
    assert!(rt; passed.count(stage) == wanted);
}

/// A lane that waits for a worker's build sleeps, and the worker is still there when the lane asks for its first build. After the lane's end
/// the worker makes so many claims as end one.
fn serves<R: Abort + Threads + Wait + Sync>(rt: &R, alloc: Global) {
    let gate = Served(Watch::new());
    let ran = lived(
        rt,
        alloc,
        &FOUR_TILES,
        "add block 2 2 0 100 2 2\nsettle\nfloor 2 2\n",
        &gate,
    );
    check(
        rt,
        &ran,
        Status::Ok,
        b"history 1\nentry 1 0 add block 2 2 0 100 2 2 added\nlane 0\nentry 1 added\nsettled 1\nfloors 1 0\nfinal 1 13 36\n",
    );
    let Served(watch) = gate;
    assert!(rt; watch.late.load(Ordering::SeqCst) == 0);
    for stage in [
        Stage::BeforeRequest,
        Stage::AfterRequest,
        Stage::BeforeAsk,
        Stage::AfterAsk,
    ] {
        count_is(rt, &watch.lane, stage, 1);
        count_is(rt, &watch.first, stage, 0);
    }
    // The lane found the tile claimed, tried to publish, slept, and tried once more.
    assert!(rt; watch.lane.count(Stage::BeforePublish) <= 2);
    count_is(rt, &watch.lane, Stage::BeforeBuild, 0);
    count_is(rt, &watch.first, Stage::BeforeBuild, 1);
    count_is(rt, &watch.first, Stage::BeforeSubmit, 1);
    count_is(rt, &watch.first, Stage::BeforePublish, 0);
    assert!(rt; watch.first.count(Stage::BeforeClaim) > 4096);
}

#[test]
fn waits_for_a_worker(rt: HostRuntime) {
    serves(&rt, rt.alloc());
}

/// A level of four tiles, which one lane and two workers build.
const THREE_BUILD: SquareField = SquareField {
    workers: 2,
    ..FOUR_TILES
};

/// Four tiles that are built again are built by all three actors, each tile once.
fn shares<R: Abort + Threads + Wait + Sync>(rt: &R, alloc: Global) {
    let gate = Shared(Watch::new());
    let ran = lived(
        rt,
        alloc,
        &THREE_BUILD,
        "add area 20 block 0 7 0 100 0 7\nsettle\n",
        &gate,
    );
    assert!(rt; ran.status.number() == 0);
    let Shared(watch) = gate;
    assert!(rt; watch.late.load(Ordering::SeqCst) == 0);
    let built = watch
        .lane
        .count(Stage::BeforeBuild)
        .saturating_add(watch.first.count(Stage::BeforeBuild))
        .saturating_add(watch.second.count(Stage::BeforeBuild));
    assert!(rt; built == 4);
    assert!(rt; watch.lane.count(Stage::BeforeSubmit) == watch.lane.count(Stage::BeforeBuild));
}

#[test]
fn builds_by_all(rt: HostRuntime) {
    shares(&rt, rt.alloc());
}
