//! How actors wait for each other, without the lock.

use std::sync::Wait;
use std::sync::atomic::{AtomicU64, Ordering};
use std::time::Duration;

/// For so many microseconds an actor pauses at most where no lane has begun that could wake it.
const PAUSE_MICROS: u64 = 250;

/// A number that is raised at each change of one kind. Who waits for a change takes the number, looks, and then sleeps until it is another one.
///
/// No change is missed: one that the look did not find was made after the number was taken, and it raises the number afterwards. Either the
/// sleeper sees that before it sleeps, or the one who raises it sees a sleeper and wakes it.
#[derive(Drop)]
struct ChangeCount {
    changes: AtomicU64,
    /// How many sleep, or are about to.
    sleepers: AtomicU64,
}

impl ChangeCount {
    fn new() -> Self {
        ChangeCount {
            changes: AtomicU64::new(0),
            sleepers: AtomicU64::new(0),
        }
    }

    /// How many changes there were.
    fn epoch(&self) -> u64 {
        self.changes.load(Ordering::SeqCst)
    }

    /// Counts a change, and wakes who sleeps.
    fn notify(&self) {
        self.changes.fetch_add(1, Ordering::SeqCst);
        if self.sleepers.load(Ordering::SeqCst) > 0 {
            self.changes.wake_all();
        }
    }

    /// Sleeps until the count is not the one that was taken.
    fn wait<R: Wait>(&self, rt: &R, epoch: u64) {
        self.sleepers.fetch_add(1, Ordering::SeqCst);
        for _ in rt.forever() {
            if self.epoch() != epoch {
                break;
            }
            self.changes.park(rt, (epoch % 4294967296) as u32);
        }
        self.sleepers.fetch_sub(1, Ordering::SeqCst);
    }

    /// Sleeps for a while, or until the count is not the one that was taken.
    fn pause<R: Wait>(&self, rt: &R, epoch: u64) {
        self.sleepers.fetch_add(1, Ordering::SeqCst);
        if self.epoch() == epoch {
            self.changes.park_timeout(
                rt,
                (epoch % 4294967296) as u32,
                Duration::from_micros(PAUSE_MICROS),
            );
        }
        self.sleepers.fetch_sub(1, Ordering::SeqCst);
    }
}

/// What wakes the actors of a run. No act on the book waits for it, and it tells nothing of the book.
#[derive(Drop)]
pub struct EventCount {
    /// Counts up where a tile may have come to be claimed: after an aim, a job that was given back and a build that came too late; and where a lane
    /// ends. Workers sleep on it.
    tiles: ChangeCount,
    /// Counts up after each build that was handed in, each job that was given back, and each end of a lane. Lanes sleep on it.
    builds: ChangeCount,
    /// How many lanes have not begun.
    ahead: AtomicU64,
    /// How many have begun and have not ended.
    running: AtomicU64,
}

impl EventCount {
    /// The event counts of a run with so many lanes, of which none has begun.
    pub fn new(lanes: u32) -> Self {
        EventCount {
            tiles: ChangeCount::new(),
            builds: ChangeCount::new(),
            ahead: AtomicU64::new(lanes as u64),
            running: AtomicU64::new(0),
        }
    }

    /// A lane begins. A worker that looks at both numbers finds it in one of them at least.
    pub(crate) fn begin_lane(&self) {
        self.running.fetch_add(1, Ordering::SeqCst);
        self.ahead.fetch_sub(1, Ordering::SeqCst);
    }

    /// A lane ends, with all its lines or before. Where it had aimed and ends before it could claim, a lane that waits for builds claims in its
    /// place.
    pub(crate) fn end_lane(&self) {
        self.running.fetch_sub(1, Ordering::SeqCst);
        self.tiles.notify();
        self.builds.notify();
    }

    /// A tile may have come to be claimed.
    pub(crate) fn tiles_changed(&self) {
        self.tiles.notify();
    }

    /// A build was handed in, or a job given back.
    pub(crate) fn builds_changed(&self) {
        self.builds.notify();
    }

    /// What a lane notes before it claims, and what a worker does.
    pub(crate) fn builds_epoch(&self) -> u64 {
        self.builds.epoch()
    }

    pub(crate) fn tiles_epoch(&self) -> u64 {
        self.tiles.epoch()
    }

    /// A lane sleeps until a build was handed in, a job given back, or a lane ended since it noted this. Who has claimed the tile that is awaited
    /// notifies it when it hands it in or gives it back; who has aimed at it and not claimed it yet goes on to claim it, or ends.
    pub(crate) fn wait_for_builds<R: Wait>(&self, rt: &R, epoch: u64) {
        self.builds.wait(rt, epoch);
    }

    /// A worker that found no tile sleeps until one may have come since it noted this; says whether a lane was running. Where none has begun it
    /// pauses, since the lanes may run after it on the same thread; where all have ended it goes on at once.
    pub(crate) fn wait_for_tiles<R: Wait>(&self, rt: &R, epoch: u64) -> bool {
        // In this order, as `begin_lane` goes the other way.
        let ahead = self.ahead.load(Ordering::SeqCst) > 0;
        if self.running.load(Ordering::SeqCst) > 0 {
            self.tiles.wait(rt, epoch);
            return true;
        }
        if ahead {
            self.tiles.pause(rt, epoch);
        }
        false
    }
}
