//! A live run: a script's lanes, which are its clients, and workers, which build tiles, in threads over one book under a turn lock.
//!
//! `live` (`run`) gives a text that `specs/LiveRecord.antt` allows: one history of all requests, each once and those of a lane in the
//! lane's order; for each lane, line by line, what it was answered, every question from a published version of that history that goes on
//! from all that the lane had seen; and at last the counts of the mesh under the whole history.
//!
//! `book`: `LiveBook` is the lock's value. Each act on it is one step of the book's definition, with that step's answer; requests alone add
//! entries to the history, each under the lane that makes it. `lane`, `lane_lines`: a `Lane` makes its requests in order, answers its
//! questions and moves its walker in published versions, without the lock, and writes what each line was answered when it is answered;
//! `specs/LaneRecords.antt` says what that may be, and `specs/LaneTexts.antt` how it is written. `builds`: a `Worker` builds what is
//! awaited. `event_count` wakes who waits for another; `start` and `actors` make the threads and end them.
#![tactic(auto)]

mod actors;
mod acts;
mod book;
mod builds;
mod event_count;
mod lane;
mod lane_lines;
mod run;
mod start;

pub use book::{LiveAct, LiveBook, LiveDone, LiveRoot};
pub use builds::{RunContext, Worker};
pub use event_count::EventCount;
pub use lane::{Lane, LaneEnd, LineAnswer};
pub use run::{LiveText, live};
