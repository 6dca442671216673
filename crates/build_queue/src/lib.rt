//! The queue of a book: the history of requests to a ground, which tiles await a build, and who claimed them.
//!
//! A queue is seen as a `BookState`, the whole of a book but for its meshes, and each call is one step of its definition. Requests append to
//! the history; an aim makes its length the target; a claim hands out the least tile whose stored list differs from the shapes that touch it
//! at the target; a submitted list is taken only while it is still that of its tile; and a publish is possible once no tile is awaited. The
//! queue looks again only at the rectangle of tiles that the bounds of a changed obstacle reach, with as many more columns on each side as
//! agents keep from obstacles. All room is taken at the opening, so that only a claim takes memory.
#![tactic(auto)]

mod live;
mod queue;
mod reach;
mod renewal;
mod waiting;

pub use live::{HistoryFull, Job, Published, Submitted};
pub use queue::BuildQueue;
