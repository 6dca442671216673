//! The server's state, as Detour's tile cache with its navigation mesh: the history of requests, the tiles that wait for a build, and the
//! mesh that is published; `Level` alone, `Book` with readers on threads of their own.
//!
//! Both are seen as a `BookState` of `build_queue`, a book with the pair of its press and its eyes beside it, and each call is one step of
//! the state's definition. A request appends one entry; an aim makes the length of the history the target; claims hand out the tiles that
//! are awaited, with the shapes to build them under; builds come in by `submit`; and `publish` puts those that came in since into the
//! published mesh, once no tile is awaited. `settle` does all that is left to do, so that the whole history is published. The published
//! mesh is always the build from scratch of the ground with the obstacles that are alive after the published entries. `ask` answers from
//! it, `ask_by` does so for questions of any kind, and `mesh_counts` counts it. Requests, aims and builds that come in take no memory,
//! since all their room was taken at the opening.
//!
//! `level`: nothing of a level waits. `prepare` makes landmarks of the published mesh, by which path questions are answered sooner, and
//! `ask_and_prepare` does so once there were many of them; a publish keeps them, and what is answered is right either way. A publishing
//! comes in two halves besides: `next_mesh` makes what is published next, and takes all the memory; `show` takes it over, and cannot be refused. Who shows the mesh to
//! others as well does so in between. `shown` keeps what is published; `settle` builds and publishes by single steps.
//!
//! `builds`: small builds that `step` and `settle` made last, and those that they replaced, are remembered, for an obstacle that comes and goes,
//! as a door does. That is promised by nothing, and seen in nothing but time and memory; such a build takes one step like any other.
//!
//! `book`: `begin` gives an `Eye` of `nav_version`, a reader, for each thread that is to ask. Eyes read what was published without the
//! book; `told` gives the published length for them to learn. A book is not `Drop`: `end` ends it.
#![tactic(auto)]

mod book;
mod builds;
mod level;
mod next_ground;
mod settle;
mod shown;

pub use book::{Book, TileResult};
pub use build_queue::{HistoryFull, Job, Published, Submitted};
pub use level::Level;
pub use next_ground::NextGround;
pub use settle::build_job;
