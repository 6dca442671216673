//! Several kinds of agents over one ground, with one history of requests: as several navigation meshes over one tile cache.
//!
//! `Kinds` is a list of one to sixteen levels of `nav_book`, one for each kind of agent, all made of one field. They may differ in the agent, the
//! tiles and what areas cost. Each request is one entry in the history of all of them, with one number and one answer; an aim is one for all; and
//! a publish shows the target in all kinds or in none, also where memory is refused, so that all show one length. The published mesh of each kind
//! is that of a level opened for it alone, with these requests. `level` gives the level of a kind, to ask of what it shows. Requests, aims and
//! builds that come in take no memory.
//!
//! `step` and `claim` build in the least kind in which a tile can be claimed; a build is handed in to the kind that was told. `settle` builds and
//! publishes all that is asked for; where memory is refused, each kind shows what it showed.
//!
//! `change_ground` puts other spans into a rectangle of columns, in all kinds or in none, once all that was aimed at is published. Each kind then
//! shows what a level opened over the new field shows with the published entries; tiles out of the rectangle's reach stay.
//!
//! `opening`: the levels of a field. `levels`: what is done in each level. `builds`: what is done in one. `publish`: what is shown. `settle`: all of it.
//! `ground`: the ground changed.
#![tactic(auto)]

mod builds;
mod ground;
mod kinds;
mod levels;
mod opening;
mod publish;
mod settle;

pub use kinds::Kinds;
pub use publish::KindsPublished;
