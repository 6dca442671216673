//! Kinds of agents behind a handle, over the border to C: levels of several kinds of agents over one ground, with one history.
//!
//! Contracts see what the handle holds as the states of the levels (`agent_kinds/specs/Kinds`), one a kind, or nothing. `open_kinds` opens them over
//! spans, once all numbers are in their limits and the spans in their order (`specs/KindSettings`, `specs/KindSpans`, `specs/KindsOpened`). A request
//! is one entry of all kinds, and ends as in each of them (`specs/KindRequests`); a step, a publish and a settle are those of `agent_kinds`, told by
//! status and numbers (`specs/KindsSteps`), as is a renewal (`specs/KindRenewals`). A job is claimed with its kind, and handed in or put back to that
//! (`specs/KindJobs`). The ground changes by other spans in a rectangle of columns (`specs/KindGroundChanges`). `kind_level` gives the level of a kind, of which views are made.
#![tactic(auto)]

mod ground;
mod handle;
mod jobs;
mod levels;
mod opening;
mod renewal;
mod requests;
mod settings;
mod spans;
mod steps;
mod wire;

pub use ground::change_ground_of_kinds;
pub use handle::NavdKinds;
pub use jobs::{claim_of_kinds, put_back_to_kind, submit_to_kind};
pub use levels::kind_level;
pub use opening::{close_kinds, open_kinds};
pub use renewal::renew_kinds;
pub use requests::{add_to_kinds, remove_from_kinds, reply_status};
pub use steps::{aim_kinds, free_kinds, publish_kinds, settle_kinds, step_kinds};
pub use wire::{NavdColumns, NavdGround, NavdKind, NavdSpan};
