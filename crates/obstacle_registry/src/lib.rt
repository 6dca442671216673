//! The obstacles of a level by ids that stay, as Detour's tile cache keeps its obstacle references.
//!
//! `Registry` is a `Level` with a row for each obstacle: its id, its shape, a number of the host's, and whether it is on. An id is given once.
//! `add`, `remove`, `enable`, `move_to` and `mark` change the rows, and make the entries of the history that this takes: a switch makes one, a
//! move a remove and an add. What is refused says why, makes no entry and changes nothing. `update` is for a host's frame: it aims at all that
//! was asked for once what it aimed at before is shown, builds at most so many tiles, and publishes; a move is so never shown half. `version`
//! counts how often something new was shown.
//!
//! Where the history may not have two entries more, what would make one is refused (`HistoryFull`). `renew_if_due` begins it again before that,
//! once all of it is shown: the obstacles stay as they are, and so does what is shown.
//!
//! Tiles may be built by other threads beside the updates: they are claimed, and handed in or put back, as those of a `Level`.
//!
//! `save` gives the obstacles as bytes (`registry_format`), with their ids, which of them are on, the last id and the version; `restore` puts those
//! of such bytes in the place of all others, for a level with the same field, tiles and limit.
//!
//! `row`: an obstacle, and why a call is refused. `live`: a level with the numbers of its alive obstacles at hand. `renew`: numbers once a history
//! has begun again. `update`: the steps of an update. `registry`: the rows. `claims`: tiles that other threads build. `saving`: rows as they are
//! saved. `restoring`: a registry saved and restored.
#![tactic(auto)]

mod claims;
mod live;
mod registry;
mod renew;
mod restoring;
mod row;
mod saving;
mod update;

pub use registry::Registry;
pub use row::{Refused, Registered};
pub use update::Updated;
