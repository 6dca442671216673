//! Requests to change the obstacles, and the history that they leave.

use crate::cell::Layer;
use crate::field::PastField;
use crate::setting::Setting;
use crate::shape::Shape;
use nav_lists::Items;

/// How many entries a history can have.
pub const HISTORY_LIMIT: u32 = 262144;

/// What can be asked of a ground: a new obstacle, or that the obstacle goes that the entry with a number added, from 1.
#[derive(Clone, Copy, PartialEq, Eq)]
pub enum Request {
    Add(Shape),
    Remove(u32),
}

/// What became of a request.
#[derive(Clone, Copy, PartialEq, Eq, Debug)]
pub enum Reply {
    /// The obstacle is alive from now on, under the number of this entry.
    Added { number: u32 },
    /// The obstacle is alive no more.
    Removed,
    /// As many obstacles are alive as may be, which is their number; nothing was added.
    Full { live: u32 },
    /// No obstacle with this number is alive; nothing was removed.
    Dead { number: u32 },
}

/// One request in the history, with who made it and what became of it. Entries are numbered from 1.
#[derive(Clone, Copy, PartialEq, Eq)]
pub struct Entry {
    /// Who made it: a number that means nothing to the history.
    pub lane: u32,
    pub request: Request,
    pub reply: Reply,
}

/// A ground as it was built, before any obstacle: its setting, the field that it was made of, and its layers, one a tile.
#[derive(Drop)]
pub struct Ground {
    pub setting: Setting,
    /// As wide and as deep as the setting says. It is known to contracts alone and takes no memory.
    pub field: PastField,
    /// By the numbers of their tiles.
    pub layers: Items<Layer>,
}
