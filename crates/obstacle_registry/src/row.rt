//! An obstacle as the registry keeps it, and why a call is refused.

use nav_ground::Shape;

/// An obstacle by its id.
#[derive(Clone, Copy)]
pub struct Registered {
    /// From 1; it stays with the obstacle, and is given to no other one.
    pub id: u64,
    pub shape: Shape,
    /// The host's own number, which means nothing to the registry.
    pub user: u64,
    /// The number of the entry that put it up; 0 where it is switched off.
    pub number: u32,
}

/// Why a call is refused.
#[derive(Clone, Copy, PartialEq, Eq, Debug)]
pub enum Refused {
    /// No obstacle has the id.
    NoObstacle,
    /// The obstacle is on already, or off already.
    Same,
    /// As many obstacles are on as may be, or as many are kept, or all ids were given, or all versions shown.
    TooMany,
    /// The history may not have two entries more, or those of all obstacles that go and come where they are restored.
    HistoryFull,
    /// Memory was refused.
    NoMemory,
    /// The bytes are those of no saved registry.
    NotSaved,
    /// What was saved is of another field, other tiles or another limit.
    Foreign,
}
