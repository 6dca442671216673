//! The lists of moves that agents would like.

use nav_base::Point;

/// For each agent the vectors by which it would like to move, the best first, one list after the other; and who goes before others.
#[derive(Clone, Copy)]
pub struct CrowdWishes<'a> {
    /// The places of agents, who goes before others first. Who is not named keeps the move that it has.
    pub order: &'a [u32],
    /// Where the list of each agent begins, and how many vectors there are in all.
    pub first: &'a [usize],
    /// In fine units.
    pub vectors: &'a [Point],
}
