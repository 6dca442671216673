// What the seats of a lock's table know. No value of these types is ever made: they are what proofs speak of.
use std::collections::LinkedList;

/// What one pass knows of the list: its number, the part that it has seen, and the greatest length that it has met.
pub struct Claim<E> {
    pub number: u64,
    pub seen: LinkedList<E>,
    pub met: u64,
}

/// What a seat knows. A seat that was joined away has no root, and nothing is said of it any more.
pub struct SeatView<G, E> {
    pub root: Option<G>,
    pub own: Claim<E>,
    // The claims of the seats that were joined to it.
    pub taken: LinkedList<Claim<E>>,
    pub holds: bool,
    // How many numbers have been given, at the one seat that gives them; 0 at the others.
    pub given: u64,
}
