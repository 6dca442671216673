//! One step of a crowd that steers itself.
//!
//! `crowd_step` makes of each agent's wish a list of moves, the best first, and has `crowd_filter` grant them. So the laws of that filter hold whatever
//! the steering does: who is apart stays apart, who overlaps comes no nearer, each goes on the mesh and no farther than its speed. Besides, an agent
//! that sees nobody goes as it wishes, if the mesh lets it.
//!
//! The steering itself promises nothing. Each agent looks at the eight nearest of its storey. Of two the one with less way left goes before the
//! other; who stands in another's wish goes just before that one, so that it makes way; who led and waited long lets others go first for a while. A
//! wish that breaks no half plane of those that go before is the list, with shorter ones. Else many moves are tried, and those that are better than
//! standing are the list: by the half planes that they break, and how far they are from the wish and from the last move.
//!
//! Hard discs may block each other for good where many meet in narrow places. `slim`, which a host may call after each step, lets those that waited for
//! three seconds be a quarter of their size, and grow again where they go and have room.
//!
//! Points, radii and speeds are in fine units, 1/256 of a cell; speeds are by step.
#![tactic(auto)]

mod choosing;
mod fan;
mod footing;
mod intents;
mod planes;
mod ranks;
mod sights;
mod slim_agents;
mod steering;
mod steps;
mod vectors;
mod walkers;

pub use slim_agents::slim;
pub use steering::{CrowdRules, Steering};
pub use steps::crowd_step;
