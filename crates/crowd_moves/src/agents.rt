//! The agents of a crowd and their moves.

ghost use Rattle.std.specs.Prelude.{◌≡◌};
ghost use Rattle.crowd_moves.specs.Pairs;

use mesh_types::PolyRef;
use nav_base::Point;

/// An agent of a crowd. Points, the radius and the speed are in fine units, 1/256 of a cell.
#[derive(Clone, Copy)]
pub struct CrowdAgent {
    /// The polygon that holds its middle.
    pub polygon: PolyRef,
    /// Its middle.
    pub at: Point,
    /// The least and the greatest floor of its polygon, in height units.
    pub low: u32,
    pub high: u32,
    /// No polygon is known that holds it: it stands, and others keep away from it.
    pub stranded: bool,
    /// Bit a: polygons of area a may be entered.
    pub areas: u64,
    pub radius: u32,
    /// How far it may go in one step.
    pub speed: u32,
}

/// What an agent does in one step.
#[derive(Clone, Copy)]
pub struct CrowdMove {
    /// The vector by which its middle moves, straight and evenly.
    pub by: Point,
    /// The polygon in which this ends.
    pub to: PolyRef,
    /// The least and the greatest floor that it passes over, in height units.
    pub low: u32,
    pub high: u32,
}

/// The move of an agent that stands.
pub fn standing(agent: &CrowdAgent) -> CrowdMove
    ensures { result ≡ Pairs.standing agent.now }
{
    CrowdMove {
        by: Point { x: 0, z: 0 },
        to: agent.polygon,
        low: agent.low,
        high: agent.high,
    }
}
