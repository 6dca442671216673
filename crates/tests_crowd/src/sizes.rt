//! The sizes of agents that wait, beside another one with a radius of 100. What is wanted was worked out by hand. There are 20 steps a second.

ghost use Rattle.std.specs.Prelude.{◌≤◌, ℕ, All, IsTrue};

use crate::rows::all_hold;
use crate::steps::are_sized;
use crowd_moves::CrowdAgent;
use crowd_step::{CrowdRules, Steering, slim};
use mesh_types::PolyRef;
use nav_base::Point;

/// The radius of an agent, its full one, for how many steps it waits, how far the other one is, and the radius that it has then.
type Row = (u32, u32, u32, i32, u32);

static ROWS: [Row; 8] = [
    // Three seconds.
    (200, 200, 60, 1000, 50),
    (200, 200, 59, 1000, 200),
    // At least 1, and no wider than it was.
    (3, 3, 60, 1000, 1),
    (1, 8, 60, 1000, 1),
    // It has its full size again where it does not wait and then touches the other one at most.
    (50, 200, 0, 300, 200),
    (50, 200, 0, 299, 50),
    (50, 200, 1, 1000, 50),
    // Who overlaps stays as it is.
    (200, 200, 0, 100, 200),
];

fn agent(x: i32, radius: u32) -> CrowdAgent {
    CrowdAgent {
        polygon: PolyRef { tile: 0, index: 0 },
        at: Point { x, z: 0 },
        low: 10,
        high: 10,
        stranded: false,
        areas: u64::MAX,
        radius,
        speed: 64,
    }
}

fn steering(waited: u32) -> Steering {
    let none = Point { x: 0, z: 0 };
    Steering {
        wish: none,
        left: 1000,
        idle: false,
        last: none,
        meant: none,
        waited,
        tired: 0,
    }
}

/// Whether these are radii that may be asked.
fn are_radii(radii: &[u32]) -> bool
    ensures { IsTrue result → All (λ (n : ℕ). n ≤ 8191) radii.now }
{
    radii.iter().all(|radius| *radius <= 8191)
}

fn radius_after(row: Row) -> u32 {
    let (radius, full, waited, far, _wanted) = row;
    let rules = CrowdRules {
        sight: 0,
        hz: 20,
        rounds: 8,
    };
    let mut agents = [agent(0, radius), agent(far, 100)];
    let full = [full, 100];
    let steering = [steering(waited), steering(5)];
    if are_sized(&agents) && are_radii(&full) {
        slim(10, rules, &full, &steering, &mut agents);
    }
    agents[0].radius
}

fn wrong_row(rows: &[Row]) -> Option<usize> {
    for row in 0..rows.len() {
        if radius_after(rows[row]) != rows[row].4 {
            return Some(row);
        }
    }
    None
}

#[test]
fn waits_and_is_slim(rt: HostRuntime) {
    all_hold(&rt, "sizes", wrong_row(&ROWS));
}
