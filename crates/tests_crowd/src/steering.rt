//! Steps of two agents that steer themselves, on a small mesh. What is wanted was worked out by hand. All radii are 100, the speed is 64, and an agent
//! sees no farther than it could come to touch in one step: 328.

ghost use Rattle.std.specs.Prelude.{◌≡◌, ◌<◌};
ghost use Rattle.nav_ground.specs.Limits.{IsSetting};
ghost use Rattle.mesh_types.specs.Soundness.{IsSound};

use crate::fields::Sketch;
use crate::meshes::mesh;
use crate::rows::all_hold;
use crate::steps::are_sized;
use crowd_moves::CrowdAgent;
use crowd_step::{CrowdRules, Steering, crowd_step};
use mesh_types::{Mesh, PolyRef};
use nav_base::Point;
use std::alloc::{AllocError, Global};
use std::marker::Brand;
use std::sync::ledger::{Blank, Ledger};

/// Where the first agent is, its wish, where the other is, and where the first is after the step.
type Row = (i32, i32, i32, i32, i32, i32, i32, i32);

static ROWS: [Row; 2] = [
    // It sees nobody, and goes as it wishes.
    (400, 640, 64, 0, 1200, 1200, 464, 640),
    (400, 640, -3, 5, 729, 640, 397, 645),
];

fn agent(x: i32, z: i32) -> CrowdAgent {
    CrowdAgent {
        polygon: PolyRef { tile: 0, index: 0 },
        at: Point { x, z },
        low: 10,
        high: 10,
        stranded: false,
        areas: u64::MAX,
        radius: 100,
        speed: 64,
    }
}

fn steering(x: i32, z: i32) -> Steering {
    let none = Point { x: 0, z: 0 };
    Steering {
        wish: Point { x, z },
        left: 1000,
        idle: false,
        last: none,
        meant: none,
        waited: 0,
        tired: 0,
    }
}

/// The agents after a step of two, where it may be asked; none where there is no memory.
fn after_step(alloc: Global, mesh: &Mesh, row: Row) -> Result<[CrowdAgent; 2], AllocError>
    requires sound { IsSound mesh.now }
    requires setting { IsSetting mesh.now.setting }
{
    let (x, z, wish_x, wish_z, other_x, other_z, _x, _z) = row;
    let rules = CrowdRules {
        sight: 0,
        hz: 20,
        rounds: 8,
    };
    let mut agents = [agent(x, z), agent(other_x, other_z)];
    let mut steerings = [steering(wish_x, wish_z), steering(0, 0)];
    if are_sized(&agents) {
        crowd_step(alloc, mesh, rules, &mut agents, &mut steerings)?;
    }
    Ok(agents)
}

fn is_right(alloc: Global, mesh: &Mesh, row: Row) -> bool
    requires sound { IsSound mesh.now }
    requires setting { IsSetting mesh.now.setting }
{
    match after_step(alloc, mesh, row) {
        Ok(agents) => agents[0].at.x == row.6 && agents[0].at.z == row.7,
        Err(_) => false,
    }
}

fn wrong_row(alloc: Global, mesh: &Mesh, rows: &[Row]) -> Option<usize>
    requires sound { IsSound mesh.now }
    requires setting { IsSetting mesh.now.setting }
{
    for row in 0..rows.len() {
        if !is_right(alloc, mesh, rows[row]) {
            return Some(row);
        }
    }
    None
}

/// A row that is wrong; 99 where there is no mesh.
fn wrong<L: Ledger>(alloc: Global, rows: &[Row], blank: Blank) -> Option<usize>
    requires name { blank.name ≡ L.name }
    requires parts { blank.parts ≡ L.parts }
    requires some { 0 < blank.parts }
{
    match mesh::<L>(alloc, Sketch::Flat, blank) {
        Some(mesh) => wrong_row(alloc, &mesh, rows),
        None => Some(99),
    }
}

#[test]
fn goes_as_it_wishes(rt: HostRuntime) {
    let row = wrong::<Brand>(rt.alloc(), &ROWS, Blank::new(1));
    all_hold(&rt, "steering", row);
}
