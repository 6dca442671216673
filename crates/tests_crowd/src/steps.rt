//! Steps of crowds on a small mesh. What is wanted was worked out by hand. All radii are 100.

ghost use Rattle.std.specs.Prelude.{◌≡◌, ◌<◌, All, IsTrue};
ghost use Rattle.nav_ground.specs.Limits.{IsSetting};
ghost use Rattle.mesh_types.specs.Soundness.{IsSound};
ghost use Rattle.crowd_moves.specs.Pairs.{HasSizes};

use crate::fields::Sketch;
use crate::meshes::mesh;
use crate::rows::all_hold;
use crowd_filter::step;
use crowd_moves::{CrowdAgent, CrowdWishes, has_sizes};
use mesh_types::{Mesh, PolyRef};
use nav_base::Point;
use std::alloc::{AllocError, Global};
use std::marker::Brand;
use std::sync::ledger::{Blank, Ledger};

/// Where an agent is: the index of its polygon, and its middle. The index 9 stands for a stranded one.
type Spot = (u32, i32, i32);

/// What an agent would like: how many vectors, and these, the best first.
type Wish = (usize, i32, i32, i32, i32, i32, i32);

/// The speed, the rounds, where two agents are and what they would like, and where they are after the step.
type Row = (u32, u32, Spot, Wish, Spot, Wish, Spot, Spot);

/// An agent that is far from the others of its row, and wishes for nothing.
const FAR: Spot = (3, 1200, 1200);

const NONE: Wish = (0, 0, 0, 0, 0, 0, 0);

static ROWS: [Row; 13] = [
    // Up to touching: one unit farther is not granted, and the next of the list is.
    (
        64,
        8,
        (1, 400, 640),
        (3, 64, 0, 41, 0, 40, 0),
        (1, 640, 640),
        NONE,
        (1, 440, 640),
        (1, 640, 640),
    ),
    // A file moves as one in two rounds; in one round the first, whose turn comes before that of the one ahead, waits.
    (
        64,
        8,
        (1, 400, 640),
        (1, 64, 0, 0, 0, 0, 0),
        (1, 640, 640),
        (1, 64, 0, 0, 0, 0, 0),
        (1, 464, 640),
        (1, 704, 640),
    ),
    (
        64,
        1,
        (1, 400, 640),
        (1, 64, 0, 0, 0, 0, 0),
        (1, 640, 640),
        (1, 64, 0, 0, 0, 0, 0),
        (1, 400, 640),
        (1, 704, 640),
    ),
    // Not through each other, though both ends are free.
    (
        400,
        8,
        (1, 400, 640),
        (1, 400, 0, 0, 0, 0, 0),
        (1, 640, 640),
        (1, -144, 0, 0, 0, 0, 0),
        (1, 400, 640),
        (1, 640, 640),
    ),
    // They overlap at a distance of 150: they go aside together, and no nearer.
    (
        64,
        8,
        (1, 400, 640),
        (3, 1, 0, 1, 20, 0, 10),
        (1, 550, 640),
        (2, 0, 10, 5, 0, 0, 0),
        (1, 400, 650),
        (1, 550, 650),
    ),
    // Alone: no farther than the speed, and not off the mesh.
    (
        64,
        8,
        (1, 400, 640),
        (3, 65, 0, 46, 45, 45, 45),
        FAR,
        NONE,
        (1, 445, 685),
        FAR,
    ),
    (
        64,
        8,
        (1, 1270, 640),
        (2, 20, 0, 10, 0, 0, 0),
        (3, 400, 1200),
        NONE,
        (1, 1280, 640),
        (3, 400, 1200),
    ),
    // Over edges of polygons: who comes second stands.
    (
        64,
        8,
        (0, 400, 500),
        (1, 0, 64, 0, 0, 0, 0),
        (2, 400, 800),
        (1, 0, -64, 0, 0, 0, 0),
        (1, 400, 564),
        (2, 400, 800),
    ),
    // With the speed 0 only standing is granted.
    (
        0,
        8,
        (1, 400, 640),
        (2, 1, 0, 0, 0, 0, 0),
        FAR,
        NONE,
        (1, 400, 640),
        FAR,
    ),
    // A polygon that does not hold the middle: the one that does, and on an edge the first of two.
    (
        64,
        8,
        (3, 400, 640),
        (1, 10, 0, 0, 0, 0, 0),
        FAR,
        NONE,
        (1, 410, 640),
        FAR,
    ),
    (
        64,
        8,
        (3, 400, 512),
        (0, 0, 0, 0, 0, 0, 0),
        FAR,
        NONE,
        (0, 400, 512),
        FAR,
    ),
    // None holds it: the agent is stranded and stands, and others keep away.
    (
        64,
        8,
        (1, 100, 640),
        (1, 10, 0, 0, 0, 0, 0),
        FAR,
        NONE,
        (9, 100, 640),
        FAR,
    ),
    (
        64,
        8,
        (1, 100, 640),
        (1, 10, 0, 0, 0, 0, 0),
        (1, 310, 640),
        (2, -20, 0, -10, 0, 0, 0),
        (9, 100, 640),
        (1, 300, 640),
    ),
];

fn agent(spot: Spot, speed: u32) -> CrowdAgent {
    let (index, x, z) = spot;
    CrowdAgent {
        polygon: PolyRef { tile: 0, index },
        at: Point { x, z },
        low: 10,
        high: 10,
        stranded: false,
        areas: u64::MAX,
        radius: 100,
        speed,
    }
}

fn is_at(agent: &CrowdAgent, spot: Spot) -> bool {
    let (index, x, z) = spot;
    if agent.stranded != (index == 9) || agent.at.x != x || agent.at.z != z {
        return false;
    }
    agent.stranded || (agent.polygon.index == index && agent.low == 10 && agent.high == 10)
}

/// Whether all have sizes that may be asked.
pub(crate) fn are_sized(agents: &[CrowdAgent]) -> bool
    ensures { IsTrue result → All HasSizes agents.now }
{
    for i in 0..agents.len() {
        if !has_sizes(&agents[i]) {
            return false;
        }
    }
    true
}

/// Adds the vectors of a list.
fn push_vectors(vectors: &mut Vec<Point>, wish: Wish) -> Result<(), AllocError> {
    let (count, ax, az, bx, bz, cx, cz) = wish;
    let list = [
        Point { x: ax, z: az },
        Point { x: bx, z: bz },
        Point { x: cx, z: cz },
    ];
    for k in 0..count.min(3) {
        vectors.push(list[k])?;
    }
    Ok(())
}

/// The agents after a step of two; none where there is no memory.
fn after_step(alloc: Global, mesh: &Mesh, row: Row) -> Result<[CrowdAgent; 2], AllocError>
    requires sound { IsSound mesh.now }
    requires setting { IsSetting mesh.now.setting }
{
    let (speed, rounds, a, a_wish, b, b_wish, _a, _b) = row;
    let mut agents = [agent(a, speed), agent(b, speed)];
    let mut vectors = Vec::new(alloc);
    push_vectors(&mut vectors, a_wish)?;
    let second = vectors.len();
    push_vectors(&mut vectors, b_wish)?;
    let first = [0, second, vectors.len()];
    make_step(alloc, mesh, &mut agents, vectors.as_slice(), &first, rounds)?;
    Ok(agents)
}

/// Makes a step of agents, where it may be asked.
fn make_step(
    alloc: Global,
    mesh: &Mesh,
    agents: &mut [CrowdAgent],
    vectors: &[Point],
    first: &[usize],
    rounds: u32,
) -> Result<(), AllocError>
    requires sound { IsSound mesh.now }
    requires setting { IsSetting mesh.now.setting }
{
    if !are_sized(agents) || agents.len() > 2 || rounds == 0 {
        return Ok(());
    }
    let wishes = CrowdWishes {
        order: &[0, 1, 7],
        first,
        vectors,
    };
    let _settles = step(alloc, mesh, wishes, rounds, agents)?;
    Ok(())
}

fn is_right(alloc: Global, mesh: &Mesh, row: Row) -> bool
    requires sound { IsSound mesh.now }
    requires setting { IsSetting mesh.now.setting }
{
    match after_step(alloc, mesh, row) {
        Ok(agents) => is_at(&agents[0], row.6) && is_at(&agents[1], row.7),
        Err(_) => false,
    }
}

fn wrong_row(alloc: Global, mesh: &Mesh, rows: &[Row]) -> Option<usize>
    requires sound { IsSound mesh.now }
    requires setting { IsSetting mesh.now.setting }
{
    for row in 0..rows.len() {
        if !is_right(alloc, mesh, rows[row]) {
            return Some(row);
        }
    }
    None
}

/// A row that is wrong; 99 where there is no mesh.
fn wrong<L: Ledger>(alloc: Global, rows: &[Row], blank: Blank) -> Option<usize>
    requires name { blank.name ≡ L.name }
    requires parts { blank.parts ≡ L.parts }
    requires some { 0 < blank.parts }
{
    match mesh::<L>(alloc, Sketch::Flat, blank) {
        Some(mesh) => wrong_row(alloc, &mesh, rows),
        None => Some(99),
    }
}

#[test]
fn makes_steps(rt: HostRuntime) {
    let row = wrong::<Brand>(rt.alloc(), &ROWS, Blank::new(1));
    all_hold(&rt, "steps", row);
}
