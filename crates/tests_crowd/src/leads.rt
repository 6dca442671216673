//! Where kept paths lead agents of a crowd on a small mesh. What is wanted was worked out by hand. All radii are 100.

ghost use Rattle.std.specs.Prelude.{◌≡◌, ◌<◌, IsTrue};
ghost use Rattle.nav_base.specs.Point.{HasCoordinates};
ghost use Rattle.mesh_types.specs.Soundness.{IsSound};

use crate::fields::Sketch;
use crate::meshes::mesh;
use crate::rows::all_hold;
use crowd_lead::{LeadAnswer, lead};
use crowd_moves::{CrowdAgent, has_sizes};
use mesh_types::{Link, Mesh, PolyRef};
use nav_base::Point;
use path_queries::inner;
use std::alloc::{AllocError, Global};
use std::marker::Brand;
use std::sync::ledger::{Blank, Ledger};

/// What is told: the wish, how far the goal is, and how many links are behind the agent.
#[derive(Clone, Copy, PartialEq)]
enum Told {
    Led(i32, i32, u64, usize),
    Cut(usize),
}

/// The speed, the polygon's index and the middle of an agent, the goal in sixteenths of a cell, and how many links were behind the agent. The path leads
/// from the polygon 0 over 1 and 2 to 3.
type Row = (u32, u32, i32, i32, i32, i32, usize, Told);

static WHOLE: [Row; 11] = [
    // The goal is seen: straight there, as far as the speed.
    (64, 0, 640, 300, 40, 72, 0, Told::Led(0, 64, 942, 0)),
    // Links that were passed are found out, ahead and behind.
    (64, 2, 640, 900, 40, 72, 0, Told::Led(0, 64, 361, 2)),
    (64, 0, 640, 300, 40, 72, 2, Told::Led(0, 64, 942, 0)),
    // In the last polygon: to the goal, and no farther than the speed.
    (64, 3, 640, 1120, 40, 72, 3, Told::Led(0, 32, 32, 3)),
    (20, 3, 640, 1120, 40, 72, 0, Told::Led(0, 20, 32, 3)),
    (0, 3, 640, 1120, 40, 72, 3, Told::Led(0, 0, 32, 3)),
    // Clear of the wall: the portal's end is moved inward by a quarter of the distance to it, here 117 of 469.
    (64, 0, 272, 300, 17, 72, 0, Told::Led(13, 62, 1565, 0)),
    // Toward a corner that is farther away than the speed, and round one that is nearer.
    (64, 1, 360, 740, 17, 72, 1, Told::Led(-6, 63, 1178, 1)),
    (400, 1, 360, 740, 17, 72, 1, Told::Led(-76, 387, 1178, 1)),
    // A polygon that is none of the path; a goal that the last polygon does not hold.
    (64, 7, 640, 300, 40, 72, 1, Told::Cut(1)),
    (64, 3, 640, 1120, 40, 90, 3, Told::Cut(3)),
];

/// With a link from the polygon 1 that the mesh does not have.
static SPOILT: [Row; 2] = [
    (64, 1, 640, 600, 40, 72, 1, Told::Cut(1)),
    (64, 2, 640, 900, 40, 72, 1, Told::Led(0, 64, 361, 2)),
];

fn agent(row: Row) -> CrowdAgent {
    CrowdAgent {
        polygon: PolyRef {
            tile: 0,
            index: row.1,
        },
        at: Point { x: row.2, z: row.3 },
        low: 10,
        high: 10,
        stranded: false,
        areas: u64::MAX,
        radius: 100,
        speed: row.0,
    }
}

/// Whether a point may be a goal.
fn is_goal(p: Point) -> bool
    ensures { IsTrue result → HasCoordinates p }
{
    -65536 <= p.x && p.x <= 65536 && -65536 <= p.z && p.z <= 65536
}

/// Adds the link between two polygons that follow each other.
fn push_link(mesh: &Mesh, links: &mut Vec<Link>, index: u32) -> Result<(), AllocError> {
    for link in inner(mesh, PolyRef { tile: 0, index }) {
        if link.to.index == index.saturating_add(1) {
            links.push(*link)?;
        }
    }
    Ok(())
}

/// The links from the polygon 0 to the polygon 3; the second may be one over another edge, which is none of the mesh.
fn path(alloc: Global, mesh: &Mesh, is_spoilt: bool) -> Result<Vec<Link>, AllocError> {
    let mut links = Vec::new(alloc);
    for index in 0..3 {
        push_link(mesh, &mut links, index)?;
    }
    if is_spoilt && links.len() == 3 {
        let link = links[1];
        links[1] = Link { edge: 9, ..link };
    }
    Ok(links)
}

/// What is told of a row; none where it may not be asked.
fn tell(mesh: &Mesh, links: &[Link], row: Row) -> Option<Told>
    requires { IsSound mesh.now }
{
    let agent = agent(row);
    let goal = Point { x: row.4, z: row.5 };
    if !has_sizes(&agent) || !is_goal(goal) || row.6 > links.len() {
        return None;
    }
    match lead(mesh, &agent, goal, links, row.6) {
        LeadAnswer::Led { wish, left, link } => Some(Told::Led(wish.x, wish.z, left, link)),
        LeadAnswer::Cut { link } => Some(Told::Cut(link)),
    }
}

fn wrong_row(mesh: &Mesh, links: &[Link], rows: &[Row]) -> Option<usize>
    requires { IsSound mesh.now }
{
    for row in 0..rows.len() {
        if tell(mesh, links, rows[row]) != Some(rows[row].7) {
            return Some(row);
        }
    }
    None
}

/// A row that is wrong; 99 where there is no mesh or no path.
fn wrong<L: Ledger>(alloc: Global, is_spoilt: bool, rows: &[Row], blank: Blank) -> Option<usize>
    requires name { blank.name ≡ L.name }
    requires parts { blank.parts ≡ L.parts }
    requires some { 0 < blank.parts }
{
    let Some(mesh) = mesh::<L>(alloc, Sketch::Flat, blank) else {
        return Some(99);
    };
    match path(alloc, &mesh, is_spoilt) {
        Ok(links) => wrong_row(&mesh, links.as_slice(), rows),
        Err(_) => Some(99),
    }
}

#[test]
fn leads_agents(rt: HostRuntime) {
    let row = wrong::<Brand>(rt.alloc(), false, &WHOLE, Blank::new(1));
    all_hold(&rt, "whole", row);
    let row = wrong::<Brand>(rt.alloc(), true, &SPOILT, Blank::new(1));
    all_hold(&rt, "spoilt", row);
}
