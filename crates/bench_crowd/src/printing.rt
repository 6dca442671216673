//! What is printed of a crowd: one line for each polygon, agent and wish.

ghost use Rattle.std.specs.Prelude.{◌≡◌};

use crate::crowd::RandomWishes;
use crowd_moves::CrowdAgent;
use mesh_types::{Mesh, Polygon};
use std::io;
use std::io::Print;

/// The polygons: tile, place, least and greatest floor, area, and corners in cells.
pub fn print_mesh(rt: &impl Print, mesh: &Mesh) -> io::Result<()> {
    println!(rt;
        "height {} climb {}",
        mesh.setting.agent.height, mesh.setting.agent.climb
    )?;
    for tile in 0..mesh.tiles.len() {
        let polygons = &mesh.tiles.at(tile).get().polys;
        for index in 0..polygons.len() {
            print!(rt; "polygon {tile} {index}")?;
            print_polygon(rt, &polygons.at(index))?;
        }
    }
    Ok(())
}

fn print_polygon(rt: &impl Print, polygon: &Polygon) -> io::Result<()> {
    print!(rt; " {} {} {}", polygon.low, polygon.high, polygon.area)?;
    for corner in polygon.corners.as_slice() {
        print!(rt; " {} {}", corner.x, corner.z)?;
    }
    println!(rt)
}

/// The agents: tile and place of the polygon, middle, floors, whether stranded, radius and speed.
pub fn print_agents(rt: &impl Print, word: &str, agents: &[CrowdAgent]) -> io::Result<()> {
    for agent in agents {
        print!(rt;
            "{word} {} {} {} {}",
            agent.polygon.tile, agent.polygon.index, agent.at.x, agent.at.z
        )?;
        print!(rt;
            " {} {} {}",
            agent.low,
            agent.high,
            u32::from(agent.stranded)
        )?;
        println!(rt; " {} {}", agent.radius, agent.speed)?;
    }
    Ok(())
}

/// The wishes: the vectors of each agent on a line.
pub fn print_wishes(rt: &impl Print, wishes: &RandomWishes, count: usize) -> io::Result<()> {
    for i in 0..count {
        print!(rt; "wish")?;
        print_list(rt, wishes, i)?;
        println!(rt)?;
    }
    Ok(())
}

fn print_list(rt: &impl Print, wishes: &RandomWishes, i: usize) -> io::Result<()> {
    let begin = wishes.first.get(i).copied().unwrap_or(0);
    let end = wishes.first.get(i.wrapping_add(1)).copied().unwrap_or(0);
    for k in begin..end {
        if let Some(vector) = wishes.vectors.get(k) {
            print!(rt; " {} {}", vector.x, vector.z)?;
        }
    }
    Ok(())
}
