//! The mesh as the space in which a crowd moves.

ghost use Rattle.std.specs.Prelude.{◌≡◌, ◌↔◌, ◌^◌, true, false, IfSome, IfNone, IsTrue};
ghost use Rattle.nav_base.specs.Point.{IsWithin};
ghost use Rattle.mesh_types.specs.Soundness.{IsSound};
ghost use Rattle.crowd_moves.specs.declared.agents.CrowdMove.{CrowdMove};
ghost use Rattle.crowd_moves.specs.Pairs;
ghost use Rattle.crowd_moves.specs.Pairs.{IsSlowVector};
ghost use Rattle.crowd_filter.specs.CrowdAgents.{added, IsCrowdAgent, MayWalk};

use crowd_moves::{CrowdAgent, CrowdMove, MoveSpace, standing};
use fine_walk::{fine_walk, inside, one};
use mesh_types::Mesh;
use nav_base::Point;

/// A mesh in which agents go along straight ways of fine points.
#[derive(Clone, Copy)]
pub struct MeshSpace<'a> {
    pub mesh: &'a Mesh,
}

impl<'a> MoveSpace for MeshSpace<'a> {
    ghost use Rattle.mesh_types.specs.Soundness.{IsSound};
    ghost use Rattle.crowd_filter.specs.CrowdAgents.{IsCrowdAgent, MayWalk};

    ghost knows = { λ space agent. IsSound space.mesh.now × IsCrowdAgent space.mesh.now agent };

    ghost lets = { λ space agent made. MayWalk space.mesh.now agent made };

    fn way(&self, agent: &CrowdAgent, by: Point) -> Option<CrowdMove> {
        if agent.stranded {
            return stranded_way(self.mesh, agent, by);
        }
        walk(self.mesh, agent, by)
    }

    fn stay(&self, agent: &CrowdAgent) -> CrowdMove {
        stand_there(self.mesh, agent)
    }
}

/// The move of an agent that walks by a vector; none exactly where the mesh does not let it.
fn walk(mesh: &Mesh, agent: &CrowdAgent, by: Point) -> Option<CrowdMove>
    requires sound { IsSound mesh.now }
    requires agent { IsCrowdAgent mesh.now agent.now }
    requires slow { IsSlowVector agent.now by }
    requires walks { agent.now.stranded ≡ false }
    ensures by { IfSome result (λ made. made.by ≡ by) }
    ensures lets { IfSome result (λ made. MayWalk mesh.now agent.now made) }
    ensures one { IfSome result (λ made. (other : CrowdMove) → other.by ≡ by → MayWalk mesh.now agent.now other → other ≡ made) }
    ensures none { IfNone result ((made : CrowdMove) → made.by ≡ by → MayWalk mesh.now agent.now made → ⊥) }
{
    one();
    let to = sum(agent.at, by);
    if !is_fine(to) {
        return None;
    }
    let Some(way) = fine_walk(mesh, agent.areas, agent.polygon, agent.at, to) else {
        return None;
    };
    Some(CrowdMove {
        by,
        to: way.last,
        low: way.low,
        high: way.high,
    })
}

/// The move of an agent that is stranded: it stands, and makes no other move.
fn stranded_way(mesh: &Mesh, agent: &CrowdAgent, by: Point) -> Option<CrowdMove>
    requires agent { IsCrowdAgent mesh.now agent.now }
    requires stands { agent.now.stranded ≡ true }
    ensures by { IfSome result (λ made. made.by ≡ by) }
    ensures lets { IfSome result (λ made. MayWalk mesh.now agent.now made) }
    ensures one { IfSome result (λ made. (other : CrowdMove) → other.by ≡ by → MayWalk mesh.now agent.now other → other ≡ made) }
    ensures none { IfNone result ((made : CrowdMove) → made.by ≡ by → MayWalk mesh.now agent.now made → ⊥) }
{
    let made = standing(agent);
    if made.by == by { Some(made) } else { None }
}

/// The move of an agent that stands.
fn stand_there(mesh: &Mesh, agent: &CrowdAgent) -> CrowdMove
    requires agent { IsCrowdAgent mesh.now agent.now }
    ensures stands { result ≡ Pairs.standing agent.now }
    ensures lets { MayWalk mesh.now agent.now result }
{
    inside();
    standing(agent)
}

/// Whether a point is a fine point: its parts are at most 2 ^ 20.
pub(crate) fn is_fine(p: Point) -> bool
    ensures { IsTrue result ↔ IsWithin (2 ^ 20) p }
{
    p.x.unsigned_abs() <= 1048576 && p.z.unsigned_abs() <= 1048576
}

/// The point to which a vector leads.
pub(crate) fn sum(p: Point, v: Point) -> Point
    requires point { IsWithin (2 ^ 20) p }
    requires vector { IsWithin (2 ^ 20) v }
    ensures { result ≡ added p v }
{
    Point {
        x: p.x + v.x,
        z: p.z + v.z,
    }
}
