//! All walls around a place, in order.

ghost use Rattle.std.specs.Prelude.{◌*◌, ◌+◌, ◌<◌, ◌≡◌, IfOk};
ghost use Rattle.std.specs.List.Sorted.{IsPermutation};
ghost use Rattle.mesh_types.specs.LinkOrder.{poly_cmp};
ghost use Rattle.mesh_types.specs.Places.{IsPlace};
ghost use Rattle.mesh_types.specs.Soundness.{IsSound};
ghost use Rattle.wall_query.specs.AllWalls.{AreWallsAround, CanAskWalls, IsRightWalls};
ghost use Rattle.wall_query.specs.Walls.{ArePolygonsInOrder};

use crate::around::{Around, gather};
use crate::distances::square_of_reach;
use crate::questions::{Wall, WallsAnswer, WallsQuery};
use crate::walls::walls_of;
use mesh_place::is_place;
use mesh_types::{Asked, Mesh, PolyRef};
use nav_lists::Items;
use std::alloc::{AllocError, Global};
use std::cmp::Ordering;

/// The walls within the reach of the polygons around a place within it, by tile, polygon, edge and along the edge. Only memory can be refused.
pub fn walls_around(
    alloc: Global,
    mesh: &Mesh,
    asked: &WallsQuery,
) -> Result<WallsAnswer, AllocError>
    requires sound { IsSound mesh.now }
    requires asked { CanAskWalls asked.now }
    ensures right { IfOk result (IsRightWalls mesh.now asked.now) }
{
    if !is_place(mesh, asked.from) {
        return Ok(WallsAnswer::NoStart);
    }
    let walls = all_walls(alloc, mesh, asked)?;
    Ok(WallsAnswer::Walls(Items::from_vec(walls)))
}

impl Asked for WallsQuery {
    ghost use Rattle.wall_query.specs.AllWalls.{CanAskWalls, IsRightWalls};

    type Answer = WallsAnswer;

    ghost can_ask = { λ asked. CanAskWalls asked };

    ghost is_right = { λ asked mesh answer. IsRightWalls mesh asked answer };

    fn ask(&self, alloc: Global, mesh: &Mesh) -> Result<WallsAnswer, AllocError> {
        walls_around(alloc, mesh, self)
    }
}

/// The walls around a place of the mesh.
fn all_walls(alloc: Global, mesh: &Mesh, asked: &WallsQuery) -> Result<Vec<Wall>, AllocError>
    requires sound { IsSound mesh.now }
    requires place { IsPlace mesh.now asked.now.from }
    ensures { IfOk result (λ walls. AreWallsAround mesh.now asked.now walls.items) }
{
    let around = Around {
        from: asked.from,
        areas: asked.areas,
        far: square_of_reach(asked.reach),
    };
    let mut list = gather(alloc, mesh, &around)?;
    order_polygons(&mut list);
    walls_of(alloc, mesh, &around, list.as_slice())
}

/// Puts polygons in order, by tile and place. It takes no memory.
fn order_polygons(list: &mut Vec<PolyRef>)
    ensures order { ArePolygonsInOrder list.new.items }
    ensures all { IsPermutation list.old.items list.new.items }
{
    list.sort_unstable_by(|a, b| polygon_order(a, b))
}

/// Which of two polygons comes first.
fn polygon_order(a: &PolyRef, b: &PolyRef) -> Ordering
    ensures { result ≡ poly_cmp a.now b.now }
{
    number(a).cmp(&number(b))
}

/// A number by which polygons are in order: that of the tile, and behind it that of the polygon in 32 bits.
fn number(at: &PolyRef) -> u64
    ensures value { result ≡ at.now.tile * 4294967296 + at.now.index }
    ensures small { at.now.index < 4294967296 }
{
    u64::from(at.tile) * 4294967296 + u64::from(at.index)
}
