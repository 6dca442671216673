//! The walls of an edge, of a polygon, and of the polygons of a list.

ghost use Rattle.std.specs.Prelude.{◌≡◌, ◌↔◌, ◌<◌, All, IfOk, IsTrue, OnOk, Some, length};
ghost use Rattle.nav_base.specs.Point.{IsInField};
ghost use Rattle.mesh_types.specs.declared.mesh.Mesh.{Mesh};
ghost use Rattle.mesh_types.specs.FitTiles.{IsPolygon};
ghost use Rattle.mesh_types.specs.Soundness.{IsSound};
ghost use Rattle.mesh_types.specs.WholeMesh.{poly_at};
ghost use Rattle.wall_slide.specs.Ends.{IsThere};
ghost use Rattle.wall_query.specs.Around.{StandsIn};
ghost use Rattle.wall_query.specs.Lists.{Adds};
ghost use Rattle.wall_query.specs.Parts.{IsEdgeOf};
ghost use Rattle.wall_query.specs.Walls.{AddsWalls, AreWallsOf, ComesBefore, IsFirstAt, IsOn, IsWallBetween, IsWallIfAny};

use crate::around::Around;
use crate::distances::{distance_to, is_no_farther};
use crate::parts::{PolygonEdge, is_before, next_portal};
use crate::questions::Wall;
use mesh_types::{Mesh, PolyRef, Polygon, edge_ends, poly};
use nav_base::Point;
use std::alloc::{AllocError, Global};

/// The walls within the distance of the polygons of a list; in order where those stand in order.
pub(crate) fn walls_of(
    alloc: Global,
    mesh: &Mesh,
    around: &Around,
    list: &[PolyRef],
) -> Result<Vec<Wall>, AllocError>
    requires sound { IsSound mesh.now }
    requires start { StandsIn mesh.now around.now }
    requires list { All (IsThere mesh.now) list.now }
    ensures { IfOk result (λ walls. AreWallsOf mesh.now around.now list.now walls.items) }
{
    let mut walls = Vec::new(alloc);
    for place in 0..list.len() {
        if is_first(list, place) {
            push_polygon(mesh, around, list[place], &mut walls)?;
        }
    }
    Ok(walls)
}

/// Whether the polygon at a place of a list is another one than that before it.
fn is_first(list: &[PolyRef], place: usize) -> bool
    requires { place < length list.now }
    ensures { IsTrue result ↔ IsFirstAt list.now place }
{
    place == 0 || list[place - 1] != list[place]
}

/// Appends the walls of a polygon within the distance, edge by edge.
fn push_polygon(
    mesh: &Mesh,
    around: &Around,
    at: PolyRef,
    walls: &mut Vec<Wall>,
) -> Result<(), AllocError>
    requires sound { IsSound mesh.now }
    requires start { StandsIn mesh.now around.now }
    requires there { IsThere mesh.now at }
    ensures { OnOk result (AddsWalls mesh.now around.now (λ wall. wall.polygon ≡ at) walls.old.items walls.new.items) }
{
    let polygon = polygon_at(mesh, at);
    for edge in 0..polygon.corners.as_slice().len() {
        push_edge(mesh, around, &edge_of(&polygon, at, edge), walls)?;
    }
    Ok(())
}

/// Appends the walls of an edge within the distance, along the edge.
fn push_edge(
    mesh: &Mesh,
    around: &Around,
    edge: &PolygonEdge,
    walls: &mut Vec<Wall>,
) -> Result<(), AllocError>
    requires sound { IsSound mesh.now }
    requires start { StandsIn mesh.now around.now }
    requires edge { IsEdgeOf mesh.now edge.now }
    ensures { OnOk result (AddsWalls mesh.now around.now (IsOn edge.now) walls.old.items walls.new.items) }
{
    let mut from = edge.begin;
    while let Some(portal) = next_portal(mesh, around.areas, edge, from) {
        push_part(around, edge, from, portal.right, walls)?;
        from = portal.left;
    }
    push_part(around, edge, from, edge.end, walls)
}

/// Appends the wall on an edge from one point to another, if it has a length and is within the distance.
fn push_part(
    around: &Around,
    edge: &PolygonEdge,
    begin: Point,
    end: Point,
    walls: &mut Vec<Wall>,
) -> Result<(), AllocError>
    requires from { IsInField around.now.from.point }
    requires first { IsInField edge.now.begin }
    requires last { IsInField edge.now.end }
    requires begin { IsInField begin }
    requires end { IsInField end }
    ensures { OnOk result ((mesh : Mesh) → Adds (ComesBefore mesh) (IsWallBetween around.now edge.now begin end) walls.old.items walls.new.items) }
{
    if let Some(wall) = wall_between(around, edge, begin, end) {
        walls.push(wall)?;
    }
    Ok(())
}

/// The wall on an edge from one point to another, if it has a length and is within the distance.
fn wall_between(around: &Around, edge: &PolygonEdge, begin: Point, end: Point) -> Option<Wall>
    requires from { IsInField around.now.from.point }
    requires first { IsInField edge.now.begin }
    requires last { IsInField edge.now.end }
    requires begin { IsInField begin }
    requires end { IsInField end }
    ensures { IsWallIfAny around.now edge.now begin end result }
{
    if !is_before(edge, begin, end) {
        return None;
    }
    let far = distance_to(begin, end, around.from.point);
    if !is_no_farther(far, around.far) {
        return None;
    }
    Some(Wall {
        polygon: edge.polygon,
        edge: edge.edge,
        begin,
        end,
        far,
    })
}

/// An edge of a polygon with its ends.
fn edge_of(polygon: &Polygon, at: PolyRef, edge: usize) -> PolygonEdge
    requires rules { IsPolygon polygon.now }
    requires there { edge < length polygon.now.corners }
    ensures named { (mesh : Mesh) → poly_at mesh at ≡ Some polygon.now → IsEdgeOf mesh result }
    ensures is_of { result.polygon ≡ at }
    ensures number { result.edge ≡ edge }
{
    let (begin, end) = edge_ends(polygon, edge);
    PolygonEdge {
        polygon: at,
        edge: edge as u32,
        begin,
        end,
    }
}

/// The polygon that a reference names.
fn polygon_at(mesh: &Mesh, at: PolyRef) -> Polygon
    requires sound { IsSound mesh.now }
    requires there { IsThere mesh.now at }
    ensures named { poly_at mesh.now at ≡ Some result }
    ensures rules { IsPolygon result }
{
    poly(mesh, at).unwrap()
}
