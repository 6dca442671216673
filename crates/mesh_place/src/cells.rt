//! The places over a cell of a polygon's storey: the nearest of them is at the cell's point that is nearest to what is asked, or else,
//! where the polygon does not hold that point, on one of the lines of whole points over the cell.

ghost use Rattle.std.specs.Prelude.{◌≡◌, ◌↔◌, ℕ, ◌<◌, ◌≤◌, ◌+◌, ◌*◌, ◌-ℤ◌, ◌*ℤ◌, ◌≤ℤ◌, All, IsTrue, pos};
ghost use Rattle.nav_base.specs.declared.point.Point.{Point};
ghost use Rattle.nav_base.specs.Point.{HasCoordinates, IsCellCorner, orient_of};
ghost use Rattle.mesh_types.specs.Located.{Holds};
ghost use Rattle.mesh_types.specs.Places.{column_gap};
ghost use Rattle.mesh_types.specs.Soundness.{IsSound};
ghost use Rattle.mesh_place.specs.Nearest.{CanAskNear};
ghost use Rattle.mesh_place.specs.Bounds.{IsBeyond, IsNearTo, height_part};
ghost use Rattle.mesh_place.specs.Floors.{height_off};
ghost use Rattle.mesh_place.specs.Lines.{IsInSpan, IsNearestOf, IsSpan};
ghost use Rattle.mesh_place.specs.Searches.{IsFound, IsFoundNear, IsHeightNear, IsPart, IsCellOf, IsSearch, IsWithin};
ghost use Rattle.mesh_place.specs.Searches.{IsNotBefore, IsOverCell, IsOnLine, IsHeldOnLine, IsRowLimit, columns_of, rows_of};

use crate::bounds::reach_left;
use crate::columns::{ends_along, out_across};
use crate::floors::height_off;
use crate::lines::{LineSpan, held_part, nearest_across, nearest_along, point_on};
use crate::near::{Near, comes_before, height_part, square_distance};
use crate::storey_scan::{NearSearch, PolygonPart};
use mesh_types::{Mesh, MeshPlace, Polygon, edge_ends, holds};
use nav_base::{Point, orient};

/// A cell of the storey of a polygon, with its floor.
#[derive(Clone, Copy)]
pub struct NearCell {
    pub x: u32,
    pub z: u32,
    pub y: u32,
}

/// What the cells of a row are measured against before they are looked at.
#[derive(Clone, Copy)]
pub struct RowLimit {
    /// What was found before the row.
    pub earlier: Option<MeshPlace>,
    /// Its measure; the greatest number where there is none.
    pub most: u64,
    /// The square of how far the row is from the point, along z.
    pub aside: u64,
}

/// What was found, or a nearer place over a cell. Most cells are passed over by what was found before their row, whose measure is less than
/// that of any place over them.
pub(crate) fn in_near_cell(
    mesh: &Mesh,
    part: &PolygonPart,
    cell: NearCell,
    search: &NearSearch,
    limit: &RowLimit,
    best: Option<MeshPlace>,
) -> Option<MeshPlace>
    requires sound { IsSound mesh.now }
    requires part { IsPart mesh.now search.now.asked part.now }
    requires cell { IsCellOf mesh.now part.now cell }
    requires search { IsSearch search.now }
    requires limit { IsRowLimit mesh.now.setting.agent.climb search.now.asked cell.z limit.now }
    requires earlier { IsFound mesh.now search.now.asked limit.now.earlier }
    requires best { IsFound mesh.now search.now.asked best }
    requires kept { (other : MeshPlace) → IsNotBefore mesh.now.setting.agent.climb search.now.asked other limit.now.earlier
        → IsNotBefore mesh.now.setting.agent.climb search.now.asked other best }
    ensures { IsFoundNear mesh.now search.now best result (IsOverCell part.now cell) }
{
    if !is_height_near(&search.asked, cell.y) {
        return best;
    }
    if is_cell_beyond(mesh.setting.agent.climb, &search.asked, cell, limit) {
        return best;
    }
    in_cell(mesh, part, cell, search, best)
}

/// Whether all places over a cell have a greater measure than what was found before its row.
fn is_cell_beyond(climb: u32, asked: &Near, cell: NearCell, limit: &RowLimit) -> bool
    requires asked { CanAskNear asked.now }
    requires across { cell.x < 1024 }
    requires near { IsHeightNear asked.now cell.y }
    requires limit { IsRowLimit climb asked.now cell.z limit.now }
    ensures { IsTrue result → IsBeyond climb asked.now (column_gap cell.x cell.z asked.now.point)
        (height_part climb asked.now (height_off asked.now.y cell.y)) limit.now.earlier }
{
    let across = out_across(cell.x, asked.point);
    let gap = across * across + limit.aside;
    let high = height_part(climb, asked, height_off(asked.y, cell.y));
    limit.most < gap + high
}

/// What was found, or a nearer place over a cell.
fn in_cell(
    mesh: &Mesh,
    part: &PolygonPart,
    cell: NearCell,
    search: &NearSearch,
    best: Option<MeshPlace>,
) -> Option<MeshPlace>
    requires sound { IsSound mesh.now }
    requires part { IsPart mesh.now search.now.asked part.now }
    requires cell { IsCellOf mesh.now part.now cell }
    requires search { IsSearch search.now }
    requires best { IsFound mesh.now search.now.asked best }
    ensures { IsFoundNear mesh.now search.now best result (IsOverCell part.now cell) }
{
    if !is_height_near(&search.asked, cell.y) {
        return best;
    }
    let point = nearest_over(cell, search.asked.point);
    if !is_within(search, point) {
        return best;
    }
    let place = MeshPlace {
        polygon: part.at,
        point,
        y: cell.y,
    };
    if !comes_before(mesh.setting.agent.climb, &search.asked, place, best) {
        return best;
    }
    if holds(&part.polygon, point) {
        return Some(place);
    }
    if is_cell_right(&part.polygon, cell) {
        return best;
    }
    in_lines(mesh, part, cell, search, best)
}

/// What was found, or a nearer place over a cell, on one of the lines that are near enough for it.
fn in_lines(
    mesh: &Mesh,
    part: &PolygonPart,
    cell: NearCell,
    search: &NearSearch,
    best: Option<MeshPlace>,
) -> Option<MeshPlace>
    requires sound { IsSound mesh.now }
    requires part { IsPart mesh.now search.now.asked part.now }
    requires cell { IsCellOf mesh.now part.now cell }
    requires near { IsHeightNear search.now.asked cell.y }
    requires search { IsSearch search.now }
    requires best { IsFound mesh.now search.now.asked best }
    ensures { IsFoundNear mesh.now search.now best result (IsOverCell part.now cell) }
{
    let asked = &search.asked;
    let climb = mesh.setting.agent.climb;
    let high = height_part(climb, asked, height_off(asked.y, cell.y));
    let reach = reach_left(climb, asked, high, best);
    in_near_lines(mesh, part, cell, reach, search, best)
}

/// The same of the places within a reach, line by line.
fn in_near_lines(
    mesh: &Mesh,
    part: &PolygonPart,
    cell: NearCell,
    reach: u32,
    search: &NearSearch,
    best: Option<MeshPlace>,
) -> Option<MeshPlace>
    requires sound { IsSound mesh.now }
    requires part { IsPart mesh.now search.now.asked part.now }
    requires cell { IsCellOf mesh.now part.now cell }
    requires near { IsHeightNear search.now.asked cell.y }
    requires reach { reach ≤ search.now.asked.reach }
    requires search { IsSearch search.now }
    requires best { IsFound mesh.now search.now.asked best }
    ensures { IsFoundNear mesh.now search.now best result (λ place. IsOverCell part.now cell place × IsNearTo search.now.asked reach place) }
{
    let ends = ends_along(search.asked.point, reach);
    let end = (16 * cell.z + 17).min(ends.high + 1);
    let first = (16 * cell.z).max(ends.low).min(end);
    let mut nearest = best;
    for z in first..end {
        nearest = in_line(mesh, part, cell, z, search, nearest);
    }
    nearest
}

/// What was found, or a nearer place on a line over a cell. Most lines are passed over by the cell's point on it that is nearest to what
/// is asked.
fn in_line(
    mesh: &Mesh,
    part: &PolygonPart,
    cell: NearCell,
    z: u32,
    search: &NearSearch,
    best: Option<MeshPlace>,
) -> Option<MeshPlace>
    requires sound { IsSound mesh.now }
    requires part { IsPart mesh.now search.now.asked part.now }
    requires cell { IsCellOf mesh.now part.now cell }
    requires near { IsHeightNear search.now.asked cell.y }
    requires above { 16 * cell.z ≤ z }
    requires below { z ≤ 16 * cell.z + 16 }
    requires search { IsSearch search.now }
    requires best { IsFound mesh.now search.now.asked best }
    ensures { IsFoundNear mesh.now search.now best result (IsOnLine part.now cell (pos z)) }
{
    let span = columns_of(cell);
    let near = nearest_across(span, search.asked.point);
    let point = point_on(near, z);
    if !is_within(search, point) {
        return best;
    }
    let place = MeshPlace {
        polygon: part.at,
        point,
        y: cell.y,
    };
    if !comes_before(mesh.setting.agent.climb, &search.asked, place, best) {
        return best;
    }
    let Some(held) = held_part(&part.polygon, span, z) else {
        return best;
    };
    let x = nearest_across(held, search.asked.point);
    at_held(mesh, part, cell, point_on(x, z), search, best)
}

/// What was found, or the place over a cell at the nearest point of its line that the polygon holds, if it is nearer.
fn at_held(
    mesh: &Mesh,
    part: &PolygonPart,
    cell: NearCell,
    point: Point,
    search: &NearSearch,
    best: Option<MeshPlace>,
) -> Option<MeshPlace>
    requires sound { IsSound mesh.now }
    requires part { IsPart mesh.now search.now.asked part.now }
    requires cell { IsCellOf mesh.now part.now cell }
    requires near { IsHeightNear search.now.asked cell.y }
    requires point { HasCoordinates point }
    requires held { IsHeldOnLine part.now cell point.z point }
    requires nearest { IsNearestOf (IsHeldOnLine part.now cell point.z) search.now.asked.point point }
    requires search { IsSearch search.now }
    requires best { IsFound mesh.now search.now.asked best }
    ensures { IsFoundNear mesh.now search.now best result (IsOnLine part.now cell point.z) }
{
    if !is_within(search, point) {
        return best;
    }
    let place = MeshPlace {
        polygon: part.at,
        point,
        y: cell.y,
    };
    if !comes_before(mesh.setting.agent.climb, &search.asked, place, best) {
        return best;
    }
    Some(place)
}

/// Whether all points over a cell lie to the right of an edge of a polygon, which then holds none of them.
fn is_cell_right(polygon: &Polygon, cell: NearCell) -> bool
    requires corners { All IsCellCorner polygon.now.corners }
    requires across { cell.x < 1024 }
    requires along { cell.z < 1024 }
    ensures { IsTrue result → (q : Point) → 0 ≡ column_gap cell.x cell.z q → Holds polygon.now q → ⊥ }
{
    for edge in 0..polygon.corners.as_slice().len() {
        let (begin, end) = edge_ends(polygon, edge);
        if orient(begin, end, leftmost_over(cell, begin, end)) < 0 {
            return true;
        }
    }
    false
}

/// The point over a cell that lies farthest to the left of a line.
fn leftmost_over(cell: NearCell, begin: Point, end: Point) -> Point
    requires across { cell.x < 1024 }
    requires along { cell.z < 1024 }
    requires begin { HasCoordinates begin }
    requires end { HasCoordinates end }
    ensures coordinates { HasCoordinates result }
    ensures left { (q : Point) → 0 ≡ column_gap cell.x cell.z q → orient_of begin end q ≤ℤ orient_of begin end result }
{
    point_on(
        far_end(columns_of(cell), begin.z - end.z),
        far_end(rows_of(cell), end.x - begin.x),
    )
}

/// The end of a span that lies farther on a way along its line: the last where the way leads upward.
fn far_end(span: LineSpan, way: i32) -> u32
    requires { IsSpan span }
    ensures inside { IsInSpan span result }
    ensures far { (m : ℕ) → IsInSpan span m → pos 0 ≤ℤ (way *ℤ (pos result -ℤ pos m)) }
{
    if way > 0 { span.last } else { span.first }
}

/// Whether a floor is in reach in height.
fn is_height_near(asked: &Near, y: u32) -> bool
    requires asked { CanAskNear asked.now }
    requires floor { y ≤ 8191 }
    ensures { IsTrue result ↔ IsHeightNear asked.now y }
{
    asked.y <= y + asked.down && u64::from(y) <= u64::from(asked.y) + u64::from(asked.up)
}

/// Whether a point is as near as places are looked for.
fn is_within(search: &NearSearch, point: Point) -> bool
    requires search { IsSearch search.now }
    requires point { HasCoordinates point }
    ensures { IsTrue result ↔ IsWithin search.now point }
{
    square_distance(search.asked.point, point) <= u64::from(search.reach) * u64::from(search.reach)
}

/// The point over a cell that is nearest to a point.
fn nearest_over(cell: NearCell, p: Point) -> Point
    requires across { cell.x < 1024 }
    requires along { cell.z < 1024 }
    requires point { HasCoordinates p }
    ensures coordinates { HasCoordinates result }
    ensures over { 0 ≡ column_gap cell.x cell.z result }
    ensures nearest { IsNearestOf (λ q. 0 ≡ column_gap cell.x cell.z q) p result }
{
    point_on(
        nearest_across(columns_of(cell), p),
        nearest_along(rows_of(cell), p),
    )
}

/// The places along x over a cell.
fn columns_of(cell: NearCell) -> LineSpan
    requires { cell.x < 1024 }
    ensures value { result ≡ columns_of cell }
    ensures span { IsSpan result }
{
    LineSpan {
        first: 16 * cell.x,
        last: 16 * cell.x + 16,
    }
}

/// The places along z over a cell.
fn rows_of(cell: NearCell) -> LineSpan
    requires { cell.z < 1024 }
    ensures value { result ≡ rows_of cell }
    ensures span { IsSpan result }
{
    LineSpan {
        first: 16 * cell.z,
        last: 16 * cell.z + 16,
    }
}
