//! The polygon in which a kept path begins. Whether a polygon holds a place at a height.

ghost use Rattle.std.specs.Prelude.{◌≡◌, ◌↔◌, ◌<◌, ◌≤◌, ◌+◌, ◌*◌, IfSome, IfNone, IsTrue, length};
ghost use Rattle.nav_base.specs.Point.{HasCoordinates};
ghost use Rattle.nav_ground.specs.Limits.{IsSetting};
ghost use Rattle.mesh_types.specs.declared.links.PolyRef as references;
ghost use Rattle.mesh_types.specs.Located.{HoldsAt};
ghost use Rattle.mesh_types.specs.Soundness.{IsSound};
ghost use Rattle.kept_paths.specs.KeptPaths.{Begins, CanCheck, IsBeginning, gap_at};
ghost use Rattle.mesh_locate.specs.Places.{Reaches};
ghost use Rattle.kept_paths.specs.Beginnings.{IsNearestBefore, IsReached};

use crate::checks::KeptPath;
use crate::leads::leaves_through;
use mesh_types::{Mesh, PolyRef, Polygon, holds, poly};
use nav_base::Point;
use nav_ground::{Setting, TileNo};

/// The polygon in which a kept path begins; none exactly where it may begin in none.
pub(crate) fn beginning(mesh: &Mesh, path: &KeptPath) -> Option<PolyRef>
    requires sound { IsSound mesh.now }
    requires setting { IsSetting mesh.now.setting }
    requires path { CanCheck path.now }
    ensures some { IfSome result (λ at. IsBeginning mesh.now path.now at) }
    ensures none { IfNone result ((at : references.PolyRef) → Begins mesh.now path.now at → ⊥) }
{
    if begins(mesh, path, path.first) {
        return Some(path.first);
    }
    nearest(mesh, path)
}

/// Whether a kept path may begin in a polygon.
fn begins(mesh: &Mesh, path: &KeptPath, at: PolyRef) -> bool
    requires sound { IsSound mesh.now }
    requires path { CanCheck path.now }
    ensures { IsTrue result ↔ Begins mesh.now path.now at }
{
    match path.links.as_slice().first() {
        Some(kept) => leaves_through(mesh, at, kept) && holds_at(mesh, path.from, path.from_y, at),
        None => holds_at(mesh, path.from, path.from_y, at),
    }
}

/// Of the polygons in which a kept path may begin the nearest in height, and of equally near ones the first by tile and place. It is
/// looked for only where the path may not begin in the polygon that it names.
fn nearest(mesh: &Mesh, path: &KeptPath) -> Option<PolyRef>
    requires sound { IsSound mesh.now }
    requires setting { IsSetting mesh.now.setting }
    requires path { CanCheck path.now }
    ensures { IsNearestBefore mesh.now path.now (length mesh.now.tiles) 0 result }
{
    let mut best = None;
    for tile in 0..mesh.tiles.len() {
        if reaches(&mesh.setting, tile as TileNo, path.from) {
            best = nearest_in_tile(mesh, path, tile as TileNo, best);
        }
    }
    best
}

/// Whether the closed square of a tile reaches a point: no polygon of another tile holds it.
fn reaches(setting: &Setting, tile: TileNo, p: Point) -> bool
    requires { IsSetting setting.now }
    ensures { IsTrue result ↔ IsReached setting.now p tile }
{
    let row = setting.width.div_ceil(setting.tile);
    let side = 16 * setting.tile;
    reaches_along(p.x, side, tile % row) && reaches_along(p.z, side, tile / row)
}

/// The same along one axis, for the tile at a place, of tiles with a side in sixteenths.
fn reaches_along(at: i32, side: u32, place: u32) -> bool
    ensures { IsTrue result ↔ Reaches side place at }
{
    at >= 0 && is_within(at as u32, side, place)
}

/// The same of a coordinate that is not below 0.
fn is_within(at: u32, side: u32, place: u32) -> bool
    ensures { IsTrue result ↔ ((side * place ≤ at) × (at ≤ side * (place + 1))) }
{
    let begin = u64::from(side) * u64::from(place);
    begin <= u64::from(at) && u64::from(at) <= begin + u64::from(side)
}

/// What was found in the tiles before this one, or a nearer polygon of this tile.
fn nearest_in_tile(
    mesh: &Mesh,
    path: &KeptPath,
    tile: TileNo,
    best: Option<PolyRef>,
) -> Option<PolyRef>
    requires sound { IsSound mesh.now }
    requires path { CanCheck path.now }
    requires there { tile < length mesh.now.tiles }
    requires best { IsNearestBefore mesh.now path.now tile 0 best }
    ensures { IsNearestBefore mesh.now path.now (tile + 1) 0 result }
{
    let polygons = &mesh.tiles.at(tile as usize).get().polys;
    let mut nearest = best;
    for i in 0..polygons.len() {
        let at = PolyRef {
            tile,
            index: i as u32,
        };
        nearest = nearer(mesh, path, at, nearest);
    }
    nearest
}

/// What was found so far, or a polygon, if the path may begin there and it is nearer in height.
fn nearer(mesh: &Mesh, path: &KeptPath, at: PolyRef, best: Option<PolyRef>) -> Option<PolyRef>
    requires sound { IsSound mesh.now }
    requires path { CanCheck path.now }
    requires best { IsNearestBefore mesh.now path.now at.tile at.index best }
    ensures { IsNearestBefore mesh.now path.now at.tile (at.index + 1) result }
{
    if !begins(mesh, path, at) {
        return best;
    }
    let Some(near) = best else {
        return Some(at);
    };
    if gap_at(mesh, path.from_y, at) < gap_at(mesh, path.from_y, near) {
        return Some(at);
    }
    Some(near)
}

/// Whether a polygon holds a point at a height.
pub(crate) fn holds_at(mesh: &Mesh, p: Point, y: u32, at: PolyRef) -> bool
    requires sound { IsSound mesh.now }
    requires point { HasCoordinates p }
    ensures { IsTrue result ↔ HoldsAt mesh.now p y at }
{
    match poly(mesh, at) {
        Some(polygon) => height_gap(&polygon, y) <= mesh.setting.agent.climb && holds(&polygon, p),
        None => false,
    }
}

/// How far a height is outside the floors of a polygon of the mesh; 0 where there is none.
fn gap_at(mesh: &Mesh, y: u32, at: PolyRef) -> u32
    ensures { result ≡ gap_at mesh.now y at }
{
    match poly(mesh, at) {
        Some(polygon) => height_gap(&polygon, y),
        None => 0,
    }
}

/// How far a height is outside the floors of a polygon.
fn height_gap(polygon: &Polygon, y: u32) -> u32
    ensures { result ≡ Rattle.mesh_types.specs.Located.height_gap polygon.now y }
{
    let below = polygon.low.saturating_sub(y);
    let above = y.saturating_sub(polygon.high);
    below.max(above)
}
