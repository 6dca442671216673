//! The place that a draw names.

ghost use Rattle.std.specs.Prelude.{◌≡◌, ◌↔◌, ◌<◌, ◌*◌, ◌/◌, ◌^◌, IsTrue, IfSome, All, length, slice_get, Some};
ghost use Rattle.nav_base.specs.Point.{HasCoordinates};
ghost use Rattle.nav_ground.specs.Limits.{IsSetting};
ghost use Rattle.mesh_types.specs.FitTiles.{IsPolygon};
ghost use Rattle.mesh_types.specs.Soundness.{IsSound};
ghost use Rattle.mesh_locate.specs.Nearest.{IsInBox};
ghost use Rattle.random_place.specs.Spots.{IsInField};
ghost use Rattle.random_place.specs.Sums.{AreSpotSums};
ghost use Rattle.random_place.specs.Draws.{IsAnswerAt, IsFirstOver, IsOverIn, IsRightDraw, TellsStanding, middle_of};

use crate::counts::count_spots;
use crate::spots::{StoreyCell, spot_at};
use crate::sums::{SpotSums, spot_by_sums, sum_of_first, sum_spots};
use mesh_types::{Asked, Extent, Mesh, MeshPlace, PolyRef, TileMesh, holds};
use nav_base::Point;
use std::alloc::{AllocError, Global};

/// How many draws there are.
const DRAWS: u128 = 1 << 64;

/// The question for the place that a number draws. Numbers that are uniform in 64 bits draw cells as uniformly as can be.
#[derive(Clone, Copy, PartialEq, Eq)]
pub struct DrawPlace {
    /// Bit a, from 0 for the lowest: cells of area a are drawn.
    pub areas: u64,
    pub draw: u64,
}

/// What the question for the place that a number draws is answered.
#[derive(Clone, Copy, PartialEq, Eq, Drop)]
pub enum DrawAnswer {
    Drawn(MeshPlace),
    /// No polygon holds the middle of the cell that was drawn.
    Cut,
    /// No cell has an open area.
    Nowhere,
}

impl Asked for DrawPlace {
    ghost use Rattle.random_place.specs.Draws.{IsRightDraw};

    type Answer = DrawAnswer;

    ghost can_ask = { λ asked. Unit {0} };

    ghost is_right = { λ asked mesh answer. IsRightDraw mesh asked answer };

    fn ask(&self, _alloc: Global, mesh: &Mesh) -> Result<DrawAnswer, AllocError> {
        Ok(draw_place(mesh, *self))
    }
}

/// The place that a number draws.
pub fn draw_place(mesh: &Mesh, asked: DrawPlace) -> DrawAnswer
    requires sound { IsSound mesh.now }
    requires setting { IsSetting mesh.now.setting }
    ensures right { IsRightDraw mesh.now asked result }
    ensures place { TellsStanding mesh.now result }

    // It is the only right answer.
    ensures only { (other : DrawAnswer) → IsRightDraw mesh.now asked other → other ≡ result }
{
    right_answer(mesh, asked)
}

/// The same, by sums of the mesh that are kept for the next draw of the same areas. They are made where there are none of these areas; where
/// memory for them is refused, none are kept, and the spots are counted.
pub fn draw_place_in(
    alloc: Global,
    mesh: &Mesh,
    kept: &mut Option<SpotSums>,
    asked: DrawPlace,
) -> DrawAnswer
    requires sound { IsSound mesh.now }
    requires setting { IsSetting mesh.now.setting }
    requires kept { IfSome kept.old (AreSpotSums mesh.now) }
    ensures right { IsRightDraw mesh.now asked result }
    ensures place { TellsStanding mesh.now result }
    ensures only { (other : DrawAnswer) → IsRightDraw mesh.now asked other → other ≡ result }
    ensures kept { IfSome kept.new (AreSpotSums mesh.now) }
{
    keep_sums(alloc, mesh, kept, asked.areas);
    answer_by(mesh, kept, asked)
}

/// Keeps sums of some areas. Where memory is refused, none are kept.
fn keep_sums(alloc: Global, mesh: &Mesh, kept: &mut Option<SpotSums>, areas: u64)
    requires sound { IsSound mesh.now }
    requires setting { IsSetting mesh.now.setting }
    requires kept { IfSome kept.old (AreSpotSums mesh.now) }
    ensures { IfSome kept.new (AreSpotSums mesh.now) }
{
    if !are_of(kept, areas) {
        *kept = sum_spots(alloc, mesh, areas).ok();
    }
}

/// Whether there are sums of some areas.
fn are_of(kept: &Option<SpotSums>, areas: u64) -> bool {
    match kept {
        Some(sums) => sums.areas == areas,
        None => false,
    }
}

/// The right answer, by sums where there are some of its areas.
fn answer_by(mesh: &Mesh, kept: &Option<SpotSums>, asked: DrawPlace) -> DrawAnswer
    requires sound { IsSound mesh.now }
    requires setting { IsSetting mesh.now.setting }
    requires kept { IfSome kept.now (AreSpotSums mesh.now) }
    ensures { IsRightDraw mesh.now asked result }
{
    match kept {
        Some(sums) if sums.areas == asked.areas => answer_by_sums(mesh, sums, asked),
        _ => right_answer(mesh, asked),
    }
}

/// The right answer, by sums of its areas.
fn answer_by_sums(mesh: &Mesh, sums: &SpotSums, asked: DrawPlace) -> DrawAnswer
    requires sound { IsSound mesh.now }
    requires setting { IsSetting mesh.now.setting }
    requires sums { AreSpotSums mesh.now sums.now }
    requires areas { sums.now.areas ≡ asked.areas }
    ensures { IsRightDraw mesh.now asked result }
{
    let ends = sums.ends.as_slice();
    let number = spot_number(asked.draw, sum_of_first(ends, ends.len()));
    match spot_by_sums(mesh, sums, number) {
        Some(spot) => over_spot(mesh, &spot),
        None => DrawAnswer::Nowhere,
    }
}

/// The right answer, where the spots are counted.
fn right_answer(mesh: &Mesh, asked: DrawPlace) -> DrawAnswer
    requires sound { IsSound mesh.now }
    requires setting { IsSetting mesh.now.setting }
    ensures { IsRightDraw mesh.now asked result }
{
    let number = spot_number(asked.draw, count_spots(mesh, asked.areas));
    match spot_at(mesh, asked.areas, number) {
        Some(spot) => over_spot(mesh, &spot),
        None => DrawAnswer::Nowhere,
    }
}

/// The number of the spot that a draw names of so many. The product may take more than 128 bits, so that it is made of two.
fn spot_number(draw: u64, count: u128) -> u128
    requires { count < 2 ^ 112 }
    ensures value { result ≡ draw * count / 2 ^ 64 }
    ensures below { 0 < count → result < count }
{
    let draw = u128::from(draw);
    draw * (count / DRAWS) + draw * (count % DRAWS) / DRAWS
}

/// The place over a spot, in the first polygon of its storey that holds its middle.
fn over_spot(mesh: &Mesh, spot: &StoreyCell) -> DrawAnswer
    requires sound { IsSound mesh.now }
    requires inside { IsInField spot.now }
    ensures { IsAnswerAt mesh.now spot.now result }
{
    match polygon_over(mesh, spot) {
        Some(polygon) => DrawAnswer::Drawn(MeshPlace {
            polygon,
            point: middle(spot),
            y: spot.floor,
        }),
        None => DrawAnswer::Cut,
    }
}

/// The first polygon over a spot; none where there is none.
fn polygon_over(mesh: &Mesh, spot: &StoreyCell) -> Option<PolyRef>
    requires sound { IsSound mesh.now }
    requires inside { IsInField spot.now }
    ensures { IsFirstOver mesh.now spot.now result }
{
    let tile = mesh.tiles.get(spot.tile as usize)?.get();
    for index in 0..tile.polys.len() {
        if is_over(tile, index, spot) {
            return Some(PolyRef {
                tile: spot.tile,
                index: index as u32,
            });
        }
    }
    None
}

/// Whether a polygon of a tile is of a spot's storey and holds its middle. Most are passed over by their boxes.
fn is_over(tile: &TileMesh, index: usize, spot: &StoreyCell) -> bool
    requires polygons { All IsPolygon tile.now.polys }
    requires there { index < length tile.now.polys }
    requires inside { IsInField spot.now }
    ensures { IsTrue result ↔ IsOverIn tile.now index spot.now }
{
    if !is_home(tile, index, spot.storey) {
        return false;
    }
    if !is_in_box(tile.polys.extent(index), spot) {
        return false;
    }
    holds(&tile.polys.at(index), middle(spot))
}

/// Whether a storey is that of a polygon of a tile.
fn is_home(tile: &TileMesh, index: usize, storey: usize) -> bool
    ensures { IsTrue result ↔ (slice_get tile.now.storeys.homes index ≡ Some storey) }
{
    match tile.storeys.homes().get(index) {
        Some(home) => *home as usize == storey,
        None => false,
    }
}

/// Whether a spot's cell lies in a box of whole cells.
fn is_in_box(extent: Extent, spot: &StoreyCell) -> bool
    requires { IsInField spot.now }
    ensures { IsInBox extent (middle_of spot.now) → IsTrue result }
{
    let x = spot.x as i32;
    let z = spot.z as i32;
    extent.low.x <= x && x < extent.high.x && extent.low.z <= z && z < extent.high.z
}

/// The middle of a spot's cell.
fn middle(spot: &StoreyCell) -> Point
    requires { IsInField spot.now }
    ensures value { result ≡ middle_of spot.now }
    ensures reach { HasCoordinates result }
{
    Point {
        x: 16 * spot.x as i32 + 8,
        z: 16 * spot.z as i32 + 8,
    }
}
