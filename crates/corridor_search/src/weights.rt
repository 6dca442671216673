//! Middles of polygons, and what links cost. What one link weighs. Roots of squares of distances, rounded up, without a division.

ghost use Rattle.std.specs.Prelude.{◌≡◌, ◌*◌, map, max, slice_index, slice_index_or, pos, ℕ, ◌≤ℤ◌, ◌+ℤ◌, ◌*ℤ◌, ◌≤◌, ◌<◌, IsTrue};
ghost use Rattle.nav_base.specs.Point.{IsInField};
ghost use Rattle.nav_base.specs.Distance.{distance_of};
ghost use Rattle.nav_ground.specs.Limits.{IsSetting, IsArea};
ghost use Rattle.mesh_types.specs.Extents.{extent_of};
ghost use Rattle.corridor_search.specs.Estimates.{IsBox, nowhere, middle_of, extent_at};
ghost use Rattle.mesh_types.specs.Corridors.{IsLinkOf, weight_of};
ghost use Rattle.mesh_types.specs.Soundness.{IsSound};
ghost use Rattle.nav_base.specs.Root.{IsLeastRoot, ceil_sqrt_of};

use mesh_types::{Extent, Link, Mesh, PolyRef, Polygons};
use nav_base::{Point, ceil_sqrt, square_distance};
use nav_ground::{AREAS, Setting};

/// Stands for the extent of no polygon.
const NOWHERE: Extent = Extent {
    low: Point { x: 0, z: 0 },
    high: Point { x: 0, z: 0 },
    area: 0,
};

/// The extent of the polygon that a reference names, in whole cells; where there is no such polygon, a box of no size at (0, 0), of area 0.
pub fn extent_at(mesh: &Mesh, at: PolyRef) -> Extent
    ensures { result ≡ extent_at mesh.now at }
{
    match mesh.tiles.get(at.tile as usize) {
        Some(tile) => extent_in(&tile.get().polys, at.index as usize),
        None => NOWHERE,
    }
}

/// The extent of the polygon at a place.
fn extent_in(polygons: &Polygons, place: usize) -> Extent
    ensures { result ≡ slice_index_or (map extent_of polygons.now) place nowhere }
{
    if place < polygons.len() {
        polygons.extent(place)
    } else {
        NOWHERE
    }
}

/// The middle of a polygon's box, in sixteenths of a cell.
pub fn middle(extent: Extent) -> Point
    requires { IsBox extent }
    ensures value { result ≡ middle_of extent }
    ensures in_field { IsInField result }
{
    Point {
        x: half_way(extent.low.x, extent.high.x),
        z: half_way(extent.low.z, extent.high.z),
    }
}

/// Half way between two coordinates of cells, in sixteenths.
fn half_way(least: i32, greatest: i32) -> i32
    requires least { (pos 0 ≤ℤ least) × (least ≤ℤ pos 1024) }
    requires greatest { (pos 0 ≤ℤ greatest) × (greatest ≤ℤ pos 1024) }
    ensures { result ≡ pos 8 *ℤ (least +ℤ greatest) }
{
    8 * (least + greatest)
}

/// The distance between two points, rounded up.
pub fn distance(from: Point, to: Point) -> u32
    requires from { IsInField from }
    requires to { IsInField to }
    ensures { result ≡ distance_of from to }
{
    root(square_distance(from, to))
}

/// The distance between two points, rounded up, or a number where that is greater; no root is taken where it is.
pub(crate) fn distance_or(from: Point, to: Point, other: u32) -> u32
    requires from { IsInField from }
    requires to { IsInField to }
    ensures { result ≡ max (distance_of from to) other }
{
    let square = square_distance(from, to);
    if square <= u64::from(other) * u64::from(other) {
        other
    } else {
        root(square).max(other)
    }
}

/// The distance between two points, rounded up, at a cost of each sixteenth of it; or a number where that is greater. No root is taken where
/// it is.
pub(crate) fn cost_or(from: Point, to: Point, cost: u32, other: u32) -> u64
    requires from { IsInField from }
    requires to { IsInField to }
    requires cost { 1 ≤ cost }
    ensures { result ≡ max (distance_of from to * cost) other }
{
    if cost == 1 {
        return u64::from(distance_or(from, to, other));
    }
    let distance = distance_or(from, to, other / cost);
    (u64::from(distance) * u64::from(cost)).max(u64::from(other))
}

/// The least of the costs of areas.
pub(crate) fn least_cost(setting: &Setting) -> u32
    requires { IsSetting setting.now }
    ensures some { 1 ≤ result }
    ensures few { result ≤ 1000 }
    ensures least { (area : ℕ) → IsArea area → result ≤ slice_index setting.now.costs area }
{
    let mut least = 1000;
    for area in 1..AREAS {
        least = setting.costs[area].min(least);
    }
    least
}

/// What a step costs from a point into a polygon with an extent: the distance to its middle, rounded up and at least 1, times the cost of its
/// area.
pub(crate) fn weight(setting: &Setting, from: Point, to: Extent) -> u64
    requires setting { IsSetting setting.now }
    requires from { IsInField from }
    requires to { IsBox to }
    requires area { IsArea to.area }
    ensures { result ≡ max 1 (distance_of from (middle_of to)) * slice_index setting.now.costs to.area }
{
    let length = distance(from, middle(to)).max(1);
    u64::from(length) * u64::from(setting.costs[to.area as usize])
}

/// What a link of a mesh costs a walk that takes it: the distance of the middles of its two polygons, in sixteenths of a cell and rounded up,
/// at least 1, times the cost of the area that it enters.
pub fn weight_over(mesh: &Mesh, link: &Link) -> u64
    requires sound { IsSound mesh.now }
    requires setting { IsSetting mesh.now.setting }
    requires link { IsLinkOf mesh.now link.now }
    ensures { result ≡ weight_of mesh.now link.now }
{
    let from = middle(extent_at(mesh, link.from));
    let entered = extent_at(mesh, link.to);
    weight(&mesh.setting, from, entered)
}

/// The least number whose square is at least `n`: nearly always the guess, which is tested.
pub(crate) fn root(n: u64) -> u32
    requires { n < 4294967296 }
    ensures { result ≡ ceil_sqrt_of n }
{
    if n == 0 {
        return 0;
    }
    let guess = guessed_root(n as u32);
    if is_least_root(n, guess) {
        guess
    } else {
        ceil_sqrt(n)
    }
}

// A guess at the least number whose square is at least `n`, of which nothing is promised. `n` is moved up by pairs of digits, so that one of
// its two highest digits is 1; between the roots that the table has for its eight highest digits and the next number, the root of `n` lies
// nearly on a line, and it is moved down by half as many digits. Where the square of that is too small, the root is one more.
fn guessed_root(n: u32) -> u32
    requires { 0 < n }
{
    let pairs = n.leading_zeros() / 2;
    let moved = n << (2 * pairs);
    let place = (moved >> 24) as usize;
    let low = ROOTS[place];
    let high = ROOTS[place + 1];
    let rest = (moved >> 8) & 65535;
    let part = high.wrapping_sub(low).wrapping_mul(rest) >> 16;
    let root = low.wrapping_add(part) >> (pairs + 4);
    if u64::from(root) * u64::from(root) < u64::from(n) {
        root.wrapping_add(1)
    } else {
        root
    }
}

// Whether a number is the least whose square is at least `n`.
fn is_least_root(n: u64, root: u32) -> bool
    ensures { IsTrue result → IsLeastRoot n root }
{
    let root = u64::from(root);
    n <= root * root && (root == 0 || (root - 1) * (root - 1) < n)
}

// The roots of the numbers up to 256, times 65536, rounded.
static ROOTS: [u32; 257] = [
    0, 65536, 92682, 113512, 131072, 146543, 160530, 173392, 185364, 196608, 207243, 217358,
    227023, 236293, 245213, 253820, 262144, 270212, 278046, 285665, 293086, 300324, 307391, 314300,
    321060, 327680, 334169, 340535, 346784, 352922, 358955, 364889, 370728, 376476, 382137, 387716,
    393216, 398640, 403991, 409272, 414486, 419635, 424722, 429748, 434717, 439629, 444487, 449292,
    454047, 458752, 463410, 468021, 472587, 477109, 481589, 486028, 490427, 494786, 499107, 503392,
    507640, 511853, 516031, 520176, 524288, 528368, 532417, 536435, 540424, 544383, 548314, 552216,
    556091, 559940, 563762, 567558, 571330, 575076, 578798, 582497, 586172, 589824, 593454, 597061,
    600647, 604212, 607756, 611279, 614782, 618265, 621729, 625174, 628599, 632006, 635395, 638766,
    642119, 645455, 648773, 652075, 655360, 658629, 661881, 665118, 668339, 671544, 674734, 677910,
    681070, 684216, 687347, 690465, 693568, 696657, 699733, 702795, 705844, 708880, 711903, 714913,
    717911, 720896, 723869, 726829, 729778, 732715, 735640, 738553, 741455, 744346, 747225, 750094,
    752951, 755798, 758634, 761460, 764275, 767079, 769874, 772658, 775432, 778197, 780952, 783697,
    786432, 789158, 791875, 794582, 797280, 799969, 802649, 805320, 807982, 810636, 813280, 815917,
    818544, 821164, 823775, 826378, 828972, 831559, 834137, 836708, 839270, 841825, 844372, 846912,
    849444, 851968, 854485, 856994, 859497, 861991, 864479, 866960, 869433, 871900, 874359, 876812,
    879258, 881697, 884129, 886555, 888974, 891386, 893792, 896191, 898584, 900971, 903351, 905726,
    908093, 910455, 912811, 915160, 917504, 919842, 922173, 924499, 926819, 929133, 931442, 933744,
    936041, 938333, 940619, 942899, 945174, 947443, 949707, 951965, 954219, 956466, 958709, 960946,
    963179, 965406, 967627, 969844, 972056, 974263, 976464, 978661, 980853, 983040, 985222, 987399,
    989572, 991740, 993903, 996061, 998215, 1000364, 1002508, 1004648, 1006783, 1008914, 1011040,
    1013162, 1015279, 1017392, 1019501, 1021605, 1023705, 1025801, 1027892, 1029979, 1032062,
    1034141, 1036215, 1038286, 1040352, 1042414, 1044472, 1046526, 1048576,
];
