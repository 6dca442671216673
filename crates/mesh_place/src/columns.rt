//! How far a column is from a point, and which columns lie under a coordinate.

ghost use Rattle.std.specs.Prelude.{◌≡◌, ◌<◌, ◌≤◌, ◌/◌, ◌-◌};
ghost use Rattle.nav_base.specs.Point.{HasCoordinates, IsCoordinate};
ghost use Rattle.mesh_types.specs.Places.{column_gap};
ghost use Rattle.mesh_place.specs.Columns.{column_out, columns_around, columns_touched, reach_ends, span_under};

use nav_base::Point;

/// Successive places along one axis, the last included.
#[derive(Clone, Copy)]
pub struct ColumnRange {
    pub first: u32,
    pub last: u32,
}

/// The coordinates within a reach, in sixteenths; 0 for those before the field.
#[derive(Clone, Copy)]
pub struct ReachEnds {
    pub low: u32,
    pub high: u32,
}

/// The square of how far a point lies outside the closed square of a column.
pub(crate) fn column_gap(x: u32, z: u32, p: Point) -> u64
    requires across { x ≤ 1024 }
    requires along { z ≤ 1024 }
    requires point { HasCoordinates p }
    ensures { result ≡ column_gap x z p }
{
    let across = out_across(x, p);
    let along = out_along(z, p);
    across * across + along * along
}

/// How far a point lies outside a column across, in sixteenths.
pub(crate) fn out_across(x: u32, p: Point) -> u64
    requires across { x ≤ 1024 }
    requires point { HasCoordinates p }
    ensures value { result ≡ column_out x p.x }
    ensures bound { result ≤ 100000 }
{
    u64::from(column_out(x, p.x))
}

/// How far a point lies outside a row of columns along, in sixteenths.
pub(crate) fn out_along(z: u32, p: Point) -> u64
    requires along { z ≤ 1024 }
    requires point { HasCoordinates p }
    ensures value { result ≡ column_out z p.z }
    ensures bound { result ≤ 100000 }
{
    u64::from(column_out(z, p.z))
}

/// How far a coordinate lies outside a column, in sixteenths.
fn column_out(place: u32, n: i32) -> u32
    requires place { place ≤ 1024 }
    requires coordinate { IsCoordinate n }
    ensures value { result ≡ column_out place n }
    ensures bound { result ≤ 100000 }
{
    let low = 16 * place as i32;
    let high = low + 16;
    if n < low {
        return (low - n).unsigned_abs();
    }
    if n > high {
        return (n - high).unsigned_abs();
    }
    0
}

/// The columns whose closed squares reach a coordinate, one or two; those of 0 where it lies before the field.
pub(crate) fn span_under(n: i32) -> ColumnRange
    ensures { result ≡ span_under n }
{
    let n = n.max(0).unsigned_abs();
    ColumnRange {
        first: n.saturating_sub(1) / 16,
        last: n / 16,
    }
}

/// The columns within a reach of a point.
pub(crate) fn columns_around(p: Point, reach: u32) -> ColumnRange
    requires point { HasCoordinates p }
    requires reach { reach < 262144 }
    ensures { result ≡ columns_around p.x reach }
{
    let low = (p.x - reach as i32).max(0).unsigned_abs();
    let high = (p.x + reach as i32).max(0).unsigned_abs();
    ColumnRange {
        first: low.saturating_sub(1) / 16,
        last: high / 16,
    }
}

/// The rows within a reach of a point.
pub(crate) fn rows_around(p: Point, reach: u32) -> ColumnRange
    requires point { HasCoordinates p }
    requires reach { reach < 262144 }
    ensures { result ≡ columns_around p.z reach }
{
    let low = (p.z - reach as i32).max(0).unsigned_abs();
    let high = (p.z + reach as i32).max(0).unsigned_abs();
    ColumnRange {
        first: low.saturating_sub(1) / 16,
        last: high / 16,
    }
}

/// The columns whose closed squares reach from a line between columns to another one.
pub(crate) fn columns_touched(low: i32, high: i32) -> ColumnRange
    ensures { result ≡ columns_touched low high }
{
    ColumnRange {
        first: low.unsigned_abs().saturating_sub(1),
        last: high.unsigned_abs(),
    }
}

/// The coordinates across within a reach of a point.
pub(crate) fn ends_across(p: Point, reach: u32) -> ReachEnds
    requires point { HasCoordinates p }
    requires reach { reach < 262144 }
    ensures value { result ≡ reach_ends p.x reach }
    ensures bound { result.high ≤ 1000000 }
{
    ReachEnds {
        low: (p.x - reach as i32).max(0).unsigned_abs(),
        high: (p.x + reach as i32).max(0).unsigned_abs(),
    }
}

/// The coordinates along within a reach of a point.
pub(crate) fn ends_along(p: Point, reach: u32) -> ReachEnds
    requires point { HasCoordinates p }
    requires reach { reach < 262144 }
    ensures value { result ≡ reach_ends p.z reach }
    ensures bound { result.high ≤ 1000000 }
{
    ReachEnds {
        low: (p.z - reach as i32).max(0).unsigned_abs(),
        high: (p.z + reach as i32).max(0).unsigned_abs(),
    }
}
