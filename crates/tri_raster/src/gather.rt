//! Bounds of heights, gathered in the columns of a row.
ghost use Rattle.std.specs.Prelude.{◌≡◌, ℕ, ◌+◌, ◌-◌, ◌*◌, ◌<◌, ◌≤◌, List, length, All};
ghost use Rattle.tri_raster.specs.declared.triangle.Tri.{Tri};
ghost use Rattle.tri_raster.specs.declared.triangle.Spot.{Spot};
ghost use Rattle.tri_raster.specs.declared.triangle.Mark.{Mark};
ghost use Rattle.tri_raster.specs.Spots.{IsSpotOf, IsSized};
ghost use Rattle.tri_raster.specs.Bounds.{bound_at, put_at, fresh, IsWider, StaysFilled, AreAbout, AreAboutCrossings, AreAboutBetween, IsMark, IsHeight};

use crate::triangle::{Bound, FRESH, Mark, Spot};

/// Makes the bounds of some columns fresh.
pub fn clear(bounds: &mut [Bound], first: u32, end: u32)
    requires { end ≤ length bounds.old }
    ensures fresh { (x : ℕ) → first ≤ x → x < end → bound_at bounds.new x ≡ fresh }
    ensures same { length bounds.new ≡ length bounds.old }
{
    for x in first..end {
        bounds[x as usize] = FRESH;
    }
}

/// Puts a height between two whole numbers into the bound of a column; there may be no such column.
fn put(bounds: &mut [Bound], x: u32, low: u32, high: u32)
    ensures { bounds.new ≡ put_at bounds.old x low high }
{
    let at = x as usize;
    if at < bounds.len() {
        let bound = bounds[at];
        bounds[at] = Bound {
            low: bound.low.min(low),
            high: bound.high.max(high),
        };
    }
}

/// Puts a spot's height into the columns that it lies in.
fn put_mark(bounds: &mut [Bound], mark: &Mark)
    requires { IsMark mark.now }
    ensures wider { IsWider bounds.old bounds.new }
    ensures filled { (tri : Tri) (z : ℕ) → IsSpotOf tri z mark.now.spot → StaysFilled tri z bounds.old bounds.new }
    ensures about { AreAbout mark.now.spot bounds.new }
{
    put(bounds, mark.column, mark.low, mark.high);
    if mark.end == mark.column && mark.column > 0 {
        put(bounds, mark.column - 1, mark.low, mark.high);
    }
}

/// Puts the heights where the segment between two spots crosses the lines between columns into the columns beside.
fn put_crossings(bounds: &mut [Bound], left: &Mark, right: &Mark)
    requires left { IsMark left.now }
    requires right { IsMark right.now }
    requires width { length bounds.old ≤ 1024 }
    ensures wider { IsWider bounds.old bounds.new }
    ensures filled { (tri : Tri) (z : ℕ) → IsSpotOf tri z left.now.spot → IsSpotOf tri z right.now.spot → StaysFilled tri z bounds.old bounds.new }
    ensures about { AreAboutCrossings left.now.spot right.now.spot bounds.new }
{
    let first = left.column + 1;
    let end = right.end.min(bounds.len() as u32 + 1);
    if end <= first {
        return;
    }
    let (mut low, mut high) = heights(left.spot, right.spot, first);
    put(bounds, first - 1, low, high);
    // Each column between two lines takes the heights of both at once.
    for line in first + 1..end {
        let (next_low, next_high) = heights(left.spot, right.spot, line);
        put(bounds, line - 1, low.min(next_low), high.max(next_high));
        low = next_low;
        high = next_high;
    }
    put(bounds, end - 1, low, high);
}

/// The height, down and up to whole numbers, where the segment between two spots crosses the line left of column `line`.
fn heights(left: Spot, right: Spot, line: u32) -> (u32, u32)
    requires first { IsSized left }
    requires second { IsSized right }
    requires before { left.x < 16 * line * left.n }
    requires behind { 16 * line * right.n < right.x }
    ensures { IsHeight left right line result.0 result.1 }
{
    let from = u64::from(right.x - 16 * line * right.n);
    let to = u64::from(16 * line * left.n - left.x);
    let scale = u64::from(right.x) * u64::from(left.n) - u64::from(left.x) * u64::from(right.n);
    let height = from * u64::from(left.y) + to * u64::from(right.y);
    ((height / scale) as u32, height.div_ceil(scale) as u32)
}

/// Puts the heights where the segment between two spots, whichever of them is left of the other, crosses lines.
fn put_between(bounds: &mut [Bound], a: &Mark, b: &Mark)
    requires first { IsMark a.now }
    requires second { IsMark b.now }
    requires width { length bounds.old ≤ 1024 }
    ensures wider { IsWider bounds.old bounds.new }
    ensures filled { (tri : Tri) (z : ℕ) → IsSpotOf tri z a.now.spot → IsSpotOf tri z b.now.spot → StaysFilled tri z bounds.old bounds.new }
    ensures about { AreAboutBetween a.now.spot b.now.spot bounds.new }
{
    if a.column < b.column {
        put_crossings(bounds, a, b);
    } else {
        put_crossings(bounds, b, a);
    }
}

/// Puts the heights where the segments between one spot and others cross lines.
fn put_from(bounds: &mut [Bound], mark: &Mark, others: &[Mark])
    requires mark { IsMark mark.now }
    requires others { All IsMark others.now }
    requires width { length bounds.old ≤ 1024 }
    ensures wider { IsWider bounds.old bounds.new }
    ensures filled { (tri : Tri) (z : ℕ) → IsSpotOf tri z mark.now.spot → All (λ (other : Mark). IsSpotOf tri z other.spot) others.now → StaysFilled tri z bounds.old bounds.new }
    ensures about { All (λ (other : Mark). AreAboutBetween mark.now.spot other.spot bounds.new) others.now }
{
    for other in others {
        put_between(bounds, mark, other);
    }
}

/// Puts all heights of a triangle's part in a row into the columns: those of its spots, and those where segments between them cross lines.
pub fn gather(bounds: &mut [Bound], marks: &[Mark])
    requires marks { All IsMark marks.now }
    requires width { length bounds.old ≤ 1024 }
    ensures wider { IsWider bounds.old bounds.new }
    ensures filled { (tri : Tri) (z : ℕ) → All (λ (mark : Mark). IsSpotOf tri z mark.spot) marks.now → StaysFilled tri z bounds.old bounds.new }
    ensures about { All (λ (mark : Mark). AreAbout mark.spot bounds.new) marks.now }
    ensures crossings { All (λ (left : Mark). All (λ (right : Mark). AreAboutCrossings left.spot right.spot bounds.new) marks.now) marks.now }
{
    for i in 0..marks.len() {
        put_mark(bounds, &marks[i]);
        put_from(bounds, &marks[i], &marks[..i]);
    }
}
