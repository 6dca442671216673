//! The groups of a column's shadows, and their spans.
ghost use Rattle.std.specs.Prelude.{◌≡◌, ◌<◌, ◌≤◌, length, All, Any};
ghost use Rattle.std.specs.List.Sorted.{IsNonDecreasingBy};
ghost use Rattle.tri_raster.specs.declared.triangle.Shadow.{Shadow};
ghost use Rattle.tri_raster.specs.Columns.{IsUpright, IsLimited, IsFirstGroup, IsNear, IsTopArea};
ghost use Rattle.tri_raster.specs.Sweeps.{HasPushed};

use crate::Shadow;
use crate::column::Column;
use crate::text::RasterRefusal;
use nav_ground::{PackedSpan, Span};

/// The most spans that a field can have.
const MAX_SPANS: usize = 2000000;

/// How many shadows at the front are of one group, and their greatest top: each but the first begins at most at the greatest top of those before.
fn first_group(shadows: &[Shadow]) -> (usize, u32)
    requires some { 0 < length shadows.now }
    requires upright { All IsUpright shadows.now }
    requires order { IsNonDecreasingBy (λ (shadow : Shadow). shadow.bottom) shadows.now }
    ensures { IsFirstGroup shadows.now result.0 result.1 }
{
    let mut top = shadows[0].top;
    for (place, shadow) in shadows.iter().enumerate() {
        if top < shadow.bottom {
            return (place, top);
        }
        top = top.max(shadow.top);
    }
    (shadows.len(), top)
}

/// The greatest area of the shadows whose top is at most the climb below the group's.
fn area_of(group: &[Shadow], top: u32, climb: u32) -> u32
    requires { Any (IsNear climb top) group.now }
    ensures { IsTopArea climb top group.now result }
{
    let least = top.saturating_sub(climb);
    let mut area: u32 = 0;
    for shadow in group {
        if least <= shadow.top {
            area = area.max(shadow.area);
        }
    }
    area
}

/// Appends the spans of a column's groups, from the bottom up.
pub(crate) fn push_spans(
    column: &mut Column,
    climb: u32,
    x: u32,
    z: u32,
    spans: &mut Vec<PackedSpan>,
) -> Result<(), RasterRefusal>
    requires column { (x < 1024) × (z < 1024) }
    requires upright { All IsUpright column.old }
    requires limited { All IsLimited column.old }
    requires few { length spans.old.items ≤ 2000000 }
    ensures { HasPushed climb x z column.old spans.old.items spans.new.items result }
{
    column.sort();
    push_groups(column.as_slice(), climb, x, z, spans)
}

/// Appends the spans of the groups of shadows that stand by their bottoms.
fn push_groups(
    shadows: &[Shadow],
    climb: u32,
    x: u32,
    z: u32,
    spans: &mut Vec<PackedSpan>,
) -> Result<(), RasterRefusal>
    requires column { (x < 1024) × (z < 1024) }
    requires upright { All IsUpright shadows.now }
    requires limited { All IsLimited shadows.now }
    requires order { IsNonDecreasingBy (λ (shadow : Shadow). shadow.bottom) shadows.now }
    requires few { length spans.old.items ≤ 2000000 }
    ensures { HasPushed climb x z shadows.now spans.old.items spans.new.items result }
{
    let mut rest = shadows;
    while !rest.is_empty() {
        let (count, top) = first_group(rest);
        let bottom = rest[0].bottom;
        let (group, behind) = rest.split_at(count);
        let span = Span {
            x,
            z,
            bottom,
            top,
            area: area_of(group, top, climb),
        };
        if spans.len() == MAX_SPANS {
            return Err(RasterRefusal::TooManySpans);
        }
        spans.push(PackedSpan::new(&span))?;
        rest = behind;
    }
    Ok(())
}
