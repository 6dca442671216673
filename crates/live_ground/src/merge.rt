//! The spans of a field with other ones in the columns of a rectangle, in order.

ghost use Rattle.std.specs.Prelude.{◌≡◌, ◌≤◌, ◌<◌, ◌≤ℤ◌, ◌&&◌, ◌+◌, ◌∷◌, List, All, AllPairs, IfOk, drop, false, int_le, length, pos, take};
ghost use Rattle.nav_ground.specs.declared.field.Span.{Span};
ghost use Rattle.nav_ground.specs.Fields.{IsSpanBefore};
ghost use Rattle.nav_ground.specs.Tiling.{is_in_window, IsInWindow};
ghost use Rattle.layer_cut.specs.Nearby.{spans_in};
ghost use Rattle.live_ground.specs.Changes.{spans_outside};
ghost use Rattle.live_ground.specs.Merging;
ghost use Rattle.live_ground.specs.Merging.{ArePlacesOfRows, IsMerged};

use nav_ground::{PackedSpan, Window};
use std::alloc::{AllocError, Global};

/// Where the spans in the rows of a rectangle stand in a field, from a first one up to an end, and how many of the field's spans stand outside
/// the rectangle.
#[derive(Clone, Copy)]
pub(crate) struct RowSpans {
    pub(crate) first: usize,
    pub(crate) end: usize,
    pub(crate) outside: usize,
}

/// Where the spans in the rows of a rectangle stand. Only those are looked at one by one.
pub(crate) fn row_spans(spans: &[PackedSpan], window: Window) -> RowSpans
    requires order { AllPairs IsSpanBefore spans.now }
    requires few { length spans.now ≤ 2000000 }
    requires least { pos 0 ≤ℤ window.z0 }
    requires rows { window.z0 ≤ℤ window.z1 }
    ensures places { ArePlacesOfRows window spans.now result.first result.end }
    ensures outside { result.outside ≡ length (spans_outside window spans.now) }
{
    let first = spans_before(spans, window.z0 as u32);
    let end = spans_before(spans, window.z1 as u32 + 1);
    RowSpans {
        first,
        end,
        outside: outside_of(spans, window, first, end),
    }
}

/// The spans outside a rectangle and the new ones, which stand in it, in one order. Those of other rows are copied as they stand.
pub(crate) fn merged(
    alloc: Global,
    old: &[PackedSpan],
    rows: RowSpans,
    window: Window,
    news: &[PackedSpan],
) -> Result<Vec<PackedSpan>, AllocError>
    requires old_order { AllPairs IsSpanBefore old.now }
    requires few { rows.outside + length news.now ≤ 2000000 }
    requires rows { ArePlacesOfRows window old.now rows.first rows.end }
    requires inside { All (λ (span : Span). IsInWindow window span.x span.z) news.now }
    requires order { AllPairs IsSpanBefore news.now }
    ensures inside { IfOk result (λ made. spans_in window made.items ≡ news.now) }
    ensures outside { IfOk result (λ made. spans_outside window made.items ≡ spans_outside window old.now) }
    ensures order { IfOk result (λ made. AllPairs IsSpanBefore made.items) }
{
    let mut made = Vec::with_capacity(alloc, rows.outside + news.len())?;
    made.extend_from_slice(&old[..rows.first])?;
    let mut next = 0;
    for i in rows.first..rows.end {
        next = put_next(&mut made, window, news, next, &old[i])?;
    }
    made.extend_from_slice(&news[next..])?;
    made.extend_from_slice(&old[rows.end..])?;
    Ok(made)
}

/// Puts the next span of the field behind those that are there, after the new ones of earlier columns, and gives how many new ones are there then.
/// One inside the rectangle is left out.
fn put_next(
    made: &mut Vec<PackedSpan>,
    window: Window,
    news: &[PackedSpan],
    next: usize,
    span: &PackedSpan,
) -> Result<usize, AllocError>
    requires { next ≤ length news.now }
    ensures most { IfOk result (λ upto. upto ≤ length news.now) }
    ensures merged { (old left : List Span) → IsMerged window old news.now made.old.items (span.now ∷ left) (drop next news.now)
        → IfOk result (λ upto. IsMerged window old news.now made.new.items left (drop upto news.now)) }
{
    if is_in(window, span) {
        return Ok(next);
    }
    let upto = put_earlier(made, window, news, next, span)?;
    made.push(*span)?;
    Ok(upto)
}

/// Puts the new spans of columns before that of a span of the field, which is outside the rectangle, behind those that are there, and gives how
/// many new ones are there then.
fn put_earlier(
    made: &mut Vec<PackedSpan>,
    window: Window,
    news: &[PackedSpan],
    next: usize,
    span: &PackedSpan,
) -> Result<usize, AllocError>
    requires next { next ≤ length news.now }
    requires outside { is_in_window window span.now.x span.now.z ≡ false }
    ensures most { IfOk result (λ upto. upto ≤ length news.now) }
    ensures merged { (old left : List Span) → IsMerged window old news.now made.old.items (span.now ∷ left) (drop next news.now)
        → IfOk result (λ upto. IsMerged window old news.now made.new.items (span.now ∷ left) (drop upto news.now)) }
    ensures rest { (old left : List Span) → IsMerged window old news.now made.old.items (span.now ∷ left) (drop next news.now)
        → IfOk result (λ upto. All (IsSpanBefore span.now) (drop upto news.now)) }
{
    let _ = window;
    let mut upto = next;
    while upto < news.len() && is_in_earlier_column(&news[upto], span) {
        made.push(news[upto])?;
        upto += 1;
    }
    Ok(upto)
}

/// How many of the spans stand in rows before one.
fn spans_before(spans: &[PackedSpan], row: u32) -> usize
    requires { AllPairs IsSpanBefore spans.now }
    ensures most { result ≤ length spans.now }
    ensures before { All (λ (span : Span). span.z < row) (take result spans.now) }
    ensures behind { All (λ (span : Span). row ≤ span.z) (drop result spans.now) }
{
    spans.partition_point(|span| span.z() < row)
}

/// How many of the spans stand outside a rectangle, of which those in its rows stand from a first one up to an end.
fn outside_of(spans: &[PackedSpan], window: Window, first: usize, end: usize) -> usize
    requires few { length spans.now ≤ 2000000 }
    requires places { ArePlacesOfRows window spans.now first end }
    ensures { result ≡ length (spans_outside window spans.now) }
{
    let mut count = first;
    for i in first..end {
        if !is_in(window, &spans[i]) {
            count += 1;
        }
    }
    count + (spans.len() - end)
}

/// Whether the column of a span comes before that of another.
fn is_in_earlier_column(a: &PackedSpan, b: &PackedSpan) -> bool
    ensures { result ≡ Merging.is_in_earlier_column a.now b.now }
{
    a.z() < b.z() || (a.z() == b.z() && a.x() < b.x())
}

/// Whether a span stands in a rectangle of columns.
fn is_in(window: Window, span: &PackedSpan) -> bool
    ensures { result ≡ is_in_window window span.now.x span.now.z }
{
    is_between(window.x0, span.x(), window.x1) && is_between(window.z0, span.z(), window.z1)
}

/// Whether a number is not below a least one and not above a greatest one.
fn is_between(least: i32, number: u32, most: i32) -> bool
    ensures { result ≡ (int_le least (pos number) && int_le (pos number) most) }
{
    let number = i64::from(number);
    i64::from(least) <= number && number <= i64::from(most)
}
