//! The rules of fields and of areas, tested when a test runs: what passes may be handed to the calls that require them.

ghost use Rattle.std.specs.Prelude.{◌≡◌, ◌&&◌, IsTrue, nat_le};
ghost use Rattle.std.specs.List.{list_all};
ghost use Rattle.nav_ground.specs.Fields.{IsField, AreAreas};
ghost use Rattle.nav_ground.proofs.Literals;

use nav_ground::{Field, PackedSpan, Span};
use nav_lists::Items;
use std::alloc::{AllocError, Global};

/// Whether a field keeps the rules of fields.
pub(crate) fn keeps_rules(field: &Field) -> bool
    ensures { IsTrue result → IsField field.now }
{
    is_field(field)
}

fn is_field(field: &Field) -> bool
    ensures { result ≡ Literals.is_field field.now }
{
    let spans = field.spans.as_slice();
    let sized = both(is_size(field.width), is_size(field.depth));
    let listed = both(
        are_spans(field.width, field.depth, spans),
        is_ordered(spans),
    );
    both(both(sized, spans.len() <= 2000000), listed)
}

fn both(a: bool, b: bool) -> bool
    ensures { result ≡ (a && b) }
{
    a && b
}

fn are_spans(width: u32, depth: u32, spans: &[PackedSpan]) -> bool
    ensures { result ≡ list_all (Literals.is_span width depth) spans.now }
{
    match spans {
        [] => true,
        [first, rest @ ..] => both(is_span(width, depth, first), are_spans(width, depth, rest)),
    }
}

fn are_after(first: &PackedSpan, rest: &[PackedSpan]) -> bool
    ensures { result ≡ list_all (Literals.is_span_before first.now) rest.now }
{
    match rest {
        [] => true,
        [second, rest @ ..] => both(is_span_before(first, second), are_after(first, rest)),
    }
}

fn is_size(n: u32) -> bool
    ensures { result ≡ Literals.is_size n }
{
    1 <= n && n <= 1024
}

fn is_span(width: u32, depth: u32, span: &PackedSpan) -> bool
    ensures { result ≡ Literals.is_span width depth span.now }
{
    span.x() < width
        && span.z() < depth
        && span.bottom() < span.top()
        && span.top() <= 8191
        && span.area() <= 63
}

fn is_ordered(spans: &[PackedSpan]) -> bool
    ensures { result ≡ Literals.is_ordered_by Literals.is_span_before spans.now }
{
    match spans {
        [] => true,
        [first, rest @ ..] => both(are_after(first, rest), is_ordered(rest)),
    }
}

fn is_span_before(a: &PackedSpan, b: &PackedSpan) -> bool
    ensures { result ≡ Literals.is_span_before a.now b.now }
{
    a.z() < b.z()
        || (a.z() == b.z() && (a.x() < b.x() || (a.x() == b.x() && a.top() <= b.bottom())))
}

/// Whether areas are those of spans.
pub(crate) fn are_areas(areas: &[u32]) -> bool
    ensures { IsTrue result → AreAreas areas.now }
{
    all_small(areas)
}

fn all_small(areas: &[u32]) -> bool
    ensures { result ≡ list_all (λ area. nat_le area 63) areas.now }
{
    match areas {
        [] => true,
        [first, rest @ ..] => both(*first <= 63, all_small(rest)),
    }
}

/// A span of a test's table, whose numbers are within their limits.
pub(crate) fn small(span: &Span) -> PackedSpan {
    PackedSpan::new(&Span {
        x: span.x.min(1023),
        z: span.z.min(1023),
        bottom: span.bottom.min(8191),
        top: span.top.min(8191),
        area: span.area.min(63),
    })
}

pub(crate) fn small_spans(alloc: Global, spans: &[Span]) -> Result<Items<PackedSpan>, AllocError> {
    let mut small_ones = Vec::with_capacity(alloc, spans.len())?;
    for span in spans {
        small_ones.push(small(span))?;
    }
    Ok(Items::from_vec(small_ones))
}
