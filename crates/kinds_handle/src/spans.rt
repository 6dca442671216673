//! The spans that a host hands over: whether they are those of a field, and the field that they make.

ghost use Rattle.std.specs.Prelude.{◌≡◌, ◌↔◌, ◌≤◌, All, AllPairs, IfOk, IsTrue};
ghost use Rattle.nav_ground.specs.Fields.{IsSmallSpan};
ghost use Rattle.kinds_handle.specs.KindSpans.{AreSpans, ComesBefore, IsSpanOf};

use crate::wire::{NavdGround, NavdSpan};
use nav_ground::{Field, PackedSpan, Span};
use nav_lists::Items;
use std::alloc::{AllocError, Global};

fn span_of(span: &NavdSpan) -> Span
    ensures { result ≡ Rattle.kinds_handle.specs.KindSpans.span_of span.now }
{
    Span {
        x: span.x,
        z: span.z,
        bottom: span.bottom,
        top: span.top,
        area: span.area,
    }
}

/// Whether a span's numbers are in their limits.
fn is_span_of(ground: &NavdGround, span: &NavdSpan) -> bool
    ensures { IsTrue result ↔ IsSpanOf ground.now span.now }
{
    span.x < ground.width
        && span.z < ground.depth
        && span.bottom < span.top
        && span.top <= 8191
        && span.area <= 63
}

/// Whether a span comes before another.
fn comes_before(a: &NavdSpan, b: &NavdSpan) -> bool
    ensures { IsTrue result ↔ ComesBefore a.now b.now }
{
    a.z < b.z || a.z == b.z && (a.x < b.x || a.x == b.x && a.top <= b.bottom)
}

/// Whether the numbers of all spans are in their limits.
fn are_in_limits(ground: &NavdGround, spans: &[NavdSpan]) -> bool
    ensures { IsTrue result ↔ All (IsSpanOf ground.now) spans.now }
{
    for span in spans {
        if !is_span_of(ground, span) {
            return false;
        }
    }
    true
}

/// Whether each span comes before all later ones.
fn are_in_order(ground: &NavdGround, spans: &[NavdSpan]) -> bool
    requires { All (IsSpanOf ground.now) spans.now }
    ensures { IsTrue result ↔ AllPairs ComesBefore spans.now }
{
    let _ = ground;
    for place in 1..spans.len() {
        if !comes_before(&spans[place - 1], &spans[place]) {
            return false;
        }
    }
    true
}

/// Whether they are the spans of a field.
pub(crate) fn are_spans(ground: &NavdGround, spans: &[NavdSpan]) -> bool
    ensures { IsTrue result ↔ AreSpans ground.now spans.now }
{
    are_in_limits(ground, spans) && are_in_order(ground, spans)
}

/// A span in ten bytes.
fn packed(span: &NavdSpan) -> PackedSpan
    requires { IsSmallSpan (Rattle.kinds_handle.specs.KindSpans.span_of span.now) }
    ensures { result ≡ Rattle.kinds_handle.specs.KindSpans.span_of span.now }
{
    PackedSpan::new(&span_of(span))
}

/// The field of spans.
pub(crate) fn field_of(
    alloc: Global,
    ground: &NavdGround,
    spans: &[NavdSpan],
) -> Result<Field, AllocError>
    requires width { ground.now.width ≤ 1024 }
    requires depth { ground.now.depth ≤ 1024 }
    requires spans { AreSpans ground.now spans.now }
    ensures { IfOk result (λ field. field ≡ Rattle.kinds_handle.specs.KindSpans.field_of ground.now spans.now) }
{
    let mut made = Vec::with_capacity(alloc, spans.len())?;
    for span in spans {
        made.push(packed(span))?;
    }
    Ok(Field {
        width: ground.width,
        depth: ground.depth,
        spans: Items::from_vec(made),
    })
}
