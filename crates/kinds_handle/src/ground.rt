//! The ground of kinds changed: other spans in the columns of a rectangle.

ghost use Rattle.std.specs.Prelude.{◌≡◌, ◌↔◌, ◌<◌, ◌≤◌, All, Err, IfOk, IsTrue, MatchOption, OnErr, OnOk, Some, map};
ghost use Rattle.std.specs.List.{AllZip};
ghost use Rattle.nav_ground.specs.Fields.{IsField};
ghost use Rattle.nav_ground.specs.Tiling.{IsInWindow};
ghost use Rattle.live_ground.specs.Changes.{IsRectangleIn};
ghost use Rattle.build_queue.specs.BookState.{BookState};
ghost use Rattle.agent_kinds.specs.Firsts.{first_awaited};
ghost use Rattle.agent_kinds.specs.KindGrounds.{AreGroundsChanged, AreSameBeyond};
ghost use Rattle.agent_kinds.specs.KindSteps.{publication_by};
ghost use Rattle.kinds_handle.specs.KindGroundChanges.{AreNewSpans, AreOverMany, CanChange, IsChangeWanted, IsGroundChange, IsInside, window_of};
ghost use Rattle.kinds_handle.specs.KindSpans.{span_of};

use crate::handle::NavdKinds;
use crate::spans::{are_spans, field_of};
use crate::wire::{NavdColumns, NavdGround, NavdSpan};
use agent_kinds::{Kinds, KindsPublished};
use live_ground::ChangeRefusal;
use nav_base::Steps;
use nav_ground::{Field, Window};
use nav_handle::{EMPTY, NO_MEMORY, NOT_YET, OK, OUT_OF_RANGE, TOO_MANY_SPANS};
use std::alloc::Global;
use std::marker::Brand;
use std::sync::ledger::{Blank, Ledger};

/// The rectangle of columns that a host names; none exactly where it has no column, or one outside the field.
fn window_in(field: &Field, columns: &NavdColumns) -> Option<Window>
    requires { IsField field.now }
    ensures { MatchOption result (¬ IsRectangleIn field.now (window_of columns.now))
        (λ window. (window ≡ window_of columns.now) × IsRectangleIn field.now (window_of columns.now)) }
{
    if columns.x0 <= columns.x1
        && columns.x1 < field.width
        && columns.z0 <= columns.z1
        && columns.z1 < field.depth
    {
        Some(Window {
            x0: columns.x0 as i32,
            x1: columns.x1 as i32,
            z0: columns.z0 as i32,
            z1: columns.z1 as i32,
        })
    } else {
        None
    }
}

/// Whether a span stands in one of the columns.
fn is_inside(columns: &NavdColumns, span: &NavdSpan) -> bool
    ensures { IsTrue result ↔ IsInside columns.now span.now }
{
    columns.x0 <= span.x && span.x <= columns.x1 && columns.z0 <= span.z && span.z <= columns.z1
}

/// Whether all spans do.
fn are_inside(columns: &NavdColumns, spans: &[NavdSpan]) -> bool
    ensures { IsTrue result ↔ All (IsInside columns.now) spans.now }
{
    for span in spans {
        if !is_inside(columns, span) {
            return false;
        }
    }
    true
}

/// The size of a field. Of its other numbers, which spans have no part in, each is 0.
fn size_of(field: &Field) -> NavdGround
    ensures width { result.width ≡ field.now.width }
    ensures depth { result.depth ≡ field.now.depth }
{
    NavdGround {
        width: field.width,
        depth: field.depth,
        error: 0,
        contours: 0,
        limit: 0,
    }
}

/// The rectangle, where the spans are ones that its columns may get; none exactly where they are not.
fn window_for(field: &Field, columns: &NavdColumns, spans: &[NavdSpan]) -> Option<Window>
    requires { IsField field.now }
    ensures { MatchOption result (¬ AreNewSpans field.now columns.now spans.now)
        (λ window. (window ≡ window_of columns.now) × AreNewSpans field.now columns.now spans.now) }
{
    let window = window_in(field, columns)?;
    if are_spans(&size_of(field), spans) && are_inside(columns, spans) {
        Some(window)
    } else {
        None
    }
}

/// The ground of kinds with these spans in the columns of a rectangle.
fn change<L: Ledger>(
    alloc: Global,
    held: &mut Kinds,
    columns: &NavdColumns,
    window: Window,
    spans: &[NavdSpan],
    blank: Blank,
) -> Result<KindsPublished, ChangeRefusal>
    requires window { window ≡ window_of columns.now }
    requires can { All (CanChange columns.now spans.now) held.old }
    requires name { blank.name ≡ L.name }
    requires parts { blank.parts ≡ L.parts }
    requires some { 0 < blank.parts }
    ensures answer { IfOk result (λ told. All (λ (state : BookState). told ≡ publication_by (first_awaited held.old) state) held.old) }
    ensures few { OnOk result (¬ All (AreOverMany columns.now spans.now) held.old) }
    ensures state { OnOk result (AreGroundsChanged (window_of columns.now) (map span_of spans.now) held.old held.new) }
    ensures differ { AllZip (AreSameBeyond (window_of columns.now)) held.old held.new }
    ensures many { (result ≡ Err ChangeRefusal.TooManySpans) → All (AreOverMany columns.now spans.now) held.old }
    ensures refused { OnErr result (held.new ≡ held.old) }
{
    let _ = columns;
    let size = size_of(held.field());
    let news = field_of(alloc, &size, spans)?;
    let mut steps = Steps::<L>::new(blank);
    held.change_ground(alloc, window, news.spans.as_slice(), &mut steps)
}

/// How a change ends that is answered as a publish would be.
fn change_status(answer: KindsPublished) -> u32
    ensures { result ≡ Rattle.kinds_handle.specs.KindGroundChanges.change_status answer }
{
    match answer {
        KindsPublished::Same { .. } => OK,
        KindsPublished::New { .. } | KindsPublished::NotYet { .. } => NOT_YET,
    }
}

fn change_held<L: Ledger>(
    alloc: Global,
    held: &mut Kinds,
    columns: &NavdColumns,
    spans: &[NavdSpan],
    blank: Blank,
) -> u32
    requires name { blank.name ≡ L.name }
    requires parts { blank.parts ≡ L.parts }
    requires some { 0 < blank.parts }
    ensures { IsChangeWanted columns.now spans.now held.old (record { status = result; held = Some held.new }) }
{
    let Some(window) = window_for(held.field(), columns, spans) else {
        return OUT_OF_RANGE;
    };
    match change::<L>(alloc, held, columns, window, spans, blank) {
        Ok(answer) => change_status(answer),
        Err(ChangeRefusal::TooManySpans) => TOO_MANY_SPANS,
        Err(ChangeRefusal::OutOfMemory) => NO_MEMORY,
    }
}

/// Changes the ground of all kinds to that of their field with these spans in the columns of a rectangle; without any, the columns are empty. It comes
/// where all that was aimed at is published.
pub fn change_ground_of_kinds(
    alloc: Global,
    kinds: &mut NavdKinds,
    columns: &NavdColumns,
    spans: &[NavdSpan],
) -> u32
    ensures { IsGroundChange columns.now spans.now kinds.old.kinds (record { status = result; held = kinds.new.kinds }) }
{
    let Some(mut held) = kinds.take(alloc) else {
        return EMPTY;
    };
    let status = change_held::<Brand>(alloc, &mut held, columns, spans, Blank::new(1));
    kinds.put(held);
    status
}
