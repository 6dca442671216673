//! Kinds opened over the spans of a host, and closed.

ghost use Rattle.std.specs.Prelude.{◌≡◌, ◌<◌, ◌≤◌, IfOk, None, length};
ghost use Rattle.nav_ground.specs.Fields.{IsField};
ghost use Rattle.agent_kinds.specs.KindOpenings.{AreKindSettings, first_kinds};
ghost use Rattle.kinds_handle.specs.KindSettings.{CanOpenKinds, costs_said};
ghost use Rattle.kinds_handle.specs.KindsOpened.{IsKindsOpening, opened_states};

use crate::handle::NavdKinds;
use crate::settings::{costs_to_open, kind_settings};
use crate::spans::field_of;
use crate::wire::{NavdGround, NavdKind, NavdSpan};
use agent_kinds::Kinds;
use nav_base::Steps;
use nav_ground::{AREAS, Field, Setting};
use nav_handle::{NO_MEMORY, OK, OUT_OF_RANGE, TOO_MANY_SPANS};
use std::alloc::{AllocError, Global};
use std::marker::Brand;
use std::sync::ledger::{Blank, Ledger};

/// The most spans that a field can have.
const MAX_SPANS: usize = 2000000;

/// The kinds of settings over a field, on the heap.
fn kinds_over<L: Ledger>(
    alloc: Global,
    settings: &[Setting],
    field: &Field,
    blank: Blank,
) -> Result<Box<Kinds, Global>, AllocError>
    requires settings { AreKindSettings settings.now field.now }
    requires field { IsField field.now }
    requires name { blank.name ≡ L.name }
    requires parts { blank.parts ≡ L.parts }
    requires some { 0 < blank.parts }
    ensures { IfOk result (λ made. made.value ≡ first_kinds settings.now field.now) }
{
    let mut steps = Steps::<L>::new(blank);
    let made = Kinds::begin(alloc, settings, field, &mut steps)?;
    Ok(Box::new(alloc, made)?)
}

/// The kinds that a host asks for, on the heap.
fn opened(
    alloc: Global,
    ground: &NavdGround,
    kinds: &[NavdKind],
    costs: [u32; AREAS],
    spans: &[NavdSpan],
) -> Result<Box<Kinds, Global>, AllocError>
    requires can { CanOpenKinds ground.now kinds.now costs spans.now }
    requires few { length spans.now ≤ 2000000 }
    ensures { IfOk result (λ made. made.value ≡ opened_states ground.now kinds.now costs spans.now) }
{
    let settings = kind_settings(alloc, ground, costs, kinds)?;
    let field = field_of(alloc, ground, spans)?;
    kinds_over::<Brand>(alloc, settings.as_slice(), &field, Blank::new(1))
}

/// Opens kinds over spans, with costs of areas for all of them. Kinds that the handle held are closed then.
pub fn open_kinds(
    alloc: Global,
    kinds: &mut NavdKinds,
    ground: &NavdGround,
    kind: &[NavdKind],
    costs: &[u32],
    spans: &[NavdSpan],
) -> u32
    ensures { IsKindsOpening ground.now kind.now (costs_said costs.now) spans.now kinds.old.kinds kinds.new.kinds result }
{
    let Some(table) = costs_to_open(ground, kind, costs, spans) else {
        return OUT_OF_RANGE;
    };
    if spans.len() > MAX_SPANS {
        return TOO_MANY_SPANS;
    }
    match opened(alloc, ground, kind, table, spans) {
        Ok(made) => {
            kinds.put(made);
            OK
        }
        Err(_) => NO_MEMORY,
    }
}

/// Closes the kinds, if the handle holds some.
pub fn close_kinds(alloc: Global, kinds: &mut NavdKinds)
    ensures { kinds.new.kinds ≡ None }
{
    let _ = kinds.take(alloc);
}
