//! A field whose spans are kept, and the field with other spans in the columns of a rectangle.

ghost use Rattle.std.specs.Prelude.{◌≡◌, ◌↔◌, ◌+◌, ◌<◌, Err, IfOk, length};
ghost use Rattle.nav_ground.specs.Fields.{IsField};
ghost use Rattle.live_ground.specs.Changes.{AreSpansFor, IsChangedIn, IsRectangleIn, spans_outside};

use crate::merge::{merged, row_spans};
use nav_ground::{Field, PackedSpan, Window};
use nav_lists::Items;
use std::alloc::{AllocError, AllocFailed, Global};
use std::marker::Model;

/// How many spans a field may have.
const SPANS_MOST: usize = 2000000;

/// A field whose spans are kept, in ten bytes each, so that they can be changed. Contracts see the field.
#[derive(Drop)]
pub struct KeptField {
    field: Field,
}

impl Model for KeptField {
    ghost use Rattle.nav_ground.specs.declared.field.Field.{Field};
    ghost use Rattle.nav_ground.specs.Fields.{IsField};

    ghost Value = { Field };

    ghost view = { λ kept. kept.field };

    ghost invariant = { λ kept. IsField kept.field };
}

/// Why spans were not changed.
#[derive(Clone, Copy, PartialEq, Eq, Debug)]
pub enum ChangeRefusal {
    /// The field would have more than 2000000 spans.
    TooManySpans,
    OutOfMemory,
}

impl From<AllocError> for ChangeRefusal {
    ghost use Rattle.std.specs.Prelude.{◌≡◌};
    ghost use Rattle.live_ground.specs.declared.kept_field.ChangeRefusal.{ChangeRefusal};

    ghost from_gives = { λ _ refusal. refusal ≡ ChangeRefusal.OutOfMemory };

    fn from(_error: AllocError) -> Self {
        ChangeRefusal::OutOfMemory
    }
}

impl KeptField {
    /// The field as it is now. Its spans are copied.
    pub fn of(alloc: Global, field: &Field) -> Result<KeptField, AllocError>
        requires { IsField field.now }
        ensures { IfOk result (λ kept. kept ≡ field.now) }
    {
        let spans = Vec::from_slice(alloc, field.spans.as_slice())?;
        Ok(KeptField {
            field: Field {
                width: field.width,
                depth: field.depth,
                spans: Items::from_vec(spans),
            },
        })
    }

    /// The field with these spans in the columns of a rectangle, in place of those that stand there; without any, the columns are empty. It is
    /// refused where the field would have more than 2000000 spans, before memory is taken. The spans of other rows are copied as they stand.
    pub fn changed(
        &self,
        alloc: Global,
        window: Window,
        spans: &[PackedSpan],
    ) -> Result<KeptField, ChangeRefusal>
        requires window { IsRectangleIn self.now window }
        requires spans { AreSpansFor self.now window spans.now }
        ensures changed { IfOk result (IsChangedIn window spans.now self.now) }
        ensures many { (result ≡ Err ChangeRefusal.TooManySpans) ↔ (2000000 < length (spans_outside window self.now.spans) + length spans.now) }
    {
        let old = self.field.spans.as_slice();
        let rows = row_spans(old, window);
        if spans.len() > SPANS_MOST - rows.outside {
            return Err(ChangeRefusal::TooManySpans);
        }
        let made = merged(alloc, old, rows, window, spans)?;
        Ok(KeptField {
            field: Field {
                width: self.field.width,
                depth: self.field.depth,
                spans: Items::from_vec(made),
            },
        })
    }

    /// The field.
    pub fn field(&self) -> &Field
        ensures value { result.now ≡ self.now }
        ensures rules { IsField self.now }
    {
        &self.field
    }
}
