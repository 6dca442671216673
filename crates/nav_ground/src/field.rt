//! A field of spans: what is solid in each column. The field that a ground was made of.

ghost use Rattle.std.specs.Prelude.{◌≡◌};
ghost use Rattle.nav_ground.specs.declared.field.Field.{Field};

use crate::packed::PackedSpan;
use nav_lists::Items;
use std::marker::{Model, Send, Sync};

/// A solid piece of one column, from its bottom up to its top. An agent stands on the top. As the spans of Recast's height field.
#[derive(Clone, Copy, PartialEq, Eq, Debug)]
pub struct Span {
    /// Its column, below the field's width, at most 1023.
    pub x: u32,
    /// Its column, below the field's depth, at most 1023.
    pub z: u32,
    /// The height where it begins, in height units, below its top.
    pub bottom: u32,
    /// The height where it ends and an agent stands, in height units, at most 8191.
    pub top: u32,
    /// What the top is: 0 for what nobody walks on, else 1 to 63.
    pub area: u32,
}

/// The spans of a field, by z, then x, then from the bottom up.
#[derive(Drop)]
pub struct Field {
    /// Columns along x, 1 to 1024.
    pub width: u32,
    /// Columns along z, 1 to 1024.
    pub depth: u32,
    /// At most 2000000, which do not overlap; two of one column may touch.
    pub spans: Items<PackedSpan>,
}

/// The field that a ground was made of, seen by contracts as that field. A ground is asked for its layers alone once they stand, so this has
/// no bytes, and the spans can be let go.
#[derive(Drop)]
pub struct PastField {
    ghost value: { Field },
}

impl Model for PastField {
    ghost use base.Fml.{ftrue};
    ghost use Rattle.nav_ground.specs.declared.field.Field.{Field};

    ghost Value = { Field };

    ghost view = { λ past. past.value };

    // Nothing.
    ghost also_owns = { λ _. ftrue };
}

impl PastField {
    /// The field as it is now.
    pub fn of(field: &Field) -> PastField
        ensures { result ≡ field.now }
    {
        let _ = field;
        PastField {}
    }
}

// It owns nothing, so it may go to any thread, and any thread may share it.
unsafe impl Send for PastField {}

unsafe impl Sync for PastField {}
