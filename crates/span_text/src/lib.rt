//! Field texts: a level's setting and spans, read exactly, with the line and kind of the first fault; the header of texts that begin as
//! they do; and the lines of spans, written.
#![tactic(auto)]

mod body;
mod field;
mod front;
mod lines;

pub use field::{FieldRefusal, FieldText, read_field};
pub use front::{HeaderText, read_header};
pub use lines::{write_span, write_spans};
