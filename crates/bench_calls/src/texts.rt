//! A field text read again and again: `text ROUNDS`, with the text behind that line, up to the end of the input.

use nav_text::numbers_of;
use span_text::{FieldRefusal, read_field};
use std::alloc::Global;

/// How a text was read at last.
#[derive(Clone, Copy)]
pub enum Reading {
    Read { spans: usize, lines: u32 },
    Fault { line: u32, kind: u32 },
    OutOfMemory,
}

fn read(alloc: Global, text: &[u8]) -> Reading {
    match read_field(alloc, text) {
        Ok(read) => Reading::Read {
            spans: read.field.spans.len(),
            lines: read.lines,
        },
        Err(FieldRefusal::Fault(fault)) => Reading::Fault {
            line: fault.line,
            kind: fault.kind,
        },
        Err(FieldRefusal::OutOfMemory) => Reading::OutOfMemory,
    }
}

/// What a line names here, if it does, with the text behind it.
pub fn take(alloc: Global, line: &[u8], text: &[u8]) -> Option<Reading> {
    let [rounds] = numbers_of::<1>(b"text", line)?;
    let mut reading = read(alloc, text);
    for _ in 1..rounds.max(1) {
        reading = read(alloc, text);
    }
    Some(reading)
}
