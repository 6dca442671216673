//! What the tests share: texts that are put together, and the word of the row that failed.

use std::process::Abort;

/// Appends a text so many times.
pub(crate) fn append(rt: &impl Abort, text: &mut Vec<u8>, more: &str, count: u32) {
    for _ in 0..count {
        text.extend_from_slice(more.as_bytes()).expect(rt, "memory");
    }
}

/// What was tested is so; else the row is told.
pub(crate) fn check(rt: &impl Abort, is_so: bool, row: &str) {
    assert!(rt; is_so, "at {row}");
}
