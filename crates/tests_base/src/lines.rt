//! Lines, their words and their numbers.

use crate::checks::same;
use nav_text::{FaultKind, TextFault, first_line, has_word, numbers_of};
use std::process::Abort;

/// A text, its first line, and what is left behind that.
static FIRST_LINES: [(&str, Option<(&str, &str)>); 3] = [
    ("end\nscript 1 1\n", Some(("end", "script 1 1\n"))),
    ("\n", Some(("", ""))),
    ("end", None),
];

fn check_first_lines(rt: &impl Abort, rows: &[(&str, Option<(&str, &str)>)]) {
    for (text, wanted) in rows {
        let wanted = wanted.map(|(line, rest)| (line.as_bytes(), rest.as_bytes()));
        same(rt, (*text, first_line(text.as_bytes())), (*text, wanted));
    }
}

#[test]
fn reads_lines(rt: HostRuntime) {
    check_first_lines(&rt, &FIRST_LINES);
}

/// A line, and whether its word is `span`.
static SPAN_LINES: [(&str, bool); 6] = [
    ("span", true),
    ("span 1 x", true),
    ("span ", true),
    ("spans", false),
    ("spa", false),
    ("", false),
];

fn check_words(rt: &impl Abort, rows: &[(&str, bool)]) {
    for (line, wanted) in rows {
        let is_span = has_word(b"span", line.as_bytes());
        same(rt, (*line, is_span), (*line, *wanted));
    }
}

#[test]
fn tells_words(rt: HostRuntime) {
    check_words(&rt, &SPAN_LINES);
}

/// A line, and the two numbers that it has behind the word `size`.
static SIZE_LINES: [(&str, Option<[u32; 2]>); 15] = [
    ("size 7 9", Some([7, 9])),
    ("size 0 4294967295", Some([0, 4294967295])),
    ("size 7", None),
    ("size 7 9 1", None),
    ("size 7 9 ", None),
    ("size  7 9", None),
    ("size 7  9", None),
    (" size 7 9", None),
    ("size\t7 9", None),
    ("size 07 9", None),
    ("size 7 9\r", None),
    ("size 7 4294967296", None),
    ("sizes 7 9", None),
    ("size7 9", None),
    ("", None),
];

fn check_numbers(rt: &impl Abort, rows: &[(&str, Option<[u32; 2]>)]) {
    for (line, wanted) in rows {
        let numbers = numbers_of(b"size", line.as_bytes());
        same(rt, (*line, numbers), (*line, *wanted));
    }
}

#[test]
fn reads_numbers_of_lines(rt: HostRuntime) {
    check_numbers(&rt, &SIZE_LINES);
    same(&rt, numbers_of(b"end", b"end"), Some([]));
    same(&rt, TextFault::new(7, FaultKind::TooManyLines).kind, 11);
    same(&rt, TextFault::new(7, FaultKind::TooManyJumps).kind, 12);
}
