//! Headers that are read for what follows them, and the lines of spans that are written.

use crate::fields::{second_form, text_with};
use crate::texts::check;
use nav_ground::{PackedSpan, Span};
use span_text::{FieldRefusal, read_header, write_span, write_spans};
use std::alloc::Global;
use std::process::Abort;

/// The kind of the fault and its line; where there is none, 0, and how many bytes and lines the header has.
type Told = (u32, usize, u32);

/// What follows the seven lines, and what is told.
static HEADERS: [(&str, Told); 11] = [
    ("end\n", (0, 65, 7)),
    ("cost 2 5\nend\n", (0, 74, 8)),
    ("cost 2 5\ncost 63 1000\nspan\n", (0, 87, 9)),
    ("costs 2 5\n", (0, 65, 7)),
    ("\n", (0, 65, 7)),
    ("", (7, 8, 0)),
    ("end", (7, 8, 0)),
    ("cost 2 5\ncost", (7, 9, 0)),
    ("cost\nend\n", (1, 8, 0)),
    ("cost 64 1\nend\n", (2, 8, 0)),
    ("cost 1 2\ncost 1 3\nend\n", (3, 9, 0)),
];

fn told_of(text: &[u8]) -> Told {
    match read_header(text) {
        Ok(header) => (0, header.used, header.lines),
        Err(FieldRefusal::Fault(fault)) => (fault.kind, fault.line as usize, 0),
        Err(FieldRefusal::OutOfMemory) => (99, 0, 0),
    }
}

fn check_headers(rt: &impl Abort, alloc: Global, rows: &[(&str, Told)]) {
    for (behind, wanted) in rows {
        let text = text_with(rt, alloc, 7, behind);
        check(rt, told_of(text.as_slice()) == *wanted, behind);
    }
}

#[test]
fn reads_headers(rt: HostRuntime) {
    check_headers(&rt, rt.alloc(), &HEADERS);
}

/// What follows the seven lines of a header of the second form, and what is told.
static SECOND_HEADERS: [(&str, Told); 6] = [
    ("clear 1\nend\n", (0, 73, 8)),
    ("clear 0\ncost 2 5\ntri\n", (0, 82, 9)),
    ("clear 1\nclear 1\n", (0, 73, 8)),
    ("end\n", (1, 8, 0)),
    ("clear 2\nend\n", (2, 8, 0)),
    ("clear 1\n", (7, 9, 0)),
];

fn check_second_headers(rt: &impl Abort, alloc: Global, rows: &[(&str, Told)]) {
    for (behind, wanted) in rows {
        let text = second_form(rt, alloc, "tile 6\nagent 10 4 3\n", behind);
        check(rt, told_of(text.as_slice()) == *wanted, behind);
    }
}

#[test]
fn reads_headers_of_the_second_form(rt: HostRuntime) {
    check_second_headers(&rt, rt.alloc(), &SECOND_HEADERS);
}

#[test]
fn writes_a_span(rt: HostRuntime) {
    let span = Span {
        x: 1023,
        z: 0,
        bottom: 7,
        top: 8191,
        area: 63,
    };
    let mut out = Vec::new(rt.alloc());
    let written = write_span(&mut out, &span).is_ok();
    check(
        &rt,
        written && out.as_slice() == b"span 1023 0 7 8191 63\n".as_slice(),
        "span",
    );
}

#[test]
fn writes_spans(rt: HostRuntime) {
    let spans = [
        PackedSpan::new(&Span {
            x: 0,
            z: 0,
            bottom: 0,
            top: 9,
            area: 0,
        }),
        PackedSpan::new(&Span {
            x: 0,
            z: 0,
            bottom: 10,
            top: 99,
            area: 9,
        }),
        PackedSpan::new(&Span {
            x: 1000,
            z: 100,
            bottom: 999,
            top: 1000,
            area: 63,
        }),
    ];
    let mut out = Vec::new(rt.alloc());
    let written = write_spans(&mut out, &spans).is_ok();
    let wanted = b"span 0 0 0 9 0\nspan 0 0 10 99 9\nspan 1000 100 999 1000 63\n";
    check(&rt, written && out.as_slice() == wanted.as_slice(), "spans");
}
