//! Fields of triangles: what the word `raster` writes. What is wanted was worked out by hand.

use crate::test_runs::{LARGE, NARROW_WRITES, check, run_once};
use std::alloc::Global;
use std::process::Abort;
use std::sync::Wait;
use std::thread::Threads;
use top_call::Status;

/// The lines of the size and the tile, and those behind the header; the status, and what stands behind the header, or all that is written.
type Row = (&'static str, &'static str, Status, &'static str);

static ROWS: [Row; 18] = [
    (
        "size 3 2\ntile 6\n",
        "tri 0 10 0 48 10 0 48 10 32 63\ntri 0 10 0 48 10 32 0 10 32 63\nend\n",
        Status::Ok,
        "span 0 0 10 11 63\nspan 1 0 10 11 63\nspan 2 0 10 11 63\nspan 0 1 10 11 63\nspan 1 1 10 11 63\nspan 2 1 10 11 63\nend\n",
    ),
    (
        "size 2 1\ntile 4\n",
        "tri 0 0 0 32 5 0 0 0 16 7\nend\n",
        Status::Ok,
        "span 0 0 0 3 7\nspan 1 0 2 5 7\nend\n",
    ),
    // Intervals that touch are one span, with the greatest area near its top.
    (
        "size 1 1\ntile 6\n",
        "cost 2 5\ntri 0 10 0 16 10 0 16 10 16 5\ntri 0 11 0 16 11 0 16 11 16 9\nend\n",
        Status::Ok,
        "cost 2 5\nspan 0 0 10 12 9\nend\n",
    ),
    (
        "size 1 1\ntile 6\n",
        "tri 0 0 0 16 0 0 16 0 16 1\ntri 0 4 0 16 4 0 16 4 16 2\ntri 0 9 0 16 9 0 16 9 16 3\nend\n",
        Status::Ok,
        "span 0 0 0 1 1\nspan 0 0 4 5 2\nspan 0 0 9 10 3\nend\n",
    ),
    (
        "size 1 1\ntile 6\n",
        "tri 0 0 0 16 5 0 0 0 16 3\ntri 0 10 0 16 10 0 0 10 16 1\ntri 0 3 0 16 10 16 0 3 16 2\nend\n",
        Status::Ok,
        "span 0 0 0 11 2\nend\n",
    ),
    (
        "size 3 3\ntile 6\n",
        "tri 0 0 0 48 48 0 0 0 48 1\nend\n",
        Status::Ok,
        "span 0 0 0 16 1\nspan 1 0 16 32 1\nspan 2 0 32 48 1\nspan 0 1 0 16 1\nspan 1 1 16 32 1\nspan 0 2 0 16 1\nend\n",
    ),
    // On lines between columns, and flat on a line between rows.
    (
        "size 3 3\ntile 6\n",
        "tri 0 10 16 16 10 16 48 10 16 5\ntri 16 3 0 16 7 0 16 3 48 9\nend\n",
        Status::Ok,
        "end\n",
    ),
    (
        "size 4 4\ntile 6\n",
        "tri 15 33 0 0 36 0 7 50 0 1\ntri 11 49 32 3 4 32 3 53 32 1\nend\n",
        Status::Ok,
        "end\n",
    ),
    // A wall and a needle.
    (
        "size 3 3\ntile 6\n",
        "tri 24 3 0 24 7 0 24 3 48 9\nend\n",
        Status::Ok,
        "span 1 0 3 7 9\nspan 1 1 3 6 9\nspan 1 2 3 5 9\nend\n",
    ),
    (
        "size 3 3\ntile 6\n",
        "tri 24 3 24 24 7 24 24 5 24 9\nend\n",
        Status::Ok,
        "span 1 1 3 7 9\nend\n",
    ),
    // Beyond the field.
    (
        "size 1 1\ntile 6\n",
        "tri 0 4 0 16384 4 0 0 4 16384 8\ntri 32 9 0 64 9 0 64 9 16 8\nend\n",
        Status::Ok,
        "span 0 0 4 5 8\nend\n",
    ),
    ("size 6 6\ntile 6\n", "end\n", Status::Ok, "end\n"),
    (
        "size 6 6\ntile 6\n",
        "tri 0 8191 0 0 0 0 0 0 0 1\nend\n",
        Status::BadText,
        "fault 8 2\n",
    ),
    (
        "size 6 6\ntile 6\n",
        "tri 0 0 0 0 0 0 0 0 0 1\ncost 1 2\nend\n",
        Status::BadText,
        "fault 9 1\n",
    ),
    (
        "size 6 6\ntile 6\n",
        "end\nscript 1 1\n",
        Status::BadText,
        "fault 9 1\n",
    ),
    ("size 6 6\ntile 6\n", "end", Status::BadText, "fault 8 7\n"),
    (
        "size 0 6\ntile 6\n",
        "end\n",
        Status::BadText,
        "fault 2 2\n",
    ),
    // Two storeys of 1000 by 1001 columns are 2002000 spans.
    (
        "size 1000 1001\ntile 64\n",
        "tri 0 10 0 16000 10 0 16000 10 16016 63\ntri 0 10 0 16000 10 16016 0 10 16016 63\ntri 0 30 0 16000 30 0 16000 30 16016 63\ntri 0 30 0 16000 30 16016 0 30 16016 63\nend\n",
        Status::TooManySpans,
        "fault too many spans\n",
    ),
];

/// These parts of a text, one behind the other.
fn joined(rt: &impl Abort, alloc: Global, parts: &[&str]) -> Vec<u8> {
    let mut text = Vec::new(alloc);
    for part in parts {
        text.extend_from_slice(part.as_bytes()).expect(rt, "memory");
    }
    text
}

/// A header of this size, and lines behind it.
fn level(rt: &impl Abort, alloc: Global, size: &str, lines: &str) -> Vec<u8> {
    let making = "agent 10 4 0\nerror 169\nmesh strips\nlimit 4\n";
    joined(rt, alloc, &["nav 1\n", size, making, lines])
}

fn check_rows<R: Abort + Threads + Wait + Sync>(rt: &R, alloc: Global, rows: &[Row]) {
    for (size, lines, status, held) in rows {
        let input = level(rt, alloc, size, lines);
        let ran = run_once(rt, alloc, &["raster"], input, NARROW_WRITES);
        if *status == Status::Ok {
            check(
                rt,
                &ran,
                Status::Ok,
                level(rt, alloc, size, held).as_slice(),
            );
        } else {
            check(rt, &ran, *status, held.as_bytes());
        }
    }
}

#[test]
fn writes_the_field_of_triangles(rt: HostRuntime) {
    check_rows(&rt, rt.alloc(), &ROWS);
}

/// A header of the second form.
const SECOND: &str =
    "nav 2\nsize 1 1\ntile 6\nagent 10 4 3\nerror 169\nmesh strips\nlimit 4\nclear 1\n";

#[test]
fn keeps_the_line_of_clearance(rt: HostRuntime) {
    let alloc = rt.alloc();
    let triangle = "tri 0 10 0 16 10 0 16 10 16 5\nend\n";
    let input = joined(&rt, alloc, &[SECOND, triangle]);
    let ran = run_once(&rt, alloc, &["raster"], input, NARROW_WRITES);
    let held = joined(&rt, alloc, &[SECOND, "span 0 0 10 11 5\nend\n"]);
    check(&rt, &ran, Status::Ok, held.as_slice());
}

/// The field that `raster` writes, with a script behind it, is an input for `play`.
#[test]
fn plays_the_field_of_triangles(rt: HostRuntime) {
    let alloc = rt.alloc();
    let floor = "tri 0 10 0 96 10 0 96 10 96 63\ntri 0 10 0 96 10 96 0 10 96 63\nend\n";
    let input = level(&rt, alloc, "size 6 6\ntile 6\n", floor);
    let sink = run_once(&rt, alloc, &["raster"], input, LARGE).sink;
    let mut field = Vec::new(alloc);
    field.extend_from_slice(sink.bytes()).expect(&rt, "memory");
    let script = "script 1 1\nfloor 2 2\nadd block 2 2 0 100 2 2\nsettle\nfloor 2 2\n";
    field
        .extend_from_slice(script.as_bytes())
        .expect(&rt, "memory");
    let ran = run_once(&rt, alloc, &["play"], field, LARGE);
    let held = "floors 0 1 11 63\nentry 1 added\nsettled 1\nfloors 1 0\ndone 1 1\n";
    check(&rt, &ran, Status::Ok, held.as_bytes());
}
