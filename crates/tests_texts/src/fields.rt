//! A field text of every form of line, and the line and kind of the first fault of wrong ones.

use crate::texts::{append, check};
use nav_base::push_number;
use nav_ground::{AREAS, Agent, MeshKind, PackedSpan, Setting, Span};
use nav_text::FaultKind;
use span_text::{FieldRefusal, FieldText, read_field};
use std::alloc::Global;
use std::process::Abort;

static HEADER: [&str; 7] = [
    "nav 1\n",
    "size 6 6\n",
    "tile 6\n",
    "agent 10 4 0\n",
    "error 169\n",
    "mesh strips\n",
    "limit 4\n",
];

/// The first lines of a header, and what follows them.
pub(crate) fn text_with(rt: &impl Abort, alloc: Global, lines: usize, tail: &str) -> Vec<u8> {
    let mut text = Vec::new(alloc);
    for line in &HEADER[..lines.min(7)] {
        append(rt, &mut text, line, 1);
    }
    append(rt, &mut text, tail, 1);
    text
}

/// The line and kind of the fault of a text; zeros where it has none.
fn fault_of(alloc: Global, text: &[u8]) -> (u32, u32) {
    match read_field(alloc, text) {
        Ok(_) => (0, 0),
        Err(FieldRefusal::Fault(fault)) => (fault.line, fault.kind),
        Err(FieldRefusal::OutOfMemory) => (0, 99),
    }
}

/// Every line of the first form, and the first line of a script behind it.
const EVERY_FORM: &str =
    "nav 1\nsize 1024 1\ntile 128\nagent 255 254 15\nerror 10000\nmesh contours\nlimit 1024\ncost 1 1\ncost 3 7\ncost 63 1000\nspan 0 0 0 5 0\nspan 0 0 5 8191 63\nspan 1023 0 7 8 1\nend\nscript 1 1\n";

/// Where the script begins.
const SCRIPT_AT: usize = 168;

/// Its spans.
static SPANS: [Span; 3] = [
    Span {
        x: 0,
        z: 0,
        bottom: 0,
        top: 5,
        area: 0,
    },
    Span {
        x: 0,
        z: 0,
        bottom: 5,
        top: 8191,
        area: 63,
    },
    Span {
        x: 1023,
        z: 0,
        bottom: 7,
        top: 8,
        area: 1,
    },
];

/// Its setting.
fn every_setting() -> Setting {
    let mut costs = [1; AREAS];
    costs[3] = 7;
    costs[63] = 1000;
    Setting {
        width: 1024,
        depth: 1,
        tile: 128,
        agent: Agent {
            height: 255,
            climb: 254,
            radius: 15,
        },
        error: 10000,
        mesh: MeshKind::Contours,
        limit: 1024,
        costs,
        clear: false,
    }
}

fn are_spans(found: &[PackedSpan], wanted: &[Span]) -> bool {
    found.len() == wanted.len()
        && found
            .iter()
            .zip(wanted.iter())
            .all(|(found, wanted)| found.get() == *wanted)
}

fn check_every_form(rt: &impl Abort, read: &FieldText) {
    let is_whole = read.used == SCRIPT_AT && read.lines == 14;
    let is_sized = read.field.width == 1024 && read.field.depth == 1;
    assert!(rt; is_whole && is_sized && read.setting == every_setting());
    assert!(rt; are_spans(read.field.spans.as_slice(), &SPANS));
}

#[test]
fn reads_every_form(rt: HostRuntime) {
    match read_field(rt.alloc(), EVERY_FORM.as_bytes()) {
        Ok(read) => check_every_form(&rt, &read),
        Err(_) => assert!(rt; false),
    }
}

#[test]
fn reads_a_field_without_spans(rt: HostRuntime) {
    let text = text_with(&rt, rt.alloc(), 7, "end\n");
    check(&rt, read_field(rt.alloc(), text.as_slice()).is_ok(), "end");
}

/// How many lines of the header stand first, what follows them, and the line and kind of the first fault.
type FirstFault = (usize, &'static str, u32, FaultKind);

static HEADER_FAULTS: [FirstFault; 31] = [
    (0, "", 1, FaultKind::Unfinished),
    (0, "\n", 1, FaultKind::Form),
    (0, "nav 1", 1, FaultKind::Unfinished),
    (0, "nav 3\n", 1, FaultKind::Form),
    (0, "nav 01\n", 1, FaultKind::Form),
    (0, "nav 1 \n", 1, FaultKind::Form),
    (0, "nav 1\r\n", 1, FaultKind::Form),
    (1, "", 2, FaultKind::Unfinished),
    (1, "size 6\n", 2, FaultKind::Form),
    (1, "size 06 6\n", 2, FaultKind::Form),
    (1, "size 6 6 \n", 2, FaultKind::Form),
    (1, "size 6 4294967296\n", 2, FaultKind::Form),
    (1, "size 0 6\n", 2, FaultKind::Range),
    (1, "size 6 1025\n", 2, FaultKind::Range),
    (1, "size 6 6", 2, FaultKind::Unfinished),
    (2, "tile\n", 3, FaultKind::Form),
    (2, "tile 3\n", 3, FaultKind::Range),
    (2, "tile 129\n", 3, FaultKind::Range),
    (3, "agent 10 4\n", 4, FaultKind::Form),
    (3, "agent 0 0 0\n", 4, FaultKind::Range),
    (3, "agent 256 0 0\n", 4, FaultKind::Range),
    (3, "agent 255 255 0\n", 4, FaultKind::Range),
    (3, "agent 10 10 16\n", 4, FaultKind::Range),
    (3, "agent 10 10 0\n", 4, FaultKind::Climb),
    (4, "error 1 2\n", 5, FaultKind::Form),
    (4, "error 10001\n", 5, FaultKind::Range),
    (5, "mesh strip\n", 6, FaultKind::Form),
    (5, "mesh contours \n", 6, FaultKind::Form),
    (6, "limit x\n", 7, FaultKind::Form),
    (6, "limit 0\n", 7, FaultKind::Range),
    (6, "limit 1025\n", 7, FaultKind::Range),
];

/// The same behind a whole header.
static BODY_FAULTS: [FirstFault; 32] = [
    (7, "", 8, FaultKind::Unfinished),
    (7, "end", 8, FaultKind::Unfinished),
    (7, "end \n", 8, FaultKind::Form),
    (7, "ends\n", 8, FaultKind::Form),
    (7, "script 1 1\n", 8, FaultKind::Form),
    (7, "nav 1\n", 8, FaultKind::Form),
    (7, "clear 0\n", 8, FaultKind::Form),
    (7, "cost 1\n", 8, FaultKind::Form),
    (7, "cost 0 1\n", 8, FaultKind::Range),
    (7, "cost 64 1\n", 8, FaultKind::Range),
    (7, "cost 1 0\n", 8, FaultKind::Range),
    (7, "cost 1 1001\n", 8, FaultKind::Range),
    (7, "cost 2 5\ncost 2 6\n", 9, FaultKind::Order),
    (7, "cost 2 5\ncost 1 1001\n", 9, FaultKind::Range),
    (7, "cost 2 5\ncost 63 1", 9, FaultKind::Unfinished),
    (7, "span 0 0 0 1\n", 8, FaultKind::Form),
    (7, "span 0 0 0 1 0 0\n", 8, FaultKind::Form),
    (7, "span  0 0 0 1 0\n", 8, FaultKind::Form),
    (7, "span 0 0 0 01 0\n", 8, FaultKind::Form),
    (7, "span 6 0 0 1 0\n", 8, FaultKind::Range),
    (7, "span 0 6 0 1 0\n", 8, FaultKind::Range),
    (7, "span 0 0 1 1 0\n", 8, FaultKind::Range),
    (7, "span 0 0 0 8192 0\n", 8, FaultKind::Range),
    (7, "span 0 0 0 1 64\n", 8, FaultKind::Range),
    (
        7,
        "span 1 0 0 10 63\nspan 0 0 0 10 63\n",
        9,
        FaultKind::Order,
    ),
    (
        7,
        "span 0 1 0 10 63\nspan 5 0 0 10 63\n",
        9,
        FaultKind::Order,
    ),
    (
        7,
        "span 1 0 0 10 63\nspan 0 0 10 10 63\n",
        9,
        FaultKind::Range,
    ),
    (
        7,
        "span 0 0 0 10 63\nspan 0 0 9 12 0\n",
        9,
        FaultKind::Overlap,
    ),
    (7, "span 0 0 0 10 63\ncost 1 1\n", 9, FaultKind::Form),
    (7, "span 0 0 0 10 63\ncost 0 1\n", 9, FaultKind::Form),
    (
        7,
        "span 0 0 0 10 63\nspan 0 0 10 12 0",
        9,
        FaultKind::Unfinished,
    ),
    (
        7,
        "span 0 0 0 10 63\nspan 0 0 10 12 0\n",
        10,
        FaultKind::Unfinished,
    ),
];

fn check_faults(rt: &impl Abort, alloc: Global, faults: &[FirstFault]) {
    for (lines, tail, line, kind) in faults {
        let text = text_with(rt, alloc, *lines, tail);
        let found = fault_of(alloc, text.as_slice());
        check(rt, found == (*line, kind.number()), tail);
    }
}

#[test]
fn tells_the_first_fault(rt: HostRuntime) {
    check_faults(&rt, rt.alloc(), &HEADER_FAULTS);
}

#[test]
fn tells_the_first_fault_behind_the_header(rt: HostRuntime) {
    check_faults(&rt, rt.alloc(), &BODY_FAULTS);
}

/// Texts of the second form: what stands between `nav 2` and its size and the line `error`, what stands behind the line `limit`, and the line and
/// the kind of the first fault, zeros where there is none.
type SecondForm = (&'static str, &'static str, (u32, u32));

static SECOND_FORMS: [SecondForm; 18] = [
    ("tile 4\nagent 10 4 3\n", "clear 0\nend\n", (0, 0)),
    ("tile 4\nagent 10 4 2\n", "clear 1\nend\n", (0, 0)),
    (
        "tile 30\nagent 10 4 15\n",
        "clear 1\ncost 3 4\nend\n",
        (0, 0),
    ),
    ("tile 29\nagent 10 4 15\n", "clear 1\nend\n", (8, 2)),
    ("tile 4\nagent 10 4 3\n", "clear 1\nend\n", (8, 2)),
    ("tile 5\nagent 10 4 3\n", "clear 1\nend\n", (8, 2)),
    ("tile 6\nagent 10 4 3\n", "clear 1\nend\n", (0, 0)),
    ("tile 6\nagent 10 4 0\n", "clear 2\nend\n", (8, 2)),
    ("tile 6\nagent 10 4 0\n", "clear\nend\n", (8, 1)),
    ("tile 6\nagent 10 4 0\n", "clear 01\nend\n", (8, 1)),
    ("tile 6\nagent 10 4 0\n", "clear 1 1\nend\n", (8, 1)),
    ("tile 6\nagent 10 4 0\n", "clears 1\nend\n", (8, 1)),
    ("tile 6\nagent 10 4 0\n", "end\n", (8, 1)),
    ("tile 6\nagent 10 4 0\n", "cost 1 2\nclear 1\nend\n", (8, 1)),
    ("tile 6\nagent 10 4 0\n", "", (8, 7)),
    ("tile 6\nagent 10 4 0\n", "clear 1", (8, 7)),
    ("tile 6\nagent 10 4 0\n", "clear 1\nclear 1\nend\n", (9, 1)),
    ("tile 6\nagent 10 4 0\n", "clear 1\ncost 1 0\nend\n", (9, 2)),
];

/// A text of the second form.
pub(crate) fn second_form(rt: &impl Abort, alloc: Global, sizes: &str, tail: &str) -> Vec<u8> {
    let mut text = Vec::new(alloc);
    append(rt, &mut text, "nav 2\nsize 6 6\n", 1);
    append(rt, &mut text, sizes, 1);
    append(rt, &mut text, "error 169\nmesh strips\nlimit 4\n", 1);
    append(rt, &mut text, tail, 1);
    text
}

fn check_second_forms(rt: &impl Abort, alloc: Global, rows: &[SecondForm]) {
    for (sizes, tail, wanted) in rows {
        let text = second_form(rt, alloc, sizes, tail);
        check(rt, fault_of(alloc, text.as_slice()) == *wanted, tail);
    }
}

#[test]
fn tells_the_first_fault_of_clearance(rt: HostRuntime) {
    check_second_forms(&rt, rt.alloc(), &SECOND_FORMS);
}

/// What the line of clearance says, and how many lines the text has.
static CLEARANCES: [(&str, bool, u32); 3] = [
    ("clear 0\nend\n", false, 9),
    ("clear 1\nend\n", true, 9),
    (
        "clear 1\ncost 1 2\nspan 0 0 0 1 63\nend\nscript 1 1\n",
        true,
        11,
    ),
];

fn check_clearances(rt: &impl Abort, alloc: Global, rows: &[(&str, bool, u32)]) {
    for (tail, clear, lines) in rows {
        let text = second_form(rt, alloc, "tile 6\nagent 10 4 3\n", tail);
        match read_field(alloc, text.as_slice()) {
            Ok(read) => check(
                rt,
                read.setting.clear == *clear && read.lines == *lines,
                tail,
            ),
            Err(_) => check(rt, false, tail),
        }
    }
}

#[test]
fn reads_what_is_said_of_clearance(rt: HostRuntime) {
    check_clearances(&rt, rt.alloc(), &CLEARANCES);
}

fn append_span(rt: &impl Abort, text: &mut Vec<u8>, x: u32, bottom: u32) {
    append(rt, text, "span ", 1);
    push_number(text, i64::from(x)).expect(rt, "memory");
    append(rt, text, " 0 ", 1);
    push_number(text, i64::from(bottom)).expect(rt, "memory");
    append(rt, text, " ", 1);
    push_number(text, i64::from(bottom) + 1).expect(rt, "memory");
    append(rt, text, " 63\n", 1);
}

/// As many spans as a field may have: 4000 of height 1 over each other in each of 500 columns.
fn most_spans(rt: &impl Abort, alloc: Global) -> Vec<u8> {
    let mut text = Vec::new(alloc);
    append(rt, &mut text, MOST_HEADER, 1);
    for x in 0..500 {
        for bottom in 0..4000 {
            append_span(rt, &mut text, x, bottom);
        }
    }
    text
}

const MOST_HEADER: &str =
    "nav 1\nsize 500 1\ntile 6\nagent 10 4 0\nerror 169\nmesh strips\nlimit 4\n";

/// What stands behind them; the kind of the fault of line 2000008, or 0.
static BEHIND_MOST: [(&str, u32); 5] = [
    ("end\n", 0),
    ("span 499 0 8000 8001 63\n", 6),
    ("span\n", 6),
    ("spans 499 0 8000 8001 63\n", 1),
    ("span 499 0 8000 8001 63", 7),
];

fn check_behind_most(rt: &impl Abort, alloc: Global, text: &mut Vec<u8>, rows: &[(&str, u32)]) {
    let length = text.len();
    for (tail, kind) in rows {
        append(rt, text, *tail, 1);
        let wanted = if *kind == 0 { (0, 0) } else { (2000008, *kind) };
        check(rt, fault_of(alloc, text.as_slice()) == wanted, *tail);
        text.truncate(length);
    }
}

#[test]
fn takes_no_more_spans_than_it_may(rt: HostRuntime) {
    let mut text = most_spans(&rt, rt.alloc());
    check_behind_most(&rt, rt.alloc(), &mut text, &BEHIND_MOST);
}
