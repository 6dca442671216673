//! Made inputs and their summary. The wanted values were computed by a plain second program.

use crate::texts::check;
use nav_gen::{line_count, make, summary};
use nav_record::Totals;
use std::alloc::Global;
use std::process::Abort;

/// What a made input has to be.
struct Made {
    number: u32,
    size: u32,
    bytes: usize,
    lines: u32,
    /// The FNV-1a checksum of the whole text.
    checksum: u64,
}

static MADE: [Made; 4] = [
    Made {
        number: 1,
        size: 32,
        bytes: 32189,
        lines: 2369,
        checksum: 15360756578836748584,
    },
    Made {
        number: 0,
        size: 33,
        bytes: 33383,
        lines: 2434,
        checksum: 1418427810069095710,
    },
    Made {
        number: 7,
        size: 512,
        bytes: 5402082,
        lines: 263489,
        checksum: 6783307830249163253,
    },
    Made {
        number: 4294967295,
        size: 100,
        bytes: 201440,
        lines: 11345,
        checksum: 14370512266725516516,
    },
];

/// Parts of the text of number 1 and size 32, and where they begin: the header, a pillar, the first two rounds, the first `drop` and the last line.
static PARTS: [(usize, &str); 5] = [
    (
        0,
        "nav 1\nsize 32 32\ntile 32\nagent 10 4 2\nerror 169\nmesh contours\nlimit 64\nspan 0 0 0 11 63\nspan 1 0 0 11 63\nspan 2 0 0 11 63\n",
    ),
    (
        2011,
        "span 14 3 0 11 63\nspan 15 3 0 40 0\nspan 16 3 0 10 63\n",
    ),
    (
        18855,
        "span 31 31 0 10 63\nend\nscript 1 1\nadd cylinder 26 53 3 0 100\naim\nclaim 0\nsubmit 0\nclaim 0\nsubmit 0\nclaim 0\nsubmit 0\nclaim 0\nsubmit 0\nclaim 0\nsubmit 0\nclaim 0\nsubmit 0\nclaim 0\nsubmit 0\nclaim 0\nsubmit 0\npublish\npath 476 232 10 122 323 10\nadd cylinder 26 42 5 0 100\naim\nclaim 0\nsubmit 0\nclaim 0\nsubmit 0\nclaim 0\nsubmit 0\nclaim 0\nsubmit 0\nclaim 0\nsubmit 0\nclaim 0\nsubmit 0\nclaim 0\nsubmit 0\nclaim 0\nsubmit 0\npublish\npath 213 250 10 65 464 10\n",
    ),
    (20499, "add cylinder 14 45 3 0 100\ndrop 1\naim\n"),
    (32163, "path 377 348 10 332 67 10\n"),
];

fn checksum(text: &[u8]) -> u64 {
    let mut sum: u64 = 0xcbf2_9ce4_8422_2325;
    for byte in text {
        sum = (sum ^ u64::from(*byte)).wrapping_mul(0x0100_0000_01b3);
    }
    sum
}

fn count_lines(text: &[u8]) -> usize {
    text.iter().filter(|byte| **byte == b'\n').count()
}

fn check_made(rt: &impl Abort, alloc: Global, made: &[Made]) {
    for row in made {
        assert!(rt; 32 <= row.size && row.size <= 512);
        let text = make(alloc, row.number, row.size).expect(rt, "memory");
        let is_so = text.len() == row.bytes
            && count_lines(text.as_slice()) == row.lines as usize
            && line_count(row.size) == row.lines
            && checksum(text.as_slice()) == row.checksum;
        assert!(rt; is_so);
    }
}

fn check_parts(rt: &impl Abort, text: &[u8], parts: &[(usize, &str)]) {
    for (at, part) in parts {
        let is_there = match text.get(*at..) {
            Some(rest) => rest.starts_with(part.as_bytes()),
            None => false,
        };
        check(rt, is_there, part);
    }
}

#[test]
fn makes_inputs(rt: HostRuntime) {
    check_made(&rt, rt.alloc(), &MADE);
}

#[test]
fn makes_the_lines(rt: HostRuntime) {
    let text = make(rt.alloc(), 1, 32).expect(&rt, "memory");
    check_parts(&rt, text.as_slice(), &PARTS);
}

#[test]
fn writes_a_summary(rt: HostRuntime) {
    let totals = Totals {
        entries: 120,
        published: 119,
        paths: 1,
        nopath: 2,
        nostart: 48,
        nogoal: 13,
        cost: 18446744073709551615,
        polys: 40,
        links: 74,
    };
    let text = summary(rt.alloc(), 7, 32, 32189, 2369, &totals).expect(&rt, "memory");
    let wanted =
        "gen 7 32\ninput 32189 2369\nhistory 120 published 119\npaths 1 nopath 2 nostart 48 nogoal 13\ncost 18446744073709551615\nmesh 40 74\n";
    assert!(rt; text.as_slice() == wanted.as_bytes());
}
