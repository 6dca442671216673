//! Numbers as texts spell them.

use crate::checks::same;
use nav_base::{number_at, push_number, read_number};
use std::alloc::{AllocError, Global};
use std::process::Abort;

/// A text, the greatest number allowed, and the number that it spells.
static TEXTS: [(&str, u32, Option<u32>); 16] = [
    ("0", 0, Some(0)),
    ("00", 9, None),
    ("01", 9, None),
    ("7", 7, Some(7)),
    ("8", 7, None),
    ("1024", 1024, Some(1024)),
    ("4294967295", u32::MAX, Some(4294967295)),
    ("4294967296", u32::MAX, None),
    ("99999999999999999999999", u32::MAX, None),
    ("", u32::MAX, None),
    ("x", u32::MAX, None),
    ("12x", u32::MAX, None),
    (" 1", u32::MAX, None),
    ("1 ", u32::MAX, None),
    ("+1", u32::MAX, None),
    ("-1", u32::MAX, None),
];

fn check_texts(rt: &impl Abort, rows: &[(&str, u32, Option<u32>)]) {
    for (text, max, wanted) in rows {
        let number = read_number(text.as_bytes(), *max);
        same(rt, (*text, number), (*text, *wanted));
    }
}

#[test]
fn reads_numbers(rt: HostRuntime) {
    check_texts(&rt, &TEXTS);
    same(&rt, number_at(b"120 7"), Some((120, b" 7".as_slice())));
}

/// The numbers as a text, with a space after each.
fn written(alloc: Global, numbers: &[i64]) -> Result<Vec<u8>, AllocError> {
    let mut out = Vec::new(alloc);
    for n in numbers {
        push_number(&mut out, *n)?;
        out.push(b' ')?;
    }
    Ok(out)
}

#[test]
fn writes_numbers(rt: HostRuntime) -> Result<(), AllocError> {
    let out = written(rt.alloc(), &[0, 7, -1, 4294967295, i64::MAX, i64::MIN])?;
    let wanted = b"0 7 -1 4294967295 9223372036854775807 -9223372036854775808 ";
    same(&rt, out.as_slice(), wanted.as_slice());
    Ok(())
}
