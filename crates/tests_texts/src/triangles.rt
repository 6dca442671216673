//! Triangle texts, and the line and kind of the first fault of wrong ones.

use crate::fields::text_with;
use crate::texts::{append, check};
use span_text::FieldRefusal;
use std::alloc::Global;
use std::process::Abort;
use tri_raster::{Corner3, Tri, read_triangles};

/// The kind of the fault and its line; where there is none, 0, and how many bytes the header has and how many triangles there are.
type Told = (u32, usize, usize);

/// A line that stands so often behind the seven lines of a header, the lines behind it, and what is told.
static TEXTS: [(&str, u32, &str, Told); 12] = [
    ("", 0, "end\n", (0, 65, 0)),
    (
        "",
        0,
        "cost 2 5\ntri 0 0 0 1 1 1 2 2 2 3\nend\n",
        (0, 74, 1),
    ),
    ("tri 0 10 0 96 10 0 96 10 96 63\n", 2, "end\n", (0, 65, 2)),
    (
        "tri 1 1 1 2 2 2 3 3 3 4\n",
        100001,
        "end\n",
        (13, 100008, 0),
    ),
    ("", 0, "tri 0 8191 0 0 0 0 0 0 0 1\nend\n", (2, 8, 0)),
    ("", 0, "tri 0 0 0 0 0 0 0 0 0 64\nend\n", (2, 8, 0)),
    ("", 0, "tri 0 0 0 0 0 0 0 0 1\nend\n", (1, 8, 0)),
    ("tri 1 1 1 2 2 2 3 3 3 4\n", 1, "cost 1 2\nend\n", (1, 9, 0)),
    ("", 0, "end\nend\n", (1, 9, 0)),
    ("tri 1 1 1 2 2 2 3 3 3 4\n", 1, "", (7, 9, 0)),
    ("tri 1 1 1 2 2 2 3 3 3 4\n", 1, "end", (7, 9, 0)),
    ("", 0, "cost 1 2\ncost 1 3\nend\n", (3, 9, 0)),
];

fn told_of(alloc: Global, text: &[u8]) -> Told {
    match read_triangles(alloc, text) {
        Ok(text) => (0, text.header, text.tris.len()),
        Err(FieldRefusal::Fault(fault)) => (fault.kind, fault.line as usize, 0),
        Err(FieldRefusal::OutOfMemory) => (99, 0, 0),
    }
}

fn check_texts(rt: &impl Abort, alloc: Global, rows: &[(&str, u32, &str, Told)]) {
    for (line, count, behind, wanted) in rows {
        let mut text = text_with(rt, alloc, 7, "");
        append(rt, &mut text, line, *count);
        append(rt, &mut text, behind, 1);
        check(rt, told_of(alloc, text.as_slice()) == *wanted, behind);
    }
}

#[test]
fn reads_triangle_texts(rt: HostRuntime) {
    check_texts(&rt, rt.alloc(), &TEXTS);
}

/// Whether one triangle is read of a text, and it is this.
fn is_read_as(alloc: Global, text: &[u8], wanted: Tri) -> bool {
    match read_triangles(alloc, text) {
        Ok(text) => text.tris.as_slice() == [wanted].as_slice(),
        Err(_) => false,
    }
}

#[test]
fn reads_the_corners(rt: HostRuntime) {
    let text = text_with(&rt, rt.alloc(), 7, "tri 1 2 3 4 5 6 7 8 9 10\nend\n");
    let wanted = Tri {
        a: Corner3 { x: 1, y: 2, z: 3 },
        b: Corner3 { x: 4, y: 5, z: 6 },
        c: Corner3 { x: 7, y: 8, z: 9 },
        area: 10,
    };
    check(
        &rt,
        is_read_as(rt.alloc(), text.as_slice(), wanted),
        "corners",
    );
}
