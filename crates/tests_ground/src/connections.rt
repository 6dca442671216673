//! A small bridge, by hand.

ghost use Rattle.std.specs.Prelude.{IfOk};
ghost use Rattle.nav_ground.specs.Cells.{IsCompact};

use crate::checks::same;
use crate::rows::{CellRow, NO, are_same, check_cells, place};
use crate::rules::{keeps_rules, small_spans};
use compact_layer::{CompactField, compact, neighbour};
use nav_ground::{Agent, Field, Span};
use nav_lists::Duplicate;
use std::alloc::{AllocError, Global};
use std::process::Abort;

/// Three columns by two. A bridge crosses the second row; a step leads up to the column in the middle of the first, and boards hang over
/// two columns, which agents do not walk on.
static SPANS: [Span; 11] = [
    Span {
        x: 0,
        z: 0,
        bottom: 0,
        top: 10,
        area: 63,
    },
    Span {
        x: 1,
        z: 0,
        bottom: 0,
        top: 14,
        area: 63,
    },
    Span {
        x: 2,
        z: 0,
        bottom: 0,
        top: 10,
        area: 63,
    },
    Span {
        x: 2,
        z: 0,
        bottom: 20,
        top: 22,
        area: 0,
    },
    Span {
        x: 0,
        z: 1,
        bottom: 0,
        top: 10,
        area: 63,
    },
    Span {
        x: 0,
        z: 1,
        bottom: 30,
        top: 40,
        area: 63,
    },
    Span {
        x: 1,
        z: 1,
        bottom: 0,
        top: 10,
        area: 63,
    },
    Span {
        x: 1,
        z: 1,
        bottom: 19,
        top: 21,
        area: 0,
    },
    Span {
        x: 1,
        z: 1,
        bottom: 30,
        top: 40,
        area: 63,
    },
    Span {
        x: 2,
        z: 1,
        bottom: 0,
        top: 10,
        area: 63,
    },
    Span {
        x: 2,
        z: 1,
        bottom: 30,
        top: 45,
        area: 63,
    },
];

static BESIDE: [u32; 11] = [63, 5, 63, 0, 63, 63, 63, 0, 63, 63, 63];

const AGENT: Agent = Agent {
    height: 10,
    climb: 4,
    radius: 0,
};

static ROWS: [CellRow; 9] = [
    ((0, 0, 0), (10, 65535, 63), (NO, 0, 0, NO)),
    ((1, 0, 0), (14, 65535, 5), (0, NO, NO, NO)),
    ((2, 0, 0), (10, 20, 63), (NO, 0, NO, NO)),
    ((0, 1, 0), (10, 30, 63), (NO, NO, NO, 0)),
    ((0, 1, 1), (40, 65535, 63), (NO, NO, 1, NO)),
    ((1, 1, 0), (10, 19, 63), (NO, NO, NO, NO)),
    ((1, 1, 1), (40, 65535, 63), (1, NO, NO, NO)),
    ((2, 1, 0), (10, 30, 63), (NO, NO, NO, 0)),
    ((2, 1, 1), (45, 65535, 63), (NO, NO, NO, NO)),
];

fn field(alloc: Global) -> Result<Field, AllocError> {
    Ok(Field {
        width: 3,
        depth: 2,
        spans: small_spans(alloc, &SPANS)?,
    })
}

/// The number of a cell, a direction, and the place of its neighbour there.
type Beside = (usize, u32, Option<(u16, u16, u16)>);

static NEIGHBOURS: [Beside; 8] = [
    (0, 0, None),
    (0, 1, Some((0, 1, 0))),
    (0, 2, Some((1, 0, 0))),
    (1, 0, Some((0, 0, 0))),
    (3, 3, Some((0, 0, 0))),
    (4, 2, Some((1, 1, 1))),
    (6, 0, Some((0, 1, 1))),
    (6, 2, None),
];

fn check_neighbours(rt: &impl Abort, compact: &CompactField, rows: &[Beside])
    requires { IsCompact compact.now.cells }
{
    let cells = compact.cells.as_slice();
    for (i, dir, wanted) in rows {
        assert!(rt; *i < cells.len() && *dir < 4);
        let found = neighbour(compact, cells[*i].at(), *dir);
        same(rt, (*i, *dir, found), (*i, *dir, wanted.map(place)));
    }
}

/// A copy is equal.
fn check_copy(rt: &impl Abort, alloc: Global, cells: &CompactField) -> Result<(), AllocError> {
    let copy = cells.duplicate(alloc)?;
    assert!(rt; are_same(copy.cells.as_slice(), cells.cells.as_slice()));
    Ok(())
}

fn check(rt: &impl Abort, alloc: Global, compact: &CompactField) -> Result<(), AllocError>
    requires { IsCompact compact.now.cells }
{
    check_cells(rt, compact.cells.as_slice(), &ROWS);
    check_neighbours(rt, compact, &NEIGHBOURS);
    check_copy(rt, alloc, compact)
}

fn connected(rt: &impl Abort, alloc: Global) -> Result<CompactField, AllocError>
    ensures { IfOk result (λ compact. IsCompact compact.cells) }
{
    let field = field(alloc)?;
    assert!(rt; keeps_rules(&field));
    assert!(rt; field.spans.len() == BESIDE.len());
    compact(alloc, &field, &BESIDE, &AGENT)
}

#[test]
fn bridge(rt: HostRuntime) -> Result<(), AllocError> {
    let compact = connected(&rt, rt.alloc())?;
    check(&rt, rt.alloc(), &compact)
}
