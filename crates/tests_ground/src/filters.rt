//! Filters by hand, on fields of 3 by 3 columns: the middle one, which alone is not at the edge, and the four beside it.

ghost use Rattle.std.specs.Prelude.{◌≡◌, IsTrue, length};
ghost use Rattle.nav_ground.specs.Fields.{IsField, AreAreas};

use crate::checks::same;
use crate::rules::{are_areas, keeps_rules, small_spans};
use nav_ground::{Agent, Field, Span};
use span_filters::{filtered, ledges, low_ceilings, low_hanging};
use std::alloc::{AllocError, Global};
use std::process::Abort;

const AGENT: Agent = Agent {
    height: 10,
    climb: 4,
    radius: 0,
};

/// The column below the middle one, the one to its left, its own, the one to its right, and the one above it.
const BELOW: Span = Span {
    x: 1,
    z: 0,
    bottom: 0,
    top: 10,
    area: 63,
};

const LEFT: Span = Span {
    x: 0,
    z: 1,
    ..BELOW
};

const MIDDLE: Span = Span {
    x: 1,
    z: 1,
    ..BELOW
};

const RIGHT: Span = Span {
    x: 2,
    z: 1,
    ..BELOW
};

const ABOVE: Span = Span {
    x: 1,
    z: 2,
    ..BELOW
};

/// What may stand on or over the middle column.
const STEP: Span = Span {
    bottom: 10,
    top: 12,
    area: 0,
    ..MIDDLE
};

const NEXT_STEP: Span = Span {
    bottom: 12,
    top: 14,
    ..STEP
};

const HIGH_STEP: Span = Span {
    bottom: 10,
    top: 15,
    ..STEP
};

const ROOF: Span = Span {
    bottom: 20,
    top: 22,
    ..STEP
};

const LOW_ROOF: Span = Span {
    bottom: 19,
    top: 22,
    ..STEP
};

fn field_of(alloc: Global, spans: &[Span]) -> Result<Field, AllocError> {
    Ok(Field {
        width: 3,
        depth: 3,
        spans: small_spans(alloc, spans)?,
    })
}

/// What is asked for: one filter, or all three in a row.
#[derive(Clone, Copy)]
enum Asked {
    LowHanging,
    Ledges,
    LowCeilings,
    Filtered,
}

/// What is asked for, the spans of a field, the areas beside it for the filters that take some, and those that are left.
type Case = (Asked, &'static [Span], &'static [u32], &'static [u32]);

const LOW_LEFT: Span = Span { top: 6, ..LEFT };

const DEEP_LEFT: Span = Span { top: 5, ..LEFT };

const HIGH_RIGHT: Span = Span { top: 11, ..RIGHT };

const BRIDGE: Span = Span {
    bottom: 8,
    top: 10,
    ..LEFT
};

static CASES: [Case; 14] = [
    // One step stands on the middle column, two, or a high one.
    (
        Asked::LowHanging,
        &[BELOW, LEFT, MIDDLE, STEP, RIGHT, ABOVE],
        &[],
        &[63, 63, 63, 63, 63, 63],
    ),
    (
        Asked::LowHanging,
        &[BELOW, LEFT, MIDDLE, STEP, NEXT_STEP, RIGHT, ABOVE],
        &[],
        &[63, 63, 63, 63, 0, 63, 63],
    ),
    (
        Asked::LowHanging,
        &[BELOW, LEFT, MIDDLE, HIGH_STEP, RIGHT, ABOVE],
        &[],
        &[63, 63, 63, 0, 63, 63],
    ),
    // A floor that is flat enough; one too steep; a drop to the left; a hole there; and a bridge over the drop.
    (
        Asked::Ledges,
        &[BELOW, LOW_LEFT, MIDDLE, RIGHT, ABOVE],
        &[1, 2, 3, 4, 5],
        &[0, 0, 3, 0, 0],
    ),
    (
        Asked::Ledges,
        &[BELOW, LOW_LEFT, MIDDLE, HIGH_RIGHT, ABOVE],
        &[1, 2, 3, 4, 5],
        &[0, 0, 0, 0, 0],
    ),
    (
        Asked::Ledges,
        &[BELOW, DEEP_LEFT, MIDDLE, RIGHT, ABOVE],
        &[1, 2, 3, 4, 5],
        &[0, 0, 0, 0, 0],
    ),
    (
        Asked::Ledges,
        &[BELOW, MIDDLE, RIGHT, ABOVE],
        &[1, 3, 4, 5],
        &[0, 0, 0, 0],
    ),
    (
        Asked::Ledges,
        &[BELOW, DEEP_LEFT, BRIDGE, MIDDLE, RIGHT, ABOVE],
        &[1, 2, 2, 3, 4, 5],
        &[0, 0, 0, 3, 0, 0],
    ),
    // A roof as high as the agent, and one that is lower.
    (
        Asked::LowCeilings,
        &[BELOW, LEFT, MIDDLE, ROOF, RIGHT, ABOVE],
        &[1, 2, 3, 4, 5, 6],
        &[1, 2, 3, 4, 5, 6],
    ),
    (
        Asked::LowCeilings,
        &[BELOW, LEFT, MIDDLE, LOW_ROOF, RIGHT, ABOVE],
        &[1, 2, 3, 4, 5, 6],
        &[1, 2, 0, 4, 5, 6],
    ),
    // All three filters, on a step, two steps, a room and a low room.
    (
        Asked::Filtered,
        &[BELOW, LEFT, MIDDLE, STEP, RIGHT, ABOVE],
        &[],
        &[0, 0, 0, 63, 0, 0],
    ),
    (
        Asked::Filtered,
        &[BELOW, LEFT, MIDDLE, STEP, NEXT_STEP, RIGHT, ABOVE],
        &[],
        &[0, 0, 0, 0, 0, 0, 0],
    ),
    (
        Asked::Filtered,
        &[BELOW, LEFT, MIDDLE, ROOF, RIGHT, ABOVE],
        &[],
        &[0, 0, 63, 0, 0, 0],
    ),
    (
        Asked::Filtered,
        &[BELOW, LEFT, MIDDLE, LOW_ROOF, RIGHT, ABOVE],
        &[],
        &[0, 0, 0, 0, 0, 0],
    ),
];

/// Whether areas may stand beside a field.
fn are_beside(field: &Field, areas: &[u32]) -> bool
    ensures areas { IsTrue result → AreAreas areas.now }
    ensures beside { IsTrue result → length areas.now ≡ length field.now.spans }
{
    are_areas(areas) && areas.len() == field.spans.len()
}

/// What is left of the areas of a field, or of those beside it.
fn left(
    rt: &impl Abort,
    alloc: Global,
    asked: Asked,
    field: &Field,
    areas: &[u32],
) -> Result<Vec<u32>, AllocError>
    requires { IsField field.now }
{
    match asked {
        Asked::LowHanging => low_hanging(alloc, field, &AGENT),
        Asked::Ledges => {
            assert!(rt; are_beside(field, areas));
            ledges(alloc, field, areas, &AGENT)
        }
        Asked::LowCeilings => {
            assert!(rt; are_beside(field, areas));
            low_ceilings(alloc, field, areas, &AGENT)
        }
        Asked::Filtered => filtered(alloc, field, &AGENT),
    }
}

/// Whether a field keeps its rules, and just the areas wanted are left.
fn leaves(rt: &impl Abort, alloc: Global, field: &Field, case: &Case) -> Result<bool, AllocError> {
    let (asked, _, areas, wanted) = *case;
    assert!(rt; keeps_rules(field));
    Ok(left(rt, alloc, asked, field, areas)?.as_slice() == wanted)
}

fn is_right(rt: &impl Abort, alloc: Global, case: &Case) -> Result<bool, AllocError> {
    let field = field_of(alloc, case.1)?;
    leaves(rt, alloc, &field, case)
}

fn check(rt: &impl Abort, alloc: Global, cases: &[Case]) -> Result<(), AllocError> {
    for (number, case) in cases.iter().enumerate() {
        let is_right = is_right(rt, alloc, case)?;
        same(rt, (number, is_right), (number, true));
    }
    Ok(())
}

#[test]
fn filters_by_hand(rt: HostRuntime) -> Result<(), AllocError> {
    check(&rt, rt.alloc(), &CASES)
}
