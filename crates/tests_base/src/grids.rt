//! Floats on the grids of cells and height units, and frames.

use crate::checks::same;
use std::process::Abort;
use world_grid::{
    Frame, FramePlace, GridStep, STEP_LIMIT, WorldPoint, dequantize, frame_of, place_of, point_of,
    quantize, step_of,
};

/// In cells of 1: a float, and how many sixteenths it is.
static WHOLE_CELLS: [(f32, Option<i64>); 10] = [
    (0.03125, Some(0)),
    (0.09375, Some(2)),
    (-0.09375, Some(-2)),
    (-0.03125, Some(0)),
    (-0.0, Some(0)),
    (1e-45, Some(0)),
    (524287.9375, Some(8388607)),
    (524287.96875, None),
    (f32::NAN, None),
    (f32::INFINITY, None),
];

/// In cells of 0.3.
static CELLS: [(f32, Option<i64>); 5] = [
    (0.3, Some(16)),
    (1.0, Some(53)),
    (-1.0, Some(-53)),
    (0.03125, Some(2)),
    (157000.0, Some(8373333)),
];

/// In cells of 0.2: the first is 2.49999996 sixteenths.
static SMALL_CELLS: [(f32, Option<i64>); 2] = [(0.03125, Some(2)), (0.09375, Some(7))];

/// In cells of 0.3: how many sixteenths, and the float nearest to them.
static TOLD: [(i32, f32); 4] = [
    (53, 0.99375004),
    (-53, -0.99375004),
    (8388607, 157286.39),
    (0, 0.0),
];

/// A size, and whether a cell may have it.
static SIZES: [(f32, bool); 7] = [
    (0.0009765625, true),
    (1024.0, true),
    (0.00097656245, false),
    (1024.0001, false),
    (0.0, false),
    (-1.0, false),
    (f32::NAN, false),
];

fn check_steps(rt: &impl Abort, size: f32, rows: &[(f32, Option<i64>)]) {
    let step = step_of(size, 4).expect(rt, "a size");
    for (x, wanted) in rows {
        same(rt, quantize(*x, step, STEP_LIMIT), *wanted);
    }
}

#[test]
fn floats_to_steps(rt: HostRuntime) {
    check_steps(&rt, 1.0, &WHOLE_CELLS);
    check_steps(&rt, 0.3, &CELLS);
    check_steps(&rt, 0.2, &SMALL_CELLS);
}

fn check_told(rt: &impl Abort, step: GridStep, rows: &[(i32, f32)]) {
    for (n, wanted) in rows {
        if n.unsigned_abs() < 0x80_0000 {
            let x = dequantize(*n, step);
            same(rt, x == *wanted, true);
        }
    }
}

#[test]
fn steps_to_floats(rt: HostRuntime) {
    check_told(&rt, step_of(0.3, 4).expect(&rt, "a size"), &TOLD);
}

fn check_sizes(rt: &impl Abort, rows: &[(f32, bool)]) {
    for (size, wanted) in rows {
        same(rt, step_of(*size, 12).is_some(), *wanted);
    }
}

#[test]
fn sizes_of_cells(rt: HostRuntime) {
    check_sizes(&rt, &SIZES);
}

fn point(x: f32, y: f32, z: f32) -> WorldPoint {
    WorldPoint { x, y, z }
}

#[test]
fn frames_begin_at_whole_cells(rt: HostRuntime) {
    // -0.1 is half a height unit below 0, and 5.33 sixteenths of a cell.
    let field = frame_of(0.3, 0.2, point(-0.1, -0.1, 0.0), point(3.0, 2.0, 3.0)).expect(
        &rt, "a field",
    );
    let frame = field.frame;
    same(&rt, (frame.x, frame.y, frame.z), (-1, 0, 0));
    same(&rt, (field.width, field.depth), (11, 10));
}

#[test]
fn frames_hold_1024_columns(rt: HostRuntime) {
    let most = frame_of(0.3, 0.2, point(0.0, 0.0, 0.0), point(307.2, 0.0, 0.0));
    same(
        &rt,
        most.map(|field| (field.width, field.depth)),
        Some((1024, 1)),
    );
    let wide = frame_of(0.3, 0.2, point(0.0, 0.0, 0.0), point(307.3, 0.0, 0.0));
    same(&rt, wide.is_some(), false);
}

#[test]
fn places_back_to_points(rt: HostRuntime) {
    let frame = Frame {
        cell_size: 0.25,
        cell_height: 0.5,
        x: -2,
        y: 3,
        z: 0,
    };
    let place = FramePlace {
        x: 40,
        y: 7,
        z: -16,
    };
    let at = point_of(frame, place).expect(&rt, "a point");
    // -2 cells and 40 sixteenths are half a cell; 10 units of a half; a cell before 0.
    same(&rt, (at.x, at.y, at.z), (0.125, 5.0, -0.25));
    same(&rt, place_of(frame, at), Some(place));
    let far = FramePlace {
        x: 0x7f_ffff,
        y: 0,
        z: 0,
    };
    same(&rt, point_of(Frame { x: 1, ..frame }, far).is_some(), false);
}
