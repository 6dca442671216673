//! Prisms and discs by hand: all numbers of bases, centres and radii are in sixteenths of a cell.

ghost use Rattle.std.specs.Prelude.{◌≤◌};
ghost use Rattle.nav_ground.specs.Limits.{IsShape};

use crate::checks::same;
use nav_base::Point;
use nav_ground::{Shape, Window, bounds, covers, prism_base, sets};
use std::process::Abort;

/// The columns 0 to 7 of the rows 0 to 7 that are covered: a row's number has a bit for each of its columns, the least one for column 0.
type Columns = [u32; 8];

const NONE: Columns = [0; 8];

fn at(x: i32, z: i32) -> Point {
    Point { x, z }
}

fn prism(rt: &impl Abort, corners: &[Point], area: u32) -> Shape
    requires { area ≤ 63 }
    ensures { IsShape result }
{
    Shape::Prism {
        base: prism_base(corners).expect(rt, "a base"),
        area,
        y0: 0,
        y1: 10,
    }
}

fn check_columns(rt: &impl Abort, shape: &Shape, wanted: &Columns)
    requires { IsShape shape.now }
{
    for z in 0..8 {
        for x in 0..8 {
            let is_covered = covers(shape, x, z, 5);
            let is_wanted = (wanted[z as usize] >> x) & 1 == 1;
            same(rt, (x, z, is_covered), (x, z, is_wanted));
        }
    }
}

/// What a base covers where it stops agents, and where it sets an area.
fn check_base(rt: &impl Abort, corners: &[Point], stopped: &Columns, painted: &Columns) {
    check_columns(rt, &prism(rt, corners, 0), stopped);
    check_columns(rt, &prism(rt, corners, 7), painted);
}

fn square() -> [Point; 4] {
    [at(16, 16), at(48, 16), at(48, 48), at(16, 48)]
}

fn moved() -> [Point; 4] {
    [at(17, 17), at(49, 17), at(49, 49), at(17, 49)]
}

fn on_a_line() -> [Point; 4] {
    [at(15, 16), at(17, 16), at(17, 80), at(15, 80)]
}

fn in_a_column() -> [Point; 4] {
    [at(20, 16), at(22, 16), at(22, 80), at(20, 80)]
}

fn by_middles() -> [Point; 4] {
    [at(8, 8), at(40, 8), at(40, 40), at(8, 40)]
}

fn diagonal() -> [Point; 4] {
    [at(16, 20), at(20, 16), at(84, 80), at(80, 84)]
}

fn triangle() -> [Point; 3] {
    [at(0, 0), at(48, 0), at(0, 48)]
}

#[test]
fn bases_cover_columns(rt: HostRuntime) {
    check_base(
        &rt,
        &square(),
        &[0, 6, 6, 0, 0, 0, 0, 0],
        &[0, 6, 6, 0, 0, 0, 0, 0],
    );
    check_base(
        &rt,
        &moved(),
        &[0, 14, 14, 14, 0, 0, 0, 0],
        &[0, 6, 6, 0, 0, 0, 0, 0],
    );
    check_base(&rt, &on_a_line(), &[0, 3, 3, 3, 3, 0, 0, 0], &NONE);
    check_base(&rt, &in_a_column(), &[0, 2, 2, 2, 2, 0, 0, 0], &NONE);
    check_base(
        &rt,
        &by_middles(),
        &[7, 7, 7, 0, 0, 0, 0, 0],
        &[7, 7, 7, 0, 0, 0, 0, 0],
    );
    check_base(
        &rt,
        &diagonal(),
        &[0, 6, 14, 28, 56, 48, 0, 0],
        &[0, 2, 4, 8, 16, 0, 0, 0],
    );
    check_base(
        &rt,
        &triangle(),
        &[7, 3, 1, 0, 0, 0, 0, 0],
        &[7, 3, 1, 0, 0, 0, 0, 0],
    );
}

/// A door askew, as thick as the diagonal of one sixteenth; it lies beside the middles, and its columns hang together edge to edge.
fn door() -> [Point; 4] {
    [at(16, 20), at(17, 19), at(81, 83), at(80, 84)]
}

/// Partly outside the field.
fn over_the_corner() -> [Point; 4] {
    [at(-20, -20), at(20, -20), at(20, 20), at(-20, 20)]
}

#[test]
fn thin_doors_do_not_leak(rt: HostRuntime) {
    check_base(&rt, &door(), &[0, 2, 6, 12, 24, 48, 0, 0], &NONE);
    check_base(
        &rt,
        &over_the_corner(),
        &[3, 3, 0, 0, 0, 0, 0, 0],
        &[1, 0, 0, 0, 0, 0, 0, 0],
    );
}

fn check_bounds(rt: &impl Abort, shape: &Shape, wanted: Window, area: Option<u32>)
    requires { IsShape shape.now }
{
    same(rt, (bounds(shape), sets(shape)), (wanted, area));
}

fn widest() -> [Point; 3] {
    [at(-16384, -16384), at(81920, -16384), at(81920, 81920)]
}

#[test]
fn bases_have_bounds(rt: HostRuntime) {
    let around = Window {
        x0: -2,
        x1: 1,
        z0: -2,
        z1: 1,
    };
    check_bounds(&rt, &prism(&rt, &over_the_corner(), 0), around, None);
    let whole = Window {
        x0: -1024,
        x1: 5119,
        z0: -1024,
        z1: 5119,
    };
    check_bounds(&rt, &prism(&rt, &widest(), 7), whole, Some(7));
}

/// Corners, and whether they are those of a base.
fn check_corners(rt: &impl Abort, corners: &[Point], wanted: bool) {
    same(
        rt,
        (corners.len(), prism_base(corners).is_some()),
        (corners.len(), wanted),
    );
}

fn seven() -> [Point; 7] {
    [
        at(0, 10),
        at(4, 2),
        at(12, 0),
        at(20, 2),
        at(24, 10),
        at(16, 20),
        at(8, 20),
    ]
}

fn clockwise() -> [Point; 4] {
    [at(16, 16), at(16, 48), at(48, 48), at(48, 16)]
}

fn twice() -> [Point; 4] {
    [at(16, 16), at(48, 16), at(48, 16), at(16, 48)]
}

fn straight() -> [Point; 4] {
    [at(16, 16), at(32, 16), at(48, 16), at(16, 48)]
}

fn too_low() -> [Point; 3] {
    [at(-16385, 0), at(0, 0), at(0, 16)]
}

fn too_high() -> [Point; 3] {
    [at(0, 0), at(16, 0), at(0, 81921)]
}

#[test]
fn corners_of_bases(rt: HostRuntime) {
    check_corners(&rt, &seven()[..6], true);
    check_corners(&rt, &seven(), false);
    check_corners(&rt, &square()[..2], false);
    check_corners(&rt, &widest(), true);
    check_corners(&rt, &too_low(), false);
    check_corners(&rt, &too_high(), false);
    check_corners(&rt, &clockwise(), false);
    check_corners(&rt, &twice(), false);
    check_corners(&rt, &straight(), false);
}

const EIGHT: Shape = Shape::Disc {
    x: 24,
    z: 24,
    r: 8,
    area: 0,
    y0: 0,
    y1: 10,
};

const NINE: Shape = Shape::Disc {
    x: 24,
    z: 24,
    r: 9,
    area: 0,
    y0: 0,
    y1: 10,
};

const ELEVEN: Shape = Shape::Disc {
    x: 24,
    z: 24,
    r: 11,
    area: 0,
    y0: 0,
    y1: 10,
};

const TWELVE: Shape = Shape::Disc {
    x: 24,
    z: 24,
    r: 12,
    area: 0,
    y0: 0,
    y1: 10,
};

const ON_A_CORNER: Shape = Shape::Disc {
    x: 16,
    z: 16,
    r: 1,
    area: 0,
    y0: 0,
    y1: 10,
};

const SMALL_POND: Shape = Shape::Disc {
    x: 24,
    z: 24,
    r: 15,
    area: 9,
    y0: 0,
    y1: 10,
};

const POND: Shape = Shape::Disc {
    x: 24,
    z: 24,
    r: 16,
    area: 9,
    y0: 0,
    y1: 10,
};

#[test]
fn discs_cover_columns(rt: HostRuntime) {
    check_columns(&rt, &EIGHT, &[0, 2, 0, 0, 0, 0, 0, 0]);
    check_columns(&rt, &NINE, &[2, 7, 2, 0, 0, 0, 0, 0]);
    check_columns(&rt, &ELEVEN, &[2, 7, 2, 0, 0, 0, 0, 0]);
    check_columns(&rt, &TWELVE, &[7, 7, 7, 0, 0, 0, 0, 0]);
    check_columns(&rt, &ON_A_CORNER, &[3, 3, 0, 0, 0, 0, 0, 0]);
    check_columns(&rt, &SMALL_POND, &[0, 2, 0, 0, 0, 0, 0, 0]);
    check_columns(&rt, &POND, &[2, 7, 2, 0, 0, 0, 0, 0]);
}

const LEAST: Shape = Shape::Disc {
    x: -16384,
    z: 81920,
    r: 1,
    area: 0,
    y0: 0,
    y1: 10,
};

const GREATEST: Shape = Shape::Disc {
    x: 81920,
    z: -16384,
    r: 16384,
    area: 63,
    y0: 0,
    y1: 10,
};

#[test]
fn discs_have_bounds(rt: HostRuntime) {
    let small = Window {
        x0: -1025,
        x1: -1024,
        z0: 5119,
        z1: 5120,
    };
    check_bounds(&rt, &LEAST, small, None);
    let large = Window {
        x0: 4096,
        x1: 6143,
        z0: -2048,
        z1: -1,
    };
    check_bounds(&rt, &GREATEST, large, Some(63));
}
