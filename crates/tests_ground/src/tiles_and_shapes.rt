//! Tiles and shapes by hand.

ghost use Rattle.nav_ground.specs.Limits.{IsShape};

use crate::checks::same;
use nav_ground::{
    AREAS, Agent, MeshKind, Setting, Shape, Window, bounds, covers, sets, tile_bounds, tiles,
    touches,
};
use nav_lists::Duplicate;
use std::alloc::AllocError;
use std::process::Abort;

/// 10 by 7 columns in tiles of 4: three tiles in a row, two rows.
const SETTING: Setting = Setting {
    width: 10,
    depth: 7,
    tile: 4,
    agent: Agent {
        height: 8,
        climb: 3,
        radius: 0,
    },
    error: 100,
    mesh: MeshKind::Strips,
    limit: 9,
    costs: [1; AREAS],
    clear: false,
};

const BLOCK: Shape = Shape::Block {
    x0: 2,
    x1: 4,
    y0: 3,
    y1: 5,
    z0: 1,
    z1: 6,
};

/// The centre is the edge between columns 2 and 3 along x, and the middle of column 2 along z.
const DISC: Shape = Shape::Cylinder {
    cx: 6,
    cz: 5,
    r: 2,
    y0: 0,
    y1: 10,
};

/// As the disc, half a column to the left.
const DISC_LEFT: Shape = Shape::Cylinder {
    cx: 5,
    cz: 5,
    r: 2,
    y0: 0,
    y1: 10,
};

const MUD: Shape = Shape::AreaBlock {
    area: 7,
    x0: 0,
    x1: 0,
    y0: 0,
    y1: 8191,
    z0: 1023,
    z1: 1023,
};

/// Beyond the edge of the field at x, and at the last corner at z.
const POND: Shape = Shape::AreaCylinder {
    area: 63,
    cx: 1,
    cz: 2048,
    r: 1,
    y0: 0,
    y1: 0,
};

fn window(x0: i32, x1: i32, z0: i32, z1: i32) -> Window {
    Window { x0, x1, z0, z1 }
}

fn check_bounds(rt: &impl Abort, wanted: &[Window]) {
    assert!(rt; wanted.len() == tiles(&SETTING) as usize);
    for tile in 0..tiles(&SETTING) {
        let columns = tile_bounds(&SETTING, tile);
        same(rt, (tile, columns), (tile, wanted[tile as usize]));
    }
}

#[test]
fn tiles_by_hand(rt: HostRuntime) -> Result<(), AllocError> {
    let wanted = [
        window(0, 3, 0, 3),
        window(4, 7, 0, 3),
        window(8, 9, 0, 3),
        window(0, 3, 4, 6),
        window(4, 7, 4, 6),
        window(8, 9, 4, 6),
    ];
    check_bounds(&rt, &wanted);
    same(&rt, SETTING.duplicate(rt.alloc())?, SETTING);
    Ok(())
}

/// A column, the height of a floor, and whether the shape covers that.
type Covered = (u32, u32, u32, bool);

static BY_BLOCK: [Covered; 8] = [
    (2, 1, 3, true),
    (4, 6, 5, true),
    (1, 1, 3, false),
    (5, 6, 5, false),
    (2, 0, 3, false),
    (4, 7, 5, false),
    (2, 1, 2, false),
    (4, 6, 6, false),
];

static BY_DISC: [Covered; 6] = [
    (4, 4, 10, true),
    (4, 4, 11, false),
    (5, 2, 0, true),
    (0, 2, 0, true),
    (0, 1, 0, false),
    (6, 2, 0, false),
];

static BY_DISC_LEFT: [Covered; 3] = [(4, 4, 0, false), (3, 4, 0, true), (u32::MAX, 4, 0, false)];

fn check_covers(rt: &impl Abort, shape: &Shape, rows: &[Covered])
    requires { IsShape shape.now }
{
    for (x, z, floor, wanted) in rows {
        let covered = covers(shape, *x, *z, *floor);
        same(rt, (*x, *z, *floor, covered), (*x, *z, *floor, *wanted));
    }
}

#[test]
fn shapes_cover_columns(rt: HostRuntime) {
    check_covers(&rt, &BLOCK, &BY_BLOCK);
    check_covers(&rt, &DISC, &BY_DISC);
    check_covers(&rt, &DISC_LEFT, &BY_DISC_LEFT);
}

#[test]
fn shapes_have_bounds(rt: HostRuntime) {
    same(
        &rt,
        (bounds(&BLOCK), sets(&BLOCK)),
        (window(2, 4, 1, 6), None),
    );
    same(
        &rt,
        (bounds(&DISC), sets(&DISC)),
        (window(0, 5, 0, 4), None),
    );
    same(
        &rt,
        (bounds(&MUD), sets(&MUD)),
        (window(0, 0, 1023, 1023), Some(7)),
    );
    same(
        &rt,
        (bounds(&POND), sets(&POND)),
        (window(-1, 1, 1022, 1025), Some(63)),
    );
}

/// A block in the columns that tile 2 would have, were it not cut at the field's edge.
const BEYOND: Shape = Shape::Block {
    x0: 10,
    x1: 11,
    y0: 0,
    y1: 0,
    z0: 0,
    z1: 3,
};

fn check_touches(rt: &impl Abort, shape: &Shape, wanted: &[bool; 6])
    requires { IsShape shape.now }
{
    for tile in 0..6 {
        let is_touched = touches(&SETTING, tile, shape);
        same(rt, (tile, is_touched), (tile, wanted[tile as usize]));
    }
}

#[test]
fn touched_tiles_by_hand(rt: HostRuntime) {
    let around = [true, true, false, true, true, false];
    check_touches(&rt, &BLOCK, &around);
    check_touches(&rt, &DISC, &around);
    check_touches(&rt, &DISC_LEFT, &around);
    check_touches(&rt, &MUD, &[false; 6]);
    check_touches(&rt, &POND, &[false; 6]);
    check_touches(&rt, &BEYOND, &[false; 6]);
}
