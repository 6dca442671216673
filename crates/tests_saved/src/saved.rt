//! The bytes of a saved registry.

use nav_base::Point;
use nav_ground::{PrismBase, Shape};
use nav_lists::Items;
use registry_format::{
    SavedFault, SavedField, SavedObstacle, SavedRegistry, read_saved, save_bytes,
};
use std::alloc::Global;
use std::process::Abort;
use std::test::*;

/// The bytes of a registry of a field of 64 by 32 columns, tiles of 16 and the limit 8, with two obstacles: a block and a disc, of which the disc is on.
static BYTES: [u8; 220] = [
    110, 97, 118, 100, 1, 0, 0, 0, 64, 0, 0, 0, 32, 0, 0, 0, 16, 0, 0, 0, 8, 0, 0, 0, // the field
    5, 0, 0, 0, 1, 0, 0, 0, 9, 0, 0, 0, 0, 0, 0, 0, 2, 0, 0, 0, 1, 0, 0, 0, // last id, version, counts
    3, 0, 0, 0, 0, 0, 0, 0, 4, 0, 0, 0, 0, 0, 0, 0, // the first id, and the host's number
    0, 0, 0, 0, 0, 0, 0, 0, 30, 0, 0, 0, 31, 0, 0, 0, 10, 0, 0, 0, 11, 0, 0, 0, 20, 0, 0, 0, 21, 0,
    0, 0, // a block
    0, 0, 0, 0, 0, 0, 0, 0, 0, 0, 0, 0, 0, 0, 0, 0, 0, 0, 0, 0, 0, 0, 0, 0, 0, 0, 0, 0, 0, 0, 0, 0,
    0, 0, 0, 0, 5, 0, 0, 0, 1, 0, 0, 0, 255, 255, 255, 255, 255, 255, 255, 255, // the second id, above 2^32
    3, 0, 0, 0, 7, 0, 0, 0, 1, 0, 0, 0, 2, 0, 0, 0, 255, 255, 255, 255, 0, 1, 0, 0, 16, 0, 0, 0, // a disc at (-1, 256)
    0, 0, 0, 0, 0, 0, 0, 0, 0, 0, 0, 0, 0, 0, 0, 0, 0, 0, 0, 0, 0, 0, 0, 0, 0, 0, 0, 0, 0, 0, 0, 0,
    0, 0, 0, 0, 0, 0, 0, 0, // a tenth of what the disc does not need
    1, 0, 0, 0, // the place of the disc
];

fn block() -> Shape {
    Shape::Block {
        x0: 10,
        x1: 11,
        y0: 30,
        y1: 31,
        z0: 20,
        z1: 21,
    }
}

fn disc() -> Shape {
    Shape::Disc {
        x: -1,
        z: 256,
        r: 16,
        area: 7,
        y0: 1,
        y1: 2,
    }
}

fn prism() -> Shape {
    let far = Point { x: 7, z: 8 };
    Shape::Prism {
        base: PrismBase {
            count: 3,
            corners: [
                Point { x: 0, z: 0 },
                Point { x: 16, z: 0 },
                Point { x: 0, z: 16 },
                far,
                far,
                far,
            ],
        },
        area: 0,
        y0: 3,
        y1: 4,
    }
}

const FIELD: SavedField = SavedField {
    width: 64,
    depth: 32,
    tile: 16,
    limit: 8,
};

fn registry(alloc: Global, shapes: [Shape; 2], on: &[u32], rt: &impl Abort) -> SavedRegistry {
    let [first, second] = shapes;
    let rows = [
        SavedObstacle {
            id: 3,
            user: 4,
            shape: first,
        },
        SavedObstacle {
            id: 4294967301,
            user: 18446744073709551615,
            shape: second,
        },
    ];
    SavedRegistry {
        field: FIELD,
        last: 4294967301,
        version: 9,
        rows: Items::from_vec(Vec::from_slice(alloc, &rows).expect(rt, "memory")),
        on: Items::from_vec(Vec::from_slice(alloc, on).expect(rt, "memory")),
    }
}

/// The bytes of a registry with few rows.
fn bytes_of(alloc: Global, saved: &SavedRegistry, rt: &impl Abort) -> Vec<u8> {
    assert!(rt; saved.rows.len() < 1000);
    assert!(rt; saved.on.len() < 1000);
    save_bytes(alloc, saved).expect(rt, "memory")
}

#[test]
fn two_obstacles(rt: HostRuntime) {
    let saved = registry(rt.alloc(), [block(), disc()], &[1], &rt);
    let bytes = bytes_of(rt.alloc(), &saved, &rt);
    assert_eq!(rt; bytes.as_slice(), BYTES.as_slice());
}

#[test]
fn read_again(rt: HostRuntime) {
    let saved = read_saved(rt.alloc(), &BYTES)
        .ok()
        .expect(&rt, "a saved registry");
    assert_eq!(rt; saved.field, FIELD);
    assert_eq!(rt; saved.last, 4294967301);
    assert_eq!(rt; saved.version, 9);
    assert_eq!(rt; saved.on.as_slice(), [1].as_slice());
    let rows = saved.rows.as_slice();
    assert_eq!(rt; rows.len(), 2);
    assert_eq!(rt; rows[0].id, 3);
    assert_eq!(rt; rows[0].shape, block());
    assert_eq!(rt; rows[1].user, 18446744073709551615);
    assert_eq!(rt; rows[1].shape, disc());
}

/// All six places of a prism's base are kept.
#[test]
fn prisms(rt: HostRuntime) {
    let saved = registry(rt.alloc(), [prism(), block()], &[1, 0], &rt);
    let bytes = bytes_of(rt.alloc(), &saved, &rt);
    assert_eq!(rt; bytes.len(), 48 + 2 * 84 + 2 * 4);
    let again = read_saved(rt.alloc(), bytes.as_slice())
        .ok()
        .expect(&rt, "a saved registry");
    let rows = again.rows.as_slice();
    assert_eq!(rt; rows.len(), 2);
    assert_eq!(rt; rows[0].shape, prism());
    assert_eq!(rt; again.on.as_slice(), [1, 0].as_slice());
}

/// A place, and the byte there instead: then no registry has these bytes.
static OTHERS: [(usize, u8); 12] = [
    (0, 111), // another word in front
    (4, 2), // another version
    (20, 0), // none may be on
    (24, 4), // an id above the last
    (40, 3), // more rows than there are
    (44, 0), // fewer on than there are
    (48, 0), // no id
    (64, 4), // no kind
    (72, 32), // heights that run backwards
    (84, 9), // columns that run backwards
    (120, 1), // a number behind the last
    (216, 2), // no such place
];

#[test]
fn other_bytes(rt: HostRuntime) {
    for other in &OTHERS {
        let mut bytes = BYTES;
        bytes[other.0] = other.1;
        let why = read_saved(rt.alloc(), &bytes).err();
        assert_eq!(rt; why, Some(SavedFault::NotSaved));
    }
}

#[test]
fn less_bytes(rt: HostRuntime) {
    for length in [0, 1, 47, 48, 216, 219] {
        let why = read_saved(rt.alloc(), &BYTES[..length]).err();
        assert_eq!(rt; why, Some(SavedFault::NotSaved));
    }
}
