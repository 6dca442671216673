//! Registries of obstacles that are saved and restored, over a small flat ground. What is wanted was worked out by hand.

ghost use Rattle.std.specs.Prelude.{◌≡◌, ◌<◌, [], IfOk};
ghost use Rattle.nav_ground.specs.Limits.{IsShape};
ghost use Rattle.obstacle_registry.specs.Registry.{alive_now};

use crate::books::{Layout, flat_ground};
use nav_base::Steps;
use nav_book::Level;
use nav_ground::Shape;
use obstacle_registry::{Refused, Registry};
use std::alloc::{AllocError, Global};
use std::marker::Brand;
use std::process::Abort;
use std::sync::Arc;
use std::sync::ledger::{Blank, Ledger};
use std::test::*;
use tile_build::build_tiles;

/// A block over the column (x, 1).
fn block(x: u32) -> Shape
    ensures { IsShape result }
{
    let x = x.min(1023);
    Shape::Block {
        x0: x,
        x1: x,
        y0: 0,
        y1: 100,
        z0: 1,
        z1: 1,
    }
}

/// A level of a field of 7 by 4 columns, tiles of 4 and the limit 2.
fn level<L: Ledger>(alloc: Global, steps: &mut Steps<L>) -> Result<Level, AllocError>
    ensures { IfOk result (λ level. alive_now level ≡ []) }
{
    let ground = flat_ground(alloc, Layout::Two)?;
    let tiles = build_tiles(alloc, &ground, &[], steps)?;
    let ground = Arc::new(alloc, ground)?;
    Level::begin(alloc, ground, tiles)
}

fn opened<L: Ledger>(alloc: Global, blank: Blank) -> Option<Registry>
    requires name { blank.name ≡ L.name }
    requires parts { blank.parts ≡ L.parts }
    requires some { 0 < blank.parts }
{
    let mut steps = Steps::<L>::new(blank);
    let Ok(level) = level(alloc, &mut steps) else {
        return None;
    };
    let Ok(level) = Box::new(alloc, level) else {
        return None;
    };
    Registry::begin(alloc, level).ok()
}

fn begun(alloc: Global, rt: &impl Abort) -> Registry {
    opened::<Brand>(alloc, Blank::new(1)).expect(rt, "a registry")
}

/// What is saved of two obstacles, of which the second was put up first.
fn two_saved(alloc: Global, rt: &impl Abort) -> Vec<u8> {
    let mut registry = begun(alloc, rt);
    let _first = registry.add(block(1), 10);
    let _second = registry.add(block(5), 20);
    let _off = registry.enable(1, false);
    let _on = registry.enable(1, true);
    registry.save(alloc).expect(rt, "memory")
}

/// Of the two obstacles the ids, the host's numbers and the numbers of their entries; the version, and how many entries there are.
fn told(registry: &Registry) -> Option<[u64; 8]> {
    match registry.rows() {
        [first, second] => Some([
            first.id,
            first.user,
            first.number as u64,
            second.id,
            second.user,
            second.number as u64,
            registry.version(),
            registry.level().length() as u64,
        ]),
        _ => None,
    }
}

/// The field, the last id, the version and how many rows there are; and in which order they were put up.
#[test]
fn saves(rt: HostRuntime) {
    let bytes = two_saved(rt.alloc(), &rt);
    assert!(rt; bytes.len() == 224);
    let head = [
        7, 0, 0, 0, 4, 0, 0, 0, 4, 0, 0, 0, 2, 0, 0, 0, 2, 0, 0, 0, 0, 0, 0, 0, 0, 0, 0, 0, 0, 0,
        0, 0, 2, 0, 0, 0, 2, 0, 0, 0,
    ];
    assert_eq!(rt; &bytes[8..48], head.as_slice());
    assert_eq!(rt; &bytes[216..], [1, 0, 0, 0, 0, 0, 0, 0].as_slice());
}

#[test]
fn restores(rt: HostRuntime) {
    let bytes = two_saved(rt.alloc(), &rt);
    let mut registry = begun(rt.alloc(), &rt);
    let ends = [
        registry.add(block(3), 30).err(),
        registry.remove(1).err(),
        registry.add(block(3), 30).err(),
        registry.add(block(2), 40).err(),
        registry.restore(rt.alloc(), bytes.as_slice()).err(),
        registry.add(block(6), 0).err(),
    ];
    let wanted = [None, None, None, None, None, Some(Refused::TooMany)];
    assert_eq!(rt; ends.as_slice(), wanted.as_slice());
    assert_eq!(rt; told(&registry), Some([1, 10, 8, 2, 20, 7, 1, 8]));
    let _gone = registry.remove(1);
    assert_eq!(rt; registry.add(block(6), 0), Ok(4));
}

/// All bytes but the last.
fn without_last(bytes: &[u8]) -> &[u8] {
    match bytes {
        [front @ .., _] => front,
        [] => bytes,
    }
}

/// Bytes that end too soon, another limit, and the last version.
#[test]
fn refuses(rt: HostRuntime) {
    let bytes = two_saved(rt.alloc(), &rt);
    let mut registry = begun(rt.alloc(), &rt);
    let _only = registry.add(block(3), 30);
    let less = without_last(bytes.as_slice());
    let cut = registry.restore(rt.alloc(), less).err();
    let mut bytes = bytes;
    assert!(rt; bytes.len() == 224);
    bytes[20] = 3;
    let other = registry.restore(rt.alloc(), bytes.as_slice()).err();
    bytes[20] = 2;
    bytes[32..40].fill(255);
    let last = registry.restore(rt.alloc(), bytes.as_slice()).err();
    let wanted = [
        Some(Refused::NotSaved),
        Some(Refused::Foreign),
        Some(Refused::TooMany),
    ];
    assert_eq!(rt; [cut, other, last].as_slice(), wanted.as_slice());
    assert_eq!(rt; registry.rows().len(), 1);
}
