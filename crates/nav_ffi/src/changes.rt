//! Which tiles a host has to look at again.

ghost use Rattle.std.specs.Prelude.{◌≡◌};
ghost use Rattle.nav_ffi.specs.Changing.{AreChanged};

use nav_handle::{EMPTY, NO_MEMORY, NavdLevel, OK, OUT_OF_RANGE, lay_numbers};
use std::alloc::Global;
use tile_changes::changed_tiles;

/// The tiles that may differ between a length of the history and what is published, rising; how many there are is left at
/// `count`.
#[unsafe(no_mangle)]
pub extern "C" fn navd_changed_tiles(
    alloc: Global,
    level: &mut NavdLevel,
    since: u32,
    tiles: &mut [u32],
    count: &mut usize,
) -> u32
    ensures told { AreChanged level.old.level since (count.old, tiles.old) (count.new, tiles.new) result }
    ensures same { level.new.level ≡ level.old.level }
{
    let Some(held) = level.take(alloc) else {
        return EMPTY;
    };
    if held.published() < since {
        level.put(held);
        return OUT_OF_RANGE;
    }
    let Ok(changed) = changed_tiles(alloc, &held, since) else {
        level.put(held);
        return NO_MEMORY;
    };
    *count = changed.len();
    lay_numbers(changed.as_slice(), tiles);
    level.put(held);
    OK
}
