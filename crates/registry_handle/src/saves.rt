//! A registry saved into the bytes of a host, and restored from them.

ghost use Rattle.std.specs.Prelude.{◌≡◌, Some};
ghost use Rattle.registry_handle.specs.Saves.{AreLaid, IsRestoredFrom, IsSaving};

use crate::changes::refusal_status;
use crate::handle::NavdRegistry;
use nav_handle::{EMPTY, NO_MEMORY, NO_ROOM, OK};
use obstacle_registry::Registry;
use std::alloc::Global;

/// Lays bytes into a room, if there is room for all of them; how many they are is left at `length`.
fn lay_bytes(saved: &[u8], bytes: &mut [u8], length: &mut usize) -> u32
    ensures { AreLaid saved.now (length.old, bytes.old) (length.new, bytes.new) result }
{
    *length = saved.len();
    if bytes.len() < saved.len() {
        return NO_ROOM;
    }
    bytes[..saved.len()].copy_from_slice(saved);
    OK
}

/// Lays what is saved of the registry of a handle into a room, if there is room for all of it; how many bytes it has is left at `length`.
pub fn save_registry(
    alloc: Global,
    registry: &mut NavdRegistry,
    bytes: &mut [u8],
    length: &mut usize,
) -> u32
    ensures saved { IsSaving registry.old.registry (length.old, bytes.old) (length.new, bytes.new) result }
    ensures same { registry.new.registry ≡ registry.old.registry }
{
    let Some(held) = registry.take(alloc) else {
        return EMPTY;
    };
    let saved = held.save(alloc);
    registry.put(held);
    match saved {
        Ok(saved) => lay_bytes(saved.as_slice(), bytes, length),
        Err(_) => NO_MEMORY,
    }
}

fn restore(alloc: Global, held: &mut Registry, bytes: &[u8]) -> u32
    ensures { IsRestoredFrom bytes.now (Some held.old) (Some held.new) result }
{
    match held.restore(alloc, bytes) {
        Ok(()) => OK,
        Err(why) => refusal_status(why),
    }
}

/// Puts the obstacles that were saved in the place of those of the registry of a handle.
pub fn restore_registry(alloc: Global, registry: &mut NavdRegistry, bytes: &[u8]) -> u32
    ensures { IsRestoredFrom bytes.now registry.old.registry registry.new.registry result }
{
    let Some(mut held) = registry.take(alloc) else {
        return EMPTY;
    };
    let status = restore(alloc, &mut held, bytes);
    registry.put(held);
    status
}
