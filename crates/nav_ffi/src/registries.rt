//! Obstacles by ids that stay, over the border: a registry begun of a level, changed, updated, looked at, saved and restored.

ghost use Rattle.std.specs.Prelude.{◌≡◌, None, not, ◌==◌};
ghost use Rattle.nav_ground.specs.declared.shape.Shape.{Shape};
ghost use Rattle.nav_handle.specs.Statuses as status;
ghost use Rattle.nav_ffi.specs.Registries.{IsRegistryLooked};
ghost use Rattle.registry_handle.specs.Calls.{IsAdding, IsEnabled, IsMarked, IsMoved, IsRemoved};
ghost use Rattle.registry_handle.specs.Rows.{AreRows};
ghost use Rattle.registry_handle.specs.Saves.{IsRestoredFrom, IsSaving};
ghost use Rattle.registry_handle.specs.Solids.{IsSolid};
ghost use Rattle.registry_handle.specs.Updates.{IsBeginning, IsUpdating};

use crate::views::next_view;
use nav_handle::{EMPTY, NO_MEMORY, NavdLevel, NavdView, OK};
use registry_handle::{
    NavdRegistry, NavdRow, NavdSolid, NavdUpdated, add_obstacle, begin_registry, close_registry,
    enable_obstacle, mark_obstacle, move_obstacle, remove_obstacle, restore_registry,
    save_registry, tell_rows, update_registry,
};
use std::alloc::Global;

/// Begins the registry of a level of which no obstacle is alive; the level goes over into it. A registry that the handle held is closed then.
#[unsafe(no_mangle)]
pub extern "C" fn navd_registry_begin(
    alloc: Global,
    registry: &mut NavdRegistry,
    level: &mut NavdLevel,
) -> u32
    ensures { IsBeginning level.old.level registry.old.registry
        (record { status = result; level = level.new.level; registry = registry.new.registry }) }
{
    begin_registry(alloc, registry, level)
}

/// Closes the registry, if the handle holds one.
#[unsafe(no_mangle)]
pub extern "C" fn navd_registry_close(alloc: Global, registry: &mut NavdRegistry)
    ensures { registry.new.registry ≡ None }
{
    close_registry(alloc, registry)
}

/// Adds an obstacle, with a number of the host's own; its id is left at `id`.
#[unsafe(no_mangle)]
pub extern "C" fn navd_registry_add(
    alloc: Global,
    registry: &mut NavdRegistry,
    solid: &NavdSolid,
    user: u64,
    id: &mut u64,
) -> u32
    ensures asked { (shape : Shape) → IsSolid solid.now shape
        → IsAdding registry.old.registry shape user id.old (record { status = result; id = id.new; held = registry.new.registry }) }
    ensures refused { ((shape : Shape) → IsSolid solid.now shape → ⊥)
        → (result ≡ status.out_of_range) × (id.new ≡ id.old) × (registry.new.registry ≡ registry.old.registry) }
{
    add_obstacle(alloc, registry, solid, user, id)
}

/// Gives an obstacle another shape.
#[unsafe(no_mangle)]
pub extern "C" fn navd_registry_move(
    alloc: Global,
    registry: &mut NavdRegistry,
    id: u64,
    solid: &NavdSolid,
) -> u32
    ensures asked { (shape : Shape) → IsSolid solid.now shape → IsMoved id shape registry.old.registry registry.new.registry result }
    ensures refused { ((shape : Shape) → IsSolid solid.now shape → ⊥)
        → (result ≡ status.out_of_range) × (registry.new.registry ≡ registry.old.registry) }
{
    move_obstacle(alloc, registry, id, solid)
}

/// Switches an obstacle on, or off where `enabled` is 0.
#[unsafe(no_mangle)]
pub extern "C" fn navd_registry_enable(
    alloc: Global,
    registry: &mut NavdRegistry,
    id: u64,
    enabled: u32,
) -> u32
    ensures { IsEnabled id (not (enabled == 0)) registry.old.registry registry.new.registry result }
{
    enable_obstacle(alloc, registry, id, enabled)
}

/// Gives an obstacle another number of the host's own.
#[unsafe(no_mangle)]
pub extern "C" fn navd_registry_mark(
    alloc: Global,
    registry: &mut NavdRegistry,
    id: u64,
    user: u64,
) -> u32
    ensures { IsMarked id user registry.old.registry registry.new.registry result }
{
    mark_obstacle(alloc, registry, id, user)
}

/// Removes an obstacle.
#[unsafe(no_mangle)]
pub extern "C" fn navd_registry_remove(alloc: Global, registry: &mut NavdRegistry, id: u64) -> u32
    ensures { IsRemoved id registry.old.registry registry.new.registry result }
{
    remove_obstacle(alloc, registry, id)
}

/// The obstacles, by their ids, rising; how many there are is left at `count`.
#[unsafe(no_mangle)]
pub extern "C" fn navd_registry_rows(
    alloc: Global,
    registry: &mut NavdRegistry,
    rows: &mut [NavdRow],
    count: &mut usize,
) -> u32
    ensures told { AreRows registry.old.registry (count.old, rows.old) (count.new, rows.new) result }
    ensures same { registry.new.registry ≡ registry.old.registry }
{
    tell_rows(alloc, registry, rows, count)
}

/// Aims at all that was asked for, unless what was aimed at before is not shown yet; builds at most so many tiles; and shows it, once none is
/// awaited.
#[unsafe(no_mangle)]
pub extern "C" fn navd_registry_update(
    alloc: Global,
    registry: &mut NavdRegistry,
    most: u32,
    updated: &mut NavdUpdated,
) -> u32
    ensures { IsUpdating registry.old.registry most updated.old (record { status = result; told = updated.new; held = registry.new.registry }) }
{
    update_registry(alloc, registry, most, updated)
}

/// Brings a view up to what the registry shows, whose version is left at `version`.
#[unsafe(no_mangle)]
pub extern "C" fn navd_registry_look(
    alloc: Global,
    view: &mut NavdView,
    registry: &mut NavdRegistry,
    version: &mut u64,
) -> u32
    ensures looked { IsRegistryLooked registry.old.registry view.old.view version.old
        (record { status = result; number = version.new; held = view.new.view }) }
    ensures same { registry.new.registry ≡ registry.old.registry }
{
    let Some(held) = registry.take(alloc) else {
        return EMPTY;
    };
    let shown = held.version();
    let made = next_view(alloc, view, held.level());
    registry.put(held);
    match made {
        Ok(made) => {
            view.put(made);
            *version = shown;
            OK
        }
        Err(_) => NO_MEMORY,
    }
}

/// Lays what is saved of the registry into `bytes`, if there is room for all of it; how many bytes it has is left at `length`.
#[unsafe(no_mangle)]
pub extern "C" fn navd_registry_save(
    alloc: Global,
    registry: &mut NavdRegistry,
    bytes: &mut [u8],
    length: &mut usize,
) -> u32
    ensures saved { IsSaving registry.old.registry (length.old, bytes.old) (length.new, bytes.new) result }
    ensures same { registry.new.registry ≡ registry.old.registry }
{
    save_registry(alloc, registry, bytes, length)
}

/// Puts the obstacles that were saved in the place of those of the registry.
#[unsafe(no_mangle)]
pub extern "C" fn navd_registry_restore(
    alloc: Global,
    registry: &mut NavdRegistry,
    bytes: &[u8],
) -> u32
    ensures { IsRestoredFrom bytes.now registry.old.registry registry.new.registry result }
{
    restore_registry(alloc, registry, bytes)
}
