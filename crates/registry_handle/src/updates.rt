//! Registries begun, updated and closed.

ghost use Rattle.std.specs.Prelude.{◌≡◌, ◌<◌, [], None, Some, IfOk, IfErr, not, ◌==◌, length};
ghost use Rattle.obstacle_registry.specs.Registry.{alive_now, first_registry};
ghost use Rattle.registry_handle.specs.Updates.{IsBeginning, IsUpdating};

use crate::changes::refusal_status;
use crate::handle::NavdRegistry;
use nav_base::Steps;
use nav_book::Level;
use nav_handle::{BUSY, EMPTY, NO_MEMORY, NavdLevel, OK};
use obstacle_registry::{Registry, Updated};
use std::alloc::{AllocError, Global};
use std::marker::Brand;
use std::sync::ledger::{Blank, Ledger};

/// What an update did: how many tiles it built, whether something new is shown, whether some of what was asked for is not shown yet, and the
/// version.
#[repr(C)]
#[derive(Clone, Copy)]
pub struct NavdUpdated {
    pub built: u32,
    pub published: u32,
    pub pending: u32,
    pub version: u64,
}

/// Whether obstacles of a level are alive.
fn has_obstacles(alloc: Global, level: &Level) -> Result<bool, AllocError>
    ensures { IfOk result (λ has. has ≡ not (length (alive_now level.now) == 0)) }
{
    let alive = level.alive(alloc)?;
    Ok(alive.len() != 0)
}

/// The registry of a level, on the heap; or the level again, where memory is refused.
fn begun(
    alloc: Global,
    level: Box<Level, Global>,
) -> Result<Box<Registry, Global>, Box<Level, Global>>
    requires { alive_now level.value ≡ [] }
    ensures begun { IfOk result (λ made. made.value ≡ first_registry level.value) }
    ensures refused { IfErr result (λ back. back.value ≡ level.value) }
{
    let made = match Registry::begin(alloc, level) {
        Ok(made) => made,
        Err(back) => return Err(back),
    };
    match Box::new(alloc, made) {
        Ok(made) => Ok(made),
        Err(refused) => Err(refused.value.into_level()),
    }
}

/// Begins the registry of the level of a handle, of which no obstacle is alive; the level goes over into it. A registry that the handle held is
/// closed then.
pub fn begin_registry(alloc: Global, registry: &mut NavdRegistry, level: &mut NavdLevel) -> u32
    ensures { IsBeginning level.old.level registry.old.registry
        (record { status = result; level = level.new.level; registry = registry.new.registry }) }
{
    let Some(held) = level.take(alloc) else {
        return EMPTY;
    };
    let Ok(has_obstacles) = has_obstacles(alloc, &held) else {
        level.put(held);
        return NO_MEMORY;
    };
    if has_obstacles {
        level.put(held);
        return BUSY;
    }
    match begun(alloc, held) {
        Ok(made) => {
            registry.put(made);
            OK
        }
        Err(back) => {
            level.put(back);
            NO_MEMORY
        }
    }
}

/// Closes the registry, if the handle holds one.
pub fn close_registry(alloc: Global, registry: &mut NavdRegistry)
    ensures { registry.new.registry ≡ None }
{
    let _ = registry.take(alloc);
}

/// What is told of an update.
fn update_told(done: Updated, held: &Registry) -> NavdUpdated
    ensures { result ≡ Rattle.registry_handle.specs.Updates.update_told done.built done.published held.now }
{
    let level = held.level();
    NavdUpdated {
        built: done.built,
        published: if done.published { 1 } else { 0 },
        pending: if level.published() == level.length() {
            0
        } else {
            1
        },
        version: held.version(),
    }
}

/// Updates a registry, and keeps its history short.
fn update<L: Ledger>(
    alloc: Global,
    held: &mut Registry,
    most: u32,
    updated: &mut NavdUpdated,
    blank: Blank,
) -> u32
    requires name { blank.name ≡ L.name }
    requires parts { blank.parts ≡ L.parts }
    requires some { 0 < blank.parts }
    ensures { IsUpdating (Some held.old) most updated.old (record { status = result; told = updated.new; held = Some held.new }) }
{
    let mut steps = Steps::<L>::new(blank);
    match held.update(alloc, most, &mut steps) {
        Ok(done) => {
            *updated = update_told(done, held);
            held.renew_if_due();
            OK
        }
        Err(why) => refusal_status(why),
    }
}

/// Aims at all that was asked for, unless what was aimed at before is not shown yet, builds at most so many tiles, and shows it once none is awaited.
/// Where all of a long history is shown then, it begins again.
pub fn update_registry(
    alloc: Global,
    registry: &mut NavdRegistry,
    most: u32,
    updated: &mut NavdUpdated,
) -> u32
    ensures { IsUpdating registry.old.registry most updated.old (record { status = result; told = updated.new; held = registry.new.registry }) }
{
    let Some(mut held) = registry.take(alloc) else {
        return EMPTY;
    };
    let status = update::<Brand>(alloc, &mut held, most, updated, Blank::new(1));
    registry.put(held);
    status
}
