//! The changes that a host makes to the obstacles of a registry.

ghost use Rattle.std.specs.Prelude.{◌≡◌, Some, not, ◌==◌};
ghost use Rattle.nav_ground.specs.Limits.{IsShape};
ghost use Rattle.nav_ground.specs.declared.shape.Shape.{Shape};
ghost use Rattle.nav_handle.specs.Statuses as status;
ghost use Rattle.obstacle_registry.specs.Changes.{after_enable, after_mark, after_move, after_remove, why_not_enabled, why_not_marked, why_not_taken};
ghost use Rattle.obstacle_registry.specs.Registry.{row_of};
ghost use Rattle.registry_handle.specs.Calls.{IsAdding, IsEnabled, IsEnded, IsMarked, IsMoved, IsRemoved, changed_at};
ghost use Rattle.registry_handle.specs.Solids.{IsSolid};

use crate::handle::NavdRegistry;
use crate::solids::{NavdSolid, solid_shape};
use nav_ground::Shape;
use nav_handle::{EMPTY, FOREIGN, HISTORY_FULL, NO_MEMORY, OK, OUT_OF_RANGE, SAME, TOO_MANY};
use obstacle_registry::{Refused, Registry};
use std::alloc::Global;

/// No obstacle has the id.
pub const NO_OBSTACLE: u32 = 24;

/// The bytes are those of no saved registry.
pub const NOT_SAVED: u32 = 25;

/// The status with which a call that is refused ends.
pub(crate) fn refusal_status(why: Refused) -> u32
    ensures { result ≡ Rattle.registry_handle.specs.Calls.refusal_status why }
{
    match why {
        Refused::NoObstacle => NO_OBSTACLE,
        Refused::Same => SAME,
        Refused::TooMany => TOO_MANY,
        Refused::HistoryFull => HISTORY_FULL,
        Refused::NoMemory => NO_MEMORY,
        Refused::NotSaved => NOT_SAVED,
        Refused::Foreign => FOREIGN,
    }
}

/// Adds a shape; its id is left at `id`.
fn add(held: &mut Registry, shape: Shape, user: u64, id: &mut u64) -> u32
    requires { IsShape shape }
    ensures { IsAdding (Some held.old) shape user id.old (record { status = result; id = id.new; held = Some held.new }) }
{
    match held.add(shape, user) {
        Ok(given) => {
            *id = given;
            OK
        }
        Err(why) => refusal_status(why),
    }
}

fn remove(held: &mut Registry, id: u64) -> u32
    ensures { IsEnded (why_not_taken held.old (row_of id held.old.rows)) held.old (changed_at id after_remove held.old) (Some held.new) result }
{
    match held.remove(id) {
        Ok(()) => OK,
        Err(why) => refusal_status(why),
    }
}

fn move_to(held: &mut Registry, id: u64, shape: Shape) -> u32
    requires { IsShape shape }
    ensures { IsEnded (why_not_taken held.old (row_of id held.old.rows)) held.old (changed_at id (λ state row. after_move state row shape) held.old) (Some held.new) result }
{
    match held.move_to(id, shape) {
        Ok(()) => OK,
        Err(why) => refusal_status(why),
    }
}

fn enable(held: &mut Registry, id: u64, on: bool) -> u32
    ensures { IsEnded (why_not_enabled held.old (row_of id held.old.rows) on) held.old (changed_at id (λ state row. after_enable state row on) held.old) (Some held.new) result }
{
    match held.enable(id, on) {
        Ok(()) => OK,
        Err(why) => refusal_status(why),
    }
}

fn mark(held: &mut Registry, id: u64, user: u64) -> u32
    ensures { IsEnded (why_not_marked (row_of id held.old.rows)) held.old (changed_at id (λ state row. after_mark state row user) held.old) (Some held.new) result }
{
    match held.mark(id, user) {
        Ok(()) => OK,
        Err(why) => refusal_status(why),
    }
}

/// Adds an obstacle with a number of the host's own; its id is left at `id`.
pub fn add_obstacle(
    alloc: Global,
    registry: &mut NavdRegistry,
    solid: &NavdSolid,
    user: u64,
    id: &mut u64,
) -> u32
    ensures asked { (shape : Shape) → IsSolid solid.now shape
        → IsAdding registry.old.registry shape user id.old (record { status = result; id = id.new; held = registry.new.registry }) }
    ensures refused { ((shape : Shape) → IsSolid solid.now shape → ⊥)
        → (result ≡ status.out_of_range) × (id.new ≡ id.old) × (registry.new.registry ≡ registry.old.registry) }
{
    let Some(shape) = solid_shape(solid) else {
        return OUT_OF_RANGE;
    };
    let Some(mut held) = registry.take(alloc) else {
        return EMPTY;
    };
    let status = add(&mut held, shape, user, id);
    registry.put(held);
    status
}

/// Gives an obstacle another shape.
pub fn move_obstacle(alloc: Global, registry: &mut NavdRegistry, id: u64, solid: &NavdSolid) -> u32
    ensures asked { (shape : Shape) → IsSolid solid.now shape → IsMoved id shape registry.old.registry registry.new.registry result }
    ensures refused { ((shape : Shape) → IsSolid solid.now shape → ⊥)
        → (result ≡ status.out_of_range) × (registry.new.registry ≡ registry.old.registry) }
{
    let Some(shape) = solid_shape(solid) else {
        return OUT_OF_RANGE;
    };
    let Some(mut held) = registry.take(alloc) else {
        return EMPTY;
    };
    let status = move_to(&mut held, id, shape);
    registry.put(held);
    status
}

/// Switches an obstacle on, or off where `enabled` is 0.
pub fn enable_obstacle(alloc: Global, registry: &mut NavdRegistry, id: u64, enabled: u32) -> u32
    ensures { IsEnabled id (not (enabled == 0)) registry.old.registry registry.new.registry result }
{
    let Some(mut held) = registry.take(alloc) else {
        return EMPTY;
    };
    let status = enable(&mut held, id, enabled != 0);
    registry.put(held);
    status
}

/// Gives an obstacle another number of the host's own.
pub fn mark_obstacle(alloc: Global, registry: &mut NavdRegistry, id: u64, user: u64) -> u32
    ensures { IsMarked id user registry.old.registry registry.new.registry result }
{
    let Some(mut held) = registry.take(alloc) else {
        return EMPTY;
    };
    let status = mark(&mut held, id, user);
    registry.put(held);
    status
}

/// Removes an obstacle.
pub fn remove_obstacle(alloc: Global, registry: &mut NavdRegistry, id: u64) -> u32
    ensures { IsRemoved id registry.old.registry registry.new.registry result }
{
    let Some(mut held) = registry.take(alloc) else {
        return EMPTY;
    };
    let status = remove(&mut held, id);
    registry.put(held);
    status
}
