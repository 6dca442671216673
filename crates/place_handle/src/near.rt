//! The place nearest to a point and a height.

ghost use Rattle.std.specs.Prelude.{◌≡◌, IfNone, IfSome, Option};
ghost use Rattle.mesh_types.specs.declared.mesh.Mesh.{Mesh};
ghost use Rattle.mesh_place.specs.declared.near.Near.{Near};
ghost use Rattle.mesh_place.specs.Nearest.{CanAskNear};
ghost use Rattle.nav_handle.specs.Answers.{EndsSo, IsAskedBy, IsRepliedBy};
ghost use Rattle.nav_handle.specs.Statuses as status;
ghost use Rattle.place_handle.specs.Nearing.{IsNearestTo, near_asked, near_ends, told_near};

use crate::places::{NO_PLACE, NavdPlace, place_told};
use mesh_place::{Near, NearAnswer};
use nav_handle::{HasMesh, NavdPoint, OK, OUT_OF_RANGE, has_coordinates, point_of};
use std::alloc::Global;

/// What is looked for: allowed areas, bit a for area a; a point and a height; how far a place may be in the plane, in sixteenths of a cell, below
/// 262144, and how far its floor may lie down and up, in height units, below 16384; and what a height unit beyond the agent's climb counts, in
/// sixteenths of a cell, below 65536.
#[repr(C)]
#[derive(Clone, Copy)]
pub struct NavdNear {
    pub areas: u64,
    pub at: NavdPoint,
    pub y: u32,
    pub reach: u32,
    pub down: u32,
    pub up: u32,
    pub weight: u32,
}

/// The question for the nearest place, if it may be asked.
pub fn near_of(near: &NavdNear) -> Option<Near>
    ensures asked { IfSome result (λ asked. asked ≡ near_asked near.now) }
    ensures rules { IfSome result CanAskNear }
    ensures none { IfNone result (CanAskNear (near_asked near.now) → ⊥) }
{
    if !has_coordinates(near.at) || near.reach >= 262144 {
        return None;
    }
    if near.down >= 16384 || near.up >= 16384 || near.weight >= 65536 {
        return None;
    }
    Some(Near {
        point: point_of(near.at),
        y: near.y,
        reach: near.reach,
        down: near.down,
        up: near.up,
        weight: near.weight,
        areas: near.areas,
    })
}

/// How the question for the nearest place ends.
fn end_near(answer: Result<NearAnswer, u32>, place: &mut NavdPlace) -> u32
    ensures { (held : Option Mesh) (asked : Near) → IsRepliedBy (IsNearestTo asked) held answer
        → IsAskedBy (IsNearestTo asked) near_ends told_near held place.old place.new result }
{
    match answer {
        Ok(NearAnswer::Nearest(found)) => {
            *place = place_told(found);
            OK
        }
        Ok(NearAnswer::NoneInReach) => NO_PLACE,
        Err(status) => status,
    }
}

/// The place nearest to a point and a height in the mesh of a handle, of those that stand and are in reach.
pub fn nearest<H: HasMesh>(
    alloc: Global,
    held: &mut H,
    near: &NavdNear,
    place: &mut NavdPlace,
) -> u32
    ensures asked { CanAskNear (near_asked near.now)
        → IsAskedBy (IsNearestTo (near_asked near.now)) near_ends told_near (H.mesh_in held.old) place.old place.new result }
    ensures refused { (CanAskNear (near_asked near.now) → ⊥) → EndsSo status.out_of_range place.old place.new result }
    ensures same { H.is_same held.old held.new }
{
    let Some(asked) = near_of(near) else {
        return OUT_OF_RANGE;
    };
    let answer = held.ask_by(alloc, &asked);
    end_near(answer, place)
}
