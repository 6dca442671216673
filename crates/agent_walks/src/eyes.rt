//! Walkers over what an eye reads. What is asked of a mesh about walkers, as questions that carry how they are answered.

ghost use Rattle.std.specs.Prelude.{◌≡◌, ◌⊎◌, IfOk, IfSome, OnErr, OnOk};
ghost use Rattle.std.specs.Prelude as prelude;
ghost use Rattle.nav_base.specs.Point.{HasCoordinates};
ghost use Rattle.mesh_types.specs.Builds.{build_of};
ghost use Rattle.nav_version.specs.Pairs.{HasLooked};
ghost use Rattle.agent_walks.specs.Marches.{IsMarched, IsSent};
ghost use Rattle.agent_walks.specs.Walkers.{IsUnderWay, IsWalker, walker_of};
ghost use Rattle.agent_walks.specs.Questions.{CanMarch, CanSend, IsRightMarched, IsRightSent};

use crate::marching::marched;
use crate::sending::{sent, walker_at};
use crate::walkers::{Place, Walker};
use mesh_types::{Asked, Mesh, WalkAnswer};
use nav_base::Point;
use nav_version::Eye;
use std::alloc::{AllocError, Global};

/// Sends a walker from a point, in sixteenths of a cell, and a height to a goal, in the mesh of a published version: the version's length, the
/// walker, exactly where the answer is that it walks, and the answer. It is refused where a question of the eye is, and for want of memory.
pub fn send(
    alloc: Global,
    eye: &mut Eye,
    from: Point,
    from_y: u32,
    to: Point,
    to_y: u32,
) -> Result<(u32, Option<Walker>, WalkAnswer), AllocError>
    requires from { HasCoordinates from }
    requires to { HasCoordinates to }

    // The version goes on from all that the eye saw or learnt of, and the length is that of its list.
    ensures looked { OnOk result (HasLooked eye.old eye.new) }
    ensures length { IfOk result (λ told. told.0 ≡ prelude.length eye.new.seen) }
    ensures sent { IfOk result (λ told. IsSent (build_of eye.old.ground eye.new.seen told.0) from from_y to to_y told.2) }

    // The polygon named holds the walker's point, and its links are a cheapest walk from there to the goal's polygon.
    ensures way { IfOk result (λ told. IsUnderWay (build_of eye.old.ground eye.new.seen told.0) to to_y told.2) }
    ensures walker { IfOk result (λ told. told.1 ≡ walker_of told.0 to to_y told.2) }

    // So it may march.
    ensures may_march { IfOk result (λ told. IfSome told.1 IsWalker) }

    // After a refusal the eye has looked all the same, or nothing has changed.
    ensures refused { OnErr result (HasLooked eye.old eye.new ⊎ (eye.new ≡ eye.old)) }
{
    let goal = Place { point: to, y: to_y };
    let sending = Sending {
        from: Place {
            point: from,
            y: from_y,
        },
        goal,
    };
    let (k, answer) = eye.ask_by(alloc, &sending)?;
    let walker = walker_at(alloc, k, goal, &answer)?;
    Ok((k, walker, answer))
}

/// Lets a walker march for a length, 0 or more sixteenths of a cell, in the mesh of a published version: the version's length, the walker as
/// it is after, exactly where the answer is that it walks, and the answer. Its way is found anew. It is refused where a question of the eye is, and
/// for want of memory; the walker is gone then.
pub fn march(
    alloc: Global,
    walker: Walker,
    eye: &mut Eye,
    length: u32,
) -> Result<(u32, Option<Walker>, WalkAnswer), AllocError>
    requires walker { IsWalker walker }

    // The version goes on from all that the eye saw or learnt of, and the length is that of its list.
    ensures looked { OnOk result (HasLooked eye.old eye.new) }
    ensures length { IfOk result (λ told. told.0 ≡ prelude.length eye.new.seen) }
    ensures marched { IfOk result (λ told. IsMarched (build_of eye.old.ground eye.new.seen told.0) walker.point walker.y walker.goal walker.goal_y length told.2) }

    // The polygon named holds the walker's point, and its links are a cheapest walk from there to the goal's polygon.
    ensures way { IfOk result (λ told. IsUnderWay (build_of eye.old.ground eye.new.seen told.0) walker.goal walker.goal_y told.2) }
    ensures walker { IfOk result (λ told. told.1 ≡ walker_of told.0 walker.goal walker.goal_y told.2) }

    // So it may march on.
    ensures may_march { IfOk result (λ told. IfSome told.1 IsWalker) }

    // After a refusal the eye has looked all the same, or nothing has changed.
    ensures refused { OnErr result (HasLooked eye.old eye.new ⊎ (eye.new ≡ eye.old)) }
{
    let goal = Place {
        point: walker.goal,
        y: walker.goal_y,
    };
    let marching = Marching {
        from: Place {
            point: walker.point,
            y: walker.y,
        },
        goal,
        length,
    };
    let (k, answer) = eye.ask_by(alloc, &marching)?;
    let after = walker_at(alloc, k, goal, &answer)?;
    Ok((k, after, answer))
}

/// What a walker is answered that is sent from a place to a goal.
#[derive(Clone, Copy)]
pub struct Sending {
    pub from: Place,
    pub goal: Place,
}

impl Asked for Sending {
    type Answer = WalkAnswer;

    ghost can_ask = { λ sending. CanSend sending };

    ghost is_right = { λ sending mesh answer. IsRightSent sending mesh answer };

    fn ask(&self, alloc: Global, mesh: &Mesh) -> Result<WalkAnswer, AllocError> {
        sent(alloc, mesh, self.from, self.goal)
    }
}

/// What a walker is answered that marches from a place toward a goal, for a length in sixteenths of a cell.
#[derive(Clone, Copy)]
pub struct Marching {
    pub from: Place,
    pub goal: Place,
    pub length: u32,
}

impl Asked for Marching {
    type Answer = WalkAnswer;

    ghost can_ask = { λ marching. CanMarch marching };

    ghost is_right = { λ marching mesh answer. IsRightMarched marching mesh answer };

    fn ask(&self, alloc: Global, mesh: &Mesh) -> Result<WalkAnswer, AllocError> {
        marched(alloc, mesh, self.from, self.goal, self.length)
    }
}
