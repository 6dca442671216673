//! The answer to a question. Questions of this crate as ones that carry how they are answered.

ghost use Rattle.std.specs.Prelude.{IfOk, IfSome};
ghost use Rattle.std.specs.Option.{option_copied};
ghost use Rattle.nav_ground.specs.Limits.{IsSetting};
ghost use Rattle.mesh_types.specs.declared.answers.Answer.{Answer};
ghost use Rattle.mesh_types.specs.Right.{AreAlike, IsRight};
ghost use Rattle.mesh_types.specs.Soundness.{IsSound};
ghost use Rattle.corridor_search.specs.Landmarks.{AreLandmarks};
ghost use Rattle.nav_query.specs.Questions.{HasLowCost, IsAnswerable, CanAsk, IsRightAsked};

use crate::paths::{PathEnds, path};
use crate::rays::{floors, ray};
use corridor_search::Landmarks;
use graph_search::Room;
use mesh_types::{Asked, Mesh};
use nav_base::Question;
use nav_lists::Items;
use std::alloc::{AllocError, Global};

/// An answer to a question that is right in a mesh. A path that is found costs less than 2^45. Only memory can be refused.
pub fn answer(
    alloc: Global,
    mesh: &Mesh,
    question: &Question,
) -> Result<mesh_types::Answer, AllocError>
    requires sound { IsSound mesh.now }
    requires setting { IsSetting mesh.now.setting }
    requires question { IsAnswerable question.now }
    ensures right { IfOk result (λ answer. IsRight mesh.now question.now answer) }
    ensures low_cost { IfOk result HasLowCost }

    // Every right answer is of this kind, with the same floors, or the same first polygon and cost; a right answer to a ray is equal to it.
    ensures only { IfOk result (λ answer. (other : Answer) → IsRight mesh.now question.now other → AreAlike answer other) }
{
    let mut room = Room::new(alloc);
    answer_in(alloc, &mut room, mesh, None, question)
}

/// The same with landmarks of the mesh, where there are some: the search for a path then closes fewer polygons. It works in room that an earlier
/// search may have left.
#[tactic(auto, using(mesh_types::proofs::RightLaws::alike))]
pub fn answer_in(
    alloc: Global,
    room: &mut Room,
    mesh: &Mesh,
    landmarks: Option<&Landmarks>,
    question: &Question,
) -> Result<mesh_types::Answer, AllocError>
    requires sound { IsSound mesh.now }
    requires setting { IsSetting mesh.now.setting }
    requires landmarks { IfSome (option_copied landmarks) (AreLandmarks mesh.now) }
    requires question { IsAnswerable question.now }
    ensures right { IfOk result (λ answer. IsRight mesh.now question.now answer) }
    ensures low_cost { IfOk result HasLowCost }
    ensures only { IfOk result (λ answer. (other : Answer) → IsRight mesh.now question.now other → AreAlike answer other) }
{
    match *question {
        Question::Floor { x, z } => {
            let floors = floors(alloc, mesh, x, z)?;
            Ok(mesh_types::Answer::Floors(Items::from_vec(floors)))
        }
        Question::Path {
            from,
            from_y,
            to,
            to_y,
        } => path(
            alloc,
            room,
            mesh,
            landmarks,
            PathEnds {
                from,
                from_y,
                to,
                to_y,
            },
        ),
        Question::Ray { from, from_y, to } => ray(alloc, mesh, from, from_y, to),
    }
}

/// A question for floors, for a path or for a straight walk.
#[derive(Clone, Copy)]
pub struct Asking {
    pub question: Question,
}

impl Asked for Asking {
    type Answer = mesh_types::Answer;

    ghost can_ask = { λ asking. CanAsk asking };

    ghost is_right = { λ asking mesh answer. IsRightAsked asking mesh answer };

    fn ask(&self, alloc: Global, mesh: &Mesh) -> Result<mesh_types::Answer, AllocError> {
        answer(alloc, mesh, &self.question)
    }
}
