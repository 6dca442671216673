//! Questions that a search answers.

use graph_search::Room;
use mesh_types::{Asked, Mesh};
use std::alloc::{AllocError, Global};

/// A question of a mesh that a search answers, which can work in room that an earlier search may have left.
pub trait AskedIn: Asked {
    ghost use Rattle.std.specs.Prelude.{IfOk};
    ghost use Rattle.mesh_types.specs.Soundness.{IsSound};
    ghost use Rattle.nav_ground.specs.Limits.{IsSetting};

    /// A right answer. Only memory can be refused.
    fn ask_in(
        &self,
        alloc: Global,
        room: &mut Room,
        mesh: &Mesh,
    ) -> Result<Self::Answer, AllocError>
        requires sound { IsSound mesh.now }
        requires setting { IsSetting mesh.now.setting }
        requires question { Self.can_ask self.now }
        ensures { IfOk result (λ answer. Self.is_right self.now mesh.now answer) };
}
