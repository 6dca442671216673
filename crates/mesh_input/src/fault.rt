//! What is wrong with the arrays of a mesh.

use std::alloc::{AllocError, AllocFailed};

/// What is wrong with a triangle; of several the first.
#[derive(Clone, Copy, PartialEq, Eq, Debug)]
pub enum MeshFault {
    /// It names a vertex that there is none of.
    NoVertex,
    /// A number of it is infinite, or no number.
    NoNumber,
    /// A corner lies outside the field, or 2^23 steps or more from 0 of the game's numbers.
    Outside,
    /// Its area is above 63.
    BadArea,
}

/// A triangle of a mesh, and what is wrong with it.
#[derive(Clone, Copy, PartialEq, Eq, Debug)]
pub struct FaultyTriangle {
    pub fault: MeshFault,
    /// How many triangles stand before it.
    pub place: usize,
}

/// Why no triangles were added.
#[derive(Clone, Copy)]
pub enum MeshRefusal {
    /// This triangle fails, and none before it does.
    Faulty(FaultyTriangle),
    OutOfMemory,
}

impl From<AllocError> for MeshRefusal {
    ghost use Rattle.std.specs.Prelude.{◌≡◌};
    ghost use Rattle.mesh_input.specs.declared.fault.MeshRefusal.{MeshRefusal};

    ghost from_gives = { λ _ refusal. refusal ≡ MeshRefusal.OutOfMemory };

    fn from(_error: AllocError) -> Self {
        MeshRefusal::OutOfMemory
    }
}

impl<T: Drop> From<AllocFailed<T>> for MeshRefusal {
    ghost use Rattle.std.specs.Prelude.{◌≡◌};
    ghost use Rattle.mesh_input.specs.declared.fault.MeshRefusal.{MeshRefusal};

    ghost from_gives = { λ _ refusal. refusal ≡ MeshRefusal.OutOfMemory };

    fn from(_error: AllocFailed<T>) -> Self {
        MeshRefusal::OutOfMemory
    }
}
