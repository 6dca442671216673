//! How a mesh that gives no field ends.
ghost use Rattle.std.specs.Prelude.{◌≡◌};
ghost use Rattle.mesh_handle.specs.Ends.{IsMeshEnd, kind_of};

use crate::input::MeshEnd;
use crate::statuses::{FAULTY, NO_MEMORY, OUT_OF_RANGE, TOO_MANY_SPANS};
use crate::wire::NavdMeshFault;
use mesh_input::MeshFault;

/// The status of it; a triangle that fails is told.
pub fn end_mesh(end: MeshEnd, fault: &mut NavdMeshFault) -> u32
    ensures { IsMeshEnd end fault.old fault.new result }
{
    match end {
        MeshEnd::OutOfRange => OUT_OF_RANGE,
        MeshEnd::Faulty(faulty) => {
            *fault = NavdMeshFault {
                place: faulty.place,
                kind: kind_of(faulty.fault),
            };
            FAULTY
        }
        MeshEnd::TooManySpans => TOO_MANY_SPANS,
        MeshEnd::NoMemory => NO_MEMORY,
    }
}

fn kind_of(fault: MeshFault) -> u32
    ensures { result ≡ kind_of fault }
{
    match fault {
        MeshFault::NoVertex => 1,
        MeshFault::NoNumber => 2,
        MeshFault::Outside => 3,
        MeshFault::BadArea => 4,
    }
}
