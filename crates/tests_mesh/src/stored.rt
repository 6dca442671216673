//! Cells that are written out, as lists keep them.

ghost use Rattle.std.specs.Prelude.{◌≡◌, IfOk};
ghost use Rattle.tests_mesh.specs.Stored.{AreSmall};

use nav_ground::{Cell, PackedCell};
use nav_lists::{Items, Shared};
use std::alloc::{AllocError, Global};

/// The list of cells whose numbers are small.
pub fn stored(alloc: Global, cells: &[Cell]) -> Result<Items<PackedCell>, AllocError>
    requires { AreSmall cells.now }
    ensures { IfOk result (λ stored. stored ≡ cells.now) }
{
    let mut stored = Vec::with_capacity(alloc, cells.len())?;
    for cell in cells {
        stored.push(PackedCell::new(cell))?;
    }
    Ok(Items::from_vec(stored))
}

/// The same, as a layer keeps them.
pub fn shared(alloc: Global, cells: &[Cell]) -> Result<Shared<Items<PackedCell>>, AllocError>
    requires { AreSmall cells.now }
    ensures { IfOk result (λ shared. shared ≡ cells.now) }
{
    let cells = stored(alloc, cells)?;
    Ok(Shared::new(alloc, cells)?)
}
