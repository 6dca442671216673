//! Which strips touch which, over the connections of their cells. What a strip was seen to touch. The strips of a list of cells, beside the
//! cells' neighbour table.

ghost use Rattle.std.specs.Prelude.{◌≡◌, ◌<◌, IfOk, length, map};
ghost use Rattle.nav_ground.specs.Cells.{IsCut};
ghost use Rattle.nav_ground.specs.Directions.{number};
ghost use Rattle.mesh_types.specs.StripPolygons.{strip_runs};
ghost use Rattle.mesh_types.specs.Regions.{numbers};
ghost use Rattle.mono_regions.specs.Indices.{AreIndices};
ghost use Rattle.mono_regions.specs.Seeing.{seen_with, beyond, touched_by};
ghost use Rattle.mono_regions.specs.Joining.{IsTableOf, touched_from};

use crate::index::{StripIndex, strip_index};
use cell_table::mutual_table;
use nav_ground::{Direction, PackedCell};
use nav_lists::Items;
use std::alloc::{AllocError, Global};

/// The strips of a list of cells, beside the neighbour table along which they are found.
pub fn tabled_strips(alloc: Global, cells: &[PackedCell]) -> Result<StripTable, AllocError>
    requires { IsCut cells.now }
    ensures { IfOk result (λ strips. IsTableOf cells.now strips) }
{
    let table = mutual_table(alloc, cells)?;
    let index = strip_index(alloc, cells, table.as_slice())?;
    Ok(StripTable {
        table: Items::from_vec(table),
        index,
    })
}

/// For each strip what it touches in a direction.
pub fn touched_strips(
    alloc: Global,
    cells: &[PackedCell],
    strips: &StripTable,
    dir: Direction,
) -> Result<Vec<SeenStrips>, AllocError>
    requires strips { IsTableOf cells.now strips.now }
    ensures { IfOk result (λ seen. seen.items ≡ map (touched_from cells.now (number dir)) (numbers (strip_runs cells.now))) }
{
    let mut seen = Vec::with_capacity(alloc, strips.index.runs.len())?;
    for number in 0..strips.index.runs.len() {
        let run = strips.index.runs.list(number);
        seen.push(touched(cells, strips, run, dir))?;
    }
    Ok(seen)
}

/// What the strip of cells with some indices touches in a direction.
pub fn touched(cells: &[PackedCell], strips: &StripTable, run: &[u32], dir: Direction) -> SeenStrips
    requires strips { IsTableOf cells.now strips.now }
    requires run { AreIndices cells.now run.now }
    ensures { result ≡ touched_by cells.now (number dir) run.now }
{
    let mut seen = SeenStrips::Nothing;
    for at in run {
        seen = seen_with(seen, beyond(cells, strips, *at, dir));
    }
    seen
}

/// What was seen, after one more cell that is connected to a cell of a strip, or to none.
fn seen_with(seen: SeenStrips, strip: Option<u32>) -> SeenStrips
    ensures { result ≡ seen_with seen strip }
{
    match strip {
        None => seen,
        Some(strip) => match seen {
            SeenStrips::Nothing => SeenStrips::One(strip),
            SeenStrips::One(other) => {
                if other == strip {
                    SeenStrips::One(other)
                } else {
                    SeenStrips::Several
                }
            }
            SeenStrips::Several => SeenStrips::Several,
        },
    }
}

/// The number of the strip with the cell to which a cell is connected in a direction, if there is one.
pub fn beyond(cells: &[PackedCell], strips: &StripTable, at: u32, dir: Direction) -> Option<u32>
    requires strips { IsTableOf cells.now strips.now }
    requires there { at < length cells.now }
    ensures { result ≡ beyond cells.now (number dir) at }
{
    let to = strips.table.as_slice()[at as usize][dir.index()];
    strips.index.owners.get(to as usize).copied()
}

/// What strips a strip was seen to touch.
#[derive(Clone, Copy)]
pub enum SeenStrips {
    Nothing,
    /// The strip of this number alone.
    One(u32),
    Several,
}

/// The strips of a list of cells, beside the cells' neighbour table.
#[derive(Drop)]
pub struct StripTable {
    /// For each cell and direction the index of the neighbour, or the number of cells where there is none among them.
    pub table: Items<[u32; 4]>,
    pub index: StripIndex,
}
