//! The number of the region of each cell. Where the cell at a place stands, and the place of a strip's cell in a column.

ghost use Rattle.std.specs.Prelude.{◌≡◌, ℕ, ◌<◌, ◌≤◌, IfOk, All, length, map, replicate, slice_index_or, true, false};
ghost use Rattle.std.specs.List.{list_any};
ghost use Rattle.nav_ground.specs.Cells.{IsCells};
ghost use Rattle.mesh_types.specs.declared.region.Region.{Region};
ghost use Rattle.mesh_types.specs.Regions.{is_holding, IsStrip};
ghost use Rattle.contour_walk.specs.Tables.{owner_of, IsMarked, IsFit, index_of, is_before};
ghost use Rattle.nav_ground.specs.declared.cell.Cell.{Cell};

use mesh_types::{Region, Strip};
use nav_ground::{CellRef, Direction, PackedCell};
use std::alloc::{AllocError, Global};

/// For each cell the number of the first region that holds it, or the number of regions where none does. Along the neighbour table the next
/// cell of a strip is found at once, and mostly the first cell of the next strip too; what is found there is looked at.
pub fn owners(
    alloc: Global,
    cells: &[PackedCell],
    table: &[[u32; 4]],
    regions: &[Region],
) -> Result<Vec<u32>, AllocError>
    requires cells { IsCells cells.now }
    requires few { length regions.now ≤ 2000000 }
    requires fit { All (λ (region : Region). All IsFit region.strips) regions.now }
    ensures { IfOk result (λ owners. owners.items ≡ map (owner_of regions.now) cells.now) }
{
    let mut owners = unowned(alloc, cells.len(), regions.len() as u32)?;
    for number in (0..regions.len()).rev() {
        mark_region(
            owners.as_mut_slice(),
            cells,
            table,
            regions[number].strips.as_slice(),
            number as u32,
        );
    }
    Ok(owners)
}

/// So many owners that are none.
fn unowned(alloc: Global, count: usize, none: u32) -> Result<Vec<u32>, AllocError>
    ensures { IfOk result (λ owners. owners.items ≡ replicate count none) }
{
    Ok(vec![in alloc; none; count]?)
}

/// Writes the number of a region at the index of each cell of its strips.
fn mark_region(
    owners: &mut [u32],
    cells: &[PackedCell],
    table: &[[u32; 4]],
    strips: &[Strip],
    number: u32,
)
    requires cells { IsCells cells.now }
    requires same { length owners.old ≡ length cells.now }
    requires fit { All IsFit strips.now }
    ensures { IsMarked (λ at. list_any (is_holding at) strips.now) cells.now number owners.old owners.new }
{
    let mut first = 0;
    let mut from = first_column(strips);
    for k in 0..strips.len() {
        let strip = &strips[k];
        let guess = left_end_over(table, first, Direction::Above, from, strip.x0);
        first = index_of(cells, guess, place_in(strip, strip.x0));
        from = strip.x0;
        mark_strip(owners, cells, table, strip, number, first);
    }
}

/// The column at which the first of some strips begins.
fn first_column(strips: &[Strip]) -> u32 {
    match strips.first() {
        Some(strip) => strip.x0,
        None => 0,
    }
}

/// Writes a number at the index of each cell of a strip. The first is looked for at a guess first, each other along the table.
fn mark_strip(
    owners: &mut [u32],
    cells: &[PackedCell],
    table: &[[u32; 4]],
    strip: &Strip,
    number: u32,
    first: usize,
)
    requires cells { IsCells cells.now }
    requires same { length owners.old ≡ length cells.now }
    requires fit { IsFit strip.now }
    ensures { IsMarked (λ at. is_holding at strip.now) cells.now number owners.old owners.new }
{
    let mut guess = first;
    for x in strip.x0..strip.x1 + 1 {
        let index = index_of(cells, guess, place_in(strip, x));
        mark(owners, index, number);
        guess = next(table, index, Direction::Right);
    }
}

/// Writes a number at an index, if it is one.
fn mark(owners: &mut [u32], index: usize, number: u32)
    ensures same { length owners.new ≡ length owners.old }
    ensures here { (d : ℕ) → index < length owners.old → slice_index_or owners.new index d ≡ number }
    ensures others { (k d : ℕ) → (k ≡ index → ⊥) → slice_index_or owners.new k d ≡ slice_index_or owners.old k d }
{
    if index < owners.len() {
        owners[index] = number;
    }
}

/// The index of the cell at a place, or the number of cells where there is none. It is looked for at a guess first.
pub fn index_of(cells: &[PackedCell], guess: usize, at: CellRef) -> usize
    requires { IsCells cells.now }
    ensures { result ≡ index_of cells.now at }
{
    if guess < cells.len() && is_at(at, cells[guess].at()) {
        return guess;
    }
    let least = cells_before(cells, at);
    if least < cells.len() && is_at(at, cells[least].at()) {
        least
    } else {
        cells.len()
    }
}

/// How many cells come before a place.
fn cells_before(cells: &[PackedCell], at: CellRef) -> usize
    requires { IsCells cells.now }
    ensures most { result ≤ length cells.now }
    ensures before { (k : ℕ) (d : Cell) → k < result → is_before (slice_index_or cells.now k d).at at ≡ true }
    ensures after { (k : ℕ) (d : Cell) → result ≤ k → k < length cells.now → is_before (slice_index_or cells.now k d).at at ≡ false }
{
    cells.partition_point(|cell| is_before(cell.at(), at))
}

/// Whether two places are the same.
fn is_at(at: CellRef, other: CellRef) -> bool
    ensures { result ≡ Rattle.contour_walk.specs.Tables.is_same at other }
{
    other.x == at.x && other.z == at.z && other.level == at.level
}

/// Whether a place comes before another: by z, then x, then level.
fn is_before(at: CellRef, other: CellRef) -> bool
    ensures { result ≡ is_before at other }
{
    at.z < other.z
        || (at.z == other.z && (at.x < other.x || (at.x == other.x && at.level < other.level)))
}

/// The place of the cell of a strip in a column.
pub fn place_in(strip: &Strip, x: u32) -> CellRef
    requires strip { IsStrip strip.now }
    requires column { (strip.now.x0 ≤ x) × (x ≤ strip.now.x1) }
    ensures { result ≡ Rattle.mesh_types.specs.Regions.place_in strip.now x }
{
    CellRef {
        x,
        z: strip.z,
        level: strip.levels.as_slice()[(x - strip.x0) as usize],
    }
}

/// Where the first cell of the strip in the next row toward a direction may stand, from the index of the first cell of a strip: the two begin in
/// the columns `from` and `to`.
pub fn left_end_over(
    table: &[[u32; 4]],
    first: usize,
    dir: Direction,
    from: u32,
    to: u32,
) -> usize {
    let inside = along(table, first, Direction::Right, from, to);
    along(table, next(table, inside, dir), Direction::Left, to, from)
}

/// The same for the last cells of the two, which stand in the columns `from` and `to`.
pub fn right_end_over(
    table: &[[u32; 4]],
    last: usize,
    dir: Direction,
    from: u32,
    to: u32,
) -> usize {
    let inside = along(table, last, Direction::Left, to, from);
    along(table, next(table, inside, dir), Direction::Right, from, to)
}

/// The index after as many steps in a direction as there are columns from one up to another.
fn along(table: &[[u32; 4]], from: usize, dir: Direction, first: u32, end: u32) -> usize {
    let mut at = from;
    for _column in first..end {
        at = next(table, at, dir);
    }
    at
}

/// The index that a table has at an index and a direction, or the same index.
pub fn next(table: &[[u32; 4]], at: usize, dir: Direction) -> usize {
    match table.get(at) {
        Some(row) => row[dir.index()] as usize,
        None => at,
    }
}
