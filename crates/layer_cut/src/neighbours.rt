//! The cells of layers: kept cells, each connected to its kept neighbours. The part of a field near a rectangle of columns.

ghost use Rattle.std.specs.Prelude.{◌≡◌, ◌<◌, ◌≤◌, Bool, true, false, map, filter, length, slice_index_or, IsTrue, ◌↔◌, Contains, ℕ, IfOk, All, AllPairs};
ghost use Rattle.std.specs.List.{AllWithin};
ghost use Rattle.nav_ground.specs.declared.cell.Cell.{Cell};
ghost use Rattle.nav_ground.specs.Cells.{IsCells, IsCompact, is_toward};
ghost use Rattle.nav_ground.specs.Layers;
ghost use Rattle.nav_ground.specs.Levels.{IsSmallLevel};
ghost use Rattle.nav_ground.specs.Directions.{number};
ghost use Rattle.nav_ground.specs.SmallCells.{IsSmall};
ghost use Rattle.layer_cut.specs.Neighbours.{HasColumnToward, IsPlaceOf, is_in_earlier_column};
ghost use Rattle.nav_ground.specs.declared.field.Span.{Span};
ghost use Rattle.nav_ground.specs.Column;
ghost use Rattle.nav_ground.specs.Fields.{IsField, IsSpanBefore};
ghost use Rattle.nav_ground.specs.Tiling.{widened};
ghost use Rattle.layer_cut.specs.Nearby.{spans_in, field_in};

use agent_erode::{is_near, rows_of};
use nav_ground::{Cell, CellRef, Direction, Field, PackedCell, PackedSpan, Window};
use nav_lists::Items;
use std::alloc::{AllocError, Global};

/// A kept cell as its layer has it: it names those of its neighbours that are kept. For each direction `firsts` keeps where the column of
/// the neighbour last sought begins; where cells are gone through in order these numbers only rise, so all of them together pass
/// each cell once a direction. They say only where to look first, and no answer depends on them.
pub(crate) fn layer_cell(
    cells: &[PackedCell],
    marks: &[bool],
    firsts: &mut [usize; 4],
    cell: &PackedCell,
) -> PackedCell
    requires cells { IsCompact cells.now }
    requires cell { Contains cells.now cell.now }
    requires marks { length marks.now ≡ length cells.now }
    ensures { (p : Cell → Bool) → marks.now ≡ map p cells.now
        → result ≡ Layers.layer_cell (filter p cells.now) cell.now }
{
    let whole = cell.get();
    let next = [
        kept_level(cells, marks, &mut firsts[0], cell, Direction::Left),
        kept_level(cells, marks, &mut firsts[1], cell, Direction::Above),
        kept_level(cells, marks, &mut firsts[2], cell, Direction::Right),
        kept_level(cells, marks, &mut firsts[3], cell, Direction::Below),
    ];
    PackedCell::new(&Cell { next, ..whole })
}

/// The level that a cell names in a direction, if that neighbour is kept.
fn kept_level(
    cells: &[PackedCell],
    marks: &[bool],
    first: &mut usize,
    cell: &PackedCell,
    dir: Direction,
) -> Option<u32>
    requires cells { IsCompact cells.now }
    requires cell { Contains cells.now cell.now }
    requires marks { length marks.now ≡ length cells.now }
    requires small { IsSmall cell.now }
    ensures level { (p : Cell → Bool) → marks.now ≡ map p cells.now
        → result ≡ Layers.kept_level (filter p cells.now) cell.now (number dir) }
    ensures small { IsSmallLevel result }
{
    let level = cell.next(dir)?;
    let place = neighbour(cell.at(), dir, level);
    *first = first_from(cells, *first, place);
    let index = index_of(cells, *first, place);
    if marks[index] { Some(level) } else { None }
}

/// The place of a level in the neighbouring column in a direction.
fn neighbour(at: CellRef, dir: Direction, level: u32) -> CellRef
    requires { HasColumnToward (number dir) at }
    ensures toward { is_toward (number dir) at result ≡ true }
    ensures level { result.level ≡ level }
{
    let (x, z) = match dir {
        Direction::Left => (at.x - 1, at.z),
        Direction::Above => (at.x, at.z + 1),
        Direction::Right => (at.x + 1, at.z),
        Direction::Below => (at.x, at.z - 1),
    };
    CellRef { x, z, level }
}

/// The index of the first cell, at an index or later, that does not lie in a column before that of a place.
fn first_from(cells: &[PackedCell], index: usize, place: CellRef) -> usize
    ensures from { index ≤ result }
    ensures passed { AllWithin (λ (cell : Cell). is_in_earlier_column cell.at place ≡ true) cells.now index result }
    ensures next { (d : Cell) → result < length cells.now → is_in_earlier_column (slice_index_or cells.now result d).at place ≡ false }
{
    let mut first = index;
    while first < cells.len() && is_in_earlier_column(cells[first].at(), place) {
        first += 1;
    }
    first
}

/// Whether a place lies in a column before that of another.
fn is_in_earlier_column(a: CellRef, b: CellRef) -> bool
    ensures { result ≡ Rattle.layer_cut.specs.Neighbours.is_in_earlier_column a b }
{
    a.z < b.z || (a.z == b.z && a.x < b.x)
}

/// The index of the cell at a place. It is sought first where it stands if its column begins at `first` and no level below it is left out,
/// as in every list that was cut from a field.
fn index_of(cells: &[PackedCell], first: usize, place: CellRef) -> usize
    requires cells { IsCells cells.now }
    requires there { IsPlaceOf cells.now place }
    ensures within { result < length cells.now }
    ensures at { (d : Cell) → (slice_index_or cells.now result d).at ≡ place }
{
    let likely = first.saturating_add(place.level as usize);
    if is_at(cells, likely, place) {
        likely
    } else {
        sought(cells, place)
    }
}

/// Whether the cell at an index is there and has a place.
fn is_at(cells: &[PackedCell], index: usize, place: CellRef) -> bool
    ensures within { IsTrue result → index < length cells.now }
    ensures at { IsTrue result → (d : Cell) → (slice_index_or cells.now index d).at ≡ place }
{
    match cells.get(index) {
        Some(cell) => is_same(cell.at(), place),
        None => false,
    }
}

/// The index of the cell at a place, whatever levels are left out.
fn sought(cells: &[PackedCell], place: CellRef) -> usize
    requires cells { IsCells cells.now }
    requires there { IsPlaceOf cells.now place }
    ensures within { result < length cells.now }
    ensures at { (d : Cell) → (slice_index_or cells.now result d).at ≡ place }
{
    cells.partition_point(|cell| is_before(cell.at(), place))
}

/// Whether two places are the same.
fn is_same(a: CellRef, b: CellRef) -> bool
    ensures { IsTrue result ↔ (a ≡ b) }
{
    a == b
}

/// Whether a place comes before another, in the order of cells.
fn is_before(a: CellRef, b: CellRef) -> bool
    ensures { result ≡ Rattle.layer_cut.specs.Neighbours.is_before a b }
{
    a.z < b.z || (a.z == b.z && (a.x < b.x || (a.x == b.x && a.level < b.level)))
}

/// A field of the same size that has only the spans over a rectangle with a margin of so many columns on each side.
pub(crate) fn field_near(
    alloc: Global,
    field: &Field,
    window: Window,
    margin: u32,
) -> Result<Field, AllocError>
    requires { IsField field.now }
    ensures { IfOk result (λ near. near ≡ field_in (widened window margin) field.now) }
{
    let spans = spans_near(alloc, field.spans.as_slice(), window, margin)?;
    Ok(Field {
        width: field.width,
        depth: field.depth,
        spans: Items::from_vec(spans),
    })
}

/// The spans over a rectangle with a margin of so many columns on each side, in order. Only the spans of its rows are looked at.
fn spans_near(
    alloc: Global,
    spans: &[PackedSpan],
    window: Window,
    margin: u32,
) -> Result<Vec<PackedSpan>, AllocError>
    requires order { AllPairs IsSpanBefore spans.now }
    requires rows { All (λ (span : Span). span.z < 1024) spans.now }
    ensures { IfOk result (λ near. near.items ≡ spans_in (widened window margin) spans.now) }
{
    let rows = rows_of(window, margin);
    let mut near = Vec::new(alloc);
    for i in spans_before(spans, rows.first)..spans_before(spans, rows.end) {
        if is_near(window, margin, foot_of(&spans[i])) {
            near.push(spans[i])?;
        }
    }
    Ok(near)
}

/// How many of the spans stand in rows before one.
fn spans_before(spans: &[PackedSpan], row: u32) -> usize
    requires { AllPairs IsSpanBefore spans.now }
    ensures most { result ≤ length spans.now }
    ensures before { (k : ℕ) (d : Span) → k < result → (slice_index_or spans.now k d).z < row }
    ensures after { (k : ℕ) (d : Span) → result ≤ k → k < length spans.now → row ≤ (slice_index_or spans.now k d).z }
{
    spans.partition_point(|span| span.z() < row)
}

/// The foot of a span's column, as a place.
fn foot_of(span: &PackedSpan) -> CellRef
    ensures { result ≡ Column.foot_of span.now }
{
    CellRef {
        x: span.x(),
        z: span.z(),
        level: 0,
    }
}
