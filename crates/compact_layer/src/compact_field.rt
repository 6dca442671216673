//! The cells of a whole field. Makes the cells of a field.

ghost use Rattle.std.specs.Prelude.{◌≡◌, ◌≤◌, IfOk, length, All, slice_get};
ghost use Rattle.nav_ground.specs.declared.cell.Cell.{Cell};
ghost use Rattle.nav_ground.specs.Limits.{IsAgent};
ghost use Rattle.nav_ground.specs.Fields.{IsField, IsSpan, AreAreas};
ghost use Rattle.nav_ground.specs.Cells.{IsCompact};
ghost use Rattle.nav_ground.specs.Connection.{unconnected_cells, compact_cells};
ghost use Rattle.compact_layer.specs.Making.{cell_with, level_over, ceiling_over};

use crate::sweep::connect;
use nav_ground::{Agent, Cell, CellRef, Field, PackedCell, PackedSpan};
use nav_lists::{Duplicate, Items};
use std::alloc::{AllocError, Global};

/// The cells of a whole field, by z, then x, then level, each with the levels of the cells that it is connected to: at most one in
/// each direction, and that one leads back.
#[derive(Drop)]
pub struct CompactField {
    pub cells: Items<PackedCell>,
}

impl Duplicate for CompactField {
    fn duplicate(&self, alloc: Global) -> Result<Self, AllocError> {
        Ok(CompactField {
            cells: self.cells.duplicate(alloc)?,
        })
    }
}

/// The cells of a field for an agent, where one area stands beside each span: a cell on each span whose area is not 0, by z, then x, then
/// level, each connected to at most one cell of each neighbouring column, as in Recast's compact height field. The areas are those that the
/// filters leave, or any others. A cell's ceiling is the bottom of the next span, whatever its area; heights and the agent are in height
/// units. It takes memory once, for the cells, and nothing else can be refused.
pub fn compact(
    alloc: Global,
    field: &Field,
    areas: &[u32],
    agent: &Agent,
) -> Result<CompactField, AllocError>
    requires field { IsField field.now }
    requires areas { AreAreas areas.now }
    requires each { length areas.now ≡ length field.now.spans }
    requires agent { IsAgent agent.now }
    ensures cells { IfOk result (λ compact. compact.cells ≡ compact_cells field.now areas.now agent.now) }
    ensures rules { IfOk result (λ compact. IsCompact compact.cells) }
{
    let mut cells = unconnected(alloc, field, areas)?;
    connect(cells.as_mut_slice(), agent);
    Ok(CompactField {
        cells: Items::from_vec(cells),
    })
}

/// The cells on the spans whose areas are not 0, not yet connected.
fn unconnected(alloc: Global, field: &Field, areas: &[u32]) -> Result<Vec<PackedCell>, AllocError>
    requires field { IsField field.now }
    requires areas { AreAreas areas.now }
    requires each { length areas.now ≡ length field.now.spans }
    ensures { IfOk result (λ cells. cells.items ≡ unconnected_cells field.now areas.now) }
{
    let spans = field.spans.as_slice();
    let walkable = areas.iter().filter(|area| **area != 0).count();
    let mut cells = Vec::with_capacity(alloc, walkable)?;
    for (i, span) in spans.iter().enumerate() {
        let area = areas[i];
        if area != 0 {
            cells.push(cell_on(cells.as_slice(), spans, i + 1, span, area))?;
        }
    }
    Ok(cells)
}

/// The cell on a span with an area, not yet connected, from the cells before it in order and the index of the next span of the field.
fn cell_on(
    before: &[PackedCell],
    spans: &[PackedSpan],
    next: usize,
    span: &PackedSpan,
    area: u32,
) -> PackedCell
    requires before { All (λ (cell : Cell). cell.at.level ≤ 8191) before.now }
    requires spans { All (IsSpan 1024 1024) spans.now }
    requires span { IsSpan 1024 1024 span.now }
    requires area { area ≤ 63 }
    ensures { result ≡ cell_with (record span.now { area = area }) (level_over before.now span.now) (ceiling_over (slice_get spans.now next) span.now) }
{
    PackedCell::new(&Cell {
        at: CellRef {
            x: span.x(),
            z: span.z(),
            level: level_over(before, span),
        },
        floor: span.top(),
        ceiling: ceiling_over(spans, next, span),
        area,
        next: [None; 4],
    })
}

/// The level of a cell on a span, from the cells before it in order: one above the last of them if that lies in the same column, else 0.
fn level_over(cells: &[PackedCell], span: &PackedSpan) -> u32
    requires { All (λ (cell : Cell). cell.at.level ≤ 8191) cells.now }
    ensures most { result ≤ 8192 }
    ensures level { result ≡ level_over cells.now span.now }
{
    match cells.last().map(|last| last.at()) {
        Some(at) if at.x == span.x() && at.z == span.z() => at.level + 1,
        _ => 0,
    }
}

/// The ceiling over a span, by the index of the next span of the field: the bottom of that, walkable or not, if it lies in the same column,
/// else 65535.
fn ceiling_over(spans: &[PackedSpan], next: usize, span: &PackedSpan) -> u32
    requires { All (IsSpan 1024 1024) spans.now }
    ensures most { result ≤ 65535 }
    ensures ceiling { result ≡ ceiling_over (slice_get spans.now next) span.now }
{
    match spans.get(next) {
        Some(above) if above.x() == span.x() && above.z() == span.z() => above.bottom(),
        _ => 65535,
    }
}
