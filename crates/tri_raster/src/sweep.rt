//! Rows of columns, from the front of a field to its back. The field of triangles.

ghost use Rattle.std.specs.Prelude.{◌≡◌, ◌<◌, ◌≤◌, ◌+◌, ℕ, List, [], length, All, OnOk, IfOk, ◌≢◌, Err};
ghost use Rattle.nav_ground.specs.declared.setting.Setting.{Setting};
ghost use Rattle.tri_raster.specs.declared.triangle.Tri.{Tri};
ghost use Rattle.tri_raster.specs.Bounds.{bound_at};
ghost use Rattle.tri_raster.specs.Rows.{MeetsRow};
ghost use Rattle.tri_raster.specs.Triangles.{IsTriangle};
ghost use Rattle.tri_raster.specs.ActiveRows.{BeginIn, CanEnter};
ghost use Rattle.tri_raster.specs.Columns.{IsUpright, IsLimited, AreKept};
ghost use Rattle.tri_raster.specs.Sweeps.{column_at, AreAdded, AreEmpty, IsRowOf, HasRow, IsAtRow, IsBeforeRow, HasRows};
ghost use Rattle.nav_ground.specs.declared.field.Field.{Field};
ghost use Rattle.nav_ground.specs.Fields.{IsField};
ghost use Rattle.nav_ground.specs.Grounds.{IsSized};
ghost use Rattle.nav_ground.specs.Limits.{IsSetting};
ghost use Rattle.tri_raster.specs.Rasters.{IsRaster, HasManySpans};

use crate::column::{Column, by_row, to_row};
use crate::group::push_spans;
use crate::text::RasterRefusal;
use crate::{Bound, FRESH, Hits, Tri, row_shadows, shadow_of};
use nav_ground::{Field, PackedSpan, Setting};
use nav_lists::Items;
use std::alloc::{AllocError, Global};

/// What the rows of a field are made with, one after the other.
#[derive(Drop)]
pub(crate) struct Sweep {
    /// The triangles that may meet the next row.
    active: Vec<Tri>,
    /// A bound for each column of a row.
    bounds: Vec<Bound>,
    /// The columns of a row, empty between rows.
    columns: Vec<Column>,
}

impl Sweep {
    /// Before the first row of a field so wide.
    pub(crate) fn new(alloc: Global, width: u32) -> Result<Self, AllocError>
        ensures { IfOk result (λ sweep. (tris : List Tri) → IsAtRow tris width 0 sweep.active.items sweep.bounds.items sweep.columns.items) }
    {
        let bounds = vec![in alloc; FRESH; width as usize]?;
        let columns = empty_columns(alloc, width)?;
        Ok(Sweep {
            active: Vec::new(alloc),
            bounds,
            columns,
        })
    }

    /// Makes the spans of row `z`, where the triangles in `entering` begin, and appends them.
    pub(crate) fn row(
        &mut self,
        entering: &[Tri],
        climb: u32,
        z: u32,
        spans: &mut Vec<PackedSpan>,
    ) -> Result<(), RasterRefusal>
        requires triangles { CanEnter z self.old.active.items entering.now }
        requires width { length self.old.bounds.items ≤ 1024 }
        requires same { length self.old.columns.items ≡ length self.old.bounds.items }
        requires empty { AreEmpty self.old.columns.items }
        requires depth { z < 1024 }
        requires few { length spans.old.items ≤ 2000000 }
        ensures at { OnOk result ((tris : List Tri) (width : ℕ)
            → IsAtRow tris width z self.old.active.items self.old.bounds.items self.old.columns.items → BeginIn tris z entering.now
            → IsAtRow tris width (z + 1) self.new.active.items self.new.bounds.items self.new.columns.items) }
        ensures spans { (setting : Setting) (tris : List Tri)
            → IsBeforeRow setting tris climb z self.old.active.items self.old.bounds.items self.old.columns.items entering.now spans.old.items
            → HasRow setting tris z spans.new.items result }
        ensures few { OnOk result (length spans.new.items ≤ 2000000) }
    {
        to_row(&mut self.active, entering, z)?;
        fill(
            self.columns.as_mut_slice(),
            self.bounds.as_mut_slice(),
            self.active.as_slice(),
            z,
        )?;
        push_row(self.columns.as_mut_slice(), climb, z, spans)
    }
}

/// So many columns without shadows.
fn empty_columns(alloc: Global, width: u32) -> Result<Vec<Column>, AllocError>
    ensures width { IfOk result (λ columns. length columns.items ≡ width) }
    ensures empty { IfOk result (λ columns. AreEmpty columns.items) }
{
    let mut columns = Vec::with_capacity(alloc, width as usize)?;
    for _column in 0..width {
        if columns.push(Column::new(alloc)).is_err() {
            return Err(AllocError);
        }
    }
    Ok(columns)
}

/// Adds what one triangle leaves in the columns that it hits to those kept there.
fn add_shadows(
    columns: &mut [Column],
    bounds: &[Bound],
    hits: Hits,
    area: u32,
) -> Result<(), AllocError>
    requires within { hits.end ≤ length columns.old }
    requires bounded { hits.end ≤ length bounds.now }
    requires low { (x : ℕ) → hits.first ≤ x → x < hits.end → (bound_at bounds.now x).low ≤ 8190 }
    ensures { OnOk result (AreAdded bounds.now hits area columns.old columns.new) }
{
    for x in hits.first..hits.end {
        columns[x as usize].add(shadow_of(bounds[x as usize], area))?;
    }
    Ok(())
}

/// Adds the shadows that triangles leave in row `z`, which they all meet, to empty columns.
fn fill(
    columns: &mut [Column],
    bounds: &mut [Bound],
    active: &[Tri],
    z: u32,
) -> Result<(), AllocError>
    requires triangles { All IsTriangle active.now }
    requires meet { All (λ (tri : Tri). MeetsRow tri z) active.now }
    requires width { length bounds.old ≤ 1024 }
    requires same { length columns.old ≡ length bounds.old }
    requires depth { z < 1024 }
    requires empty { AreEmpty columns.old }
    ensures kept { OnOk result ((x : ℕ) → x < length columns.old → AreKept active.now x z (column_at columns.new x)) }
    ensures columns { length columns.new ≡ length columns.old }
    ensures bounds { length bounds.new ≡ length bounds.old }
{
    for tri in active {
        let hits = row_shadows(tri, z, bounds);
        add_shadows(columns, bounds, hits, tri.area)?;
    }
    Ok(())
}

/// Appends the spans of the columns of row `z`, and empties these.
fn push_row(
    columns: &mut [Column],
    climb: u32,
    z: u32,
    spans: &mut Vec<PackedSpan>,
) -> Result<(), RasterRefusal>
    requires width { length columns.old ≤ 1024 }
    requires depth { z < 1024 }
    requires few { length spans.old.items ≤ 2000000 }
    requires upright { (x : ℕ) → x < length columns.old → All IsUpright (column_at columns.old x) }
    requires limited { (x : ℕ) → x < length columns.old → All IsLimited (column_at columns.old x) }
    ensures spans { (setting : Setting) (tris : List Tri) → IsRowOf setting tris climb z columns.old spans.old.items
        → HasRow setting tris z spans.new.items result }
    ensures few { OnOk result (length spans.new.items ≤ 2000000) }
    ensures empty { OnOk result (AreEmpty columns.new) }
    ensures width { length columns.new ≡ length columns.old }
{
    for x in 0..columns.len() {
        push_spans(&mut columns[x], climb, x as u32, z, spans)?;
        columns[x].clear();
    }
    Ok(())
}

/// The field of triangles over a setting's columns: in each column the groups of what the triangles leave there as one span each, with the greatest
/// area of those whose top is at most the climb below the group's. A triangle that lies on a line between columns leaves nothing. Corners beyond
/// the field are allowed; what lies there is cut off.
pub fn raster(alloc: Global, setting: &Setting, tris: &[Tri]) -> Result<Field, RasterRefusal>
    requires setting { IsSetting setting.now }
    requires triangles { All IsTriangle tris.now }

    // The spans are those of the exact clipped triangles, and no others; there is one such field, and it keeps the rules of a field.
    ensures field { IfOk result (λ field. IsRaster setting.now tris.now field) }
    ensures one { IfOk result (λ field. (other : Field) → IsRaster setting.now tris.now other → other ≡ field) }
    ensures rules { IfOk result IsField }
    ensures sized { IfOk result (IsSized setting.now) }

    // It is refused exactly where there are more spans than a field may have, unless memory runs out.
    ensures many { result ≡ Err RasterRefusal.TooManySpans → HasManySpans setting.now tris.now }
    ensures few { (field : Field) → IsRaster setting.now tris.now field → length field.spans ≤ 2000000
        → result ≢ Err RasterRefusal.TooManySpans }
{
    let spans = spans_of(alloc, setting, tris)?;
    Ok(Field {
        width: setting.width,
        depth: setting.depth,
        spans,
    })
}

/// The spans of triangles, by z, then x, then from the bottom up.
fn spans_of(
    alloc: Global,
    setting: &Setting,
    tris: &[Tri],
) -> Result<Items<PackedSpan>, RasterRefusal>
    requires setting { IsSetting setting.now }
    requires triangles { All IsTriangle tris.now }
    ensures { HasRows setting.now tris.now setting.now.depth result }
{
    let lists = by_row(alloc, setting.depth, tris)?;
    let mut sweep = Sweep::new(alloc, setting.width)?;
    let mut spans = Vec::new(alloc);
    for z in 0..setting.depth {
        let entering = lists[z as usize].as_slice();
        sweep.row(entering, setting.agent.climb, z, &mut spans)?;
    }
    Ok(Items::from_vec(spans))
}
