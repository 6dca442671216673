//! The free cells of a tile as its mesh keeps them. Marks beside the cells of a layer. The free cells of a tile as marks beside the cells
//! of its layer.

ghost use Rattle.std.specs.Prelude.{◌≡◌, ◌≢◌, IfOk, IsTrue, filter, ◌+◌, ◌<◌, ◌≤◌, ◌++◌, ◌∷◌, [], length, take, IfSome};
ghost use Rattle.nav_ground.specs.CellColumns.{AreOrdered, is_in_column};
ghost use Rattle.std.specs.List.{cons_option};
ghost use Rattle.nav_ground.specs.Marks.{AreLeft, cell_left, cells_left};

use crate::cell::{FreeLayer, Layer, column, part_of};
use crate::packed::PackedCell;
use crate::setting::TileNo;
use nav_lists::{Duplicate, Items, Shared};
use std::alloc::{AllocError, Global};
use std::marker::Model;

/// The free cells of one tile, in order, seen by contracts as a `FreeLayer`. Over the layer of the tile they take two bytes a cell of the
/// layer, or nothing where they are all of its cells as they are.
#[derive(Drop)]
pub struct PackedFreeLayer {
    tile: TileNo,
    cells: PackedFreeCells,
}

/// The forms in which free cells are kept.
#[derive(Drop)]
enum PackedFreeCells {
    /// As a list of their own.
    Own(Items<PackedCell>),
    /// As the list of their layer.
    Whole(Shared<Items<PackedCell>>),
    /// As marks beside the list of their layer.
    Marked(MarkedCells),
}

impl Model for PackedFreeLayer {
    ghost use Rattle.nav_ground.specs.declared.cell.FreeLayer.{FreeLayer};

    ghost Value = { FreeLayer };

    ghost use Rattle.nav_ground.specs.KeptLayers.{cells_kept};

    ghost view = { λ a. record { tile = a.tile; cells = cells_kept a.cells } };
}

impl PackedFreeLayer {
    /// Free cells as a list of their own.
    pub fn own(free: FreeLayer) -> PackedFreeLayer
        ensures { result ≡ free }
    {
        PackedFreeLayer {
            tile: free.tile,
            cells: PackedFreeCells::Own(free.cells),
        }
    }

    /// The same free cells as what they differ by from the cells of a layer, where they are some of its cells, each with its place and
    /// heights and with no levels but those that it has there; else as they are. It goes over both lists once or twice.
    pub fn over(self, alloc: Global, layer: &Layer) -> Result<PackedFreeLayer, AllocError>
        requires { AreOrdered layer.now.cells }
        ensures { IfOk result (λ kept. kept ≡ self) }
    {
        let tile = self.tile;
        match self.cells {
            PackedFreeCells::Own(cells) => own_over(alloc, layer, FreeLayer { tile, cells }),
            cells => Ok(PackedFreeLayer { tile, cells }),
        }
    }

    /// Whether they are kept over the cells of a layer, and not as a list of their own; contracts do not see it.
    pub fn is_over(&self) -> bool {
        match &self.cells {
            PackedFreeCells::Own(_) => false,
            _ => true,
        }
    }

    /// The tile's number, row by row, from 0.
    pub fn tile(&self) -> TileNo
        ensures { result ≡ self.now.tile }
    {
        self.tile
    }

    /// The cells, in order, in a list of their own.
    pub fn cells(&self, alloc: Global) -> Result<Vec<PackedCell>, AllocError>
        ensures { IfOk result (λ cells. cells.items ≡ self.now.cells) }
    {
        match &self.cells {
            PackedFreeCells::Own(cells) => Vec::from_slice(alloc, cells.as_slice()),
            PackedFreeCells::Whole(cells) => Vec::from_slice(alloc, cells.get().as_slice()),
            PackedFreeCells::Marked(cells) => cells.all(alloc),
        }
    }

    /// The cells of one column, from the bottom up, found by halving.
    pub fn column(&self, alloc: Global, x: u32, z: u32) -> Result<Vec<PackedCell>, AllocError>
        requires { AreOrdered self.now.cells }
        ensures { IfOk result (λ cells. cells.items ≡ filter (is_in_column x z) self.now.cells) }
    {
        match &self.cells {
            PackedFreeCells::Own(cells) => column(alloc, cells.as_slice(), x, z),
            PackedFreeCells::Whole(cells) => column(alloc, cells.get().as_slice(), x, z),
            PackedFreeCells::Marked(cells) => cells.column(alloc, x, z),
        }
    }
}

impl Duplicate for PackedFreeLayer {
    fn duplicate(&self, alloc: Global) -> Result<Self, AllocError> {
        let cells = match &self.cells {
            PackedFreeCells::Own(cells) => PackedFreeCells::Own(cells.duplicate(alloc)?),
            PackedFreeCells::Whole(cells) => PackedFreeCells::Whole(cells.share()?),
            PackedFreeCells::Marked(cells) => PackedFreeCells::Marked(cells.duplicate(alloc)?),
        };
        Ok(PackedFreeLayer {
            tile: self.tile,
            cells,
        })
    }
}

/// The same free cells over a layer, where they are some of its cells; else as a list of their own.
fn own_over(alloc: Global, layer: &Layer, free: FreeLayer) -> Result<PackedFreeLayer, AllocError>
    requires { AreOrdered layer.now.cells }
    ensures { IfOk result (λ kept. kept ≡ free) }
{
    let tile = free.tile;
    if are_same(layer.cells.get().as_slice(), free.cells.as_slice()) {
        let cells = PackedFreeCells::Whole(layer.cells.share()?);
        return Ok(PackedFreeLayer { tile, cells });
    }
    match MarkedCells::of(alloc, &layer.cells, free.cells.as_slice())? {
        Some(marked) => Ok(PackedFreeLayer {
            tile,
            cells: PackedFreeCells::Marked(marked),
        }),
        None => Ok(PackedFreeLayer::own(free)),
    }
}

/// Whether two lists of cells are the same.
fn are_same(a: &[PackedCell], b: &[PackedCell]) -> bool
    ensures { IsTrue result → a.now ≡ b.now }
{
    if a.len() != b.len() {
        return false;
    }
    for place in 0..a.len() {
        if !a[place].is(&b[place]) {
            return false;
        }
    }
    true
}

/// What a cell of a layer has as a free cell, in two bytes.
#[derive(Clone, Copy)]
pub(crate) struct CellMark {
    /// Its area; 0 where it is not free.
    pub(crate) area: u8,
    /// Which of its levels it keeps: a bit for each direction, the first in the lowest bit.
    pub(crate) sides: u8,
}

/// The cells of a layer, and beside each of them what it has as a free cell; seen as the free cells.
#[derive(Drop)]
pub(crate) struct MarkedCells {
    cells: Shared<Items<PackedCell>>,
    marks: Vec<CellMark>,
}

impl Model for MarkedCells {
    ghost use Rattle.std.specs.Prelude.{List};
    ghost use Rattle.nav_ground.specs.declared.cell.Cell.{Cell};

    ghost Value = { List Cell };

    ghost use Rattle.nav_ground.specs.Marks.{AreMarked, cells_left};

    ghost view = { λ a. cells_left a.marks.items a.cells };

    ghost invariant = { λ a. AreMarked a.cells a.marks.items };
}

impl MarkedCells {
    /// Some free cells as marks beside the cells of a layer; none where one of them has more than a free cell of the layer can have.
    pub(crate) fn of(
        alloc: Global,
        cells: &Shared<Items<PackedCell>>,
        free: &[PackedCell],
    ) -> Result<Option<MarkedCells>, AllocError>
        requires { AreOrdered cells.now }
        ensures { IfOk result (λ found. IfSome found (λ marked. marked ≡ free.now)) }
    {
        match marks_of(alloc, cells.get().as_slice(), free)? {
            Some(marks) => Ok(Some(MarkedCells {
                cells: cells.share()?,
                marks,
            })),
            None => Ok(None),
        }
    }

    /// The free cells.
    pub(crate) fn all(&self, alloc: Global) -> Result<Vec<PackedCell>, AllocError>
        ensures { IfOk result (λ cells. cells.items ≡ self.now) }
    {
        left(alloc, self.marks.as_slice(), self.cells.get().as_slice())
    }

    /// The free cells of a column, from the bottom up, found by halving.
    pub(crate) fn column(
        &self,
        alloc: Global,
        x: u32,
        z: u32,
    ) -> Result<Vec<PackedCell>, AllocError>
        ensures { IfOk result (λ cells. cells.items ≡ filter (is_in_column x z) self.now) }
    {
        let cells = self.cells.get().as_slice();
        let marks = self.marks.as_slice();
        let part = part_of(cells, x, z);
        let cells = &cells[part.first..];
        let marks = &marks[part.first..];
        left(alloc, &marks[..part.count], &cells[..part.count])
    }
}

impl Duplicate for MarkedCells {
    fn duplicate(&self, alloc: Global) -> Result<Self, AllocError> {
        Ok(MarkedCells {
            cells: self.cells.share()?,
            marks: Vec::from_slice(alloc, self.marks.as_slice())?,
        })
    }
}

/// The cells that marks beside them leave, as the marks say.
fn left(
    alloc: Global,
    marks: &[CellMark],
    cells: &[PackedCell],
) -> Result<Vec<PackedCell>, AllocError>
    requires { length marks.now ≡ length cells.now }
    ensures { IfOk result (λ left. left.items ≡ cells_left marks.now cells.now) }
{
    let mut left = Vec::with_capacity(alloc, cells.len())?;
    for (i, cell) in cells.iter().enumerate() {
        let mark = marks[i];
        if mark.area != 0 {
            left.push(cell.marked(mark))?;
        }
    }
    Ok(left)
}

/// The marks that leave some free cells of the cells of a layer; none where no marks do.
fn marks_of(
    alloc: Global,
    cells: &[PackedCell],
    free: &[PackedCell],
) -> Result<Option<Vec<CellMark>>, AllocError>
    ensures { IfOk result (λ found. IfSome found (λ marks. AreLeft cells.now free.now marks.items)) }
{
    let mut marks = Vec::with_capacity(alloc, cells.len())?;
    let mut passed = 0;
    for cell in cells {
        let Some(next) = next_mark(cell, free, passed) else {
            return Ok(None);
        };
        passed = next.passed;
        marks.push(next.mark)?;
    }
    if passed < free.len() {
        return Ok(None);
    }
    Ok(Some(marks))
}

/// The mark of a cell, and how many free cells are passed with it.
#[derive(Clone, Copy)]
struct NextMark {
    mark: CellMark,
    passed: usize,
}

/// The mark of a cell beside free cells of which so many are passed; none where no mark leaves the next of them.
fn next_mark(cell: &PackedCell, free: &[PackedCell], passed: usize) -> Option<NextMark>
    requires { passed ≤ length free.now }
    ensures within { IfSome result (λ next. next.passed ≤ length free.now) }
    ensures left { IfSome result (λ next. take next.passed free.now ≡ take passed free.now ++ cons_option (cell_left next.mark cell.now) []) }
{
    if is_next(cell, free, passed) {
        return Some(NextMark {
            mark: cell.whole_mark(),
            passed: passed + 1,
        });
    }
    let mark = mark_of(cell, free.get(passed));
    let passed = pass(cell, mark, free, passed)?;
    Some(NextMark { mark, passed })
}

/// Whether the next free cell is the cell as it is, as nearly all are. Then no bits are to be made.
fn is_next(cell: &PackedCell, free: &[PackedCell], passed: usize) -> bool
    ensures within { IsTrue result → passed < length free.now }
    ensures area { IsTrue result → cell.now.area ≢ 0 }
    ensures next { IsTrue result → take (passed + 1) free.now ≡ take passed free.now ++ cell.now ∷ [] }
{
    match free.get(passed) {
        Some(next) => cell.area() != 0 && cell.is(next),
        None => false,
    }
}

/// The mark of a cell where the next free cell is known: it stands for that one if both have the same place, else for no cell.
fn mark_of(cell: &PackedCell, free: Option<&PackedCell>) -> CellMark {
    match free {
        Some(free) => {
            if cell.at() == free.at() {
                free.mark()
            } else {
                CellMark { area: 0, sides: 0 }
            }
        }
        None => CellMark { area: 0, sides: 0 },
    }
}

/// How many of the free cells are passed once that one is too which a mark leaves of a cell; none where it is not the next.
fn pass(cell: &PackedCell, mark: CellMark, free: &[PackedCell], passed: usize) -> Option<usize>
    requires { passed ≤ length free.now }
    ensures within { IfSome result (λ next. next ≤ length free.now) }
    ensures left { IfSome result (λ next. take next free.now ≡ take passed free.now ++ cons_option (cell_left mark cell.now) []) }
{
    if mark.area == 0 {
        return Some(passed);
    }
    let next = free.get(passed)?;
    if cell.marked(mark).is(next) {
        Some(passed + 1)
    } else {
        None
    }
}
