//! How heights over landmarks are kept where tiles of a mesh were replaced. Nothing is promised of them: whether they keep the rule is tested
//! behind it.

ghost use Rattle.std.specs.Prelude.{◌<◌, length, IfSome};

use crate::islands::outer_of;
use crate::landmarks::{LANDMARKS, UNREACHED, are_seen};
use crate::mending::mend;
use crate::ways::{FlatArcs, low_half, number_at, weight_between};
use mesh_types::{Mesh, PolyRef};
use nav_ground::TileNo;
use nav_lists::{Chunks, Duplicate, Items, Shared};
use std::alloc::{AllocError, Global};
use std::mem;

/// How often the polygons of a new tile are gone through, up and down, at most.
const SWEEPS: usize = 32;

/// The heights of a polygon that no landmark reaches.
const FAR: [u32; LANDMARKS] = [UNREACHED; LANDMARKS];

/// Rows of heights, by tile and by the polygon's place there.
pub(crate) type Rows = Chunks<Shared<Items<[u32; LANDMARKS]>>>;

/// A mesh in which tiles were replaced.
#[derive(Clone, Copy)]
pub(crate) struct Changes<'a> {
    pub(crate) mesh: &'a Mesh,
    /// The tiles that are new.
    pub(crate) news: &'a [TileNo],
    /// The links over the borders of those tiles.
    pub(crate) border: &'a [BorderLink],
}

/// A link that leaves a new tile over its border.
#[derive(Clone, Copy)]
pub(crate) struct BorderLink {
    pub(crate) from: PolyRef,
    pub(crate) to: PolyRef,
    /// The lesser of what it weighs and what its way back does.
    pub(crate) weight: u32,
}

/// The rows of heights that are written anew for a mesh in which tiles were replaced, each tile's once, those of the new tiles first and in
/// their order. The heights of the new tiles' polygons are the greatest that those around allow, and others are mended where the new tiles
/// made them too steep. None where there are no heights to begin with, where too many would have to be mended, or where less than half as
/// great a share of the new tiles' polygons is reached as before: where a whole island is new, nothing around it tells its heights.
pub(crate) fn keep(
    alloc: Global,
    old: &Rows,
    mesh: &Mesh,
    news: &[TileNo],
) -> Result<Option<Vec<TileRows>>, AllocError> {
    if old.len() != mesh.tiles.len() {
        return Ok(None);
    }
    let border = border_of(alloc, mesh, news)?;
    let changes = Changes {
        mesh,
        news,
        border: border.as_slice(),
    };
    let mut rows = EditedRows::new(alloc, old)?;
    let before = Reach::of(&rows, news);
    for tile in news {
        rows.put(*tile, unreached(alloc, mesh, *tile as usize)?)?;
    }
    for tile in news {
        fill_tile(alloc, changes, &mut rows, *tile)?;
    }
    if Reach::of(&rows, news).is_lost_since(before) {
        return Ok(None);
    }
    if mend(alloc, changes, &mut rows)? {
        Ok(Some(rows.written))
    } else {
        Ok(None)
    }
}

/// The links that leave some tiles over their borders.
fn border_of(alloc: Global, mesh: &Mesh, news: &[TileNo]) -> Result<Vec<BorderLink>, AllocError> {
    let mut border = Vec::new(alloc);
    for tile in news {
        for link in outer_of(mesh, *tile as usize) {
            border.push(BorderLink {
                from: link.from,
                to: link.to,
                weight: weight_between(mesh, link.from, link.to),
            })?;
        }
    }
    Ok(border)
}

/// How many polygons some tiles have, and how many of them are seen to be reached.
#[derive(Clone, Copy)]
struct Reach {
    seen: usize,
    all: usize,
}

impl Reach {
    /// What is reached of some tiles.
    fn of(rows: &EditedRows, tiles: &[TileNo]) -> Self {
        let mut reach = Reach { seen: 0, all: 0 };
        for tile in tiles {
            for row in rows.rows(*tile as usize) {
                reach.all = reach.all.wrapping_add(1);
                if are_seen(*row) {
                    reach.seen = reach.seen.wrapping_add(1);
                }
            }
        }
        reach
    }

    /// Whether the share that is reached fell to less than half of what it was. A door that goes leaves fewer polygons than stood around it.
    fn is_lost_since(self, before: Reach) -> bool {
        let after = self.seen.wrapping_mul(2).wrapping_mul(before.all);
        after < before.seen.wrapping_mul(self.all)
    }
}

/// Rows for the polygons of a tile, none of which is reached.
fn unreached(alloc: Global, mesh: &Mesh, tile: usize) -> Result<Vec<[u32; LANDMARKS]>, AllocError> {
    let count = match mesh.tiles.get(tile) {
        Some(tile) => tile.get().polys.len(),
        None => 0,
    };
    Ok(vec![in alloc; FAR; count]?)
}

/// Lowers the rows of a new tile to what the heights across its border allow, and those inside to each other.
fn fill_tile(
    alloc: Global,
    changes: Changes,
    rows: &mut EditedRows,
    tile: TileNo,
) -> Result<(), AllocError> {
    let ways = FlatArcs::inside(alloc, changes.mesh, tile as usize)?;
    let mut own = rows.take(alloc, tile as usize);
    for link in changes.border {
        let place = link.from.index as usize;
        if link.from.tile == tile && place < own.len() {
            own[place] = lowered(own[place], rows.row(link.to), link.weight);
        }
    }
    for _sweep in 0..SWEEPS {
        let up = sweep(own.as_mut_slice(), &ways, false);
        if !sweep(own.as_mut_slice(), &ways, true) && !up {
            break;
        }
    }
    rows.put(tile, own)
}

/// Lowers each row of a tile to what those allow to which ways lead, the first row first, or the last. Tells whether one was lowered.
fn sweep(rows: &mut [[u32; LANDMARKS]], ways: &FlatArcs, down: bool) -> bool {
    let mut changed = false;
    let count = rows.len();
    for step in 0..count {
        let place = if down { count - 1 - step } else { step };
        let mut row = rows[place];
        for way in ways.from(low_half(place)) {
            row = lowered(row, row_at(rows, way.to as usize), way.weight);
        }
        if row != rows[place] {
            rows[place] = row;
            changed = true;
        }
    }
    changed
}

/// The heights at a place; those of no polygon are not reached.
fn row_at(rows: &[[u32; LANDMARKS]], place: usize) -> [u32; LANDMARKS] {
    match rows.get(place) {
        Some(row) => *row,
        None => FAR,
    }
}

/// Heights, lowered to what those at the other end of a link allow.
fn lowered(heights: [u32; LANDMARKS], others: [u32; LANDMARKS], weight: u32) -> [u32; LANDMARKS] {
    let mut heights = heights;
    for landmark in 0..LANDMARKS {
        heights[landmark] = heights[landmark].min(through(others[landmark], weight));
    }
    heights
}

/// The height that one allows at the other end of a link.
pub(crate) fn through(height: u32, weight: u32) -> u32 {
    if height < UNREACHED {
        height.saturating_add(weight).min(UNREACHED - 1)
    } else {
        UNREACHED
    }
}

/// Rows of heights, some of which are written anew; all others are those that were before.
#[derive(Drop)]
pub(crate) struct EditedRows {
    old: Rows,
    /// By tile: one more than the place of its rows among those that are written anew; 0 where they are as before.
    places: Vec<u32>,
    written: Vec<TileRows>,
}

/// The rows of one tile.
#[derive(Drop)]
pub(crate) struct TileRows {
    pub(crate) tile: TileNo,
    pub(crate) rows: Vec<[u32; LANDMARKS]>,
}

impl EditedRows {
    /// Rows as they were.
    fn new(alloc: Global, old: &Rows) -> Result<Self, AllocError> {
        Ok(EditedRows {
            old: old.duplicate(alloc)?,
            places: vec![in alloc; 0; old.len()]?,
            written: Vec::new(alloc),
        })
    }

    /// The place of a tile's rows among those that are written anew.
    fn place(&self, tile: usize) -> Option<usize>
        ensures { IfSome result (λ place. place < length self.now.written.items) }
    {
        let after = number_at(self.places.as_slice(), tile) as usize;
        if 0 < after && after <= self.written.len() {
            Some(after - 1)
        } else {
            None
        }
    }

    /// The heights of a polygon.
    pub(crate) fn row(&self, at: PolyRef) -> [u32; LANDMARKS] {
        row_at(self.rows(at.tile as usize), at.index as usize)
    }

    /// The rows of a tile.
    pub(crate) fn rows(&self, tile: usize) -> &[[u32; LANDMARKS]] {
        if let Some(place) = self.place(tile) {
            return self.written[place].rows.as_slice();
        }
        match self.old.get(tile) {
            Some(rows) => rows.get().as_slice(),
            None => &[],
        }
    }

    /// Takes the rows of a tile that are written anew; it has none until others are put there.
    fn take(&mut self, alloc: Global, tile: usize) -> Vec<[u32; LANDMARKS]> {
        match self.place(tile) {
            Some(place) => mem::replace(&mut self.written[place].rows, Vec::new(alloc)),
            None => Vec::new(alloc),
        }
    }

    /// Puts rows for a tile in the place of those that it has.
    fn put(&mut self, tile: TileNo, rows: Vec<[u32; LANDMARKS]>) -> Result<(), AllocError> {
        if let Some(place) = self.place(tile as usize) {
            self.written[place].rows = rows;
            return Ok(());
        }
        let number = tile as usize;
        if number < self.places.len() {
            self.written.push(TileRows { tile, rows })?;
            self.places[number] = low_half(self.written.len());
        }
        Ok(())
    }

    /// Writes the height of a polygon over one landmark.
    pub(crate) fn set(
        &mut self,
        alloc: Global,
        at: PolyRef,
        landmark: usize,
        height: u32,
    ) -> Result<(), AllocError> {
        let tile = at.tile as usize;
        if self.place(tile).is_none() {
            let rows = Vec::from_slice(alloc, self.rows(tile))?;
            self.put(at.tile, rows)?;
        }
        if let Some(place) = self.place(tile) {
            write(
                self.written[place].rows.as_mut_slice(),
                at.index as usize,
                landmark,
                height,
            );
        }
        Ok(())
    }
}

/// Writes the height at a place over one landmark.
fn write(rows: &mut [[u32; LANDMARKS]], place: usize, landmark: usize, height: u32) {
    if place < rows.len() && landmark < LANDMARKS {
        rows[place][landmark] = height;
    }
}
