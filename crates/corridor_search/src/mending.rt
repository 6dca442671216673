//! How heights over landmarks that new tiles made too steep are mended. Nothing is promised of them: whether they keep the rule is tested
//! behind it.

use crate::filling::BucketQueue;
use crate::keeping::{Changes, EditedRows, through};
use crate::landmarks::{LANDMARKS, UNREACHED};
use crate::mesh_graph::{entered_inside, entered_outside};
use crate::ways::{low_half, weight_between};
use mesh_types::{Mesh, PolyRef};
use std::alloc::{AllocError, Global};

/// How many heights over one landmark each try may write at most: lowering and raising are tried in turn, so that the one of the two that
/// writes few is taken.
const TRIES: [usize; 5] = [64, 512, 4096, 32768, 262144];

/// How often all lists of the queue are looked at, at most: more often than it takes.
const ROUNDS: u32 = u32::MAX;

/// Mends heights that are too steep over the borders of new tiles, over each landmark alone. Tells whether it could be done with few of them.
pub(crate) fn mend(
    alloc: Global,
    changes: Changes,
    rows: &mut EditedRows,
) -> Result<bool, AllocError> {
    let mut mending = Mending {
        ring: BucketQueue::new(alloc, 0)?,
        overwritten: Vec::new(alloc),
    };
    for landmark in 0..LANDMARKS {
        if !mending.mend_over(alloc, changes, rows, landmark)? {
            return Ok(false);
        }
    }
    Ok(true)
}

/// A try over one landmark.
#[derive(Clone, Copy)]
struct MendingTry {
    landmark: usize,
    /// Whether heights are raised; then those of the new tiles are made anew, from below. Heights that count from the greatest one down are
    /// lowered as those are that count from 0 up.
    raised: bool,
    /// How many heights may be written.
    most: usize,
}

impl MendingTry {
    /// A height as it counts in the try, and one that counts so as a height.
    fn counted(self, height: u32) -> u32 {
        if self.raised && height < UNREACHED {
            UNREACHED - 1 - height
        } else {
            height
        }
    }

    /// The height of a polygon as it counts.
    fn height(self, rows: &EditedRows, at: PolyRef) -> u32 {
        let row = rows.row(at);
        if self.landmark < LANDMARKS {
            self.counted(row[self.landmark])
        } else {
            UNREACHED
        }
    }
}

/// A height that was written over.
#[derive(Clone, Copy)]
struct Overwritten {
    at: PolyRef,
    /// As it was.
    height: u32,
}

/// The room in which heights are mended.
#[derive(Drop)]
struct Mending {
    /// Places in the list of what was written over.
    ring: BucketQueue,
    /// In order.
    overwritten: Vec<Overwritten>,
}

impl Mending {
    /// Mends the heights over one landmark.
    fn mend_over(
        &mut self,
        alloc: Global,
        changes: Changes,
        rows: &mut EditedRows,
        landmark: usize,
    ) -> Result<bool, AllocError> {
        for most in TRIES {
            for raised in [false, true] {
                let attempt = MendingTry {
                    landmark,
                    raised,
                    most,
                };
                if self.try_mending(alloc, changes, rows, attempt)? {
                    return Ok(true);
                }
            }
        }
        Ok(false)
    }

    /// Writes heights until none is too steep; where they would be too many, all are as before.
    fn try_mending(
        &mut self,
        alloc: Global,
        changes: Changes,
        rows: &mut EditedRows,
        attempt: MendingTry,
    ) -> Result<bool, AllocError> {
        self.overwritten.clear();
        if attempt.raised {
            self.forget_new(alloc, changes, rows, attempt)?;
        }
        let most = attempt.most.saturating_add(self.overwritten.len());
        self.begin(alloc, changes, rows, attempt)?;
        for _round in 0..ROUNDS {
            let Some(list) = self.ring.take(alloc) else {
                break;
            };
            for place in list.as_slice() {
                self.follow(alloc, changes.mesh, rows, attempt, *place)?;
            }
            self.ring.give_back(list);
            if most < self.overwritten.len() {
                self.take_back(alloc, rows, attempt)?;
                return Ok(false);
            }
        }
        Ok(true)
    }

    /// Makes the polygons of the new tiles unreached.
    fn forget_new(
        &mut self,
        alloc: Global,
        changes: Changes,
        rows: &mut EditedRows,
        attempt: MendingTry,
    ) -> Result<(), AllocError> {
        for tile in changes.news {
            let count = rows.rows(*tile as usize).len();
            for index in 0..count {
                let at = PolyRef {
                    tile: *tile,
                    index: low_half(index),
                };
                self.write(alloc, rows, attempt, at, UNREACHED)?;
            }
        }
        Ok(())
    }

    /// Writes what the heights on either side of the new tiles' borders allow on the other.
    fn begin(
        &mut self,
        alloc: Global,
        changes: Changes,
        rows: &mut EditedRows,
        attempt: MendingTry,
    ) -> Result<(), AllocError> {
        let (least, greatest) = range_over(changes, rows, attempt);
        let apart = greatest.saturating_sub(least);
        self.ring
            .begin_from(least, apart.saturating_add(heaviest(changes.mesh)));
        for link in changes.border {
            self.lower(
                alloc,
                rows,
                attempt,
                link.to,
                along(attempt, rows, link.from, link.weight),
            )?;
            self.lower(
                alloc,
                rows,
                attempt,
                link.from,
                along(attempt, rows, link.to, link.weight),
            )?;
        }
        Ok(())
    }

    /// Follows the links from a polygon whose height stands in the lowest list.
    fn follow(
        &mut self,
        alloc: Global,
        mesh: &Mesh,
        rows: &mut EditedRows,
        attempt: MendingTry,
        place: u32,
    ) -> Result<(), AllocError> {
        let Some(written) = self.overwritten.get(place as usize) else {
            return Ok(());
        };
        let at = written.at;
        if !self.ring.is_lowest(attempt.height(rows, at)) {
            return Ok(());
        }
        for to in entered_inside(mesh, at) {
            let height = along(attempt, rows, at, weight_between(mesh, at, *to));
            self.lower(alloc, rows, attempt, *to, height)?;
        }
        for to in entered_outside(mesh, at) {
            let height = along(attempt, rows, at, weight_between(mesh, at, *to));
            self.lower(alloc, rows, attempt, *to, height)?;
        }
        Ok(())
    }

    /// Lowers a height as it counts, where one is below it, and lets it wait.
    fn lower(
        &mut self,
        alloc: Global,
        rows: &mut EditedRows,
        attempt: MendingTry,
        at: PolyRef,
        height: u32,
    ) -> Result<(), AllocError> {
        if height < attempt.height(rows, at) {
            let place = low_half(self.overwritten.len());
            self.write(alloc, rows, attempt, at, height)?;
            self.ring.push(height, place)?;
        }
        Ok(())
    }

    /// Writes a height as it counts.
    fn write(
        &mut self,
        alloc: Global,
        rows: &mut EditedRows,
        attempt: MendingTry,
        at: PolyRef,
        height: u32,
    ) -> Result<(), AllocError> {
        let before = attempt.counted(attempt.height(rows, at));
        self.overwritten.push(Overwritten { at, height: before })?;
        rows.set(alloc, at, attempt.landmark, attempt.counted(height))
    }

    /// Writes the heights again that were written over, the last first.
    fn take_back(
        &mut self,
        alloc: Global,
        rows: &mut EditedRows,
        attempt: MendingTry,
    ) -> Result<(), AllocError> {
        let count = self.overwritten.len();
        for step in 0..count {
            let before = self.overwritten[count - 1 - step];
            rows.set(alloc, before.at, attempt.landmark, before.height)?;
        }
        Ok(())
    }
}

/// The height that the one of a polygon allows at the other end of a link, as it counts.
fn along(attempt: MendingTry, rows: &EditedRows, from: PolyRef, weight: u32) -> u32 {
    through(attempt.height(rows, from), weight)
}

/// The least and the greatest of the heights, as they count, that are to be written over the borders.
fn range_over(changes: Changes, rows: &EditedRows, attempt: MendingTry) -> (u32, u32) {
    let mut least = UNREACHED;
    let mut greatest = 0;
    for link in changes.border {
        for (from, to) in [(link.from, link.to), (link.to, link.from)] {
            let height = along(attempt, rows, from, link.weight);
            if height < attempt.height(rows, to) {
                least = least.min(height);
                greatest = greatest.max(height);
            }
        }
    }
    (least, greatest)
}

/// More than twice what any link weighs: two middles are at most a tile's side apart along each axis, in sixteenths of a cell.
fn heaviest(mesh: &Mesh) -> u32 {
    let mut greatest = 1u32;
    for cost in &mesh.setting.costs {
        greatest = greatest.max(*cost);
    }
    mesh.setting
        .tile
        .saturating_mul(64)
        .saturating_mul(greatest)
}
