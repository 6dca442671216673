//! How heights over landmarks are found. Nothing is promised of them: whether they keep the rule is tested behind it. A queue of numbers by
//! height, of which nothing is promised.

ghost use Rattle.std.specs.Prelude.{◌<◌};

use crate::keeping::Rows;
use crate::landmarks::{LANDMARKS, UNREACHED};
use crate::ways::{FlatArcs, number_at};
use mesh_types::Mesh;
use nav_lists::{Chunks, Items, Shared};
use std::alloc::{AllocError, Global};
use std::mem;

/// How many polygons are tried for one from which half of all are reached.
const TRIES: usize = 4;

/// How often all lists of the queue are looked at, at most: more often than it takes.
const ROUNDS: u32 = u32::MAX;

/// Heights of all polygons over landmarks, by tile and place. The first landmark is a polygon that is farthest from some polygon of the
/// largest island, and each further one is the polygon that is farthest from all before it.
pub(crate) fn fill(alloc: Global, mesh: &Mesh) -> Result<Rows, AllocError> {
    let mut tiles = level(alloc, mesh)?;
    let ways = FlatArcs::of(alloc, mesh)?;
    let mut search = DistanceFill::new(alloc, &ways)?;
    search.begin(alloc, &ways)?;
    for column in 0..LANDMARKS {
        let Some(next) = farthest(search.nearest.as_slice()) else {
            break;
        };
        search.measure(alloc, &ways, next)?;
        if column == 0 {
            copy(search.heights.as_slice(), search.nearest.as_mut_slice());
        } else {
            lower(search.nearest.as_mut_slice(), search.heights.as_slice());
        }
        write(tiles.as_mut_slice(), column, search.heights.as_slice());
    }
    as_rows(alloc, tiles)
}

/// The same heights as lists that stay as they are and are shared.
fn as_rows(alloc: Global, tiles: Vec<Vec<[u32; LANDMARKS]>>) -> Result<Rows, AllocError> {
    let mut made = Vec::with_capacity(alloc, tiles.len())?;
    for rows in tiles {
        made.push(Shared::new(alloc, Items::from_vec(rows))?)?;
    }
    Chunks::from_vec(alloc, made)
}

/// Heights of 0 for all polygons.
fn level(alloc: Global, mesh: &Mesh) -> Result<Vec<Vec<[u32; LANDMARKS]>>, AllocError> {
    let mut tiles = Vec::with_capacity(alloc, mesh.tiles.len())?;
    for tile in 0..mesh.tiles.len() {
        let count = mesh.tiles.at(tile).get().polys.len();
        tiles.push(vec![in alloc; [0; LANDMARKS]; count]?)?;
    }
    Ok(tiles)
}

/// The room in which heights are found.
#[derive(Drop)]
struct DistanceFill {
    ring: BucketQueue,
    /// By number: the height over the last landmark; `UNREACHED` where no walk leads there, and less elsewhere.
    heights: Vec<u32>,
    /// By number: the least height over the landmarks so far.
    nearest: Vec<u32>,
}

impl DistanceFill {
    fn new(alloc: Global, ways: &FlatArcs) -> Result<Self, AllocError> {
        let count = ways.polygons();
        Ok(DistanceFill {
            ring: BucketQueue::new(alloc, ways.heaviest())?,
            heights: vec![in alloc; UNREACHED; count]?,
            nearest: vec![in alloc; UNREACHED; count]?,
        })
    }

    /// Finds a polygon from which half of all are reached, and takes the heights over it for the nearest.
    fn begin(&mut self, alloc: Global, ways: &FlatArcs) -> Result<(), AllocError> {
        let mut start = 0;
        for _try in 0..TRIES {
            self.measure(alloc, ways, start)?;
            copy(self.heights.as_slice(), self.nearest.as_mut_slice());
            if ways.polygons() / 2 <= reached(self.heights.as_slice()) {
                break;
            }
            start = unreached_after(self.heights.as_slice(), start);
        }
        Ok(())
    }

    /// Finds the heights of all polygons over one.
    fn measure(&mut self, alloc: Global, ways: &FlatArcs, landmark: u32) -> Result<(), AllocError> {
        self.heights.clear();
        self.heights.resize(ways.polygons(), UNREACHED)?;
        let place = landmark as usize;
        if place < self.heights.len() {
            self.heights[place] = 0;
        }
        self.ring.begin(landmark)?;
        for _round in 0..ROUNDS {
            let Some(list) = self.ring.take(alloc) else {
                break;
            };
            for number in list.as_slice() {
                self.follow(ways, *number)?;
            }
            self.ring.give_back(list);
        }
        Ok(())
    }

    /// Follows the ways from a polygon whose height stands in the lowest list; what waits there with a height that has fallen was followed.
    fn follow(&mut self, ways: &FlatArcs, number: u32) -> Result<(), AllocError> {
        let height = number_at(self.heights.as_slice(), number as usize);
        if !self.ring.is_lowest(height) {
            return Ok(());
        }
        for way in ways.from(number) {
            let through = height.saturating_add(way.weight).min(UNREACHED - 1);
            let to = way.to as usize;
            if to < self.heights.len() && through < self.heights[to] {
                self.heights[to] = through;
                self.ring.push(through, way.to)?;
            }
        }
        Ok(())
    }
}

/// How many polygons are reached.
fn reached(heights: &[u32]) -> usize {
    heights.iter().filter(|height| **height < UNREACHED).count()
}

/// The next polygon after one that is not reached; that one where there is none.
fn unreached_after(heights: &[u32], start: u32) -> u32 {
    let mut number = 0u32;
    for height in heights {
        if start < number && *height == UNREACHED {
            return number;
        }
        number = number.wrapping_add(1);
    }
    start
}

/// The polygon that is reached with the greatest height, where one is above 0.
fn farthest(heights: &[u32]) -> Option<u32> {
    let mut found = None;
    let mut greatest = 0;
    let mut number = 0u32;
    for height in heights {
        if greatest < *height && *height < UNREACHED {
            greatest = *height;
            found = Some(number);
        }
        number = number.wrapping_add(1);
    }
    found
}

/// Copies numbers over others.
fn copy(from: &[u32], to: &mut [u32]) {
    for place in 0..to.len() {
        to[place] = number_at(from, place);
    }
}

/// Lowers numbers to others, where these are less.
fn lower(numbers: &mut [u32], others: &[u32]) {
    for place in 0..numbers.len() {
        numbers[place] = numbers[place].min(number_at(others, place));
    }
}

/// Writes the heights over one landmark.
fn write(tiles: &mut [Vec<[u32; LANDMARKS]>], column: usize, heights: &[u32])
    requires { column < 8 }
{
    let mut first = 0usize;
    for rows in tiles {
        let rows = rows.as_mut_slice();
        for place in 0..rows.len() {
            rows[place][column] = number_at(heights, first.wrapping_add(place));
        }
        first = first.wrapping_add(rows.len());
    }
}

/// How many lists there are, a power of two.
const LISTS: usize = 1024;

/// Numbers that wait, in a ring of lists, each for a range of heights; one is taken at a time, the lowest first. Heights that are added are
/// not above the lowest by more than the ring is round.
#[derive(Drop)]
pub(crate) struct BucketQueue {
    lists: Vec<Vec<u32>>,
    /// How many binary places a height has below the number of its list.
    places: u32,
    /// The number of the list that is lowest, counted on round the ring.
    lowest: u32,
    /// How many numbers wait.
    waiting: usize,
    /// Memory of the list that was taken last, for the next.
    spare: Vec<u32>,
}

impl BucketQueue {
    /// A ring for heights that are above the lowest by no more than given.
    pub(crate) fn new(alloc: Global, most: u32) -> Result<Self, AllocError> {
        let mut lists = Vec::with_capacity(alloc, LISTS)?;
        for _list in 0..LISTS {
            lists.push(Vec::new(alloc))?;
        }
        Ok(BucketQueue {
            lists,
            places: places(most),
            lowest: 0,
            waiting: 0,
            spare: Vec::new(alloc),
        })
    }

    /// The list of a height, counted on round the ring.
    fn list_of(&self, height: u32) -> u32 {
        height >> self.places.min(31)
    }

    /// Whether a height stands in the list that was taken last.
    pub(crate) fn is_lowest(&self, height: u32) -> bool {
        self.list_of(height) == self.lowest
    }

    /// Begins anew, with one number of height 0.
    pub(crate) fn begin(&mut self, number: u32) -> Result<(), AllocError> {
        self.clear();
        self.lowest = 0;
        self.push(0, number)
    }

    /// Begins anew, with no number, for heights not below the least given that are above the lowest by no more than given.
    pub(crate) fn begin_from(&mut self, least: u32, most: u32) {
        self.clear();
        self.places = places(most);
        self.lowest = self.list_of(least);
    }

    /// Lets all numbers go.
    fn clear(&mut self) {
        if self.waiting == 0 {
            return;
        }
        for list in self.lists.as_mut_slice() {
            list.clear();
        }
        self.waiting = 0;
    }

    /// Adds a number.
    pub(crate) fn push(&mut self, height: u32, number: u32) -> Result<(), AllocError> {
        let place = self.list_of(height) as usize % LISTS;
        if place < self.lists.len() {
            self.lists[place].push(number)?;
            self.waiting = self.waiting.wrapping_add(1);
        }
        Ok(())
    }

    /// Takes the lowest list; none where no number waits.
    pub(crate) fn take(&mut self, alloc: Global) -> Option<Vec<u32>> {
        if self.waiting == 0 {
            return None;
        }
        for _step in 0..LISTS {
            let place = self.lowest as usize % LISTS;
            if place < self.lists.len() && !self.lists[place].is_empty() {
                let spare = mem::replace(&mut self.spare, Vec::new(alloc));
                let list = mem::replace(&mut self.lists[place], spare);
                self.waiting = self.waiting.wrapping_sub(list.len());
                return Some(list);
            }
            self.lowest = self.lowest.wrapping_add(1);
        }
        None
    }

    /// Gives the memory of a list back.
    pub(crate) fn give_back(&mut self, list: Vec<u32>) {
        self.spare = list;
        self.spare.clear();
    }
}

/// The least number of binary places to cut off, so that heights which differ by no more than given stand less than a round apart.
fn places(most: u32) -> u32 {
    for places in 0..32 {
        if (most >> places) < LISTS as u32 - 1 {
            return places;
        }
    }
    31
}
