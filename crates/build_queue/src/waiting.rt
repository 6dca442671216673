//! Which tiles await a build, and which builds are claimed. A set of tiles that gives its least member. The tiles that a changed shape
//! touches, and which of these await a build.

ghost use Rattle.std.specs.Prelude.{◌≡◌, ◌<◌, ◌&&◌, not, false, length, replicate, slice_set, IfOk, IfSome, ◌≢◌, ℕ, ◌*◌, ◌^◌, ◌==◌, IfNone, if◌then◌else◌, ◌+◌, ◌/◌, ◌%◌, ◌≤◌, true, All, slice_index_or, []};
ghost use Rattle.build_queue.specs.Flags.{flag_of, least_below};
ghost use Rattle.build_queue.specs.Waiting.{least_ready};
ghost use Rattle.std.specs.Int.{bit_at};
ghost use Rattle.build_queue.specs.Words.{bit_of, IsLeastOf, IsPut};
ghost use Rattle.std.specs.Option.{option_map_or};
ghost use Rattle.nav_ground.specs.Limits.{IsSetting, IsShape};
ghost use Rattle.nav_ground.specs.Tiling.{tile_count};
ghost use Rattle.nav_ground.specs.Touching.{is_touching};
ghost use Rattle.build_queue.specs.Awaiting.{awaits};

use crate::live::BoundedShape;
use crate::reach::{TileRange, is_touching_list, places, tiles_along};
use nav_ground::{Setting, Shape, TileNo, touch_window};
use nav_lists::Items;
use std::alloc::{AllocError, Global};
use std::marker::Model;

/// The tiles that await a build, those that are claimed, and those that are awaited and not claimed.
#[derive(Drop)]
pub(crate) struct WaitingTiles {
    awaited: TileSet,
    claimed: TileSet,
    ready: TileSet,
}

impl Model for WaitingTiles {
    ghost use Rattle.build_queue.specs.Waiting.{Waiting, AreReady};

    ghost Value = { Waiting };

    ghost view = { λ tiles. record { awaited = tiles.awaited; claimed = tiles.claimed } };

    ghost invariant = { λ tiles. AreReady (record { awaited = tiles.awaited; claimed = tiles.claimed }) tiles.ready };
}

impl WaitingTiles {
    /// So many tiles, none of them awaited or claimed.
    pub(crate) fn new(alloc: Global, count: u32) -> Result<Self, AllocError>
        ensures { IfOk result (λ tiles. tiles ≡ record { awaited = replicate count false; claimed = replicate count false }) }
    {
        Ok(WaitingTiles {
            awaited: TileSet::new(alloc, count)?,
            claimed: TileSet::new(alloc, count)?,
            ready: TileSet::new(alloc, count)?,
        })
    }

    /// Whether a tile is awaited.
    pub(crate) fn is_awaited(&self, tile: TileNo) -> bool
        requires { tile < length self.now.awaited }
        ensures { result ≡ flag_of self.now.awaited tile }
    {
        self.awaited.has(tile)
    }

    /// Makes a tile awaited, or not.
    pub(crate) fn set_awaited(&mut self, tile: TileNo, awaited: bool)
        requires { tile < length self.old.awaited }
        ensures { self.new ≡ record self.old { awaited = slice_set self.old.awaited tile awaited } }
    {
        self.awaited.put(tile, awaited);
        let claimed = self.claimed.has(tile);
        self.ready.put(tile, is_ready(awaited, claimed));
    }

    /// Claims a tile, or ends the claim on it.
    pub(crate) fn set_claimed(&mut self, tile: TileNo, claimed: bool)
        requires { tile < length self.old.awaited }
        ensures { self.new ≡ record self.old { claimed = slice_set self.old.claimed tile claimed } }
    {
        self.claimed.put(tile, claimed);
        let awaited = self.awaited.has(tile);
        self.ready.put(tile, is_ready(awaited, claimed));
    }

    /// Ends all claims; one step where there are none.
    pub(crate) fn release_all(&mut self)
        ensures { self.new ≡ record self.old { claimed = replicate (length self.old.claimed) false } }
    {
        while let Some(tile) = self.least_claimed() {
            self.set_claimed(tile, false);
        }
    }

    /// The least tile that is claimed, if there is one.
    fn least_claimed(&self) -> Option<TileNo>
        ensures least { result ≡ least_below (length self.now.claimed) (flag_of self.now.claimed) }
        ensures there { IfSome result (λ tile. tile < length self.now.awaited) }
    {
        self.claimed.least()
    }

    /// The least tile that is awaited, if there is one.
    pub(crate) fn least_awaited(&self) -> Option<TileNo>
        ensures { result ≡ least_below (length self.now.awaited) (flag_of self.now.awaited) }
    {
        self.awaited.least()
    }

    /// The least tile that is awaited and not claimed, if there is one.
    pub(crate) fn least_ready(&self) -> Option<TileNo>
        ensures { result ≡ least_ready self.now }
    {
        self.ready.least()
    }
}

/// Whether a tile can be claimed that is awaited and claimed, or not.
fn is_ready(awaited: bool, claimed: bool) -> bool
    ensures { result ≡ (awaited && not claimed) }
{
    awaited && !claimed
}

/// A set of tiles, a bit a tile, 64 of them a word, and the set of the words that have members, likewise. So the least member is found by a
/// look at one word for each 4096 tiles.
#[derive(Drop)]
pub(crate) struct TileSet {
    count: u32,
    words: Vec<u64>,
    filled: Vec<u64>,
}

impl Model for TileSet {
    ghost use Rattle.std.specs.Prelude.{Bool, List};
    ghost use Rattle.build_queue.specs.Words.{flags_of, IsLeastSet};

    ghost Value = { List Bool };

    ghost view = { λ set. flags_of set.count set.words.items };

    ghost invariant = { λ set. IsLeastSet set.count set.words.items set.filled.items };
}

impl TileSet {
    /// No members, of so many tiles.
    pub(crate) fn new(alloc: Global, count: u32) -> Result<Self, AllocError>
        ensures { IfOk result (λ set. set ≡ replicate count false) }
    {
        let words = (count as usize).div_ceil(64);
        Ok(TileSet {
            count,
            words: vec![in alloc; 0; words]?,
            filled: vec![in alloc; 0; words.div_ceil(64)]?,
        })
    }

    /// Whether a tile is a member.
    pub(crate) fn has(&self, tile: TileNo) -> bool
        requires { tile < length self.now }
        ensures { result ≡ flag_of self.now tile }
    {
        has_bit(self.words[tile as usize / 64], tile % 64)
    }

    /// Makes a tile a member, or takes it out.
    pub(crate) fn put(&mut self, tile: TileNo, member: bool)
        requires { tile < length self.old }
        ensures { self.new ≡ slice_set self.old tile member }
    {
        let place = tile as usize;
        put_bit(&mut self.words, place, member);
        let some = self.words[place / 64] != 0;
        put_bit(&mut self.filled, place / 64, some);
    }

    /// The least member, if there is one.
    pub(crate) fn least(&self) -> Option<TileNo>
        ensures { result ≡ least_below (length self.now) (flag_of self.now) }
    {
        let word = least_of(self.filled.as_slice())?;
        let tile = 64 * word + lowest_bit(self.words[word]);
        Some(tile as u32)
    }
}

/// Makes a number a member of a set, or takes it out.
fn put_bit(words: &mut Vec<u64>, number: usize, member: bool)
    requires { number < 64 * length words.old.items }
    ensures { IsPut words.old.items number member words.new.items }
{
    let word = with_bit(words[number / 64], (number % 64) as u32, member);
    words[number / 64] = word;
}

/// The least number of a set, if there is one.
fn least_of(words: &[u64]) -> Option<usize>
    requires { length words.now < 2 ^ 32 }
    ensures some { IfSome result (IsLeastOf words.now) }
    ensures none { IfNone result ((number : ℕ) → bit_of words.now number ≡ 0) }
{
    for place in 0..words.len() {
        let word = words[place];
        if word != 0 {
            return Some(64 * place + lowest_bit(word));
        }
    }
    None
}

/// Whether a bit of a word is set.
fn has_bit(word: u64, place: u32) -> bool
    requires { place < 64 }
    ensures { result ≡ (bit_at word place == 1) }
{
    (word >> place) & 1 == 1
}

/// A word with a bit set, or with the bit not set.
fn with_bit(word: u64, place: u32, set: bool) -> u64
    requires { place < 64 }
    ensures here { bit_at result place ≡ (if set then 1 else 0) }
    ensures others { (other : ℕ) → other < 64 → other ≢ place → bit_at result other ≡ bit_at word other }
{
    let bit = 1u64 << place;
    if set { word | bit } else { word & !bit }
}

/// The place of the lowest bit that is set, of a word that has one.
fn lowest_bit(word: u64) -> usize
    requires { 0 < word }
    ensures there { result < 64 }
    ensures set { bit_at word result ≡ 1 }
    ensures before { (other : ℕ) → other < result → bit_at word other ≡ 0 }
{
    word.trailing_zeros() as usize
}

/// Marks the tiles that a shape touches, if one has come or gone.
pub(crate) fn mark_changed(setting: &Setting, dirty: &mut TileSet, changed: Option<BoundedShape>)
    requires setting { IsSetting setting.now }
    requires shape { IfSome changed IsShape }
    requires tiles { length dirty.old ≡ tile_count setting.now }
    ensures tiles_after { length dirty.new ≡ length dirty.old }
    ensures kept { (tile : ℕ) → flag_of dirty.old tile ≡ true → flag_of dirty.new tile ≡ true }
    ensures marked { (tile : ℕ) → tile < tile_count setting.now → option_map_or (is_touching setting.now tile) changed false ≡ true
        → flag_of dirty.new tile ≡ true }
{
    if let Some(shape) = changed {
        mark(setting, dirty, &shape);
    }
}

/// Marks the tiles that a shape touches.
fn mark(setting: &Setting, dirty: &mut TileSet, shape: &BoundedShape)
    requires setting { IsSetting setting.now }
    requires shape { IsShape shape.now }
    requires tiles { length dirty.old ≡ tile_count setting.now }
    ensures tiles_after { length dirty.new ≡ length dirty.old }
    ensures kept { (tile : ℕ) → flag_of dirty.old tile ≡ true → flag_of dirty.new tile ≡ true }
    ensures marked { (tile : ℕ) → tile < tile_count setting.now → is_touching setting.now tile shape.now ≡ true → flag_of dirty.new tile ≡ true }
{
    let columns = tiles_along(setting.width, setting.tile);
    let rows = tiles_along(setting.depth, setting.tile);
    let window = touch_window(setting, shape.get());
    let across = places(window.x0, window.x1, setting.tile, columns);
    let along = places(window.z0, window.z1, setting.tile, rows);
    mark_rows(dirty, columns, along, across);
}

/// Marks the tiles at some places of some rows, where so many tiles stand in a row.
fn mark_rows(dirty: &mut TileSet, columns: u32, along: TileRange, across: TileRange)
    requires columns { (1 ≤ columns) × (columns ≤ 256) }
    requires rows { along.end ≤ 256 }
    requires there { along.end * columns ≤ length dirty.old }
    requires inside { across.end ≤ columns }
    requires few { length dirty.old < 2 ^ 32 }
    ensures tiles_after { length dirty.new ≡ length dirty.old }
    ensures kept { (tile : ℕ) → flag_of dirty.old tile ≡ true → flag_of dirty.new tile ≡ true }
    ensures marked { (tile : ℕ) → along.first ≤ tile / columns → tile / columns < along.end → across.first ≤ tile % columns → tile % columns < across.end
        → flag_of dirty.new tile ≡ true }
{
    for row in along.first..along.end {
        mark_run(dirty, row * columns, across);
    }
}

/// Marks the tiles at places of a row, which begins with the tile `start`.
fn mark_run(dirty: &mut TileSet, start: u32, across: TileRange)
    requires there { start + across.end ≤ length dirty.old }
    requires few { length dirty.old < 2 ^ 32 }
    ensures tiles_after { length dirty.new ≡ length dirty.old }
    ensures kept { (tile : ℕ) → flag_of dirty.old tile ≡ true → flag_of dirty.new tile ≡ true }
    ensures marked { (place : ℕ) → across.first ≤ place → place < across.end → flag_of dirty.new (start + place) ≡ true }
{
    for place in across.first..across.end {
        dirty.put(start + place, true);
    }
}

/// Looks again at each marked tile, whether it is awaited, and takes the marks away; one step where no tile is marked.
pub(crate) fn look_again(
    setting: &Setting,
    aimed: &[BoundedShape],
    stored: &[Items<Shape>],
    dirty: &mut TileSet,
    waiting: &mut WaitingTiles,
)
    requires setting { IsSetting setting.now }
    requires lists { length stored.now ≡ tile_count setting.now }
    requires marks { length dirty.old ≡ tile_count setting.now }
    requires flags { length waiting.old.awaited ≡ tile_count setting.now }
    requires claims { length waiting.old.claimed ≡ tile_count setting.now }
    ensures marks_after { length dirty.new ≡ length dirty.old }
    ensures flags_after { length waiting.new.awaited ≡ length waiting.old.awaited }
    ensures claimed { waiting.new.claimed ≡ waiting.old.claimed }
    ensures clean { (tile : ℕ) → tile < tile_count setting.now → flag_of dirty.new tile ≡ false }
    ensures awaited { (tile : ℕ) → tile < tile_count setting.now → flag_of waiting.new.awaited tile
        ≡ (if flag_of dirty.old tile then awaits setting.now aimed.now tile (slice_index_or stored.now tile []) else flag_of waiting.old.awaited tile) }
{
    while let Some(tile) = dirty.least() {
        dirty.put(tile, false);
        look_at(setting, aimed, stored, tile, waiting);
    }
}

/// Looks again at a tile, whether it is awaited.
fn look_at(
    setting: &Setting,
    aimed: &[BoundedShape],
    stored: &[Items<Shape>],
    tile: TileNo,
    waiting: &mut WaitingTiles,
)
    requires setting { IsSetting setting.now }
    requires there { tile < tile_count setting.now }
    requires lists { length stored.now ≡ tile_count setting.now }
    requires flags { length waiting.old.awaited ≡ tile_count setting.now }
    ensures { waiting.new ≡ record waiting.old {
      awaited = slice_set waiting.old.awaited tile (awaits setting.now aimed.now tile (slice_index_or stored.now tile []));
    } }
{
    let built = is_touching_list(setting, tile, aimed, stored[tile as usize].as_slice());
    waiting.set_awaited(tile, !built);
}
