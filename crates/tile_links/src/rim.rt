//! The links from a tile to the tile across one of its sides. The places of a rim along a side, in an order in which those with one
//! position and level are found at once. A place of a rim's entry.

ghost use Rattle.std.specs.Prelude.{◌≡◌, ◌+◌, ◌<◌, ◌++◌, IfOk, OnOk, All, List, filter, length, ◌≤◌, ◌↔◌, ◌∷◌, [], ◌==◌, if◌then◌else◌, true, false};
ghost use Rattle.std.specs.List.{flat_map, AllWithin, prefix_len};
ghost use Rattle.nav_ground.specs.Cells.{opposite};
ghost use Rattle.mesh_types.specs.BorderLinks.{border_links, line_of};
ghost use Rattle.tile_links.specs.Across.{AreAcross, IsNamed, IsWithinField};
ghost use Rattle.tile_links.specs.declared.rim.RimPlace.{RimPlace};
ghost use Rattle.tile_links.specs.RimPlaces.{ArePlaces, AreInOrder, entry_of, pair_of, is_at_place, place_cmp, entry_places, is_before_place};
ghost use Rattle.tile_links.specs.Loose.{loose_links, placed_links, run_links, HasGained};
ghost use Rattle.std.specs.Bool.{IsTrue};
ghost use Rattle.std.specs.List.Sorted.{IsPermutation, IsPartitionPoint};

use crate::join::Border;
use crate::portals::{push_run_link, rim_line};
use mesh_types::{Link, RimEdge, TileMesh, order_links};
use std::alloc::{AllocError, Global};
use std::cmp::Ordering;

/// The links from tile `a` to tile `b`, which lies across a side of `a`: for each rim entry of the one on that side and each of the other
/// on the opposite side, one for each maximal run of positions where they meet, in the order of links. In the order n log n for n positions
/// of the two rims and links where no two entries of a rim have one position and level, as in every tile that is built.
#[tactic(auto, unfolding(mesh_types::specs::BorderLinks::border_links))]
pub fn rim_links(
    alloc: Global,
    a: &TileMesh,
    b: &TileMesh,
    side: u32,
) -> Result<Vec<Link>, AllocError>
    requires { AreAcross a.now b.now side }
    ensures { IfOk result (λ links. links.items ≡ border_links a.now b.now side) }
{
    let mut links = Vec::new(alloc);
    push_links(alloc, &mut links, a, b, side)?;
    order_links(links.as_mut_slice());
    Ok(links)
}

/// Appends the links from tile `a` to tile `b` across a side of `a`, in the order in which they are found: the places across are put in
/// order first, so that those that a place of `a` leads to are looked up.
pub fn push_links(
    alloc: Global,
    links: &mut Vec<Link>,
    a: &TileMesh,
    b: &TileMesh,
    side: u32,
) -> Result<(), AllocError>
    requires { AreAcross a.now b.now side }
    ensures { OnOk result (HasGained links.old.items (loose_links a.now b.now side) links.new.items) }
{
    let facing = (side % 4 + 2) % 4;
    let places = side_places(alloc, b.rim.as_slice(), facing)?;
    let across = places.as_slice();
    let line = rim_line(a, side);
    let mut guess = 0;
    for entry in a.rim.as_slice() {
        if entry.side == side {
            let border = Border {
                tile: a,
                across: b,
                side,
                line,
            };
            push_entry_links(links, border, entry, across, &mut guess)?;
        }
    }
    Ok(())
}

/// Appends the links from an entry of a tile on its side of the border, by the places of the tile across on the opposite side. Those that
/// the entry leads to are looked for at a guess first, which becomes the next one.
fn push_entry_links(
    links: &mut Vec<Link>,
    border: Border,
    entry: &RimEdge,
    places: &[RimPlace],
    guess: &mut usize,
) -> Result<(), AllocError>
    requires entry { IsNamed border.tile.now entry.now }
    requires line { border.line ≡ line_of border.side border.tile.now.polys entry.now }
    requires places { ArePlaces (opposite border.side) border.across.now.rim places.now }
    ensures { OnOk result (links.new.items ≡ links.old.items ++ placed_links border.entry.tile.now border.entry.across.now border.entry.side places.now entry.now) }
{
    for place in 0..entry.pairs.len() {
        let across = places_across(places, guess, entry, place);
        push_place_links(links, border, entry, place, across)?;
    }
    Ok(())
}

/// The places across to which an entry leads at one of its places.
fn places_across<'a>(
    places: &'a [RimPlace],
    guess: &mut usize,
    entry: &RimEdge,
    place: usize,
) -> &'a [RimPlace]
    requires order { AreInOrder places.now }
    requires positions { IsWithinField entry.now }
    requires there { place < length entry.now.pairs }
    ensures { result.now ≡ filter (is_at_place (entry.now.first + place) (pair_of entry.now place).other) places.now }
{
    let level = entry.pairs.as_slice()[place].other;
    places_at(places, guess, entry.first + place as u32, level)
}

/// Appends the links from an entry along the runs that begin at one of its places, by the places across that it leads to there.
fn push_place_links(
    links: &mut Vec<Link>,
    border: Border,
    entry: &RimEdge,
    place: usize,
    across: &[RimPlace],
) -> Result<(), AllocError>
    requires entry { IsNamed border.tile.now entry.now }
    requires line { border.line ≡ line_of border.side border.tile.now.polys entry.now }
    requires there { place < length entry.now.pairs }
    requires across { All (λ (found : RimPlace). found.entry < length border.across.now.rim) across.now }
    ensures { OnOk result (links.new.items ≡ links.old.items
        ++ flat_map (run_links border.entry.tile.now border.entry.across.now border.entry.side entry.now place) across.now) }
{
    for found in across {
        let other = entry_at(border.across.rim.as_slice(), found.entry);
        push_run_link(links, border, entry, other, place)?;
    }
    Ok(())
}

/// The entry of a rim with a number.
fn entry_at(rim: &[RimEdge], number: usize) -> &RimEdge
    requires { number < length rim.now }
    ensures { result.now ≡ entry_of rim.now number }
{
    &rim[number]
}

/// How many places are made room for at first: as many as most sides have.
const ROOM: usize = 64;

/// The places of the entries of a rim along a side, by position and then by level. In the order n log n for n places.
pub fn side_places(alloc: Global, rim: &[RimEdge], side: u32) -> Result<Vec<RimPlace>, AllocError>
    requires { All IsWithinField rim.now }
    ensures { IfOk result (λ places. ArePlaces side rim.now places.items) }
{
    let mut places = Vec::with_capacity(alloc, ROOM)?;
    for number in 0..rim.len() {
        push_side_places(&mut places, &rim[number], number, side)?;
    }
    order_places(places.as_mut_slice());
    Ok(places)
}

/// Appends the places of the entry with a number, where it runs along a side.
fn push_side_places(
    places: &mut Vec<RimPlace>,
    entry: &RimEdge,
    number: usize,
    side: u32,
) -> Result<(), AllocError>
    requires { IsWithinField entry.now }
    ensures { OnOk result (places.new.items ≡ places.old.items
        ++ (if entry.now.side == side then entry_places number entry.now else [])) }
{
    if entry.side == side {
        push_entry_places(places, entry, number)?;
    }
    Ok(())
}

/// Appends the places of the entry with a number.
fn push_entry_places(
    places: &mut Vec<RimPlace>,
    entry: &RimEdge,
    number: usize,
) -> Result<(), AllocError>
    requires { IsWithinField entry.now }
    ensures { OnOk result (places.new.items ≡ places.old.items ++ entry_places number entry.now) }
{
    let pairs = entry.pairs.as_slice();
    for place in 0..pairs.len() {
        places.push(RimPlace {
            position: entry.first + place as u32,
            level: pairs[place].own,
            entry: number,
        })?;
    }
    Ok(())
}

/// Puts places in order.
fn order_places(places: &mut [RimPlace])
    ensures order { AreInOrder places.new }
    ensures all { IsPermutation places.old places.new }
{
    places.sort_unstable_by(|a, b| place_order(a, b))
}

/// Which of two places comes first.
fn place_order(a: &RimPlace, b: &RimPlace) -> Ordering
    ensures { result ≡ place_cmp a.now b.now }
{
    if a.position == b.position {
        a.level.cmp(&b.level)
    } else {
        a.position.cmp(&b.position)
    }
}

/// How many places a search goes on from its guess before all of them are halved instead.
const NEAR: usize = 8;

/// Of places in order those that have a position and a level. They are looked for at a guess first, and the guess becomes the number of
/// places up to their end: as the places of a side are gone through in order, mostly so are those that they lead to.
pub fn places_at<'a>(
    places: &'a [RimPlace],
    guess: &mut usize,
    position: u32,
    level: u32,
) -> &'a [RimPlace]
    requires { AreInOrder places.now }
    ensures { result.now ≡ filter (is_at_place position level) places.now }
{
    let first = places_before(places, *guess, position, level);
    let rest = &places[first..];
    let count = count_at(rest, position, level);
    *guess = first + count;
    &rest[..count]
}

/// How many of places in order come before a position and a level. The guess is taken only where the places up to it come before them and
/// no others do.
fn places_before(places: &[RimPlace], guess: usize, position: u32, level: u32) -> usize
    requires { AreInOrder places.now }
    ensures most { result ≤ length places.now }
    ensures point { IsPartitionPoint (λ (place : RimPlace). is_before_place position level place ≡ true)
        (λ (place : RimPlace). is_before_place position level place ≡ false) places.now result }
{
    let near = near_before(places, guess, position, level);
    if are_before(places, near, position, level) && are_after(places, near, position, level) {
        near
    } else {
        places.partition_point(|place| is_before_place(place, position, level))
    }
}

/// The guess, and as many places more, up to a few, as come before a position and a level. It is a guess again.
fn near_before(places: &[RimPlace], guess: usize, position: u32, level: u32) -> usize
    ensures { result ≤ length places.now }
{
    let mut near = guess.min(places.len());
    let end = near.saturating_add(NEAR).min(places.len());
    while near < end && is_before_place(&places[near], position, level) {
        near += 1;
    }
    near
}

/// Whether so many of places in order all come before a position and a level: the last of them tells.
fn are_before(places: &[RimPlace], count: usize, position: u32, level: u32) -> bool
    requires order { AreInOrder places.now }
    requires there { count ≤ length places.now }
    ensures { IsTrue result ↔ AllWithin (λ (place : RimPlace). is_before_place position level place ≡ true) places.now 0 count }
{
    if count == 0 {
        return true;
    }
    is_before_place(&places[count - 1], position, level)
}

/// Whether none of places in order from one on comes before a position and a level: that one tells.
fn are_after(places: &[RimPlace], first: usize, position: u32, level: u32) -> bool
    requires { AreInOrder places.now }
    ensures { IsTrue result ↔ AllWithin (λ (place : RimPlace). is_before_place position level place ≡ false) places.now first (length places.now) }
{
    if places.len() <= first {
        return true;
    }
    !is_before_place(&places[first], position, level)
}

/// How many places from the first on have a position and a level.
fn count_at(places: &[RimPlace], position: u32, level: u32) -> usize
    ensures value { result ≡ prefix_len (is_at_place position level) places.now }
    ensures most { result ≤ length places.now }
{
    let mut count = 0;
    while count < places.len() && is_at_place(&places[count], position, level) {
        count += 1;
    }
    count
}

fn is_before_place(place: &RimPlace, position: u32, level: u32) -> bool
    ensures { result ≡ is_before_place position level place.now }
{
    place.position < position || (place.position == position && place.level < level)
}

fn is_at_place(place: &RimPlace, position: u32, level: u32) -> bool
    ensures { result ≡ is_at_place position level place.now }
{
    place.position == position && place.level == level
}

/// A position along a side at which an entry of a rim has a level of its own.
#[derive(Clone, Copy)]
pub struct RimPlace {
    pub position: u32,
    pub level: u32,
    /// The entry's place in the rim.
    pub entry: usize,
}
