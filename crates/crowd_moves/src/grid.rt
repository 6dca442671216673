//! The agents in a grid of square cells, so large that two which could come to touch in one step are in neighbouring ones.

ghost use Rattle.std.specs.Prelude.{◌≡◌, ◌↔◌, ◌<◌, ◌≤◌, ◌+◌, ◌*◌, ◌^◌, ℕ, All, IfOk, length, slice_get, slice_index_or, Some};
ghost use Rattle.std.specs.Int.RustNames.{unsigned_abs};
ghost use Rattle.std.specs.List.Sorted.{IsNonDecreasingBy};
ghost use Rattle.nav_base.specs.Point.{IsWithin};
ghost use Rattle.crowd_moves.specs.Contacts;
ghost use Rattle.crowd_moves.specs.Contacts.{AreEntries, AreWithin};
ghost use Rattle.crowd_moves.specs.Pairs.{HasSizes};
ghost use Rattle.crowd_moves.specs.declared.keyed.KeyedPlace.{KeyedPlace};

use crate::agents::CrowdAgent;
use crate::keyed::{KeyedPlace, order_by_key};
use nav_base::Point;
use std::alloc::{AllocError, Global};

/// How far the cells of one row lie apart from those of the next, in numbers.
pub(crate) const ROW: u64 = 16777216;

/// The greatest sum of an agent's radius and speed.
pub(crate) fn widest(agents: &[CrowdAgent]) -> u32
    requires { All HasSizes agents.now }
    ensures all { AreWithin result agents.now }
    ensures small { result ≤ 16382 }
{
    let mut most = 0;
    for i in 0..agents.len() {
        most = most.max(agents[i].radius + agents[i].speed);
    }
    most
}

/// The entries of all agents, in the order of their cells.
pub(crate) fn entries(
    alloc: Global,
    agents: &[CrowdAgent],
    side: u32,
) -> Result<Vec<KeyedPlace>, AllocError>
    requires sizes { All HasSizes agents.now }
    requires few { length agents.now < 2 ^ 32 }
    requires side { 0 < side }
    ensures { IfOk result (λ entries. AreEntries side agents.now entries.items) }
{
    let mut entries = unsorted(alloc, agents, side)?;
    order_by_key(&mut entries);
    Ok(entries)
}

/// The entries of all agents.
fn unsorted(alloc: Global, agents: &[CrowdAgent], side: u32) -> Result<Vec<KeyedPlace>, AllocError>
    requires sizes { All HasSizes agents.now }
    requires few { length agents.now < 2 ^ 32 }
    requires side { 0 < side }
    ensures { IfOk result (λ entries. (i : ℕ) (a : CrowdAgent) → slice_get agents.now i ≡ Some a → slice_get entries.items i ≡ Some (Contacts.entry_of side i a)) }
{
    let mut entries = Vec::with_capacity(alloc, agents.len())?;
    for i in 0..agents.len() {
        entries.push(KeyedPlace {
            key: cell(side, agents[i].at),
            place: i as u32,
        })?;
    }
    Ok(entries)
}

/// The number of the cell of a point.
pub(crate) fn cell(side: u32, p: Point) -> u64
    requires side { 0 < side }
    requires point { IsWithin (2 ^ 20) p }
    ensures value { result ≡ Contacts.cell_of side p }
    ensures low { 16777217 ≤ result }
    ensures high { result ≤ 2 ^ 46 }
{
    line(side, p.z) * ROW + line(side, p.x)
}

/// The row or the column of a coordinate, from 1 on.
fn line(side: u32, n: i32) -> u64
    requires side { 0 < side }
    requires small { unsigned_abs n ≤ 2 ^ 20 }
    ensures value { result ≡ Contacts.line_of side n }
    ensures low { 1 ≤ result }
    ensures high { result ≤ 2097153 }
{
    let from_edge = (n + 1048576) as u32;
    u64::from(from_edge / side) + 1
}

/// How many entries are in cells before one.
pub(crate) fn before(entries: &[KeyedPlace], cell: u64) -> usize
    requires { IsNonDecreasingBy (λ (entry : KeyedPlace). entry.key) entries.now }
    ensures most { result ≤ length entries.now }
    ensures before { (k : ℕ) (d : KeyedPlace) → k < result → (slice_index_or entries.now k d).key < cell }
    ensures after { (k : ℕ) (d : KeyedPlace) → result ≤ k → k < length entries.now → cell ≤ (slice_index_or entries.now k d).key }
{
    entries.partition_point(|entry| entry.key < cell)
}
