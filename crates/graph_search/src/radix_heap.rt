//! The vertices that a search has still to close: a queue for keys that never fall. Vertices that wait.

ghost use Rattle.std.specs.Prelude.{◌≡◌, ◌≢◌, ◌≤◌, ◌<◌, ◌∷◌, ◌++◌, [], ℕ, List, All, length, slice_index_or, IfOk, IfSome, IfNone, OnOk, OnErr, vec_len};
ghost use Rattle.std.specs.List.Sorted.{IsPermutation};
ghost use Rattle.graph_search.specs.declared.radix_heap.HeapEntry.{HeapEntry};
ghost use Rattle.graph_search.specs.Entries.{Queue, entry, slot_of, list_at, entries_in, AreSlotted, AreAlike, IsAdded, IsEmptied, IsFilled};

use crate::graph::Vertex;
use std::alloc::{AllocError, Global};
use std::marker::Model;
use std::mem;

/// How many digits a key has to the base 64.
const DIGITS: usize = 11;

/// How many lists there are for each digit.
const LISTS: usize = 64;

/// Vertices with keys, of which one with the least key comes first: a radix heap, after Ahuja, Mehlhorn, Orlin and Tarjan. No key may be
/// less than the one taken last. A vertex may stand in it more than once.
///
/// Keys are seen by their digits to the base 64. An entry stands in a list by the highest digit in which its key differs from the last key
/// taken, and by that digit; so the lists are in order of the keys, and those of the lowest digit hold one key each. Where these are empty,
/// the first list that is not is dealt out again, now by a lower digit.
#[derive(Drop)]
pub(crate) struct RadixHeap {
    /// The last key that was taken.
    last: u64,
    lists: Vec<Vec<HeapEntry>>,
    /// The lists before this one are empty.
    first: usize,
    /// Memory of the list that was dealt out last, for the next.
    spare: Vec<HeapEntry>,
}

impl Model for RadixHeap {
    ghost Value = { Queue };

    ghost view = { λ a. record { last = a.last; entries = entries_in a.lists.items } };

    ghost invariant = { λ a. AreSlotted a.last a.first a.lists.items };
}

impl RadixHeap {
    /// No vertices, to which keys come that are not less than the one given.
    pub(crate) fn new(alloc: Global, last: u64) -> Self
        ensures { result ≡ record { last = last; entries = [] } }
    {
        RadixHeap {
            last,
            lists: Vec::new(alloc),
            first: usize::MAX,
            spare: Vec::new(alloc),
        }
    }

    /// No vertices again, to which keys come that are not less than the one given. Memory is kept.
    pub(crate) fn restart(&mut self, last: u64)
        ensures { self.new ≡ record { last = last; entries = [] } }
    {
        empty(&mut self.lists);
        self.first = usize::MAX;
        self.last = last;
    }

    /// Adds a vertex.
    pub(crate) fn push(&mut self, alloc: Global, key: u64, vertex: Vertex) -> Result<(), AllocError>
        requires { self.old.last ≤ key }
        ensures added { OnOk result (IsPermutation (entry key vertex ∷ self.old.entries) self.new.entries) }
        ensures last { self.new.last ≡ self.old.last }
    {
        let slot = slot(self.last, key);
        self.first = self.first.min(slot);
        add(alloc, &mut self.lists, slot, HeapEntry { key, vertex })
    }

    /// Adds vertices.
    fn push_all(&mut self, alloc: Global, entries: &[HeapEntry]) -> Result<(), AllocError>
        requires { All (λ e. self.old.last ≤ e.key) entries.now }
        ensures added { OnOk result (IsPermutation (entries.now ++ self.old.entries) self.new.entries) }
        ensures last { self.new.last ≡ self.old.last }
    {
        for entry in entries {
            self.push(alloc, entry.key, entry.vertex)?;
        }
        Ok(())
    }

    /// Takes a vertex with the least key; none exactly where there are no vertices.
    pub(crate) fn pop(&mut self, alloc: Global) -> Result<Option<HeapEntry>, AllocError>
        ensures taken { IfOk result (λ found. IfSome found (λ first. IsPermutation self.old.entries (first ∷ self.new.entries))) }
        ensures least { IfOk result (λ found. IfSome found (λ first. All (λ other. first.key ≤ other.key) self.old.entries)) }
        ensures last { IfOk result (λ found. IfSome found (λ first. self.new.last ≡ first.key)) }
        ensures none { IfOk result (λ found. IfNone found (self.old.entries ≡ [])) }
    {
        let Some(slot) = filled(self.lists.as_slice(), self.first) else {
            return Ok(None);
        };
        self.first = slot;
        if slot < LISTS {
            let entry = take_last(&mut self.lists, slot);
            self.last = entry.key;
            return Ok(Some(entry));
        }
        let mut spare = mem::replace(&mut self.spare, Vec::new(alloc));
        spare.clear();
        let mut list = take_list(&mut self.lists, slot, spare);
        let entry = list.swap_remove(least(list.as_slice()));
        self.last = entry.key;
        self.push_all(alloc, list.as_slice())?;
        self.spare = list;
        Ok(Some(entry))
    }
}

/// The slot of a key. The digit is guessed from the highest place in which the two numbers differ, and tested.
fn slot(last: u64, key: u64) -> usize
    ensures { result ≡ slot_of 11 last key }
{
    let digit = (63 - (last ^ key).leading_zeros().min(63)) / 6;
    let before = last >> (6 * digit);
    let after = key >> (6 * digit);
    if before / 64 == after / 64 && (before != after || digit == 0) {
        return LISTS * digit as usize + (after % 64) as usize;
    }
    slot_by_digits(last, key)
}

/// The same, digit by digit.
fn slot_by_digits(last: u64, key: u64) -> usize
    ensures { result ≡ slot_of 11 last key }
{
    let mut before = last;
    let mut after = key;
    for digit in 0..DIGITS {
        if before / 64 == after / 64 {
            return LISTS * digit + (after % 64) as usize;
        }
        before /= 64;
        after /= 64;
    }
    LISTS * DIGITS
}

/// The first list with entries, from a slot on before which there are none.
fn filled(lists: &[Vec<HeapEntry>], first: usize) -> Option<usize>
    ensures some { IfSome result (λ slot. IsFilled lists.now first slot) }
    ensures none { IfNone result ((k : ℕ) → first ≤ k → list_at lists.now k ≡ []) }
{
    let mut slot = first;
    while slot < lists.len() {
        if !lists[slot].is_empty() {
            return Some(slot);
        }
        slot += 1;
    }
    None
}

/// Takes all entries out of the lists.
fn empty(lists: &mut Vec<Vec<HeapEntry>>)
    ensures none { (k : ℕ) → list_at lists.new.items k ≡ [] }
    ensures all { entries_in lists.new.items ≡ [] }
{
    for slot in 0..lists.len() {
        lists[slot].clear();
    }
}

/// Adds an entry at the end of a list.
fn add(
    alloc: Global,
    lists: &mut Vec<Vec<HeapEntry>>,
    slot: usize,
    entry: HeapEntry,
) -> Result<(), AllocError>
    ensures added { OnOk result (IsAdded lists.old.items slot entry lists.new.items) }
    ensures kept { OnErr result (AreAlike lists.old.items lists.new.items) }
{
    while lists.len() <= slot {
        lists.push(Vec::new(alloc))?;
    }
    lists[slot].push(entry)?;
    Ok(())
}

/// Takes the last entry of a list.
fn take_last(lists: &mut Vec<Vec<HeapEntry>>, slot: usize) -> HeapEntry
    requires { 0 < length (list_at lists.old.items slot) }
    ensures { IsAdded lists.new.items slot result lists.old.items }
{
    lists[slot].pop().unwrap()
}

/// Takes out a list, for an empty one.
fn take_list(lists: &mut Vec<Vec<HeapEntry>>, slot: usize, empty: Vec<HeapEntry>) -> Vec<HeapEntry>
    requires some { 0 < length (list_at lists.old.items slot) }
    requires empty { empty.items ≡ [] }
    ensures { IsEmptied lists.old.items slot result.items lists.new.items }
{
    mem::replace(&mut lists[slot], empty)
}

/// The place of an entry with the least key.
fn least(entries: &[HeapEntry]) -> usize
    requires { 0 < length entries.now }
    ensures there { result < length entries.now }
    ensures least { (d : HeapEntry) → All (λ e. (slice_index_or entries.now result d).key ≤ e.key) entries.now }
{
    let mut found = 0;
    for place in 1..entries.len() {
        if entries[place].key < entries[found].key {
            found = place;
        }
    }
    found
}

/// A vertex that waits to be closed, with its key: what a walk to it costs, and the estimate of what is left to go from there.
#[derive(Clone, Copy)]
pub(crate) struct HeapEntry {
    pub(crate) key: u64,
    pub(crate) vertex: Vertex,
}
