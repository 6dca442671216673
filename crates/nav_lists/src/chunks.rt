//! `Chunks<T>`, a list in shared chunks.

ghost use Rattle.std.specs.Prelude.{◌≡◌, ◌<◌, ◌++◌, ◌∷◌, [], length, IfOk, OnOk, OnErr, slice_get, slice_index_or, slice_set};
ghost use Rattle.std.specs.Option.{option_copied};
ghost use Rattle.nav_lists.specs.Chunked.{joined, IsLeft};

use crate::{Duplicate, Items, Shared};
use std::alloc::{AllocError, Global};
use std::marker::Model;

/// How many elements a chunk has; the last one may have fewer.
const SIZE: usize = 32;

/// A list in chunks of 32 that other lists may share, seen by contracts as the list of its elements.
#[derive(Drop)]
pub struct Chunks<T> {
    chunks: Vec<Shared<Items<T>>>,
    count: usize,
}

impl<T> Model for Chunks<T> {
    ghost use Rattle.std.specs.Prelude.{List};
    ghost use Rattle.nav_lists.specs.Chunked.{joined, AreChunks};

    ghost Value = { List T };

    ghost view = { λ a. joined a.chunks.items };

    ghost invariant = { λ a. AreChunks 32 a.count a.chunks.items };
}

impl<T> Chunks<T> {
    /// The elements of a vector, in order. Only memory can be refused, and then the elements are dropped.
    pub fn from_vec(alloc: Global, items: Vec<T>) -> Result<Chunks<T>, AllocError>
    where
        T: Drop,
        ensures { IfOk result (λ made. made ≡ items.items) }
    {
        let count = items.len();
        let mut chunks = Vec::with_capacity(alloc, count / SIZE + 1)?;
        let mut left = Vec::with_capacity(alloc, SIZE)?;
        for item in items {
            left = push(alloc, &mut chunks, left, item)?;
        }
        push_chunk(alloc, &mut chunks, left)?;
        Ok(Chunks { chunks, count })
    }

    /// How many elements there are.
    pub fn len(&self) -> usize
        ensures { result ≡ length self.now }
    {
        self.count
    }

    /// The element at an index, from 0; none where the list is shorter.
    pub fn get(&self, index: usize) -> Option<&T>
        ensures { option_copied result ≡ slice_get self.now index }
    {
        match self.chunks.get(index / SIZE) {
            Some(chunk) => chunk.get().get(index % SIZE),
            None => None,
        }
    }

    /// The element at an index, from 0, that the list reaches.
    pub fn at(&self, index: usize) -> &T
        requires { index < length self.now }
        ensures { result.now ≡ slice_index_or self.now index result.now }
    {
        &self.chunks[index / SIZE].get().as_slice()[index % SIZE]
    }

    /// The chunks, in order: each element stands in one of them, and they in the order of the list.
    pub fn parts(&self) -> &[Shared<Items<T>>]
        ensures { joined result.now ≡ self.now }
    {
        self.chunks.as_slice()
    }
}

impl<T: Duplicate> Chunks<T> {
    /// Writes an element over the one at an index, from 0; nothing where the list is shorter. The other chunks stay shared. Where memory is
    /// refused, the list is as before.
    pub fn set(&mut self, alloc: Global, index: usize, item: T) -> Result<(), AllocError>
        ensures ok { OnOk result (self.new ≡ slice_set self.old index item) }
        ensures err { OnErr result (self.new ≡ self.old) }
    {
        let place = index / SIZE;
        if place < self.chunks.len() {
            let chunk = with_item(alloc, self.chunks[place].get(), index % SIZE, item)?;
            self.chunks[place] = chunk;
        }
        Ok(())
    }
}

/// A chunk with another element at an index; as it is where the chunk is shorter.
fn with_item<T: Duplicate>(
    alloc: Global,
    chunk: &Items<T>,
    index: usize,
    item: T,
) -> Result<Shared<Items<T>>, AllocError>
    ensures { IfOk result (λ made. made ≡ slice_set chunk.now index item) }
{
    let mut items = chunk.duplicate(alloc)?.into_vec();
    if index < items.len() {
        items[index] = item;
    }
    Ok(Shared::new(alloc, Items::from_vec(items))?)
}

/// Adds an element behind those of the full chunks and those that are left, and gives what is left then, for the next chunk.
fn push<T: Drop>(
    alloc: Global,
    chunks: &mut Vec<Shared<Items<T>>>,
    left: Vec<T>,
    item: T,
) -> Result<Vec<T>, AllocError>
    requires { IsLeft 32 chunks.old.items left.items }
    ensures left { IfOk result (λ next. IsLeft 32 chunks.new.items next.items) }
    ensures elements { IfOk result (λ next. joined chunks.new.items ++ next.items ≡ joined chunks.old.items ++ (left.items ++ item ∷ [])) }
{
    let mut left = left;
    left.push(item)?;
    if left.len() < SIZE {
        return Ok(left);
    }
    push_chunk(alloc, chunks, left)?;
    Ok(Vec::with_capacity(alloc, SIZE)?)
}

/// Appends a chunk.
fn push_chunk<T: Drop>(
    alloc: Global,
    chunks: &mut Vec<Shared<Items<T>>>,
    chunk: Vec<T>,
) -> Result<(), AllocError>
    ensures { OnOk result (chunks.new.items ≡ chunks.old.items ++ chunk.items ∷ []) }
{
    chunks.push(Shared::new(alloc, Items::from_vec(chunk))?)?;
    Ok(())
}

impl<T: Drop> Duplicate for Chunks<T> {
    fn duplicate(&self, alloc: Global) -> Result<Self, AllocError> {
        let mut chunks = Vec::with_capacity(alloc, self.chunks.len())?;
        for chunk in self.chunks.as_slice() {
            chunks.push(chunk.share()?)?;
        }
        Ok(Chunks {
            chunks,
            count: self.count,
        })
    }
}
