//! Cones that wait to be taken: a radix heap of their numbers, after Ahuja, Mehlhorn, Orlin and Tarjan. No key may be less than the one taken last.
//!
//! Keys are seen by their digits to the base 64, but for the lowest, which the search has no need of. A cone stands in a list by the highest digit in
//! which its key differs from the last key taken, and by that digit; so the lists are in order of the keys, and those of the lowest digit hold keys
//! that are as good as one. Where these are empty, the first list that is not is dealt out again, now by a lower digit. Of one list the cone that
//! came last comes first.

use crate::met_links::NONE;
use std::alloc::{AllocError, Global};
use std::mem::replace;

/// How many of the lowest binary places of a key are not looked at.
const DROPPED: u32 = 8;

/// How many digits of a key are looked at.
const DIGITS: usize = 6;

/// The greatest number of so many digits.
const MOST_KEY: u64 = 68719476735;

/// How many lists there are.
const LISTS: usize = 384;

/// Lists of cones by their keys. Each cone knows the next of its list.
#[derive(Drop)]
pub(crate) struct Waiting {
    /// The number of the first cone of each list.
    lists: Vec<u32>,
    /// For each digit which lists have cones, by the digit.
    filled: [u64; DIGITS],
    /// The key taken last, without its lowest places.
    last: u64,
}

impl Waiting {
    /// No cones, to which keys come that are not less than the one given.
    pub(crate) fn new(alloc: Global, least: u64) -> Result<Self, AllocError> {
        let mut lists = Vec::with_capacity(alloc, LISTS)?;
        lists.resize(LISTS, NONE)?;
        Ok(Waiting {
            lists,
            filled: [0; DIGITS],
            last: shortened(least),
        })
    }

    /// Puts a cone first in the list of its key. The cone that stood there first, which is then the next.
    pub(crate) fn push(&mut self, key: u64, number: u32) -> u32 {
        let key = shortened(key).max(self.last);
        let digit = (63 - ((key ^ self.last) | 1).leading_zeros().min(63)) / 6;
        let place = (key >> (6 * digit)) % 64;
        if let Some(filled) = self.filled.get_mut(digit as usize) {
            *filled |= 1 << place;
        }
        match self.lists.get_mut(64 * digit as usize + place as usize) {
            Some(list) => replace(list, number),
            None => NONE,
        }
    }

    /// The first list that has cones.
    pub(crate) fn front(&self) -> Option<usize> {
        for digit in 0..DIGITS {
            let filled = self.filled[digit];
            if filled != 0 {
                return Some(64 * digit + filled.trailing_zeros().min(63) as usize);
            }
        }
        None
    }

    /// The first cone of a list.
    pub(crate) fn first_of(&self, list: usize) -> u32 {
        self.lists.get(list).copied().unwrap_or(NONE)
    }

    /// Takes out the cones of a list before one, or all where that is no cone.
    pub(crate) fn take_before(&mut self, list: usize, next: u32) {
        if let Some(first) = self.lists.get_mut(list) {
            *first = next;
        }
        if next == NONE {
            if let Some(filled) = self.filled.get_mut(list / 64) {
                *filled &= !(1 << (list % 64));
            }
        }
    }

    /// Lets keys be dealt out from one on.
    pub(crate) fn begin_at(&mut self, least: u64) {
        self.last = shortened(least);
    }
}

/// A key without its lowest places.
fn shortened(key: u64) -> u64 {
    (key >> DROPPED).min(MOST_KEY)
}

/// Whether the cones of a list have keys that are as good as one.
pub(crate) fn is_lowest(list: usize) -> bool {
    list < 64
}
