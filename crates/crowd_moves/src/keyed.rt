//! Places of a list in the order of numbers.

ghost use Rattle.std.specs.Prelude.{◌≡◌};
ghost use Rattle.std.specs.List.Sorted.{IsNonDecreasingBy, IsPermutation};
ghost use Rattle.crowd_moves.specs.Keyed.{AreInOrder, entry_cmp};
ghost use Rattle.crowd_moves.specs.declared.keyed.KeyedPlace.{KeyedPlace};

use std::cmp::Ordering;

/// A place of a list, and the number by which it is put in order.
#[derive(Clone, Copy)]
pub struct KeyedPlace {
    pub key: u64,
    /// From 0.
    pub place: u32,
}

/// Puts places in the order of their numbers; of equal ones the lesser place comes first.
pub fn order_by_key(entries: &mut Vec<KeyedPlace>)
    ensures all { IsPermutation entries.old.items entries.new.items }
    ensures order { IsNonDecreasingBy (λ (entry : KeyedPlace). entry.key) entries.new.items }
    ensures ties { AreInOrder entries.new.items }
{
    entries.sort_unstable_by(|a, b| entry_order(a, b));
}

/// Which of two entries comes first.
fn entry_order(a: &KeyedPlace, b: &KeyedPlace) -> Ordering
    ensures { result ≡ entry_cmp a.now b.now }
{
    if a.key == b.key {
        a.place.cmp(&b.place)
    } else {
        a.key.cmp(&b.key)
    }
}
