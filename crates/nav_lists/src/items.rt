//! `Items<T>`, a vector seen as a list. Copies that are equal to what was copied.

ghost use Rattle.std.specs.Prelude.{◌≡◌, ◌↔◌, ◌++◌, [], ◌∷◌, ◌+◌, ◌≤◌, length, slice_get, IsTrue, IfErr, OnOk, OnErr, vec_len, IfOk};
ghost use Rattle.std.specs.Option.{option_copied};
ghost use Rattle.std.specs.Slice.Iter.{iter_rest};
ghost use Rattle.std.specs.List.{AllZip};
ghost use Rattle.std.specs.Cmp.Lexicographic.{pointwise, lists_per, lists_equiv};

use std::alloc::{AllocError, AllocFailed, Global};
use std::marker::Model;
use std::slice::Iter;

/// A vector that contracts see as the list of its elements. It is made from a `Vec` and gives it back without taking memory.
#[derive(Drop, Debug)]
pub struct Items<T> {
    items: Vec<T>,
}

impl<T> Model for Items<T> {
    ghost use Rattle.std.specs.Prelude.{List};

    ghost Value = { List T };

    ghost view = { λ a. a.items.items };
}

impl<T> Items<T> {
    /// The empty list; it takes no memory.
    pub fn new(alloc: Global) -> Self
        ensures { result ≡ [] }
    {
        Items {
            items: Vec::new(alloc),
        }
    }

    /// The elements of a vector, in order.
    pub fn from_vec(items: Vec<T>) -> Self
        ensures { result ≡ items.items }
    {
        Items { items }
    }

    /// The vector of the elements, in order.
    pub fn into_vec(self) -> Vec<T>
        ensures { result.items ≡ self }
    {
        self.items
    }

    /// How many elements there are.
    pub fn len(&self) -> usize
        ensures { result ≡ length self.now }
    {
        self.items.len()
    }

    /// Whether there are none.
    pub fn is_empty(&self) -> bool
        ensures { IsTrue result ↔ (self.now ≡ []) }
    {
        self.items.is_empty()
    }

    /// The elements, in order.
    pub fn as_slice(&self) -> &[T]
        ensures { result.now ≡ self.now }
    {
        self.items.as_slice()
    }

    /// The element at an index, from 0; none where the list is shorter.
    pub fn get(&self, index: usize) -> Option<&T>
        ensures { option_copied result ≡ slice_get self.now index }
    {
        self.items.get(index)
    }

    /// The elements one after the other.
    pub fn iter(&self) -> Iter<'_, T>
        ensures { iter_rest result ≡ self.now }
    {
        self.items.iter()
    }

    /// Appends an element. Where memory is refused, the list is as before and the element comes back.
    pub fn push(&mut self, element: T) -> Result<(), AllocFailed<T>>
        ensures ok { OnOk result (self.new ≡ self.old ++ element ∷ []) }
        ensures err { OnErr result (self.new ≡ self.old) }
        ensures returned { IfErr result (λ refused. refused.value ≡ element) }
    {
        self.items.push(element)
    }
}

impl<T: PartialEq> PartialEq for Items<T> {
    ghost eq = { pointwise T.eq };

    ghost laws = { lists_per T.laws };

    fn eq(&self, other: &Self) -> bool {
        self.as_slice() == other.as_slice()
    }
}

impl<T: Eq> Eq for Items<T> {
    ghost laws = { lists_equiv T.Eq.laws };
}

impl<T: Clone> Clone for Items<T> {
    ghost is_clone = { AllZip T.is_clone };

    fn clone(&self) -> Result<Self, AllocError> {
        Ok(Items {
            items: self.items.clone()?,
        })
    }
}

/// A value that can be copied into memory of the copy's own.
pub trait Duplicate: Drop {
    /// An equal value. Only memory can be refused.
    fn duplicate(&self, alloc: Global) -> Result<Self, AllocError>
        ensures { IfOk result (λ copy. copy ≡ self.now) };
}

impl<T: Duplicate> Duplicate for Items<T> {
    fn duplicate(&self, alloc: Global) -> Result<Self, AllocError> {
        let mut items = Vec::with_capacity(alloc, self.len())?;
        for item in self.as_slice() {
            items.push(item.duplicate(alloc)?)?;
        }
        Ok(Items::from_vec(items))
    }
}

/// What may be copied as it stands needs no memory.
impl<T: Copy> Duplicate for T {
    fn duplicate(&self, alloc: Global) -> Result<Self, AllocError> {
        let _ = alloc;
        Ok(*self)
    }
}
