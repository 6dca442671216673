//! The handle of kinds, as a pointer that C keeps; and a box as its pointer.

ghost use Rattle.std.specs.Prelude.{◌≡◌, List, None, Some, Option, option_map};
ghost use Rattle.build_queue.specs.BookState.{BookState};
ghost use Rattle.std_alloc.specs.Box.Ownership.{box_owns};

use agent_kinds::Kinds;
use std::alloc::{Allocator, Global};
use std::marker::{Model, Send};
use std::mem::replace;
use std::ptr::null_mut;

/// Nothing, or kinds on the heap, of which C holds the pointer. A handle whose bytes are all 0 holds nothing.
///
/// Contracts see the states of their levels, if it holds some.
#[repr(C)]
pub struct NavdKinds {
    at: *mut u8,
    full: u32,
    alloc: Global,
    pub ghost kinds: { Option (List BookState) },
}

impl Model for NavdKinds {
    ghost use Rattle.nav_handle.specs.Handles.{owns_for};
    ghost use Rattle.agent_kinds.specs.contracts.kinds.Kinds.{the_row};

    ghost also_owns = { λ handle. owns_for the_row handle.full handle.alloc handle.at handle.kinds };
}

impl NavdKinds {
    /// One that holds nothing.
    pub fn empty(alloc: Global) -> NavdKinds
        ensures { result.kinds ≡ None }
    {
        NavdKinds {
            at: null_mut(),
            full: 0,
            alloc,
        }
    }

    /// One that holds kinds.
    fn of(loose: RawBox<Kinds, Global>) -> NavdKinds
        ensures { result.kinds ≡ Some loose.value }
    {
        let RawBox { alloc, at } = loose;
        NavdKinds {
            at: at as *mut u8,
            full: 1,
            alloc,
        }
    }

    /// The kinds, if it holds some.
    fn into_loose(self) -> Option<RawBox<Kinds, Global>>
        ensures { option_map (λ loose. loose.value) result ≡ self.kinds }
    {
        let NavdKinds { at, full, alloc } = self;
        if full == 0 {
            None
        } else {
            Some(RawBox {
                alloc,
                at: at as *mut Kinds,
            })
        }
    }

    /// Takes the kinds out, if it holds some.
    pub fn take(&mut self, alloc: Global) -> Option<Box<Kinds, Global>>
        ensures taken { option_map (λ kinds. kinds.value) result ≡ self.old.kinds }
        ensures empty { self.new.kinds ≡ None }
    {
        match replace(self, NavdKinds::empty(alloc)).into_loose() {
            Some(loose) => Some(loose.into_box()),
            None => None,
        }
    }

    /// Puts kinds in. Those that were there are gone.
    pub fn put(&mut self, kinds: Box<Kinds, Global>)
        ensures { self.new.kinds ≡ Some kinds.value }
    {
        if let Some(before) = replace(self, NavdKinds::of(RawBox::of(kinds))).into_loose() {
            let _ = before.into_box();
        }
    }
}

impl Drop for NavdKinds {
    fn drop(self) {
        if let Some(held) = self.into_loose() {
            let _ = held.into_box();
        }
    }
}

// It may go to another thread: what it holds may.
unsafe impl Send for NavdKinds {}

/// What a box owns, held by its pointer. Contracts see the value.
struct RawBox<T, A: Allocator> {
    alloc: A,
    at: *mut T,
    ghost value: { T },
}

impl<T, A: Allocator> Model for RawBox<T, A> {
    ghost also_owns = { λ loose. box_owns (A.dealloc_token loose.alloc) T.row loose.at loose.value };
}

impl<T: Drop, A: Allocator> RawBox<T, A> {
    /// Of a box.
    fn of(value: Box<T, A>) -> RawBox<T, A>
        ensures { result.value ≡ value.value }
    {
        let (at, alloc) = Box::into_raw_with_allocator(value);
        RawBox { alloc, at }
    }

    /// The box again.
    fn into_box(self) -> Box<T, A>
        ensures { result.value ≡ self.value }
    {
        let RawBox { alloc, at } = self;
        unsafe { Box::from_raw(alloc, at) }
    }
}
