//! The handle of a registry, as a pointer that C keeps; and a box as its pointer.

ghost use Rattle.std.specs.Prelude.{◌≡◌, None, Some, Option, option_map};
ghost use Rattle.obstacle_registry.specs.Registry.{RegistryState};
ghost use Rattle.std_alloc.specs.Box.Ownership.{box_owns};

use obstacle_registry::Registry;
use std::alloc::{Allocator, Global};
use std::marker::{Model, Send};
use std::mem::replace;
use std::ptr::null_mut;

/// Nothing, or a registry on the heap, of which C holds the pointer. A handle whose bytes are all 0 holds nothing.
///
/// Contracts see the state of the registry, if there is one.
#[repr(C)]
pub struct NavdRegistry {
    at: *mut u8,
    full: u32,
    alloc: Global,
    pub ghost registry: { Option RegistryState },
}

impl Model for NavdRegistry {
    ghost use Rattle.nav_handle.specs.Handles.{owns_for};
    ghost use Rattle.obstacle_registry.specs.contracts.registry.Registry.{the_row};

    ghost also_owns = { λ handle. owns_for the_row handle.full handle.alloc handle.at handle.registry };
}

impl NavdRegistry {
    /// One that holds nothing.
    pub fn empty(alloc: Global) -> NavdRegistry
        ensures { result.registry ≡ None }
    {
        NavdRegistry {
            at: null_mut(),
            full: 0,
            alloc,
        }
    }

    /// One that holds a registry.
    fn of(loose: RawBox<Registry, Global>) -> NavdRegistry
        ensures { result.registry ≡ Some loose.value }
    {
        let RawBox { alloc, at } = loose;
        NavdRegistry {
            at: at as *mut u8,
            full: 1,
            alloc,
        }
    }

    /// The registry, if it holds one.
    fn into_loose(self) -> Option<RawBox<Registry, Global>>
        ensures { option_map (λ loose. loose.value) result ≡ self.registry }
    {
        let NavdRegistry { at, full, alloc } = self;
        if full == 0 {
            None
        } else {
            Some(RawBox {
                alloc,
                at: at as *mut Registry,
            })
        }
    }

    /// Takes the registry out, if it holds one.
    pub fn take(&mut self, alloc: Global) -> Option<Box<Registry, Global>>
        ensures taken { option_map (λ registry. registry.value) result ≡ self.old.registry }
        ensures empty { self.new.registry ≡ None }
    {
        match replace(self, NavdRegistry::empty(alloc)).into_loose() {
            Some(loose) => Some(loose.into_box()),
            None => None,
        }
    }

    /// Puts a registry in. One that was there is gone.
    pub fn put(&mut self, registry: Box<Registry, Global>)
        ensures { self.new.registry ≡ Some registry.value }
    {
        if let Some(before) = replace(self, NavdRegistry::of(RawBox::of(registry))).into_loose() {
            let _ = before.into_box();
        }
    }
}

impl Drop for NavdRegistry {
    fn drop(self) {
        if let Some(held) = self.into_loose() {
            let _ = held.into_box();
        }
    }
}

// It may go to another thread: what it holds may.
unsafe impl Send for NavdRegistry {}

/// What a box owns, held by its pointer. Contracts see the value.
struct RawBox<T, A: Allocator> {
    alloc: A,
    at: *mut T,
    ghost value: { T },
}

impl<T, A: Allocator> Model for RawBox<T, A> {
    ghost also_owns = { λ loose. box_owns (A.dealloc_token loose.alloc) T.row loose.at loose.value };
}

impl<T: Drop, A: Allocator> RawBox<T, A> {
    /// Of a box.
    fn of(value: Box<T, A>) -> RawBox<T, A>
        ensures { result.value ≡ value.value }
    {
        let (at, alloc) = Box::into_raw_with_allocator(value);
        RawBox { alloc, at }
    }

    /// The box again.
    fn into_box(self) -> Box<T, A>
        ensures { result.value ≡ self.value }
    {
        let RawBox { alloc, at } = self;
        unsafe { Box::from_raw(alloc, at) }
    }
}
