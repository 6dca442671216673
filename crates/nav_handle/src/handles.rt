//! The handles: a level, a view and a job, each as a pointer that C keeps; and a box as its pointer.

ghost use Rattle.std.specs.Prelude.{◌≡◌, None, Some, Option, option_map};
ghost use Rattle.build_queue.specs.BookState.{BookState};
ghost use Rattle.std_alloc.specs.Box.Ownership.{box_owns};
ghost use Rattle.nav_handle.specs.Views.{Seen};
ghost use Rattle.nav_handle.specs.Works.{Working};

use crate::view::MeshView;
use crate::work::BuildJob;
use nav_book::Level;
use std::alloc::{Allocator, Global};
use std::marker::{Model, Send};
use std::mem::replace;
use std::ptr::null_mut;

/// Nothing, or a level on the heap, of which C holds the pointer. A handle whose bytes are all 0 holds nothing.
///
/// Contracts see the state of the level, if there is one.
#[repr(C)]
pub struct NavdLevel {
    at: *mut u8,
    full: u32,
    alloc: Global,
    pub ghost level: { Option BookState },
}

impl Model for NavdLevel {
    ghost use Rattle.nav_handle.specs.Handles.{owns_for};
    ghost use Rattle.nav_book.specs.contracts.level.Level.{the_row};

    ghost also_owns = { λ handle. owns_for the_row handle.full handle.alloc handle.at handle.level };
}

impl NavdLevel {
    /// One that holds nothing.
    pub fn empty(alloc: Global) -> NavdLevel
        ensures { result.level ≡ None }
    {
        NavdLevel {
            at: null_mut(),
            full: 0,
            alloc,
        }
    }

    /// One that holds a level.
    fn of(loose: RawBox<Level, Global>) -> NavdLevel
        ensures { result.level ≡ Some loose.value }
    {
        let RawBox { alloc, at } = loose;
        NavdLevel {
            at: at as *mut u8,
            full: 1,
            alloc,
        }
    }

    /// The level, if it holds one.
    fn into_loose(self) -> Option<RawBox<Level, Global>>
        ensures { option_map (λ loose. loose.value) result ≡ self.level }
    {
        let NavdLevel { at, full, alloc } = self;
        if full == 0 {
            None
        } else {
            Some(RawBox {
                alloc,
                at: at as *mut Level,
            })
        }
    }

    /// Takes the level out, if it holds one.
    pub fn take(&mut self, alloc: Global) -> Option<Box<Level, Global>>
        ensures taken { option_map (λ level. level.value) result ≡ self.old.level }
        ensures empty { self.new.level ≡ None }
    {
        match replace(self, NavdLevel::empty(alloc)).into_loose() {
            Some(loose) => Some(loose.into_box()),
            None => None,
        }
    }

    /// Puts a level in. One that was there is gone.
    pub fn put(&mut self, level: Box<Level, Global>)
        ensures { self.new.level ≡ Some level.value }
    {
        if let Some(before) = replace(self, NavdLevel::of(RawBox::of(level))).into_loose() {
            let _ = before.into_box();
        }
    }
}

impl Drop for NavdLevel {
    fn drop(self) {
        if let Some(held) = self.into_loose() {
            let _ = held.into_box();
        }
    }
}

// It may go to another thread: what it holds may.
unsafe impl Send for NavdLevel {}

/// What a box owns, held by its pointer. Contracts see the value.
pub(crate) struct RawBox<T, A: Allocator> {
    pub(crate) alloc: A,
    pub(crate) at: *mut T,
    pub(crate) ghost value: { T },
}

impl<T, A: Allocator> Model for RawBox<T, A> {
    ghost also_owns = { λ loose. box_owns (A.dealloc_token loose.alloc) T.row loose.at loose.value };
}

impl<T: Drop, A: Allocator> RawBox<T, A> {
    /// Of a box.
    pub(crate) fn of(value: Box<T, A>) -> RawBox<T, A>
        ensures { result.value ≡ value.value }
    {
        let (at, alloc) = Box::into_raw_with_allocator(value);
        RawBox { alloc, at }
    }

    /// The box again.
    pub(crate) fn into_box(self) -> Box<T, A>
        ensures { result.value ≡ self.value }
    {
        let RawBox { alloc, at } = self;
        unsafe { Box::from_raw(alloc, at) }
    }
}

/// Nothing, or a view on the heap, of which C holds the pointer. A handle whose bytes are all 0 holds nothing.
///
/// Contracts see what the view shows, if there is one.
#[repr(C)]
pub struct NavdView {
    at: *mut u8,
    full: u32,
    alloc: Global,
    pub ghost view: { Option Seen },
}

impl Model for NavdView {
    ghost use Rattle.nav_handle.specs.Handles.{owns_for};
    ghost use Rattle.nav_handle.specs.contracts.view.MeshView.{the_row};

    ghost also_owns = { λ handle. owns_for the_row handle.full handle.alloc handle.at handle.view };
}

impl NavdView {
    /// One that holds nothing.
    pub fn empty(alloc: Global) -> NavdView
        ensures { result.view ≡ None }
    {
        NavdView {
            at: null_mut(),
            full: 0,
            alloc,
        }
    }

    /// One that holds a view.
    fn of(loose: RawBox<MeshView, Global>) -> NavdView
        ensures { result.view ≡ Some loose.value }
    {
        let RawBox { alloc, at } = loose;
        NavdView {
            at: at as *mut u8,
            full: 1,
            alloc,
        }
    }

    /// The view, if it holds one.
    fn into_loose(self) -> Option<RawBox<MeshView, Global>>
        ensures { option_map (λ loose. loose.value) result ≡ self.view }
    {
        let NavdView { at, full, alloc } = self;
        if full == 0 {
            None
        } else {
            Some(RawBox {
                alloc,
                at: at as *mut MeshView,
            })
        }
    }

    /// Takes the view out, if it holds one.
    pub fn take(&mut self, alloc: Global) -> Option<Box<MeshView, Global>>
        ensures taken { option_map (λ view. view.value) result ≡ self.old.view }
        ensures empty { self.new.view ≡ None }
    {
        match replace(self, NavdView::empty(alloc)).into_loose() {
            Some(loose) => Some(loose.into_box()),
            None => None,
        }
    }

    /// Puts a view in. One that was there is gone.
    pub fn put(&mut self, view: Box<MeshView, Global>)
        ensures { self.new.view ≡ Some view.value }
    {
        if let Some(before) = replace(self, NavdView::of(RawBox::of(view))).into_loose() {
            let _ = before.into_box();
        }
    }
}

impl Drop for NavdView {
    fn drop(self) {
        if let Some(held) = self.into_loose() {
            let _ = held.into_box();
        }
    }
}

// It may go to another thread: what it holds may.
unsafe impl Send for NavdView {}

/// Nothing, or a claimed job on the heap, of which C holds the pointer. A handle whose bytes are all 0 holds nothing.
///
/// Contracts see the job, if there is one.
#[repr(C)]
pub struct NavdJob {
    at: *mut u8,
    full: u32,
    alloc: Global,
    pub ghost work: { Option Working },
}

impl Model for NavdJob {
    ghost use Rattle.nav_handle.specs.Handles.{owns_for};
    ghost use Rattle.nav_handle.specs.contracts.work.BuildJob.{the_row};

    ghost also_owns = { λ handle. owns_for the_row handle.full handle.alloc handle.at handle.work };
}

impl NavdJob {
    /// One that holds nothing.
    pub fn empty(alloc: Global) -> NavdJob
        ensures { result.work ≡ None }
    {
        NavdJob {
            at: null_mut(),
            full: 0,
            alloc,
        }
    }

    /// One that holds a job.
    fn of(loose: RawBox<BuildJob, Global>) -> NavdJob
        ensures { result.work ≡ Some loose.value }
    {
        let RawBox { alloc, at } = loose;
        NavdJob {
            at: at as *mut u8,
            full: 1,
            alloc,
        }
    }

    /// The job, if it holds one.
    fn into_loose(self) -> Option<RawBox<BuildJob, Global>>
        ensures { option_map (λ loose. loose.value) result ≡ self.work }
    {
        let NavdJob { at, full, alloc } = self;
        if full == 0 {
            None
        } else {
            Some(RawBox {
                alloc,
                at: at as *mut BuildJob,
            })
        }
    }

    /// Takes the job out, if it holds one.
    pub fn take(&mut self, alloc: Global) -> Option<Box<BuildJob, Global>>
        ensures taken { option_map (λ work. work.value) result ≡ self.old.work }
        ensures empty { self.new.work ≡ None }
    {
        match replace(self, NavdJob::empty(alloc)).into_loose() {
            Some(loose) => Some(loose.into_box()),
            None => None,
        }
    }

    /// Puts a job in. One that was there is gone.
    pub fn put(&mut self, work: Box<BuildJob, Global>)
        ensures { self.new.work ≡ Some work.value }
    {
        if let Some(before) = replace(self, NavdJob::of(RawBox::of(work))).into_loose() {
            let _ = before.into_box();
        }
    }
}

impl Drop for NavdJob {
    fn drop(self) {
        if let Some(held) = self.into_loose() {
            let _ = held.into_box();
        }
    }
}

// It may go to another thread: what it holds may.
unsafe impl Send for NavdJob {}
