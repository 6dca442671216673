//! What a search knows of the vertices.

ghost use Rattle.std.specs.Prelude.{◌≡◌, ◌<◌, OnOk, OnErr, slice_index_or, vec_len};
ghost use Rattle.graph_search.specs.declared.graph.Vertex.{Vertex};
ghost use Rattle.graph_search.specs.Visited.{Known, unseen, blank, visit_at, visit_of, AreStamped, IsWritten, KnowsAlike, IsWrittenAt, IsWrittenIn};
ghost use Rattle.graph_search.specs.Searching.{closed_as};

use crate::graph::{Step, Vertex};
use std::alloc::{AllocError, Global};
use std::marker::Model;

/// What is known of a vertex: the least cost found so far of a walk to it, the estimate of what is left to go from it, when it was closed, and
/// the last step of that walk.
#[derive(Clone, Copy)]
pub(crate) struct Visit {
    /// `u64::MAX` where no walk was found.
    pub(crate) cost: u64,
    pub(crate) estimate: u64,
    /// 1 for the first vertex that was closed; 0 where it is not.
    pub(crate) rank: usize,
    pub(crate) last: Step,
}

/// A vertex that no walk was found to.
pub(crate) const UNSEEN: Visit = Visit {
    cost: u64::MAX,
    estimate: 0,
    rank: 0,
    last: Step {
        from: Vertex { block: 0, place: 0 },
        place: 0,
    },
};

/// What was written of a vertex, and the stamp of the search that wrote it.
#[derive(Clone, Copy)]
pub(crate) struct StampedVisit {
    pub(crate) stamp: u64,
    pub(crate) visit: Visit,
}

/// A vertex of which nothing was written.
const BLANK: StampedVisit = StampedVisit {
    stamp: 0,
    visit: UNSEEN,
};

/// What is known of all vertices, a page for each block. A page reaches to the last of its vertices that was written, or a little further;
/// those beyond it are unseen. So are those of which an earlier search wrote: each search has a stamp of its own, and pages are not cleared
/// for the next.
#[derive(Drop)]
pub(crate) struct Visits {
    /// The stamp of this search. No page has a greater one.
    stamp: u64,
    pages: Vec<Vec<StampedVisit>>,
}

impl Model for Visits {
    ghost Value = { Known };

    ghost view = { λ a. record { stamp = a.stamp; pages = a.pages.items } };

    ghost invariant = { λ a. AreStamped a.stamp a.pages.items };
}

impl Visits {
    /// Every vertex is unseen.
    pub(crate) fn new(alloc: Global) -> Self
        ensures { (v : Vertex) → visit_at result v ≡ unseen }
    {
        Visits {
            stamp: 0,
            pages: Vec::new(alloc),
        }
    }

    /// Every vertex is unseen again. Memory is kept.
    pub(crate) fn clear(&mut self)
        ensures { (v : Vertex) → visit_at self.new v ≡ unseen }
    {
        if self.stamp == u64::MAX {
            self.pages.clear();
            self.stamp = 0;
        } else {
            self.stamp += 1;
        }
    }

    /// What is known of a vertex.
    pub(crate) fn get(&self, vertex: Vertex) -> Visit
        ensures { result ≡ visit_at self.now vertex }
    {
        match self.pages.get(vertex.block as usize) {
            Some(page) => visit_on(page.as_slice(), self.stamp, vertex.place as usize),
            None => UNSEEN,
        }
    }

    /// Writes what is known of a vertex.
    pub(crate) fn set(
        &mut self,
        alloc: Global,
        vertex: Vertex,
        visit: Visit,
    ) -> Result<(), AllocError>
        ensures { OnOk result (IsWritten (visit_at self.old) vertex visit (visit_at self.new)) }
    {
        let stamp = self.stamp;
        set(
            alloc,
            &mut self.pages,
            vertex,
            StampedVisit { stamp, visit },
        )
    }

    /// Writes when a vertex was closed.
    pub(crate) fn close(
        &mut self,
        alloc: Global,
        vertex: Vertex,
        rank: usize,
    ) -> Result<(), AllocError>
        ensures { OnOk result (IsWritten (visit_at self.old) vertex (closed_as rank (visit_at self.old vertex)) (visit_at self.new)) }
    {
        let known = self.get(vertex);
        self.set(alloc, vertex, Visit { rank, ..known })
    }
}

/// What a search with a stamp knows by a page of the vertex at a place.
fn visit_on(page: &[StampedVisit], stamp: u64, place: usize) -> Visit
    ensures { result ≡ visit_of stamp (slice_index_or page.now place blank) }
{
    match page.get(place) {
        Some(written) => {
            if written.stamp == stamp {
                written.visit
            } else {
                UNSEEN
            }
        }
        None => UNSEEN,
    }
}

/// Writes what is known of a vertex.
fn set(
    alloc: Global,
    pages: &mut Vec<Vec<StampedVisit>>,
    vertex: Vertex,
    visit: StampedVisit,
) -> Result<(), AllocError>
    ensures written { OnOk result (IsWrittenIn pages.old.items vertex visit pages.new.items) }
    ensures kept { OnErr result (KnowsAlike pages.old.items pages.new.items) }
{
    let block = vertex.block as usize;
    let place = vertex.place as usize;
    if block < pages.len() && place < pages[block].len() {
        pages[block][place] = visit;
        return Ok(());
    }
    set_further(alloc, pages, vertex, visit)
}

/// The same where the pages may not reach to the vertex yet.
fn set_further(
    alloc: Global,
    pages: &mut Vec<Vec<StampedVisit>>,
    vertex: Vertex,
    visit: StampedVisit,
) -> Result<(), AllocError>
    ensures written { OnOk result (IsWrittenIn pages.old.items vertex visit pages.new.items) }
    ensures kept { OnErr result (KnowsAlike pages.old.items pages.new.items) }
{
    let block = vertex.block as usize;
    add_pages(alloc, pages, block)?;
    write(&mut pages[block], vertex.place as usize, visit)
}

/// Adds empty pages up to that of a block.
fn add_pages(
    alloc: Global,
    pages: &mut Vec<Vec<StampedVisit>>,
    block: usize,
) -> Result<(), AllocError>
    requires { block < 4294967296 }
    ensures room { OnOk result (block < vec_len pages.new) }
    ensures alike { KnowsAlike pages.old.items pages.new.items }
{
    while pages.len() <= block {
        pages.push(Vec::new(alloc))?;
    }
    Ok(())
}

/// Writes what is known of the vertex at a place of a page.
fn write(page: &mut Vec<StampedVisit>, place: usize, visit: StampedVisit) -> Result<(), AllocError>
    requires { place < 4294967296 }
    ensures written { OnOk result (IsWrittenAt page.old.items place visit page.new.items) }
    ensures kept { OnErr result (page.new.items ≡ page.old.items) }
{
    if page.len() <= place {
        page.resize((place / 32 + 1) * 32, BLANK)?;
    }
    page[place] = visit;
    Ok(())
}
