//! The entries of a version, of which the older ones are shared with other versions. The history of a pair, which the press alone adds to.

ghost use Rattle.std.specs.Prelude.{◌≡◌, ◌++◌, [], IfOk, ◌<◌, ◌^◌, ◌∷◌, length, MatchBool};
ghost use mathlib.Core.List.{IsPrefix};

use crate::rule::{Adding, Law, Nothing, Told};
use logbook::{Offer, Seen, Start, Word};
use nav_ground::Entry;
use nav_lists::{Items, Shared};
use std::alloc::{AllocError, Global};
use std::marker::Model;

/// From how many entries on the latest ones join the older ones.
const LATEST_LIMIT: usize = 256;

/// The entries of a version, the oldest first. Contracts see them as one list. They are held in two pieces, of which the older one is shared
/// with the versions before and after, so that a version more takes no copy of the whole list, but for one time in many.
#[derive(Drop)]
pub struct Entries {
    older: Shared<Items<Entry>>,
    latest: Items<Entry>,
}

impl Model for Entries {
    ghost use Rattle.std.specs.Prelude.{◌++◌, List};
    ghost use Rattle.nav_ground.specs.declared.history.Entry.{Entry};

    ghost Value = { List Entry };

    ghost view = { λ inside. inside.older ++ inside.latest };
}

impl Entries {
    /// None.
    pub fn new(alloc: Global) -> Result<Entries, AllocError>
        ensures { IfOk result (λ entries. entries ≡ []) }
    {
        Ok(Entries {
            older: Shared::new(alloc, Items::new(alloc))?,
            latest: Items::new(alloc),
        })
    }

    /// A copy of a list.
    pub fn of(alloc: Global, entries: &[Entry]) -> Result<Entries, AllocError>
        ensures { IfOk result (λ all. all ≡ entries.now) }
    {
        let none = Entries::new(alloc)?;
        none.with(alloc, entries)
    }

    /// These and further ones behind them.
    pub(crate) fn with(&self, alloc: Global, more: &[Entry]) -> Result<Entries, AllocError>
        ensures { IfOk result (λ all. all ≡ self.now ++ more.now) }
    {
        let latest = joined(alloc, self.latest.as_slice(), more)?;
        if latest.len() < LATEST_LIMIT {
            return Ok(Entries {
                older: self.older.share()?,
                latest: Items::from_vec(latest),
            });
        }
        let older = joined(alloc, self.older.get().as_slice(), latest.as_slice())?;
        Ok(Entries {
            older: Shared::new(alloc, Items::from_vec(older))?,
            latest: Items::new(alloc),
        })
    }

    /// The two pieces, the older one first.
    pub fn as_slices(&self) -> (&[Entry], &[Entry])
        ensures { result.0.now ++ result.1.now ≡ self.now }
    {
        (self.older.get().as_slice(), self.latest.as_slice())
    }
}

/// One list after the other.
fn joined(alloc: Global, before: &[Entry], more: &[Entry]) -> Result<Vec<Entry>, AllocError>
    ensures { IfOk result (λ all. all.items ≡ before.now ++ more.now) }
{
    let mut all = Vec::with_capacity(alloc, before.len().saturating_add(more.len()))?;
    all.extend_from_slice(before)?;
    all.extend_from_slice(more)?;
    Ok(all)
}

/// The list of the entries that were published, or are about to be. The list itself exists in proofs; here is its length.
#[derive(Drop)]
pub struct PublishedHistory {
    word: Word<Entry, u64, Law>,
    seen: Seen<Entry, u64, Law>,
    length: u64,
}

impl Model for PublishedHistory {
    ghost use Rattle.nav_version.specs.Lists.{ToldView};

    ghost Value = { ToldView };

    ghost use Rattle.nav_version.specs.ListsKept.{history_view, IsHistoryKept};

    ghost view = { history_view };

    ghost invariant = { IsHistoryKept };
}

impl PublishedHistory {
    /// An empty one, of a pair of its own.
    pub(crate) fn new() -> PublishedHistory
        ensures { result.entries ≡ [] }
    {
        let (seen, mut first, _second) = Seen::open(Start::alone(), 0, 0);
        PublishedHistory {
            word: Word::tracked(0, &mut first),
            seen,
            length: 0,
        }
    }

    // Adds an entry, and says whether it did: it did not where the list has become longer, as only the holder of the word can make it.
    fn push(&mut self, entry: &Entry) -> bool
        requires room { length self.old.entries < 2 ^ 62 }
        ensures pair { self.new.pair ≡ self.old.pair }
        ensures begins { IsPrefix self.old.entries self.new.entries }
        ensures grown { MatchBool result (self.new.entries ≡ self.old.entries ++ entry.now ∷ []) (Unit {0}) }
    {
        let mut offer: Offer<Entry, u64, Law, Nothing> = self
            .seen
            .plain::<Nothing, Entry, Adding>(entry);
        let mut pen = self.seen.no_pen();
        let length = self.length;
        let found = self
            .word
            .compare_exchange::<Adding, Nothing>(
                length,
                length + 1,
                &mut self.seen,
                &mut offer,
                &mut pen,
            );
        self.length = if found == length { length + 1 } else { found };
        found == length
    }

    /// Adds entries, and says whether it did.
    pub(crate) fn add(&mut self, entries: &[Entry]) -> bool
        requires room { length (self.old.entries ++ entries.now) < 2 ^ 62 }
        ensures pair { self.new.pair ≡ self.old.pair }
        ensures begins { IsPrefix self.old.entries self.new.entries }
        ensures grown { MatchBool result (self.new.entries ≡ self.old.entries ++ entries.now) (Unit {0}) }
    {
        for entry in entries {
            if !self.push(entry) {
                return false;
            }
        }
        true
    }

    /// Adds the entries of a version, and says whether it did.
    pub(crate) fn add_all(&mut self, entries: &Entries) -> bool
        requires room { length (self.old.entries ++ entries.now) < 2 ^ 62 }
        ensures pair { self.new.pair ≡ self.old.pair }
        ensures begins { IsPrefix self.old.entries self.new.entries }
        ensures grown { MatchBool result (self.new.entries ≡ self.old.entries ++ entries.now) (Unit {0}) }
    {
        let (older, latest) = entries.as_slices();
        self.add(older) && self.add(latest)
    }

    /// The list so far.
    pub(crate) fn told(&self) -> Told
        requires { length self.now.entries < 2 ^ 32 }
        ensures { result ≡ self.now }
    {
        Told::of(self.length as u32, self.seen.again())
    }
}
