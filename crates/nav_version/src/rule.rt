//! The rule of published versions, and its four kinds of step. The law of the history: what its steps keep and tell. A published list, told
//! to an eye.

ghost use Rattle.nav_version.specs.VersionRule.{Stands, Publishes, Enters};
ghost use Rattle.std.specs.Prelude.{◌≡◌, ◌<◌, ◌≤◌, length, MatchBool};
ghost use mathlib.Core.List.{IsPrefix};

use crate::version::PublishedVersion;
use atomic_table::{Join, Split};
use crossbeam_utils::rule::{Outcome, Protocol};
use logbook::{Gain, Plain, Play, Rule, Seen};
use nav_ground::Entry;
use std::marker::Model;

/// What the press or an eye knows is one version that was shown, if any.
pub struct Versions;

impl Protocol<PublishedVersion, Option<PublishedVersion>> for Versions {
    ghost use Rattle.std.specs.Prelude.{None};

    ghost holds = { Stands };

    ghost first = { None };
}

/// The press shows the next version.
pub struct Publishing;

impl Outcome<PublishedVersion, Option<PublishedVersion>> for Publishing {
    ghost then = { Publishes };
}

/// An eye takes the version that is shown.
pub struct Entering;

impl Outcome<PublishedVersion, Option<PublishedVersion>> for Entering {
    ghost then = { Enters };
}

/// The press tells a new eye what it knows.
pub struct Telling;

impl Split<Option<PublishedVersion>> for Telling {
    ghost left = { λ known. known };

    ghost right = { λ known. known };
}

/// A new eye takes that in.
pub struct Learning;

impl Join<Option<PublishedVersion>> for Learning {
    ghost use Rattle.std.specs.Prelude.{None};

    ghost both = { λ own told. told };

    ghost spent = { None };
}

/// The rule: the word that the press has is the length of the list.
pub struct Law;

impl Rule<Entry, u64> for Law {
    ghost use Rattle.std.specs.Prelude.{[]};
    ghost use base.Fml.{ftrue};
    ghost use Rattle.nav_version.specs.Histories.{IsCounted};

    ghost holds = { λ cells log. IsCounted cells log };

    ghost first = { [] };

    ghost hinted = { λ number log. Unit {0} };

    ghost shows = { λ log. [] };

    ghost keeps = { λ names log. ftrue };

    ghost moves = { λ ask before after answer. Unit {0} };
}

/// Nothing is traded.
pub struct Nothing;

impl Gain<Entry, u64> for Nothing {
    ghost use base.Fml.{ftrue};

    ghost after = { λ names about answer. ftrue };
}

/// A step that adds an entry.
pub struct Adding;

impl Play<Entry, u64> for Adding {
    ghost use Rattle.nav_version.specs.Histories.{Adds};

    ghost then = { Adds };
}

/// What a step asks for: the entry.
impl Plain<Entry, Entry, u64> for Adding {
    ghost use Rattle.std.specs.Prelude.{None};

    ghost ask = { λ entry. entry };

    ghost state = { λ entry. None };
}

/// A length that was published. Contracts see the pair in which it was, and the entries of the version that was published with it. A press
/// alone makes it.
#[derive(Drop)]
pub struct Told {
    length: u32,
    seen: Seen<Entry, u64, Law>,
}

impl Model for Told {
    ghost use Rattle.nav_version.specs.Lists.{ToldView};

    ghost Value = { ToldView };

    ghost use Rattle.nav_version.specs.ListsKept.{told_view, IsToldKept};

    ghost view = { told_view };

    ghost invariant = { IsToldKept };
}

impl Told {
    pub(crate) fn of(count: u32, seen: Seen<Entry, u64, Law>) -> Told
        requires { count ≡ length seen.log }
        ensures { result ≡ record { pair = seen.book; entries = seen.log } }
    {
        Told {
            length: count,
            seen,
        }
    }

    /// The length.
    pub fn length(&self) -> u32
        ensures { result ≡ length self.now.entries }
    {
        self.length
    }

    /// The same once more.
    pub(crate) fn again(&self) -> Told
        ensures { result ≡ self.now }
    {
        Told {
            length: self.length,
            seen: self.seen.again(),
        }
    }

    /// Whether the list goes on from another one of its pair, as the longer of two does.
    pub(crate) fn goes_on(&self, from: &Told) -> bool
        requires { from.now.pair ≡ self.now.pair }
        ensures length { MatchBool result (length from.now.entries ≤ length self.now.entries) (length self.now.entries < length from.now.entries) }
        ensures begins { MatchBool result (IsPrefix from.now.entries self.now.entries) (IsPrefix self.now.entries from.now.entries) }
    {
        let mut both = self.seen.again();
        both.learn(&from.seen);
        from.length <= self.length
    }
}
