//! The smallest value for a lock: a list of pairs, where an act is a pair and is added.
ghost use Rattle.std.specs.Prelude.{◌≡◌, []};

use crate::booked::Booked;
use std::alloc::Global;
use std::marker::Model;
use std::sync::Wait;

const MOST: usize = 4294967294;

/// A number under its maker's.
#[derive(Clone, Copy, Debug, PartialEq, Eq)]
pub struct Pair {
    pub maker: u32,
    pub number: u32,
}

/// What adding a pair answers.
#[derive(Clone, Copy, Debug, PartialEq, Eq)]
pub enum Added {
    Yes,
    /// The list has 4294967294 pairs.
    Full,
    OutOfMemory,
}

/// A list of pairs.
#[derive(Drop)]
pub struct Pairs {
    pairs: Vec<Pair>,
}

impl Model for Pairs {
    ghost use Rattle.std.specs.Prelude.{◌<◌, List, length};
    ghost use Rattle.turn_lock.specs.declared.pairs.Pair.{Pair};

    ghost Value = { List Pair };

    ghost view = { λ p. p.pairs.items };

    ghost invariant = { λ p. length p.pairs.items < 4294967295 };
}

impl Pairs {
    /// The empty list.
    pub fn new(alloc: Global) -> Pairs
        ensures { result ≡ [] }
    {
        Pairs {
            pairs: Vec::new(alloc),
        }
    }

    pub fn as_slice(&self) -> &[Pair]
        ensures { result.now ≡ self.now }
    {
        &self.pairs
    }
}

impl Booked for Pairs {
    ghost use Rattle.std.specs.Prelude.{◌<◌, length, Some};
    ghost use Rattle.turn_lock.specs.PairList.{Adds};

    type Root = ();

    type Entry = Pair;

    type Act = Pair;

    type Done = Added;

    ghost root = { λ _. tt };

    ghost entries = { λ pairs. pairs };

    ghost maker = { λ pair. pair.maker };

    ghost by = { λ pair. Some pair.maker };

    ghost legal = { λ _ pairs. length pairs < 4294967295 };

    ghost may = { λ _ _. Unit {0} };

    ghost did = { λ _. Adds };

    ghost step = { Adds };

    fn length(&self) -> u32 {
        self.pairs.len() as u32
    }

    fn act<R: Wait>(&mut self, _rt: &R, _alloc: Global, act: Pair) -> Added {
        if self.pairs.len() == MOST {
            return Added::Full;
        }
        match self.pairs.push(act) {
            Ok(()) => Added::Yes,
            Err(_) => Added::OutOfMemory,
        }
    }
}
