//! A level with the numbers of its obstacles that are alive at hand.

ghost use Rattle.std.specs.Prelude.{◌≡◌, ◌+◌, ◌≤◌, ◌<◌, ◌^◌, ◌++◌, ◌∷◌, [], ◌==◌, false, true, length, filter, not, vec_capacity, IfOk, OnOk, OnErr};
ghost use Rattle.std.specs.List.{list_any};
ghost use Rattle.build_queue.specs.BookState.{IsBook};
ghost use Rattle.nav_ground.specs.History.{history_limit};
ghost use Rattle.nav_ground.specs.Limits.{IsShape};
ghost use Rattle.obstacle_registry.specs.Changes.{next_number, put_up, taken_down};
ghost use Rattle.obstacle_registry.specs.Updates.{IsPartOfUpdate, aimed_if_shown, is_showing, tiles_built, updated};
ghost use Rattle.build_queue.specs.Renewal.{IsAllShown};
ghost use Rattle.build_queue.specs.StepContracts.{IsRenewStep};
ghost use Rattle.nav_book.specs.LevelResults.{published_mesh};
ghost use Rattle.obstacle_registry.specs.Registry.{alive_now, has_room, is_crowded};
ghost use Rattle.obstacle_registry.specs.Renewal.{is_due};
ghost use Rattle.obstacle_registry.specs.Restoring.{all_removed};
ghost use Rattle.obstacle_registry.specs.Saving.{has_room_for};

use crate::renew::count_up;
use crate::update::{Updated, update};
use nav_base::Steps;
use nav_book::Level;
use nav_ground::{HISTORY_LIMIT, Request, Shape};
use std::alloc::{AllocError, Global};
use std::marker::Model;
use std::sync::ledger::Ledger;

/// How many entries a history has before it is begun again: half of those that it may have.
const LONG_HISTORY: u32 = 131072;

/// A level, and the numbers of its obstacles that are alive, rising. It is seen as the level.
#[derive(Drop)]
pub(crate) struct LiveLevel {
    pub(crate) level: Box<Level, Global>,
    numbers: Vec<u32>,
}

impl Model for LiveLevel {
    ghost use Rattle.build_queue.specs.BookState.{BookState};
    ghost use Rattle.obstacle_registry.specs.LiveNumbers.{level_of, AreAtHand};

    ghost Value = { BookState };

    ghost view = { level_of };

    ghost invariant = { AreAtHand };
}

impl LiveLevel {
    /// A level of which no obstacle is alive, with room for as many numbers as may be.
    pub(crate) fn new(level: Box<Level, Global>, numbers: Vec<u32>) -> LiveLevel
        requires rules { IsBook level.value }
        requires alive { alive_now level.value ≡ [] }
        requires none { numbers.items ≡ [] }
        requires room { level.value.ground.setting.limit ≤ vec_capacity numbers }
        ensures { result ≡ level.value }
    {
        LiveLevel { level, numbers }
    }

    /// The level again.
    pub(crate) fn into_level(self) -> Box<Level, Global>
        ensures { result.value ≡ self }
    {
        let LiveLevel { level, numbers: _ } = self;
        level
    }

    /// Whether as many obstacles are alive as may be.
    pub(crate) fn is_crowded(&self) -> bool
        ensures { result ≡ is_crowded self.now }
    {
        self.numbers.len() == self.level.ground().setting.limit as usize
    }

    /// Whether the history may have two entries more.
    pub(crate) fn has_room(&self) -> bool
        ensures { result ≡ has_room self.now }
    {
        self.level.length() + 2 <= HISTORY_LIMIT
    }

    /// Puts a shape up, and gives the number of its entry.
    pub(crate) fn put_up(&mut self, shape: Shape) -> u32
        requires shape { IsShape shape }
        requires room { length self.old.history < history_limit }
        requires few { is_crowded self.old ≡ false }
        ensures state { self.new ≡ put_up shape self.old }
        ensures number { result ≡ next_number self.old }
        ensures rules { IsBook self.new }
    {
        match self.level.request(0, Request::Add(shape)) {
            Ok((number, _)) => {
                self.numbers.push_reserved(number);
                number
            }
            Err(full) => full.len,
        }
    }

    /// Takes the obstacle of a number down that is alive.
    pub(crate) fn take_down(&mut self, number: u32)
        requires room { length self.old.history < history_limit }
        requires there { list_any (λ alive. alive == number) (alive_now self.old) ≡ true }
        ensures state { self.new ≡ taken_down number self.old }
        ensures few { is_crowded self.new ≡ false }
        ensures rules { IsBook self.new }
    {
        if let Ok(place) = self.numbers.binary_search(&number) {
            let _ = self.numbers.remove(place);
        }
        let _ = self.level.request(0, Request::Remove(number));
    }

    /// Whether the history may have an entry more for each obstacle that is alive, and so many besides.
    pub(crate) fn has_room_for(&self, count: usize) -> bool
        requires { count < 2 ^ 32 }
        ensures { result ≡ has_room_for count self.now }
    {
        self.level.length() as usize + (self.numbers.len() + count) <= HISTORY_LIMIT as usize
    }

    /// Takes all obstacles down that are alive.
    pub(crate) fn take_all_down(&mut self)
        requires { length self.old.history + length (alive_now self.old) ≤ history_limit }
        ensures state { self.new ≡ all_removed self.old }
        ensures none { alive_now self.new ≡ [] }
        ensures rules { IsBook self.new }
    {
        for _ in 0..self.numbers.len() {
            let number = self.numbers[0];
            self.take_down(number);
        }
    }

    /// Updates the level.
    pub(crate) fn update<L: Ledger>(
        &mut self,
        alloc: Global,
        most: u32,
        steps: &mut Steps<L>,
    ) -> Result<Updated, AllocError>
        ensures state { OnOk result (self.new ≡ updated most self.old) }
        ensures built { IfOk result (λ told. told.built ≡ tiles_built most (aimed_if_shown self.old)) }
        ensures published { IfOk result (λ told. told.published ≡ is_showing most self.old) }
        ensures refused { OnErr result (IsPartOfUpdate most self.old self.new) }
        ensures rules { IsBook self.new }
        ensures history { self.new.history ≡ self.old.history }
    {
        update(&mut self.level, alloc, most, steps)
    }

    /// Whether all of a history is shown that is half as long as it may be.
    pub(crate) fn is_due(&self) -> bool
        ensures { result ≡ is_due self.now }
    {
        self.level.length() >= LONG_HISTORY && self.level.published() == self.level.length()
    }

    /// Begins the history again, all of which is shown.
    pub(crate) fn begin_again(&mut self)
        requires { IsAllShown self.old }
        ensures did { IsRenewStep self.old self.new }
        ensures mesh { published_mesh self.new ≡ published_mesh self.old }
    {
        self.level.begin_again();
        count_up(self.numbers.as_mut_slice());
    }

    /// The numbers of the obstacles that are alive, rising.
    pub(crate) fn numbers(&self) -> &[u32]
        ensures value { result.now ≡ alive_now self.now }
        ensures few { length result.now ≤ 1024 }
        ensures limit { length result.now ≤ self.now.ground.setting.limit }
        ensures rules { IsBook self.now }
    {
        self.numbers.as_slice()
    }

    /// The level.
    pub(crate) fn level(&self) -> &Level
        ensures { result.now ≡ self.now }
    {
        self.level.as_ref()
    }
}
