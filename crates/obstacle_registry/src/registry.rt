//! The registry: a level whose obstacles have ids.

ghost use Rattle.std.specs.Prelude.{◌≡◌, ◌≢◌, ◌<◌, ◌+◌, ◌-◌, ◌^◌, [], false, true, if◌then◌else◌, length, slice_get, Some, IfSome, OnOk, OnErr, IfOk, IfErr, ◌⊎◌, None};
ghost use Rattle.std.specs.Option.{option_map};
ghost use Rattle.std.specs.Result.{result_err};
ghost use Rattle.nav_ground.specs.History.{history_limit};
ghost use Rattle.nav_ground.specs.Limits.{IsShape};
ghost use Rattle.obstacle_registry.specs.declared.row.Registered.{Registered};
ghost use Rattle.obstacle_registry.specs.declared.row.Refused.TheVariants.{NoMemory, TooMany};
ghost use Rattle.obstacle_registry.specs.Changes.{after_add, after_enable, after_mark, after_move, after_remove, dropped, switched_off, switched_on, why_not_added, why_not_enabled, why_not_marked, why_not_taken, with_rewritten};
ghost use Rattle.obstacle_registry.specs.Updates.{IsPartOfUpdate, after_update, aimed_if_shown, is_showing, tiles_built};
ghost use Rattle.build_queue.specs.Renewal.{IsAllShown};
ghost use Rattle.nav_book.specs.LevelResults.{published_mesh};
ghost use Rattle.obstacle_registry.specs.Renewal.{IsKeptShort, IsRenewedRegistry, is_due};
ghost use Rattle.obstacle_registry.specs.Registry.{IsOffAt, IsRegistry, IsRewriting, alive_now, first_registry, has_room, is_crowded, is_crowded_registry, is_last_version, is_on, row_of};

use crate::live::LiveLevel;
use crate::renew::renumber;
use crate::row::{Refused, Registered};
use crate::update::Updated;
use nav_base::Steps;
use nav_book::Level;
use nav_ground::Shape;
use std::alloc::Global;
use std::marker::Model;
use std::sync::ledger::Ledger;

/// How many rows a registry may have.
const ROW_LIMIT: usize = 65536;

/// A level whose obstacles have ids that stay.
#[derive(Drop)]
pub struct Registry {
    pub(crate) level: LiveLevel,
    /// By their ids, rising.
    pub(crate) rows: Vec<Registered>,
    /// The last id that was given.
    pub(crate) last: u64,
    /// How often something new was shown.
    pub(crate) version: u64,
}

impl Model for Registry {
    ghost use Rattle.obstacle_registry.specs.Registry.{RegistryState};
    ghost use Rattle.obstacle_registry.specs.Representation.{state_of, IsKept};

    ghost Value = { RegistryState };

    ghost view = { state_of };

    ghost invariant = { IsKept };
}

impl Registry {
    /// The registry of a level of which no obstacle is alive: without rows, and its version is 0. Where memory is refused, the level is given back.
    pub fn begin(alloc: Global, level: Box<Level, Global>) -> Result<Registry, Box<Level, Global>>
        requires { alive_now level.value ≡ [] }
        ensures begun { IfOk result (λ made. made ≡ first_registry level.value) }
        ensures refused { IfErr result (λ back. back.value ≡ level.value) }
        ensures rules { IfOk result IsRegistry }
    {
        let limit = level.ground().setting.limit as usize;
        match Vec::with_capacity(alloc, limit) {
            Ok(numbers) => {
                let live = LiveLevel::new(level, numbers);
                let rows = Vec::new(alloc);
                Ok(Registry {
                    level: live,
                    rows,
                    last: 0,
                    version: 0,
                })
            }
            Err(_) => Err(level),
        }
    }

    /// The level again, with the obstacles as they are.
    pub fn into_level(self) -> Box<Level, Global>
        ensures { result.value ≡ self.book }
    {
        let Registry { level, rows: _, .. } = self;
        level.into_level()
    }

    /// Adds an obstacle, and gives its id, which no other one had or will have. It is alive from now on, and seen once it is published.
    pub fn add(&mut self, shape: Shape, user: u64) -> Result<u64, Refused>
        requires { IsShape shape }
        ensures added { OnOk result (self.new ≡ after_add self.old shape user) }
        ensures id { IfOk result (λ id. id ≡ self.old.last + 1) }
        ensures room { OnOk result (why_not_added self.old ≡ None) }
        ensures why { IfErr result (λ why. (why ≡ NoMemory) ⊎ (why_not_added self.old ≡ Some why)) }
        ensures refused { OnErr result (self.new ≡ self.old) }
        ensures rules { IsRegistry self.new }
    {
        if self.is_crowded() {
            return Err(Refused::TooMany);
        }
        if !self.has_room() {
            return Err(Refused::HistoryFull);
        }
        if self.rows.reserve(1).is_err() {
            return Err(Refused::NoMemory);
        }
        let number = self.level.put_up(shape);
        let id = self.last + 1;
        self.rows.push_reserved(Registered {
            id,
            shape,
            user,
            number,
        });
        self.last = id;
        Ok(id)
    }

    /// Removes an obstacle.
    pub fn remove(&mut self, id: u64) -> Result<(), Refused>
        ensures did { OnOk result (IfSome (row_of id self.old.rows) (λ row. self.new ≡ after_remove self.old row)) }
        ensures why { result_err result ≡ why_not_taken self.old (row_of id self.old.rows) }
        ensures refused { OnErr result (self.new ≡ self.old) }
        ensures rules { IsRegistry self.new }
    {
        let Some((place, row)) = self.find(id) else {
            return Err(Refused::NoObstacle);
        };
        if row.number == 0 {
            self.drop_row(place, id);
            return Ok(());
        }
        if !self.has_room() {
            return Err(Refused::HistoryFull);
        }
        self.switch_off(place, row);
        self.drop_row(place, id);
        Ok(())
    }

    /// Switches an obstacle on or off.
    pub fn enable(&mut self, id: u64, on: bool) -> Result<(), Refused>
        ensures did { OnOk result (IfSome (row_of id self.old.rows) (λ row. self.new ≡ after_enable self.old row on)) }
        ensures why { result_err result ≡ why_not_enabled self.old (row_of id self.old.rows) on }
        ensures refused { OnErr result (self.new ≡ self.old) }
        ensures rules { IsRegistry self.new }
    {
        let Some((place, row)) = self.find(id) else {
            return Err(Refused::NoObstacle);
        };
        if on {
            if row.number != 0 {
                return Err(Refused::Same);
            }
            if self.is_full_of_live() {
                return Err(Refused::TooMany);
            }
            if !self.has_room() {
                return Err(Refused::HistoryFull);
            }
            self.switch_on(place, row);
            return Ok(());
        }
        if row.number == 0 {
            return Err(Refused::Same);
        }
        if !self.has_room() {
            return Err(Refused::HistoryFull);
        }
        self.switch_off(place, row);
        Ok(())
    }

    /// Moves an obstacle: it has another shape from now on, and keeps its id.
    pub fn move_to(&mut self, id: u64, shape: Shape) -> Result<(), Refused>
        requires { IsShape shape }
        ensures did { OnOk result (IfSome (row_of id self.old.rows) (λ row. self.new ≡ after_move self.old row shape)) }
        ensures why { result_err result ≡ why_not_taken self.old (row_of id self.old.rows) }
        ensures refused { OnErr result (self.new ≡ self.old) }
        ensures rules { IsRegistry self.new }
    {
        let Some((place, row)) = self.find(id) else {
            return Err(Refused::NoObstacle);
        };
        let moved = Registered { shape, ..row };
        if row.number == 0 {
            self.rewrite(place, moved);
            return Ok(());
        }
        if !self.has_room() {
            return Err(Refused::HistoryFull);
        }
        self.switch_off(place, row);
        self.switch_on(place, moved);
        Ok(())
    }

    /// Gives an obstacle another number of the host.
    pub fn mark(&mut self, id: u64, user: u64) -> Result<(), Refused>
        ensures did { OnOk result (IfSome (row_of id self.old.rows) (λ row. self.new ≡ after_mark self.old row user)) }
        ensures why { result_err result ≡ why_not_marked (row_of id self.old.rows) }
        ensures refused { OnErr result (self.new ≡ self.old) }
        ensures rules { IsRegistry self.new }
    {
        let Some((place, row)) = self.find(id) else {
            return Err(Refused::NoObstacle);
        };
        self.rewrite(place, Registered { user, ..row });
        Ok(())
    }

    /// Aims at the whole history, unless what was aimed at before is not published; builds at most so many tiles; and publishes once none is
    /// awaited. Where memory is refused, some of the tiles were built, and nothing is published.
    pub fn update<L: Ledger>(
        &mut self,
        alloc: Global,
        most: u32,
        steps: &mut Steps<L>,
    ) -> Result<Updated, Refused>
        ensures did { OnOk result (self.new ≡ after_update most self.old) }
        ensures built { IfOk result (λ told. told.built ≡ tiles_built most (aimed_if_shown self.old.book)) }
        ensures published { IfOk result (λ told. told.published ≡ is_showing most self.old.book) }
        ensures versions { OnOk result (is_last_version self.old ≡ false) }
        ensures why { IfErr result (λ why. why ≡ (if is_last_version self.old then TooMany else NoMemory)) }
        ensures last { is_last_version self.old ≡ true → self.new ≡ self.old }
        ensures refused { OnErr result (is_last_version self.old ≡ false → IsPartOfUpdate most self.old.book self.new.book) }
        ensures version { OnErr result (self.new.version ≡ self.old.version) }
        ensures rows { self.new.rows ≡ self.old.rows }
        ensures ids { self.new.last ≡ self.old.last }
        ensures rules { IsRegistry self.new }
    {
        if self.is_last_version() {
            return Err(Refused::TooMany);
        }
        match self.level.update(alloc, most, steps) {
            Ok(told) => {
                let version = next_version(self.version, told.published);
                self.version = version;
                Ok(told)
            }
            Err(_) => Err(Refused::NoMemory),
        }
    }

    /// Begins the history of the level again, where all of it is shown and it is half as long as it may be. The obstacles stay as they are but for the
    /// numbers of their entries, and so does what is shown.
    pub fn renew_if_due(&mut self)
        ensures short { IsKeptShort (is_due self.old.book) self.old self.new }
        ensures mesh { published_mesh self.new.book ≡ published_mesh self.old.book }
        ensures rules { IsRegistry self.new }
    {
        if self.level.is_due() {
            self.renew();
        }
    }

    /// Begins the history of the level again, all of which is shown.
    fn renew(&mut self)
        requires { IsAllShown self.old.book }
        ensures renewed { IsRenewedRegistry self.old self.new }
        ensures mesh { published_mesh self.new.book ≡ published_mesh self.old.book }
        ensures rules { IsRegistry self.new }
    {
        renumber(self.rows.as_mut_slice(), self.level.numbers());
        self.level.begin_again();
    }

    /// The level, to ask of what it shows.
    pub fn level(&self) -> &Level
        ensures value { result.now ≡ self.now.book }
        ensures rules { IsRegistry self.now }
    {
        self.level.level()
    }

    /// The obstacles, by their ids, rising.
    pub fn rows(&self) -> &[Registered]
        ensures value { result.now ≡ self.now.rows }
        ensures rules { IsRegistry self.now }
    {
        self.rows.as_slice()
    }

    /// How often something new was shown.
    pub fn version(&self) -> u64
        ensures { result ≡ self.now.version }
    {
        self.version
    }

    /// The place and the row of an id.
    fn find(&self, id: u64) -> Option<(usize, Registered)>
        ensures row { row_of id self.now.rows ≡ option_map (λ found. found.1) result }
        ensures there { IfSome result (λ found. slice_get self.now.rows found.0 ≡ Some found.1) }
        ensures id { IfSome result (λ found. found.1.id ≡ id) }
        ensures shape { IfSome result (λ found. IsShape found.1.shape) }
        ensures rules { IsRegistry self.now }
    {
        match self.rows.binary_search_by_key(&id, |row| row.id) {
            Ok(place) => Some((place, self.rows[place])),
            Err(_) => None,
        }
    }

    /// Whether no more can be added: as many obstacles are on as may be, there are as many rows as may be, or all ids were given.
    fn is_crowded(&self) -> bool
        ensures { result ≡ is_crowded_registry self.now }
    {
        self.level.is_crowded() || self.rows.len() == ROW_LIMIT || self.last == u64::MAX
    }

    /// Whether as many obstacles are on as may be.
    fn is_full_of_live(&self) -> bool
        ensures { result ≡ is_crowded self.now.book }
    {
        self.level.is_crowded()
    }

    /// Whether all versions of 64 bits were shown.
    fn is_last_version(&self) -> bool
        ensures { result ≡ is_last_version self.now }
    {
        self.version == u64::MAX
    }

    /// Whether the history may have two entries more.
    fn has_room(&self) -> bool
        ensures { result ≡ has_room self.now.book }
    {
        self.level.has_room()
    }

    /// Switches the obstacle of the row at a place off.
    fn switch_off(&mut self, place: usize, row: Registered)
        requires there { slice_get self.old.rows place ≡ Some row }
        requires on { is_on row ≡ true }
        requires room { length self.old.book.history < history_limit }
        ensures state { self.new ≡ switched_off self.old row }
        ensures few { is_crowded self.new.book ≡ false }
        ensures off { IsOffAt self.new.rows place row.id }
        ensures rules { IsRegistry self.new }
    {
        self.level.take_down(row.number);
        self.rows[place] = Registered { number: 0, ..row };
    }

    /// Switches the obstacle of the row at a place on that is off, with the shape of a row that is to stand there.
    pub(crate) fn switch_on(&mut self, place: usize, row: Registered)
        requires there { IsOffAt self.old.rows place row.id }
        requires shape { IsShape row.shape }
        requires few { is_crowded self.old.book ≡ false }
        requires room { length self.old.book.history < history_limit }
        ensures state { self.new ≡ switched_on self.old row }
        ensures rules { IsRegistry self.new }
    {
        let number = self.level.put_up(row.shape);
        self.rows[place] = Registered { number, ..row };
    }

    /// Writes a row over one with the same id that is on under the same number and with the same shape, or off.
    fn rewrite(&mut self, place: usize, row: Registered)
        requires { IsRewriting self.old.rows place row }
        ensures state { self.new ≡ with_rewritten self.old row }
        ensures rules { IsRegistry self.new }
    {
        self.rows[place] = row;
    }

    /// Drops the row at a place of an obstacle that is off.
    fn drop_row(&mut self, place: usize, id: u64)
        requires { IsOffAt self.old.rows place id }
        ensures state { self.new ≡ dropped id self.old }
        ensures rules { IsRegistry self.new }
    {
        let _ = self.rows.remove(place);
    }
}

/// One more where something new is shown.
fn next_version(version: u64, published: bool) -> u64
    requires { version ≢ 2 ^ 64 - 1 }
    ensures { result ≡ (if published then version + 1 else version) }
{
    if published { version + 1 } else { version }
}
