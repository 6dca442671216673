//! A registry saved as bytes, and restored from them.

ghost use Rattle.std.specs.Prelude.{◌≡◌, ◌+◌, ◌<◌, ◌≤◌, [], All, HoldsAt, IfOk, IfSome, OnErr, OnOk, false, length, slice_get};
ghost use Rattle.nav_ground.specs.History.{history_limit};
ghost use Rattle.obstacle_registry.specs.Changes.{switched_on};
ghost use Rattle.obstacle_registry.specs.Registry.{IsRegistry, alive_now, is_crowded};
ghost use Rattle.obstacle_registry.specs.Restoring.{AreOffRows, AreSwitchedOn, AreToSwitch, with_rows};
ghost use Rattle.obstacle_registry.specs.Saving;
ghost use Rattle.obstacle_registry.specs.Saving.{AreOf, IsNotRead, IsRestoring, saved_from};
ghost use Rattle.obstacle_registry.specs.declared.row.Registered.{Registered};
ghost use Rattle.registry_format.specs.Saved.{FitsParts, IsSaved, KeepsRules};
ghost use Rattle.registry_format.specs.Spelling.{saved_bytes};
ghost use Rattle.registry_format.specs.declared.saved.SavedObstacle.{SavedObstacle};
ghost use Rattle.registry_format.specs.declared.saved.SavedRegistry.{SavedRegistry};

use crate::registry::Registry;
use crate::row::{Refused, Registered};
use crate::saving::{field_of, is_same_field, places_of, rows_off, rows_saved};
use nav_lists::Items;
use registry_format::{SavedFault, SavedRegistry, read_saved, save_bytes};
use std::alloc::{AllocError, Global};

impl Registry {
    /// What is saved of the registry, as bytes: the field that it is of, the last id, the version, the obstacles, and which of them are on.
    pub fn save(&self, alloc: Global) -> Result<Vec<u8>, AllocError>
        ensures bytes { IfOk result (λ bytes. bytes.items ≡ saved_bytes (saved_from self.now)) }
        // So they are read again.
        ensures saved { OnOk result (IsSaved (saved_from self.now)) }
    {
        let saved = self.saved(alloc)?;
        save_bytes(alloc, &saved)
    }

    /// Puts the obstacles that were saved in the place of all others: by their ids, on or off, put up in the order of then. The last id and the
    /// version are the greater ones, and one more, so that none comes again; and the level is asked for all that it takes. What is shown stays
    /// until an update.
    pub fn restore(&mut self, alloc: Global, bytes: &[u8]) -> Result<(), Refused>
        ensures saved { (saved : SavedRegistry) → AreOf bytes.now saved → IsRestoring saved self.old self.new result }
        ensures others { ((saved : SavedRegistry) → AreOf bytes.now saved → ⊥) → IsNotRead result }
        ensures refused { OnErr result (self.new ≡ self.old) }
        ensures rules { IsRegistry self.new }
    {
        let _ = &self.level;
        match read_saved(alloc, bytes) {
            Ok(saved) => self.restore_saved(alloc, &saved),
            Err(why) => Err(refusal(why)),
        }
    }

    /// What is saved of it.
    fn saved(&self, alloc: Global) -> Result<SavedRegistry, AllocError>
        ensures saved { IfOk result (λ saved. saved ≡ saved_from self.now) }
        ensures rules { OnOk result (KeepsRules (saved_from self.now)) }
        ensures fits { OnOk result (All (λ (row : SavedObstacle). FitsParts row.shape) (saved_from self.now).rows) }
    {
        let rows = rows_saved(alloc, self.rows.as_slice())?;
        let on = places_of(alloc, self.rows.as_slice(), self.level.numbers())?;
        Ok(SavedRegistry {
            field: field_of(&self.level.level().ground().setting),
            last: self.last,
            version: self.version,
            rows: Items::from_vec(rows),
            on: Items::from_vec(on),
        })
    }

    /// Puts the obstacles that were saved in the place of all others.
    fn restore_saved(&mut self, alloc: Global, saved: &SavedRegistry) -> Result<(), Refused>
        requires { IsSaved saved.now }
        ensures end { IsRestoring saved.now self.old self.new result }
        ensures refused { OnErr result (self.new ≡ self.old) }
        ensures rules { IsRegistry self.new }
    {
        if let Some(why) = self.why_not_restored(saved) {
            return Err(why);
        }
        let Ok(rows) = rows_off(alloc, saved.rows.as_slice()) else {
            return Err(Refused::NoMemory);
        };
        let last = self.last.max(saved.last);
        let version = self.version.max(saved.version) + 1;
        self.put_rows(rows, last, version);
        self.switch_on_all(saved.on.as_slice());
        Ok(())
    }

    /// Why what was saved cannot be put here.
    fn why_not_restored(&self, saved: &SavedRegistry) -> Option<Refused>
        requires { KeepsRules saved.now }
        ensures { result ≡ Saving.why_not_restored self.now saved.now }
    {
        let field = field_of(&self.level.level().ground().setting);
        if !is_same_field(&field, &saved.field) {
            return Some(Refused::Foreign);
        }
        if self.version.max(saved.version) == u64::MAX {
            return Some(Refused::TooMany);
        }
        if !self.level.has_room_for(saved.on.len()) {
            return Some(Refused::HistoryFull);
        }
        None
    }

    /// Puts rows of obstacles that are off in the place of all others, which are taken down.
    fn put_rows(&mut self, rows: Vec<Registered>, last: u64, version: u64)
        requires rows { AreOffRows last rows.items }
        requires room { length self.old.book.history + length (alive_now self.old.book) ≤ history_limit }
        ensures state { self.new ≡ with_rows self.old rows.items last version }
        ensures none { alive_now self.new.book ≡ [] }
        ensures rules { IsRegistry self.new }
    {
        self.level.take_all_down();
        self.rows = rows;
        self.last = last;
        self.version = version;
    }

    /// Switches the obstacles of the rows at some places on, one after the other.
    fn switch_on_all(&mut self, places: &[u32])
        requires rules { IsRegistry self.old }
        requires places { AreToSwitch self.old places.now }
        ensures switched { AreSwitchedOn places.now self.old self.new }
        ensures rules { IsRegistry self.new }
    {
        for place in places {
            self.switch_on_at(*place as usize);
        }
    }

    /// Switches the obstacle of the row at a place on.
    fn switch_on_at(&mut self, place: usize)
        requires there { place < length self.old.rows }
        requires off { HoldsAt (λ (row : Registered). row.number ≡ 0) self.old.rows place }
        requires few { is_crowded self.old.book ≡ false }
        requires room { length self.old.book.history < history_limit }
        ensures state { IfSome (slice_get self.old.rows place) (λ row. self.new ≡ switched_on self.old row) }
        ensures rules { IsRegistry self.new }
    {
        let row = self.rows[place];
        self.switch_on(place, row);
    }
}

/// Why bytes that were not read are refused.
fn refusal(why: SavedFault) -> Refused
    ensures { result ≡ Saving.refusal why }
{
    match why {
        SavedFault::NotSaved => Refused::NotSaved,
        SavedFault::NoMemory => Refused::NoMemory,
    }
}
