//! What a saved registry keeps.

ghost use Rattle.std.specs.Prelude.{◌≡◌, ◌≢◌, ◌↔◌, ◌<◌, ◌≤◌, All, AllPairs, IsTrue, length};
ghost use Rattle.registry_format.specs.declared.saved.SavedObstacle.{SavedObstacle};
ghost use Rattle.registry_format.specs.Saved.{IsSavedRow, KeepsRules};

use crate::saved::{SavedObstacle, SavedRegistry};
use crate::shapes::is_shape;

/// How many rows a registry may have.
const ROW_LIMIT: usize = 65536;

/// Whether an obstacle has an id from 1 up to the last one, and a shape within its limits.
fn is_row(row: &SavedObstacle, last: u64) -> bool
    ensures { IsTrue result ↔ IsSavedRow last row.now }
{
    1 <= row.id && row.id <= last && is_shape(&row.shape)
}

fn are_rows(rows: &[SavedObstacle], last: u64) -> bool
    ensures { IsTrue result ↔ All (IsSavedRow last) rows.now }
{
    for row in rows {
        if !is_row(row, last) {
            return false;
        }
    }
    true
}

/// Whether an obstacle's id is below that of another one.
fn is_before(a: &SavedObstacle, b: &SavedObstacle) -> bool
    ensures { IsTrue result ↔ (a.now.id < b.now.id) }
{
    a.id < b.id
}

/// Whether ids rise.
fn are_rising(rows: &[SavedObstacle]) -> bool
    ensures { IsTrue result ↔ AllPairs (λ (a b : SavedObstacle). a.id < b.id) rows.now }
{
    for place in 1..rows.len() {
        if !is_before(&rows[place - 1], &rows[place]) {
            return false;
        }
    }
    true
}

/// Whether each of the places is below a count.
fn are_below(places: &[u32], count: usize) -> bool
    ensures { IsTrue result ↔ All (λ place. place < count) places.now }
{
    for place in places {
        if *place as usize >= count {
            return false;
        }
    }
    true
}

/// Whether none of some places is that of one.
fn is_absent(places: &[u32], one: u32) -> bool
    ensures { IsTrue result ↔ All (λ place. place ≢ one) places.now }
{
    for place in places {
        if *place == one {
            return false;
        }
    }
    true
}

/// Whether no place stands twice.
fn are_distinct(places: &[u32]) -> bool
    ensures { IsTrue result ↔ AllPairs (λ a b. a ≢ b) places.now }
{
    for at in 0..places.len() {
        if !is_absent(&places[..at], places[at]) {
            return false;
        }
    }
    true
}

/// Whether a registry may be so.
pub(crate) fn keeps_rules(saved: &SavedRegistry) -> bool
    ensures { IsTrue result ↔ KeepsRules saved.now }
{
    let rows = saved.rows.as_slice();
    let on = saved.on.as_slice();
    rows.len() <= ROW_LIMIT
        && on.len() <= saved.field.limit as usize
        && are_rows(rows, saved.last)
        && are_rising(rows)
        && are_below(on, rows.len())
        && are_distinct(on)
}
