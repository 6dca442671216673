//! The shapes of the obstacles that are there after exactly one of two lengths of a history.

ghost use Rattle.std.specs.Prelude.{◌≡◌, ◌<◌, ◌≤◌, ◌+◌, ◌-◌, ◌↔◌, ◌||◌, ℕ, false, true, get_or, length, replicate, IfOk, Contains};
ghost use Rattle.nav_ground.specs.declared.shape.Shape.{Shape};
ghost use Rattle.nav_ground.specs.History.{is_added, is_removal_of, is_removed, shape_of};
ghost use Rattle.tile_changes.specs.Changes.{IsThereOnce};
ghost use Rattle.tile_changes.specs.Telling.{RemovesWhatIsThere, told_by};

use nav_ground::{Entry, Reply, Request, Shape};
use std::alloc::{AllocError, Global};

/// The shapes of the obstacles that are there after exactly one of two lengths of a history. It goes from the last entry
/// back, so that it knows at each add whether the obstacle stays.
pub(crate) fn changed_shapes(
    alloc: Global,
    history: &[Entry],
    since: usize,
    upto: usize,
) -> Result<Vec<Shape>, AllocError>
    requires rules { RemovesWhatIsThere history.now }
    requires order { since ≤ upto }
    requires within { upto ≤ length history.now }
    ensures { IfOk result (λ shapes. (shape : Shape) → Contains shapes.items shape ↔ IsThereOnce history.now since upto shape) }
{
    let mut removed = none_removed(alloc, upto - since)?;
    let mut shapes = Vec::new(alloc);
    for place in (since..upto).rev() {
        let entry = &history[place];
        if let Some(shape) = told_by(history, since, removed[place - since], entry) {
            shapes.push(shape)?;
        }
        mark_removed(&mut removed, since, entry);
    }
    Ok(shapes)
}

/// So many marks that are not set.
fn none_removed(alloc: Global, count: usize) -> Result<Vec<bool>, AllocError>
    ensures { IfOk result (λ marks. marks.items ≡ replicate count false) }
{
    Ok(vec![in alloc; false; count]?)
}

/// The shape that an entry tells: that of the obstacle that it added, where no later entry removes it; or that of the
/// obstacle that it removed, where an entry before `since` added that.
fn told_by(history: &[Entry], since: usize, later: bool, entry: &Entry) -> Option<Shape>
    ensures { result ≡ told_by history.now since later entry.now }
{
    match entry.request {
        Request::Add(shape) => {
            if is_added(entry.reply) && !later {
                Some(shape)
            } else {
                None
            }
        }
        Request::Remove(number) => {
            if is_removed(entry.reply) && number as usize <= since {
                shape_of(history, number)
            } else {
                None
            }
        }
    }
}

/// Whether an obstacle was added.
fn is_added(reply: Reply) -> bool
    ensures { result ≡ is_added reply }
{
    match reply {
        Reply::Added { .. } => true,
        _ => false,
    }
}

/// Whether an obstacle was removed.
fn is_removed(reply: Reply) -> bool
    ensures { result ≡ is_removed reply }
{
    match reply {
        Reply::Removed => true,
        _ => false,
    }
}

/// The shape of the obstacle with a number, from 1; none where no entry with the number asked for one.
fn shape_of(history: &[Entry], number: u32) -> Option<Shape>
    ensures { result ≡ shape_of history.now number }
{
    if number == 0 {
        return None;
    }
    let entry = history.get(number as usize - 1)?;
    match entry.request {
        Request::Add(shape) => Some(shape),
        Request::Remove(_) => None,
    }
}

/// Marks the obstacle that an entry removed, where it was added since.
fn mark_removed(removed: &mut Vec<bool>, since: usize, entry: &Entry)
    requires { (number : ℕ) → is_removal_of number entry.now ≡ true → number < since + length removed.old.items + 1 }
    ensures count { length removed.new.items ≡ length removed.old.items }
    ensures marks { (place : ℕ) → place < length removed.old.items → get_or removed.new.items place false
        ≡ (is_removal_of (since + place + 1) entry.now || get_or removed.old.items place false) }
{
    if let Request::Remove(number) = entry.request {
        let number = number as usize;
        if is_removed(entry.reply) && number > since {
            removed[number - since - 1] = true;
        }
    }
}
