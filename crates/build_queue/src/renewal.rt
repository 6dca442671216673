//! The history and the table of live obstacles, begun again.

ghost use Rattle.std.specs.Prelude.{◌≡◌, ℕ, ◌≤◌, length, IfOk, vec_capacity};
ghost use Rattle.nav_ground.specs.History.{IsHistory, history_limit};
ghost use Rattle.build_queue.specs.LiveTable.{IsLiveTable, numbers_of, shapes_in};
ghost use Rattle.build_queue.specs.Renewal.{AddsAgain};

use crate::live::Live;
use nav_ground::{Entry, Reply};
use std::alloc::{AllocError, Global};

/// The numbers of the obstacles of a table.
pub(crate) fn numbers(alloc: Global, live: &[Live]) -> Result<Vec<u32>, AllocError>
    ensures { IfOk result (λ numbers. numbers.items ≡ numbers_of live.now) }
{
    let mut numbers = Vec::with_capacity(alloc, live.len())?;
    for row in live {
        numbers.push(row.number)?;
    }
    Ok(numbers)
}

/// Begins a history again with the adds of the obstacles of its table, which get the numbers of their places.
pub(crate) fn begin_again(entries: &mut Vec<Entry>, live: &mut Vec<Live>)
    requires table { IsLiveTable entries.old.items live.old.items }
    requires few { length entries.old.items ≤ history_limit }
    ensures kept { (limit : ℕ) → length live.old.items ≤ limit → IsHistory limit entries.old.items
        → IsHistory limit entries.new.items × IsLiveTable entries.new.items live.new.items }
    ensures again { AddsAgain entries.old.items (numbers_of live.old.items) entries.new.items }
    ensures count { length live.new.items ≡ length live.old.items }
    ensures shapes { shapes_in live.new.items ≡ shapes_in live.old.items }
    ensures room { vec_capacity entries.new ≡ vec_capacity entries.old }
    ensures live_room { vec_capacity live.new ≡ vec_capacity live.old }
{
    let count = live.len();
    for place in 0..count {
        let row = live[place];
        let number = place as u32 + 1;
        entries[place] = Entry {
            reply: Reply::Added { number },
            ..entries[row.number as usize - 1]
        };
        live[place] = Live { number, ..row };
    }
    entries.truncate(count);
}
