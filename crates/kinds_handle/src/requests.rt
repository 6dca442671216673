//! Requests of kinds: obstacles that are added to all of them and removed from all.

ghost use Rattle.std.specs.Prelude.{◌≡◌, IfSome, IsNone, Some};
ghost use Rattle.nav_ground.specs.History.{IsRequest};
ghost use Rattle.nav_ground.specs.Limits.{IsShape};
ghost use Rattle.nav_handle.specs.Statuses as status;
ghost use Rattle.kinds_handle.specs.KindRequests.{IsAnswered, IsKindsRequested, states_requested};

use crate::handle::NavdKinds;
use agent_kinds::Kinds;
use nav_book::HistoryFull;
use nav_ground::{Reply, Request, Shape};
use nav_handle::{DEAD, EMPTY, HISTORY_FULL, OK, OUT_OF_RANGE, TOO_MANY};
use std::alloc::Global;

/// How an entry with a reply ends.
pub fn reply_status(reply: Reply) -> u32
    ensures { result ≡ Rattle.kinds_handle.specs.KindRequests.reply_status reply }
{
    match reply {
        Reply::Added { .. } | Reply::Removed => OK,
        Reply::Full { .. } => TOO_MANY,
        Reply::Dead { .. } => DEAD,
    }
}

/// How a request with an answer ends, and the number of the entry that it made, or 0.
fn answer_told(answer: Result<(u32, Reply), HistoryFull>) -> (u32, u32)
    ensures status { result.0 ≡ Rattle.kinds_handle.specs.KindRequests.answer_status answer }
    ensures entry { result.1 ≡ Rattle.kinds_handle.specs.KindRequests.entry_told answer }
{
    match answer {
        Ok((number, reply)) => (reply_status(reply), number),
        Err(_) => (HISTORY_FULL, 0),
    }
}

/// A request of all kinds: how it ends, and the number of the entry that it made, or 0.
fn ask(held: &mut Kinds, request: Request) -> (u32, u32)
    requires { IsRequest request }
    ensures told { IsAnswered held.old request result.0 result.1 }
    ensures state { held.new ≡ states_requested held.old request }
{
    let answer = held.request(0, request);
    answer_told(answer)
}

fn request(alloc: Global, kinds: &mut NavdKinds, request: Request) -> (u32, u32)
    requires { IsRequest request }
    ensures { IsKindsRequested kinds.old.kinds kinds.new.kinds request result.0 result.1 }
{
    let Some(mut held) = kinds.take(alloc) else {
        return (EMPTY, 0);
    };
    let told = ask(&mut held, request);
    kinds.put(held);
    told
}

/// Adds an obstacle to all kinds, if there is one: how that ends, and the number of the entry that it made, or 0.
pub fn add_to_kinds(alloc: Global, kinds: &mut NavdKinds, shape: Option<Shape>) -> (u32, u32)
    requires { IfSome shape IsShape }
    ensures added { IfSome shape (λ shape. IsKindsRequested kinds.old.kinds kinds.new.kinds (Request.Add shape) result.0 result.1) }
    ensures none { IsNone shape → (result ≡ (status.out_of_range, 0)) × (kinds.new.kinds ≡ kinds.old.kinds) }
{
    match shape {
        Some(shape) => request(alloc, kinds, Request::Add(shape)),
        None => (OUT_OF_RANGE, 0),
    }
}

/// Removes the obstacle that the entry with a number added from all kinds, likewise.
pub fn remove_from_kinds(alloc: Global, kinds: &mut NavdKinds, number: u32) -> (u32, u32)
    ensures { IsKindsRequested kinds.old.kinds kinds.new.kinds (Request.Remove number) result.0 result.1 }
{
    request(alloc, kinds, Request::Remove(number))
}
