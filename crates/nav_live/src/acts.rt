//! What acts do to the book.

ghost use Rattle.std.specs.Prelude.{◌≡◌, length};
ghost use mathlib.Core.List.{IsPrefix};
ghost use Rattle.nav_ground.specs.History.{IsRequest};
ghost use Rattle.nav_ground.specs.declared.history.Entry.{Entry};
ghost use Rattle.turn_lock.specs.Growth.{Grows};
ghost use Rattle.nav_live.specs.ActRules.{Does, DoesClaim, DoesPublish, IsAllowed, lane_of};
ghost use Rattle.nav_live.specs.LiveBooks.{Steps, told_of};
ghost use Rattle.nav_live.specs.Roots.{root_of};
ghost use Rattle.nav_live.specs.Touched.{AreTouched};
ghost use Rattle.nav_live.specs.declared.book.LiveAct.TheVariants as acts;

use crate::book::{LiveAct, LiveDone};
use nav_book::{Book, HistoryFull};
use nav_ground::Request;
use nav_version::Told;
use std::alloc::{AllocError, Global};
use std::sync::Wait;

/// One act on the book. Only a request that was answered adds to its history.
pub(crate) fn act<R: Wait>(book: &mut Book, rt: &R, alloc: Global, act: LiveAct) -> LiveDone
    requires may { IsAllowed (root_of book.old) act }
    requires touched { AreTouched book.old }
    ensures root { root_of book.new ≡ root_of book.old }
    ensures grows { Grows (λ (entry : Entry). entry.lane) (lane_of act) book.old.state.history book.new.state.history }
    ensures did { Does (root_of book.old) book.old.state.history act result book.new.state.history }
    ensures step { Steps book.old act result book.new }
    ensures touched { AreTouched book.new }
{
    match act {
        LiveAct::Ask { lane, request } => ask(book, lane, request),
        LiveAct::Aim => LiveDone::Aim { k: book.aim() },
        LiveAct::Claim => claim(book, alloc),
        LiveAct::PutBack { job } => {
            book.put_back(job);
            LiveDone::Back
        }
        LiveAct::Submit { made } => LiveDone::Submitted {
            answer: book.submit(made),
        },
        LiveAct::Publish => publish(book, rt, alloc),
    }
}

/// Makes a request of a lane.
fn ask(book: &mut Book, lane: u32, request: Request) -> LiveDone
    requires { IsRequest request }
    ensures { Steps book.old (acts.Ask lane request) result book.new }
{
    match book.request(lane, request) {
        Ok((number, reply)) => LiveDone::Asked { number, reply },
        Err(HistoryFull { len }) => LiveDone::HistoryFull { len },
    }
}

/// Claims a tile, if one waits.
fn claim(book: &mut Book, alloc: Global) -> LiveDone
    requires { AreTouched book.old }
    ensures steps { Steps book.old acts.Claim result book.new }
    ensures asks { DoesClaim (root_of book.old) book.new.state.history result }
{
    match book.claim(alloc) {
        Ok(Some(job)) => LiveDone::Claimed { job },
        Ok(None) => LiveDone::NoTile,
        Err(AllocError) => LiveDone::NoMemory,
    }
}

/// What is published, for an eye to learn: the history begins with it.
fn told(book: &Book) -> Told
    ensures told { result ≡ told_of book.now }
    ensures length { length result.entries ≡ book.now.state.published }
    ensures front { IsPrefix result.entries book.now.state.history }
{
    book.told()
}

/// Publishes the target, and tells what is published then.
fn publish<R: Wait>(book: &mut Book, rt: &R, alloc: Global) -> LiveDone
    ensures steps { Steps book.old acts.Publish result book.new }
    ensures tells { DoesPublish (root_of book.old) book.new.state.history result }
{
    match book.publish(rt, alloc) {
        Ok(answer) => LiveDone::Published {
            answer,
            told: told(book),
        },
        Err(AllocError) => LiveDone::NoMemory,
    }
}
