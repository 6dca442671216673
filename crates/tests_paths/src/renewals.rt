//! A book whose history begins again: what its eyes see, those from before and those that it gives then.

ghost use Rattle.std.specs.Prelude.{◌≡◌, ◌<◌};

use crate::books::{Asked, Layout, opened, request_of};
use crate::rows::hold;
use crate::versions::floors;
use nav_base::Steps;
use nav_book::Book;
use nav_version::Eye;
use std::alloc::Global;
use std::marker::Brand;
use std::sync::Wait;
use std::sync::ledger::{Blank, Ledger};

/// The numbers that the two obstacles had; the published length and the floors of a column that the new eye sees, before the second of them
/// goes and afterwards; and whether the eye from before is refused.
type Seen = ([u32; 2], [Option<(u32, usize)>; 2], bool);

/// Of three obstacles the first goes again, and all is published.
fn prepare<R: Wait, L: Ledger>(rt: &R, alloc: Global, book: &mut Book, steps: &mut Steps<L>) {
    for asked in &[
        Asked::Block(1),
        Asked::Block(5),
        Asked::Remove(1),
        Asked::Block(2),
    ] {
        let _answer = book.request(0, request_of(*asked));
    }
    let _length = book.settle(rt, alloc, steps);
}

fn renewed<R: Wait, L: Ledger>(
    rt: &R,
    alloc: Global,
    book: &mut Book,
    old: &mut Eye,
    steps: &mut Steps<L>,
) -> Option<Seen> {
    if book.published() != book.length() {
        return None;
    }
    let Ok((numbers, mut eyes)) = book.renew(rt, alloc, 1) else {
        return None;
    };
    let had = [
        numbers.get(0).copied().unwrap_or(0),
        numbers.get(1).copied().unwrap_or(0),
    ];
    let Some(mut eye) = eyes.pop() else {
        return None;
    };
    let first = floors(&mut eye, alloc, 2, 1);
    let is_refused = floors(old, alloc, 2, 1).is_none();
    let _answer = book.request(0, request_of(Asked::Remove(2)));
    let _length = book.settle(rt, alloc, steps);
    let last = floors(&mut eye, alloc, 2, 1);
    Some((had, [first, last], is_refused))
}

fn seen<R: Wait, L: Ledger>(rt: &R, alloc: Global, blank: Blank) -> Option<Seen>
    requires name { blank.name ≡ L.name }
    requires parts { blank.parts ≡ L.parts }
    requires some { 0 < blank.parts }
{
    let mut steps = Steps::<L>::new(blank);
    match opened(rt, alloc, Layout::Two, 1, &mut steps) {
        Ok((mut book, mut eyes)) => {
            prepare(rt, alloc, &mut book, &mut steps);
            let told = match eyes.pop() {
                Some(mut eye) => renewed(rt, alloc, &mut book, &mut eye, &mut steps),
                None => None,
            };
            book.end(rt);
            told
        }
        Err(_) => None,
    }
}

#[test]
fn renews_books(rt: HostRuntime) {
    let told = seen::<HostRuntime, Brand>(&rt, rt.alloc(), Blank::new(1));
    let wanted = ([2, 4], [Some((2, 0)), Some((3, 1))], true);
    hold(&rt, "a renewed book", told == Some(wanted));
}
