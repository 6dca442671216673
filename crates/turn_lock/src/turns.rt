// The lock's table: its rule, and the five kinds of step on it.
ghost use Rattle.std.specs.Prelude.{ℕ};
ghost use Rattle.turn_lock.specs.Turns.{Turns, Takes, Gives, Looks};
ghost use Rattle.turn_lock.specs.SeatViews.{first_view, left_view, right_view, joined_view, spent_view};

use crate::booked::Booked;
use crate::view::SeatView;
use atomic_table::{Join, Play, Seat, Split, Table, TableRule};
use std::alloc::Global;
use std::marker::PhantomData;
use std::snapshot::Snapshot;

/// What the table is told when it is made: the value as it was then, and the number of passes.
pub struct TableStart<B> {
    pub value: Snapshot<B>,
    pub passes: u32,
}

impl<B> Drop for TableStart<B> {
    fn drop(self) {
        let Self {
            value: _,
            passes: _,
        } = self;
    }
}

pub type Known<B> = SeatView<<B as Booked>::Root, <B as Booked>::Entry>;

pub type Board<B> = Table<B, Known<B>, TableStart<B>, Turning<B>, Global>;

pub type SeatPlace<B> = Seat<B, Known<B>>;

pub struct Turning<B>(PhantomData<B>);

impl<B: Booked> TableRule<B, Known<B>, TableStart<B>> for Turning<B> {
    ghost holds = { λ key. Turns B.root B.entries B.maker (B.root key.value.value) key.passes };

    ghost first = { λ key. first_view (B.root key.value.value) };
}

/// Takes the turn, by a compare-exchange.
pub struct Taking<B>(PhantomData<B>);

impl<B: Booked> Play<B, Known<B>> for Taking<B> {
    ghost then = { Takes B.root B.entries B.maker };
}

/// Gives the turn back, by a store.
pub struct Giving<B>(PhantomData<B>);

impl<B: Booked> Play<B, Known<B>> for Giving<B> {
    ghost then = { Gives B.entries };
}

/// Looks at the word.
pub struct Looking<B>(PhantomData<B>);

impl<B: Booked> Play<B, Known<B>> for Looking<B> {
    ghost then = { Looks };
}

/// Cuts off a seat for the next pass.
pub struct Dealing<B>(PhantomData<B>);

impl<B: Booked> Split<Known<B>> for Dealing<B> {
    ghost left = { left_view };

    ghost right = { right_view };
}

/// Takes a pass's seat in.
pub struct Gathering<B>(PhantomData<B>);

impl<B: Booked> Join<Known<B>> for Gathering<B> {
    ghost both = { joined_view };

    ghost spent = { spent_view };
}
