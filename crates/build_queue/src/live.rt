//! The table of the obstacles that are alive, in order of their numbers. What a book answers. Shapes with their bounds at hand.

ghost use Rattle.std.specs.Prelude.{◌≡◌, ◌<◌, ◌≤◌, ◌==◌, ◌++◌, [], ◌∷◌, length, All, IfSome, None, Some, if◌then◌else◌, vec_capacity};
ghost use Rattle.nav_ground.specs.History.{IsRequest};
ghost use Rattle.nav_ground.specs.Limits.{IsShape};
ghost use Rattle.std.specs.List.{list_any};
ghost use Rattle.build_queue.specs.LiveTable.{is_row_of, rows_without, rows_after, reply_among, shapes_in, IsChangedBy, IsRising};
ghost use Rattle.nav_ground.specs.Shapes.{bounds_of};
ghost use Rattle.nav_ground.specs.Touching.{are_meeting, are_overlapping};

use nav_ground::{Reply, Request, Shape, TileNo, Window, bounds};
use nav_lists::Items;
use std::marker::Model;

/// An obstacle that is alive: the number of the entry that added it, and its shape.
#[derive(Clone, Copy)]
pub struct Live {
    pub number: u32,
    pub shape: BoundedShape,
}

/// What a request is answered, and the shape that came or went by it, if one did.
#[derive(Clone, Copy)]
pub(crate) struct Answered {
    pub(crate) reply: Reply,
    pub(crate) changed: Option<BoundedShape>,
}

/// Answers the request of the entry with a number, and keeps the table.
pub(crate) fn answer(live: &mut Vec<Live>, limit: u32, number: u32, request: Request) -> Answered
    requires rising { IsRising live.old.items }
    requires few { length live.old.items ≤ limit }
    requires room { limit ≤ vec_capacity live.old }
    requires shapes { All IsShape (shapes_in live.old.items) }
    requires request { IsRequest request }
    ensures reply { result.reply ≡ reply_among limit number live.old.items request }
    ensures table { live.new.items ≡ rows_after limit number live.old.items request }
    ensures changed { IsChangedBy result.changed live.old.items live.new.items }
    ensures shape { IfSome result.changed IsShape }
    ensures few_after { length live.new.items ≤ limit }
    ensures room_after { vec_capacity live.new ≡ vec_capacity live.old }
{
    match request {
        Request::Add(shape) => add(live, limit, number, BoundedShape::new(shape)),
        Request::Remove(other) => remove(live, other),
    }
}

fn add(live: &mut Vec<Live>, limit: u32, number: u32, shape: BoundedShape) -> Answered
    requires few { length live.old.items ≤ limit }
    requires room { limit ≤ vec_capacity live.old }
    requires shape { IsShape shape }
    ensures reply { result.reply ≡ (if length live.old.items == limit then Reply.Full limit else Reply.Added number) }
    ensures table { live.new.items ≡ (if length live.old.items == limit then live.old.items else live.old.items ++ record { number = number; shape = shape } ∷ []) }
    ensures changed { IsChangedBy result.changed live.old.items live.new.items }
    ensures shape_after { IfSome result.changed IsShape }
    ensures few_after { length live.new.items ≤ limit }
    ensures room_after { vec_capacity live.new ≡ vec_capacity live.old }
{
    if live.len() == limit as usize {
        return Answered {
            reply: Reply::Full { live: limit },
            changed: None,
        };
    }
    live.push_reserved(Live { number, shape });
    Answered {
        reply: Reply::Added { number },
        changed: Some(shape),
    }
}

fn remove(live: &mut Vec<Live>, number: u32) -> Answered
    requires rising { IsRising live.old.items }
    requires shapes { All IsShape (shapes_in live.old.items) }
    ensures reply { result.reply ≡ (if list_any (is_row_of number) live.old.items then Reply.Removed else Reply.Dead number) }
    ensures table { live.new.items ≡ rows_without number live.old.items }
    ensures changed { IsChangedBy result.changed live.old.items live.new.items }
    ensures shape { IfSome result.changed IsShape }
    ensures fewer { length live.new.items ≤ length live.old.items }
    ensures room_after { vec_capacity live.new ≡ vec_capacity live.old }
{
    match live.binary_search_by_key(&number, |row| row.number) {
        Ok(place) => {
            let row = live.remove(place);
            Answered {
                reply: Reply::Removed,
                changed: Some(row.shape),
            }
        }
        Err(_) => Answered {
            reply: Reply::Dead { number },
            changed: None,
        },
    }
}

/// Takes over the shapes of a table.
pub(crate) fn take_over(live: &[Live], aimed: &mut Vec<BoundedShape>)
    requires { length live.now ≤ vec_capacity aimed.old }
    ensures shapes { aimed.new.items ≡ shapes_in live.now }
    ensures room { vec_capacity aimed.new ≡ vec_capacity aimed.old }
{
    aimed.clear();
    for row in live {
        aimed.push_reserved(row.shape);
    }
}

/// The history has as many entries as a history can have; nothing was appended.
#[derive(Clone, Copy, PartialEq, Eq, Debug)]
pub struct HistoryFull {
    /// How many entries the history has.
    pub len: u32,
}

/// A tile to be built, and the shapes to build it under.
#[derive(Drop)]
pub struct Job {
    /// By rows from the corner (0, 0), from 0.
    pub tile: TileNo,
    /// Those that touch the tile at the target, in order of their numbers.
    pub shapes: Items<Shape>,
}

/// What became of a submitted list.
#[derive(Clone, Copy, PartialEq, Eq)]
pub enum Submitted {
    /// It is stored: its tile was awaited, and it is the tile's touching list at the target.
    Taken,
    /// It is not stored, since the tile is not awaited or has another touching list at the target.
    Stale,
}

/// What a publish is answered. Lengths count entries of the history.
#[derive(Clone, Copy, PartialEq, Eq, Debug)]
pub enum Published {
    /// From now on the first `k` entries are published.
    New { k: u32 },
    /// They were published before.
    Same { k: u32 },
    /// This tile is the least that is awaited; nothing has changed.
    NotYet { tile: TileNo },
}

/// A shape with its bounds, which are reckoned once. It is seen as the shape.
#[derive(Clone, Copy)]
pub struct BoundedShape {
    shape: Shape,
    bounds: Window,
}

impl Model for BoundedShape {
    ghost use Rattle.nav_ground.specs.declared.shape.Shape.{Shape};

    ghost Value = { Shape };

    ghost use Rattle.build_queue.specs.Bounds.{shape_in, HasItsBounds, with_bounds, bounds_come_back};

    ghost view = { shape_in };

    ghost invariant = { HasItsBounds };

    ghost inverse = { with_bounds };

    ghost inverse_ok = { bounds_come_back };
}

impl BoundedShape {
    /// A shape with its bounds.
    pub(crate) fn new(shape: Shape) -> BoundedShape
        requires { IsShape shape }
        ensures { result ≡ shape }
    {
        BoundedShape {
            shape,
            bounds: bounds(&shape),
        }
    }

    /// The shape.
    pub(crate) fn get(&self) -> &Shape
        ensures { result.now ≡ self.now }
    {
        &self.shape
    }

    /// Whether its bounds and a rectangle of columns, neither of them empty, have a column in common.
    pub(crate) fn meets(&self, columns: Window) -> bool
        ensures { result ≡ are_meeting (bounds_of self.now) columns }
    {
        are_meeting(self.bounds, columns)
    }
}

/// Whether two rectangles, neither of them empty, have a column in common.
fn are_meeting(a: Window, b: Window) -> bool
    ensures { result ≡ are_meeting a b }
{
    are_overlapping(a.x0, a.x1, b.x0, b.x1) && are_overlapping(a.z0, a.z1, b.z0, b.z1)
}

/// Whether two ranges, neither of them empty, have a number in common.
fn are_overlapping(a0: i32, a1: i32, b0: i32, b1: i32) -> bool
    ensures { result ≡ are_overlapping a0 a1 b0 b1 }
{
    a0 <= b1 && b0 <= a1
}
