//! Rows in which a tile's build comes late: more was asked and aimed at while it was made.

use crate::books::{Asked, BARE, Row, Step, Told};
use nav_book::{Published, Submitted};
use nav_ground::Reply;

/// The tile 0 is awaited under a block, and its build is submitted once more was asked: a row of what was asked, how the build is taken,
/// what a publish is answered then, and the floors of the column (1, 1) afterwards.
macro_rules! late {
    ($asked:expr, $taken:expr, $published:expr, $count:expr, $floor:expr) => {
        [
            (Step::Ask(0, Asked::Block(1)), Told::Reply(Ok((1, Reply::Added { number: 1 })))),
            (Step::Aim, Told::Number(1)),
            (Step::Late($asked), Told::Submitted($taken)),
            (Step::Publish, Told::Published(Ok($published))),
            (Step::Floors(1, 1), Told::Floors($count, $floor)),
        ]
    };
}

pub(crate) static LATE_ELSEWHERE: [Row; 5] = late!(
    &[Asked::Area(5)],
    Submitted::Taken,
    Published::NotYet { tile: 1 },
    1,
    BARE
);

pub(crate) static LATE_REMOVED: [Row; 5] = late!(
    &[Asked::Remove(1)],
    Submitted::Stale,
    Published::New { k: 2 },
    1,
    BARE
);

pub(crate) static LATE_AGAIN: [Row; 5] = late!(
    &[Asked::Remove(1), Asked::Block(1)],
    Submitted::Taken,
    Published::New { k: 3 },
    0,
    None
);

pub(crate) static LATE_MORE: [Row; 5] = late!(
    &[Asked::Area(1)],
    Submitted::Stale,
    Published::NotYet { tile: 0 },
    1,
    BARE
);
