//! Plays of levels in whose texts agents keep their radius from obstacles, or say that they do not. What is wanted was worked out by hand.

use crate::test_plays::{Frame, Play, check_frames, check_plays};
use crate::test_runs::{FREE, Over, ROOM, SquareField, check, played};
use top_call::Status;

/// A flat field of 16 by 16 columns, whose cells are kept in the columns 3 to 12 of the rows 3 to 12; agents keep no distance from obstacles.
const PLAIN: SquareField = SquareField {
    form: 2,
    side: 16,
    tile: 16,
    radius: 2,
    costs: "clear 0\n",
    ..ROOM
};

/// The same, where they keep their radius.
const CLEAR: SquareField = SquareField {
    costs: "clear 1\n",
    ..PLAIN
};

/// The same two in four tiles.
const PLAIN_TILES: SquareField = SquareField { tile: 8, ..PLAIN };

const CLEAR_TILES: SquareField = SquareField { tile: 8, ..CLEAR };

const BESIDE: &str = "add block 8 8 0 100 8 8\nsettle\nfloor 6 7\nfloor 6 6\nfloor 5 8\n";

const BEHIND_KEPT: &str = "add block 2 2 0 100 8 8\nsettle\nfloor 3 8\nfloor 4 8\nfloor 5 8\n";

const MARKED: &str =
    "add block 8 8 0 100 8 8\nadd area 20 block 0 15 0 100 0 15\nadd area 30 cylinder 16 16 1 0 100\nsettle\nfloor 8 8\nfloor 7 8\nfloor 5 8\n";

/// What an obstacle leaves free.
static FLOORS: [Play; 10] = [
    // Column (7, 8) is beside the block; (6, 7) is a diagonal step from it, (6, 6) one more, and (5, 8) two steps along the row.
    (
        CLEAR,
        BESIDE,
        "entry 1 added\nsettled 1\nfloors 1 0\nfloors 1 1 10 63\nfloors 1 1 10 63\ndone 1 1\n",
    ),
    (
        PLAIN,
        BESIDE,
        "entry 1 added\nsettled 1\nfloors 1 1 10 63\nfloors 1 1 10 63\nfloors 1 1 10 63\ndone 1 1\n",
    ),
    // A block over a cell that is not kept takes kept cells beside it away.
    (
        CLEAR,
        BEHIND_KEPT,
        "entry 1 added\nsettled 1\nfloors 1 0\nfloors 1 0\nfloors 1 1 10 63\ndone 1 1\n",
    ),
    (
        PLAIN,
        BEHIND_KEPT,
        "entry 1 added\nsettled 1\nfloors 1 1 10 63\nfloors 1 1 10 63\nfloors 1 1 10 63\ndone 1 1\n",
    ),
    // From what sets an area nobody keeps a distance.
    (
        CLEAR,
        "add area 20 block 8 8 0 100 8 8\nsettle\nfloor 8 8\nfloor 6 7\n",
        "entry 1 added\nsettled 1\nfloors 1 1 10 20\nfloors 1 1 10 63\ndone 1 1\n",
    ),
    // What is left beside a block has the area that was set.
    (
        CLEAR,
        MARKED,
        "entry 1 added\nentry 2 added\nentry 3 added\nsettled 3\nfloors 3 0\nfloors 3 0\nfloors 3 1 10 20\ndone 3 3\n",
    ),
    (
        PLAIN,
        MARKED,
        "entry 1 added\nentry 2 added\nentry 3 added\nsettled 3\nfloors 3 0\nfloors 3 1 10 30\nfloors 3 1 10 20\ndone 3 3\n",
    ),
    // A block on the upper floor leaves the lower one as it is.
    (
        SquareField {
            over: Over::Storey,
            ..CLEAR
        },
        "add block 8 8 30 100 8 8\nsettle\nfloor 6 7\nfloor 6 6\n",
        "entry 1 added\nsettled 1\nfloors 1 1 10 63\nfloors 1 2 10 63 40 63\ndone 1 1\n",
    ),
    // Across a border: (8, 4) and (7, 4) are one and two steps from the cell beside the block. The goal is beside it, too.
    (
        CLEAR_TILES,
        "add block 10 10 0 100 4 4\nsettle\npath 120 72 10 184 72 10\nfloor 7 4\nfloor 8 4\n",
        "entry 1 added\nsettled 1\nnogoal 1\nfloors 1 1 10 63\nfloors 1 0\ndone 1 1\n",
    ),
    // The greatest radius in the least tile that may have it: fourteen steps are too few, fifteen are enough.
    (
        SquareField {
            side: 64,
            tile: 30,
            radius: 15,
            ..CLEAR
        },
        "add block 32 32 0 100 32 32\nsettle\nfloor 17 32\nfloor 16 32\n",
        "entry 1 added\nsettled 1\nfloors 1 0\nfloors 1 1 10 63\ndone 1 1\n",
    ),
];

#[test]
fn leaves_cells_that_keep_their_radius(rt: HostRuntime) {
    check_plays(&rt, rt.alloc(), &FLOORS);
}

const ACROSS: &str = "add block 9 9 0 100 4 4\naim\npublish\nsettle\nfloor 7 4\nfloor 6 4\n";

const CORNER: &str =
    "add block 9 9 0 100 9 9\naim\npublish\nsettle\nfloor 7 7\nfloor 6 7\nfloor 7 6\n";

const MIDDLE: &str = "add block 8 8 0 100 8 8\naim\npublish\n";

/// Which tiles an obstacle touches: those that its bounds reach with the radius on each side.
static TOUCHED: [Play; 14] = [
    (
        CLEAR_TILES,
        MIDDLE,
        "entry 1 added\naim 1\nnotyet 0\ndone 0 1\n",
    ),
    (
        PLAIN_TILES,
        MIDDLE,
        "entry 1 added\naim 1\nnotyet 3\ndone 0 1\n",
    ),
    (
        CLEAR_TILES,
        "add block 10 10 0 100 10 10\naim\npublish\n",
        "entry 1 added\naim 1\nnotyet 3\ndone 0 1\n",
    ),
    // A radius of none adds none.
    (
        SquareField {
            radius: 0,
            ..CLEAR_TILES
        },
        MIDDLE,
        "entry 1 added\naim 1\nnotyet 3\ndone 0 1\n",
    ),
    // A cell of the tile beside the block's is taken away.
    (
        CLEAR_TILES,
        ACROSS,
        "entry 1 added\naim 1\nnotyet 0\nsettled 1\nfloors 1 0\nfloors 1 1 10 63\ndone 1 1\n",
    ),
    (
        PLAIN_TILES,
        ACROSS,
        "entry 1 added\naim 1\nnotyet 1\nsettled 1\nfloors 1 1 10 63\nfloors 1 1 10 63\ndone 1 1\n",
    ),
    // Across a corner a tile is touched whose cells all stay.
    (
        CLEAR_TILES,
        CORNER,
        "entry 1 added\naim 1\nnotyet 0\nsettled 1\nfloors 1 1 10 63\nfloors 1 1 10 63\nfloors 1 1 10 63\ndone 1 1\n",
    ),
    (
        PLAIN_TILES,
        CORNER,
        "entry 1 added\naim 1\nnotyet 3\nsettled 1\nfloors 1 1 10 63\nfloors 1 1 10 63\nfloors 1 1 10 63\ndone 1 1\n",
    ),
    // From beyond the field: columns 17 and 18 with two more on each side begin at 15, its last one, and at 16.
    (
        CLEAR_TILES,
        "add block 17 17 0 100 4 4\naim\npublish\n",
        "entry 1 added\naim 1\nnotyet 1\ndone 0 1\n",
    ),
    (
        PLAIN_TILES,
        "add block 17 17 0 100 4 4\naim\npublish\n",
        "entry 1 added\naim 1\npublished 1\ndone 1 1\n",
    ),
    (
        CLEAR_TILES,
        "add block 18 18 0 100 4 4\naim\npublish\n",
        "entry 1 added\naim 1\npublished 1\ndone 1 1\n",
    ),
    (
        CLEAR_TILES,
        "add cylinder 36 8 0 0 100\naim\npublish\n",
        "entry 1 added\naim 1\nnotyet 1\ndone 0 1\n",
    ),
    (
        PLAIN_TILES,
        "add cylinder 36 8 0 0 100\naim\npublish\n",
        "entry 1 added\naim 1\npublished 1\ndone 1 1\n",
    ),
    // Columns 10 to 14 meet two tiles of four on each axis, of the six in a row.
    (
        SquareField {
            side: 24,
            tile: 4,
            ..CLEAR
        },
        "add block 12 12 0 100 12 12\naim\nclaim 0\nsubmit 0\nclaim 0\nsubmit 0\nclaim 0\nsubmit 0\nclaim 0\nsubmit 0\nclaim 0\npublish\n",
        "entry 1 added\naim 1\nclaim 0 tile 14\nsubmit 0 taken 14\nclaim 0 tile 15\nsubmit 0 taken 15\nclaim 0 tile 20\nsubmit 0 taken 20\nclaim 0 tile 21\nsubmit 0 taken 21\nclaim 0 none\npublished 1\ndone 1 1\n",
    ),
];

#[test]
fn awaits_the_tiles_within_the_radius(rt: HostRuntime) {
    check_plays(&rt, rt.alloc(), &TOUCHED);
}

/// Meshes by outlines.
const OUTLINED: SquareField = SquareField {
    mesh: "error 169\nmesh contours\n",
    ..CLEAR_TILES
};

static OUTLINES: [Frame; 3] = [
    // The block takes cells of three tiles away, and none of the first, whose rim stays straight.
    (
        OUTLINED,
        "add block 9 9 0 100 9 9\nsettle\npath 126 126 10 126 126 10\n",
        "entry 1 added\nsettled 1\npath 1 0 0 0 0 0\n",
        "\ndone 1 1\n",
    ),
    // Without obstacles the mesh is the same: two corridors of one cost lead past the corner that the tiles share, and either is right.
    (
        OUTLINED,
        "path 72 72 10 184 184 10\n",
        "path 0 160 0 0 2 ",
        "\ndone 0 0\n",
    ),
    (
        SquareField {
            costs: "clear 0\n",
            ..OUTLINED
        },
        "path 72 72 10 184 184 10\n",
        "path 0 160 0 0 2 ",
        "\ndone 0 0\n",
    ),
];

#[test]
fn finds_paths_past_what_is_kept_clear(rt: HostRuntime) {
    check_frames(&rt, rt.alloc(), &OUTLINES);
}

/// Tiles of 4 are too small for twice the radius 3.
const NARROW: SquareField = SquareField {
    tile: 4,
    radius: 3,
    ..CLEAR
};

#[test]
fn refuses_tiles_below_twice_the_radius(rt: HostRuntime) {
    let ran = played(&rt, rt.alloc(), &NARROW, "", FREE);
    check(&rt, &ran, Status::BadText, b"fault 8 2\n".as_slice());
}
