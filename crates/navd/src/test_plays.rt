//! Plays of the whole program: what scripts answer over levels. What is wanted was worked out by hand.

use crate::test_runs::{
    FOUR_TILES, FREE, Moves, Over, ROOM, SquareField, WIDE, check, check_ends, played,
};
use std::alloc::Global;
use std::process::Abort;
use std::sync::Wait;
use std::thread::Threads;
use top_call::Status;

/// The level, the script; the play text.
pub(crate) type Play = (SquareField, &'static str, &'static str);

pub(crate) fn check_plays<R: Abort + Threads + Wait + Sync>(rt: &R, alloc: Global, plays: &[Play]) {
    for (level, script, text) in plays {
        let ran = played(rt, alloc, level, script, FREE);
        check(rt, &ran, Status::Ok, text.as_bytes());
    }
}

static SCRIPTS: [Play; 5] = [
    // The cell (4, 4) is 3 and 4 half cells from the centre: 9 + 16 is 25, the squared reach of the radius 2.
    (
        ROOM,
        "add cylinder 6 5 2 0 100\nsettle\nfloor 4 4\n",
        "entry 1 added\nsettled 1\nfloors 1 0\ndone 1 1\n",
    ),
    // And here 4 and 4: 32 is more.
    (
        ROOM,
        "add cylinder 5 5 2 0 100\nsettle\nfloor 4 4\n",
        "entry 1 added\nsettled 1\nfloors 1 1 10 63\ndone 1 1\n",
    ),
    (
        SquareField { limit: 2, ..ROOM },
        "add block 2 2 0 9 2 2\nadd block 2 2 0 9 2 2\nadd block 2 2 0 9 2 2\nremove 1\nremove 1\nremove 0\nadd block 2 2 0 9 2 2\n",
        "entry 1 added\nentry 2 added\nentry 3 full 2\nentry 4 removed\nentry 5 dead 1\nentry 6 dead 0\nentry 7 added\ndone 0 7\n",
    ),
    (
        SquareField { lanes: 2, ..ROOM },
        "add block 2 2 0 100 2 2\nlane 1\nadd block 3 3 0 100 2 2\ndrop 1\nsettle\nfloor 2 2\nfloor 3 2\n",
        "entry 1 added\nentry 2 added\nentry 3 removed\nsettled 3\nfloors 3 0\nfloors 3 1 10 63\ndone 3 3\n",
    ),
    // The add that was refused counts as the lane's second, and dropping it removes number 0.
    (
        SquareField { limit: 1, ..ROOM },
        "add block 2 2 0 100 2 2\nadd block 3 3 0 100 2 2\ndrop 2\ndrop 1\nfloor 0 0\n",
        "entry 1 added\nentry 2 full 1\nentry 3 dead 0\nentry 4 removed\nfloors 0 0\ndone 0 4\n",
    ),
];

#[test]
fn plays_scripts(rt: HostRuntime) {
    check_plays(&rt, rt.alloc(), &SCRIPTS);
}

static FLOORS: [Play; 9] = [
    (
        ROOM,
        "floor 1 1\nfloor 0 0\n",
        "floors 0 1 10 63\nfloors 0 0\ndone 0 0\n",
    ),
    (
        SquareField {
            side: 4,
            tile: 4,
            over: Over::Void,
            ..ROOM
        },
        "floor 1 1\n",
        "floors 0 0\ndone 0 0\n",
    ),
    // A low step takes the area of the floor under it, one on top of it does not.
    (
        SquareField {
            over: Over::Spans("span 2 2 10 12 0\n"),
            ..ROOM
        },
        "floor 2 2\n",
        "floors 0 1 12 63\ndone 0 0\n",
    ),
    (
        SquareField {
            over: Over::Spans("span 2 2 10 12 0\nspan 2 2 12 14 0\n"),
            ..ROOM
        },
        "floor 2 2\n",
        "floors 0 0\ndone 0 0\n",
    ),
    // The agent fits under a beam of its own height, and not under one that is lower.
    (
        SquareField {
            over: Over::Spans("span 2 2 20 22 0\n"),
            ..ROOM
        },
        "floor 2 2\n",
        "floors 0 1 10 63\ndone 0 0\n",
    ),
    (
        SquareField {
            over: Over::Spans("span 2 2 19 22 0\n"),
            ..ROOM
        },
        "floor 2 2\n",
        "floors 0 0\ndone 0 0\n",
    ),
    (
        SquareField {
            over: Over::Deck,
            ..ROOM
        },
        "floor 2 2\n",
        "floors 0 2 10 63 40 63\ndone 0 0\n",
    ),
    // The ring of the edge has no cells, so the cells from 3 on are two cells from every boundary cell.
    (
        SquareField {
            side: 10,
            tile: 10,
            radius: 2,
            ..ROOM
        },
        "floor 2 2\nfloor 3 3\n",
        "floors 0 0\nfloors 0 1 10 63\ndone 0 0\n",
    ),
    // Four tiles.
    (
        FOUR_TILES,
        "floor 3 4\nfloor 4 3\nfloor 7 4\nfloor 8 4\n",
        "floors 0 1 10 63\nfloors 0 1 10 63\nfloors 0 0\nfloors 0 0\ndone 0 0\n",
    ),
];

#[test]
fn finds_floors(rt: HostRuntime) {
    check_plays(&rt, rt.alloc(), &FLOORS);
}

/// A field on which area 20 costs 3.
const MUDDY: SquareField = SquareField {
    costs: "cost 20 3\n",
    ..ROOM
};

const MUD: &str =
    "add area 20 block 0 5 0 100 2 2\nsettle\nfloor 2 2\npath 24 24 10 72 72 10\nremove 1\nsettle\npath 24 24 10 72 72 10\n";

/// Obstacles that set an area.
static AREAS: [Play; 7] = [
    // The second of four strips costs three times as much while it is mud.
    (
        MUDDY,
        MUD,
        "entry 1 added\nsettled 1\nfloors 1 1 10 20\npath 1 80 0 0 3 0\nlink 0 1 16 32 80 32\nlink 0 2 16 48 80 48\nlink 0 3 16 64 80 64\nentry 2 removed\nsettled 2\npath 2 48 0 0 3 0\nlink 0 1 16 32 80 32\nlink 0 2 16 48 80 48\nlink 0 3 16 64 80 64\ndone 2 2\n",
    ),
    // By outlines the mud is a region between two others, whose middles are 16 and 24 away.
    (
        SquareField {
            mesh: "error 49\nmesh contours\n",
            ..MUDDY
        },
        MUD,
        "entry 1 added\nsettled 1\nfloors 1 1 10 20\npath 1 72 0 0 2 0\nlink 0 1 16 32 80 32\nlink 0 2 16 48 80 48\nentry 2 removed\nsettled 2\npath 2 0 0 0 0 0\ndone 2 2\n",
    ),
    // The last of two areas holds, and a block takes the cell away from both.
    (
        ROOM,
        "add area 20 block 2 2 0 100 2 2\nadd area 30 block 2 3 0 100 2 2\nsettle\nfloor 2 2\nremove 2\nsettle\nfloor 2 2\nadd block 2 2 0 100 2 2\nsettle\nfloor 2 2\n",
        "entry 1 added\nentry 2 added\nsettled 2\nfloors 2 1 10 30\nentry 3 removed\nsettled 3\nfloors 3 1 10 20\nentry 4 added\nsettled 4\nfloors 4 0\ndone 4 4\n",
    ),
    // A cylinder over one column, and a block above its floor.
    (
        ROOM,
        "add area 20 cylinder 5 5 0 0 10\nadd area 30 block 2 2 11 100 2 2\nsettle\nfloor 2 2\nfloor 3 2\n",
        "entry 1 added\nentry 2 added\nsettled 2\nfloors 2 1 10 20\nfloors 2 1 10 63\ndone 2 2\n",
    ),
    // A build under another area is stale, one under the same area in the same place serves, and one in another order is stale.
    (
        ROOM,
        "add area 20 block 2 2 0 100 2 2\naim\nclaim 0\ndrop 1\nadd area 21 block 2 2 0 100 2 2\naim\nsubmit 0\n",
        "entry 1 added\naim 1\nclaim 0 tile 0\nentry 2 removed\nentry 3 added\naim 3\nsubmit 0 stale 0\ndone 0 3\n",
    ),
    (
        ROOM,
        "add area 20 block 2 2 0 100 2 2\naim\nclaim 0\ndrop 1\nadd area 20 block 2 2 0 100 2 2\naim\nsubmit 0\n",
        "entry 1 added\naim 1\nclaim 0 tile 0\nentry 2 removed\nentry 3 added\naim 3\nsubmit 0 taken 0\ndone 0 3\n",
    ),
    (
        ROOM,
        "add area 20 block 2 2 0 100 2 2\nadd area 30 block 2 2 0 100 2 2\naim\nclaim 0\ndrop 1\nadd area 20 block 2 2 0 100 2 2\naim\nsubmit 0\n",
        "entry 1 added\nentry 2 added\naim 2\nclaim 0 tile 0\nentry 3 removed\nentry 4 added\naim 4\nsubmit 0 stale 0\ndone 0 4\n",
    ),
];

#[test]
fn sets_areas(rt: HostRuntime) {
    check_plays(&rt, rt.alloc(), &AREAS);
}

const ACROSS: &str = "floor 1 1\nfloor 0 0\npath 24 24 10 72 72 10\n";

/// Walls round one column, in a tile of another side than the field.
const WALLS: SquareField = SquareField {
    side: 3,
    tile: 4,
    over: Over::Walls,
    ..ROOM
};

/// Each of these paths is the only right one.
static PATHS: [Play; 8] = [
    // The strips of the rows 1 to 4 are 16 sixteenths apart.
    (
        ROOM,
        ACROSS,
        "floors 0 1 10 63\nfloors 0 0\npath 0 48 0 0 3 0\nlink 0 1 16 32 80 32\nlink 0 2 16 48 80 48\nlink 0 3 16 64 80 64\ndone 0 0\n",
    ),
    // And three times that where their area costs 3.
    (
        SquareField {
            costs: "cost 63 3\n",
            ..ROOM
        },
        ACROSS,
        "floors 0 1 10 63\nfloors 0 0\npath 0 144 0 0 3 0\nlink 0 1 16 32 80 32\nlink 0 2 16 48 80 48\nlink 0 3 16 64 80 64\ndone 0 0\n",
    ),
    // One polygon.
    (
        WALLS,
        "path 24 24 10 24 24 10\n",
        "path 0 0 0 0 0 0\ndone 0 0\n",
    ),
    // On a bridge, under it, and from the road to its deck.
    (
        SquareField {
            over: Over::Deck,
            ..ROOM
        },
        "floor 2 2\npath 24 40 40 72 40 40\npath 24 40 10 24 72 10\npath 24 40 10 24 40 40\n",
        "floors 0 2 10 63 40 63\npath 0 0 0 2 0 0\npath 0 32 0 1 2 0\nlink 0 3 16 48 80 48\nlink 0 4 16 64 80 64\nnopath 0\ndone 0 0\n",
    ),
    // A block across the room, and then none.
    (
        ROOM,
        "add block 0 5 0 100 2 2\nsettle\npath 24 24 10 72 72 10\nremove 1\nsettle\npath 24 24 10 72 72 10\n",
        "entry 1 added\nsettled 1\nnopath 1\nentry 2 removed\nsettled 2\npath 2 48 0 0 3 0\nlink 0 1 16 32 80 32\nlink 0 2 16 48 80 48\nlink 0 3 16 64 80 64\ndone 2 2\n",
    ),
    // Round the end of a wall.
    (
        SquareField {
            side: 8,
            tile: 8,
            ..ROOM
        },
        "add block 3 3 0 100 1 5\nsettle\npath 40 24 10 72 24 10\n",
        "entry 1 added\nsettled 1\npath 1 193 0 0 10 2\nlink 0 2 16 32 48 32\nlink 0 4 16 48 48 48\nlink 0 6 16 64 48 64\nlink 0 8 16 80 48 80\nlink 0 10 16 96 48 96\nlink 0 9 112 96 64 96\nlink 0 7 112 80 64 80\nlink 0 5 112 64 64 64\nlink 0 3 112 48 64 48\nlink 0 1 112 32 64 32\nturn 48 96 R 4\nturn 64 96 R 5\ndone 1 1\n",
    ),
    // A point on an edge is located in the first of the two polygons; no polygon holds the corner of the field.
    (
        ROOM,
        "path 48 32 10 48 32 10\npath 48 32 10 48 72 10\npath 24 24 10 0 0 10\npath 0 0 10 24 24 10\n",
        "path 0 0 0 0 0 0\npath 0 48 0 0 3 0\nlink 0 1 16 32 80 32\nlink 0 2 16 48 80 48\nlink 0 3 16 64 80 64\nnogoal 0\nnostart 0\ndone 0 0\n",
    ),
    // Two heights at one point on the edge of a step.
    (
        SquareField {
            over: Over::Step,
            ..ROOM
        },
        "path 48 48 10 48 48 14\n",
        "path 0 16 0 1 1 0\nlink 0 2 16 48 80 48\ndone 0 0\n",
    ),
];

#[test]
fn finds_paths(rt: HostRuntime) {
    check_plays(&rt, rt.alloc(), &PATHS);
}

/// The level, the script; how the play text begins, and how it ends.
pub(crate) type Frame = (SquareField, &'static str, &'static str, &'static str);

static OUTLINES: [Frame; 4] = [
    // One region, whose outline is one polygon.
    (
        SquareField {
            mesh: "error 169\nmesh contours\n",
            ..ROOM
        },
        ACROSS,
        "floors 0 1 10 63\nfloors 0 0\npath 0 0 0 0 0 0\ndone 0 0\n",
        "\ndone 0 0\n",
    ),
    // One cell, whose outline is flat with the error 50, so that the tile is a strip, and has four corners with the error 49.
    (
        SquareField {
            mesh: "error 50\nmesh contours\n",
            ..WALLS
        },
        "path 24 24 10 24 24 10\n",
        "path 0 0 0 0 0 0\ndone 0 0\n",
        "\ndone 0 0\n",
    ),
    (
        SquareField {
            mesh: "error 49\nmesh contours\n",
            ..WALLS
        },
        "path 24 24 10 24 24 10\n",
        "path 0 0 0 0 0 0\ndone 0 0\n",
        "\ndone 0 0\n",
    ),
    // Four tiles of one polygon each; the straight line meets their common corner, so how many turns are listed is free.
    (
        WIDE,
        "path 160 160 10 1400 1400 10\n",
        "path 0 1440 0 0 2 ",
        "\ndone 0 0\n",
    ),
];

pub(crate) fn check_frames<R: Abort + Threads + Wait + Sync>(
    rt: &R,
    alloc: Global,
    plays: &[Frame],
) {
    for (level, script, first, last) in plays {
        let ran = played(rt, alloc, level, script, FREE);
        check_ends(rt, &ran, first, last);
    }
}

#[test]
fn finds_paths_over_outlines(rt: HostRuntime) {
    check_frames(&rt, rt.alloc(), &OUTLINES);
}

static CORRIDORS: [Frame; 2] = [
    // The block is the corner cell of a tile. Round it lead two corridors of one cost, each over two borders, and either is right.
    (
        FOUR_TILES,
        "add block 3 4 0 100 3 4\nsettle\npath 40 56 10 88 72 10\n",
        "entry 1 added\nsettled 1\npath 1 100 0 2 4 ",
        "\ndone 1 1\n",
    ),
    // It touches four tiles, and the mesh is published once none of them is awaited.
    (
        FOUR_TILES,
        "add block 3 4 0 100 3 4\naim\npublish\nclaim 0\nsubmit 0\npublish\nsettle\npublish\npath 40 56 10 88 72 10\n",
        "entry 1 added\naim 1\nnotyet 0\nclaim 0 tile 0\nsubmit 0 taken 0\nnotyet 1\nsettled 1\nsame 1\npath 1 100 0 2 4 ",
        "\ndone 1 1\n",
    ),
];

#[test]
fn finds_one_of_two_paths_over_four_tiles(rt: HostRuntime) {
    check_frames(&rt, rt.alloc(), &CORRIDORS);
}

/// Four tiles for two workers.
const SHARED: SquareField = SquareField {
    workers: 2,
    ..FOUR_TILES
};

static WORKERS: [Play; 7] = [
    // A second obstacle is aimed at before the first build comes in, which is stale.
    (
        ROOM,
        "add block 2 2 0 100 2 2\naim\nclaim 0\nadd block 3 3 0 100 2 2\naim\nsubmit 0\nclaim 0\nsubmit 0\npublish\n",
        "entry 1 added\naim 1\nclaim 0 tile 0\nentry 2 added\naim 2\nsubmit 0 stale 0\nclaim 0 tile 0\nsubmit 0 taken 0\npublished 2\ndone 2 2\n",
    ),
    // The obstacle went and came again in the same place.
    (
        ROOM,
        "add block 2 2 0 100 2 2\naim\nclaim 0\nremove 1\nadd block 2 2 0 100 2 2\naim\nsubmit 0\npublish\n",
        "entry 1 added\naim 1\nclaim 0 tile 0\nentry 2 removed\nentry 3 added\naim 3\nsubmit 0 taken 0\npublished 3\ndone 3 3\n",
    ),
    // The obstacle went, so its tile is awaited no more.
    (
        ROOM,
        "add block 2 2 0 100 2 2\naim\nclaim 0\nremove 1\naim\nsubmit 0\npublish\n",
        "entry 1 added\naim 1\nclaim 0 tile 0\nentry 2 removed\naim 2\nsubmit 0 stale 0\npublished 2\ndone 2 2\n",
    ),
    // A worker without a tile is idle, one with a tile is busy.
    (
        ROOM,
        "claim 0\nsubmit 0\nback 0\nadd block 2 2 0 100 2 2\naim\nclaim 0\nclaim 0\nback 0\nclaim 0\n",
        "claim 0 none\nidle 0\nidle 0\nentry 1 added\naim 1\nclaim 0 tile 0\nbusy 0\nback 0 tile 0\nclaim 0 tile 0\ndone 0 1\n",
    ),
    // Two workers hold tiles at once, and bring them in another order.
    (
        SHARED,
        "add block 3 4 0 100 3 4\naim\nclaim 0\nclaim 1\nclaim 0\nsubmit 1\npublish\nsubmit 0\npublish\nclaim 0\nclaim 1\nsubmit 1\nsubmit 0\npublish\n",
        "entry 1 added\naim 1\nclaim 0 tile 0\nclaim 1 tile 1\nbusy 0\nsubmit 1 taken 1\nnotyet 0\nsubmit 0 taken 0\nnotyet 2\nclaim 0 tile 2\nclaim 1 tile 3\nsubmit 1 taken 3\nsubmit 0 taken 2\npublished 1\ndone 1 1\n",
    ),
    // Of two tiles held at once the second obstacle touches one, whose build is stale.
    (
        SHARED,
        "add block 3 4 0 100 3 4\naim\nclaim 0\nclaim 1\nadd block 1 1 0 100 1 1\naim\nsubmit 0\nsubmit 1\nclaim 1\nback 1\n",
        "entry 1 added\naim 1\nclaim 0 tile 0\nclaim 1 tile 1\nentry 2 added\naim 2\nsubmit 0 stale 0\nsubmit 1 taken 1\nclaim 1 tile 0\nback 1 tile 0\ndone 0 2\n",
    ),
    // A `settle` takes the tile from the worker that holds it.
    (
        ROOM,
        "add block 2 2 0 100 2 2\naim\nclaim 0\nsettle\nsubmit 0\nclaim 0\npublish\nfloor 2 2\n",
        "entry 1 added\naim 1\nclaim 0 tile 0\nsettled 1\nidle 0\nclaim 0 none\nsame 1\nfloors 1 0\ndone 1 1\n",
    ),
];

#[test]
fn leads_workers(rt: HostRuntime) {
    check_plays(&rt, rt.alloc(), &WORKERS);
}

static RAYS: [Play; 3] = [
    // Nothing is held where there are no cells.
    (
        SquareField {
            side: 4,
            tile: 4,
            over: Over::Void,
            ..ROOM
        },
        "floor 1 1\npath 24 24 10 24 24 10\nray 24 24 10 24 40\n",
        "floors 0 0\nnostart 0\nnostart 0\ndone 0 0\n",
    ),
    // Through the point where four tiles meet, into another tile.
    (
        FOUR_TILES,
        "ray 56 40 10 72 56\n",
        "reached 0 1 2\ndone 0 0\n",
    ),
    // Out of the cells of the room, and along an edge that two strips share.
    (
        ROOM,
        "ray 24 24 10 24 0\nray 24 32 10 72 32\n",
        "wall 0 16 16 80 16 512 1536\nreached 0 0 0\ndone 0 0\n",
    ),
];

#[test]
fn follows_rays(rt: HostRuntime) {
    check_plays(&rt, rt.alloc(), &RAYS);
}

/// The room with eight columns a side, in one tile.
const HALL: SquareField = SquareField {
    side: 8,
    tile: 8,
    ..ROOM
};

static HOPS: [Play; 4] = [
    // Over links where they are cheaper, and over the jump where a row is closed.
    (
        ROOM,
        "jump 40 24 10 40 56 10 50\nhop 24 24 10 72 72 10\nadd block 0 5 0 100 2 2\nsettle\n\
            hop 24 24 10 72 72 10\n",
        "hop 0 48 0 0 3 0\nlink 0 1 16 32 80 32\nlink 0 2 16 48 80 48\nlink 0 3 16 64 80 64\n\
            entry 1 added\nsettled 1\nhop 1 66 0 0 2 0\njump 0 0 1\nlink 0 2 16 64 80 64\ndone 1 1\n",
    ),
    // With the row closed no polygon holds the point where the jump lands.
    (
        ROOM,
        "jump 40 24 10 40 40 10 50\nhop 24 24 10 72 72 10\nadd block 0 5 0 100 2 2\nsettle\n\
            hop 24 24 10 72 72 10\n",
        "hop 0 48 0 0 3 0\nlink 0 1 16 32 80 32\nlink 0 2 16 48 80 48\nlink 0 3 16 64 80 64\n\
            entry 1 added\nsettled 1\nnopath 1\ndone 1 1\n",
    ),
    // Turns behind a jump: their portals are counted with it.
    (
        HALL,
        "add block 3 3 0 100 1 6\nsettle\njump 40 24 10 72 24 10 7\nadd block 5 5 0 100 1 5\n\
            settle\nhop 40 104 10 104 24 10\n",
        "entry 1 added\nsettled 1\nentry 2 added\nsettled 2\nhop 2 261 0 15 16 2\n\
            link 0 12 48 96 16 96\nlink 0 9 48 80 16 80\nlink 0 6 48 64 16 64\nlink 0 3 48 48 16 48\n\
            link 0 0 48 32 16 32\njump 0 0 1\nlink 0 4 64 32 80 32\nlink 0 7 64 48 80 48\n\
            link 0 10 64 64 80 64\nlink 0 13 64 80 80 80\nlink 0 16 64 96 80 96\n\
            link 0 14 112 96 96 96\nlink 0 11 112 80 96 80\nlink 0 8 112 64 96 64\n\
            link 0 5 112 48 96 48\nlink 0 2 112 32 96 32\nturn 80 96 R 10\nturn 96 96 R 11\ndone 2 2\n",
    ),
    // Two jumps, of which the cheaper of two alike is taken, and none that is not joined; they lead one way.
    (
        HALL,
        "add block 3 3 0 100 1 6\nadd block 5 5 0 100 1 6\nsettle\njump 40 24 10 72 24 10 7\n\
            jump 72 104 10 104 104 10 9\njump 40 24 10 72 24 10 5\njump 999 24 10 72 24 10 1\n\
            hop 40 104 10 104 24 10\nhop 104 24 10 40 104 10\nhop 0 0 10 104 24 10\n\
            hop 104 24 10 0 0 10\n",
        "entry 1 added\nentry 2 added\nsettled 2\nhop 2 254 0 15 17 0\nlink 0 12 48 96 16 96\n\
            link 0 9 48 80 16 80\nlink 0 6 48 64 16 64\nlink 0 3 48 48 16 48\nlink 0 0 48 32 16 32\n\
            jump 2 0 1\nlink 0 4 64 32 80 32\nlink 0 7 64 48 80 48\nlink 0 10 64 64 80 64\n\
            link 0 13 64 80 80 80\nlink 0 16 64 96 80 96\njump 1 0 17\nlink 0 14 112 96 96 96\n\
            link 0 11 112 80 96 80\nlink 0 8 112 64 96 64\nlink 0 5 112 48 96 48\n\
            link 0 2 112 32 96 32\nnopath 2\nnostart 2\nnogoal 2\ndone 2 2\n",
    ),
];

#[test]
fn takes_jumps(rt: HostRuntime) {
    check_plays(&rt, rt.alloc(), &HOPS);
}

#[test]
fn leaves_what_was_written_of_an_answer(rt: HostRuntime) {
    let moves = Moves {
        read: (100, 0),
        write: (8, 2),
    };
    let ran = played(&rt, rt.alloc(), &ROOM, ACROSS, moves);
    check(&rt, &ran, Status::WriteFault, b"floors 0".as_slice());
}
