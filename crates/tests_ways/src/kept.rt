//! Kept paths: those of the open rows are checked and followed where the first row is two strips, and where the third is missing.

ghost use Rattle.std.specs.Prelude.{◌≡◌, ◌<◌, All, None, IsTrue};
ghost use Rattle.nav_ground.specs.Limits.{IsSetting};
ghost use Rattle.mesh_types.specs.Soundness.{IsSound};
ghost use Rattle.kept_paths.specs.KeptPaths.{CanCheck};
ghost use Rattle.path_follow.specs.Following.{CanFollow, IsTurnOf};

use crate::meshes::{
    FlatLevel, all_hold, at, gap, has_coordinates, mesh, open, point, split, wall,
};
use crate::plans::can_plan;
use kept_paths::{CheckAnswer, KeptPath, check};
use mesh_types::{Corner, Mesh, PathFound};
use nav_base::Steps;
use path_follow::{FollowAnswer, Following, follow};
use path_queries::{Filter, PathQuery, PlanAnswer, plan};
use std::alloc::{AllocError, Global};
use std::marker::Brand;
use std::sync::ledger::{Blank, Ledger};

/// What a question about a kept path is to be answered.
#[derive(Clone, Copy, PartialEq)]
enum Wanted {
    /// The first polygon, what the links cost and how many lead on.
    Whole(u32, u64, usize),
    Cut(u32, u64, usize),
    /// Where a walker is: its polygon, its point, and how many links it has passed.
    At(u32, (i32, i32), usize),
    CutAt(usize),
    NoStart,
    NoMemory,
}

/// What is asked: whether it leads on from a place to a goal, or where the walker is that has gone so far, with so many links ahead looked at.
#[derive(Clone, Copy)]
enum Asked {
    Check((i32, i32), (i32, i32)),
    Follow(u32, u32),
    /// A walker whose line begins elsewhere.
    FollowFrom((i32, i32), u32),
}

/// Between which places the path was planned, what is asked, and the answer.
type Row = ((i32, i32), (i32, i32), Asked, Wanted);

/// In the rows as they were.
static SAME: [Row; 8] = [
    (
        (24, 24),
        (72, 72),
        Asked::Check((40, 20), (24, 72)),
        Wanted::Whole(0, 48, 3),
    ),
    (
        (24, 24),
        (72, 72),
        Asked::Check((24, 24), (24, 24)),
        Wanted::Cut(0, 48, 3),
    ),
    (
        (24, 24),
        (72, 72),
        Asked::Follow(0, 0),
        Wanted::At(0, (24, 24), 0),
    ),
    (
        (24, 24),
        (72, 72),
        Asked::Follow(20, 0),
        Wanted::At(1, (44, 44), 1),
    ),
    (
        (24, 24),
        (72, 72),
        Asked::Follow(48, 0),
        Wanted::At(3, (72, 72), 3),
    ),
    (
        (24, 24),
        (72, 72),
        Asked::Follow(65535, 9),
        Wanted::At(3, (72, 72), 3),
    ),
    (
        (24, 24),
        (72, 72),
        Asked::FollowFrom((0, 0), 3),
        Wanted::NoStart,
    ),
    (
        (24, 40),
        (24, 44),
        Asked::Follow(1, 0),
        Wanted::At(1, (24, 41), 0),
    ),
];

/// Where the first row is two strips: all numbers behind it have risen.
static SPLIT: [Row; 4] = [
    (
        (24, 40),
        (24, 72),
        Asked::Check((24, 40), (24, 72)),
        Wanted::Whole(2, 32, 2),
    ),
    (
        (24, 40),
        (24, 72),
        Asked::Check((24, 48), (24, 72)),
        Wanted::Whole(2, 32, 2),
    ),
    (
        (24, 40),
        (24, 72),
        Asked::Check((24, 24), (24, 72)),
        Wanted::NoStart,
    ),
    ((24, 40), (24, 72), Asked::Follow(0, 0), Wanted::CutAt(0)),
];

/// Where the third row is missing.
static GAP: [Row; 4] = [
    (
        (24, 24),
        (24, 72),
        Asked::Check((24, 24), (24, 72)),
        Wanted::Cut(0, 16, 1),
    ),
    ((24, 24), (24, 72), Asked::Follow(0, 0), Wanted::CutAt(1)),
    (
        (24, 40),
        (24, 72),
        Asked::Check((24, 40), (24, 72)),
        Wanted::NoStart,
    ),
    (
        (24, 24),
        (24, 40),
        Asked::Follow(9, 5),
        Wanted::At(1, (24, 33), 1),
    ),
];

/// Round the end of a wall: down to (48, 96), past it to (64, 96), and up again.
static WALL: [Row; 5] = [
    (
        (40, 24),
        (72, 24),
        Asked::Check((40, 24), (72, 24)),
        Wanted::Whole(0, 193, 10),
    ),
    (
        (40, 24),
        (72, 24),
        Asked::Follow(0, 0),
        Wanted::At(0, (40, 24), 0),
    ),
    (
        (40, 24),
        (72, 24),
        Asked::Follow(80, 0),
        Wanted::At(10, (56, 96), 5),
    ),
    (
        (40, 24),
        (72, 24),
        Asked::Follow(100, 3),
        Wanted::At(9, (65, 84), 6),
    ),
    (
        (40, 24),
        (72, 24),
        Asked::Follow(160, 0),
        Wanted::At(1, (72, 24), 10),
    ),
];

pub(crate) fn filter() -> Filter
    ensures { result.costs ≡ None }
{
    Filter {
        areas: u64::MAX,
        costs: None,
    }
}

/// The way from one place to another, if there is one.
pub(crate) fn way(
    alloc: Global,
    mesh: &Mesh,
    from: (i32, i32),
    goal: (i32, i32),
) -> Result<Option<PathFound>, AllocError>
    requires sound { IsSound mesh.now }
    requires setting { IsSetting mesh.now.setting }
{
    let query = PathQuery {
        from: point(from),
        from_y: 10,
        goal: point(goal),
        goal_y: 10,
        filter: filter(),
        most_cost: u64::MAX,
        most_polygons: usize::MAX,
        partial: None,
    };
    if !can_plan(&query) {
        return Ok(None);
    }
    match plan(alloc, mesh, &query)? {
        PlanAnswer::Whole { way, .. } => Ok(Some(way)),
        _ => Ok(None),
    }
}

fn can_check(path: &KeptPath) -> bool
    requires { path.now.filter.costs ≡ None }
    ensures { IsTrue result → CanCheck path.now }
{
    has_coordinates(path.from) && has_coordinates(path.goal) && path.links.len() < 4294967295
}

fn told_check(answer: &CheckAnswer) -> Wanted {
    match answer {
        CheckAnswer::Whole {
            first,
            cost,
            links,
            ..
        } => Wanted::Whole(first.index, *cost, links.len()),
        CheckAnswer::Cut { first, cost, links } => Wanted::Cut(first.index, *cost, links.len()),
        CheckAnswer::NoStart => Wanted::NoStart,
    }
}

fn checked(alloc: Global, mesh: &Mesh, way: PathFound, from: (i32, i32), goal: (i32, i32)) -> Wanted
    requires sound { IsSound mesh.now }
    requires setting { IsSetting mesh.now.setting }
{
    let path = KeptPath {
        from: point(from),
        from_y: 10,
        goal: point(goal),
        goal_y: 10,
        filter: filter(),
        first: way.first,
        links: way.links,
    };
    if !can_check(&path) {
        return Wanted::NoMemory;
    }
    match check(alloc, mesh, &path) {
        Ok(answer) => told_check(&answer),
        Err(_) => Wanted::NoMemory,
    }
}

/// Whether turns have coordinates and name portals.
fn are_turns(turns: &[Corner], count: usize) -> bool
    ensures { IsTrue result → All (IsTurnOf count) turns.now }
{
    for turn in turns {
        if !has_coordinates(turn.at) || turn.portal as usize >= count {
            return false;
        }
    }
    true
}

fn can_follow(following: &Following) -> bool
    ensures { IsTrue result → CanFollow following.now }
{
    let count = following.links.len();
    has_coordinates(following.from)
        && has_coordinates(following.goal)
        && are_turns(following.turns.as_slice(), count)
        && count < 4294967295
        && following.link <= count
}

fn told_follow(answer: &FollowAnswer) -> Wanted {
    match answer {
        FollowAnswer::Walking {
            at,
            point,
            link,
            ..
        } => Wanted::At(at.index, (point.x, point.z), *link),
        FollowAnswer::Cut { link } => Wanted::CutAt(*link),
        FollowAnswer::NoStart => Wanted::NoStart,
    }
}

/// The line of a walker: where it begins and ends.
type Line = ((i32, i32), (i32, i32));

fn followed(alloc: Global, mesh: &Mesh, way: PathFound, line: Line, far: u32, ahead: u32) -> Wanted
    requires { IsSound mesh.now }
{
    let following = Following {
        first: way.first,
        from: point(line.0),
        goal: point(line.1),
        links: way.links,
        turns: way.turns,
        far,
        link: 0,
        ahead,
    };
    if !can_follow(&following) {
        return Wanted::NoMemory;
    }
    match follow(alloc, mesh, &following) {
        Ok(answer) => told_follow(&answer),
        Err(_) => Wanted::NoMemory,
    }
}

/// What is answered of a way that was planned in another mesh.
fn answered(alloc: Global, old: &Mesh, mesh: &Mesh, row: Row) -> Result<Wanted, AllocError>
    requires old { IsSound old.now }
    requires old_setting { IsSetting old.now.setting }
    requires sound { IsSound mesh.now }
    requires setting { IsSetting mesh.now.setting }
{
    let (from, goal, asked, _wanted) = row;
    match way(alloc, old, from, goal)? {
        Some(way) => Ok(match asked {
            Asked::Check(at, goal) => checked(alloc, mesh, way, at, goal),
            Asked::Follow(far, ahead) => followed(alloc, mesh, way, (from, goal), far, ahead),
            Asked::FollowFrom(at, far) => followed(alloc, mesh, way, (at, goal), far, 0),
        }),
        None => Ok(Wanted::NoMemory),
    }
}

fn wrong_row(alloc: Global, old: &Mesh, mesh: &Mesh, rows: &[Row]) -> Option<usize>
    requires old { IsSound old.now }
    requires old_setting { IsSetting old.now.setting }
    requires sound { IsSound mesh.now }
    requires setting { IsSetting mesh.now.setting }
{
    for row in 0..rows.len() {
        match answered(alloc, old, mesh, rows[row]) {
            Ok(told) => {
                if told != rows[row].3 {
                    return Some(row);
                }
            }
            Err(_) => return Some(99),
        }
    }
    None
}

/// A row that is wrong, of paths that were planned in one level and are asked about in another; 99 where there is no memory.
fn wrong<L: Ledger>(
    alloc: Global,
    levels: (FlatLevel, FlatLevel),
    rows: &[Row],
    blank: Blank,
) -> Option<usize>
    requires name { blank.name ≡ L.name }
    requires parts { blank.parts ≡ L.parts }
    requires some { 0 < blank.parts }
{
    let mut steps = Steps::<L>::new(blank);
    let Ok(old) = mesh(alloc, levels.0, &mut steps) else {
        return Some(99);
    };
    match mesh(alloc, levels.1, &mut steps) {
        Ok(new) => wrong_row(alloc, &old, &new, rows),
        Err(_) => Some(99),
    }
}

#[test]
fn keeps_paths(rt: HostRuntime) {
    let found = wrong::<Brand>(rt.alloc(), (open(), open()), &SAME, Blank::new(1));
    all_hold(&rt, "kept paths in the same mesh", found);
    let found = wrong::<Brand>(rt.alloc(), (open(), split()), &SPLIT, Blank::new(1));
    all_hold(&rt, "kept paths where numbers rise", found);
    let found = wrong::<Brand>(rt.alloc(), (open(), gap()), &GAP, Blank::new(1));
    all_hold(&rt, "kept paths into a gap", found);
    let found = wrong::<Brand>(rt.alloc(), (wall(), wall()), &WALL, Blank::new(1));
    all_hold(&rt, "kept paths round a wall", found);
}
