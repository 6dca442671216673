//! A walker over an eye of a pair: it goes to its goal, and it is stopped by what is published. What is wanted was worked out by hand.
//!
//! The level has 4 by 4 cells in one tile, as strips along x: the polygon i covers the cells (x, i + 1). The middles of two polygons beside each
//! other are 16 sixteenths apart, and an area costs 1.

ghost use Rattle.std.specs.Arc.{arc_value};
ghost use Rattle.nav_version.specs.Pairs.{IsPatch};

use crate::rows::hold;
use crate::versions::{covering, level, opening};
use agent_walks::{WalkAnswer, march, send};
use nav_base::Point;
use nav_version::{Eye, Patch, Press, pair};
use std::alloc::{AllocError, Global};
use std::marker::Brand;
use std::sync::Wait;
use std::sync::ledger::Blank;

/// What a walker is answered: the version's length, and, where it walks, its polygon's place, its point, what its way costs and how many links
/// that has. The place is 99 where there is no way, and 98 where it has no start or no goal.
#[derive(Clone, Copy, PartialEq)]
struct Told {
    k: u32,
    index: u32,
    point: Point,
    cost: u64,
    links: usize,
}

const START: Point = Point { x: 24, z: 24 };

const GOAL: Point = Point { x: 72, z: 72 };

fn walking(k: u32, index: u32, point: Point, cost: u64, links: usize) -> Told {
    Told {
        k,
        index,
        point,
        cost,
        links,
    }
}

fn no_walk(k: u32, index: u32) -> Told {
    walking(k, index, Point { x: 0, z: 0 }, 0, 0)
}

fn told_of(k: u32, answer: &WalkAnswer) -> Told {
    match answer {
        WalkAnswer::Walking {
            at,
            point,
            y: _,
            cost,
            links,
        } => walking(k, at.index, *point, *cost, links.len()),
        WalkAnswer::NoPath => no_walk(k, 99),
        WalkAnswer::NoStart | WalkAnswer::NoGoal => no_walk(k, 98),
    }
}

/// What it is answered where it is sent, and in two marches, of 16 and of 100.
fn walks(eye: &mut Eye, alloc: Global) -> Result<[Told; 3], AllocError> {
    let (k, walker, answer) = send(alloc, eye, START, 10, GOAL, 10)?;
    let first = told_of(k, &answer);
    let Some(walker) = walker else {
        return Ok([first; 3]);
    };
    let (k, walker, answer) = march(alloc, walker, eye, 16)?;
    let second = told_of(k, &answer);
    let Some(walker) = walker else {
        return Ok([first, second, second]);
    };
    let (k, _walker, answer) = march(alloc, walker, eye, 100)?;
    Ok([first, second, told_of(k, &answer)])
}

/// What it is answered where it is sent, and in a march once a patch is published.
fn stopped<R: Wait>(
    rt: &R,
    alloc: Global,
    press: &mut Press,
    eye: &mut Eye,
    patch: Patch,
) -> Result<[Told; 2], AllocError>
    requires { IsPatch press.old.ground press.old.entries patch }
{
    let (k, walker, answer) = send(alloc, eye, START, 10, GOAL, 10)?;
    let first = told_of(k, &answer);
    let Some(walker) = walker else {
        return Ok([first; 2]);
    };
    if press.publish(rt, alloc, patch).is_err() {
        return Err(AllocError);
    }
    let (k, _walker, answer) = march(alloc, walker, eye, 16)?;
    Ok([first, told_of(k, &answer)])
}

/// Both, of a press with an eye for each, and the press is ended.
fn watched<R: Wait>(
    rt: &R,
    alloc: Global,
    press: Press,
    eyes: Vec<Eye>,
    patch: Patch,
) -> (bool, bool)
    requires { IsPatch press.ground press.entries patch }
{
    let mut press = press;
    let mut eyes = eyes;
    let goes = match eyes.pop() {
        Some(mut eye) => match walks(&mut eye, alloc) {
            Ok(all) => {
                all == [
                    walking(0, 0, START, 48, 3),
                    walking(0, 1, Point { x: 40, z: 40 }, 32, 2),
                    walking(0, 3, GOAL, 0, 0),
                ]
            }
            Err(_) => false,
        },
        None => false,
    };
    let stops = match eyes.pop() {
        Some(mut eye) => match stopped(rt, alloc, &mut press, &mut eye, patch) {
            Ok(all) => all == [walking(0, 0, START, 48, 3), no_walk(1, 99)],
            Err(_) => false,
        },
        None => false,
    };
    press.end(rt);
    (goes, stops)
}

#[test]
fn a_walker_goes_and_is_stopped(rt: HostRuntime) -> Result<(), AllocError> {
    let alloc = rt.alloc();
    let version = opening::<Brand>(alloc, level(alloc)?, Blank::new(1))?;
    let patch = covering::<Brand>(alloc, &version, Blank::new(1))?;
    let (press, eyes) = pair(&rt, alloc, version, 2)?;
    let (goes, stops) = watched(&rt, alloc, press, eyes, patch);
    hold(&rt, "a walker's way", goes);
    hold(&rt, "a walker that is stopped", stops);
    Ok(())
}
