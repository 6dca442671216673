//! Searches in a small graph.

ghost use Rattle.std.specs.Prelude.{◌≡◌, ◌<◌, ◌++◌, length, map, slice_index_or, OnOk};
ghost use Rattle.graph_search.specs.Walks.{ends_of};
ghost use Rattle.tests_base.specs.Rows.{vertex_at, pair_arc};

use crate::checks::same;
use graph_search::{Explored, Graph, Limits, Step, Vertex, Walk, cheapest_walk, explore};
use std::alloc::{AllocError, Global};
use std::process::Abort;

/// A graph of ten vertices in one block: for each of them, where its two arcs end and what they weigh.
#[derive(Clone, Copy)]
struct Rows<'a> {
    rows: &'a [[(u32, u32); 2]],
}

/// The vertex at a place.
fn at(place: u32) -> Vertex
    ensures { result ≡ vertex_at place }
{
    Vertex { block: 0, place }
}

impl Graph for Rows<'_> {
    ghost use Rattle.tests_base.specs.Rows.{AreRows, ten_vertices, row_arcs, none_left};

    ghost is_sound = { λ g. AreRows g.rows.now };

    ghost vertices = { λ _. ten_vertices };

    ghost arcs = { λ g. row_arcs g.rows.now };

    ghost estimates = { λ _. none_left };

    ghost heaviest = { λ _. 100 };

    fn push_ends(&self, from: Vertex, ends: &mut Vec<Vertex>) -> Result<(), AllocError> {
        match self.rows.get(from.place as usize) {
            Some(row) => push_row(row, ends),
            None => Ok(()),
        }
    }

    fn weight(&self, step: Step, _to: Vertex) -> u64 {
        match self.rows.get(step.from.place as usize) {
            Some(row) => weight_in(row, step.place),
            None => 0,
        }
    }

    fn estimate(&self, _from: Vertex) -> u64 {
        0
    }
}

/// What the arc at a place weighs.
fn weight_in(row: &[(u32, u32)], place: usize) -> u64
    requires { place < length row.now }
    ensures { result ≡ (slice_index_or row.now place (0, 0)).1 }
{
    u64::from(row[place].1)
}

/// Appends the vertices at which arcs end.
fn push_row(row: &[(u32, u32)], ends: &mut Vec<Vertex>) -> Result<(), AllocError>
    ensures { OnOk result (ends.new.items ≡ ends.old.items ++ ends_of (map pair_arc row.now)) }
{
    for pair in row {
        ends.push(at(pair.0))?;
    }
    Ok(())
}

/// From 0 to 3 by two arcs, and by one that weighs more; two arcs from 3 to 4, of which the second weighs less; a ring of arcs of weight
/// 0 through 4, 5 and 6; loops of weight 0 and of more; and vertices that no arc leads to, 2 and 9 with loops alone, 7 and 8 with an arc
/// to 0. Costs lie below 64 and above, so that what waits is dealt out by two digits.
static ROWS: [[(u32, u32); 2]; 10] = [
    [(3, 90), (1, 40)],
    [(3, 40), (1, 70)],
    [(2, 0), (2, 30)],
    [(4, 20), (4, 10)],
    [(5, 0), (5, 60)],
    [(6, 0), (5, 0)],
    [(4, 0), (6, 0)],
    [(8, 50), (8, 90)],
    [(7, 50), (0, 10)],
    [(9, 0), (9, 0)],
];

/// A cheapest walk from one place to another.
fn cheapest(alloc: Global, from: u32, to: u32) -> Result<Option<Walk>, AllocError>
    requires { from < 10 }
{
    cheapest_walk(alloc, &Rows { rows: &ROWS }, at(from), at(to))
}

/// What a cheapest walk from one place to another costs.
fn cheapest_cost(alloc: Global, from: u32, to: u32) -> Result<Option<u64>, AllocError>
    requires { from < 10 }
{
    match cheapest(alloc, from, to)? {
        Some(walk) => Ok(Some(walk.cost)),
        None => Ok(None),
    }
}

/// Two places, and what a cheapest walk from the first to the second costs.
static COSTS: [(u32, u32, Option<u64>); 11] = [
    (0, 0, Some(0)),
    (0, 1, Some(40)),
    (0, 3, Some(80)),
    (0, 4, Some(90)),
    (0, 6, Some(90)),
    (6, 5, Some(0)),
    (7, 3, Some(140)),
    (8, 6, Some(100)),
    (3, 0, None),
    (0, 7, None),
    (2, 4, None),
];

fn check_costs(
    rt: &impl Abort,
    alloc: Global,
    rows: &[(u32, u32, Option<u64>)],
) -> Result<(), AllocError> {
    for (from, to, wanted) in rows {
        assert!(rt; *from < 10);
        let cost = cheapest_cost(alloc, *from, *to)?;
        same(rt, (*from, *to, cost), (*from, *to, *wanted));
    }
    Ok(())
}

#[test]
fn searches_a_small_graph(rt: HostRuntime) -> Result<(), AllocError> {
    check_costs(&rt, rt.alloc(), &COSTS)
}

/// The steps of a cheapest walk from 0 to 4.
static STEPS: [Step; 3] = [
    Step {
        from: Vertex { block: 0, place: 0 },
        place: 1,
    },
    Step {
        from: Vertex { block: 0, place: 1 },
        place: 0,
    },
    Step {
        from: Vertex { block: 0, place: 3 },
        place: 1,
    },
];

/// Whether there is a walk, and it has these steps.
fn has_steps(walk: &Option<Walk>, steps: &[Step]) -> bool {
    match walk {
        Some(walk) => walk.steps.as_slice() == steps,
        None => false,
    }
}

#[test]
fn gives_the_steps(rt: HostRuntime) -> Result<(), AllocError> {
    let walk = cheapest(rt.alloc(), 0, 4)?;
    assert!(rt; has_steps(&walk, &STEPS));
    Ok(())
}

/// What a search from a place closes within limits, up to one of two places.
fn within(alloc: Global, from: u32, stops: [u32; 2], limits: Limits) -> Result<Explored, AllocError>
    requires { from < 10 }
{
    let stops = [at(stops[0]), at(stops[1])];
    explore(alloc, &Rows { rows: &ROWS }, at(from), &stops, limits)
}

/// Where a search begins, two places at which it stops, the greatest cost and how many vertices; then how many it closed, the last of
/// them with its cost and the place before it, and how far it has seen.
static LIMITED: [(u32, [u32; 2], u64, usize, (usize, u32, u64, usize, u64)); 8] = [
    (0, [9, 9], u64::MAX, usize::MAX, (6, 6, 90, 4, u64::MAX)),
    (0, [9, 9], 79, 9, (2, 1, 40, 0, 80)),
    (0, [9, 9], 80, 9, (3, 3, 80, 1, 90)),
    (0, [9, 9], u64::MAX, 2, (2, 1, 40, 0, 80)),
    (0, [9, 9], 0, 0, (1, 0, 0, 0, 40)),
    (0, [3, 4], u64::MAX, 9, (3, 3, 80, 1, 80)),
    (0, [0, 4], 0, 0, (1, 0, 0, 0, 0)),
    (2, [9, 9], 5, 5, (1, 2, 0, 0, u64::MAX)),
];

/// How many vertices a search closed, the last of them, and how far it has seen.
fn told(explored: &Explored) -> (usize, u32, u64, usize, u64) {
    let count = explored.reached.len();
    match explored.reached.as_slice().last() {
        Some(last) => (count, last.vertex.place, last.cost, last.via, explored.seen),
        None => (0, 0, 0, 0, 0),
    }
}

#[test]
fn searches_within_limits(rt: HostRuntime) -> Result<(), AllocError> {
    for (from, stops, key, count, wanted) in &LIMITED {
        assert!(&rt; *from < 10);
        let limits = Limits {
            key: *key,
            count: *count,
        };
        let explored = within(rt.alloc(), *from, *stops, limits)?;
        same(&rt, told(&explored), *wanted);
    }
    Ok(())
}
