//! The question for a shortest line, and its answers.

ghost use Rattle.std.specs.Prelude.{◌<◌, ◌^◌, IfOk, IfSome, IfNone};
ghost use Rattle.nav_ground.specs.Limits.{IsSetting};
ghost use Rattle.mesh_types.specs.Located.{IsLocated};
ghost use Rattle.mesh_types.specs.declared.mesh.Mesh.{Mesh};
ghost use Rattle.mesh_types.specs.Soundness.{IsSound};
ghost use Rattle.shortest_line.specs.Lines.{CanAskLine, IsLineFound, IsRightLine};
ghost use Rattle.shortest_line.specs.declared.query.LineQuery.{LineQuery};
ghost use Rattle.corridor_search.specs.MeshGraphs.{IsApart};
ghost use Rattle.shortest_line.specs.Walks.{IsShortWalk};

use crate::lengths::{down, is_close, measured};
use crate::search::SoughtLine;
use crate::walks::short_walk;
use mesh_locate::locate;
use mesh_types::{Asked, Corner, Link, Mesh, PolyRef};
use nav_base::Point;
use nav_lists::Items;
use path_queries::turns;
use std::alloc::{AllocError, Global};

/// The question for a shortest line from one place to another. Points are in sixteenths of a cell and heights in height units. Areas play no
/// part: a line is as long as it is, whatever they cost.
#[derive(Clone, Copy, PartialEq, Eq)]
pub struct LineQuery {
    pub from: Point,
    pub from_y: u32,
    pub goal: Point,
    pub goal_y: u32,
    /// The search ends after so many of its records, of about 100 bytes each, and the line that was found by then is told.
    pub most: u32,
    /// Whether the search passes over ends of portals that the mesh surrounds: it is several times as fast.
    pub quick: bool,
}

/// A taut line with its walk. It is not longer than `upper`, and no line over the links of the mesh is shorter than `lower`, both in 4096ths of a
/// sixteenth of a cell.
#[derive(PartialEq, Eq, Drop)]
pub struct LineFound {
    /// The polygons that the start and the goal are located in.
    pub first: PolyRef,
    pub last: PolyRef,
    /// The links of the walk, in order; none where the line ends in the polygon in which it begins.
    pub links: Items<Link>,
    /// The corners, in sixteenths of a cell; each names the portal of a link by the link's place, from 0.
    pub turns: Items<Corner>,
    pub upper: u64,
    pub lower: u64,
}

/// What the question for a shortest line is answered.
#[derive(PartialEq, Eq, Drop)]
pub enum ShortestAnswer {
    /// No line is shorter by more than a 256th of a cell, or by more than one part in 16384.
    Shortest(LineFound),
    /// A line that may be longer than the shortest: by no more than `upper` less `lower`.
    Line(LineFound),
    /// No polygon holds the place in which the line is to begin.
    NoStart,
    /// No polygon holds the goal.
    NoGoal,
    /// The places are held, and no walk over links joins their polygons.
    NoPath,
}

/// A right answer to the question for a shortest line. Only memory can be refused.
pub fn shortest(alloc: Global, mesh: &Mesh, query: &LineQuery) -> Result<ShortestAnswer, AllocError>
    requires sound { IsSound mesh.now }
    requires setting { IsSetting mesh.now.setting }
    requires query { CanAskLine query.now }
    ensures right { IfOk result (λ answer. IsRightLine mesh.now query.now answer) }
{
    let Some(first) = locate(mesh, query.from, query.from_y) else {
        return Ok(ShortestAnswer::NoStart);
    };
    let Some(last) = locate(mesh, query.goal, query.goal_y) else {
        return Ok(ShortestAnswer::NoGoal);
    };
    let Some(links) = walk_between(alloc, mesh, query, first, last)? else {
        return Ok(ShortestAnswer::NoPath);
    };
    let found = line_over(alloc, mesh, query, first, last, links)?;
    Ok(answer_of(found))
}

/// A walk between two located polygons over which a short line leads; none exactly where no walk joins them.
fn walk_between(
    alloc: Global,
    mesh: &Mesh,
    query: &LineQuery,
    first: PolyRef,
    last: PolyRef,
) -> Result<Option<Items<Link>>, AllocError>
    requires sound { IsSound mesh.now }
    requires setting { IsSetting mesh.now.setting }
    requires start { IsLocated mesh.now query.now.from query.now.from_y first }
    requires goal { IsLocated mesh.now query.now.goal query.now.goal_y last }
    ensures found { IfOk result (λ answer. IfSome answer (λ links. IsShortWalk mesh.now first links last)) }
    ensures none { IfOk result (λ answer. IfNone answer (IsApart mesh.now first last)) }
{
    if first == last {
        return Ok(Some(Items::new(alloc)));
    }
    let sought = SoughtLine {
        mesh,
        first,
        last,
        from: query.from,
        goal: query.goal,
        quick: query.quick,
    };
    short_walk(alloc, sought, query.most)
}

/// The taut line over the links of a walk, with its measure and the straight distance.
fn line_over(
    alloc: Global,
    mesh: &Mesh,
    query: &LineQuery,
    first: PolyRef,
    last: PolyRef,
    links: Items<Link>,
) -> Result<LineFound, AllocError>
    requires sound { IsSound mesh.now }
    requires query { CanAskLine query.now }
    requires start { IsLocated mesh.now query.now.from query.now.from_y first }
    requires goal { IsLocated mesh.now query.now.goal query.now.goal_y last }
    requires walk { IsShortWalk mesh.now first links last }
    ensures found { IfOk result (λ found. IsLineFound mesh.now query.now found) }
    ensures low { IfOk result (λ found. found.lower < 2 ^ 30) }
{
    let turns = turns(alloc, query.from, links.as_slice(), query.goal)?;
    let upper = measured(query.from, turns.as_slice(), query.goal);
    let lower = down(query.from, query.goal);
    Ok(LineFound {
        first,
        last,
        links,
        turns,
        upper,
        lower,
    })
}

/// What a line that was found is called.
fn answer_of(found: LineFound) -> ShortestAnswer
    requires { found.lower < 2 ^ 30 }
    ensures { (mesh : Mesh) (query : LineQuery) → IsLineFound mesh query found → IsRightLine mesh query result }
{
    if is_close(found.upper, found.lower) {
        ShortestAnswer::Shortest(found)
    } else {
        ShortestAnswer::Line(found)
    }
}

impl Asked for LineQuery {
    ghost use Rattle.shortest_line.specs.Lines.{CanAskLine, IsRightLine};

    type Answer = ShortestAnswer;

    ghost can_ask = { λ query. CanAskLine query };

    ghost is_right = { λ query mesh answer. IsRightLine mesh query answer };

    fn ask(&self, alloc: Global, mesh: &Mesh) -> Result<ShortestAnswer, AllocError> {
        shortest(alloc, mesh, self)
    }
}
