//! Answers to questions of a mesh. Questions that carry what is asked and how it is answered. Corridors: cheapest walks from one polygon to
//! another. Corners of a line through portals. What walkers are answered. Jumps, and walks over links and jumps.

use crate::links::{Link, PolyRef};
use crate::mesh::Mesh;
use nav_base::{FloorAt, Point};
use nav_lists::{Duplicate, Items};
use std::alloc::{AllocError, Global};

/// How a straight walk from a place toward a point ends.
#[derive(Clone, Copy, PartialEq, Eq)]
pub enum RayAnswer {
    /// In the polygon that holds the point.
    Reached(PolyRef),
    /// At an edge over which no link leads on: the edge's beginning and end, in sixteenths of a cell, and which part of the way from the
    /// walk's beginning to the point leads up to it, as the fraction num / den, which is not reduced.
    Wall {
        a: Point,
        b: Point,
        num: i64,
        den: i64,
    },
}

/// A path: the polygon in which it begins, what its corridor costs, the links of the corridor in order, and where it turns.
#[derive(PartialEq, Eq, Drop)]
pub struct PathFound {
    /// The polygon that the beginning is located in.
    pub first: PolyRef,
    /// The sum of the weights of the links; below 2^45.
    pub cost: u64,
    /// The links of the corridor, in order; none where the path ends in the polygon in which it begins.
    pub links: Items<Link>,
    /// The corners, in sixteenths of a cell; each names the portal of a link by the link's place, from 0.
    pub turns: Items<Corner>,
}

/// What a question of a mesh is answered.
#[derive(PartialEq, Eq, Drop)]
pub enum Answer {
    /// The floors of the free cells of a column, from the bottom up.
    Floors(Items<FloorAt>),
    Path(PathFound),
    /// No polygon holds the place in which the path or the walk is to begin.
    NoStart,
    /// No polygon holds the place in which the path is to end.
    NoGoal,
    /// The places are held, and no walk over links joins their polygons.
    NoPath,
    /// The walk ends in this polygon, which holds the point.
    Reached(PolyRef),
    /// The walk ends at an edge, as in `RayAnswer::Wall`.
    Wall {
        a: Point,
        b: Point,
        num: i64,
        den: i64,
    },
}

impl Duplicate for PathFound {
    fn duplicate(&self, alloc: Global) -> Result<Self, AllocError> {
        Ok(PathFound {
            first: self.first,
            cost: self.cost,
            links: self.links.duplicate(alloc)?,
            turns: self.turns.duplicate(alloc)?,
        })
    }
}

/// A question of a mesh: what it is answered with, and which answers are right.
pub trait Asked {
    ghost use Rattle.std.specs.Prelude.{IfOk};
    ghost use Rattle.mesh_types.specs.declared.mesh.Mesh.{Mesh};
    ghost use Rattle.mesh_types.specs.Soundness.{IsSound};
    ghost use Rattle.nav_ground.specs.Limits.{IsSetting};

    type Answer: Drop;

    /// Whether it can be answered: a test of the question alone.
    ghost can_ask: { Self → Type 0 };

    /// Which answers are right in a mesh.
    ghost is_right: { Self → Mesh → Self.Answer → Type 0 };

    /// A right answer. Only memory can be refused.
    fn ask(&self, alloc: Global, mesh: &Mesh) -> Result<Self::Answer, AllocError>
        requires sound { IsSound mesh.now }
        requires setting { IsSetting mesh.now.setting }
        requires question { can_ask self.now }
        ensures { IfOk result (λ answer. is_right self.now mesh.now answer) };
}

/// A walk from one polygon to another than which no other walk costs less: its cost, and its links in order.
#[derive(Drop)]
pub struct Corridor {
    /// The sum of the weights of the links.
    pub cost: u64,
    /// Each link leaves the polygon that the one before it enters.
    pub links: Items<Link>,
}

impl Duplicate for Corridor {
    fn duplicate(&self, alloc: Global) -> Result<Self, AllocError> {
        Ok(Corridor {
            cost: self.cost,
            links: self.links.duplicate(alloc)?,
        })
    }
}

/// An end of a portal, seen by one who goes through: the one on the left hand, or the one on the right hand.
#[derive(Clone, Copy, PartialEq, Eq)]
pub enum Side {
    L,
    R,
}

/// Where a line through portals may turn: an end of a portal, in sixteenths of a cell, with its side and the portal's place from 0.
#[derive(Clone, Copy, PartialEq, Eq)]
pub struct Corner {
    /// In sixteenths of a cell.
    pub at: Point,
    /// Which end of the portal it is.
    pub side: Side,
    /// The portal's place among the portals of the line, from 0.
    pub portal: u32,
}

/// Where a walker stands that is sent or marches, or why it has no way.
#[derive(PartialEq, Eq, Drop)]
pub enum WalkAnswer {
    /// It stands in a polygon, at a point in sixteenths of a cell, at the polygon's least floor, in units of height, and these links lead
    /// from there to its goal's polygon, at this cost, which is below 2^45.
    Walking {
        at: PolyRef,
        point: Point,
        y: u32,
        cost: u64,
        links: Items<Link>,
    },
    /// No polygon holds the place where it is to begin.
    NoStart,
    /// No polygon holds its goal.
    NoGoal,
    /// The places are held, and no walk over links joins their polygons.
    NoPath,
}

/// A one-way jump between two places of a level, as down a ledge or up a ladder: from a point at a height to another point at a height.
/// Points are in sixteenths of a cell, heights in height units, and the cost is in the unit of what links cost.
#[derive(Clone, Copy, PartialEq, Eq)]
pub struct Jump {
    pub from: Point,
    pub from_y: u32,
    pub to: Point,
    pub to_y: u32,
    pub cost: u32,
}

/// A step of a walk over links and jumps.
#[derive(Clone, Copy, PartialEq, Eq)]
pub enum HopStep {
    Link(Link),
    /// A jump, by its number from 0, into a polygon.
    Jump { number: u32, to: PolyRef },
}

/// A walk over links and jumps: the polygon in which it begins, what it costs, its steps in order, and where it turns.
#[derive(PartialEq, Eq, Drop)]
pub struct HopFound {
    /// The polygon that the beginning is located in.
    pub first: PolyRef,
    /// The sum of the weights of the links and the costs of the jumps.
    pub cost: u64,
    /// Each step leaves the polygon that the one before it enters; none where the walk ends in the polygon in which it begins.
    pub steps: Items<HopStep>,
    /// Each turn names the portal of a link by the link's place among all steps, from 0.
    pub turns: Items<Corner>,
}

/// What the question for a walk over links and jumps is answered.
#[derive(PartialEq, Eq, Drop)]
pub enum HopAnswer {
    Found(HopFound),
    /// No polygon holds the place in which the walk is to begin.
    NoStart,
    /// No polygon holds the place in which it is to end.
    NoGoal,
    /// The places are held, and no walk over links and jumps joins their polygons.
    NoPath,
}
