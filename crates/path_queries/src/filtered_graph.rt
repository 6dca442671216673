//! The mesh as a filter lets it be walked, as a graph.

ghost use Rattle.std.specs.Prelude.{◌≡◌, ◌*◌, max, slice_get, slice_index, Some};
ghost use Rattle.nav_base.specs.Point.{IsInField};
ghost use Rattle.nav_base.specs.Distance.{distance_of};
ghost use Rattle.nav_ground.specs.Limits.{IsArea};
ghost use Rattle.mesh_types.specs.Soundness.{IsSound};
ghost use Rattle.corridor_search.specs.MeshGraphs.{IsThere};
ghost use Rattle.corridor_search.specs.Estimates.{IsBox, extent_at, middle_of};
ghost use Rattle.path_queries.specs.Filters.{AreCosts};
ghost use Rattle.path_queries.specs.FilteredGraphs.{leads_on};

use crate::filters::{are_all_open, is_open};
use corridor_search::{distance, middle, polygon_at, push_link_ends};
use graph_search::{Graph, Step, Vertex};
use mesh_types::{Extent, Mesh, PolyRef, TileMesh};
use nav_base::Point;
use nav_ground::AREAS;
use std::alloc::AllocError;

/// A mesh that is searched for allowed walks. A polygon of a closed area may be reached, but no arc leaves it: so a polygon's area is
/// looked at once, when the search comes to it, and not at each arc that enters it.
#[derive(Clone, Copy)]
pub(crate) struct FilteredGraph<'a> {
    pub(crate) mesh: &'a Mesh,
    /// Bit a: polygons of area a may be entered.
    pub(crate) areas: u64,
    /// What a sixteenth of a cell costs in each area, as the search goes by it.
    pub(crate) costs: &'a [u32; AREAS],
    /// The polygon in which walks begin: they leave it also where its area is closed.
    pub(crate) start: PolyRef,
    /// The middle of the goal's polygon, in sixteenths of a cell.
    pub(crate) aim: Point,
    /// No area costs less.
    pub(crate) least: u32,
}

impl Graph for FilteredGraph<'_> {
    ghost use Rattle.corridor_search.specs.MeshGraphs.{vertices_of};
    ghost use Rattle.path_queries.specs.FilteredGraphs.{IsFiltered, filtered_arcs, filtered_estimates};

    ghost is_sound = { λ g. IsFiltered g.mesh.now g.costs.now g.aim g.least };

    ghost vertices = { λ g. vertices_of g.mesh.now };

    ghost arcs = { λ g. filtered_arcs g.mesh.now g.areas g.costs.now g.start };

    ghost estimates = { λ g. filtered_estimates g.mesh.now g.aim g.least };

    /// The middles of two linked polygons are at most 2897 sixteenths apart, at a cost of at most 1000.
    ghost heaviest = { λ _. 2897000 };

    fn push_ends(&self, from: Vertex, ends: &mut Vec<Vertex>) -> Result<(), AllocError> {
        let at = polygon_at(from);
        if leads_on(self.mesh, self.areas, self.start, at) {
            push_link_ends(self.mesh, at, ends)
        } else {
            Ok(())
        }
    }

    fn weight(&self, step: Step, to: Vertex) -> u64 {
        let StepExtents { left, entered } = step_extents(
            self.mesh,
            polygon_at(step.from),
            polygon_at(to),
        );
        step_cost(self.costs, middle(left), entered)
    }

    /// No root is taken where nothing is estimated, as in floods.
    fn estimate(&self, from: Vertex) -> u64 {
        if self.least == 0 {
            return 0;
        }
        let middle = middle(extent_there(self.mesh, polygon_at(from)));
        u64::from(distance(middle, self.aim)) * u64::from(self.least)
    }
}

/// Whether a walk may lead on from a polygon: it is the one in which walks begin, or its area is open.
pub(crate) fn leads_on(mesh: &Mesh, areas: u64, start: PolyRef, at: PolyRef) -> bool
    requires sound { IsSound mesh.now }
    requires there { IsThere mesh.now at }
    ensures { result ≡ leads_on mesh.now areas start at }
{
    if are_all_open(areas) {
        return true;
    }
    at == start || is_open(areas, extent_there(mesh, at).area)
}

/// The extents of the polygons that a step leaves and enters.
#[derive(Clone, Copy)]
pub(crate) struct StepExtents {
    pub(crate) left: Extent,
    pub(crate) entered: Extent,
}

/// The extents of two polygons that are there. Most stand in one tile, which is looked up once then.
pub(crate) fn step_extents(mesh: &Mesh, left: PolyRef, entered: PolyRef) -> StepExtents
    requires left { IsThere mesh.now left }
    requires entered { IsThere mesh.now entered }
    ensures left { result.left ≡ extent_at mesh.now left }
    ensures entered { result.entered ≡ extent_at mesh.now entered }
{
    let tile = tile_there(mesh, left);
    if entered.tile == left.tile {
        return StepExtents {
            left: extent_in(mesh, tile, left),
            entered: extent_in(mesh, tile, entered),
        };
    }
    StepExtents {
        left: extent_in(mesh, tile, left),
        entered: extent_there(mesh, entered),
    }
}

/// The extent of a polygon that is there.
pub(crate) fn extent_there(mesh: &Mesh, at: PolyRef) -> Extent
    requires there { IsThere mesh.now at }
    ensures { result ≡ extent_at mesh.now at }
{
    extent_in(mesh, tile_there(mesh, at), at)
}

/// The tile of a polygon that is there.
fn tile_there(mesh: &Mesh, at: PolyRef) -> &TileMesh
    requires there { IsThere mesh.now at }
    ensures { slice_get mesh.now.tiles at.tile ≡ Some result.now }
{
    mesh.tiles.at(at.tile as usize).get()
}

/// The extent of a polygon of a tile.
fn extent_in(mesh: &Mesh, tile: &TileMesh, at: PolyRef) -> Extent
    requires there { IsThere mesh.now at }
    requires tile { slice_get mesh.now.tiles at.tile ≡ Some tile.now }
    ensures { result ≡ extent_at mesh.now at }
{
    let _ = mesh;
    tile.polys.extent(at.index as usize)
}

/// What a step costs from a point into a polygon with an extent: the distance to its middle, rounded up and at least 1, times the cost of
/// its area.
pub fn step_cost(costs: &[u32; AREAS], from: Point, to: Extent) -> u64
    requires costs { AreCosts costs.now }
    requires from { IsInField from }
    requires to { IsBox to }
    requires area { IsArea to.area }
    ensures { result ≡ max 1 (distance_of from (middle_of to)) * slice_index costs.now to.area }
{
    let length = distance(from, middle(to)).max(1);
    u64::from(length) * u64::from(costs[to.area as usize])
}
