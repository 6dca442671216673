//! What links cost through a filter.

ghost use Rattle.std.specs.Prelude.{◌≡◌, ◌<◌, All, length};
ghost use Rattle.nav_ground.specs.Limits.{IsSetting};
ghost use Rattle.mesh_types.specs.Corridors.{IsLinkOf, cost_of, weight_of};
ghost use Rattle.mesh_types.specs.Soundness.{IsSound};
ghost use Rattle.corridor_search.specs.Estimates.{extent_at};
ghost use Rattle.path_queries.specs.Filters.{AreCosts, IsFilter, priced, with_costs};

use corridor_search::{extent_at, middle};
use mesh_types::{Extent, Link, Mesh};
use nav_ground::AREAS;
use path_queries::{Filter, step_cost};

/// What links cost together, as a filter prices the mesh.
pub(crate) fn cost(mesh: &Mesh, filter: &Filter, links: &[Link]) -> u64
    requires sound { IsSound mesh.now }
    requires setting { IsSetting mesh.now.setting }
    requires filter { IsFilter filter.now }
    requires links { All (IsLinkOf mesh.now) links.now }
    requires few { length links.now < 4294967295 }
    ensures { result ≡ cost_of (priced mesh.now filter.now) links.now }
{
    let costs = filter.costs.unwrap_or(mesh.setting.costs);
    cost_at(mesh, &costs, links)
}

/// What they cost together at given costs of areas.
fn cost_at(mesh: &Mesh, costs: &[u32; AREAS], links: &[Link]) -> u64
    requires sound { IsSound mesh.now }
    requires setting { IsSetting mesh.now.setting }
    requires costs { AreCosts costs.now }
    requires links { All (IsLinkOf mesh.now) links.now }
    requires few { length links.now < 4294967295 }
    ensures { result ≡ cost_of (with_costs costs.now mesh.now) links.now }
{
    let mut cost = 0;
    for link in links {
        cost += weight(mesh, costs, link);
    }
    cost
}

/// What a link of a mesh costs.
fn weight(mesh: &Mesh, costs: &[u32; AREAS], link: &Link) -> u64
    requires sound { IsSound mesh.now }
    requires setting { IsSetting mesh.now.setting }
    requires costs { AreCosts costs.now }
    requires link { IsLinkOf mesh.now link.now }
    ensures value { result ≡ weight_of (with_costs costs.now mesh.now) link.now }
{
    let left = extent_at(mesh, link.from);
    let entered = extent_at(mesh, link.to);
    step_over(mesh, costs, left, link, entered)
}

/// What a step over a link of a mesh costs, by the extents of the two polygons: the distance of their middles, in sixteenths of a cell and rounded
/// up, at least 1, times the cost of the area that is entered.
pub(crate) fn step_over(
    mesh: &Mesh,
    costs: &[u32; AREAS],
    left: Extent,
    link: &Link,
    entered: Extent,
) -> u64
    requires sound { IsSound mesh.now }
    requires setting { IsSetting mesh.now.setting }
    requires costs { AreCosts costs.now }
    requires link { IsLinkOf mesh.now link.now }
    requires left { left ≡ extent_at mesh.now link.now.from }
    requires entered { entered ≡ extent_at mesh.now link.now.to }
    ensures { result ≡ weight_of (with_costs costs.now mesh.now) link.now }
{
    let _ = mesh;
    let _ = link;
    step_cost(costs, middle(left), entered)
}
