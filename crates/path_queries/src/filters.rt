//! Filters. What a search goes by: costs of areas, and the least of them.

ghost use Rattle.std.specs.Prelude.{◌≡◌, ◌<◌, true};
ghost use Rattle.path_queries.specs.Filters.{AreAllOpen, AreCosts};
ghost use Rattle.path_queries.specs.FilteredGraphs.{AreSearchCosts, IsLeastCost};

use nav_ground::AREAS;

/// The greatest cost of an area.
const MOST_COST: u32 = 1000;

/// Which areas a way may enter, and what each costs.
#[derive(Clone, Copy, PartialEq, Eq)]
pub struct Filter {
    /// Bit a, from 0 for the lowest: polygons of area a may be entered.
    pub areas: u64,
    /// What a sixteenth of a cell costs in each area, 1 to 1000; none where the costs are those of the mesh.
    pub costs: Option<[u32; AREAS]>,
}

/// Whether an area is open.
pub fn is_open(areas: u64, area: u32) -> bool
    requires { area < 64 }
    ensures { result ≡ Rattle.path_queries.specs.Filters.is_open areas area }
{
    (areas >> area) & 1 == 1
}

/// Whether it is seen at once that every area is open: all bits are set.
pub(crate) fn are_all_open(areas: u64) -> bool
    ensures { result ≡ true → AreAllOpen areas }
{
    areas == u64::MAX
}

/// The costs that a search goes by: those of open areas, and the greatest for closed ones. Links lead into polygons of closed areas too,
/// and along those an estimate at the least cost of an open area must not fall by more than the link weighs.
pub(crate) fn search_costs(areas: u64, costs: &[u32; AREAS]) -> [u32; AREAS]
    ensures { AreSearchCosts areas costs.now result }
{
    let mut search = *costs;
    for area in 0..AREAS {
        if !is_open(areas, area as u32) {
            search[area] = MOST_COST;
        }
    }
    search
}

/// The least cost of an open area that can be walked on; the greatest cost where none is open.
pub(crate) fn least_cost(areas: u64, costs: &[u32; AREAS]) -> u32
    ensures { IsLeastCost areas costs.now result }
{
    let mut least = MOST_COST;
    for area in 1..AREAS {
        if is_open(areas, area as u32) {
            least = least.min(costs[area]);
        }
    }
    least
}
