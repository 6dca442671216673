//! The filter by which a host asks.

ghost use Rattle.std.specs.Prelude.{◌≡◌, IfNone, IfSome};
ghost use Rattle.path_queries.specs.Filters.{IsFilter};
ghost use Rattle.way_handle.specs.Filtering.{filter_asked};

use nav_handle::table_of;
use path_queries::Filter;

/// The filter of a set of areas and of costs, one an area; without any the costs are those of the mesh. There is none exactly where the costs
/// are neither.
pub fn filter_of(areas: u64, costs: &[u32]) -> Option<Filter>
    ensures filter { IfSome result (λ filter. filter ≡ filter_asked areas costs.now) }
    ensures rules { IfSome result IsFilter }
    ensures none { IfNone result (IsFilter (filter_asked areas costs.now) → ⊥) }
{
    if costs.is_empty() {
        return Some(Filter { areas, costs: None });
    }
    match table_of(costs) {
        Some(table) => Some(Filter {
            areas,
            costs: Some(table),
        }),
        None => None,
    }
}
