//! Further questions about ways, through a filter, asked of what a view shows.

ghost use Rattle.std.specs.Prelude.{◌≡◌};
ghost use Rattle.kept_paths.specs.KeptPaths.{CanCheck, IsChecked};
ghost use Rattle.kept_paths.specs.Repairs.{IsRightRepair};
ghost use Rattle.path_queries.specs.Plans.{IsRightPlan};
ghost use Rattle.nav_handle.specs.Answers.{EndsSo, IsAskedBy, seen_in};
ghost use Rattle.nav_handle.specs.Statuses as status;
ghost use Rattle.way_handle.specs.Checking.{CheckRoom, check_asked, check_ends, told_check};
ghost use Rattle.way_handle.specs.Flooding.{CanAskFlood, FloodRoom, IsRightRound, flood_asked, flood_ends, told_flood};
ghost use Rattle.way_handle.specs.Planning.{CanAskPlan, PlanRoom, plan_asked, plan_ends, told_plan};
ghost use Rattle.way_handle.specs.Repairing.{CanAskRepair, RepairRoom, repair_asked, repair_ends, told_repair};

use nav_handle::{NavdLink, NavdTurn, NavdView};
use std::alloc::Global;
use way_handle::{NavdFlood, NavdKept, NavdPlan, NavdReached, NavdRepair};

/// A cheapest walk through a filter in the mesh that a view shows, or to the nearest place where that will do, and a taut line through its
/// portals.
#[unsafe(no_mangle)]
pub extern "C" fn navd_view_plan(
    alloc: Global,
    view: &mut NavdView,
    plan: &mut NavdPlan,
    costs: &[u32],
    links: &mut [NavdLink],
    turns: &mut [NavdTurn],
) -> u32
    ensures asked { CanAskPlan plan.old costs.now → IsAskedBy (IsRightPlan (plan_asked plan.old costs.now)) plan_ends told_plan
        (seen_in view.old.view) (plan.old, links.old, turns.old) (plan.new, links.new, turns.new) result }
    ensures refused { (CanAskPlan plan.old costs.now → ⊥)
        → EndsSo {Room = PlanRoom} status.out_of_range (plan.old, links.old, turns.old) (plan.new, links.new, turns.new) result }
    ensures same { view.new.view ≡ view.old.view }
{
    way_handle::plan(alloc, view, plan, costs, links, turns)
}

/// Whether a kept path still leads on in the mesh that a view shows. Its links are read from `links`, and those as which they lead on now are laid
/// over the first of them.
#[unsafe(no_mangle)]
pub extern "C" fn navd_view_check_path(
    alloc: Global,
    view: &mut NavdView,
    kept: &mut NavdKept,
    costs: &[u32],
    links: &mut [NavdLink],
    turns: &mut [NavdTurn],
) -> u32
    ensures asked { CanCheck (check_asked kept.old costs.now links.old) → IsAskedBy (IsChecked (check_asked kept.old costs.now links.old))
        check_ends told_check (seen_in view.old.view) (kept.old, links.old, turns.old) (kept.new, links.new, turns.new) result }
    ensures refused { (CanCheck (check_asked kept.old costs.now links.old) → ⊥)
        → EndsSo {Room = CheckRoom} status.out_of_range (kept.old, links.old, turns.old) (kept.new, links.new, turns.new) result }
    ensures same { view.new.view ≡ view.old.view }
{
    way_handle::check(alloc, view, kept, costs, links, turns)
}

/// A kept path made whole in the mesh that a view shows. Its links are the first ones of `links`, and the new ones are laid over them, if there is
/// room for all of them and for the turns.
#[unsafe(no_mangle)]
pub extern "C" fn navd_view_repair_path(
    alloc: Global,
    view: &mut NavdView,
    repair: &mut NavdRepair,
    costs: &[u32],
    links: &mut [NavdLink],
    turns: &mut [NavdTurn],
) -> u32
    ensures asked { CanAskRepair repair.old costs.now links.old → IsAskedBy (IsRightRepair (repair_asked repair.old costs.now links.old))
        (repair_ends links.old turns.old) told_repair (seen_in view.old.view) (repair.old, links.old, turns.old)
        (repair.new, links.new, turns.new) result }
    ensures refused { (CanAskRepair repair.old costs.now links.old → ⊥)
        → EndsSo {Room = RepairRoom} status.out_of_range (repair.old, links.old, turns.old) (repair.new, links.new, turns.new) result }
    ensures same { view.new.view ≡ view.old.view }
{
    way_handle::repair(alloc, view, repair, costs, links, turns)
}

/// The polygons within a cost of a place in the mesh that a view shows, through a filter; or with `back` 1 those from which it is reached within that.
#[unsafe(no_mangle)]
pub extern "C" fn navd_view_flood(
    alloc: Global,
    view: &mut NavdView,
    flood: &mut NavdFlood,
    costs: &[u32],
    reached: &mut [NavdReached],
) -> u32
    ensures asked { CanAskFlood flood.old costs.now → IsAskedBy (IsRightRound flood.old.back (flood_asked flood.old costs.now)) flood_ends told_flood
        (seen_in view.old.view) (flood.old, reached.old) (flood.new, reached.new) result }
    ensures refused { (CanAskFlood flood.old costs.now → ⊥)
        → EndsSo {Room = FloodRoom} status.out_of_range (flood.old, reached.old) (flood.new, reached.new) result }
    ensures same { view.new.view ≡ view.old.view }
{
    way_handle::flood(alloc, view, flood, costs, reached)
}
