//! The nearest of many goals, and where a walker on a kept path is, asked of what a view shows.

ghost use Rattle.std.specs.Prelude.{◌≡◌};
ghost use Rattle.nav_handle.specs.Answers.{EndsSo, IsAskedBy, seen_in};
ghost use Rattle.nav_handle.specs.Statuses as status;
ghost use Rattle.path_follow.specs.Following.{CanFollow, IsFollowed};
ghost use Rattle.path_queries.specs.NearestGoals.{CanAskNearest, IsRightNearest};
ghost use Rattle.way_handle.specs.declared.followers.NavdFollower.{NavdFollower};
ghost use Rattle.way_handle.specs.Followers.{follow_asked, follow_ends, told_follow};
ghost use Rattle.way_handle.specs.Nearing.{NearestRoom, nearest_asked, nearest_ends, told_nearest};

use nav_handle::{NavdLink, NavdTurn, NavdView};
use std::alloc::Global;
use way_handle::{NavdFollower, NavdGoal, NavdNearest};

/// The nearest of many goals in the mesh that a view shows, through a filter.
#[unsafe(no_mangle)]
pub extern "C" fn navd_view_nearest_goal(
    alloc: Global,
    view: &mut NavdView,
    nearest: &mut NavdNearest,
    costs: &[u32],
    goals: &[NavdGoal],
    links: &mut [NavdLink],
) -> u32
    ensures asked { CanAskNearest (nearest_asked nearest.old costs.now goals.now)
        → IsAskedBy (IsRightNearest (nearest_asked nearest.old costs.now goals.now)) nearest_ends told_nearest (seen_in view.old.view)
        (nearest.old, links.old) (nearest.new, links.new) result }
    ensures refused { (CanAskNearest (nearest_asked nearest.old costs.now goals.now) → ⊥)
        → EndsSo {Room = NearestRoom} status.out_of_range (nearest.old, links.old) (nearest.new, links.new) result }
    ensures same { view.new.view ≡ view.old.view }
{
    way_handle::nearest_goal(alloc, view, nearest, costs, goals, links)
}

/// Where a walker on a kept path is in the mesh that a view shows.
#[unsafe(no_mangle)]
pub extern "C" fn navd_view_follow_path(
    alloc: Global,
    view: &mut NavdView,
    follower: &mut NavdFollower,
    links: &[NavdLink],
    turns: &[NavdTurn],
) -> u32
    ensures asked { CanFollow (follow_asked follower.old links.now turns.now)
        → IsAskedBy (IsFollowed (follow_asked follower.old links.now turns.now)) follow_ends told_follow (seen_in view.old.view)
        follower.old follower.new result }
    ensures refused { (CanFollow (follow_asked follower.old links.now turns.now) → ⊥)
        → EndsSo {Room = NavdFollower} status.out_of_range follower.old follower.new result }
    ensures same { view.new.view ≡ view.old.view }
{
    way_handle::follow(alloc, view, follower, links, turns)
}
