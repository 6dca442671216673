//! The tiles that may differ between two lengths of a history, and between a length and what a level has published.

ghost use Rattle.std.specs.Prelude.{◌≡◌, ◌≤◌, ◌<◌, ◌↔◌, ℕ, length, AllPairs, Contains, IfOk};
ghost use Rattle.nav_ground.specs.Grounds.{IsGround};
ghost use Rattle.nav_ground.specs.History.{IsHistory};
ghost use Rattle.mesh_types.specs.Builds.{build_of};
ghost use Rattle.nav_book.specs.LevelResults.{published_mesh};
ghost use Rattle.tile_changes.specs.Changes.{HasSameLinks, HasSameTiles, IsChanged};

use crate::shapes::changed_shapes;
use crate::tiles::touched_tiles;
use nav_book::Level;
use nav_ground::{Entry, Ground, TileNo};
use nav_lists::Items;
use std::alloc::{AllocError, Global};

/// The tiles that may differ between a length of a level's history and what the level has published, rising: those that an
/// obstacle touches which is there after exactly one of the two. Each other tile has the polygons, links and free cells that
/// it had at that length, and so it is with the links between two such tiles. It does not matter whether that length was
/// ever shown. Lengths are those of the history as it is: once it has begun again (`Level::renew`), it counts anew.
pub fn changed_tiles(alloc: Global, level: &Level, since: u32) -> Result<Items<TileNo>, AllocError>
    requires { since ≤ level.now.published }
    ensures exact { IfOk result (λ tiles. (tile : ℕ) → Contains tiles tile
        ↔ IsChanged level.now.ground level.now.history since level.now.published tile) }
    ensures rising { IfOk result (AllPairs (λ a b. a < b)) }
    ensures frame { IfOk result (λ tiles. HasSameTiles tiles (build_of level.now.ground level.now.history since)
        (published_mesh level.now)) }
    ensures links { IfOk result (λ tiles. HasSameLinks tiles (build_of level.now.ground level.now.history since)
        (published_mesh level.now)) }
{
    tiles_changed_between(
        alloc,
        level.ground(),
        level.entries(),
        since,
        level.published(),
    )
}

/// The tiles that may differ between two lengths of a history, rising: those that an obstacle touches which is there after
/// exactly one of the two. Each other tile has the same polygons, links and free cells in the builds of both, and the links
/// between two such tiles are the same. An obstacle that came and went in between is not told.
pub fn tiles_changed_between(
    alloc: Global,
    ground: &Ground,
    history: &[Entry],
    since: u32,
    upto: u32,
) -> Result<Items<TileNo>, AllocError>
    requires level { IsGround ground.now }
    requires history { IsHistory ground.now.setting.limit history.now }
    requires order { since ≤ upto }
    requires within { upto ≤ length history.now }
    ensures exact { IfOk result (λ tiles. (tile : ℕ) → Contains tiles tile ↔ IsChanged ground.now history.now since upto tile) }
    ensures rising { IfOk result (AllPairs (λ a b. a < b)) }
    ensures frame { IfOk result (λ tiles. HasSameTiles tiles (build_of ground.now history.now since)
        (build_of ground.now history.now upto)) }
    ensures links { IfOk result (λ tiles. HasSameLinks tiles (build_of ground.now history.now since)
        (build_of ground.now history.now upto)) }
{
    let shapes = changed_shapes(alloc, history, since as usize, upto as usize)?;
    touched_tiles(alloc, &ground.setting, shapes.as_slice())
}
