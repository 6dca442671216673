//! The ground of a level and of a book changed: the mesh of the ground that comes, and how it takes the place of the one that stands.

ghost use Rattle.std.specs.Prelude.{◌≡◌, ◌+◌, ◌<◌, ◌≤◌, All, IfOk, OnErr, OnOk, length, map, replicate};
ghost use Rattle.std.specs.Arc.{arc_value};
ghost use Rattle.nav_base.specs.Counts.{HasRisenAtMost};
ghost use Rattle.nav_ground.specs.Grounds.{IsGround};
ghost use Rattle.nav_ground.specs.Limits.{IsSetting, IsShape};
ghost use Rattle.nav_ground.specs.Tiling.{tile_count};
ghost use Rattle.mesh_types.specs.Soundness.{IsSound, polygon_count};
ghost use Rattle.mesh_types.specs.WholeMesh.{mesh_of};
ghost use Rattle.tile_links.specs.NewTiles.{AreNew, IsWhole, New, tiles_after};
ghost use Rattle.corridor_search.specs.Changes.{DifferIn};
ghost use Rattle.nav_version.specs.Pairs.{eye_of};
ghost use Rattle.build_queue.specs.BookState.{IsBook};
ghost use Rattle.build_queue.specs.GroundSteps.{IsAtRest, IsGroundBut, IsGroundStep};
ghost use Rattle.nav_book.specs.GroundChanges.{AreBuiltIn, IsChangeStep, IsNextGround};
ghost use Rattle.nav_book.specs.LevelResults.{published_entries, published_mesh, tile_under};

use crate::book::Book;
use crate::builds::NewMeshes;
use crate::level::Level;
use crate::shown::PublishedMesh;
use build_queue::{BuildQueue, Published};
use core::mem::replace;
use mesh_types::TileMesh;
use nav_base::Steps;
use nav_ground::{Ground, Shape, TileNo, tiles};
use nav_lists::Shared;
use nav_query::PreparedMesh;
use nav_version::{Entries, Eye, Press, Version, pair};
use std::alloc::{AllocError, Global};
use std::sync::ledger::Ledger;
use std::sync::{Arc, Wait};
use tile_build::build_kept_tile;
use tile_links::replaced;

/// A ground that comes to be shown, with its mesh. A level keeps two owners of its ground; both are had before anything changes.
#[derive(Drop)]
pub struct NextGround {
    pub ground: Arc<Ground>,
    pub again: Arc<Ground>,
    pub mesh: PreparedMesh,
}

impl Level {
    /// The mesh of another ground under the published obstacles, where the level is at rest: the tiles of a list are built, with one step each,
    /// and all others are shared with the published mesh, since their layers are the same. Nothing has changed yet. It has landmarks where
    /// those of the published mesh can be kept.
    pub fn next_ground<L: Ledger>(
        &self,
        alloc: Global,
        ground: Arc<Ground>,
        changed: &[TileNo],
        steps: &mut Steps<L>,
    ) -> Result<NextGround, AllocError>
        requires rest { IsAtRest self.now }
        requires ground { IsGroundBut changed.now self.now.ground (arc_value ground) }
        ensures next { IfOk result (IsNextGround self.now (arc_value ground)) }
        ensures differ { IfOk result (λ next. DifferIn changed.now (published_mesh self.now) next.mesh) }
        ensures steps { OnOk result (steps.new ≡ steps.old + length changed.now) }
        ensures most { HasRisenAtMost (length changed.now) steps.old steps.new }
    {
        let news = tiles_over(alloc, &self.queue, &ground, changed, steps)?;
        let mesh = mesh_with(alloc, &self.mesh, news.news())?;
        let again = Arc::try_clone(&ground)?;
        Ok(NextGround {
            ground,
            again,
            mesh,
        })
    }

    /// Puts a ground in the place of the one that stands, with its mesh, which is shown from then on: the obstacles and the entries stay, and no
    /// tile is claimed then. Builds of the ground that was are remembered no more. It takes no memory.
    pub fn show_ground(&mut self, next: NextGround)
        requires rest { IsAtRest self.old }
        requires next { IsNextGround self.old (arc_value next.ground) next }
        ensures { IsGroundStep self.old self.new (arc_value next.ground) }
    {
        let NextGround {
            ground,
            again,
            mesh,
        } = next;
        self.fresh.clear();
        self.builds.show_ground(again);
        self.mesh.show(mesh);
        self.queue.show_ground(ground);
    }

    /// Changes the ground to another one of the same setting, whose layers have changed in the tiles of a list at most: these are built, with one
    /// step each, and its mesh is shown from then on. It comes where all that was aimed at is published, which a publish would answer by `Same`;
    /// else nothing changes, and the answer is what a publish would be answered: `NotYet` with the least tile that is awaited, or `New`. Entries
    /// behind the target wait for their aim as before. Where memory is refused, nothing has changed.
    pub fn change_ground<L: Ledger>(
        &mut self,
        alloc: Global,
        ground: Arc<Ground>,
        changed: &[TileNo],
        steps: &mut Steps<L>,
    ) -> Result<Published, AllocError>
        requires { IsGroundBut changed.now self.old.ground (arc_value ground) }
        ensures did { IsChangeStep self.old self.new (arc_value ground) result }
        ensures most { HasRisenAtMost (length changed.now) steps.old steps.new }
    {
        let answer = self.queue.publication();
        match answer {
            Published::Same { .. } => {
                let next = self.next_ground(alloc, ground, changed, steps)?;
                self.show_ground(next);
                Ok(answer)
            }
            _ => Ok(answer),
        }
    }
}

impl Book {
    /// Puts a ground in the place of the one that stands, with its mesh, as a level does; `next_ground` of the book's level makes both.
    ///
    /// The press and its eyes are new ones, since eyes see one ground: each reader gets an eye, which has seen the published entries over the new
    /// one, and those from before answer no more. It waits for those that are reading. Where memory is refused, nothing has changed.
    pub fn show_ground<R: Wait>(
        &mut self,
        rt: &R,
        alloc: Global,
        next: NextGround,
        readers: u32,
    ) -> Result<Vec<Eye>, AllocError>
        requires rest { IsAtRest self.old.state }
        requires next { IsNextGround self.old.state (arc_value next.ground) next }
        ensures did { OnOk result (IsGroundStep self.old.state self.new.state (arc_value next.ground)) }
        ensures eyes { IfOk result (λ eyes. eyes.items ≡ replicate readers (eye_of self.new.pair self.new.state.ground (published_entries self.new.state))) }
        ensures refused { OnErr result (self.new ≡ self.old) }
    {
        let (press, eyes) = self.ground_pair(rt, alloc, &next, readers)?;
        self.level.show_ground(next);
        let last = replace(&mut self.press, press);
        last.end(rt);
        Ok(eyes)
    }

    // The pair that shows a ground that comes with the published entries.
    fn ground_pair<R: Wait>(
        &self,
        rt: &R,
        alloc: Global,
        next: &NextGround,
        readers: u32,
    ) -> Result<(Press, Vec<Eye>), AllocError>
        requires { IsNextGround self.now.state (arc_value next.now.ground) next.now }
        ensures ground { IfOk result (λ made. made.0.ground ≡ arc_value next.now.ground) }
        ensures entries { IfOk result (λ made. made.0.entries ≡ published_entries self.now.state) }
        ensures eyes { IfOk result (λ made. made.1.items ≡ replicate readers (eye_of made.0.pair (arc_value next.now.ground) (published_entries self.now.state))) }
    {
        let published = self.level.published() as usize;
        let version = Version {
            ground: Arc::try_clone(&next.ground)?,
            entries: Entries::of(alloc, &self.level.entries()[..published])?,
            mesh: next.mesh.share()?,
        };
        let (press, eyes) = pair(rt, alloc, version, readers)?;
        Ok((press, eyes))
    }
}

/// The tiles of a list, built of a ground under the shapes that are stored for them in a queue.
fn tiles_over<L: Ledger>(
    alloc: Global,
    queue: &BuildQueue,
    ground: &Ground,
    changed: &[TileNo],
    steps: &mut Steps<L>,
) -> Result<NewMeshes, AllocError>
    requires rules { IsBook queue.now }
    requires rest { IsAtRest queue.now }
    requires ground { IsGroundBut changed.now queue.now.ground ground.now }
    ensures built { IfOk result (AreBuiltIn ground.now queue.now.stored changed.now (length changed.now)) }
    ensures steps { OnOk result (steps.new ≡ steps.old + length changed.now) }
    ensures most { HasRisenAtMost (length changed.now) steps.old steps.new }
{
    let mut news = NewMeshes::new(alloc, tiles(&ground.setting) as usize)?;
    for tile in changed {
        let mesh = tile_over(alloc, ground, *tile, queue.stored(*tile).as_slice(), steps)?;
        news.put(*tile, mesh);
    }
    Ok(news)
}

/// The mesh of a tile of a ground under a list of shapes. It takes one step, also where memory is refused.
fn tile_over<L: Ledger>(
    alloc: Global,
    ground: &Ground,
    tile: TileNo,
    shapes: &[Shape],
    steps: &mut Steps<L>,
) -> Result<Shared<TileMesh>, AllocError>
    requires ground { IsGround ground.now }
    requires there { tile < tile_count ground.now.setting }
    requires shapes { All IsShape shapes.now }
    ensures mesh { IfOk result (λ mesh. mesh ≡ tile_under ground.now tile shapes.now) }
    ensures step { steps.new ≡ steps.old + 1 }
{
    let layer = &ground.layers.as_slice()[tile as usize];
    let mesh = build_kept_tile(alloc, layer, &ground.setting, shapes, steps)?;
    Ok(Shared::new(alloc, mesh)?)
}

/// The mesh that is had when new tile meshes are put into the one that is shown, with the landmarks of that one where they can be kept.
fn mesh_with(
    alloc: Global,
    shown: &PublishedMesh,
    news: &[(TileNo, Shared<TileMesh>)],
) -> Result<PreparedMesh, AllocError>
    requires setting { IsSetting shown.now.setting }
    requires mesh { IsWhole shown.now }
    requires news { AreNew shown.now.setting news.now }
    requires few { polygon_count (tiles_after news.now shown.now.tiles) ≤ 8000000 }
    ensures mesh { IfOk result (λ made. made ≡ mesh_of shown.now.setting (tiles_after news.now shown.now.tiles)) }
    ensures sound { IfOk result IsSound }
    ensures differ { IfOk result (DifferIn (map (λ (new : New). new.0) news.now) shown.now) }
{
    let mesh = replaced(alloc, shown.get(), news)?;
    let shared = Shared::new(alloc, mesh)?;
    Ok(shown.after(alloc, shared, news))
}
