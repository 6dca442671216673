//! The builds that were made last, so that a door which opens and closes is not built again each time. Fresh tile meshes, which are stored
//! and not published yet.

ghost use Rattle.std.specs.Prelude.{◌≡◌, ◌↔◌, ◌+◌, IsTrue, IfOk, IfSome, ◌<◌, ◌≤◌, false, get_or, length, replicate, slice_set, Some, None, vec_capacity};
ghost use Rattle.std.specs.Arc.{arc_value};
ghost use Rattle.nav_ground.specs.Grounds.{IsGround};
ghost use Rattle.build_queue.specs.Steps.{IsJob};
ghost use Rattle.nav_book.specs.LevelResults.{tile_under};
ghost use Rattle.std.specs.List.{insert};
ghost use Rattle.std.specs.Result.{MatchResult};
ghost use Rattle.tile_links.specs.NewTiles.{AreRising};
ghost use Rattle.nav_book.specs.Fresh.{IsGapFor, IsPlaceOf, news_of};

use crate::settle::build_job;
use build_queue::Job;
use mesh_types::TileMesh;
use nav_base::Steps;
use nav_ground::{Ground, TileNo};
use nav_lists::{Duplicate, Shared};
use std::alloc::{AllocError, Global};
use std::marker::Model;
use std::sync::Arc;
use std::sync::ledger::Ledger;

/// How many builds are remembered. A door seldom touches more than four tiles, and asks for two builds of each; and where things come and go, a
/// tile is soon asked for again as it was before one came. So there is room for some dozens of them.
const ROOM: usize = 256;

/// Only builds that are no larger than these are remembered: of so many cells of the tile's layer, so many polygons and links between them,
/// under so many shapes. Such a build takes a quarter of a MB at most, and some ten KB where a tile has 32 columns a side.
const MOST_CELLS: usize = 4096;

const MOST_POLYGONS: usize = 512;

const MOST_LINKS: usize = 2048;

const MOST_SHAPES: usize = 64;

/// What was built for a job.
#[derive(Drop)]
struct CachedBuild {
    job: Job,
    mesh: Shared<TileMesh>,
}

/// A ground, and the builds of its tiles that were made last. Contracts see the ground alone: a build that is remembered is what a new one
/// would be.
#[derive(Drop)]
pub(crate) struct BuildCache {
    level: Arc<Ground>,
    builds: Vec<CachedBuild>,
    /// The place of the next build: that of the oldest one, once there is no more room.
    next: usize,
}

impl Model for BuildCache {
    ghost use Rattle.std.specs.Arc.{arc_value};
    ghost use Rattle.nav_ground.specs.declared.history.Ground.{Ground};
    ghost use Rattle.nav_book.specs.Remembered.{AreKeptBuilds};

    ghost Value = { Ground };

    ghost view = { λ a. arc_value a.level };

    ghost invariant = { λ a. AreKeptBuilds (arc_value a.level) a.builds.items };
}

impl BuildCache {
    /// A ground with no builds yet. It takes no memory.
    pub(crate) fn new(alloc: Global, level: Arc<Ground>) -> BuildCache
        ensures { result ≡ arc_value level }
    {
        BuildCache {
            level,
            builds: Vec::new(alloc),
            next: 0,
        }
    }

    /// Another ground, with no builds yet. It takes no memory.
    pub(crate) fn show_ground(&mut self, level: Arc<Ground>)
        ensures { self.new ≡ arc_value level }
    {
        self.builds.clear();
        self.next = 0;
        self.level = level;
    }

    /// The mesh of a job's tile under the job's shapes, built anew. It is remembered from then on where it is small and memory for that is left.
    /// It takes one step, also where memory is refused; then nothing is remembered any more, so that there is more memory for the next one.
    pub(crate) fn build<L: Ledger>(
        &mut self,
        alloc: Global,
        job: &Job,
        steps: &mut Steps<L>,
    ) -> Result<Shared<TileMesh>, AllocError>
        requires level { IsGround self.old }
        requires job { IsJob self.old.setting job.now }
        ensures same { self.new ≡ self.old }
        ensures mesh { IfOk result (λ mesh. mesh ≡ tile_under self.old job.now.tile job.now.shapes) }
        ensures step { steps.new ≡ steps.old + 1 }
    {
        match build_job(alloc, &self.level, job, steps) {
            Ok(mesh) => {
                let _ = self.remember(alloc, job, &mesh);
                Ok(mesh)
            }
            Err(refused) => {
                self.builds.clear();
                Err(refused)
            }
        }
    }

    /// A further owner of the mesh that was built for the same job; none where there is none at hand.
    pub(crate) fn remembered(&self, job: &Job) -> Option<Shared<TileMesh>>
        ensures { IfSome result (λ mesh. mesh ≡ tile_under self.now job.now.tile job.now.shapes) }
    {
        for build in self.builds.as_slice() {
            if is_same_job(&build.job, job) {
                return build.mesh.share().ok();
            }
        }
        None
    }

    /// Whether the build of a job is small enough to be remembered.
    fn is_small(&self, job: &Job, mesh: &TileMesh) -> bool {
        let layers = self.level.layers.as_slice();
        let is_few = match layers.get(job.tile as usize) {
            Some(layer) => layer.cells.get().as_slice().len() <= MOST_CELLS,
            None => false,
        };
        is_few
            && mesh.polys.len() <= MOST_POLYGONS
            && mesh.links.len() <= MOST_LINKS
            && job.shapes.len() <= MOST_SHAPES
    }

    /// Remembers the build of a job if it is small, in the place of the oldest one where there is no more room. Where memory is refused, nothing
    /// has changed.
    pub(crate) fn remember(
        &mut self,
        alloc: Global,
        job: &Job,
        mesh: &Shared<TileMesh>,
    ) -> Result<(), AllocError>
        requires { mesh.now ≡ tile_under self.old job.now.tile job.now.shapes }
        ensures { self.new ≡ self.old }
    {
        if !self.is_small(job, mesh.get()) {
            return Ok(());
        }
        let build = CachedBuild {
            job: Job {
                tile: job.tile,
                shapes: job.shapes.duplicate(alloc)?,
            },
            mesh: mesh.share()?,
        };
        let place = self.next % ROOM;
        if place < self.builds.len() {
            self.builds[place] = build;
        } else {
            self.builds.push(build)?;
        }
        self.next = place + 1;
        Ok(())
    }
}

/// Whether two jobs are the same: of one tile, under the same shapes in the same order.
fn is_same_job(a: &Job, b: &Job) -> bool
    ensures { IsTrue result ↔ (a.now ≡ b.now) }
{
    a.tile == b.tile && a.shapes == b.shapes
}

/// The fresh tile meshes with the numbers of their tiles, which rise. Seen as one place a tile, which is empty where the tile has none.
#[derive(Drop)]
pub(crate) struct NewMeshes {
    tiles: usize,
    news: Vec<(TileNo, Shared<TileMesh>)>,
}

impl Model for NewMeshes {
    ghost use Rattle.std.specs.Prelude.{List, Option, vec_capacity};
    ghost use Rattle.mesh_types.specs.declared.mesh.TileMesh.{TileMesh};
    ghost use Rattle.nav_book.specs.Fresh.{places_of, AreKeptFresh};

    ghost Value = { List (Option TileMesh) };

    ghost view = { λ fresh. places_of fresh.tiles fresh.news.items };

    ghost invariant = { λ fresh. AreKeptFresh fresh.tiles (vec_capacity fresh.news) fresh.news.items };
}

impl NewMeshes {
    /// Empty places for so many tiles, and the room for a mesh in each.
    pub(crate) fn new(alloc: Global, tiles: usize) -> Result<Self, AllocError>
        ensures { IfOk result (λ fresh. fresh ≡ replicate tiles None) }
    {
        Ok(NewMeshes {
            tiles,
            news: Vec::with_capacity(alloc, tiles)?,
        })
    }

    /// Puts a mesh in the place of its tile. It takes no memory.
    pub(crate) fn put(&mut self, tile: TileNo, mesh: Shared<TileMesh>)
        requires { tile < length self.old }
        ensures { self.new ≡ slice_set self.old tile (Some mesh) }
    {
        match place_for(self.news.as_slice(), tile) {
            Ok(place) => self.news[place] = (tile, mesh),
            Err(place) => insert(&mut self.news, place, tile, mesh),
        }
    }

    /// The fresh tile meshes with the numbers of their tiles, which rise.
    pub(crate) fn news(&self) -> &[(TileNo, Shared<TileMesh>)]
        ensures { result.now ≡ news_of self.now }
    {
        self.news.as_slice()
    }

    /// Whether the place of a tile has a mesh.
    pub(crate) fn has(&self, tile: TileNo) -> bool
        requires { tile < length self.now }
        ensures { result ≡ false → get_or self.now tile None ≡ None }
    {
        place_for(self.news.as_slice(), tile).is_ok()
    }

    /// Makes every place empty.
    pub(crate) fn clear(&mut self)
        ensures { self.new ≡ replicate (length self.old) None }
    {
        self.news.clear();
    }
}

/// Where the mesh of a tile stands; or where it has its place, if it is not there. It goes by halves.
fn place_for(news: &[(TileNo, Shared<TileMesh>)], tile: TileNo) -> Result<usize, usize>
    requires { AreRising news.now }
    ensures { MatchResult result (IsPlaceOf news.now tile) (IsGapFor news.now tile) }
{
    news.binary_search_by_key(&tile, |new| new.0)
}

/// Inserts the mesh of a tile at a place, where there is room.
fn insert(
    news: &mut Vec<(TileNo, Shared<TileMesh>)>,
    place: usize,
    tile: TileNo,
    mesh: Shared<TileMesh>,
)
    requires within { place ≤ length news.old.items }
    requires room { length news.old.items < vec_capacity news.old }
    ensures items { news.new.items ≡ insert news.old.items place (tile, mesh) }
    ensures grown { vec_capacity news.old ≤ vec_capacity news.new }
{
    let _ = news.insert(place, (tile, mesh));
}
