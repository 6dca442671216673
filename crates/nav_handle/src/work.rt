//! A tile that is built for a level beside whoever changes it. Whether two grounds are the same as far as one tile goes.

ghost use Rattle.std.specs.Prelude.{◌≡◌, ◌↔◌, ◌+◌, true, IfOk, IfSome, IsTrue, OnErr, OnOk, option_map, ◌<◌, is_some};
ghost use Rattle.std.specs.Arc.{arc_value};
ghost use Rattle.build_queue.specs.Steps.{IsJob, after_claim, after_put_back, after_submit, submission};
ghost use Rattle.nav_book.specs.LevelResults.{tile_under};
ghost use Rattle.nav_handle.specs.Works.{IsOf, begun, built, next_work, AreSameAt};
ghost use Rattle.nav_ground.specs.Grounds.{IsGround};
ghost use Rattle.nav_ground.specs.Tiling.{tile_count};

use mesh_types::TileMesh;
use nav_base::Steps;
use nav_book::{Job, Level, Submitted, build_job};
use nav_ground::{Cell, Ground, Layer, PackedCell, Setting};
use nav_lists::Shared;
use std::alloc::{AllocError, Global};
use std::marker::Model;
use std::sync::Arc;
use std::sync::ledger::Ledger;

/// A job that was claimed of a level: the ground, the tile and the shapes to build it under, and the mesh once it is built. It is an owner of
/// the ground, so that it is built from this alone.
#[derive(Drop)]
pub struct BuildJob {
    ground: Arc<Ground>,
    job: Job,
    mesh: Option<Shared<TileMesh>>,
}

impl Model for BuildJob {
    ghost use Rattle.nav_handle.specs.Works.{IsWork, Working, working_of};

    ghost Value = { Working };

    ghost view = { working_of };

    ghost invariant = { IsWork };
}

impl BuildJob {
    /// A job that was claimed of a level by its owner; its tile is not built yet.
    pub fn of(ground: Arc<Ground>, job: Job) -> BuildJob
        requires ground { IsGround (arc_value ground) }
        requires job { IsJob (arc_value ground).setting job }
        ensures { result ≡ begun (arc_value ground) job }
    {
        BuildJob {
            ground,
            job,
            mesh: None,
        }
    }

    /// The job, and the mesh of its tile, if that is built.
    pub fn into_parts(self) -> (Job, Option<Shared<TileMesh>>)
        ensures job { result.0 ≡ self.job }
        ensures rules { IsJob self.ground.setting self.job }
        ensures built { is_some result.1 ≡ self.built }
        ensures mesh { IfSome result.1 (λ mesh. mesh ≡ tile_under self.ground self.job.tile self.job.shapes) }
    {
        let BuildJob {
            ground: _,
            job,
            mesh,
        } = self;
        (job, mesh)
    }

    /// Claims the least tile of a level that is awaited and not claimed; none exactly where there is no such tile. Where memory is refused,
    /// nothing has changed.
    pub fn claim(
        alloc: Global,
        level: &mut Level,
    ) -> Result<Option<Box<BuildJob, Global>>, AllocError>
        ensures work { IfOk result (λ work. option_map (λ held. held.value) work ≡ next_work level.old) }
        ensures claimed { OnOk result (level.new ≡ after_claim level.old) }
        ensures refused { OnErr result (level.new ≡ level.old) }
    {
        let ground = level.shared_ground()?;
        let Some(job) = level.claim(alloc)? else {
            return Ok(None);
        };
        let work = BuildJob {
            ground,
            job,
            mesh: None,
        };
        match Box::new(alloc, work) {
            Ok(work) => Ok(Some(work)),
            Err(refused) => {
                level.put_back(refused.value.job);
                Err(AllocError)
            }
        }
    }

    /// Builds its tile, with one step, also where memory is refused; then nothing has changed.
    pub fn build<L: Ledger>(
        &mut self,
        alloc: Global,
        steps: &mut Steps<L>,
    ) -> Result<(), AllocError>
        ensures built { OnOk result (self.new ≡ built self.old) }
        ensures refused { OnErr result (self.new ≡ self.old) }
        ensures step { steps.new ≡ steps.old + 1 }
    {
        let mesh = build_job(alloc, &self.ground, &self.job, steps)?;
        self.mesh = Some(mesh);
        Ok(())
    }

    /// Whether it is built.
    pub fn is_built(&self) -> bool
        ensures { result ≡ self.now.built }
    {
        self.mesh.is_some()
    }

    /// The tile.
    pub fn tile(&self) -> u32
        ensures { result ≡ self.now.job.tile }
    {
        self.job.tile
    }

    /// Whether it is of a level's ground, as far as its tile goes: the setting is the same, and so is what lies in the tile.
    pub fn is_of(&self, level: &Level) -> bool
        ensures { IsTrue result ↔ IsOf self.now level.now.ground }
    {
        is_same_tile(&self.ground, level.ground(), self.job.tile)
    }

    /// Hands it in: its tile is claimed no more, and the build is taken where it is still wanted.
    pub fn hand_in(self, level: &mut Level) -> Submitted
        requires of { IsOf self level.old.ground }
        requires built { self.built ≡ true }
        ensures answer { result ≡ submission level.old self.job.tile self.job.shapes }
        ensures stored { level.new ≡ after_submit level.old self.job.tile self.job.shapes }
    {
        let BuildJob {
            ground: _,
            job,
            mesh,
        } = self;
        match mesh {
            Some(mesh) => level.submit(job, mesh),
            None => unreachable!(),
        }
    }

    /// Gives it back: its tile is claimed no more.
    pub fn give_back(self, level: &mut Level)
        requires { IsOf self level.old.ground }
        ensures { level.new ≡ after_put_back level.old self.job.tile }
    {
        level.put_back(self.job)
    }
}

/// Whether two grounds have the same setting and the same layer of a tile.
pub(crate) fn is_same_tile(a: &Ground, b: &Ground, tile: u32) -> bool
    requires one { IsGround a.now }
    requires other { IsGround b.now }
    requires there { tile < tile_count a.now.setting }
    ensures { IsTrue result ↔ AreSameAt tile a.now b.now }
{
    if !is_same_setting(&a.setting, &b.setting) {
        return false;
    }
    let layers = (a.layers.as_slice(), b.layers.as_slice());
    is_same_layer(&layers.0[tile as usize], &layers.1[tile as usize])
}

fn is_same_setting(a: &Setting, b: &Setting) -> bool
    ensures { IsTrue result ↔ (a.now ≡ b.now) }
{
    a == b
}

fn is_same_layer(a: &Layer, b: &Layer) -> bool
    ensures { IsTrue result ↔ (a.now ≡ b.now) }
{
    a.tile == b.tile
        && a.radius == b.radius
        && are_same_cells(a.cells.get().as_slice(), b.cells.get().as_slice())
        && a.wide.is(&b.wide)
}

fn are_same_cells(a: &[PackedCell], b: &[PackedCell]) -> bool
    ensures { IsTrue result ↔ (a.now ≡ b.now) }
{
    if a.len() != b.len() {
        return false;
    }
    for place in 0..a.len() {
        if !is_same_cell(&a[place], &b[place]) {
            return false;
        }
    }
    true
}

fn is_same_cell(a: &PackedCell, b: &PackedCell) -> bool
    ensures { IsTrue result ↔ (a.now ≡ b.now) }
{
    let (a, b) = (a.get(), b.get());
    is_same_place(&a, &b) && are_same_levels(&a.next, &b.next)
}

/// Whether two cells are the same but for their neighbours.
fn is_same_place(a: &Cell, b: &Cell) -> bool
    ensures { IsTrue result ↔ ((a.now.at ≡ b.now.at) × (a.now.floor ≡ b.now.floor) × (a.now.ceiling ≡ b.now.ceiling) × (a.now.area ≡ b.now.area)) }
{
    a.at == b.at && a.floor == b.floor && a.ceiling == b.ceiling && a.area == b.area
}

fn are_same_levels(a: &[Option<u32>], b: &[Option<u32>]) -> bool
    ensures { IsTrue result ↔ (a.now ≡ b.now) }
{
    if a.len() != b.len() {
        return false;
    }
    for place in 0..a.len() {
        if !is_same_level(a[place], b[place]) {
            return false;
        }
    }
    true
}

fn is_same_level(a: Option<u32>, b: Option<u32>) -> bool
    ensures { IsTrue result ↔ (a ≡ b) }
{
    a == b
}
