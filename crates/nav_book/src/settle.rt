//! How everything that a history asks for is built and published, by single steps of the level. How many polygons and links a mesh has. The
//! build that a job asks for.

ghost use Rattle.std.specs.Prelude.{◌≡◌, ◌+◌, length, IfOk, OnOk, OnErr, ◌<◌, ◌^◌, List};
ghost use Rattle.build_queue.specs.BookState.{IsBook, least_claimable};
ghost use Rattle.nav_base.specs.Counts.{HasRisenAtMost};
ghost use Rattle.nav_book.specs.CallContracts.{IsBuildAllStep, IsSettleStep};
ghost use Rattle.nav_book.specs.Settling.{IsUnclaimed, after_step, settling, steps_due};
ghost use Rattle.std.specs.List.{sum_by};
ghost use Rattle.mesh_types.specs.declared.links.Link.{Link};
ghost use Rattle.mesh_types.specs.declared.mesh.TileMesh.{TileMesh};
ghost use Rattle.mesh_types.specs.Soundness.{link_count, polygon_count};
ghost use Rattle.nav_ground.specs.Grounds.{IsGround};
ghost use Rattle.build_queue.specs.Steps.{IsJob};
ghost use Rattle.nav_book.specs.LevelResults.{tile_under};

use crate::level::Level;
use build_queue::Job;
use mesh_types::{Links, Mesh, TileMesh};
use nav_base::Steps;
use nav_ground::{Ground, TileNo};
use nav_lists::{Chunks, Shared};
use std::alloc::{AllocError, Global};
use std::sync::ledger::Ledger;
use tile_build::build_kept_tile;

impl Level {
    /// Puts every job back, builds every tile that is awaited for the whole history, or takes a build that is remembered, with one step each, and
    /// publishes the history, whose length it gives. No tile is claimed then, also where memory is refused: then some of that is done.
    pub fn settle<L: Ledger>(
        &mut self,
        alloc: Global,
        steps: &mut Steps<L>,
    ) -> Result<u32, AllocError>
        ensures { IsSettleStep self.old self.new steps.old steps.new result }
    {
        let k = self.build_target(alloc, steps)?;
        let _ = self.publish(alloc)?;
        Ok(k)
    }

    /// Puts every job back, makes the whole history the target, whose length it gives, and builds every tile that is awaited for it, or takes a
    /// build that is remembered, with one step each; to publish it is all that is left. No tile is claimed then, also where memory is refused: then
    /// some of that is done.
    pub fn build_target<L: Ledger>(
        &mut self,
        alloc: Global,
        steps: &mut Steps<L>,
    ) -> Result<u32, AllocError>
        ensures length { IfOk result (λ k. k ≡ length self.old.history) }
        ensures did { IsBuildAllStep (settling self.old) self.new steps.old steps.new result }
    {
        self.put_back_all();
        let k = self.aim();
        self.build_all(alloc, steps)?;
        Ok(k)
    }

    /// Claims the least tile that is awaited and not claimed, builds it, with one step, and takes the build in; its number is given. None
    /// exactly where there is no such tile, and then nothing is done. A build of the same job that is remembered is taken in place of a new one,
    /// and is one step too. Where memory is refused, nothing has changed.
    pub fn step<L: Ledger>(
        &mut self,
        alloc: Global,
        steps: &mut Steps<L>,
    ) -> Result<Option<TileNo>, AllocError>
        ensures tile { IfOk result (λ tile. tile ≡ least_claimable self.old) }
        ensures stepped { OnOk result (self.new ≡ after_step self.old) }
        ensures steps { OnOk result (steps.new ≡ steps.old + steps_due self.old) }
        ensures most { HasRisenAtMost (steps_due self.old) steps.old steps.new }
        ensures refused { OnErr result (self.new ≡ self.old) }
        ensures rules { IsBook self.new }
    {
        let Some(job) = self.claim(alloc)? else {
            return Ok(None);
        };
        let tile = job.tile;
        match self.build(alloc, &job, steps) {
            Ok(mesh) => {
                let _ = self.submit(job, mesh);
                Ok(Some(tile))
            }
            Err(refused) => {
                self.put_back(job);
                Err(refused)
            }
        }
    }

    /// Builds and submits every tile that is awaited, in rising order.
    fn build_all<L: Ledger>(
        &mut self,
        alloc: Global,
        steps: &mut Steps<L>,
    ) -> Result<(), AllocError>
        requires free { IsUnclaimed self.old }
        requires rules { IsBook self.old }
        ensures { IsBuildAllStep self.old self.new steps.old steps.new result }
    {
        while let Some(_tile) = self.step(alloc, steps)? {}
        Ok(())
    }
}

/// How many polygons tiles have together.
pub(crate) fn polygons(tiles: &Chunks<Shared<TileMesh>>) -> u32
    requires { polygon_count tiles.now < 2 ^ 32 }
    ensures { result ≡ polygon_count tiles.now }
{
    let mut count = 0;
    for place in 0..tiles.len() {
        count += tiles.at(place).get().polys.len() as u32;
    }
    count
}

/// How many links a mesh has, inside its tiles and over their borders; a link leads one way.
pub(crate) fn links(mesh: &Mesh) -> u32
    requires { link_count mesh.now < 2 ^ 32 }
    ensures { result ≡ link_count mesh.now }
{
    inner_links(&mesh.tiles) + cross_links(&mesh.cross)
}

fn inner_links(tiles: &Chunks<Shared<TileMesh>>) -> u32
    requires { sum_by (λ (tile : TileMesh). length tile.links) tiles.now < 2 ^ 32 }
    ensures { result ≡ sum_by (λ (tile : TileMesh). length tile.links) tiles.now }
{
    let mut count = 0;
    for place in 0..tiles.len() {
        count += tiles.at(place).get().links.len() as u32;
    }
    count
}

fn cross_links(lists: &Chunks<Shared<Links>>) -> u32
    requires { sum_by (λ (links : List Link). length links) lists.now < 2 ^ 32 }
    ensures { result ≡ sum_by (λ (links : List Link). length links) lists.now }
{
    let mut count = 0;
    for place in 0..lists.len() {
        count += lists.at(place).get().len() as u32;
    }
    count
}

/// The mesh of a job's tile of a ground under the job's shapes. It takes one step, also where memory is refused.
pub fn build_job<L: Ledger>(
    alloc: Global,
    level: &Ground,
    job: &Job,
    steps: &mut Steps<L>,
) -> Result<Shared<TileMesh>, AllocError>
    requires level { IsGround level.now }
    requires job { IsJob level.now.setting job.now }
    ensures mesh { IfOk result (λ mesh. mesh ≡ tile_under level.now job.now.tile job.now.shapes) }
    ensures step { steps.new ≡ steps.old + 1 }
{
    let layer = &level.layers.as_slice()[job.tile as usize];
    let mesh = build_kept_tile(alloc, layer, &level.setting, job.shapes.as_slice(), steps)?;
    Ok(Shared::new(alloc, mesh)?)
}
