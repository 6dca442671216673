//! A mesh with what was made of it to answer path questions sooner.

ghost use Rattle.std.specs.Prelude.{◌≡◌, IfOk, IfSome, map};
ghost use Rattle.nav_ground.specs.Limits.{IsSetting};
ghost use Rattle.mesh_types.specs.Right.{IsRight};
ghost use Rattle.mesh_types.specs.Soundness.{IsSound};
ghost use Rattle.tile_links.specs.NewTiles.{New};
ghost use Rattle.corridor_search.specs.Changes.{DifferIn};
ghost use Rattle.corridor_search.specs.Landmarks.{AreLandmarks};
ghost use Rattle.nav_query.specs.Questions.{HasLowCost, IsAnswerable};

use crate::answering::answer_in;
use corridor_search::{Landmarks, kept_landmarks, landmarks_of};
use graph_search::Room;
use mesh_types::{Answer, Mesh, TileMesh};
use nav_base::Question;
use nav_ground::TileNo;
use nav_lists::Shared;
use std::alloc::{AllocError, Global};
use std::marker::Model;

/// A mesh, and landmarks of it where some were made; both may have other owners. Contracts see the mesh alone.
#[derive(Drop)]
pub struct PreparedMesh {
    mesh: Shared<Mesh>,
    landmarks: Option<Shared<Landmarks>>,
}

impl Model for PreparedMesh {
    ghost use Rattle.mesh_types.specs.declared.mesh.Mesh.{Mesh};
    ghost use Rattle.std.specs.Prelude.{IfSome};
    ghost use Rattle.corridor_search.specs.Landmarks.{AreLandmarks};

    ghost Value = { Mesh };

    ghost view = { λ a. a.mesh };

    ghost invariant = { λ a. IfSome a.landmarks (AreLandmarks a.mesh) };
}

impl PreparedMesh {
    /// A mesh of which no landmarks were made.
    pub fn new(mesh: Shared<Mesh>) -> PreparedMesh
        ensures { result ≡ mesh }
    {
        PreparedMesh {
            mesh,
            landmarks: None,
        }
    }

    /// The mesh.
    pub fn get(&self) -> &Mesh
        ensures { result.now ≡ self.now }
    {
        self.mesh.get()
    }

    /// Whether there are landmarks of it.
    pub fn has_landmarks(&self) -> bool {
        self.landmarks.is_some()
    }

    /// A further owner of the mesh alone. It takes no memory; it is refused only where the count of owners has reached its end.
    pub fn share_mesh(&self) -> Result<Shared<Mesh>, AllocError>
        ensures { IfOk result (λ mesh. mesh ≡ self.now) }
    {
        self.mesh.share()
    }

    /// A further owner of the mesh and of its landmarks. It takes no memory; it is refused only where the count of owners has reached its end.
    pub fn share(&self) -> Result<PreparedMesh, AllocError>
        ensures { IfOk result (λ copy. copy ≡ self.now) }
    {
        let mesh = self.mesh.share()?;
        let landmarks = match &self.landmarks {
            Some(landmarks) => Some(landmarks.share()?),
            None => None,
        };
        Ok(PreparedMesh { mesh, landmarks })
    }

    /// Makes landmarks of the mesh where there are none. Where memory is refused, there are none still.
    pub fn prepare(&mut self, alloc: Global) -> Result<(), AllocError>
        requires sound { IsSound self.old }
        requires setting { IsSetting self.old.setting }
        ensures { self.new ≡ self.old }
    {
        if self.landmarks.is_none() {
            let made = landmarks_of(alloc, self.mesh.get())?;
            self.landmarks = Some(Shared::new(alloc, made)?);
        }
        Ok(())
    }

    /// Another mesh, which differs from this one in the new tiles at most, with landmarks that are made of those that there are; without any
    /// where they cannot be kept, or memory for them is refused.
    pub fn after(
        &self,
        alloc: Global,
        mesh: Shared<Mesh>,
        news: &[(TileNo, Shared<TileMesh>)],
    ) -> PreparedMesh
        requires sound { IsSound mesh }
        requires setting { IsSetting mesh.setting }
        requires differ { DifferIn (map (λ (new : New). new.0) news.now) self.now mesh }
        ensures { result ≡ mesh }
    {
        let landmarks = match &self.landmarks {
            Some(old) => kept(alloc, old.get(), self.mesh.get(), mesh.get(), news),
            None => None,
        };
        PreparedMesh { mesh, landmarks }
    }

    /// An answer to a question that is right in the mesh, by the landmarks where there are some.
    pub fn ask(&self, alloc: Global, question: &Question) -> Result<Answer, AllocError>
        requires sound { IsSound self.now }
        requires setting { IsSetting self.now.setting }
        requires question { IsAnswerable question.now }
        ensures right { IfOk result (λ answer. IsRight self.now question.now answer) }
        ensures low_cost { IfOk result HasLowCost }
    {
        let mut room = Room::new(alloc);
        self.ask_in(alloc, &mut room, question)
    }

    /// The same, in room that an earlier search may have left.
    pub fn ask_in(
        &self,
        alloc: Global,
        room: &mut Room,
        question: &Question,
    ) -> Result<Answer, AllocError>
        requires sound { IsSound self.now }
        requires setting { IsSetting self.now.setting }
        requires question { IsAnswerable question.now }
        ensures right { IfOk result (λ answer. IsRight self.now question.now answer) }
        ensures low_cost { IfOk result HasLowCost }
    {
        let mesh = self.mesh.get();
        match &self.landmarks {
            Some(landmarks) => answer_in(alloc, room, mesh, Some(landmarks.get()), question),
            None => answer_in(alloc, room, mesh, None, question),
        }
    }
}

/// Landmarks of a mesh in which some tiles are new, if they can be made of those that it had before, and there is memory for them.
fn kept(
    alloc: Global,
    old: &Landmarks,
    before: &Mesh,
    mesh: &Mesh,
    news: &[(TileNo, Shared<TileMesh>)],
) -> Option<Shared<Landmarks>>
    requires sound { IsSound mesh.now }
    requires setting { IsSetting mesh.now.setting }
    requires old { AreLandmarks before.now old.now }
    requires differ { DifferIn (map (λ (new : New). new.0) news.now) before.now mesh.now }
    ensures { IfSome result (AreLandmarks mesh.now) }
{
    match try_keep(alloc, old, before, mesh, news) {
        Ok(kept) => kept,
        Err(_) => None,
    }
}

/// The same; an error where memory is refused.
fn try_keep(
    alloc: Global,
    old: &Landmarks,
    before: &Mesh,
    mesh: &Mesh,
    news: &[(TileNo, Shared<TileMesh>)],
) -> Result<Option<Shared<Landmarks>>, AllocError>
    requires sound { IsSound mesh.now }
    requires setting { IsSetting mesh.now.setting }
    requires old { AreLandmarks before.now old.now }
    requires differ { DifferIn (map (λ (new : New). new.0) news.now) before.now mesh.now }
    ensures { IfOk result (λ kept. IfSome kept (AreLandmarks mesh.now)) }
{
    let tiles = numbers(alloc, news)?;
    match kept_landmarks(alloc, old, before, mesh, tiles.as_slice())? {
        Some(made) => Ok(Some(Shared::new(alloc, made)?)),
        None => Ok(None),
    }
}

/// The numbers of new tiles, in order.
fn numbers(alloc: Global, news: &[(TileNo, Shared<TileMesh>)]) -> Result<Vec<TileNo>, AllocError>
    ensures { IfOk result (λ tiles. tiles.items ≡ map (λ (new : New). new.0) news.now) }
{
    let mut tiles = Vec::with_capacity(alloc, news.len())?;
    for new in news {
        tiles.push(new.0)?;
    }
    Ok(tiles)
}
