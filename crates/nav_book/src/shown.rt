//! The mesh that a level shows, with what was made of it to answer path questions sooner.

ghost use Rattle.std.specs.Prelude.{◌≡◌, IfOk, map};
ghost use Rattle.nav_ground.specs.Limits.{IsSetting};
ghost use Rattle.mesh_types.specs.Right.{IsRight};
ghost use Rattle.mesh_types.specs.Soundness.{IsSound};
ghost use Rattle.tile_links.specs.NewTiles.{New};
ghost use Rattle.corridor_search.specs.Changes.{DifferIn};
ghost use Rattle.nav_query.specs.Questions.{HasLowCost, IsAnswerable};

use graph_search::Room;
use mesh_types::{Answer, Mesh, TileMesh};
use nav_base::Question;
use nav_ground::TileNo;
use nav_lists::Shared;
use nav_query::PreparedMesh;
use std::alloc::{AllocError, Global};
use std::marker::Model;

/// At which path question landmarks are made where there are none. They cost about as much as thirty questions without them, and a later
/// question takes about a fifth of what it would: so a level that is asked little never pays for them.
const PATHS_BEFORE_LANDMARKS: u32 = 24;

/// A mesh with its landmarks, and the path questions that were counted. Contracts see the mesh alone.
#[derive(Drop)]
pub(crate) struct PublishedMesh {
    mesh: PreparedMesh,
    /// How many path questions found no landmarks, of this mesh and of those before it.
    missed: u32,
    /// Memory that the searches for paths work in.
    room: Room,
}

impl Model for PublishedMesh {
    ghost use Rattle.mesh_types.specs.declared.mesh.Mesh.{Mesh};

    ghost Value = { Mesh };

    ghost view = { λ a. a.mesh };
}

impl PublishedMesh {
    /// A mesh of which no landmarks were made yet.
    pub(crate) fn new(alloc: Global, mesh: Shared<Mesh>) -> PublishedMesh
        ensures { result ≡ mesh }
    {
        PublishedMesh {
            mesh: PreparedMesh::new(mesh),
            missed: 0,
            room: Room::new(alloc),
        }
    }

    /// The mesh.
    pub(crate) fn get(&self) -> &Mesh
        ensures { result.now ≡ self.now }
    {
        self.mesh.get()
    }

    /// A further owner of the mesh. It takes no memory; it is refused only where the count of owners has reached its end.
    pub(crate) fn share_mesh(&self) -> Result<Shared<Mesh>, AllocError>
        ensures { IfOk result (λ mesh. mesh ≡ self.now) }
    {
        self.mesh.share_mesh()
    }

    /// The same with its landmarks, where there are some.
    pub(crate) fn share(&self) -> Result<PreparedMesh, AllocError>
        ensures { IfOk result (λ mesh. mesh ≡ self.now) }
    {
        self.mesh.share()
    }

    /// Another mesh, which differs from this one in the new tiles at most, with the landmarks of this one where they can be kept.
    pub(crate) fn after(
        &self,
        alloc: Global,
        mesh: Shared<Mesh>,
        news: &[(TileNo, Shared<TileMesh>)],
    ) -> PreparedMesh
        requires sound { IsSound mesh }
        requires setting { IsSetting mesh.setting }
        requires differ { DifferIn (map (λ (new : New). new.0) news.now) self.now mesh }
        ensures { result ≡ mesh }
    {
        self.mesh.after(alloc, mesh, news)
    }

    /// Shows another mesh.
    pub(crate) fn show(&mut self, mesh: PreparedMesh)
        ensures { self.new ≡ mesh }
    {
        self.mesh = mesh;
    }

    /// Makes landmarks of the mesh where there are none. Where memory is refused, there are none still.
    pub(crate) fn prepare(&mut self, alloc: Global) -> Result<(), AllocError>
        requires sound { IsSound self.old }
        requires setting { IsSetting self.old.setting }
        ensures { self.new ≡ self.old }
    {
        self.mesh.prepare(alloc)
    }

    /// Counts a path question that is about to be asked, and makes landmarks once there were many. Where memory for them is refused, it is
    /// answered without.
    fn count(&mut self, alloc: Global, question: &Question)
        requires sound { IsSound self.old }
        requires setting { IsSetting self.old.setting }
        ensures { self.new ≡ self.old }
    {
        if let Question::Path { .. } = *question {
            if !self.mesh.has_landmarks() {
                self.missed = self.missed.saturating_add(1);
            }
            if PATHS_BEFORE_LANDMARKS <= self.missed {
                self.missed = 0;
                let _ = self.mesh.prepare(alloc);
            }
        }
    }

    /// An answer to a question that is right in the mesh, by the landmarks where there are some.
    pub(crate) fn ask(&self, alloc: Global, question: &Question) -> Result<Answer, AllocError>
        requires sound { IsSound self.now }
        requires setting { IsSetting self.now.setting }
        requires question { IsAnswerable question.now }
        ensures right { IfOk result (λ answer. IsRight self.now question.now answer) }
        ensures low_cost { IfOk result HasLowCost }
    {
        self.mesh.ask(alloc, question)
    }

    /// The same; a search works in the room that the last one left.
    pub(crate) fn ask_in_room(
        &mut self,
        alloc: Global,
        question: &Question,
    ) -> Result<Answer, AllocError>
        requires sound { IsSound self.old }
        requires setting { IsSetting self.old.setting }
        requires question { IsAnswerable question.now }
        ensures right { IfOk result (λ answer. IsRight self.old question.now answer) }
        ensures low_cost { IfOk result HasLowCost }
        ensures same { self.new ≡ self.old }
    {
        self.mesh.ask_in(alloc, &mut self.room, question)
    }

    /// The same for one who asks much: the question is counted first.
    pub(crate) fn ask_and_prepare(
        &mut self,
        alloc: Global,
        question: &Question,
    ) -> Result<Answer, AllocError>
        requires sound { IsSound self.old }
        requires setting { IsSetting self.old.setting }
        requires question { IsAnswerable question.now }
        ensures right { IfOk result (λ answer. IsRight self.old question.now answer) }
        ensures low_cost { IfOk result HasLowCost }
        ensures same { self.new ≡ self.old }
    {
        self.count(alloc, question);
        self.ask_in_room(alloc, question)
    }
}
