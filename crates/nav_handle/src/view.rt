//! What one reader has of a level, to ask beside whoever changes it. Costs of areas, put into a mesh in place of others.

ghost use Rattle.std.specs.Prelude.{◌≡◌, IfOk, ◌↔◌, IfSome, IsNone};
ghost use Rattle.nav_ground.specs.Tiling.{tile_count};
ghost use Rattle.mesh_types.specs.Right.{IsRight};
ghost use Rattle.nav_query.specs.Questions.{HasLowCost, IsAnswerable};
ghost use Rattle.nav_handle.specs.Views.{AreCosts, seen_at, shown_by, shown_to};
ghost use Rattle.std.specs.List.{list_all};
ghost use Rattle.nav_ground.specs.Limits.{is_cost, IsSetting};
ghost use Rattle.mesh_types.specs.Passages.{IsTwoWay};
ghost use Rattle.mesh_types.specs.Soundness.{IsSound};
ghost use Rattle.path_queries.specs.Floods.{CanFlood};
ghost use Rattle.path_queries.specs.FloodsBack.{IsRightFloodBack};
ghost use Rattle.random_place.specs.Draws.{IsRightDraw};

use graph_search::Room;
use mesh_types::{Answer, Asked, Mesh, copy_mesh};
use nav_base::Question;
use nav_book::Level;
use nav_ground::{AREAS, tiles};
use nav_lists::Shared;
use nav_query::PreparedMesh;
use path_queries::{AskedIn, FloodAnswer, FloodQuery, flood_back_in};
use random_place::{DrawAnswer, DrawPlace, SpotSums, draw_place_in};
use std::alloc::{AllocError, Global};
use std::marker::Model;
use std::mem::replace;

/// A mesh that a level had published, with the length that it was published with. It is an owner of the mesh, which stays as it is whatever
/// comes of the level, and of its landmarks, where the level had some. It may have costs of areas of its own, which then stand in its mesh in
/// place of the level's.
#[derive(Drop)]
pub struct MeshView {
    length: u32,
    mesh: PreparedMesh,
    own: Option<[u32; AREAS]>,
    /// Memory that searches work in.
    room: Room,
    /// How many spots there are up to each tile, of the areas that were last drawn from.
    sums: Option<SpotSums>,
}

impl Model for MeshView {
    ghost use Rattle.nav_handle.specs.Views.{IsView, Seen, seen_of};

    ghost Value = { Seen };

    ghost view = { seen_of };

    ghost invariant = { IsView };
}

impl MeshView {
    /// A view of what a level has published. It takes no memory; it is refused only where the count of the mesh's owners has reached its end.
    pub fn of(alloc: Global, level: &Level) -> Result<MeshView, AllocError>
        ensures { IfOk result (λ view. view ≡ shown_by level.now) }
    {
        let mesh = level.prepared_mesh()?;
        let _shown = level.mesh();
        Ok(MeshView {
            length: level.published(),
            mesh,
            own: None,
            room: Room::new(alloc),
            sums: None,
        })
    }

    /// A view of what a level has published, with the costs that this one has of its own, if it has some. It takes over the memory that searches
    /// work in.
    pub fn again(&mut self, alloc: Global, level: &Level) -> Result<MeshView, AllocError>
        ensures view { IfOk result (λ view. view ≡ shown_to self.old.own level.now) }
        ensures same { self.new ≡ self.old }
    {
        let shown = MeshView::of(alloc, level)?;
        let mut view = match self.own {
            Some(costs) => shown.costing(alloc, costs)?,
            None => shown,
        };
        view.room = replace(&mut self.room, Room::new(alloc));
        Ok(view)
    }

    /// A further view of the same mesh, with the same costs of its own, for another thread. It takes no memory; it is refused only where the count of
    /// the mesh's owners has reached its end.
    pub fn duplicate(&self, alloc: Global) -> Result<MeshView, AllocError>
        ensures { IfOk result (λ view. view ≡ self.now) }
    {
        Ok(MeshView {
            length: self.length,
            mesh: self.mesh.share()?,
            own: self.own,
            room: Room::new(alloc),
            sums: None,
        })
    }

    /// The same view with other costs of areas: what a sixteenth of a cell of way costs in each, by its number. All that it shares with the
    /// level but the list of tiles stays shared. It has no landmarks: those of the level are of the level's costs.
    pub fn costing(&self, alloc: Global, costs: [u32; AREAS]) -> Result<MeshView, AllocError>
        requires { AreCosts costs }
        ensures { IfOk result (λ view. view ≡ seen_at costs self.now) }
    {
        let mesh = with_costs(alloc, self.mesh.get(), costs)?;
        Ok(MeshView {
            length: self.length,
            mesh: PreparedMesh::new(Shared::new(alloc, mesh)?),
            own: Some(costs),
            room: Room::new(alloc),
            sums: None,
        })
    }

    /// The length that it shows.
    pub fn length(&self) -> u32
        ensures { result ≡ self.now.length }
    {
        self.length
    }

    /// The mesh that it shows.
    pub fn mesh(&self) -> &Mesh
        ensures { result.now ≡ self.now.mesh }
    {
        self.mesh.get()
    }

    /// How many tiles it has.
    pub fn tiles(&self) -> u32
        ensures { result ≡ tile_count self.now.mesh.setting }
    {
        tiles(&self.mesh.get().setting)
    }

    /// An answer that is right in its mesh. The memory that a search for a path works in is kept for the next.
    pub fn ask(&mut self, alloc: Global, question: &Question) -> Result<Answer, AllocError>
        requires { IsAnswerable question.now }
        ensures right { IfOk result (IsRight self.old.mesh question.now) }
        ensures low_cost { IfOk result HasLowCost }
        ensures same { self.new ≡ self.old }
    {
        self.mesh.ask_in(alloc, &mut self.room, question)
    }

    /// An answer to a question of any kind that is right in its mesh.
    pub fn ask_by<Q: Asked>(&self, alloc: Global, question: &Q) -> Result<Q::Answer, AllocError>
        requires question { Q.can_ask question.now }
        ensures right { IfOk result (λ answer. Q.is_right question.now self.now.mesh answer) }
    {
        question.ask(alloc, self.mesh.get())
    }

    /// The same, of a question that a search answers. The memory that the search works in is kept for the next.
    pub fn ask_in_room<Q: AskedIn>(
        &mut self,
        alloc: Global,
        question: &Q,
    ) -> Result<Q::Answer, AllocError>
        requires question { Q.can_ask question.now }
        ensures right { IfOk result (λ answer. Q.is_right question.now self.old.mesh answer) }
        ensures same { self.new ≡ self.old }
    {
        question.ask_in(alloc, &mut self.room, self.mesh.get())
    }

    /// A right answer to the question from which polygons a place is reached within a cost: the links of what a level shows lead there and back.
    /// The memory that the search works in is kept for the next.
    pub fn flood_back(
        &mut self,
        alloc: Global,
        query: &FloodQuery,
    ) -> Result<FloodAnswer, AllocError>
        requires { CanFlood query.now }
        ensures right { IfOk result (λ answer. IsRightFloodBack query.now self.old.mesh answer) }
        ensures same { self.new ≡ self.old }
    {
        flood_back_in(alloc, &mut self.room, self.mesh.get(), query)
    }

    /// The place that a number draws. The sums of the spots of its areas are kept for the next draw, where there is memory for them.
    pub fn draw_place(&mut self, alloc: Global, asked: DrawPlace) -> DrawAnswer
        ensures right { IsRightDraw self.old.mesh asked result }
        ensures same { self.new ≡ self.old }
    {
        draw_place_in(alloc, self.mesh.get(), &mut self.sums, asked)
    }
}

/// A mesh with other costs, which shares its tiles and lists of links with the one that is lent.
pub(crate) fn with_costs(
    alloc: Global,
    mesh: &Mesh,
    costs: [u32; AREAS],
) -> Result<Mesh, AllocError>
    requires sound { IsSound mesh.now }
    requires setting { IsSetting mesh.now.setting }
    requires two_way { IsTwoWay mesh.now }
    requires costs { AreCosts costs }
    ensures mesh { IfOk result (λ made. made ≡ Rattle.nav_handle.specs.Views.with_costs costs mesh.now) }
    ensures sound { IfOk result IsSound }
    ensures setting { IfOk result (λ made. IsSetting made.setting) }
    ensures two_way { IfOk result IsTwoWay }
{
    let mut made = copy_mesh(alloc, mesh)?;
    made.setting.costs = costs;
    Ok(made)
}

/// A table of costs of a slice of numbers, one an area: none exactly where there are not as many as areas, or one is not from 1 to 1000.
pub fn table_of(costs: &[u32]) -> Option<[u32; AREAS]>
    ensures table { IfSome result (λ table. table ≡ costs.now) }
    ensures rules { IfSome result AreCosts }
    ensures none { IsNone result ↔ (AreCosts costs.now → ⊥) }
{
    if costs.len() != AREAS || !are_costs(costs) {
        return None;
    }
    let mut table = [1; AREAS];
    table.copy_from_slice(costs);
    Some(table)
}

/// Whether all numbers are costs.
fn are_costs(costs: &[u32]) -> bool
    ensures { result ≡ list_all is_cost costs.now }
{
    costs.iter().all(|cost| 1 <= *cost && *cost <= 1000)
}
