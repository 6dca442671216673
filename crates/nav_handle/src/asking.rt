//! What is asked of the mesh of a handle: of what a level has published, or of what a view shows.

ghost use Rattle.std.specs.Prelude.{◌≡◌};
ghost use Rattle.nav_base.specs.declared.point.Question.{Question};
ghost use Rattle.nav_query.specs.Questions.{IsAnswerable};
ghost use Rattle.path_queries.specs.Floods.{CanFlood};
ghost use Rattle.path_queries.specs.FloodsBack.{IsRightFloodBack};
ghost use Rattle.random_place.specs.Draws.{IsRightDraw};
ghost use Rattle.nav_handle.specs.Answers.{EndsSo, IsAsked, IsRepliedBy, seen_in};
ghost use Rattle.nav_handle.specs.Telling.{PathRoom, told_floors, told_path, told_ray};
ghost use Rattle.nav_handle.specs.Wire.{path_asked, ray_asked};
ghost use Rattle.nav_handle.specs.Statuses as status;

use crate::ends::{end_floors, end_path, end_ray, is_way, path_question, ray_question};
use crate::handles::{NavdLevel, NavdView};
use crate::wire::{
    EMPTY, NO_MEMORY, NavdFloor, NavdLink, NavdPath, NavdRay, NavdTurn, NavdWay, OUT_OF_RANGE,
};
use mesh_types::{Answer, Asked};
use nav_base::Question;
use path_queries::{AskedIn, FloodAnswer, FloodQuery};
use random_place::{DrawAnswer, DrawPlace};
use std::alloc::Global;

/// A handle of something that has a mesh, or of nothing.
pub trait HasMesh {
    ghost use Rattle.std.specs.Prelude.{Option};
    ghost use Rattle.mesh_types.specs.declared.mesh.Mesh.{Mesh};
    ghost use Rattle.nav_query.specs.Questions.{IsAnswerable};
    ghost use Rattle.nav_handle.specs.Answers.{IsReplied, IsRepliedBy};

    /// The mesh, where it holds something.
    ghost mesh_in: { Self → Option Mesh };

    /// Whether it holds the same before and after.
    ghost is_same: { Self → Self → Type 0 };

    /// An answer to a question of the mesh, or the status that says why there is none.
    fn ask(&mut self, alloc: Global, question: &Question) -> Result<Answer, u32>
        requires { IsAnswerable question.now }
        ensures same { is_same self.old self.new }
        ensures replied { IsReplied (mesh_in self.old) question.now result };

    /// The same, of a question of any kind.
    fn ask_by<Q: Asked>(&mut self, alloc: Global, question: &Q) -> Result<Q::Answer, u32>
        requires { Q.can_ask question.now }
        ensures same { is_same self.old self.new }
        ensures replied { IsRepliedBy (λ mesh answer. Q.is_right question.now mesh answer) (mesh_in self.old) result };

    /// The same, of a question that a search answers. The memory that a view's search works in is kept for the next.
    fn ask_in_room<Q: AskedIn>(&mut self, alloc: Global, question: &Q) -> Result<Q::Answer, u32>
        requires { Q.can_ask question.now }
        ensures same { is_same self.old self.new }
        ensures replied { IsRepliedBy (λ mesh answer. Q.is_right question.now mesh answer) (mesh_in self.old) result };

    /// What is left alone is the same.
    ghost untouched: { (handle : Self) → is_same handle handle };
}

impl HasMesh for NavdLevel {
    ghost use Rattle.std.specs.Prelude.{◌≡◌, refl};
    ghost use Rattle.nav_handle.specs.Answers.{shown_in};

    ghost mesh_in = { λ handle. shown_in handle.level };

    ghost is_same = { λ before after. after.level ≡ before.level };

    ghost untouched = { λ handle. refl };

    fn ask(&mut self, alloc: Global, question: &Question) -> Result<Answer, u32> {
        let Some(mut held) = self.take(alloc) else {
            return Err(EMPTY);
        };
        let told = held.ask_in_room(alloc, question);
        self.put(held);
        match told {
            Ok((_, answer)) => Ok(answer),
            Err(_) => Err(NO_MEMORY),
        }
    }

    fn ask_by<Q: Asked>(&mut self, alloc: Global, question: &Q) -> Result<Q::Answer, u32> {
        let Some(held) = self.take(alloc) else {
            return Err(EMPTY);
        };
        let told = held.ask_by(alloc, question);
        self.put(held);
        match told {
            Ok((_, answer)) => Ok(answer),
            Err(_) => Err(NO_MEMORY),
        }
    }

    fn ask_in_room<Q: AskedIn>(&mut self, alloc: Global, question: &Q) -> Result<Q::Answer, u32> {
        self.ask_by(alloc, question)
    }
}

impl HasMesh for NavdView {
    ghost use Rattle.std.specs.Prelude.{◌≡◌, refl};
    ghost use Rattle.nav_handle.specs.Answers.{seen_in};

    ghost mesh_in = { λ handle. seen_in handle.view };

    ghost is_same = { λ before after. after.view ≡ before.view };

    ghost untouched = { λ handle. refl };

    fn ask(&mut self, alloc: Global, question: &Question) -> Result<Answer, u32> {
        let Some(mut held) = self.take(alloc) else {
            return Err(EMPTY);
        };
        let told = held.ask(alloc, question);
        self.put(held);
        match told {
            Ok(answer) => Ok(answer),
            Err(_) => Err(NO_MEMORY),
        }
    }

    fn ask_by<Q: Asked>(&mut self, alloc: Global, question: &Q) -> Result<Q::Answer, u32> {
        let Some(held) = self.take(alloc) else {
            return Err(EMPTY);
        };
        let told = held.ask_by(alloc, question);
        self.put(held);
        match told {
            Ok(answer) => Ok(answer),
            Err(_) => Err(NO_MEMORY),
        }
    }

    fn ask_in_room<Q: AskedIn>(&mut self, alloc: Global, question: &Q) -> Result<Q::Answer, u32> {
        let Some(mut held) = self.take(alloc) else {
            return Err(EMPTY);
        };
        let told = held.ask_in_room(alloc, question);
        self.put(held);
        match told {
            Ok(answer) => Ok(answer),
            Err(_) => Err(NO_MEMORY),
        }
    }
}

impl NavdView {
    /// The answer to the question from which polygons of what it shows a place is reached within a cost, or the status that says why there
    /// is none.
    pub fn flood_back(&mut self, alloc: Global, query: &FloodQuery) -> Result<FloodAnswer, u32>
        requires { CanFlood query.now }
        ensures same { self.new.view ≡ self.old.view }
        ensures replied { IsRepliedBy (λ mesh answer. IsRightFloodBack query.now mesh answer) (seen_in self.old.view) result }
    {
        let Some(mut held) = self.take(alloc) else {
            return Err(EMPTY);
        };
        let told = held.flood_back(alloc, query);
        self.put(held);
        match told {
            Ok(answer) => Ok(answer),
            Err(_) => Err(NO_MEMORY),
        }
    }

    /// The place that a number draws of what it shows, or the status that says why there is none.
    pub fn draw_place(&mut self, alloc: Global, asked: DrawPlace) -> Result<DrawAnswer, u32>
        ensures same { self.new.view ≡ self.old.view }
        ensures replied { IsRepliedBy (λ mesh answer. IsRightDraw mesh asked answer) (seen_in self.old.view) result }
    {
        let Some(mut held) = self.take(alloc) else {
            return Err(EMPTY);
        };
        let told = held.draw_place(alloc, asked);
        self.put(held);
        Ok(told)
    }
}

/// A cheapest corridor and a taut path through it, from one place to another.
pub fn find_path<H: HasMesh>(
    alloc: Global,
    held: &mut H,
    way: &NavdWay,
    links: &mut [NavdLink],
    turns: &mut [NavdTurn],
    path: &mut NavdPath,
) -> u32
    ensures asked { IsAnswerable (path_asked way.now)
        → IsAsked told_path (H.mesh_in held.old) (path_asked way.now) (path.old, links.old, turns.old) (path.new, links.new, turns.new) result }
    ensures refused { (IsAnswerable (path_asked way.now) → ⊥)
        → EndsSo {Room = PathRoom} status.out_of_range (path.old, links.old, turns.old) (path.new, links.new, turns.new) result }
    ensures same { H.is_same held.old held.new }
{
    if !is_way(way) {
        return OUT_OF_RANGE;
    }
    let answer = held.ask(alloc, &path_question(way));
    end_path(answer, path, links, turns)
}

/// The straight walk from a place toward a point.
pub fn cast_ray<H: HasMesh>(alloc: Global, held: &mut H, way: &NavdWay, ray: &mut NavdRay) -> u32
    ensures asked { IsAnswerable (ray_asked way.now) → IsAsked told_ray (H.mesh_in held.old) (ray_asked way.now) ray.old ray.new result }
    ensures refused { (IsAnswerable (ray_asked way.now) → ⊥) → EndsSo status.out_of_range ray.old ray.new result }
    ensures same { H.is_same held.old held.new }
{
    if !is_way(way) {
        return OUT_OF_RANGE;
    }
    let answer = held.ask(alloc, &ray_question(way));
    end_ray(answer, ray)
}

/// The floors of the free cells of a column; how many there are is left at `count`.
pub fn find_floors<H: HasMesh>(
    alloc: Global,
    held: &mut H,
    x: u32,
    z: u32,
    floors: &mut [NavdFloor],
    count: &mut usize,
) -> u32
    ensures asked { IsAsked told_floors (H.mesh_in held.old) (Question.Floor x z) (count.old, floors.old) (count.new, floors.new) result }
    ensures same { H.is_same held.old held.new }
{
    let answer = held.ask(alloc, &Question::Floor { x, z });
    end_floors(answer, count, floors)
}
