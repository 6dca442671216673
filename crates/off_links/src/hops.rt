//! Hop walks between two places. The question for a hop walk. Cheapest hop walks.

ghost use Rattle.std.specs.Prelude.{◌≡◌, [], IfOk, IfSome, IfNone, All, map};
ghost use Rattle.nav_ground.specs.Limits.{IsSetting};
ghost use Rattle.mesh_types.specs.declared.answers.Answer.{Answer};
ghost use Rattle.mesh_types.specs.declared.answers.HopAnswer.{HopAnswer};
ghost use Rattle.mesh_types.specs.Hops.{AreAlikeHops, IsAsPath};
ghost use Rattle.mesh_types.specs.Right.{IsRightPath};
ghost use Rattle.mesh_types.specs.Soundness.{IsSound};
ghost use Rattle.off_links.specs.Questions.{CanHop, HasFewSteps, IsRightHop};
ghost use Rattle.graph_search.specs.declared.graph.Step.{Step};
ghost use Rattle.corridor_search.specs.MeshGraphs.{IsThere};
ghost use Rattle.off_links.specs.OffMeshLinks.{AreJumps};
ghost use Rattle.off_links.specs.HopGraphs.{IsHopped, IsHopStep, hop_step, IsCheapestHops, HasNoHops};

use crate::hop_graph::{HopGraph, step_at};
use crate::off_mesh_links::{off_mesh_links, slots};
use crate::pulling::turns;
use corridor_search::vertex_at;
use graph_search::{Step, cheapest_walk};
use mesh_locate::locate;
use mesh_types::{Asked, HopAnswer, HopFound, HopStep, Jump, Mesh, PolyRef};
use nav_base::Point;
use nav_lists::Items;
use std::alloc::{AllocError, Global};

/// A right answer to the question for a hop walk. Only memory can be refused.
pub fn hop(alloc: Global, mesh: &Mesh, question: &HopQuestion) -> Result<HopAnswer, AllocError>
    requires sound { IsSound mesh.now }
    requires setting { IsSetting mesh.now.setting }
    requires question { CanHop question.now }
    ensures right { IfOk result (λ answer. IsRightHop question.now mesh.now answer) }

    // Right answers are of one kind, with the same first polygon and the same cost.
    ensures alike { IfOk result (λ answer. (other : HopAnswer) → IsRightHop question.now mesh.now other → AreAlikeHops answer other) }

    // Without jumps they are those of a right answer to the question for a path.
    ensures no_jumps { IfOk result (λ answer. question.now.jumps ≡ [] → (path : Answer)
        → IsRightPath mesh.now question.now.from question.now.from_y question.now.to question.now.to_y path → IsAsPath answer path) }

    // Circles that cost nothing make some right answers long; the one that is given has fewer steps than the mesh has polygons.
    ensures short { IfOk result (λ answer. HasFewSteps mesh.now answer) }
{
    right_hop(alloc, mesh, question)
}

/// The same, with no more said of it than that it is right and short.
fn right_hop(alloc: Global, mesh: &Mesh, question: &HopQuestion) -> Result<HopAnswer, AllocError>
    requires sound { IsSound mesh.now }
    requires setting { IsSetting mesh.now.setting }
    requires question { CanHop question.now }
    ensures right { IfOk result (λ answer. IsRightHop question.now mesh.now answer) }
    ensures short { IfOk result (λ answer. HasFewSteps mesh.now answer) }
{
    let Some(first) = locate(mesh, question.from, question.from_y) else {
        return Ok(HopAnswer::NoStart);
    };
    let Some(last) = locate(mesh, question.to, question.to_y) else {
        return Ok(HopAnswer::NoGoal);
    };
    let jumps = question.jumps.as_slice();
    let Some(hops) = cheapest_hops(alloc, mesh, jumps, first, last)? else {
        return Ok(HopAnswer::NoPath);
    };
    let turns = turns(alloc, mesh, question, (first, last), hops.steps.as_slice())?;
    Ok(HopAnswer::Found(HopFound {
        first,
        cost: hops.cost,
        steps: hops.steps,
        turns,
    }))
}

impl Asked for HopQuestion {
    type Answer = HopAnswer;

    ghost can_ask = { λ question. CanHop question };

    ghost is_right = { λ question mesh answer. IsRightHop question mesh answer };

    fn ask(&self, alloc: Global, mesh: &Mesh) -> Result<HopAnswer, AllocError> {
        hop(alloc, mesh, self)
    }
}

/// The question for a cheapest walk from one place to another over links and jumps, numbered from 0 in their order. Points are in sixteenths
/// of a cell and heights in height units.
#[derive(PartialEq, Eq, Drop)]
pub struct HopQuestion {
    pub from: Point,
    pub from_y: u32,
    pub to: Point,
    pub to_y: u32,
    pub jumps: Items<Jump>,
}

/// A hop walk: its cost, and its steps in order.
#[derive(Drop)]
pub(crate) struct HopPath {
    pub(crate) cost: u64,
    pub(crate) steps: Items<HopStep>,
}

/// A hop walk from one polygon to another than which no hop walk costs less; none exactly where none joins the two.
pub(crate) fn cheapest_hops(
    alloc: Global,
    mesh: &Mesh,
    jumps: &[Jump],
    from: PolyRef,
    to: PolyRef,
) -> Result<Option<HopPath>, AllocError>
    requires sound { IsSound mesh.now }
    requires setting { IsSetting mesh.now.setting }
    requires jumps { AreJumps jumps.now }
    requires from { IsThere mesh.now from }
    ensures found { IfOk result (λ answer. IfSome answer (λ hops. IsCheapestHops mesh.now jumps.now from to hops)) }
    ensures none { IfOk result (λ answer. IfNone answer (HasNoHops mesh.now jumps.now from to)) }
{
    let off_mesh_links = off_mesh_links(alloc, mesh, jumps)?;
    let slots = slots(alloc, off_mesh_links.as_slice())?;
    let graph = HopGraph {
        mesh,
        jumps,
        off_mesh_links: off_mesh_links.as_slice(),
        slots: slots.as_slice(),
    };
    match cheapest_walk(alloc, &graph, vertex_at(from), vertex_at(to))? {
        Some(walk) => {
            let steps = steps_along(alloc, graph, walk.steps.as_slice())?;
            let cost = walk.cost;
            Ok(Some(HopPath { cost, steps }))
        }
        None => Ok(None),
    }
}

/// The steps of a hop walk that steps in the graph take, in order.
fn steps_along(
    alloc: Global,
    graph: HopGraph<'_>,
    steps: &[Step],
) -> Result<Items<HopStep>, AllocError>
    requires sound { IsHopped graph.mesh.now graph.jumps.now graph.off_mesh_links.now }
    requires there { All (λ (step : Step). IsHopStep graph.mesh.now graph.off_mesh_links.now step) steps.now }
    ensures { IfOk result (λ taken. taken ≡ map (hop_step graph.entry.mesh.now graph.entry.off_mesh_links.now) steps.now) }
{
    let mut taken = Vec::with_capacity(alloc, steps.len())?;
    for step in steps {
        taken.push(step_at(graph, *step))?;
    }
    Ok(Items::from_vec(taken))
}
