//! The input, and the steps.

ghost use Rattle.std.specs.Prelude.{◌≡◌, ◌<◌, take, IfOk};
ghost use Rattle.nav_ground.specs.Fields.{IsField};
ghost use Rattle.nav_ground.specs.Limits.{IsSetting};
ghost use Rattle.span_text.specs.FieldText.{IsFieldText};
ghost use Rattle.mesh_types.specs.Soundness.{IsSound};

use crate::crowd::{RandomWishes, Sizes, are_sized, order_of, random_agents, random_wishes};
use crate::level::level;
use crate::printing::{print_agents, print_mesh, print_wishes};
use crate::random::Random;
use crowd_filter::step;
use crowd_moves::{CrowdAgent, CrowdWishes};
use layer_cut::ground;
use mesh_types::Mesh;
use nav_base::read_number;
use nav_text::first_line;
use span_text::{FieldRefusal, FieldText, read_field};
use std::alloc::{AllocError, Global};
use std::io;
use std::io::Print;
use std::sync::ledger::{Blank, Ledger};

/// What a run comes to.
#[derive(Clone, Copy)]
pub enum Outcome {
    Moves(u64),
    /// The input is no such text.
    Fault,
    OutOfMemory,
    /// What was to be printed could not be.
    Unwritten,
}

/// What is asked.
#[derive(Clone, Copy)]
struct Wanted {
    agents: u32,
    steps: u32,
    seed: u32,
    sizes: Sizes,
    prints: bool,
}

/// What the input comes to.
pub fn walked<L: Ledger>(rt: &impl Print, alloc: Global, input: &[u8], blank: Blank) -> Outcome
    requires name { blank.name ≡ L.name }
    requires parts { blank.parts ≡ L.parts }
    requires some { 0 < blank.parts }
{
    let (agents, rest) = number_line(input);
    let (steps, rest) = number_line(rest);
    let (seed, rest) = number_line(rest);
    let (radius, rest) = number_line(rest);
    let (speed, rest) = number_line(rest);
    let (prints, text) = number_line(rest);
    let wanted = Wanted {
        agents,
        steps,
        seed,
        sizes: Sizes { radius, speed },
        prints: prints == 1,
    };
    match read_field(alloc, text) {
        Ok(read) => match built::<L>(alloc, read, text, blank) {
            Ok(mesh) => walk(rt, alloc, &mesh, wanted),
            Err(AllocError) => Outcome::OutOfMemory,
        },
        Err(FieldRefusal::Fault(_)) => Outcome::Fault,
        Err(FieldRefusal::OutOfMemory) => Outcome::OutOfMemory,
    }
}

/// The number on the first line, up to a million, and the rest; 0 where there is none.
fn number_line(input: &[u8]) -> (u32, &[u8]) {
    match first_line(input) {
        Some((line, rest)) => (read_number(line, 1000000).unwrap_or(0), rest),
        None => (0, input),
    }
}

/// The mesh.
fn built<L: Ledger>(
    alloc: Global,
    read: FieldText,
    bytes: &[u8],
    blank: Blank,
) -> Result<Mesh, AllocError>
    requires setting { IsSetting read.setting }
    requires field { IsField read.field }
    requires text { IsFieldText (take read.used bytes.now) read.setting read.field }
    requires name { blank.name ≡ L.name }
    requires parts { blank.parts ≡ L.parts }
    requires some { 0 < blank.parts }
    ensures sound { IfOk result IsSound }
    ensures setting { IfOk result (λ mesh. IsSetting mesh.setting) }
{
    let ground = ground(alloc, read.setting, read.field)?;
    level::<L>(alloc, &ground, blank)
}

/// All steps.
fn walk(rt: &impl Print, alloc: Global, mesh: &Mesh, wanted: Wanted) -> Outcome
    requires sound { IsSound mesh.now }
    requires setting { IsSetting mesh.now.setting }
{
    let mut random = Random {
        state: u64::from(wanted.seed),
    };
    let Ok(mut agents) = random_agents(alloc, mesh, wanted.agents, wanted.sizes, &mut random) else {
        return Outcome::OutOfMemory;
    };
    if wanted.prints && print_mesh(rt, mesh).is_err() {
        return Outcome::Unwritten;
    }
    let mut moves = 0_u64;
    for count in 0..wanted.steps {
        let turned = count % 2 == 1;
        match one_step(
            rt,
            alloc,
            mesh,
            agents.as_mut_slice(),
            &mut random,
            Turn {
                turned,
                prints: wanted.prints,
            },
        ) {
            Outcome::Moves(made) => moves = moves.wrapping_add(made),
            other => return other,
        }
    }
    Outcome::Moves(moves)
}

/// How one step is made: whether the order is turned round, and whether it is printed.
#[derive(Clone, Copy)]
struct Turn {
    turned: bool,
    prints: bool,
}

/// One step with random wishes; how many agents moved.
fn one_step(
    rt: &impl Print,
    alloc: Global,
    mesh: &Mesh,
    agents: &mut [CrowdAgent],
    random: &mut Random,
    turn: Turn,
) -> Outcome
    requires sound { IsSound mesh.now }
    requires setting { IsSetting mesh.now.setting }
{
    if !are_sized(agents) || agents.len() > 1000000 {
        return Outcome::Fault;
    }
    let Ok(wishes) = random_wishes(alloc, agents, random) else {
        return Outcome::OutOfMemory;
    };
    let Ok(order) = order_of(alloc, agents.len(), turn.turned) else {
        return Outcome::OutOfMemory;
    };
    if turn.prints && print_before(rt, agents, &wishes).is_err() {
        return Outcome::Unwritten;
    }
    let asked = CrowdWishes {
        order: order.as_slice(),
        first: wishes.first.as_slice(),
        vectors: wishes.vectors.as_slice(),
    };
    let Ok(settles) = step(alloc, mesh, asked, 8, agents) else {
        return Outcome::OutOfMemory;
    };
    if turn.prints && print_after(rt, agents, settles).is_err() {
        return Outcome::Unwritten;
    }
    Outcome::Moves(agents.len() as u64)
}

fn print_before(rt: &impl Print, agents: &[CrowdAgent], wishes: &RandomWishes) -> io::Result<()> {
    println!(rt; "step")?;
    print_agents(rt, "was", agents)?;
    print_wishes(rt, wishes, agents.len())
}

fn print_after(rt: &impl Print, agents: &[CrowdAgent], settles: bool) -> io::Result<()> {
    print_agents(rt, "is", agents)?;
    println!(rt; "settles {}", u32::from(settles))
}
