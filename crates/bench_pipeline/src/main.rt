//! Builds the mesh of a field, as strips or by outlines, up to a stage, to be timed: the input's first line says how far (1 reads the field text, 2 makes the
//! ground, 3 builds the mesh of each tile, 4 joins them), the second how many copies of the mesh with one tile replaced are made after that,
//! and the text follows.
#![tactic(auto)]

mod outcome;
mod stages;

use outcome::{Outcome, print};
use stages::measured;
use std::io;
use std::io::Read;
use std::marker::Brand;
use std::sync::ledger::Blank;

fn main(rt: HostRuntime) -> io::Result<()> {
    let mut input = Vec::new(rt.alloc());
    rt.reader().read_to_end(&mut input)?;
    let outcome: Outcome = measured::<_, Brand>(&rt, rt.alloc(), input.as_slice(), Blank::new(1));
    print(&rt, outcome)
}
