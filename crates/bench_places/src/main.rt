//! Asks for the places nearest to random points of the mesh of a field, to be timed. The input's first line says how far a place may be in
//! the plane, in sixteenths, the second how far its floor may lie down and up, the third how many questions are asked; the field text
//! follows, whose floors are looked for at the height 10. Prints how many polygons there are and how many questions have a place.
#![tactic(auto)]

mod asking;
mod level;
mod random;

use asking::{Outcome, measured};
use std::io;
use std::io::Read;
use std::marker::Brand;
use std::sync::ledger::Blank;

fn main(rt: HostRuntime) -> io::Result<()> {
    let mut input = Vec::new(rt.alloc());
    rt.reader().read_to_end(&mut input)?;
    let outcome: Outcome = measured::<Brand>(rt.alloc(), input.as_slice(), Blank::new(1));
    match outcome {
        Outcome::Made(made) => println!(rt; "{} polygons, {} places", made.polygons, made.places),
        Outcome::Fault => println!(rt; "fault"),
        Outcome::OutOfMemory => println!(rt; "out of memory"),
    }
}
