//! Asks questions in the mesh of a field, to be timed. The input's first line says how (1 for hop walks, 2 for walks over links by a search
//! without an estimate, 3 for corridors, all between random points; 4 for paths from one end of the field to the other, 5 for marches along
//! them, of random lengths; 6 for floors of random columns, 7 for aims), the second how many questions are asked, the third how many jumps each hop walk has, and the field text follows.
//! Prints how many polygons there are, how many questions have a walk, and how many steps all walks have together: of a march, those left.
#![tactic(auto)]

mod asking;
mod ends;
mod inside;
mod level;
mod plain;
mod random;

use asking::{Outcome, measured};
use std::io;
use std::io::Read;
use std::marker::Brand;
use std::sync::ledger::Blank;

fn main(rt: HostRuntime) -> io::Result<()> {
    let mut input = Vec::new(rt.alloc());
    rt.reader().read_to_end(&mut input)?;
    let outcome: Outcome = measured::<Brand>(rt.alloc(), input.as_slice(), Blank::new(1));
    match outcome {
        Outcome::Made(made) => println!(rt;
            "{} polygons, {} walks, {} steps",
            made.polygons, made.walks, made.steps
        ),
        Outcome::Fault => println!(rt; "fault"),
        Outcome::OutOfMemory => println!(rt; "out of memory"),
    }
}
