//! Makes steps of a random crowd on the mesh of a field, and prints them, for `reference/crowd_check.py`, or only how many agents moved, to be timed.
//! The input's lines say how many agents there are, how many steps they make, from which number on their places and wishes are drawn, up to which
//! radius, up to which speed, and whether all is printed (1) or only the number of moves (0); the field text follows.
#![tactic(auto)]

mod crowd;
mod level;
mod printing;
mod random;
mod walking;

use std::io;
use std::io::Read;
use std::marker::Brand;
use std::sync::ledger::Blank;
use walking::{Outcome, walked};

fn main(rt: HostRuntime) -> io::Result<()> {
    let mut input = Vec::new(rt.alloc());
    rt.reader().read_to_end(&mut input)?;
    let outcome: Outcome = walked::<Brand>(&rt, rt.alloc(), input.as_slice(), Blank::new(1));
    match outcome {
        Outcome::Moves(moves) => println!(rt; "{moves} moves"),
        Outcome::Fault => println!(rt; "fault"),
        Outcome::OutOfMemory => println!(rt; "out of memory"),
        Outcome::Unwritten => println!(rt; "unwritten"),
    }
}
