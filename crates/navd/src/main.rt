//! The program `navd` runs a script over a level. For `play` it writes the play text of what it reads from standard input, for `live`, which runs
//! the script's lanes in threads, the live text of that, and for `gen NUMBER SIZE` the summary of an input that it makes and plays.
//!
//! `navd` of the crate `top_call` is the one top call: everything that the program promises is its contract. `main` hands the real environment,
//! source and sink to `program` of that crate, and ends with the status.
#![tactic(auto)]

use nav_io::{StdSink, StdSource};
use std::io;
use std::process::ExitCode;
use top_call::program;

fn main(rt: HostRuntime) -> ExitCode {
    let mut source = StdSource::new(rt.reader());
    let mut sink = StdSink::new(io::writer(&rt));
    ExitCode::from(program(&rt, &rt, rt.alloc(), &mut source, &mut sink))
}

#[cfg(test)]
mod test_clears;
#[cfg(test)]
mod test_lives;
#[cfg(test)]
mod test_plays;
#[cfg(test)]
mod test_rasters;
#[cfg(test)]
mod test_runs;
#[cfg(test)]
mod test_words;
#[cfg(test)]
mod test_workers;
#[cfg(test)]
mod tests;
