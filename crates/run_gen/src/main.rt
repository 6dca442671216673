//! `navd gen 1 32` as the gate runs it: a made input is played and summed up, and the exit status is 0. What is wanted is by the second program of
//! reference/.
#![tactic(auto)]

use nav_io::{StdSink, StdSource};
use std::io;
use std::process::ExitCode;
use top_call::program;

fn main(rt: HostRuntime) -> ExitCode {
    let mut source = StdSource::new(rt.reader());
    let mut sink = StdSink::new(io::writer(&rt));
    ExitCode::from(program(&rt, &rt, rt.alloc(), &mut source, &mut sink))
}
