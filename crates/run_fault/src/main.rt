//! `navd play` as the gate runs it, on a text whose third line says a tile of three columns: the line of its fault is written, and the exit status
//! is 1.
#![tactic(auto)]

use nav_io::{StdSink, StdSource};
use std::io;
use std::process::ExitCode;
use top_call::program;

fn main(rt: HostRuntime) -> ExitCode {
    let mut source = StdSource::new(rt.reader());
    let mut sink = StdSink::new(io::writer(&rt));
    ExitCode::from(program(&rt, &rt, rt.alloc(), &mut source, &mut sink))
}
