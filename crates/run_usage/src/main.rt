//! `navd play live` as the gate runs it: the words are in no form, that is written, and the exit status is 2.
#![tactic(auto)]

use nav_io::{StdSink, StdSource};
use std::io;
use std::process::ExitCode;
use top_call::program;

fn main(rt: HostRuntime) -> ExitCode {
    let mut source = StdSource::new(rt.reader());
    let mut sink = StdSink::new(io::writer(&rt));
    ExitCode::from(program(&rt, &rt, rt.alloc(), &mut source, &mut sink))
}
