//! The program `navd_scene` plays an input and writes its play text and, behind it, the scene of the mesh that is published after the last line.
//! It takes no words. Faults, other texts and statuses are those of `navd play`.
//!
//! `run` is the one top call: everything that the program promises of an input is its contract. `main` makes the real source and sink, calls it
//! with a counter of its own, and ends with the status.
#![tactic(auto)]

mod course;

use crate::course::{finish, run};
use nav_io::{StdSink, StdSource};
use std::alloc::AllocError;
use std::marker::Brand;
use std::process::ExitCode;
use std::sync::ledger::Blank;
use std::{env, io};
use top_call::Status;

/// Whether words stand behind the program's name. One that is no text is a word too. Only memory can be refused.
fn has_words(rt: &HostRuntime) -> Result<bool, AllocError> {
    match env::args(rt) {
        Ok(mut all) => {
            all.next();
            Ok(all.next().is_some())
        }
        Err(error) if error.kind() == io::ErrorKind::InvalidData => Ok(true),
        Err(_) => Err(AllocError),
    }
}

fn main(rt: HostRuntime) -> ExitCode {
    let mut sink = StdSink::new(io::writer(&rt));
    let status = match has_words(&rt) {
        Ok(false) => run::<_, _, _, Brand>(
            &rt,
            rt.alloc(),
            &mut StdSource::new(rt.reader()),
            &mut sink,
            Blank::new(1),
        ),
        Ok(true) => finish(&mut sink, b"fault usage\n", Status::Usage),
        Err(_) => Status::OutOfMemory,
    };
    ExitCode::from(status.number())
}
