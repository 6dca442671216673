//! The program: a run on the words of an environment, to the exit status.

ghost use Rattle.std.specs.Prelude.{◌+◌};
ghost use Rattle.nav_io.specs.Causes.{TookAtMost};
ghost use Rattle.top_call.specs.Inputs.{input_limit};
ghost use Rattle.top_call.specs.Outsides.{outside_of};
ghost use Rattle.top_call.specs.Exits.{HasExited, HasRunOnSome};

use crate::top::run;
use crate::words::Status;
use nav_io::{Sink, Source};
use std::alloc::{AllocError, Global};
use std::env::{Env, args};
use std::io::ErrorKind;
use std::marker::Brand;
use std::sync::Wait;
use std::sync::ledger::Blank;
use std::thread::Threads;

/// Runs the program on the words that stand behind its name in the environment, and gives the number of the status as the exit status. Where a
/// word is no text, they are in no form.
///
/// That the run was one on some words, or that memory was refused before it, is the contract. Which words an environment gives is in no clause.
pub fn program<R: Threads + Wait + Sync, E: Env, S: Source, K: Sink>(
    rt: &R,
    env: &E,
    alloc: Global,
    source: &mut S,
    sink: &mut K,
) -> u8
    ensures exited { HasExited (outside_of (S.left source.old) (S.faults source.old) (K.held sink.old) (K.faults sink.old))
        (outside_of (S.left source.new) (S.faults source.new) (K.held sink.new) (K.faults sink.new)) result }
    ensures took { TookAtMost (S.left source.old) (S.left source.new) (input_limit + 1) }
{
    run_on_words(rt, env, alloc, source, sink).number()
}

/// Runs the program on the words of the environment, with a counter of its own.
fn run_on_words<R: Threads + Wait + Sync, E: Env, S: Source, K: Sink>(
    rt: &R,
    env: &E,
    alloc: Global,
    source: &mut S,
    sink: &mut K,
) -> Status
    ensures ran { HasRunOnSome (outside_of (S.left source.old) (S.faults source.old) (K.held sink.old) (K.faults sink.old))
        (outside_of (S.left source.new) (S.faults source.new) (K.held sink.new) (K.faults sink.new)) result }
    ensures took { TookAtMost (S.left source.old) (S.left source.new) (input_limit + 1) }
{
    match words_of(env, alloc) {
        Ok(words) => run::<_, _, _, Brand>(
            rt,
            alloc,
            words.as_slice(),
            source,
            sink,
            Blank::new(1),
        ),
        Err(_) => Status::OutOfMemory,
    }
}

/// The words behind the program's name. One that is no text is in no form, and neither are no words. Only memory can be refused.
fn words_of<E: Env>(env: &E, alloc: Global) -> Result<Vec<String>, AllocError> {
    match args(&(env, alloc)) {
        Ok(mut all) => {
            all.next();
            all.collect(alloc)
        }
        Err(error) if error.kind() == ErrorKind::InvalidData => Ok(Vec::new(alloc)),
        Err(_) => Err(AllocError),
    }
}
