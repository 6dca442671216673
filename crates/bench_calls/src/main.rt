//! Takes measures of single stages, which scripts time: each line of the input, as `turns 1000`, names a measure and how often to take it.
//! For each it prints the name and a sum that comes from all of the work. Of `text ROUNDS`, behind which a field text stands up to the end of
//! the input, it prints how many spans and lines the text has. A line that names no measure ends it with an error line and status 2.
#![tactic(auto)]

mod chain;
mod locks;
mod paths;
mod roots;
mod shapes;
mod texts;

use nav_text::first_line;
use std::alloc::{AllocError, Global};
use std::io;
use std::io::{Eprint, Print, Read};
use std::process::ExitCode;
use std::sync::Wait;
use texts::Reading;

// The first word of a line; none of one that is no text.
fn name_of(line: &[u8]) -> &str {
    match str::from_utf8(line) {
        Ok(text) => text.split(' ').next().unwrap_or(""),
        Err(_) => "",
    }
}

// The sum of what a line names, if it names a measure that needs no text.
fn take<R: Wait>(rt: &R, alloc: Global, line: &[u8]) -> Result<Option<u64>, AllocError> {
    if let Some(sum) = roots::take(line) {
        return Ok(Some(sum));
    }
    if let Some(sum) = paths::take(alloc, line)? {
        return Ok(Some(sum));
    }
    locks::take(rt, alloc, line)
}

fn print_reading(rt: &impl Print, reading: Reading) -> io::Result<()> {
    match reading {
        Reading::Read { spans, lines } => println!(rt; "{spans} spans, {lines} lines"),
        Reading::Fault { line, kind } => println!(rt; "fault {line} {kind}"),
        Reading::OutOfMemory => println!(rt; "out of memory"),
    }
}

fn print_sum(rt: &impl Print, line: &[u8], sum: u64) -> io::Result<()> {
    println!(rt; "{} {sum}", name_of(line))
}

fn refuse(rt: &impl Eprint, line: &[u8]) -> io::Result<ExitCode> {
    eprintln!(rt; "no measure of this form: {}", name_of(line))?;
    Ok(ExitCode::from(2))
}

// Takes the measures that lines name, up to a text or a line that names none.
fn measure(rt: &(impl Print + Eprint + Wait), alloc: Global, input: &[u8]) -> io::Result<ExitCode> {
    let mut rest = input;
    while let Some((line, after)) = first_line(rest) {
        if let Some(reading) = texts::take(alloc, line, after) {
            print_reading(rt, reading)?;
            break;
        }
        let Some(sum) = take(rt, alloc, line)? else {
            return refuse(rt, line);
        };
        print_sum(rt, line, sum)?;
        rest = after;
    }
    Ok(ExitCode::SUCCESS)
}

fn main(rt: HostRuntime) -> io::Result<ExitCode> {
    let mut input = Vec::new(rt.alloc());
    rt.reader().read_to_end(&mut input)?;
    measure(&rt, rt.alloc(), input.as_slice())
}
