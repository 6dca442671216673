//! What a run comes to, and how that is printed.

use std::io;
use std::io::Print;

/// What was made.
#[derive(Clone, Copy)]
pub struct Made {
    pub spans: usize,
    pub tiles: usize,
    pub polygons: usize,
    pub links: usize,
}

/// What a run comes to.
#[derive(Clone, Copy)]
pub enum Outcome {
    Made(Made),
    /// The field text has this fault.
    Fault { line: u32, kind: u32 },
    OutOfMemory,
    /// The input has no two lines before a field text.
    Nothing,
}

/// Prints what a run comes to, as one line.
pub fn print(rt: &impl Print, outcome: Outcome) -> io::Result<()> {
    match outcome {
        Outcome::Made(made) => print_made(rt, made),
        Outcome::Fault { line, kind } => println!(rt; "fault {line} {kind}"),
        Outcome::OutOfMemory => println!(rt; "out of memory"),
        Outcome::Nothing => Ok(()),
    }
}

fn print_made(rt: &impl Print, made: Made) -> io::Result<()> {
    println!(rt;
        "{} spans, {} tiles, {} polygons, {} links",
        made.spans, made.tiles, made.polygons, made.links
    )
}
