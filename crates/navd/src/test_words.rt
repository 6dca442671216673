//! The program on the words of an environment that the test makes: how it exits, and what is written by then. What is wanted was worked out by hand.

ghost use Rattle.std.specs.Io.{WritesAtMost};

use nav_io::{MemorySink, MemorySource};
use std::alloc::Global;
use std::env::{Env, FillError};
use std::io::Read;
use std::process::Abort;
use std::sync::Wait;
use std::thread::Threads;
use top_call::program;

/// An environment of these words and no variables. The first word is the program's name.
#[derive(Clone, Copy)]
struct WordList<'a> {
    words: &'a [&'a [u8]],
}

impl Env for WordList<'_> {
    fn arg(&self, i: usize, buf: &mut [u8]) -> Result<usize, FillError> {
        if i >= self.words.len() {
            return Err(FillError::NotPresent);
        }
        fill(self.words[i], buf)
    }

    fn var(&self, _name: &str, _buf: &mut [u8]) -> Result<usize, FillError> {
        Err(FillError::NotPresent)
    }

    fn var_at(&self, _i: usize, _buf: &mut [u8]) -> Result<usize, FillError> {
        Err(FillError::NotPresent)
    }
}

/// Copies a word to the front of the buffer, where it fits.
fn fill(word: &[u8], buf: &mut [u8]) -> Result<usize, FillError>
    ensures { WritesAtMost result buf.new }
{
    if word.len() > buf.len() {
        return Err(FillError::TooLong);
    }
    let mut rest = word;
    match rest.read(buf) {
        Ok(count) => Ok(count),
        Err(_) => Err(FillError::NotPresent),
    }
}

const NAVD: &[u8] = b"navd";

const PLAY: &[u8] = b"play";

const LIVE: &[u8] = b"live";

const RASTER: &[u8] = b"raster";

const GEN: &[u8] = b"gen";

const ONE: &[u8] = b"1";

const SIZE: &[u8] = b"32";

/// A word of 300 bytes, longer than the first buffer that is tried.
const LONG: &[u8] = &[b'x'; 300];

/// Words that are no text.
const NO_TEXT: &[u8] = b"\xff";

const HALF_A_LETTER: &[u8] = b"\xc3";

/// The summary of the number 1 and the size 32, by a second program that was written apart from this one.
const SUMMARY: &str =
    "gen 1 32\ninput 32189 2369\nhistory 120 published 120\npaths 1 nopath 2 nostart 48 nogoal 13\ncost 404\nmesh 40 74\n";

/// The words, the program's name first; the exit status, and what is written where nothing is read.
type Row = (&'static [&'static [u8]], u8, &'static str);

static ROWS: [Row; 12] = [
    (&[NAVD, GEN, ONE, SIZE], 0, SUMMARY),
    (&[NAVD, PLAY], 1, "fault 1 7\n"),
    (&[NAVD, LIVE], 1, "fault 1 7\n"),
    (&[NAVD, RASTER], 1, "fault 1 7\n"),
    // The first word is the name, whatever it is.
    (&[PLAY, RASTER], 1, "fault 1 7\n"),
    (&[PLAY], 2, "fault usage\n"),
    (&[], 2, "fault usage\n"),
    (&[NAVD, PLAY, PLAY], 2, "fault usage\n"),
    (&[NAVD, LONG], 2, "fault usage\n"),
    (&[NAVD, NO_TEXT], 2, "fault usage\n"),
    (&[NAVD, PLAY, HALF_A_LETTER], 2, "fault usage\n"),
    (&[NO_TEXT, PLAY], 2, "fault usage\n"),
];

/// Runs the program on words, over a source whose first read fails or that has nothing, and a sink whose first write may fail.
fn exit_of<R: Abort + Threads + Wait + Sync>(
    rt: &R,
    alloc: Global,
    words: &[&[u8]],
    fails: (u32, u32),
) -> (u8, MemorySink) {
    let failing_reads = vec![in alloc; fails.0].expect(rt, "memory");
    let mut source = MemorySource::new(Vec::new(alloc), 100, failing_reads);
    let failing_writes = vec![in alloc; fails.1].expect(rt, "memory");
    let mut sink = MemorySink::with_room(alloc, 100, 1000, failing_writes).expect(rt, "memory");
    let exit = program(rt, &WordList { words }, alloc, &mut source, &mut sink);
    (exit, sink)
}

fn check_rows<R: Abort + Threads + Wait + Sync>(rt: &R, alloc: Global, rows: &[Row]) {
    for (words, exit, held) in rows {
        let (found, sink) = exit_of(rt, alloc, *words, (0, 0));
        assert!(rt; found == *exit);
        assert!(rt; sink.bytes() == held.as_bytes());
    }
}

#[test]
fn exits_with_the_number_of_its_status(rt: HostRuntime) {
    check_rows(&rt, rt.alloc(), &ROWS);
}

/// A read or a write that fails: status 3, and status 4.
#[test]
fn exits_with_the_number_of_a_fault(rt: HostRuntime) {
    let (unread, empty) = exit_of(&rt, rt.alloc(), &[NAVD, PLAY], (1, 0));
    assert!(rt; unread == 3);
    assert!(rt; empty.bytes().is_empty());
    let (unwritten, none) = exit_of(&rt, rt.alloc(), &[NAVD, PLAY], (0, 1));
    assert!(rt; unwritten == 4);
    assert!(rt; none.bytes().is_empty());
}
