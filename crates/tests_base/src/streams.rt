//! Runs of the sources, the sinks and the two calls. What is wanted was worked out by hand.

ghost use Rattle.std.specs.Prelude.{◌<◌};

use crate::checks::same;
use nav_io::{
    Actor, CalmSink, CalmSource, FreeGate, Gate, MemorySink, MemorySource, ReadRefusal, Source,
    Stage, StdSink, StdSource, WriteFault, read_all, write_all,
};
use std::alloc::{AllocError, Global};
use std::io;
use std::io::Read;
use std::process::Abort;

const TEXT: &[u8] = b"abcdefghij";

fn text(alloc: Global) -> Result<Vec<u8>, AllocError> {
    let mut bytes = Vec::new(alloc);
    bytes.extend_from_slice(TEXT)?;
    Ok(bytes)
}

/// A reader that fails at once.
#[derive(Drop)]
struct Broken;

impl Read for Broken {
    fn read(&mut self, _buf: &mut [u8]) -> io::Result<usize> {
        Err(io::ErrorKind::Other.into())
    }
}

// Lanes and workers on several threads share one gate.
fn pass_twice<G: Gate + Sync>(gate: &G) {
    gate.pass(Actor::Lane(0), Stage::BeforeRequest);
    gate.pass(Actor::Worker(1), Stage::BeforeBuild);
}

/// Reads the text from a source that gives it in pieces and fails at one read, and tells whether that gave the text, the bytes gone and the faults.
fn read_in_pieces(
    alloc: Global,
    piece: usize,
    most: usize,
    failing: u32,
) -> Result<(Result<bool, ReadRefusal>, usize, u64), AllocError>
    requires piece { 0 < piece }
    requires most { most < usize.MAX }
{
    let failing = Vec::from_array(alloc, [failing])?;
    let mut source = MemorySource::new(text(alloc)?, piece, failing);
    let answer = match read_all(alloc, &mut source, most) {
        Ok(bytes) => Ok(bytes.as_slice() == TEXT),
        Err(refusal) => Err(refusal),
    };
    Ok((answer, source.at, source.faults))
}

/// Bytes a read, bytes at most, and the read that fails; the answer, bytes gone and faults.
type Reading = (usize, usize, u32, Result<bool, ReadRefusal>, usize, u64);

static READINGS: [Reading; 11] = [
    (1, 10, 0, Ok(true), 10, 0),
    (3, 10, 0, Ok(true), 10, 0),
    (100, 11, 0, Ok(true), 10, 0),
    (3, 9, 0, Err(ReadRefusal::TooLong), 10, 0),
    (3, 8, 0, Err(ReadRefusal::TooLong), 9, 0),
    (100, 0, 0, Err(ReadRefusal::TooLong), 1, 0),
    (4, 10, 1, Err(ReadRefusal::ReadFault), 0, 1),
    (4, 10, 2, Err(ReadRefusal::ReadFault), 4, 1),
    (4, 10, 3, Err(ReadRefusal::ReadFault), 8, 1),
    (4, 10, 4, Err(ReadRefusal::ReadFault), 10, 1),
    (4, 10, 5, Ok(true), 10, 0),
];

fn check_readings(rt: &impl Abort, alloc: Global, rows: &[Reading]) -> Result<(), AllocError> {
    for (piece, most, failing, answer, gone, faults) in rows {
        assert!(rt; 0 < *piece && *most < usize::MAX);
        let read = read_in_pieces(alloc, *piece, *most, *failing)?;
        let given = (*piece, *most, *failing);
        same(rt, (given, read), (given, (*answer, *gone, *faults)));
    }
    Ok(())
}

#[test]
fn reads_everything_or_says_why_not(rt: HostRuntime) -> Result<(), AllocError> {
    check_readings(&rt, rt.alloc(), &READINGS)
}

/// Writes the text to a sink that takes it in pieces and fails at one write; the answer, whether the sink then holds just these bytes, and
/// the faults.
fn write_in_pieces(
    alloc: Global,
    piece: usize,
    room: usize,
    failing: u32,
    held: &[u8],
) -> Result<(Result<(), WriteFault>, bool, u64), AllocError>
    requires { 0 < piece }
{
    let failing = Vec::from_array(alloc, [failing])?;
    let mut sink = MemorySink::with_room(alloc, piece, room, failing)?;
    let answer = write_all(&mut sink, TEXT);
    Ok((answer, sink.bytes() == held, sink.faults))
}

/// Bytes a write, the room, and the write that fails; the answer, what the sink holds, and faults.
type Writing = (usize, usize, u32, Result<(), WriteFault>, &'static str, u64);

static WRITINGS: [Writing; 10] = [
    (1, 20, 0, Ok(()), "abcdefghij", 0),
    (3, 10, 0, Ok(()), "abcdefghij", 0),
    (100, 10, 0, Ok(()), "abcdefghij", 0),
    (3, 9, 0, Err(WriteFault), "abcdefghi", 1),
    (4, 9, 0, Err(WriteFault), "abcdefgh", 1),
    (100, 9, 0, Err(WriteFault), "", 1),
    (4, 10, 1, Err(WriteFault), "", 1),
    (4, 10, 2, Err(WriteFault), "abcd", 1),
    (4, 10, 3, Err(WriteFault), "abcdefgh", 1),
    (4, 10, 4, Ok(()), "abcdefghij", 0),
];

fn check_writings(rt: &impl Abort, alloc: Global, rows: &[Writing]) -> Result<(), AllocError> {
    for (piece, room, failing, answer, held, faults) in rows {
        assert!(rt; 0 < *piece);
        let written = write_in_pieces(alloc, *piece, *room, *failing, held.as_bytes())?;
        let given = (*piece, *room, *failing);
        same(rt, (given, written), (given, (*answer, true, *faults)));
    }
    Ok(())
}

#[test]
fn writes_everything_or_a_front_part(rt: HostRuntime) -> Result<(), AllocError> {
    check_writings(&rt, rt.alloc(), &WRITINGS)
}

/// What is read of a source.
fn is_text_of<S: Source>(alloc: Global, source: &mut S) -> bool {
    match read_all(alloc, source, 10) {
        Ok(bytes) => bytes.as_slice() == TEXT,
        Err(_) => false,
    }
}

#[test]
fn calm_ones_pass_bytes_on(rt: HostRuntime) -> Result<(), AllocError> {
    let alloc = rt.alloc();
    let mut calm = CalmSource::new(text(alloc)?, 3);
    assert!(rt; is_text_of(alloc, &mut calm));
    same(&rt, write_all(&mut CalmSink, TEXT), Ok(()));
    pass_twice(&FreeGate);
    Ok(())
}

#[test]
fn readers_are_sources(rt: HostRuntime) {
    let mut source = StdSource::new(TEXT);
    assert!(rt; is_text_of(rt.alloc(), &mut source));
    same(&rt, source.faults, 0);
}

#[test]
fn a_broken_reader_counts_its_faults(rt: HostRuntime) {
    let mut broken = StdSource::new(Broken);
    assert!(rt; broken.read(&mut [0; 4]).is_err());
    same(&rt, broken.faults, 1);
}

#[test]
fn writers_are_sinks(rt: HostRuntime) {
    let mut sink = StdSink::new(Vec::new(rt.alloc()));
    same(&rt, write_all(&mut sink, TEXT), Ok(()));
    same(&rt, sink.inner.as_slice(), TEXT);
}

/// A writer with room for four bytes takes none of the rest, which counts as an error.
#[test]
fn a_full_writer_counts_as_an_error(rt: HostRuntime) {
    let mut four = [0; 4];
    let mut sink = StdSink::new(&mut four[..]);
    same(&rt, write_all(&mut sink, TEXT), Err(WriteFault));
    same(&rt, sink.faults, 1);
    same(&rt, four, *b"abcd");
}
