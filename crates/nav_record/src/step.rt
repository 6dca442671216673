//! Steps of builders and of the book, and their lines. The counts of a whole play.

ghost use Rattle.std.specs.Prelude.{◌≡◌, ◌+◌, ◌≤◌, ◌++◌, length, IsOk, OnOk, OnErr, vec_len, vec_capacity};
ghost use Rattle.nav_record.specs.Appending.{phrase_text};
ghost use Rattle.nav_text.specs.Appends.{Appends};
ghost use Rattle.nav_record.specs.OneLine.{IsOneLine};
ghost use Rattle.nav_record.specs.StepTexts.{step_text};

use crate::append::{LineField, append_parts};
use std::alloc::AllocError;

/// What a step of a builder or of the book came to. Lengths count entries of the history, workers and tiles count from 0.
#[derive(Clone, Copy)]
pub enum StepAnswer {
    /// The target is now the history's length, `k`.
    Aim { k: u32 },
    /// The worker holds the built tile from now on.
    Claimed { worker: u32, tile: u32 },
    /// No tile waits for a worker, so it got none.
    NoTile { worker: u32 },
    /// The worker holds a tile already and asked for another.
    Busy { worker: u32 },
    /// The worker holds no tile that it could give back or submit.
    Idle { worker: u32 },
    /// The worker gave the job of the tile back.
    Back { worker: u32, tile: u32 },
    /// The worker's mesh of the tile was taken.
    Taken { worker: u32, tile: u32 },
    /// The worker's mesh is dropped: the tile is not awaited, or has other obstacles at the target.
    Stale { worker: u32, tile: u32 },
    /// The first `k` entries are published.
    Published { k: u32 },
    /// Length `k` was published already.
    Same { k: u32 },
    /// Nothing was published, since the tile still waits for its mesh.
    NotYet { tile: u32 },
    /// Every awaited tile was built, no worker holds a tile, and the first `k` entries, which are all, are published.
    Settled { k: u32 },
    /// The history has `len` entries and takes no more.
    HistoryFull { len: u32 },
}

/// Appends the line of a step.
#[tactic(auto, using(crate::proofs::OneLineLaws::step_line))]
pub fn write_step(out: &mut Vec<u8>, step: &StepAnswer) -> Result<(), AllocError>
    ensures ok { OnOk result (out.new.items ≡ out.old.items ++ step_text step.now) }
    ensures err { OnErr result (out.new.items ≡ out.old.items) }
    ensures room { vec_len out.old + length (step_text step.now) ≤ vec_capacity out.old → IsOk result }
    // The text is one line.
    ensures line { IsOneLine (step_text step.now) }
{
    let len = out.len();
    let written = append_step(out, step);
    if written.is_err() {
        out.truncate(len);
    }
    written
}

/// The same, but where memory is refused a part of the line may stand at the end.
fn append_step(out: &mut Vec<u8>, step: &StepAnswer) -> Result<(), AllocError>
    ensures { Appends out.old out.new result (step_text step.now) }
{
    let StepWords(word, number, end, second) = words(step);
    append_parts(out, word, &[LineField::Number(number)], end)?;
    match second {
        Some(number) => append_parts(out, b"", &[LineField::Number(number)], b"\n"),
        None => Ok(()),
    }
}

/// A word and a number, then what ends the line; or words between the two and a second number.
struct StepWords(&'static [u8], u32, &'static [u8], Option<u32>);

/// The words and the numbers of a step's line.
fn words(step: &StepAnswer) -> StepWords
    ensures { phrase_text result.0.now result.1 result.2.now result.3 ≡ step_text step.now }
{
    match *step {
        StepAnswer::Aim { k } => StepWords(b"aim", k, b"\n", None),
        StepAnswer::Claimed { worker, tile } => StepWords(b"claim", worker, b" tile", Some(tile)),
        StepAnswer::NoTile { worker } => StepWords(b"claim", worker, b" none\n", None),
        StepAnswer::Busy { worker } => StepWords(b"busy", worker, b"\n", None),
        StepAnswer::Idle { worker } => StepWords(b"idle", worker, b"\n", None),
        StepAnswer::Back { worker, tile } => StepWords(b"back", worker, b" tile", Some(tile)),
        StepAnswer::Taken { worker, tile } => StepWords(b"submit", worker, b" taken", Some(tile)),
        StepAnswer::Stale { worker, tile } => StepWords(b"submit", worker, b" stale", Some(tile)),
        StepAnswer::Published { k } => StepWords(b"published", k, b"\n", None),
        StepAnswer::Same { k } => StepWords(b"same", k, b"\n", None),
        StepAnswer::NotYet { tile } => StepWords(b"notyet", tile, b"\n", None),
        StepAnswer::Settled { k } => StepWords(b"settled", k, b"\n", None),
        StepAnswer::HistoryFull { len } => StepWords(b"history full", len, b"\n", None),
    }
}

/// What a play came to in numbers.
#[derive(Clone, Copy)]
pub struct Totals {
    /// Entries of the history.
    pub entries: u32,
    /// The published length, in entries.
    pub published: u32,
    /// Paths that were found.
    pub paths: u32,
    /// Paths whose start and goal no walk joins.
    pub nopath: u32,
    /// Paths without a polygon at the start.
    pub nostart: u32,
    /// Paths with a polygon at the start and none at the goal.
    pub nogoal: u32,
    /// The sum of the costs of the paths that were found.
    pub cost: u64,
    /// Polygons of the last mesh.
    pub polys: u32,
    /// Directed links of the last mesh.
    pub links: u32,
}
