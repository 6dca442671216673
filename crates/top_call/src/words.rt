//! The words behind the program's name. What each part of a run needs. How a run ended.

ghost use Rattle.top_call.specs.Words.{AskAlone, AskBehindGen, AskFor};
ghost use Rattle.std.specs.Prelude.{◌≡◌};
ghost use Rattle.top_call.specs.Statuses.{status_number};

use nav_base::read_number;
use nav_script::Way;
use std::alloc::Global;

/// What an input is read as.
#[derive(Clone, Copy)]
pub(crate) enum InputKind {
    /// A field and a script, which is run this way: `play` or `live`.
    Script { way: Way },
    /// Triangles, whose field is written: `raster`.
    Triangles,
}

/// What the words ask for.
#[derive(Clone, Copy)]
pub(crate) enum Command {
    /// `play`, `live` or `raster`: the answer to an input that is read, as one of this kind.
    Read { kind: InputKind },
    /// `gen NUMBER SIZE`: the play of a made input.
    Gen { number: u32, size: u32 },
}

/// The form that the words are in, if they are in one.
pub(crate) fn form_of(words: &[String]) -> Option<Command>
    ensures { AskFor words.now result }
{
    match words {
        [word] => read_form(word.as_str()),
        [word, number, size] if word.as_str() == "gen" => gen_form(number.as_str(), size.as_str()),
        _ => None,
    }
}

/// The form of the one word `play`, `live` or `raster`.
fn read_form(word: &str) -> Option<Command>
    ensures { AskAlone word.now result }
{
    match word {
        "play" => Some(Command::Read {
            kind: InputKind::Script { way: Way::Play },
        }),
        "live" => Some(Command::Read {
            kind: InputKind::Script { way: Way::Live },
        }),
        "raster" => Some(Command::Read {
            kind: InputKind::Triangles,
        }),
        _ => None,
    }
}

/// The form of a number and a size behind the word `gen`: 0 to 4294967295, and 32 to 512.
fn gen_form(number: &str, size: &str) -> Option<Command>
    ensures { AskBehindGen number.now size.now result }
{
    let number = read_number(number.as_bytes(), u32::MAX)?;
    let size = read_number(size.as_bytes(), 512)?;
    if size < 32 {
        return None;
    }
    Some(Command::Gen { number, size })
}

/// What each part of a run needs: what makes threads and lets them wait, where memory comes from, and the gate that threads pass.
#[derive(Drop)]
pub(crate) struct RunTools<'a, R, G> {
    pub(crate) rt: &'a R,
    pub(crate) alloc: Global,
    pub(crate) gate: &'a G,
}

/// How a run ended. The number is the program's exit status.
#[derive(Clone, Copy, PartialEq, Eq)]
pub enum Status {
    /// The input, where one is read, was read to its end, and the whole text was written.
    Ok,
    /// The input is not in the grammar. The line `fault LINE KIND` was written.
    BadText,
    /// The words are in no form. The line `fault usage` was written.
    Usage,
    /// Reading failed. Nothing was written.
    ReadFault,
    /// Writing failed. A front part of what was due was written.
    WriteFault,
    /// More than 67108864 bytes were read. The line `fault too long` was written.
    TooLong,
    /// Memory was refused. Nothing was written.
    OutOfMemory,
    /// The triangles that were read give more than 2000000 spans. The line `fault too many spans` was written.
    TooManySpans,
}

impl Status {
    /// The number of the status, 0 to 7.
    pub fn number(self) -> u8
        ensures { result ≡ status_number self }
    {
        match self {
            Status::Ok => 0,
            Status::BadText => 1,
            Status::Usage => 2,
            Status::ReadFault => 3,
            Status::WriteFault => 4,
            Status::TooLong => 5,
            Status::OutOfMemory => 6,
            Status::TooManySpans => 7,
        }
    }
}
