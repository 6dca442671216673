//! Scripts, and why a text is none. The `script` line. The lines of a script.

ghost use Rattle.std.specs.Prelude.{◌≡◌};
ghost use Rattle.nav_script.specs.declared.script.ScriptRefusal.TheVariants.{OutOfMemory};
ghost use Rattle.nav_script.specs.Reading.{header_read};

use mesh_types::Jump;
use nav_base::{Point, Question};
use nav_ground::Shape;
use nav_lists::Items;
use nav_text::{FaultKind, TextFault, numbers_of};
use std::alloc::AllocError;

/// How a script is run. `aim`, `publish`, `claim`, `back`, `submit`, `jump` and `hop` are lines of a script to be played only.
#[derive(Clone, Copy)]
pub enum Way {
    /// Its lines are played one after another.
    Play,
    /// Its lanes run on threads of their own, and so do its workers.
    Live,
}

/// What a script text says.
#[derive(Drop)]
pub struct Script {
    /// How many lanes there are, 1 to 16.
    pub lanes: u32,
    /// How many workers there are, 1 to 8.
    pub workers: u32,
    /// The lines after the `script` line, in order.
    pub lines: Items<Line>,
}

/// Why no script was read.
#[derive(Clone, Copy)]
pub enum ScriptRefusal {
    /// The text is no script: its first fault.
    Fault(TextFault),
    OutOfMemory,
}

impl From<AllocError> for ScriptRefusal {
    ghost from_gives = { λ _ refusal. refusal ≡ OutOfMemory };

    fn from(_error: AllocError) -> Self {
        ScriptRefusal::OutOfMemory
    }
}

/// How many lanes a script can have.
pub const LANES: usize = 16;
/// How many workers a script can have.
const WORKERS: u32 = 8;

/// What the `script` line says.
#[derive(Clone, Copy)]
pub struct Header {
    /// How many lanes there are, 1 to 16.
    pub lanes: u32,
    /// How many workers there are, 1 to 8.
    pub workers: u32,
}

/// The lanes and workers of a `script` line, or what is wrong with it.
pub fn read_header(line: &[u8]) -> Result<Header, FaultKind>
    ensures { result ≡ header_read line.now }
{
    let Some(n) = numbers_of::<2>(b"script", line) else {
        return Err(FaultKind::Form);
    };
    let [lanes, workers] = n;
    if !(1 <= lanes && lanes <= LANES as u32 && 1 <= workers && workers <= WORKERS) {
        return Err(FaultKind::Range);
    }
    Ok(Header { lanes, workers })
}

/// A line of a script. Its lane is the one that the last `Lane` line before it names, and 0 where there is none.
#[derive(Clone, Copy, PartialEq)]
pub enum Line {
    /// The lines that follow belong to the lane with this number, from 0.
    Lane(u32),
    /// A question of the mesh. Points are in sixteenths of a cell and not negative.
    Ask(Question),
    /// A new obstacle: a block or a cylinder that stops agents, or one that sets an area.
    Add(Shape),
    /// The obstacle with this number goes.
    Remove(u32),
    /// The obstacle of one of this lane's `Add` lines before goes. They are counted from 1; the text calls this line `drop`.
    Undo(u32),
    /// Everything that was asked for is built and published.
    Settle,
    /// The next version is to hold all that was asked for so far.
    Aim,
    /// The worker with this number, from 0, takes a tile to build.
    Claim(u32),
    /// The worker with this number gives its tile back.
    Back(u32),
    /// The worker with this number hands in the tile that it built.
    Submit(u32),
    /// The version that was aimed at is published.
    Publish,
    /// A jump that the `Hop` lines after it may use. Jumps are numbered from 0 in the order of their lines; there are at most 256, each at a
    /// cost of 1 to 1000000.
    Jump(Jump),
    /// The question for a cheapest walk over links and the jumps of the lines before. Points are in sixteenths of a cell and not negative,
    /// heights in height units.
    Hop {
        from: Point,
        from_y: u32,
        to: Point,
        to_y: u32,
    },
    /// The lane gets a walker from the first point to the second, in place of one that it has. Points are in sixteenths of a cell and not
    /// negative, heights in height units.
    Send {
        from: Point,
        from_y: u32,
        to: Point,
        to_y: u32,
    },
    /// The lane's walker moves by at most so many sixteenths of a cell, 1 to 65535, each leg of its way measured along its longer axis.
    March(u32),
}
