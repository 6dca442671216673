//! Reading a script text. The lines of a script that were read so far, with what the line after them has to know.

ghost use Rattle.std.specs.Prelude.{◌≡◌, ℕ, ◌<◌, ◌≤◌, ◌+◌, [], IfOk, length, ◌++◌, ◌∷◌, nat_le, OnOk, OnErr};
ghost use Rattle.nav_text.specs.Lines.{lines, is_ended};
ghost use Rattle.nav_text.specs.Reading.{read};
ghost use Rattle.nav_text.specs.Faults.{fault_at};
ghost use Rattle.nav_text.specs.declared.fault.TextFault.{TextFault};
ghost use Rattle.nav_script.specs.declared.script.Script.{Script};
ghost use Rattle.nav_script.specs.Lanes.{NamesLaneBelow, adds_before, is_add, is_jump, is_request, next_lane};
ghost use Rattle.nav_script.specs.Limits.{IsScriptText};
ghost use Rattle.nav_script.specs.Reading.{AtScript, AtLines, line_verdict, verdict_of, script_format, IsReading, Gives, IsFirstFaultFrom, begins_request, lacks_jumps, lacks_room};

use crate::forms::read_line;
use crate::script::{Header, LANES, Line, Script, ScriptRefusal, Way, read_header};
use nav_ground::HISTORY_LIMIT;
use nav_lists::Items;
use nav_text::{FaultKind, TextFault, has_word};
use std::alloc::{AllocError, Global};
use std::marker::Model;

fn refused(line: u32, kind: FaultKind) -> ScriptRefusal
    ensures { result ≡ ScriptRefusal.Fault (fault_at line kind) }
{
    ScriptRefusal::Fault(TextFault::new(line, kind))
}

/// The lines after the `script` line, the first of which has the number `first_line`.
fn read_lines(
    alloc: Global,
    text: &[u8],
    first_line: u32,
    way: Way,
    header: Header,
) -> Result<Script, ScriptRefusal>
    requires lines { first_line ≤ 4000000001 }
    requires lanes { header.lanes ≤ 16 }
    ensures { IsReading (read (script_format way (is_ended text.now))
        (AtLines header.lanes header.workers []) first_line (lines text.now)) result }
{
    let mut progress = Progress::new(alloc);
    let mut rest = text;
    while let Some((line, after)) = nav_text::first_line(rest) {
        let number = first_line + progress.len() as u32;
        match next_line(way, header, &progress, line) {
            Ok(line) => progress.push(line)?,
            Err(kind) => return Err(refused(number, kind)),
        }
        rest = after;
    }
    if !rest.is_empty() {
        return Err(refused(first_line + progress.len() as u32, FaultKind::Unfinished));
    }
    Ok(Script {
        lanes: header.lanes,
        workers: header.workers,
        lines: progress.into_lines(),
    })
}

/// What a line says after those so far, or what is wrong with it.
fn next_line(way: Way, header: Header, progress: &Progress, line: &[u8]) -> Result<Line, FaultKind>
    ensures value { verdict_of header.lanes header.workers progress.now result
        ≡ line_verdict way (AtLines header.lanes header.workers progress.now) line.now }
    ensures room { IfOk result (λ _. length progress.now < 300000) }
    ensures lane { IfOk result (NamesLaneBelow header.lanes) }
{
    if progress.is_full() {
        return Err(FaultKind::TooManyLines);
    }
    if progress.lacks_room(way, line) {
        return Err(FaultKind::TooManyLines);
    }
    if progress.lacks_jumps(line) {
        return Err(FaultKind::TooManyJumps);
    }
    read_line(way, header, progress.adds_here(), line)
}

/// The whole text, as its format says.
fn read_all(alloc: Global, bytes: &[u8], first_line: u32, way: Way) -> Result<Script, ScriptRefusal>
    requires { first_line ≤ 4000000000 }
    ensures { IsReading
        (read (script_format way (is_ended bytes.now)) AtScript first_line (lines bytes.now)) result }
{
    let Some((line, rest)) = nav_text::first_line(bytes) else {
        return Err(refused(first_line, FaultKind::Unfinished));
    };
    match read_header(line) {
        Ok(header) => read_lines(alloc, rest, first_line + 1, way, header),
        Err(kind) => Err(refused(first_line, kind)),
    }
}

/// Reads a script text: all of the bytes, whose first line has the number `first_line` in the input. `way` says how the script
/// is to run, which decides what lines it may have. A fault has the number and the kind of the first line that fails; where the
/// text ends too early, the number of the line that is not ended or that should follow.
pub fn read_script(
    alloc: Global,
    bytes: &[u8],
    first_line: u32,
    way: Way,
) -> Result<Script, ScriptRefusal>
    requires { first_line ≤ 4000000000 }
    // What is read is a script for this way, and the bytes are its text.
    ensures found { IfOk result (IsScriptText way bytes.now) }

    // The text of a script is read as that script, unless memory runs out.
    ensures only { (script : Script) → IsScriptText way bytes.now script → Gives script result }

    // A fault is that of the first line that fails, given the lines before it.
    ensures first { (fault : TextFault) → result ≡ Err (ScriptRefusal.Fault fault)
        → IsFirstFaultFrom way first_line bytes.now fault }
{
    read_all(alloc, bytes, first_line, way)
}

/// How many lines may follow the `script` line.
pub const SCRIPT_LINES: usize = 300000;
/// How many of them may declare jumps.
const JUMPS: u32 = 256;

/// The lines so far. Contracts see the list of them; the lane of the next line, the adds of each lane and the numbers of requests and
/// jumps are kept beside it.
#[derive(Drop)]
pub struct Progress {
    lines: Vec<Line>,
    lane: u32,
    adds: [u32; LANES],
    requests: u32,
    jumps: u32,
}

impl Model for Progress {
    ghost use Rattle.std.specs.Prelude.{List};
    ghost use Rattle.nav_script.specs.declared.script.Line.{Line};
    ghost use Rattle.nav_script.specs.Lanes.{IsCounted};

    ghost Value = { List Line };

    ghost view = { λ a. a.lines.items };

    ghost invariant = { λ a. IsCounted a.lines.items a.lane a.adds a.requests a.jumps };
}

fn is_add(line: &Line) -> bool
    ensures { result ≡ is_add line.now }
{
    matches!(line, Line::Add(_))
}

fn is_request(line: &Line) -> bool
    ensures { result ≡ is_request line.now }
{
    matches!(line, Line::Add(_) | Line::Remove(_) | Line::Undo(_))
}

fn is_jump(line: &Line) -> bool
    ensures { result ≡ is_jump line.now }
{
    matches!(line, Line::Jump(_))
}

/// The lane of the line after a line of a lane.
fn next_lane(lane: u32, line: &Line) -> u32
    ensures { result ≡ next_lane lane line.now }
{
    match *line {
        Line::Lane(other) => other,
        _ => lane,
    }
}

/// Whether the first word of a line is that of a request.
fn begins_request(line: &[u8]) -> bool
    ensures { result ≡ begins_request line.now }
{
    has_word(b"add", line) || has_word(b"remove", line) || has_word(b"drop", line)
}

impl Progress {
    /// No line.
    pub fn new(alloc: Global) -> Self
        ensures { result ≡ [] }
    {
        Progress {
            lines: Vec::new(alloc),
            lane: 0,
            adds: [0; LANES],
            requests: 0,
            jumps: 0,
        }
    }

    pub fn len(&self) -> usize
        ensures { result ≡ length self.now }
    {
        self.lines.len()
    }

    /// Whether no further line may follow.
    pub fn is_full(&self) -> bool
        ensures { result ≡ nat_le 300000 (length self.now) }
    {
        self.lines.len() >= SCRIPT_LINES
    }

    /// Whether a line is a request for which a script that runs live has no room: each leaves an entry in the history.
    pub fn lacks_room(&self, way: Way, line: &[u8]) -> bool
        ensures { result ≡ lacks_room way self.now line.now }
    {
        match way {
            Way::Play => false,
            Way::Live => self.requests >= HISTORY_LIMIT && begins_request(line),
        }
    }

    /// Whether a line begins as one that declares a jump, and there is no room for one more.
    pub fn lacks_jumps(&self, line: &[u8]) -> bool
        ensures { result ≡ lacks_jumps self.now line.now }
    {
        self.jumps >= JUMPS && has_word(b"jump", line)
    }

    /// How many adds of the next line's lane there are.
    pub fn adds_here(&self) -> u32
        ensures { result ≡ adds_before self.now }
    {
        self.adds[self.lane as usize]
    }

    /// Takes a line. Where memory is refused, the lines are as before.
    pub fn push(&mut self, line: Line) -> Result<(), AllocError>
        requires room { length self.old < 300000 }
        requires lane { NamesLaneBelow 16 line }
        ensures ok { OnOk result (self.new ≡ self.old ++ line ∷ []) }
        ensures err { OnErr result (self.new ≡ self.old) }
    {
        self.lines.push(line)?;
        self.adds[self.lane as usize] += u32::from(is_add(&line));
        self.requests += u32::from(is_request(&line));
        self.jumps += u32::from(is_jump(&line));
        self.lane = next_lane(self.lane, &line);
        Ok(())
    }

    /// All the lines.
    pub fn into_lines(self) -> Items<Line>
        ensures { result ≡ self }
    {
        Items::from_vec(self.lines)
    }
}
