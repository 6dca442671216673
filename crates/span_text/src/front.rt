//! The header that a field text, as other texts, begins with: the lines of a setting, and costs. The lines of a setting that a field text
//! begins with: seven in the first form, eight in the second.

ghost use Rattle.std.specs.Prelude.{◌≡◌, ℕ, ◌≤◌, List, [], ◌∷◌, ◌++◌, take, drop, length, MatchResult, IfOk, Err};
ghost use Rattle.nav_ground.specs.declared.setting.Setting.{Setting};
ghost use Rattle.nav_ground.specs.Limits.{IsSetting};
ghost use Rattle.nav_text.specs.declared.fault.TextFault.{TextFault};
ghost use Rattle.nav_text.specs.declared.fault.FaultKind.TheVariants.{Unfinished};
ghost use Rattle.nav_text.specs.Faults.{fault_at};
ghost use Rattle.nav_text.specs.Lines.{lines, IsPast};
ghost use Rattle.nav_text.specs.Reading.{read, IsFirstFault};
ghost use Rattle.span_text.specs.FieldText.{IsHeaderText, GoesOn};
ghost use Rattle.span_text.specs.FieldFormat.{field_of, field_format, header_of, header_format, after_limit, AtNav, AtError, AtBody};
ghost use Rattle.span_text.specs.Outcome.{IsHeaderRead, GivesHeader};
ghost use Rattle.span_text.specs.Header.{nav_line, size_line, limited, agent_line, mesh_line, clear_line};

use crate::body::{BodyLine, header_line};
use crate::field::FieldRefusal;
use nav_ground::{AREAS, Agent, MeshKind, Setting};
use nav_text::{FaultKind, TextFault, first_line, numbers_of};

/// A header that was read.
#[derive(Clone, Copy)]
pub struct HeaderText {
    pub setting: Setting,
    /// How many bytes the header has.
    pub used: usize,
    /// How many lines the header has.
    pub lines: u32,
}

/// The first line of what is left of a text, and what follows it. The line has this number, and where it is not ended, that is the fault.
fn line_at(number: u32, text: &[u8]) -> Result<(&[u8], &[u8]), TextFault>
    ensures lines { MatchResult result (λ x. lines text.now ≡ x.0.now ∷ lines x.1.now)
        (λ fault. (lines text.now ≡ []) × (fault ≡ fault_at number Unfinished)) }
    ensures text { IfOk result (λ x. text.now ≡ x.0.now ++ 10 ∷ x.1.now) }
{
    match first_line(text) {
        Some(line) => Ok(line),
        None => Err(TextFault::new(number, FaultKind::Unfinished)),
    }
}

/// The lines that a header begins with: its setting, in which every area costs 1, how many lines these are, and the
/// bytes behind them.
pub(crate) fn read_front(bytes: &[u8]) -> Result<(Setting, u32, &[u8]), TextFault>
    ensures said { MatchResult result
        (λ x. field_of bytes.now ≡ read field_format (AtBody x.0 0 []) x.1 (lines x.2.now))
        (λ fault. field_of bytes.now ≡ Err fault) }
    ensures header { MatchResult result
        (λ x. header_of bytes.now ≡ read header_format (AtBody x.0 0 []) x.1 (lines x.2.now))
        (λ fault. header_of bytes.now ≡ Err fault) }
    ensures past { IfOk result (λ x. IsPast bytes.now x.2.now x.1) }
    ensures few { IfOk result (λ x. x.1 ≤ 8) }
    ensures sides { IfOk result (λ x. (x.0.width ≤ 1024) × (x.0.depth ≤ 1024)) }
{
    let (sizes, rest) = read_sizes(bytes)?;
    let (setting, rest) = read_making(sizes, rest)?;
    read_clear(sizes.form, setting, rest)
}

/// What the first four lines say: the text's form, the field's size, the tiles' side and the agent.
#[derive(Clone, Copy)]
struct Sizes {
    form: TextForm,
    width: u32,
    depth: u32,
    tile: u32,
    agent: Agent,
}

/// The first four lines of a header, and the bytes behind them.
#[tactic(auto, unfolding(nav_text::specs::Reading::read))]
fn read_sizes(bytes: &[u8]) -> Result<(Sizes, &[u8]), TextFault>
    ensures said { MatchResult result
        (λ x. field_of bytes.now ≡ read field_format (AtError x.0.form x.0.width x.0.depth x.0.tile x.0.agent) 4 (lines x.1.now))
        (λ fault. field_of bytes.now ≡ Err fault) }
    ensures header { MatchResult result
        (λ x. header_of bytes.now ≡ read header_format (AtError x.0.form x.0.width x.0.depth x.0.tile x.0.agent) 4 (lines x.1.now))
        (λ fault. header_of bytes.now ≡ Err fault) }
    ensures past { IfOk result (λ x. IsPast bytes.now x.1.now 4) }
    ensures sides { IfOk result (λ x. (x.0.width ≤ 1024) × (x.0.depth ≤ 1024)) }
{
    let (line, rest) = line_at(1, bytes)?;
    let form = nav_line(line).map_err(|kind| TextFault::new(1, kind))?;
    let (line, rest) = line_at(2, rest)?;
    let (width, depth) = size_line(line).map_err(|kind| TextFault::new(2, kind))?;
    let (line, rest) = line_at(3, rest)?;
    let tile = limited(b"tile", 4, 128, line).map_err(|kind| TextFault::new(3, kind))?;
    let (line, rest) = line_at(4, rest)?;
    let agent = agent_line(line).map_err(|kind| TextFault::new(4, kind))?;
    let sizes = Sizes {
        form,
        width,
        depth,
        tile,
        agent,
    };
    Ok((sizes, rest))
}

/// The next three lines, which say how meshes are made: the setting without clearance, and the bytes behind them.
#[tactic(auto, unfolding(nav_text::specs::Reading::read))]
fn read_making(sizes: Sizes, text: &[u8]) -> Result<(Setting, &[u8]), TextFault>
    ensures said { MatchResult result
        (λ x. read field_format (AtError sizes.form sizes.width sizes.depth sizes.tile sizes.agent) 4 (lines text.now)
        ≡ read field_format (after_limit sizes.form x.0) 7 (lines x.1.now))
        (λ fault. read field_format (AtError sizes.form sizes.width sizes.depth sizes.tile sizes.agent) 4 (lines text.now) ≡ Err fault) }
    ensures header { MatchResult result
        (λ x. read header_format (AtError sizes.form sizes.width sizes.depth sizes.tile sizes.agent) 4 (lines text.now)
        ≡ read header_format (after_limit sizes.form x.0) 7 (lines x.1.now))
        (λ fault. read header_format (AtError sizes.form sizes.width sizes.depth sizes.tile sizes.agent) 4 (lines text.now) ≡ Err fault) }
    ensures past { IfOk result (λ x. (whole : List ℕ) → IsPast whole text.now 4 → IsPast whole x.1.now 7) }
    ensures sides { IfOk result (λ x. (x.0.width ≡ sizes.width) × (x.0.depth ≡ sizes.depth)) }
{
    let (line, rest) = line_at(5, text)?;
    let error = limited(b"error", 0, 10000, line).map_err(|kind| TextFault::new(5, kind))?;
    let (line, rest) = line_at(6, rest)?;
    let mesh = mesh_line(line).map_err(|kind| TextFault::new(6, kind))?;
    let (line, rest) = line_at(7, rest)?;
    let limit = limited(b"limit", 1, 1024, line).map_err(|kind| TextFault::new(7, kind))?;
    let setting = Setting {
        width: sizes.width,
        depth: sizes.depth,
        tile: sizes.tile,
        agent: sizes.agent,
        error,
        mesh,
        limit,
        costs: [1; AREAS],
        clear: false,
    };
    Ok((setting, rest))
}

/// The line of clearance, which texts of the second form have: the whole setting, how many lines are read, and the
/// bytes behind them.
#[tactic(auto, unfolding(nav_text::specs::Reading::read))]
fn read_clear(
    form: TextForm,
    plain: Setting,
    text: &[u8],
) -> Result<(Setting, u32, &[u8]), TextFault>
    ensures said { MatchResult result
        (λ x. read field_format (after_limit form plain) 7 (lines text.now) ≡ read field_format (AtBody x.0 0 []) x.1 (lines x.2.now))
        (λ fault. read field_format (after_limit form plain) 7 (lines text.now) ≡ Err fault) }
    ensures header { MatchResult result
        (λ x. read header_format (after_limit form plain) 7 (lines text.now) ≡ read header_format (AtBody x.0 0 []) x.1 (lines x.2.now))
        (λ fault. read header_format (after_limit form plain) 7 (lines text.now) ≡ Err fault) }
    ensures past { IfOk result (λ x. (whole : List ℕ) → IsPast whole text.now 7 → IsPast whole x.2.now x.1) }
    ensures few { IfOk result (λ x. x.1 ≤ 8) }
    ensures sides { IfOk result (λ x. (x.0.width ≡ plain.width) × (x.0.depth ≡ plain.depth)) }
{
    match form {
        TextForm::First => Ok((plain, 7, text)),
        TextForm::Second => {
            let (line, rest) = line_at(8, text)?;
            let clear = clear_line(plain.tile, plain.agent.radius, line).map_err(
                |kind| TextFault::new(8, kind),
            )?;
            let mut setting = plain;
            setting.clear = clear;
            Ok((setting, 8, rest))
        }
    }
}

/// The costs behind the setting's lines, of which there are `front_lines`, up to a line with another first word.
fn read_costs(
    front: Setting,
    front_lines: u32,
    bytes: &[u8],
    body: &[u8],
) -> Result<HeaderText, FieldRefusal>
    requires header { header_of bytes.now ≡ read header_format (AtBody front 0 []) front_lines (lines body.now) }
    requires past { IsPast bytes.now body.now front_lines }
    requires few { front_lines ≤ 8 }
    ensures { IsHeaderRead bytes.now result }
{
    let mut setting = front;
    let mut before = 0;
    let mut count = front_lines;
    let mut rest = body;
    while let Some((line, after)) = first_line(rest) {
        match header_line(before, line) {
            BodyLine::Cost { area, cost } => {
                setting.costs[area as usize] = cost;
                before = area;
            }
            BodyLine::Fails(kind) => {
                let fault = TextFault::new(count + 1, kind);
                return Err(FieldRefusal::Fault(fault));
            }
            BodyLine::End | BodyLine::Spans(_) => {
                return Ok(HeaderText {
                    setting,
                    used: bytes.len() - rest.len(),
                    lines: count,
                });
            }
        }
        count += 1;
        rest = after;
    }
    Err(FieldRefusal::Fault(TextFault::new(count + 1, FaultKind::Unfinished)))
}

fn read_whole(bytes: &[u8]) -> Result<HeaderText, FieldRefusal>
    ensures { IsHeaderRead bytes.now result }
{
    match read_front(bytes) {
        Ok((setting, count, body)) => read_costs(setting, count, bytes, body),
        Err(fault) => Err(FieldRefusal::Fault(fault)),
    }
}

/// Reads the header that the bytes begin with, which are the lines of a field text's setting and its costs, and leaves
/// what follows: one more line at least, whose first word is not `cost`. No memory is taken, and so none is refused.
pub fn read_header(bytes: &[u8]) -> Result<HeaderText, FieldRefusal>
    // What is read is within its limits, the bytes that it used spell it, and another line follows.
    ensures setting { IfOk result (λ header. IsSetting header.setting) }
    ensures found { IfOk result (λ header. IsHeaderText (take header.used bytes.now) header.setting) }
    ensures used { IfOk result (λ header. header.used ≤ length bytes.now) }
    ensures lines { IfOk result (λ header. header.lines ≡ length (lines (take header.used bytes.now))) }
    ensures on { IfOk result (λ header. GoesOn (drop header.used bytes.now)) }
    ensures few { IfOk result (λ header. header.lines ≤ 71) }

    // Bytes that begin with a header, behind which another line follows, are read as that header.
    ensures only { (setting : Setting) (text rest : List ℕ) → IsSetting setting → IsHeaderText text setting → GoesOn rest
        → bytes.now ≡ text ++ rest → GivesHeader setting (length text) result }

    // A fault is that of the first line that fails, given the lines before it.
    ensures first { (fault : TextFault) → result ≡ Err (FieldRefusal.Fault fault)
        → IsFirstFault header_format AtNav 0 (lines bytes.now) fault }
{
    read_whole(bytes)
}

/// The two forms of a field text.
#[derive(Clone, Copy)]
pub enum TextForm {
    /// `nav 1`: agents keep no distance from obstacles.
    First,
    /// `nav 2`: a line says whether agents keep their radius from obstacles.
    Second,
}

/// The line that says of which form the text is.
#[tactic(auto, unfolding(crate::specs::Header::nav_line))]
pub fn nav_line(line: &[u8]) -> Result<TextForm, FaultKind>
    ensures { result ≡ nav_line line.now }
{
    if line == b"nav 1".as_slice() {
        Ok(TextForm::First)
    } else if line == b"nav 2".as_slice() {
        Ok(TextForm::Second)
    } else {
        Err(FaultKind::Form)
    }
}

/// The width and the depth of the field, in columns.
#[tactic(auto, unfolding(crate::specs::Header::size_line))]
pub fn size_line(line: &[u8]) -> Result<(u32, u32), FaultKind>
    ensures { result ≡ size_line line.now }
{
    let Some(numbers) = numbers_of::<2>(b"size", line) else {
        return Err(FaultKind::Form);
    };
    let (width, depth) = (numbers[0], numbers[1]);
    if !is_in(1, 1024, width) || !is_in(1, 1024, depth) {
        return Err(FaultKind::Range);
    }
    Ok((width, depth))
}

/// The one number of a line that is a word and a number within limits.
#[tactic(auto, unfolding(crate::specs::Header::limited))]
pub fn limited(word: &[u8], low: u32, high: u32, line: &[u8]) -> Result<u32, FaultKind>
    ensures { result ≡ limited word.now low high line.now }
{
    let Some(numbers) = numbers_of::<1>(word, line) else {
        return Err(FaultKind::Form);
    };
    if !is_in(low, high, numbers[0]) {
        return Err(FaultKind::Range);
    }
    Ok(numbers[0])
}

/// The agent: its height, climb and radius.
#[tactic(auto, unfolding(crate::specs::Header::agent_line))]
pub fn agent_line(line: &[u8]) -> Result<Agent, FaultKind>
    ensures { result ≡ agent_line line.now }
{
    let Some(numbers) = numbers_of::<3>(b"agent", line) else {
        return Err(FaultKind::Form);
    };
    let (height, climb, radius) = (numbers[0], numbers[1], numbers[2]);
    if !is_in(1, 255, height) || climb > 254 || radius > 15 {
        return Err(FaultKind::Range);
    }
    if climb >= height {
        return Err(FaultKind::Climb);
    }
    Ok(Agent {
        height,
        climb,
        radius,
    })
}

/// How the polygons are made.
#[tactic(auto, unfolding(crate::specs::Header::mesh_line))]
pub fn mesh_line(line: &[u8]) -> Result<MeshKind, FaultKind>
    ensures { result ≡ mesh_line line.now }
{
    if line == b"mesh strips".as_slice() {
        Ok(MeshKind::Strips)
    } else if line == b"mesh contours".as_slice() {
        Ok(MeshKind::Contours)
    } else {
        Err(FaultKind::Form)
    }
}

/// Whether agents keep their radius from obstacles too. Where they do, a tile is at least twice as wide as the radius.
#[tactic(auto, unfolding(crate::specs::Header::clear_line))]
pub fn clear_line(tile: u32, radius: u32, line: &[u8]) -> Result<bool, FaultKind>
    ensures { result ≡ clear_line tile radius line.now }
{
    let Some(numbers) = numbers_of::<1>(b"clear", line) else {
        return Err(FaultKind::Form);
    };
    let clear = numbers[0];
    if clear > 1 || clear == 1 && u64::from(tile) < 2 * u64::from(radius) {
        return Err(FaultKind::Range);
    }
    Ok(clear == 1)
}

/// Whether a number lies in a closed range.
pub fn is_in(low: u32, high: u32, number: u32) -> bool
    ensures { result ≡ Rattle.span_text.specs.Header.is_in low high number }
{
    low <= number && number <= high
}
