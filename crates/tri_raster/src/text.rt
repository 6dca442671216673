//! Reading a triangle text. Why no field was made.

ghost use Rattle.std.specs.Prelude.{◌≡◌, ◌≤◌, ℕ, List, [], Err, Some, IfOk};
ghost use Rattle.nav_ground.specs.declared.setting.Setting.{Setting};
ghost use Rattle.nav_text.specs.declared.fault.TextFault.{TextFault};
ghost use Rattle.nav_text.specs.Faults.{fault_at};
ghost use Rattle.nav_text.specs.Lines.{lines, is_ended};
ghost use Rattle.nav_text.specs.Reading.{read};
ghost use Rattle.tri_raster.specs.declared.triangle.Tri.{Tri};
ghost use Rattle.tri_raster.specs.TriText.{IsTriText};
ghost use Rattle.tri_raster.specs.TriFormat.{is_corner, tri_in, tri_line, is_too_many, wrong_behind, AtTris, AtEnd, tri_format, IsReading, IsTextFault, Gives};

use crate::{Corner3, Tri};
use nav_ground::Setting;
use nav_lists::Items;
use nav_text::{FaultKind, TextFault, first_line, has_word, numbers_of};
use span_text::{FieldRefusal, HeaderText, read_header};
use std::alloc::{AllocError, AllocFailed, Global};

/// The most triangles that a text can have.
const MAX_TRIANGLES: usize = 100000;

/// A triangle text that was read.
#[derive(Drop)]
pub struct TriText {
    pub setting: Setting,
    /// How many bytes the header has, with which the text begins.
    pub header: usize,
    /// At most 100000 triangles.
    pub tris: Items<Tri>,
}

/// What a line behind the header is, before the end.
#[derive(Clone, Copy)]
pub(crate) enum TriLine {
    Triangle(Tri),
    End,
    /// It fails, as this kind says.
    Fails(FaultKind),
}

/// Whether a line after so many triangles is one too many.
fn is_too_many(count: usize, line: &[u8]) -> bool
    ensures { result ≡ is_too_many count line.now }
{
    count == MAX_TRIANGLES && has_word(b"tri", line)
}

/// Whether a corner lies within its limits.
fn is_corner(corner: &Corner3) -> bool
    ensures { result ≡ is_corner corner.now }
{
    corner.x <= 16384 && corner.y <= 8190 && corner.z <= 16384
}

/// The triangle of ten numbers, where they are within their limits.
fn triangle(numbers: &[u32; 10]) -> TriLine
    ensures { result ≡ tri_in (Some numbers.now) }
{
    let [ax, ay, az, bx, by, bz, cx, cy, cz, area] = *numbers;
    let tri = Tri {
        a: Corner3 {
            x: ax,
            y: ay,
            z: az,
        },
        b: Corner3 {
            x: bx,
            y: by,
            z: bz,
        },
        c: Corner3 {
            x: cx,
            y: cy,
            z: cz,
        },
        area,
    };
    if is_corner(&tri.a) && is_corner(&tri.b) && is_corner(&tri.c) && tri.area <= 63 {
        TriLine::Triangle(tri)
    } else {
        TriLine::Fails(FaultKind::Range)
    }
}

/// A line behind the header, after so many triangles.
#[tactic(auto, unfolding(crate::specs::TriFormat::tri_line))]
fn tri_line(count: usize, line: &[u8]) -> TriLine
    ensures { result ≡ tri_line count line.now }
{
    if is_too_many(count, line) {
        return TriLine::Fails(FaultKind::TooManyTriangles);
    }
    if line == b"end".as_slice() {
        return TriLine::End;
    }
    match numbers_of::<10>(b"tri", line) {
        Some(numbers) => triangle(&numbers),
        None => TriLine::Fails(FaultKind::Form),
    }
}

fn refused(line: u32, kind: FaultKind) -> FieldRefusal
    ensures { result ≡ FieldRefusal.Fault (fault_at line kind) }
{
    FieldRefusal::Fault(TextFault::new(line, kind))
}

/// What is wrong with a line after the end.
fn wrong_behind(count: usize, line: &[u8]) -> FaultKind
    ensures { result ≡ wrong_behind count line.now }
{
    if is_too_many(count, line) {
        FaultKind::TooManyTriangles
    } else {
        FaultKind::Form
    }
}

/// What follows the `end` line behind some triangles: nothing. `count` lines stand before it.
fn read_end(rest: &[u8], tris: Vec<Tri>, count: u32) -> Result<Items<Tri>, FieldRefusal>
    requires { count ≤ 200000 }
    ensures { IsReading (read (tri_format (is_ended rest.now)) (AtEnd tris.items) count (lines rest.now)) result }
{
    if let Some((line, _)) = first_line(rest) {
        return Err(refused(count + 1, wrong_behind(tris.len(), line)));
    }
    if !rest.is_empty() {
        return Err(refused(count + 1, FaultKind::Unfinished));
    }
    Ok(Items::from_vec(tris))
}

/// The lines behind the header, which has so many lines.
fn read_tris(alloc: Global, text: &[u8], header: u32) -> Result<Items<Tri>, FieldRefusal>
    requires { header ≤ 71 }
    ensures { IsReading (read (tri_format (is_ended text.now)) (AtTris []) header (lines text.now)) result }
{
    let mut tris: Vec<Tri> = Vec::new(alloc);
    let mut rest = text;
    while let Some((line, after)) = first_line(rest) {
        let count = header + tris.len() as u32;
        match tri_line(tris.len(), line) {
            TriLine::Triangle(tri) => {
                if tris.push(tri).is_err() {
                    return Err(FieldRefusal::OutOfMemory);
                }
            }
            TriLine::End => return read_end(after, tris, count + 1),
            TriLine::Fails(kind) => return Err(refused(count + 1, kind)),
        }
        rest = after;
    }
    Err(refused(header + tris.len() as u32 + 1, FaultKind::Unfinished))
}

/// Reads a triangle text: all of the bytes. Memory is taken for the triangles alone.
pub fn read_triangles(alloc: Global, bytes: &[u8]) -> Result<TriText, FieldRefusal>
    // What is read is within its limits, and the bytes spell it.
    ensures found { IfOk result (λ text. IsTriText bytes.now text.setting text.header text.tris) }

    // The text of a setting and of triangles is read as these.
    ensures only { (setting : Setting) (header : ℕ) (tris : List Tri) → IsTriText bytes.now setting header tris
        → Gives setting header tris result }

    // A fault is that of the first line that fails, given the lines before it.
    ensures first { (fault : TextFault) → result ≡ Err (FieldRefusal.Fault fault) → IsTextFault bytes.now fault }
{
    let header = match read_header(bytes) {
        Ok(header) => header,
        Err(refusal) => return Err(refusal),
    };
    let (_, body) = bytes.split_at(header.used);
    let HeaderText {
        setting,
        used,
        lines,
    } = header;
    match read_tris(alloc, body, lines) {
        Ok(tris) => Ok(TriText {
            setting,
            header: used,
            tris,
        }),
        Err(refusal) => Err(refusal),
    }
}

/// Why no field was made of triangles.
#[derive(Clone, Copy)]
pub enum RasterRefusal {
    /// The triangles give more than 2000000 spans.
    TooManySpans,
    OutOfMemory,
}

impl From<AllocError> for RasterRefusal {
    ghost use Rattle.std.specs.Prelude.{◌≡◌};
    ghost use Rattle.tri_raster.specs.declared.text.RasterRefusal.{RasterRefusal};

    ghost from_gives = { λ _ refusal. refusal ≡ RasterRefusal.OutOfMemory };

    fn from(_error: AllocError) -> Self {
        RasterRefusal::OutOfMemory
    }
}

impl<T: Drop> From<AllocFailed<T>> for RasterRefusal {
    ghost use Rattle.std.specs.Prelude.{◌≡◌};
    ghost use Rattle.tri_raster.specs.declared.text.RasterRefusal.{RasterRefusal};

    ghost from_gives = { λ _ refusal. refusal ≡ RasterRefusal.OutOfMemory };

    fn from(_error: AllocFailed<T>) -> Self {
        RasterRefusal::OutOfMemory
    }
}
