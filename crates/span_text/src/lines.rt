//! The lines of spans, as they are written: each from its end, behind the front that the lines of one column share.

ghost use Rattle.std.specs.Prelude.{◌≡◌, ◌≤◌, ◌+◌, ◌++◌, ◌∷◌, length, drop, map, decimal, IsOk, OnOk, OnErr, vec_len, vec_capacity};
ghost use Rattle.nav_text.specs.Lines.{ended, text_of};
ghost use Rattle.span_text.specs.FieldText.{span_text};
ghost use Rattle.span_text.specs.LineFront.{IsFrontOf};

use itoa::write_digits;
use nav_ground::{PackedSpan, Span};
use std::alloc::AllocError;

/// Room for the front of a line: the word and two numbers of at most ten digits, each behind a space, which take 26 bytes.
const FRONT: usize = 32;

/// Room for a line: its front, three more such numbers, and the line feed.
const LINE: usize = FRONT + 34;

/// The front of the lines of a column's spans, which stands from a place on up to the end.
#[derive(Clone, Copy)]
struct LineFront {
    x: u32,
    z: u32,
    bytes: [u8; FRONT],
    from: usize,
}

/// Writes a number and a space before it, so that they end where `end` says. Answers where they begin.
#[inline(always)]
fn put_number(bytes: &mut [u8], end: usize, number: u32) -> usize
    requires room { 11 ≤ end }
    requires within { end ≤ length bytes.old }
    ensures text { drop result bytes.new ≡ 32 ∷ (decimal number ++ drop end bytes.old) }
    ensures most { end ≤ result + 11 }
    ensures before { result ≤ end }
    ensures same { length bytes.new ≡ length bytes.old }
{
    let at = write_digits(u64::from(number), bytes, end) - 1;
    bytes[at] = b' ';
    at
}

impl LineFront {
    /// The front of a column's lines.
    fn new(x: u32, z: u32) -> Self
        ensures at { (result.x ≡ x) × (result.z ≡ z) }
        ensures front { IsFrontOf x z result.bytes result.from }
    {
        let mut bytes = [b' '; FRONT];
        let at = put_number(&mut bytes, FRONT, z);
        let at = put_number(&mut bytes, at, x);
        let from = at - 4;
        bytes[from..at].copy_from_slice(b"span");
        LineFront { x, z, bytes, from }
    }

    /// Becomes the front of the lines of a span's column.
    #[inline(always)]
    fn turn_to(&mut self, span: &Span)
        requires { IsFrontOf self.old.x self.old.z self.old.bytes self.old.from }
        ensures at { (self.new.x ≡ span.now.x) × (self.new.z ≡ span.now.z) }
        ensures front { IsFrontOf self.new.x self.new.z self.new.bytes self.new.from }
    {
        if self.x != span.x || self.z != span.z {
            *self = LineFront::new(span.x, span.z);
        }
    }
}

/// Copies the front of a line, so that it ends where `end` says. Answers where it begins.
#[inline(always)]
fn put_front(bytes: &mut [u8], end: usize, front: &LineFront) -> usize
    requires room { 32 ≤ end }
    requires within { end ≤ length bytes.old }
    requires front { front.now.from ≤ 32 }
    ensures text { drop result bytes.new ≡ drop front.now.from front.now.bytes ++ drop end bytes.old }
    ensures same { length bytes.new ≡ length bytes.old }
    ensures before { result ≤ end }
{
    let at = end - FRONT;
    bytes[at..end].copy_from_slice(&front.bytes);
    at + front.from
}

/// Spells the line of a span, behind the front of its column's lines, at the end of some bytes. Answers where it begins.
#[inline(always)]
fn spell_line(bytes: &mut [u8], front: &LineFront, span: &Span) -> usize
    requires room { length bytes.old ≡ 66 }
    requires front { IsFrontOf span.now.x span.now.z front.now.bytes front.now.from }
    ensures text { drop result bytes.new ≡ ended (span_text span.now) }
    ensures within { result ≤ 66 }
    ensures same { length bytes.new ≡ 66 }
{
    bytes[LINE - 1] = b'\n';
    let at = put_number(bytes, LINE - 1, span.area);
    let at = put_number(bytes, at, span.top);
    let at = put_number(bytes, at, span.bottom);
    put_front(bytes, at, front)
}

/// Appends the line of a span behind the front of its column's lines, or nothing where memory is refused.
#[inline(always)]
fn append_line(out: &mut Vec<u8>, front: &LineFront, span: &Span) -> Result<(), AllocError>
    requires { IsFrontOf span.now.x span.now.z front.now.bytes front.now.from }
    ensures ok { OnOk result (out.new.items ≡ out.old.items ++ ended (span_text span.now)) }
    ensures err { OnErr result (out.new.items ≡ out.old.items) }
    ensures room { vec_len out.old + length (ended (span_text span.now)) ≤ vec_capacity out.old → IsOk result }
    ensures capacity { vec_capacity out.old ≤ vec_capacity out.new }
{
    let mut bytes = [0; LINE];
    let from = spell_line(&mut bytes, front, span);
    out.extend_from_slice(&bytes[from..])
}

/// Appends the line of a span, or nothing where memory is refused.
pub fn write_span(out: &mut Vec<u8>, span: &Span) -> Result<(), AllocError>
    ensures ok { OnOk result (out.new.items ≡ out.old.items ++ ended (span_text span.now)) }
    ensures err { OnErr result (out.new.items ≡ out.old.items) }
    ensures room { vec_len out.old + length (ended (span_text span.now)) ≤ vec_capacity out.old → IsOk result }
    ensures capacity { vec_capacity out.old ≤ vec_capacity out.new }
{
    append_line(out, &LineFront::new(span.x, span.z), span)
}

/// Appends the lines of spans. Where memory is refused, those of some at the front may stand at the end.
pub fn write_spans(out: &mut Vec<u8>, spans: &[PackedSpan]) -> Result<(), AllocError>
    ensures { OnOk result (out.new.items ≡ out.old.items ++ text_of (map span_text spans.now)) }
{
    let mut front = LineFront::new(0, 0);
    for packed in spans {
        let span = packed.get();
        front.turn_to(&span);
        append_line(out, &front, &span)?;
    }
    Ok(())
}
