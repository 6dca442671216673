//! The lines behind the header: costs, spans and the end. The line of a span, read in one pass over its bytes.

ghost use Rattle.std.specs.Prelude.{◌≡◌, ℕ, ◌≤◌, [], Some, MatchOption, IfSome, codes, length, ◌*◌, ◌+◌, ◌-◌, ◌<◌, ◌++◌, ◌∷◌, decimal, IsOk, OnOk, OnErr, vec_len, vec_capacity};
ghost use Rattle.span_text.specs.Body.{cost_in, span_of, is_span, is_column_before, is_column_of, span_after, span_in, other_line, body_line, header_line, Fits};
ghost use Rattle.span_text.specs.NextLine.{SaysFirst, span_or_many, IsHeld};
ghost use Rattle.nav_text.specs.Forms.{numbers_of};
ghost use Rattle.nav_text.specs.Lines.{lines};
ghost use Rattle.std.specs.Option.{option_copied};
ghost use Rattle.span_text.specs.FieldText.{span_text};

use crate::front::is_in;
use nav_ground::{PackedSpan, Span};
use nav_text::{FaultKind, first_line, has_word, numbers_of};

/// The most spans that a field can have.
pub const MAX_SPANS: usize = 2000000;

/// What a line behind those of the setting is.
#[derive(Clone, Copy)]
pub enum BodyLine {
    /// What a unit of way costs in an area.
    Cost { area: u32, cost: u32 },
    Spans(Span),
    /// The line that ends the text, or, where a header is read, the one behind it.
    End,
    /// It fails, as this kind says.
    Fails(FaultKind),
}

/// What the first line of a text is, which stands behind the header and after some spans, and the text after it. None where no line feed is
/// left. A span's line is read in one pass over its bytes.
pub fn next_line<'a>(
    width: u32,
    depth: u32,
    before: u32,
    spans: &[PackedSpan],
    text: &'a [u8],
) -> Option<(BodyLine, &'a [u8])>
    requires { length spans.now ≤ MAX_SPANS }
    ensures value { MatchOption result (lines text.now ≡ [])
        (λ x. SaysFirst width depth before spans.now text.now x.0 x.1.now) }
    ensures fits { IfSome result (λ x. Fits before (length spans.now) x.0) }
{
    if let Some((span, rest)) = span_line(text) {
        return Some((span_or_many(width, depth, spans, span), rest));
    }
    let (line, rest) = first_line(text)?;
    Some((body_line(width, depth, before, spans, line), rest))
}

/// The line of a span, after some spans.
fn span_or_many(width: u32, depth: u32, spans: &[PackedSpan], span: Span) -> BodyLine
    requires { length spans.now ≤ MAX_SPANS }
    ensures value { result ≡ span_or_many width depth spans.now span }
    ensures fits { (before : ℕ) → Fits before (length spans.now) result }
{
    if spans.len() == MAX_SPANS {
        return BodyLine::Fails(FaultKind::TooMany);
    }
    span_in(width, depth, spans.last().copied(), span)
}

/// A line behind the header, after some spans. `before` is the area of the last cost, 0 at first.
#[tactic(auto, unfolding(crate::specs::Body::body_line))]
pub fn body_line(width: u32, depth: u32, before: u32, spans: &[PackedSpan], line: &[u8]) -> BodyLine
    requires { length spans.now ≤ MAX_SPANS }
    ensures value { result ≡ body_line width depth before spans.now line.now }
    // A cost is one of a further area, and a span has room.
    ensures fits { Fits before (length spans.now) result }
{
    if spans.len() == MAX_SPANS && has_word(b"span", line) {
        return BodyLine::Fails(FaultKind::TooMany);
    }
    match numbers_of::<5>(b"span", line) {
        Some(numbers) => span_in(width, depth, spans.last().copied(), span_of(&numbers)),
        None => other_line(before, spans.len(), line),
    }
}

/// A line that is no span: `end`, or a cost where no span stands before.
#[tactic(auto, unfolding(crate::specs::Body::other_line))]
fn other_line(before: u32, count: usize, line: &[u8]) -> BodyLine
    ensures { result ≡ other_line before count line.now }
{
    if line == b"end".as_slice() {
        return BodyLine::End;
    }
    if count > 0 {
        return BodyLine::Fails(FaultKind::Form);
    }
    cost_line(before, line)
}

/// A cost of a further area than `before`.
fn cost_line(before: u32, line: &[u8]) -> BodyLine
    ensures { result ≡ cost_in before (numbers_of (codes "cost") 2 line.now) }
{
    let Some(numbers) = numbers_of::<2>(b"cost", line) else {
        return BodyLine::Fails(FaultKind::Form);
    };
    let (area, cost) = (numbers[0], numbers[1]);
    if !is_in(1, 63, area) || !is_in(1, 1000, cost) {
        BodyLine::Fails(FaultKind::Range)
    } else if area <= before {
        BodyLine::Fails(FaultKind::Order)
    } else {
        BodyLine::Cost { area, cost }
    }
}

/// A line behind those of the setting, where only costs are asked for: a cost, or the header's end where the line's
/// first word is another.
#[tactic(auto, unfolding(crate::specs::Body::header_line))]
pub fn header_line(before: u32, line: &[u8]) -> BodyLine
    ensures value { result ≡ header_line before line.now }
    ensures fits { Fits before 0 result }
{
    if !has_word(b"cost", line) {
        return BodyLine::End;
    }
    cost_line(before, line)
}

/// The span that five numbers say.
fn span_of(numbers: &[u32; 5]) -> Span
    ensures { result ≡ span_of numbers.now }
{
    Span {
        x: numbers[0],
        z: numbers[1],
        bottom: numbers[2],
        top: numbers[3],
        area: numbers[4],
    }
}

/// A span after the last one, whose numbers may be past their limits.
fn span_in(width: u32, depth: u32, last: Option<PackedSpan>, span: Span) -> BodyLine
    ensures { result ≡ span_in width depth last span }
{
    if !is_span(width, depth, &span) {
        return BodyLine::Fails(FaultKind::Range);
    }
    match last {
        Some(last) => span_after(&last, span),
        None => BodyLine::Spans(span),
    }
}

fn span_after(last: &PackedSpan, span: Span) -> BodyLine
    ensures { result ≡ span_after (Some last.now) span }
{
    if is_column_before(&span, last) {
        BodyLine::Fails(FaultKind::Order)
    } else if is_column_of(&span, last) && span.bottom < last.top() {
        BodyLine::Fails(FaultKind::Overlap)
    } else {
        BodyLine::Spans(span)
    }
}

/// Whether a span's numbers are within their limits.
fn is_span(width: u32, depth: u32, span: &Span) -> bool
    ensures { result ≡ is_span width depth span.now }
{
    span.x < width
        && span.z < depth
        && span.bottom < span.top
        && span.top <= 8191
        && span.area <= 63
}

/// Whether a span's column comes before another's, by z and then x.
fn is_column_before(a: &Span, b: &PackedSpan) -> bool
    ensures { result ≡ is_column_before a.now b.now }
{
    a.z < b.z() || a.z == b.z() && a.x < b.x()
}

/// Whether two spans are of one column.
fn is_column_of(a: &Span, b: &PackedSpan) -> bool
    ensures { result ≡ is_column_of a.now b.now }
{
    a.z == b.z() && a.x == b.x()
}

/// How many bytes the longest line has that is read so: the word, five numbers of at most four digits, each behind a space, and the line feed.
const LONGEST: usize = 30;

/// The span whose line a text begins with, and the text after it. None where it begins with no line of this form, where a number has more than
/// four digits, and where the text is shorter than the longest line.
pub fn span_line(text: &[u8]) -> Option<(Span, &[u8])>
    ensures text { IfSome result (λ x. text.now ≡ span_text x.0 ++ 10 ∷ x.1.now) }
    ensures held { IfSome result (λ x. IsHeld x.0) }
{
    if text.len() < LONGEST {
        return None;
    }
    let rest = text.strip_prefix(b"span")?;
    let (x, rest) = next_number(rest)?;
    let (z, rest) = next_number(rest)?;
    let (bottom, rest) = next_number(rest)?;
    let (top, rest) = next_number(rest)?;
    let (area, rest) = next_number(rest)?;
    if rest[0] != b'\n' {
        return None;
    }
    let span = Span {
        x,
        z,
        bottom,
        top,
        area,
    };
    Some((span, &rest[1..]))
}

/// The number of at most four digits behind one space at the front, and the bytes after it. Behind a `0`, and behind four digits, a further digit
/// is left in front.
fn next_number(bytes: &[u8]) -> Option<(u32, &[u8])>
    requires { 5 ≤ length bytes.now }
    ensures text { IfSome result (λ x. bytes.now ≡ 32 ∷ (decimal x.0 ++ x.1.now)) }
    ensures left { IfSome result (λ x. length bytes.now ≤ length x.1.now + 5) }
{
    if bytes[0] != b' ' {
        return None;
    }
    let one = with_digit(0, &bytes[1..])?;
    if one.0 == 0 {
        return Some(one);
    }
    let Some(two) = with_digit(one.0, one.1) else {
        return Some(one);
    };
    let Some(three) = with_digit(two.0, two.1) else {
        return Some(two);
    };
    match with_digit(three.0, three.1) {
        Some(four) => Some(four),
        None => Some(three),
    }
}

/// A number with the digit at the front of some bytes behind its own, and the bytes after it. None where another byte stands there.
fn with_digit(number: u32, bytes: &[u8]) -> Option<(u32, &[u8])>
    requires room { 0 < length bytes.now }
    requires small { number < 1000 }
    ensures least { IfSome result (λ x. 10 * number ≤ x.0) }
    ensures most { IfSome result (λ x. x.0 < 10 * number + 10) }
    ensures text { IfSome result (λ x. bytes.now ≡ (48 + (x.0 - 10 * number)) ∷ x.1.now) }
{
    let first = bytes[0];
    if !first.is_ascii_digit() {
        return None;
    }
    Some((10 * number + u32::from(first - b'0'), &bytes[1..]))
}
