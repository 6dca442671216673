//! What an agent on a span sees of the gaps around it. Columns of spans: what stands above and below a span, and where other columns lie in
//! the list.

ghost use Rattle.std.specs.Prelude.{◌≡◌, ℕ, ◌<◌, ◌≤◌, IfOk, IfSome, ◌+◌, ◌↔◌, IsTrue, None, length, map, take, drop, filter, slice_index_or};
ghost use Rattle.span_filters.specs.Gaps.{IsStand};
ghost use Rattle.nav_ground.specs.declared.field.Span.{Span};
ghost use Rattle.nav_ground.specs.Column.{span_below, ceiling_of};
ghost use Rattle.nav_ground.specs.Directions.{number};
ghost use Rattle.span_filters.specs.Columns.{IsLargestSpan, AreSpans, ArePlaced, IsPassed, IsCutAt, IsSameColumn, column_of, column_beside, place_of, start_of, floor_over, is_in};

use nav_ground::{Direction, PackedSpan};
use std::alloc::{AllocError, Global};

/// Where an agent would stand, and the agent: heights in height units.
#[derive(Clone, Copy)]
pub struct AgentStand {
    /// The top of the span.
    pub floor: u32,
    /// The height of what is above it.
    pub ceiling: u32,
    /// How much height the agent needs.
    pub height: u32,
    /// The greatest step up or down.
    pub climb: u32,
}

/// What the open gaps looked at so far show.
#[derive(Clone, Copy)]
pub struct GapsSeen {
    /// One of them has no floor, or a floor more than the climb below.
    pub beside_drop: bool,
    /// The least and the greatest of the own floor and the floors that differ from it by at most the climb.
    pub least: u32,
    pub greatest: u32,
}

/// Takes one more gap into what is seen, from its floor, if it has one, up to its ceiling.
pub fn see_gap(stand: &AgentStand, seen: &mut GapsSeen, floor: Option<u32>, ceiling: u32)
    requires stand { IsStand stand.now }
    requires floor { IfSome floor (λ floor. floor ≤ 8191) }
    ensures { seen.new ≡ Rattle.span_filters.specs.Gaps.with_gap stand.now seen.old (record { floor = floor; ceiling = ceiling }) }
{
    let higher = match floor {
        Some(floor) => stand.floor.max(floor),
        None => stand.floor,
    };
    if higher + stand.height > stand.ceiling.min(ceiling) {
        return;
    }
    match floor {
        Some(floor) => see_floor(stand, seen, floor),
        None => seen.beside_drop = true,
    }
}

/// Takes one more floor of an open gap into what is seen.
fn see_floor(stand: &AgentStand, seen: &mut GapsSeen, floor: u32)
    requires stand { IsStand stand.now }
    requires floor { floor ≤ 8191 }
    ensures { seen.new ≡ Rattle.span_filters.specs.Gaps.with_floor stand.now seen.old floor }
{
    if floor + stand.climb < stand.floor {
        seen.beside_drop = true;
        return;
    }
    if floor > stand.floor + stand.climb {
        return;
    }
    seen.least = seen.least.min(floor);
    seen.greatest = seen.greatest.max(floor);
}

/// Whether what is seen makes the span a ledge: a drop, or floors that differ by more than the climb.
pub fn shows_ledge(seen: &GapsSeen, climb: u32) -> bool
    requires least { seen.now.least ≤ 8191 }
    requires climb { climb < 256 }
    ensures { result ≡ Rattle.span_filters.specs.Gaps.shows_ledge seen.now climb }
{
    seen.beside_drop || seen.least + climb < seen.greatest
}

/// The ceiling of a span with nothing above it.
pub const OPEN_SKY: u32 = 65535;

/// Whether two spans lie in one column.
fn is_same_column(a: &PackedSpan, b: &PackedSpan) -> bool
    ensures { IsTrue result ↔ IsSameColumn a.now b.now }
{
    a.x() == b.x() && a.z() == b.z()
}

/// The span directly below one, if there is one.
pub fn span_below(spans: &[PackedSpan], i: usize) -> Option<PackedSpan>
    requires spans { AreSpans spans.now }
    requires there { i < length spans.now }
    ensures within { IfSome result IsLargestSpan }
    ensures below { (d : Span) → result ≡ Rattle.nav_ground.specs.Column.span_below spans.now (slice_index_or spans.now i d) }
{
    if i == 0 {
        return None;
    }
    let below = spans[i - 1];
    if is_same_column(&below, &spans[i]) {
        Some(below)
    } else {
        None
    }
}

/// The height of what is above a span: the bottom of the next span of its column, or open sky.
pub fn ceiling_of(spans: &[PackedSpan], i: usize) -> u32
    requires spans { AreSpans spans.now }
    requires there { i < length spans.now }
    ensures { (d : Span) → result ≡ Rattle.nav_ground.specs.Column.ceiling_of spans.now (slice_index_or spans.now i d) }
{
    if i + 1 == spans.len() {
        return OPEN_SKY;
    }
    let above = spans[i + 1];
    if is_same_column(&spans[i], &above) {
        above.bottom()
    } else {
        OPEN_SKY
    }
}

/// The number of a span's column. Columns are numbered row by row; a row has 2048 numbers and the first begins at 2048, so that the
/// columns beside a row have numbers of their own.
pub fn column_of(span: &PackedSpan) -> u32
    requires { IsLargestSpan span.now }
    ensures { result ≡ column_of span.now }
{
    (span.z() + 1) * 2048 + span.x()
}

/// The number of the column beside one in a direction.
pub fn column_beside(dir: Direction, column: u32) -> u32
    requires least { 2048 ≤ column }
    requires most { column < 4194304 }
    ensures { (span : Span) → column ≡ column_of span → result ≡ Rattle.span_filters.specs.Columns.column_beside (number dir) span }
{
    match dir {
        Direction::Left => column - 1,
        Direction::Above => column + 2048,
        Direction::Right => column + 1,
        Direction::Below => column - 2048,
    }
}

/// The place of a height over a column, in the order in which spans stand: column by column, in each from the bottom up.
pub fn place_of(column: u32, height: u32) -> u64
    ensures { result ≡ Rattle.span_filters.specs.Columns.place_of column height }
{
    u64::from(column) * 16384 + u64::from(height)
}

/// The place where a span begins.
fn start_of(span: &PackedSpan) -> u64
    requires { IsLargestSpan span.now }
    ensures { result ≡ start_of span.now }
{
    place_of(column_of(span), span.bottom())
}

/// The places where the spans begin, so that none is reckoned again for each column beside it.
pub fn starts_of(alloc: Global, spans: &[PackedSpan]) -> Result<Vec<u64>, AllocError>
    requires { AreSpans spans.now }
    ensures { IfOk result (λ starts. starts.items ≡ map start_of spans.now) }
{
    let mut starts = Vec::with_capacity(alloc, spans.len())?;
    for span in spans {
        starts.push(start_of(span))?;
    }
    Ok(starts)
}

/// Spans in order, and beside them the places where they begin.
#[derive(Clone, Copy, Drop)]
pub struct PlacedSpans<'a> {
    pub spans: &'a [PackedSpan],
    pub starts: &'a [u64],
}

/// How many of the spans begin before a place, where so many are known to do.
pub fn pass(list: PlacedSpans<'_>, known: usize, place: u64) -> usize
    requires list { ArePlaced list.spans.now list.starts.now }
    requires known { IsPassed list.spans.now known place }
    ensures { IsCutAt list.entry.spans.now result place }
{
    let starts = list.starts;
    let mut passed = known;
    while passed < starts.len() && starts[passed] < place {
        passed += 1;
    }
    passed
}

/// The floor in a column over the first so many spans: the top of the last one, or none where that one lies in another column.
pub fn floor_over(list: PlacedSpans<'_>, passed: usize, column: u32) -> Option<u32>
    requires list { ArePlaced list.spans.now list.starts.now }
    requires passed { IsPassed list.spans.now passed (Rattle.span_filters.specs.Columns.place_of (column + 1) 0) }
    ensures { result ≡ Rattle.span_filters.specs.Columns.floor_over None (filter (is_in column) (take passed list.entry.spans.now)) }
{
    if passed == 0 {
        return None;
    }
    if list.starts[passed - 1] < place_of(column, 0) {
        return None;
    }
    Some(list.spans[passed - 1].top())
}

/// The bottom of the first span of a column from one on, where none from that one on lies in an earlier column; open sky where there is none.
pub fn ceiling_over(list: PlacedSpans<'_>, first: usize, column: u32) -> u32
    requires list { ArePlaced list.spans.now list.starts.now }
    requires next { (k : ℕ) (d : Span) → first ≤ k → k < length list.spans.now → column ≤ column_of (slice_index_or list.spans.now k d) }
    ensures { result ≡ Rattle.span_filters.specs.Columns.ceiling_over (filter (is_in column) (drop first list.entry.spans.now)) }
{
    let starts = list.starts;
    let foot = place_of(column, 0);
    if first < starts.len() && starts[first] < foot + 16384 {
        (starts[first] - foot) as u32
    } else {
        OPEN_SKY
    }
}
