//! The filters that look at one column alone, and all filters one after the other. The filter of ledges.

ghost use Rattle.std.specs.Prelude.{◌≡◌, ◌<◌, IfOk, IfSome, length, map, ◌+◌, ◌≤◌, filter, slice_index_or, if◌then◌else◌};
ghost use Rattle.nav_ground.specs.declared.field.Span.{Span};
ghost use Rattle.nav_ground.specs.Fields.{IsField, AreAreas};
ghost use Rattle.nav_ground.specs.Limits.{IsAgent};
ghost use Rattle.nav_ground.specs.Directions.{number};
ghost use Rattle.nav_ground.specs.Filters.{low_hanging_areas, low_ceiling_areas, filtered_areas, ledge_areas, is_ledge, is_at_edge, gaps_beside};
ghost use Rattle.span_filters.specs.Columns.{IsLargestSpan, ArePlaced, IsPassed, IsCutAt, column_of, column_beside, place_of, start_of, is_in};
ghost use Rattle.span_filters.specs.Areas.{area_hung};
ghost use Rattle.nav_ground.specs.Column.{gaps_of, column_toward};
ghost use Rattle.span_filters.specs.Gaps.{IsStand, seen_over, seen_at_first};
ghost use Rattle.span_filters.specs.Looks.{ArePassed};

use crate::gaps::{
    AgentStand, GapsSeen, PlacedSpans, ceiling_of, ceiling_over, column_beside, column_of,
    floor_over, pass, place_of, see_gap, shows_ledge, span_below, starts_of,
};
use nav_ground::{Agent, Direction, Field, PackedSpan};
use std::alloc::{AllocError, Global};

/// The areas of the spans, where each span with area 0 takes the area of the span directly below it if its top is at most the agent's
/// climb above the top of that one. Only the areas of the field count: a span takes no area that another one took. Recast's filter of
/// low hanging walkable obstacles.
pub fn low_hanging(alloc: Global, field: &Field, agent: &Agent) -> Result<Vec<u32>, AllocError>
    requires field { IsField field.now }
    requires agent { IsAgent agent.now }
    ensures { IfOk result (λ areas. areas.items ≡ low_hanging_areas field.now agent.now) }
{
    let spans = field.spans.as_slice();
    let mut areas = Vec::with_capacity(alloc, spans.len())?;
    for (i, span) in spans.iter().enumerate() {
        let below = span_below(spans, i);
        areas.push(area_hung(agent.climb, span, below))?;
    }
    Ok(areas)
}

/// The area of a span over the one directly below it.
fn area_hung(climb: u32, span: &PackedSpan, below: Option<PackedSpan>) -> u32
    requires climb { climb < 256 }
    requires span { IsLargestSpan span.now }
    requires below { IfSome below IsLargestSpan }
    ensures { result ≡ Rattle.span_filters.specs.Areas.area_hung climb span.now below }
{
    if span.area() != 0 {
        return span.area();
    }
    match below {
        Some(below) if span.top() <= below.top() + climb => below.area(),
        _ => 0,
    }
}

/// The areas of the spans, with 0 for each span over which the agent cannot stand upright. Recast's filter of walkable low height spans.
pub fn low_ceilings(
    alloc: Global,
    field: &Field,
    areas: &[u32],
    agent: &Agent,
) -> Result<Vec<u32>, AllocError>
    requires field { IsField field.now }
    requires agent { IsAgent agent.now }
    requires areas { AreAreas areas.now }
    requires beside { length areas.now ≡ length field.now.spans }
    ensures { IfOk result (λ left. left.items ≡ low_ceiling_areas field.now areas.now agent.now) }
{
    let spans = field.spans.as_slice();
    let mut left = Vec::with_capacity(alloc, spans.len())?;
    for (i, span) in spans.iter().enumerate() {
        let ceiling = ceiling_of(spans, i);
        left.push(area_under(ceiling, span.top() + agent.height, areas[i]))?;
    }
    Ok(left)
}

/// The area of a span under a ceiling, where the agent needs so much.
fn area_under(ceiling: u32, needed: u32, area: u32) -> u32
    ensures { result ≡ Rattle.span_filters.specs.Areas.area_under ceiling needed area }
{
    if ceiling < needed { 0 } else { area }
}

/// The areas that the three filters leave, one after the other: low hanging spans, ledges, low ceilings. Only memory can be refused.
pub fn filtered(alloc: Global, field: &Field, agent: &Agent) -> Result<Vec<u32>, AllocError>
    requires field { IsField field.now }
    requires agent { IsAgent agent.now }
    ensures areas { IfOk result (λ left. left.items ≡ filtered_areas field.now agent.now) }
    ensures rules { IfOk result (λ left. AreAreas left.items × (length left.items ≡ length field.now.spans)) }
{
    let left = {
        let hung = low_hanging(alloc, field, agent)?;
        ledges(alloc, field, hung.as_slice(), agent)?
    };
    low_ceilings(alloc, field, left.as_slice(), agent)
}

/// How many spans of the list lie before what a span can see of the neighbouring columns: in columns before them, or with their bottoms
/// too low for a gap under them to be open. As spans are gone through in order these numbers only rise, so all of them together pass
/// each span once a direction.
#[derive(Clone, Copy)]
pub struct PassedSpans {
    pub left: usize,
    pub above: usize,
    pub right: usize,
    pub below: usize,
}

/// The areas of the spans, with 0 for each span that is a ledge: at the field's edge, or beside a drop of more than the climb, or where
/// the floors within reach around differ by more than the climb. It stands in place of Recast's ledge filter, with a rule of our own.
pub fn ledges(
    alloc: Global,
    field: &Field,
    areas: &[u32],
    agent: &Agent,
) -> Result<Vec<u32>, AllocError>
    requires field { IsField field.now }
    requires agent { IsAgent agent.now }
    requires areas { AreAreas areas.now }
    requires beside { length areas.now ≡ length field.now.spans }
    ensures { IfOk result (λ left. left.items ≡ ledge_areas field.now areas.now agent.now) }
{
    let mut passed = PassedSpans {
        left: 0,
        above: 0,
        right: 0,
        below: 0,
    };
    let starts = starts_of(alloc, field.spans.as_slice())?;
    let starts = starts.as_slice();
    let mut left = Vec::with_capacity(alloc, areas.len())?;
    for (i, area) in areas.iter().enumerate() {
        left.push(area_left(field, starts, agent, &mut passed, i, *area))?;
    }
    Ok(left)
}

/// The area that a span is left with.
fn area_left(
    field: &Field,
    starts: &[u64],
    agent: &Agent,
    passed: &mut PassedSpans,
    i: usize,
    area: u32,
) -> u32
    requires field { IsField field.now }
    requires starts { starts.now ≡ map start_of field.now.spans }
    requires agent { IsAgent agent.now }
    requires there { i < length field.now.spans }
    requires passed { (d : Span) → ArePassed field.now.spans passed.old agent.now.height (slice_index_or field.now.spans i d) }
    ensures area { (d : Span) → result ≡ (if is_ledge field.now agent.now (slice_index_or field.now.spans i d) then 0 else area) }
    ensures passed { (d : Span) → ArePassed field.now.spans passed.new agent.now.height (slice_index_or field.now.spans i d) }
{
    if area == 0 {
        return 0;
    }
    if is_ledge(field, starts, agent, passed, i) {
        0
    } else {
        area
    }
}

/// Whether a span is a ledge.
fn is_ledge(
    field: &Field,
    starts: &[u64],
    agent: &Agent,
    passed: &mut PassedSpans,
    i: usize,
) -> bool
    requires field { IsField field.now }
    requires starts { starts.now ≡ map start_of field.now.spans }
    requires agent { IsAgent agent.now }
    requires there { i < length field.now.spans }
    requires passed { (d : Span) → ArePassed field.now.spans passed.old agent.now.height (slice_index_or field.now.spans i d) }
    ensures ledge { (d : Span) → result ≡ Rattle.nav_ground.specs.Filters.is_ledge field.now agent.now (slice_index_or field.now.spans i d) }
    ensures passed { (d : Span) → ArePassed field.now.spans passed.new agent.now.height (slice_index_or field.now.spans i d) }
{
    let spans = field.spans.as_slice();
    let span = &spans[i];
    if is_at_edge(field, span) {
        return true;
    }
    let stand = AgentStand {
        floor: span.top(),
        ceiling: ceiling_of(spans, i),
        height: agent.height,
        climb: agent.climb,
    };
    let post = LedgeView {
        stand: &stand,
        list: PlacedSpans { spans, starts },
        span,
        column: column_of(span),
    };
    let seen = look_around(&post, passed);
    shows_ledge(&seen, agent.climb)
}

/// Whether one of the columns beside a span's lies outside the field.
fn is_at_edge(field: &Field, span: &PackedSpan) -> bool
    requires { IsLargestSpan span.now }
    ensures { result ≡ is_at_edge field.now span.now }
{
    span.x() == 0 || span.z() == 0 || span.x() + 1 == field.width || span.z() + 1 == field.depth
}

/// Where gaps are looked at from: a span of a field and its column, and the agent that would stand on it.
#[derive(Clone, Copy, Drop)]
struct LedgeView<'a> {
    stand: &'a AgentStand,
    list: PlacedSpans<'a>,
    span: &'a PackedSpan,
    column: u32,
}

/// What a span sees of the gaps of the four columns beside its own.
fn look_around(post: &LedgeView<'_>, passed: &mut PassedSpans) -> GapsSeen
    requires stand { IsStand post.now.stand.now }
    requires list { ArePlaced post.now.list.spans.now post.now.list.starts.now }
    requires span { IsLargestSpan post.now.span.now }
    requires column { post.now.column ≡ column_of post.now.span.now }
    requires floor { post.now.stand.now.floor ≡ post.now.span.now.top }
    requires passed { ArePassed post.now.list.spans.now passed.old post.now.stand.now.height post.now.span.now }
    ensures seen { result ≡ seen_over post.now.stand.now (seen_at_first post.now.stand.now) (gaps_beside post.now.list.spans.now post.now.span.now) }
    ensures least { result.least ≤ post.now.stand.now.floor }
    ensures passed { ArePassed post.now.list.spans.now passed.new post.now.stand.now.height post.now.span.now }
{
    let mut seen = GapsSeen {
        beside_drop: false,
        least: post.stand.floor,
        greatest: post.stand.floor,
    };
    look_toward(Direction::Left, post, &mut passed.left, &mut seen);
    look_toward(Direction::Above, post, &mut passed.above, &mut seen);
    look_toward(Direction::Right, post, &mut passed.right, &mut seen);
    look_toward(Direction::Below, post, &mut passed.below, &mut seen);
    seen
}

/// Takes the gaps of the column beside a span's in a direction into what is seen.
fn look_toward(dir: Direction, post: &LedgeView<'_>, passed: &mut usize, seen: &mut GapsSeen)
    requires stand { IsStand post.now.stand.now }
    requires list { ArePlaced post.now.list.spans.now post.now.list.starts.now }
    requires span { IsLargestSpan post.now.span.now }
    requires column { post.now.column ≡ column_of post.now.span.now }
    requires passed { IsPassed post.now.list.spans.now passed.old
        (place_of (column_beside (number dir) post.now.span.now) (post.now.stand.now.floor + post.now.stand.now.height)) }
    ensures seen { seen.new ≡ seen_over post.now.stand.now seen.old (gaps_of (column_toward (number dir) post.now.list.spans.now post.now.span.now)) }
    ensures passed { IsPassed post.now.list.spans.now passed.new
        (place_of (column_beside (number dir) post.now.span.now) (post.now.stand.now.floor + post.now.stand.now.height)) }
{
    let stand = post.stand;
    let column = column_beside(dir, post.column);
    *passed = pass(
        post.list,
        *passed,
        place_of(column, stand.floor + stand.height),
    );
    look(stand, post.list, *passed, column, seen);
}

/// Takes the gaps of a column into what is seen, where the first span that begins high enough for an open gap is known. Only the gap below
/// that span can show something: the floors above it are more than the climb too high, since the climb is less than the height.
fn look(stand: &AgentStand, list: PlacedSpans<'_>, first: usize, column: u32, seen: &mut GapsSeen)
    requires stand { IsStand stand.now }
    requires list { ArePlaced list.spans.now list.starts.now }
    requires first { IsCutAt list.spans.now first (place_of column (stand.now.floor + stand.now.height)) }
    ensures { seen.new ≡ seen_over stand.now seen.old (gaps_of (filter (is_in column) list.entry.spans.now)) }
{
    let floor = floor_over(list, first, column);
    let ceiling = ceiling_over(list, first, column);
    see_gap(stand, seen, floor, ceiling);
}
