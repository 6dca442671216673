//! The forms of a script's lines.
ghost use Rattle.std.specs.Prelude.{◌≡◌, ◌≤◌, IfOk};
ghost use Rattle.nav_script.specs.Lanes.{NamesLaneBelow};
ghost use Rattle.nav_script.specs.Forms;
ghost use Rattle.nav_script.specs.QuestionForms;
ghost use Rattle.nav_script.specs.RequestForms;
ghost use Rattle.nav_script.specs.WayForms.{read_in_groups};

use crate::script::{Header, Line, Way};
use mesh_types::Jump;
use nav_base::{Point, Question};
use nav_ground::Shape;
use nav_text::{FaultKind, number_after, numbers_of};

/// The greatest number of a column.
const LAST_COLUMN: u32 = 1023;
/// The greatest height of a shape or a question.
const HIGHEST: u32 = 8191;
/// The greatest x or z of a question's point, in sixteenths of a cell.
const LAST_SIXTEENTH: u32 = 16384;

/// The greatest x or z of a cylinder's centre, in half cells.
const LAST_CENTRE: u32 = 2048;
/// The greatest radius of a cylinder, in cells.
const LARGEST_RADIUS: u32 = 1023;
/// The greatest cost of a jump.
const COSTLIEST_JUMP: u32 = 1000000;
/// The longest march, in sixteenths of a cell.
const LONGEST_MARCH: u32 = 65535;
/// The greatest area that an obstacle can set.
const GREATEST_AREA: u32 = 63;

fn in_limits(fits: bool, line: Line) -> Result<Line, FaultKind>
    ensures { result ≡ Rattle.nav_script.specs.Forms.in_limits fits line }
{
    if fits {
        Ok(line)
    } else {
        Err(FaultKind::Range)
    }
}

fn below_count(number: u32, count: u32, line: Line) -> Result<Line, FaultKind>
    ensures { result ≡ Rattle.nav_script.specs.Forms.below_count number count line }
{
    if number < count {
        Ok(line)
    } else {
        Err(FaultKind::Lane)
    }
}

fn is_place(x: u32, z: u32) -> bool
    ensures { result ≡ Rattle.nav_script.specs.QuestionForms.is_place x z }
{
    x <= LAST_SIXTEENTH && z <= LAST_SIXTEENTH
}

fn is_standing(x: u32, z: u32, y: u32) -> bool
    ensures { result ≡ Rattle.nav_script.specs.QuestionForms.is_standing x z y }
{
    is_place(x, z) && y <= HIGHEST
}

fn point_at(x: u32, z: u32) -> Point
    requires x { x ≤ 16384 }
    requires z { z ≤ 16384 }
    ensures { result ≡ Rattle.nav_script.specs.QuestionForms.point_at x z }
{
    Point {
        x: x as i32,
        z: z as i32,
    }
}

fn is_range(low: u32, high: u32, most: u32) -> bool
    ensures { result ≡ Rattle.nav_script.specs.Forms.is_range low high most }
{
    low <= high && high <= most
}

fn floor_line(n: [u32; 2]) -> Result<Line, FaultKind>
    ensures { result ≡ Rattle.nav_script.specs.QuestionForms.floor_line n }
{
    let [x, z] = n;
    in_limits(
        x <= LAST_COLUMN && z <= LAST_COLUMN,
        Line::Ask(Question::Floor { x, z }),
    )
}

fn path_line(n: [u32; 6]) -> Result<Line, FaultKind>
    ensures { result ≡ Rattle.nav_script.specs.QuestionForms.path_line n }
{
    let [x, z, from_y, to_x, to_z, to_y] = n;
    if !(is_standing(x, z, from_y) && is_standing(to_x, to_z, to_y)) {
        return Err(FaultKind::Range);
    }
    Ok(Line::Ask(Question::Path {
        from: point_at(x, z),
        from_y,
        to: point_at(to_x, to_z),
        to_y,
    }))
}

fn ray_line(n: [u32; 5]) -> Result<Line, FaultKind>
    ensures { result ≡ Rattle.nav_script.specs.QuestionForms.ray_line n }
{
    let [x, z, from_y, to_x, to_z] = n;
    if !(is_standing(x, z, from_y) && is_place(to_x, to_z)) {
        return Err(FaultKind::Range);
    }
    Ok(Line::Ask(Question::Ray {
        from: point_at(x, z),
        from_y,
        to: point_at(to_x, to_z),
    }))
}

fn is_block(n: [u32; 6]) -> bool
    ensures { result ≡ Rattle.nav_script.specs.RequestForms.is_block n }
{
    let [x0, x1, y0, y1, z0, z1] = n;
    is_range(x0, x1, LAST_COLUMN) && is_range(y0, y1, HIGHEST) && is_range(z0, z1, LAST_COLUMN)
}

fn is_cylinder(n: [u32; 5]) -> bool
    ensures { result ≡ Rattle.nav_script.specs.RequestForms.is_cylinder n }
{
    let [cx, cz, r, y0, y1] = n;
    cx <= LAST_CENTRE && cz <= LAST_CENTRE && r <= LARGEST_RADIUS && is_range(y0, y1, HIGHEST)
}

fn block_line(n: [u32; 6]) -> Result<Line, FaultKind>
    ensures { result ≡ Rattle.nav_script.specs.RequestForms.block_line n }
{
    let [x0, x1, y0, y1, z0, z1] = n;
    in_limits(
        is_block(n),
        Line::Add(Shape::Block {
            x0,
            x1,
            y0,
            y1,
            z0,
            z1,
        }),
    )
}

fn cylinder_line(n: [u32; 5]) -> Result<Line, FaultKind>
    ensures { result ≡ Rattle.nav_script.specs.RequestForms.cylinder_line n }
{
    let [cx, cz, r, y0, y1] = n;
    in_limits(
        is_cylinder(n),
        Line::Add(Shape::Cylinder { cx, cz, r, y0, y1 }),
    )
}

fn area_block_line(area: u32, n: [u32; 6]) -> Result<Line, FaultKind>
    ensures { result ≡ Rattle.nav_script.specs.RequestForms.area_block_line area n }
{
    let [x0, x1, y0, y1, z0, z1] = n;
    in_limits(
        is_range(1, area, GREATEST_AREA) && is_block(n),
        Line::Add(Shape::AreaBlock {
            area,
            x0,
            x1,
            y0,
            y1,
            z0,
            z1,
        }),
    )
}

fn area_cylinder_line(area: u32, n: [u32; 5]) -> Result<Line, FaultKind>
    ensures { result ≡ Rattle.nav_script.specs.RequestForms.area_cylinder_line area n }
{
    let [cx, cz, r, y0, y1] = n;
    in_limits(
        is_range(1, area, GREATEST_AREA) && is_cylinder(n),
        Line::Add(Shape::AreaCylinder {
            area,
            cx,
            cz,
            r,
            y0,
            y1,
        }),
    )
}

fn jump_line(n: [u32; 7]) -> Result<Line, FaultKind>
    ensures { result ≡ Rattle.nav_script.specs.WayForms.jump_line n }
{
    let [x, z, from_y, to_x, to_z, to_y, cost] = n;
    if !(is_standing(x, z, from_y)
        && is_standing(to_x, to_z, to_y)
        && is_range(1, cost, COSTLIEST_JUMP))
    {
        return Err(FaultKind::Range);
    }
    Ok(Line::Jump(Jump {
        from: point_at(x, z),
        from_y,
        to: point_at(to_x, to_z),
        to_y,
        cost,
    }))
}

fn hop_line(n: [u32; 6]) -> Result<Line, FaultKind>
    ensures { result ≡ Rattle.nav_script.specs.WayForms.hop_line n }
{
    let [x, z, y, to_x, to_z, to_y] = n;
    if !(is_standing(x, z, y) && is_standing(to_x, to_z, to_y)) {
        return Err(FaultKind::Range);
    }
    Ok(Line::Hop {
        from: point_at(x, z),
        from_y: y,
        to: point_at(to_x, to_z),
        to_y,
    })
}

fn send_line(n: [u32; 6]) -> Result<Line, FaultKind>
    ensures { result ≡ Rattle.nav_script.specs.WayForms.send_line n }
{
    let [x, z, y, goal_x, goal_z, goal_y] = n;
    if !(is_standing(x, z, y) && is_standing(goal_x, goal_z, goal_y)) {
        return Err(FaultKind::Range);
    }
    Ok(Line::Send {
        from: point_at(x, z),
        from_y: y,
        to: point_at(goal_x, goal_z),
        to_y: goal_y,
    })
}

fn march_line(length: u32) -> Result<Line, FaultKind>
    ensures { result ≡ Rattle.nav_script.specs.WayForms.march_line length }
{
    in_limits(is_range(1, length, LONGEST_MARCH), Line::March(length))
}

fn drop_line(adds: u32, back: u32) -> Result<Line, FaultKind>
    ensures { result ≡ Rattle.nav_script.specs.RequestForms.drop_line adds back }
{
    if back == 0 {
        return Err(FaultKind::Range);
    }
    if back > adds {
        return Err(FaultKind::BeforeAdd);
    }
    Ok(Line::Undo(back))
}

#[tactic(auto, unfolding(crate::specs::QuestionForms::question_line))]
fn question_line(line: &[u8]) -> Option<Result<Line, FaultKind>>
    ensures { result ≡ Rattle.nav_script.specs.QuestionForms.question_line line.now }
{
    if let Some(n) = numbers_of::<2>(b"floor", line) {
        return Some(floor_line(n));
    }
    if let Some(n) = numbers_of::<6>(b"path", line) {
        return Some(path_line(n));
    }
    let n = numbers_of::<5>(b"ray", line)?;
    Some(ray_line(n))
}

#[tactic(auto, unfolding(crate::specs::RequestForms::request_line))]
fn request_line(adds: u32, line: &[u8]) -> Option<Result<Line, FaultKind>>
    ensures { result ≡ Rattle.nav_script.specs.RequestForms.request_line adds line.now }
{
    if let Some(n) = numbers_of::<6>(b"add block", line) {
        return Some(block_line(n));
    }
    if let Some(n) = numbers_of::<5>(b"add cylinder", line) {
        return Some(cylinder_line(n));
    }
    if let Some(n) = numbers_of::<1>(b"remove", line) {
        return Some(Ok(Line::Remove(n[0])));
    }
    let n = numbers_of::<1>(b"drop", line)?;
    Some(drop_line(adds, n[0]))
}

#[tactic(auto, unfolding(crate::specs::RequestForms::area_line))]
fn area_line(line: &[u8]) -> Option<Result<Line, FaultKind>>
    ensures { result ≡ Rattle.nav_script.specs.RequestForms.area_line line.now }
{
    let (area, rest) = number_after(b"add area", line)?;
    if let Some(n) = numbers_of::<6>(b" block", rest) {
        return Some(area_block_line(area, n));
    }
    let n = numbers_of::<5>(b" cylinder", rest)?;
    Some(area_cylinder_line(area, n))
}

#[tactic(auto, unfolding(crate::specs::Forms::lane_line))]
fn lane_line(lanes: u32, line: &[u8]) -> Option<Result<Line, FaultKind>>
    ensures { result ≡ Rattle.nav_script.specs.Forms.lane_line lanes line.now }
{
    if numbers_of::<0>(b"settle", line).is_some() {
        return Some(Ok(Line::Settle));
    }
    let n = numbers_of::<1>(b"lane", line)?;
    Some(below_count(n[0], lanes, Line::Lane(n[0])))
}

#[tactic(auto, unfolding(crate::specs::WayForms::worker_line))]
fn worker_line(workers: u32, line: &[u8]) -> Option<Result<Line, FaultKind>>
    ensures { result ≡ Rattle.nav_script.specs.WayForms.worker_line workers line.now }
{
    if let Some(n) = numbers_of::<1>(b"claim", line) {
        return Some(below_count(n[0], workers, Line::Claim(n[0])));
    }
    if let Some(n) = numbers_of::<1>(b"submit", line) {
        return Some(below_count(n[0], workers, Line::Submit(n[0])));
    }
    if let Some(n) = numbers_of::<1>(b"back", line) {
        return Some(below_count(n[0], workers, Line::Back(n[0])));
    }
    if numbers_of::<0>(b"aim", line).is_some() {
        return Some(Ok(Line::Aim));
    }
    if numbers_of::<0>(b"publish", line).is_some() {
        return Some(Ok(Line::Publish));
    }
    None
}

#[tactic(auto, unfolding(crate::specs::WayForms::jump_or_hop))]
fn jump_or_hop(line: &[u8]) -> Option<Result<Line, FaultKind>>
    ensures { result ≡ Rattle.nav_script.specs.WayForms.jump_or_hop line.now }
{
    if let Some(n) = numbers_of::<7>(b"jump", line) {
        return Some(jump_line(n));
    }
    let n = numbers_of::<6>(b"hop", line)?;
    Some(hop_line(n))
}

#[tactic(auto, unfolding(crate::specs::WayForms::walker_line))]
fn walker_line(line: &[u8]) -> Option<Result<Line, FaultKind>>
    ensures { result ≡ Rattle.nav_script.specs.WayForms.walker_line line.now }
{
    if let Some(n) = numbers_of::<6>(b"send", line) {
        return Some(send_line(n));
    }
    let n = numbers_of::<1>(b"march", line)?;
    Some(march_line(n[0]))
}

fn way_line(way: Way, workers: u32, line: &[u8]) -> Option<Result<Line, FaultKind>>
    ensures { result ≡ Rattle.nav_script.specs.WayForms.way_line way workers line.now }
{
    match way {
        Way::Play => {
            if let Some(read) = worker_line(workers, line) {
                return Some(read);
            }
            jump_or_hop(line)
        }
        Way::Live => walker_line(line),
    }
}

/// What a line of a script with so many lanes and workers says, where so many `add` lines of its lane stand before it;
/// else what is wrong with it.
pub fn read_line(way: Way, header: Header, adds: u32, line: &[u8]) -> Result<Line, FaultKind>
    ensures value { result ≡ read_in_groups way header.lanes header.workers adds line.now }
    ensures lane { IfOk result (NamesLaneBelow header.lanes) }
{
    if let Some(read) = question_line(line) {
        return read;
    }
    if let Some(read) = request_line(adds, line) {
        return read;
    }
    if let Some(read) = area_line(line) {
        return read;
    }
    if let Some(read) = lane_line(header.lanes, line) {
        return read;
    }
    if let Some(read) = way_line(way, header.workers, line) {
        return read;
    }
    Err(FaultKind::Line)
}
