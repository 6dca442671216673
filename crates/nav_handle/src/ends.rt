//! Questions and obstacles out of the numbers that C hands over; what is told of answers, laid into rooms of the host, and the status with which
//! a question ends.

ghost use Rattle.std.specs.Prelude.{◌≡◌, Option, ◌↔◌, IsTrue, map, IfSome, IsNone};
ghost use Rattle.nav_base.specs.declared.point.Question.{Question};
ghost use Rattle.mesh_types.specs.declared.mesh.Mesh.{Mesh};
ghost use Rattle.nav_handle.specs.Answers.{IsAsked, IsReplied};
ghost use Rattle.nav_handle.specs.Telling.{told_floors, told_path, told_ray};
ghost use Rattle.nav_base.specs.Point.{HasCoordinates};
ghost use Rattle.nav_handle.specs.Wire.{path_asked, point_of, ray_asked, laid, block_of, cylinder_of};
ghost use Rattle.nav_ground.specs.Limits.{IsBox, IsRound, IsShape};

use crate::wire::{
    NO_GOAL, NO_PATH, NO_START, NavdBlock, NavdCylinder, NavdFloor, NavdLink, NavdPath, NavdPoint,
    NavdPolygon, NavdRay, NavdTurn, NavdWay, OK, WALL,
};
use mesh_types::{Answer, Corner, Link, PolyRef, Side};
use nav_base::{FloorAt, Point, Question};
use nav_ground::Shape;

/// How the question of a path ends.
pub(crate) fn end_path(
    answer: Result<Answer, u32>,
    path: &mut NavdPath,
    links: &mut [NavdLink],
    turns: &mut [NavdTurn],
) -> u32
    ensures { (held : Option Mesh) (question : Question) → IsReplied held question answer
        → IsAsked told_path held question (path.old, links.old, turns.old) (path.new, links.new, turns.new) result }
{
    match answer {
        Ok(answer) => {
            tell_path(&answer, path, links, turns);
            answer_status(&answer)
        }
        Err(status) => status,
    }
}

/// How the question of a ray ends.
pub(crate) fn end_ray(answer: Result<Answer, u32>, ray: &mut NavdRay) -> u32
    ensures { (held : Option Mesh) (question : Question) → IsReplied held question answer → IsAsked told_ray held question ray.old ray.new result }
{
    match answer {
        Ok(answer) => {
            tell_ray(&answer, ray);
            answer_status(&answer)
        }
        Err(status) => status,
    }
}

/// How the question of a column's floors ends.
pub(crate) fn end_floors(
    answer: Result<Answer, u32>,
    count: &mut usize,
    floors: &mut [NavdFloor],
) -> u32
    ensures { (held : Option Mesh) (question : Question) → IsReplied held question answer
        → IsAsked told_floors held question (count.old, floors.old) (count.new, floors.new) result }
{
    match answer {
        Ok(answer) => {
            tell_floors(&answer, count, floors);
            answer_status(&answer)
        }
        Err(status) => status,
    }
}

/// Whether both parts of a point are coordinates.
pub fn has_coordinates(p: NavdPoint) -> bool
    ensures { IsTrue result ↔ HasCoordinates (point_of p) }
{
    -65536 <= p.x && p.x <= 65536 && -65536 <= p.z && p.z <= 65536
}

/// Whether a way leads from a point with coordinates to another.
pub fn is_way(way: &NavdWay) -> bool
    ensures { IsTrue result ↔ (HasCoordinates (point_of way.now.from) × HasCoordinates (point_of way.now.to)) }
{
    has_coordinates(way.from) && has_coordinates(way.to)
}

pub fn point_of(p: NavdPoint) -> Point
    ensures { result ≡ Rattle.nav_handle.specs.Wire.point_of p }
{
    Point { x: p.x, z: p.z }
}

pub(crate) fn path_question(way: &NavdWay) -> Question
    ensures { result ≡ path_asked way.now }
{
    Question::Path {
        from: point_of(way.from),
        from_y: way.from_y,
        to: point_of(way.to),
        to_y: way.to_y,
    }
}

pub(crate) fn ray_question(way: &NavdWay) -> Question
    ensures { result ≡ ray_asked way.now }
{
    Question::Ray {
        from: point_of(way.from),
        from_y: way.from_y,
        to: point_of(way.to),
    }
}

pub fn point_told(p: Point) -> NavdPoint
    ensures { result ≡ Rattle.nav_handle.specs.Wire.point_told p }
{
    NavdPoint { x: p.x, z: p.z }
}

pub fn polygon_told(at: PolyRef) -> NavdPolygon
    ensures { result ≡ Rattle.nav_handle.specs.Wire.polygon_told at }
{
    NavdPolygon {
        tile: at.tile,
        index: at.index,
    }
}

pub(crate) fn link_told(link: &Link) -> NavdLink
    ensures { result ≡ Rattle.nav_handle.specs.Wire.link_told link.now }
{
    NavdLink {
        from: polygon_told(link.from),
        edge: link.edge,
        to: polygon_told(link.to),
        left: point_told(link.portal.left),
        right: point_told(link.portal.right),
    }
}

fn side_told(side: Side) -> u32
    ensures { result ≡ Rattle.nav_handle.specs.Wire.side_told side }
{
    match side {
        Side::L => 0,
        Side::R => 1,
    }
}

fn turn_told(turn: &Corner) -> NavdTurn
    ensures { result ≡ Rattle.nav_handle.specs.Wire.turn_told turn.now }
{
    NavdTurn {
        at: point_told(turn.at),
        side: side_told(turn.side),
        link: turn.portal,
    }
}

fn floor_told(floor: FloorAt) -> NavdFloor
    ensures { result ≡ Rattle.nav_handle.specs.Wire.floor_told floor }
{
    NavdFloor {
        y: floor.y,
        area: floor.area,
    }
}

/// Lays links into a room.
pub fn lay_links(links: &[Link], room: &mut [NavdLink])
    ensures { room.new ≡ laid (map Rattle.nav_handle.specs.Wire.link_told links.now) room.old }
{
    let count = links.len().min(room.len());
    for place in 0..count {
        room[place] = link_told(&links[place]);
    }
}

/// Lays turns into a room.
pub fn lay_turns(turns: &[Corner], room: &mut [NavdTurn])
    ensures { room.new ≡ laid (map Rattle.nav_handle.specs.Wire.turn_told turns.now) room.old }
{
    let count = turns.len().min(room.len());
    for place in 0..count {
        room[place] = turn_told(&turns[place]);
    }
}

/// Lays floors into a room.
fn lay_floors(floors: &[FloorAt], room: &mut [NavdFloor])
    ensures { room.new ≡ laid (map Rattle.nav_handle.specs.Wire.floor_told floors.now) room.old }
{
    let count = floors.len().min(room.len());
    for place in 0..count {
        room[place] = floor_told(floors[place]);
    }
}

/// Lays numbers into a room.
pub fn lay_numbers(numbers: &[u32], room: &mut [u32])
    ensures { room.new ≡ laid numbers.now room.old }
{
    let count = numbers.len().min(room.len());
    for place in 0..count {
        room[place] = numbers[place];
    }
}

/// Tells a path with its links and turns, if the answer is one.
pub(crate) fn tell_path(
    answer: &Answer,
    path: &mut NavdPath,
    links: &mut [NavdLink],
    turns: &mut [NavdTurn],
)
    ensures { (path.new, links.new, turns.new) ≡ told_path answer.now (path.old, links.old, turns.old) }
{
    match answer {
        Answer::Path(found) => {
            lay_links(found.links.as_slice(), links);
            lay_turns(found.turns.as_slice(), turns);
            *path = NavdPath {
                cost: found.cost,
                first: polygon_told(found.first),
                links: found.links.len(),
                turns: found.turns.len(),
            };
        }
        _ => {}
    }
}

/// Tells where a ray ends, if the answer says so.
pub(crate) fn tell_ray(answer: &Answer, ray: &mut NavdRay)
    ensures { ray.new ≡ told_ray answer.now ray.old }
{
    match answer {
        Answer::Reached(last) => ray.last = polygon_told(*last),
        Answer::Wall { a, b, num, den } => {
            ray.a = point_told(*a);
            ray.b = point_told(*b);
            ray.num = *num;
            ray.den = *den;
        }
        _ => {}
    }
}

/// Tells floors and how many there are, if the answer is a list of them.
pub(crate) fn tell_floors(answer: &Answer, count: &mut usize, floors: &mut [NavdFloor])
    ensures { (count.new, floors.new) ≡ told_floors answer.now (count.old, floors.old) }
{
    match answer {
        Answer::Floors(found) => {
            *count = found.len();
            lay_floors(found.as_slice(), floors);
        }
        _ => {}
    }
}

/// How a question with an answer ends.
pub(crate) fn answer_status(answer: &Answer) -> u32
    ensures { result ≡ Rattle.nav_handle.specs.Telling.answer_status answer.now }
{
    match answer {
        Answer::Floors(_) | Answer::Path(_) | Answer::Reached(_) => OK,
        Answer::NoStart => NO_START,
        Answer::NoGoal => NO_GOAL,
        Answer::NoPath => NO_PATH,
        Answer::Wall { .. } => WALL,
    }
}

/// Whether a block's numbers are in their limits.
fn is_box(block: &NavdBlock) -> bool
    ensures { IsTrue result ↔ IsBox block.now.x0 block.now.x1 block.now.y0 block.now.y1 block.now.z0 block.now.z1 }
{
    block.x0 <= block.x1
        && block.x1 <= 1023
        && block.y0 <= block.y1
        && block.y1 <= 8191
        && block.z0 <= block.z1
        && block.z1 <= 1023
}

/// Whether a cylinder's numbers are in their limits.
fn is_round(round: &NavdCylinder) -> bool
    ensures { IsTrue result ↔ IsRound round.now.cx round.now.cz round.now.r round.now.y0 round.now.y1 }
{
    round.cx <= 2048
        && round.cz <= 2048
        && round.r <= 1023
        && round.y0 <= round.y1
        && round.y1 <= 8191
}

/// A block as an obstacle, which sets an area or, with the area 0, stops agents; none exactly where a number is out of its limits.
pub fn block_shape(block: &NavdBlock, area: u32) -> Option<Shape>
    ensures shape { IfSome result (λ shape. shape ≡ block_of area block.now) }
    ensures limits { IfSome result IsShape }
    ensures none { IsNone result ↔ (IsShape (block_of area block.now) → ⊥) }
{
    if area > 63 || !is_box(block) {
        return None;
    }
    let NavdBlock {
        x0,
        x1,
        y0,
        y1,
        z0,
        z1,
    } = *block;
    if area == 0 {
        Some(Shape::Block {
            x0,
            x1,
            y0,
            y1,
            z0,
            z1,
        })
    } else {
        Some(Shape::AreaBlock {
            area,
            x0,
            x1,
            y0,
            y1,
            z0,
            z1,
        })
    }
}

/// A cylinder as an obstacle, likewise.
pub fn cylinder_shape(round: &NavdCylinder, area: u32) -> Option<Shape>
    ensures shape { IfSome result (λ shape. shape ≡ cylinder_of area round.now) }
    ensures limits { IfSome result IsShape }
    ensures none { IsNone result ↔ (IsShape (cylinder_of area round.now) → ⊥) }
{
    if area > 63 || !is_round(round) {
        return None;
    }
    let NavdCylinder { cx, cz, r, y0, y1 } = *round;
    if area == 0 {
        Some(Shape::Cylinder { cx, cz, r, y0, y1 })
    } else {
        Some(Shape::AreaCylinder {
            area,
            cx,
            cz,
            r,
            y0,
            y1,
        })
    }
}
