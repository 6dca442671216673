//! Shapes as words, and words as shapes.

ghost use Rattle.std.specs.Prelude.{◌≡◌, ◌↔◌, ◌<◌, ◌++◌, IsTrue, OnOk, get_or};
ghost use Rattle.std.specs.List.{flat_map};
ghost use Rattle.nav_ground.specs.Limits.{IsArea, IsBox, IsDisc, IsPrism, IsRound, IsShape};
ghost use Rattle.nav_ground.specs.Prisms.{IsPrismBase};
ghost use Rattle.registry_format.specs.Reading;
ghost use Rattle.registry_format.specs.Saved.{FitsParts, FitsPoint};
ghost use Rattle.registry_format.specs.Spelling;
ghost use Rattle.registry_format.specs.Spelling.{corner_words, prism_words, shape_words};

use nav_base::Point;
use nav_ground::{PrismBase, Shape, corners, is_near, prism_base};
use std::alloc::AllocError;

/// How many words a shape has.
pub(crate) const SHAPE_WORDS: usize = 17;

const BLOCK: u32 = 0;

const CYLINDER: u32 = 1;

const PRISM: u32 = 2;

const DISC: u32 = 3;

fn block_words(area: u32, x: (u32, u32), y: (u32, u32), z: (u32, u32)) -> [u32; SHAPE_WORDS]
    ensures { result ≡ Spelling.block_words area x.0 x.1 y.0 y.1 z.0 z.1 }
{
    [
        BLOCK, area, y.0, y.1, x.0, x.1, z.0, z.1, 0, 0, 0, 0, 0, 0, 0, 0, 0,
    ]
}

fn cylinder_words(area: u32, centre: (u32, u32), r: u32, y: (u32, u32)) -> [u32; SHAPE_WORDS]
    ensures { result ≡ Spelling.cylinder_words area centre.0 centre.1 r y.0 y.1 }
{
    [
        CYLINDER, area, y.0, y.1, centre.0, centre.1, r, 0, 0, 0, 0, 0, 0, 0, 0, 0, 0,
    ]
}

fn append_prism(
    words: &mut Vec<u32>,
    base: &PrismBase,
    area: u32,
    y0: u32,
    y1: u32,
) -> Result<(), AllocError>
    ensures { OnOk result (words.new.items ≡ words.old.items ++ prism_words base.now area y0 y1) }
{
    words.extend_from_slice(&[PRISM, area, y0, y1, base.count])?;
    append_corners(words, base.corners.as_slice())
}

fn append_corners(words: &mut Vec<u32>, corners: &[Point]) -> Result<(), AllocError>
    ensures { OnOk result (words.new.items ≡ words.old.items ++ flat_map corner_words corners.now) }
{
    for corner in corners {
        words.extend_from_slice(&[corner.x.cast_unsigned(), corner.z.cast_unsigned()])?;
    }
    Ok(())
}

fn disc_words(centre: Point, r: u32, area: u32, y0: u32, y1: u32) -> [u32; SHAPE_WORDS]
    ensures { result ≡ Spelling.disc_words centre.x centre.z r area y0 y1 }
{
    [
        DISC,
        area,
        y0,
        y1,
        centre.x.cast_unsigned(),
        centre.z.cast_unsigned(),
        r,
        0,
        0,
        0,
        0,
        0,
        0,
        0,
        0,
        0,
        0,
    ]
}

/// Appends the words of a shape.
pub(crate) fn append_shape(words: &mut Vec<u32>, shape: &Shape) -> Result<(), AllocError>
    ensures { OnOk result (words.new.items ≡ words.old.items ++ shape_words shape.now) }
{
    match *shape {
        Shape::Block {
            x0,
            x1,
            y0,
            y1,
            z0,
            z1,
        } => words.extend_from_slice(&block_words(0, (x0, x1), (y0, y1), (z0, z1))),
        Shape::AreaBlock {
            area,
            x0,
            x1,
            y0,
            y1,
            z0,
            z1,
        } => words.extend_from_slice(&block_words(area, (x0, x1), (y0, y1), (z0, z1))),
        Shape::Cylinder { cx, cz, r, y0, y1 } => {
            words.extend_from_slice(&cylinder_words(0, (cx, cz), r, (y0, y1)))
        }
        Shape::AreaCylinder {
            area,
            cx,
            cz,
            r,
            y0,
            y1,
        } => words.extend_from_slice(&cylinder_words(area, (cx, cz), r, (y0, y1))),
        Shape::Prism { base, area, y0, y1 } => append_prism(words, &base, area, y0, y1),
        Shape::Disc {
            x,
            z,
            r,
            area,
            y0,
            y1,
        } => words.extend_from_slice(&disc_words(Point { x, z }, r, area, y0, y1)),
    }
}

/// The word at a place; 0 behind the last.
pub(crate) fn word_at(words: &[u32], place: usize) -> u32
    ensures { result ≡ get_or words.now place 0 }
{
    match words.get(place) {
        Some(word) => *word,
        None => 0,
    }
}

fn point_at(words: &[u32], place: usize) -> Point
    requires { place < 64 }
    ensures value { result ≡ Reading.point_at words.now place }
    ensures fits { FitsPoint result }
{
    Point {
        x: word_at(words, place).cast_signed(),
        z: word_at(words, place + 1).cast_signed(),
    }
}

fn block_of(words: &[u32]) -> Shape
    ensures value { result ≡ Reading.block_of words.now }
    ensures fits { FitsParts result }
{
    let area = word_at(words, 1);
    let y0 = word_at(words, 2);
    let y1 = word_at(words, 3);
    let x0 = word_at(words, 4);
    let x1 = word_at(words, 5);
    let z0 = word_at(words, 6);
    let z1 = word_at(words, 7);
    if area == 0 {
        Shape::Block {
            x0,
            x1,
            y0,
            y1,
            z0,
            z1,
        }
    } else {
        Shape::AreaBlock {
            area,
            x0,
            x1,
            y0,
            y1,
            z0,
            z1,
        }
    }
}

fn cylinder_of(words: &[u32]) -> Shape
    ensures value { result ≡ Reading.cylinder_of words.now }
    ensures fits { FitsParts result }
{
    let area = word_at(words, 1);
    let y0 = word_at(words, 2);
    let y1 = word_at(words, 3);
    let cx = word_at(words, 4);
    let cz = word_at(words, 5);
    let r = word_at(words, 6);
    if area == 0 {
        Shape::Cylinder { cx, cz, r, y0, y1 }
    } else {
        Shape::AreaCylinder {
            area,
            cx,
            cz,
            r,
            y0,
            y1,
        }
    }
}

fn prism_of(words: &[u32]) -> Shape
    ensures value { result ≡ Reading.prism_of words.now }
    ensures fits { FitsParts result }
{
    Shape::Prism {
        base: PrismBase {
            count: word_at(words, 4),
            corners: [
                point_at(words, 5),
                point_at(words, 7),
                point_at(words, 9),
                point_at(words, 11),
                point_at(words, 13),
                point_at(words, 15),
            ],
        },
        area: word_at(words, 1),
        y0: word_at(words, 2),
        y1: word_at(words, 3),
    }
}

fn disc_of(words: &[u32]) -> Shape
    ensures value { result ≡ Reading.disc_of words.now }
    ensures fits { FitsParts result }
{
    let Point { x, z } = point_at(words, 4);
    Shape::Disc {
        x,
        z,
        r: word_at(words, 6),
        area: word_at(words, 1),
        y0: word_at(words, 2),
        y1: word_at(words, 3),
    }
}

/// The shape that words begin with, by the first of them.
pub(crate) fn shape_of(words: &[u32]) -> Shape
    ensures value { result ≡ Reading.shape_of words.now }
    ensures fits { FitsParts result }
{
    let kind = word_at(words, 0);
    if kind == BLOCK {
        block_of(words)
    } else if kind == CYLINDER {
        cylinder_of(words)
    } else if kind == PRISM {
        prism_of(words)
    } else {
        disc_of(words)
    }
}

fn is_box(x: (u32, u32), y: (u32, u32), z: (u32, u32)) -> bool
    ensures { IsTrue result ↔ IsBox x.0 x.1 y.0 y.1 z.0 z.1 }
{
    x.0 <= x.1 && x.1 <= 1023 && y.0 <= y.1 && y.1 <= 8191 && z.0 <= z.1 && z.1 <= 1023
}

fn is_round(cx: u32, cz: u32, r: u32, y0: u32, y1: u32) -> bool
    ensures { IsTrue result ↔ IsRound cx cz r y0 y1 }
{
    cx <= 2048 && cz <= 2048 && r <= 1023 && y0 <= y1 && y1 <= 8191
}

fn is_area(area: u32) -> bool
    ensures { IsTrue result ↔ IsArea area }
{
    1 <= area && area <= 63
}

fn is_base(base: &PrismBase) -> bool
    ensures { IsTrue result ↔ IsPrismBase base.now }
{
    base.count <= 6 && prism_base(corners(base)).is_some()
}

fn is_prism(base: &PrismBase, area: u32, y0: u32, y1: u32) -> bool
    ensures { IsTrue result ↔ IsPrism base.now area y0 y1 }
{
    area <= 63 && y0 <= y1 && y1 <= 8191 && is_base(base)
}

fn is_disc(centre: Point, r: u32, area: u32, y: (u32, u32)) -> bool
    ensures { IsTrue result ↔ IsDisc centre.x centre.z r area y.0 y.1 }
{
    1 <= r && r <= 16384 && area <= 63 && y.0 <= y.1 && y.1 <= 8191 && is_near(centre)
}

/// Whether the numbers of a shape are in their limits.
pub(crate) fn is_shape(shape: &Shape) -> bool
    ensures { IsTrue result ↔ IsShape shape.now }
{
    match *shape {
        Shape::Block {
            x0,
            x1,
            y0,
            y1,
            z0,
            z1,
        } => is_box((x0, x1), (y0, y1), (z0, z1)),
        Shape::Cylinder { cx, cz, r, y0, y1 } => is_round(cx, cz, r, y0, y1),
        Shape::AreaBlock {
            area,
            x0,
            x1,
            y0,
            y1,
            z0,
            z1,
        } => is_area(area) && is_box((x0, x1), (y0, y1), (z0, z1)),
        Shape::AreaCylinder {
            area,
            cx,
            cz,
            r,
            y0,
            y1,
        } => is_area(area) && is_round(cx, cz, r, y0, y1),
        Shape::Prism { base, area, y0, y1 } => is_prism(&base, area, y0, y1),
        Shape::Disc {
            x,
            z,
            r,
            area,
            y0,
            y1,
        } => is_disc(Point { x, z }, r, area, (y0, y1)),
    }
}
