//! Cells as they are stored: each in twenty bytes, seen by contracts as the cell. A span in ten bytes, as a field keeps it.

ghost use Rattle.std.specs.Prelude.{◌≡◌, ◌↔◌, ◌<◌, ◌==◌, ◌%◌, IsTrue, None, if◌then◌else◌};
ghost use Rattle.nav_ground.specs.Cells.{next_level};
ghost use Rattle.nav_ground.specs.Directions.{number};
ghost use Rattle.nav_ground.specs.Levels.{IsSmallLevel, level_of, number_of};
ghost use Rattle.nav_ground.specs.Marks.{marked_cell};
ghost use Rattle.nav_ground.specs.SmallCells.{IsSmall};
ghost use Rattle.nav_ground.specs.Fields.{IsSmallSpan};

use crate::cell::{Cell, CellRef};
use crate::direction::Direction;
use crate::field::Span;
use crate::free_layer::CellMark;
use std::marker::Model;

/// The number of a level that stands for none. No cell of a field has so high a level.
const NO_LEVEL: u16 = 65535;

/// A cell in twenty bytes, as lists keep it; contracts see the cell.
#[derive(Clone, Copy)]
pub struct PackedCell {
    x: u16,
    z: u16,
    level: u16,
    floor: u16,
    ceiling: u16,
    area: u8,
    /// By direction, 65535 for none.
    levels: [u16; 4],
}

impl Model for PackedCell {
    ghost use Rattle.nav_ground.specs.declared.cell.Cell.{Cell};

    ghost Value = { Cell };

    ghost use Rattle.nav_ground.specs.Packing.{cell_view, cell_inverse, cell_back};

    ghost view = { cell_view };

    ghost inverse = { cell_inverse };

    ghost inverse_ok = { λ inside _. cell_back inside };
}

impl PackedCell {
    /// A cell whose numbers are small, as those of the cells of a field are.
    pub fn new(cell: &Cell) -> Self
        requires { IsSmall cell.now }
        ensures { result ≡ cell.now }
    {
        PackedCell {
            x: cell.at.x as u16,
            z: cell.at.z as u16,
            level: cell.at.level as u16,
            floor: cell.floor as u16,
            ceiling: cell.ceiling as u16,
            area: cell.area as u8,
            levels: [
                number_of(cell.next[0]),
                number_of(cell.next[1]),
                number_of(cell.next[2]),
                number_of(cell.next[3]),
            ],
        }
    }

    /// The cell. Where a single number or level is wanted, the calls below are faster.
    pub fn get(&self) -> Cell
        ensures value { result ≡ self.now }
        ensures small { IsSmall result }
    {
        Cell {
            at: self.at(),
            floor: self.floor as u32,
            ceiling: self.ceiling as u32,
            area: self.area as u32,
            next: [
                level_of(self.levels[0]),
                level_of(self.levels[1]),
                level_of(self.levels[2]),
                level_of(self.levels[3]),
            ],
        }
    }

    /// Its column and level.
    pub fn at(&self) -> CellRef
        ensures { result ≡ self.now.at }
    {
        CellRef {
            x: self.x as u32,
            z: self.z as u32,
            level: self.level as u32,
        }
    }

    /// The height to stand on, in height units.
    pub fn floor(&self) -> u32
        ensures { result ≡ self.now.floor }
    {
        self.floor as u32
    }

    /// The height of what is above, in height units; 65535 where nothing is.
    pub fn ceiling(&self) -> u32
        ensures { result ≡ self.now.ceiling }
    {
        self.ceiling as u32
    }

    /// What is stood on.
    pub fn area(&self) -> u32
        ensures { result ≡ self.now.area }
    {
        self.area as u32
    }

    /// The level of the connected cell in a direction, or none.
    pub fn next(&self, dir: Direction) -> Option<u32>
        ensures { result ≡ next_level self.now (number dir) }
    {
        level_of(self.levels[dir.index()])
    }

    /// Whether another cell is the same.
    pub(crate) fn is(&self, other: &PackedCell) -> bool
        ensures { IsTrue result ↔ (self.now ≡ other.now) }
    {
        self.x == other.x
            && self.z == other.z
            && self.level == other.level
            && self.floor == other.floor
            && self.ceiling == other.ceiling
            && self.area == other.area
            && self.levels == other.levels
    }

    /// A mark with the cell's area, which keeps the levels in those directions in which the cell names one.
    pub(crate) fn mark(&self) -> CellMark {
        CellMark {
            area: self.area,
            sides: bit(self.levels[0], 1)
                | bit(self.levels[1], 2)
                | bit(self.levels[2], 4)
                | bit(self.levels[3], 8),
        }
    }

    /// A mark with the cell's area, which keeps all of its levels.
    pub(crate) fn whole_mark(&self) -> CellMark
        ensures { marked_cell result self.now ≡ self.now }
    {
        CellMark {
            area: self.area,
            sides: 15,
        }
    }

    /// The cell with a mark's area and those of its levels that the mark keeps.
    pub(crate) fn marked(&self, mark: CellMark) -> PackedCell
        ensures { result ≡ marked_cell mark self.now }
    {
        PackedCell {
            x: self.x,
            z: self.z,
            level: self.level,
            floor: self.floor,
            ceiling: self.ceiling,
            area: mark.area,
            levels: [
                number_left(mark.sides, self.levels[0]),
                number_left(mark.sides / 2, self.levels[1]),
                number_left(mark.sides / 2 / 2, self.levels[2]),
                number_left(mark.sides / 2 / 2 / 2, self.levels[3]),
            ],
        }
    }
}

/// A bit of a mark where a number names a level, else 0.
fn bit(number: u16, bit: u8) -> u8 {
    if number < NO_LEVEL { bit } else { 0 }
}

/// The number of a level that is left where the lowest bit is set, else of none.
fn number_left(sides: u8, number: u16) -> u16
    ensures { level_of result ≡ (if sides % 2 == 1 then level_of number else None) }
{
    if sides % 2 == 1 { number } else { NO_LEVEL }
}

fn number_of(level: Option<u32>) -> u16
    requires { IsSmallLevel level }
    ensures { result ≡ number_of level }
{
    match level {
        Some(level) => level as u16,
        None => NO_LEVEL,
    }
}

fn level_of(number: u16) -> Option<u32>
    ensures { result ≡ level_of number }
{
    if number == NO_LEVEL {
        None
    } else {
        Some(number as u32)
    }
}

/// A span in ten bytes. Contracts see the span.
#[derive(Clone, Copy)]
pub struct PackedSpan {
    x: u16,
    z: u16,
    bottom: u16,
    top: u16,
    area: u8,
}

impl Model for PackedSpan {
    ghost use Rattle.nav_ground.specs.declared.field.Span.{Span};

    ghost Value = { Span };

    ghost view = { λ a. record { x = a.x; z = a.z; bottom = a.bottom; top = a.top; area = a.area } };

    ghost inverse = { λ s. record { x = s.x; z = s.z; bottom = s.bottom; top = s.top; area = s.area } };
}

impl PackedSpan {
    /// The span in ten bytes.
    pub fn new(span: &Span) -> Self
        requires { IsSmallSpan span.now }
        ensures { result ≡ span.now }
    {
        PackedSpan {
            x: span.x as u16,
            z: span.z as u16,
            bottom: span.bottom as u16,
            top: span.top as u16,
            area: span.area as u8,
        }
    }

    /// The span.
    pub fn get(&self) -> Span
        ensures { result ≡ self.now }
    {
        Span {
            x: self.x(),
            z: self.z(),
            bottom: self.bottom(),
            top: self.top(),
            area: self.area(),
        }
    }

    /// Its column along x.
    pub fn x(&self) -> u32
        ensures { result ≡ self.now.x }
    {
        u32::from(self.x)
    }

    /// Its column along z.
    pub fn z(&self) -> u32
        ensures { result ≡ self.now.z }
    {
        u32::from(self.z)
    }

    /// The height where it begins, in height units.
    pub fn bottom(&self) -> u32
        ensures { result ≡ self.now.bottom }
    {
        u32::from(self.bottom)
    }

    /// The height where it ends, in height units.
    pub fn top(&self) -> u32
        ensures { result ≡ self.now.top }
    {
        u32::from(self.top)
    }

    /// What its top is.
    pub fn area(&self) -> u32
        ensures { result ≡ self.now.area }
    {
        u32::from(self.area)
    }
}
