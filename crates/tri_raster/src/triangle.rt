//! Triangles of a level. The bounds of heights that are gathered in a row of columns. Points of a triangle, as whole numbers. What a
//! triangle leaves in a column.

/// A corner of a triangle.
#[derive(Clone, Copy, PartialEq, Eq, Debug)]
pub struct Corner3 {
    /// Sixteenths of a column along x, 0 to 16384.
    pub x: u32,
    /// The height, in height units, 0 to 8190.
    pub y: u32,
    /// Sixteenths of a column along z, 0 to 16384.
    pub z: u32,
}

/// A triangle, its corners in any order; it may be flat.
#[derive(Clone, Copy, PartialEq, Eq, Debug)]
pub struct Tri {
    pub a: Corner3,
    pub b: Corner3,
    pub c: Corner3,
    /// What its upper side is: 0 for what nobody walks on, else 1 to 63.
    pub area: u32,
}

/// The least and the greatest height in a column that was seen so far, down and up to whole numbers.
#[derive(Clone, Copy)]
pub struct Bound {
    pub low: u32,
    pub high: u32,
}

/// Columns of a row, from `first` on, below `end`.
#[derive(Clone, Copy)]
pub struct Hits {
    pub first: u32,
    pub end: u32,
}

/// The bounds of a column that no height was put into: no height is above 8190.
pub const FRESH: Bound = Bound { low: 8191, high: 0 };

/// A point of a triangle times a whole number.
#[derive(Clone, Copy)]
pub struct Spot {
    /// The whole number, at least 1.
    pub n: u32,
    /// The point's place along x, times that number, in sixteenths of a column.
    pub x: u32,
    /// The point's height times that number.
    pub y: u32,
}

/// A spot, and the whole numbers that it lies between.
#[derive(Clone, Copy)]
pub struct Mark {
    pub spot: Spot,
    /// The column that the spot lies in; where it lies on a line between two columns, the right one.
    pub column: u32,
    /// How many of the lines between columns lie left of it.
    pub end: u32,
    /// The greatest whole height that is not above it.
    pub low: u32,
    /// The least whole height that is not below it.
    pub high: u32,
}

/// What stands in a place that has no mark yet.
pub const NO_MARK: Mark = Mark {
    spot: Spot { n: 1, x: 0, y: 0 },
    column: 0,
    end: 0,
    low: 0,
    high: 0,
};

/// What a triangle leaves in a column that it hits, in height units.
#[derive(Clone, Copy)]
pub struct Shadow {
    /// The greatest whole number that is not above any point of the triangle in the column.
    pub bottom: u32,
    /// The least whole number that is not below any point of the triangle in the column, and at least one more than the bottom.
    pub top: u32,
    pub area: u32,
}
