//! The four directions from a column to the columns beside it.

ghost use Rattle.std.specs.Prelude.{◌≡◌, ◌<◌};
ghost use Rattle.nav_ground.specs.Cells.{opposite};
ghost use Rattle.nav_ground.specs.Directions.{number};

/// A direction from a column to one beside it, in the order in which a cell keeps its connections: left is x - 1, above z + 1, right x + 1
/// and below z - 1.
#[derive(Clone, Copy, PartialEq, Eq, Debug)]
pub enum Direction {
    Left,
    Above,
    Right,
    Below,
}

impl Direction {
    /// All directions, by their numbers.
    pub const ALL: [Direction; 4] = [
        Direction::Left,
        Direction::Above,
        Direction::Right,
        Direction::Below,
    ];

    /// The direction of a number.
    #[inline(always)]
    pub fn of(index: u32) -> Direction
        requires small { index < 4 }
        ensures { number result ≡ index }
    {
        match index {
            0 => Direction::Left,
            1 => Direction::Above,
            2 => Direction::Right,
            _ => Direction::Below,
        }
    }

    /// Its number, as that of its place in a cell's connections.
    #[inline(always)]
    pub fn index(self) -> usize
        ensures value { result ≡ number self }
        ensures small { result < 4 }
    {
        match self {
            Direction::Left => 0,
            Direction::Above => 1,
            Direction::Right => 2,
            Direction::Below => 3,
        }
    }

    /// The direction back.
    #[inline(always)]
    pub fn opposite(self) -> Direction
        ensures { number result ≡ opposite (number self) }
    {
        match self {
            Direction::Left => Direction::Right,
            Direction::Above => Direction::Below,
            Direction::Right => Direction::Left,
            Direction::Below => Direction::Above,
        }
    }
}
