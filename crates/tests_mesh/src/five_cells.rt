//! The free cells of a tile, written out.

use nav_ground::{Cell, CellRef};

/// The first row has the columns 1 to 3, the last of which has another area and a neighbour in another tile; the second row has the columns
/// 1 and 2 on two levels, which are connected to the first row alone.
pub(crate) static CELLS: [Cell; 5] = [
    Cell {
        at: CellRef {
            x: 1,
            z: 0,
            level: 0,
        },
        floor: 10,
        ceiling: 65535,
        area: 63,
        next: [None, Some(0), Some(0), None],
    },
    Cell {
        at: CellRef {
            x: 2,
            z: 0,
            level: 0,
        },
        floor: 12,
        ceiling: 65535,
        area: 63,
        next: [Some(0), Some(1), Some(0), None],
    },
    Cell {
        at: CellRef {
            x: 3,
            z: 0,
            level: 0,
        },
        floor: 9,
        ceiling: 65535,
        area: 7,
        next: [Some(0), None, Some(2), None],
    },
    Cell {
        at: CellRef {
            x: 1,
            z: 1,
            level: 0,
        },
        floor: 8,
        ceiling: 65535,
        area: 63,
        next: [None, None, None, Some(0)],
    },
    Cell {
        at: CellRef {
            x: 2,
            z: 1,
            level: 1,
        },
        floor: 14,
        ceiling: 65535,
        area: 63,
        next: [None, None, None, Some(0)],
    },
];
