//! What a ground says once: its size, its tiles, the agent that walks it, and what its areas cost. Tiles: squares of columns from the
//! corner (0, 0), cut at the field's edge.

ghost use Rattle.std.specs.Prelude.{◌≡◌, ◌<◌, ◌≤◌, ◌^◌, pos, ◌-◌, ◌+◌, ◌*◌, min};
ghost use Rattle.std.specs.Int.{div_ceil};
ghost use Rattle.nav_ground.specs.Limits.{IsSetting};
ghost use Rattle.nav_ground.specs.Tiling.{tiles_in_row, tile_count, tile_window, corner_x, corner_z};

use crate::cell::Window;

/// How many areas there are: 0, which nobody walks on, and 1 to 63.
pub const AREAS: usize = 64;

/// The agent, in height units and cells: how tall it stands, how high it steps, and how far it keeps from walls.
#[derive(Clone, Copy, PartialEq, Eq, Debug)]
pub struct Agent {
    /// Height units that the agent needs above its floor, 1 to 255.
    pub height: u32,
    /// The greatest step up or down, in height units, 0 to 254; below the height.
    pub climb: u32,
    /// Cells that the agent keeps from walls and edges, 0 to 15.
    pub radius: u32,
}

/// How the polygons of a tile are made: one rectangle a strip of cells, or outlines of regions cut into convex pieces.
#[derive(Clone, Copy, PartialEq, Eq, Debug)]
pub enum MeshKind {
    Strips,
    Contours,
}

/// Everything about a ground but its spans.
#[derive(Clone, Copy, PartialEq, Eq, Debug)]
pub struct Setting {
    /// Columns of the field along x, 1 to 1024.
    pub width: u32,
    /// Columns of the field along z, 1 to 1024.
    pub depth: u32,
    /// The side of a tile in columns, 4 to 128, and at least twice the agent's radius where `clear` is set.
    pub tile: u32,
    pub agent: Agent,
    /// How far an outline may stray from the contour, in hundredths of a squared cell, 0 to 10000; 169 is 1.3 cells, a usual value of
    /// Recast's greatest simplification error.
    pub error: u32,
    pub mesh: MeshKind,
    /// How many obstacles may be alive at once, 1 to 1024.
    pub limit: u32,
    /// What a sixteenth of a cell of way costs in each area, by its number, 1 to 1000.
    pub costs: [u32; AREAS],
    /// Whether agents keep their radius from obstacles too.
    pub clear: bool,
}

/// The number of a tile, row by row: its row times the number of tiles in a row, and its place in the row.
pub type TileNo = u32;

/// How many tiles a ground has.
pub fn tiles(setting: &Setting) -> u32
    requires { IsSetting setting.now }
    ensures { result ≡ tile_count setting.now }
{
    tiles_in_row(setting) * setting.depth.div_ceil(setting.tile)
}

/// The columns of a tile.
pub fn tile_bounds(setting: &Setting, tile: TileNo) -> Window
    requires setting { IsSetting setting.now }
    requires there { tile < tile_count setting.now }
    ensures { result ≡ tile_window setting.now tile }
{
    let columns = tiles_in_row(setting);
    let x0 = first_column(tile % columns, setting.tile, setting.width);
    let z0 = first_column(tile / columns, setting.tile, setting.depth);
    Window {
        x0: x0 as i32,
        x1: last_column(setting.width, x0, setting.tile),
        z0: z0 as i32,
        z1: last_column(setting.depth, z0, setting.tile),
    }
}

/// How many tiles stand in a row.
fn tiles_in_row(setting: &Setting) -> u32
    requires { IsSetting setting.now }
    ensures value { result ≡ tiles_in_row setting.now }
    ensures some { 1 ≤ result }
    ensures few { result ≤ 256 }
{
    setting.width.div_ceil(setting.tile)
}

/// The first column of the tile at a place along one axis, of tiles that end at an edge.
fn first_column(place: u32, tile: u32, edge: u32) -> u32
    requires tile { (1 ≤ tile) × (tile ≤ 128) }
    requires edge { edge ≤ 1024 }
    requires there { place < div_ceil edge tile }
    ensures value { result ≡ place * tile }
    ensures inside { result < edge }
{
    place * tile
}

/// The last column of a tile along one axis, cut at the field's edge.
fn last_column(edge: u32, corner: u32, tile: u32) -> i32
    requires edge { edge ≤ 1024 }
    requires tile { tile ≤ 128 }
    requires corner { corner ≤ 1024 }
    ensures { result ≡ pos (min edge (corner + tile) - 1) }
{
    (edge.min(corner + tile).max(1) - 1) as i32
}
