//! Erosion: which cells of a field an agent's middle may be on, so that the agent keeps its radius from walls and drops.
//!
//! A boundary cell has fewer than four connections. The clearance of a cell is the least cost of a walk from a boundary cell to it: a
//! step along a connection costs 2, a diagonal step, which is two successive connected steps in perpendicular directions, costs 3. A cell is
//! kept where its clearance is at least twice the radius, as in Recast's erosion of a compact heightfield, but with the least over all walks.
//!
//! Units: a radius and a window count columns of the field (cells); costs count half columns. A direction is 0 for x - 1, 1 for z + 1, 2
//! for x + 1 and 3 for z - 1.
#![tactic(auto)]

mod erosion;
mod reach;
mod windows;

pub use erosion::{erode, erode_window, kept, kept_marks};
pub use windows::{RowWindow, cells_near, is_near, rows_of, runs_near};
