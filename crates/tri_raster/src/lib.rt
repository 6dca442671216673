//! Triangles to spans, after Recast's rasterisation (`rcRasterizeTriangles`): what each triangle of a level leaves in the columns of a field,
//! and the text of triangles that it is read from.
//!
//! All of it is exact, in whole numbers. A triangle is cut to a row of columns (`row`), and its cut to each column of that row (`column`); what it
//! reaches there, from its lowest height down to a whole number to its highest height up to one, is its shadow in the column. Shadows of a
//! column that meet make one span (`sweep`).
//!
//! Units: `x` and `z` of corners in sixteenths of a column, heights in height units. A column (x, z) reaches from 16 x to 16 x + 16 along x and
//! from 16 z to 16 z + 16 along z.
#![tactic(auto)]

mod column;
mod gather;
mod group;
mod row;
mod sweep;
mod text;
mod triangle;

pub use row::{row_shadows, shadow_of};
pub use sweep::raster;
pub use text::{RasterRefusal, TriText, read_triangles};
pub use triangle::{Bound, Corner3, FRESH, Hits, Shadow, Tri};
