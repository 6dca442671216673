//! The contour set of a tile simplified (Recast's `maxError`): contours with fewer corners.
//!
//! A contour goes round a region in unit edges. The corners where the code of its edges changes are kept; between two of them the contour
//! is a run, of which the corners are kept that deviate too much, by the halving of Ramer, Douglas and Peucker as in Recast. A run is
//! walked from its lesser end, so that the two regions on its sides keep the same corners of it. Corners are in whole cells.
#![tactic(auto)]

mod kept;
mod outline;
mod run;

pub use outline::simplify;
pub use run::simplify_run;
