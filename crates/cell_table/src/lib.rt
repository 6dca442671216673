//! The neighbour table of a list of cells: by the index of a cell and a direction, the index of the cell that it names.
//!
//! What walks over cells goes along this table: each cell's neighbours are found once, in one sweep, and each mostly where it is looked for
//! first, one place after the neighbour that was found before it in that direction. The levels of the list may have gaps, as those of a
//! layer have. `neighbour_table` gives exactly the table of its definition, whatever cells the list leaves out. Where each cell that is named
//! names back, as in a layer, `mutual_table` gives the same and looks for half as many. Only memory can be refused.
//!
//! `column_of` and `column_toward` number the columns of the largest field and of one row and one column around it, so that cells in order
//! have columns in order and the column beside one is a sum away.
#![tactic(auto)]

mod table;

pub use table::{column_of, column_toward, mutual_table, neighbour_table};
