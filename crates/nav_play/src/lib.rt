//! A script played in order over a book: the play text with its totals, and the scene of the mesh at its end, from which it is drawn as by
//! Detour's debug drawing.
//!
//! `play` (`run`, `player`) makes a text that its definition allows: for each script line in order what the history and the published mesh
//! answer, and then how far the play came. Its steps count the builds of tiles, new or remembered: each at the beginning, and then one for
//! each claim that gives a tile. Its totals count what `path` lines were answered (`lanes`). The jumps of `jump` lines are kept in order,
//! and the `hop` lines after them may use them. `play_to_end` is the same with the book as the last line leaves it, for callers that look
//! at it.
//!
//! `append_scene` (`meshes`) writes what a book shows: for how many entries of the history its mesh was published and how large it is,
//! these entries, the columns of each tile, for each tile its free cells, its polygons and the links between them, each in the mesh's
//! order, and then the links over the borders of tiles. `scene` (`play_scene`) plays a script first and writes its play text in front.
#![tactic(auto)]

mod lanes;
mod meshes;
mod play_scene;
mod player;
mod run;

pub use meshes::append_scene;
pub use play_scene::scene;
pub use run::{PlayStart, PlayText, Played, play, play_to_end};
