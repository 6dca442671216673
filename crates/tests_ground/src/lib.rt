//! Tests of the ground: tiles and shapes, the filters, cells and their connections, erosion, the cut and the marks of obstacles, and the queue.
//!
//! The tests use public calls alone, and compare them with tables that were worked out by hand. They stand apart from what they test,
//! so that no crate is proved a second time with its tests.
#![tactic(auto)]

#[cfg(test)]
mod checks;
#[cfg(test)]
mod clear_marks;
#[cfg(test)]
mod clear_near;
#[cfg(test)]
mod connections;
#[cfg(test)]
mod cuts;
#[cfg(test)]
mod erosion;
#[cfg(test)]
mod filters;
#[cfg(test)]
mod kept;
#[cfg(test)]
mod marks;
#[cfg(test)]
mod neighbours;
#[cfg(test)]
mod open_cells;
#[cfg(test)]
mod prisms;
#[cfg(test)]
mod queues;
#[cfg(test)]
mod rows;
#[cfg(test)]
mod rules;
#[cfg(test)]
mod shadows;
#[cfg(test)]
mod tiles_and_shapes;
