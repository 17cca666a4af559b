//! The cells of a design's objects, and which members of classes never change once construction is done.
//!
//! `locations` has what stands at a location of a function and the last member that it names, `statements` what a
//! statement changes and holds, `moving` the members that any statement may move; `homes` has the objects of classes
//! by their paths, `tables` where numbers stand first in lists, `known` these together; `cells` makes the cells,
//! `listed` the vectors.
#![tactic(auto)]

mod cells;
mod homes;
mod known;
mod laws;
mod listed;
mod locations;
mod moving;
mod statements;
mod tables;

pub use cells::{ObjectCells, object_cells};
pub use laws::{cells_are_numbered, the_innermost_object_is_the_parent};
pub use listed::vectors;
pub use locations::MemberOf;
pub use moving::Moving;
