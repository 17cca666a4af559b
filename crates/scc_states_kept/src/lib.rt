//! Which cells of a thread live across a wait.
#![tactic(auto)]

mod fills;
mod kept;
mod laws;
mod own;
mod rows;
mod slots;

pub use fills::{filled, is_filled};
pub use kept::kept_of;
pub use laws::{
    cells_are_kept_where_they_are_needed, kept_cells_are_owned, what_is_needed_is_told_part_by_part,
};
