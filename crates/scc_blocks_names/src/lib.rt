//! Names of cells and processes in emitted text: where they stand, and laws that tell them apart.
#![tactic(auto)]

mod laws;

pub use laws::{
    a_small_core_is_named, cells_have_names_of_their_own, ends_are_told_from_names,
    names_are_joined_steps, names_hold_no_double_mark, temporaries_have_names_of_their_own,
};
