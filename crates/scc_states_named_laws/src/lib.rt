//! Laws on what a table of names tells of the statements of threads; no code.
#![tactic(auto)]

mod laws;

pub use laws::{
    a_thread_without_indices_is_named, assignments_without_indices_are_told,
    cells_of_an_array_are_its_rows, locations_in_arrays_are_told,
    locations_without_indices_are_told, rows_are_found_by_indices,
};
