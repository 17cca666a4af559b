//! Programs of sources with `new`, bodies outside classes and calls by a class's name, worked by hand; each is cited here by a law.
#![tactic(auto)]

mod laws;

pub use laws::{
    arguments_are_taken_as_if_written, functions_are_called_by_their_class, objects_are_made,
    the_first_body_counts,
};
