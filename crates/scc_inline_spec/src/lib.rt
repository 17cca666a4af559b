//! The copied bodies of a plain program, its fixed locations and what inlining refuses: definitions that other crates cite, each cited here by a law.
#![tactic(auto)]

mod laws;

pub use laws::{
    an_index_that_is_not_static_chooses_no_object, calls_are_accepted, calls_are_copied,
    the_stages_accept,
};
