//! Laws on what the statements of processes read and write: the rules by lists of it are those of the definitions.
#![tactic(auto)]

mod laws;

pub use laws::{
    clocks_and_sensitivities_are_told_by_lists, latches_are_told_by_lists,
    rules_are_told_by_members, shared_variables_are_told_by_lists, two_writers_are_told_by_lists,
    what_feeds_is_told_by_lists,
};
