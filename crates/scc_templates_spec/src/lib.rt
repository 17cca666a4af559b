//! A source as plain data, templates with their parameters replaced, walks over classes with arguments, and what they refuse first: definitions that other
//! crates cite, each cited here by a law.
#![tactic(auto)]

mod laws;
mod sources;

pub use laws::{
    chains_of_constants_are_bounded, specialisations_begin_a_chain, the_first_of_a_walk_stops_it,
};
pub use sources::{a_source_is_its_tree, names_are_declared_once, parameters_are_replaced};
