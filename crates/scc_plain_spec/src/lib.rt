//! The plain program of a source, by substitution, and what is refused first on the way: definitions that other crates cite, each cited here by a law.
#![tactic(auto)]

mod laws;

pub use laws::{
    a_top_is_a_program, bodies_are_written, constants_and_classes_are_asked_for,
    constants_are_computed, constructors_are_written, expressions_have_kinds,
    locals_stand_in_their_calls, names_are_known_in_their_scopes, no_statements_write_nothing,
    templates_are_substituted, what_is_not_declared_means_nothing, what_is_refused_has_no_design,
    widths_are_bounded, wrong_bodies_are_refused,
};
