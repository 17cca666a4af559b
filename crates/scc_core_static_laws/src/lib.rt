//! Laws of static values: what a table of names tells is what the names tell, and counters count as literals; no code.
#![tactic(auto)]

mod laws;

pub use laws::{
    static_values_by_a_table_are_those_by_names, static_values_by_a_table_are_those_of_terms,
    static_values_with_counters_are_those_of_copies, whole_expressions_are_readable,
    whole_indices_are_found,
};
