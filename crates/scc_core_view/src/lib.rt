//! What a core's trees stand for, as the terms, the code and the program of the definitions; no code.
#![tactic(auto)]

mod laws;

pub use laws::{
    a_bit_is_one_of_its_variable, a_program_is_its_core, a_statement_adds_its_size,
    static_values_are_those_of_terms, static_values_are_worked, worked_expressions_are_whole,
};
