//! Laws of accepted sources; no code.
#![tactic(auto)]

mod laws;

pub use laws::{
    an_accepted_source_has_a_start, constants_are_those_of_any_home,
    operators_have_the_kinds_that_they_say, the_stages_answer,
    values_elements_and_bits_have_the_kinds_that_they_say,
};
