//! What the law of copied bodies asks of a program, as a test; no code.
#![tactic(auto)]

mod laws;

pub use laws::{
    a_counted_program_is_orderly, a_counted_program_means_the_same, a_tabled_program_is_orderly,
    what_calls_lead_to_is_reached, what_is_elaborated_is_orderly,
    what_is_elaborated_means_the_same, what_passes_the_test_is_orderly,
    what_passes_the_test_means_the_same,
};
