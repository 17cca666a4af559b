//! From a source to the module: the laws of compiled programs, for what the static stage gives and all stages accept; no code.
#![tactic(auto)]

mod laws;

pub use laws::{
    a_module_shows_what_its_source_shows, an_accepted_program_comes_of_its_stages,
    an_accepted_source_is_timely, an_accepted_source_means_what_its_core_means,
    counted_programs_fit, what_fits_is_orderly,
};
