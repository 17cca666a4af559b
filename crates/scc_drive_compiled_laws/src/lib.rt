//! From a plain program and its design to the module: laws that join those of the passes; no code.
#![tactic(auto)]

mod laws;

pub use laws::{
    a_design_is_timely, a_module_shows_what_the_source_shows,
    passes_keep_the_meaning_one_after_another,
    unrolled_loops_and_resolved_pointers_keep_the_meaning,
};
