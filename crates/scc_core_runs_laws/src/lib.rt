//! Runs of a resolved core's processes do what effects and segments say: laws of the definitions.
#![tactic(auto)]

mod laws;

pub use laws::{
    a_resolved_core_does_its_effects, a_resolved_core_runs_its_segments,
    a_run_spares_what_is_no_number,
};
