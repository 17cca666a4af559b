//! What grows while constructors run, and what stays apart; no code.
#![tactic(auto)]

mod laws;

pub use laws::{a_design_is_left, construction_changes, constructors_run_at_reached_sites};
