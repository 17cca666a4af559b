//! The first refusal of a source over all stages behind the grammar: definitions that other crates cite, each cited here by a law.
#![tactic(auto)]

mod laws;

pub use laws::{what_is_looked_for_last_is_refused_last, what_stages_refuse};
