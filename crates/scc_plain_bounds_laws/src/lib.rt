//! How far the statements reach that the static stage gives; no code.
#![tactic(auto)]

mod laws;

pub use laws::{
    exits_calls_and_values_are_told, what_is_needed_is_in_the_queue,
    what_the_static_stage_gives_is_bounded,
};
