//! What passes over cores answer: the segments that trees stand for; no code.
#![tactic(auto)]

mod laws;

pub use laws::{
    a_call_answers_its_definition, a_parted_thread_is_split, a_waiting_thread_is_split,
    statements_are_segments,
};
