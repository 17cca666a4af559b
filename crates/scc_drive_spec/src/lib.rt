//! What a command comes to and what it has to write: the statement of the whole theorem, and what it speaks of.
#![tactic(auto)]

mod laws;

pub use laws::{
    a_refused_source_has_no_design, the_stimulus_comes_last, what_a_request_comes_to_is_one,
    what_joining_refuses_stops_first, wrong_answers_are_ruled_out,
};
