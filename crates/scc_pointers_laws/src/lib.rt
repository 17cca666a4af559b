//! Laws of walks: expressions and locations without pointers are those of the definitions; no code.
#![tactic(auto)]

mod laws;

pub use laws::{
    a_walk_is_the_definitions, copies_of_asked_cores_are_asked, walks_stay_sound,
    what_is_assigned_is_the_definitions, whole_cores_are_asked,
    whole_cores_are_asked_with_counters,
};
