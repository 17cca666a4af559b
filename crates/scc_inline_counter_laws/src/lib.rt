//! Laws of objects that counters choose; no code.
#![tactic(auto)]

mod laws;

pub use laws::{elements_that_are_not_alike_are_told, static_objects_stay_static};
